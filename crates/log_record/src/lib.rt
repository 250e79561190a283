//! The records of the log: sector images that become durable together, as the log's sectors encode them.
#![tactic(auto)]

mod image;
mod laws;
mod read;
mod record;
mod write;

pub use image::{Commit, Image, ImageList};
pub use laws::whole_records;
pub use read::read_record;
pub use record::{LogRecord, RecordNumbers, record_sectors};
pub use write::{fill_images, fill_record, record_bytes};
