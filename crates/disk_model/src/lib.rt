//! Disks as their callers see them: what a read gives, and what a stop at any moment may leave.
#![tactic(auto)]

mod blank;
mod disk;
mod disk_view;
mod fault_disk;
mod images;
mod memory_disk;
mod memory_images;
mod outcome;
mod stop_disk;
mod stops;
mod view;

pub use blank::Blank;
pub use disk::Disk;
pub use disk_view::DiskView;
pub use fault_disk::FaultDisk;
pub use images::Images;
pub use memory_disk::MemoryDisk;
pub use memory_images::MemoryImages;
pub use stop_disk::StopDisk;
pub use stops::Stops;
pub use view::View;
