//! A mount and its end: a disk's image is recovered, so that its log begins anew, its groups are loaded and rows without links are freed; and all that a mount made is brought
//! home.
#![tactic(auto)]

mod fault;
mod forcing;
mod freeing;
mod homing;
mod keeping;
mod laws;
mod loading;
mod memory_view;
mod mounted;
mod mounting;
mod recovering;
mod unmounting;

pub use fault::{EndFault, MountFault};
pub use laws::{nothing_is_freed_twice, sound_images_are_of_tables, stores_leave_prefixes};
pub use loading::load_groups;
pub use mounted::{Mounted, NotMounted, StillMounted};
pub use mounting::mount;
pub use recovering::{Recovery, recover};
pub use unmounting::unmount;
