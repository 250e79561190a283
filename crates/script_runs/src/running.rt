// A run between two lines.

use actor_holds::ActorHolds;
use disk_model::Disk;
use life_table::MountRecord;
use mount::Mounted;
use script::Said;
use script_names::Names;

/// A mount that is up, and who holds what in it.
#[derive(Drop)]
pub struct Up<D: Disk> {
    pub mounted: Mounted<D>,
    pub holds: ActorHolds,
}

/// A device, on which a mount is up or not.
#[derive(Drop)]
pub enum Device<D: Disk> {
    Idle(D),
    Mounted(Up<D>),
}

/// A run: what names are bound to, the records of the mounts that are over, and the device.
#[derive(Drop)]
pub struct Run<D: Disk> {
    pub names: Names,
    /// In order. While a mount is up there is room for its record.
    pub past: Vec<MountRecord>,
    pub device: Device<D>,
}

/// What a line comes to: the run goes on from its answer, or there was no memory for one.
#[derive(Drop)]
pub enum Comes<D: Disk> {
    Answered(Run<D>, Said),
    Unanswered(Run<D>),
}
