//! What is mounted, and what is handed back where a mount did not come up or did not end.

use crate::fault::{EndFault, MountFault};
use disk_model::Disk;
use geometry::Geometry;
use group_core::Group;
use group_ops::GroupState;
use life_table::MountRecord;
use log_store::Store;

/// An image that is mounted.
#[derive(Drop)]
pub struct Mounted<D: Disk> {
    /// Its groups, from group 0 on. Their histories begin when the mount has come up.
    pub groups: Vec<Group<GroupState>>,
    pub store: Store<D>,
    pub geometry: Geometry,
    /// What recovery freed.
    pub story: MountRecord,
}

/// A mount that did not come up.
#[derive(Drop)]
pub struct NotMounted<D: Disk> {
    pub disk: D,
    pub fault: MountFault,
    /// Where the disk was recovered, so that its log begins anew: what was freed from then on. Of its changes maybe none is durable.
    pub begun: Option<MountRecord>,
}

/// A mount that did not end.
#[derive(Drop)]
pub struct StillMounted<D: Disk> {
    pub mounted: Mounted<D>,
    pub fault: EndFault,
}
