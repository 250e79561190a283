// The queue that the ends share, which ends when the last of them is dropped.
use crate::known::Known;
use crate::rule::InOrder;
use crossbeam_queue::{RuledSegQueue, SegPass};
use log_record::Commit;

pub type Pass = SegPass<Commit, Known>;

pub struct Shared {
    pub queue: RuledSegQueue<Commit, Known, InOrder>,
}

impl Drop for Shared {
    fn drop(self) {
        let Shared { queue } = self;
        queue.destroy();
    }
}
