// What a step of the store answers.
use thiserror::Error;

/// Why a call of the store did not do all that was asked.
#[derive(Clone, Copy, Debug, PartialEq, Eq, Error)]
pub enum StoreFault {
    /// A write of the disk failed.
    #[error("a write failed")]
    WriteFault,
    /// A flush of the disk failed.
    #[error("a flush failed")]
    FlushFault,
    /// The next record would end past position 2^63.
    #[error("the positions of the log are used up")]
    PositionEnd,
    /// An earlier write of the log or an earlier flush failed, and the disk's count of faults was this after it.
    #[error("the log is down since fault {fault}")]
    Down { fault: u64 },
}

/// Whether a job goes on after a step.
#[derive(Clone, Copy, Debug, PartialEq, Eq)]
pub enum Progress {
    More,
    Ended,
}
