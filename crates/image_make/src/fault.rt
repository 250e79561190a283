// Why an image was not made.

/// Which call of the disk failed.
#[derive(Clone, Copy, Debug, PartialEq, Eq)]
pub enum MakeFault {
    WriteFault,
    FlushFault,
}
