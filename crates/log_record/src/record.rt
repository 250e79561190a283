// A record of the log.
ghost use Rattle.std.specs.Prelude.{◌≡◌, ◌≤◌};
ghost use Rattle.life_limits.specs.declared.TheConstants.{MAX_IMAGES};
ghost use Rattle.log_record.specs.Encoding.{sector_count};

use crate::image::ImageList;

/// The bytes of a log sector in front of its payload.
pub(crate) const STAMPS: usize = 16;

/// The bytes of a log sector's payload.
pub(crate) const PAYLOAD: usize = 496;

/// The bytes of a record's payload in front of its images.
pub(crate) const HEADER: usize = 32;

/// The bytes of an image: its home, and its sector.
pub(crate) const IMAGE: usize = 520;

/// The commits that one write of the log makes durable, seen as the newest image of each sector that they write.
#[derive(Debug, Drop)]
pub struct LogRecord {
    /// The position of the record's first sector.
    pub position: u64,
    /// The position from which records still have images that may not be home.
    pub tail: u64,
    /// The number of the first commit.
    pub first: u64,
    /// The number of commits.
    pub commits: u32,
    /// The images, by ascending home.
    pub images: ImageList,
}

/// The numbers of a record, without its images.
#[derive(Clone, Copy, Debug)]
pub struct RecordNumbers {
    /// The position of the record's first sector.
    pub position: u64,
    /// The position from which records still have images that may not be home.
    pub tail: u64,
    /// The number of the first commit.
    pub first: u64,
    /// The number of commits.
    pub commits: u32,
}

/// The sectors that a record of so many images takes.
pub fn record_sectors(images: u32) -> u32
    requires { images ≤ MAX_IMAGES }
    ensures { result ≡ sector_count images }
{
    (HEADER as u32 + IMAGE as u32 * images).div_ceil(PAYLOAD as u32)
}
