//! Changes of one field, or of two that go together.

ghost use Rattle.std.specs.Prelude.{◌≤◌, ◌<◌};
ghost use Rattle.life_limits.specs.declared.TheConstants.{BUCKETS, FIRST_PAGE_BLOCK, LAST_PAGE_BLOCK, MAX_LEVEL};
ghost use Rattle.ag_header.specs.declared.agi.Agi.{Agi};
ghost use Rattle.ag_header.specs.Headers.{IsGroupHeader, EncodesHeader, with_head, with_counts, with_root};

use crate::agi::{AGI_CRC_AT, AGI_UNLINKED_AT};
use life_bytes::{Sector, put_crc, put_u32};
use life_limits::{BUCKETS, FIRST_PAGE_BLOCK, LAST_PAGE_BLOCK, MAX_LEVEL};

/// Sets the head of an unlinked bucket.
pub fn set_head(sector: &mut Sector, bucket: u32, agino: u32)
    requires header { IsGroupHeader sector.old.bytes }
    requires bucket_small { bucket < BUCKETS }
    ensures header { IsGroupHeader sector.new.bytes }
    ensures set { (agi : Agi) → EncodesHeader sector.old.bytes agi → EncodesHeader sector.new.bytes (with_head agi bucket agino) }
{
    put_u32(
        &mut sector.bytes,
        AGI_UNLINKED_AT + 4 * bucket as usize,
        agino,
    );
    put_crc(&mut sector.bytes, AGI_CRC_AT);
}

/// Sets the number of inodes and of free ones.
pub fn set_counts(sector: &mut Sector, count: u32, free: u32)
    requires { IsGroupHeader sector.old.bytes }
    ensures header { IsGroupHeader sector.new.bytes }
    ensures set { (agi : Agi) → EncodesHeader sector.old.bytes agi → EncodesHeader sector.new.bytes (with_counts agi count free) }
{
    put_u32(&mut sector.bytes, 16, count);
    put_u32(&mut sector.bytes, 28, free);
    put_crc(&mut sector.bytes, AGI_CRC_AT);
}

/// Sets the root of the inode btree and its level.
pub fn set_root(sector: &mut Sector, root: u32, level: u32)
    requires header { IsGroupHeader sector.old.bytes }
    requires root_low { FIRST_PAGE_BLOCK ≤ root }
    requires root_high { root ≤ LAST_PAGE_BLOCK }
    requires level_low { 1 ≤ level }
    requires level_high { level ≤ MAX_LEVEL }
    ensures header { IsGroupHeader sector.new.bytes }
    ensures set { (agi : Agi) → EncodesHeader sector.old.bytes agi → EncodesHeader sector.new.bytes (with_root agi root level) }
{
    put_u32(&mut sector.bytes, 20, root);
    put_u32(&mut sector.bytes, 24, level);
    put_crc(&mut sector.bytes, AGI_CRC_AT);
}
