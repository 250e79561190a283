// The last record of a ring.
ghost use Rattle.std.specs.Prelude.{◌<◌, length, IfOk, MatchOption};
ghost use Rattle.log_image.specs.Log.{HasNoLast, IsLast};
ghost use Rattle.recovery.specs.Last.{IsFrom, NoneFrom};

use life_bytes::{Sector, field_u64};
use life_ports::NoMemory;
use log_record::{LogRecord, read_record, whole_records};
use std::alloc::Global;

/// The record that is whole and begins at a place of the ring, where its position is this one or above it. A record's
/// first sector has its own position twice, so another sector costs no more than a look at these two numbers.
fn record_from(
    alloc: Global,
    ring: &[Sector],
    place: usize,
    position: u64,
) -> Result<Option<LogRecord>, NoMemory>
    requires { place < length ring.now }
    ensures { IfOk result (λ found. MatchOption found (NoneFrom ring.now place position) (IsFrom ring.now place position)) }
{
    whole_records();
    let bytes = &ring[place].bytes;
    let own = field_u64(bytes, 0);
    let first = field_u64(bytes, 8);
    if own != first || own < position || own % ring.len() as u64 != place as u64 {
        return Ok(None);
    }
    read_record(alloc, ring, own)
}

/// Of the whole records of the ring with this position or one above it the one with the greatest position.
pub(crate) fn last_record(
    alloc: Global,
    ring: &[Sector],
    position: u64,
) -> Result<Option<LogRecord>, NoMemory>
    ensures { IfOk result (λ found. MatchOption found (HasNoLast ring.now position) (IsLast ring.now position)) }
{
    let mut last = None;
    let mut least = position;
    for place in 0..ring.len() {
        if let Some(item) = record_from(alloc, ring, place, least)? {
            least = item.position;
            last = Some(item);
        }
    }
    Ok(last)
}
