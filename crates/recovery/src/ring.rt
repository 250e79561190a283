// The log of a ring.
ghost use Rattle.std.specs.Prelude.{◌≡◌, ◌≤◌, ◌<◌, ◌+◌, ◌^◌, IfOk, IfErr, IfSome, MatchOption, length};
ghost use Rattle.life_limits.specs.declared.TheConstants.{MAX_IMAGES};
ghost use Rattle.log_image.specs.Log.{AreBelow, HasLog, Log};
ghost use Rattle.recovery.specs.Broken.{BreaksChain, BreaksLog, HasRecords, IsEndOf, IsLastOf, IsLeastHigh};
ghost use Rattle.recovery.specs.Found.{HasGroupImages, Says};

use crate::chain::follow;
use crate::fault::ScanFault;
use crate::found::Found;
use crate::high::first_reaching;
use crate::homes::HomeImages;
use crate::last::last_record;
use life_bytes::Sector;
use log_image::Anchor;
use log_record::{LogRecord, record_sectors, whole_records};
use std::alloc::Global;

/// The rule of the log among the rules of sound images.
const LOG_RULE: u32 = 4;

/// The position at which a log goes on, which may be one past the numbers of 64 bits.
fn end_of_log(last: &Option<LogRecord>, position: u64) -> u128
    requires { IfSome last.now (λ item. length item.images ≤ MAX_IMAGES) }
    ensures { IsEndOf position last.now result }
{
    match last {
        None => u128::from(position),
        Some(item) => {
            u128::from(item.position) + u128::from(record_sectors(item.images.len() as u32))
        }
    }
}

/// The least sector of the ring that begins with a position from beyond the log's end and one turn of the ring.
fn high_sector(ring: &[Sector], anchor: u64, end: u128) -> Option<u64>
    requires place { anchor + 1 + length ring.now < 2 ^ 64 }
    requires end { end ≤ 2 ^ 64 }
    ensures { MatchOption result (AreBelow ring.now (end + length ring.now)) (IsLeastHigh ring.now anchor end) }
{
    let place = first_reaching(ring, end + ring.len() as u128)?;
    Some(anchor + 1 + place as u64)
}

/// The log that the last record ends, or the empty one. Where no log leads up to that record, its first sector is named.
fn log_of(
    alloc: Global,
    ring: &[Sector],
    anchor: u64,
    start: &Anchor,
    last: &Option<LogRecord>,
) -> Result<Found, ScanFault>
    requires last { IsLastOf ring.now start.now.position last.now }
    requires number { 1 ≤ start.now.next_commit }
    requires place { anchor + 1 + length ring.now < 2 ^ 64 }
    ensures found { IfOk result (λ found. (log : Log) × HasRecords ring.now anchor start.now.position start.now.next_commit log × Says log found) }
    ensures homes { IfOk result (HasGroupImages anchor) }
    ensures number { IfOk result (λ found. 1 ≤ found.next_commit) }
    ensures broken { IfErr result (BreaksChain ring.now anchor start.now.position) }
{
    let Some(item) = last else {
        return Ok(Found {
            tail: start.position,
            end: start.position,
            next_commit: start.next_commit,
            images: HomeImages::new(alloc),
        });
    };
    match follow(alloc, ring, anchor, item)? {
        Some(found) => Ok(found),
        None => Err(ScanFault::Damaged {
            rule: LOG_RULE,
            sector: anchor + 1 + item.position % ring.len() as u64,
        }),
    }
}

/// The log of a ring, which the anchor in front of it starts, or the least sector at which it breaks.
pub(crate) fn read_log(
    alloc: Global,
    ring: &[Sector],
    anchor: u64,
    start: &Anchor,
) -> Result<Found, ScanFault>
    requires number { 1 ≤ start.now.next_commit }
    requires place { anchor + 1 + length ring.now < 2 ^ 64 }
    ensures found { IfOk result (λ found. (log : Log) × HasLog ring.now anchor start.now.position start.now.next_commit log × Says log found) }
    ensures homes { IfOk result (HasGroupImages anchor) }
    ensures number { IfOk result (λ found. 1 ≤ found.next_commit) }
    ensures broken { IfErr result (BreaksLog ring.now anchor start.now.position) }
{
    whole_records();
    let last = last_record(alloc, ring, start.position)?;
    let end = end_of_log(&last, start.position);
    let log = log_of(alloc, ring, anchor, start, &last);
    let Some(high) = high_sector(ring, anchor, end) else {
        return log;
    };
    match log {
        Ok(_) => Err(ScanFault::Damaged {
            rule: LOG_RULE,
            sector: high,
        }),
        Err(fault) => Err(fault.at_most(high)),
    }
}
