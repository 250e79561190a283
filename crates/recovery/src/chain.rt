// The records of a log, from its tail up to its last record.
ghost use Rattle.std.specs.Prelude.{ℕ, ◌≡◌, ◌<◌, ◌≤◌, ◌^◌, ◌↔◌, IsTrue, IfOk, IfSome, MatchOption, SomeIff, length};
ghost use Rattle.std.specs.List.{All};
ghost use Rattle.life_limits.specs.declared.TheConstants.{MAX_IMAGES};
ghost use Rattle.log_image.specs.Log.{IsGroupImage, IsLast, IsLogTo, Log, record_end, next_of};
ghost use Rattle.recovery.specs.Follow.{NoLogTo, NoneNext};
ghost use Rattle.recovery.specs.Next.{HasNext};
ghost use Rattle.recovery.specs.Found.{HasGroupImages, Says};

use crate::found::Found;
use crate::homes::HomeImages;
use life_bytes::Sector;
use life_ports::NoMemory;
use log_record::{Image, LogRecord, read_record, record_sectors, whole_records};
use std::alloc::Global;

/// Whether each image is of a sector of the groups, and not of the superblock. `anchor` is the number of those sectors.
fn are_in_groups(images: &[Image], anchor: u64) -> bool
    ensures { IsTrue result ↔ All (IsGroupImage anchor) images.now }
{
    images
        .iter()
        .all(|image| 0 < image.home && image.home < anchor)
}

/// The position behind a record, where it is a number of 64 bits.
pub(crate) fn end_position(item: &LogRecord) -> Option<u64>
    requires { length item.now.images ≤ MAX_IMAGES }
    ensures { SomeIff result (record_end item.now < 2 ^ 64) (record_end item.now) }
{
    let sectors = record_sectors(item.images.len() as u32);
    item.position.checked_add(u64::from(sectors))
}

/// The next record of a log.
#[derive(Drop)]
pub(crate) struct NextRecord {
    pub item: LogRecord,
    /// The position behind it.
    pub end: u64,
    /// The number of the commit behind its commits.
    pub next_commit: u64,
}

/// The record that is whole at a position, where it can be the next of a log: its commits begin with this number, its
/// images are of the groups' sectors, and what comes behind it has numbers of 64 bits.
fn next_record(
    alloc: Global,
    ring: &[Sector],
    anchor: u64,
    position: u64,
    number: u64,
) -> Result<Option<NextRecord>, NoMemory>
    ensures { IfOk result (λ found. MatchOption found (NoneNext ring.now anchor position number) (HasNext ring.now anchor position number)) }
{
    whole_records();
    let Some(item) = read_record(alloc, ring, position)? else {
        return Ok(None);
    };
    if item.first != number || !are_in_groups(item.images.as_slice(), anchor) {
        return Ok(None);
    }
    let Some(end) = end_position(&item) else {
        return Ok(None);
    };
    let Some(next_commit) = number.checked_add(u64::from(item.commits)) else {
        return Ok(None);
    };
    Ok(Some(NextRecord {
        item,
        end,
        next_commit,
    }))
}

/// Follows the records of a log from the last record's tail up to it, which is the whole one of the greatest position.
/// Answers what the log says, or nothing where no log leads up to that record.
pub(crate) fn follow(
    alloc: Global,
    ring: &[Sector],
    anchor: u64,
    last: &LogRecord,
) -> Result<Option<Found>, NoMemory>
    requires { (position : ℕ) × IsLast ring.now position last.now }
    ensures log { IfOk result (λ found. MatchOption found (NoLogTo ring.now anchor last.now)
        (λ f. (log : Log) × IsLogTo ring.now anchor last.now log × Says log f)) }
    ensures homes { IfOk result (λ found. IfSome found (HasGroupImages anchor)) }
    ensures number { IfOk result (λ found. IfSome found (λ f. 1 ≤ f.next_commit)) }
{
    whole_records();
    let Some(end) = end_position(last) else {
        return Ok(None);
    };
    let Some(head) = read_record(alloc, ring, last.tail)? else {
        return Ok(None);
    };
    if head.first == 0 {
        return Ok(None);
    }
    let mut position = last.tail;
    let mut number = head.first;
    let mut images = HomeImages::new(alloc);
    while position < end {
        let Some(next) = next_record(alloc, ring, anchor, position, number)? else {
            return Ok(None);
        };
        images.put_all(next.item.images.as_slice())?;
        position = next.end;
        number = next.next_commit;
    }
    Ok(Some(Found {
        tail: last.tail,
        end,
        next_commit: number,
        images,
    }))
}
