// Writing a record as sectors.
ghost use Rattle.std.specs.Prelude.{◌≡◌, ◌≤◌, ◌<◌, ◌*◌, ◌+◌, ◌^◌, ◌++◌, ℕ, List, length, map, replicate, slice_index_or, IfOk, OnOk};
ghost use Rattle.std.specs.List.{range_with_len, All};
ghost use Rattle.life_limits.specs.declared.TheConstants.{MAX_IMAGES};
ghost use Rattle.life_bytes.specs.Fields.{with_piece, AreBytes};
ghost use Rattle.life_bytes.specs.declared.sector.Sector.{Sector};
ghost use Rattle.life_bytes.specs.Sectors.{AreSectors};
ghost use Rattle.log_record.specs.Payload.{payload_of, stamps_of, HasStamps};
ghost use Rattle.log_record.specs.Numbers.{record_of};
ghost use Rattle.log_record.specs.Encoding.{FitsImage, IsRecord, FitsFields, record_header, image_bytes, sector_count, encoded_record, stamps};

use crate::image::Image;
use crate::record::{HEADER, IMAGE, LogRecord, PAYLOAD, RecordNumbers, STAMPS, record_sectors};
use life_bytes::{Sector, put_u32, put_u64};
use life_ports::NoMemory;
use std::alloc::Global;

/// The stamps of the sector at `position` in the record at `first`.
pub(crate) fn stamp_bytes(position: u64, first: u64) -> [u8; STAMPS]
    ensures { result ≡ stamps position first }
{
    let mut bytes = [0; STAMPS];
    put_u64(&mut bytes, 0, position);
    put_u64(&mut bytes, 8, first);
    bytes
}

/// A sector with its stamps and a payload of zero bytes.
fn stamped(position: u64, first: u64) -> Sector
    ensures { result.bytes ≡ stamps position first ++ replicate 496 0 }
{
    let mut sector = Sector::zero();
    put_u64(&mut sector.bytes, 0, position);
    put_u64(&mut sector.bytes, 8, first);
    sector
}

/// Makes each sector one of the record at `position`, with a payload of zero bytes.
fn stamp_all(into: &mut [Sector], position: u64)
    requires { position + length into.old ≤ 2 ^ 64 }
    ensures whole { AreSectors into.new }
    ensures stamps { HasStamps position into.new }
    ensures payload { payload_of into.new ≡ replicate (496 * length into.new) 0 }
{
    for i in 0..into.len() {
        into[i] = stamped(position + i as u64, position);
    }
}

/// The first bytes of the payload of a record with these numbers.
pub(crate) fn header_bytes(tail: u64, first: u64, commits: u32, images: u32) -> [u8; HEADER]
    requires { images ≤ MAX_IMAGES }
    ensures { result ≡ record_header tail first commits images }
{
    let mut bytes = [0; HEADER];
    put_u64(&mut bytes, 0, tail);
    put_u64(&mut bytes, 8, first);
    put_u32(&mut bytes, 16, commits);
    put_u32(&mut bytes, 20, images);
    put_u32(&mut bytes, 24, record_sectors(images));
    bytes
}

/// Puts a piece into a sector's payload.
fn put_piece(sector: &mut Sector, place: usize, piece: &[u8])
    requires { place + length piece.now ≤ 496 }
    ensures whole { length sector.new.bytes ≡ 512 }
    ensures bytes { sector.new.bytes ≡ with_piece (length piece.now) (16 + place) piece.now sector.old.bytes }
{
    let from = STAMPS + place;
    sector.bytes[from..from + piece.len()].copy_from_slice(piece);
}

/// Puts bytes into the payload of the sectors, from its byte `at` on.
fn put_payload(into: &mut [Sector], at: usize, bytes: &[u8])
    requires room { at + length bytes.now ≤ 496 * length into.old }
    requires whole { AreSectors into.old }
    ensures whole { AreSectors into.new }
    ensures stamps { map stamps_of into.new ≡ map stamps_of into.old }
    ensures payload { payload_of into.new ≡ with_piece (length bytes.now) at bytes.now (payload_of into.old) }
    ensures bytes { AreBytes bytes.now }
{
    let mut at = at;
    let mut rest = bytes;
    while !rest.is_empty() {
        let place = at % PAYLOAD;
        let count = rest.len().min(PAYLOAD - place);
        let (piece, behind) = rest.split_at(count);
        put_piece(&mut into[at / PAYLOAD], place, piece);
        at += count;
        rest = behind;
    }
}

/// Puts an image into the payload of the sectors, from its byte `at` on.
fn put_image(into: &mut [Sector], at: usize, image: &Image)
    requires room { at + 520 ≤ 496 * length into.old }
    requires whole { AreSectors into.old }
    ensures whole { AreSectors into.new }
    ensures stamps { map stamps_of into.new ≡ map stamps_of into.old }
    ensures payload { payload_of into.new ≡ with_piece 520 at (image_bytes image.now) (payload_of into.old) }
    ensures image { FitsImage image.now }
{
    let home = image.home;
    put_payload(into, at, &home.to_be_bytes());
    put_payload(into, at + 8, &image.sector.bytes);
}

/// Writes the record with these numbers and images into as many sectors as it has.
pub fn fill_images(numbers: &RecordNumbers, images: &[Image], into: &mut [Sector])
    requires form { IsRecord (record_of numbers.now images.now) }
    requires room { length into.old ≡ sector_count (length images.now) }
    ensures encoded { into.new ≡ encoded_record (record_of numbers.now images.now) }
    ensures fits { FitsFields (record_of numbers.now images.now) }
{
    stamp_all(into, numbers.position);
    let header = header_bytes(
        numbers.tail,
        numbers.first,
        numbers.commits,
        images.len() as u32,
    );
    put_payload(into, 0, &header);
    let mut at = HEADER;
    for image in images {
        put_image(into, at, image);
        at += IMAGE;
    }
}

/// Writes the record into as many sectors as it has.
pub fn fill_record(item: &LogRecord, into: &mut [Sector])
    requires form { IsRecord item.now }
    requires room { length into.old ≡ sector_count (length item.now.images) }
    ensures encoded { into.new ≡ encoded_record item.now }
    ensures fits { FitsFields item.now }
{
    let numbers = RecordNumbers {
        position: item.position,
        tail: item.tail,
        first: item.first,
        commits: item.commits,
    };
    fill_images(&numbers, item.images.as_slice(), into);
}

/// The sectors of a record.
pub fn record_bytes(alloc: Global, item: &LogRecord) -> Result<Vec<Sector>, NoMemory>
    requires { IsRecord item.now }
    ensures encoded { IfOk result (λ sectors. sectors.items ≡ encoded_record item.now) }
    ensures fits { OnOk result (FitsFields item.now) }
{
    let count = record_sectors(item.images.len() as u32);
    let mut sectors = vec![in alloc; Sector::zero(); count as usize]?;
    fill_record(item, &mut sectors);
    Ok(sectors)
}
