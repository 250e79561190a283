// Reading a record from the ring.
ghost use Rattle.std.specs.Prelude.{◌≡◌, ◌≤◌, ◌<◌, ◌*◌, ◌+◌, ◌/◌, ◌^◌, ◌↔◌, ℕ, List, length, map, IsTrue, IfOk, IfSome, IfNone, IsFalse, MatchOption, EachIndex, slice_index};
ghost use Rattle.std.specs.List.{flat_map, All};
ghost use Rattle.std.specs.List.Sorted.{IsStrictlyIncreasing};
ghost use Rattle.life_limits.specs.declared.TheConstants.{MAX_IMAGES, MAX_RECORD_SECTORS};
ghost use Rattle.life_bytes.specs.Fields.{AreBytes};
ghost use Rattle.life_bytes.specs.declared.sector.Sector.{Sector};
ghost use Rattle.life_bytes.specs.Sectors.{AreSectors};
ghost use Rattle.log_record.specs.Outline.{HasOutline, HasRoom, IsRecordHeader, IsStamped, filling, header_bytes};
ghost use Rattle.log_record.specs.Payload.{HoldsPayload, stamps_of, window};
ghost use Rattle.log_record.specs.Encoding.{FitsImage, record_header, image_bytes, sector_count, stamps};
ghost use Rattle.log_record.specs.Whole.{IsWholeAt, NoneWholeAt, at_place};

use crate::image::{Image, ImageList};
use crate::record::{HEADER, IMAGE, LogRecord, PAYLOAD, STAMPS, record_sectors};
use crate::write::{header_bytes, stamp_bytes};
use life_bytes::{Sector, field_u32, field_u64};
use life_limits::MAX_IMAGES;
use life_ports::NoMemory;
use std::alloc::Global;

/// The numbers with which a record's payload begins.
#[derive(Clone, Copy)]
pub(crate) struct Header {
    pub tail: u64,
    pub first: u64,
    pub commits: u32,
    pub images: u32,
}

/// The sector at the place of a position.
fn sector_at(ring: &[Sector], position: u64) -> &Sector
    requires { 0 < length ring.now }
    ensures { (d : Sector) → result.now ≡ at_place ring.now position d }
{
    &ring[(position % ring.len() as u64) as usize]
}

/// Copies bytes of the payload of the ring's sectors from a position on, beginning with its byte `at`.
fn copy_payload(ring: &[Sector], position: u64, at: usize, into: &mut [u8])
    requires some { 0 < length ring.now }
    requires size { at + length into.old ≤ 496 * MAX_RECORD_SECTORS }
    requires positions { position + (at + length into.old + 495) / 496 ≤ 2 ^ 64 }
    ensures held { HoldsPayload ring.now position at into.new }
    ensures bytes { AreBytes into.new }
{
    let mut done = 0;
    while done < into.len() {
        let from = at + done;
        let place = from % PAYLOAD;
        let count = (into.len() - done).min(PAYLOAD - place);
        let sector = sector_at(ring, position + (from / PAYLOAD) as u64);
        let first = STAMPS + place;
        into[done..done + count].copy_from_slice(&sector.bytes[first..first + count]);
        done += count;
    }
}

/// The header that is encoded by the first bytes of a payload.
fn parse_header(bytes: &[u8; HEADER]) -> Option<Header>
    ensures some { IfSome result (λ h. bytes.now ≡ header_bytes h) }
    ensures form { IfSome result IsRecordHeader }
    ensures none { IfNone result ((h : Header) → IsRecordHeader h → bytes.now ≡ header_bytes h → ⊥) }
{
    let found = Header {
        tail: field_u64(bytes, 0),
        first: field_u64(bytes, 8),
        commits: field_u32(bytes, 16),
        images: field_u32(bytes, 20),
    };
    if found.images > MAX_IMAGES {
        return None;
    }
    let encoded = header_bytes(found.tail, found.first, found.commits, found.images);
    if *bytes == encoded { Some(found) } else { None }
}

/// Whether a record with this header has room in a ring of so many sectors.
fn has_room(header: &Header, position: u64, ring: usize) -> bool
    requires { header.now.images ≤ MAX_IMAGES }
    ensures { IsTrue result ↔ HasRoom header.now position ring }
{
    let count = u64::from(record_sectors(header.images));
    let ring = ring as u64;
    header.tail <= position
        && count <= ring
        && position - header.tail <= ring - count
        && count - 1 <= u64::MAX - position
}

/// Whether a sector has the stamps of the sector at `position` in the record at `first`.
fn has_stamps(sector: &Sector, position: u64, first: u64) -> bool
    ensures stamps { IsTrue result ↔ (stamps_of sector.now ≡ stamps position first) }
    ensures whole { length sector.now.bytes ≡ 512 }
{
    &sector.bytes[..STAMPS] == stamp_bytes(position, first).as_slice()
}

/// Whether so many sectors from a position on have the stamps of a record that begins there.
fn is_stamped(ring: &[Sector], position: u64, count: u32) -> bool
    requires some { 0 < length ring.now }
    requires positions { position + count ≤ 2 ^ 64 }
    ensures stamped { IsTrue result ↔ IsStamped ring.now position count }
    ensures whole { IsTrue result → AreSectors (window ring.now position count) }
{
    for i in 0..count {
        let at = position + i as u64;
        let sector = sector_at(ring, at);
        if !has_stamps(sector, at, position) {
            return false;
        }
    }
    true
}

/// Whether each byte is zero.
fn is_zero(bytes: &[u8]) -> bool
    ensures { IsTrue result ↔ EachIndex bytes.now (λ i. slice_index bytes.now i ≡ 0) }
{
    bytes.iter().all(|byte| *byte == 0)
}

/// Whether the bytes behind so many images are zero, up to the end of the last sector.
fn is_filled(ring: &[Sector], position: u64, images: u32) -> bool
    requires few { images ≤ MAX_IMAGES }
    requires some { 0 < length ring.now }
    requires positions { position + sector_count images ≤ 2 ^ 64 }
    ensures yes { IsTrue result → HoldsPayload ring.now position (32 + 520 * images) (filling images) }
    ensures no { IsFalse result → (item : LogRecord) → IsWholeAt ring.now position item → length item.images ≡ images → ⊥ }
{
    let at = HEADER + IMAGE * images as usize;
    let count = PAYLOAD * record_sectors(images) as usize - at;
    let mut bytes = [0; PAYLOAD];
    let filling = &mut bytes[..count];
    copy_payload(ring, position, at, filling);
    is_zero(filling)
}

/// The header of a record, where all of the record but its images stands at the position.
fn read_header(ring: &[Sector], position: u64) -> Option<Header>
    ensures some { IfSome result (HasOutline ring.now position) }
    ensures none { IfNone result (NoneWholeAt ring.now position) }
{
    if ring.is_empty() {
        return None;
    }
    let mut bytes = [0; HEADER];
    copy_payload(ring, position, 0, &mut bytes);
    let header = parse_header(&bytes)?;
    if !has_room(&header, position, ring.len())
        || !is_stamped(ring, position, record_sectors(header.images))
        || !is_filled(ring, position, header.images)
    {
        return None;
    }
    Some(header)
}

/// The image whose bytes begin with the byte `at` of the payload.
fn read_image(ring: &[Sector], position: u64, at: usize) -> Image
    requires some { 0 < length ring.now }
    requires size { at + 520 ≤ 496 * MAX_RECORD_SECTORS }
    requires positions { position + (at + 520 + 495) / 496 ≤ 2 ^ 64 }
    ensures held { HoldsPayload ring.now position at (image_bytes result) }
    ensures image { FitsImage result }
{
    let mut home = [0; 8];
    copy_payload(ring, position, at, &mut home);
    let mut sector = Sector::zero();
    copy_payload(ring, position, at + 8, &mut sector.bytes);
    Image {
        home: u64::from_be_bytes(home),
        sector,
    }
}

/// So many images, behind the header.
fn read_images(
    alloc: Global,
    ring: &[Sector],
    position: u64,
    count: u32,
) -> Result<ImageList, NoMemory>
    requires few { count ≤ MAX_IMAGES }
    requires some { 0 < length ring.now }
    requires positions { position + sector_count count ≤ 2 ^ 64 }
    ensures count { IfOk result (λ images. length images ≡ count) }
    ensures images { IfOk result (All FitsImage) }
    ensures held { IfOk result (λ images. HoldsPayload ring.now position 32 (flat_map image_bytes images)) }
{
    let mut images = Vec::with_capacity(alloc, count as usize)?;
    for i in 0..count {
        images.push(read_image(ring, position, HEADER + IMAGE * i as usize))?;
    }
    Ok(ImageList::from(images))
}

/// Whether the homes ascend, so that none stands twice.
fn ascends(images: &[Image]) -> bool
    ensures { IsTrue result ↔ IsStrictlyIncreasing (map (λ image. image.home) images.now) }
{
    for i in 1..images.len() {
        if images[i - 1].home >= images[i].home {
            return false;
        }
    }
    true
}

/// The record that is whole at a position of the ring, if one is.
pub fn read_record(
    alloc: Global,
    ring: &[Sector],
    position: u64,
) -> Result<Option<LogRecord>, NoMemory>
    ensures { IfOk result (λ found. MatchOption found (NoneWholeAt ring.now position) (IsWholeAt ring.now position)) }
{
    let Some(header) = read_header(ring, position) else {
        return Ok(None);
    };
    let images = read_images(alloc, ring, position, header.images)?;
    if !ascends(images.as_slice()) {
        return Ok(None);
    }
    Ok(Some(LogRecord {
        position,
        tail: header.tail,
        first: header.first,
        commits: header.commits,
        images,
    }))
}
