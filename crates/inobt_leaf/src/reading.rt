// Reading a leaf's page.

ghost use Rattle.std.specs.Prelude.{◌≡◌, ◌↔◌, ◌+◌, ◌*◌, ◌≤◌, ◌%◌, ℕ, List, IsTrue, length, map, count_ones, IfOk, MatchResult};
ghost use Rattle.std.specs.List.{range_with_len};
ghost use Rattle.life_limits.specs.declared.TheConstants.{MAX_LEAF_RECORDS};
ghost use Rattle.life_bytes.specs.SectorBytes.{bytes_of};
ghost use Rattle.inobt_leaf.specs.Chunks.{IsChunkRecord, IsLeaf};
ghost use Rattle.inobt_leaf.specs.Pages.{leaf_encoding, page_encoding, chunk_at};
ghost use Rattle.inobt_leaf.specs.declared.chunk.ChunkRec.{ChunkRec};
ghost use Rattle.inobt_leaf.specs.declared.siblings.Siblings.{Siblings};

use crate::chunk::ChunkRec;
use crate::leaf::{LEAF_CHUNKS, Leaf};
use crate::sectors::gather;
use crate::siblings::Siblings;
use crate::writing::{LEAF_RECORDS_AT, RECORD_BYTES, encode};
use life_bytes::{Sector, field_u16, field_u32, field_u64};
use life_limits::CHUNK_INODES;
use std::alloc::{AllocError, Global};

/// Why a page was not read.
#[derive(Clone, Copy, Debug, PartialEq, Eq)]
pub enum PageFault {
    /// The page encodes no leaf of this place.
    Malformed,
    NoMemory,
}

impl From<AllocError> for PageFault {
    ghost use Rattle.std.specs.Prelude.{◌≡◌};
    ghost use Rattle.inobt_leaf.specs.declared.reading.PageFault.TheVariants.{NoMemory};

    ghost from_gives = { λ _ e. e ≡ NoMemory };

    fn from(_: AllocError) -> Self {
        PageFault::NoMemory
    }
}

fn is_chunk(chunk: &ChunkRec) -> bool
    ensures { IsTrue result ↔ IsChunkRecord chunk.now }
{
    chunk.start % CHUNK_INODES == 0 && chunk.free == chunk.mask.count_ones()
}

/// Whether these are the chunks of a leaf.
fn is_leaf(chunks: &[ChunkRec]) -> bool
    requires { length chunks.now ≤ MAX_LEAF_RECORDS }
    ensures sound { IsTrue result → IsLeaf chunks.now }
    ensures complete { IsLeaf chunks.now → IsTrue result }
{
    for (index, chunk) in chunks.iter().enumerate() {
        if !is_chunk(chunk) {
            return false;
        }
        if index > 0 && chunks[index - 1].start >= chunk.start {
            return false;
        }
    }
    true
}

fn read_record(bytes: &[u8], place: usize) -> ChunkRec
    requires { place + 16 ≤ length bytes.now }
    ensures { result ≡ chunk_at bytes.now place }
{
    ChunkRec {
        start: field_u32(bytes, place),
        free: field_u32(bytes, place + 4),
        mask: field_u64(bytes, place + 8),
    }
}

fn read_records(alloc: Global, bytes: &[u8], count: usize) -> Result<Vec<ChunkRec>, AllocError>
    requires { LEAF_RECORDS_AT + 16 * count ≤ length bytes.now }
    ensures { IfOk result (λ chunks. chunks.items ≡ map (λ i. chunk_at bytes.now (LEAF_RECORDS_AT + 16 * i)) (range_with_len 0 count)) }
{
    let mut chunks = Vec::with_capacity(alloc, count)?;
    for index in 0..count {
        chunks.push(read_record(bytes, LEAF_RECORDS_AT + RECORD_BYTES * index))?;
    }
    Ok(chunks)
}

/// Whether the bytes are the page of these chunks, byte by byte.
fn is_page_of(
    siblings: Siblings,
    chunks: &[ChunkRec],
    bytes: &[u8],
    group: u32,
    at: u64,
    uuid: &[u8; 16],
) -> bool
    requires { length chunks.now ≤ MAX_LEAF_RECORDS }
    ensures sound { IsTrue result → IsLeaf chunks.now × (bytes.now ≡ leaf_encoding siblings chunks.now group at uuid.now) }
    ensures complete { IsLeaf chunks.now → bytes.now ≡ leaf_encoding siblings chunks.now group at uuid.now → IsTrue result }
{
    is_leaf(chunks) && bytes == encode(siblings, chunks, group, at, uuid).as_slice()
}

/// Reads a leaf that stands between these siblings from the 8 sectors of its page, whose first is sector `at` of the
/// image.
pub fn read_leaf(
    alloc: Global,
    page: &[Sector],
    siblings: Siblings,
    group: u32,
    at: u64,
    uuid: &[u8; 16],
) -> Result<Leaf, PageFault>
    requires { length page.now ≡ 8 }
    // What is read is encoded so.
    ensures found { IfOk result (λ leaf. IsLeaf leaf × (bytes_of page.now ≡ leaf_encoding siblings leaf group at uuid.now)) }

    // What is encoded so is read, unless memory runs out; so a page is malformed only where no leaf is encoded so.
    ensures only { (chunks : List ChunkRec) → IsLeaf chunks → bytes_of page.now ≡ leaf_encoding siblings chunks group at uuid.now
        → MatchResult result (λ leaf. leaf ≡ chunks) (λ fault. fault ≡ PageFault.NoMemory) }
{
    let bytes = gather(page);
    let count = usize::from(field_u16(&bytes, 6));
    if count > LEAF_CHUNKS {
        return Err(PageFault::Malformed);
    }
    let chunks = read_records(alloc, &bytes, count)?;
    if is_page_of(siblings, &chunks, &bytes, group, at, uuid) {
        Ok(Leaf::of(chunks))
    } else {
        Err(PageFault::Malformed)
    }
}

/// Reads the only leaf of a tree from the 8 sectors of its page. The page stands at block `block` of the group, and its
/// first sector is sector `at` of the image; a leaf names the latter alone.
pub fn read_page(
    alloc: Global,
    page: &[Sector],
    _block: u32,
    group: u32,
    at: u64,
    uuid: &[u8; 16],
) -> Result<Leaf, PageFault>
    requires { length page.now ≡ 8 }
    // What is read is encoded so.
    ensures found { IfOk result (λ leaf. IsLeaf leaf × (bytes_of page.now ≡ page_encoding leaf group at uuid.now)) }

    // What is encoded so is read, unless memory runs out; so a page is malformed only where no leaf is encoded so.
    ensures only { (chunks : List ChunkRec) → IsLeaf chunks → bytes_of page.now ≡ page_encoding chunks group at uuid.now
        → MatchResult result (λ leaf. leaf ≡ chunks) (λ fault. fault ≡ PageFault.NoMemory) }
{
    read_leaf(alloc, page, Siblings::NONE, group, at, uuid)
}
