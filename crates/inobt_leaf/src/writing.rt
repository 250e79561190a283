// Writing a leaf's page.

ghost use Rattle.std.specs.Prelude.{◌≡◌, ◌+◌, ◌≤◌, [], length};
ghost use Rattle.life_limits.specs.declared.TheConstants.{BLOCK_BYTES, MAX_LEAF_RECORDS};
ghost use Rattle.life_bytes.specs.Pieces.{placed};
ghost use Rattle.life_bytes.specs.SectorBytes.{bytes_of};
ghost use Rattle.inobt_leaf.specs.Pages.{page_header, blank_page, chunk_rows, chunk_records, leaf_encoding, page_encoding};
ghost use Rattle.inobt_leaf.specs.declared.siblings.Siblings.{Siblings};

use crate::chunk::ChunkRec;
use crate::leaf::Leaf;
use crate::sectors::{PAGE_BYTES, scatter};
use crate::siblings::{Siblings, sibling_number};
use life_bytes::{Sector, put_crc, put_u16, put_u32, put_u64};

const MAGIC: u32 = 0x4941_4233;

/// The byte of a leaf's page at which its records begin: XFS names the bytes of the header before them `XFS_BTREE_SBLOCK_CRC_LEN`.
pub const LEAF_RECORDS_AT: usize = 56;

/// How many bytes a record has.
pub const RECORD_BYTES: usize = 16;

/// The byte at which the checksum of a leaf's page stands: XFS names the field `bb_crc`.
pub const LEAF_CRC_AT: usize = 52;

#[tactic(auto, unfolding(crate::specs::Pages::blank_page))]
fn blank_page() -> [u8; PAGE_BYTES]
    ensures { result ≡ blank_page }
{
    [0; PAGE_BYTES]
}

fn put_header(
    bytes: &mut [u8],
    siblings: Siblings,
    count: u16,
    group: u32,
    at: u64,
    uuid: &[u8; 16],
)
    requires { length bytes.old ≡ BLOCK_BYTES }
    ensures { bytes.new ≡ placed (page_header siblings count group at uuid.now) bytes.old }
{
    put_u32(bytes, 0, MAGIC);
    put_u16(bytes, 6, count);
    put_u32(bytes, 8, sibling_number(siblings.left));
    put_u32(bytes, 12, sibling_number(siblings.right));
    put_u64(bytes, 16, at);
    bytes[32..48].copy_from_slice(uuid);
    put_u32(bytes, 48, group);
}

fn put_record(bytes: &mut [u8], place: usize, chunk: &ChunkRec)
    requires { place + 16 ≤ length bytes.old }
    ensures { bytes.new ≡ placed (chunk_rows place chunk.now) bytes.old }
{
    put_u32(bytes, place, chunk.start);
    put_u32(bytes, place + 4, chunk.free);
    put_u64(bytes, place + 8, chunk.mask);
}

fn put_records(bytes: &mut [u8], chunks: &[ChunkRec])
    requires long { length bytes.old ≡ BLOCK_BYTES }
    requires few { length chunks.now ≤ MAX_LEAF_RECORDS }
    ensures { bytes.new ≡ placed (chunk_records LEAF_RECORDS_AT chunks.now) bytes.old }
{
    for (index, chunk) in chunks.iter().enumerate() {
        put_record(bytes, LEAF_RECORDS_AT + RECORD_BYTES * index, chunk);
    }
}

/// The bytes of the page of a leaf.
pub fn encode(
    siblings: Siblings,
    chunks: &[ChunkRec],
    group: u32,
    at: u64,
    uuid: &[u8; 16],
) -> [u8; PAGE_BYTES]
    requires { length chunks.now ≤ MAX_LEAF_RECORDS }
    ensures { result ≡ leaf_encoding siblings chunks.now group at uuid.now }
{
    let mut bytes = blank_page();
    put_header(&mut bytes, siblings, chunks.len() as u16, group, at, uuid);
    put_records(&mut bytes, chunks);
    put_crc(&mut bytes, LEAF_CRC_AT);
    bytes
}

/// Writes a leaf between its siblings over the 8 sectors of its page, whose first is sector `at` of the image.
pub fn write_leaf(
    leaf: &Leaf,
    siblings: Siblings,
    group: u32,
    at: u64,
    uuid: &[u8; 16],
    page: &mut [Sector],
)
    requires { length page.old ≡ 8 }
    ensures { bytes_of page.new ≡ leaf_encoding siblings leaf.now group at uuid.now }
{
    let bytes = encode(siblings, leaf.chunks(), group, at, uuid);
    scatter(&bytes, page);
}

/// Writes the only leaf of a tree over the 8 sectors of its page. The page stands at block `block` of the group, and
/// its first sector is sector `at` of the image; a leaf names the latter alone.
pub fn write_page(
    leaf: &Leaf,
    _block: u32,
    group: u32,
    at: u64,
    uuid: &[u8; 16],
    page: &mut [Sector],
)
    requires { length page.old ≡ 8 }
    ensures { bytes_of page.new ≡ page_encoding leaf.now group at uuid.now }
{
    write_leaf(leaf, Siblings::NONE, group, at, uuid, page);
}

/// Writes the page of a leaf without chunks, which takes no memory: the place is named as for `write_page`.
pub fn write_empty_page(group: u32, at: u64, uuid: &[u8; 16], page: &mut [Sector])
    requires { length page.old ≡ 8 }
    ensures { bytes_of page.new ≡ page_encoding [] group at uuid.now }
{
    let bytes = encode(Siblings::NONE, &[], group, at, uuid);
    scatter(&bytes, page);
}
