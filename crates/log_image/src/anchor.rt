//! The anchor: the sector between the groups and the ring.
//!
//! Numbers are big endian but the checksum. Bytes that are not listed are zero.
//!
//! | at | width | field |
//! |---|---|---|
//! | 0 | 4 | magic, `ANCH` |
//! | 4 | 4 | CRC32c of the sector |
//! | 8 | 8 | first valid position |
//! | 16 | 8 | next commit number |

ghost use Rattle.std.specs.Prelude.{ℕ, ◌≡◌, ◌<◌, ◌^◌, Some, IfSome, IsTrue, ◌↔◌};
ghost use Rattle.log_image.specs.Anchor.{anchor_sector};

use life_bytes::{Sector, field_u64, put_crc, put_u32, put_u64};

const MAGIC: u32 = 0x414e_4348;

/// What an anchor says.
#[derive(Clone, Copy, Debug, PartialEq, Eq)]
pub struct Anchor {
    /// The position from which on records count.
    pub position: u64,
    /// The number of the next commit, where there is no such record.
    pub next_commit: u64,
}

/// Whether the sector is the anchor with these numbers, byte by byte.
fn is_anchor_of(anchor: &Anchor, sector: &Sector) -> bool
    ensures { IsTrue result ↔ (sector.now ≡ anchor_sector anchor.now.position anchor.now.next_commit) }
{
    let mut again = Sector::zero();
    write_anchor(anchor, &mut again);
    again == *sector
}

/// Reads an anchor: `None` exactly where the sector encodes none. Whether its numbers fit the ring is not looked at.
pub fn read_anchor(sector: &Sector) -> Option<Anchor>
    ensures found { IfSome result (λ a. sector.now ≡ anchor_sector a.position a.next_commit) }
    ensures only { (position next : ℕ) → position < 2 ^ 64 → next < 2 ^ 64 → sector.now ≡ anchor_sector position next
        → result ≡ Some (record { position = position; next_commit = next }) }
{
    let anchor = Anchor {
        position: field_u64(&sector.bytes, 8),
        next_commit: field_u64(&sector.bytes, 16),
    };
    if is_anchor_of(&anchor, sector) {
        Some(anchor)
    } else {
        None
    }
}

/// Writes the whole sector.
pub fn write_anchor(anchor: &Anchor, into: &mut Sector)
    ensures { into.new ≡ anchor_sector anchor.now.position anchor.now.next_commit }
{
    let mut new = Sector::zero();
    put_u32(&mut new.bytes, 0, MAGIC);
    put_u64(&mut new.bytes, 8, anchor.position);
    put_u64(&mut new.bytes, 16, anchor.next_commit);
    put_crc(&mut new.bytes, 4);
    *into = new;
}
