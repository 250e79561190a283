//! Reading an AGI.

ghost use Rattle.std.specs.Prelude.{◌≡◌, ◌+◌, ◌*◌, ◌<◌, ◌↔◌, ℕ, IsTrue, IfSome, length, take, drop, get_or};
ghost use Rattle.life_bytes.specs.Fields.{field};
ghost use Rattle.ag_header.specs.declared.agi.Agi.{Agi};
ghost use Rattle.ag_header.specs.Headers.{IsAgi, EncodesHeader};

use crate::agi::{AGI_UNLINKED_AT, Agi};
use crate::heads::heads_in;
use crate::writing::write_agi;
use life_bytes::{Sector, field_u32};
use life_limits::{FIRST_PAGE_BLOCK, LAST_PAGE_BLOCK, MAX_LEVEL};

/// The header that the fields give, whatever else the sector holds.
fn fields_of(sector: &Sector) -> Agi
    ensures group { result.group ≡ field 4 8 sector.now.bytes }
    ensures blocks { result.blocks ≡ field 4 12 sector.now.bytes }
    ensures count { result.count ≡ field 4 16 sector.now.bytes }
    ensures root { result.root ≡ field 4 20 sector.now.bytes }
    ensures level { result.level ≡ field 4 24 sector.now.bytes }
    ensures free { result.free ≡ field 4 28 sector.now.bytes }
    ensures heads { (k : ℕ) → k < 64 → get_or result.heads k 0 ≡ field 4 (AGI_UNLINKED_AT + 4 * k) sector.now.bytes }
    ensures many { length result.heads ≡ 64 }
    ensures uuid { result.uuid ≡ take 16 (drop 296 sector.now.bytes) }
{
    let bytes = &sector.bytes;
    let mut uuid = [0; 16];
    uuid.copy_from_slice(&bytes[296..312]);
    Agi {
        group: field_u32(bytes, 8),
        blocks: field_u32(bytes, 12),
        count: field_u32(bytes, 16),
        root: field_u32(bytes, 20),
        level: field_u32(bytes, 24),
        free: field_u32(bytes, 28),
        heads: heads_in(sector),
        uuid,
    }
}

fn is_agi(agi: &Agi) -> bool
    ensures { IsTrue result ↔ IsAgi agi.now }
{
    FIRST_PAGE_BLOCK <= agi.root
        && agi.root <= LAST_PAGE_BLOCK
        && 1 <= agi.level
        && agi.level <= MAX_LEVEL
}

/// Whether the sector encodes this header, byte by byte.
fn is_encoded(agi: &Agi, sector: &Sector) -> bool
    ensures { IsTrue result ↔ EncodesHeader sector.now.bytes agi.now }
{
    if !is_agi(agi) {
        return false;
    }
    let mut again = Sector::zero();
    write_agi(agi, &mut again);
    again.is_same(sector)
}

/// Reads a group's header. None where the sector is no encoding of one, by any of its bytes.
pub fn read_agi(sector: &Sector) -> Option<Agi>
    ensures found { IfSome result (EncodesHeader sector.now.bytes) }
    ensures only { (agi : Agi) → EncodesHeader sector.now.bytes agi → result ≡ Some agi }
{
    let agi = fields_of(sector);
    if is_encoded(&agi, sector) {
        Some(agi)
    } else {
        None
    }
}
