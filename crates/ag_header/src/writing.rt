//! Writing an AGI.

ghost use Rattle.std.specs.Prelude.{◌≡◌};
ghost use Rattle.life_bytes.specs.Pieces.{placed, blank};
ghost use Rattle.ag_header.specs.Headers.{FieldsFit, IsAgi, EncodesHeader, header_fields};

use crate::agi::{AGI_CRC_AT, AGI_UNLINKED_AT, Agi};
use crate::heads::bytes_of;
use life_bytes::{Sector, put_bytes, put_crc, put_u32};
use life_limits::NO_INODE;

const MAGIC: u32 = 0x5841_4749;

const VERSION: u32 = 1;

/// A sector of zeros but for the header's fields.
fn with_fields(agi: &Agi) -> Sector
    ensures bytes { result.bytes ≡ placed (header_fields agi.now) blank }
    ensures fits { FieldsFit agi.now }
{
    let group = agi.group;
    let blocks = agi.blocks;
    let count = agi.count;
    let free = agi.free;
    let mut sector = Sector::zero();
    let bytes = &mut sector.bytes;
    put_u32(bytes, 0, MAGIC);
    put_u32(bytes, 4, VERSION);
    put_u32(bytes, 8, group);
    put_u32(bytes, 12, blocks);
    put_u32(bytes, 16, count);
    put_u32(bytes, 20, agi.root);
    put_u32(bytes, 24, agi.level);
    put_u32(bytes, 28, free);
    put_u32(bytes, 32, NO_INODE);
    put_u32(bytes, 36, NO_INODE);
    put_bytes(bytes, AGI_UNLINKED_AT, &bytes_of(&agi.heads));
    put_bytes(bytes, 296, &agi.uuid);
    sector
}

/// Writes the whole sector.
pub fn write_agi(agi: &Agi, into: &mut Sector)
    requires { IsAgi agi.now }
    ensures { EncodesHeader into.new.bytes agi.now }
{
    let mut new = with_fields(agi);
    put_crc(&mut new.bytes, AGI_CRC_AT);
    *into = new;
}
