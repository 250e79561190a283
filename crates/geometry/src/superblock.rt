//! The superblock: sector 0 of an image.
//!
//! All numbers are big endian but the checksum. Bytes that are not listed are zero.
//!
//! | at | width | field |
//! |---|---|---|
//! | 0 | 4 | magic, `LIFE` |
//! | 4 | 4 | version |
//! | 8 | 4 | groups |
//! | 12 | 4 | blocks of a group |
//! | 16 | 4 | sectors of the ring |
//! | 24 | 16 | uuid |
//! | 40 | 4 | CRC32c of the sector |

ghost use Rattle.std.specs.Prelude.{◌≡◌, ◌↔◌, IsTrue, IfOk, IfErr, take, drop};
ghost use Rattle.life_bytes.specs.Fields.{field};
ghost use Rattle.geometry.specs.declared.shape.Geometry.{Geometry};
ghost use Rattle.geometry.specs.Shape.{IsGeometry};
ghost use Rattle.geometry.specs.Superblock.{superblock_encoding};

use crate::shape::{Damaged, Geometry};
use life_bytes::{Sector, field_u32, put_crc, put_u32};
use life_limits::{MAX_BLOCKS, MAX_GROUPS, MAX_RING, MIN_BLOCKS, MIN_RING, VERSION};

/// The byte at which the checksum of a superblock stands: XFS names the field `sb_crc`.
pub const SUPERBLOCK_CRC_AT: usize = 40;

const MAGIC: u32 = 0x4c49_4645;

/// The geometry that the fields give, whatever else the sector holds.
fn fields_of(sector: &Sector) -> Geometry
    ensures version { result.version ≡ field 4 4 sector.now.bytes }
    ensures groups { result.groups ≡ field 4 8 sector.now.bytes }
    ensures blocks { result.blocks ≡ field 4 12 sector.now.bytes }
    ensures ring { result.ring ≡ field 4 16 sector.now.bytes }
    ensures uuid { result.uuid ≡ take 16 (drop 24 sector.now.bytes) }
{
    let bytes = &sector.bytes;
    let mut uuid = [0; 16];
    uuid.copy_from_slice(&bytes[24..40]);
    Geometry {
        version: field_u32(bytes, 4),
        groups: field_u32(bytes, 8),
        blocks: field_u32(bytes, 12),
        ring: field_u32(bytes, 16),
        uuid,
    }
}

fn is_within_limits(g: &Geometry) -> bool
    ensures { IsTrue result ↔ IsGeometry g.now }
{
    g.version == VERSION
        && 1 <= g.groups
        && g.groups <= MAX_GROUPS
        && MIN_BLOCKS <= g.blocks
        && g.blocks <= MAX_BLOCKS
        && MIN_RING <= g.ring
        && g.ring <= MAX_RING
}

/// Whether the sector is the superblock of such a geometry, byte by byte.
fn is_superblock_of(g: &Geometry, sector: &Sector) -> bool
    ensures sound { IsTrue result → IsGeometry g.now × (sector.now.bytes ≡ superblock_encoding g.now) }
    ensures complete { IsGeometry g.now → sector.now.bytes ≡ superblock_encoding g.now → IsTrue result }
{
    if !is_within_limits(g) {
        return false;
    }
    let mut again = Sector::zero();
    write_super(g, &mut again);
    again == *sector
}

/// Reads the superblock. The fault is always rule 1 at sector 0.
pub fn read_super(sector: &Sector) -> Result<Geometry, Damaged>
    ensures found { IfOk result (λ g. IsGeometry g × (sector.now.bytes ≡ superblock_encoding g)) }
    ensures only { (g : Geometry) → IsGeometry g → sector.now.bytes ≡ superblock_encoding g → result ≡ Ok g }
    ensures damaged { IfErr result (λ d. d ≡ record { rule = 1; sector = 0 }) }
{
    let g = fields_of(sector);
    if is_superblock_of(&g, sector) {
        Ok(g)
    } else {
        Err(Damaged { rule: 1, sector: 0 })
    }
}

/// Writes the whole sector.
pub fn write_super(g: &Geometry, into: &mut Sector)
    requires { IsGeometry g.now }
    ensures { into.new.bytes ≡ superblock_encoding g.now }
{
    let mut new = Sector::zero();
    put_u32(&mut new.bytes, 0, MAGIC);
    put_u32(&mut new.bytes, 4, g.version);
    put_u32(&mut new.bytes, 8, g.groups);
    put_u32(&mut new.bytes, 12, g.blocks);
    put_u32(&mut new.bytes, 16, g.ring);
    new.bytes[24..40].copy_from_slice(&g.uuid);
    put_crc(&mut new.bytes, SUPERBLOCK_CRC_AT);
    *into = new;
}
