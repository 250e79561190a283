//! Reading a core.

ghost use Rattle.std.specs.Prelude.{◌≡◌, ◌==◌, ◌↔◌, IsTrue, IfSome, true, false, length};
ghost use Rattle.life_bytes.specs.Fields.{field};
ghost use Rattle.inode_core.specs.declared.shape.Core.{Core};
ghost use Rattle.inode_core.specs.Cores.{IsCore, EncodesCore, fork_of, no_fork};

use crate::shape::Core;
use crate::writing::{LIVE_MODE, write_core};
use life_bytes::{Sector, field_u16, field_u32, field_u64};
use life_limits::{BLOCK_BYTES, MAX_EXTENTS, MAX_GENERATION, MAX_LINKS, NO_INODE};

/// The core that the fields give, whatever else the sector holds.
fn fields_of(sector: &Sector) -> Core
    ensures live { result.live ≡ (field 2 2 sector.now.bytes == LIVE_MODE) }
    ensures links { result.links ≡ field 4 16 sector.now.bytes }
    ensures size { result.size ≡ field 8 56 sector.now.bytes }
    ensures blocks { result.blocks ≡ field 8 64 sector.now.bytes }
    ensures extents { result.extents ≡ field 4 76 sector.now.bytes }
    ensures generation { result.generation ≡ field 4 92 sector.now.bytes }
    ensures next { result.next ≡ field 4 96 sector.now.bytes }
    ensures size_of_sector { length sector.now.bytes ≡ 512 }
{
    let bytes = &sector.bytes;
    Core {
        live: field_u16(bytes, 2) == LIVE_MODE,
        links: field_u32(bytes, 16),
        size: field_u64(bytes, 56),
        blocks: field_u64(bytes, 64),
        extents: field_u32(bytes, 76),
        generation: field_u32(bytes, 92),
        next: field_u32(bytes, 96),
    }
}

fn is_core(core: &Core) -> bool
    ensures { IsTrue result ↔ IsCore core.now }
{
    if core.live {
        core.links <= MAX_LINKS
            && core.blocks <= u64::from(u32::MAX)
            && core.size == core.blocks * u64::from(BLOCK_BYTES)
            && core.extents <= MAX_EXTENTS
            && 1 <= core.generation
            && core.generation < MAX_GENERATION
    } else {
        core.links == 0
            && core.size == 0
            && core.blocks == 0
            && core.extents == 0
            && 1 <= core.generation
            && core.next == NO_INODE
    }
}

/// A sector with the fork before which the core has to stand: a free core has none.
fn fork_for(core: &Core, sector: &Sector) -> Sector
    ensures live { core.now.live ≡ true → fork_of result.bytes ≡ fork_of sector.now.bytes }
    ensures free { core.now.live ≡ false → fork_of result.bytes ≡ no_fork }
{
    if core.live { *sector } else { Sector::zero() }
}

/// Whether the sector encodes this core, byte by byte.
fn is_encoded(core: &Core, sector: &Sector, number: u64, uuid: &[u8; 16]) -> bool
    ensures { IsTrue result ↔ EncodesCore sector.now.bytes number uuid.now core.now }
{
    if !is_core(core) {
        return false;
    }
    let mut again = fork_for(core, sector);
    write_core(core, number, uuid, &mut again);
    again.is_same(sector)
}

/// Reads the core of the inode `number` of the image with this uuid. None where the sector is no
/// encoding of one, by any of its bytes.
pub fn read_core(sector: &Sector, number: u64, uuid: &[u8; 16]) -> Option<Core>
    ensures found { IfSome result (EncodesCore sector.now.bytes number uuid.now) }
    ensures only { (core : Core) → EncodesCore sector.now.bytes number uuid.now core → result ≡ Some core }
{
    let core = fields_of(sector);
    if is_encoded(&core, sector, number, uuid) {
        Some(core)
    } else {
        None
    }
}
