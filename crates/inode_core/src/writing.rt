//! Writing a core.

ghost use Rattle.std.specs.Prelude.{◌≡◌, false};
ghost use Rattle.life_bytes.specs.Pieces.{placed, blank};
ghost use Rattle.inode_core.specs.Cores.{IsCore, EncodesCore, core_fields, fork_of, mode_of, no_fork};

use crate::shape::{CORE_CRC_AT, Core, FORK_AT};
use life_bytes::{Sector, put_bytes, put_crc, put_u8, put_u16, put_u32, put_u64};

pub(crate) const MAGIC: u16 = 0x494e;
/// A regular file that its owner may write and all may read.
pub(crate) const LIVE_MODE: u16 = 0x81a4;

const VERSION: u8 = 3;

const FORMAT: u8 = 2;

fn mode_of(live: bool) -> u16
    ensures { result ≡ mode_of live }
{
    if live { LIVE_MODE } else { 0 }
}

/// A sector of zeros but for the core's fields.
fn with_fields(core: &Core, number: u64, uuid: &[u8; 16]) -> Sector
    ensures { result.bytes ≡ placed (core_fields core.now number uuid.now) blank }
{
    let mut sector = Sector::zero();
    let bytes = &mut sector.bytes;
    put_u16(bytes, 0, MAGIC);
    put_u16(bytes, 2, mode_of(core.live));
    put_u8(bytes, 4, VERSION);
    put_u8(bytes, 5, FORMAT);
    put_u32(bytes, 16, core.links);
    put_u64(bytes, 56, core.size);
    put_u64(bytes, 64, core.blocks);
    put_u32(bytes, 76, core.extents);
    put_u32(bytes, 92, core.generation);
    put_u32(bytes, 96, core.next);
    put_u64(bytes, 152, number);
    put_bytes(bytes, 160, uuid);
    sector
}

/// Writes the core of the inode `number` before the fork that stands in the sector.
pub fn write_core(core: &Core, number: u64, uuid: &[u8; 16], into: &mut Sector)
    requires allowed { IsCore core.now }
    requires fork { core.now.live ≡ false → fork_of into.old.bytes ≡ no_fork }
    ensures encoded { EncodesCore into.new.bytes number uuid.now core.now }
    ensures same_fork { fork_of into.new.bytes ≡ fork_of into.old.bytes }
{
    let mut new = with_fields(core, number, uuid);
    put_bytes(&mut new.bytes, FORK_AT, &into.bytes[FORK_AT..]);
    put_crc(&mut new.bytes, CORE_CRC_AT);
    *into = new;
}
