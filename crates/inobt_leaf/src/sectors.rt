// A page as 8 sectors and as 4,096 bytes.

ghost use Rattle.std.specs.Prelude.{◌≡◌, ◌*◌, length};
ghost use Rattle.life_limits.specs.declared.TheConstants.{SECTOR_BYTES};
ghost use Rattle.life_bytes.specs.SectorBytes.{bytes_of};

use life_bytes::Sector;
use life_limits::{BLOCK_BYTES, SECTOR_BYTES};

/// How many bytes a sector has, as a length.
const SIZE: usize = SECTOR_BYTES as usize;

/// How many bytes a page has.
pub const PAGE_BYTES: usize = BLOCK_BYTES as usize;

/// The bytes of the sectors of a page.
pub fn gather(page: &[Sector]) -> [u8; PAGE_BYTES]
    requires { length page.now ≡ 8 }
    ensures { result ≡ bytes_of page.now }
{
    let mut bytes = [0; PAGE_BYTES];
    for (index, sector) in page.iter().enumerate() {
        let first = SIZE * index;
        bytes[first..first + SIZE].copy_from_slice(&sector.bytes);
    }
    bytes
}

/// Writes bytes over sectors.
pub fn scatter(bytes: &[u8], page: &mut [Sector])
    requires { length bytes.now ≡ SECTOR_BYTES * length page.old }
    ensures { bytes_of page.new ≡ bytes.now }
{
    for (index, sector) in page.iter_mut().enumerate() {
        let first = SIZE * index;
        sector.bytes.copy_from_slice(&bytes[first..first + SIZE]);
    }
}
