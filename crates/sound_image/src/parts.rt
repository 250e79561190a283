// Sectors in memory.

ghost use Rattle.std.specs.Prelude.{◌≡◌, ◌<◌, ℕ, length};
ghost use Rattle.life_bytes.specs.SectorBytes.{bytes_of};
ghost use Rattle.sound_image.specs.Places.{bytes_at, part};

use life_bytes::Sector;

/// A sector in memory has 512 bytes. What a type says of a value is known of one that is looked at.
fn hold_bytes(sector: &Sector)
    ensures { length sector.now.bytes ≡ 512 }
{
    let _half = &sector.bytes[..256];
}

/// A law: each of some sectors in memory holds its part of the bytes that they hold together. It reads nothing.
pub fn sectors_hold_parts(sectors: &[Sector])
    ensures { (k : ℕ) → k < length sectors.now → bytes_at sectors.now k ≡ part k (bytes_of sectors.now) }
{
    for sector in sectors {
        hold_bytes(sector);
    }
}
