//! The headers of the groups.

ghost use Rattle.std.specs.Prelude.{◌≡◌, ◌<◌, List, IfSome, IfNone};
ghost use Rattle.life_bytes.specs.declared.sector.Sector.{Sector};
ghost use Rattle.ag_header.specs.Headers.{IsAgi};
ghost use Rattle.sound_image.specs.Places.{bytes_at, sector_in, header_place};
ghost use Rattle.sound_image.specs.Reading.{header_of};
ghost use Rattle.sound_image.specs.Rules.{IsHeaderRight};

use ag_header::{Agi, encoded_headers_are_read, read_agi};
use geometry::Geometry;
use life_bytes::Sector;

/// The header of a group, where its sector is right.
pub fn right_header(g: &Geometry, group: u32, sector: &Sector) -> Option<Agi>
    ensures right { (image : List Sector) → bytes_at image (sector_in g.now group header_place) ≡ sector.now.bytes
        → IfSome result (λ agi. IsHeaderRight g.now image group × (header_of g.now image group ≡ agi)) }
    ensures allowed { IfSome result IsAgi }
    ensures wrong { (image : List Sector) → bytes_at image (sector_in g.now group header_place) ≡ sector.now.bytes
        → IfNone result (¬ IsHeaderRight g.now image group) }
{
    encoded_headers_are_read();
    let agi = read_agi(sector)?;
    if agi.group == group && agi.blocks == g.blocks && agi.uuid == g.uuid {
        Some(agi)
    } else {
        None
    }
}
