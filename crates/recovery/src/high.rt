// Positions in a ring.
ghost use Rattle.std.specs.Prelude.{MatchOption};
ghost use Rattle.log_image.specs.Log.{AreBelow};
ghost use Rattle.recovery.specs.High.{IsFirstReaching};

use life_bytes::{Sector, field_u64};

/// The first place of the ring whose sector begins with this position or one above it. A limit may be past the positions
/// of 64 bits, which no sector reaches then.
pub(crate) fn first_reaching(ring: &[Sector], limit: u128) -> Option<usize>
    ensures { MatchOption result (AreBelow ring.now limit) (IsFirstReaching ring.now limit) }
{
    for place in 0..ring.len() {
        if u128::from(field_u64(&ring[place].bytes, 0)) >= limit {
            return Some(place);
        }
    }
    None
}
