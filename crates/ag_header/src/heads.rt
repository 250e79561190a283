//! The heads of the unlinked buckets as bytes.

ghost use Rattle.std.specs.Prelude.{◌≡◌, ◌+◌, ◌*◌, ◌<◌, ◌^◌, ℕ, length, get_or};
ghost use Rattle.std.specs.List.{flat_map};
ghost use Rattle.byteorder.specs.Endian.{big_bytes};
ghost use Rattle.life_bytes.specs.Fields.{field};

use crate::agi::AGI_UNLINKED_AT;
use life_bytes::{Sector, field_u32, put_u32};

pub(crate) fn bytes_of(heads: &[u32; 64]) -> [u8; 256]
    ensures bytes { result ≡ flat_map (big_bytes 4) heads.now }
    ensures many { length heads.now ≡ 64 }
    ensures small { (k : ℕ) → get_or heads.now k 0 < 2 ^ 32 }
{
    let mut bytes = [0; 256];
    for (index, head) in heads.iter().enumerate() {
        put_u32(&mut bytes, 4 * index, *head);
    }
    bytes
}

pub(crate) fn heads_in(sector: &Sector) -> [u32; 64]
    ensures { (k : ℕ) → k < 64 → get_or result k 0 ≡ field 4 (AGI_UNLINKED_AT + 4 * k) sector.now.bytes }
{
    let mut heads = [0; 64];
    for index in 0..64 {
        heads[index] = field_u32(&sector.bytes, AGI_UNLINKED_AT + 4 * index);
    }
    heads
}
