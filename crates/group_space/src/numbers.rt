// Numbers that no row has, by the masks of records.

ghost use Rattle.std.specs.Prelude.{◌≡◌, ◌≤◌, ◌<◌, ◌^◌, ◌*◌, ℕ, true, IfSome, IsSomeAnd, length, sum_by};
ghost use Rattle.life_bytes.specs.Bits.{is_set};
ghost use Rattle.inobt_leaf.specs.declared.chunk.ChunkRec.{ChunkRec};
ghost use Rattle.inobt_leaf.specs.Chunks.{IsLeaf};
ghost use Rattle.group_space.specs.Numbers.{SaysUnused};

use inobt_leaf::ChunkRec;

/// The lowest bit that is set, from a place on.
fn bit_from(mask: u64, from: u32) -> Option<u32>
    ensures set { IfSome result (λ i. (from ≤ i) × (i < 64) × (is_set mask i ≡ true)) }
    ensures least { (i : ℕ) → from ≤ i → i < 64 → is_set mask i ≡ true → IsSomeAnd result (λ least. least ≤ i) }
{
    if from >= 64 {
        return None;
    }
    let rest = mask >> from;
    if rest == 0 {
        None
    } else {
        Some(from + rest.trailing_zeros())
    }
}

/// The lowest number at or above `from` that the records say no row has.
pub(crate) fn unused_in(records: &[ChunkRec], from: u32) -> Option<u32>
    requires { IsLeaf records.now }
    ensures unused { IfSome result (λ agino. (from ≤ agino) × SaysUnused records.now agino) }
    ensures least { (agino : ℕ) → from ≤ agino → SaysUnused records.now agino
        → IsSomeAnd result (λ least. least ≤ agino) }
{
    for chunk in records {
        if let Some(place) = bit_from(chunk.mask, from.saturating_sub(chunk.start)) {
            return Some(chunk.start + place);
        }
    }
    None
}

/// How many inodes of the records no row has.
pub(crate) fn sum_free(records: &[ChunkRec]) -> u32
    requires { IsLeaf records.now }
    ensures { result ≡ sum_by (λ (chunk : ChunkRec). chunk.free) records.now }
{
    let mut sum = 0;
    for chunk in records {
        sum += chunk.free;
    }
    sum
}
