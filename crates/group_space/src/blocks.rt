// Blocks taken from a map and given back to it.

ghost use Rattle.std.specs.Prelude.{◌≡◌, is_none, length, nat_eq, unwrap_or};
ghost use Rattle.group_space.specs.Taken.{CanTake, CanGive, IsWithout, IsWith};

use free_map::FreeMap;

/// The map without these blocks, as a copy.
pub(crate) fn without(map: &FreeMap, blocks: &[u32]) -> FreeMap
    requires { CanTake map.now blocks.now }
    ensures { IsWithout map.now blocks.now result }
{
    let mut copy = map.copied();
    for block in blocks {
        copy.take(*block);
    }
    copy
}

/// The map with these blocks, as a copy.
pub(crate) fn with(map: &FreeMap, blocks: &[u32]) -> FreeMap
    requires { CanGive map.now blocks.now }
    ensures { IsWith map.now blocks.now result }
{
    let mut copy = map.copied();
    for block in blocks {
        copy.give(*block);
    }
    copy
}

/// The same, with no copy where there is no block.
pub(crate) fn with_any(map: &FreeMap, blocks: &[u32]) -> Option<FreeMap>
    requires { CanGive map.now blocks.now }
    ensures map { IsWith map.now blocks.now (unwrap_or result map.now) }
    ensures none { is_none result ≡ nat_eq (length blocks.now) 0 }
{
    if blocks.is_empty() {
        None
    } else {
        Some(with(map, blocks))
    }
}
