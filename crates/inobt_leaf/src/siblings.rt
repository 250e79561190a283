// The leaves beside a leaf.

ghost use Rattle.std.specs.Prelude.{◌≡◌};
ghost use Rattle.inobt_leaf.specs.Pages.{sibling_number};

/// What stands in place of a sibling's block where there is none.
const NO_SIBLING: u32 = u32::MAX;

/// The pages to the left and to the right of a leaf at its level, by their blocks in the group. None stands where there
/// is no such page. A block is below 2^32 - 1.
#[derive(Clone, Copy, Debug, PartialEq, Eq)]
pub struct Siblings {
    pub left: Option<u32>,
    pub right: Option<u32>,
}

impl Siblings {
    /// Those of the only leaf of a tree.
    pub const NONE: Siblings = Siblings {
        left: None,
        right: None,
    };
}

/// The number that a page has for a sibling.
pub fn sibling_number(block: Option<u32>) -> u32
    ensures { result ≡ sibling_number block }
{
    match block {
        Some(block) => block,
        None => NO_SIBLING,
    }
}
