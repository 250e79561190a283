// What the bitmap and the set of free blocks are to each other.

ghost use Rattle.std.specs.Prelude.{◌≡◌, ◌≤◌, ℕ, Bool, List, length};
ghost use Rattle.free_map.specs.Bitmap.{read_blocks, bitmap, BitsAreHeld, IsBitmap};
ghost use Rattle.life_limits.specs.declared.TheConstants.{MAX_BLOCKS};

/// A law: the bitmap of a set is read as that set, and bytes that are a bitmap are the bitmap of what they are read as,
/// so no set has two.
pub fn bitmaps_are_the_sets()
    ensures read { (blocks : List Bool) → length blocks ≤ MAX_BLOCKS → read_blocks (bitmap blocks) (length blocks) ≡ blocks }
    ensures one { (bytes : List ℕ) (n : ℕ) → IsBitmap bytes n → bitmap (read_blocks bytes n) ≡ bytes }
{}

/// A law: a number has the bits that it is made of, and no others; a bitmap has 2,048 bytes.
pub fn numbers_hold_their_bits()
    ensures { BitsAreHeld }
{}
