// Masks of 64 bits.

ghost use Rattle.std.specs.Prelude.{◌≡◌, ◌≢◌, ◌+◌, ◌^◌, ◌<◌, ℕ, true, false, count_ones};
ghost use Rattle.life_bytes.specs.Bits.{is_set};
ghost use Rattle.inobt_leaf.specs.Masks.{without_bit, with_bit};

/// The mask without bit `i`.
pub fn cleared(mask: u64, i: u32) -> u64
    requires { i < 64 }
    ensures { result ≡ without_bit mask i }
{
    mask & !(1 << i)
}

/// The mask with bit `i`.
pub fn with_set(mask: u64, i: u32) -> u64
    requires { i < 64 }
    ensures { result ≡ with_bit mask i }
{
    mask | (1 << i)
}

/// A law: a bit that is cleared or set is as it was made and the others stay, and the count goes by one.
pub fn masks_change_by_one_bit()
    ensures clear { (mask i : ℕ) → mask < 2 ^ 64 → i < 64 → is_set (without_bit mask i) i ≡ false }
    ensures clear_others { (mask i j : ℕ) → mask < 2 ^ 64 → i < 64 → j < 64 → j ≢ i → is_set (without_bit mask i) j ≡ is_set mask j }
    ensures clear_count { (mask i : ℕ) → mask < 2 ^ 64 → i < 64 → is_set mask i ≡ true → count_ones (without_bit mask i) + 1 ≡ count_ones mask }
    ensures set { (mask i : ℕ) → i < 64 → is_set (with_bit mask i) i ≡ true }
    ensures set_others { (mask i j : ℕ) → i < 64 → j < 64 → j ≢ i → is_set (with_bit mask i) j ≡ is_set mask j }
    ensures set_count { (mask i : ℕ) → i < 64 → is_set mask i ≡ false → count_ones (with_bit mask i) ≡ count_ones mask + 1 }
{}
