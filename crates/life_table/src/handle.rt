// Handles as text.

ghost use Rattle.std.specs.Prelude.{◌≡◌, ◌≢◌, ◌<◌, ◌≤◌, ◌^◌, ◌∷◌, [], ℕ, IfOk, IfSome, IsTrue, length, slice_index, string_bytes};
ghost use Rattle.std.specs.Fmt.{decimal};
ghost use Rattle.life_table.specs.declared.key.Key.{Key};
ghost use Rattle.life_table.specs.Handles.{handle_text, IsHandle};

use crate::key::{Handle, Key};
use life_limits::{MAX_GENERATION, MAX_NUMBERS};
use life_ports::NoMemory;
use std::alloc::Global;

/// Whether the text begins as a number without leading zeros does.
fn begins_as_number(text: &[u8]) -> bool
    ensures zero { IsTrue result → slice_index text.now 0 ≡ 48 → length text.now ≡ 1 }
    ensures no_plus { IsTrue result → slice_index text.now 0 ≢ 43 }
    ensures is_zero { text.now ≡ 48 ∷ [] → IsTrue result }
    ensures is_more { 48 < slice_index text.now 0 → slice_index text.now 0 ≤ 57 → IsTrue result }
{
    match text {
        [b'0'] => true,
        [first, ..] => b'1' <= *first && *first <= b'9',
        [] => false,
    }
}

/// Reads a number of 64 bits in decimal without leading zeros.
pub fn read_number(text: &str) -> Option<u64>
    ensures found { IfSome result (λ n. text.now ≡ decimal n) }
    ensures only { (n : ℕ) → n < 2 ^ 64 → text.now ≡ decimal n → result ≡ Some n }
{
    if !begins_as_number(text.as_bytes()) {
        return None;
    }
    text.parse().ok()
}

/// The key of these numbers, where they are within the limits.
fn key_of(number: Option<u64>, generation: Option<u64>) -> Option<Key>
    ensures found { IfSome result (λ key. (number ≡ Some key.number) × (generation ≡ Some key.generation) × IsHandle key) }
    ensures only { (key : Key) → IsHandle key → number ≡ Some key.number → generation ≡ Some key.generation → result ≡ Some key }
{
    match (number, generation) {
        (Some(number), Some(generation))
            if number < u64::from(MAX_NUMBERS)
                && generation != 0
                && generation <= u64::from(MAX_GENERATION) => {
            Some(Key {
                number,
                generation: generation as u32,
            })
        }
        _ => None,
    }
}

/// Reads a handle, as `192.1`: a number below 2^21, a dot, and a generation from 1 to 2^32 - 1, in decimal without
/// leading zeros.
pub fn read_handle(text: &str) -> Option<Handle>
    ensures found { IfSome result (λ key. (text.now ≡ handle_text key) × IsHandle key) }
    ensures only { (key : Key) → IsHandle key → text.now ≡ handle_text key → result ≡ Some key }
{
    match text.split_once('.') {
        Some((number, generation)) => key_of(read_number(number), read_number(generation)),
        None => None,
    }
}

/// Writes a handle as `read_handle` reads it.
pub fn print_handle(alloc: Global, handle: Handle) -> Result<String, NoMemory>
    ensures { IfOk result (λ text. string_bytes text ≡ handle_text handle) }
{
    Ok(format!(in alloc; "{}.{}", handle.number, handle.generation)?)
}
