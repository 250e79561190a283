// Words, each of one form.

ghost use Rattle.std.specs.Prelude.{◌≡◌, ◌≢◌, ◌<◌, ◌≤◌, ◌^◌, ◌∷◌, ◌||◌, [], ℕ, IfSome, IfNone, IfOk, IfErr, IsTrue, MatchOption, OnErr, length, slice_index, false};
ghost use Rattle.std.specs.List.{list_all};
ghost use Rattle.std.specs.Fmt.{decimal};
ghost use Rattle.std.specs.Str.{IsAscii};
ghost use Rattle.life_limits.specs.declared.TheConstants.{MAX_ACTORS};
ghost use Rattle.life_table.specs.declared.key.Key.{Key};
ghost use Rattle.life_table.specs.Handles.{handle_text, IsHandle};
ghost use Rattle.script.specs.Words as words;
ghost use Rattle.script.specs.Words.{is_letter, letter_of, IsDecimal, IsHandleText};

use life_table::{Handle, read_handle};

pub(crate) fn is_lower(byte: u8) -> bool
    ensures { result ≡ words.is_lower byte }
{
    b'a' <= byte && byte <= b'z'
}

fn is_digit(byte: u8) -> bool
    ensures { result ≡ words.is_digit byte }
{
    b'0' <= byte && byte <= b'9'
}

fn are_lower_or_digits(text: &[u8]) -> bool
    ensures { result ≡ list_all (λ b. words.is_lower b || words.is_digit b) text.now }
{
    text.iter().all(|b| is_lower(*b) || is_digit(*b))
}

/// A lower-case letter and up to 15 lower-case letters or digits.
pub(crate) fn is_name(word: &[u8]) -> bool
    ensures { result ≡ words.is_name word.now }
{
    match word {
        [] => false,
        [first, rest @ ..] => is_lower(*first) && rest.len() <= 15 && are_lower_or_digits(rest),
    }
}

/// The actor of this letter.
pub(crate) fn read_actor(word: &[u8]) -> Option<u32>
    ensures found { IfSome result (λ actor. (actor < MAX_ACTORS) × (word.now ≡ letter_of actor)) }
    ensures letter { IfSome result (λ actor. IsTrue (is_letter word.now)) }
    ensures none { IfNone result (is_letter word.now ≡ false) }
{
    match word {
        [letter] if b'A' <= *letter && *letter <= b'Z' => Some(u32::from(*letter - b'A')),
        _ => None,
    }
}

/// The word as text. What a script has of numbers and handles is ASCII.
fn text_of(word: &[u8]) -> Option<&str>
    ensures found { IfSome result (λ text. text.now ≡ word.now) }
    ensures none { IfNone result (IsAscii word.now → ⊥) }
{
    str::from_utf8(word).ok()
}

/// The number that this word is the decimal of, where it lies within these bounds.
pub(crate) fn read_number(word: &[u8], low: u32, high: u32) -> Option<u32>
    ensures found { IfSome result (λ n. (low ≤ n) × (n ≤ high) × (word.now ≡ decimal n)) }
    ensures none { IfNone result (IsDecimal low high word.now → ⊥) }
{
    let number = life_table::read_number(text_of(word)?)?;
    if u64::from(low) <= number && number <= u64::from(high) {
        Some(number as u32)
    } else {
        None
    }
}

/// The handle of this text.
pub(crate) fn read_handle_word(word: &[u8]) -> Option<Handle>
    ensures found { IfSome result (λ key. IsHandle key × (word.now ≡ handle_text key)) }
    ensures none { IfNone result (IsHandleText word.now → ⊥) }
{
    read_handle(text_of(word)?)
}
