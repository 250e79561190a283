// Numbers that stand at a place in a slice of bytes, the highest byte first.

ghost use Rattle.std.specs.Prelude.{◌≡◌, ◌+◌, ◌≤◌, ◌<◌, ℕ, List, ◌^◌, length};
ghost use Rattle.life_bytes.specs.Fields.{field, with_field, AreBytes};

use byteorder::{BigEndian, ByteOrder};

/// Reads the big-endian number in the 2 bytes at place `at`.
pub fn field_u16(bytes: &[u8], at: usize) -> u16
    requires { at + 2 ≤ length bytes.now }
    ensures { result ≡ field 2 at bytes.now }
{
    BigEndian::read_u16(&bytes[at..])
}

/// Reads the big-endian number in the 4 bytes at place `at`.
pub fn field_u32(bytes: &[u8], at: usize) -> u32
    requires { at + 4 ≤ length bytes.now }
    ensures { result ≡ field 4 at bytes.now }
{
    BigEndian::read_u32(&bytes[at..])
}

/// Reads the big-endian number in the 8 bytes at place `at`.
pub fn field_u64(bytes: &[u8], at: usize) -> u64
    requires { at + 8 ≤ length bytes.now }
    ensures { result ≡ field 8 at bytes.now }
{
    BigEndian::read_u64(&bytes[at..])
}

/// Reads the big-endian number in the 16 bytes at place `at`.
pub fn field_u128(bytes: &[u8], at: usize) -> u128
    requires { at + 16 ≤ length bytes.now }
    ensures { result ≡ field 16 at bytes.now }
{
    BigEndian::read_u128(&bytes[at..])
}

/// Writes a number big endian into the 2 bytes at place `at`; no other byte changes.
#[tactic(auto, using(crate::specs::FieldLaws::with_piece_by_slice))]
pub fn put_u16(bytes: &mut [u8], at: usize, value: u16)
    requires { at + 2 ≤ length bytes.old }
    ensures { bytes.new ≡ with_field 2 at value bytes.old }
{
    BigEndian::write_u16(&mut bytes[at..at + 2], value);
}

/// Writes a number big endian into the 4 bytes at place `at`; no other byte changes.
#[tactic(auto, using(crate::specs::FieldLaws::with_piece_by_slice))]
pub fn put_u32(bytes: &mut [u8], at: usize, value: u32)
    requires { at + 4 ≤ length bytes.old }
    ensures { bytes.new ≡ with_field 4 at value bytes.old }
{
    BigEndian::write_u32(&mut bytes[at..at + 4], value);
}

/// Writes a number big endian into the 8 bytes at place `at`; no other byte changes.
#[tactic(auto, using(crate::specs::FieldLaws::with_piece_by_slice))]
pub fn put_u64(bytes: &mut [u8], at: usize, value: u64)
    requires { at + 8 ≤ length bytes.old }
    ensures { bytes.new ≡ with_field 8 at value bytes.old }
{
    BigEndian::write_u64(&mut bytes[at..at + 8], value);
}

/// Writes a number big endian into the 16 bytes at place `at`; no other byte changes.
#[tactic(auto, using(crate::specs::FieldLaws::with_piece_by_slice))]
pub fn put_u128(bytes: &mut [u8], at: usize, value: u128)
    requires { at + 16 ≤ length bytes.old }
    ensures { bytes.new ≡ with_field 16 at value bytes.old }
{
    BigEndian::write_u128(&mut bytes[at..at + 16], value);
}

/// A law: two strings of `n` bytes that read as the same number are the same string, and what was written is read.
pub fn numbers_determine_bytes()
    ensures equal { (n : ℕ) (xs ys : List ℕ) → AreBytes xs → AreBytes ys → length xs ≡ n → length ys ≡ n
        → field n 0 xs ≡ field n 0 ys → xs ≡ ys }
    ensures read { (n at value : ℕ) (bytes : List ℕ) → value < 256 ^ n → at + n ≤ length bytes
        → field n at (with_field n at value bytes) ≡ value }
{}
