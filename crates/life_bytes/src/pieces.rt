// Bytes written at a place in a slice of bytes.

ghost use Rattle.std.specs.Prelude.{◌≡◌, ◌+◌, ◌≤◌, ◌<◌, length};
ghost use Rattle.life_bytes.specs.Fields.{with_field, with_piece};

/// Writes one byte at place `at`; no other byte changes.
#[tactic(auto, using(crate::specs::TableLaws::with_number_as_byte))]
pub fn put_u8(bytes: &mut [u8], at: usize, value: u8)
    requires { at < length bytes.old }
    ensures { bytes.new ≡ with_field 1 at value bytes.old }
{
    bytes[at] = value;
}

/// Writes these bytes from place `at` on; no other byte changes.
#[tactic(auto, using(crate::specs::PieceLaws::with_piece_as_part))]
pub fn put_bytes(bytes: &mut [u8], at: usize, piece: &[u8])
    requires { at + length piece.now ≤ length bytes.old }
    ensures { bytes.new ≡ with_piece (length piece.now) at piece.now bytes.old }
{
    bytes[at..at + piece.len()].copy_from_slice(piece);
}
