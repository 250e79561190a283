//! CRC32c, the checksum of iSCSI (RFC 3720) and of XFS version 5.

ghost use Rattle.std.specs.Prelude.{◌≡◌, ◌+◌, ◌*◌, ◌≤◌, ◌<◌, length, fold};
ghost use Rattle.life_bytes.specs.Crc.{after_bits, after_byte, crc32c, holed};
ghost use Rattle.life_bytes.specs.Pieces.{sealed};

use crate::crc_table::TABLES;
use byteorder::{ByteOrder, LittleEndian};

/// What `8 * (row + 1)` zero bits leave of a byte.
fn look_up(row: usize, byte: u8) -> u32
    requires { row < 8 }
    ensures { result ≡ after_bits (8 * (row + 1)) byte }
{
    TABLES[row][byte as usize]
}

/// The register after one more byte.
fn step(register: u32, byte: u8) -> u32
    ensures { result ≡ after_byte register byte }
{
    let low = ((register ^ u32::from(byte)) & 0xFF) as u8;
    look_up(0, low) ^ (register >> 8)
}

/// The register after eight more bytes.
fn step_block(register: u32, block: &[u8]) -> u32
    requires { length block.now ≡ 8 }
    ensures { result ≡ fold after_byte register block.now }
{
    let low = register.to_le_bytes();
    let front = look_up(7, low[0] ^ block[0])
        ^ look_up(6, low[1] ^ block[1])
        ^ look_up(5, low[2] ^ block[2])
        ^ look_up(4, low[3] ^ block[3]);
    let back = look_up(3, block[4])
        ^ look_up(2, block[5])
        ^ look_up(1, block[6])
        ^ look_up(0, block[7]);
    front ^ back
}

/// The register after these bytes too, eight at a time.
fn feed(register: u32, bytes: &[u8]) -> u32
    ensures { result ≡ fold after_byte register bytes.now }
{
    let mut now = register;
    let mut rest = bytes;
    while rest.len() >= 8 {
        let (block, after) = rest.split_at(8);
        now = step_block(now, block);
        rest = after;
    }
    feed_singly(now, rest)
}

/// The same, a byte at a time.
fn feed_singly(register: u32, bytes: &[u8]) -> u32
    ensures { result ≡ fold after_byte register bytes.now }
{
    let mut now = register;
    for byte in bytes {
        now = step(now, *byte);
    }
    now
}

/// The CRC32c of these bytes.
pub fn crc32c(bytes: &[u8]) -> u32
    ensures { result ≡ crc32c bytes.now }
{
    !feed(u32::MAX, bytes)
}

/// The CRC32c of these bytes with the four at `at` taken as zero.
pub fn crc_holed(bytes: &[u8], at: usize) -> u32
    requires { at + 4 ≤ length bytes.now }
    ensures { result ≡ crc32c (holed at bytes.now) }
{
    let before = feed(u32::MAX, &bytes[..at]);
    let hole = feed(before, &[0; 4]);
    !feed(hole, &bytes[at + 4..])
}

/// Writes the checksum of `bytes` into the four bytes at `at`, the lowest byte first.
pub fn put_crc(bytes: &mut [u8], at: usize)
    requires { at + 4 ≤ length bytes.old }
    ensures { bytes.new ≡ sealed at bytes.old }
{
    let crc = crc_holed(bytes, at);
    LittleEndian::write_u32(&mut bytes[at..at + 4], crc);
}
