// Words of 64 blocks as they stand in sectors, the lowest byte of each first.

ghost use Rattle.std.specs.Prelude.{◌≡◌, ◌+◌, ◌*◌, ◌≤◌, ◌<◌, ◌-◌, ◌^◌, ◌&&◌, ℕ, length, filter, min, nat_lt};
ghost use Rattle.std.specs.List.{range_with_len, flat_map};
ghost use Rattle.byteorder.specs.Endian.{little_bytes, little_number, IsRead};
ghost use Rattle.life_bytes.specs.Fields.{AreBytes};
ghost use Rattle.life_bytes.specs.SectorBytes.{bytes_of};
ghost use Rattle.free_map.specs.Bitmap.{says_free};
ghost use Rattle.free_map.specs.Words.{block_bit};
ghost use Rattle.life_limits.specs.declared.TheConstants.{MAX_BLOCKS};

use crate::words::WORD_BLOCKS;
use byteorder::{ByteOrder, LittleEndian};
use life_bytes::Sector;

/// How many words a sector holds.
const SECTOR_WORDS: usize = 64;

/// How many words tell of the blocks of the largest group, 16,384.
pub const WORDS: usize = 256;

/// The words of 4 sectors.
pub fn load(sectors: &[Sector]) -> [u64; WORDS]
    requires { length sectors.now ≡ 4 }
    ensures whole { length result ≡ 256 }
    ensures bits { (b : ℕ) → b < MAX_BLOCKS → block_bit result b ≡ says_free (bytes_of sectors.now) b }
{
    let mut words = [0; WORDS];
    for (index, sector) in sectors.iter().enumerate() {
        let first = SECTOR_WORDS * index;
        load_words(&sector.bytes, &mut words[first..first + SECTOR_WORDS]);
    }
    words
}

/// The words of one sector's bytes.
fn load_words(bytes: &[u8], words: &mut [u64])
    requires { length bytes.now ≡ 8 * length words.old }
    ensures whole { length bytes.now ≡ 8 * length words.new }
    ensures small { AreBytes bytes.now }
    ensures words { IsRead little_number 8 bytes.now words.new }
{
    LittleEndian::read_u64_into(bytes, words);
}

/// Clears the bits of the blocks from `blocks` on.
pub fn clear_past(words: &mut [u64], blocks: u32)
    requires { length words.old ≤ 256 }
    ensures { (b : ℕ) → block_bit words.new b ≡ (nat_lt b blocks && block_bit words.old b) }
{
    for (index, word) in words.iter_mut().enumerate() {
        *word &= low_ones((blocks as usize).saturating_sub(WORD_BLOCKS * index));
    }
}

/// A word whose lowest `count` bits are set, or all 64 where `count` is more.
fn low_ones(count: usize) -> u64
    ensures { result ≡ 2 ^ (min count 64) - 1 }
{
    if count < WORD_BLOCKS {
        (1 << count) - 1
    } else {
        u64::MAX
    }
}

/// How many bits are set.
pub fn count_set(words: &[u64]) -> u32
    requires { length words.now ≤ 256 }
    ensures { result ≡ length (filter (block_bit words.now) (range_with_len 0 (64 * length words.now))) }
{
    let mut count = 0;
    for word in words {
        count += word.count_ones();
    }
    count
}

/// Writes words over sectors, 64 a sector.
pub fn store(words: &[u64], into: &mut [Sector])
    requires { length words.now ≡ 64 * length into.old }
    ensures { bytes_of into.new ≡ flat_map (little_bytes 8) words.now }
{
    for (index, sector) in into.iter_mut().enumerate() {
        let first = SECTOR_WORDS * index;
        LittleEndian::write_u64_into(&words[first..first + SECTOR_WORDS], &mut sector.bytes);
    }
}
