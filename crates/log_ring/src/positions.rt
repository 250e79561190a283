// Where the log goes on, and from where on its records count.
ghost use Rattle.std.specs.Prelude.{◌≡◌, ◌≤◌, ◌<◌, ◌+◌, ◌-◌, ◌^◌, ◌%◌};
ghost use Rattle.life_limits.specs.declared.TheConstants.{MAX_RING, MIN_RING, MOUNT_LIMIT};

use life_limits::{MAX_RING, MIN_RING};

/// Where the log goes on (its head), and from where on its records count (its tail), as positions of a ring of so many
/// sectors. One sector of the ring always stays free for a cover record, which moves the tail.
#[derive(Clone, Copy, Debug, PartialEq, Eq)]
pub struct Positions {
    ring: u32,
    head: u64,
    tail: u64,
    ghost least_ring: { MIN_RING ≤ ring },
    ghost most_ring: { ring ≤ MAX_RING },
    ghost ordered: { tail ≤ head },
    ghost spare: { head - tail + 1 ≤ ring },
    ghost end: { head ≤ 2 ^ 63 },
}

impl Positions {
    /// The positions of a log without records, in a ring of so many sectors, that goes on at this position.
    pub fn new(ring: u32, at: u64) -> Positions
        requires least_ring { MIN_RING ≤ ring }
        requires most_ring { ring ≤ MAX_RING }
        requires early { at < MOUNT_LIMIT }
        ensures ring { result.ring ≡ ring }
        ensures head { result.head ≡ at }
        ensures tail { result.tail ≡ at }
    {
        Positions {
            ring,
            head: at,
            tail: at,
        }
    }

    /// The position at which the log goes on. It is at most 2^63.
    pub fn head(&self) -> u64
        ensures head { result ≡ self.now.head }
        ensures end { result ≤ 2 ^ 63 }
    {
        self.head
    }

    /// The position from which on records count. It is not above the head.
    pub fn tail(&self) -> u64
        ensures tail { result ≡ self.now.tail }
        ensures ordered { result ≤ self.now.head }
    {
        self.tail
    }

    /// How many sectors a record may have: those of the ring but the sectors from the tail on, and one more.
    pub fn room(&self) -> u32
        ensures { (self.now.head - self.now.tail) + result + 1 ≡ self.now.ring }
    {
        self.ring - 1 - (self.head - self.tail) as u32
    }

    /// The place of a position in the ring: which of its sectors it has, counted from 0.
    pub fn place(&self, position: u64) -> u64
        ensures place { result ≡ position % self.now.ring }
        ensures within { result < self.now.ring }
    {
        position % u64::from(self.ring)
    }

    /// A record of so many sectors was written at the head.
    pub fn wrote(&mut self, sectors: u32)
        requires room { (self.old.head - self.old.tail) + sectors + 1 ≤ self.old.ring }
        requires end { self.old.head + sectors ≤ 2 ^ 63 }
        ensures head { self.new.head ≡ self.old.head + sectors }
        ensures tail { self.new.tail ≡ self.old.tail }
        ensures ring { self.new.ring ≡ self.old.ring }
    {
        self.head += u64::from(sectors);
    }

    /// A cover record was written at the head: the tail moves to it.
    pub fn covered(&mut self)
        requires { self.old.head + 1 ≤ 2 ^ 63 }
        ensures head { self.new.head ≡ self.old.head + 1 }
        ensures tail { self.new.tail ≡ self.old.head }
        ensures ring { self.new.ring ≡ self.old.ring }
    {
        self.tail = self.head;
        self.head += 1;
    }
}
