// The unit in which a disk is read and written.

/// One sector of a disk: 512 bytes.
#[derive(Clone, Copy, Debug, PartialEq, Eq)]
pub struct Sector {
    pub bytes: [u8; 512],
}

impl Sector {
    ghost use Rattle.std.specs.Prelude.{◌≡◌, ◌↔◌, IsTrue};
    ghost use Rattle.life_bytes.specs.Sectors.{zero_sector};

    /// A sector of zero bytes.
    pub fn zero() -> Sector
        ensures { result ≡ zero_sector }
    {
        Sector { bytes: [0; 512] }
    }

    /// Whether both have the same bytes.
    pub fn is_same(&self, other: &Sector) -> bool
        ensures { IsTrue result ↔ (self.now.bytes ≡ other.now.bytes) }
    {
        *self == *other
    }
}
