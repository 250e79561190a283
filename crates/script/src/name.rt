// The names that scripts give to inodes.

ghost use Rattle.std.specs.Prelude.{◌≡◌, IsTrue};
ghost use Rattle.script.specs.Words.{is_name};

use std::marker::Model;

/// A name that a script gives to an inode: a lower-case letter, and up to 15 lower-case letters or digits. Contracts
/// see it as its bytes.
#[derive(Debug, Drop)]
pub struct Name {
    bytes: Vec<u8>,
}

impl Model for Name {
    ghost use Rattle.std.specs.Prelude.{List, ℕ, IsTrue};
    ghost use Rattle.script.specs.Words.{is_name};

    ghost Value = { List ℕ };

    ghost view = { λ n. n.bytes.items };

    ghost invariant = { λ n. IsTrue (is_name n.bytes.items) };
}

impl Name {
    /// The name of these bytes, which are not copied.
    pub fn from_vec(bytes: Vec<u8>) -> Name
        requires { IsTrue (is_name bytes.items) }
        ensures { result ≡ bytes.items }
    {
        Name { bytes }
    }

    /// Its bytes, in order.
    pub fn bytes(&self) -> &[u8]
        ensures bytes { result.now ≡ self.now }
        ensures form { IsTrue (is_name result.now) }
    {
        self.bytes.as_slice()
    }
}
