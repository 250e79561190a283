// The holds of actors, noted entry by entry.

ghost use Rattle.std.specs.Prelude.{◌≡◌, OnErr, OnOk, List, [], ◌∷◌, ◌++◌, length};
ghost use Rattle.life_table.specs.declared.types.Entry.{Entry};
ghost use Rattle.actor_holds.specs.Holds.{AreHolds, IsSteady, is_held, key_taken};

use life_ports::NoMemory;
use life_table::{Call, Entry, Event, Key, Reply};
use std::alloc::Global;
use std::collections::BTreeSet;
use std::marker::Model;

/// Which actors hold which inodes of a mount. Contracts see it as a list of an actor, and the number and the generation of a key that it holds.
#[derive(Drop)]
pub struct ActorHolds {
    held: BTreeSet<(u32, u64, u32)>,
}

impl Model for ActorHolds {
    ghost use Rattle.std.specs.Prelude.{ℕ, List};

    ghost Value = { List (ℕ × ℕ × ℕ) };

    ghost view = { λ h. h.held.keys };
}

/// The key on which an event that makes an inode gives its actor a hold.
fn key_taken(event: &Event) -> Option<Key>
    ensures { result ≡ key_taken event.now }
{
    let Event::Called { call, reply } = event else {
        return None;
    };
    let Reply::Made { key } = reply else {
        return None;
    };
    match call {
        Call::Create { .. } => Some(*key),
        Call::Tmpfile { .. } => Some(*key),
        _ => None,
    }
}

impl ActorHolds {
    /// Nobody holds an inode, as before the first entry of a mount.
    pub fn new(alloc: Global) -> ActorHolds
        ensures { AreHolds [] result }
    {
        ActorHolds {
            held: BTreeSet::new(alloc),
        }
    }

    /// Notes the next entry. Without memory nothing is noted.
    pub fn note(&mut self, entry: &Entry) -> Result<(), NoMemory>
        ensures noted { (entries : List Entry) → AreHolds entries self.old → IsSteady entry.now.event → OnOk result (AreHolds (entries ++ entry.now ∷ []) self.new) }
        ensures unchanged { OnErr result (self.new ≡ self.old) }
    {
        let Some(key) = key_taken(&entry.event) else {
            return Ok(());
        };
        self.held.insert((entry.actor, key.number, key.generation))?;
        Ok(())
    }

    /// Whether the actor holds the inode of this key.
    pub fn holds(&self, actor: u32, key: &Key) -> bool
        ensures { result ≡ is_held self.now actor key.now }
    {
        self.held.contains(&(actor, key.number, key.generation))
    }

    /// How many holds there are.
    pub fn count(&self) -> u64
        ensures { result ≡ length self.now }
    {
        self.held.len() as u64
    }
}
