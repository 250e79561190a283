// The names that a script has bound, each with its newest key.

ghost use Rattle.std.specs.Prelude.{◌≡◌, OnErr, OnOk, List, None, [], ◌∷◌};
ghost use Rattle.std.specs.Option.{option_copied};
ghost use Rattle.run_history.specs.States.{Binding, bound_to_made, call_meant, names_after};
ghost use Rattle.script_names.specs.Bindings.{AreNames, found, key_made};

use life_ports::NoMemory;
use life_table::{Call, Entry, Event, Key, Reply};
use script::{Name, Spoken};
use std::alloc::Global;
use std::collections::BTreeMap;
use std::marker::Model;

/// What the names of a script are bound to: each to its newest key. Contracts see it as pairs of a name's bytes and its key.
#[derive(Drop)]
pub struct Names {
    keys: BTreeMap<Vec<u8>, Key>,
}

impl Model for Names {
    ghost use Rattle.std.specs.Prelude.{ℕ, List};
    ghost use Rattle.life_table.specs.declared.key.Key.{Key};
    ghost use Rattle.script_names.specs.Bindings.{pairs};

    ghost Value = { List (List ℕ × Key) };

    ghost view = { λ n. pairs n.keys.entries };
}

/// The key that an entry tells to have been made.
fn key_made(entry: Option<&Entry>) -> Option<Key>
    ensures { result ≡ key_made (option_copied entry.entry) }
{
    let Some(told) = entry else {
        return None;
    };
    match &told.event {
        Event::Called { reply, .. } => match reply {
            Reply::Made { key } => Some(*key),
            _ => None,
        },
        Event::Freed { .. } => None,
    }
}

impl Names {
    /// No name is bound.
    pub fn new(alloc: Global) -> Names
        ensures { AreNames [] result }
    {
        Names {
            keys: BTreeMap::new(alloc),
        }
    }

    /// Binds a name to a key, in place of the key that it was bound to. Without memory nothing is bound.
    pub fn bind(&mut self, alloc: Global, name: &Name, key: Key) -> Result<(), NoMemory>
        ensures bound { (bound : List Binding) → AreNames bound self.old → OnOk result (AreNames (record { name = name.now; key = key } ∷ bound) self.new) }
        ensures unchanged { OnErr result (self.new ≡ self.old) }
    {
        let bytes = Vec::from_slice(alloc, name.bytes())?;
        self.keys.insert(bytes, key)?;
        Ok(())
    }

    /// The key that a name is bound to.
    pub fn key_of(&self, name: &Name) -> Option<Key>
        ensures { result ≡ found self.now name.now }
    {
        self.keys.get(name.bytes()).copied()
    }

    /// The call that a script's words mean, none where they have a name that is not bound.
    pub fn meant(&self, words: &Spoken) -> Option<Call>
        ensures { (bound : List Binding) → AreNames bound self.now → result ≡ call_meant bound words.now }
    {
        match words {
            Spoken::Create { group, .. } => Some(Call::Create { group: *group }),
            Spoken::Tmpfile { group, .. } => Some(Call::Tmpfile { group: *group }),
            Spoken::Open { name } => {
                let key = self.key_of(name)?;
                Some(Call::OpenKey { key })
            }
            Spoken::Close { name } => {
                let key = self.key_of(name)?;
                Some(Call::CloseKey { key })
            }
            Spoken::Link { name } => {
                let key = self.key_of(name)?;
                Some(Call::Link { key })
            }
            Spoken::Unlink { name } => {
                let key = self.key_of(name)?;
                Some(Call::Unlink { key })
            }
            Spoken::Grow { name, count } => {
                let key = self.key_of(name)?;
                Some(Call::Grow { key, count: *count })
            }
            Spoken::Cut { name, count } => {
                let key = self.key_of(name)?;
                Some(Call::Cut { key, count: *count })
            }
            Spoken::Stat { name } => {
                let key = self.key_of(name)?;
                Some(Call::Stat { key })
            }
            Spoken::Sync => Some(Call::Sync),
            Spoken::Home => Some(Call::Home),
            Spoken::Gc => Some(Call::Gc),
            Spoken::Flush { group } => Some(Call::FlushInodes { group: *group }),
            Spoken::Reclaim { group } => Some(Call::Reclaim { group: *group }),
        }
    }

    /// Binds a name to the key that an entry tells to have been made, if it tells of one.
    fn bind_made(
        &mut self,
        alloc: Global,
        name: &Name,
        entry: Option<&Entry>,
    ) -> Result<(), NoMemory>
        ensures bound { (bound : List Binding) → AreNames bound self.old → OnOk result (AreNames (bound_to_made bound name.now (option_copied entry.entry)) self.new) }
        ensures unchanged { OnErr result (self.new ≡ self.old) }
    {
        match key_made(entry) {
            Some(key) => self.bind(alloc, name, key),
            None => Ok(()),
        }
    }

    /// Notes how a call ended that a script's words began, by its entry: a create binds its name to the key that it made. Without memory nothing is bound.
    pub fn after(
        &mut self,
        alloc: Global,
        words: &Spoken,
        entry: Option<&Entry>,
    ) -> Result<(), NoMemory>
        ensures bound { (bound : List Binding) → AreNames bound self.old → OnOk result (AreNames (names_after bound words.now (option_copied entry.entry)) self.new) }
        ensures unchanged { OnErr result (self.new ≡ self.old) }
    {
        match words {
            Spoken::Create { name, .. } => self.bind_made(alloc, name, entry),
            Spoken::Tmpfile { name, .. } => self.bind_made(alloc, name, entry),
            _ => Ok(()),
        }
    }
}
