// The holds of actors, counted in what happened.

ghost use Rattle.std.specs.Prelude.{◌≡◌, ◌==◌, ◌&&◌, ◌↔◌, IsTrue};
ghost use Rattle.std.specs.List.{count_by};
ghost use Rattle.life_table.specs.declared.types.Entry.{Entry};
ghost use Rattle.life_table.specs.History.{IsHeld, gives_up, key_of, same_key, takes_hold};

use life_table::{Call, Entry, Event, Key, Reply};

fn same_key(key: Key, other: Key) -> bool
    ensures { result ≡ same_key key other }
{
    key.number == other.number && key.generation == other.generation
}

/// Whether an event gives the caller a hold on the key.
fn takes_hold(key: Key, event: &Event) -> bool
    ensures { result ≡ takes_hold key event.now }
{
    match event {
        Event::Called { call, reply } => match (call, reply) {
            (Call::Create { .. } | Call::Tmpfile { .. }, Reply::Made { key: made }) => {
                same_key(key, *made)
            }
            (Call::OpenKey { key: opened }, Reply::Done) => same_key(key, *opened),
            _ => false,
        },
        Event::Freed { .. } => false,
    }
}

/// Whether it gives a hold up.
fn gives_up(key: Key, event: &Event) -> bool
    ensures { result ≡ gives_up key event.now }
{
    match event {
        Event::Called { call, reply } => match (call, reply) {
            (Call::CloseKey { key: closed }, Reply::Done) => same_key(key, *closed),
            _ => false,
        },
        Event::Freed { .. } => false,
    }
}

/// Whether the actor took a hold on the key by an entry.
fn is_taken(entry: &Entry, a: u32, key: Key) -> bool
    ensures { result ≡ ((entry.now.actor == a) && takes_hold key entry.now.event) }
{
    entry.actor == a && takes_hold(key, &entry.event)
}

/// Whether it gave one up.
fn is_given(entry: &Entry, a: u32, key: Key) -> bool
    ensures { result ≡ ((entry.now.actor == a) && gives_up key entry.now.event) }
{
    entry.actor == a && gives_up(key, &entry.event)
}

/// How many holds on the key an actor took.
fn count_taken(entries: &[Entry], a: u32, key: Key) -> usize
    ensures { result ≡ count_by (λ (entry : Entry). (entry.actor == a) && takes_hold key entry.event) entries.now }
{
    let mut count = 0;
    for entry in entries {
        if is_taken(entry, a, key) {
            count += 1;
        }
    }
    count
}

/// How many it gave up.
fn count_given(entries: &[Entry], a: u32, key: Key) -> usize
    ensures { result ≡ count_by (λ (entry : Entry). (entry.actor == a) && gives_up key entry.event) entries.now }
{
    let mut count = 0;
    for entry in entries {
        if is_given(entry, a, key) {
            count += 1;
        }
    }
    count
}

/// The key that a call is made on.
fn key_of(call: &Call) -> Option<Key>
    ensures { result ≡ key_of call.now }
{
    match *call {
        Call::CloseKey { key }
        | Call::Link { key }
        | Call::Unlink { key }
        | Call::Grow { key, .. }
        | Call::Cut { key, .. }
        | Call::Stat { key } => Some(key),
        _ => None,
    }
}

/// Whether an actor holds the key that the call is made on, if it is on one.
pub(crate) fn is_held(entries: &[Entry], a: u32, call: &Call) -> bool
    ensures { IsTrue result ↔ IsHeld entries.now a (key_of call.now) }
{
    match key_of(call) {
        Some(key) => count_given(entries, a, key) < count_taken(entries, a, key),
        None => true,
    }
}
