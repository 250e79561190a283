// What a call changed, and the mark that is due then.

ghost use Rattle.std.specs.Prelude.{◌≡◌};
ghost use Rattle.std.specs.Option.{option_copied};
ghost use Rattle.life_table.specs.History.{changed};
ghost use Rattle.actor_world.specs.Moves.{is_mark_due, links_of, makes_unlinked, place_after_change, sets_mark};

use actor_world::Place;
use life_table::{Call, Reply, Row};

/// Whether a call with this reply changed what the image holds.
pub(crate) fn changed(call: &Call, reply: &Reply) -> bool
    ensures { result ≡ changed call.now reply.now }
{
    match call {
        Call::Create { .. } | Call::Tmpfile { .. } => matches!(reply, Reply::Made { .. }),
        Call::Link { .. } | Call::Unlink { .. } | Call::Grow { .. } | Call::Cut { .. } => {
            matches!(reply, Reply::Done)
        }
        _ => false,
    }
}

/// How many links a row has.
pub(crate) fn links_of(row: Option<&Row>) -> u32
    ensures { result ≡ links_of (option_copied row.entry) }
{
    match row {
        Some(row) => row.links,
        None => 0,
    }
}

/// Whether the mark of the word is due.
fn is_mark_due(call: &Call, reply: &Reply, links: u32) -> bool
    ensures { result ≡ is_mark_due call.now reply.now links }
{
    match call {
        Call::Link { .. } => matches!(reply, Reply::Done) && links == 0,
        Call::Unlink { .. } => matches!(reply, Reply::Done) && links == 1,
        _ => false,
    }
}

/// Whether the mark is set by the call, or cleared.
pub(crate) fn sets_mark(call: &Call) -> bool
    ensures { result ≡ sets_mark call.now }
{
    matches!(call, Call::Unlink { .. })
}

/// Whether the inode is made without links.
pub(crate) fn makes_unlinked(call: &Call) -> bool
    ensures { result ≡ makes_unlinked call.now }
{
    matches!(call, Call::Tmpfile { .. })
}

/// Where the call goes on after its change, or its refusal.
pub(crate) fn place_after_change(call: &Call, reply: Reply, links: u32) -> Place
    ensures { result ≡ place_after_change call.now reply links }
{
    if is_mark_due(call, &reply, links) {
        Place::Mark { reply }
    } else {
        Place::Leave { reply }
    }
}
