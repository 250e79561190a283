// What happens to the table.

ghost use Rattle.std.specs.Prelude.{◌≡◌, IfOk, OnErr, OnOk};
ghost use Rattle.life_table.specs.History.{after_event, changed, is_change};
ghost use Rattle.actor_world.specs.Moves.{is_log_call};
ghost use Rattle.plain_world.specs.Happenings.{MayHappen};

use life_ports::NoMemory;
use life_table::{Call, Event, Reply, each_call_has_one_reply};
use plain_table::PlainTable;
use std::alloc::Global;

/// Whether the log answers the call.
pub(crate) fn is_log_call(call: &Call) -> bool
    ensures { result ≡ is_log_call call.now }
{
    matches!(call, Call::Sync | Call::Home)
}

fn changed(call: &Call, reply: &Reply) -> bool
    ensures { result ≡ changed call.now reply.now }
{
    match call {
        Call::Create { .. } | Call::Tmpfile { .. } => matches!(reply, Reply::Made { .. }),
        Call::Link { .. } | Call::Unlink { .. } | Call::Grow { .. } | Call::Cut { .. } => {
            matches!(reply, Reply::Done)
        }
        _ => false,
    }
}

/// Whether an event is a change.
pub(crate) fn is_change(event: &Event) -> bool
    ensures { result ≡ is_change event.now }
{
    match event {
        Event::Called { call, reply } => changed(call, reply),
        Event::Freed { .. } => true,
    }
}

/// Makes an event happen to the table, which allows it.
pub(crate) fn happen(alloc: Global, table: &mut PlainTable, event: &Event) -> Result<(), NoMemory>
    requires { MayHappen table.old event.now }
    ensures ok { OnOk result (table.new ≡ after_event table.old event.now) }
    ensures err { OnErr result (table.new ≡ table.old) }
{
    each_call_has_one_reply();
    match event {
        Event::Called { call, .. } => {
            if is_log_call(call) {
                return Ok(());
            }
            table.step(alloc, call)?;
            Ok(())
        }
        Event::Freed { key } => {
            table.free(alloc, *key)?;
            Ok(())
        }
    }
}
