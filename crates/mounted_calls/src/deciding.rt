//! What the calls in a group come to, decided by its state.

ghost use Rattle.std.specs.Prelude.{◌≡◌, ◌/◌, ◌<◌, Some, IfOk, length};
ghost use Rattle.life_limits.specs.declared.TheConstants.{GROUP_NUMBERS};
ghost use Rattle.life_table.specs.declared.types.Call.TheVariants as call;
ghost use Rattle.life_table.specs.declared.table.Table.{Table};
ghost use Rattle.sound_image.specs.Encoding.{Layouts};
ghost use Rattle.group_core.specs.GroupHistory.{call_group};
ghost use Rattle.group_ops.specs.Represents.{IsGroupOf, RepresentsGroup};
ghost use Rattle.group_ops.specs.Telling.{HasRowOf};
ghost use Rattle.mounted_calls.specs.Calls.{IsOnGroup};
ghost use Rattle.mounted_calls.specs.Decisions.{CanDecide, Decides};

use crate::decision::Decision;
use group_ops::{Change, CreateFault, CutFault, GroupState, GrowFault, LinkFault, UnlinkFault};
use life_ports::NoMemory;
use life_table::{Call, Key, Reply};

/// A call that makes an inode with one link.
fn decide_create(state: &GroupState) -> Result<Decision, NoMemory>
    requires { RepresentsGroup state.now }
    ensures { (t : Table) (layouts : Layouts) → IsGroupOf state.now t layouts → IfOk result (Decides state.now t layouts (call.Create state.now.group)) }
{
    match state.create(1) {
        Ok((key, change)) => Ok(Decision {
            reply: Reply::Made { key },
            noted: Reply::Made { key },
            change: Some(change),
        }),
        Err(CreateFault::NoInodes) => Ok(Decision {
            reply: Reply::NoInodes,
            noted: Reply::NoInodes,
            change: None,
        }),
        Err(CreateFault::NoMemory) => Err(NoMemory),
    }
}

/// A call that makes one without links.
fn decide_tmpfile(state: &GroupState) -> Result<Decision, NoMemory>
    requires { RepresentsGroup state.now }
    ensures { (t : Table) (layouts : Layouts) → IsGroupOf state.now t layouts → IfOk result (Decides state.now t layouts (call.Tmpfile state.now.group)) }
{
    match state.create(0) {
        Ok((key, change)) => Ok(Decision {
            reply: Reply::Made { key },
            noted: Reply::Made { key },
            change: Some(change),
        }),
        Err(CreateFault::NoInodes) => Ok(Decision {
            reply: Reply::NoInodes,
            noted: Reply::NoInodes,
            change: None,
        }),
        Err(CreateFault::NoMemory) => Err(NoMemory),
    }
}

fn decide_link(state: &GroupState, key: Key) -> Result<Decision, NoMemory>
    requires own { key.number / GROUP_NUMBERS ≡ state.now.group }
    requires row { HasRowOf state.now key }
    ensures { (t : Table) (layouts : Layouts) → IsGroupOf state.now t layouts → IfOk result (Decides state.now t layouts (call.Link key)) }
{
    match state.link(key) {
        Ok(change) => Ok(Decision {
            reply: Reply::Done,
            noted: Reply::Done,
            change: Some(change),
        }),
        Err(LinkFault::TooManyLinks) => Ok(Decision {
            reply: Reply::TooManyLinks,
            noted: Reply::TooManyLinks,
            change: None,
        }),
        Err(LinkFault::NoMemory) => Err(NoMemory),
    }
}

fn decide_unlink(state: &GroupState, key: Key) -> Result<Decision, NoMemory>
    requires own { key.number / GROUP_NUMBERS ≡ state.now.group }
    requires row { HasRowOf state.now key }
    ensures { (t : Table) (layouts : Layouts) → IsGroupOf state.now t layouts → IfOk result (Decides state.now t layouts (call.Unlink key)) }
{
    match state.unlink(key) {
        Ok(change) => Ok(Decision {
            reply: Reply::Done,
            noted: Reply::Done,
            change: Some(change),
        }),
        Err(UnlinkFault::NoLinks) => Ok(Decision {
            reply: Reply::NoLinks,
            noted: Reply::NoLinks,
            change: None,
        }),
        Err(UnlinkFault::NoMemory) => Err(NoMemory),
    }
}

fn decide_grow(state: &GroupState, key: Key, count: u32) -> Result<Decision, NoMemory>
    requires own { key.number / GROUP_NUMBERS ≡ state.now.group }
    requires row { HasRowOf state.now key }
    ensures { (t : Table) (layouts : Layouts) → IsGroupOf state.now t layouts → IfOk result (Decides state.now t layouts (call.Grow key count)) }
{
    match state.grow(key, count) {
        Ok(change) => Ok(Decision {
            reply: Reply::Done,
            noted: Reply::Done,
            change: Some(change),
        }),
        Err(GrowFault::NoSpace) => Ok(Decision {
            reply: Reply::NoSpace,
            noted: Reply::NoSpace,
            change: None,
        }),
        Err(GrowFault::TooManyExtents) => Ok(Decision {
            reply: Reply::TooManyExtents,
            noted: Reply::TooManyExtents,
            change: None,
        }),
        Err(GrowFault::NoMemory) => Err(NoMemory),
    }
}

fn decide_cut(state: &GroupState, key: Key, count: u32) -> Result<Decision, NoMemory>
    requires own { key.number / GROUP_NUMBERS ≡ state.now.group }
    requires row { HasRowOf state.now key }
    ensures { (t : Table) (layouts : Layouts) → IsGroupOf state.now t layouts → IfOk result (Decides state.now t layouts (call.Cut key count)) }
{
    match state.cut(key, count) {
        Ok(change) => Ok(Decision {
            reply: Reply::Done,
            noted: Reply::Done,
            change: Some(change),
        }),
        Err(CutFault::CutTooFar) => Ok(Decision {
            reply: Reply::CutTooFar,
            noted: Reply::CutTooFar,
            change: None,
        }),
        Err(CutFault::NoMemory) => Err(NoMemory),
    }
}

/// A look at a row, which is no change.
fn decide_stat(state: &GroupState, key: Key) -> Result<Decision, NoMemory>
    requires own { key.number / GROUP_NUMBERS ≡ state.now.group }
    requires row { HasRowOf state.now key }
    ensures { (t : Table) (layouts : Layouts) → IsGroupOf state.now t layouts → IfOk result (Decides state.now t layouts (call.Stat key)) }
{
    let reply = state.stat(key)?;
    let noted = state.stat(key)?;
    Ok(Decision {
        reply,
        noted,
        change: None,
    })
}

/// What a call in the group of this state comes to.
pub(crate) fn decide(state: &GroupState, called: Call) -> Result<Decision, NoMemory>
    requires kind { IsOnGroup called }
    requires own { call_group called ≡ Some state.now.group }
    requires can { CanDecide state.now called }
    ensures { (t : Table) (layouts : Layouts) → IsGroupOf state.now t layouts → IfOk result (Decides state.now t layouts called) }
{
    match called {
        Call::Create { .. } => decide_create(state),
        Call::Tmpfile { .. } => decide_tmpfile(state),
        Call::Link { key } => decide_link(state, key),
        Call::Unlink { key } => decide_unlink(state, key),
        Call::Grow { key, count } => decide_grow(state, key, count),
        Call::Cut { key, count } => decide_cut(state, key, count),
        Call::Stat { key } => decide_stat(state, key),
        _ => unreachable!(),
    }
}
