// Calls on a group: what each is answered, and the commit of its change, which is made.
ghost use Rattle.std.specs.Prelude.{◌≡◌, ◌≤◌, ◌/◌};
ghost use Rattle.life_limits.specs.declared.TheConstants.{GROUP_NUMBERS};
ghost use Rattle.life_table.specs.declared.types.Event.TheVariants.{Called};
ghost use Rattle.group_ops.specs.Creating.{creation};
ghost use Rattle.group_ops.specs.Telling.{HasRowOf};
ghost use Rattle.tests_group_ops.specs.Standing.{MayMake, Stands};

use group_core::{Group, Staged};
use group_ops::{
    Change, CreateFault, CutFault, GroupState, GrowFault, LinkFault, UnlinkFault,
    changes_are_events, groups_pass_over_holds,
};
use life_limits::GROUP_NUMBERS;
use life_ports::NoMemory;
use life_table::{Call, Entry, Event, Key, Reply, changes_pass_over_holds};
use log_record::Commit;

/// What a call is answered, none where its key has no row; and the commit of its change, where it makes one.
#[derive(Drop)]
pub(crate) struct Answer {
    pub(crate) reply: Option<Reply>,
    pub(crate) commit: Option<Commit>,
}

/// An answer that makes no change.
fn unchanged(reply: Option<Reply>) -> Result<Answer, NoMemory> {
    Ok(Answer {
        reply,
        commit: None,
    })
}

fn refused(reply: Reply) -> Result<Answer, NoMemory> {
    unchanged(Some(reply))
}

/// Makes a change in its group, of which this event is the entry.
fn settle(
    group: &mut Group<GroupState>,
    mut change: Change,
    event: Event,
) -> Result<Commit, NoMemory>
    requires stands { Stands group.old }
    requires may { MayMake event group.old.state change }
    ensures { Stands group.new }
{
    group.reserve()?;
    let commit = change.take_commit();
    group.commit(Entry { actor: 0, event }, change);
    Ok(commit)
}

/// Makes the change of a call on a key.
fn settle_call(
    group: &mut Group<GroupState>,
    change: Change,
    call: Call,
) -> Result<Answer, NoMemory>
    requires stands { Stands group.old }
    requires may { MayMake (Called call Reply.Done) group.old.state change }
    ensures { Stands group.new }
{
    let reply = Reply::Done;
    let commit = settle(group, change, Event::Called { call, reply })?;
    Ok(Answer {
        reply: Some(Reply::Done),
        commit: Some(commit),
    })
}

/// The call that makes an inode with so many links.
fn call_of(links: u32) -> Call
    ensures { result ≡ creation 0 links }
{
    if links == 0 {
        Call::Tmpfile { group: 0 }
    } else {
        Call::Create { group: 0 }
    }
}

fn create(group: &mut Group<GroupState>, links: u32) -> Result<Answer, NoMemory>
    requires few { links ≤ 1 }
    requires stands { Stands group.old }
    ensures { Stands group.new }
{
    changes_are_events();
    match group.state().create(links) {
        Ok((key, change)) => {
            let call = call_of(links);
            let reply = Reply::Made { key };
            let commit = settle(group, change, Event::Called { call, reply })?;
            Ok(Answer {
                reply: Some(Reply::Made { key }),
                commit: Some(commit),
            })
        }
        Err(CreateFault::NoInodes) => refused(Reply::NoInodes),
        Err(CreateFault::NoMemory) => Err(NoMemory),
    }
}

fn link(group: &mut Group<GroupState>, key: Key) -> Result<Answer, NoMemory>
    requires stands { Stands group.old }
    requires own { key.number / GROUP_NUMBERS ≡ group.old.state.group }
    requires row { HasRowOf group.old.state key }
    ensures { Stands group.new }
{
    changes_are_events();
    match group.state().link(key) {
        Ok(change) => settle_call(group, change, Call::Link { key }),
        Err(LinkFault::TooManyLinks) => refused(Reply::TooManyLinks),
        Err(LinkFault::NoMemory) => Err(NoMemory),
    }
}

fn unlink(group: &mut Group<GroupState>, key: Key) -> Result<Answer, NoMemory>
    requires stands { Stands group.old }
    requires own { key.number / GROUP_NUMBERS ≡ group.old.state.group }
    requires row { HasRowOf group.old.state key }
    ensures { Stands group.new }
{
    changes_are_events();
    match group.state().unlink(key) {
        Ok(change) => settle_call(group, change, Call::Unlink { key }),
        Err(UnlinkFault::NoLinks) => refused(Reply::NoLinks),
        Err(UnlinkFault::NoMemory) => Err(NoMemory),
    }
}

fn grow(group: &mut Group<GroupState>, key: Key, count: u32) -> Result<Answer, NoMemory>
    requires stands { Stands group.old }
    requires own { key.number / GROUP_NUMBERS ≡ group.old.state.group }
    requires row { HasRowOf group.old.state key }
    ensures { Stands group.new }
{
    changes_are_events();
    match group.state().grow(key, count) {
        Ok(change) => settle_call(group, change, Call::Grow { key, count }),
        Err(GrowFault::NoSpace) => refused(Reply::NoSpace),
        Err(GrowFault::TooManyExtents) => refused(Reply::TooManyExtents),
        Err(GrowFault::NoMemory) => Err(NoMemory),
    }
}

fn cut(group: &mut Group<GroupState>, key: Key, count: u32) -> Result<Answer, NoMemory>
    requires stands { Stands group.old }
    requires own { key.number / GROUP_NUMBERS ≡ group.old.state.group }
    requires row { HasRowOf group.old.state key }
    ensures { Stands group.new }
{
    changes_are_events();
    match group.state().cut(key, count) {
        Ok(change) => settle_call(group, change, Call::Cut { key, count }),
        Err(CutFault::CutTooFar) => refused(Reply::CutTooFar),
        Err(CutFault::NoMemory) => Err(NoMemory),
    }
}

/// Whether a key of the group has a row.
pub(crate) fn has_row(group: &Group<GroupState>, key: Key) -> bool
    requires { Stands group.now }
{
    key.number < u64::from(GROUP_NUMBERS) && group.state().find(key)
}

/// A call on a key.
fn call_on(group: &mut Group<GroupState>, key: Key, call: Call) -> Result<Answer, NoMemory>
    requires { Stands group.old }
    ensures { Stands group.new }
{
    if key.number >= u64::from(GROUP_NUMBERS) || !group.state().find(key) {
        return unchanged(None);
    }
    match call {
        Call::Link { .. } => link(group, key),
        Call::Unlink { .. } => unlink(group, key),
        Call::Grow { count, .. } => grow(group, key, count),
        Call::Cut { count, .. } => cut(group, key, count),
        _ => refused(group.state().stat(key)?),
    }
}

/// Makes a call in the group; it makes nothing of those that are not of a group.
pub(crate) fn make_call(group: &mut Group<GroupState>, call: Call) -> Result<Answer, NoMemory>
    requires { Stands group.old }
    ensures { Stands group.new }
{
    match call {
        Call::Create { .. } => create(group, 1),
        Call::Tmpfile { .. } => create(group, 0),
        Call::Link { key }
        | Call::Unlink { key }
        | Call::Grow { key, .. }
        | Call::Cut { key, .. }
        | Call::Stat { key } => call_on(group, key, call),
        _ => unchanged(None),
    }
}

/// Frees a row without links: of those that the buckets list the one that stands there. Its key and the commit; none where there are fewer.
pub(crate) fn free_listed(
    group: &mut Group<GroupState>,
    place: usize,
) -> Result<Option<(Key, Commit)>, NoMemory>
    requires { Stands group.old }
    ensures { Stands group.new }
{
    changes_pass_over_holds();
    groups_pass_over_holds();
    changes_are_events();
    let keys = group.state().orphans()?;
    if place >= keys.len() {
        return Ok(None);
    }
    let key = keys[place];
    if key.number >= u64::from(GROUP_NUMBERS) {
        return Ok(None);
    }
    let change = group.state().free(key)?;
    let commit = settle(group, change, Event::Freed { key })?;
    Ok(Some((key, commit)))
}

/// Copies the changed inodes into their buffers, and takes the first one from a number on out of core. None where none is there.
pub(crate) fn flush_and_let_go(group: &mut Group<GroupState>, from: u32) -> Option<u32>
    requires { Stands group.old }
    ensures { Stands group.new }
{
    group.flush();
    let agino = group.in_core(from)?;
    if !group.clean(agino) {
        return None;
    }
    group.let_go(agino);
    Some(agino)
}
