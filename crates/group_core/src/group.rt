// A group: its state and its history.

ghost use Rattle.std.specs.Prelude.{◌≡◌, ◌≤◌, ◌<◌, ◌+◌, ◌∷◌, ◌++◌, ℕ, [], true, false, IfNone, IfSome, IsOkAnd, OnErr, OnOk};
ghost use Rattle.life_table.specs.declared.table.Table.{Table};
ghost use Rattle.group_core.specs.InCore.{HasNumber, StaysInCore, but_at, is_in_core, is_unchanged, once_brought, once_flushed, uncached, unchanged};
ghost use Rattle.group_core.specs.GroupHistory.{HappensUnheld, IsInGroup, LegalGroupHistory};

use crate::GroupTable;
use life_ports::NoMemory;
use life_table::Entry;
use std::alloc::Global;
use std::marker::Model;

/// A group behind its lock. The history leads from some table to the one that the state represents; which table it began at is not kept.
#[derive(Drop)]
pub struct Group<S> {
    state: S,
    history: Vec<Entry>,
}

impl<S> Model for Group<S> {
    ghost use Rattle.std.specs.Prelude.{◌-◌, vec_len, vec_capacity};
    ghost use Rattle.group_core.specs.Value.{GroupValue};

    ghost Value = { GroupValue S };

    ghost view = { λ g. record { state = g.state; history = g.history.items; spare = vec_capacity g.history - vec_len g.history } };
}

/// A group whose history begins here.
pub fn begin_group<S: GroupTable + Drop>(alloc: Global, state: S) -> Result<Group<S>, NoMemory>
    ensures begun { IsOkAnd result (λ group. (group.state ≡ state) × (group.history ≡ [])) }
    ensures replays { IsOkAnd result (λ group. LegalGroupHistory (S.group group.state) (S.table state) group.history (S.table group.state)) }
{
    let history = Vec::new(alloc);
    Ok(Group { state, history })
}

impl<S: GroupTable + Drop> Group<S> {
    /// The state, to be read.
    pub fn state(&self) -> &S
        ensures { result.now ≡ self.now.state }
    {
        &self.state
    }

    pub fn into_state(self) -> S
        ensures { result ≡ self.state }
    {
        let Group { state, history } = self;
        drop(history);
        state
    }

    /// The entries since the group was begun, the first one first.
    pub fn history(&self) -> &[Entry]
        ensures { result.now ≡ self.now.history }
    {
        self.history.as_slice()
    }

    pub fn into_history(self) -> Vec<Entry>
        ensures { result.items ≡ self.history }
    {
        let Group { state, history } = self;
        drop(state);
        history
    }

    /// Makes room for one entry and one change, so that one `note` or one `commit` can follow.
    pub fn reserve(&mut self) -> Result<(), NoMemory>
        ensures history { self.new.history ≡ self.old.history }
        ensures group { S.group self.new.state ≡ S.group self.old.state }
        ensures table { S.table self.new.state ≡ S.table self.old.state }
        ensures changes { (next : S.Change) (u : Table) → S.takes self.old.state next u → S.takes self.new.state next u }
        ensures represents { S.represents self.old.state → S.represents self.new.state }
        ensures cached { (agino : ℕ) → S.cached self.new.state agino ≡ S.cached self.old.state agino }
        ensures same { self.new.state ≡ S.with_room self.old.state (S.room self.new.state) }
        ensures kept { (self.old.spare ≤ self.new.spare) × (S.room self.old.state ≤ S.room self.new.state) }
        ensures room { OnOk result ((1 ≤ self.new.spare) × (1 ≤ S.room self.new.state)) }
    {
        self.state.reserve()?;
        self.history.reserve(1)?;
        Ok(())
    }

    /// Adds an entry at the end of the history.
    fn push(&mut self, entry: Entry)
        requires { 1 ≤ self.old.spare }
        ensures state { self.new.state ≡ self.old.state }
        ensures history { self.new.history ≡ self.old.history ++ entry ∷ [] }
        ensures room { self.old.spare ≤ self.new.spare + 1 }
    {
        self.history.push_reserved(entry);
    }

    /// Adds an entry that leaves the state, for which there has to be room.
    pub fn note(&mut self, entry: Entry)
        requires legal { HappensUnheld (S.table self.old.state) entry.event (S.table self.old.state) }
        requires own { IsInGroup (S.group self.old.state) entry.event }
        requires room { 1 ≤ self.old.spare }
        ensures state { self.new.state ≡ self.old.state }
        ensures history { self.new.history ≡ self.old.history ++ entry ∷ [] }
        ensures room { self.old.spare ≤ self.new.spare + 1 }
        ensures replays { (first : Table) → LegalGroupHistory (S.group self.old.state) first self.old.history (S.table self.old.state)
            → LegalGroupHistory (S.group self.new.state) first self.new.history (S.table self.new.state) }
    {
        self.push(entry);
    }

    /// Adds an entry and makes its change, for both of which there has to be room.
    pub fn commit(&mut self, entry: Entry, next: S::Change)
        requires legal { (u : Table) × S.takes self.old.state next u × HappensUnheld (S.table self.old.state) entry.event u }
        requires handed_out { S.Change.handed_out next ≡ true }
        requires own { IsInGroup (S.group self.old.state) entry.event }
        requires room { 1 ≤ self.old.spare }
        requires room_of_state { 1 ≤ S.room self.old.state }
        ensures group { S.group self.new.state ≡ S.group self.old.state }
        ensures table { (u : Table) → S.takes self.old.state next u → S.table self.new.state ≡ u }
        ensures represents { S.represents self.new.state }
        ensures cached { (agino : ℕ) → StaysInCore (S.cached self.old.state agino) (S.cached self.new.state agino) }
        ensures applied { S.applied self.old.state next self.new.state }
        ensures history { self.new.history ≡ self.old.history ++ entry ∷ [] }
        ensures room { self.old.spare ≤ self.new.spare + 1 }
        ensures room_of_state { S.room self.old.state ≤ S.room self.new.state + 1 }
        ensures replays { (first : Table) → LegalGroupHistory (S.group self.old.state) first self.old.history (S.table self.old.state)
            → LegalGroupHistory (S.group self.new.state) first self.new.history (S.table self.new.state) }
    {
        self.state.apply(next);
        self.push(entry);
    }

    /// Brings the inode of a number into core, where it is not there yet. A chunk of the group has to have the number.
    pub fn bring_in(&mut self, agino: u32) -> Result<(), NoMemory>
        requires represents { S.represents self.old.state }
        requires inside { HasNumber (S.table self.old.state) (S.group self.old.state) agino }
        ensures history { self.new.history ≡ self.old.history }
        ensures group { S.group self.new.state ≡ S.group self.old.state }
        ensures table { S.table self.new.state ≡ S.table self.old.state }
        ensures represents { S.represents self.new.state }
        ensures cached { OnOk result ((number : ℕ) → S.cached self.new.state number
            ≡ but_at (S.cached self.old.state) agino (once_brought (S.cached self.old.state agino)) number) }
        ensures brought { OnOk result (S.brought self.old.state agino self.new.state) }
        ensures same { OnErr result (self.new.state ≡ S.with_room self.old.state (S.room self.new.state)) }
        ensures unmoved { OnErr result ((number : ℕ) → S.cached self.new.state number ≡ S.cached self.old.state number) }
        ensures room { self.new.spare ≡ self.old.spare }
        ensures room_of_state { S.room self.old.state ≤ S.room self.new.state + 1 }
    {
        self.state.bring_in(agino)
    }

    /// The least number from one on whose inode is in core.
    pub fn in_core(&self, from: u32) -> Option<u32>
        ensures found { IfSome result (λ n. (from ≤ n) × (is_in_core (S.cached self.now.state n) ≡ true)) }
        ensures least { IfSome result (λ n. (k : ℕ) → from ≤ k → k < n → is_in_core (S.cached self.now.state k) ≡ false) }
        ensures none { IfNone result ((k : ℕ) → from ≤ k → is_in_core (S.cached self.now.state k) ≡ false) }
    {
        self.state.in_core(from)
    }

    /// Whether the inode of a number, which has to be in core, is as its buffer encodes it.
    pub fn clean(&self, agino: u32) -> bool
        requires { is_in_core (S.cached self.now.state agino) ≡ true }
        ensures { result ≡ is_unchanged (S.cached self.now.state agino) }
    {
        self.state.clean(agino)
    }

    /// Copies all changed inodes into their buffers. It takes no memory.
    pub fn flush(&mut self)
        requires { S.represents self.old.state }
        ensures history { self.new.history ≡ self.old.history }
        ensures group { S.group self.new.state ≡ S.group self.old.state }
        ensures table { S.table self.new.state ≡ S.table self.old.state }
        ensures represents { S.represents self.new.state }
        ensures cached { (number : ℕ) → S.cached self.new.state number ≡ once_flushed (S.cached self.old.state number) }
        ensures flushed { S.flushed self.old.state self.new.state }
        ensures room { self.new.spare ≡ self.old.spare }
        ensures room_of_state { S.room self.new.state ≡ S.room self.old.state }
    {
        self.state.flush();
    }

    /// Takes the inode of a number out of core. It has to be as its buffer encodes it. It takes no memory.
    pub fn let_go(&mut self, agino: u32)
        requires represents { S.represents self.old.state }
        requires clean { S.cached self.old.state agino ≡ unchanged }
        ensures history { self.new.history ≡ self.old.history }
        ensures group { S.group self.new.state ≡ S.group self.old.state }
        ensures table { S.table self.new.state ≡ S.table self.old.state }
        ensures represents { S.represents self.new.state }
        ensures cached { (number : ℕ) → S.cached self.new.state number ≡ but_at (S.cached self.old.state) agino uncached number }
        ensures gone { S.gone self.old.state agino self.new.state }
        ensures room { self.new.spare ≡ self.old.spare }
        ensures room_of_state { S.room self.old.state ≤ S.room self.new.state }
    {
        self.state.let_go(agino);
    }
}
