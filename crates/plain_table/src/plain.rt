// The program: a table, and one call after another.

ghost use Rattle.std.specs.Prelude.{◌≡◌, ◌<◌, ◌≤◌, ◌&&◌, ◌↔◌, ◌⊎◌, IfOk, IfSome, IfNone, IsSome, IsSomeAnd, OnErr, IsTrue, is_none, length};
ghost use Rattle.std.specs.Option.{option_copied};
ghost use Rattle.std.specs.Bool.{OnTrue, OnFalse};
ghost use Rattle.life_table.specs.declared.table.Table.{Table};
ghost use Rattle.life_table.specs.Table.{group_at, inode_of, row_of, with_inode, with_row, empty_table};
ghost use Rattle.life_table.specs.Space.{chunk_place, lowest_key};
ghost use Rattle.life_table.specs.Legal.{Awaits, IsOpen, IsOfTable, CanMake, Legal, Frees, free_of};
ghost use Rattle.life_table.specs.Replies.{reply_of};
ghost use Rattle.life_table.specs.WellFormed.{IsTable};
ghost use Rattle.life_limits.specs.declared.TheConstants.{MAX_BLOCKS, MAX_GENERATION, MAX_GROUPS, MAX_LINKS, MIN_BLOCKS, VERSION};
ghost use Rattle.plain_table.specs.Beginnings.{with_links, in_life};
ghost use Rattle.plain_table.specs.Outcomes.{IsOutcome, key_called};

use crate::copies::{copy_inode, copy_with_links};
use crate::lookups::{group_of, inode_of, row_of, with_group, with_inode};
use crate::rows::{RowOutcome, on_row};
use crate::space::{find_lowest_key, list_free_blocks, place_for_chunk, prepare_group};
use life_limits::{GROUP_NUMBERS, VERSION};
use life_ports::NoMemory;
use life_table::{
    Call, Group, Inode, Key, Listed, Reply, Row, Table, each_call_has_one_reply,
    rows_are_within_limits, tables_stay_well_formed,
};
use std::alloc::Global;
use std::marker::Model;

/// What a call comes to: its reply, and the table after it, where it changes.
#[derive(Drop)]
pub(crate) struct Outcome {
    pub(crate) reply: Reply,
    pub(crate) next: Option<Table>,
}

/// Whether the key has a row that somebody holds.
fn is_open(table: &Table, key: Key) -> bool
    ensures { IsTrue result ↔ IsOpen (row_of table.now key) }
{
    match row_of(table, key) {
        Some(row) => row.opens >= 1,
        None => false,
    }
}

/// Whether the table answers the call, and somebody may make it.
pub(crate) fn can_make(table: &Table, call: &Call) -> bool
    ensures { IsTrue result ↔ (IsOfTable call.now × CanMake table.now call.now) }
{
    match *call {
        Call::Create { group } | Call::Tmpfile { group } => {
            (group as usize) < table.groups.as_slice().len()
        }
        Call::CloseKey { key }
        | Call::Link { key }
        | Call::Unlink { key }
        | Call::Grow { key, .. }
        | Call::Cut { key, .. }
        | Call::Stat { key } => is_open(table, key),
        Call::OpenKey { .. } | Call::Gc | Call::FlushInodes { .. } | Call::Reclaim { .. } => true,
        Call::Sync | Call::Home => false,
    }
}

/// Makes an inode with so many links.
fn make(alloc: Global, table: &Table, g: u32, links: u32, call: &Call) -> Result<Outcome, NoMemory>
    requires small { table.now.blocks ≤ MAX_BLOCKS }
    requires call { ((call.now ≡ Call.Create g) × (links ≡ 1)) ⊎ ((call.now ≡ Call.Tmpfile g) × (links ≡ 0)) }
    ensures { IfOk result (λ out. IsOutcome table.now call.now out.reply out.next) }
{
    let group = prepare_group(alloc, table.blocks, g, group_of(table, u64::from(g)))?;
    let Some(key) = find_lowest_key(g, &group) else {
        return Ok(Outcome {
            reply: Reply::NoInodes,
            next: None,
        });
    };
    let prepared = with_group(alloc, table, u64::from(g), group)?;
    let inode = Inode {
        generation: key.generation,
        row: Some(Row {
            links,
            blocks: Listed::new(alloc),
            opens: 1,
        }),
    };
    Ok(Outcome {
        reply: Reply::Made { key },
        next: Some(with_inode(alloc, &prepared, key.number, inode)?),
    })
}

/// A call on a key, which has a row where it is no open.
fn on_key(alloc: Global, table: &Table, key: Key, call: &Call) -> Result<Outcome, NoMemory>
    requires table { IsTable table.now }
    requires call { key_called call.now ≡ Some key }
    ensures { IfOk result (λ out. IsOutcome table.now call.now out.reply out.next) }
{
    rows_are_within_limits();
    let Some(row) = row_of(table, key) else {
        return Ok(Outcome {
            reply: Reply::Stale,
            next: None,
        });
    };
    let RowOutcome { reply, next } = on_row(alloc, table, row, call)?;
    match next {
        Some(row) => {
            let inode = Inode {
                generation: key.generation,
                row: Some(row),
            };
            Ok(Outcome {
                reply,
                next: Some(with_inode(alloc, table, key.number, inode)?),
            })
        }
        None => Ok(Outcome { reply, next: None }),
    }
}

/// What a call comes to that the table answers.
pub(crate) fn outcome_of(alloc: Global, table: &Table, call: &Call) -> Result<Outcome, NoMemory>
    requires table { IsTable table.now }
    requires answered { IsOfTable call.now }
    ensures { IfOk result (λ out. IsOutcome table.now call.now out.reply out.next) }
{
    match *call {
        Call::Create { group } => make(alloc, table, group, 1, call),
        Call::Tmpfile { group } => make(alloc, table, group, 0, call),
        Call::OpenKey { key }
        | Call::CloseKey { key }
        | Call::Link { key }
        | Call::Unlink { key }
        | Call::Grow { key, .. }
        | Call::Cut { key, .. }
        | Call::Stat { key } => on_key(alloc, table, key, call),
        _ => Ok(Outcome {
            reply: Reply::Done,
            next: None,
        }),
    }
}

/// A well formed table, on which calls are made one after another. Contracts see the table itself.
#[derive(Drop)]
pub struct PlainTable {
    table: Table,
}

impl Model for PlainTable {
    ghost use Rattle.life_table.specs.declared.table.Table.{Table};
    ghost use Rattle.life_table.specs.WellFormed.{IsTable};

    ghost Value = { Table };

    ghost view = { λ p. p.table };

    ghost invariant = { λ p. IsTable p.table };
}

impl PlainTable {
    /// A table of so many groups of so many blocks, without a chunk.
    pub fn new(alloc: Global, groups: u32, blocks: u32) -> Result<PlainTable, NoMemory>
        requires some { 1 ≤ groups }
        requires many { groups ≤ MAX_GROUPS }
        requires least { MIN_BLOCKS ≤ blocks }
        requires most { blocks ≤ MAX_BLOCKS }
        ensures { IfOk result (λ plain. plain ≡ empty_table VERSION groups blocks) }
    {
        tables_stay_well_formed();
        Ok(PlainTable {
            table: make_table(alloc, groups, blocks)?,
        })
    }

    /// The table itself.
    pub fn table(&self) -> &Table
        ensures table { result.now ≡ self.now }
        ensures well_formed { IsTable self.now }
    {
        &self.table
    }

    /// The row of a key.
    pub fn row(&self, key: Key) -> Option<&Row>
        ensures { option_copied result ≡ row_of self.now key }
    {
        row_of(&self.table, key)
    }

    /// Whether no number of the group is free and no chunk can be added.
    pub fn lacks_number(&self, g: u32) -> bool
        ensures { result ≡ (is_none (lowest_key g (group_at self.now g)) && is_none (chunk_place self.now.blocks (group_at self.now g))) }
    {
        let group = group_of(&self.table, u64::from(g));
        find_lowest_key(g, group).is_none() && place_for_chunk(self.table.blocks, group).is_none()
    }

    /// How many blocks of the key's group are free.
    pub fn count_free(&self, alloc: Global, key: Key) -> Result<usize, NoMemory>
        ensures { IfOk result (λ count. count ≡ length (free_of self.now key)) }
    {
        let group = group_of(&self.table, key.number / u64::from(GROUP_NUMBERS));
        Ok(list_free_blocks(alloc, self.table.blocks, group)?.len())
    }

    /// What the table answers to a call, which is not made.
    pub fn reply(&self, alloc: Global, call: &Call) -> Result<Reply, NoMemory>
        requires { IsOfTable call.now }
        ensures { IfOk result (λ answer. answer ≡ reply_of self.now call.now) }
    {
        let Outcome { reply, .. } = outcome_of(alloc, &self.table, call)?;
        Ok(reply)
    }

    /// Makes a call, and answers its reply; none where the device answers the call, or nobody may make it.
    pub fn step(&mut self, alloc: Global, call: &Call) -> Result<Option<Reply>, NoMemory>
        ensures made { IfOk result (λ reply. IfSome reply (λ answer. Legal self.old call.now answer self.new)) }
        ensures none { IfOk result (λ reply. IfNone reply (self.new ≡ self.old)) }
        ensures able { IfOk result (λ reply. IsOfTable call.now → CanMake self.old call.now → IsSome reply) }
        ensures err { OnErr result (self.new ≡ self.old) }
    {
        if !can_make(&self.table, call) {
            return Ok(None);
        }
        each_call_has_one_reply();
        tables_stay_well_formed();
        let Outcome { reply, next } = outcome_of(alloc, &self.table, call)?;
        match next {
            Some(next) => {
                self.table = next;
                Ok(Some(reply))
            }
            None => Ok(Some(reply)),
        }
    }

    /// Frees a key that has neither links nor holds, and tells whether it had such a row.
    pub fn free(&mut self, alloc: Global, key: Key) -> Result<bool, NoMemory>
        ensures freed { IfOk result (λ was. OnTrue was (Frees self.old key self.new)) }
        ensures none { IfOk result (λ was. OnFalse was ((self.new ≡ self.old) × ((u : Table) → Frees self.old key u → ⊥))) }
        ensures err { OnErr result (self.new ≡ self.old) }
    {
        if !awaits(&self.table, key) {
            return Ok(false);
        }
        tables_stay_well_formed();
        rows_are_within_limits();
        let inode = Inode {
            generation: key.generation + 1,
            row: None,
        };
        self.table = with_inode(alloc, &self.table, key.number, inode)?;
        Ok(true)
    }

    /// Gives the row of a key so many links at once, and tells whether the key has a row. No call does this: it prepares
    /// the table that a history begins at. A key without a row changes nothing.
    #[tactic(auto, using(crate::proofs::Kept::kept_with_links))]
    pub fn set_links(&mut self, alloc: Global, key: Key, links: u32) -> Result<bool, NoMemory>
        requires { links ≤ MAX_LINKS }
        ensures set { IfOk result (λ had. OnTrue had (IsSomeAnd (row_of self.old key) (λ row. self.new ≡ with_row self.old key (with_links links row)))) }
        ensures none { IfOk result (λ had. OnFalse had ((self.new ≡ self.old) × (row_of self.old key ≡ None))) }
        ensures err { OnErr result (self.new ≡ self.old) }
    {
        let Some(row) = row_of(&self.table, key) else {
            return Ok(false);
        };
        let inode = Inode {
            generation: key.generation,
            row: Some(copy_with_links(alloc, row, links)?),
        };
        self.table = with_inode(alloc, &self.table, key.number, inode)?;
        Ok(true)
    }

    /// Brings the inode of a number into the life of this generation at once, with the row that it has, and tells whether
    /// a chunk has the number. No call does this: it prepares the table that a history begins at. A number of no chunk
    /// changes nothing.
    #[tactic(auto, using(crate::proofs::Kept::kept_in_life))]
    pub fn set_generation(
        &mut self,
        alloc: Global,
        number: u64,
        generation: u32,
    ) -> Result<bool, NoMemory>
        requires first { 1 ≤ generation }
        requires last { generation < MAX_GENERATION }
        ensures set { IfOk result (λ had. OnTrue had (IsSomeAnd (inode_of self.old number) (λ inode. self.new ≡ with_inode self.old number (in_life generation inode)))) }
        ensures none { IfOk result (λ had. OnFalse had ((self.new ≡ self.old) × (inode_of self.old number ≡ None))) }
        ensures err { OnErr result (self.new ≡ self.old) }
    {
        let Some(inode) = inode_of(&self.table, number) else {
            return Ok(false);
        };
        let Inode { row, .. } = copy_inode(alloc, inode)?;
        let inode = Inode { generation, row };
        self.table = with_inode(alloc, &self.table, number, inode)?;
        Ok(true)
    }
}

/// Whether the key has a row without links and holds.
fn awaits(table: &Table, key: Key) -> bool
    ensures { IsTrue result ↔ IsSomeAnd (row_of table.now key) Awaits }
{
    match row_of(table, key) {
        Some(row) => row.links == 0 && row.opens == 0,
        None => false,
    }
}

fn make_table(alloc: Global, groups: u32, blocks: u32) -> Result<Table, NoMemory>
    ensures { IfOk result (λ table. table ≡ empty_table VERSION groups blocks) }
{
    let mut list: Vec<Group> = Vec::new(alloc);
    for _ in 0..groups {
        list.push(Listed::new(alloc))?;
    }
    Ok(Table {
        version: VERSION,
        blocks,
        groups: Listed::from_vec(list),
    })
}
