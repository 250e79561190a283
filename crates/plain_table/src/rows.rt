// Calls on a row.

ghost use Rattle.std.specs.Prelude.{◌≡◌, ◌≤◌, IfOk, length};
ghost use Rattle.std.specs.List.{AllByRecursion};
ghost use Rattle.life_table.specs.Legal.{free_of};
ghost use Rattle.life_table.specs.WellFormed.{IsDataBlock};
ghost use Rattle.life_limits.specs.declared.TheConstants.{MAX_BLOCKS, MAX_EXTENTS, MAX_LINKS, MAX_PINS};
ghost use Rattle.extent_fork.specs.Runs.{runs};
ghost use Rattle.plain_table.specs.Outcomes.{IsRowOutcome};

use crate::copies::copy_blocks;
use crate::lookups::group_of;
use crate::space::list_free_blocks;
use extent_fork::{RunsFault, runs_of};
use life_limits::{GROUP_NUMBERS, MAX_LINKS, MAX_PINS};
use life_ports::NoMemory;
use life_table::{Call, Key, Listed, Reply, Row, Table};
use std::alloc::Global;

/// What a call on a row comes to: its reply, and the row after it, where it changes.
#[derive(Drop)]
pub(crate) struct RowOutcome {
    pub(crate) reply: Reply,
    pub(crate) next: Option<Row>,
}

fn answered(reply: Reply) -> RowOutcome
    ensures reply { result.reply ≡ reply }
    ensures next { result.next ≡ None }
{
    RowOutcome { reply, next: None }
}

fn changed(next: Row) -> RowOutcome
    ensures reply { result.reply ≡ Reply.Done }
    ensures next { result.next ≡ Some next }
{
    RowOutcome {
        reply: Reply::Done,
        next: Some(next),
    }
}

/// The row with other links and holds.
fn with_numbers(alloc: Global, row: &Row, links: u32, opens: u32) -> Result<RowOutcome, NoMemory>
    ensures reply { IfOk result (λ out. out.reply ≡ Reply.Done) }
    ensures next { IfOk result (λ out. out.next ≡ Some (record { links = links; blocks = row.now.blocks; opens = opens })) }
{
    Ok(changed(Row {
        links,
        blocks: copy_blocks(alloc, row.blocks.as_slice())?,
        opens,
    }))
}

/// The row with other blocks.
fn with_blocks(row: &Row, blocks: Vec<u32>) -> RowOutcome
    ensures reply { result.reply ≡ Reply.Done }
    ensures next { result.next ≡ Some (record { links = row.now.links; blocks = blocks.items; opens = row.now.opens }) }
{
    changed(Row {
        links: row.links,
        blocks: Listed::from_vec(blocks),
        opens: row.opens,
    })
}

fn list_free(alloc: Global, table: &Table, key: Key) -> Result<Vec<u32>, NoMemory>
    ensures { IfOk result (λ free. free.items ≡ free_of table.now key) }
{
    let group = group_of(table, key.number / u64::from(GROUP_NUMBERS));
    list_free_blocks(alloc, table.blocks, group)
}

/// Appends the lowest free blocks.
fn grow(
    alloc: Global,
    table: &Table,
    key: Key,
    count: u32,
    row: &Row,
) -> Result<RowOutcome, NoMemory>
    requires small { table.now.blocks ≤ MAX_BLOCKS }
    requires blocks { AllByRecursion (IsDataBlock table.now.blocks) row.now.blocks }
    ensures { IfOk result (λ out. IsRowOutcome table.now row.now (Call.Grow key count) out.reply out.next) }
{
    let free = list_free(alloc, table, key)?;
    if free.len() < count as usize {
        return Ok(answered(Reply::NoSpace));
    }
    let mut blocks = Vec::from_slice(alloc, row.blocks.as_slice())?;
    blocks.extend_from_slice(&free[..count as usize])?;
    match runs_of(alloc, &blocks) {
        Ok(_) => Ok(with_blocks(row, blocks)),
        Err(RunsFault::TooManyExtents) => Ok(answered(Reply::TooManyExtents)),
        Err(RunsFault::NoMemory) => Err(NoMemory),
    }
}

/// Takes the last blocks away.
fn cut(
    alloc: Global,
    key: Key,
    count: u32,
    row: &Row,
    table: &Table,
) -> Result<RowOutcome, NoMemory>
    ensures { IfOk result (λ out. IsRowOutcome table.now row.now (Call.Cut key count) out.reply out.next) }
{
    let blocks = row.blocks.as_slice();
    if blocks.len() < count as usize {
        return Ok(answered(Reply::CutTooFar));
    }
    let kept = blocks.len() - count as usize;
    Ok(with_blocks(row, Vec::from_slice(alloc, &blocks[..kept])?))
}

/// Shows what the row has.
fn show(alloc: Global, table: &Table, key: Key, row: &Row) -> Result<RowOutcome, NoMemory>
    requires small { table.now.blocks ≤ MAX_BLOCKS }
    requires blocks { AllByRecursion (IsDataBlock table.now.blocks) row.now.blocks }
    requires few { length row.now.blocks ≤ MAX_BLOCKS }
    requires runs { length (runs row.now.blocks) ≤ MAX_EXTENTS }
    ensures { IfOk result (λ out. IsRowOutcome table.now row.now (Call.Stat key) out.reply out.next) }
{
    let blocks = row.blocks.as_slice();
    match runs_of(alloc, blocks) {
        Ok(runs) => Ok(answered(Reply::Shown {
            key,
            links: row.links,
            blocks: blocks.len() as u32,
            runs: Listed::from_vec(runs),
        })),
        Err(RunsFault::TooManyExtents) => unreachable!(),
        Err(RunsFault::NoMemory) => Err(NoMemory),
    }
}

/// Takes a hold.
fn open(alloc: Global, table: &Table, key: Key, row: &Row) -> Result<RowOutcome, NoMemory>
    requires { row.now.opens ≤ MAX_PINS }
    ensures { IfOk result (λ out. IsRowOutcome table.now row.now (Call.OpenKey key) out.reply out.next) }
{
    if row.links == 0 && row.opens == 0 {
        return Ok(answered(Reply::Stale));
    }
    if row.opens == MAX_PINS {
        return Ok(answered(Reply::Crowded));
    }
    with_numbers(alloc, row, row.links, row.opens + 1)
}

/// What a call on a row comes to.
pub(crate) fn on_row(
    alloc: Global,
    table: &Table,
    row: &Row,
    call: &Call,
) -> Result<RowOutcome, NoMemory>
    requires small { table.now.blocks ≤ MAX_BLOCKS }
    requires blocks { AllByRecursion (IsDataBlock table.now.blocks) row.now.blocks }
    requires few { length row.now.blocks ≤ MAX_BLOCKS }
    requires runs { length (runs row.now.blocks) ≤ MAX_EXTENTS }
    requires opens { row.now.opens ≤ MAX_PINS }
    requires links { row.now.links ≤ MAX_LINKS }
    ensures { IfOk result (λ out. IsRowOutcome table.now row.now call.now out.reply out.next) }
{
    match *call {
        Call::OpenKey { key } => open(alloc, table, key, row),
        Call::CloseKey { .. } => with_numbers(alloc, row, row.links, row.opens.saturating_sub(1)),
        Call::Link { .. } if row.links == MAX_LINKS => Ok(answered(Reply::TooManyLinks)),
        Call::Link { .. } => with_numbers(alloc, row, row.links + 1, row.opens),
        Call::Unlink { .. } if row.links == 0 => Ok(answered(Reply::NoLinks)),
        Call::Unlink { .. } => with_numbers(alloc, row, row.links - 1, row.opens),
        Call::Grow { key, count } => grow(alloc, table, key, count, row),
        Call::Cut { key, count } => cut(alloc, key, count, row, table),
        Call::Stat { key } => show(alloc, table, key, row),
        _ => Ok(answered(Reply::Done)),
    }
}
