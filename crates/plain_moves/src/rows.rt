// Rows that await being freed, and what a call lacks.

ghost use Rattle.std.specs.Prelude.{◌≡◌, ◌+◌, ◌<◌, ◌^◌, ◌++◌, IfOk, OnOk, length};
ghost use Rattle.plain_moves.specs.Parts.{awaiting_among};
ghost use Rattle.actor_world.specs.Moves.{awaiting_from, awaiting_of, has_no_number, is_awaiting_row, is_short, rows_to_free};

use life_limits::GROUP_NUMBERS;
use life_ports::NoMemory;
use life_table::{Call, Chunk, Inode, Key, Row};
use plain_table::PlainTable;
use std::alloc::Global;

fn is_awaiting_row(row: &Option<Row>) -> bool
    ensures { result ≡ is_awaiting_row row.now }
{
    match row {
        Some(row) => row.links == 0 && row.opens == 0,
        None => false,
    }
}

/// Adds the keys of the inodes that await, which are numbered from here on.
fn push_awaiting(keys: &mut Vec<Key>, first: u64, inodes: &[Inode]) -> Result<(), NoMemory>
    requires { first + length inodes.now < 2 ^ 64 }
    ensures { OnOk result (keys.new.items ≡ keys.old.items ++ awaiting_from first inodes.now) }
{
    for (place, inode) in inodes.iter().enumerate() {
        if is_awaiting_row(&inode.row) {
            keys.push(Key {
                number: first + place as u64,
                generation: inode.generation,
            })?;
        }
    }
    Ok(())
}

/// The keys of the rows of these chunks that await. The numbers of their group begin here.
fn awaiting_among(alloc: Global, first: u64, group: &[Chunk]) -> Result<Vec<Key>, NoMemory>
    requires { first < 2 ^ 32 }
    ensures { IfOk result (λ keys. keys.items ≡ awaiting_among first group.now) }
{
    let mut keys = Vec::new(alloc);
    for chunk in group {
        push_awaiting(
            &mut keys,
            first + u64::from(chunk.start),
            chunk.inodes.as_slice(),
        )?;
    }
    Ok(keys)
}

/// The keys of a group's rows that await, ascending.
fn awaiting_of(alloc: Global, table: &PlainTable, g: u64) -> Result<Vec<Key>, NoMemory>
    ensures { IfOk result (λ keys. keys.items ≡ awaiting_of table.now g) }
{
    match table.table().groups.as_slice().get(g as usize) {
        Some(group) => awaiting_among(alloc, g * u64::from(GROUP_NUMBERS), group.as_slice()),
        None => Ok(Vec::new(alloc)),
    }
}

/// Whether the call lacks a number, or blocks.
fn is_short(alloc: Global, table: &PlainTable, call: &Call) -> Result<bool, NoMemory>
    ensures { IfOk result (λ short. short ≡ is_short table.now call.now) }
{
    match *call {
        Call::Create { group } | Call::Tmpfile { group } => Ok(table.lacks_number(group)),
        Call::Grow { key, count } => Ok(table.count_free(alloc, key)? < count as usize),
        _ => Ok(false),
    }
}

/// The rows that a call frees first which takes the group's lock.
pub(crate) fn rows_to_free(
    alloc: Global,
    table: &PlainTable,
    call: &Call,
    g: u64,
) -> Result<Vec<Key>, NoMemory>
    ensures { IfOk result (λ keys. keys.items ≡ rows_to_free call.now g table.now) }
{
    if !is_short(alloc, table, call)? {
        return Ok(Vec::new(alloc));
    }
    awaiting_of(alloc, table, g)
}
