// The inode of a number, and its row.

ghost use Rattle.std.specs.Prelude.{◌≡◌, ◌<◌, IfNone, IfSome, IfOk, length, slice_get};
ghost use Rattle.std.specs.Option.{option_copied};
ghost use Rattle.life_table.specs.Table.{start_of, inode_in, set_inode, group_at, with_group, inode_of, with_inode, row_of};
ghost use Rattle.plain_table.specs.Parts.{IsAbsent, IsFirstAt};

use crate::copies::{copy_group, groups_with, inodes_with};
use life_limits::{CHUNK_INODES, GROUP_NUMBERS};
use life_ports::NoMemory;
use life_table::{Chunk, Inode, Key, Listed, Row, Table};
use std::alloc::Global;

/// The place of the first chunk that starts here.
fn chunk_at(group: &[Chunk], start: u32) -> Option<usize>
    ensures within { IfSome result (λ place. place < length group.now) }
    ensures none { IfNone result (IsAbsent start group.now) }
    ensures found { IfSome result (IsFirstAt start group.now) }
{
    for (place, chunk) in group.iter().enumerate() {
        if chunk.start == start {
            return Some(place);
        }
    }
    None
}

fn inode_at(inodes: &[Inode], place: usize) -> Option<&Inode>
    ensures { option_copied result ≡ slice_get inodes.now place }
{
    inodes.get(place)
}

/// The inode of a number of a group.
fn find_inode(group: &[Chunk], agino: u32) -> Option<&Inode>
    ensures { option_copied result ≡ inode_in group.now agino }
{
    match chunk_at(group, agino - agino % CHUNK_INODES) {
        Some(place) => inode_at(
            group[place].inodes.as_slice(),
            (agino % CHUNK_INODES) as usize,
        ),
        None => None,
    }
}

/// The group with another inode at this number.
fn replace_inode(
    alloc: Global,
    group: &[Chunk],
    agino: u32,
    inode: Inode,
) -> Result<Vec<Chunk>, NoMemory>
    ensures { IfOk result (λ copy. copy.items ≡ set_inode group.now agino inode) }
{
    let mut copy = copy_group(alloc, group)?;
    let Some(place) = chunk_at(group, agino - agino % CHUNK_INODES) else {
        return Ok(copy);
    };
    let chunk = &group[place];
    let index = (agino % CHUNK_INODES) as usize;
    copy[place] = Chunk {
        start: chunk.start,
        inodes: Listed::from_vec(inodes_with(alloc, chunk.inodes.as_slice(), index, inode)?),
    };
    Ok(copy)
}

/// A group of the table; one that it does not have has no chunks.
pub(crate) fn group_of(table: &Table, g: u64) -> &[Chunk]
    ensures { result.now ≡ group_at table.now g }
{
    match table.groups.as_slice().get(g as usize) {
        Some(group) => group.as_slice(),
        None => &[],
    }
}

/// The table with another group at this place.
pub(crate) fn with_group(
    alloc: Global,
    table: &Table,
    g: u64,
    group: Vec<Chunk>,
) -> Result<Table, NoMemory>
    ensures { IfOk result (λ u. u ≡ with_group table.now g group.items) }
{
    let group = Listed::from_vec(group);
    Ok(Table {
        version: table.version,
        blocks: table.blocks,
        groups: Listed::from_vec(groups_with(alloc, table.groups.as_slice(), g as usize, group)?),
    })
}

/// The inode of a number of the table.
pub(crate) fn inode_of(table: &Table, number: u64) -> Option<&Inode>
    ensures { option_copied result ≡ inode_of table.now number }
{
    let group = group_of(table, number / u64::from(GROUP_NUMBERS));
    find_inode(group, (number % u64::from(GROUP_NUMBERS)) as u32)
}

/// The table with another inode at this number.
pub(crate) fn with_inode(
    alloc: Global,
    table: &Table,
    number: u64,
    inode: Inode,
) -> Result<Table, NoMemory>
    ensures { IfOk result (λ u. u ≡ with_inode table.now number inode) }
{
    let g = number / u64::from(GROUP_NUMBERS);
    let agino = (number % u64::from(GROUP_NUMBERS)) as u32;
    let group = replace_inode(alloc, group_of(table, g), agino, inode)?;
    with_group(alloc, table, g, group)
}

/// The row of a key.
pub(crate) fn row_of(table: &Table, key: Key) -> Option<&Row>
    ensures { option_copied result ≡ row_of table.now key }
{
    match inode_of(table, key.number) {
        Some(inode) if inode.generation == key.generation => inode.row.as_ref(),
        _ => None,
    }
}
