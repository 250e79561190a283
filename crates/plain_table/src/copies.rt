// Copies of the parts of a table.

ghost use Rattle.std.specs.Prelude.{◌≡◌, IfOk, slice_set};
ghost use Rattle.plain_table.specs.Beginnings.{with_links};

use life_ports::NoMemory;
use life_table::{Blocks, Chunk, Group, Inode, Listed, Row};
use std::alloc::Global;

pub(crate) fn copy_blocks(alloc: Global, blocks: &[u32]) -> Result<Blocks, NoMemory>
    ensures { IfOk result (λ copy. copy ≡ blocks.now) }
{
    Ok(Listed::from_vec(Vec::from_slice(alloc, blocks)?))
}

pub(crate) fn copy_row(alloc: Global, row: &Row) -> Result<Row, NoMemory>
    ensures { IfOk result (λ copy. copy ≡ row.now) }
{
    Ok(Row {
        links: row.links,
        blocks: copy_blocks(alloc, row.blocks.as_slice())?,
        opens: row.opens,
    })
}

/// The row with so many links.
pub(crate) fn copy_with_links(alloc: Global, row: &Row, links: u32) -> Result<Row, NoMemory>
    ensures { IfOk result (λ copy. copy ≡ with_links links row.now) }
{
    Ok(Row {
        links,
        blocks: copy_blocks(alloc, row.blocks.as_slice())?,
        opens: row.opens,
    })
}

pub(crate) fn copy_inode(alloc: Global, inode: &Inode) -> Result<Inode, NoMemory>
    ensures { IfOk result (λ copy. copy ≡ inode.now) }
{
    let row = match &inode.row {
        Some(row) => Some(copy_row(alloc, row)?),
        None => None,
    };
    Ok(Inode {
        generation: inode.generation,
        row,
    })
}

fn copy_inodes(alloc: Global, inodes: &[Inode]) -> Result<Vec<Inode>, NoMemory>
    ensures { IfOk result (λ copy. copy.items ≡ inodes.now) }
{
    let mut copy = Vec::new(alloc);
    for inode in inodes {
        copy.push(copy_inode(alloc, inode)?)?;
    }
    Ok(copy)
}

fn copy_chunk(alloc: Global, chunk: &Chunk) -> Result<Chunk, NoMemory>
    ensures { IfOk result (λ copy. copy ≡ chunk.now) }
{
    Ok(Chunk {
        start: chunk.start,
        inodes: Listed::from_vec(copy_inodes(alloc, chunk.inodes.as_slice())?),
    })
}

pub(crate) fn copy_group(alloc: Global, group: &[Chunk]) -> Result<Vec<Chunk>, NoMemory>
    ensures { IfOk result (λ copy. copy.items ≡ group.now) }
{
    let mut copy = Vec::new(alloc);
    for chunk in group {
        copy.push(copy_chunk(alloc, chunk)?)?;
    }
    Ok(copy)
}

fn copy_groups(alloc: Global, groups: &[Group]) -> Result<Vec<Group>, NoMemory>
    ensures { IfOk result (λ copy. copy.items ≡ groups.now) }
{
    let mut copy = Vec::new(alloc);
    for group in groups {
        copy.push(Listed::from_vec(copy_group(alloc, group.as_slice())?))?;
    }
    Ok(copy)
}

/// The inodes with another one at this place.
pub(crate) fn inodes_with(
    alloc: Global,
    inodes: &[Inode],
    place: usize,
    inode: Inode,
) -> Result<Vec<Inode>, NoMemory>
    ensures { IfOk result (λ copy. copy.items ≡ slice_set inodes.now place inode) }
{
    let mut copy = copy_inodes(alloc, inodes)?;
    if place < copy.len() {
        copy[place] = inode;
    }
    Ok(copy)
}

/// The groups with another one at this place.
pub(crate) fn groups_with(
    alloc: Global,
    groups: &[Group],
    place: usize,
    group: Group,
) -> Result<Vec<Group>, NoMemory>
    ensures { IfOk result (λ copy. copy.items ≡ slice_set groups.now place group) }
{
    let mut copy = copy_groups(alloc, groups)?;
    if place < copy.len() {
        copy[place] = group;
    }
    Ok(copy)
}
