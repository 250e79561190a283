// Laws of the definitions. Each is the contract of a function that does nothing.

ghost use Rattle.std.specs.Prelude.{◌≡◌, ◌<◌, ◌+◌, ◌*◌, ℕ, true, None, Some, is_none};
ghost use Rattle.life_limits.specs.declared.TheConstants.{BLOCK_SECTORS, GROUP_NUMBERS};
ghost use Rattle.life_table.specs.declared.table.Inode.{Inode};
ghost use Rattle.life_table.specs.Table.{Group, inode_in, set_inode};
ghost use Rattle.life_table.specs.Space.{insert_chunk, is_free, lowest_key, new_chunk, row_blocks, times};
ghost use Rattle.life_table.specs.WellFormed.{ChunksAscend, IsChunk};
ghost use Rattle.std.specs.List.{AllByRecursion};
ghost use Rattle.group_space.specs.Space.{Space, IsSpaceOf, IsFreeIn};

/// A law: a space is also that of the chunks with another inode at a number, where the number is in use in both or in
/// neither, and its row has the same blocks.
pub fn rows_leave_the_space()
    ensures { (blocks : ℕ) (chunks : Group) (agino : ℕ) (old new : Inode) (space : Space)
        → IsSpaceOf blocks chunks space → inode_in chunks agino ≡ Some old → is_none new.row ≡ is_none old.row
        → ((block : ℕ) → times block (row_blocks new.row) ≡ times block (row_blocks old.row))
        → IsSpaceOf blocks (set_inode chunks agino new) space }
{}

/// A law: the lowest key of a group is that of the free number below which none is free, with the generation of its
/// inode. There is none where no number is free; and then a chunk that is added has the lowest one: its first number,
/// in its first life.
pub fn lowest_keys_by_number()
    ensures lowest { (group : ℕ) (chunks : Group) (agino : ℕ) (inode : Inode) → ChunksAscend chunks
        → AllByRecursion IsChunk chunks → inode_in chunks agino ≡ Some inode → is_free inode ≡ true
        → ((n : ℕ) → n < agino → ¬ IsFreeIn chunks n)
        → lowest_key group chunks
        ≡ Some (record { number = group * GROUP_NUMBERS + agino; generation = inode.generation }) }
    ensures none { (group : ℕ) (chunks : Group) → ChunksAscend chunks → AllByRecursion IsChunk chunks
        → ((n : ℕ) → ¬ IsFreeIn chunks n) → lowest_key group chunks ≡ None }
    ensures added { (group : ℕ) (chunks : Group) (block : ℕ) → lowest_key group chunks ≡ None
        → lowest_key group (insert_chunk (new_chunk block) chunks)
        ≡ Some (record { number = group * GROUP_NUMBERS + BLOCK_SECTORS * block; generation = 1 }) }
{}
