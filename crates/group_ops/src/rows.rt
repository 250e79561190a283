//! The rows of a group.

ghost use Rattle.std.specs.Prelude.{◌≡◌, ◌≤◌, ◌<◌, ◌+◌, ◌++◌, ℕ, List, Some, IfOk, OnOk};
ghost use Rattle.life_limits.specs.declared.TheConstants.{CHUNK_INODES, GROUP_NUMBERS};
ghost use Rattle.life_table.specs.declared.table.Inode.{Inode};
ghost use Rattle.life_table.specs.declared.table.Table.{Table};
ghost use Rattle.life_table.specs.Table.{group_at, inode_in};
ghost use Rattle.geometry.specs.Places.{number_in};
ghost use Rattle.sound_image.specs.Encoding.{Layouts};
ghost use Rattle.group_ops.specs.Represents.{IsGroupOf};
ghost use Rattle.group_ops.specs.Rows.{HasInodes, line_of, row_lines, rows_from};

use crate::state::GroupState;
use geometry::number;
use life_limits::CHUNK_INODES;
use life_ports::NoMemory;
use life_table::Key;

/// What is told of a row.
#[derive(Clone, Copy, Debug, PartialEq, Eq)]
pub struct RowLine {
    pub key: Key,
    pub links: u32,
    /// How many blocks it has.
    pub blocks: u32,
}

impl GroupState {
    /// Adds the line of a number, where it has a row.
    fn add_line(&self, agino: u32, lines: &mut Vec<RowLine>) -> Result<(), NoMemory>
        requires { agino < GROUP_NUMBERS }
        ensures { (t : Table) (layouts : Layouts) (inode : Inode) → IsGroupOf self.now t layouts → inode_in (group_at t self.now.group) agino ≡ Some inode
            → OnOk result (lines.new.items ≡ lines.old.items ++ line_of (number_in self.now.group agino) inode) }
    {
        let Some(core) = self.core_at(agino) else {
            return Ok(());
        };
        if !core.live {
            return Ok(());
        }
        lines.push(RowLine {
            key: Key {
                number: number(self.group(), agino),
                generation: core.generation,
            },
            links: core.links,
            blocks: core.blocks as u32,
        })?;
        Ok(())
    }

    /// Adds the lines of a chunk's rows.
    fn add_lines(&self, start: u32, lines: &mut Vec<RowLine>) -> Result<(), NoMemory>
        requires { start + CHUNK_INODES ≤ GROUP_NUMBERS }
        ensures { (t : Table) (layouts : Layouts) (inodes : List Inode) → IsGroupOf self.now t layouts → HasInodes (group_at t self.now.group) start inodes
            → OnOk result (lines.new.items ≡ lines.old.items ++ rows_from (number_in self.now.group start) inodes) }
    {
        for index in 0..CHUNK_INODES {
            self.add_line(start + index, lines)?;
        }
        Ok(())
    }

    /// All rows, by ascending number.
    pub fn rows(&self) -> Result<Vec<RowLine>, NoMemory>
        ensures { (t : Table) (layouts : Layouts) → IsGroupOf self.now t layouts
            → IfOk result (λ lines. lines.items ≡ row_lines self.now.group (group_at t self.now.group)) }
    {
        let mut lines = Vec::new(self.memory());
        let chunks = self.chunks();
        for chunk in chunks {
            let start = chunk.start();
            self.add_lines(start, &mut lines)?;
        }
        Ok(lines)
    }
}
