// Frees.

ghost use Rattle.std.specs.Prelude.{◌≡◌, ◌/◌, ◌+◌, ◌<◌, IsSomeAnd, IfOk, false};
ghost use Rattle.life_limits.specs.declared.TheConstants.{GROUP_NUMBERS, MAX_GENERATION, NO_INODE};
ghost use Rattle.life_table.specs.declared.table.Table.{Table};
ghost use Rattle.life_table.specs.Legal.{Awaits};
ghost use Rattle.life_table.specs.Table.{row_of};
ghost use Rattle.sound_image.specs.Encoding.{Layouts};
ghost use Rattle.group_ops.specs.Calls.{FreesKey, HasAwaiting};
ghost use Rattle.group_ops.specs.Represents.{IsGroupOf};

use crate::change::Change;
use crate::delta::Delta;
use crate::state::{GroupState, agino_of};
use change_images::frees_touch_their_places;
use encoded_changes::{encodings_follow_the_table, groups_change_alone};
use inode_cache::Incore;
use inode_core::Core;
use life_limits::NO_INODE;
use life_ports::NoMemory;
use life_table::{Key, Listed, rows_are_within_limits, tables_stay_well_formed};

/// The core of a number that was freed: its generation is the next one.
fn freed_core(core: &Core) -> Core
    requires { core.now.generation < MAX_GENERATION }
    ensures { result ≡ record { live = false; links = 0; size = 0; blocks = 0; extents = 0; generation = core.now.generation + 1; next = NO_INODE } }
{
    Core {
        live: false,
        links: 0,
        size: 0,
        blocks: 0,
        extents: 0,
        generation: core.generation + 1,
        next: NO_INODE,
    }
}

impl GroupState {
    /// The change of the free of a row that awaits it: it has no links, and nobody holds it. Its blocks come back, and the
    /// generation of its number rises.
    pub fn free(&self, key: Key) -> Result<Change, NoMemory>
        requires own { key.number / GROUP_NUMBERS ≡ self.now.group }
        requires awaits { HasAwaiting self.now key }
        ensures { (t : Table) (layouts : Layouts) → IsGroupOf self.now t layouts → IsSomeAnd (row_of t key) Awaits
            → IfOk result (λ change. FreesKey self.now change t layouts key) }
    {
        tables_stay_well_formed();
        rows_are_within_limits();
        frees_touch_their_places();
        encodings_follow_the_table();
        groups_change_alone();
        self.hold();
        let agino = agino_of(key);
        let Incore { core, blocks } = self.inode_at(agino)?;
        let space = self
            .space
            .with_number_given(self.alloc, agino, blocks.as_slice())?;
        let relink = self.take_out(agino);
        let delta = Delta {
            agino,
            inode: Incore {
                core: freed_core(&core),
                blocks: Listed::new(self.alloc),
            },
            head: relink.head,
            prior: relink.prior,
            space,
            chunk: None,
        };
        self.with_commit(delta)
    }
}
