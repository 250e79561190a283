// The rows without links of a group.

ghost use Rattle.std.specs.Prelude.{◌≡◌, ◌<◌, ◌++◌, true, IfOk, OnOk};
ghost use Rattle.life_limits.specs.declared.TheConstants.{BUCKETS, GROUP_NUMBERS};
ghost use Rattle.life_table.specs.declared.table.Table.{Table};
ghost use Rattle.life_table.specs.Table.{group_at};
ghost use Rattle.sound_image.specs.Encoding.{Layouts};
ghost use Rattle.group_ops.specs.Orphans.{AreOrphansOf, bucket_keys, key_in, orphan_keys};
ghost use Rattle.group_ops.specs.Relinks.{IsUnlinkedIn};
ghost use Rattle.group_ops.specs.Represents.{IsGroupOf, RepresentsGroup};

use crate::state::GroupState;
use agi_buckets::list;
use geometry::number;
use life_limits::BUCKETS;
use life_ports::NoMemory;
use life_table::Key;

impl GroupState {
    /// The key of an inode in use without links.
    fn orphan_key(&self, agino: u32) -> Key
        requires low { agino < GROUP_NUMBERS }
        requires unlinked { IsUnlinkedIn self.now agino }
        ensures { (t : Table) (layouts : Layouts) → IsGroupOf self.now t layouts → result ≡ key_in self.now.group (group_at t self.now.group) agino }
    {
        let Some(core) = self.core_at(agino) else {
            unreachable!()
        };
        Key {
            number: number(self.group(), agino),
            generation: core.generation,
        }
    }

    /// Adds the keys of a bucket, its head first.
    fn add_orphans(&self, bucket: u32, keys: &mut Vec<Key>) -> Result<(), NoMemory>
        requires bucket { bucket < BUCKETS }
        requires group { RepresentsGroup self.now }
        ensures { (t : Table) (layouts : Layouts) → IsGroupOf self.now t layouts
            → OnOk result (keys.new.items ≡ keys.old.items ++ bucket_keys layouts self.now.group (group_at t self.now.group) bucket) }
    {
        self.pointers_show_lists();
        let members = list(self.memory(), &self.pointing(), bucket)?;
        for agino in &members {
            keys.push(self.orphan_key(*agino))?;
        }
        Ok(())
    }

    /// The keys of the rows without links, in the order of their buckets, each bucket from its head on.
    pub fn orphans(&self) -> Result<Vec<Key>, NoMemory>
        requires { RepresentsGroup self.now }
        ensures listed { (t : Table) (layouts : Layouts) → IsGroupOf self.now t layouts
            → IfOk result (λ keys. keys.items ≡ orphan_keys layouts self.now.group (group_at t self.now.group)) }
        ensures rows { (t : Table) (layouts : Layouts) → IsGroupOf self.now t layouts → IfOk result (λ keys. AreOrphansOf t self.now.group keys.items) }
    {
        self.pointers_show_lists();
        let mut keys = Vec::new(self.memory());
        for bucket in 0..BUCKETS {
            self.add_orphans(bucket, &mut keys)?;
        }
        Ok(keys)
    }
}
