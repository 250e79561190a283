// Flushes: dirty inodes in core are copied into their buffers.

ghost use Rattle.std.specs.Prelude.{◌≡◌, ◌*◌, ◌/◌, ℕ, Some, false, IsSomeAnd};
ghost use Rattle.inode_cache.specs.declared.inode.TheConstants.{CLUSTER_INODES};
ghost use Rattle.inode_cache.specs.Caches.{is_dirty};
ghost use Rattle.life_table.specs.declared.table.Inode.{Inode};
ghost use Rattle.life_table.specs.declared.table.Table.{Table};
ghost use Rattle.life_table.specs.Table.{group_at, inode_in};
ghost use Rattle.sound_image.specs.Encoding.{Layouts, inode_sector};
ghost use Rattle.group_ops.specs.Buffers.{buffer_in};
ghost use Rattle.group_ops.specs.Flushing.{IsClusterFlush, IsFlush};
ghost use Rattle.group_ops.specs.Keeping.{StaysGroup};
ghost use Rattle.group_ops.specs.Represents.{IsGroupOf, RepresentsGroup};
ghost use Rattle.group_ops.specs.Telling.{HasInodeAt};
ghost use Rattle.group_ops.specs.Values.{kept_at};

use crate::buffers::flush_buffers;
use crate::state::GroupState;
use encoded_changes::places_have_their_metadata;
use inode_cache::CLUSTER_INODES;

impl GroupState {
    /// Flushes the inodes of a cluster.
    fn flush_inodes(&mut self, cluster: u32)
        requires { HasInodeAt self.old (cluster * CLUSTER_INODES) }
        ensures { IsClusterFlush cluster self.old self.new }
    {
        places_have_their_metadata();
        flush_buffers(&mut self.cache, &mut self.chunks, cluster);
    }

    /// Copies the dirty inodes of a cluster into their buffers, and makes them clean. The cluster of an inode is its number in the group divided by 32; a
    /// chunk has the inodes of two clusters. It takes no memory.
    pub fn flush_cluster(&mut self, cluster: u32)
        requires { HasInodeAt self.old (cluster * CLUSTER_INODES) }
        ensures flushed { IsClusterFlush cluster self.old self.new }
        ensures represents { StaysGroup self.old self.new }
        ensures clean { (agino : ℕ) → agino / CLUSTER_INODES ≡ cluster → is_dirty (kept_at self.new agino) ≡ false }
        ensures sectors { (t : Table) (layouts : Layouts) (agino : ℕ) (inode : Inode) → IsGroupOf self.old t layouts → agino / CLUSTER_INODES ≡ cluster
            → inode_in (group_at t self.old.group) agino ≡ Some inode
            → IsSomeAnd (buffer_in self.new.buffers agino) (λ sector. sector.bytes ≡ inode_sector self.old.geometry layouts self.old.group agino inode) }
    {
        self.flush_inodes(cluster);
    }

    /// Copies all dirty inodes into their buffers, and makes them clean. It takes no memory, and costs what the clusters that have dirty inodes cost.
    pub fn flush_all(&mut self)
        requires { RepresentsGroup self.old }
        ensures flushed { IsFlush self.old self.new }
        ensures represents { StaysGroup self.old self.new }
        ensures clean { (agino : ℕ) → is_dirty (kept_at self.new agino) ≡ false }
        ensures sectors { (t : Table) (layouts : Layouts) (agino : ℕ) (inode : Inode) → IsGroupOf self.old t layouts → inode_in (group_at t self.old.group) agino ≡ Some inode
            → IsSomeAnd (buffer_in self.new.buffers agino) (λ sector. sector.bytes ≡ inode_sector self.old.geometry layouts self.old.group agino inode) }
    {
        places_have_their_metadata();
        self.hold();
        let mut from = 0;
        while let Some(agino) = self.first_dirty(from) {
            let cluster = agino / CLUSTER_INODES;
            self.flush_inodes(cluster);
            from = (cluster + 1) * CLUSTER_INODES;
        }
    }
}
