//! The inodes of one group that are in core.

ghost use Rattle.std.specs.Prelude.{◌≡◌, ◌≤◌, ◌<◌, ◌+◌, ◌*◌, ◌↔◌, ℕ, true, false, None, length, is_some, IfNone, IfSome, IsSome, IsSomeAnd, IsTrue, IsOk, OnOk, OnErr};
ghost use Rattle.std.specs.FinMap as map;
ghost use Rattle.life_bytes.specs.declared.sector.Sector.{Sector};
ghost use Rattle.life_limits.specs.declared.TheConstants.{GROUP_NUMBERS, MAX_GROUPS};
ghost use Rattle.inode_cache.specs.declared.inode.TheConstants.{CLUSTER_INODES};
ghost use Rattle.inode_cache.specs.Inodes.{IsIncore};
ghost use Rattle.inode_cache.specs.Caches.{IsClean, clean, dirty, incore_at, is_dirty, with_incore, without_inode};
ghost use Rattle.inode_cache.specs.Flush.{AreFlushed, AreClusterSectors, AreUpToDate, IsFlushed, IsFlushedAt, flushed_bytes};

use crate::inode::{CLUSTER_INODES, Incore, Kept, write_inode};
use crate::number_set::NumberSet;
use inode_core::Core;
use life_bytes::Sector;
use life_ports::NoMemory;
use life_table::Blocks;
use std::alloc::Global;
use std::collections::HashMap;
use std::marker::Model;

/// The inodes of one group that are in core, each by its number in the group. A look-up costs the same however many there
/// are.
#[derive(Drop)]
pub struct InodeCache {
    group: u32,
    uuid: [u8; 16],
    inodes: HashMap<u32, Kept>,
    /// The numbers of those that are in core, and of the dirty ones among them.
    in_core: NumberSet,
    dirty: NumberSet,
}

impl Model for InodeCache {
    ghost use Rattle.std.specs.Prelude.{◌<◌, is_some};
    ghost use Rattle.std.specs.FinMap as map;
    ghost use Rattle.std.specs.HashMap.{spare};
    ghost use Rattle.life_limits.specs.declared.TheConstants.{MAX_GROUPS};
    ghost use Rattle.inode_cache.specs.Caches.{AreInodes, Cache, HasNumbers, cache_code, is_dirty};

    ghost Value = { Cache };

    ghost coded = { cache_code };

    ghost view = { λ c. record { group = c.group; uuid = c.uuid; inodes = map.from_entries c.inodes.entries; spare = spare c.inodes } };

    ghost invariant = { λ c. AreInodes c.inodes.entries × (c.group < MAX_GROUPS)
        × HasNumbers is_some c.inodes.entries c.in_core × HasNumbers is_dirty c.inodes.entries c.dirty };
}

/// A cache without inodes, which takes no memory.
pub fn begin_cache(alloc: Global, group: u32, uuid: [u8; 16]) -> InodeCache
    requires { group < MAX_GROUPS }
    ensures group { result.group ≡ group }
    ensures uuid { result.uuid ≡ uuid }
    ensures none { result.inodes ≡ map.empty }
{
    InodeCache {
        group,
        uuid,
        inodes: HashMap::new(alloc),
        in_core: NumberSet::new(),
        dirty: NumberSet::new(),
    }
}

impl InodeCache {
    /// Makes room for one inode.
    pub fn reserve(&mut self) -> Result<(), NoMemory>
        ensures same { self.new ≡ record self.old { spare = self.new.spare } }
        ensures room { OnOk result (1 ≤ self.new.spare) }
        ensures kept { self.old.spare ≤ self.new.spare }
        ensures succeeds { 1 ≤ self.old.spare → IsOk result }
    {
        self.inodes.reserve(1)?;
        Ok(())
    }

    /// Puts an inode in that its buffer encodes. It takes no memory where there is room for one.
    pub fn install(&mut self, agino: u32, core: Core, blocks: Blocks) -> Result<(), NoMemory>
        requires agino_small { agino < GROUP_NUMBERS }
        requires absent { incore_at self.old agino ≡ None }
        requires inode { IsIncore (record { core = core; blocks = blocks }) }
        ensures installed { OnOk result (self.new ≡ with_incore agino (clean (record { core = core; blocks = blocks })) self.old self.new.spare) }
        ensures same { OnErr result (self.new ≡ record self.old { spare = self.new.spare }) }
        ensures succeeds { 1 ≤ self.old.spare → IsOk result }
        ensures spare { self.old.spare ≤ self.new.spare + 1 }
    {
        let kept = Kept {
            inode: Incore { core, blocks },
            dirty: false,
        };
        self.inodes.insert(agino, kept)?;
        self.in_core.insert(agino);
        Ok(())
    }

    /// Whether the inode is in core.
    pub fn has(&self, agino: u32) -> bool
        ensures { result ≡ is_some (incore_at self.now agino) }
    {
        self.inodes.contains_key(&agino)
    }

    /// The inode, which has to be in core.
    pub fn get(&self, agino: u32) -> &Incore
        requires { IsSome (incore_at self.now agino) }
        ensures found { IsSomeAnd (incore_at self.now agino) (λ kept. kept.inode ≡ result.now) }
        ensures inode { IsIncore result.now }
    {
        &self.inodes.get(&agino).unwrap().inode
    }

    /// Whether the inode, which has to be in core, is as its buffer encodes it.
    pub fn clean(&self, agino: u32) -> bool
        requires { IsSome (incore_at self.now agino) }
        ensures { IsTrue result ↔ IsClean self.now agino }
    {
        !self.inodes.get(&agino).unwrap().dirty
    }

    /// Puts another core and other blocks in the place of those of an inode in core, which is dirty from then on. It takes no
    /// memory.
    pub fn change(&mut self, agino: u32, core: Core, blocks: Blocks)
        requires in_core { IsSome (incore_at self.old agino) }
        requires inode { IsIncore (record { core = core; blocks = blocks }) }
        ensures { self.new ≡ with_incore agino (dirty (record { core = core; blocks = blocks })) self.old self.old.spare }
    {
        let kept = Kept {
            inode: Incore { core, blocks },
            dirty: true,
        };
        *self.inodes.get_mut(&agino).unwrap() = kept;
        self.dirty.insert(agino);
    }

    /// Puts another core in the place of that of an inode in core, whose blocks stay. It is dirty from then on. It takes no
    /// memory.
    pub fn change_core(&mut self, agino: u32, core: Core)
        requires inode { IsSomeAnd (incore_at self.old agino) (λ kept. IsIncore (record { core = core; blocks = kept.inode.blocks })) }
        ensures { IsSomeAnd (incore_at self.old agino)
            (λ kept. self.new ≡ with_incore agino (dirty (record { core = core; blocks = kept.inode.blocks })) self.old self.old.spare) }
    {
        let kept = self.inodes.get_mut(&agino).unwrap();
        kept.inode.core = core;
        kept.dirty = true;
        self.dirty.insert(agino);
    }

    /// The least number from one on whose inode is in core.
    pub fn first_in_core(&self, from: u32) -> Option<u32>
        ensures found { IfSome result (λ n. (from ≤ n) × (is_some (incore_at self.now n) ≡ true)) }
        ensures least { IfSome result (λ n. (k : ℕ) → from ≤ k → k < n → is_some (incore_at self.now k) ≡ false) }
        ensures none { IfNone result ((k : ℕ) → from ≤ k → is_some (incore_at self.now k) ≡ false) }
    {
        self.in_core.first_from(from)
    }

    /// The least number from one on whose inode is in core and dirty.
    pub fn first_dirty(&self, from: u32) -> Option<u32>
        ensures found { IfSome result (λ n. (from ≤ n) × (is_dirty (incore_at self.now n) ≡ true)) }
        ensures least { IfSome result (λ n. (k : ℕ) → from ≤ k → k < n → is_dirty (incore_at self.now k) ≡ false) }
        ensures none { IfNone result ((k : ℕ) → from ≤ k → is_dirty (incore_at self.now k) ≡ false) }
    {
        self.dirty.first_from(from)
    }

    /// Copies an inode into its buffer, where it is in core and dirty, and makes it clean.
    fn flush_inode(&mut self, agino: u32, into: &mut Sector)
        ensures buffer { into.new.bytes ≡ flushed_bytes self.old agino into.old.bytes }
        ensures inode { IsFlushedAt agino self.old self.new }
    {
        let Some(kept) = self.inodes.get_mut(&agino) else {
            return;
        };
        if !kept.dirty {
            return;
        }
        write_inode(&kept.inode, self.group, agino, &self.uuid, into);
        kept.dirty = false;
        self.dirty.remove(agino);
    }

    /// Copies the dirty inodes of a cluster into its buffers, which are the sectors of its 32 inodes, and makes them clean. The
    /// cluster of an inode is its number in the group divided by 32. It takes no memory.
    pub fn flush_cluster(&mut self, cluster: u32, into: &mut [Sector])
        requires cluster { cluster * CLUSTER_INODES < GROUP_NUMBERS }
        requires buffers { length into.old ≡ CLUSTER_INODES }
        ensures buffers { AreFlushed self.old cluster into.old into.new }
        ensures inodes { IsFlushed cluster self.old self.new }
        // Where the buffers encoded what was clean, they are the sectors of the cluster's rows.
        ensures rows { AreUpToDate self.old cluster into.old → AreClusterSectors self.old cluster into.old into.new }
    {
        for place in 0..CLUSTER_INODES {
            self.flush_inode(cluster * CLUSTER_INODES + place, &mut into[place as usize]);
        }
    }

    /// Takes an inode out of core, which has to be clean: what was changed would be lost. It takes no memory.
    pub fn reclaim(&mut self, agino: u32)
        requires { IsClean self.old agino }
        ensures gone { self.new ≡ without_inode agino self.old self.new.spare }
        ensures spare { self.old.spare ≤ self.new.spare }
    {
        let _ = self.inodes.remove(&agino);
        self.in_core.remove(agino);
    }
}
