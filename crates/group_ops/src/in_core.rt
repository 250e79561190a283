// The inodes of a group that are in core: changes are made there.

ghost use Rattle.std.specs.Prelude.{◌≡◌, ◌≤◌, ◌<◌, ◌+◌, ◌↔◌, ℕ, true, false, is_some, IfNone, IfSome, IsSome, IsSomeAnd, IsTrue, OnErr, OnOk, Some, vec_capacity};
ghost use Rattle.std.specs.FinMap as finmap;
ghost use Rattle.life_limits.specs.declared.TheConstants.{GROUP_NUMBERS};
ghost use Rattle.life_table.specs.declared.table.Inode.{Inode};
ghost use Rattle.life_table.specs.declared.table.Table.{Table};
ghost use Rattle.life_table.specs.Table.{group_at, inode_in};
ghost use Rattle.sound_image.specs.Encoding.{Layouts};
ghost use Rattle.inode_cache.specs.Caches.{dirty, is_dirty, with_incore};
ghost use Rattle.inode_cache.specs.Inodes.{IsIncore};
ghost use Rattle.group_ops.specs.Buffers.{BuffersAscend};
ghost use Rattle.group_ops.specs.Changes.{FitsPrior, changed_state, with_head, with_prior, with_prior_buffer, with_room};
ghost use Rattle.group_ops.specs.Keeping.{StaysGroup, brought_in, with_in_core};
ghost use Rattle.group_ops.specs.Represents.{IsGroupOf, incore_for};
ghost use Rattle.group_ops.specs.Staging.{LeadsOn};
ghost use Rattle.group_ops.specs.Telling.{HasInodeAt};
ghost use Rattle.group_ops.specs.Values.{kept_at};

use crate::buffers::{ChunkBuffers, add_any, put_buffer};
use crate::change::Change;
use crate::delta::{Delta, Head, Prior};
use crate::state::GroupState;
use encoded_changes::places_have_their_metadata;
use extent_fork::encoded_forks_are_read;
use inode_cache::{Incore, InodeCache};
use life_ports::NoMemory;
use sound_image::encoded_places;

/// The heads with one that is set.
pub(crate) fn heads_with(heads: &[u32; 64], head: Option<Head>) -> [u32; 64]
    ensures { result ≡ with_head heads.now head }
{
    let mut new = *heads;
    if let Some(head) = head {
        if (head.bucket as usize) < new.len() {
            new[head.bucket as usize] = head.agino;
        }
    }
    new
}

/// Sets the next pointer of an inode: in core where it is there, and else in its buffer.
fn put_prior(cache: &mut InodeCache, chunks: &mut Vec<ChunkBuffers>, prior: Option<Prior>)
    requires ascend { BuffersAscend chunks.old.items }
    requires fits { FitsPrior cache.old.inodes prior }
    ensures in_core { cache.new ≡ record cache.old { inodes = with_prior cache.old.inodes prior } }
    ensures buffers { chunks.new.items ≡ with_prior_buffer cache.old.inodes chunks.old.items prior }
    ensures capacity { vec_capacity chunks.new ≡ vec_capacity chunks.old }
{
    let Some(prior) = prior else {
        return;
    };
    if cache.has(prior.agino) {
        cache.change_core(prior.agino, prior.core);
    } else {
        put_buffer(chunks, prior.agino, &prior.sector);
    }
}

/// Puts an inode in core which is dirty from then on; there has to be room for it where its number is not there yet.
fn put_dirty(cache: &mut InodeCache, agino: u32, inode: Incore)
    requires small { agino < GROUP_NUMBERS }
    requires inode { IsIncore inode }
    requires room { 1 ≤ cache.old.spare }
    ensures put { cache.new ≡ with_incore agino (dirty inode) cache.old cache.new.spare }
    ensures spare { cache.old.spare ≤ cache.new.spare + 1 }
{
    let Incore { core, blocks } = inode;
    if cache.has(agino) {
        cache.change(agino, core, blocks);
        return;
    }
    let _ = cache.install(agino, core, blocks);
    cache.change_core(agino, core);
}

impl GroupState {
    /// Makes room for one change. Where there is no memory, nothing but the room may have changed either.
    pub(crate) fn make_room(&mut self) -> Result<(), NoMemory>
        ensures same { self.new ≡ with_room self.old self.new.room }
        ensures kept { self.old.room ≤ self.new.room }
        ensures room { OnOk result (1 ≤ self.new.room) }
    {
        self.cache.reserve()?;
        self.chunks.reserve(1)?;
        Ok(())
    }

    /// Makes a change, for which there has to be room. It takes no memory.
    pub(crate) fn make_change(&mut self, change: Change)
        requires room { 1 ≤ self.old.room }
        requires leads { LeadsOn self.old change.delta }
        ensures changed { self.new ≡ with_room (changed_state self.old change.delta) self.new.room }
        ensures room { self.old.room ≤ self.new.room + 1 }
    {
        encoded_places();
        places_have_their_metadata();
        encoded_forks_are_read();
        let Change { delta, .. } = change;
        let Delta {
            agino,
            inode,
            head,
            prior,
            space,
            chunk,
        } = delta;
        self.heads = heads_with(&self.heads, head);
        put_prior(&mut self.cache, &mut self.chunks, prior);
        self.space.apply(space);
        add_any(&mut self.chunks, chunk);
        put_dirty(&mut self.cache, agino, inode);
    }

    /// The least number from one on whose inode is in core.
    pub(crate) fn first_in_core(&self, from: u32) -> Option<u32>
        ensures found { IfSome result (λ n. (from ≤ n) × (is_some (kept_at self.now n) ≡ true)) }
        ensures least { IfSome result (λ n. (k : ℕ) → from ≤ k → k < n → is_some (kept_at self.now k) ≡ false) }
        ensures none { IfNone result ((k : ℕ) → from ≤ k → is_some (kept_at self.now k) ≡ false) }
    {
        self.cache.first_in_core(from)
    }

    /// The least number from one on whose inode is in core and dirty.
    pub(crate) fn first_dirty(&self, from: u32) -> Option<u32>
        ensures found { IfSome result (λ n. (from ≤ n) × (is_dirty (kept_at self.now n) ≡ true)) }
        ensures least { IfSome result (λ n. (k : ℕ) → from ≤ k → k < n → is_dirty (kept_at self.now k) ≡ false) }
        ensures none { IfNone result ((k : ℕ) → from ≤ k → is_dirty (kept_at self.now k) ≡ false) }
    {
        self.cache.first_dirty(from)
    }

    /// Whether the inode of a number, which has to be in core, is as its buffer has it.
    pub(crate) fn is_clean(&self, agino: u32) -> bool
        requires { IsSome (kept_at self.now agino) }
        ensures { IsTrue result ↔ IsSomeAnd (kept_at self.now agino) (λ kept. kept.dirty ≡ false) }
    {
        self.cache.clean(agino)
    }

    /// Puts a clean copy of an inode in core, where it is not there yet.
    pub(crate) fn bring_inode(&mut self, agino: u32) -> Result<(), NoMemory>
        requires { HasInodeAt self.old agino }
        ensures brought { (t : Table) (layouts : Layouts) (inode : Inode) → IsGroupOf self.old t layouts → inode_in (group_at t self.old.group) agino ≡ Some inode → OnOk result
            (self.new ≡ with_room (with_in_core self.old (brought_in self.old.in_core agino (incore_for layouts self.old.group agino inode) (kept_at self.old agino))) self.new.room) }
        ensures same { OnErr result (self.new ≡ with_room self.old self.new.room) }
        ensures represents { StaysGroup self.old self.new }
        ensures room { self.old.room ≤ self.new.room + 1 }
    {
        encoded_places();
        places_have_their_metadata();
        encoded_forks_are_read();
        if self.cache.has(agino) {
            return Ok(());
        }
        let copy = self.inode_at(agino)?;
        let Incore { core, blocks } = copy;
        self.cache.install(agino, core, blocks)
    }

    /// Takes an inode out of core, which has to be clean.
    pub(crate) fn drop_inode(&mut self, agino: u32)
        requires clean { IsSomeAnd (kept_at self.old agino) (λ kept. kept.dirty ≡ false) }
        ensures gone { self.new ≡ with_room (with_in_core self.old (finmap.remove self.old.in_core agino)) self.new.room }
        ensures represents { StaysGroup self.old self.new }
        ensures room { self.old.room ≤ self.new.room }
    {
        self.cache.reclaim(agino);
    }
}
