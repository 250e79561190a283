//! The state of a group.

ghost use Rattle.std.specs.Prelude.{◌≡◌, ◌<◌, ◌≤◌, ◌/◌, ◌%◌, ℕ, List, length, All, IsSome, IfOk, IfSome, is_some};
ghost use Rattle.std.specs.FinMap as finmap;
ghost use Rattle.life_limits.specs.declared.TheConstants.{GROUP_NUMBERS, MAX_EXTENTS, MAX_GROUPS};
ghost use Rattle.geometry.specs.Places.{number_in};
ghost use Rattle.geometry.specs.Shape.{IsGeometry};
ghost use Rattle.inode_core.specs.Cores.{IsCore};
ghost use Rattle.extent_fork.specs.declared.extent.Extent.{Extent};
ghost use Rattle.extent_fork.specs.Forks.{HasFork};
ghost use Rattle.extent_fork.specs.Runs.{runs};
ghost use Rattle.inode_cache.specs.Inodes.{IsIncore};
ghost use Rattle.life_table.specs.declared.types.Row.{Row};
ghost use Rattle.life_table.specs.declared.types.Call.TheVariants.{Stat};
ghost use Rattle.life_table.specs.declared.table.Inode.{Inode};
ghost use Rattle.life_table.specs.declared.table.Table.{Table};
ghost use Rattle.life_table.specs.Replies.{reply_of};
ghost use Rattle.life_table.specs.Table.{group_at, inode_in, row_of};
ghost use Rattle.sound_image.specs.Encoding.{Layouts};
ghost use Rattle.group_ops.specs.Buffers.{AreBuffers, Buffers, BuffersAscend};
ghost use Rattle.group_ops.specs.Represents.{IsGroupOf};
ghost use Rattle.group_ops.specs.Telling.{HasRowOf, HasRowAt, core_told};

use crate::buffers::{ChunkBuffers, find_buffer};
use ag_header::Agi;
use extent_fork::{Extent, ForkFault, RunsFault, read_fork, runs_of};
use geometry::{Geometry, number};
use group_space::GroupSpace;
use inode_cache::{Incore, InodeCache, begin_cache};
use inode_core::{Core, read_core};
use life_bytes::Sector;
use life_limits::GROUP_NUMBERS;
use life_ports::NoMemory;
use life_table::{Key, Listed, Reply};
use sound_image::encoded_places;
use std::alloc::Global;
use std::marker::Model;

/// What the lock of a group guards.
#[derive(Drop)]
pub struct GroupState {
    pub(crate) alloc: Global,
    pub(crate) geometry: Geometry,
    pub(crate) group: u32,
    /// The block of the page of its chunks' records.
    pub(crate) page: u32,
    /// The heads of its unlinked buckets.
    pub(crate) heads: [u32; 64],
    pub(crate) space: GroupSpace,
    pub(crate) chunks: Vec<ChunkBuffers>,
    pub(crate) cache: InodeCache,
}

impl Model for GroupState {
    ghost use Rattle.std.specs.Prelude.{◌-◌, min, vec_len, vec_capacity};
    ghost use Rattle.group_ops.specs.Codes.{group_code};
    ghost use Rattle.group_ops.specs.Values.{StateValue, IsState};

    ghost Value = { StateValue };

    ghost coded = { group_code };

    ghost view = { λ s. record { geometry = s.geometry; group = s.group; page = s.page; heads = s.heads; space = s.space; buffers = s.chunks.items; in_core = s.cache.inodes; room = min s.cache.spare (vec_capacity s.chunks - vec_len s.chunks) } };

    ghost invariant = { λ s. IsState s.geometry s.group s.chunks.items s.cache };
}

/// The runs of the blocks of an inode in core.
fn runs_in_core(alloc: Global, inode: &Incore) -> Result<Vec<Extent>, NoMemory>
    requires { IsIncore inode.now }
    ensures { IfOk result (λ found. found.items ≡ runs inode.now.blocks) }
{
    match runs_of(alloc, inode.blocks.as_slice()) {
        Ok(runs) => Ok(runs),
        Err(RunsFault::NoMemory) => Err(NoMemory),
        Err(RunsFault::TooManyExtents) => unreachable!(),
    }
}

/// The runs of a fork that is known to be right.
fn runs_in_buffer(
    alloc: Global,
    sector: &Sector,
    extents: u32,
    group: u32,
) -> Result<Vec<Extent>, NoMemory>
    requires few { extents ≤ MAX_EXTENTS }
    requires group_small { group < MAX_GROUPS }
    requires right { (list : List Extent) × HasFork sector.now.bytes extents group list }
    ensures { (list : List Extent) → HasFork sector.now.bytes extents group list → IfOk result (λ found. found.items ≡ list) }
{
    match read_fork(alloc, sector, extents, group) {
        Ok(runs) => Ok(runs),
        Err(ForkFault::NoMemory) => Err(NoMemory),
        Err(ForkFault::Malformed) => unreachable!(),
    }
}

/// The number in its group of a key.
pub(crate) fn agino_of(key: Key) -> u32
    ensures own { result ≡ key.number % GROUP_NUMBERS }
    ensures small { result < GROUP_NUMBERS }
{
    (key.number % u64::from(GROUP_NUMBERS)) as u32
}

impl GroupState {
    /// A state of these parts, with nothing in core.
    pub(crate) fn of(
        alloc: Global,
        g: &Geometry,
        group: u32,
        header: &Agi,
        space: GroupSpace,
        chunks: Vec<ChunkBuffers>,
    ) -> GroupState
        requires shape { IsGeometry g.now }
        requires inside { group < g.now.groups }
        requires ascends { BuffersAscend chunks.items }
        requires whole { All (λ (chunk : Buffers). AreBuffers chunk.start chunk.sectors) chunks.items }
        ensures parts { result ≡ record { geometry = g.now; group = group; page = header.now.root; heads = header.now.heads; space = space; buffers = chunks.items; in_core = result.in_core; room = result.room } }
        ensures nothing_in_core { result.in_core ≡ finmap.empty }
    {
        GroupState {
            alloc,
            geometry: *g,
            group,
            page: header.root,
            heads: header.heads,
            space,
            chunks,
            cache: begin_cache(alloc, group, g.uuid),
        }
    }

    /// The chunks' buffers, by ascending start.
    pub(crate) fn chunks(&self) -> &[ChunkBuffers]
        ensures { result.now ≡ self.now.buffers }
    {
        self.chunks.as_slice()
    }

    /// The number of the group.
    pub(crate) fn group(&self) -> u32
        ensures own { result ≡ self.now.group }
        ensures small { result < MAX_GROUPS }
    {
        self.group
    }

    /// The group is one of an image's, as that of each value of this type.
    pub(crate) fn hold(&self)
        ensures shape { IsGeometry self.now.geometry }
        ensures inside { self.now.group < self.now.geometry.groups }
    {
        let _group = self.group;
    }

    /// The geometry of its image.
    pub(crate) fn geometry(&self) -> &Geometry
        ensures { result.now ≡ self.now.geometry }
    {
        &self.geometry
    }

    /// The heads of its unlinked buckets.
    pub(crate) fn heads(&self) -> [u32; 64]
        ensures { result ≡ self.now.heads }
    {
        self.heads
    }

    /// Where a call of this state takes memory.
    pub(crate) fn memory(&self) -> Global {
        self.alloc
    }

    /// The core of a number of the group, where a chunk has it.
    pub(crate) fn core_at(&self, agino: u32) -> Option<Core>
        requires { agino < GROUP_NUMBERS }
        ensures told { (t : Table) (layouts : Layouts) → IsGroupOf self.now t layouts
            → result ≡ core_told layouts self.now.group agino (inode_in (group_at t self.now.group) agino) }
        ensures allowed { IfSome result IsCore }
    {
        encoded_places();
        if self.cache.has(agino) {
            return Some(self.cache.get(agino).core);
        }
        let sector = find_buffer(self.chunks.as_slice(), agino)?;
        read_core(&sector, number(self.group, agino), &self.geometry.uuid)
    }

    /// Whether the key has a row.
    pub fn find(&self, key: Key) -> bool
        requires { key.number / GROUP_NUMBERS ≡ self.now.group }
        ensures { (t : Table) (layouts : Layouts) → IsGroupOf self.now t layouts → result ≡ is_some (row_of t key) }
    {
        match self.core_at(agino_of(key)) {
            Some(core) => core.live && core.generation == key.generation,
            None => false,
        }
    }

    /// The runs of the blocks of a number in use, of which there are so many.
    pub(crate) fn runs_at(&self, agino: u32, extents: u32) -> Result<Vec<Extent>, NoMemory>
        requires few { extents ≤ MAX_EXTENTS }
        requires used { (t : Table) × (layouts : Layouts) × (inode : Inode) × (row : Row) × HasRowAt self.now agino t layouts inode row }
        requires many { (t : Table) (layouts : Layouts) (inode : Inode) (row : Row) → HasRowAt self.now agino t layouts inode row → extents ≡ length (runs row.blocks) }
        ensures { (t : Table) (layouts : Layouts) (inode : Inode) (row : Row) → HasRowAt self.now agino t layouts inode row
            → IfOk result (λ found. found.items ≡ runs row.blocks) }
    {
        encoded_places();
        if self.cache.has(agino) {
            return runs_in_core(self.alloc, self.cache.get(agino));
        }
        let Some(sector) = find_buffer(self.chunks.as_slice(), agino) else {
            unreachable!()
        };
        runs_in_buffer(self.alloc, &sector, extents, self.group)
    }

    /// What the row of a key has: its links, how many blocks, and their longest runs.
    pub fn stat(&self, key: Key) -> Result<Reply, NoMemory>
        requires own { key.number / GROUP_NUMBERS ≡ self.now.group }
        requires row { HasRowOf self.now key }
        ensures { (t : Table) (layouts : Layouts) → IsGroupOf self.now t layouts → IfOk result (λ reply. reply ≡ reply_of t (Stat key)) }
    {
        let agino = agino_of(key);
        let Some(core) = self.core_at(agino) else {
            unreachable!()
        };
        let runs = self.runs_at(agino, core.extents)?;
        Ok(Reply::Shown {
            key,
            links: core.links,
            blocks: core.blocks as u32,
            runs: Listed::from_vec(runs),
        })
    }
}
