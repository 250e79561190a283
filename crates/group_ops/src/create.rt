// Creates.

ghost use Rattle.std.specs.Prelude.{◌≡◌, ◌==◌, ◌<◌, ◌≤◌, ◌+◌, ◌%◌, None, Some, IfOk, MatchResult, false};
ghost use Rattle.life_limits.specs.declared.TheConstants.{CHUNK_INODES, GROUP_NUMBERS};
ghost use Rattle.life_table.specs.declared.table.Table.{Table};
ghost use Rattle.life_table.specs.Legal.{made_row};
ghost use Rattle.life_table.specs.Replies.{reply_of};
ghost use Rattle.life_table.specs.Space.{chunk_place, lowest_key};
ghost use Rattle.life_table.specs.Table.{group_at, inode_in};
ghost use Rattle.sound_image.specs.Encoding.{Layouts, core_for, is_unlinked};
ghost use Rattle.group_ops.specs.Calls.{relisted};
ghost use Rattle.group_ops.specs.Creating.{AreUnused, Creates, HasLowest, HasNextChunk, IsCreateCause, MakesInode, creation, first_key, unused_incore};
ghost use Rattle.group_ops.specs.Relinks.{IsListedNowhere, Relinks, next_of};
ghost use Rattle.group_ops.specs.Represents.{IsGroupOf, RepresentsGroup};

use crate::buffers::ChunkBuffers;
use crate::change::Change;
use crate::delta::{Delta, Relink};
use crate::refusals::CreateFault;
use crate::state::{GroupState, agino_of};
use change_images::creates_touch_their_places;
use encoded_changes::{
    created_keys_are_free, encodings_follow_the_table, groups_change_alone,
    places_have_their_metadata,
};
use geometry::number;
use group_space::{GroupSpace, SpaceChange, lowest_keys_by_number};
use inode_cache::Incore;
use inode_core::Core;
use life_limits::{BLOCK_SECTORS, CHUNK_INODES, MAX_GENERATION, NO_INODE};
use life_ports::NoMemory;
use life_table::{Key, Listed, chunks_have_the_lowest_place, tables_stay_well_formed};

/// The generation of the first life of an inode.
const FIRST_LIFE: u32 = 1;

/// The core of an inode that comes to be in use: it has so many links and no blocks.
fn made_core(generation: u32, links: u32, next: u32) -> Core
    ensures { result ≡ core_for generation (Some (made_row links)) next }
{
    Core {
        live: true,
        links,
        size: 0,
        blocks: 0,
        extents: 0,
        generation,
        next,
    }
}

/// The core of an inode of a chunk that is added.
fn unused_core() -> Core
    ensures { result ≡ unused_incore.core }
{
    Core {
        live: false,
        links: 0,
        size: 0,
        blocks: 0,
        extents: 0,
        generation: FIRST_LIFE,
        next: NO_INODE,
    }
}

impl GroupState {
    /// The chunks and the free blocks of the group.
    fn space(&self) -> &GroupSpace
        ensures { result.now ≡ self.now.space }
    {
        &self.space
    }

    /// The lowest key that a number of the group can give. It passes over numbers whose generations are used up.
    fn lowest_free(&self) -> Option<Key>
        requires { RepresentsGroup self.now }
        ensures { (t : Table) (layouts : Layouts) → IsGroupOf self.now t layouts → result ≡ lowest_key self.now.group (group_at t self.now.group) }
    {
        lowest_keys_by_number();
        places_have_their_metadata();
        self.hold();
        let mut from = 0;
        while let Some(agino) = self.space().unused_from(from) {
            let Some(core) = self.core_at(agino) else {
                unreachable!()
            };
            let has_life_left = core.generation < MAX_GENERATION;
            if has_life_left {
                return Some(Key {
                    number: number(self.group(), agino),
                    generation: core.generation,
                });
            }
            from = agino + 1;
        }
        None
    }

    /// How pointers are set where an inode comes to be in use with so many links: one without links is put first in its bucket.
    fn relink_made(&self, agino: u32, links: u32) -> Relink
        requires low { agino < GROUP_NUMBERS }
        requires elsewhere { IsListedNowhere self.now agino }
        ensures pointers { (t : Table) (layouts : Layouts) → IsGroupOf self.now t layouts → is_unlinked (inode_in (group_at t self.now.group) agino) ≡ false
            → Relinks self.now t layouts (relisted layouts self.now.group agino false (links == 0)) agino result.head result.prior }
        ensures next { (t : Table) (layouts : Layouts) → IsGroupOf self.now t layouts → is_unlinked (inode_in (group_at t self.now.group) agino) ≡ false
            → result.next ≡ next_of (relisted layouts self.now.group agino false (links == 0)) self.now.group agino }
        ensures prior { result.prior ≡ None }
    {
        self.hold();
        if links == 0 {
            return self.put_first(agino);
        }
        Relink {
            head: None,
            prior: None,
            next: NO_INODE,
        }
    }

    /// The change that makes an inode with so many links, which is in no bucket yet, with the space as it then is.
    fn made(&self, key: Key, links: u32, space: SpaceChange, chunk: Option<ChunkBuffers>) -> Delta
        requires elsewhere { IsListedNowhere self.now (key.number % GROUP_NUMBERS) }
        ensures agino { result.agino ≡ key.number % GROUP_NUMBERS }
        ensures space { result.space ≡ space }
        ensures chunk { result.chunk ≡ chunk }
        ensures makes { (t : Table) (layouts : Layouts) → IsGroupOf self.now t layouts → is_unlinked (inode_in (group_at t self.now.group) (key.number % GROUP_NUMBERS)) ≡ false
            → MakesInode self.now result t layouts key.generation links }
    {
        let agino = agino_of(key);
        let relink = self.relink_made(agino, links);
        Delta {
            agino,
            inode: Incore {
                core: made_core(key.generation, links, relink.next),
                blocks: Listed::new(self.memory()),
            },
            head: relink.head,
            prior: relink.prior,
            space,
            chunk,
        }
    }

    /// The change of a create that takes a free number of a chunk, which is the lowest one.
    fn make_in_chunk(&self, key: Key, links: u32) -> Result<Change, NoMemory>
        requires few { links ≤ 1 }
        requires lowest { HasLowest self.now key }
        ensures { (t : Table) (layouts : Layouts) → IsGroupOf self.now t layouts → lowest_key self.now.group (group_at t self.now.group) ≡ Some key
            → IfOk result (λ change. Creates self.now change t layouts key (creation self.now.group links)) }
    {
        tables_stay_well_formed();
        created_keys_are_free();
        creates_touch_their_places();
        encodings_follow_the_table();
        groups_change_alone();
        self.hold();
        let space = self
            .space()
            .with_number_taken(self.memory(), agino_of(key))?;
        let delta = self.made(key, links, space, None);
        self.with_commit(delta)
    }

    /// The buffers of a chunk that is added at a number: none of its inodes is in use, and each will be in its first life.
    fn unused_chunk(&self, start: u32) -> Result<ChunkBuffers, NoMemory>
        requires aligned { start % CHUNK_INODES ≡ 0 }
        requires low { start + CHUNK_INODES ≤ GROUP_NUMBERS }
        ensures { IfOk result (AreUnused self.now.group self.now.geometry.uuid start) }
    {
        let unused = Incore {
            core: unused_core(),
            blocks: Listed::new(self.memory()),
        };
        let mut sectors = Vec::new(self.memory());
        for index in 0..CHUNK_INODES {
            sectors.push(self.encoded(start + index, &unused))?;
        }
        Ok(ChunkBuffers::new(start, sectors))
    }

    /// The change of a create that adds a chunk at a block and takes its first number.
    fn make_in_new_chunk(&self, block: u32, key: Key, links: u32) -> Result<Change, NoMemory>
        requires few { links ≤ 1 }
        requires place { HasNextChunk self.now block }
        requires first { key ≡ first_key self.now.group block }
        ensures { (t : Table) (layouts : Layouts) → IsGroupOf self.now t layouts → lowest_key self.now.group (group_at t self.now.group) ≡ None
            → chunk_place t.blocks (group_at t self.now.group) ≡ Some block
            → IfOk result (λ change. Creates self.now change t layouts key (creation self.now.group links)) }
    {
        tables_stay_well_formed();
        chunks_have_the_lowest_place();
        created_keys_are_free();
        creates_touch_their_places();
        encodings_follow_the_table();
        groups_change_alone();
        lowest_keys_by_number();
        self.hold();
        let space = self.space().with_chunk_added(self.memory(), block)?;
        let chunk = self.unused_chunk(BLOCK_SECTORS * block)?;
        let delta = self.made(key, links, space, Some(chunk));
        self.with_commit(delta)
    }

    /// The change of a create, with the key that it makes: the lowest free number of the group, in its next life. Where none is free, a chunk is added at the
    /// lowest place for one. The inode has one link, or none, and is put first in its unlinked bucket then.
    pub fn create(&self, links: u32) -> Result<(Key, Change), CreateFault>
        requires few { links ≤ 1 }
        requires group { RepresentsGroup self.now }
        ensures { (t : Table) (layouts : Layouts) → IsGroupOf self.now t layouts
            → MatchResult result (λ made. Creates self.now made.1 t layouts made.0 (creation self.now.group links))
            (λ fault. IsCreateCause fault (reply_of t (creation self.now.group links))) }
    {
        chunks_have_the_lowest_place();
        self.hold();
        if let Some(key) = self.lowest_free() {
            let change = self.make_in_chunk(key, links)?;
            return Ok((key, change));
        }
        let Some(block) = self.space().chunk_block() else {
            return Err(CreateFault::NoInodes);
        };
        let key = Key {
            number: number(self.group(), BLOCK_SECTORS * block),
            generation: FIRST_LIFE,
        };
        let change = self.make_in_new_chunk(block, key, links)?;
        Ok((key, change))
    }
}
