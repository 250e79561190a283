// The commit of a change: the sectors that it may touch, before and after it, by ascending place.

ghost use Rattle.std.specs.Prelude.{◌≡◌, ◌≤◌, ◌<◌, ◌+◌, ◌*◌, ℕ, [], ◌∷◌, None, Some, IfOk, ◌||◌, if◌then◌else◌, is_some, length};
ghost use Rattle.life_limits.specs.declared.TheConstants.{BLOCK_SECTORS, CHUNK_INODES, GROUP_NUMBERS};
ghost use Rattle.geometry.specs.Places.{group_sectors};
ghost use Rattle.ag_header.specs.Headers.{header_encoding};
ghost use Rattle.life_table.specs.declared.table.Table.{Table};
ghost use Rattle.sound_image.specs.Encoding.{Layouts};
ghost use Rattle.change_images.specs.Enough.{chunk_places};
ghost use Rattle.group_ops.specs.Represents.{RepresentsGroup};
ghost use Rattle.group_ops.specs.Staging.{IsAfter, IsCommitOf, IsStagingOf, Leads, LeadsOn, PushesPart, bitmap_touched, candidates_at, header_touched, inodes_touched, own_touched, page_touched, touched, with_candidates};

use crate::buffers::ChunkBuffers;
use crate::delta::{Delta, Prior};
use crate::in_core::heads_with;
use crate::load::{BITMAP, BITMAP_SECTORS, HEADER};
use crate::state::GroupState;
use ag_header::{Agi, write_agi};
use change_images::{Staging, candidates_give_the_images};
use encoded_changes::places_have_their_metadata;
use extent_fork::encoded_forks_are_read;
use group_space::SpaceCounts;
use life_bytes::Sector;
use life_limits::{BLOCK_SECTORS, CHUNK_INODES};
use life_ports::NoMemory;
use log_record::Commit;
use sound_image::{encoded_places, sectors_hold_parts};

/// The level of a tree that has one page.
const ONE_LEVEL: u32 = 1;

/// So many, where it is so.
fn count_if(is: bool, count: usize) -> usize
    ensures { result ≡ (if is then count else 0) }
{
    if is { count } else { 0 }
}

/// Whether a change touches the header.
fn changes_header(delta: &Delta) -> bool
    ensures { result ≡ (is_some delta.now.head || is_some delta.now.space.records) }
{
    delta.head.is_some() || delta.space.has_records()
}

/// How many sectors of inodes a change touches.
fn inodes_count(delta: &Delta) -> usize
    ensures count { result ≡ length (inodes_touched delta.now delta.now.chunk) }
    ensures few { result ≤ CHUNK_INODES }
{
    if delta.chunk.is_some() {
        return CHUNK_INODES as usize;
    }
    if delta.prior.is_some() { 2 } else { 1 }
}

/// How many sectors a change touches.
fn touched_count(delta: &Delta) -> usize
    ensures { (page : ℕ) → result ≡ length (touched page delta.now) }
{
    let header = count_if(changes_header(delta), 1);
    let bitmap = count_if(delta.space.has_blocks(), BITMAP_SECTORS as usize);
    let page = count_if(delta.space.has_records(), BLOCK_SECTORS as usize);
    header + bitmap + page + inodes_count(delta)
}

/// Pushes sectors of a group that follow each other from a place on, before and after a change.
fn push_sectors(staging: &mut Staging, place: u32, before: &[Sector], after: &[Sector])
    requires alike { length after.now ≡ length before.now }
    requires few { length before.now ≤ BLOCK_SECTORS }
    requires small { place < GROUP_NUMBERS }
    requires place { place + length before.now ≤ group_sectors staging.old.geometry }
    requires room { length before.now ≤ staging.old.spare }
    ensures { staging.new ≡ with_candidates staging.old (candidates_at place before.now after.now) }
{
    candidates_give_the_images();
    for index in 0..before.len() {
        staging.push(place + index as u32, &before[index], &after[index]);
    }
}

impl GroupState {
    /// The header of the group with these heads and counts.
    fn header(&self, heads: [u32; 64], counts: SpaceCounts) -> Sector
        requires { RepresentsGroup self.now }
        ensures { result.bytes ≡ header_encoding (record {
          group = self.now.group;
          blocks = self.now.geometry.blocks;
          count = counts.inodes;
          root = self.now.page;
          level = 1;
          free = counts.free;
          heads = heads;
          uuid = self.now.geometry.uuid;
        }) }
    {
        let agi = Agi {
            group: self.group,
            blocks: self.geometry.blocks,
            count: counts.inodes,
            root: self.page,
            level: ONE_LEVEL,
            free: counts.free,
            heads,
            uuid: self.geometry.uuid,
        };
        let mut sector = Sector::zero();
        write_agi(&agi, &mut sector);
        sector
    }

    /// Pushes the header, where a head is set or the records change.
    fn push_header(&self, delta: &Delta, staging: &mut Staging)
        requires leads { LeadsOn self.now delta.now }
        requires own { IsStagingOf self.now staging.old }
        requires room { length (header_touched delta.now) ≤ staging.old.spare }
        ensures { PushesPart self.now delta.now (header_touched delta.now) staging.old staging.new }
    {
        places_have_their_metadata();
        candidates_give_the_images();
        self.hold();
        if !changes_header(delta) {
            return;
        }
        let before = self.header(self.heads, self.space.counts());
        let heads = heads_with(&self.heads, delta.head);
        let after = self.header(heads, self.space.changed_counts(&delta.space));
        push_sectors(staging, HEADER, &[before], &[after]);
    }

    /// Pushes the bitmap, where a block comes to be free or ceases to be.
    fn push_bitmap(&self, delta: &Delta, staging: &mut Staging)
        requires leads { LeadsOn self.now delta.now }
        requires own { IsStagingOf self.now staging.old }
        requires room { length (bitmap_touched delta.now) ≤ staging.old.spare }
        ensures { PushesPart self.now delta.now (bitmap_touched delta.now) staging.old staging.new }
    {
        places_have_their_metadata();
        candidates_give_the_images();
        self.hold();
        if !delta.space.has_blocks() {
            return;
        }
        let blank = Sector::zero();
        let mut before = [blank; 4];
        self.space.write_map(&mut before);
        sectors_hold_parts(&before);
        let mut after = [blank; 4];
        self.space.write_changed_map(&delta.space, &mut after);
        sectors_hold_parts(&after);
        push_sectors(staging, BITMAP, &before, &after);
    }

    /// Pushes the page of the records, where they change.
    fn push_page(&self, delta: &Delta, staging: &mut Staging)
        requires leads { LeadsOn self.now delta.now }
        requires own { IsStagingOf self.now staging.old }
        requires room { length (page_touched self.now.page delta.now) ≤ staging.old.spare }
        ensures { PushesPart self.now delta.now (page_touched self.now.page delta.now) staging.old staging.new }
    {
        places_have_their_metadata();
        candidates_give_the_images();
        self.hold();
        if !delta.space.has_records() {
            return;
        }
        let blank = Sector::zero();
        let mut before = [blank; 8];
        self.space
            .write_page(&self.geometry, self.group, self.page, &mut before);
        sectors_hold_parts(&before);
        let mut after = [blank; 8];
        self.space.write_changed_page(
            &delta.space,
            &self.geometry,
            self.group,
            self.page,
            &mut after,
        );
        sectors_hold_parts(&after);
        push_sectors(staging, BLOCK_SECTORS * self.page, &before, &after);
    }

    /// Pushes the sector of an inode that the table had before the change.
    fn push_inode(&self, delta: &Delta, agino: u32, after: &Sector, staging: &mut Staging)
        requires leads { LeadsOn self.now delta.now }
        requires own { IsStagingOf self.now staging.old }
        requires room { 1 ≤ staging.old.spare }
        requires no_chunk { delta.now.chunk ≡ None }
        requires after { IsAfter self.now delta.now agino after.now.bytes }
        ensures { PushesPart self.now delta.now (agino ∷ []) staging.old staging.new }
    {
        places_have_their_metadata();
        candidates_give_the_images();
        self.hold();
        staging.push(agino, &self.sector_at(agino), after);
    }

    /// Pushes the sector of the inode that the change is of.
    fn push_changed(&self, delta: &Delta, staging: &mut Staging)
        requires leads { LeadsOn self.now delta.now }
        requires own { IsStagingOf self.now staging.old }
        requires room { 1 ≤ staging.old.spare }
        requires no_chunk { delta.now.chunk ≡ None }
        ensures { PushesPart self.now delta.now (delta.now.agino ∷ []) staging.old staging.new }
    {
        let after = self.changed(delta);
        self.push_inode(delta, delta.agino, &after, staging);
    }

    /// The sector of the inode that the change is of, as it leaves it.
    fn changed(&self, delta: &Delta) -> Sector
        requires { LeadsOn self.now delta.now }
        ensures { IsAfter self.now delta.now delta.now.agino result.bytes }
    {
        encoded_places();
        places_have_their_metadata();
        encoded_forks_are_read();
        self.hold();
        self.encoded(delta.agino, &delta.inode)
    }

    /// Pushes the sector of the inode before it in its bucket.
    fn push_prior(&self, delta: &Delta, prior: &Prior, staging: &mut Staging)
        requires leads { LeadsOn self.now delta.now }
        requires own { IsStagingOf self.now staging.old }
        requires room { 1 ≤ staging.old.spare }
        requires no_chunk { delta.now.chunk ≡ None }
        requires prior { delta.now.prior ≡ Some prior.now }
        ensures { PushesPart self.now delta.now (prior.now.agino ∷ []) staging.old staging.new }
    {
        self.hold();
        self.push_inode(delta, prior.agino, &prior.sector, staging);
    }

    /// Pushes the sectors of the inode that the change is of and of the one before it in its bucket.
    fn push_own(&self, delta: &Delta, staging: &mut Staging)
        requires leads { LeadsOn self.now delta.now }
        requires own { IsStagingOf self.now staging.old }
        requires room { length (own_touched delta.now.agino delta.now.prior) ≤ staging.old.spare }
        requires no_chunk { delta.now.chunk ≡ None }
        ensures { PushesPart self.now delta.now (own_touched delta.now.agino delta.now.prior) staging.old staging.new }
    {
        candidates_give_the_images();
        let Some(prior) = &delta.prior else {
            self.push_changed(delta, staging);
            return;
        };
        if prior.agino < delta.agino {
            self.push_prior(delta, prior, staging);
            self.push_changed(delta, staging);
        } else {
            self.push_changed(delta, staging);
            self.push_prior(delta, prior, staging);
        }
    }

    /// The sector of an inode of a chunk that the change adds, by its place in the chunk.
    fn added(&self, delta: &Delta, chunk: &ChunkBuffers, index: u32) -> Sector
        requires leads { LeadsOn self.now delta.now }
        requires chunk { delta.now.chunk ≡ Some chunk.now }
        requires index { index < CHUNK_INODES }
        ensures { IsAfter self.now delta.now (chunk.now.start + index) result.bytes }
    {
        self.hold();
        if chunk.start() + index == delta.agino {
            self.changed(delta)
        } else {
            chunk.at(index)
        }
    }

    /// Pushes the sectors of a chunk that the change adds.
    fn push_chunk(&self, delta: &Delta, chunk: &ChunkBuffers, staging: &mut Staging)
        requires leads { LeadsOn self.now delta.now }
        requires own { IsStagingOf self.now staging.old }
        requires room { CHUNK_INODES ≤ staging.old.spare }
        requires chunk { delta.now.chunk ≡ Some chunk.now }
        ensures { PushesPart self.now delta.now (chunk_places chunk.now.start) staging.old staging.new }
    {
        places_have_their_metadata();
        candidates_give_the_images();
        self.hold();
        let start = chunk.start();
        for index in 0..CHUNK_INODES {
            staging.push_new(start + index, &self.added(delta, chunk, index));
        }
    }

    /// Pushes the sectors of inodes.
    fn push_inodes(&self, delta: &Delta, staging: &mut Staging)
        requires leads { LeadsOn self.now delta.now }
        requires own { IsStagingOf self.now staging.old }
        requires room { length (inodes_touched delta.now delta.now.chunk) ≤ staging.old.spare }
        ensures { PushesPart self.now delta.now (inodes_touched delta.now delta.now.chunk) staging.old staging.new }
    {
        match &delta.chunk {
            Some(chunk) => self.push_chunk(delta, chunk, staging),
            None => self.push_own(delta, staging),
        }
    }

    /// The commit of a change: the sectors that it touches and changes, by ascending home.
    pub(crate) fn stage(&self, delta: &Delta) -> Result<Commit, NoMemory>
        requires { LeadsOn self.now delta.now }
        ensures { (t : Table) (layouts : Layouts) (u : Table) (others : Layouts) → Leads self.now delta.now t layouts u others
            → IfOk result (λ commit. IsCommitOf self.now t layouts u others commit) }
    {
        candidates_give_the_images();
        let mut staging = Staging::with_room(
            self.alloc,
            &self.geometry,
            self.group,
            touched_count(delta),
        )?;
        self.push_header(delta, &mut staging);
        self.push_bitmap(delta, &mut staging);
        self.push_page(delta, &mut staging);
        self.push_inodes(delta, &mut staging);
        Ok(staging.finish())
    }
}
