// A group beside the plain program over the table, and the sectors to which the group's commits are applied.
ghost use Rattle.tests_group_ops.specs.Standing.{Stands};

use crate::calls::{Answer, flush_and_let_go, free_listed, has_row, make_call};
use crate::disks::{Field, empty_image, judge, load, one_group, put_home, store_field};
use extent_fork::Extent;
use geometry::Geometry;
use group_core::Group;
use group_ops::{GroupState, RowLine};
use life_bytes::Sector;
use life_limits::{MAX_GENERATION, MAX_LINKS};
use life_table::{Call, Key, Reply};
use plain_table::PlainTable;
use std::alloc::Global;
use std::marker::Model;
use std::test::Fail;

/// The runs of a row, as a script prints them.
fn text_of_row(alloc: Global, links: u32, blocks: u32, runs: &[Extent]) -> Result<String, Fail> {
    let mut text = format!(in alloc; "links {links} blocks {blocks} runs")?;
    for run in runs {
        write!(text, " {}+{}", run.start, run.count)?;
    }
    Ok(text)
}

/// The text that a script prints for a reply; that of none is empty.
pub(crate) fn text_of(alloc: Global, reply: &Option<Reply>) -> Result<String, Fail> {
    let text = match reply {
        None => "",
        Some(Reply::Made { key }) => {
            return Ok(format!(in alloc; "{}.{}", key.number, key.generation)?);
        }
        Some(
            Reply::Shown {
                links,
                blocks,
                runs,
                ..
            },
        ) => return text_of_row(alloc, *links, *blocks, runs.as_slice()),
        Some(Reply::Done) => "ok",
        Some(Reply::NoInodes) => "no inodes",
        Some(Reply::NoSpace) => "no space",
        Some(Reply::TooManyLinks) => "too many links",
        Some(Reply::NoLinks) => "no links",
        Some(Reply::TooManyExtents) => "too many extents",
        Some(Reply::CutTooFar) => "cut too far",
        Some(_) => "another",
    };
    Ok(String::from_str(alloc, text)?)
}

/// How many rows the plain program has, and how many numbers whose lives are used up.
fn count_inodes(plain: &PlainTable) -> (u64, u64) {
    let mut rows = 0_u64;
    let mut ended = 0_u64;
    for group in plain.table().groups.as_slice() {
        for chunk in group.as_slice() {
            for inode in chunk.inodes.as_slice() {
                rows = rows.wrapping_add(u64::from(inode.row.is_some()));
                ended = ended.wrapping_add(u64::from(inode.generation == MAX_GENERATION));
            }
        }
    }
    (rows, ended)
}

/// Whether a line is that of a row of the plain program.
fn is_row(plain: &PlainTable, line: &RowLine) -> bool {
    match plain.row(line.key) {
        Some(row) => {
            row.links == line.links && row.blocks.as_slice().len() == line.blocks as usize
        }
        None => false,
    }
}

/// Whether all rows of a group are those of the plain program, of which there are so many.
fn has_rows(group: &Group<GroupState>, plain: &PlainTable, count: u64) -> Result<bool, Fail> {
    let lines = group.state().rows()?;
    for line in &lines {
        if !is_row(plain, line) {
            return Ok(false);
        }
    }
    Ok(lines.len() as u64 == count)
}

#[derive(Drop)]
pub(crate) struct Pair {
    geometry: Geometry,
    group: Group<GroupState>,
    plain: PlainTable,
    sectors: Vec<Sector>,
}

impl Model for Pair {
    ghost use Rattle.std.specs.Prelude.{⊤};
    ghost use Rattle.tests_group_ops.specs.Standing.{IsPair};

    ghost Value = { ⊤ };

    ghost view = { λ pair. tt };

    ghost invariant = { λ pair. IsPair pair.geometry pair.group };
}

impl Pair {
    /// A group without a chunk.
    pub(crate) fn new(alloc: Global, wide: bool) -> Result<Pair, Fail> {
        let geometry = one_group(wide);
        let sectors = empty_image(alloc, &geometry)?;
        let group = load(alloc, &geometry, &sectors)?;
        let plain = PlainTable::new(alloc, 1, geometry.blocks)?;
        Ok(Pair {
            geometry,
            group,
            plain,
            sectors,
        })
    }

    /// Makes a call of both, of an inode that somebody holds. The reply has to be the same; there is none where the key has no row.
    pub(crate) fn call(&mut self, alloc: Global, call: Call) -> Result<Option<Reply>, Fail> {
        let want = self.plain.step(alloc, &call)?;
        let Answer { reply, commit } = make_call(&mut self.group, call)?;
        if let Some(commit) = &commit {
            put_home(&mut self.sectors, commit);
        }
        if text_of(alloc, &want)? != text_of(alloc, &reply)? {
            return Err("another reply".into());
        }
        Ok(reply)
    }

    /// Frees a row of both that has no link and that its one holder gives up: of those that the buckets list the one that stands there. None where there are
    /// fewer; else its key, and how many images the commit has.
    pub(crate) fn free(
        &mut self,
        alloc: Global,
        place: usize,
    ) -> Result<Option<(Key, usize)>, Fail> {
        let Some((key, commit)) = free_listed(&mut self.group, place)? else {
            return Ok(None);
        };
        put_home(&mut self.sectors, &commit);
        self.plain.step(alloc, &Call::CloseKey { key })?;
        if !self.plain.free(alloc, key)? || has_row(&self.group, key) {
            return Err("not freed".into());
        }
        Ok(Some((key, commit.images.as_slice().len())))
    }

    /// Loads the group from its sectors.
    pub(crate) fn load(&mut self, alloc: Global) -> Result<(), Fail> {
        self.group = load(alloc, &self.geometry, &self.sectors)?;
        Ok(())
    }

    /// Stores an inode in use with so many links.
    pub(crate) fn store_links(&mut self, alloc: Global, key: Key, links: u32) -> Result<(), Fail> {
        let links = links.min(MAX_LINKS);
        if !self.plain.set_links(alloc, key, links)? {
            return Err("no row".into());
        }
        store_field(&mut self.sectors, key.number, Field::Links, links);
        self.load(alloc)
    }

    /// Stores an inode in the life of this generation.
    pub(crate) fn store_generation(
        &mut self,
        alloc: Global,
        number: u64,
        generation: u32,
    ) -> Result<(), Fail> {
        let generation = generation.clamp(1, MAX_GENERATION - 1);
        if !self.plain.set_generation(alloc, number, generation)? {
            return Err("no number".into());
        }
        store_field(&mut self.sectors, number, Field::Generation, generation);
        self.load(alloc)
    }

    /// Copies the changed inodes of the group into their buffers, and takes the first one from a number on out of core.
    pub(crate) fn flush(&mut self, from: u32) {
        flush_and_let_go(&mut self.group, from);
    }

    /// How many numbers had their last life.
    pub(crate) fn used_up(&self) -> u64 {
        count_inodes(&self.plain).1
    }

    /// Whether the group has the rows of the plain program, and its sectors are sound and have them too.
    pub(crate) fn agrees(&self, alloc: Global) -> Result<bool, Fail> {
        let count = count_inodes(&self.plain).0;
        let loaded = load(alloc, &self.geometry, &self.sectors)?;
        Ok(
            judge(alloc, &self.sectors)? == count
                && has_rows(&self.group, &self.plain, count)?
                && has_rows(&loaded, &self.plain, count)?,
        )
    }
}
