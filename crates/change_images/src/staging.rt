// Images of the sectors that a change touches, gathered for a commit.
ghost use Rattle.std.specs.Prelude.{◌≡◌, ◌≤◌, ◌<◌, [], None, Some, IfOk};
ghost use Rattle.geometry.specs.Places.{group_sectors};
ghost use Rattle.geometry.specs.Shape.{IsGeometry};
ghost use Rattle.encoded_changes.specs.Carry.{image_for};
ghost use Rattle.change_images.specs.Candidates.{with_candidate};

use geometry::Geometry;
use life_bytes::Sector;
use life_limits::BLOCK_SECTORS;
use life_ports::NoMemory;
use log_record::{Commit, Image, ImageList};
use std::alloc::Global;
use std::marker::Model;

/// A commit of one group that is being made: sectors that a change may touch are pushed by ascending place, and those whose bytes change come to be its images.
#[derive(Debug, Drop)]
pub struct Staging {
    geometry: Geometry,
    group: u32,
    images: Vec<Image>,
}

impl Model for Staging {
    ghost use Rattle.std.specs.Prelude.{◌-◌, ◌<◌, vec_len, vec_capacity};
    ghost use Rattle.geometry.specs.Shape.{IsGeometry};
    ghost use Rattle.change_images.specs.Candidates.{StagingValue};

    ghost Value = { StagingValue };

    ghost view = { λ s. record { geometry = s.geometry; group = s.group; images = s.images.items; spare = vec_capacity s.images - vec_len s.images } };

    ghost invariant = { λ s. IsGeometry s.geometry × (s.group < s.geometry.groups) };
}

impl Staging {
    /// A commit without images, with room for so many.
    pub fn with_room(
        alloc: Global,
        geometry: &Geometry,
        group: u32,
        room: usize,
    ) -> Result<Staging, NoMemory>
        requires geometry { IsGeometry geometry.now }
        requires group { group < geometry.now.groups }
        ensures begun { IfOk result (λ s. (s.geometry ≡ geometry.now) × (s.group ≡ group) × (s.images ≡ [])) }
        ensures room { IfOk result (λ s. room ≤ s.spare) }
    {
        let images = Vec::with_capacity(alloc, room)?;
        Ok(Staging {
            geometry: *geometry,
            group,
            images,
        })
    }

    /// The image of a place of the group.
    fn image_at(&self, place: u32, sector: &Sector) -> Image
        requires place { place < group_sectors self.now.geometry }
        ensures { result ≡ image_for self.now.geometry self.now.group place sector.now.bytes }
    {
        let sectors = u64::from(self.geometry.blocks) * u64::from(BLOCK_SECTORS);
        Image {
            home: u64::from(self.group) * sectors + u64::from(place),
            sector: *sector,
        }
    }

    /// A sector of the group, before and after the change. It takes no memory.
    pub fn push(&mut self, place: u32, before: &Sector, after: &Sector)
        requires place { place < group_sectors self.old.geometry }
        requires room { 1 ≤ self.old.spare }
        ensures { self.new ≡ with_candidate self.old (record { place = place; before = Some before.now.bytes; after = after.now.bytes }) }
    {
        if !before.is_same(after) {
            let image = self.image_at(place, after);
            self.images.push_reserved(image);
        }
    }

    /// A sector of which the format said nothing before, as that of an inode of a new chunk. It takes no memory.
    pub fn push_new(&mut self, place: u32, after: &Sector)
        requires place { place < group_sectors self.old.geometry }
        requires room { 1 ≤ self.old.spare }
        ensures { self.new ≡ with_candidate self.old (record { place = place; before = None; after = after.now.bytes }) }
    {
        let added = self.image_at(place, after);
        self.images.push_reserved(added);
    }

    /// The commit of all that was pushed. It takes no memory.
    pub fn finish(self) -> Commit
        ensures group { result.group ≡ self.group }
        ensures images { result.images ≡ self.images }
    {
        let Staging { group, images, .. } = self;
        Commit {
            group,
            images: ImageList::from(images),
        }
    }
}
