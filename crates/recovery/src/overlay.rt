// The image that a log leaves, as a view.
ghost use Rattle.std.specs.Prelude.{◌≡◌, refl};
ghost use Rattle.std.proofs.Common.{◌∙◌};
ghost use Rattle.disk_model.specs.Disk.{as_read};
ghost use Rattle.disk_model.specs.DiskLaws.{length-as_read};
ghost use Rattle.disk_model.specs.View.{OnlyRead, OnlyRead-none, OnlyRead-both};
ghost use Rattle.log_image.specs.Overlay.{overlaid};
ghost use Rattle.log_image.specs.OverlayLaws.{length-overlaid};
ghost use Rattle.recovery.specs.Overlaid.{same_overlaid};

use crate::found::Found;
use disk_model::{Disk, View};
use life_bytes::Sector;
use life_ports::Failed;

/// A disk with the images of its log over it: the image as it is once all of them are home. The disk is only read.
#[derive(Drop)]
pub struct Overlay<'a, D> {
    found: &'a Found,
    disk: &'a mut D,
}

impl Found {
    ghost use Rattle.recovery.specs.Overlay.{disk_of, found_of};

    /// Lends a disk with what was found of its log over it.
    pub fn overlay<'a, D: Disk>(&'a self, disk: &'a mut D) -> Overlay<'a, D>
        ensures found { found_of result ≡ self.now }
        ensures disk { disk_of result ≡ disk.entry }
    {
        Overlay { found: self, disk }
    }
}

impl<'a, D: Disk> View for Overlay<'a, D> {
    ghost known = { D.known };

    ghost sector_count = { λ view. D.sector_count view.disk.now };

    ghost fault_count = { λ view. D.fault_count view.disk.now };

    ghost image = { λ view. overlaid (as_read (D.cells view.disk.now)) view.found.now.images };

    ghost only_read = { λ old new. (new.found ≡ old.found) × (new.disk.ghost_name ≡ old.disk.ghost_name)
        × OnlyRead D.known D.cells D.sector_count D.fault_count D.arming D.moment D.left_since
        old.disk.now new.disk.now };

    ghost image_fits = { λ known view.
        length-overlaid (as_read (D.cells view.disk.now)) view.found.now.images
        ∙ length-as_read (D.cells view.disk.now) ∙ D.cells_fit known view.disk.now };

    ghost no_read = { λ view. (
      refl,
      refl,
      OnlyRead-none D.known D.cells D.sector_count D.fault_count D.arming
          D.moment D.left_since view.disk.now,
    ) };

    ghost both_read = { λ first second third one two. (
      two.0 ∙ one.0,
      two.1 ∙ one.1,
      OnlyRead-both D.known D.cells
          D.sector_count D.fault_count D.arming D.moment D.left_since first.disk.now second.disk.now
          third.disk.now one.2 two.2,
    ) };

    ghost image_stays = { λ old new read.
        same_overlaid (D.cells old.disk.now) (D.cells new.disk.now) old.found new.found read.0 read.2.cells_stay };

    ghost sectors_stay = { λ old new read. read.2.sectors };

    ghost count_never_falls = { λ old new read. read.2.count };

    fn sectors(&self) -> u64 {
        self.disk.sectors()
    }

    fn faults(&self) -> u64 {
        self.disk.faults()
    }

    fn read(&mut self, at: u64, into: &mut Sector) -> Result<(), Failed> {
        if let Some(sector) = self.found.images.get(at) {
            *into = *sector;
            return Ok(());
        }
        self.disk.read(at, into)
    }
}
