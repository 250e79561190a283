// A disk that is lent to be read.
ghost use Rattle.std.specs.Prelude.{◌≡◌, refl};
ghost use Rattle.std.proofs.Common.{◌∙◌, ap};
ghost use Rattle.disk_model.specs.Disk.{as_read};
ghost use Rattle.disk_model.specs.DiskLaws.{length-as_read};
ghost use Rattle.disk_model.specs.View.{OnlyRead, OnlyRead-none, OnlyRead-both};

use crate::{Disk, View};
use life_bytes::Sector;
use life_ports::Failed;

/// A disk as a view: what it reads as. The borrower can't write it, and the lender knows that it was only read.
#[derive(Drop)]
pub struct DiskView<'a, D> {
    disk: &'a mut D,
}

impl<'a, D: Disk> DiskView<'a, D> {
    ghost use Rattle.disk_model.specs.DiskView.{reference_of};

    /// Lends a disk.
    pub fn new(disk: &'a mut D) -> DiskView<'a, D>
        ensures { reference_of result ≡ disk.entry }
    {
        DiskView { disk }
    }
}

impl<'a, D: Disk> View for DiskView<'a, D> {
    ghost known = { D.known };

    ghost sector_count = { λ view. D.sector_count view.disk.now };

    ghost fault_count = { λ view. D.fault_count view.disk.now };

    ghost image = { λ view. as_read (D.cells view.disk.now) };

    ghost only_read = { λ old new. (new.disk.ghost_name ≡ old.disk.ghost_name)
        × OnlyRead D.known D.cells D.sector_count D.fault_count D.arming D.moment D.left_since
        old.disk.now new.disk.now };

    ghost image_fits = { λ known view.
        length-as_read (D.cells view.disk.now) ∙ D.cells_fit known view.disk.now };

    ghost no_read = { λ view. (
      refl,
      OnlyRead-none D.known D.cells D.sector_count D.fault_count D.arming
          D.moment D.left_since view.disk.now,
    ) };

    ghost both_read = { λ first second third one two. (
      two.0 ∙ one.0,
      OnlyRead-both D.known D.cells
          D.sector_count D.fault_count D.arming D.moment D.left_since first.disk.now second.disk.now
          third.disk.now one.1 two.1,
    ) };

    ghost image_stays = { λ old new read. ap as_read read.1.cells_stay };

    ghost sectors_stay = { λ old new read. read.1.sectors };

    ghost count_never_falls = { λ old new read. read.1.count };

    fn sectors(&self) -> u64 {
        self.disk.sectors()
    }

    fn faults(&self) -> u64 {
        self.disk.faults()
    }

    fn read(&mut self, at: u64, into: &mut Sector) -> Result<(), Failed> {
        self.disk.read(at, into)
    }
}
