// Sectors in memory, as a view.
//
// What a disk holds is not always known to the proof, and somebody else may have written a file since it was inspected. What is in memory is known, so groups that are checked and
// loaded from there are right on every disk.
ghost use Rattle.std.specs.Prelude.{◌≡◌, true, refl};
ghost use Rattle.std.proofs.Common.{◌∙◌, ap, arith};
ghost use Rattle.mount.specs.Kept.{kept_image, kept_sector};
ghost use Rattle.mount.specs.KeptLaws.{length-kept_image, same_shown};

use disk_model::View;
use life_bytes::Sector;
use life_ports::Failed;
use std::collections::BTreeMap;

/// So many sectors, of which those that are kept are shown, and zeros in place of all others.
#[derive(Drop)]
pub(crate) struct MemoryView<'a> {
    kept: &'a BTreeMap<u64, Sector>,
    count: u64,
}

/// The sector that is kept, or a sector of zeros.
fn sector_of(kept: &BTreeMap<u64, Sector>, at: u64) -> Sector
    ensures { result ≡ kept_sector kept.now at }
{
    match kept.get(&at) {
        Some(sector) => *sector,
        None => Sector::zero(),
    }
}

impl<'a> MemoryView<'a> {
    ghost use Rattle.mount.specs.Kept.{shown_by};

    pub(crate) fn new(kept: &'a BTreeMap<u64, Sector>, count: u64) -> MemoryView<'a>
        ensures shown { shown_by result ≡ kept_image kept.now count }
        ensures count { result.count ≡ count }
    {
        MemoryView { kept, count }
    }
}

impl<'a> View for MemoryView<'a> {
    ghost known = { true };

    ghost sector_count = { λ view. view.count };

    ghost fault_count = { λ view. 0 };

    ghost image = { λ view. kept_image view.kept.now view.count };

    ghost only_read = { λ old new. (new.kept ≡ old.kept) × (new.count ≡ old.count) };

    ghost image_fits = { λ known view. length-kept_image view.kept.now view.count };

    ghost no_read = { λ view. (refl, refl) };

    ghost both_read = { λ first second third one two. (two.0 ∙ one.0, two.1 ∙ one.1) };

    ghost image_stays = { λ old new read. same_shown old new read.0 read.1 };

    ghost sectors_stay = { λ old new read. read.1 };

    ghost count_never_falls = { λ old new read. omega arith };

    fn sectors(&self) -> u64 {
        self.count
    }

    fn faults(&self) -> u64 {
        0
    }

    fn read(&mut self, at: u64, into: &mut Sector) -> Result<(), Failed> {
        *into = sector_of(self.kept, at);
        Ok(())
    }
}
