// Taking commits.
ghost use Rattle.std.specs.Prelude.{◌≡◌, ◌≤◌, ◌<◌, ◌+◌, ◌-◌, ◌^◌, [], ◌∷◌, ◌++◌, length, OnOk};
ghost use Rattle.std.specs.List.{All};
ghost use Rattle.log_image.specs.Log.{IsGroupImage};
ghost use Rattle.log_batch.specs.Newest.{IsCommit};
ghost use Rattle.log_store.specs.Spare.{spare_commits, spare_images};
ghost use Rattle.log_store.specs.State.{state_of};
ghost use Rattle.log_store.specs.Steps.{IsStore};

use crate::store::Store;
use disk_model::Disk;
use life_ports::NoMemory;
use log_record::Commit;

impl<D: Disk> Store<D> {
    /// Makes room for so many more commits with so many images, and for all that making them durable and writing
    /// them home needs. Room that there is stays.
    pub fn reserve(&mut self, commits: u32, images: u32) -> Result<(), NoMemory>
        requires { IsStore D.known D.cells D.sector_count self.old }
        ensures store { IsStore D.known D.cells D.sector_count self.new }
        ensures state { state_of self.new ≡ state_of self.old }
        ensures disk { self.new.disk ≡ self.old.disk }
        ensures job { self.new.job ≡ self.old.job }
        ensures commits { OnOk result (commits ≤ spare_commits self.new) }
        ensures images { OnOk result (images ≤ spare_images self.new) }
        ensures kept { (spare_commits self.old ≤ spare_commits self.new) × (spare_images self.old ≤ spare_images self.new) }
    {
        self.queue.reserve(commits as usize)?;
        let images = images as usize;
        if images <= self.spare {
            return Ok(());
        }
        let Some(more) = self.waiting.checked_add(images) else {
            return Err(NoMemory);
        };
        self.dirty.reserve(more)?;
        self.spare = images;
        Ok(())
    }

    /// Takes a commit, which gets the next number. There has to be room for it.
    pub fn take(&mut self, commit: Commit)
        requires store { IsStore D.known D.cells D.sector_count self.old }
        requires commits { 0 < spare_commits self.old }
        requires images { length commit.images ≤ spare_images self.old }
        requires commit { IsCommit commit }
        requires groups { All (IsGroupImage self.old.anchor) commit.images }
        requires number { self.old.durable + length self.old.queue.items + 1 < 2 ^ 64 - 1 }
        ensures store { IsStore D.known D.cells D.sector_count self.new }
        ensures list { state_of self.new ≡ record (state_of self.old) { list = self.old.queue.items ++ commit ∷ [] } }
        ensures disk { self.new.disk ≡ self.old.disk }
        ensures job { self.new.job ≡ self.old.job }
        ensures commits { spare_commits self.new + 1 ≡ spare_commits self.old }
        ensures images { spare_images self.new + length commit.images ≡ spare_images self.old }
    {
        self.waiting += commit.images.len();
        self.spare -= commit.images.len();
        self.queue.push_back_reserved(commit);
    }
}
