// What holds of a store's disk, step by step, whatever the disk is.
ghost use Rattle.std.specs.Prelude.{ℕ, ◌≡◌, ◌≤◌, ◌<◌, ◌+◌, ◌^◌, ◌↔◌, IsTrue, false, List, [], ◌∷◌, length, take, Result};
ghost use Rattle.life_bytes.specs.declared.sector.Sector.{Sector};
ghost use Rattle.disk_model.specs.Disk.{Cell, IsImage, IsPartlyWritten, flushed, written};
ghost use Rattle.log_record.specs.declared.image.Image.{Image};
ghost use Rattle.log_image.specs.Log.{IsGroupImage};
ghost use Rattle.log_image.specs.Overlay.{overlaid};
ghost use Rattle.log_batch.specs.Newest.{commit_images};
ghost use Rattle.log_batch.specs.Put.{KeysRise};
ghost use Rattle.log_store.specs.Actions.{IsStep};
ghost use Rattle.log_store.specs.Landed.{RingFits, covered_state, flushed_home, landed, written_home};
ghost use Rattle.log_store.specs.OnDisk.{AtRest, Covers, Flies, HasCover, HoldsState, ReplaysTo, base_of, cover_written, fully_written, half_written};
ghost use Rattle.log_store.specs.Outcome.{EndsPastAt, IsDone, IsFault, Rises, covers_of, goal_of, steps_left};
ghost use Rattle.log_store.specs.State.{State, state_of};
ghost use Rattle.log_store.specs.Steps.{IsStore};
ghost use Rattle.log_store.specs.declared.store.Store.{Store};
ghost use Rattle.log_store.specs.declared.store.Job.TheVariants.{Home};
ghost use Rattle.log_store.specs.declared.store.Stage.TheVariants.{Cover};

use crate::fault::{Progress, StoreFault};
use crate::store::Store;
use disk_model::Disk;
use log_image::{covers, disk_writes, home_writes, torn_records};

/// Laws of a record in flight: an image replays to the base, or to the base with the record's commits over it; and once
/// it is flushed, nothing is in flight.
pub(crate) fn flights()
    ensures half { (s : State) (before : List Cell) (image : List Sector) → Flies s before → RingFits s before
        → IsImage (half_written s before) image → ReplaysTo s before image }
    ensures full { (s : State) (before : List Cell) (image : List Sector) → Flies s before → RingFits s before
        → IsImage (fully_written s before) image → ReplaysTo s before image }
    ensures half_base { (s : State) (before : List Cell) → RingFits s before → base_of s (half_written s before) ≡ base_of s before }
    ensures full_base { (s : State) (before : List Cell) → Flies s before → RingFits s before → base_of s (fully_written s before) ≡ base_of s before }
    ensures landed { (s : State) (before : List Cell) → Flies s before → RingFits s before → KeysRise (λ i. i.home) 0 s.dirty
        → AtRest (landed s) (flushed (fully_written s before)) }
    ensures base { (s : State) (before : List Cell) → Flies s before → RingFits s before → KeysRise (λ i. i.home) 0 s.dirty
        → base_of (landed s) (flushed (fully_written s before)) ≡ overlaid (base_of s before) (commit_images (take s.taken s.list)) }
{
    torn_records();
    disk_writes();
}

/// Laws of a cover: while it is written an image replays to the base; and once it is flushed, nothing is in flight.
pub(crate) fn cover_flights()
    ensures written { (s : State) (before : List Cell) (image : List Sector) → Covers s before → RingFits s before → s.head + 1 ≤ 2 ^ 63
        → IsImage (cover_written s before) image → ReplaysTo s before image }
    ensures written_base { (s : State) (before : List Cell) → RingFits s before → base_of s (cover_written s before) ≡ base_of s before }
    ensures landed { (s : State) (before : List Cell) → Covers s before → RingFits s before → s.head + 1 ≤ 2 ^ 63
        → AtRest (covered_state s) (flushed (cover_written s before)) }
    ensures base { (s : State) (before : List Cell) → Covers s before → RingFits s before → s.head + 1 ≤ 2 ^ 63
        → base_of (covered_state s) (flushed (cover_written s before)) ≡ base_of s before }
    ensures last { (s : State) (before : List Cell) (image : List Sector) → Covers s before → RingFits s before → s.head + 1 ≤ 2 ^ 63
        → IsImage (flushed (cover_written s before)) image → HasCover s.anchor s.ring s.head (s.durable + 1) image }
{
    torn_records();
    home_writes();
    covers();
    disk_writes();
}

/// Whatever a store is at, each image of its disk replays to its base with some first commits of its list over it.
pub(crate) fn states()
    ensures replays { (s : State) (cells : List Cell) (image : List Sector) → HoldsState s cells → RingFits s cells
        → (s.stage ≡ Cover → s.head + 1 ≤ 2 ^ 63) → IsImage cells image → ReplaysTo s cells image }
{
    flights();
    cover_flights();
}

/// Laws of writes home: the base stays, and nothing is in flight.
pub(crate) fn homes()
    ensures images { (s : State) (cells : List Cell) (image : Image) (rest : List Image) (left : List Sector) → AtRest s cells
        → s.dirty ≡ image ∷ rest → KeysRise (λ i. i.home) 0 s.dirty → image.home < s.anchor → s.anchor ≤ length cells
        → IsImage (written image.home (image.sector ∷ []) cells) left → ReplaysTo s cells left }
    ensures done { (s : State) (cells : List Cell) (image : Image) (rest : List Image) → AtRest s cells
        → s.dirty ≡ image ∷ rest → KeysRise (λ i. i.home) 0 s.dirty → image.home < s.anchor → s.anchor ≤ length cells
        → AtRest (written_home s rest) (written image.home (image.sector ∷ []) cells) }
    ensures base { (s : State) (cells : List Cell) (image : Image) (rest : List Image) → AtRest s cells
        → s.dirty ≡ image ∷ rest → KeysRise (λ i. i.home) 0 s.dirty → image.home < s.anchor → s.anchor ≤ length cells
        → base_of (written_home s rest) (written image.home (image.sector ∷ []) cells) ≡ base_of s cells }
    ensures failed { (s : State) (cells new : List Cell) (image : Image) (rest : List Image) → AtRest s cells
        → s.dirty ≡ image ∷ rest → KeysRise (λ i. i.home) 0 s.dirty → image.home < s.anchor → s.anchor ≤ length cells
        → IsPartlyWritten image.home (image.sector ∷ []) cells new → AtRest (written_home s s.dirty) new }
    ensures failed_base { (s : State) (cells new : List Cell) (image : Image) (rest : List Image) → AtRest s cells
        → s.dirty ≡ image ∷ rest → KeysRise (λ i. i.home) 0 s.dirty → image.home < s.anchor → s.anchor ≤ length cells
        → IsPartlyWritten image.home (image.sector ∷ []) cells new → base_of (written_home s s.dirty) new ≡ base_of s cells }
    ensures flushed { (s : State) (cells : List Cell) → AtRest s cells → AtRest (flushed_home s) (flushed cells) }
{
    home_writes();
    disk_writes();
}

/// Law: a job ends, since each step after which it goes on leaves fewer.
pub fn jobs_end<D: Disk>()
    ensures { (old new : Store D) → IsStore D.known D.cells D.sector_count old
        → IsStep D.known D.cells D.sector_count D.arming D.fault_count (Ok Progress.More) old new
        → steps_left (state_of new) new.job < steps_left (state_of old) old.job }
{}

/// Laws of a step, whatever the job: that the positions are used up is answered exactly where the record that comes next
/// would end past the last one; how far the head rises; until a job ends its goal stays, and then it is reached; and a
/// fault is one of that job.
pub fn steps_go_on<D: Disk>()
    ensures position_end { (result : Result Progress StoreFault) (old new : Store D)
        → IsStep D.known D.cells D.sector_count D.arming D.fault_count result old new
        → (result ≡ Err StoreFault.PositionEnd) ↔ EndsPastAt old.stage old.job (state_of old) (length new.batch) }
    ensures rises { (result : Result Progress StoreFault) (old new : Store D) → IsStore D.known D.cells D.sector_count old
        → IsStep D.known D.cells D.sector_count D.arming D.fault_count result old new
        → Rises (covers_of old.job) (covers_of new.job) (state_of old) (state_of new) }
    ensures goal { (old new : Store D) → IsStore D.known D.cells D.sector_count old
        → IsStep D.known D.cells D.sector_count D.arming D.fault_count (Ok Progress.More) old new
        → goal_of new.job ≡ goal_of old.job }
    ensures done { (old new : Store D) → IsStore D.known D.cells D.sector_count old
        → IsStep D.known D.cells D.sector_count D.arming D.fault_count (Ok Progress.Ended) old new
        → IsDone old.job (state_of new) }
    ensures fault { (fault : StoreFault) (old new : Store D) → IsStore D.known D.cells D.sector_count old
        → IsStep D.known D.cells D.sector_count D.arming D.fault_count (Err fault) old new
        → IsFault fault old.job (state_of new) (D.fault_count old.disk) (D.fault_count new.disk) }
{}

/// Law: where a job that goes home has ended, the last record of each image of the disk is a cover, and stands alone.
pub fn home_ends_in_a_cover<D: Disk>()
    ensures { (old new : Store D) (image : List Sector) → IsStore D.known D.cells D.sector_count old
        → IsStep D.known D.cells D.sector_count D.arming D.fault_count (Ok Progress.Ended) old new → old.job ≡ Home
        → IsTrue D.known → IsImage (D.cells new.disk) image
        → HasCover old.anchor old.ring old.positions.head (old.durable + 1) image }
{
    cover_flights();
}
