// What holds of the logs of all images.
ghost use Rattle.std.specs.Prelude.{ℕ, ◌≡◌, ◌≤◌, ◌<◌, ◌+◌, ◌-◌, ◌^◌, List, [], ◌∷◌, ◌++◌, length, replicate, slice_index_or};
ghost use Rattle.life_bytes.specs.Sectors.{zero_sector};
ghost use Rattle.life_bytes.specs.declared.sector.Sector.{Sector};
ghost use Rattle.log_record.specs.declared.record.LogRecord.{LogRecord};
ghost use Rattle.log_image.specs.Anchor.{HasAnchor};
ghost use Rattle.log_image.specs.Log.{AreBelow, IsLast, IsLog, IsLogTo, Log, empty_log, replayed, ring_part};

use log_record::whole_records;

/// Laws of logs: an image has at most one; its bounds; the last record is the last of its chain; where no sector of the ring has reached the anchor's position, it is
/// empty; in a ring of zero bytes no sector has reached any position; and the replayed groups begin with the image's first sector.
pub fn logs()
    ensures one { (image : List Sector) (anchor ring : ℕ) (a b : Log)
        → IsLog image anchor ring a → IsLog image anchor ring b → a ≡ b }
    ensures bounds { (image : List Sector) (anchor ring : ℕ) (log : Log) → IsLog image anchor ring log
        → (log.tail ≤ log.end) × (log.end - log.tail ≤ ring) × (ring ≤ log.end) × (log.end < 2 ^ 64)
        × (1 ≤ log.next) × (log.next < 2 ^ 64) }
    ensures last { (ring : List Sector) (anchor position : ℕ) (last : LogRecord) (log : Log)
        → IsLast ring position last → IsLogTo ring anchor last log
        → (before : List LogRecord) × (log.records ≡ before ++ last ∷ []) }
    ensures empty { (image : List Sector) (anchor ring position next : ℕ) → anchor + 1 + ring ≤ length image
        → HasAnchor image anchor ring position next → AreBelow (ring_part anchor ring image) position
        → IsLog image anchor ring (empty_log position next) }
    ensures first { (image : List Sector) (anchor ring : ℕ) (log : Log) (d : Sector) → 0 < anchor → IsLog image anchor ring log
        → slice_index_or (replayed anchor image log.records) 0 d ≡ slice_index_or image 0 d }
    ensures zeros { (ring position : ℕ) → 0 < position → AreBelow (replicate ring zero_sector) position }
{
    whole_records();
}
