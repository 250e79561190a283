// What holds of images that are written home.
ghost use Rattle.std.specs.Prelude.{ℕ, ◌≡◌, ◌≤◌, ◌<◌, List, length, Some, slice_set};
ghost use Rattle.life_bytes.specs.declared.sector.Sector.{Sector};
ghost use Rattle.log_record.specs.declared.record.LogRecord.{LogRecord};
ghost use Rattle.log_image.specs.Log.{IsLog, Log, groups_part, replayed, ring_part};
ghost use Rattle.log_image.specs.Overlay.{images_of, newest};
ghost use Rattle.log_image.specs.Step.{AreHome, IsPartlyHome};

/// Laws of writes home: the newest images of a log's records, put where they belong, leave the log and what it replays to;
/// once all are home, the groups read as that.
pub fn home_writes()
    ensures log { (old new : List Sector) (anchor ring : ℕ) (log : Log) → IsLog old anchor ring log
        → IsPartlyHome anchor log.records old new → IsLog new anchor ring log }
    ensures ring { (old new : List Sector) (anchor ring : ℕ) (records : List LogRecord)
        → IsPartlyHome anchor records old new → ring_part anchor ring new ≡ ring_part anchor ring old }
    ensures replayed { (old new : List Sector) (anchor : ℕ) (records : List LogRecord) → anchor ≤ length old
        → IsPartlyHome anchor records old new → replayed anchor new records ≡ replayed anchor old records }
    ensures one { (image : List Sector) (anchor home : ℕ) (records : List LogRecord) (sector : Sector)
        → home < anchor → newest home (images_of records) ≡ Some sector
        → IsPartlyHome anchor records image (slice_set image home sector) }
    ensures all { (image : List Sector) (anchor : ℕ) (records : List LogRecord) → anchor ≤ length image
        → AreHome anchor image records → replayed anchor image records ≡ groups_part anchor image }
{}
