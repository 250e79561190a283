// What writes of a record, a cover and an image home make of a disk.
ghost use Rattle.std.specs.Prelude.{ℕ, ◌≡◌, ◌≤◌, ◌<◌, ◌+◌, ◌%◌, List, [], ◌∷◌, length, Some};
ghost use Rattle.life_bytes.specs.declared.sector.Sector.{Sector};
ghost use Rattle.disk_model.specs.Disk.{Cell, IsImage, as_read, written};
ghost use Rattle.log_record.specs.declared.record.LogRecord.{LogRecord};
ghost use Rattle.log_record.specs.Encoding.{sector_count, encoded_record};
ghost use Rattle.log_image.specs.Overlay.{images_of, newest};
ghost use Rattle.log_image.specs.Step.{IsLogged, IsPartlyHome, IsPartlyLogged, sector_of_position};
ghost use Rattle.log_image.specs.Writes.{first_part, rest_part};

/// Laws of a disk's images, where a record is written by two writes, the second of which may be of no sector: each image
/// is one from before them over which the record was written in part, after the first write as after both. What reads give
/// then has all of it. A record that does not pass the ring's end is its own first part. And of a sector of the groups to
/// which the newest image of some records is written.
pub fn disk_writes()
    ensures first { (cells : List Cell) (image : List Sector) (anchor ring : ℕ) (item : LogRecord)
        → 0 < ring → sector_count (length item.images) ≤ ring
        → IsImage (written (sector_of_position anchor ring item.position) (first_part ring item) cells) image
        → (old : List Sector) × IsImage cells old × IsPartlyLogged anchor ring item old image }
    ensures both { (cells : List Cell) (image : List Sector) (anchor ring : ℕ) (item : LogRecord)
        → 0 < ring → sector_count (length item.images) ≤ ring
        → IsImage (written (anchor + 1) (rest_part ring item)
        (written (sector_of_position anchor ring item.position) (first_part ring item) cells)) image
        → (old : List Sector) × IsImage cells old × IsPartlyLogged anchor ring item old image }
    ensures read { (cells : List Cell) (anchor ring : ℕ) (item : LogRecord)
        → anchor + 1 + ring ≤ length cells → 0 < ring → sector_count (length item.images) ≤ ring
        → IsLogged anchor ring item (as_read cells) (as_read (written (anchor + 1) (rest_part ring item)
        (written (sector_of_position anchor ring item.position) (first_part ring item) cells))) }
    ensures straight { (ring : ℕ) (item : LogRecord) → item.position % ring + sector_count (length item.images) ≤ ring
        → (first_part ring item ≡ encoded_record item) × (rest_part ring item ≡ []) }
    ensures home { (cells : List Cell) (image : List Sector) (anchor home : ℕ) (records : List LogRecord) (sector : Sector)
        → home < anchor → newest home (images_of records) ≡ Some sector → IsImage (written home (sector ∷ []) cells) image
        → (old : List Sector) × IsImage cells old × IsPartlyHome anchor records old image }
{}
