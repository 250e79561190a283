// What holds of whole records in every ring.
ghost use Rattle.std.specs.Prelude.{◌≡◌, ◌≤◌, ◌<◌, ◌+◌, ◌-◌, ℕ, List, length, slice_index_or};
ghost use Rattle.life_bytes.specs.Fields.{field};
ghost use Rattle.life_bytes.specs.declared.sector.Sector.{Sector};
ghost use Rattle.log_record.specs.Encoding.{FitsFields, IsRecord, record_sector, sector_count, encoded_record};
ghost use Rattle.log_record.specs.Whole.{IsWholeAt, at_place};
ghost use Rattle.log_record.specs.declared.record.LogRecord.{LogRecord};

/// Laws of whole records: at most one is whole at a position; what is written in its places is whole; only the
/// sectors in its places tell; each of them begins with its own position and its record's; and the first of them
/// tells how many images there are, so that a record that was written in part is no shorter one.
pub fn whole_records()
    ensures one { (ring : List Sector) (position : ℕ) (a b : LogRecord)
        → IsWholeAt ring position a → IsWholeAt ring position b → a ≡ b }
    ensures written { (ring : List Sector) (item : LogRecord) → IsRecord item → FitsFields item
        → item.position + sector_count (length item.images) - item.tail ≤ length ring
        → ((i : ℕ) (d : Sector) → i < length (encoded_record item) → at_place ring (item.position + i) d ≡ slice_index_or (encoded_record item) i d)
        → IsWholeAt ring item.position item }
    ensures places { (ring other : List Sector) (position : ℕ) (item : LogRecord) → length other ≡ length ring
        → ((i : ℕ) (d : Sector) → i < sector_count (length item.images) → at_place other (position + i) d ≡ at_place ring (position + i) d)
        → IsWholeAt ring position item → IsWholeAt other position item }
    ensures stamped { (ring : List Sector) (position i : ℕ) (d : Sector) (item : LogRecord) → IsWholeAt ring position item
        → i < sector_count (length item.images)
        → (field 8 0 (at_place ring (position + i) d).bytes ≡ position + i) × (field 8 8 (at_place ring (position + i) d).bytes ≡ position) }
    ensures counted { (ring : List Sector) (position : ℕ) (a b : LogRecord) → IsRecord a → FitsFields a
        → ((d : Sector) → at_place ring position d ≡ record_sector a 0) → IsWholeAt ring position b → length a.images ≡ length b.images }
{}
