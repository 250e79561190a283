// What holds of sectors with images over them.
ghost use Rattle.std.specs.Prelude.{ℕ, ◌≡◌, ◌<◌, ◌+◌, List, [], ◌∷◌, ◌++◌, length, take, unwrap_or, slice_index_or};
ghost use Rattle.std.specs.Option.{option_or};
ghost use Rattle.life_bytes.specs.declared.sector.Sector.{Sector};
ghost use Rattle.log_record.specs.declared.image.Image.{Image};
ghost use Rattle.log_record.specs.declared.record.LogRecord.{LogRecord};
ghost use Rattle.log_image.specs.Log.{replayed};
ghost use Rattle.log_image.specs.Overlay.{newest, overlaid};

/// Laws of sectors with images over them: images put over images; which sector stands at a place; only the newest image
/// of each home counts; the first sectors with images over them are the first of the sectors that have them.
pub fn overlays()
    ensures length { (sectors : List Sector) (images : List Image) → length (overlaid sectors images) ≡ length sectors }
    ensures none { (sectors : List Sector) → overlaid sectors [] ≡ sectors }
    ensures append { (sectors : List Sector) (xs ys : List Image)
        → overlaid sectors (xs ++ ys) ≡ overlaid (overlaid sectors xs) ys }
    ensures at { (sectors : List Sector) (images : List Image) (at : ℕ) (d : Sector) → at < length sectors
        → slice_index_or (overlaid sectors images) at d ≡ unwrap_or (newest at images) (slice_index_or sectors at d) }
    ensures newest_append { (home : ℕ) (xs ys : List Image)
        → newest home (xs ++ ys) ≡ option_or (newest home ys) (newest home xs) }
    ensures newest { (sectors : List Sector) (xs ys : List Image)
        → ((home : ℕ) → newest home xs ≡ newest home ys) → overlaid sectors xs ≡ overlaid sectors ys }
    ensures front { (count : ℕ) (sectors : List Sector) (images : List Image)
        → take count (overlaid sectors images) ≡ overlaid (take count sectors) images }
    ensures more { (anchor : ℕ) (image : List Sector) (records : List LogRecord) (item : LogRecord)
        → replayed anchor image (records ++ item ∷ []) ≡ overlaid (replayed anchor image records) item.images }
{}
