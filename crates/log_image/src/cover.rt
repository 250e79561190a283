// What holds of a cover.
ghost use Rattle.std.specs.Prelude.{ℕ, ◌≡◌, ◌<◌, ◌+◌, ◌^◌, ◌⊎◌, List};
ghost use Rattle.life_bytes.specs.declared.sector.Sector.{Sector};
ghost use Rattle.log_image.specs.Log.{AreBelow, IsLog, Log, groups_part, replayed, ring_part};
ghost use Rattle.log_image.specs.Step.{IsLogged, IsPartlyLogged, cover_of, covered};

use log_record::whole_records;

/// Laws of a cover, in a ring no sector of which has reached the log's end: the log is the old one, or the cover is written;
/// then it is the log's one record, which replays to the groups as they read.
pub fn covers()
    ensures torn { (old new : List Sector) (anchor ring : ℕ) (log : Log)
        → IsLog old anchor ring log → AreBelow (ring_part anchor ring old) log.end
        → 0 < ring → log.end + 1 < 2 ^ 64 → IsPartlyLogged anchor ring (cover_of log) old new
        → IsLog new anchor ring log ⊎ (IsLogged anchor ring (cover_of log) old new × IsLog new anchor ring (covered log)) }
    ensures whole { (old new : List Sector) (anchor ring : ℕ) (log : Log)
        → IsLog old anchor ring log → AreBelow (ring_part anchor ring old) log.end
        → 0 < ring → log.end + 1 < 2 ^ 64 → IsLogged anchor ring (cover_of log) old new → IsLog new anchor ring (covered log) }
    ensures below { (old new : List Sector) (anchor ring : ℕ) (log : Log)
        → IsLog old anchor ring log → AreBelow (ring_part anchor ring old) log.end
        → 0 < ring → IsPartlyLogged anchor ring (cover_of log) old new → AreBelow (ring_part anchor ring new) (log.end + 1) }
    ensures replayed { (anchor : ℕ) (image : List Sector) (log : Log)
        → replayed anchor image (covered log).records ≡ groups_part anchor image }
{
    whole_records();
}
