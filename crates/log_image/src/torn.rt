// What holds of a record that is written behind a log.
ghost use Rattle.std.specs.Prelude.{ℕ, ◌≡◌, ◌⊎◌, List};
ghost use Rattle.life_bytes.specs.declared.sector.Sector.{Sector};
ghost use Rattle.log_record.specs.declared.record.LogRecord.{LogRecord};
ghost use Rattle.log_image.specs.Log.{AreBelow, IsLog, Log, record_end, groups_part, ring_part};
ghost use Rattle.log_image.specs.Step.{ExtendsLog, IsLogged, IsPartlyLogged, with_record};

use log_record::whole_records;

/// Laws of a record that goes on where a log ends, in a ring no sector of which has reached that position. Whatever part
/// of it is written: the log is the old one, or all of it is written; then the log has it as its last. The groups stay,
/// and no sector reaches the record's end.
pub fn torn_records()
    ensures torn { (old new : List Sector) (anchor ring : ℕ) (log : Log) (item : LogRecord)
        → IsLog old anchor ring log → AreBelow (ring_part anchor ring old) log.end
        → ExtendsLog anchor ring log item → IsPartlyLogged anchor ring item old new
        → IsLog new anchor ring log ⊎ (IsLogged anchor ring item old new × IsLog new anchor ring (with_record log item)) }
    ensures whole { (old new : List Sector) (anchor ring : ℕ) (log : Log) (item : LogRecord)
        → IsLog old anchor ring log → AreBelow (ring_part anchor ring old) log.end
        → ExtendsLog anchor ring log item → IsLogged anchor ring item old new → IsLog new anchor ring (with_record log item) }
    ensures below { (old new : List Sector) (anchor ring : ℕ) (log : Log) (item : LogRecord)
        → IsLog old anchor ring log → AreBelow (ring_part anchor ring old) log.end
        → ExtendsLog anchor ring log item → IsPartlyLogged anchor ring item old new
        → AreBelow (ring_part anchor ring new) (record_end item) }
    ensures groups { (old new : List Sector) (anchor ring : ℕ) (item : LogRecord)
        → IsPartlyLogged anchor ring item old new → groups_part anchor new ≡ groups_part anchor old }
{
    whole_records();
}
