// What holds of the damage of anchors and logs.
ghost use Rattle.std.specs.Prelude.{ℕ, ◌≡◌, List};
ghost use Rattle.life_bytes.specs.declared.sector.Sector.{Sector};
ghost use Rattle.log_image.specs.Damage.{IsLogDamage};
ghost use Rattle.log_image.specs.Log.{IsLog, Log};

use log_record::whole_records;

/// Laws of the damage of an image's anchor and log: there is at most one first damage, and none where they are right.
pub fn log_damages()
    ensures one { (image : List Sector) (anchor ring a b s t : ℕ) → IsLogDamage image anchor ring a s → IsLogDamage image anchor ring b t
        → (a ≡ b) × (s ≡ t) }
    ensures none { (image : List Sector) (anchor ring rule s : ℕ) (log : Log) → IsLog image anchor ring log
        → IsLogDamage image anchor ring rule s → ⊥ }
{
    whole_records();
}
