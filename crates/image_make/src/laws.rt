// What the sectors that are written come to.

ghost use Rattle.std.specs.Prelude.{List};
ghost use Rattle.life_bytes.specs.declared.sector.Sector.{Sector};
ghost use Rattle.geometry.specs.declared.shape.Geometry.{Geometry};
ghost use Rattle.geometry.specs.Shape.{IsGeometry};
ghost use Rattle.image_make.specs.Empty.{IsFinished};
ghost use Rattle.image_make.specs.Outcome.{IsBlank, IsBlankOrEmpty, IsEmptyImage};

use life_table::tables_stay_well_formed;
use sound_image::groups_stand_alone;
use whole_image::{blank_images_are_damaged, encoded_images_represent_their_table};

/// Laws of the sectors: without the superblock an image is damaged, and with it the image represents the empty table.
pub(crate) fn made_images()
    ensures blank { (g : Geometry) (image : List Sector) → IsBlank image → IsBlankOrEmpty g image }
    ensures finished { (g : Geometry) (image : List Sector) → IsGeometry g → IsFinished g image → IsEmptyImage g image }
{
    tables_stay_well_formed();
    encoded_images_represent_their_table();
    blank_images_are_damaged();
    groups_stand_alone();
}
