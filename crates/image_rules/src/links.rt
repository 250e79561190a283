//! The next pointers of a group's inodes.

ghost use Rattle.std.specs.Prelude.{◌≡◌, ◌≢◌, ◌<◌, ◌+◌, ℕ, List, IfErr, None, OnOk, Some, length};
ghost use Rattle.life_limits.specs.declared.TheConstants.{NO_INODE};
ghost use Rattle.life_bytes.specs.declared.sector.Sector.{Sector};
ghost use Rattle.geometry.specs.declared.shape.Geometry.{Geometry};
ghost use Rattle.life_table.specs.declared.types.Row.{Row};
ghost use Rattle.sound_image.specs.Reading.{core_of, row_at};
ghost use Rattle.image_rules.specs.Listing.{Noted, next_pointer_of};
ghost use Rattle.image_rules.specs.declared.fault.CheckFault.TheVariants.{NoMemory};

use crate::fault::CheckFault;
use inode_core::Core;
use life_limits::NO_INODE;
use std::alloc::Global;
use std::collections::BTreeMap;

/// What the next pointers of the inodes in use tell that were gone through.
#[derive(Drop)]
pub(crate) struct Links {
    /// The next pointers of those without links, by their numbers in the group.
    pub(crate) orphans: BTreeMap<u32, u32>,
    /// The number in the group of the first one with links that has a next pointer.
    pub(crate) pointing: Option<u32>,
}

impl Links {
    /// Before the first inode.
    pub(crate) fn new(alloc: Global) -> Links
        ensures noted { (g : Geometry) (image : List Sector) (group : ℕ) → Noted g image group 0 result.orphans.entries result.pointing }
        ensures none { length result.orphans.entries ≡ 0 }
    {
        Links {
            orphans: BTreeMap::new(alloc),
            pointing: None,
        }
    }

    /// Takes in the next inode in use.
    pub(crate) fn note(&mut self, agino: u32, core: &Core) -> Result<(), CheckFault>
        requires { agino ≢ NO_INODE }
        ensures noted { (g : Geometry) (image : List Sector) (group : ℕ) (row : Row) → core_of g image group agino ≡ core.now → row_at g image group agino ≡ Some row
            → row.links ≡ core.now.links → Noted g image group agino self.old.orphans.entries self.old.pointing
            → OnOk result (Noted g image group (agino + 1) self.new.orphans.entries self.new.pointing) }
        ensures adds { next_pointer_of self.old.orphans.entries agino ≡ None → core.now.links ≡ 0 → OnOk result (length self.new.orphans.entries ≡ length self.old.orphans.entries + 1) }
        ensures keeps { core.now.links ≢ 0 → self.new.orphans.entries ≡ self.old.orphans.entries }
        ensures memory { IfErr result (λ fault. fault ≡ NoMemory) }
    {
        if core.links == 0 {
            self.orphans.insert(agino, core.next)?;
            return Ok(());
        }
        if core.next != NO_INODE {
            self.pointing = Some(self.pointing.unwrap_or(agino));
        }
        Ok(())
    }
}
