// Disks that stand at paths in memory.
ghost use Rattle.std.specs.Prelude.{◌≡◌, ◌≢◌, ◌⊎◌, ◌↔◌, ◌++◌, [], ◌∷◌, ℕ, List, replicate, None, Some, IsTrue, IsErr, IsErrOf, IsSome, IfOk, IfErr, IfSome, OnOk, OnErr};
ghost use Rattle.life_bytes.specs.Sectors.{zero_sector};
ghost use Rattle.life_ports.specs.FaultPlan.{FailsNext, plan_after_call, after_fault};
ghost use Rattle.life_ports.specs.Faults.{HasCauseOrNoMemory};
ghost use Rattle.disk_model.specs.Disk.{HasOneImage, settled_as};
ghost use Rattle.disk_model.specs.Images.{attached, created as made};
ghost use Rattle.disk_model.specs.Gift.{gifts_given};
ghost use Rattle.disk_model.specs.MemoryImages.{disk_at, image_of, KeepsOthers};

use crate::{Blank, Disk, Images};
use life_ports::{FaultPlan, NoMemory, Refused};
use std::alloc::Global;
use std::collections::BTreeMap;
use std::marker::Model;

/// A disk that was given.
#[derive(Drop)]
struct Gift {
    path: String,
    created: bool,
    faults: u64,
}

/// Disks in memory, each at a path. A disk that is attached no longer stands there, and one that is created
/// never does. To attach where no disk stands is a fault, and so is to create one where a disk stands.
#[derive(Drop)]
pub struct MemoryImages<D: Disk> {
    alloc: Global,
    disks: BTreeMap<String, D>,
    gifts: Vec<Gift>,
    plan: FaultPlan,
}

// Keeps that a disk was given.
fn note(
    alloc: Global,
    gifts: &mut Vec<Gift>,
    path: &str,
    created: bool,
    faults: u64,
) -> Result<(), NoMemory>
    ensures ok { OnOk result (gifts_given gifts.new.items ≡ gifts_given gifts.old.items
        ++ record { path = path.now; created = created; faults = faults } ∷ []) }
    ensures err { OnErr result (gifts.new.items ≡ gifts.old.items) }
{
    let path = String::from_str(alloc, path)?;
    gifts.push(Gift {
        path,
        created,
        faults,
    })?;
    Ok(())
}

impl<D: Disk> Model for MemoryImages<D> {
    ghost use Rattle.std.specs.Prelude.{IsTrue, All};
    ghost use Rattle.std.specs.BTreeMap.{values};
    ghost use Rattle.disk_model.specs.Disk.{HasOneImage};
    ghost use Rattle.disk_model.specs.MemoryImages.{Shelf};

    ghost Value = { Shelf D };

    ghost use Rattle.disk_model.specs.Gift.{by_path, gifts_given};

    ghost view = { λ m. record
        { disks = by_path m.disks.entries; given = gifts_given m.gifts.items; plan = m.plan } };

    ghost invariant = { λ m. IsTrue D.known → All (λ disk. HasOneImage (D.cells disk)) (values m.disks) };
}

impl<D: Disk> MemoryImages<D> {
    /// `fails` lists the calls that are to fail: those of `attach` and `create`, counted together from 1.
    pub fn new(alloc: Global, fails: Vec<u64>) -> MemoryImages<D>
        ensures disks { result.disks ≡ [] }
        ensures given { result.given ≡ [] }
        ensures plan { result.plan ≡ record { fails = fails.items; calls = 0; faults = 0 } }
    {
        MemoryImages {
            alloc,
            disks: BTreeMap::new(alloc),
            gifts: Vec::new(alloc),
            plan: FaultPlan::new(fails),
        }
    }

    /// Whether a disk stands at a path.
    pub fn is_listed(&self, path: &str) -> bool
        ensures { IsTrue result ↔ IsSome (disk_at self.now path.now) }
    {
        self.disks.contains_key(path)
    }

    /// Puts a disk at a path where none stands. Where there is no memory, the disk comes back.
    pub fn add(&mut self, path: &str, disk: D) -> Result<(), (D, NoMemory)>
        requires free { disk_at self.old path.now ≡ None }
        requires one_image { IsTrue D.known → HasOneImage (D.cells disk) }
        ensures stands { OnOk result (disk_at self.new path.now ≡ Some disk) }
        ensures others { KeepsOthers path.now self.old self.new }
        ensures given { self.new.given ≡ self.old.given }
        ensures plan { self.new.plan ≡ self.old.plan }
        ensures returned { IfErr result (λ e. e.0 ≡ disk) }
        ensures no_memory { OnErr result (self.new ≡ self.old) }
    {
        let Ok(key) = String::from_str(self.alloc, path) else {
            return Err((disk, NoMemory));
        };
        match self.disks.insert(key, disk) {
            Ok(_) => Ok(()),
            Err(refused) => Err((refused.value.1, NoMemory)),
        }
    }
}

impl<D: Blank + Send> Images for MemoryImages<D> {
    type Disk = D;

    ghost given = { λ images. images.given };

    ghost fault_count = { λ images. images.plan.faults };

    ghost image_at = { λ images path. image_of D.known D.cells (disk_at images path) };

    fn faults(&self) -> u64 {
        self.plan.faults()
    }

    fn attach(&mut self, path: &str) -> Result<D, Refused>
        // Which calls fail.
        ensures listed { FailsNext self.old.plan → IsErrOf result Refused.Failed }
        ensures absent { disk_at self.old path.now ≡ None → IsErrOf result Refused.Failed }
        ensures failed { IsErrOf result Refused.Failed →
            FailsNext self.old.plan ⊎ (disk_at self.old path.now ≡ None) }

        // The disk, and what stands afterwards.
        ensures disk { IfOk result (λ disk. disk_at self.old path.now ≡ Some disk) }
        ensures taken { OnOk result (disk_at self.new path.now ≡ None) }
        ensures apart { KeepsOthers path.now self.old self.new }
        ensures disks_kept { OnErr result (self.new.disks ≡ self.old.disks) }
        ensures plan_ok { OnOk result (self.new.plan ≡ plan_after_call self.old.plan) }
        ensures plan_failed { IsErrOf result Refused.Failed →
            self.new.plan ≡ after_fault (plan_after_call self.old.plan) }
        ensures plan_no_memory { IsErrOf result Refused.NoMemory →
            self.new.plan ≡ plan_after_call self.old.plan }

        ensures given { IfOk result (λ disk. self.new.given
            ≡ self.old.given ++ attached path.now (D.fault_count disk) ∷ []) }
        ensures one_image { IfOk result (λ disk. IsTrue D.known → HasOneImage (D.cells disk)) }
        ensures image { IfOk result (λ disk. IsTrue D.known →
            IfSome (image_of D.known D.cells (disk_at self.old path.now))
            (λ image. D.cells disk ≡ settled_as image)) }
        ensures refused { OnErr result (self.new.given ≡ self.old.given) }
        ensures cause { HasCauseOrNoMemory result self.old.plan.faults self.new.plan.faults }
    {
        self.plan.call()?;
        let Some(disk) = self.disks.get(path) else {
            return Err(self.plan.fault().into());
        };
        let faults = disk.faults();
        note(self.alloc, &mut self.gifts, path, false, faults)?;
        match self.disks.remove(path) {
            Some(disk) => Ok(disk),
            None => unreachable!(),
        }
    }

    fn create(&mut self, path: &str, sectors: u64) -> Result<D, Refused>
        // Which calls fail.
        ensures listed { FailsNext self.old.plan → IsErrOf result Refused.Failed }
        ensures taken { IsSome (disk_at self.old path.now) → IsErrOf result Refused.Failed }
        ensures failed { IsErrOf result Refused.Failed →
            FailsNext self.old.plan ⊎ IsSome (disk_at self.old path.now) }

        ensures disks_kept { self.new.disks ≡ self.old.disks }
        ensures plan_ok { OnOk result (self.new.plan ≡ plan_after_call self.old.plan) }
        ensures plan_failed { IsErrOf result Refused.Failed →
            self.new.plan ≡ after_fault (plan_after_call self.old.plan) }
        ensures plan_no_memory { IsErrOf result Refused.NoMemory →
            self.new.plan ≡ plan_after_call self.old.plan }

        ensures given { IfOk result (λ disk. self.new.given
            ≡ self.old.given ++ made path.now (D.fault_count disk) ∷ []) }
        ensures sectors { IfOk result (λ disk. D.sector_count disk ≡ sectors) }
        ensures blank { IfOk result (λ disk. IsTrue D.known →
            D.cells disk ≡ settled_as (replicate sectors zero_sector)) }
        ensures refused { OnErr result (self.new.given ≡ self.old.given) }
        ensures cause { HasCauseOrNoMemory result self.old.plan.faults self.new.plan.faults }
    {
        self.plan.call()?;
        if self.disks.contains_key(path) {
            return Err(self.plan.fault().into());
        }
        let disk = D::blank(self.alloc, sectors)?;
        note(self.alloc, &mut self.gifts, path, true, disk.faults())?;
        Ok(disk)
    }
}
