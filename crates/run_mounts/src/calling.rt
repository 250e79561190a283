// A whole call on a mount of a run.

ghost use Rattle.std.specs.Prelude.{◌≡◌, ◌≤◌, ◌<◌, ◌+◌, ◌-◌, ◌^◌, ℕ, List, IsTrue, OnErr, OnOk};
ghost use Rattle.disk_model.specs.Disk.{IsAfterWrites};
ghost use Rattle.life_table.specs.declared.table.Table.{Table};
ghost use Rattle.life_table.specs.History.{IsHeld, key_of};
ghost use Rattle.mounted_calls.specs.Calls.{NamesGroup};
ghost use Rattle.mounted_calls.specs.Running.{IsRunning};
ghost use Rattle.run_history.specs.Mounts.{MountStory, changes_made, left};
ghost use Rattle.run_mounts.specs.Calls.{IsCalled, IsUncalled, IsWholeCall};
ghost use Rattle.run_mounts.specs.Safe.{StandsBehind};

use crate::laws::calls_stand_safe;
use disk_model::Disk;
use life_ports::NoMemory;
use life_table::Call;
use mount::Mounted;
use mounted_calls::{call_in_group, home, logs_leave_first_changes, sync};
use std::alloc::Global;

/// Makes the call, as what it asks does: one group, or the device.
fn answer_call<D: Disk>(
    alloc: Global,
    mounted: &mut Mounted<D>,
    actor: u32,
    called: Call,
) -> Result<(), NoMemory>
    requires kind { IsWholeCall called }
    requires running { (start : Table) × (t : Table) × IsRunning D.known D.cells D.sector_count start t mounted.old }
    requires group { NamesGroup mounted.old.geometry.groups called }
    requires held { IsHeld mounted.old.story.entries actor (key_of called) }
    requires number { mounted.old.story.base + changes_made mounted.old.story < 2 ^ 64 - 1 }
    ensures called { (start t : Table) → IsRunning D.known D.cells D.sector_count start t mounted.old
        → OnOk result (IsCalled D.known D.cells D.sector_count D.fault_count start t actor called mounted.old mounted.new) }
    ensures uncalled { (start t : Table) → IsRunning D.known D.cells D.sector_count start t mounted.old
        → OnErr result (IsUncalled D.known D.cells D.sector_count start t mounted.old mounted.new) }
    ensures count { D.fault_count mounted.old.store.disk ≤ D.fault_count mounted.new.store.disk }
    ensures sectors { D.sector_count mounted.new.store.disk ≡ D.sector_count mounted.old.store.disk }
    ensures arming { IsAfterWrites (D.arming mounted.old.store.disk) (D.arming mounted.new.store.disk) }
{
    match called {
        Call::Sync => sync(alloc, mounted, actor),
        Call::Home => home(alloc, mounted, actor),
        _ => call_in_group(alloc, mounted, actor, called),
    }
}

/// Makes a whole call of an actor on a mount. Its reply is that of its entry, the last one of the mount's record then. Where there is no memory, no call was made.
///
/// A run that stood safe with the mount stands so with the mount as it is now, wherever the device stopped meanwhile.
pub fn call_on<D: Disk>(
    alloc: Global,
    mounted: &mut Mounted<D>,
    actor: u32,
    called: Call,
) -> Result<(), NoMemory>
    requires kind { IsWholeCall called }
    requires running { (start : Table) × (t : Table) × IsRunning D.known D.cells D.sector_count start t mounted.old }
    requires group { NamesGroup mounted.old.geometry.groups called }
    requires held { IsHeld mounted.old.story.entries actor (key_of called) }
    requires number { mounted.old.story.base + changes_made mounted.old.story < 2 ^ 64 - 1 }
    ensures called { (start t : Table) → IsRunning D.known D.cells D.sector_count start t mounted.old
        → OnOk result (IsCalled D.known D.cells D.sector_count D.fault_count start t actor called mounted.old mounted.new) }
    ensures uncalled { (start t : Table) → IsRunning D.known D.cells D.sector_count start t mounted.old
        → OnErr result (IsUncalled D.known D.cells D.sector_count start t mounted.old mounted.new) }
    ensures safe { IsTrue D.known → (first : Table) (number : ℕ) (past : List MountStory) (start t : Table) → IsRunning D.known D.cells D.sector_count start t mounted.old
        → StandsBehind first number past left start mounted.old.story (D.cells mounted.old.store.disk)
        → StandsBehind first number past left start mounted.new.story (D.cells mounted.new.store.disk) }
    ensures count { D.fault_count mounted.old.store.disk ≤ D.fault_count mounted.new.store.disk }
    ensures sectors { D.sector_count mounted.new.store.disk ≡ D.sector_count mounted.old.store.disk }
    ensures arming { IsAfterWrites (D.arming mounted.old.store.disk) (D.arming mounted.new.store.disk) }
{
    calls_stand_safe();
    logs_leave_first_changes();
    let answer = answer_call(alloc, mounted, actor, called);
    mounted.store.images_replay();
    answer
}
