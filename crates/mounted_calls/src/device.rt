//! Whole calls that ask the device.

ghost use Rattle.std.specs.Prelude.{◌≡◌, ◌≤◌, ◌+◌, ℕ, [], false, OnOk, OnErr};
ghost use Rattle.disk_model.specs.Disk.{IsAfterWrites};
ghost use Rattle.log_store.specs.declared.store.Job.TheVariants.{Idle};
ghost use Rattle.log_store.specs.declared.store.Stage.TheVariants.{Down};
ghost use Rattle.log_store.specs.Outcome.{down_count};
ghost use Rattle.log_store.specs.State.{state_of};
ghost use Rattle.log_store.specs.Steps.{IsStore};
ghost use Rattle.life_table.specs.declared.types.Call.TheVariants as call;
ghost use Rattle.life_table.specs.declared.types.Reply.{Reply};
ghost use Rattle.life_table.specs.declared.types.Reply.TheVariants as reply;
ghost use Rattle.life_table.specs.declared.table.Table.{Table};
ghost use Rattle.mounted_calls.specs.Calls.{IsAnswered, IsCoverAnswer, IsDownBehind, IsForced, IsHomeAnswer, IsSyncAnswer, fault_reply, idle_reply, with_call};
ghost use Rattle.mounted_calls.specs.Running.{IsRunning, StoreMoves};

use crate::laws::{logs_leave_first_changes, logs_move_on};
use crate::recording::{call_entry, close_record, open_record};
use disk_model::Disk;
use life_ports::NoMemory;
use life_table::{Call, Reply};
use log_store::{Store, StoreFault};
use mount::Mounted;
use std::alloc::Global;

/// The reply that tells of a fault of the log.
fn reply_of_fault(fault: StoreFault) -> Reply
    ensures { result ≡ fault_reply fault }
{
    match fault {
        StoreFault::WriteFault => Reply::WriteFault,
        StoreFault::FlushFault => Reply::FlushFault,
        StoreFault::PositionEnd => Reply::PositionEnd,
        StoreFault::Down { fault } => Reply::Down { fault },
    }
}

/// Makes all commits durable, and tells how many there are from a number on.
fn force_log<D: Disk>(store: &mut Store<D>, base: u64) -> Reply
    requires store { IsStore D.known D.cells D.sector_count store.old }
    requires idle { store.old.job ≡ Idle }
    requires base { base ≤ store.old.durable + 1 }
    ensures goes { StoreMoves D.known D.cells D.sector_count D.moment D.left_since store.old store.new }
    ensures idle { store.new.job ≡ Idle }
    ensures answer { IsForced base result (state_of store.old) (state_of store.new) (D.fault_count store.old.disk) (D.fault_count store.new.disk) }
    ensures down_behind { IsDownBehind result (state_of store.old) (state_of store.new) }
    ensures down { (count : ℕ) → store.old.stage ≡ Down count → (result ≡ reply.Down count) × (store.new.disk ≡ store.old.disk) }
    ensures count { D.fault_count store.old.disk ≤ D.fault_count store.new.disk }
    ensures sectors { D.sector_count store.new.disk ≡ D.sector_count store.old.disk }
    ensures arming { IsAfterWrites (D.arming store.old.disk) (D.arming store.new.disk) }
{
    logs_leave_first_changes();
    logs_move_on();
    match store.force() {
        Ok(number) => Reply::Covered {
            changes: number + 1 - base,
        },
        Err(fault) => reply_of_fault(fault),
    }
}

/// Makes all changes of a mount durable. Its reply is that of its entry, the last one of the mount's record then: so many first changes are durable, which are all; or why not. Where
/// there is no memory, no call was made.
pub fn sync<D: Disk>(alloc: Global, mounted: &mut Mounted<D>, actor: u32) -> Result<(), NoMemory>
    requires { (start : Table) × (t : Table) × IsRunning D.known D.cells D.sector_count start t mounted.old }
    ensures answered { (start t : Table) → IsRunning D.known D.cells D.sector_count start t mounted.old
        → OnOk result ((answer : Reply) × IsAnswered D.known D.cells D.sector_count D.moment D.left_since start t actor call.Sync answer mounted.old mounted.new
        × IsSyncAnswer mounted.old.story answer (state_of mounted.old.store) (state_of mounted.new.store) (D.fault_count mounted.old.store.disk) (D.fault_count mounted.new.store.disk)
        × IsDownBehind answer (state_of mounted.old.store) (state_of mounted.new.store)) }
    ensures unmade { OnErr result (mounted.new ≡ mounted.old) }
    ensures down { (count : ℕ) → mounted.old.store.stage ≡ Down count
        → OnOk result ((mounted.new.story ≡ with_call mounted.old.story actor call.Sync (reply.Down count)) × (mounted.new.store.disk ≡ mounted.old.store.disk)) }
    ensures count { D.fault_count mounted.old.store.disk ≤ D.fault_count mounted.new.store.disk }
    ensures sectors { D.sector_count mounted.new.store.disk ≡ D.sector_count mounted.old.store.disk }
    ensures arming { IsAfterWrites (D.arming mounted.old.store.disk) (D.arming mounted.new.store.disk) }
{
    let taken = open_record(alloc, &mut mounted.story)?;
    let base = mounted.story.base;
    let reply = force_log(&mut mounted.store, base);
    let entry = call_entry(actor, Call::Sync, reply);
    close_record(taken, &mut mounted.story, entry);
    Ok(())
}

/// Moves the tail of a log of which every sector is home.
fn cover_log<D: Disk>(store: &mut Store<D>) -> Reply
    requires store { IsStore D.known D.cells D.sector_count store.old }
    requires idle { store.old.job ≡ Idle }
    requires home { store.old.dirty.images ≡ [] }
    requires flushed { store.old.unflushed ≡ false }
    ensures goes { StoreMoves D.known D.cells D.sector_count D.moment D.left_since store.old store.new }
    ensures idle { store.new.job ≡ Idle }
    ensures answer { IsCoverAnswer D.known (D.cells store.new.disk) result (state_of store.old) (state_of store.new) (D.fault_count store.old.disk) (D.fault_count store.new.disk) }
    ensures down_behind { IsDownBehind result (state_of store.old) (state_of store.new) }
    ensures down { (count : ℕ) → store.old.stage ≡ Down count → (result ≡ reply.Down count) × (store.new.disk ≡ store.old.disk) }
    ensures count { D.fault_count store.old.disk ≤ D.fault_count store.new.disk }
    ensures sectors { D.sector_count store.new.disk ≡ D.sector_count store.old.disk }
    ensures arming { IsAfterWrites (D.arming store.old.disk) (D.arming store.new.disk) }
{
    logs_leave_first_changes();
    logs_move_on();
    match store.cover() {
        Ok(()) => Reply::Done,
        Err(fault) => reply_of_fault(fault),
    }
}

/// Writes a log's sectors home, and moves its tail. Where every sector is home, the disk is not asked.
fn bring_home<D: Disk>(store: &mut Store<D>) -> Reply
    requires store { IsStore D.known D.cells D.sector_count store.old }
    requires idle { store.old.job ≡ Idle }
    ensures goes { StoreMoves D.known D.cells D.sector_count D.moment D.left_since store.old store.new }
    ensures idle { store.new.job ≡ Idle }
    ensures answer { IsHomeAnswer D.known (D.cells store.new.disk) result (state_of store.old) (state_of store.new) (D.fault_count store.old.disk) (D.fault_count store.new.disk) }
    ensures down_behind { IsDownBehind result (state_of store.old) (state_of store.new) }
    ensures down { (count : ℕ) → store.old.stage ≡ Down count → (result ≡ reply.Down count) × (store.new.disk ≡ store.old.disk) }
    ensures clean { store.old.dirty.images ≡ [] → store.new.disk ≡ store.old.disk }
    ensures count { D.fault_count store.old.disk ≤ D.fault_count store.new.disk }
    ensures sectors { D.sector_count store.new.disk ≡ D.sector_count store.old.disk }
    ensures arming { IsAfterWrites (D.arming store.old.disk) (D.arming store.new.disk) }
{
    logs_leave_first_changes();
    logs_move_on();
    if !store.dirty() {
        return told_state(store);
    }
    match store.write_back() {
        Ok(()) => cover_log(store),
        Err(fault) => reply_of_fault(fault),
    }
}

/// The reply of a job that has nothing to do: that it is done, where the store is not down.
fn told_state<D: Disk>(store: &Store<D>) -> Reply
    ensures { result ≡ idle_reply (down_count store.now.stage) }
{
    match store.stop_state() {
        Some(fault) => Reply::Down { fault },
        None => Reply::Done,
    }
}

/// Writes all sectors that the log has home, and moves its tail. Its reply is that of its entry, as a sync's is.
pub fn home<D: Disk>(alloc: Global, mounted: &mut Mounted<D>, actor: u32) -> Result<(), NoMemory>
    requires { (start : Table) × (t : Table) × IsRunning D.known D.cells D.sector_count start t mounted.old }
    ensures answered { (start t : Table) → IsRunning D.known D.cells D.sector_count start t mounted.old
        → OnOk result ((answer : Reply) × IsAnswered D.known D.cells D.sector_count D.moment D.left_since start t actor call.Home answer mounted.old mounted.new
        × IsHomeAnswer D.known (D.cells mounted.new.store.disk) answer (state_of mounted.old.store) (state_of mounted.new.store) (D.fault_count mounted.old.store.disk) (D.fault_count mounted.new.store.disk)
        × IsDownBehind answer (state_of mounted.old.store) (state_of mounted.new.store)) }
    ensures unmade { OnErr result (mounted.new ≡ mounted.old) }
    ensures down { (count : ℕ) → mounted.old.store.stage ≡ Down count
        → OnOk result ((mounted.new.story ≡ with_call mounted.old.story actor call.Home (reply.Down count)) × (mounted.new.store.disk ≡ mounted.old.store.disk)) }
    ensures clean { mounted.old.store.dirty.images ≡ [] → mounted.new.store.disk ≡ mounted.old.store.disk }
    ensures count { D.fault_count mounted.old.store.disk ≤ D.fault_count mounted.new.store.disk }
    ensures sectors { D.sector_count mounted.new.store.disk ≡ D.sector_count mounted.old.store.disk }
    ensures arming { IsAfterWrites (D.arming mounted.old.store.disk) (D.arming mounted.new.store.disk) }
{
    let taken = open_record(alloc, &mut mounted.story)?;
    let reply = bring_home(&mut mounted.store);
    let entry = call_entry(actor, Call::Home, reply);
    close_record(taken, &mut mounted.story, entry);
    Ok(())
}
