// A disk that lives in memory.
ghost use Rattle.std.specs.Prelude.{◌≡◌, ◌<◌, ◌≤◌, ◌+◌, ◌++◌, [], ◌∷◌, length, take, drop, true, IsTrue, IsOk, IfOk, OnOk, OnErr, Some, slice_get, replicate, refl};
ghost use Rattle.life_bytes.specs.Sectors.{zero_sector};
ghost use Rattle.life_ports.specs.Faults.{HasCause, NeverFalls};
ghost use Rattle.disk_model.specs.Disk.{IsImage, HasOneImage, as_read, written, flushed, IsPartlyWritten, Elapses};
ghost use Rattle.disk_model.specs.MemoryDisk.{fresh, cells_of, left_from, with_change, with_fault};
ghost use Rattle.disk_model.specs.MemoryDisk.Change.{Write, Flush};
ghost use Rattle.disk_model.specs.MemoryEntry.{changes_of};
ghost use Rattle.disk_model.specs.Outcome.{picked};
ghost use Rattle.disk_model.specs.MemoryDiskLaws.{left_now, only_left};

use crate::outcome::settle;
use crate::{Blank, Disk};
use life_bytes::Sector;
use life_ports::{Failed, NoMemory};
use std::alloc::Global;
use std::marker::Model;

// What was done to a disk: a write of these pieces, the first to that sector, or a flush.
#[derive(Drop)]
pub(crate) enum Entry {
    Wrote(u64, Vec<Sector>),
    Flushed,
}

/// A disk in memory. It keeps all its writes and flushes, so that it can tell what a stop at any moment may
/// have left. A write or a flush fails where it finds no memory, and then changes nothing but the count of
/// faults. A read takes no memory and does not fail.
#[derive(Drop)]
pub struct MemoryDisk {
    alloc: Global,
    first: Vec<Sector>,
    entries: Vec<Entry>,
    sectors: Vec<Sector>,
    faults: u64,
}

impl Model for MemoryDisk {
    ghost use Rattle.std.specs.Prelude.{◌≡◌};
    ghost use Rattle.disk_model.specs.Disk.{as_read};
    ghost use Rattle.disk_model.specs.MemoryDisk.{DiskRecord, cells_of, after_changes};
    ghost use Rattle.disk_model.specs.Disk.{settled_as};
    ghost use Rattle.disk_model.specs.MemoryEntry.{changes_of};

    ghost Value = { DiskRecord };

    ghost view = { λ d. record
        { first = d.first.items; changes = changes_of d.entries.items; faults = d.faults } };

    ghost invariant = { λ d. d.sectors.items
        ≡ as_read (after_changes (settled_as d.first.items) (changes_of d.entries.items)) };
}

impl MemoryDisk {
    /// A disk of sectors of zero bytes.
    pub fn new(alloc: Global, sectors: u64) -> Result<MemoryDisk, NoMemory>
        ensures { IfOk result (λ disk. disk ≡ fresh (replicate sectors zero_sector)) }
    {
        MemoryDisk::with(alloc, vec![in alloc; Sector::zero(); sectors as usize]?)
    }

    /// A disk that reads as these sectors, which is all that a stop may leave.
    pub fn with(alloc: Global, sectors: Vec<Sector>) -> Result<MemoryDisk, NoMemory>
        ensures { IfOk result (λ disk. disk ≡ fresh sectors.items) }
    {
        Ok(MemoryDisk {
            alloc,
            first: Vec::from_slice(alloc, &sectors)?,
            entries: Vec::new(alloc),
            sectors,
            faults: 0,
        })
    }

    /// What a read of the sector `at` gives.
    pub fn sector(&self, at: u64) -> Sector
        requires { at < length (cells_of self.now) }
        ensures { slice_get (as_read (cells_of self.now)) at ≡ Some result }
    {
        self.sectors[at as usize]
    }

    /// Makes one outcome of a stop, which is then all that the disk holds, and its record begins anew.
    ///
    /// `choice` is read as digits, the lowest for the first sector: each in the base of how many values a
    /// stop may leave in its sector, where 0 stands for the oldest of them.
    pub fn pick(&mut self, choice: u64)
        ensures picked { self.new ≡ record self.old
            { first = picked choice (cells_of self.old); changes = [] } }
        ensures was_left { IsImage (cells_of self.old) (as_read (cells_of self.new)) }
        ensures one_image { HasOneImage (cells_of self.new) }
        ensures sectors { length (cells_of self.new) ≡ length (cells_of self.old) }
    {
        settle(&mut self.first, &self.entries, choice);
        self.entries.clear();
        self.sectors.copy_from_slice(&self.first);
    }

    // Counts a fault, and gives the answer that tells of it.
    fn fault(&mut self) -> Failed
        ensures counted { self.new ≡ with_fault self.old }
        ensures count { NeverFalls self.old.faults self.new.faults }
    {
        self.faults = self.faults.saturating_add(1);
        Failed
    }
}

// Keeps that the pieces were written.
fn keep_write(
    alloc: Global,
    entries: &mut Vec<Entry>,
    at: u64,
    pieces: &[Sector],
) -> Result<(), NoMemory>
    ensures ok { OnOk result (changes_of entries.new.items
        ≡ changes_of entries.old.items ++ Write at pieces.now ∷ []) }
    ensures err { OnErr result (entries.new.items ≡ entries.old.items) }
{
    entries.push(Entry::Wrote(at, Vec::from_slice(alloc, pieces)?))?;
    Ok(())
}

// Keeps that the disk was flushed.
fn keep_flush(entries: &mut Vec<Entry>) -> Result<(), NoMemory>
    ensures ok { OnOk result (changes_of entries.new.items
        ≡ changes_of entries.old.items ++ Flush ∷ []) }
    ensures err { OnErr result (entries.new.items ≡ entries.old.items) }
{
    entries.push(Entry::Flushed)?;
    Ok(())
}

// Puts the pieces into their places, the first of them to `at`.
fn overwrite(sectors: &mut Vec<Sector>, at: usize, pieces: &[Sector])
    requires { at + length pieces.now ≤ length sectors.old.items }
    ensures { sectors.new.items ≡ take at sectors.old.items ++ pieces.now
        ++ drop (at + length pieces.now) sectors.old.items }
{
    sectors[at..at + pieces.len()].copy_from_slice(pieces);
}

impl Blank for MemoryDisk {
    fn blank(alloc: Global, sectors: u64) -> Result<MemoryDisk, NoMemory>
        ensures { IfOk result (λ disk. disk ≡ fresh (replicate sectors zero_sector)) }
    {
        MemoryDisk::new(alloc, sectors)
    }
}

impl Disk for MemoryDisk {
    ghost known = { true };

    ghost sector_count = { λ disk. length (cells_of disk) };

    ghost fault_count = { λ disk. disk.faults };

    ghost cells = { cells_of };

    ghost moment = { λ disk. length disk.changes };

    ghost left_since = { left_from };

    ghost cells_fit = { λ _ disk. refl };

    ghost counts_now = { λ _ disk since image. left_now disk since image };

    ghost only_now = { λ _ disk image. only_left disk image };

    ghost none_failed = { λ kind disk. tt };

    ghost both_failed = { λ kind first second third one two. tt };

    fn sectors(&self) -> u64 {
        self.sectors.len() as u64
    }

    fn faults(&self) -> u64 {
        self.faults
    }

    fn read(&mut self, at: u64, into: &mut Sector) -> Result<(), Failed>
        requires { at < length (cells_of self.old) }
        ensures ok { IsOk result }
        ensures read { slice_get (as_read (cells_of self.old)) at ≡ Some into.new }
        ensures unchanged { self.new ≡ self.old }
    {
        *into = self.sectors[at as usize];
        Ok(())
    }

    fn write(&mut self, at: u64, pieces: &[Sector]) -> Result<(), Failed>
        requires some { 0 < length pieces.now }
        requires within { at + length pieces.now ≤ length (cells_of self.old) }
        ensures kept { OnOk result (self.new ≡ with_change self.old (Write at pieces.now)) }
        ensures no_memory { OnErr result (self.new ≡ with_fault self.old) }
        ensures written { OnOk result (cells_of self.new ≡ written at pieces.now (cells_of self.old)) }
        ensures failed { OnErr result (IsPartlyWritten at pieces.now (cells_of self.old)
            (cells_of self.new)) }
        ensures time { Elapses (length self.old.changes) (length self.new.changes) (left_from self.old)
            (left_from self.new) (IsImage (written at pieces.now (cells_of self.old))) }
        ensures sectors { length (cells_of self.new) ≡ length (cells_of self.old) }
        ensures cause { HasCause result self.old.faults self.new.faults }
    {
        let Ok(()) = keep_write(self.alloc, &mut self.entries, at, pieces) else {
            return Err(self.fault());
        };
        overwrite(&mut self.sectors, at as usize, pieces);
        Ok(())
    }

    fn flush(&mut self) -> Result<(), Failed>
        ensures kept { OnOk result (self.new ≡ with_change self.old Flush) }
        ensures no_memory { OnErr result (self.new ≡ with_fault self.old) }
        ensures flushed { OnOk result (cells_of self.new ≡ flushed (cells_of self.old)) }
        ensures time { Elapses (length self.old.changes) (length self.new.changes) (left_from self.old)
            (left_from self.new) (IsImage (cells_of self.old)) }
        ensures sectors { length (cells_of self.new) ≡ length (cells_of self.old) }
        ensures cause { HasCause result self.old.faults self.new.faults }
    {
        let Ok(()) = keep_flush(&mut self.entries) else {
            return Err(self.fault());
        };
        Ok(())
    }
}
