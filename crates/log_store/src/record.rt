// The steps that write and flush a record.
ghost use Rattle.std.specs.Prelude.{◌≡◌, ◌≤◌, ◌<◌, ◌+◌, ◌-◌, ◌%◌, ◌↔◌, false, [], length, take, drop, IsTrue};
ghost use Rattle.std.specs.List.{All};
ghost use Rattle.log_record.specs.Numbers.{record_of};
ghost use Rattle.log_record.specs.Encoding.{FitsFields, IsRecord, sector_count, encoded_record};
ghost use Rattle.log_batch.specs.Newest.{IsBatch, IsCommit, commit_images};
ghost use Rattle.log_store.specs.declared.store.Job.TheVariants.{Force, Idle};
ghost use Rattle.log_store.specs.declared.store.Stage.TheVariants.{Cover, Down, Free, Half, Record};
ghost use Rattle.log_store.specs.Actions.{IsDoneBy, flush_cover, flush_record, within_positions, write_cover, write_record, write_rest};
ghost use Rattle.log_store.specs.State.{state_of};
ghost use Rattle.log_store.specs.Steps.{Covering, Goes, IsStore};

use crate::fault::{Progress, StoreFault};
use crate::laws::{cover_flights, flights, states};
use crate::store::{Job, Stage, Store};
use disk_model::Disk;
use life_bytes::Sector;
use log_record::{Commit, Image, RecordNumbers, fill_images, record_sectors};
use std::collections::VecDeque;

/// The last position that a record may end at.
const LAST: u64 = 1 << 63;

/// Writes the record with these numbers and images into as many first sectors as it has.
fn fill_front(into: &mut [Sector], numbers: &RecordNumbers, images: &[Image], count: usize)
    requires form { IsRecord (record_of numbers.now images.now) }
    requires size { count ≡ sector_count (length images.now) }
    requires room { count ≤ length into.old }
    ensures encoded { take count into.new ≡ encoded_record (record_of numbers.now images.now) }
    ensures fits { FitsFields (record_of numbers.now images.now) }
{
    fill_images(numbers, images, &mut into[..count]);
}

/// The same, in a vector.
fn fill_buffer(sectors: &mut Vec<Sector>, numbers: &RecordNumbers, images: &[Image], count: usize)
    requires form { IsRecord (record_of numbers.now images.now) }
    requires size { count ≡ sector_count (length images.now) }
    requires room { count ≤ length sectors.old.items }
    ensures encoded { take count sectors.new.items ≡ encoded_record (record_of numbers.now images.now) }
    ensures fits { FitsFields (record_of numbers.now images.now) }
    ensures length { length sectors.new.items ≡ length sectors.old.items }
{
    fill_front(sectors, numbers, images, count);
}

/// Takes so many first commits away, and their images from the number of those that wait.
fn drop_front(queue: &mut VecDeque<Commit>, waiting: &mut usize, count: u32)
    requires { waiting.old ≡ length (commit_images queue.old.items) }
    ensures list { queue.new.items ≡ drop count queue.old.items }
    ensures counted { waiting.new ≡ length (commit_images queue.new.items) }
{
    for i in 0..count {
        if let Some(commit) = queue.pop_front() {
            *waiting -= commit.images.len();
        }
    }
}

impl<D: Disk> Store<D> {
    /// The store is down from here on.
    pub(crate) fn go_down(&mut self)
        ensures { self.new ≡ record self.old { stage = Down (D.fault_count self.old.disk); job = Idle } }
    {
        self.stage = Stage::Down(self.disk.faults());
        self.job = Job::Idle;
    }

    /// Gathers the next record.
    pub(crate) fn gather(&mut self)
        requires { All IsCommit self.old.queue.items }
        ensures batch { IsBatch self.old.queue.items self.new.taken self.new.batch }
        ensures size { self.new.count ≡ sector_count (length self.new.batch) }
        ensures rest { self.new ≡ record self.old { batch = self.new.batch; taken = self.new.taken; count = self.new.count } }
    {
        self.taken = self.batch.gather(&self.queue);
        self.count = record_sectors(self.batch.images().len() as u32);
    }

    /// Whether the record that is gathered has room before the tail.
    pub(crate) fn fits(&self) -> bool
        requires { self.now.positions.ring ≡ self.now.ring }
        ensures { IsTrue result ↔ ((self.now.positions.head - self.now.positions.tail) + self.now.count + 1 ≤ self.now.ring) }
    {
        self.count <= self.positions.room()
    }

    /// How many sectors are left up to the ring's end.
    fn straight(&self) -> usize
        requires { self.now.positions.ring ≡ self.now.ring }
        ensures left { result ≡ self.now.ring - self.now.positions.head % self.now.ring }
        ensures some { 0 < result }
    {
        let place = self.positions.place(self.positions.head());
        (self.ring - place as u32) as usize
    }

    /// Writes the first part of the record that is gathered.
    pub(crate) fn write_record(&mut self) -> Result<Progress, StoreFault>
        requires store { IsStore D.known D.cells D.sector_count self.old }
        requires stage { self.old.stage ≡ Free }
        requires job { self.old.job ≡ Force }
        requires some { 0 < self.old.taken }
        requires batch { IsBatch self.old.queue.items self.old.taken self.old.batch }
        requires size { self.old.count ≡ sector_count (length self.old.batch) }
        requires room { (self.old.positions.head - self.old.positions.tail) + self.old.count + 1 ≤ self.old.ring }
        ensures goes { Goes D.known D.cells D.sector_count D.moment D.left_since self.old self.new }
        ensures done { IsDoneBy D.known D.cells D.sector_count D.arming D.fault_count
            (within_positions (self.old.positions.head + sector_count (length self.old.batch)) write_record) result self.old.job (state_of self.old) self.old.disk self.new }
    {
        flights();
        let head = self.positions.head();
        if LAST - head < u64::from(self.count) {
            self.job = Job::Idle;
            return Err(StoreFault::PositionEnd);
        }
        let numbers = RecordNumbers {
            position: head,
            tail: self.positions.tail(),
            first: self.durable + 1,
            commits: self.taken,
        };
        let count = self.count as usize;
        fill_buffer(&mut self.sectors, &numbers, self.batch.images(), count);
        let part = count.min(self.straight());
        let at = self.anchor + 1 + self.positions.place(head);
        match self.disk.write(at, &self.sectors[..part]) {
            Ok(()) => {
                if part < count {
                    self.stage = Stage::Half;
                    return Ok(Progress::More);
                }
                self.stage = Stage::Record;
                Ok(Progress::More)
            }
            Err(_) => {
                self.go_down();
                Err(StoreFault::WriteFault)
            }
        }
    }

    /// Writes the rest of a record that passes the ring's end.
    pub(crate) fn write_rest(&mut self) -> Result<Progress, StoreFault>
        requires store { IsStore D.known D.cells D.sector_count self.old }
        requires stage { self.old.stage ≡ Half }
        ensures goes { Goes D.known D.cells D.sector_count D.moment D.left_since self.old self.new }
        ensures done { IsDoneBy D.known D.cells D.sector_count D.arming D.fault_count
            write_rest result self.old.job (state_of self.old) self.old.disk self.new }
    {
        flights();
        let part = self.straight();
        let count = self.count as usize;
        match self.disk.write(self.anchor + 1, &self.sectors[part..count]) {
            Ok(()) => {
                self.stage = Stage::Record;
                Ok(Progress::More)
            }
            Err(_) => {
                self.go_down();
                Err(StoreFault::WriteFault)
            }
        }
    }

    /// Flushes a record, whose commits are then durable.
    pub(crate) fn flush_record(&mut self) -> Result<Progress, StoreFault>
        requires store { IsStore D.known D.cells D.sector_count self.old }
        requires stage { self.old.stage ≡ Record }
        ensures goes { Goes D.known D.cells D.sector_count D.moment D.left_since self.old self.new }
        ensures done { IsDoneBy D.known D.cells D.sector_count D.arming D.fault_count
            flush_record result self.old.job (state_of self.old) self.old.disk self.new }
    {
        flights();
        states();
        match self.disk.flush() {
            Ok(()) => {
                self.positions.wrote(self.count);
                self.durable += self.taken as u64;
                self.dirty.put_all(self.batch.images());
                drop_front(&mut self.queue, &mut self.waiting, self.taken);
                self.unflushed = false;
                self.stage = Stage::Free;
                if self.queue.is_empty() {
                    self.job = Job::Idle;
                    return Ok(Progress::Ended);
                }
                Ok(Progress::More)
            }
            Err(_) => {
                self.go_down();
                Err(StoreFault::FlushFault)
            }
        }
    }

    /// Writes the cover record.
    pub(crate) fn write_cover(&mut self) -> Result<Progress, StoreFault>
        requires store { IsStore D.known D.cells D.sector_count self.old }
        requires stage { self.old.stage ≡ Free }
        requires none { self.old.dirty.images ≡ [] }
        requires flushed { self.old.unflushed ≡ false }
        requires job { Covering self.old.job }
        ensures goes { Goes D.known D.cells D.sector_count D.moment D.left_since self.old self.new }
        ensures done { IsDoneBy D.known D.cells D.sector_count D.arming D.fault_count
            (within_positions (self.old.positions.head + 1) write_cover) result self.old.job (state_of self.old) self.old.disk self.new }
        ensures batch { self.new.batch ≡ self.old.batch }
    {
        cover_flights();
        let head = self.positions.head();
        if head == LAST {
            self.job = Job::Idle;
            return Err(StoreFault::PositionEnd);
        }
        let numbers = RecordNumbers {
            position: head,
            tail: head,
            first: self.durable + 1,
            commits: 0,
        };
        fill_buffer(&mut self.sectors, &numbers, &[], 1);
        let at = self.anchor + 1 + self.positions.place(head);
        match self.disk.write(at, &self.sectors[..1]) {
            Ok(()) => {
                self.stage = Stage::Cover;
                Ok(Progress::More)
            }
            Err(_) => {
                self.go_down();
                Err(StoreFault::WriteFault)
            }
        }
    }

    /// Flushes the cover, which moves the tail.
    pub(crate) fn flush_cover(&mut self) -> Result<Progress, StoreFault>
        requires store { IsStore D.known D.cells D.sector_count self.old }
        requires stage { self.old.stage ≡ Cover }
        ensures goes { Goes D.known D.cells D.sector_count D.moment D.left_since self.old self.new }
        ensures done { IsDoneBy D.known D.cells D.sector_count D.arming D.fault_count
            flush_cover result self.old.job (state_of self.old) self.old.disk self.new }
    {
        cover_flights();
        states();
        match self.disk.flush() {
            Ok(()) => {
                self.positions.covered();
                self.stage = Stage::Free;
                if self.job == Job::Clear {
                    self.job = Job::Force;
                    return Ok(Progress::More);
                }
                self.job = Job::Idle;
                Ok(Progress::Ended)
            }
            Err(_) => {
                self.go_down();
                Err(StoreFault::FlushFault)
            }
        }
    }
}
