// A disk that is read by windows.
ghost use Rattle.std.specs.Prelude.{◌≡◌, ◌<◌, length, Some, IsTrue, IfSome, slice_get};
ghost use Rattle.disk_model.specs.Disk.{as_read};

use crate::ReadsRuns;
use disk_model::Disk;
use life_bytes::Sector;
use life_ports::Failed;
use std::marker::Model;

/// A disk over another one, of which it reads runs ahead: reads that follow each other cost a call of that disk for each run. A write makes it forget
/// what it read ahead. Contracts see it as the disk beneath.
#[derive(Drop)]
pub struct WindowDisk<D: ReadsRuns> {
    inner: D,

    // Of these sectors the first `count` are those of the disk from `first` on.
    sectors: Vec<Sector>,
    first: u64,
    count: usize,
}

impl<D: ReadsRuns> Model for WindowDisk<D> {
    ghost use Rattle.std.specs.Prelude.{◌<◌, ◌≤◌, length, IsTrue};
    ghost use Rattle.disk_model.specs.Disk.{as_read};
    ghost use Rattle.disk_file.specs.Window.{IsWindow};

    ghost Value = { D };

    ghost view = { λ w. w.inner };

    ghost invariant = { λ w. (0 < length w.sectors.items) × (w.count ≤ length w.sectors.items)
        × (IsTrue D.known → IsWindow (as_read (D.cells w.inner)) w.first w.count w.sectors.items) };
}

impl<D: ReadsRuns> WindowDisk<D> {
    /// Nothing was read ahead yet. At most as many sectors are read at once as this room has; what it holds is not looked at.
    pub fn new(inner: D, room: Vec<Sector>) -> WindowDisk<D>
        requires { 0 < length room.items }
        ensures { result ≡ inner }
    {
        WindowDisk {
            inner,
            sectors: room,
            first: 0,
            count: 0,
        }
    }

    // This sector, where it was read ahead.
    fn ahead(&self, at: u64) -> Option<Sector>
        ensures { IsTrue D.known → IfSome result (λ sector. slice_get (as_read (D.cells self.now)) at ≡ Some sector) }
    {
        let place = at.checked_sub(self.first)? as usize;
        if place < self.count {
            Some(self.sectors[place])
        } else {
            None
        }
    }
}

impl<D: ReadsRuns> Disk for WindowDisk<D> {
    ghost known = { D.known };

    ghost sector_count = { D.sector_count };

    ghost fault_count = { D.fault_count };

    ghost cells = { D.cells };

    ghost moment = { D.moment };

    ghost left_since = { D.left_since };

    ghost arming = { D.arming };

    ghost only_failed = { D.only_failed };

    ghost cells_fit = { D.cells_fit };

    ghost counts_now = { D.counts_now };

    ghost only_now = { D.only_now };

    ghost none_failed = { D.none_failed };

    ghost both_failed = { D.both_failed };

    fn sectors(&self) -> u64 {
        self.inner.sectors()
    }

    fn faults(&self) -> u64 {
        self.inner.faults()
    }

    fn read(&mut self, at: u64, into: &mut Sector) -> Result<(), Failed> {
        if let Some(sector) = self.ahead(at) {
            *into = sector;
            return Ok(());
        }
        (self.first, self.count) = (at, 0);
        self.count = self.inner.read_run(at, &mut self.sectors)?;
        *into = self.sectors[0];
        Ok(())
    }

    fn write(&mut self, at: u64, pieces: &[Sector]) -> Result<(), Failed> {
        self.count = 0;
        self.inner.write(at, pieces)
    }

    fn flush(&mut self) -> Result<(), Failed> {
        self.inner.flush()
    }
}
