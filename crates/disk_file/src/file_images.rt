// Where disks come from that are files.
ghost use Rattle.std.specs.Prelude.{◌≡◌, ◌<◌, ◌*◌, ◌++◌, ◌∷◌, [], length, IfOk, OnOk, OnErr, string_bytes};
ghost use Rattle.life_ports.specs.Faults.{NeverFalls, Rose};
ghost use Rattle.life_limits.specs.declared.TheConstants.{SECTOR_BYTES};
ghost use Rattle.disk_file.specs.FileDisk.{all_given};
ghost use Rattle.disk_file.specs.declared.file_disk.TheConstants.{RUN_SECTORS};

use crate::file_disk::{RUN_SECTORS, make, open, run_bytes};
use crate::{FileDisk, WindowDisk};
use disk_model::Images;
use life_bytes::Sector;
use life_ports::Refused;
use std::alloc::{AllocError, Global};
use std::fs::File;
use std::rt::Files;

/// A file that was given as a disk.
#[derive(Drop)]
pub(crate) struct GivenFile {
    path: String,
    created: bool,
    faults: u64,
}

// The memory that it takes to give a disk.
#[derive(Drop)]
struct Room {
    path: String,
    bytes: Vec<u8>,
    sectors: Vec<Sector>,
    ghost bytes_room: { length bytes.items ≡ RUN_SECTORS * SECTOR_BYTES },
    ghost sectors_room: { 0 < length sectors.items },
}

/// Disks that are the files at paths.
#[derive(Drop)]
pub struct FileImages<R> {
    files: R,
    alloc: Global,
    given: Vec<GivenFile>,
    faults: u64,
}

impl<R: Files<File = File> + Drop> FileImages<R> {
    /// Nothing was given yet.
    pub fn new(alloc: Global, files: R) -> FileImages<R>
        ensures given { all_given result.given.items ≡ [] }
        ensures faults { result.faults ≡ 0 }
    {
        FileImages {
            files,
            alloc,
            given: Vec::new(alloc),
            faults: 0,
        }
    }

    fn fault(&mut self) -> Refused
        ensures rose { Rose self.old.faults self.new.faults }
        ensures never_falls { NeverFalls self.old.faults self.new.faults }
        ensures given { all_given self.new.given.items ≡ all_given self.old.given.items }
    {
        self.faults = self.faults.saturating_add(1);
        Refused::Failed
    }

    // Takes the memory for a disk, and to note that it is given. So where there is none, no file is made.
    fn make_room(&mut self, path: &str) -> Result<Room, AllocError>
        ensures path { IfOk result (λ room. string_bytes room.path ≡ path.now) }
        ensures given { all_given self.new.given.items ≡ all_given self.old.given.items }
        ensures faults { self.new.faults ≡ self.old.faults }
    {
        self.given.reserve(1)?;
        Ok(Room {
            path: String::from_str(self.alloc, path)?,
            bytes: run_bytes(self.alloc)?,
            sectors: vec![in self.alloc; Sector::zero(); RUN_SECTORS]?,
        })
    }

    // Notes that a disk is given.
    fn note(&mut self, path: String, created: bool) -> Result<(), AllocError>
        ensures ok { OnOk result (all_given self.new.given.items
            ≡ all_given self.old.given.items ++ record { path = string_bytes path; created = created; faults = 0 } ∷ []) }
        ensures err { OnErr result (all_given self.new.given.items ≡ all_given self.old.given.items) }
        ensures faults { self.new.faults ≡ self.old.faults }
    {
        self.given.push(GivenFile {
            path,
            created,
            faults: 0,
        })?;
        Ok(())
    }
}

impl<R: Files<File = File> + Drop> Images for FileImages<R> {
    ghost use Rattle.std.specs.Prelude.{None};
    ghost use Rattle.disk_file.specs.FileDisk.{all_given};

    type Disk = WindowDisk<FileDisk>;

    ghost given = { λ images. all_given images.given.items };

    ghost fault_count = { λ images. images.faults };

    ghost image_at = { λ _ _. None };

    fn faults(&self) -> u64 {
        self.faults
    }

    fn attach(&mut self, path: &str) -> Result<WindowDisk<FileDisk>, Refused> {
        let room = self.make_room(path)?;
        match open(&self.files, path, room.bytes) {
            Ok(disk) => {
                self.note(room.path, false)?;
                Ok(WindowDisk::new(disk, room.sectors))
            }
            Err(_) => Err(self.fault()),
        }
    }

    fn create(&mut self, path: &str, sectors: u64) -> Result<WindowDisk<FileDisk>, Refused> {
        let room = self.make_room(path)?;
        match make(&self.files, path, sectors, room.bytes) {
            Ok(disk) => {
                self.note(room.path, true)?;
                Ok(WindowDisk::new(disk, room.sectors))
            }
            Err(_) => Err(self.fault()),
        }
    }
}
