// Disks that are files. Of what a file holds, nothing is known.
ghost use Rattle.std.specs.Prelude.{◌≡◌, ◌<◌, ◌≤◌, ◌*◌, ◌+◌, ◌^◌, length, IfOk};
ghost use Rattle.life_limits.specs.declared.TheConstants.{SECTOR_BYTES};
ghost use Rattle.life_ports.specs.Faults.{NeverFalls, Rose};
ghost use Rattle.disk_file.specs.declared.file_disk.TheConstants.{RUN_SECTORS};

use crate::ReadsRuns;
use disk_model::Disk;
use life_bytes::Sector;
use life_limits::SECTOR_BYTES;
use life_ports::Failed;
use std::alloc::{AllocError, Global};
use std::fs::{File, OpenOptions};
use std::io;
use std::io::{Seek, SeekFrom};
use std::os::unix::fs::FileExt;
use std::rt::Files;

const SECTOR: usize = SECTOR_BYTES as usize;

/// Sectors that one call of the system reads or writes at most: 17 pages of 4,096 bytes, the fewest that hold the longest record of a log.
pub(crate) const RUN_SECTORS: usize = 136;

/// A file as a disk of whole sectors. A last part of the file of less than a sector is left as it is.
#[derive(Drop)]
pub struct FileDisk {
    file: File,
    sectors: u64,
    faults: u64,

    // What comes from the file, and what goes to it.
    bytes: Vec<u8>,
    ghost fits: { sectors * SECTOR_BYTES < 2 ^ 64 },
    ghost room: { length bytes.items ≡ RUN_SECTORS * SECTOR_BYTES },
}

/// The memory that a file as a disk wants.
pub(crate) fn run_bytes(alloc: Global) -> Result<Vec<u8>, AllocError>
    ensures { IfOk result (λ bytes. length bytes.items ≡ RUN_SECTORS * SECTOR_BYTES) }
{
    vec![in alloc; 0u8; RUN_SECTORS * SECTOR]
}

/// The file at a path. No other program has it as a disk meanwhile, as far as these ask for the lock of a file (`flock`).
pub(crate) fn open(
    files: &impl Files<File = File>,
    path: &str,
    bytes: Vec<u8>,
) -> io::Result<FileDisk>
    requires { length bytes.items ≡ RUN_SECTORS * SECTOR_BYTES }
    ensures { IfOk result (λ disk. disk.faults ≡ 0) }
{
    let mut file = OpenOptions::new().read(true).write(true).open(files, path)?;
    file.try_lock()?;
    let length = file.seek(SeekFrom::End(0))?;
    Ok(FileDisk {
        file,
        sectors: length / u64::from(SECTOR_BYTES),
        faults: 0,
        bytes,
    })
}

/// A new file at a path, of so many sectors of zero bytes.
pub(crate) fn make(
    files: &impl Files<File = File>,
    path: &str,
    sectors: u64,
    bytes: Vec<u8>,
) -> io::Result<FileDisk>
    requires { length bytes.items ≡ RUN_SECTORS * SECTOR_BYTES }
    ensures { IfOk result (λ disk. (disk.faults ≡ 0) × (disk.sectors ≡ sectors)) }
{
    let Some(length) = sectors.checked_mul(u64::from(SECTOR_BYTES)) else {
        return Err(io::Error::from(io::ErrorKind::InvalidInput));
    };
    let file = File::create_new(files, path)?;
    file.try_lock()?;
    file.set_len(length)?;
    Ok(FileDisk {
        file,
        sectors,
        faults: 0,
        bytes,
    })
}

// Reads the sector at this byte of the file, and gives how many that are.
fn read_sector(file: &File, place: u64, into: &mut [u8]) -> io::Result<usize>
    requires { SECTOR_BYTES ≤ length into.old }
    ensures { IfOk result (λ count. count ≡ 1) }
{
    file.read_exact_at(&mut into[..SECTOR], place)?;
    Ok(1)
}

// Reads what stands in the file from this byte on, to the end of `into`, and gives how many whole sectors came. What one call of the system gives is enough. Where
// it is interrupted, or gives less than a sector, the first sector is asked for by itself.
fn read_part(file: &File, place: u64, into: &mut [u8]) -> io::Result<usize>
    requires { SECTOR_BYTES ≤ length into.old }
    ensures { IfOk result (λ count. (0 < count) × (count * SECTOR_BYTES ≤ length into.new)) }
{
    let got = file.read_at(into, place).unwrap_or(0);
    if got < SECTOR {
        return read_sector(file, place, into);
    }
    Ok(got / SECTOR)
}

// The same of at most so many sectors.
fn read_from(file: &File, place: u64, limit: usize, into: &mut [u8]) -> io::Result<usize>
    requires { (0 < limit) × (limit * SECTOR_BYTES ≤ length into.old) }
    ensures { IfOk result (λ count. (0 < count) × (count ≤ limit)) }
{
    read_part(file, place, &mut into[..limit * SECTOR])
}

// Takes so many sectors from the bytes in front.
fn take_sectors(bytes: &[u8], count: usize, into: &mut [Sector])
    requires bytes { count * SECTOR_BYTES ≤ length bytes.now }
    requires room { count ≤ length into.old }
{
    for i in 0..count {
        into[i]
            .bytes
            .copy_from_slice(&bytes[i * SECTOR..(i + 1) * SECTOR]);
    }
}

// Puts the sectors' bytes one behind the other.
fn put_sectors(pieces: &[Sector], into: &mut [u8])
    requires { length pieces.now * SECTOR_BYTES ≤ length into.old }
{
    for i in 0..pieces.len() {
        into[i * SECTOR..(i + 1) * SECTOR].copy_from_slice(&pieces[i].bytes);
    }
}

// Writes the pieces to the file from this byte on: one call of the system, and more only where that is interrupted or short.
fn write_run(file: &File, place: u64, pieces: &[Sector], room: &mut [u8]) -> io::Result<()>
    requires { length pieces.now * SECTOR_BYTES ≤ length room.old }
{
    put_sectors(pieces, room);
    file.write_all_at(&room[..pieces.len() * SECTOR], place)
}

// Writes the pieces to the file from this sector on, as many at once as there is room for.
fn write_from(file: &File, at: u64, pieces: &[Sector], room: &mut [u8]) -> io::Result<()>
    requires fits { (at + length pieces.now) * SECTOR_BYTES < 2 ^ 64 }
    requires room { length room.old ≡ RUN_SECTORS * SECTOR_BYTES }
{
    let mut done = 0;
    while done < pieces.len() {
        let end = pieces.len().min(done + RUN_SECTORS);
        write_run(
            file,
            (at + done as u64) * u64::from(SECTOR_BYTES),
            &pieces[done..end],
            room,
        )?;
        done = end;
    }
    Ok(())
}

impl FileDisk {
    fn fault(&mut self) -> Failed
        ensures rose { Rose self.old.faults self.new.faults }
        ensures never_falls { NeverFalls self.old.faults self.new.faults }
        ensures sectors { self.new.sectors ≡ self.old.sectors }
    {
        self.faults = self.faults.saturating_add(1);
        Failed
    }
}

impl Disk for FileDisk {
    ghost use Rattle.std.specs.Prelude.{false, [], ◌≡◌, ⊤};
    ghost use Rattle.disk_file.specs.FileDisk.{unknown};

    ghost known = { false };

    ghost sector_count = { λ disk. disk.sectors };

    ghost fault_count = { λ disk. disk.faults };

    ghost cells = { λ _. [] };

    ghost moment = { λ _. 0 };

    ghost left_since = { λ _ _ _. ⊤ };

    fn sectors(&self) -> u64 {
        self.sectors
    }

    fn faults(&self) -> u64 {
        self.faults
    }

    fn read(&mut self, at: u64, into: &mut Sector) -> Result<(), Failed> {
        let mut run = [*into];
        self.read_run(at, &mut run)?;
        *into = run[0];
        Ok(())
    }

    fn write(&mut self, at: u64, pieces: &[Sector]) -> Result<(), Failed> {
        match write_from(&self.file, at, pieces, &mut self.bytes) {
            Ok(()) => Ok(()),
            Err(_) => Err(self.fault()),
        }
    }

    fn flush(&mut self) -> Result<(), Failed> {
        match self.file.sync_all() {
            Ok(()) => Ok(()),
            Err(_) => Err(self.fault()),
        }
    }

    ghost cells_fit = { λ known. unknown known };

    ghost counts_now = { λ known. unknown known };

    ghost only_now = { λ known. unknown known };

    ghost none_failed = { λ kind disk. tt };

    ghost both_failed = { λ kind first second third one two. tt };
}

impl ReadsRuns for FileDisk {
    fn read_run(&mut self, at: u64, into: &mut [Sector]) -> Result<usize, Failed> {
        let limit = into
            .len()
            .min(RUN_SECTORS)
            .min((self.sectors - at) as usize);
        match read_from(
            &self.file,
            at * u64::from(SECTOR_BYTES),
            limit,
            &mut self.bytes,
        ) {
            Ok(count) => {
                take_sectors(&self.bytes, count, into);
                Ok(count)
            }
            Err(_) => Err(self.fault()),
        }
    }
}
