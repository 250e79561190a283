// Stores over disks in memory, with 512 sectors of groups and a ring of 256: what a test begins with, and jobs that succeed.
ghost use Rattle.std.specs.Prelude.{◌≡◌, ◌≤◌, ◌+◌, IsTrue, IfOk, OnErr, OnOk, [], false, replicate, slice_set, length, true};
ghost use Rattle.std.specs.List.{All};
ghost use Rattle.std.specs.List.Sorted.{IsStrictlyIncreasing};
ghost use Rattle.life_bytes.specs.Sectors.{zero_sector};
ghost use Rattle.disk_model.specs.Disk.{settled_as};
ghost use Rattle.disk_model.specs.MemoryDisk.{cells_of, fresh};
ghost use Rattle.disk_model.specs.FaultDisk.{inner_of};
ghost use Rattle.log_image.specs.Anchor.{anchor_sector};
ghost use Rattle.log_image.specs.Log.{IsGroupImage};
ghost use Rattle.log_image.specs.Overlay.{homes};
ghost use Rattle.log_batch.specs.Newest.{IsCommit};
ghost use Rattle.log_store.specs.declared.store.Job.TheVariants.{Idle};
ghost use Rattle.log_store.specs.Steps.{IsStore};
ghost use Rattle.tests_log.specs.Stores.{IsReady, IsSet};

use disk_model::{Disk, FaultDisk, MemoryDisk};
use life_bytes::Sector;
use life_ports::NoMemory;
use log_image::{Anchor, logs, write_anchor};
use log_record::{Commit, Image, ImageList, read_record};
use log_store::{Progress, Store, StoreFault, begin_store};
use std::alloc::Global;
use std::test::Fail;

/// More commits than any test takes.
const MANY: u64 = 1_000_000;

/// The anchor of a log that begins at this position with commit 1.
fn first_anchor(position: u64) -> Sector
    ensures { result ≡ anchor_sector position 1 }
{
    let anchor = Anchor {
        position,
        next_commit: 1,
    };
    let mut sector = Sector::zero();
    write_anchor(&anchor, &mut sector);
    sector
}

/// A disk with so many sectors of groups, the anchor of an empty log, and so many sectors of its ring.
fn empty_disk(alloc: Global, groups: u32, ring: u32) -> Result<MemoryDisk, NoMemory>
    ensures { IfOk result (λ disk. disk ≡ fresh (slice_set (replicate (groups + 1 + ring) zero_sector) groups (anchor_sector ring 1))) }
{
    let count = groups as usize + 1 + ring as usize;
    let mut image = vec![in alloc; Sector::zero(); count]?;
    image[groups as usize] = first_anchor(ring as u64);
    MemoryDisk::with(alloc, image)
}

/// A store over such a disk.
fn store_on<D: Disk>(alloc: Global, disk: D, groups: u32, ring: u32) -> Result<Store<D>, NoMemory>
    requires least { 256 ≤ ring }
    requires most { ring ≤ 65536 }
    requires groups { groups ≡ 512 }
    requires size { D.sector_count disk ≡ groups + 1 + ring }
    requires cells { IsTrue D.known → D.cells disk ≡ settled_as (slice_set (replicate (groups + 1 + ring) zero_sector) groups (anchor_sector ring 1)) }
    ensures { IfOk result (IsReady D.known D.cells D.sector_count) }
{
    logs();
    match begin_store(alloc, disk, groups as u64, ring, ring as u64, 1) {
        Ok(store) => Ok(store),
        Err((_, fault)) => Err(fault),
    }
}

/// A store over a disk in memory.
pub(crate) fn empty_store(alloc: Global) -> Result<Store<MemoryDisk>, NoMemory>
    ensures { IfOk result (IsReady true cells_of (λ disk. length (cells_of disk))) }
{
    let (groups, ring) = (512, 256);
    store_on(alloc, empty_disk(alloc, groups, ring)?, groups, ring)
}

/// A store over such a disk, of which one device call fails.
pub(crate) fn failing_store(
    alloc: Global,
    call: u64,
) -> Result<Store<FaultDisk<MemoryDisk>>, NoMemory>
    ensures { IfOk result (IsReady true (λ disk. cells_of (inner_of disk)) (λ disk. length (cells_of (inner_of disk)))) }
{
    let (groups, ring) = (512, 256);
    let fails = vec![in alloc; call]?;
    let disk = FaultDisk::new(empty_disk(alloc, groups, ring)?, fails);
    store_on(alloc, disk, groups, ring)
}

/// A commit of sectors one after the other, each filled with a byte.
pub(crate) fn commit(alloc: Global, first: u64, count: u64, byte: u8) -> Result<Commit, NoMemory> {
    let mut images = ImageList::new(alloc);
    for i in 0..count {
        images.push(Image {
            home: first.saturating_add(i),
            sector: Sector { bytes: [byte; 512] },
        })?;
    }
    Ok(Commit { group: 0, images })
}

/// Whether the homes ascend.
fn ascends(images: &[Image]) -> bool
    ensures { IsTrue result → IsStrictlyIncreasing (homes images.now) }
{
    for i in 1..images.len() {
        if images[i - 1].home >= images[i].home {
            return false;
        }
    }
    true
}

/// Whether a store may take a commit of these images.
fn may_be_taken(commit: &Commit) -> bool
    ensures commit { IsTrue result → IsCommit commit.now }
    ensures groups { IsTrue result → All (IsGroupImage 512) commit.now.images }
{
    let images = commit.images.as_slice();
    images.len() <= 128
        && ascends(images)
        && images
            .iter()
            .all(|image| 0 < image.home && image.home < 512)
}

/// Has a store take a commit.
pub(crate) fn take<D: Disk>(store: &mut Store<D>, commit: Commit) -> Result<(), Fail>
    requires { IsSet D.known D.cells D.sector_count store.old }
    ensures set { IsSet D.known D.cells D.sector_count store.new }
    ensures job { store.new.job ≡ store.old.job }
{
    if !may_be_taken(&commit) || store.next_commit() > MANY {
        return Err("no commit".into());
    }
    store.reserve(1, commit.images.len() as u32)?;
    store.take(commit);
    Ok(())
}

/// Forces a store.
pub(crate) fn force<D: Disk>(store: &mut Store<D>) -> Result<u64, StoreFault>
    requires { IsReady D.known D.cells D.sector_count store.old }
    ensures { IsReady D.known D.cells D.sector_count store.new }
{
    store.force()
}

/// Writes the sectors of a store home.
pub(crate) fn write_back<D: Disk>(store: &mut Store<D>) -> Result<(), StoreFault>
    requires { IsReady D.known D.cells D.sector_count store.old }
    ensures ready { IsReady D.known D.cells D.sector_count store.new }
    ensures home { OnOk result (store.new.dirty.images ≡ []) }
    ensures flushed { OnOk result (store.new.unflushed ≡ false) }
{
    store.write_back()
}

/// One step of a store's job, and whether it ended with that.
pub(crate) fn step<D: Disk>(store: &mut Store<D>) -> Result<bool, StoreFault>
    requires { IsSet D.known D.cells D.sector_count store.old }
    ensures set { IsSet D.known D.cells D.sector_count store.new }
    ensures ended { IfOk result (λ ended. IsTrue ended → store.new.job ≡ Idle) }
    ensures failed { OnErr result (store.new.job ≡ Idle) }
{
    match store.advance() {
        Ok(Progress::More) => Ok(false),
        Ok(Progress::Ended) => Ok(true),
        Err(fault) => Err(fault),
    }
}

/// Goes on with a store's job to its end.
pub(crate) fn finish<D: Disk>(store: &mut Store<D>) -> Result<Result<(), StoreFault>, Fail>
    requires { IsSet D.known D.cells D.sector_count store.old }
    ensures { IfOk result (λ _. IsReady D.known D.cells D.sector_count store.new) }
{
    for used in 0..1000 {
        match step(store) {
            Ok(false) => {}
            Ok(true) => return Ok(Ok(())),
            Err(fault) => return Ok(Err(fault)),
        }
    }
    Err("more than a thousand steps".into())
}

/// The sectors of a disk as it reads.
pub(crate) fn sectors_of(alloc: Global, disk: &MemoryDisk) -> Result<Vec<Sector>, NoMemory> {
    let mut sectors = Vec::new(alloc);
    for at in 0..disk.sectors() {
        sectors.push(disk.sector(at))?;
    }
    Ok(sectors)
}

/// What a record says of itself.
#[derive(Clone, Copy, Debug, PartialEq, Eq)]
struct Said {
    position: u64,
    tail: u64,
    first: u64,
    commits: u32,
    images: usize,
}

/// What the last record of a disk says, from position 256 on.
fn last_record(alloc: Global, disk: &MemoryDisk) -> Result<Option<Said>, Fail> {
    let image = sectors_of(alloc, disk)?;
    let ring = image.get(513..769).ok_or("no ring")?;
    let mut last = None;
    for position in 256..4096u64 {
        if let Some(item) = read_record(alloc, ring, position)? {
            last = Some(Said {
                position,
                tail: item.tail,
                first: item.first,
                commits: item.commits,
                images: item.images.len(),
            });
        }
    }
    Ok(last)
}

#[test]
fn a_thousand_forces_go_round_the_ring(rt: HostRuntime) -> Result<(), Fail> {
    let mut store = empty_store(rt.alloc())?;
    for i in 0..1000u64 {
        take(
            &mut store,
            commit(rt.alloc(), 1 + i % 500, 1, (i % 251) as u8)?,
        )?;
        assert_eq!(rt; force(&mut store), Ok(i + 1), "commit {i}");
    }
    assert_eq!(rt; store.durable(), 1000);
    let last = last_record(rt.alloc(), &store.into_disk())?.ok_or("no record")?;
    assert!(rt; last.position > 2254);
    assert_eq!(rt; (last.first, last.commits, last.images), (1000, 1, 1));
    Ok(())
}

#[test]
fn a_commit_may_be_taken_during_a_job(rt: HostRuntime) -> Result<(), Fail> {
    let alloc = rt.alloc();
    let mut store = empty_store(alloc)?;
    take(&mut store, commit(alloc, 1, 1, 1)?)?;
    // A force makes what is taken in it durable too.
    store.begin_force();
    assert_eq!(rt; step(&mut store), Ok(false));
    take(&mut store, commit(alloc, 2, 1, 2)?)?;
    assert_eq!(rt; finish(&mut store)?, Ok(()));
    assert_eq!(rt;
        (store.durable(), store.pending(), store.dirty()),
        (2, false, true)
    );
    // A home job leaves it to the next force.
    store.begin_home();
    assert_eq!(rt; step(&mut store), Ok(false));
    take(&mut store, commit(alloc, 1, 1, 3)?)?;
    assert_eq!(rt; finish(&mut store)?, Ok(()));
    assert_eq!(rt;
        (store.durable(), store.pending(), store.dirty()),
        (2, true, false)
    );
    assert_eq!(rt; force(&mut store), Ok(3));
    // Two records of two sectors each from 256 on, the cover at 260, and the third record.
    let last = Said {
        position: 261,
        tail: 260,
        first: 3,
        commits: 1,
        images: 1,
    };
    assert_eq!(rt; last_record(alloc, &store.into_disk())?, Some(last));
    Ok(())
}

#[test]
fn a_cover_stands_alone(rt: HostRuntime) -> Result<(), Fail> {
    let alloc = rt.alloc();
    let mut store = empty_store(alloc)?;
    take(&mut store, commit(alloc, 1, 3, 1)?)?;
    assert_eq!(rt; force(&mut store), Ok(1));
    let Ok(()) = write_back(&mut store) else {
        return Err("not written back".into());
    };
    assert_eq!(rt; store.cover(), Ok(()));
    assert!(rt; !store.dirty());
    // A record of four sectors from 256 on, and the cover.
    let last = Said {
        position: 260,
        tail: 260,
        first: 2,
        commits: 0,
        images: 0,
    };
    assert_eq!(rt; last_record(alloc, &store.into_disk())?, Some(last));
    Ok(())
}
