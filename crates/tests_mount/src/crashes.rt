// Mounts that fail or stop within, crashes behind them, and mounts again.
ghost use Rattle.std.specs.Prelude.{◌≤◌};

use crate::disks::sectors_of;
use crate::orphans::{are_all_frees, are_first_frees, are_freed, with_orphans};
use disk_model::{Disk, FaultDisk, MemoryDisk, StopDisk, Stops};
use life_table::MountRecord;
use mount::{Mounted, NotMounted, mount, unmount};
use std::alloc::Global;
use std::test::Fail;

/// Whether a mount's story is that of these frees: all of them where it came up, the first of them where it did not.
fn tells_all(story: &MountRecord) -> bool {
    are_all_frees(story.entries.as_slice()) && story.freed == 6 && story.kept == 0
}

fn tells_first(begun: &Option<MountRecord>) -> bool {
    match begun {
        None => true,
        Some(story) => {
            are_first_frees(story.entries.as_slice())
                && story.freed == story.entries.as_slice().len() as u64
        }
    }
}

/// Mounts a disk and ends the mount, with no fault. Whether the groups are then those without the orphans; and how many inodes the mount freed.
fn recovered(alloc: Global, disk: MemoryDisk) -> Result<(bool, u64), Fail> {
    let Ok(mounted) = mount(alloc, disk) else {
        return Err("not mounted".into());
    };
    let freed = mounted.story.freed;
    let Ok(mut disk) = unmount(mounted) else {
        return Err("still mounted".into());
    };
    let sectors = sectors_of(alloc, &mut disk)?;
    Ok((are_freed(alloc, &sectors)?, freed))
}

/// A disk that reads as the image with orphans, and its one image.
fn disk_with_orphans(alloc: Global) -> Result<MemoryDisk, Fail> {
    Ok(MemoryDisk::with(alloc, with_orphans(alloc)?)?)
}

#[test]
fn a_mount_frees_each_orphan_and_the_next_none(rt: HostRuntime) -> Result<(), Fail> {
    let alloc = rt.alloc();
    let Ok(mounted) = mount(alloc, disk_with_orphans(alloc)?) else {
        return Err("not mounted".into());
    };
    assert!(rt; tells_all(&mounted.story));
    let Ok(disk) = unmount(mounted) else {
        return Err("still mounted".into());
    };
    assert_eq!(rt; recovered(alloc, disk)?, (true, 0));
    Ok(())
}

/// Mounts a disk that fails at one of its calls, lets it crash, and mounts it again. None where it had no such call.
fn fails_at(alloc: Global, call: u64, choice: u64) -> Result<Option<bool>, Fail> {
    let mut fails = Vec::new(alloc);
    fails.push(call)?;
    let disk = FaultDisk::new(disk_with_orphans(alloc)?, fails);
    match mount(alloc, disk) {
        Ok(_) => Ok(None),
        Err(NotMounted { disk, begun, .. }) => {
            let mut disk = disk.into_inner();
            disk.pick(choice);
            let (right, _) = recovered(alloc, disk)?;
            Ok(Some(right && tells_first(&begun)))
        }
    }
}

/// How many calls of the disk a mount makes: the first that it does not make is the next one.
fn calls_of_a_mount(alloc: Global) -> Result<u64, Fail> {
    let mut low = 0_u64;
    let mut step = 4096_u64;
    for _ in 0..13 {
        let call = low.wrapping_add(step);
        if fails_at(alloc, call, 0)?.is_some() {
            low = call;
        }
        step /= 2;
    }
    Ok(low)
}

#[test]
fn each_call_fails_once(rt: HostRuntime) -> Result<(), Fail> {
    let alloc = rt.alloc();
    let calls = calls_of_a_mount(alloc)?;
    assert!(rt; calls > 100 && calls < 8000);
    for k in 0..calls / 64 {
        assert_eq!(rt; fails_at(alloc, 64 * k + 1, 0)?, Some(true), "call {k}");
    }
    Ok(())
}

#[test]
fn the_last_calls_fail_and_the_disk_crashes(rt: HostRuntime) -> Result<(), Fail> {
    let alloc = rt.alloc();
    let calls = calls_of_a_mount(alloc)?;
    for back in 0..4 {
        for choice in 0..4_u64 {
            let call = calls.saturating_sub(back);
            let choice = choice.wrapping_mul(0x9e37_79b9_7f4a_7c15);
            assert_eq!(rt;
                fails_at(alloc, call, choice)?,
                Some(true),
                "call {call}, choice {choice}"
            );
        }
    }
    Ok(())
}

/// A disk whose log holds the frees, none of them home: its mount was left.
fn left_after_the_frees(alloc: Global, choice: u64) -> Result<MemoryDisk, Fail> {
    let Ok(Mounted { store, .. }) = mount(alloc, disk_with_orphans(alloc)?) else {
        return Err("not mounted".into());
    };
    let mut disk = store.into_disk();
    disk.pick(choice);
    Ok(disk)
}

/// Mounts a disk that stops within a write, after so many of its sectors, and lets it crash. None where the mount came up.
fn stopped(
    alloc: Global,
    disk: MemoryDisk,
    write: u64,
    sectors: u64,
    choice: u64,
) -> Result<Option<MemoryDisk>, Fail>
    requires { 1 ≤ write }
{
    let mut disk = StopDisk::new(disk);
    disk.arm(write, sectors);
    match mount(alloc, disk) {
        Ok(_) => Ok(None),
        Err(NotMounted { mut disk, .. }) => {
            disk.restart();
            let mut disk = disk.inner();
            disk.pick(choice);
            Ok(Some(disk))
        }
    }
}

/// Two mounts stop, each within a write, and a third is whole. None where the first came up.
fn stops_twice(
    alloc: Global,
    first: (u64, u64),
    second: (u64, u64),
    choice: u64,
) -> Result<Option<bool>, Fail>
    requires { (1 ≤ first.0) × (1 ≤ second.0) }
{
    let disk = left_after_the_frees(alloc, choice)?;
    let Some(disk) = stopped(alloc, disk, first.0, first.1, choice)? else {
        return Ok(None);
    };
    match stopped(alloc, disk, second.0, second.1, choice / 3)? {
        None => Ok(Some(true)),
        Some(disk) => {
            let (right, freed) = recovered(alloc, disk)?;
            Ok(Some(right && freed == 0))
        }
    }
}

#[test]
fn two_mounts_stop_within_writes(rt: HostRuntime) -> Result<(), Fail> {
    let alloc = rt.alloc();
    let mut stops = 0_u32;
    for write in 1..16_u64 {
        let choice = write.wrapping_mul(0x9e37_79b9_7f4a_7c15);
        let second = if write % 2 == 0 { (1, 0) } else { (9, 1) };
        if let Some(right) = stops_twice(alloc, (write, write % 2), second, choice)? {
            assert!(rt; right, "write {write}, then {second:?}");
            stops = stops.wrapping_add(1);
        }
    }
    // Of each group the header, the bitmap and the page, the six inodes, and then the anchor.
    assert_eq!(rt; stops, 13);
    Ok(())
}
