ghost use Rattle.std.specs.Prelude.{◌≡◌, ◌<◌, ◌≤◌, IsTrue, IfOk};
ghost use Rattle.disk_model.specs.View.{OnlyRead};

use disk_model::{
    Blank, Disk, DiskView, FaultDisk, Images, MemoryDisk, MemoryImages, StopDisk, Stops, View,
};
use life_bytes::Sector;
use life_ports::{Failed, NoMemory, Refused};
use std::alloc::Global;
use std::test::Fail;

// A sector that is known from others by its first byte.
fn marked(mark: u8) -> Sector {
    let mut sector = Sector::zero();
    sector.bytes[0] = mark;
    sector
}

fn blank_disk<D: Blank>(alloc: Global) -> Result<D, NoMemory>
    ensures { IfOk result (λ disk. D.sector_count disk ≡ 4) }
{
    D::blank(alloc, 4)
}

// Writes the sectors 1 and 2, flushes, and reads the sector 2. Gives the three answers, the mark that was
// read, and the count of faults.
fn write_flush_read<D: Disk>(disk: &mut D) -> ([Result<(), Failed>; 3], u8, u64)
    requires { 4 ≤ D.sector_count disk.old }
    ensures { D.sector_count disk.new ≡ D.sector_count disk.old }
{
    let mut sector = marked(9);
    let written = disk.write(1, &[marked(5), marked(6)]);
    let flushed = disk.flush();
    let read = disk.read(2, &mut sector);
    ([written, flushed, read], sector.bytes[0], disk.faults())
}

#[test]
fn what_was_written_is_read(rt: HostRuntime) -> Result<(), Fail> {
    let mut disk: MemoryDisk = blank_disk(rt.alloc())?;
    let before = disk.sectors();
    let seen = write_flush_read(&mut disk);
    assert_eq!(rt; seen, ([Ok(()); 3], 6, 0));
    assert_eq!(rt; (before, disk.sectors()), (4, 4));
    assert_eq!(rt;
        [disk.sector(0), disk.sector(1)],
        [Sector::zero(), marked(5)]
    );
    Ok(())
}

#[test]
fn a_disk_fails_as_planned(rt: HostRuntime) -> Result<(), Fail> {
    let alloc = rt.alloc();
    for (call, answers, mark) in [
        (1, [Err(Failed), Ok(()), Ok(())], 0),
        (2, [Ok(()), Err(Failed), Ok(())], 6),
        (3, [Ok(()), Ok(()), Err(Failed)], 9),
    ] {
        let inner: MemoryDisk = blank_disk(alloc)?;
        let mut disk = FaultDisk::new(inner, vec![in alloc; call]?);
        assert_eq!(rt;
            write_flush_read(&mut disk),
            (answers, mark, 1),
            "at {call}"
        );
        assert_eq!(rt; disk.into_inner().faults(), 0);
    }
    let mut disk: FaultDisk<MemoryDisk> = blank_disk(alloc)?;
    assert_eq!(rt; write_flush_read(&mut disk), ([Ok(()); 3], 6, 0));
    Ok(())
}

// Reads a sector of a view. Gives the answer, the mark that was read, and the count of faults.
fn look<V: View>(view: &mut V, at: u64) -> (Result<(), Failed>, u8, u64)
    requires { at < V.sector_count view.old }
    ensures { V.only_read view.old view.new }
{
    let mut sector = marked(9);
    let read = view.read(at, &mut sector);
    (read, sector.bytes[0], view.faults())
}

// The same of a disk that is lent, from its last sector down to the one before.
fn look_twice<D: Disk>(disk: &mut D) -> [(Result<(), Failed>, u8, u64); 2]
    requires { 2 ≤ D.sector_count disk.old }
    ensures { OnlyRead D.known D.cells D.sector_count D.fault_count D.arming D.moment D.left_since
        disk.old disk.new }
{
    let mut view = DiskView::new(disk);
    let sectors = view.sectors();
    [look(&mut view, sectors - 1), look(&mut view, sectors - 2)]
}

#[test]
fn a_disk_is_read_where_it_is_lent(rt: HostRuntime) -> Result<(), Fail> {
    let alloc = rt.alloc();
    let mut inner = MemoryDisk::new(alloc, 3)?;
    inner.write(1, &[marked(5), marked(6)])?;
    let mut disk = FaultDisk::new(inner, vec![in alloc; 2]?);
    assert_eq!(rt;
        look_twice(&mut disk),
        [(Ok(()), 6, 0), (Err(Failed), 9, 1)]
    );
    assert_eq!(rt; look_twice(&mut disk), [(Ok(()), 6, 1), (Ok(()), 5, 1)]);
    Ok(())
}

// The marks of the sectors 1 and 2.
fn marks<D: Disk>(disk: &mut D) -> [u8; 2]
    requires { 4 ≤ D.sector_count disk.old }
    ensures { D.sector_count disk.new ≡ D.sector_count disk.old }
{
    let mut sectors = [marked(9); 2];
    let _ = disk.read(1, &mut sectors[0]);
    let _ = disk.read(2, &mut sectors[1]);
    [sectors[0].bytes[0], sectors[1].bytes[0]]
}

// Arms a stop, writes the sectors 1 and 2, flushes, writes them again, and reads. Gives the four answers,
// whether the disk has stopped, and the count of faults.
fn write_until<D: Stops>(
    disk: &mut D,
    writes: u64,
    sectors: u64,
) -> ([Result<(), Failed>; 4], bool, u64)
    requires some { 1 ≤ writes }
    requires four { 4 ≤ D.sector_count disk.old }
    ensures { D.sector_count disk.new ≡ D.sector_count disk.old }
{
    let mut sector = Sector::zero();
    disk.arm(writes, sectors);
    let answers = [
        disk.write(1, &[marked(5), marked(6)]),
        disk.flush(),
        disk.write(1, &[marked(7), marked(8)]),
        disk.read(1, &mut sector),
    ];
    (answers, disk.stopped(), disk.faults())
}

// What became of a disk of four sectors that was stopped: the answers and the count of faults, then the marks that are
// left and that count after a restart, and whether it went on, over a disk that never failed.
type Stopped = (([Result<(), Failed>; 4], bool, u64), [u8; 2], u64, bool);

fn stopped_at(alloc: Global, writes: u64, sectors: u64) -> Result<Stopped, NoMemory>
    requires { 1 ≤ writes }
{
    let inner: MemoryDisk = blank_disk(alloc)?;
    let mut disk = StopDisk::new(inner);
    let four = disk.sectors() == 4;
    let seen = write_until(&mut disk, writes, sectors);
    disk.restart();
    let goes_on = four && !disk.stopped();
    let left = marks(&mut disk);
    let faults = disk.faults();
    Ok((seen, left, faults, goes_on && disk.inner().faults() == 0))
}

#[test]
fn a_disk_stops_within_a_write(rt: HostRuntime) -> Result<(), Fail> {
    let goes_on = Ok(());
    let fails = Err(Failed);
    for (writes, sectors, answers, faults, left) in [
        (1, 0, [fails; 4], 4, [0, 0]),
        (1, 1, [fails; 4], 4, [5, 0]),
        (1, 70, [fails; 4], 4, [5, 6]),
        (2, 0, [goes_on, goes_on, fails, fails], 2, [5, 6]),
        (2, 1, [goes_on, goes_on, fails, fails], 2, [7, 6]),
        (2, 2, [goes_on, goes_on, fails, fails], 2, [7, 8]),
        (3, 0, [goes_on; 4], 0, [7, 8]),
    ] {
        let seen = stopped_at(rt.alloc(), writes, sectors)?;
        let wanted = ((answers, faults > 0, faults), left, faults, true);
        assert_eq!(rt; seen, wanted, "at {writes} {sectors}");
    }
    Ok(())
}

// What a stop with this choice leaves of two sectors, of which the second was written twice since the flush.
fn left_by(alloc: Global, choice: u64) -> Result<[Sector; 2], Fail> {
    let mut disk = MemoryDisk::with(alloc, vec![in alloc; marked(0), marked(0)]?)?;
    disk.write(0, &[marked(1), marked(2)])?;
    disk.flush()?;
    disk.write(0, &[marked(11), marked(12)])?;
    disk.write(1, &[marked(22)])?;
    disk.pick(choice);
    if disk.faults() > 0 {
        return Err("a fault".into());
    }
    Ok([disk.sector(0), disk.sector(1)])
}

#[test]
fn a_stop_leaves_each_choice(rt: HostRuntime) -> Result<(), Fail> {
    for (choice, left) in [
        (0, [1, 2]),
        (1, [11, 2]),
        (2, [1, 12]),
        (3, [11, 12]),
        (4, [1, 22]),
        (5, [11, 22]),
        (6, [1, 2]),
        (u64::MAX, [11, 12]),
    ] {
        let seen = left_by(rt.alloc(), choice)?;
        let wanted = [marked(left[0]), marked(left[1])];
        assert_eq!(rt; seen, wanted, "choice {choice}");
    }
    Ok(())
}

// What an attach and a create answer, where they answer a disk by its number of sectors.
fn attach_to<I: Images>(images: &mut I, path: &str) -> Result<u64, Refused> {
    Ok(images.attach(path)?.sectors())
}

fn create_at<I: Images>(images: &mut I, path: &str) -> Result<u64, Refused> {
    Ok(images.create(path, 3)?.sectors())
}

#[test]
fn disks_stand_at_paths(rt: HostRuntime) -> Result<(), Fail> {
    let alloc = rt.alloc();
    let mut images = MemoryImages::new(alloc, vec![in alloc; 4, 7]?);
    for (path, sectors) in [("one", 1), ("two", 2)] {
        assert!(rt; !images.is_listed(path));
        let disk: FaultDisk<MemoryDisk> = FaultDisk::blank(alloc, sectors)?;
        let added = images.add(path, disk);
        assert!(rt; added.is_ok());
    }
    assert!(rt; images.is_listed("two"));
    assert_eq!(rt; attach_to(&mut images, "two"), Ok(2));
    assert_eq!(rt; attach_to(&mut images, "two"), Err(Refused::Failed));
    assert_eq!(rt; create_at(&mut images, "one"), Err(Refused::Failed));
    assert_eq!(rt;
        create_at(&mut images, "three"),
        Err(Refused::Failed),
        "call 4"
    );
    assert_eq!(rt; create_at(&mut images, "three"), Ok(3));
    assert_eq!(rt; attach_to(&mut images, "three"), Err(Refused::Failed));
    assert_eq!(rt;
        attach_to(&mut images, "one"),
        Err(Refused::Failed),
        "call 7"
    );
    assert_eq!(rt; attach_to(&mut images, "one"), Ok(1));
    assert_eq!(rt; images.faults(), 5);
    Ok(())
}
