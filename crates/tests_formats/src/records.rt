ghost use Rattle.std.specs.Prelude.{◌≡◌, IfOk};
ghost use Rattle.log_record.specs.Encoding.{IsRecord};

use crate::compare::{fill, stand_at};
use life_bytes::Sector;
use life_ports::NoMemory;
use log_record::{
    Commit, Image, ImageList, LogRecord, fill_record, read_record, record_bytes, record_sectors,
    whole_records,
};
use std::alloc::Global;
use std::process::Abort;
use std::test::Fail;

fn image(home: u64, byte: u8) -> Image
    ensures { result.home ≡ home }
{
    Image {
        home,
        sector: Sector { bytes: [byte; 512] },
    }
}

/// A record of three images and two commits at position 14, in need of the positions from 12 on.
fn sample(alloc: Global) -> Result<LogRecord, NoMemory>
    ensures { IfOk result IsRecord }
{
    let mut images = ImageList::new(alloc);
    images.push(image(16, 0xa1))?;
    images.push(image(17, 0xb2))?;
    images.push(image(40, 0xc3))?;
    Ok(LogRecord {
        position: 14,
        tail: 12,
        first: 7,
        commits: 2,
        images,
    })
}

#[test]
fn sizes_of_records(rt: HostRuntime) {
    for (images, sectors) in [(0, 1), (3, 4), (4, 5), (67, 71), (128, 135)] {
        assert_eq!(rt; record_sectors(images), sectors, "{images} images");
    }
}

#[test]
fn the_numbers_of_a_record_are_encoded(rt: HostRuntime) -> Result<(), Fail> {
    let sectors = record_bytes(rt.alloc(), &sample(rt.alloc())?)?;
    assert_eq!(rt; sectors.len(), 4);
    stand_at(
        &rt,
        &sectors[0].bytes,
        &[
            (0, &[0, 0, 0, 0, 0, 0, 0, 14]),
            (8, &[0, 0, 0, 0, 0, 0, 0, 14]),
            (16, &[0, 0, 0, 0, 0, 0, 0, 12]),
            (24, &[0, 0, 0, 0, 0, 0, 0, 7]),
            (32, &[0, 0, 0, 2, 0, 0, 0, 3]),
            (40, &[0, 0, 0, 4, 0, 0, 0, 0]),
            (48, &[0, 0, 0, 0, 0, 0, 0, 16]),
        ],
    );
    Ok(())
}

#[test]
fn the_images_of_a_record_are_encoded(rt: HostRuntime) -> Result<(), Fail> {
    let sectors = record_bytes(rt.alloc(), &sample(rt.alloc())?)?;
    let [first, second, third, fourth] = sectors.as_slice() else {
        return Err("not four sectors".into());
    };
    fill(&rt, &first.bytes, &[(56, 512, 0xa1)]);
    fill(
        &rt,
        &second.bytes,
        &[(16, 72, 0xa1), (72, 79, 0), (79, 80, 17), (80, 512, 0xb2)],
    );
    fill(
        &rt,
        &third.bytes,
        &[
            (7, 8, 16),
            (15, 16, 14),
            (16, 96, 0xb2),
            (103, 104, 40),
            (104, 512, 0xc3),
        ],
    );
    fill(&rt, &fourth.bytes, &[(16, 120, 0xc3), (120, 512, 0)]);
    Ok(())
}

/// A ring of 8 sectors with these from position 14 on.
fn ring_with(sectors: &[Sector]) -> [Sector; 8] {
    let mut ring = [Sector::zero(); 8];
    for (place, sector) in sectors.iter().enumerate() {
        ring[(14 + place % 8) % 8] = *sector;
    }
    ring
}

#[test]
fn a_record_is_read_round_the_end_of_the_ring(rt: HostRuntime) -> Result<(), Fail> {
    let item = sample(rt.alloc())?;
    let ring = ring_with(&record_bytes(rt.alloc(), &item)?);
    let found = read_record(rt.alloc(), &ring, 14)?.ok_or("none")?;
    assert_eq!(rt;
        (found.position, found.tail, found.first, found.commits),
        (14, 12, 7, 2)
    );
    assert_eq!(rt; found.images.as_slice(), item.images.as_slice());
    Ok(())
}

#[test]
fn no_record_stands_at_other_positions(rt: HostRuntime) -> Result<(), Fail> {
    let ring = ring_with(&record_bytes(rt.alloc(), &sample(rt.alloc())?)?);
    for position in [6, u64::MAX] {
        assert!(rt;
            read_record(rt.alloc(), &ring, position)?.is_none(),
            "{position}"
        );
    }
    assert!(rt; read_record(rt.alloc(), &[], 14)?.is_none());
    Ok(())
}

#[test]
fn a_torn_record_is_none(rt: HostRuntime) -> Result<(), Fail> {
    let sectors = record_bytes(rt.alloc(), &sample(rt.alloc())?)?;
    assert_eq!(rt; sectors.len(), 4);
    for count in 0..5 {
        let found = read_record(rt.alloc(), &ring_with(&sectors[..count]), 14)?;
        assert_eq!(rt; found.is_some(), count == 4, "{count} sectors");
    }
    Ok(())
}

/// The record is whole, or none, where a byte of the ring is another: its place in the ring, the byte in the sector, and what it is to be.
fn are_whole(
    rt: &impl Abort,
    alloc: Global,
    ring: &[Sector; 8],
    rows: &[(usize, usize, u8, bool)],
) -> Result<(), Fail> {
    for (place, at, byte, whole) in rows {
        assert!(rt; *place < 8 && *at < 512);
        let mut other = *ring;
        other[*place].bytes[*at] = *byte;
        let found = read_record(alloc, &other, 14)?;
        assert_eq!(rt; found.is_some(), *whole, "place {place} byte {at}");
    }
    Ok(())
}

#[test]
fn a_record_with_another_byte_is_none(rt: HostRuntime) -> Result<(), Fail> {
    let ring = ring_with(&record_bytes(rt.alloc(), &sample(rt.alloc())?)?);
    are_whole(
        &rt,
        rt.alloc(),
        &ring,
        &[
            (6, 23, 10, true), // the lowest tail that has room
            (6, 23, 9, false), // a tail that has none
            (6, 23, 14, true), // the highest tail
            (6, 23, 15, false), // a tail above the position
            (6, 39, 129, false), // too many images
            (6, 43, 5, false), // more sectors than the images take
            (6, 47, 1, false), // behind the number of sectors
            (7, 79, 16, false), // a home twice
            (7, 79, 40, false), // homes that do not ascend
            (7, 79, 39, true), // another home
            (0, 7, 15, false), // a sector of another position
            (0, 15, 13, false), // a sector of another record
            (1, 120, 1, false), // behind the images
            (1, 511, 1, false), // the last byte
        ],
    )
}

#[test]
fn a_record_without_images_is_one_sector(rt: HostRuntime) -> Result<(), Fail> {
    let item = LogRecord {
        position: 583,
        tail: 583,
        first: 3,
        commits: 0,
        images: ImageList::new(rt.alloc()),
    };
    let mut ring = [Sector::zero(); 256];
    fill_record(&item, &mut ring[71..72]);
    let found = read_record(rt.alloc(), &ring, 583)?.ok_or("none")?;
    assert_eq!(rt; (found.tail, found.first, found.commits), (583, 3, 0));
    assert!(rt; found.images.is_empty());
    whole_records();
    Ok(())
}

#[test]
fn a_list_is_made_from_a_vector_and_gives_it_back(rt: HostRuntime) -> Result<(), Fail> {
    let images = ImageList::from(vec![in rt.alloc(); image(16, 1), image(17, 2)]?);
    let commit = Commit { group: 0, images };
    assert_eq!(rt; commit.images.len(), 2);
    let Commit { group, images } = commit;
    assert_eq!(rt; group, 0);
    assert_eq!(rt;
        images.into_vec().as_slice(),
        [image(16, 1), image(17, 2)].as_slice()
    );
    Ok(())
}
