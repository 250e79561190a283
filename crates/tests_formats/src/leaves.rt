use inobt_leaf::{
    ChunkRec, LEAF_CRC_AT, LEAF_RECORDS_AT, Leaf, LeafFault, PageFault, masks_change_by_one_bit,
    pages_tell_leaves, read_page, write_empty_page, write_page,
};
use life_bytes::Sector;
use std::test::Fail;

const UUID: [u8; 16] = [0, 1, 2, 3, 4, 5, 6, 7, 8, 9, 10, 11, 12, 13, 14, 15];

/// The front of the leaf in block 2 of group 0, whose one chunk has its first inode in use. The rest of the page is
/// zero.
const FIRST_FILE: [u8; 72] = [
    0x49, 0x41, 0x42, 0x33, 0x00, 0x00, 0x00, 0x01, 0xff, 0xff, 0xff, 0xff, 0xff, 0xff, 0xff, 0xff,
    0x00, 0x00, 0x00, 0x00, 0x00, 0x00, 0x00, 0x10, 0x00, 0x00, 0x00, 0x00, 0x00, 0x00, 0x00, 0x00,
    0x00, 0x01, 0x02, 0x03, 0x04, 0x05, 0x06, 0x07, 0x08, 0x09, 0x0a, 0x0b, 0x0c, 0x0d, 0x0e, 0x0f,
    0x00, 0x00, 0x00, 0x00, 0xbc, 0x7a, 0x9a, 0x56, 0x00, 0x00, 0x00, 0xc0, 0x00, 0x00, 0x00, 0x3f,
    0xff, 0xff, 0xff, 0xff, 0xff, 0xff, 0xff, 0xfe,
];

fn first_file() -> [Sector; 8] {
    let mut page = [Sector::zero(); 8];
    for (place, byte) in FIRST_FILE.iter().enumerate() {
        page[0].bytes[place] = *byte;
    }
    page
}

#[test]
fn first_file_page(rt: HostRuntime) -> Result<(), Fail> {
    let page = first_file();
    let read = read_page(rt.alloc(), &page, 2, 0, 16, &UUID);
    let Ok(leaf) = read else {
        panic!(rt; "not read")
    };
    let chunk = ChunkRec {
        start: 192,
        free: 63,
        mask: 0xffff_ffff_ffff_fffe,
    };
    assert_eq!(rt; leaf.chunks(), [chunk].as_slice());
    for (agino, found) in [
        (191, None),
        (192, Some(chunk)),
        (255, Some(chunk)),
        (256, None),
    ] {
        assert_eq!(rt; leaf.find(agino), found, "{agino}");
    }
    let mut written = [Sector { bytes: [7; 512] }; 8];
    write_page(&leaf, 2, 0, 16, &UUID, &mut written);
    for (place, sector) in written.iter().enumerate() {
        assert_eq!(rt; *sector, page[place], "sector {place}");
    }
    Ok(())
}

#[test]
fn empty_page(rt: HostRuntime) -> Result<(), Fail> {
    let mut page = [Sector { bytes: [7; 512] }; 8];
    write_empty_page(1, 528, &UUID, &mut page);
    let Ok(leaf) = read_page(rt.alloc(), &page, 2, 1, 528, &UUID) else {
        panic!(rt; "not read")
    };
    assert_eq!(rt; leaf.chunks().len(), 0);
    Ok(())
}

#[test]
fn one_bit_spoils_a_page(rt: HostRuntime) -> Result<(), Fail> {
    for (sector, byte) in [
        (0, 0),
        (0, 5),
        (0, 7),
        (0, 11),
        (0, 15),
        (0, 23),
        (0, 31),
        (0, 47),
        (0, 51),
        (0, LEAF_CRC_AT),
        (0, LEAF_RECORDS_AT + 3),
        (0, LEAF_RECORDS_AT + 7),
        (0, LEAF_RECORDS_AT + 15),
        (0, LEAF_RECORDS_AT + 16),
        (7, 511),
    ] {
        assert!(rt; sector < 8 && byte < 512);
        let mut page = first_file();
        page[sector].bytes[byte] ^= 1;
        let read = read_page(rt.alloc(), &page, 2, 0, 16, &UUID);
        assert!(rt;
            matches!(read, Err(PageFault::Malformed)),
            "byte {byte} of sector {sector}"
        );
    }
    for (group, at) in [(1, 16), (0, 24)] {
        let read = read_page(rt.alloc(), &first_file(), 2, group, at, &UUID);
        assert!(rt;
            matches!(read, Err(PageFault::Malformed)),
            "group {group} at {at}"
        );
    }
    Ok(())
}

#[test]
fn a_leaf_fills_up(rt: HostRuntime) -> Result<(), Fail> {
    let mut leaf = Leaf::new(rt.alloc());
    // from the last on, so that each goes to the front
    for place in 0..252_u32 {
        let start = 64 * (251 - place);
        assert!(rt; leaf.find(start).is_none());
        assert_eq!(rt; leaf.add(start), Ok(()), "{start}");
    }
    assert_eq!(rt; leaf.chunks().len(), 252);
    assert!(rt; leaf.find(64 * 252).is_none());
    assert_eq!(rt; leaf.add(64 * 252), Err(LeafFault::LeafFull));
    assert!(rt; matches!(leaf.find(130), Some(chunk) if chunk.start == 128 && chunk.free == 64));
    Ok(())
}

#[test]
fn an_inode_is_taken_and_given(rt: HostRuntime) -> Result<(), Fail> {
    let mut leaf = Leaf::new(rt.alloc());
    assert!(rt; leaf.find(192).is_none());
    assert_eq!(rt; leaf.add(192), Ok(()));
    let Some(chunk) = leaf.find(193) else {
        panic!(rt; "no chunk")
    };
    assert!(rt; chunk.start <= 193);
    assert!(rt; (chunk.mask >> (193 - chunk.start)) & 1 == 1);
    leaf.take(193);
    let Some(chunk) = leaf.find(193) else {
        panic!(rt; "no chunk")
    };
    assert_eq!(rt; chunk.free, 63);
    assert_eq!(rt; chunk.mask, 0xffff_ffff_ffff_fffd);
    assert!(rt; chunk.start <= 193);
    assert!(rt; (chunk.mask >> (193 - chunk.start)) & 1 == 0);
    leaf.give(193);
    assert_eq!(rt;
        leaf.find(193).map(|chunk| (chunk.free, chunk.mask)),
        Some((64, u64::MAX))
    );
    masks_change_by_one_bit();
    pages_tell_leaves();
    Ok(())
}

/// The chunk that holds an inode, looked for chunk by chunk.
fn plain_find(chunks: &[ChunkRec], agino: u32) -> Option<ChunkRec> {
    for chunk in chunks {
        if chunk.start / 64 == agino / 64 {
            return Some(*chunk);
        }
    }
    None
}

#[test]
fn find_agrees_with_a_look_at_each_chunk(rt: HostRuntime) {
    let mut leaf = Leaf::new(rt.alloc());
    for place in [9_u32, 0, 3, 12, 4, 7, 1] {
        let start = 64 * place;
        assert!(rt; leaf.find(start).is_none());
        assert_eq!(rt; leaf.add(start), Ok(()), "{start}");
        for agino in 0..900 {
            let found = plain_find(leaf.chunks(), agino);
            assert_eq!(rt; leaf.find(agino), found, "{agino} with {start}");
        }
    }
}
