use life_bytes::Sector;
use log_image::{Anchor, read_anchor, write_anchor};
use std::test::Fail;

/// The sector of an anchor, in which other bytes stood.
fn anchor_sector(anchor: &Anchor) -> Sector {
    let mut sector = Sector { bytes: [0xaa; 512] };
    write_anchor(anchor, &mut sector);
    sector
}

/// Whether a sector begins with these bytes, and has zero bytes behind them.
fn begins_with(sector: &Sector, front: &[u8; 24]) -> bool {
    let (first, rest) = sector.bytes.split_at(24);
    first == front.as_slice() && rest.iter().all(|b| *b == 0)
}

/// The first of these places at which a changed bit leaves an anchor.
fn first_passed_over(sector: &Sector, places: &[usize]) -> Option<usize> {
    for at in places {
        let mut other = *sector;
        if let Some(byte) = other.bytes.get_mut(*at) {
            *byte ^= 1;
        }
        if read_anchor(&other).is_some() {
            return Some(*at);
        }
    }
    None
}

#[test]
fn anchors_are_encoded_and_read(rt: HostRuntime) -> Result<(), Fail> {
    // The position, the next commit number, and the first bytes with the checksum.
    let rows = [
        (
            256,
            1,
            *b"ANCH\x8a\x2b\xdb\xb8\0\0\0\0\0\0\x01\0\0\0\0\0\0\0\0\x01",
        ),
        (
            840,
            7,
            *b"ANCH\x9f\x5c\x4a\xae\0\0\0\0\0\0\x03\x48\0\0\0\0\0\0\0\x07",
        ),
        (
            1 << 62,
            (1 << 63) + 5,
            *b"ANCH\x87\x8f\x61\xf2\x40\0\0\0\0\0\0\0\x80\0\0\0\0\0\0\x05",
        ),
    ];
    for (position, next_commit, bytes) in rows {
        let anchor = Anchor {
            position,
            next_commit,
        };
        let sector = anchor_sector(&anchor);
        assert!(rt; begins_with(&sector, &bytes), "position {position}");
        assert_eq!(rt; read_anchor(&sector), Some(anchor));
        let passed_over = first_passed_over(&sector, &[0, 4, 8, 23, 24, 511]);
        assert_eq!(rt; passed_over, None, "position {position}");
    }
    Ok(())
}
