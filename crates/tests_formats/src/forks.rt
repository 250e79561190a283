use crate::compare::{fill, stand_at};
use extent_fork::{Extent, ForkFault, fill_runs, read_fork, runs_of, write_fork};
use inode_core::FORK_AT;
use life_bytes::Sector;
use std::alloc::Global;
use std::process::Abort;
use std::test::Fail;

const RUN: Extent = Extent {
    start: 32,
    count: 3,
};

/// The runs of blocks 52, 53 and 32.
const RUNS: [Extent; 2] = [
    Extent {
        start: 52,
        count: 2,
    },
    Extent {
        start: 32,
        count: 1,
    },
];

#[test]
fn blocks_become_runs(rt: HostRuntime) -> Result<(), Fail> {
    let runs = runs_of(rt.alloc(), &[52, 53, 32])?;
    assert_eq!(rt; runs.as_slice(), RUNS.as_slice());
    assert_eq!(rt; runs_of(rt.alloc(), &[])?.len(), 0);
    Ok(())
}

#[test]
fn runs_are_filled_in_where_there_is_room(rt: HostRuntime) {
    let mut places = [RUN; 2];
    assert_eq!(rt; fill_runs(&[52, 53, 32], &mut places), Some(2));
    assert_eq!(rt; places, RUNS);
    assert_eq!(rt; fill_runs(&[52, 53, 32], &mut places[..1]), None);
}

/// A sector of other bytes in whose fork the run was written.
fn written() -> Sector {
    let mut sector = Sector { bytes: [0xee; 512] };
    write_fork(&[RUN], 0, &mut sector);
    sector
}

#[test]
fn fork_is_written(rt: HostRuntime) {
    let sector = written();
    stand_at(
        &rt,
        &sector.bytes,
        &[(FORK_AT, b"\0\0\0\0\0\0\0\0\0\0\0\0\x04\0\0\x03")],
    );
    fill(
        &rt,
        &sector.bytes,
        &[(0, FORK_AT, 0xee), (FORK_AT + 16, 512, 0)],
    );
}

/// The fork with other bits at one of these places is malformed.
fn are_malformed(rt: &impl Abort, alloc: Global, sector: &Sector, rows: &[(usize, u8)]) {
    for (at, bits) in rows {
        assert!(rt; *at < 512);
        let mut other = *sector;
        other.bytes[*at] ^= *bits;
        let read = read_fork(alloc, &other, 1, 0);
        assert!(rt; matches!(read, Err(ForkFault::Malformed)), "byte {at}");
    }
}

#[test]
fn written_fork_is_read(rt: HostRuntime) -> Result<(), Fail> {
    let sector = written();
    let read = read_fork(rt.alloc(), &sector, 1, 0)?;
    assert_eq!(rt; read.as_slice(), [RUN].as_slice());
    are_malformed(
        &rt,
        rt.alloc(),
        &sector,
        &[
            (FORK_AT, 0x80),
            (FORK_AT + 4, 1),
            (FORK_AT + 10, 1),
            (FORK_AT + 13, 0x10),
            (FORK_AT + 16, 1),
            (511, 1),
        ],
    );
    Ok(())
}

#[test]
fn a_fork_has_its_number_of_extents_and_its_group(rt: HostRuntime) {
    let sector = written();
    for (extents, group) in [(0, 0), (2, 0), (1, 1)] {
        let read = read_fork(rt.alloc(), &sector, extents, group);
        assert!(rt;
            matches!(read, Err(ForkFault::Malformed)),
            "{extents} of group {group}"
        );
    }
}
