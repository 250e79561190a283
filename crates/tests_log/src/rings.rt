use log_ring::Positions;

/// The head, the tail and the room.
fn seen(positions: &Positions) -> (u64, u64, u32) {
    (positions.head(), positions.tail(), positions.room())
}

#[test]
fn positions_of_a_ring(rt: HostRuntime) {
    let mut positions = Positions::new(256, 512);
    let new = seen(&positions);
    positions.wrote(71);
    let written = seen(&positions);
    let place = positions.place(positions.head());
    positions.covered();
    let covered = seen(&positions);
    positions.wrote(254);
    let full = seen(&positions);
    positions.covered();
    assert_eq!(rt; place, 71);
    assert_eq!(rt;
        [new, written, covered, full, seen(&positions)],
        [
            (512, 512, 255),
            (583, 512, 184),
            (584, 583, 254),
            (838, 583, 0),
            (839, 838, 254),
        ]
    );
}
