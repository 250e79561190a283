// Comparisons of bytes, row by row.
use std::process::Abort;

/// At each row's place stand its bytes.
pub(crate) fn stand_at(rt: &impl Abort, bytes: &[u8], rows: &[(usize, &[u8])]) {
    for (at, wanted) in rows {
        let found = bytes.get(*at..at.saturating_add(wanted.len()));
        assert_eq!(rt; found, Some(*wanted), "byte {at}");
    }
}

fn is_all(bytes: &[u8], wanted: u8) -> bool {
    bytes.iter().all(|byte| *byte == wanted)
}

/// From each row's first place up to its second, each byte is the row's.
pub(crate) fn fill(rt: &impl Abort, bytes: &[u8], rows: &[(usize, usize, u8)]) {
    for (from, to, wanted) in rows {
        let found = bytes.get(*from..*to);
        assert!(rt;
            matches!(found, Some(run) if is_all(run, *wanted)),
            "from {from} to {to}"
        );
    }
}
