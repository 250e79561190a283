// An image with inodes without links in several buckets, in lists of several lengths, and the same image once they are freed.
use crate::disks::have_same_groups;
use life_bytes::Sector;
use life_table::{Entry, Event, Key};
use sample_images::{File, Group, NO_INODE, image_of};
use std::alloc::Global;
use std::test::Fail;

/// The inodes in use of group 0. Bucket 0 has inode 256, bucket 1 has 257, 193 and 321, in this order, and bucket 5 has 197, which is in its third life; inodes 192 and 300 have
/// a link each.
const FIRST_FILES: [File; 7] = [
    File {
        agino: 192,
        generation: 1,
        links: 1,
        next: NO_INODE,
        first: 48,
        blocks: 3,
    },
    File {
        agino: 193,
        generation: 1,
        links: 0,
        next: 321,
        first: 0,
        blocks: 0,
    },
    File {
        agino: 197,
        generation: 3,
        links: 0,
        next: NO_INODE,
        first: 53,
        blocks: 1,
    },
    File {
        agino: 256,
        generation: 1,
        links: 0,
        next: NO_INODE,
        first: 54,
        blocks: 1,
    },
    File {
        agino: 257,
        generation: 1,
        links: 0,
        next: 193,
        first: 51,
        blocks: 2,
    },
    File {
        agino: 300,
        generation: 1,
        links: 1,
        next: NO_INODE,
        first: 0,
        blocks: 0,
    },
    File {
        agino: 321,
        generation: 1,
        links: 0,
        next: NO_INODE,
        first: 55,
        blocks: 1,
    },
];

/// Those of group 1. Bucket 63 has inode 255.
const SECOND_FILES: [File; 2] = [
    File {
        agino: 194,
        generation: 1,
        links: 1,
        next: NO_INODE,
        first: 32,
        blocks: 1,
    },
    File {
        agino: 255,
        generation: 1,
        links: 0,
        next: NO_INODE,
        first: 33,
        blocks: 4,
    },
];

/// Those of group 0 that have a link, and those of group 1.
const FIRST_LINKED: [File; 2] = [
    File {
        agino: 192,
        generation: 1,
        links: 1,
        next: NO_INODE,
        first: 48,
        blocks: 3,
    },
    File {
        agino: 300,
        generation: 1,
        links: 1,
        next: NO_INODE,
        first: 0,
        blocks: 0,
    },
];

const SECOND_LINKED: [File; 1] = [File {
    agino: 194,
    generation: 1,
    links: 1,
    next: NO_INODE,
    first: 32,
    blocks: 1,
}];

/// The image before a mount.
pub(crate) fn with_orphans(alloc: Global) -> Result<Vec<Sector>, Fail> {
    let first = Group {
        chunks: &[192, 256, 320],
        files: &FIRST_FILES,
        freed: &[(200, 7)],
        heads: &[(0, 256), (1, 257), (5, 197)],
    };
    let second = Group {
        chunks: &[192],
        files: &SECOND_FILES,
        freed: &[],
        heads: &[(63, 255)],
    };
    Ok(image_of(alloc, [&first, &second], 256, 1)?)
}

/// The same image with the inodes without links freed: their numbers are in the next life, and their blocks are free.
fn without_orphans(alloc: Global) -> Result<Vec<Sector>, Fail> {
    let first = Group {
        chunks: &[192, 256, 320],
        files: &FIRST_LINKED,
        freed: &[(193, 2), (197, 4), (200, 7), (256, 2), (257, 2), (321, 2)],
        heads: &[],
    };
    let second = Group {
        chunks: &[192],
        files: &SECOND_LINKED,
        freed: &[(255, 2)],
        heads: &[],
    };
    Ok(image_of(alloc, [&first, &second], 256, 1)?)
}

/// The keys that are freed, in this order: group by group, bucket by bucket, each from its head on.
const FREED: [(u64, u32); 6] = [
    (256, 1),
    (257, 1),
    (193, 1),
    (321, 1),
    (197, 3),
    (131_072 + 255, 1),
];

/// Whether the entries are the frees of all these keys, in their order, each by the mount itself, which is actor 26.
pub(crate) fn are_all_frees(entries: &[Entry]) -> bool {
    entries.len() == FREED.len() && are_first_frees(entries)
}

/// Whether they are the first of them.
pub(crate) fn are_first_frees(entries: &[Entry]) -> bool {
    let mut right = entries.len() <= FREED.len();
    for (entry, (number, generation)) in entries.iter().zip(&FREED) {
        let key = Key {
            number: *number,
            generation: *generation,
        };
        right = right && entry.actor == 26 && frees(&entry.event, key);
    }
    right
}

fn frees(event: &Event, key: Key) -> bool {
    match event {
        Event::Freed { key: freed } => *freed == key,
        Event::Called { .. } => false,
    }
}

/// Whether the groups of a disk's image are those without the orphans.
pub(crate) fn are_freed(alloc: Global, sectors: &[Sector]) -> Result<bool, Fail> {
    let want = without_orphans(alloc)?;
    Ok(have_same_groups(sectors, &want))
}
