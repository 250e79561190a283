//! The limits of an image and of its log, all in this place. They are this project's own, but for the sizes of a sector, an inode, a chunk and the number of unlinked buckets, which are those of XFS version 5.
#![tactic(auto)]

/// Bytes of a sector, and of an inode.
pub const SECTOR_BYTES: u32 = 512;
/// Bytes of a block.
pub const BLOCK_BYTES: u32 = 4096;
/// Sectors of a block, and inodes of a block of a chunk.
pub const BLOCK_SECTORS: u32 = 8;
/// The version of an image.
pub const VERSION: u32 = 1;
/// Groups of an image.
pub const MAX_GROUPS: u32 = 16;
/// Blocks of a group, at least and at most.
pub const MIN_BLOCKS: u32 = 64;

pub const MAX_BLOCKS: u32 = 16_384;
/// Sectors of the ring, at least and at most.
pub const MIN_RING: u32 = 256;

pub const MAX_RING: u32 = 65_536;
/// Inode numbers from one group to the next: the number is the group above 17 bits.
pub const GROUP_NUMBERS: u32 = 131_072;
/// Inode numbers of all groups together.
pub const MAX_NUMBERS: u32 = 2_097_152;
/// The first block of a group that data may use.
pub const FIRST_DATA_BLOCK: u32 = 24;
/// The blocks of a group that hold pages of its inode btree: the first and the last of them.
pub const FIRST_PAGE_BLOCK: u32 = 2;

pub const LAST_PAGE_BLOCK: u32 = 17;
/// Levels of an inode btree.
pub const MAX_LEVEL: u32 = 1;
/// Inodes of a chunk.
pub const CHUNK_INODES: u32 = 64;
/// Chunks of a group.
pub const MAX_CHUNKS: u32 = 252;
/// Records of a leaf of an inode btree, one a chunk: as many as a page of 4,096 bytes holds behind its header.
pub const MAX_LEAF_RECORDS: u32 = 252;
/// Runs of blocks of an inode.
pub const MAX_EXTENTS: u32 = 21;
/// Names of an inode: 2^31 - 1.
pub const MAX_LINKS: u32 = 2_147_483_647;
/// The last generation, 2^32 - 1: a number that has reached it is not given again.
pub const MAX_GENERATION: u32 = 4_294_967_295;
/// Unlinked buckets of a group.
pub const BUCKETS: u32 = 64;
/// Represents in place of an inode's number in its group where a list ends.
pub const NO_INODE: u32 = 4_294_967_295;
/// Holders of one inode: 2^28 - 1.
pub const MAX_PINS: u32 = 268_435_455;
/// Sectors that one commit, and one record of the log, carries.
pub const MAX_IMAGES: u32 = 128;
/// Sectors of a record: as many as hold so many images, their homes, the header and the end.
pub const MAX_RECORD_SECTORS: u32 = 135;
/// The positions of the log and the numbers of commits are below it where an image is mounted: 2^62.
pub const MOUNT_LIMIT: u64 = 4_611_686_018_427_387_904;
/// Actors of a script, one for each letter from A to Z.
pub const MAX_ACTORS: u32 = 26;
/// Bytes of a script: 2^24.
pub const MAX_SCRIPT_BYTES: usize = 16_777_216;
/// Turns of one `load`.
pub const MAX_LOAD_TURNS: u32 = 1_000_000;
/// Worker threads of one `drill`, and the turns of each of them.
pub const MAX_DRILL_WORKERS: u32 = 16;

pub const MAX_DRILL_TURNS: u32 = 100_000;
