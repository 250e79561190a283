// Whole runs over disks in memory.

use disk_model::{Blank, FaultDisk, MemoryDisk, MemoryImages};
use life_bytes::Sector;
use life_cli::top;
use life_ports::{MemorySink, MemorySource};
use script::Status;
use std::alloc::Global;
use std::test::Fail;

pub(crate) type Disks = MemoryImages<FaultDisk<MemoryDisk>>;

/// What a run wrote, how it ended, and the disk that it handed back.
#[derive(Drop)]
pub(crate) struct Outcome {
    pub(crate) written: String,
    pub(crate) status: Status,
    pub(crate) disk: Option<FaultDisk<MemoryDisk>>,
    pub(crate) mounts: usize,
}

impl Outcome {
    /// Whether this is what was written.
    pub(crate) fn wrote(&self, text: &str) -> bool {
        self.written.as_str() == text
    }
}

fn words_of(alloc: Global, words: &[&str]) -> Result<Vec<String>, Fail> {
    let mut all = Vec::new(alloc);
    for word in words {
        all.push(String::from_str(alloc, word)?)?;
    }
    Ok(all)
}

// Images with this disk as a crash leaves it, which fails at these calls.
fn listed(alloc: Global, mut disk: MemoryDisk, fails: Vec<u64>) -> Result<Disks, Fail> {
    disk.pick(0);
    let mut images = MemoryImages::new(alloc, Vec::new(alloc));
    let disk = FaultDisk::new(disk, fails);
    if images.is_listed("disk") || images.add("disk", disk).is_err() {
        return Err(Fail::from("no disk"));
    }
    Ok(images)
}

/// Images without a disk.
pub(crate) fn no_disk(alloc: Global) -> Disks {
    MemoryImages::new(alloc, Vec::new(alloc))
}

/// Images with one disk of these sectors, which fails at these calls.
pub(crate) fn disk_with(
    alloc: Global,
    sectors: Vec<Sector>,
    fails: Vec<u64>,
) -> Result<Disks, Fail> {
    listed(alloc, MemoryDisk::with(alloc, sectors)?, fails)
}

/// Images with one disk of so many zero sectors, which fails at these calls.
pub(crate) fn one_disk(alloc: Global, sectors: u64, fails: Vec<u64>) -> Result<Disks, Fail> {
    listed(alloc, MemoryDisk::blank(alloc, sectors)?, fails)
}

/// A run with these words over these images, whose script comes from this source.
pub(crate) fn run_from(
    alloc: Global,
    images: &mut Disks,
    words: &[&str],
    mut source: MemorySource,
) -> Result<Outcome, Fail> {
    let words = words_of(alloc, words)?;
    let mut sink = MemorySink::new(alloc, Vec::new(alloc));
    let ended = top(alloc, &words, images, &mut source, &mut sink);
    Ok(Outcome {
        written: String::from_utf8_lossy(alloc, sink.bytes())?,
        status: ended.status,
        disk: ended.disk,
        mounts: ended.mounts.len(),
    })
}

/// A run with these words and this script.
pub(crate) fn run_words(
    alloc: Global,
    images: &mut Disks,
    words: &[&str],
    script: &str,
) -> Result<Outcome, Fail> {
    let bytes = script.as_bytes().to_vec(alloc)?;
    run_from(
        alloc,
        images,
        words,
        MemorySource::new(bytes, Vec::new(alloc)),
    )
}

/// A run of a script over a disk of these sectors, which fails at these calls.
pub(crate) fn run_script(
    alloc: Global,
    sectors: Vec<Sector>,
    fails: Vec<u64>,
    script: &str,
) -> Result<Outcome, Fail> {
    let mut images = disk_with(alloc, sectors, fails)?;
    run_words(alloc, &mut images, &["steps", "disk"], script)
}
