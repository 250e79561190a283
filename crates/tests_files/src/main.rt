//! Runs of the program over files, in an empty folder: what each writes, and its exit status. First over what is no image, with what the files hold then that stood there before; then over an image that is made.
//!
//! What a run can't make by itself, as a pipe or a file without rights, is in `bin/odd_images`.
#![tactic(auto)]

use disk_file::FileImages;
use life_cli::top;
use life_ports::{MemorySink, MemorySource, Sink, WriterSink};
use std::alloc::Global;
use std::fs::OpenOptions;
use std::process::ExitCode;
use std::{fs, io};

// The words of a run, and what it reads.
struct Told {
    words: &'static [&'static str],
    script: &'static str,
}

const RUNS: [Told; 10] = [
    Told {
        words: &["check", "folder"],
        script: "",
    },
    Told {
        words: &["steps", "folder"],
        script: "mount\n",
    },
    Told {
        words: &["make", "folder", "1", "64", "256"],
        script: "",
    },
    Told {
        words: &["check", "none.img"],
        script: "",
    },
    Told {
        words: &["make", "none/new.img", "1", "64", "256"],
        script: "",
    },
    Told {
        words: &["check", "short.img"],
        script: "",
    },
    Told {
        words: &["make", "short.img", "1", "64", "256"],
        script: "",
    },
    Told {
        words: &["steps", "odd.img"],
        script: "mount\ncreate 0 a\nsync\n",
    },
    Told {
        words: &["check", "/dev/null"],
        script: "",
    },
    Told {
        words: &["steps", "/dev/null"],
        script: "mount\n",
    },
];

const MADE: Told = Told {
    words: &["make", "made.img", "1", "64", "256"],
    script: "",
};

// Runs over an image that was made, with a part of a sector behind it.
const RUNS_ON_MADE: [Told; 3] = [
    Told {
        words: &["steps", "made.img"],
        script: "mount\ncreate 0 a\nsync\ncreate 0 b\n",
    },
    Told {
        words: &["steps", "made.img"],
        script: "mount\ncreate 0 c\nstop 1 1\nsync\n",
    },
    Told {
        words: &["check", "made.img"],
        script: "",
    },
];

const MADE_FULL: Told = Told {
    words: &["make", "full.img", "1", "64", "256"],
    script: "",
};

const CHECKED_FULL: Told = Told {
    words: &["check", "full.img"],
    script: "",
};

// Some whole sectors without an image, an image that is made, and a part of a sector.
const ODD_BYTES: usize = 72 * 512;

const MADE_BYTES: usize = 769 * 512;

const PART: [u8; 100] = [7; 100];

fn words_of(alloc: Global, words: &[&str]) -> io::Result<Vec<String>> {
    let mut all = Vec::new(alloc);
    for word in words {
        all.push(String::from_str(alloc, word)?)?;
    }
    Ok(all)
}

// Runs these words, and gives the exit status.
fn run(rt: &HostRuntime, told: &Told, out: &mut impl Sink) -> io::Result<u8> {
    let alloc = rt.alloc();
    let words = words_of(alloc, told.words)?;
    let script = told.script.as_bytes().to_vec(alloc)?;
    let mut source = MemorySource::new(script, Vec::new(alloc));
    let mut images = FileImages::new(alloc, rt);
    let ended = top(alloc, &words, &mut images, &mut source, out);
    Ok(ended.status.exit_code())
}

// Runs these words, and tells what that wrote, and its exit status.
fn tell(rt: &HostRuntime, told: &Told) -> io::Result<()> {
    let alloc = rt.alloc();
    let mut out = MemorySink::new(alloc, Vec::new(alloc));
    let status = run(rt, told, &mut out)?;
    let written = String::from_utf8_lossy(alloc, out.bytes())?;
    print!(rt; "life")?;
    for word in told.words {
        print!(rt; " {word}")?;
    }
    print!(rt; "\n{written}status {status}\n")?;
    Ok(())
}

// The files that stand there before the runs.
fn put_files(rt: &HostRuntime) -> io::Result<()> {
    fs::create_dir(rt, "folder")?;
    fs::write(rt, "folder/kept", PART.as_slice())?;
    fs::write(rt, "short.img", PART.as_slice())?;
    let mut odd = vec![in rt.alloc(); 0u8; ODD_BYTES]?;
    odd.extend_from_slice(&PART)?;
    fs::write(rt, "odd.img", odd.as_slice())
}

// Whether a file has these bytes behind so many others.
fn has_behind(rt: &HostRuntime, path: &str, front: usize, bytes: &[u8]) -> io::Result<bool> {
    let found = fs::read(rt, path)?;
    match found.len().checked_sub(bytes.len()) {
        Some(behind) => Ok(behind == front && found.ends_with(bytes)),
        None => Ok(false),
    }
}

// Tells the runs over what is no image, and what they left.
fn tell_runs(rt: &HostRuntime) -> io::Result<()> {
    for told in &RUNS {
        tell(rt, told)?;
    }
    let folder = has_behind(rt, "folder/kept", 0, &PART)?;
    let short = has_behind(rt, "short.img", 0, &PART)?;
    let odd = has_behind(rt, "odd.img", ODD_BYTES, &PART)?;
    println!(rt; "kept: folder {folder}, short.img {short}, the part behind odd.img {odd}")?;
    Ok(())
}

// An image that is made keeps what runs sync, and what stands behind it.
fn tell_made(rt: &HostRuntime) -> io::Result<()> {
    tell(rt, &MADE)?;
    let mut made = fs::read(rt, "made.img")?;
    made.extend_from_slice(&PART)?;
    fs::write(rt, "made.img", made.as_slice())?;
    for told in &RUNS_ON_MADE {
        tell(rt, told)?;
    }
    let kept = has_behind(rt, "made.img", MADE_BYTES, &PART)?;
    println!(rt; "kept: the part behind made.img {kept}")?;
    Ok(())
}

// An image that is made is whole also where the device is full to which the output is written.
fn tell_full(rt: &HostRuntime) -> io::Result<()> {
    let device = OpenOptions::new().write(true).open(rt, "/dev/full")?;
    let status = run(rt, &MADE_FULL, &mut WriterSink::new(device))?;
    println!(rt; "make full.img with a full output: status {status}")?;
    tell(rt, &CHECKED_FULL)
}

fn tell_all(rt: &HostRuntime) -> io::Result<()> {
    put_files(rt)?;
    tell_runs(rt)?;
    tell_made(rt)?;
    tell_full(rt)
}

fn main(rt: HostRuntime) -> ExitCode {
    match tell_all(&rt) {
        Ok(()) => ExitCode::SUCCESS,
        Err(_) => ExitCode::FAILURE,
    }
}
