//! The program `life`: it hands the words of the command line, the files, standard input and standard output to `top`.
#![tactic(auto)]

mod standard;

use disk_file::FileImages;
use life_cli::{Status, top, write_whole};
use life_ports::{ReaderSource, WriterSink};
use standard::hold_standard;
use std::alloc::Global;
use std::env::Args;
use std::process::ExitCode;
use std::{env, io};

// The words of the command line behind the program's name. Where they can't be read as a whole there are none.
fn words_of(alloc: Global, arguments: io::Result<Args<Global>>) -> Vec<String> {
    let mut words = Vec::new(alloc);
    let Ok(arguments) = arguments else {
        return words;
    };
    for word in arguments.skip(1) {
        if words.push(word).is_err() {
            return Vec::new(alloc);
        }
    }
    words
}

fn main(rt: HostRuntime) -> ExitCode {
    let alloc = rt.alloc();
    let mut sink = WriterSink::new(rt.stdout());
    let Ok(_held) = hold_standard(alloc, &rt) else {
        let _ = write_whole(&mut sink, b"open fault\n");
        return ExitCode::from(Status::OpenFault.exit_code());
    };
    let words = words_of(alloc, env::args(&rt));
    let mut images = FileImages::new(alloc, &rt);
    let mut source = ReaderSource::new(rt.stdin());
    let ended = top(alloc, &words, &mut images, &mut source, &mut sink);
    ExitCode::from(ended.status.exit_code())
}
