use super::*;
use std::io;
use std::io::{Cursor, ErrorKind, Read};
use std::test::Fail;

// A reader whose every read is an error.
#[derive(Drop)]
struct Broken;

impl Read for Broken {
    fn read(&mut self, _into: &mut [u8]) -> io::Result<usize> {
        Err(io::Error::from(ErrorKind::Other))
    }
}

fn read_three<S: Source>(source: &mut S) -> (Result<usize, Failed>, [u8; 3], u64) {
    let mut piece = [0; 3];
    let answer = source.read(&mut piece);
    (answer, piece, source.faults())
}

fn write_to<S: Sink>(sink: &mut S, piece: &[u8]) -> (Result<usize, Failed>, u64) {
    let answer = sink.write(piece);
    (answer, sink.faults())
}

#[test]
fn a_source_gives_its_bytes_fails_as_planned_and_ends(rt: HostRuntime) -> Result<(), Fail> {
    let alloc = rt.alloc();
    let bytes = b"abcde".to_vec(alloc)?;
    let mut source = MemorySource::new(bytes, vec![in alloc; 2, 5]?);
    for (answer, piece, faults) in [
        (Ok(3), *b"abc", 0),
        (Err(Failed), [0; 3], 1),
        (Ok(2), *b"de\0", 1),
        (Ok(0), [0; 3], 1),
        (Err(Failed), [0; 3], 2),
        (Ok(0), [0; 3], 2),
    ] {
        assert_eq!(rt; read_three(&mut source), (answer, piece, faults));
    }
    Ok(())
}

#[test]
fn a_sink_holds_what_it_took_and_fails_as_planned(rt: HostRuntime) -> Result<(), Fail> {
    let alloc = rt.alloc();
    let mut sink = MemorySink::new(alloc, vec![in alloc; 2]?);
    assert_eq!(rt; write_to(&mut sink, b"ab"), (Ok(2), 0));
    assert_eq!(rt; write_to(&mut sink, b"lost"), (Err(Failed), 1));
    assert_eq!(rt; write_to(&mut sink, b""), (Ok(0), 1));
    assert_eq!(rt; write_to(&mut sink, b"cde"), (Ok(3), 1));
    assert_eq!(rt; sink.bytes(), b"abcde".as_slice());
    Ok(())
}

#[test]
fn a_reader_is_a_source(rt: HostRuntime) {
    let mut source = ReaderSource::new(b"abcd".as_slice());
    assert_eq!(rt; read_three(&mut source), (Ok(3), *b"abc", 0));
    assert_eq!(rt; read_three(&mut source), (Ok(1), *b"d\0\0", 0));
    assert_eq!(rt; read_three(&mut source), (Ok(0), [0; 3], 0));
    let mut broken = ReaderSource::new(Broken);
    assert_eq!(rt; read_three(&mut broken), (Err(Failed), [0; 3], 1));
    assert_eq!(rt; read_three(&mut broken), (Err(Failed), [0; 3], 2));
    assert_eq!(rt; ReaderSource::new(rt.reader()).faults(), 0);
}

#[test]
fn a_writer_is_a_sink_and_one_that_takes_nothing_fails(rt: HostRuntime) -> Result<(), Fail> {
    let mut whole = WriterSink::new(Vec::new(rt.alloc()));
    assert_eq!(rt; write_to(&mut whole, b"abcde"), (Ok(5), 0));
    assert_eq!(rt; whole.into_inner().as_slice(), b"abcde".as_slice());
    let mut short = WriterSink::new(Cursor::new([0; 4]));
    assert_eq!(rt; write_to(&mut short, b"abcde"), (Ok(4), 0));
    assert_eq!(rt; write_to(&mut short, b""), (Ok(0), 0));
    assert_eq!(rt; write_to(&mut short, b"e"), (Err(Failed), 1));
    assert_eq!(rt;
        write_to(&mut WriterSink::new(io::writer(&rt)), b""),
        (Ok(0), 0)
    );
    Ok(())
}
