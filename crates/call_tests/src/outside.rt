//! Files and sinks, in memory and real.
use mcy_base::{Bytes, FileList, SourceFile, Text};
use mcy_outside::{
    CleanFiles, CleanSink, FileError, MemoryFiles, MemorySink, RealFiles, RealSink, Sink,
    SourceFiles,
};
use std::alloc::{AllocError, Global};
use std::io::{ErrorKind, Write};
use std::test::Fail;
use std::{fs, io};

/// A file twice under one name, and an empty one.
fn some_files(alloc: Global) -> Result<FileList, AllocError> {
    let mut files = FileList::from_vec(Vec::new(alloc));
    for (name, bytes) in [("a.v", b"wire".as_slice()), ("b.v", b""), ("a.v", b"reg")] {
        files.push(SourceFile {
            name: Text::copy(alloc, name)?,
            bytes: Bytes::copy(alloc, bytes)?,
        })?;
    }
    Ok(files)
}

/// Whether a read answers this.
fn reads<F: SourceFiles>(
    files: &mut F,
    name: &str,
    max: u32,
    wanted: Result<&[u8], FileError>,
) -> bool {
    match (files.read(name, max), wanted) {
        (Ok(bytes), Ok(wanted)) => bytes.as_slice() == wanted,
        (Err(error), Err(wanted)) => error == wanted,
        _ => false,
    }
}

#[test]
fn clean_files_are_read_up_to_the_limit(rt: HostRuntime) -> Result<(), Fail> {
    let mut files = CleanFiles::new(rt.alloc(), some_files(rt.alloc())?);
    for (name, max, wanted) in [
        ("a.v", 5, Ok(b"wire".as_slice())),
        ("a.v", 4, Ok(b"wire")),
        ("a.v", 3, Err(FileError::TooLarge)),
        ("b.v", 0, Ok(b"")),
        ("c.v", 9, Err(FileError::Missing)),
    ] {
        assert!(rt; reads(&mut files, name, max, wanted), "{name} up to {max}");
    }
    Ok(())
}

#[test]
fn memory_files_fail_at_the_numbered_reads(rt: HostRuntime) -> Result<(), Fail> {
    let failing = [2, 0, 2].to_vec(rt.alloc())?;
    let mut files = MemoryFiles::new(rt.alloc(), some_files(rt.alloc())?, failing);
    for (name, wanted) in [
        ("a.v", Err(FileError::Failed)),
        ("a.v", Ok(b"wire".as_slice())),
        ("c.v", Err(FileError::Failed)),
        ("c.v", Err(FileError::Missing)),
        ("b.v", Ok(b"")),
    ] {
        assert!(rt; reads(&mut files, name, 4, wanted), "{name}");
    }
    Ok(())
}

/// A file of this folder is read whole, up to a limit that is exact. The reads of a folder and of a device
/// fail.
#[test]
fn real_files_are_read_up_to_the_limit(rt: HostRuntime) -> Result<(), Fail> {
    fs::write(&rt, "a.v", b"wire\xff\0")?;
    let mut files = RealFiles::new(rt.alloc(), &rt);
    for (name, max, wanted) in [
        ("a.v", 7, Ok(b"wire\xff\0".as_slice())),
        ("a.v", 6, Ok(b"wire\xff\0")),
        ("a.v", 5, Err(FileError::TooLarge)),
        ("b.v", 6, Err(FileError::Missing)),
        (".", 6, Err(FileError::Failed)),
        ("/dev/zero", 6, Err(FileError::Failed)),
    ] {
        assert!(rt; reads(&mut files, name, max, wanted), "{name} up to {max}");
    }
    fs::remove_file(&rt, "a.v")?;
    Ok(())
}

/// How often a sink takes these pieces.
fn count_taken<S: Sink>(sink: &mut S, pieces: &[&[u8]]) -> usize {
    pieces
        .iter()
        .filter(|piece| sink.write_all(piece).is_ok())
        .count()
}

#[test]
fn memory_sink_fails_at_the_numbered_writes_and_past_its_room(rt: HostRuntime) -> Result<(), Fail> {
    let failing = [(1, 2), (3, 9), (1, 0)].to_vec(rt.alloc())?;
    let mut sink = MemorySink::new(failing, Vec::with_capacity(rt.alloc(), 12)?);
    let pieces = [
        b"one".as_slice(),
        b"two",
        b"",
        b"four",
        b"five",
        b"six",
        b"7",
    ];
    assert_eq!(rt; count_taken(&mut sink, &pieces), 3);
    assert_eq!(rt; sink.seen(), b"onetwfoursix".as_slice());
    Ok(())
}

#[test]
fn clean_sink_takes_each_piece(rt: HostRuntime) {
    let pieces = [b"one".as_slice(), b""];
    assert_eq!(rt; count_taken(&mut CleanSink::new(), &pieces), 2);
}

/// What a write of the fake writer does.
#[derive(Clone, Copy)]
enum Turn {
    Takes(usize),
    Interrupted,
    Fails,
}

/// A writer whose writes go by a list, and take all when it is at its end.
#[derive(Drop)]
struct FakeWriter<'a> {
    turns: &'a [Turn],
    seen: Vec<u8>,
}

impl Write for FakeWriter<'_> {
    fn write(&mut self, buf: &[u8]) -> io::Result<usize> {
        let turn = match self.turns {
            [turn, more @ ..] => {
                self.turns = more;
                *turn
            }
            [] => Turn::Takes(usize::MAX),
        };
        match turn {
            Turn::Takes(most) => {
                let count = most.min(buf.len());
                self.seen.extend_from_slice(&buf[..count])?;
                Ok(count)
            }
            Turn::Interrupted => Err(io::Error::from(ErrorKind::Interrupted)),
            Turn::Fails => Err(io::Error::from(ErrorKind::BrokenPipe)),
        }
    }

    fn flush(&mut self) -> io::Result<()> {
        Ok(())
    }
}

#[test]
fn real_sink_writes_on_after_a_part_and_stops_where_nothing_is_taken(
    rt: HostRuntime,
) -> Result<(), Fail> {
    for (turns, taken, seen) in [
        ([].as_slice(), 3, b"one, two".as_slice()),
        (&[Turn::Takes(1), Turn::Takes(1)], 3, b"one, two"),
        (&[Turn::Takes(2), Turn::Interrupted], 3, b"one, two"),
        (&[Turn::Takes(2), Turn::Takes(0)], 2, b"ontwo"),
        (&[Turn::Takes(5), Turn::Fails], 2, b"one, "),
    ] {
        let mut writer = FakeWriter {
            turns,
            seen: Vec::new(rt.alloc()),
        };
        let mut sink = RealSink::new(&mut writer);
        let pieces = [b"one, ".as_slice(), b"two", b""];
        assert_eq!(rt; count_taken(&mut sink, &pieces), taken);
        assert_eq!(rt; writer.seen.as_slice(), seen);
    }
    let mut out = RealSink::new(rt.stdout());
    assert!(rt; out.write_all(b"").is_ok());
    Ok(())
}
