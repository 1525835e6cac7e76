//! Readers that give parts, fail or never end.
use mcy_outside::{FileError, read_within};
use std::io::{self, ErrorKind, Read};
use std::test::Fail;

/// What a read of the fake reader does.
#[derive(Clone, Copy)]
enum Turn {
    Gives(usize),
    Fails(ErrorKind),
}

/// A reader whose reads go by a list, and give nothing at its end.
#[derive(Drop)]
struct FakeReader<'a> {
    turns: &'a [Turn],
}

impl Read for FakeReader<'_> {
    fn read(&mut self, buf: &mut [u8]) -> io::Result<usize> {
        let turn = match self.turns {
            [turn, more @ ..] => {
                self.turns = more;
                *turn
            }
            [] => Turn::Gives(0),
        };
        match turn {
            Turn::Gives(most) => Ok(most.min(buf.len())),
            Turn::Fails(kind) => Err(io::Error::from(kind)),
        }
    }
}

#[test]
fn a_reader_is_read_to_its_end_or_its_first_failure(rt: HostRuntime) -> Result<(), Fail> {
    for (turns, wanted) in [
        ([].as_slice(), Ok(0)),
        (&[Turn::Gives(2), Turn::Gives(1)], Ok(3)),
        (&[Turn::Gives(2), Turn::Gives(0), Turn::Gives(2)], Ok(2)),
        (&[Turn::Gives(2), Turn::Gives(2)], Err(FileError::TooLarge)),
        (
            &[
                Turn::Gives(2),
                Turn::Fails(ErrorKind::Interrupted),
                Turn::Gives(1),
            ],
            Ok(3),
        ),
        (
            &[Turn::Gives(2), Turn::Fails(ErrorKind::Other)],
            Err(FileError::Failed),
        ),
        (
            &[Turn::Gives(2), Turn::Fails(ErrorKind::NotFound)],
            Err(FileError::Failed),
        ),
        (
            &[Turn::Fails(ErrorKind::OutOfMemory)],
            Err(FileError::Memory),
        ),
    ] {
        let read = read_within(rt.alloc(), FakeReader { turns }, 3).map(|bytes| bytes.len());
        assert_eq!(rt; read, wanted);
    }
    Ok(())
}

#[test]
fn a_reader_without_an_end_is_too_large(rt: HostRuntime) {
    let read = read_within(rt.alloc(), io::repeat(7), 3);
    assert!(rt; matches!(read, Err(FileError::TooLarge)));
}
