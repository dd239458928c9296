//! Reads and writes that take a part, that an interrupt breaks off, and that fail on the way.

use crate::StdSink;
use crate::reading::bytes_of;
use crate::trouble::Trouble;
use path_name::Text;
use std::io;
use std::io::{ErrorKind, Read, Write};
use std::test::Fail;
use tree_dev::{ReadAnswer, Sink};

/// A reader of some bytes, one at a time, and each after an interrupt.
#[derive(Drop)]
struct Slow {
    left: &'static [u8],
    interrupted: bool,
    fails: bool,
}

impl Read for Slow {
    fn read(&mut self, buf: &mut [u8]) -> io::Result<usize> {
        self.interrupted = !self.interrupted;
        if self.interrupted {
            return Err(io::Error::from(ErrorKind::Interrupted));
        }
        match (self.left, buf) {
            ([], _) if self.fails => Err(io::Error::from(ErrorKind::TimedOut)),
            ([first, left @ ..], [room, ..]) => {
                *room = *first;
                self.left = left;
                Ok(1)
            }
            _ => Ok(0),
        }
    }
}

fn reader_of(left: &'static [u8], fails: bool) -> Slow {
    Slow {
        left,
        interrupted: false,
        fails,
    }
}

#[test]
fn slow_reads(rt: HostRuntime) -> Result<(), Fail> {
    let alloc = rt.alloc();
    let wanted = ReadAnswer::Bytes(Text::copy_of(alloc, b"abcde")?);
    assert_eq!(rt; bytes_of(alloc, reader_of(b"abcde", false), 5, 5)?, wanted);
    // the length that was told is wrong
    assert_eq!(rt; bytes_of(alloc, reader_of(b"abcde", false), 0, 5)?, wanted);
    assert_eq!(rt; bytes_of(alloc, reader_of(b"abcde", false), 9, 9)?, wanted);
    assert_eq!(rt;
        bytes_of(alloc, reader_of(b"abcde", false), 5, 4)?,
        ReadAnswer::TooLong
    );
    assert_eq!(rt;
        bytes_of(alloc, reader_of(b"abcde", true), 5, 9).err(),
        Some(Trouble::Failed)
    );
    Ok(())
}

/// A writer that takes two bytes at a time, each after an interrupt, and so many in all.
#[derive(Drop)]
struct Narrow<'a> {
    to: &'a mut Vec<u8>,
    interrupted: bool,
    room: usize,
}

impl<'a> Write for Narrow<'a> {
    fn write(&mut self, buf: &[u8]) -> io::Result<usize> {
        self.interrupted = !self.interrupted;
        if self.interrupted {
            return Err(io::Error::from(ErrorKind::Interrupted));
        }
        if self.room == 0 {
            return Err(io::Error::from(ErrorKind::StorageFull));
        }
        let count = buf.len().min(2).min(self.room);
        self.to.extend_from_slice(&buf[..count])?;
        self.room -= count;
        Ok(count)
    }

    fn flush(&mut self) -> io::Result<()> {
        Ok(())
    }
}

#[test]
fn narrow_writes(rt: HostRuntime) -> Result<(), Fail> {
    let mut taken = Vec::new(rt.alloc());
    let whole = StdSink::new(Narrow {
        to: &mut taken,
        interrupted: false,
        room: 9,
    })
    .put(b"abcde");
    assert!(rt; whole.is_ok());
    assert_eq!(rt; taken.as_slice(), b"abcde".as_slice());
    let part = StdSink::new(Narrow {
        to: &mut taken,
        interrupted: false,
        room: 3,
    })
    .put(b"fghij");
    assert!(rt; part.is_err());
    assert_eq!(rt; taken.as_slice(), b"abcdefgh".as_slice());
    Ok(())
}
