//! A stream in memory.
use std::alloc::Global;
use std::io;
use std::io::{Error, ErrorKind, Read, Write};
use std::test::Fail;

/// A stream with given bytes, and then nothing. It accepts a limited number of bytes, and then none,
/// or fails.
#[derive(Drop)]
pub(super) struct Memory {
    pub(super) input: Vec<u8>,
    pub(super) at: usize,
    pub(super) output: Vec<u8>,
    pub(super) room: usize,
    pub(super) fails: bool,
}

impl Memory {
    pub(super) fn new(alloc: Global, input: &[u8]) -> Result<Memory, Fail> {
        Ok(Memory {
            input: Vec::from_slice(alloc, input)?,
            at: 0,
            output: Vec::new(alloc),
            room: usize::MAX,
            fails: false,
        })
    }
}

impl Read for Memory {
    fn read(&mut self, buf: &mut [u8]) -> io::Result<usize> {
        let rest = self.input.get(self.at..).unwrap_or(&[]);
        let count = buf.len().min(rest.len());
        if count == 0 {
            return Err(Error::from(ErrorKind::WouldBlock));
        }
        buf[..count].copy_from_slice(&rest[..count]);
        self.at = self.at.saturating_add(count);
        Ok(count)
    }
}

impl Write for Memory {
    fn write(&mut self, buf: &[u8]) -> io::Result<usize> {
        if self.fails {
            return Err(Error::from(ErrorKind::ConnectionReset));
        }
        let count = buf.len().min(self.room);
        if count == 0 {
            return Err(Error::from(ErrorKind::WouldBlock));
        }
        if self.output.extend_from_slice(&buf[..count]).is_err() {
            return Err(Error::from(ErrorKind::OutOfMemory));
        }
        self.room -= count;
        Ok(count)
    }

    fn flush(&mut self) -> io::Result<()> {
        Ok(())
    }
}
