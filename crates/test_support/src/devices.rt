//! Readers and writers that fail, or that never end.

use std::alloc::Global;
use std::io;
use std::io::{ErrorKind, Read, Write};

/// A device whose every call fails, and the kind of its failures.
#[derive(Drop)]
pub struct Broken {
    /// The kind of each failure.
    pub kind: ErrorKind,
}

impl Broken {
    /// Creates a device whose failures are of no particular kind.
    pub fn new() -> Self {
        Broken {
            kind: ErrorKind::Other,
        }
    }
}

impl Read for Broken {
    fn read(&mut self, _buf: &mut [u8]) -> io::Result<usize> {
        Err(io::Error::from(self.kind))
    }
}

impl Write for Broken {
    fn write(&mut self, _buf: &[u8]) -> io::Result<usize> {
        Err(io::Error::from(self.kind))
    }

    fn flush(&mut self) -> io::Result<()> {
        Ok(())
    }
}

/// A device that accepts bytes and cannot be flushed.
#[derive(Drop)]
pub struct Stuck;

impl Write for Stuck {
    fn write(&mut self, buf: &[u8]) -> io::Result<usize> {
        Ok(buf.len())
    }

    fn flush(&mut self) -> io::Result<()> {
        Err(io::Error::from(ErrorKind::Other))
    }
}

/// A text in reads of at most `most` bytes, of which every second is interrupted, beginning with
/// the first.
#[derive(Drop)]
pub struct Uneven<'a> {
    text: &'a [u8],
    most: usize,
    end: Option<ErrorKind>,
    is_interrupted: bool,
}

impl<'a> Uneven<'a> {
    /// Creates a reader of the text. Reads after its end fail with `end`, or find the end.
    pub fn new(text: &'a [u8], most: usize, end: Option<ErrorKind>) -> Self {
        Uneven {
            text,
            most,
            end,
            is_interrupted: false,
        }
    }
}

impl Read for Uneven<'_> {
    fn read(&mut self, buf: &mut [u8]) -> io::Result<usize> {
        self.is_interrupted = !self.is_interrupted;
        if self.is_interrupted {
            return Err(io::Error::from(ErrorKind::Interrupted));
        }
        if let (Some(kind), true) = (self.end, self.text.is_empty()) {
            return Err(io::Error::from(kind));
        }
        let count = self.most.min(self.text.len()).min(buf.len());
        let mut piece = &self.text[..count];
        self.text = &self.text[count..];
        piece.read(buf)
    }
}

/// A writer that accepts some bytes at a time, and fails after a number of writes.
#[derive(Drop)]
pub struct Rough {
    /// The bytes written.
    pub written: Vec<u8>,
    /// The most bytes of a write.
    most: usize,
    /// How many calls in a row are interrupted before each that is not.
    interrupts: u32,
    /// How many more of these calls are interrupted.
    left: u32,
    /// How many more writes accept bytes.
    writes: u32,
    /// The result of a write or a flush after them: a failure of this kind, or else a write of no
    /// byte.
    end: Option<ErrorKind>,
}

impl Rough {
    /// Creates a writer that accepts at most `most` bytes in each of `writes` writes, each after
    /// `interrupts` interrupted calls.
    pub fn new(
        alloc: Global,
        most: usize,
        interrupts: u32,
        writes: u32,
        end: Option<ErrorKind>,
    ) -> Self {
        Rough {
            written: Vec::new(alloc),
            most,
            interrupts,
            left: interrupts,
            writes,
            end,
        }
    }

    /// Whether this call is interrupted.
    fn is_interrupted(&mut self) -> bool {
        if self.left == 0 {
            self.left = self.interrupts;
            return false;
        }
        self.left -= 1;
        true
    }
}

impl Write for Rough {
    fn write(&mut self, buf: &[u8]) -> io::Result<usize> {
        if self.is_interrupted() {
            return Err(io::Error::from(ErrorKind::Interrupted));
        }
        if self.writes == 0 {
            return match self.end {
                Some(kind) => Err(io::Error::from(kind)),
                None => Ok(0),
            };
        }
        self.writes -= 1;
        self.written.write(&buf[..buf.len().min(self.most)])
    }

    fn flush(&mut self) -> io::Result<()> {
        if self.is_interrupted() {
            return Err(io::Error::from(ErrorKind::Interrupted));
        }
        match self.end {
            Some(kind) if self.writes == 0 => Err(io::Error::from(kind)),
            _ => Ok(()),
        }
    }
}

/// Spaces without end.
#[derive(Drop)]
pub struct Spaces {
    /// How many spaces were read.
    pub read: u64,
}

impl Read for Spaces {
    fn read(&mut self, buf: &mut [u8]) -> io::Result<usize> {
        for byte in buf.iter_mut() {
            *byte = b' ';
        }
        self.read = self.read.wrapping_add(buf.len() as u64);
        Ok(buf.len())
    }
}
