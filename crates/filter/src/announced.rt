//! A reader that says when it waits for a terminal.

use std::io;
use std::io::{Read, Write};

/// Standard input that says on standard error, before its first read from a terminal, that it is
/// read.
#[derive(Drop)]
pub(crate) struct Announced<'a, R, E> {
    reader: R,
    faults: E,
    program: &'a str,
    is_silent: bool,
}

impl<'a, R: Read, E: Write> Announced<'a, R, E> {
    /// Creates a reader for a program with this name, which says nothing if it reads no terminal.
    pub(crate) fn new(reader: R, faults: E, program: &'a str, is_terminal: bool) -> Self {
        Announced {
            reader,
            faults,
            program,
            is_silent: !is_terminal,
        }
    }
}

impl<R: Read, E: Write> Read for Announced<'_, R, E> {
    ghost remaining = { λ announced. R.remaining announced.reader };

    fn read(&mut self, buf: &mut [u8]) -> io::Result<usize> {
        if !self.is_silent {
            self.is_silent = true;
            let program = self.program;
            let _ = writeln!(self.faults, "{program}: reading standard input");
        }
        self.reader.read(buf)
    }
}
