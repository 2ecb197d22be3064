//! The lines of a log, queued until its reader accepts them.
ghost use Rattle.std.specs.Prelude.{◌≡◌, ◌<◌, ◌≤◌, ◌++◌, ◌∷◌, [], IfOk, List, ℕ, OnOk, drop, length, take, true, false};
ghost use Rattle.std.specs.Io.{WritesAtMost};
ghost use Rattle.std.specs.Fmt.{decimal};
ghost use Rattle.bus_log.specs.LogQueues.{after_byte, after_lines, after_text, begun_with, ended, is_reported};

use crate::line_queue::{LOG_CAPACITY, LineQueue};
use crate::times::Stamp;
use arrayvec::{ArrayString, ArrayVec};
use show_text::Line;
use std::alloc::{AllocError, Global};
use std::fmt::Write as _;
use std::io;
use std::io::Write;
use std::marker::Model;
use text::{decimal_digits, push_bytes};

/// The longest line that is queued, in bytes, including its line feed.
const LONGEST_LINE: usize = 1_024;

/// Lines that were left out are reported once at most this many bytes are queued: half of the
/// capacity.
const REPORTED_BELOW: usize = 32_768;

/// The lines of a log, queued until its reader accepts them. A write to it never blocks and never
/// fails.
///
/// Lines are queued whole, in order. A line that does not fit is left out and counted, and so are
/// those after it, until half of the capacity is free; then `log: 1,234 lines left out` is queued
/// instead of them. All memory is allocated by `new`. Contracts see it as a `LogState`.
#[derive(Drop)]
pub struct LogQueue {
    queue: LineQueue,
    line: ArrayVec<u8, 1025>,
    stamp: Stamp,
    left_out: u64,
}

impl Model for LogQueue {
    ghost use Rattle.bus_log.specs.LogQueues.{LogState};

    ghost Value = { LogState };

    ghost view = { λ log.
        record {
          queued = log.queue;
          line = log.line.items;
          stamp = log.stamp.bytes;
          left_out = log.left_out;
        } };
}

impl LogQueue {
    /// Creates an empty queue.
    ///
    /// # Errors
    ///
    /// Out of memory.
    pub fn new(alloc: Global) -> Result<LogQueue, AllocError>
        ensures { IfOk result
            (λ log. log ≡ record { queued = []; line = []; stamp = []; left_out = 0 }) }
    {
        Ok(LogQueue {
            queue: LineQueue::new(alloc)?,
            line: ArrayVec::new(),
            stamp: Stamp::new(),
            left_out: 0,
        })
    }

    /// Whether bytes are queued.
    pub fn has_queued(&self) -> bool
        ensures some { result ≡ true → 0 < length self.now.queued }
        ensures none { result ≡ false → self.now.queued ≡ [] }
    {
        self.queue.len() > 0
    }

    /// Returns the first contiguous queued bytes, at most `most`.
    pub fn front(&self, most: usize) -> &[u8]
        ensures front { result.now ≡ take (length result.now) self.now.queued }
        ensures most { length result.now ≤ most }
        ensures some { 0 < most → 0 < length self.now.queued → 0 < length result.now }
        ensures within { length result.now ≤ length self.now.queued }
    {
        let front = self.queue.front();
        &front[..front.len().min(most)]
    }

    /// Removes `count` bytes, which were written, from the front.
    pub fn consume(&mut self, count: usize)
        requires { count ≤ length self.old.queued }
        ensures { self.new ≡ record self.old { queued = drop count self.old.queued } }
    {
        self.queue.consume(count);
    }

    /// Queues a line that reports how many lines were left out, if any were and half of the
    /// capacity is free.
    pub fn report_left_out(&mut self)
        ensures kept { is_reported self.old ≡ false → self.new ≡ self.old }
        ensures reported { is_reported self.old ≡ true → (line : List ℕ)
            × (self.new ≡ record self.old { queued = self.old.queued ++ line; left_out = 0 }) }
    {
        if self.left_out > 0 && self.queue.len() <= REPORTED_BELOW {
            self.queue.push(left_out_line(self.left_out).as_bytes());
            self.left_out = 0;
        }
    }

    /// Lets each line that follows begin with this text.
    pub(crate) fn begin_with(&mut self, stamp: Stamp)
        ensures { self.new ≡ begun_with stamp.bytes self.old }
    {
        self.stamp = stamp;
        self.begin_line();
    }

    /// Begins a line, without what is held of the unfinished one.
    fn begin_line(&mut self)
        ensures { self.new ≡ record self.old { line = self.old.stamp } }
    {
        self.line.clear();
        push_bytes(&mut self.line, self.stamp.as_bytes());
    }

    /// Prints a text: lines, of which each is queued when its line feed is printed.
    pub(crate) fn print(&mut self, text: &[u8])
        ensures { self.new ≡ after_text self.old text.now }
    {
        for byte in text {
            self.take(*byte);
        }
    }

    /// Prints a line and a line feed.
    pub(crate) fn print_line(&mut self, line: &Line)
        ensures { self.new ≡ after_lines self.old (line.now.bytes ∷ []) }
    {
        self.print(line.as_str().as_bytes());
        self.print(b"\n");
    }

    /// Prints a line of a number between two texts.
    pub(crate) fn print_count(&mut self, before: &str, number: u64, behind: &str)
        ensures { self.new
            ≡ after_lines self.old ((before.now ++ decimal number ++ behind.now) ∷ []) }
    {
        self.print(before.as_bytes());
        self.print(decimal_digits(number).as_slice());
        self.print(behind.as_bytes());
        self.print(b"\n");
    }

    /// Takes the next byte of the log.
    fn take(&mut self, byte: u8)
        ensures { self.new ≡ after_byte self.old byte }
    {
        if !self.line.is_full() {
            self.line.push(byte);
        }
        if byte == b'\n' {
            self.end_line();
        }
    }

    /// Ends the current line: queues it, or leaves it out.
    fn end_line(&mut self)
        ensures { self.new ≡ ended self.old }
    {
        if self.left_out == 0
            && self.line.len() <= LONGEST_LINE
            && self.queue.len() + self.line.len() <= LOG_CAPACITY
        {
            self.queue.push(self.line.as_slice());
        } else {
            self.left_out = self.left_out.saturating_add(1);
        }
        self.begin_line();
    }
}

impl Write for LogQueue {
    /// Takes all bytes.
    fn write(&mut self, buf: &[u8]) -> io::Result<usize>
        ensures bound { WritesAtMost result buf.now }
        ensures all { OnOk result (self.new ≡ after_text self.old buf.now) }
        ensures count { IfOk result (λ count. count ≡ length buf.now) }
    {
        self.print(buf);
        Ok(buf.len())
    }

    /// The bytes stay queued: only the reader removes them.
    fn flush(&mut self) -> io::Result<()> {
        Ok(())
    }
}

/// The line `log: 1 line left out`, or the number of lines, with its line feed.
fn left_out_line(count: u64) -> ArrayString<64> {
    let mut line = ArrayString::new();
    line.push_str("log: ");
    push_thousands(&mut line, count);
    let _ = line.try_push_str(if count == 1 {
        " line left out\n"
    } else {
        " lines left out\n"
    });
    line
}

/// Appends a number in groups of three digits, as `1,234,567`: at most 26 bytes.
fn push_thousands(line: &mut ArrayString<64>, count: u64) {
    let mut digits = ArrayString::<20>::new();
    let _ = write!(digits, "{count}");
    for (i, digit) in digits.as_bytes().iter().enumerate() {
        if i > 0 && (digits.len() - i) % 3 == 0 {
            let _ = line.try_push(',');
        }
        let _ = line.try_push(char::from(*digit));
    }
}
