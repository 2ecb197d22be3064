//! The text of the bus on its way to a page, which also receives each message in words.
ghost use Rattle.std.specs.Prelude.{◌≡◌, ◌<◌, ◌≤◌, ◌+◌, ◌++◌, [], List, ℕ, None, Some, MatchOption, drop, length, slice_index, take};
ghost use Rattle.arrayvec.specs.ArrayVec.{array_vec_len};
ghost use Rattle.ln_frame.specs.Message.{IsWhole};
ghost use Rattle.loconet_tcp.specs.ClientLines.{receive_text};
ghost use Rattle.pages.specs.PageText.{line_after, line_along, page_text, received, with_words, words_line};

use arrayvec::ArrayVec;
use describe::message_words;
use loconet_tcp::laws::{received_lines_are_short, written_bytes_are_read};
use loconet_tcp::{Bytes, LONGEST_LINE, bytes_of};
use std::marker::Model;
use text::cut_piece;

/// The most bytes that are queued.
const CAPACITY: usize = 4_096;

/// The most bytes that are queued for one byte of the bus: a line feed, `WORDS`, a blank, 400 bytes of
/// words and the end of their line.
const LONGEST_STEP: usize = 409;

type Line = ArrayVec<u8, LONGEST_LINE>;

type Queue = ArrayVec<u8, CAPACITY>;

/// The text of the bus for one page: behind the line of each message a line with its words.
///
/// It holds the line that has begun and up to 4,096 bytes that are to be written to the page.
#[derive(Drop)]
pub struct PageText {
    line: Line,
    queue: Queue,
    /// How many bytes of the queue were taken by the page.
    taken: usize,
}

impl Model for PageText {
    ghost use Rattle.std.specs.Prelude.{◌≤◌, drop};
    ghost use Rattle.arrayvec.specs.ArrayVec.{array_vec_len};
    ghost use Rattle.pages.specs.PageText.{PageTextState};

    ghost Value = { PageTextState };

    ghost view = { λ text. record {
      line = text.line.items;
      queued = drop text.taken text.queue.items;
    } };

    ghost invariant = { λ text. text.taken ≤ array_vec_len text.queue };
}

impl PageText {
    /// Creates the text of a page that was sent nothing yet.
    pub fn new() -> PageText
        ensures { result ≡ record { line = []; queued = [] } }
    {
        PageText {
            line: ArrayVec::new(),
            queue: ArrayVec::new(),
            taken: 0,
        }
    }

    /// Takes bytes of the text of the bus, as many as have room with the words behind them. Returns
    /// how many.
    pub fn push(&mut self, bytes: &[u8]) -> usize
        ensures count { result ≤ length bytes.now }
        ensures some { self.old.queued ≡ [] → 0 < length bytes.now → 0 < result }
        ensures line { self.new.line ≡ line_along self.old.line (take result bytes.now) }
        ensures queued { self.new.queued
            ≡ self.old.queued ++ page_text self.old.line (take result bytes.now) }
    {
        self.taken = clear_if_taken(&mut self.queue, self.taken);
        fill(&mut self.line, &mut self.queue, bytes)
    }

    /// The bytes that are to be written to the page.
    pub fn queued(&self) -> &[u8]
        ensures { result.now ≡ self.now.queued }
    {
        &self.queue.as_slice()[self.taken..]
    }

    /// Removes bytes from the front of the queue: the page has taken them.
    pub fn consume(&mut self, count: usize)
        requires { count ≤ length self.old.queued }
        ensures line { self.new.line ≡ self.old.line }
        ensures queued { self.new.queued ≡ drop count self.old.queued }
    {
        let rest = self.queued().len() - count;
        self.taken = self.queue.len() - rest;
    }
}

/// Clears a queue if all of it was taken. Returns how many bytes of it were taken then.
fn clear_if_taken(queue: &mut Queue, taken: usize) -> usize
    requires { taken ≤ array_vec_len queue.old }
    ensures kept { drop result queue.new.items ≡ drop taken queue.old.items }
    ensures within { result ≤ array_vec_len queue.new }
    ensures room { drop taken queue.old.items ≡ [] → queue.new.items ≡ [] }
{
    if taken == queue.len() {
        queue.clear();
        return 0;
    }
    taken
}

/// Takes bytes, with the words behind them, while there is room. Returns how many.
fn fill(line: &mut Line, queue: &mut Queue, bytes: &[u8]) -> usize
    ensures count { result ≤ length bytes.now }
    ensures some { queue.old.items ≡ [] → 0 < length bytes.now → 0 < result }
    ensures line { line.new.items ≡ line_along line.old.items (take result bytes.now) }
    ensures queue { queue.new.items
        ≡ queue.old.items ++ page_text line.old.items (take result bytes.now) }
    ensures longer { array_vec_len queue.old ≤ array_vec_len queue.new }
{
    for (count, byte) in bytes.iter().enumerate() {
        if queue.remaining_capacity() < LONGEST_STEP {
            return count;
        }
        take_byte(line, queue, *byte);
    }
    bytes.len()
}

/// Takes a byte, and behind the end of a line the words of its message.
fn take_byte(line: &mut Line, queue: &mut Queue, byte: u8)
    requires { array_vec_len queue.old + 409 ≤ 4096 }
    ensures line { line.new.items ≡ line_after line.old.items byte }
    ensures queue { queue.new.items ≡ queue.old.items ++ with_words line.old.items byte }
{
    queue.push(byte);
    if byte == b'\n' {
        push_words(queue, line.as_slice());
        line.clear();
    } else if byte != b'\r' && !line.is_full() {
        line.push(byte);
    }
}

/// Appends the line with the words of a line's message, at most 408 bytes; nothing if the line has
/// no message.
fn push_words(queue: &mut Queue, line: &[u8])
    requires line { length line.now ≤ 400 }
    requires room { array_vec_len queue.old + 408 ≤ 4096 }
    ensures { queue.new.items ≡ queue.old.items ++ words_line (received line.now) }
{
    let Some(message) = received(line) else {
        return;
    };
    push_text(queue, b"WORDS ");
    push_text(queue, message_words(message.as_slice()).as_slice());
    push_text(queue, b"\r\n");
}

/// Returns the bytes of the message that a line says was on the bus.
fn received(line: &[u8]) -> Option<Bytes>
    requires { length line.now ≤ 400 }
    ensures { MatchOption result (received line.now ≡ None)
        (λ message. received line.now ≡ Some message.items) }
{
    let (first, rest) = cut_piece(line);
    if first == b"RECEIVE".as_slice() {
        bytes_of(rest)
    } else {
        None
    }
}

/// Appends a text.
fn push_text(queue: &mut Queue, text: &[u8])
    requires { array_vec_len queue.old + length text.now ≤ 4096 }
    ensures text { queue.new.items ≡ queue.old.items ++ text.now }
    ensures len { array_vec_len queue.new ≡ array_vec_len queue.old + length text.now }
{
    let _fits = queue.try_extend_from_slice(text);
}

/// Each message on the bus has its words behind it, and however a text is cut, a page receives the
/// same. It has no code: a call gives the law to its caller's proof.
pub fn words_follow_messages()
    ensures words { (message : List ℕ) → IsWhole message
        → ((i : ℕ) → slice_index message i < 256)
        → page_text [] (receive_text message)
        ≡ receive_text message ++ words_line (Some message) }
    // Behind its line another one begins.
    ensures whole { (message : List ℕ) → line_along [] (receive_text message) ≡ [] }
    ensures pieces { (line front back : List ℕ) → page_text line (front ++ back)
        ≡ page_text line front ++ page_text (line_along line front) back }
    ensures held { (line front back : List ℕ)
        → line_along line (front ++ back) ≡ line_along (line_along line front) back }
{
    received_lines_are_short();
    written_bytes_are_read();
}
