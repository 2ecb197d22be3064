//! A queue of the bytes of whole lines.
ghost use Rattle.std.specs.Prelude.{◌≡◌, ◌<◌, ◌≤◌, ◌+◌, ◌++◌, [], IfOk, drop, length, nat_le, take};

use circular_buffer::HeapCircularBuffer;
use std::alloc::{AllocError, Global};
use std::marker::Model;

/// The capacity of the queue in bytes.
pub const LOG_CAPACITY: usize = 65_536;

/// The queued bytes, at most [`LOG_CAPACITY`], in order. All memory is allocated by `new`.
#[derive(Drop)]
pub(crate) struct LineQueue {
    // A ring: no bytes are moved when others are removed from its front.
    bytes: HeapCircularBuffer<u8>,
}

impl Model for LineQueue {
    ghost use Rattle.std.specs.Prelude.{◌≡◌, ℕ, List};

    ghost Value = { List ℕ };

    ghost view = { λ queue. queue.bytes.items };

    ghost invariant = { λ queue. queue.bytes.capacity ≡ 65536 };
}

impl LineQueue {
    /// Creates an empty queue.
    ///
    /// # Errors
    ///
    /// Out of memory.
    pub(crate) fn new(alloc: Global) -> Result<LineQueue, AllocError>
        ensures { IfOk result (λ queue. queue ≡ []) }
    {
        let bytes = HeapCircularBuffer::with_capacity(alloc, LOG_CAPACITY)?;
        Ok(LineQueue { bytes })
    }

    /// Returns the number of queued bytes.
    pub(crate) fn len(&self) -> usize
        ensures len { result ≡ length self.now }
        ensures most { result ≤ 65536 }
    {
        self.bytes.len()
    }

    /// Appends bytes, which must fit.
    pub(crate) fn push(&mut self, bytes: &[u8])
        requires { length self.old + length bytes.now ≤ 65536 }
        ensures { self.new ≡ self.old ++ bytes.now }
    {
        self.bytes.extend_from_slice(bytes);
    }

    /// Returns the first contiguous queued bytes: not empty unless the queue is.
    pub(crate) fn front(&self) -> &[u8]
        ensures front { result.now ≡ take (length result.now) self.now }
        ensures some { 0 < length self.now → 0 < length result.now }
        ensures within { length result.now ≤ length self.now }
    {
        let (front, back) = self.bytes.as_slices();
        if front.is_empty() { back } else { front }
    }

    /// Removes `count` bytes from the front.
    pub(crate) fn consume(&mut self, count: usize)
        requires { count ≤ length self.old }
        ensures { self.new ≡ drop count self.old }
    {
        self.bytes.truncate_front(self.bytes.len() - count);
    }
}
