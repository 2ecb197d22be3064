//! The text that is queued for a client.
ghost use Rattle.std.specs.Prelude.{◌≡◌, ◌<◌, ◌≤◌, IfOk, Some, None, [], true, drop, is_some, length, take};
ghost use Rattle.bus_server.specs.SendQueue.{enqueued, is_more_than_quarter, queued};

use circular_buffer::HeapCircularBuffer;
use std::alloc::{AllocError, Global};
use std::marker::Model;

/// The most bytes that are queued for a client.
const QUEUE_CAPACITY: usize = 65_536;

/// The bytes that are to be written to a client, at most 65,536, in order; closed where there is no client, or where its
/// text had no room.
///
/// Its memory is taken once, by `new`. Contracts see it as the list of the bytes, or as `None` where it is closed.
#[derive(Drop)]
pub struct SendQueue {
    // A ring: nothing moves when bytes go from its front.
    bytes: HeapCircularBuffer<u8>,
    is_open: bool,
}

impl Model for SendQueue {
    ghost use Rattle.std.specs.Prelude.{◌≡◌, List, Option, Some, None, ℕ, if◌then◌else◌};

    ghost Value = { Option (List ℕ) };

    ghost view = { λ q. if q.is_open then Some q.bytes.items else None };

    ghost invariant = { λ q. q.bytes.capacity ≡ 65536 };
}

impl SendQueue {
    /// A closed queue.
    ///
    /// # Errors
    ///
    /// Out of memory: there are no 65,536 bytes.
    pub fn new(alloc: Global) -> Result<SendQueue, AllocError>
        ensures { IfOk result (λ q. q ≡ None) }
    {
        let bytes = HeapCircularBuffer::with_capacity(alloc, QUEUE_CAPACITY)?;
        Ok(SendQueue {
            bytes,
            is_open: false,
        })
    }

    /// Opens the queue for a client, empty.
    pub fn open(&mut self)
        ensures { self.new ≡ Some [] }
    {
        self.bytes.clear();
        self.is_open = true;
    }

    /// Closes the queue: what is in it is dropped, and nothing is enqueued any more.
    pub fn close(&mut self)
        ensures { self.new ≡ None }
    {
        self.is_open = false;
    }

    /// Whether the queue is open.
    pub fn is_open(&self) -> bool
        ensures { result ≡ is_some self.now }
    {
        self.is_open
    }

    /// Whether more than a quarter of the room is taken.
    pub fn is_more_than_quarter_full(&self) -> bool
        ensures { result ≡ is_more_than_quarter self.now }
    {
        self.is_open && self.bytes.len() > QUEUE_CAPACITY / 4
    }

    /// Appends a text, if the queue is open. Closes the queue if the text has no room.
    pub fn enqueue(&mut self, text: &[u8])
        ensures { self.new ≡ enqueued text.now self.old }
    {
        if !self.is_open {
            return;
        }
        if text.len() > QUEUE_CAPACITY - self.bytes.len() {
            self.close();
            return;
        }
        self.bytes.extend_from_slice(text);
    }

    /// The first bytes of the queue that lie side by side: some unless it is empty or closed.
    pub fn front(&self) -> &[u8]
        ensures front { result.now ≡ take (length result.now) (queued self.now) }
        ensures some { 0 < length (queued self.now) → 0 < length result.now }
    {
        if !self.is_open {
            return &[];
        }
        let (front, back) = self.bytes.as_slices();
        if front.is_empty() { back } else { front }
    }

    /// Removes bytes from the front, `count` of them.
    pub fn consume(&mut self, count: usize)
        requires open { is_some self.old ≡ true }
        requires some { count ≤ length (queued self.old) }
        ensures { self.new ≡ Some (drop count (queued self.old)) }
    {
        self.bytes.truncate_front(self.bytes.len() - count);
    }
}
