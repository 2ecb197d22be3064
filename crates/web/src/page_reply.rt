//! The response that holds the page.
ghost use Rattle.std.specs.Prelude.{◌≡◌, ◌<◌, ◌^◌, IfOk, length};
ghost use Rattle.web.specs.PageReplies.{whole};
ghost use Rattle.web.specs.Replies.{page_head_text};

use crate::reply::{Head, push_page_head};
use std::alloc::{AllocError, Global};
use std::marker::Model;

/// The response that holds the page. Contracts see it as its head and its content, the page.
#[derive(Drop)]
pub struct PageReply {
    bytes: Vec<u8>,
    /// The number of bytes of the head.
    head: usize,
}

impl Model for PageReply {
    ghost use Rattle.std.specs.Prelude.{◌≤◌, drop, length, take};
    ghost use Rattle.web.specs.PageReplies.{PageParts};

    ghost Value = { PageParts };

    ghost view = { λ reply. record {
      head = take reply.head reply.bytes.items;
      content = drop reply.head reply.bytes.items;
    } };

    ghost invariant = { λ reply. reply.head ≤ length reply.bytes.items };
}

impl PageReply {
    /// Creates the response that holds this page.
    ///
    /// # Errors
    ///
    /// Out of memory.
    pub fn new(alloc: Global, page: &[u8]) -> Result<PageReply, AllocError>
        ensures { length page.now < 2 ^ 32 → IfOk result (λ reply. reply
            ≡ record { head = page_head_text (length page.now); content = page.now }) }
    {
        let mut head = Head::new();
        push_page_head(&mut head, u32::try_from(page.len()).unwrap_or(u32::MAX));
        let mut bytes = Vec::new(alloc);
        bytes.extend_from_slice(head.as_slice())?;
        bytes.extend_from_slice(page)?;
        Ok(PageReply {
            bytes,
            head: head.len(),
        })
    }

    /// The whole response.
    pub fn whole(&self) -> &[u8]
        ensures { result.now ≡ whole self.now }
    {
        self.bytes.as_slice()
    }

    /// Its head alone.
    pub fn head(&self) -> &[u8]
        ensures { result.now ≡ self.now.head }
    {
        &self.bytes.as_slice()[..self.head]
    }
}
