//! An HTTP exchange: the request received so far and the response still to be written.
ghost use Rattle.std.specs.Prelude.{◌≡◌, ◌<◌, ◌≤◌, ◌+◌, ◌-◌, ◌↔◌, drop, length, map, string_bytes, true};
ghost use Rattle.web.specs.declared.exchange.Stage.TheVariants.{ReadingRequest};
ghost use Rattle.web.specs.Exchanges.{Receives, initial_exchange, leftover_of, remaining_text, reply_text, time_out, text_of, after_write};
ghost use Rattle.web.specs.PageReplies.{no_page};

use crate::http_response::{HttpError, Response};
use crate::page_reply::PageReply;
use crate::reply::{Head, push_error, push_error_head, push_upgrade};
use crate::routing::{MAX_HEAD, response};
use arrayvec::ArrayVec;
use std::marker::Model;
use text::push_bytes;

/// The time for a complete request head, in microseconds.
const REQUEST_TIMEOUT: u64 = 5_000_000;

/// The time for writing the response, in microseconds.
const RESPONSE_TIMEOUT: u64 = 10_000_000;

/// The time for the client to close the connection after that, in microseconds.
const DRAIN_TIMEOUT: u64 = 1_000_000;

/// The stage of an HTTP exchange.
#[derive(Clone, Copy)]
pub enum Stage {
    /// Reading the request head: bytes read are passed to [`HttpExchange::receive`].
    ReadingRequest,
    /// Writing the response, of which `written` bytes are written: [`HttpExchange::remaining`] is written, and
    /// [`HttpExchange::sent`] receives the count of bytes written.
    WritingResponse { response: Response, written: usize },
    /// The response is written, and the connection continues as a WebSocket after the first `head_length`
    /// bytes received.
    Upgraded { head_length: usize },
    /// The response is written. Further bytes are read and discarded, because closing a connection
    /// with unread bytes discards the response.
    Draining,
}

/// One HTTP exchange, from the first byte of a request until the connection is closed or upgraded
/// to a WebSocket.
///
/// It reads no stream and no clock: the caller passes the bytes received, the count of bytes
/// written and the time, in microseconds since a start of the caller's choice. Contracts see it as
/// the bytes received, the stage, and the deadline of the stage.
#[derive(Drop)]
pub struct HttpExchange {
    received: ArrayVec<u8, MAX_HEAD>,
    stage: Stage,
    deadline: u64,
    /// The response as text, without the page.
    head: Head,
}

impl Model for HttpExchange {
    ghost use Rattle.std.specs.Prelude.{◌≡◌, ◌<◌, length};
    ghost use Rattle.web.specs.Exchanges.{ExchangeState};
    ghost use Rattle.web.specs.ExchangeInvariants.{HasHead, HasRoom};

    ghost Value = { ExchangeState };

    ghost view = { λ exchange.
        record {
          received = exchange.received.items;
          stage = exchange.stage;
          deadline = exchange.deadline;
        } };

    ghost invariant = { λ exchange. HasHead exchange.stage exchange.head.items
        × HasRoom exchange.stage exchange.received.items };
}

impl HttpExchange {
    /// Creates an exchange that has five seconds for the request head.
    pub fn new(now: u64) -> HttpExchange
        ensures { result ≡ initial_exchange now }
    {
        HttpExchange {
            received: ArrayVec::new(),
            stage: Stage::ReadingRequest,
            deadline: now.saturating_add(REQUEST_TIMEOUT),
            head: Head::new(),
        }
    }

    /// The stage of the exchange.
    pub fn stage(&self) -> &Stage
        ensures { result.now ≡ self.now.stage }
    {
        &self.stage
    }

    /// Returns the microseconds left for the stage.
    pub fn time_left(&self, now: u64) -> u64
        ensures { result ≡ self.now.deadline - now }
    {
        self.deadline.saturating_sub(now)
    }

    /// Returns the most bytes of the request that may be passed next: at least 1 while the head is
    /// read, else 0.
    pub fn room(&self) -> usize
        ensures room { result + length self.now.received ≡ 8192 }
        ensures some { self.now.stage ≡ ReadingRequest → 0 < result }
    {
        self.received.remaining_capacity()
    }

    /// Receives bytes of the request to a server of these names ([`response`]). As soon as the bytes
    /// received determine the response, it is due, with ten seconds to write it.
    pub fn receive(&mut self, names: &[String], bytes: &[u8], now: u64)
        requires reading { self.old.stage ≡ ReadingRequest }
        requires room { length self.old.received + length bytes.now ≤ 8192 }
        ensures { Receives (map (λ name. string_bytes name) names.now) bytes.now now self.old
            self.new }
    {
        push_bytes(&mut self.received, bytes);
        match response(names, self.received.as_slice()) {
            Response::Incomplete => {}
            response => {
                self.head = head_of(&response);
                self.stage = Stage::WritingResponse {
                    response,
                    written: 0,
                };
                self.deadline = now.saturating_add(RESPONSE_TIMEOUT);
            }
        }
    }

    /// Returns the part of the response not yet written. `page` is the response that holds the page.
    pub fn remaining<'a>(&'a self, page: &'a PageReply) -> &'a [u8]
        ensures { result.now ≡ remaining_text page.now self.now.stage }
    {
        match &self.stage {
            Stage::WritingResponse { written, .. } => rest(self.text(page), *written),
            _ => &[],
        }
    }

    /// Records that `count` bytes of [`HttpExchange::remaining`] were written. After the last one an upgraded
    /// connection is a WebSocket; any other has one second to be closed by the client.
    pub fn sent(&mut self, count: usize, page: &PageReply, now: u64)
        requires { count ≤ length (remaining_text page.now self.old.stage) }
        ensures { self.new ≡ after_write page.now count now self.old.stage self.old }
    {
        if let Stage::WritingResponse { response, written } = self.stage {
            if count < self.text(page).len().saturating_sub(written) {
                self.stage = Stage::WritingResponse {
                    response,
                    written: written + count,
                };
            } else if let Response::Upgrade(upgrade) = response {
                self.stage = Stage::Upgraded {
                    head_length: upgrade.head_length,
                };
            } else {
                self.stage = Stage::Draining;
                self.deadline = now.saturating_add(DRAIN_TIMEOUT);
            }
        }
    }

    /// Ends a stage whose time has elapsed. An incomplete request is rejected (408), and true is
    /// returned. False means that the connection is to be closed.
    pub fn time_out(&mut self, now: u64) -> bool
        ensures exchange { self.new ≡ time_out now self.old.stage self.old }
        ensures reading { result ≡ true ↔ self.old.stage ≡ ReadingRequest }
    {
        match self.stage {
            Stage::ReadingRequest => {
                let response = Response::Error(HttpError::TimedOut);
                self.head = head_of(&response);
                self.stage = Stage::WritingResponse {
                    response,
                    written: 0,
                };
                self.deadline = now.saturating_add(RESPONSE_TIMEOUT);
                true
            }
            _ => false,
        }
    }

    /// Returns the bytes received after the head of an upgraded connection, which belong to the
    /// WebSocket.
    pub fn leftover(&self) -> &[u8]
        ensures { result.now ≡ leftover_of self.now.stage self.now.received }
    {
        match &self.stage {
            Stage::Upgraded { head_length } => rest(self.received.as_slice(), *head_length),
            _ => &[],
        }
    }

    /// The whole response being written, if there is one.
    fn text<'a>(&'a self, page: &'a PageReply) -> &'a [u8]
        ensures { result.now ≡ text_of page.now self.now.stage }
    {
        let Stage::WritingResponse { response, .. } = &self.stage else {
            return &[];
        };
        match response {
            Response::Page => page.whole(),
            Response::PageHead => page.head(),
            _ => self.head.as_slice(),
        }
    }
}

/// A response as text, without the page.
fn head_of(response: &Response) -> Head
    ensures { result.items ≡ reply_text no_page response.now }
{
    let mut head = Head::new();
    match response {
        Response::Incomplete | Response::Page | Response::PageHead => {}
        Response::Upgrade(upgrade) => push_upgrade(&mut head, upgrade),
        Response::Error(error) => push_error(&mut head, *error),
        Response::ErrorHead(error) => push_error_head(&mut head, *error),
    }
    head
}

/// Returns the bytes after the first `count`.
fn rest(bytes: &[u8], count: usize) -> &[u8]
    ensures { result.now ≡ drop count bytes.now }
{
    bytes.get(count..).unwrap_or(&[])
}
