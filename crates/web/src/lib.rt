//! The HTTP server's side of a web page, and the WebSocket that makes the page a client of LocoNet
//! over TCP. Without sockets, threads or a clock.
//!
//! A [`HttpExchange`] is one HTTP exchange: it receives the bytes of a request, gives the bytes of the
//! response, and is closed or upgraded. A [`Page`] is an upgraded connection as a stream of lines.
//! [`response`] gives the response ([`Response`]) to the bytes of a request.
//!
//! ```ignore
//! let mut exchange = HttpExchange::new(now);
//! exchange.receive(names, bytes, now);
//! let count = write(stream, exchange.remaining(page));
//! exchange.sent(count, page, now);
//! if let Stage::Upgraded { .. } = exchange.stage() {
//!     let page = Page::new(alloc, stream, exchange.leftover())?;
//! }
//! ```
//!
//! The tests are in `server_tests/src`: `test_web.rt` and `test_web/`, and in `tests/server_checks`.
#![tactic(auto)]

mod exchange;
mod head;
mod http_response;
pub mod laws;
mod lines;
mod origin;
mod page;
mod page_reply;
mod read_once;
mod reply;
mod routing;

pub use exchange::{HttpExchange, Stage};
pub use http_response::{HttpError, Response, UpgradeRequest};
pub use laws::lines_are_messages;
pub use lines::LONGEST_LINE;
pub use page::Page;
pub use page_reply::PageReply;
pub use reply::{Head, push_error, push_error_head, push_page_head, push_upgrade};
pub use routing::{MAX_FIELDS, MAX_HEAD, response};
