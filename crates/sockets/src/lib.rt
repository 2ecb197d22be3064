//! The sockets of a server: its HTTP connections, its upgraded pages, and the streams of up to
//! eight clients.
//!
//! [`Sockets`] is the transport of a `bus_server`. [`HttpConnection`] is one HTTP exchange with its
//! stream. [`Stopwatch`] measures the time since the start.
//!
//! ```ignore
//! let mut sockets = Sockets::bind(rt, address, &mut log)?;
//! sockets.bind_page(page_address, page, names)?;
//! server.run(&mut sockets, ..)?;
//! log = sockets.close_all();
//! ```
//!
//! A [`CallLog`] says in contracts what the calls of sockets and of their clock returned, and whether
//! one of the system failed.
#![tactic(auto)]

mod call_log;
mod client;
mod connections;
mod http_connection;
mod http_server;
mod silence;
mod sockets;
mod stopwatch;
mod system_fault;
mod ticking;
mod wait_time;

pub use call_log::CallLog;
pub use http_connection::{HttpConnection, Progress, Stream, is_retryable};
pub use sockets::Sockets;
pub use stopwatch::Stopwatch;
pub use system_fault::SystemFault;
pub use ticking::Ticking;
pub use wait_time::{duration_of, micros_between, micros_of, sooner};
