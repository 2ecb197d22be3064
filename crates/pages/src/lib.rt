//! What pages are told: the states of the decoders, the plan and its trains, and what messages say.
//!
//! An [`Updates`] tracks what the page of each client has not received of these states, and sends it
//! to the [`Clients`] of a server that are pages, of what is [`Shown`]. A [`PageText`] adds to the
//! text of the bus the words of each message.
//!
//! ```ignore
//! let mut updates = Updates::new();
//! let (world, railway) = (server.world(), server.railway());
//! updates.send_all(&mut clients, &Shown { roster, world, railway });
//! let taken = text.push(bytes);
//! text.consume(write(stream, text.queued()));
//! ```
//!
//! A page that has just opened is sent all states, and then those of the decoders and the trains that
//! differ from the ones that it was sent last.
//!
//! The tests are in `tests/server_checks/pages.py`.
#![tactic(auto)]

mod clients;
mod items;
mod page_text;
mod shown;
mod updates;
mod words;

pub use clients::Clients;
pub use page_text::{PageText, words_follow_messages};
pub use shown::Shown;
pub use updates::Updates;
