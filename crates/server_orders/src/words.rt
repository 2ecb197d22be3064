//! The orders that a command line of `lbserver` gives.

use crate::share::Share;
use input_text::FileName;
use std::net::Ipv4Addr;

/// An order to `lbserver`.
#[derive(Drop)]
pub struct ServerOrder {
    /// The address to listen on. Every client that can reach it can drive trains.
    pub address: Ipv4Addr,
    /// The port, 0 to 65535; 0 is a free one that the system chooses.
    pub port: u16,
    /// The file that describes the decoders of the layout. Without it there are none.
    pub roster: Option<FileName>,
    /// The file of the track plan, with a roster. Without it no train moves.
    pub plan: Option<FileName>,
    /// The file of the decoder on the programming track. Without it there is no programming track.
    pub programmer: Option<FileName>,
    /// Track turns after each message, 0 to 255. Without it the track runs in real time.
    pub turns: Option<u8>,
    /// How many times as fast time passes, 1 to 100; never beside `turns`. Without it 1.
    pub rate: Option<u8>,
    /// The number of clients to serve before the server ends, at once with 0. Without it the server
    /// never ends.
    pub clients: Option<u32>,
    /// Whether the packets on the track are printed.
    pub track: bool,
    /// Whether nothing but the addresses is printed, not even packets.
    pub quiet: bool,
    /// Whether each line of the log begins with its time.
    pub times: bool,
    /// The port of the page, 0 to 65535, 0 for a free one. Without it no page is served.
    pub page: Option<u16>,
    /// The file of the page. Without it, the page of the repository is served.
    pub page_file: Option<FileName>,
    /// The names by which browsers reach the page, besides `localhost` and IP addresses.
    pub hosts: Vec<String>,
    /// The shares of packets that decoders miss, each of another decoder, at most one without a name.
    pub lose: Vec<Share>,
    /// The seed of the generator that draws the missed packets, any 32-bit number.
    pub seed: u32,
}

/// The parts of an order that own no memory.
#[derive(Clone, Copy)]
pub(crate) struct Settings {
    pub(crate) address: Ipv4Addr,
    pub(crate) port: u16,
    pub(crate) turns: Option<u8>,
    pub(crate) rate: Option<u8>,
    pub(crate) clients: Option<u32>,
    pub(crate) track: bool,
    pub(crate) quiet: bool,
    pub(crate) times: bool,
    pub(crate) page: Option<u16>,
    pub(crate) seed: u32,
}
