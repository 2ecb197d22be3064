//! The orders that a command line of `station` gives.

use input_text::FileName;

/// An order to `station`.
#[derive(Drop)]
pub enum Order {
    /// Plays a script from standard input.
    Replay {
        /// The lines of the station, 1 to 8.
        lines: u8,
        /// The file that describes the decoders of the layout. Without it there are none.
        roster: Option<FileName>,
    },
    /// Prints the messages of a captured hex text.
    Monitor {
        file: FileName,
    },
    /// Serves throttles over TCP.
    Serve {
        /// The port on 127.0.0.1, 1 to 65535.
        port: u16,
        /// The file that describes the decoders of the layout. Without it there are none.
        roster: Option<FileName>,
        /// Track turns after each byte, 0 to 255.
        turns: u8,
        /// The most reads of one connection, at least 1.
        reads: u32,
        /// The number of connections that are served, one after another, 1 to 1000.
        connections: u32,
    },
}
