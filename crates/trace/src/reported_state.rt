//! The states of decoders, as lines show them.
use arrayvec::ArrayVec;
use dcc_packet::{Address, Module, Motion};
use std::marker::Model;

/// The name of a decoder: 1 to 16 ASCII letters, digits, `-` and `_`.
#[derive(Clone, Drop)]
pub struct Name {
    pub(crate) bytes: ArrayVec<u8, 16>,
}

impl Model for Name {
    ghost use Rattle.std.specs.Prelude.{List, ℕ};

    ghost Value = { List ℕ };

    ghost view = { λ name. name.bytes.items };

    ghost inverse = { λ bytes. record { bytes = record { items = bytes } } };
}

/// Functions or outputs as digits, from number 0 on: 1 for one that is on, otherwise 0.
#[derive(Clone, Drop)]
pub struct Switches {
    pub(crate) digits: ArrayVec<u8, 13>,
}

impl Model for Switches {
    ghost use Rattle.std.specs.Prelude.{List, ℕ};

    ghost Value = { List ℕ };

    ghost view = { λ switches. switches.digits.items };

    ghost inverse = { λ digits. record { digits = record { items = digits } } };
}

/// The state of a decoder.
#[derive(Clone, Drop)]
pub enum ReportedState {
    /// A locomotive decoder: its address, how it runs, and its functions F0 to F12.
    Loco {
        address: Address,
        motion: Motion,
        forward: bool,
        functions: Switches,
    },
    /// An accessory decoder: its module, and its outputs 0 to 7.
    Accessory {
        module: Module,
        outputs: Switches,
    },
}

/// The state of the decoder of this name.
#[derive(Clone, Drop)]
pub struct Seen {
    pub name: Name,
    pub reported_state: ReportedState,
}

impl Name {
    ghost use Rattle.std.specs.Prelude.{◌≡◌};

    /// The bytes of the name.
    pub fn bytes(&self) -> &[u8]
        ensures { result.now ≡ self.now }
    {
        self.bytes.as_slice()
    }
}

impl Switches {
    ghost use Rattle.std.specs.Prelude.{◌≡◌, length};
    ghost use Rattle.trace.specs.Node.{is_on};

    /// Whether the function or output of this number, from 0, is on; one that does not exist is
    /// off.
    pub fn is_on(&self, place: usize) -> bool
        ensures { result ≡ is_on self.now place }
    {
        match self.digits.as_slice().get(place) {
            Some(digit) => *digit == b'1',
            None => false,
        }
    }
}
