//! The module of an accessory decoder.
ghost use Rattle.std.specs.Prelude.{◌≡◌, ℕ, Some, None, if◌then◌else◌, IsTrue};
ghost use Rattle.dcc_packet.specs.Module.{is_module};

use std::marker::Model;

/// The number of an accessory decoder, 1 to 510 (S-9.2.1, basic accessory decoders; 511 is their broadcast).
#[derive(Clone, Copy, PartialEq, Eq)]
pub struct Module {
    number: u16,
}

impl Model for Module {
    ghost Value = { ℕ };

    ghost view = { λ m. m.number };

    ghost invariant = { λ m. IsTrue (is_module m.number) };

    ghost inverse = { λ number. record { number = number } };
}

impl Module {
    /// The module of this number, or `None` outside 1 to 510.
    pub fn new(number: u16) -> Option<Module>
        ensures { result ≡ (if is_module number then Some number else None) }
    {
        match number {
            1..=510 => Some(Module { number }),
            _ => None,
        }
    }

    /// Its number, 1 to 510.
    pub fn number(self) -> u16
        ensures value { result ≡ self }
        ensures range { IsTrue (is_module result) }
    {
        self.number
    }
}
