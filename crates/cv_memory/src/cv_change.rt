//! Changes of a decoder's variables.

/// What an instruction changes of a decoder's variables.
#[derive(Clone, Copy, PartialEq, Eq)]
pub enum CvChange {
    /// The variable at an address, 0 to 1023, has another value: this one.
    Stored { address: u16, value: u8 },
    /// All variables have the values of the file, which some had not.
    Reset,
}
