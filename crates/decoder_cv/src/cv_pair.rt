//! A configuration variable with its value.

/// A configuration variable with its value, as decoder files list them (S-9.2.2).
///
/// The default, number 0, is no variable: it is there for vectors of a fixed capacity, which ask for one.
#[derive(Clone, Copy, Default)]
pub struct CvPair {
    /// Its number. Variables are numbered 1 to 1024; a list with another number is refused.
    pub number: u16,
    /// The byte that the variable holds, 0 to 255.
    pub value: u8,
}
