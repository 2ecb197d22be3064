//! The texts of a filter's command line, and the order that it gives.

use input_text::FileName;

/// A flag of a filter.
#[derive(Clone, Copy)]
pub struct FilterFlag<'a> {
    /// Its name after the two dashes.
    pub name: &'a str,
    /// What it does, in one line.
    pub help: &'a str,
}

/// What `--help` says of a filter.
#[derive(Clone, Copy)]
pub struct FilterText<'a> {
    /// The name of the program.
    pub name: &'a str,
    /// What it does, in one line.
    pub about: &'a str,
    /// What it reads, and an example; they follow the arguments.
    pub details: &'a str,
    /// What a line that it reads is called in fault lines.
    pub line: &'a str,
    /// The flag that it has, if it has one.
    pub flag: Option<FilterFlag<'a>>,
    /// A second flag.
    pub second_flag: Option<FilterFlag<'a>>,
}

/// Which flags are set; none by default.
#[derive(Clone, Copy, Default)]
pub struct FilterFlags {
    /// Whether the flag is set. Without a flag it is false.
    pub first: bool,
    /// The same of the second flag.
    pub second: bool,
}

/// An order to a filter.
#[derive(Drop)]
pub struct FilterOrder {
    /// The file to read. Without it standard input is read.
    pub file: Option<FileName>,
    pub flags: FilterFlags,
}
