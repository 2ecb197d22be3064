//! Whether standard input is a terminal.
ghost use Rattle.std.specs.Prelude.{◌≡◌};
ghost use Rattle.filter.specs.Terminal.{is_terminal_number};

use std::fs;
use std::os::unix::fs::{FileTypeExt, MetadataExt};
use std::rt::Files;

/// The file that Linux has for standard input.
const STANDARD_INPUT: &'static str = "/dev/stdin";

/// Whether a character device of Linux with this major number is a terminal.
fn is_terminal_number(major: u64) -> bool
    ensures { result ≡ is_terminal_number major }
{
    matches!(major, 4 | 5 | 136..=143)
}

/// Whether standard input is a terminal. False if the system does not tell.
pub(crate) fn is_terminal<R: Files>(rt: &R) -> bool {
    match fs::metadata(rt, STANDARD_INPUT) {
        Ok(about) => {
            about.file_type().is_char_device() && is_terminal_number((about.rdev() >> 8) & 0xFFF)
        }
        Err(_) => false,
    }
}
