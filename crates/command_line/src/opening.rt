//! Opening the file that is to be read.
ghost use Rattle.std.specs.Prelude.{◌≡◌, false, IfOk};
ghost use Rattle.command_line.specs.Opening.{open_error_words};
ghost use Rattle.input_text.specs.TrackedReader.{read_failed};

use input_text::{FileName, TrackedReader};
use std::fs;
use std::fs::OpenFile;
use std::io::ErrorKind;
use std::rt::Files;

/// Opens a file as an input.
///
/// # Errors
///
/// Why it cannot be opened: `IsADirectory` for a folder, which the system opens and does not read.
pub fn open_file<R: Files>(rt: &R, name: &FileName) -> Result<TrackedReader<R::File>, ErrorKind>
    ensures works { IfOk result (λ input. read_failed input ≡ false) }
{
    match fs::open(rt, name.as_str()) {
        Ok(file) => {
            if is_folder(&file) {
                Err(ErrorKind::IsADirectory)
            } else {
                Ok(TrackedReader::new(file))
            }
        }
        Err(error) => Err(error.kind()),
    }
}

/// Returns why a file cannot be opened, in words.
pub fn open_error_words(why: ErrorKind) -> &'static str
    ensures { result.now ≡ open_error_words why }
{
    match why {
        ErrorKind::NotFound | ErrorKind::NotADirectory => "no such file",
        ErrorKind::IsADirectory => "is a folder",
        ErrorKind::PermissionDenied => "permission denied",
        ErrorKind::InvalidFilename | ErrorKind::InvalidInput => "not a name of a file",
        _ => "it cannot be opened",
    }
}

/// Whether an open file is a folder.
fn is_folder<F: OpenFile>(file: &F) -> bool {
    match file.metadata() {
        Ok(about) => about.is_dir(),
        Err(_) => false,
    }
}
