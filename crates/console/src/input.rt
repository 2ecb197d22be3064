//! Reading files.
ghost use Rattle.std.specs.Prelude.{◌≡◌, ◌<◌, ◌≤◌, ◌+◌, ◌^◌, None, false, length, IfErr, IfOk};
ghost use Rattle.console.specs.Fault.{ended_by, is_unread_file, of_file};
ghost use Rattle.console.specs.Files.{FailsFile, ReadsFile};
ghost use Rattle.input_text.specs.TrackedReader.{read_failed};

use crate::fault::RunFault;
use input_text::{FileName, Input, ReadFault, TrackedReader, read_limited};
use std::alloc::Global;
use std::fs;
use std::io::ErrorKind;
use std::rt::Files;

/// The fault of a run that needed this file.
pub(crate) fn not_read(fault: ReadFault, file: FileName) -> RunFault
    ensures { result ≡ of_file file fault }
{
    fault.choose(RunFault::Unreadable(file), RunFault::NoMemory)
}

/// A file as an input.
pub(crate) fn open<R: Files>(rt: &R, file: &FileName) -> Result<TrackedReader<R::File>, ReadFault>
    ensures { IfOk result (λ input. read_failed input ≡ false) }
{
    match fs::open(rt, file.as_str()) {
        Ok(opened) => Ok(TrackedReader::new(opened)),
        Err(error) => match error.kind() {
            ErrorKind::OutOfMemory => Err(ReadFault::NoMemory),
            _ => Err(ReadFault::Failed),
        },
    }
}

/// Returns the bytes of a file of at most `most` bytes, below 2^32 - 1. The faults are those of
/// [`whole_from`]; `Unreadable` also if the file cannot be opened.
pub fn read_whole<R: Files + AllocGlobal>(
    rt: &R,
    file: FileName,
    most: usize,
) -> Result<Vec<u8>, RunFault>
    requires { most + 1 < 2 ^ 32 }
    ensures most { IfOk result (λ v. length v.items ≤ most) }
    // All that some file has, to its end.
    ensures read { IfOk result (λ v. (old : R.File) × (new : R.File)
        × ReadsFile most (R.File.remaining old) (R.File.remaining new) v.items) }
    ensures fault { IfErr result (FailsFile most file None None) }
{
    let mut input = match open(rt, &file) {
        Ok(input) => input,
        Err(fault) => return Err(not_read(fault, file)),
    };
    whole_from(rt.alloc(), file, &mut input, most)
}

/// Returns the bytes of an input of at most `most` bytes, below 2^32 - 1, which is the file of this
/// name. Of a longer one at most one byte more is read.
///
/// # Errors
///
/// `Unreadable` if a read fails; `TooLong`; `NoMemory` if out of memory.
pub fn whole_from<I: Input>(
    alloc: Global,
    file: FileName,
    input: &mut I,
    most: usize,
) -> Result<Vec<u8>, RunFault>
    requires most { most + 1 < 2 ^ 32 }
    requires works { I.failed input.old ≡ false }
    ensures read { IfOk result
        (λ v. ReadsFile most (I.left input.old) (I.left input.new) v.items) }
    ensures fault { IfErr result (FailsFile most file (I.left input.old) (I.left input.new)) }
    ensures failed { I.failed input.new ≡ ended_by is_unread_file result }
{
    match read_limited(alloc, input, most + 1) {
        Ok(bytes) if bytes.len() <= most => Ok(bytes),
        Ok(_) => Err(RunFault::TooLong(file)),
        Err(fault) => Err(not_read(fault, file)),
    }
}
