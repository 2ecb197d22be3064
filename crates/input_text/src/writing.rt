//! Writing all bytes of a text.
ghost use Rattle.std.specs.Prelude.{◌≡◌, OnErr, OnOk};
ghost use Rattle.std.specs.Io.KnownBytes.{Appends};
ghost use Rattle.input_text.specs.Write.{AppendsFront, failed_after};

use crate::output::{Broken, Sink};

/// Writes all bytes.
///
/// # Errors
///
/// `Broken` if a write failed. Then a proper prefix of the bytes has been written.
pub fn put_all<O: Sink>(output: &mut O, bytes: &[u8]) -> Result<(), Broken>
    ensures all { OnOk result (Appends (O.held output.old) (O.held output.new) bytes.now) }
    ensures front { OnErr result (AppendsFront (O.held output.old) (O.held output.new) bytes.now) }
    ensures failed { O.failed output.new ≡ failed_after result (O.failed output.old) }
    ensures same { O.loan output.new ≡ O.loan output.old }
{
    let mut rest = bytes;
    while !rest.is_empty() {
        let count = output.put(rest)?;
        rest = &rest[count..];
    }
    Ok(())
}
