//! Reading an input up to a limit.
ghost use Rattle.std.specs.Prelude.{◌≡◌, ◌<◌, ◌^◌, false, IfOk};
ghost use Rattle.input_text.specs.Read.{ReadsMost, has_failed};

use crate::input::{Input, ReadFault};
use std::alloc::Global;

/// The number of bytes requested of an input at a time.
const CHUNK: usize = 4096;

/// Reads an input to its end, or to `limit` bytes, below 2^32. No byte beyond the limit is read.
///
/// # Errors
///
/// `Failed` if a read failed; `NoMemory` if out of memory. In both cases the number of bytes
/// consumed is not known.
pub fn read_limited<I: Input>(
    alloc: Global,
    input: &mut I,
    limit: usize,
) -> Result<Vec<u8>, ReadFault>
    requires limit { limit < 2 ^ 32 }
    requires works { I.failed input.old ≡ false }
    ensures read { IfOk result
        (λ v. ReadsMost (I.left input.old) (I.left input.new) limit v.items) }
    ensures failed { I.failed input.new ≡ has_failed result }
{
    let mut bytes = Vec::new(alloc);
    let mut chunk = [0u8; CHUNK];
    while bytes.len() < limit {
        let want = (limit - bytes.len()).min(CHUNK);
        let count = input.get(&mut chunk[..want])?;
        if count == 0 {
            return Ok(bytes);
        }
        if bytes.extend_from_slice(&chunk[..count]).is_err() {
            return Err(ReadFault::NoMemory);
        }
    }
    Ok(bytes)
}
