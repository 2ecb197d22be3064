//! The arguments of a program, as texts.
ghost use Rattle.std.specs.Prelude.{◌≡◌, ◌≢◌, IfErr, IfOk, map, string_bytes};
ghost use Rattle.std.specs.IoError.{error_kind};
ghost use Rattle.command_line.specs.declared.fault.OrderFault.TheVariants.{NoMemory};
ghost use Rattle.command_line.specs.Arguments.{IsArgumentFault};

use crate::fault::OrderFault;
use std::alloc::{AllocError, Global};
use std::env::{Args, Env};
use std::io::ErrorKind;
use std::{env, io};

/// Returns the arguments after the program's name. An argument that is not UTF-8 is a fault of
/// usage, whose text `no_text` makes.
///
/// # Errors
///
/// `Usage`, and `NoMemory` if out of memory.
pub fn read_words<E: Env, F: FnOnce(Global) -> OrderFault>(
    alloc: Global,
    from: &E,
    no_text: F,
) -> Result<Vec<String>, OrderFault>
    requires { F.pre no_text alloc }
    ensures fault { IfErr result (IsArgumentFault (F.post no_text alloc)) }
{
    match env::args(&(from, alloc)) {
        Ok(all) => Ok(after_name(alloc, all)?),
        Err(error) => Err(no_words(alloc, &error, no_text)),
    }
}

/// Returns the arguments but the first, the program's name.
fn after_name(alloc: Global, all: Args) -> Result<Vec<String>, AllocError> {
    let mut words = Vec::new(alloc);
    for word in all.skip(1) {
        words.push(word)?;
    }
    Ok(words)
}

/// Why the arguments are not available.
fn no_words<F: FnOnce(Global) -> OrderFault>(
    alloc: Global,
    error: &io::Error,
    no_text: F,
) -> OrderFault
    requires { F.pre no_text alloc }
    ensures memory { error_kind error.now ≡ ErrorKind.OutOfMemory → result ≡ NoMemory }
    ensures text { error_kind error.now ≢ ErrorKind.OutOfMemory → F.post no_text alloc result }
    ensures fault { IsArgumentFault (F.post no_text alloc) result }
{
    match error.kind() {
        ErrorKind::OutOfMemory => OrderFault::NoMemory,
        _ => no_text(alloc),
    }
}

/// The arguments, borrowed as `&str`.
pub fn texts<'a>(alloc: Global, words: &'a [String]) -> Result<Vec<&'a str>, AllocError>
    ensures texts { IfOk result
        (λ texts. map (λ text. text.now) texts.items
        ≡ map (λ word. string_bytes word) words.entry.now) }
{
    let mut texts = Vec::new(alloc);
    for word in words {
        texts.push(word.as_str())?;
    }
    Ok(texts)
}
