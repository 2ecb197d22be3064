//! The values of clap's matches.
ghost use Rattle.std.specs.Prelude.{◌≡◌, None, IfOk, IfSome, MatchOption, map, option_map};
ghost use Rattle.clap.specs.Words.{all_of, first_of, found_of, one_of, rows_of};
ghost use Rattle.command_line.specs.Values.{HasNone, IsAddress, IsFlag, IsNumber, Writes, WritesNone};

use clap::ArgMatches;
use input_text::FileName;
use std::alloc::{AllocError, Global};
use std::net::Ipv4Addr;

/// Returns the number of an option, if it is in this range.
pub fn number(found: &ArgMatches<'_>, id: &str, least: u32, most: u32) -> Option<u32>
    ensures some { IfSome result
        (λ n. IsNumber (one_of id.now (rows_of (found_of found.now))) least most n) }
    ensures none { result ≡ None
        → HasNone (IsNumber (one_of id.now (rows_of (found_of found.now))) least most) }
{
    match any_number(found, id) {
        Some(number) if least <= number && number <= most => Some(number),
        _ => None,
    }
}

fn any_number(found: &ArgMatches<'_>, id: &str) -> Option<u32>
    ensures { MatchOption result (WritesNone (one_of id.now (rows_of (found_of found.now))))
        (λ n. Writes (one_of id.now (rows_of (found_of found.now))) n) }
{
    found.get_one::<u32>(id)
}

/// Returns whether a flag is set, if clap has a value for it.
pub fn flag(found: &ArgMatches<'_>, id: &str) -> Option<bool>
    ensures { MatchOption result (HasNone (IsFlag (one_of id.now (rows_of (found_of found.now)))))
        (IsFlag (one_of id.now (rows_of (found_of found.now)))) }
{
    found.get_one::<bool>(id)
}

/// Returns the address of an option, if its value is one.
pub fn address(found: &ArgMatches<'_>, id: &str) -> Option<Ipv4Addr>
    ensures { MatchOption result
        (HasNone (IsAddress (one_of id.now (rows_of (found_of found.now)))))
        (IsAddress (one_of id.now (rows_of (found_of found.now)))) }
{
    found.get_one::<Ipv4Addr>(id)
}

/// Returns the value of an option.
#[tactic(auto, using(crate::proofs::Found::first_in_rows))]
pub fn text<'a>(found: &ArgMatches<'a>, id: &str) -> Option<&'a str>
    ensures { option_map (λ text. text.now) result
        ≡ first_of id.now (rows_of (found_of found.now)) }
{
    found.get_str(id)
}

/// Returns the values of an option that may be repeated.
#[tactic(auto, using(crate::proofs::Found::all_in_rows))]
pub fn repeated<'f, 'a>(found: &'f ArgMatches<'a>, id: &str) -> Option<&'f [&'a str]>
    ensures { option_map (λ values. map (λ value. value.now) values.now) result
        ≡ all_of id.now (rows_of (found_of found.now)) }
{
    found.get_strs(id)
}

/// Returns the name of a file that is the value of an option.
pub fn file_name(
    alloc: Global,
    found: &ArgMatches<'_>,
    id: &str,
) -> Result<Option<FileName>, AllocError>
    ensures { IfOk result (λ name. name ≡ first_of id.now (rows_of (found_of found.now))) }
{
    match text(found, id) {
        Some(text) => Ok(Some(FileName::new(alloc, text)?)),
        None => Ok(None),
    }
}
