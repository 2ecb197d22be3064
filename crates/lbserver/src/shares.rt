//! What each decoder of a roster misses, by the shares of an order.
ghost use Rattle.std.specs.Prelude.{◌≡◌, None, IfErr, OnOk, false, option_map};
ghost use Rattle.std.specs.List.{list_any};
ghost use Rattle.std.specs.Str.{bytes_eq};
ghost use Rattle.roster.specs.Decoders.{entries_of, names_of};
ghost use Rattle.lbserver.specs.Execution.{IsEnd, IsOpened, names_decoder};
ghost use Rattle.lbserver.specs.Sharing.{NamesUnknown, first_unknown, is_known, shares_of};

use crate::fault::ServerFault;
use bus_server::Shares;
use roster::Roster;
use server_orders::{Share, share_for};
use std::alloc::Global;

/// Checks that the decoders that these shares name are in the roster.
///
/// # Errors
///
/// `NoDecoder` with the first name that the roster lacks; out of memory.
pub(crate) fn check_names(
    alloc: Global,
    shares: &[Share],
    roster: Option<&Roster>,
) -> Result<(), ServerFault>
    ensures known { OnOk result
        (first_unknown (names_of (entries_of roster.entry)) shares.now ≡ None) }
    ensures fault { IfErr result
        (NamesUnknown (names_of (entries_of roster.entry)) shares.now) }
    ensures end { IsEnd (names_decoder shares.now) false false result }
    ensures opened { IsOpened false result }
{
    match first_unknown(shares, roster) {
        Some(name) => Err(ServerFault::NoDecoder(String::from_str(alloc, name)?)),
        None => Ok(()),
    }
}

/// Returns the first name in these shares that is that of no decoder.
fn first_unknown<'a>(shares: &'a [Share], roster: Option<&Roster>) -> Option<&'a str>
    ensures { option_map (λ name. name.now) result
        ≡ first_unknown (names_of (entries_of roster.entry)) shares.now }
{
    for share in shares {
        if let Some(name) = share.name() {
            if !is_known(roster, name) {
                return Some(name);
            }
        }
    }
    None
}

/// Whether a decoder has this name.
fn is_known(roster: Option<&Roster>, name: &str) -> bool
    ensures { result ≡ is_known (names_of (entries_of roster.entry)) name.now }
{
    match roster {
        Some(roster) => has_decoder(roster, name),
        None => false,
    }
}

fn has_decoder(roster: &Roster, name: &str) -> bool
    ensures { result ≡ is_known (names_of roster.now) name.now }
{
    for i in 0..roster.len() {
        if name == roster.name(i) {
            return true;
        }
    }
    false
}

/// Returns the share of each decoder of the roster, in their order; of none without one.
pub(crate) fn shares_of(shares: &[Share], roster: Option<&Roster>) -> Shares
    ensures { result.items ≡ shares_of shares.now (names_of (entries_of roster.entry)) }
{
    match roster {
        Some(roster) => shares_in(shares, roster),
        None => Shares::new(),
    }
}

fn shares_in(shares: &[Share], roster: &Roster) -> Shares
    ensures { result.items ≡ shares_of shares.now (names_of roster.now) }
{
    let mut all = Shares::new();
    for i in 0..roster.len() {
        all.push(share_for(shares, roster.name(i)));
    }
    all
}
