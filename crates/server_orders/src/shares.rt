//! The shares of packets that decoders miss: `--lose N` and `--lose NAME=N`.
ghost use Rattle.std.specs.Prelude.{◌≡◌, ◌++◌, ◌∷◌, [], OnOk, IfErr, IfOk, MatchOption, Some, map, option_map};
ghost use Rattle.std.specs.List.{list_any};
ghost use Rattle.command_line.specs.Fault.{IsOfKind, IsUnmatched};
ghost use Rattle.command_line.specs.Values.{HasNone, IsNumber};
ghost use Rattle.std.specs.Prelude.{codes};
ghost use Rattle.server_orders.specs.Shares.{all_given, AreShares, AreSharesOf, IsShare, are_distinct, decoder_in, decoder_of, is_same_decoder, number_in, share_for, share_of};

use crate::share::Share;
use crate::table::lbserver;
use clap::ArgMatches;
use clap::error::ErrorKind;
use command_line::{OrderFault, repeated, wrong_value};
use std::alloc::{AllocError, Global};

/// The most packets of 100 that a decoder misses.
const MOST_LOST: u32 = 99;

/// Returns the shares of the repeated option `--lose`. A value that is none, or a decoder named
/// twice, is a fault.
pub(crate) fn shares(alloc: Global, found: &ArgMatches<'_>) -> Result<Vec<Share>, OrderFault>
    ensures shares { IfOk result
        (λ shares. AreShares (all_given found.now (codes "lose")) shares.items) }
    ensures fault { IfErr result (IsUnmatched (AreShares (all_given found.now (codes "lose")))) }
{
    let Some(values) = repeated(found, "lose") else {
        return Ok(Vec::new(alloc));
    };
    if !are_distinct(values) {
        return Err(named_twice(alloc));
    }
    shares_of(alloc, values)
}

/// Returns the shares that these values say, of which each names another decoder.
fn shares_of(alloc: Global, values: &[&str]) -> Result<Vec<Share>, OrderFault>
    ensures shares { IfOk result
        (λ shares. AreSharesOf (map (λ value. value.now) values.now) shares.items) }
    ensures fault { IfErr result
        (IsUnmatched (AreSharesOf (map (λ value. value.now) values.now))) }
{
    let mut shares = Vec::new(alloc);
    for value in values {
        push(&mut shares, share(alloc, value)?)?;
    }
    Ok(shares)
}

fn push(shares: &mut Vec<Share>, share: Share) -> Result<(), AllocError>
    ensures { OnOk result (shares.new.items ≡ shares.old.items ++ share ∷ []) }
{
    shares.push(share)?;
    Ok(())
}

/// Returns the share that a value says.
fn share(alloc: Global, value: &str) -> Result<Share, OrderFault>
    ensures share { IfOk result (IsShare value.now) }
    ensures fault { IfErr result (IsUnmatched (IsShare value.now)) }
{
    let (decoder, number) = parts(value);
    let Some(lose) = lost(number) else {
        return Err(no_share(alloc));
    };
    let decoder = match decoder {
        Some(name) => Some(String::from_str(alloc, name)?),
        None => None,
    };
    Ok(Share { decoder, lose })
}

/// Returns the name before the first `=` of a value, and the number after it; without one no name.
fn parts(value: &str) -> (Option<&str>, &str)
    ensures decoder { option_map (λ name. name.now) result.0 ≡ decoder_in value.now }
    ensures number { result.1.now ≡ number_in value.now }
{
    match value.split_once('=') {
        Some((name, number)) => (Some(name), number),
        None => (None, value),
    }
}

/// Returns the number of packets that a text writes, if it is one from 0 to 99.
fn lost(text: &str) -> Option<u8>
    ensures { MatchOption result (HasNone (IsNumber (Some text.now) 0 99))
        (IsNumber (Some text.now) 0 99) }
{
    match text.parse::<u32>() {
        Ok(number) if number <= MOST_LOST => Some(number as u8),
        _ => None,
    }
}

/// Whether no two of these values are those of one decoder, or without a name.
fn are_distinct(values: &[&str]) -> bool
    ensures { result ≡ are_distinct (map decoder_in (map (λ value. value.now) values.now)) }
{
    for i in 0..values.len() {
        if names_one_of(&values[i + 1..], parts(values[i]).0) {
            return false;
        }
    }
    true
}

/// Whether one of these values names this decoder, or has no name either.
fn names_one_of(values: &[&str], decoder: Option<&str>) -> bool
    ensures { result ≡ list_any (is_same_decoder (option_map (λ name. name.now) decoder.entry))
        (map decoder_in (map (λ value. value.now) values.now)) }
{
    for value in values {
        if is_same(decoder, parts(value).0) {
            return true;
        }
    }
    false
}

fn is_same(one: Option<&str>, other: Option<&str>) -> bool
    ensures { result ≡ is_same_decoder (option_map (λ name. name.now) one.entry)
        (option_map (λ name. name.now) other.entry) }
{
    match (one, other) {
        (Some(one), Some(other)) => one == other,
        (None, None) => true,
        _ => false,
    }
}

// Clap accepts any text as a share.
fn no_share(alloc: Global) -> OrderFault
    ensures { IsOfKind ErrorKind.ValueValidation result }
{
    wrong_value(
        alloc,
        lbserver(),
        "--lose is followed by N or NAME=N, with N in 0..=99",
    )
}

fn named_twice(alloc: Global) -> OrderFault
    ensures { IsOfKind ErrorKind.ValueValidation result }
{
    wrong_value(
        alloc,
        lbserver(),
        "--lose is given twice for one decoder, or twice without a name",
    )
}

impl Share {
    /// The name of the decoder, if the share has one.
    pub fn name(&self) -> Option<&str>
        ensures { option_map (λ name. name.now) result ≡ decoder_of self.now }
    {
        match &self.decoder {
            Some(name) => Some(name.as_str()),
            None => None,
        }
    }
}

/// Returns how many of 100 packets the decoder of this name misses: its share, else that without a
/// name, else 0.
pub fn share_for(shares: &[Share], name: &str) -> u8
    ensures { result ≡ share_for shares.now name.now }
{
    match share_of(shares, Some(name)) {
        Some(lose) => lose,
        None => share_of(shares, None).unwrap_or(0),
    }
}

/// Returns the share that names this decoder, or the one without a name.
fn share_of(shares: &[Share], decoder: Option<&str>) -> Option<u8>
    ensures { result ≡ share_of shares.now (option_map (λ name. name.now) decoder.entry) }
{
    for share in shares {
        if is_same(share.name(), decoder) {
            return Some(share.lose);
        }
    }
    None
}
