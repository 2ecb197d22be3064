//! The configuration variables of a locomotive in a roster of version 2.
ghost use Rattle.std.specs.Prelude.{◌≡◌, [], true, is_some, map, option_and_then, option_map};
ghost use Rattle.std.specs.List.{list_all};
ghost use Rattle.std.specs.Option.{unwrap_or};
ghost use Rattle.std.specs.Result.{result_err};
ghost use Rattle.decoder_cv.specs.Listed.{listed};
ghost use Rattle.toml.specs.View.{items_view, view};
ghost use Rattle.roster.specs.Format.{loco_listed};
ghost use Rattle.roster.specs.Pairs.{cv_pairs_after, cvs_of, has_byte, pair_of, pairs_in, pairs_of};

use crate::decoder::loco;
use crate::fault::RosterFaultKind;
use crate::pair::Pair;
use arrayvec::ArrayVec;
use decoder_cv::{CvFault, CvPair, CvSet};
use decoder_node::NodeSpec;
use std::marker::Model;
use toml::Value;

/// The most variables: a longer list names one twice.
const MOST_VARIABLES: usize = 1024;

/// Variables with their values, in order.
pub type CvPairs = ArrayVec<CvPair, MOST_VARIABLES>;

/// The value of the key `cvs`: an array of pairs.
///
/// Contracts see it as the list of these.
#[derive(Drop)]
pub(crate) struct Pairs<'a> {
    values: &'a [Value],
}

impl<'a> Model for Pairs<'a> {
    ghost use Rattle.std.specs.Prelude.{List, map};
    ghost use Rattle.toml.specs.View.{view as data_of};
    ghost use Rattle.roster.specs.declared.pair.Pair.{Pair};
    ghost use Rattle.roster.specs.Pairs.{pairs_of};

    ghost Value = { List Pair };

    ghost view = { λ pairs. pairs_of (map data_of pairs.values.now) };
}

impl<'a> Pairs<'a> {
    /// The pairs of `cvs`, or `BadShape` where it is no array of pairs.
    pub(crate) fn read(value: &'a Value) -> Result<Pairs<'a>, RosterFaultKind>
        ensures { result ≡ cvs_of (view value.now) }
    {
        match value.as_array() {
            Some(values) => Pairs::of_values(values.as_slice()),
            None => Err(RosterFaultKind::BadShape),
        }
    }

    /// These, or `BadShape` where one is no pair.
    #[tactic(auto, using(crate::proofs::Cvs::values_in_view, crate::proofs::Cvs::are_pairs_view))]
    fn of_values(values: &'a [Value]) -> Result<Pairs<'a>, RosterFaultKind>
        ensures { result ≡ pairs_in (items_view values.now) }
    {
        if are_pairs(values) {
            Ok(Pairs { values })
        } else {
            Err(RosterFaultKind::BadShape)
        }
    }

    /// The decoder that the variables make, or `BadCv` or `BadCvList`.
    pub(crate) fn decoder(&self) -> Result<NodeSpec, RosterFaultKind>
        ensures { result ≡ loco_listed self.now }
    {
        if !have_bytes(self.values) {
            return Err(RosterFaultKind::BadCv);
        }
        match cv_pairs(self.values) {
            Some(pairs) => loco(CvSet::of_list(pairs.as_slice())),
            // No `u16` holds one of the numbers, or there are more pairs than variables.
            None => {
                decoder_cv::laws::long_lists_are_refused();
                Err(RosterFaultKind::BadCvList)
            }
        }
    }

    /// The variables, if their numbers and values fit.
    pub(crate) fn variables(&self) -> Option<CvPairs>
        ensures { option_map (λ pairs. pairs.items) result ≡ cv_pairs_after [] self.now }
    {
        cv_pairs(self.values)
    }

    /// What is wrong with the variables, if their numbers and values fit.
    pub(crate) fn cv_fault(&self) -> Option<CvFault>
        ensures { result
            ≡ option_and_then (λ taken. result_err (listed taken)) (cv_pairs_after [] self.now) }
    {
        match cv_pairs(self.values) {
            Some(pairs) => CvSet::of_list(pairs.as_slice()).err(),
            None => None,
        }
    }
}

/// Whether each value is a pair.
fn are_pairs(values: &[Value]) -> bool
    ensures { result ≡ list_all (λ value. is_some (pair_of (view value))) values.now }
{
    values.iter().all(|value| Pair::read(value).is_some())
}

/// Whether the value of each pair is a byte.
fn have_bytes(values: &[Value]) -> bool
    ensures { result
        ≡ list_all (λ value. unwrap_or (option_map has_byte (pair_of (view value))) true)
        values.now }
{
    values.iter().all(has_byte)
}

/// Whether the value of a pair is a byte.
fn has_byte(value: &Value) -> bool
    ensures { result ≡ unwrap_or (option_map has_byte (pair_of (view value.now))) true }
{
    match Pair::read(value) {
        Some(pair) => pair.has_byte(),
        None => true,
    }
}

/// The pairs as variables, if there are not too many and a `u16` holds each number.
fn cv_pairs(values: &[Value]) -> Option<CvPairs>
    ensures { option_map (λ pairs. pairs.items) result
        ≡ cv_pairs_after [] (pairs_of (map view values.now)) }
{
    let mut pairs = CvPairs::new();
    for value in values {
        if let Some(pair) = Pair::read(value) {
            let pair = pair.cv_pair()?;
            if pairs.try_push(pair).is_err() {
                return None;
            }
        }
    }
    Some(pairs)
}
