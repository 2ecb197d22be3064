//! More about a fault than its kind and its node.
ghost use Rattle.std.specs.Prelude.{◌≡◌, ◌+◌, ◌≤◌, Some, None, MatchResult, Ok, Err, option_map};
ghost use Rattle.roster.specs.FaultWords.{cv_words_of, fault_words};

use crate::entry::Name;
use crate::fault::RosterFaultKind;
use decoder_cv::CvFault;
use std::marker::Model;

/// More about the first fault of a text than its kind and its node.
///
/// Contracts see it as these three.
#[derive(Drop)]
pub struct FaultDetails {
    pub(crate) line: Option<usize>,
    pub(crate) name: Option<Name>,
    pub(crate) cv: Option<CvFault>,
}

impl Model for FaultDetails {
    ghost use Rattle.std.specs.Prelude.{option_map};
    ghost use Rattle.roster.specs.Details.{FaultDetails};

    ghost Value = { FaultDetails };

    ghost view = { λ details.
        record { line = details.line; name = option_map (λ name. name.bytes) details.name; cv = details.cv } };
}

impl FaultDetails {
    /// Returns the line at which a text is no TOML, from 1.
    pub fn line(&self) -> Option<usize>
        ensures { result ≡ self.now.line }
    {
        self.line
    }

    /// Returns the name of the node, if it has a valid one.
    pub fn name(&self) -> Option<&str>
        ensures { option_map (λ name. name.now) result ≡ self.now.name }
    {
        match &self.name {
            Some(name) => Some(name.as_str()),
            None => None,
        }
    }

    /// Returns what is wrong in words, for a fault of this kind.
    pub fn words(&self, why: RosterFaultKind) -> &'static str
        ensures { result.now ≡ fault_words why self.now.cv }
    {
        match why {
            RosterFaultKind::BadCv => cv_words(self.cv),
            _ => why.words(),
        }
    }
}

/// Returns what is wrong with the variables of a locomotive, in words.
#[tactic(auto, unfolding(crate::specs::FaultWords::cv_words_of))]
fn cv_words(fault: Option<CvFault>) -> &'static str
    ensures { result.now ≡ cv_words_of fault }
{
    match fault {
        None => "the value of a variable must be 0 to 255",
        Some(CvFault::BadCv1) => "CV1 must be 1 to 127",
        Some(CvFault::BadCv17) => "CV17 must be 192 to 231, since bit 5 of CV29 is 1",
        Some(CvFault::NotLoco) => "bit 7 of CV29 must be 0",
        Some(CvFault::BadList) => RosterFaultKind::BadCvList.words(),
    }
}
