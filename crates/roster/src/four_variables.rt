//! The four configuration variables of a locomotive in a roster of version 1.
ghost use Rattle.std.specs.Prelude.{◌≡◌, option_map};
ghost use Rattle.decoder_cv.specs.Settings.{settings_of};
ghost use Rattle.roster.specs.FourVariables.{byte_of, bytes_of, decoder_of_four, fault_of_four, pairs_of_bytes, pairs_of_four};

use crate::decoder::loco;
use crate::fault::RosterFaultKind;
use crate::pairs::CvPairs;
use decoder_cv::{CvFault, CvPair, CvSet};
use decoder_node::NodeSpec;

/// The values of the four variables.
#[derive(Clone, Copy)]
pub(crate) struct FourVariables<T> {
    pub(crate) cv1: T,
    pub(crate) cv17: T,
    pub(crate) cv18: T,
    pub(crate) cv29: T,
}

impl FourVariables<i64> {
    /// The decoder that the variables make, or `BadCv`.
    pub(crate) fn decoder(self) -> Result<NodeSpec, RosterFaultKind>
        ensures { result ≡ decoder_of_four self }
    {
        loco(self.bytes()?.settings())
    }

    /// The variables, if their values are bytes.
    pub(crate) fn variables(self) -> Option<CvPairs>
        ensures { option_map (λ pairs. pairs.items) result ≡ pairs_of_four self }
    {
        match self.bytes() {
            Ok(bytes) => Some(bytes.pairs()),
            Err(_) => None,
        }
    }

    /// What is wrong with the variables, if they are bytes.
    pub(crate) fn cv_fault(self) -> Option<CvFault>
        ensures { result ≡ fault_of_four self }
    {
        match self.bytes() {
            Ok(bytes) => bytes.settings().err(),
            Err(_) => None,
        }
    }

    /// The values as bytes, or `BadCv` if one is outside 0 to 255.
    fn bytes(self) -> Result<FourVariables<u8>, RosterFaultKind>
        ensures { result ≡ bytes_of self }
    {
        Ok(FourVariables {
            cv1: byte(self.cv1)?,
            cv17: byte(self.cv17)?,
            cv18: byte(self.cv18)?,
            cv29: byte(self.cv29)?,
        })
    }
}

impl FourVariables<u8> {
    /// The settings of a locomotive decoder that the variables make.
    fn settings(self) -> Result<CvSet, CvFault>
        ensures { result ≡ settings_of self.cv1 self.cv17 self.cv18 self.cv29 }
    {
        CvSet::new(self.cv1, self.cv17, self.cv18, self.cv29)
    }

    /// The variables with their numbers.
    fn pairs(self) -> CvPairs
        ensures { result.items ≡ pairs_of_bytes self }
    {
        let mut pairs = CvPairs::new();
        pairs.push(pair(1, self.cv1));
        pairs.push(pair(17, self.cv17));
        pairs.push(pair(18, self.cv18));
        pairs.push(pair(29, self.cv29));
        pairs
    }
}

fn pair(number: u16, value: u8) -> CvPair
    ensures { result ≡ record { number = number; value = value } }
{
    CvPair { number, value }
}

/// The value of a configuration variable, or `BadCv` outside 0 to 255.
fn byte(value: i64) -> Result<u8, RosterFaultKind>
    ensures { result ≡ byte_of value }
{
    match value {
        0..=255 => Ok(value as u8),
        _ => Err(RosterFaultKind::BadCv),
    }
}
