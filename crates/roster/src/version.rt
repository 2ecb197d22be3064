//! The versions of the format.
ghost use Rattle.std.specs.Prelude.{◌≡◌};
ghost use Rattle.roster.specs.Format.{version_of};

use crate::fault::RosterFaultKind;

/// A version of the format. They differ in how a locomotive's variables are given.
#[derive(Clone, Copy)]
pub(crate) enum Version {
    /// By separate keys: `cv1`, `cv17`, `cv18` and `cv29`.
    One,
    /// As a list of pairs: `cvs`.
    Two,
}

impl Version {
    /// The version of this number, or `BadShape`.
    pub(crate) fn of_number(number: i64) -> Result<Version, RosterFaultKind>
        ensures { result ≡ version_of number }
    {
        match number {
            1 => Ok(Version::One),
            2 => Ok(Version::Two),
            _ => Err(RosterFaultKind::BadShape),
        }
    }
}
