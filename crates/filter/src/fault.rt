//! The faults of a run that ends with a status other than 0.
ghost use Rattle.std.specs.Prelude.{◌≡◌, ◌≤◌};
ghost use Rattle.filter.specs.Fault.{of_read, status_of};
ghost use Rattle.filter.specs.declared.fault.FilterFault.TheVariants.{NoMemory as OutOfMemory, Output as OutputFailed};

use crate::text::FilterText;
use input_text::{Broken, ReadFault};
use std::alloc::{AllocError, AllocFailed};
use std::io::Write;
use thiserror::Error;

/// Why a filter ends with a status other than 0. Its text follows the program's name on standard
/// error.
#[derive(Clone, Copy, Debug, Error)]
pub enum FilterFault {
    /// Status 2: the input could not be read.
    #[error("cannot read the input")]
    Unreadable,
    /// Status 4: standard output could not be written.
    #[error("output")]
    Output,
    /// Status 5: the line of this number, from 1, is one that the filter reads, and has a fault.
    #[error("line {0}: bad line")]
    BadLine(u64),
    /// Status 5: the input is longer than the filter reads.
    #[error("too long")]
    TooLong,
    /// Status 6: out of memory.
    #[error("no memory")]
    NoMemory,
}

/// The result of a run of a filter, or of a part of it.
pub type FilterResult = Result<(), FilterFault>;

impl From<ReadFault> for FilterFault {
    ghost from_gives = { λ read fault. fault ≡ of_read read };

    fn from(fault: ReadFault) -> FilterFault {
        fault.choose(FilterFault::Unreadable, FilterFault::NoMemory)
    }
}

/// The fault of a failed write to standard output.
impl From<Broken> for FilterFault {
    ghost from_gives = { λ _ fault. fault ≡ OutputFailed };

    fn from(_error: Broken) -> FilterFault {
        FilterFault::Output
    }
}

impl From<AllocError> for FilterFault {
    ghost from_gives = { λ _ fault. fault ≡ OutOfMemory };

    fn from(_error: AllocError) -> FilterFault {
        FilterFault::NoMemory
    }
}

impl<T: Drop> From<AllocFailed<T>> for FilterFault {
    ghost from_gives = { λ _ fault. fault ≡ OutOfMemory };

    fn from(_error: AllocFailed<T>) -> FilterFault {
        FilterFault::NoMemory
    }
}

impl FilterFault {
    /// Returns the exit status, 2 to 6.
    pub fn status(self) -> u8
        ensures status { result ≡ status_of self }
        ensures most { result ≤ 6 }
    {
        match self {
            FilterFault::Unreadable => 2,
            FilterFault::Output => 4,
            FilterFault::BadLine(_) | FilterFault::TooLong => 5,
            FilterFault::NoMemory => 6,
        }
    }

    /// Reports the fault of a filter on the input of this name, and returns the exit status. A
    /// failure of this report cannot be reported.
    pub(crate) fn report<E: Write>(self, text: FilterText<'_>, source: &str, faults: &mut E) -> u8
        ensures status { result ≡ status_of self }
        ensures most { result ≤ 6 }
    {
        let FilterText { name, line, .. } = text;
        let _ = match self {
            FilterFault::Unreadable => writeln!(faults, "{name}: cannot read {source}"),
            FilterFault::BadLine(number) => writeln!(faults, "{name}: line {number}: bad {line}"),
            _ => writeln!(faults, "{name}: {self}"),
        };
        self.status()
    }
}
