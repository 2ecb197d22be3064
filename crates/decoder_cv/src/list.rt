//! Lists of configuration variables.
ghost use Rattle.std.specs.Prelude.{◌≡◌};
ghost use Rattle.decoder_cv.specs.Listed.{are_variables, is_number, times, value_in};

use crate::cv_pair::CvPair;

/// Whether each number is a variable's, and none appears twice.
///
/// It goes over the list once for each pair up to the first at fault, so no more than 1,025 times.
pub(crate) fn are_variables(pairs: &[CvPair]) -> bool
    ensures { result ≡ are_variables pairs.now }
{
    pairs.iter().all(|pair| is_number(pair.number) && times(pair.number, pairs) == 1)
}

/// The value that the list has for a variable, if it names it.
pub(crate) fn value_in(number: u16, pairs: &[CvPair]) -> Option<u8>
    ensures { result ≡ value_in number pairs.now }
{
    pairs
        .iter()
        .find(|pair| pair.number == number)
        .map(|pair| pair.value)
}

/// How often the list names a variable.
fn times(number: u16, pairs: &[CvPair]) -> usize
    ensures { result ≡ times number pairs.now }
{
    pairs.iter().filter(|pair| pair.number == number).count()
}

/// Whether a variable may have this number.
fn is_number(number: u16) -> bool
    ensures { result ≡ is_number number }
{
    matches!(number, 1..=1024)
}
