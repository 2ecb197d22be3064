//! A configuration variable as a roster of version 2 gives it.
ghost use Rattle.std.specs.Prelude.{◌≡◌, ◌&&◌, if◌then◌else◌, Some, None, map};
ghost use Rattle.toml.specs.View.{view};
ghost use Rattle.roster.specs.Pairs.{cv_pair_of, has_byte, has_word, of_items, pair_of};

use decoder_cv::CvPair;
use toml::Value;

/// A number and a value, whatever they are.
#[derive(Clone, Copy)]
pub(crate) struct Pair {
    pub(crate) number: i64,
    pub(crate) value: i64,
}

impl Pair {
    /// The pair that an array of two integers is.
    pub(crate) fn read(value: &Value) -> Option<Pair>
        ensures { result ≡ pair_of (view value.now) }
    {
        pair_in(value.as_array()?.as_slice())
    }

    /// Whether the value is a byte, 0 to 255.
    pub(crate) fn has_byte(&self) -> bool
        ensures { result ≡ has_byte self.now }
    {
        matches!(self.value, 0..=255)
    }

    /// The variable with its value, if a `u16` holds the number and a `u8` the value.
    pub(crate) fn cv_pair(&self) -> Option<CvPair>
        ensures { result
            ≡ (if has_word self.now && has_byte self.now then Some
            (cv_pair_of self.now) else None) }
    {
        match (self.number, self.value) {
            (0..=65_535, 0..=255) => Some(CvPair {
                number: self.number as u16,
                value: self.value as u8,
            }),
            _ => None,
        }
    }
}

/// The pair that two integers are.
fn pair_in(values: &[Value]) -> Option<Pair>
    ensures { result ≡ of_items (map view values.now) }
{
    match values {
        [number, value] => match (number.as_integer(), value.as_integer()) {
            (Some(number), Some(value)) => Some(Pair { number, value }),
            _ => None,
        },
        _ => None,
    }
}
