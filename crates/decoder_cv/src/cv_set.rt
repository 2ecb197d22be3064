//! The settings of a locomotive decoder.
ghost use Rattle.std.specs.Prelude.{◌≡◌, ◌<◌, IsTrue};
ghost use Rattle.dcc_packet.specs.Address.{is_legal};
ghost use Rattle.decoder_cv.specs.Settings.{is_set, is_short, is_first_of_two};

use crate::cv_fault::CvFault;
use crate::cv_pair::CvPair;
use crate::list::{are_variables, value_in};
use dcc_packet::Address;
use std::marker::Model;

/// The bit of CV29 that reverses the direction.
const REVERSED: u8 = 0;

/// The bit of CV29 that asks for 28 or 128 speed steps, and for 14 where it is clear.
const MORE_STEPS: u8 = 1;

/// The bit of CV29 that asks for the long address of CV17 and CV18.
const LONG_ADDRESS: u8 = 5;

/// The bit of CV29 that says that this is an accessory decoder.
const ACCESSORY: u8 = 7;

/// What the configuration variables make of a locomotive decoder: always of a legal one.
///
/// Contracts see it as its `Settings`.
#[derive(Clone, Copy, PartialEq, Eq)]
pub struct CvSet {
    address: Address,
    reversed: bool,
    fourteen: bool,
}

impl Model for CvSet {
    ghost use Rattle.std.specs.Prelude.{IsTrue};
    ghost use Rattle.dcc_packet.specs.Address.{is_legal};
    ghost use Rattle.decoder_cv.specs.Settings.{Settings};

    ghost Value = { Settings };

    ghost view = { λ cv.
        record { address = cv.address; reversed = cv.reversed; fourteen = cv.fourteen } };

    ghost invariant = { λ cv. IsTrue (is_legal cv.address) };

    ghost inverse = { λ cv.
        record { address = cv.address; reversed = cv.reversed; fourteen = cv.fourteen } };
}

impl CvSet {
    ghost use Rattle.decoder_cv.specs.Listed.{listed, settings_with};
    ghost use Rattle.decoder_cv.specs.Settings.{settings_of};

    /// The settings that these values make: CV1 the short address, CV17 and CV18 the two bytes of
    /// the long one on the track, CV29 the flags.
    ///
    /// CV1 has to be 1 to 127 even where CV29 asks for the long address; CV17 is looked at only
    /// there.
    pub fn new(cv1: u8, cv17: u8, cv18: u8, cv29: u8) -> Result<CvSet, CvFault>
        ensures { result ≡ settings_of cv1 cv17 cv18 cv29 }
    {
        if !is_short(cv1) {
            return Err(CvFault::BadCv1);
        }
        let address = if is_set(cv29, LONG_ADDRESS) {
            if !is_first_of_two(cv17) {
                return Err(CvFault::BadCv17);
            }
            Address::Long(u16::from(cv17 - 192) * 256 + u16::from(cv18))
        } else {
            Address::Short(cv1)
        };
        if is_set(cv29, ACCESSORY) {
            return Err(CvFault::NotLoco);
        }
        Ok(CvSet {
            address,
            reversed: is_set(cv29, REVERSED),
            fourteen: !is_set(cv29, MORE_STEPS),
        })
    }

    /// The settings that a list of variables with their values makes, in any order.
    ///
    /// `BadList` is tested first: each number has to be 1 to 1024 and may appear once, and CV1 and
    /// CV29 have to be there. Then the values are those of [`CvSet::new`], with 192 where CV17 is
    /// left out and 0 where CV18 is. Other variables have no effect.
    pub fn of_list(pairs: &[CvPair]) -> Result<CvSet, CvFault>
        ensures { result ≡ listed pairs.now }
    {
        if !are_variables(pairs) {
            return Err(CvFault::BadList);
        }
        CvSet::with(
            value_in(1, pairs),
            value_in(17, pairs),
            value_in(18, pairs),
            value_in(29, pairs),
        )
    }

    /// The settings that these values make, where CV1 and CV29 are among them.
    fn with(
        cv1: Option<u8>,
        cv17: Option<u8>,
        cv18: Option<u8>,
        cv29: Option<u8>,
    ) -> Result<CvSet, CvFault>
        ensures { result ≡ settings_with cv1 cv17 cv18 cv29 }
    {
        let Some(cv1) = cv1 else {
            return Err(CvFault::BadList);
        };
        let Some(cv29) = cv29 else {
            return Err(CvFault::BadList);
        };
        CvSet::new(cv1, cv17.unwrap_or(192), cv18.unwrap_or(0), cv29)
    }

    /// The address that the decoder obeys: short, or long where CV29 bit 5 is set.
    #[inline]
    pub fn address(&self) -> Address
        ensures value { result ≡ self.now.address }
        ensures legal { IsTrue (is_legal result) }
    {
        self.address
    }

    /// Whether the decoder's forward is the reverse of the track's (CV29 bit 0).
    #[inline]
    pub fn reversed(&self) -> bool
        ensures { result ≡ self.now.reversed }
    {
        self.reversed
    }

    /// Whether the decoder reads speed packets as 14 steps with F0 (CV29 bit 1 is clear), and not
    /// as 28.
    #[inline]
    pub fn fourteen(&self) -> bool
        ensures { result ≡ self.now.fourteen }
    {
        self.fourteen
    }
}

impl Default for CvSet {
    ghost use Rattle.decoder_cv.specs.Settings.{settings};

    ghost is_default = { λ cv. cv ≡ settings 3 0 0 0 };

    /// The settings of CV1 = 3 and all else 0: short address 3, not reversed, 14 steps.
    fn default() -> CvSet {
        CvSet {
            address: Address::Short(3),
            reversed: false,
            fourteen: true,
        }
    }
}

/// Whether a bit of CV29 is set.
fn is_set(cv29: u8, place: u8) -> bool
    requires { place < 8 }
    ensures { result ≡ is_set cv29 place }
{
    (cv29 >> place) & 1 == 1
}

/// Whether CV1 is a short address.
fn is_short(cv1: u8) -> bool
    ensures { result ≡ is_short cv1 }
{
    matches!(cv1, 1..=127)
}

/// Whether CV17 is the first byte of a long address.
fn is_first_of_two(cv17: u8) -> bool
    ensures { result ≡ is_first_of_two cv17 }
{
    matches!(cv17, 192..=231)
}
