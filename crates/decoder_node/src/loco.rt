//! A locomotive decoder.
ghost use Rattle.std.specs.Prelude.{◌≡◌};

use crate::decoder::Decoder;
use crate::running::{FIRST, Running};
use decoder_cv::CvSet;

/// A locomotive decoder on the track. It hears the track half by half.
///
/// Contracts see it as a `LocoDecoder`: its settings, how it runs, and the position of its
/// receiver.
pub type Loco = Decoder<CvSet, Running>;

impl Loco {
    ghost use Rattle.decoder_node.specs.Decoder.{fresh};
    ghost use Rattle.decoder_node.specs.Running.{IsAble, first_running};

    /// Creates a stopped decoder with these settings, forward, with all functions off, which has
    /// heard nothing.
    pub fn new(cv: CvSet) -> Loco
        ensures { result ≡ fresh cv first_running }
    {
        Decoder::starting(cv, FIRST)
    }

    /// Resets the decoder as the loss of track power does: stopped, forward, all functions off,
    /// nothing heard.
    pub fn power_lost(&mut self)
        ensures { self.new ≡ fresh self.old.settings first_running }
    {
        *self = Loco::new(self.settings);
    }

    /// Returns how it runs. Only functions F0 to F12 may be on.
    #[inline]
    pub fn running(&self) -> Running
        ensures value { result ≡ self.now.state }
        ensures able { IsAble result }
    {
        self.state
    }
}
