//! A clock of elapsed time.
ghost use Rattle.std.specs.Prelude.{◌∷◌, [], List, MatchResult, Option, ℕ};
ghost use Rattle.bus.specs.Log.{Extends};

/// A clock that returns the time between its readings.
pub trait TimeSource {
    /// Why the clock cannot be read. Only the clock makes one, so a run that ends with it met a clock that failed.
    type Fault;

    /// The microseconds that it has returned so far, in order, if the clock keeps them.
    ghost readings: { Self → Option (List ℕ) };

    /// The whole microseconds since the last reading, or since the clock was made.
    fn elapsed(&mut self) -> Result<u64, Self::Fault>
        ensures { MatchResult result
            (λ micros. Extends (readings self.old) (readings self.new) (micros ∷ []))
            (λ _. Extends (readings self.old) (readings self.new) []) };
}
