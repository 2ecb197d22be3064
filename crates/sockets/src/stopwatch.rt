//! The time since the start.
ghost use Rattle.std.specs.Prelude.{◌≡◌, ◌+◌, ◌-◌, IfErr, IfOk};

use crate::wait_time::micros_between;
use std::io;
use std::time::{Clock, Instant};

/// A clock of whole microseconds. Successive readings add up, so that none is lost.
#[derive(Drop)]
pub struct Stopwatch {
    start: Instant,
    reported: u64,
}

impl Stopwatch {
    /// Creates a stopwatch that starts now.
    pub fn new<C: Clock>(clock: &C) -> io::Result<Stopwatch>
        ensures { IfOk result (λ watch. watch.reported ≡ 0) }
    {
        Ok(Stopwatch {
            start: Instant::now(clock)?,
            reported: 0,
        })
    }

    /// Returns the microseconds since the start.
    pub fn now<C: Clock>(&self, clock: &C) -> io::Result<u64> {
        Ok(micros_between(self.start, Instant::now(clock)?))
    }

    /// Returns the microseconds since the last call, or since the start.
    pub fn elapsed<C: Clock>(&mut self, clock: &C) -> io::Result<u64>
        ensures adds_up { IfOk result (λ micros. self.new.reported ≡ self.old.reported + micros) }
        ensures kept { IfErr result (λ _. self.new ≡ self.old) }
    {
        let now = self.now(clock)?;
        Ok(self.report(now))
    }

    /// Returns the microseconds since the last report, and records them as reported.
    fn report(&mut self, now: u64) -> u64
        ensures elapsed { result ≡ now - self.old.reported }
        ensures reported { self.new.reported ≡ self.old.reported + result }
        ensures start { self.new.start ≡ self.old.start }
    {
        let elapsed = now.saturating_sub(self.reported);
        self.reported += elapsed;
        elapsed
    }
}
