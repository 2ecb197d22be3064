//! The system's clock, as the time source of a server.
ghost use Rattle.std.specs.Prelude.{◌≡◌, IfOk, Some, []};

use crate::call_log::{CallLog, Returned};
use crate::stopwatch::Stopwatch;
use crate::system_fault::SystemFault;
use bus_server::TimeSource;
use std::time::Clock;

/// A clock, and its last reading. What the system returns is outside the proofs; what was returned of
/// it is kept in the log.
#[derive(Drop)]
pub struct Ticking<'a, C> {
    clock: &'a C,
    watch: Stopwatch,
    log: CallLog,
}

impl<'a, C: Clock> Ticking<'a, C> {
    /// Creates the time source of this clock, which starts now.
    ///
    /// # Errors
    ///
    /// The clock cannot be read.
    pub fn new(clock: &'a C) -> Result<Ticking<'a, C>, SystemFault>
        ensures { IfOk result (λ ticking. ticking.log.readings ≡ []) }
    {
        match Stopwatch::new(clock) {
            Ok(watch) => Ok(Ticking {
                clock,
                watch,
                log: CallLog::new(),
            }),
            Err(error) => Err(SystemFault::of(error)),
        }
    }

    /// Returns the log.
    pub fn into_log(self) -> CallLog
        ensures { result ≡ self.entry.log }
    {
        let Ticking {
            clock: _,
            watch: _,
            log,
        } = self;
        log
    }
}

impl<C: Clock> TimeSource for Ticking<'_, C> {
    type Fault = SystemFault;

    ghost readings = { λ ticking. Some ticking.log.readings };

    fn elapsed(&mut self) -> Result<u64, SystemFault> {
        match self.watch.elapsed(self.clock) {
            Ok(micros) => {
                self.log.add(&Returned::Elapsed { micros }, &[]);
                Ok(micros)
            }
            Err(error) => Err(SystemFault::of(error)),
        }
    }
}
