//! What the devices of a run returned, which only proofs see.
ghost use Rattle.std.specs.Prelude.{◌≡◌, false, true};
ghost use Rattle.lbserver.specs.Execution.{IsUnserved};

use sockets::{CallLog, SystemFault};

/// The logs of the sockets and the clock of a run, and whether a call of the system has failed. They
/// take no memory.
#[derive(Drop)]
pub(crate) struct DeviceLogs {
    /// What the calls of the sockets returned, until they were closed.
    pub(crate) sockets: CallLog,
    /// What the readings of the clock returned.
    pub(crate) clock: CallLog,
    /// Whether a call of the system has failed. Only a fault of the crate `sockets` says so.
    pub(crate) faults: CallLog,
}

impl DeviceLogs {
    /// Creates the logs of devices that were not called yet.
    pub(crate) fn new() -> DeviceLogs
        ensures faults { result.faults.failed ≡ false }
        ensures new { IsUnserved result }
    {
        DeviceLogs {
            sockets: CallLog::new(),
            clock: CallLog::new(),
            faults: CallLog::new(),
        }
    }

    /// Records that a call of the system failed.
    pub(crate) fn record_fault(&mut self, fault: SystemFault)
        ensures recorded { self.new.faults.failed ≡ true }
        ensures calls { (self.new.sockets ≡ self.old.sockets) × (self.new.clock ≡ self.old.clock) }
    {
        self.faults.record_fault(fault);
    }
}
