//! How a locomotive runs, for C.
ghost use Rattle.std.specs.Prelude.{◌≡◌};
ghost use Rattle.station_c.specs.Motion.{driven};

use crate::kind::{EMERGENCY, STEP, STOP};
use dcc_packet::{Motion as Asked, Steps};
use decoder_node::Running;

/// How a locomotive runs.
#[repr(C)]
#[derive(Clone, Copy, Debug, PartialEq)]
pub struct Motion {
    /// Bit k is function Fk.
    pub functions: u16,
    /// 0 if it is stopped, 1 if it was stopped at once, 2 if it runs.
    pub kind: u8,
    /// The speed step, from 1, if it runs, otherwise 0.
    pub step: u8,
    /// The number of steps, 14, 28 or 126, if it runs, otherwise 0.
    pub steps: u8,
    /// Its direction in its own sense.
    pub forward: bool,
}

/// Converts how a locomotive runs for C.
pub(crate) fn driven(running: Running) -> Motion
    ensures { result ≡ driven running }
{
    let (kind, step, steps) = match running.motion {
        Asked::Stop => (STOP, 0, 0),
        Asked::Emergency => (EMERGENCY, 0, 0),
        Asked::Step { of: Steps::S14, n } => (STEP, n, 14),
        Asked::Step { of: Steps::S28, n } => (STEP, n, 28),
        Asked::Step { of: Steps::S128, n } => (STEP, n, 126),
    };
    Motion {
        functions: running.functions,
        kind,
        step,
        steps,
        forward: running.forward,
    }
}
