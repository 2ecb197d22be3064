//! The decoders that values make.
ghost use Rattle.std.specs.Prelude.{◌≡◌};
ghost use Rattle.roster.specs.Decoder.{accessory_of, fault_of, loco_of};

use crate::fault::RosterFaultKind;
use dcc_packet::Module;
use decoder_cv::{CvFault, CvSet};
use decoder_node::NodeSpec;

/// The locomotive decoder with these settings, or `BadCv` or `BadCvList`.
pub(crate) fn loco(cv: Result<CvSet, CvFault>) -> Result<NodeSpec, RosterFaultKind>
    ensures { result ≡ loco_of cv }
{
    match cv {
        Ok(cv) => Ok(NodeSpec::Loco(cv)),
        Err(fault) => Err(why(fault)),
    }
}

/// What these settings are refused for.
fn why(fault: CvFault) -> RosterFaultKind
    ensures { result ≡ fault_of fault }
{
    match fault {
        CvFault::BadCv1 | CvFault::BadCv17 | CvFault::NotLoco => RosterFaultKind::BadCv,
        CvFault::BadList => RosterFaultKind::BadCvList,
    }
}

/// The accessory decoder of a module, or `BadModule` outside 1 to 510.
pub(crate) fn accessory(number: i64) -> Result<NodeSpec, RosterFaultKind>
    ensures { result ≡ accessory_of number }
{
    match number {
        1..=510 => match Module::new(number as u16) {
            Some(module) => Ok(NodeSpec::Accessory(module)),
            None => Err(RosterFaultKind::BadModule),
        },
        _ => Err(RosterFaultKind::BadModule),
    }
}
