//! Lines of decoders.
ghost use Rattle.std.specs.Prelude.{◌≡◌, ◌≤◌, ◌+◌, ◌++◌, length, codes};
ghost use Rattle.arrayvec.specs.ArrayString.{array_string_len};
ghost use Rattle.show_text.specs.Nodes.{IsStateOf, number_of, address_text, motion_text, direction_text, loco_text, accessory_text, node_text};

use crate::line::{Line, push_bits, push_field};
use dcc_packet::{Address, Module, Motion, Steps};
use decoder_cv::CvSet;
use decoder_node::{NodeSpec, Running};

/// The functions of a locomotive, F0 to F12.
const FUNCTIONS: u8 = 13;

/// The outputs of an accessory decoder, 0 to 7.
const OUTPUTS: u8 = 8;

/// `short A` or `long A`.
fn push_address(line: &mut Line, address: Address)
    requires { array_string_len line.old + 11 ≤ 640 }
    ensures text { line.new.bytes ≡ line.old.bytes ++ address_text address }
    ensures len { array_string_len line.new ≤ array_string_len line.old + 11 }
{
    match address {
        Address::Short(number) => push_field(line, "short ", u16::from(number)),
        Address::Long(number) => push_field(line, "long ", number),
    }
}

/// The number of steps that is printed.
fn number_of(steps: Steps) -> u16
    ensures { result ≡ number_of steps }
{
    match steps {
        Steps::S14 => 14,
        Steps::S28 => 28,
        Steps::S128 => 128,
    }
}

/// `stop`, `emergency` or `step N of M`.
fn push_motion(line: &mut Line, motion: Motion)
    requires { array_string_len line.old + 19 ≤ 640 }
    ensures text { line.new.bytes ≡ line.old.bytes ++ motion_text motion }
    ensures len { array_string_len line.new ≤ array_string_len line.old + 19 }
{
    match motion {
        Motion::Stop => line.push_str("stop"),
        Motion::Emergency => line.push_str("emergency"),
        Motion::Step { of, n } => {
            push_field(line, "step ", u16::from(n));
            push_field(line, " of ", number_of(of));
        }
    }
}

/// ` short A MOTION DIR F fffffffffffff`.
fn push_loco(line: &mut Line, cv: &CvSet, running: &Running)
    requires { array_string_len line.old ≤ 100 }
    ensures { line.new.bytes ≡ line.old.bytes ++ loco_text cv.now running.now }
{
    line.push_str(" ");
    push_address(line, cv.address());
    line.push_str(" ");
    push_motion(line, running.motion);
    line.push_str(if running.forward {
        " forward F "
    } else {
        " reverse F "
    });
    push_bits(line, running.functions, FUNCTIONS);
}

/// ` module M outputs oooooooo`.
fn push_accessory(line: &mut Line, own: Module, outputs: u8)
    requires { array_string_len line.old ≤ 100 }
    ensures { line.new.bytes ≡ line.old.bytes ++ accessory_text own outputs }
{
    push_field(line, " module ", own.number());
    line.push_str(" outputs ");
    push_bits(line, u16::from(outputs), OUTPUTS);
}

/// Returns `node NAME` and the state of the decoder of that name:
/// `short A MOTION DIR F fffffffffffff` for a locomotive, or `long A` with a long address, and
/// `module M outputs oooooooo` for an accessory decoder.
///
/// The name has at most 16 bytes. `running` is given for a locomotive and `outputs` for an
/// accessory decoder, never both. MOTION is `stop`, `emergency` or `step N of M`, DIR is `forward`
/// or `reverse`; the digits are the functions F0 to F12 and the outputs 0 to 7, 1 if on.
pub fn node_line(name: &str, spec: &NodeSpec, running: Option<Running>, outputs: Option<u8>) -> Line
    requires name { length name.now ≤ 16 }
    requires kind { IsStateOf spec.now running outputs }
    ensures { result.bytes ≡ node_text name.now spec.now running outputs }
{
    let mut line = Line::new();
    line.push_str("node ");
    line.push_str(name);
    match (spec, running, outputs) {
        (NodeSpec::Loco(cv), Some(running), _) => push_loco(&mut line, cv, &running),
        (NodeSpec::Accessory(own), _, Some(outputs)) => {
            push_accessory(&mut line, *own, outputs);
        }
        _ => {}
    }
    line
}
