//! The effect of a packet on an accessory decoder.
ghost use Rattle.std.specs.Prelude.{◌≡◌, ◌<◌, Bool, if◌then◌else◌};
ghost use Rattle.decoder_node.specs.Bits.{with_bits};
ghost use Rattle.decoder_node.specs.Switched.{AreOutputs, switched, output_of};

use crate::decoder::Obeys;
use dcc_packet::{Instr, Module};

impl Obeys<u8> for Module {
    ghost does = { switched };

    ghost holds = { AreOutputs };

    #[inline]
    fn obey(&self, outputs: &mut u8, instr: &Option<Instr>) {
        if let Some(instr) = instr {
            *outputs = after_instr(*self, *outputs, *instr);
        }
    }
}

/// The outputs of the decoder of a module after an instruction.
fn after_instr(own: Module, outputs: u8, instr: Instr) -> u8
    ensures { result ≡ switched own outputs instr }
{
    match instr {
        Instr::Accessory {
            module,
            pair,
            closed,
            on,
        } if module.number() == own.number() => {
            with_output(outputs, output_of(pair, closed), on)
        }
        _ => outputs,
    }
}

/// The number of an output: 0 to 7.
fn output_of(pair: u8, closed: bool) -> u8
    ensures number { result ≡ output_of pair closed }
    ensures range { result < 8 }
{
    2 * (pair % 4) + u8::from(closed)
}

/// The outputs after one of them is switched on or off.
fn with_output(outputs: u8, output: u8, on: bool) -> u8
    requires { output < 8 }
    ensures { result ≡ with_bits outputs output 1 (if on then 1 else 0) }
{
    if on {
        outputs | (1 << output)
    } else {
        outputs & !(1 << output)
    }
}
