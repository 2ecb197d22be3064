//! The effect of a packet on a locomotive decoder.
ghost use Rattle.std.specs.Prelude.{◌≡◌, ◌<◌, ◌/◌, ◌%◌, true};
ghost use Rattle.dcc_packet.specs.SpeedNumbers.{motion_of_number};
ghost use Rattle.decoder_node.specs.Bits.{with_bits};
ghost use Rattle.decoder_node.specs.Concerned.{concerns};
ghost use Rattle.decoder_node.specs.Obey.{obeyed, driven, lit, is_own, own_forward};
ghost use Rattle.decoder_node.specs.Running.{IsAble};

use crate::decoder::Obeys;
use crate::running::{FIRST, Running};
use dcc_packet::{Address, Instr, Motion, Steps};
use decoder_cv::CvSet;

impl Obeys<Running> for CvSet {
    ghost does = { obeyed };

    ghost holds = { IsAble };

    #[inline]
    #[tactic(auto, using(crate::proofs::Concerned::stays))]
    fn obey(&self, running: &mut Running, instr: &Option<Instr>) {
        if let Some(instr) = instr {
            if concerns(self, instr) {
                obey_own(self, running, *instr);
            }
        }
    }
}

/// Whether an instruction is for a locomotive decoder with these settings: for all of them, or for
/// its address.
#[inline]
fn concerns(cv: &CvSet, instr: &Instr) -> bool
    ensures { result ≡ concerns cv.now instr.now }
{
    match instr {
        Instr::Idle | Instr::Accessory { .. } => false,
        Instr::Reset | Instr::StopAll { .. } => true,
        Instr::Speed { address, .. }
        | Instr::Speed128 { address, .. }
        | Instr::GroupOne { address, .. }
        | Instr::GroupTwo { address, .. }
        | Instr::GroupThree { address, .. } => is_own(cv, *address),
    }
}

/// Obeys an instruction that is for the decoder. A separate call, since most are for another one.
#[inline(never)]
fn obey_own(cv: &CvSet, running: &mut Running, instr: Instr)
    requires { concerns cv.now instr ≡ true }
    ensures { running.new ≡ obeyed cv.now running.old instr }
{
    *running = after_instr(cv, *running, instr);
}

/// How it runs after an instruction that is for it.
fn after_instr(cv: &CvSet, running: Running, instr: Instr) -> Running
    requires { concerns cv.now instr ≡ true }
    ensures { result ≡ obeyed cv.now running instr }
{
    match instr {
        Instr::Reset => FIRST,
        Instr::StopAll { emergency } => Running {
            motion: if emergency {
                Motion::Emergency
            } else {
                Motion::Stop
            },
            ..running
        },
        Instr::Speed { d, low, .. } => drive(cv, running, d, low),
        Instr::Speed128 { d, s, .. } => Running {
            motion: motion_of_number(Steps::S128, s),
            forward: own_forward(cv, d),
            ..running
        },
        Instr::GroupOne { bits, .. } => Running {
            functions: light(cv, running.functions, bits),
            ..running
        },
        Instr::GroupTwo { bits, .. } => Running {
            functions: running.functions / 512 * 512
                + 32 * u16::from(bits % 16)
                + running.functions % 32,
            ..running
        },
        Instr::GroupThree { bits, .. } => Running {
            functions: 512 * u16::from(bits % 16) + running.functions % 512,
            ..running
        },
        Instr::Idle | Instr::Accessory { .. } => running,
    }
}

/// Whether an address is that of the decoder.
fn is_own(cv: &CvSet, address: Address) -> bool
    ensures { result ≡ is_own cv.now.address address }
{
    cv.address() == address
}

/// The direction in the decoder's own sense, if D of the packet is `d`.
fn own_forward(cv: &CvSet, d: bool) -> bool
    ensures { result ≡ own_forward cv.now d }
{
    d != cv.reversed()
}

/// How it runs after a speed packet with these five bits CSSSS.
fn drive(cv: &CvSet, running: Running, d: bool, low: u8) -> Running
    ensures { result ≡ driven cv.now running d low }
{
    let forward = own_forward(cv, d);
    if cv.fourteen() {
        Running {
            motion: motion_of_number(Steps::S14, low % 16),
            forward,
            functions: with_light(running.functions, low),
        }
    } else {
        Running {
            motion: motion_of_number(Steps::S28, 2 * (low % 16) + low / 16 % 2),
            forward,
            ..running
        }
    }
}

/// The motion of a number on the track (S-9.2.1, 2.3.2 and 2.3.3).
fn motion_of_number(steps: Steps, number: u8) -> Motion
    ensures { result ≡ motion_of_number steps number }
{
    let (last_stop, last_emergency) = match steps {
        Steps::S28 => (1, 3),
        Steps::S14 | Steps::S128 => (0, 1),
    };
    if number <= last_stop {
        Motion::Stop
    } else if number <= last_emergency {
        Motion::Emergency
    } else {
        Motion::Step {
            of: steps,
            n: number - last_emergency,
        }
    }
}

/// The functions with F0 as in bit 4.
fn with_light(functions: u16, bits: u8) -> u16
    ensures { result ≡ with_bits functions 0 1 (bits / 16 % 2) }
{
    functions / 2 * 2 + u16::from(bits / 16 % 2)
}

/// The functions after a packet of group one.
fn light(cv: &CvSet, functions: u16, bits: u8) -> u16
    ensures { result ≡ lit cv.now functions bits }
{
    let others = functions / 32 * 32 + 2 * u16::from(bits % 16) + functions % 2;
    if cv.fourteen() {
        others
    } else {
        with_light(others, bits)
    }
}
