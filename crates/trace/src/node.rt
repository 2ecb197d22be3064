//! The lines of decoders in the output of `station`.
ghost use Rattle.std.specs.Prelude.{◌≡◌};
ghost use Rattle.trace.specs.Node.{accessory_of, after_motion, is_of_node, last_of, loco_of, motion_of, node_of, reported_state_of};

use crate::reported_state::{ReportedState, Seen};
use crate::words::{
    address, direction, first_word, is_word, module, name, number, rest_after, steps, switches,
};
use dcc_packet::{Motion, Steps};

/// Whether the first word of the line, up to a space, is that of a decoder.
pub fn is_of_node(line: &[u8]) -> bool
    ensures { result ≡ is_of_node line.now }
{
    line == b"node".as_slice() || line.starts_with(b"node ".as_slice())
}

/// The last speed step of a mode: 14, 28 or 126.
pub fn last_of(steps: Steps) -> u32
    ensures { result ≡ last_of steps }
{
    match steps {
        Steps::S14 => 14,
        Steps::S28 => 28,
        Steps::S128 => 126,
    }
}

/// Parses `stop`, `emergency` or `step N of M`.
fn motion(text: &[u8]) -> Option<Motion>
    ensures { result ≡ motion_of text.now }
{
    let word = first_word(text);
    if is_word(word, "stop") {
        return Some(Motion::Stop);
    }
    if is_word(word, "emergency") {
        return Some(Motion::Emergency);
    }
    if !is_word(word, "step") {
        return None;
    }
    let n = number(first_word(rest_after(text)))?;
    if !is_word(first_word(rest_after(rest_after(text))), "of") {
        return None;
    }
    let of = steps(first_word(rest_after(rest_after(rest_after(text)))))?;
    if n < 1 || n > last_of(of) {
        return None;
    }
    Some(Motion::Step { of, n: n as u8 })
}

fn after_motion(text: &[u8]) -> &[u8]
    ensures { result.now ≡ after_motion text.now }
{
    if is_word(first_word(text), "step") {
        rest_after(rest_after(rest_after(rest_after(text))))
    } else {
        rest_after(text)
    }
}

/// `short A MOTION DIR F fffffffffffff`, or with `long A`.
fn loco(text: &[u8]) -> Option<ReportedState>
    ensures { result ≡ loco_of text.now }
{
    let address = address(first_word(text), first_word(rest_after(text)))?;
    let motion = motion(rest_after(rest_after(text)))?;
    let rest = after_motion(rest_after(rest_after(text)));
    let forward = direction(first_word(rest))?;
    if !is_word(first_word(rest_after(rest)), "F") {
        return None;
    }
    let functions = switches(13, rest_after(rest_after(rest)))?;
    Some(ReportedState::Loco {
        address,
        motion,
        forward,
        functions,
    })
}

/// `module M outputs oooooooo`.
fn accessory(text: &[u8]) -> Option<ReportedState>
    ensures { result ≡ accessory_of text.now }
{
    let number = number(first_word(rest_after(text)))?;
    if !is_word(first_word(rest_after(rest_after(text))), "outputs") {
        return None;
    }
    let outputs = switches(8, rest_after(rest_after(rest_after(text))))?;
    let module = module(number)?;
    Some(ReportedState::Accessory { module, outputs })
}

fn reported_state(text: &[u8]) -> Option<ReportedState>
    ensures { result ≡ reported_state_of text.now }
{
    if is_word(first_word(text), "module") {
        accessory(text)
    } else {
        loco(text)
    }
}

/// Returns the name and the state of the decoder of a line, or `None` if the line is not one that
/// `station` prints of a decoder.
pub fn node_in(line: &[u8]) -> Option<Seen>
    ensures { result ≡ node_of line.now }
{
    if !is_word(first_word(line), "node") {
        return None;
    }
    let rest = rest_after(line);
    let reported_state = reported_state(rest_after(rest))?;
    let name = name(first_word(rest))?;
    Some(Seen {
        name,
        reported_state,
    })
}
