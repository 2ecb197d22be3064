//! Running the program on its arguments and streams.
ghost use Rattle.std.specs.Prelude.{◌≡◌, ◌≢◌, ◌≤◌, IfErr, OnOk, false, map, true};
ghost use Rattle.console.specs.Fault.{ended_by, is_unread_input, is_unwritten, status_of};
ghost use Rattle.station.specs.Ends.{EndsAs, FailsOrder, FailsReplayNew, FailsServe};
ghost use Rattle.station.specs.Runs.{CarriesOut, ReplaysNew, Runs, ServesNew};

use crate::layout::new_world;
use crate::listening::{listen, serve_on};
use crate::replay::replay;
use command_line::FileName;
use console::{RunFault, STATION, monitor, read_roster, report};
use input_text::{Input, Output};
use layout_core::Limits;
use station_orders::{Order, order};
use std::io::Write;
use std::net::{Net, TcpListener, TcpStream};
use std::rt::Files;

/// Runs the program on the arguments after its name, and returns its exit status, 0 to 6.
///
/// Results are written to `output`. If the status is not 0, one line `station: ..`, or the text of
/// `clap` for the command line, is written to `faults`.
pub fn execute<R, I, O, E>(
    rt: &R,
    words: &[&str],
    input: &mut I,
    output: &mut O,
    faults: &mut E,
) -> u8
where
    R: Files + AllocGlobal + Net<Listener = TcpListener, Stream = TcpStream>,
    I: Input,
    O: Output,
    E: Write,
    requires reads { I.failed input.old ≡ false }
    requires writes { O.failed output.old ≡ false }
    ensures most { result ≤ 6 }
    // The arguments are an order, and it was carried out.
    ensures done { result ≡ 0
        → Runs (map (λ word. word.now) words.entry.now) (I.left input.old) (I.left input.new)
        (O.held output.old) (O.held output.new) }
    // Otherwise it was not, and the status gives the reason.
    ensures ends { result ≢ 0
        → EndsAs (map (λ word. word.now) words.entry.now) (I.left input.old) (I.left input.new)
        (I.failed input.new) (O.failed output.new) result }
    ensures unread { I.failed input.new ≡ true → result ≡ 2 }
    // No write of the output failed if the status is 0; if one failed, the status is 4.
    ensures written { result ≡ 0 → O.failed output.new ≡ false }
    ensures unwritten { O.failed output.new ≡ true → result ≡ 4 }
    // A fault of the arguments, of reading, of a roster, a script or a hex text prints nothing.
    ensures untouched { result ≢ 0 → result ≢ 4 → result ≢ 6 → output.new ≡ output.old }
{
    match order(rt.alloc(), words) {
        Ok(order) => match carry_out(rt, order, input, output) {
            Ok(()) => 0,
            Err(fault) => report(&fault, faults),
        },
        Err(fault) => fault.report(STATION, faults),
    }
}

/// Carries out an order.
fn carry_out<R, I, O>(rt: &R, order: Order, input: &mut I, output: &mut O) -> Result<(), RunFault>
where
    R: Files + AllocGlobal + Net<Listener = TcpListener, Stream = TcpStream>,
    I: Input,
    O: Output,
    requires reads { I.failed input.old ≡ false }
    requires writes { O.failed output.old ≡ false }
    ensures done { OnOk result
        (CarriesOut order (I.left input.old) (I.left input.new) (O.held output.old)
        (O.held output.new)) }
    ensures fails { IfErr result
        (FailsOrder order (I.left input.old) (I.left input.new) (I.failed input.new)) }
    ensures unread { I.failed input.new ≡ ended_by is_unread_input result }
    ensures unwritten { O.failed output.new ≡ ended_by is_unwritten result }
    ensures untouched { IfErr result
        (λ e. status_of e ≢ 4 → status_of e ≢ 6 → output.new ≡ output.old) }
{
    match order {
        Order::Replay { lines, roster } => replay_new(rt, lines, roster, input, output),
        Order::Monitor { file } => monitor(rt, file, output),
        Order::Serve {
            port,
            roster,
            turns,
            reads,
            connections,
        } => {
            let limits = Limits { reads, turns };
            serve_new(rt, port, roster, limits, connections, output)
        }
    }
}

/// Replays standard input on a new layout.
fn replay_new<R, I, O>(
    rt: &R,
    lines: u8,
    roster: Option<FileName>,
    input: &mut I,
    output: &mut O,
) -> Result<(), RunFault>
where
    R: Files + AllocGlobal,
    I: Input,
    O: Output,
    requires reads { I.failed input.old ≡ false }
    requires writes { O.failed output.old ≡ false }
    ensures done { OnOk result
        (ReplaysNew lines roster (I.left input.old) (I.left input.new) (O.held output.old)
        (O.held output.new)) }
    ensures fails { IfErr result
        (FailsReplayNew lines roster (I.left input.old) (I.left input.new) (I.failed input.new)) }
    ensures unread { I.failed input.new ≡ ended_by is_unread_input result }
    ensures unwritten { O.failed output.new ≡ ended_by is_unwritten result }
    ensures untouched { IfErr result
        (λ e. status_of e ≢ 4 → status_of e ≢ 6 → output.new ≡ output.old) }
{
    let roster = read_roster(rt, roster)?;
    let mut world = new_world(rt.alloc(), lines, roster.as_ref())?;
    replay(rt.alloc(), &mut world, roster.as_ref(), input, output)
}

/// Serves connections on a new layout.
fn serve_new<R, O>(
    rt: &R,
    port: u16,
    roster: Option<FileName>,
    limits: Limits,
    connections: u32,
    output: &mut O,
) -> Result<(), RunFault>
where
    R: Files + AllocGlobal + Net<Listener = TcpListener, Stream = TcpStream>,
    O: Output,
    requires { O.failed output.old ≡ false }
    ensures done { OnOk result
        (ServesNew port roster limits connections (O.held output.old) (O.held output.new)) }
    ensures fails { IfErr result (FailsServe roster) }
    ensures unwritten { O.failed output.new ≡ ended_by is_unwritten result }
    ensures untouched { IfErr result
        (λ e. status_of e ≢ 4 → status_of e ≢ 6 → output.new ≡ output.old) }
{
    let roster = read_roster(rt, roster)?;
    let mut world = new_world(rt.alloc(), 1, roster.as_ref())?;
    let listener = listen(rt, port, output)?;
    serve_on(
        &listener,
        &mut world,
        roster.as_ref(),
        limits,
        connections,
        output,
    )
}
