//! `station serve`: throttles over TCP.
ghost use Rattle.std.specs.Prelude.{◌≡◌, ◌<◌, ◌+◌, ◌++◌, ◌∷◌, [], IfErr, OnErr, OnOk, false, length};
ghost use Rattle.std.specs.Io.KnownBytes.{Appends};
ghost use Rattle.input_text.specs.Write.{failed_after};
ghost use Rattle.console.specs.Fault.{ended_by, is_unwritten, status_of};
ghost use Rattle.layout_core.specs.World.{IsSameLayout};
ghost use Rattle.station.specs.Connections.{GivesUp, HasGivenUp, HasServed, ServesConnections, ServesPart, ServesSource, is_serve, listening_text};
ghost use Rattle.station.specs.Fault.{of_serve};
ghost use Rattle.station.specs.Layout.{IsWorldOf, entries_in, roster_value};

use crate::layout::print_nodes;
use console::{RunFault, WriteError, print_ended};
use input_text::{Output, Sink};
use itoa::Buffer;
use layout_core::{Limits, Port, ServeFault, Source, World, serve};
use roster::Roster;
use show_text::Line;
use std::net::{Net, TcpListener, TcpStream};

/// The line that reports the port.
fn listening_line(port: u16) -> Line
    ensures text { result.bytes ++ 10 ∷ [] ≡ listening_text port }
    ensures short { length result.bytes < 640 }
{
    let mut line = Line::new();
    line.push_str("listening 127.0.0.1:");
    line.push_str(Buffer::new().format(port));
    line
}

/// Prints the line that reports the port, and flushes it.
fn print_listening<O: Output>(port: u16, output: &mut O) -> Result<(), WriteError>
    ensures printed { OnOk result
        (Appends (O.held output.old) (O.held output.new) (listening_text port)) }
    ensures failed { O.failed output.new ≡ failed_after result (O.failed output.old) }
{
    print_ended(output, &mut listening_line(port))?;
    output.flush().map_err(|_| WriteError)
}

/// Binds the port on 127.0.0.1, and reports it at once.
pub(crate) fn listen<R, O>(rt: &R, port: u16, output: &mut O) -> Result<TcpListener, RunFault>
where
    R: Net<Listener = TcpListener, Stream = TcpStream>,
    O: Output,
    requires { O.failed output.old ≡ false }
    ensures printed { OnOk result
        (Appends (O.held output.old) (O.held output.new) (listening_text port)) }
    ensures status { IfErr result (λ e. status_of e ≡ 4) }
    ensures unwritten { O.failed output.new ≡ ended_by is_unwritten result }
{
    let Ok(listener) = TcpListener::bind(rt, ("127.0.0.1", port)) else {
        return Err(RunFault::Network);
    };
    print_listening(port, output)?;
    Ok(listener)
}

/// Serves connections one after another, each on line 0 of one layout. Prints the trace of each and
/// then the state of the decoders. The bytes of the connections follow one another.
///
/// # Errors
///
/// `Network` if a connection could not be accepted, `Serve` if serving one stopped, `Output` if a
/// line could not be printed. The first fault ends the run; what was done and written before
/// remains.
pub fn serve_on<O: Output>(
    listener: &TcpListener,
    world: &mut World,
    roster: Option<&Roster>,
    limits: Limits,
    connections: u32,
    output: &mut O,
) -> Result<(), RunFault>
    requires nodes { IsWorldOf (roster_value roster) world.old.nodes }
    requires writes { O.failed output.old ≡ false }
    // The layout may be served again.
    ensures nodes { IsWorldOf (roster_value roster.entry) world.new.nodes }
    // Each connection continues with the layout that the previous one left; its trace is printed,
    // followed by a line for each decoder.
    ensures served { OnOk result
        (HasServed limits connections (entries_in (roster_value roster.entry)) world.old world.new
        [] (O.held output.old) (O.held output.new)) }
    // A line or a trace could not be printed exactly if a write of the output failed.
    ensures unwritten { O.failed output.new ≡ ended_by is_unwritten result }
    ensures given_up { IfErr result
        (λ e. HasGivenUp e limits connections (entries_in (roster_value roster.entry)) world.old
        world.new (O.held output.old) (O.held output.new)) }
{
    layout_core::laws::events_add_up();
    layout_core::laws::headline();
    world.station().always_legal();
    for _served in 0..connections {
        let Ok((stream, _)) = listener.accept() else {
            return Err(RunFault::Network);
        };
        let (mut source, mut sink) = (Port::new(&stream), Port::new(&stream));
        serve_connection(&mut source, &mut sink, world, limits, output)?;
        print_nodes(world, roster, output)?;
    }
    Ok(())
}

/// Serves one connection and prints its trace: all bytes of the source are received, and the
/// replies are written to the sink.
///
/// # Errors
///
/// `Serve` if serving stopped before the end: 1 if the source failed, 2 if the sink failed, 3 if
/// the trace could not be printed, 4 if the limit of reads was reached before the end.
pub fn serve_connection<S: Source, K: Sink, O: Output>(
    source: &mut S,
    sink: &mut K,
    world: &mut World,
    limits: Limits,
    output: &mut O,
) -> Result<(), RunFault>
    requires open { S.ended source.old ≡ false }
    requires source_works { S.failed source.old ≡ false }
    requires sink_works { K.failed sink.old ≡ false }
    requires writes { O.failed output.old ≡ false }
    ensures same { IsSameLayout world.old world.new }
    ensures whole { OnOk result
        (ServesSource limits world.old world.new (S.left source.old) (S.left source.new)
        (K.held sink.old) (K.held sink.new) (O.held output.old) (O.held output.new)) }
    ensures served { OnOk result
        (ServesConnections limits world.old world.new (O.held output.old) (O.held output.new)) }
    ensures part { OnErr result (ServesPart limits.turns world.old world.new) }
    ensures given_up { IfErr result
        (λ e. GivesUp e limits world.old world.new (O.held output.old) (O.held output.new)) }
    ensures source_failed { S.failed source.new ≡ ended_by (is_serve 1) result }
    ensures sink_failed { K.failed sink.new ≡ ended_by (is_serve 2) result }
    ensures unwritten { O.failed output.new ≡ ended_by is_unwritten result }
    ensures too_many { IfErr result
        (λ e. e ≡ RunFault.Serve 4 → S.reads source.new ≡ S.reads source.old + limits.reads) }
{
    world.station().always_legal();
    match serve(world, 0, source, sink, output, limits) {
        Ok(_summary) => Ok(()),
        Err(fault) => Err(given_up(fault)),
    }
}

/// The fault of a run that stopped serving a connection.
fn given_up(fault: ServeFault) -> RunFault
    ensures { result ≡ of_serve fault }
{
    RunFault::Serve(match fault {
        ServeFault::Read => 1,
        ServeFault::Write => 2,
        ServeFault::Trace => 3,
        ServeFault::TooManyReads => 4,
    })
}
