//! The layout that a run works on, and the lines of its decoders.
ghost use Rattle.std.specs.Prelude.{◌≡◌, Err, IfErr, IfOk, OnErr, OnOk, Some, false, length, map, true};
ghost use Rattle.std.specs.Io.KnownBytes.{Appends};
ghost use Rattle.station_core.specs.Seen.{is_line_count};
ghost use Rattle.station.specs.Fault.{of_station};
ghost use Rattle.station.specs.Layout.{AreBetween, IsWorldOf, entries_in, roster_value};
ghost use Rattle.station.specs.Runs.{IsNew};
ghost use Rattle.input_text.specs.Write.{AppendsFront, failed_after};
ghost use Rattle.console.specs.Printed.{lines_text};
ghost use Rattle.layout_core.specs.DecoderStates.{decoder_state_of};
ghost use Rattle.station.specs.Printed.{decoder_lines};

use console::{RunFault, WriteError, print};
use decoder_node::NodeList;
use input_text::Sink;
use layout_core::World;
use roster::Roster;
use station_core::StationFault;
use std::alloc::Global;

/// Creates a new station with `lines` lines, and the decoders of the roster; without a roster there
/// are none.
pub fn new_world(alloc: Global, lines: u8, roster: Option<&Roster>) -> Result<World, RunFault>
    ensures lines { IfOk result
        (λ world. (is_line_count lines ≡ true) × (length world.station.lines ≡ lines)) }
    ensures new { IfOk result (λ world. IsNew lines (roster_value roster.entry) world) }
    ensures nodes { IfOk result (λ world. IsWorldOf (roster_value roster.entry) world.nodes) }
    ensures between { IfOk result (λ world. AreBetween world.nodes) }
    // Fails with the fault of the lines exactly if they are not 1 to 8, and otherwise only if out
    // of memory.
    ensures refused { is_line_count lines ≡ false → result ≡ Err RunFault.Lines }
    ensures fault { IfErr result (λ e. is_line_count lines ≡ true → e ≡ RunFault.NoMemory) }
{
    let nodes = match roster {
        Some(roster) => roster.nodes(),
        None => NodeList::new(),
    };
    match World::new(alloc, lines, nodes) {
        Ok(world) => Ok(world),
        Err(fault) => Err(no_station(fault)),
    }
}

/// The fault of a run without a station.
fn no_station(fault: StationFault) -> RunFault
    ensures { result ≡ of_station fault }
{
    match fault {
        StationFault::BadLines => RunFault::Lines,
        StationFault::NoMemory => RunFault::NoMemory,
    }
}

/// Prints the state of each decoder, in order.
pub(crate) fn print_nodes<O: Sink>(
    world: &World,
    roster: Option<&Roster>,
    output: &mut O,
) -> Result<(), WriteError>
    requires { IsWorldOf (roster_value roster) world.now.nodes }
    ensures printed { OnOk result
        (Appends (O.held output.old) (O.held output.new)
        (lines_text (decoder_lines (entries_in (roster_value roster.entry))
        (map decoder_state_of world.now.nodes)))) }
    ensures front { OnErr result
        (AppendsFront (O.held output.old) (O.held output.new)
        (lines_text (decoder_lines (entries_in (roster_value roster.entry))
        (map decoder_state_of world.now.nodes)))) }
    ensures failed { O.failed output.new ≡ failed_after result (O.failed output.old) }
    ensures loan { O.loan output.new ≡ O.loan output.old }
{
    match roster {
        Some(roster) => print_decoders(world, roster, output),
        None => Ok(()),
    }
}

/// Prints a line for each decoder of the roster.
fn print_decoders<O: Sink>(world: &World, roster: &Roster, output: &mut O) -> Result<(), WriteError>
    requires { IsWorldOf (Some roster.now) world.now.nodes }
    ensures printed { OnOk result
        (Appends (O.held output.old) (O.held output.new)
        (lines_text (decoder_lines roster.now (map decoder_state_of world.now.nodes)))) }
    ensures front { OnErr result
        (AppendsFront (O.held output.old) (O.held output.new)
        (lines_text (decoder_lines roster.now (map decoder_state_of world.now.nodes)))) }
    ensures failed { O.failed output.new ≡ failed_after result (O.failed output.old) }
    ensures loan { O.loan output.new ≡ O.loan output.old }
{
    input_text::laws::fronts();
    for (i, spec) in roster.nodes().as_slice().iter().enumerate() {
        let line = world.decoder_state(i).line(roster.name(i), spec);
        print(output, &line)?;
    }
    Ok(())
}
