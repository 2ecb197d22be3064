//! `station replay`: running a script on the layout.
ghost use Rattle.std.specs.Prelude.{◌≡◌, ◌≢◌, ◌<◌, ◌+◌, ◌^◌, IfErr, IfOk, IsTrue, OnOk, false, length, replicate};
ghost use Rattle.std.specs.Io.KnownBytes.{Appends};
ghost use Rattle.ln_ops.specs.Reply.{IsSendable};
ghost use Rattle.layout_core.specs.Played.{answers_to};
ghost use Rattle.layout_core.specs.Served.{IsSendableAnswer, line_of_answer, traced_from};
ghost use Rattle.layout_core.specs.World.{IsSameLayout};
ghost use Rattle.show_text.specs.Lines.{off_text, reply_text, track_text};
ghost use Rattle.show_text.specs.Script.{AreOnLines, is_on_line};
ghost use Rattle.input_text.specs.Write.{failed_after};
ghost use Rattle.console.specs.Fault.{ended_by, is_unread_input, is_unwritten};
ghost use Rattle.console.specs.Printed.{ended};
ghost use Rattle.station.specs.Ends.{FailsReplay};
ghost use Rattle.station.specs.Layout.{AreBetween, IsWorldOf, entries_in, roster_value};
ghost use Rattle.station.specs.Replayed.{HasDone, command_text, events_in, events_of, scene_of, turns_among};
ghost use Rattle.station.specs.Scripts.{FailsInput, RefusesInput, Replays, ReplaysInput};

use crate::layout::print_nodes;
use console::{Buffered, RunFault, WriteError, flush_after, print, print_ended};
use dcc_packet::Packet;
use input_text::{Input, Output, Sink, read_limited};
use layout_core::{Event, World};
use ln_ops::Reply;
use roster::Roster;
use show_text::{Command, LONGEST_TEXT, Line, push_off, push_track, read_script, reply_line};
use station_core::Step;
use std::alloc::Global;

/// Reads a whole script from standard input, and then prints the replies to its bytes, its turns,
/// and the decoders that it shows.
pub(crate) fn replay<I: Input, O: Output>(
    alloc: Global,
    world: &mut World,
    roster: Option<&Roster>,
    input: &mut I,
    output: &mut O,
) -> Result<(), RunFault>
    requires works { I.failed input.old ≡ false }
    requires writes { O.failed output.old ≡ false }
    requires nodes { IsWorldOf (roster_value roster) world.old.nodes }
    requires between { AreBetween world.old.nodes }
    ensures printed { OnOk result
        (ReplaysInput (I.left input.old) (I.left input.new) world.old
        (entries_in (roster_value roster.entry)) world.new (O.held output.old)
        (O.held output.new)) }
    ensures refused { RefusesInput (I.left input.old) result world.old world.new (O.held output.old)
        (O.held output.new) }
    ensures failed { FailsInput (I.left input.old) result world.old }
    // A read failed exactly if the fault is that of standard input.
    ensures unread { I.failed input.new ≡ ended_by is_unread_input result }
    // A write or a flush failed exactly if the fault is that of standard output.
    ensures unwritten { O.failed output.new ≡ ended_by is_unwritten result }
    ensures fault { IfErr result
        (FailsReplay world.old (I.left input.old) (I.left input.new) (I.failed input.new)) }
    // Unless memory ran out or the output failed, a fault prints nothing.
    ensures untouched { IfErr result
        (λ e. e ≢ RunFault.NoMemory → e ≢ RunFault.Output → output.new ≡ output.old) }
{
    let text = read_limited(alloc, input, LONGEST_TEXT + 1)?;
    let lines = world.station().lines();
    let nodes = world.nodes() as u8;
    let commands = read_script(alloc, text.as_slice(), lines, nodes)?;
    let mut buffered = Buffered::new(output);
    let played = play(world, roster, commands.as_slice(), &mut buffered);
    flush_after(played.map_err(RunFault::from), &mut buffered)
}

/// Runs the commands one after another, and prints the output of each. Turns are numbered from 1.
// A separate call, so that its loop keeps its values in registers.
#[inline(never)]
fn play<O: Sink>(
    world: &mut World,
    roster: Option<&Roster>,
    commands: &[Command],
    output: &mut O,
) -> Result<(), WriteError>
    requires lines { AreOnLines (length world.old.station.lines) commands.now }
    requires nodes { IsWorldOf (roster_value roster) world.old.nodes }
    requires between { AreBetween world.old.nodes }
    requires numbers { turns_among (events_in commands.now) + 1 < 2 ^ 64 }
    ensures replayed { OnOk result
        (Replays world.old (entries_in (roster_value roster.entry)) commands.now world.new
        (O.held output.old) (O.held output.new)) }
    ensures failed { O.failed output.new ≡ failed_after result (O.failed output.old) }
    ensures loan { O.loan output.new ≡ O.loan output.old }
{
    layout_core::laws::events_add_up();
    layout_core::laws::headline();
    world.station().always_legal();
    let mut turn = 1;
    let mut text = Line::new();
    for command in commands {
        turn = play_command(world, roster, *command, turn, &mut text, output)?;
    }
    Ok(())
}

/// Runs a command and prints its output; `turn` is the number of the next turn. Returns the number
/// of the next turn after it. The lines of turns are all formatted in `text`, so that no buffer is
/// cleared for each.
fn play_command<O: Sink>(
    world: &mut World,
    roster: Option<&Roster>,
    command: Command,
    turn: u64,
    text: &mut Line,
    output: &mut O,
) -> Result<u64, WriteError>
    requires line { IsTrue (is_on_line (length world.old.station.lines) command) }
    requires nodes { IsWorldOf (roster_value roster) world.old.nodes }
    requires numbers { turn + turns_among (events_of command) < 2 ^ 64 }
    ensures done { OnOk result (HasDone (events_of command) world.old world.new) }
    ensures printed { OnOk result
        (Appends (O.held output.old) (O.held output.new)
        (command_text (entries_in (roster_value roster.entry)) (scene_of world.old turn) command)) }
    ensures next { IfOk result (λ next. next ≡ turn + turns_among (events_of command)) }
    ensures same { IsSameLayout world.old world.new }
    ensures failed { O.failed output.new ≡ failed_after result (O.failed output.old) }
    ensures loan { O.loan output.new ≡ O.loan output.old }
{
    layout_core::laws::events_add_up();
    match command {
        Command::Byte { line, byte } => {
            let answer = world.step(Event::Byte { line, byte });
            print_answer(answer, line, turn, text, output)?;
            Ok(turn)
        }
        Command::Turns { count, missed } => play_turns(world, count, missed, turn, text, output),
        Command::Show => {
            print_nodes(world, roster, output)?;
            Ok(turn)
        }
    }
}

/// Runs and prints `count` turns, of which the first has the number `turn`. Returns the number of
/// the turn after them.
// A separate call, as `play`.
#[inline(never)]
fn play_turns<O: Sink>(
    world: &mut World,
    count: u32,
    missed: u64,
    first: u64,
    text: &mut Line,
    output: &mut O,
) -> Result<u64, WriteError>
    requires { first + count < 2 ^ 64 }
    ensures done { OnOk result (HasDone (replicate count (Event.Turn missed)) world.old world.new) }
    ensures printed { OnOk result
        (Appends (O.held output.old) (O.held output.new)
        (traced_from 0 first
        (answers_to world.old.station (replicate count (Event.Turn missed))))) }
    ensures next { IfOk result (λ next. next ≡ first + count) }
    ensures same { IsSameLayout world.old world.new }
    ensures failed { O.failed output.new ≡ failed_after result (O.failed output.old) }
    ensures loan { O.loan output.new ≡ O.loan output.old }
{
    station_core::laws::calls_are_moves();
    layout_core::laws::events_add_up();
    let next = first + u64::from(count);
    for turn in first..next {
        let answer = world.step(Event::Turn { missed });
        print_answer(answer, 0, turn, text, output)?;
    }
    Ok(next)
}

/// Prints the line of an answer; `turn` is the number of a turn. A byte without a reply has no
/// line. Always inlined: both callers know the kind of event, so no answer is copied, and a byte
/// without a reply costs only its reception.
#[inline(always)]
fn print_answer<O: Sink>(
    answer: Step,
    line: u8,
    turn: u64,
    text: &mut Line,
    output: &mut O,
) -> Result<(), WriteError>
    requires { IsSendableAnswer answer }
    ensures printed { OnOk result
        (Appends (O.held output.old) (O.held output.new) (line_of_answer line turn answer)) }
    ensures failed { O.failed output.new ≡ failed_after result (O.failed output.old) }
    ensures loan { O.loan output.new ≡ O.loan output.old }
{
    match answer {
        Step::Quiet => Ok(()),
        Step::Reply(reply) => print_reply(line, &reply, output),
        Step::Packet(packet) => print_packet(turn, &packet, text, output),
        Step::Off => print_off(turn, text, output),
    }
}

// A separate call: the buffer of the line is cleared where it is declared, and most bytes have no
// reply.
#[inline(never)]
fn print_reply<O: Sink>(line: u8, reply: &Reply, output: &mut O) -> Result<(), WriteError>
    requires { IsSendable reply.now }
    ensures printed { OnOk result
        (Appends (O.held output.old) (O.held output.new) (ended (reply_text line reply.now))) }
    ensures failed { O.failed output.new ≡ failed_after result (O.failed output.old) }
    ensures loan { O.loan output.new ≡ O.loan output.old }
{
    print(output, &reply_line(line, reply))
}

fn print_packet<O: Sink>(
    turn: u64,
    packet: &Packet,
    text: &mut Line,
    output: &mut O,
) -> Result<(), WriteError>
    ensures printed { OnOk result
        (Appends (O.held output.old) (O.held output.new) (ended (track_text turn packet.now))) }
    ensures failed { O.failed output.new ≡ failed_after result (O.failed output.old) }
    ensures loan { O.loan output.new ≡ O.loan output.old }
{
    text.clear();
    push_track(text, turn, packet);
    print_ended(output, text)
}

fn print_off<O: Sink>(turn: u64, text: &mut Line, output: &mut O) -> Result<(), WriteError>
    ensures printed { OnOk result
        (Appends (O.held output.old) (O.held output.new) (ended (off_text turn))) }
    ensures failed { O.failed output.new ≡ failed_after result (O.failed output.old) }
    ensures loan { O.loan output.new ≡ O.loan output.old }
{
    text.clear();
    push_off(text, turn);
    print_ended(output, text)
}
