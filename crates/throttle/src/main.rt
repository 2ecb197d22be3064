//! A throttle that uses only the library: it takes a locomotive, drives it over a track that loses
//! two packets of three, and reads its decoder until that runs as requested.
#![tactic(auto)]

ghost use Rattle.std.specs.Prelude.{◌<◌, length};
ghost use Rattle.layout_core.specs.World.{IsSameLayout};

use layout_core::{
    CvSet, Event, Motion, Msg, NodeList, NodeSpec, Reply, Running, Step, Steps, World, node_line,
    reply_line, track_line,
};
use std::io;
use std::process::ExitCode;

/// How the locomotive is to run: step 63 of 128, forward, with F0 on.
const REPORTED: Running = Running {
    motion: Motion::Step {
        of: Steps::S128,
        n: 63,
    },
    forward: true,
    functions: 1,
};

fn main(rt: HostRuntime) -> ExitCode {
    match run(&rt) {
        Ok(true) => ExitCode::from(0),
        _ => ExitCode::from(1),
    }
}

/// Returns true if there is a layout, locomotive 3 was taken, and it settled.
fn run(rt: &HostRuntime) -> io::Result<bool> {
    let Ok(settings) = CvSet::new(3, 192, 0, 2) else {
        return Ok(false);
    };
    let locomotive = NodeSpec::Loco(settings);
    let mut nodes = NodeList::new();
    nodes.push(locomotive);
    let Ok(mut world) = World::new(rt.alloc(), 1, nodes) else {
        return Ok(false);
    };
    // Power, and the slot of address 3.
    say(rt, &mut world, &[0x83])?;
    let Some(slot) = slot_in(&say(rt, &mut world, &[0xBF, 0, 3])?) else {
        return Ok(false);
    };
    // A null move puts it in use; then speed 64, and forward with F0.
    say(rt, &mut world, &[0xBA, slot, slot])?;
    say(rt, &mut world, &[0xA0, slot, 0x40])?;
    say(rt, &mut world, &[0xA1, slot, 0x10])?;
    let settled = drive(rt, &mut world)?;
    if let Some(running) = world.running(0) {
        let line = node_line("engine", &locomotive, Some(running), None);
        println!(rt; "{}", line.as_str())?;
    }
    Ok(settled)
}

/// Returns the slot of a reply.
fn slot_in(reply: &Option<Reply>) -> Option<u8> {
    match reply {
        Some(Reply::SlotData(slot)) => Some(slot.slot),
        _ => None,
    }
}

/// Sends a message on line 0, given without its check, and prints the reply to it, if there is one.
fn say(rt: &HostRuntime, world: &mut World, body: &[u8]) -> io::Result<Option<Reply>>
    requires { 0 < length world.old.station.lines }
    ensures same { IsSameLayout world.old world.new }
{
    let mut answered = None;
    if Msg::is_body(body) {
        for byte in Msg::sealed(body).bytes() {
            let byte = Event::Byte {
                line: 0,
                byte: *byte,
            };
            if let Step::Reply(reply) = world.step(byte) {
                println!(rt; "{}", reply_line(0, &reply).as_str())?;
                answered = Some(reply);
            }
        }
    }
    Ok(answered)
}

/// Runs up to 100 turns, of which the locomotive hears every third, until it runs as requested.
/// Returns whether it does.
fn drive(rt: &HostRuntime, world: &mut World) -> io::Result<bool>
    requires { 0 < length world.old.nodes }
    ensures same { IsSameLayout world.old world.new }
{
    for turn in 1..=100 {
        let is_lost = turn % 3 != 0;
        let missed = u64::from(is_lost);
        if let Step::Packet(packet) = &world.step(Event::Turn { missed }) {
            let end = if is_lost { " lost" } else { "" };
            println!(rt; "{}{end}", track_line(turn, packet).as_str())?;
        }
        if world.running(0) == Some(REPORTED) {
            println!(rt; "settled after {turn} turns")?;
            return Ok(true);
        }
    }
    Ok(false)
}
