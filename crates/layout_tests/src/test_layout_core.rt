//! The effect on decoders of packets that were worked out by hand from S-9.2.1, and of noise. What a
//! script shows is in `tests/process_checks`.

use dcc_packet::{Module, Motion, Packet, Steps};
use decoder_cv::CvSet;
use decoder_node::{NodeList, NodeSpec, Running};
use half_bits::halves;
use layout_core::{Event, Nodes, World};
use station_core::{StationFault, Step};
use std::process::Abort;
use std::test::Fail;

/// A packet, and the bits of the nodes that miss it.
type Turn = (&'static [u8], u64);

const IDLE: &[u8] = &[0xFF, 0x00, 0xFF];

/// Step 63 of 128, forwards, for address 3.
const DRIVEN_BYTES: &[u8] = &[0x03, 0x3F, 0xC0, 0xFC];

const DRIVEN: Motion = Motion::Step {
    of: Steps::S128,
    n: 63,
};

/// A decoder: that of short address 3 with this CV29, of module 1, or in its default state.
#[derive(Clone, Copy)]
enum Made {
    At3(u8),
    Yard,
    Default,
}

fn spec_of(made: Made) -> Result<NodeSpec, Fail> {
    match made {
        Made::At3(cv29) => Ok(NodeSpec::Loco(CvSet::new(3, 0, 0, cv29)?)),
        Made::Yard => Ok(NodeSpec::Accessory(Module::new(1).ok_or("module")?)),
        Made::Default => Ok(NodeSpec::default()),
    }
}

fn list_of(made: &[Made]) -> Result<NodeList, Fail> {
    let mut list = NodeList::new();
    for one in made {
        let spec = spec_of(*one)?;
        if !list.is_full() {
            list.push(spec);
        }
    }
    Ok(list)
}

fn hear_turns(nodes: &mut Nodes, turns: &[Turn]) -> bool {
    let mut heard = true;
    for (bytes, missed) in turns {
        match Packet::of(bytes) {
            Some(packet) => nodes.hear(&packet, *missed),
            None => heard = false,
        }
    }
    heard
}

/// How a decoder stands: how it runs, or its outputs.
#[derive(Clone, Copy)]
enum Stands {
    Runs(Motion, bool, u16),
    Drives(u8),
}

/// Whether a decoder that runs so, and has these outputs, stands so.
fn is_so(running: Option<Running>, outputs: Option<u8>, stands: Stands) -> bool {
    match stands {
        Stands::Runs(motion, forward, functions) => {
            let wanted = Running {
                motion,
                forward,
                functions,
            };
            running == Some(wanted) && outputs.is_none()
        }
        Stands::Drives(wanted) => running.is_none() && outputs == Some(wanted),
    }
}

/// Whether decoder `i` stands so.
fn is_at(nodes: &Nodes, i: usize, stands: Stands) -> bool {
    i < nodes.len() && is_so(nodes.running(i), nodes.outputs(i), stands)
}

/// Whether the decoders, from the first on, stand so.
fn all_stand(nodes: &Nodes, stands: &[Stands]) -> bool {
    let mut same = nodes.len() >= stands.len();
    for (i, stand) in stands.iter().enumerate() {
        same = same && is_at(nodes, i, *stand);
    }
    same
}

const STOPS: Stands = Stands::Runs(Motion::Stop, true, 0);

const RUNS: Stands = Stands::Runs(DRIVEN, true, 0);

const IN_14: Stands = Stands::Runs(
    Motion::Step {
        of: Steps::S14,
        n: 7,
    },
    true,
    1,
);

const FORWARD: &[Turn] = &[
    (DRIVEN_BYTES, 0b100),
    (&[0x03, 0x80, 0x83], 0),
    (&[0x03, 0xB0, 0xB3], 0),
    // The bytes of step 14 of 28 are step 7 of 14 with F0.
    (&[0x03, 0x78, 0x7B], 0b011),
];

/// The other direction on the track.
const THE_OTHER_WAY: &[Turn] = &[
    (&[0x03, 0x3F, 0x40, 0x7C], 0b100),
    (&[0x03, 0x78, 0x7B], 0b110),
];

/// A speed packet is sent twice, and then the packets of the functions, each twice.
const CYCLE: &[Turn] = &[
    (DRIVEN_BYTES, 0b10),
    (IDLE, 0),
    (DRIVEN_BYTES, 0b10),
    (IDLE, 0),
    (&[0x03, 0x80, 0x83], 0),
    (IDLE, 0),
    (&[0x03, 0xB0, 0xB3], 0),
    (IDLE, 0),
    (&[0x03, 0xA0, 0xA3], 0),
    (IDLE, 0),
];

/// Decoders, and what they hear step by step, with how they stand after each.
type Story = (
    &'static [Made],
    &'static [(&'static [Turn], &'static [Stands])],
);

const STORIES: &[Story] = &[
    // Of one address: 28 or 128 steps; the same reversed; 14 steps.
    (
        &[Made::At3(2), Made::At3(3), Made::At3(0)],
        &[
            (&[], &[STOPS, STOPS, STOPS]),
            (FORWARD, &[RUNS, Stands::Runs(DRIVEN, false, 0), IN_14]),
            (
                THE_OTHER_WAY,
                &[
                    Stands::Runs(
                        Motion::Step {
                            of: Steps::S28,
                            n: 14,
                        },
                        true,
                        0,
                    ),
                    RUNS,
                    IN_14,
                ],
            ),
        ],
    ),
    (&[Made::At3(2), Made::At3(2)], &[(CYCLE, &[RUNS, STOPS])]),
    // Bits past the last decoder mean nothing.
    (
        &[Made::At3(2), Made::At3(2)],
        &[
            (&[(DRIVEN_BYTES, u64::MAX)], &[STOPS, STOPS]),
            (&[(DRIVEN_BYTES, u64::MAX - 3)], &[RUNS, RUNS]),
        ],
    ),
    (
        &[Made::Yard, Made::At3(2)],
        &[
            (&[], &[Stands::Drives(0)]),
            (
                &[(&[0x81, 0xF9, 0x78], 0), (&[0x03, 0x90, 0x93], 0)],
                &[Stands::Drives(0x02), Stands::Runs(Motion::Stop, true, 1)],
            ),
        ],
    ),
    (&[Made::Default], &[(&[(&[0x03, 0x78, 0x7B], 0)], &[IN_14])]),
    (&[], &[(&[(DRIVEN_BYTES, 1)], &[])]),
];

fn check_stories(rt: &impl Abort, stories: &[Story]) -> Result<(), Fail> {
    for (made, steps) in stories {
        let mut nodes = Nodes::new(&list_of(made)?);
        assert!(rt; nodes.len() == made.len() && nodes.is_empty() == made.is_empty());
        for (turns, stands) in *steps {
            assert!(rt; hear_turns(&mut nodes, turns));
            assert!(rt; all_stand(&nodes, stands), "{turns:?}");
        }
    }
    Ok(())
}

#[test]
fn decoders_hear_packets(rt: HostRuntime) -> Result<(), Fail> {
    check_stories(&rt, STORIES)
}

/// As many of this decoder as a layout has.
fn full_list(spec: &NodeSpec) -> NodeList {
    let mut list = NodeList::new();
    for _ in 0..64 {
        if !list.is_full() {
            list.push(*spec);
        }
    }
    list
}

#[test]
fn the_last_of_all_decoders_has_the_highest_bit(rt: HostRuntime) -> Result<(), Fail> {
    let mut all = Nodes::new(&full_list(&spec_of(Made::At3(2))?));
    assert!(rt; all.len() == 64);
    assert!(rt; hear_turns(&mut all, &[(DRIVEN_BYTES, 1 << 63)]));
    assert!(rt; is_at(&all, 62, RUNS) && is_at(&all, 63, STOPS));
    Ok(())
}

#[test]
fn each_number_of_lines_makes_a_layout(rt: HostRuntime) -> Result<(), Fail> {
    for lines in 1..=8u8 {
        let world = World::new(rt.alloc(), lines, NodeList::new())?;
        assert!(rt; world.station().lines() == lines);
    }
    Ok(())
}

/// Power on, and slot 1 in use for address 3.
const IN_USE: &[u8] = &[0xBF, 0x00, 0x03, 0x43, 0x83, 0x7C, 0xBA, 0x01, 0x01, 0x45];

/// SPD 40 in slot 1.
const DRIVE: &[u8] = &[0xA0, 0x01, 0x40, 0x1E];

fn hear_bytes(world: &mut World, bytes: &[u8]) {
    for byte in bytes {
        if 0 < world.station().lines() {
            world.step(Event::Byte {
                line: 0,
                byte: *byte,
            });
        }
    }
}

/// Whether the decoders of the layout, from the first on, stand so.
fn all_stand_in(world: &World, stands: &[Stands]) -> bool {
    let mut same = world.nodes() >= stands.len();
    for (i, stand) in stands.iter().enumerate() {
        same = same && i < world.nodes() && is_so(world.running(i), world.outputs(i), *stand);
    }
    same
}

fn take_turns(world: &mut World, turns: u8) {
    for _ in 0..turns {
        world.step(Event::Turn { missed: 0 });
    }
}

/// A layout with one line and these decoders, after these messages.
fn world_of(rt: &impl AllocGlobal, made: &[Made], messages: &[&[u8]]) -> Result<World, Fail> {
    let mut world = World::new(rt.alloc(), 1, list_of(made)?)?;
    for message in messages {
        hear_bytes(&mut world, message);
    }
    Ok(world)
}

/// Passes noise of these half-bits to node `i`, and returns whether no half was answered.
fn is_quiet(world: &mut World, node: u8, noise: &[u16]) -> bool {
    let mut quiet = true;
    for half in noise {
        if usize::from(node) < world.nodes() {
            let step = world.step(Event::Noise { node, half: *half });
            quiet = quiet && matches!(step, Step::Quiet);
        } else {
            quiet = false;
        }
    }
    quiet
}

/// Passes noise that spells this packet to node `i`, and returns whether no half was answered.
fn is_spelt_quietly(world: &mut World, node: u8, bytes: &[u8]) -> bool {
    let Some(packet) = Packet::of(bytes) else {
        return false;
    };
    let mut quiet = true;
    for half in halves(&packet) {
        quiet = quiet && is_quiet(world, node, &[half]);
    }
    quiet
}

/// Messages, noise to a decoder of address 3 and then the halves of a packet as noise, and how it
/// runs after a number of turns.
#[derive(Clone, Copy)]
struct Dirt {
    name: &'static str,
    messages: &'static [&'static [u8]],
    noise: &'static [u16],
    spelt: &'static [&'static [u8]],
    after: &'static [(u8, Motion)],
}

/// Ten ones and a zero: a preamble, and the start of a byte.
const PREAMBLE: &[u16] = &[
    58, 58, 58, 58, 58, 58, 58, 58, 58, 58, 58, 58, 58, 58, 58, 58, 58, 58, 58, 58, 100, 100,
];

const DIRT: &[Dirt] = &[
    Dirt {
        name: "a start of a packet loses the first packet",
        messages: &[IN_USE, DRIVE],
        noise: PREAMBLE,
        spelt: &[],
        after: &[
            (0, Motion::Stop),
            (1, Motion::Stop),
            (3, DRIVEN),
            (17, DRIVEN),
        ],
    },
    Dirt {
        name: "noise that spells a packet is obeyed until the cycle ends",
        messages: &[IN_USE],
        noise: &[],
        spelt: &[&[0x03, 0x3F, 0xC0, 0xFC]],
        after: &[(0, DRIVEN), (17, Motion::Stop)],
    },
    Dirt {
        name: "a packet behind a start of one is lost, and the next one is heard",
        messages: &[IN_USE],
        noise: PREAMBLE,
        spelt: &[&[0x03, 0x78, 0x7B], &[0x03, 0x3F, 0xC0, 0xFC]],
        after: &[(0, DRIVEN), (17, Motion::Stop)],
    },
];

/// Whether the noise of this dirt is not answered.
fn is_heard_quietly(world: &mut World, dirt: &Dirt) -> bool {
    let mut quiet = is_quiet(world, 0, dirt.noise);
    for bytes in dirt.spelt {
        quiet = is_spelt_quietly(world, 0, bytes) && quiet;
    }
    quiet
}

fn check_dirt(rt: &(impl AllocGlobal + Abort), rows: &[Dirt]) -> Result<(), Fail> {
    for dirt in rows {
        for (turns, motion) in dirt.after {
            let mut world = world_of(rt, &[Made::At3(2)], dirt.messages)?;
            assert!(rt; is_heard_quietly(&mut world, dirt), "{}", dirt.name);
            take_turns(&mut world, *turns);
            let stands = [Stands::Runs(*motion, true, 0)];
            assert!(rt;
                all_stand_in(&world, &stands),
                "{}: {turns} turns",
                dirt.name
            );
        }
    }
    Ok(())
}

#[test]
fn a_cycle_ends_what_noise_began(rt: HostRuntime) -> Result<(), Fail> {
    check_dirt(&rt, DIRT)
}

/// The node that hears a packet as noise, the one that hears an invalid half in its middle, and how
/// the two locomotives stand then.
const HITS: &[(u8, u8, &[Stands])] = &[
    (0, 1, &[RUNS, STOPS]),
    (1, 0, &[STOPS, RUNS]),
    (0, 0, &[STOPS, STOPS]),
    (1, 1, &[STOPS, STOPS]),
];

/// Whether a packet is heard as noise, and another node hit in its middle, without an answer.
fn is_hit_quietly(world: &mut World, hears: u8, is_hit: u8) -> bool {
    let Some(drive) = Packet::of(DRIVEN_BYTES) else {
        return false;
    };
    let mut quiet = true;
    for (at, half) in halves(&drive).enumerate() {
        quiet = is_quiet(world, hears, &[half]) && quiet;
        if at == 60 {
            quiet = is_quiet(world, is_hit, &[65535]) && quiet;
        }
    }
    quiet
}

fn check_hits(rt: &(impl AllocGlobal + Abort), hits: &[(u8, u8, &[Stands])]) -> Result<(), Fail> {
    for (hears, is_hit, stands) in hits {
        let mut world = world_of(rt, &[Made::At3(2), Made::At3(2)], &[])?;
        assert!(rt; is_hit_quietly(&mut world, *hears, *is_hit));
        assert!(rt; all_stand_in(&world, stands));
    }
    Ok(())
}

#[test]
fn noise_reaches_one_node_alone(rt: HostRuntime) -> Result<(), Fail> {
    check_hits(&rt, HITS)
}

#[test]
fn noise_that_spells_its_packet_sets_an_output(rt: HostRuntime) -> Result<(), Fail> {
    let mut world = world_of(&rt, &[Made::At3(2), Made::Yard], &[])?;
    assert!(rt; is_spelt_quietly(&mut world, 1, &[0x81, 0xF9, 0x78]));
    assert!(rt; all_stand_in(&world, &[STOPS, Stands::Drives(0x02)]));
    Ok(())
}

/// The events by which the two decoders run, with node 1 in the middle of a packet.
const NOISE_AND_A_TURN: &[Event] = &[
    Event::Noise {
        node: 0,
        half: 65535,
    },
    Event::Turn { missed: 0 },
    Event::Noise {
        node: 0,
        half: 65535,
    },
    Event::Noise {
        node: 0,
        half: 65535,
    },
];

/// Whether this is the answer to noise, or that of the turn.
fn is_answer(step: &Step, is_turn: bool) -> bool {
    match step {
        Step::Packet(packet) => is_turn && packet.bytes() == DRIVEN_BYTES,
        step => !is_turn && matches!(step, Step::Quiet),
    }
}

#[test]
fn a_run_answers_noise_with_nothing(rt: HostRuntime) -> Result<(), Fail> {
    let both = [Made::At3(2), Made::At3(2)];
    let mut world = world_of(&rt, &both, &[IN_USE, DRIVE])?;
    assert!(rt; is_quiet(&mut world, 1, PREAMBLE));
    let mut steps = [Step::Off, Step::Off, Step::Off, Step::Off];
    assert!(rt; 1 < world.nodes());
    world.run(NOISE_AND_A_TURN, &mut steps);
    for (at, step) in steps.iter().enumerate() {
        assert!(rt; is_answer(step, at == 1));
    }
    // Node 1 lost the packet that was sent.
    assert!(rt; all_stand_in(&world, &[RUNS, STOPS]));
    Ok(())
}
