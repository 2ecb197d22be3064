//! The exports, called as C calls them. Bytes are worked out by hand from the two standards.

use crate::{
    Answer, Decoder, EventFields, Layout, Message, Motion, Train, station_byte, station_check,
    station_elapse, station_free, station_new, station_outputs, station_plan, station_read,
    station_run, station_running, station_sensor, station_train_of, station_turn,
};
use std::alloc::Global;
use std::mem::size_of;
use std::test::Fail;
use test_support::take_all_but;

const QUIET: Answer = Answer {
    kind: 0,
    size: 0,
    bytes: [0; 14],
};

const OFF: Answer = Answer { kind: 3, ..QUIET };

/// A packet of `size` bytes, followed by zeros.
fn packet(size: u8, bytes: [u8; 14]) -> Answer {
    Answer {
        kind: 2,
        size,
        bytes,
    }
}

/// The idle packet, before any slot is in use.
fn idle() -> Answer {
    packet(3, [0xFF, 0x00, 0xFF, 0, 0, 0, 0, 0, 0, 0, 0, 0, 0, 0])
}

/// Speed step 63 of 126, forward, for short address 3.
fn drive() -> Answer {
    packet(4, [0x03, 0x3F, 0xC0, 0xFC, 0, 0, 0, 0, 0, 0, 0, 0, 0, 0])
}

/// The reply to OPC_LOCO_ADR for address 3: slot 1, idle, with no earlier requests.
const LOADED: Answer = Answer {
    kind: 1,
    size: 14,
    bytes: [
        0xE7, 0x0E, 0x01, 0x23, 0x03, 0x00, 0x00, 0x06, 0x00, 0x00, 0x00, 0x00, 0x00, 0x31,
    ],
};

/// Address 0 is not a locomotive's: OPC_LONG_ACK of BF with 0.
const REFUSED: Answer = Answer {
    kind: 1,
    size: 4,
    bytes: [0xB4, 0x3F, 0x00, 0x74, 0, 0, 0, 0, 0, 0, 0, 0, 0, 0],
};

const SHUNTER: Decoder = Decoder {
    module: 0,
    accessory: false,
    cv1: 3,
    cv17: 192,
    cv18: 0,
    cv29: 2,
};

const YARD: Decoder = Decoder {
    module: 1,
    accessory: true,
    cv1: 0,
    cv17: 0,
    cv18: 0,
    cv29: 0,
};

const STANDING: Motion = Motion {
    functions: 0,
    kind: 0,
    step: 0,
    steps: 0,
    forward: true,
};

/// Loads slot 1, turns the power on, takes the slot into use and requests speed 64.
const DRIVING: [u8; 14] = [
    0xBF, 0x00, 0x03, 0x43, 0x83, 0x7C, 0xBA, 0x01, 0x01, 0x45, 0xA0, 0x01, 0x40, 0x1E,
];

/// A layout of one line with a locomotive decoder and an accessory decoder.
fn made(alloc: Global) -> Result<Layout, Fail> {
    let mut layout = Layout::none(alloc);
    match station_new(alloc, &mut layout, 1, &[SHUNTER, YARD]) {
        0 => Ok(layout),
        _ => Err("not made".into()),
    }
}

fn byte_of(byte: u8) -> EventFields {
    EventFields {
        missed: 0,
        half: 0,
        kind: 0,
        line: 0,
        byte,
        node: 0,
    }
}

fn turn_missed_by(missed: u64) -> EventFields {
    EventFields {
        missed,
        half: 0,
        kind: 1,
        line: 0,
        byte: 0,
        node: 0,
    }
}

fn is_turn(alloc: Global, layout: &mut Layout, missed: u64, wanted: &Answer) -> bool {
    let mut answer = LOADED;
    station_turn(alloc, layout, missed, &mut answer) && answer == *wanted
}

/// Whether a change is sent as soon as possible: in this turn or the next.
fn is_driven(alloc: Global, layout: &mut Layout, missed: u64) -> bool {
    let mut answer = LOADED;
    station_turn(alloc, layout, missed, &mut answer)
        && (answer == drive() || is_turn(alloc, layout, missed, &drive()))
}

fn is_running(alloc: Global, layout: &mut Layout, wanted: &Motion) -> bool {
    let mut motion = Motion {
        functions: 1,
        ..STANDING
    };
    station_running(alloc, layout, 0, &mut motion) && motion == *wanted
}

/// Whether byte i of [`DRIVING`] has the expected answer.
fn is_heard(alloc: Global, layout: &mut Layout, i: usize, byte: u8) -> bool {
    let mut answer = OFF;
    let heard = station_byte(alloc, layout, 0, byte, &mut answer);
    let right = match i {
        3 => answer == LOADED,
        9 => true,
        _ => answer == QUIET,
    };
    heard && right && (i != 5 || is_turn(alloc, layout, 0, &idle()))
}

#[test]
fn plays_a_layout(rt: HostRuntime) -> Result<(), Fail> {
    let alloc = rt.alloc();
    let mut layout = made(alloc)?;
    assert!(rt; is_turn(alloc, &mut layout, 0, &OFF));
    for (i, byte) in DRIVING.iter().enumerate() {
        assert!(rt; is_heard(alloc, &mut layout, i, *byte), "byte {i}");
    }
    // The change is sent as soon as possible, and once again.
    for missed in [1, 0] {
        assert!(rt; is_running(alloc, &mut layout, &STANDING));
        assert!(rt; is_driven(alloc, &mut layout, missed));
    }
    let running = Motion {
        functions: 0,
        kind: 2,
        step: 63,
        steps: 126,
        forward: true,
    };
    assert!(rt; is_running(alloc, &mut layout, &running));
    station_free(alloc, &mut layout);
    assert!(rt; !layout.made);
    Ok(())
}

/// Whether the events of [`DRIVING`], and turns after them, have the expected answers.
fn is_list_of_driving(alloc: Global, layout: &mut Layout) -> bool {
    let mut events = [turn_missed_by(0); 30];
    for (event, byte) in events.iter_mut().zip(DRIVING.iter()) {
        *event = byte_of(*byte);
    }
    let mut answers = [LOADED; 30];
    station_run(alloc, layout, &events, &mut answers)
        && answers[2] == QUIET
        && answers[3] == LOADED
        && answers.contains(&drive())
        && !answers.contains(&OFF)
}

/// Whether address 0 is refused; then noise is heard, by each decoder.
fn is_list_of_noise(alloc: Global, layout: &mut Layout) -> bool {
    let noise = EventFields {
        half: 58,
        kind: 2,
        ..byte_of(0)
    };
    let events = [
        byte_of(0xBF),
        byte_of(0),
        byte_of(0),
        byte_of(0x40),
        noise,
        EventFields { node: 1, ..noise },
    ];
    let mut answers = [LOADED; 6];
    station_run(alloc, layout, &events, &mut answers)
        && answers[3] == REFUSED
        && answers[4] == QUIET
        && answers[5] == QUIET
}

#[test]
fn runs_a_list(rt: HostRuntime) -> Result<(), Fail> {
    let alloc = rt.alloc();
    let mut layout = made(alloc)?;
    assert!(rt; is_list_of_driving(alloc, &mut layout));
    let mut motion = STANDING;
    assert!(rt; station_running(alloc, &mut layout, 0, &mut motion));
    assert!(rt; motion.kind == 2 && motion.step == 63 && motion.steps == 126);
    assert!(rt; is_list_of_noise(alloc, &mut layout));
    assert!(rt; station_run(alloc, &mut layout, &[], &mut []));
    station_free(alloc, &mut layout);
    Ok(())
}

fn has_no_line(alloc: Global, layout: &mut Layout, line: u8) -> bool {
    let mut answer = LOADED;
    !station_byte(alloc, layout, line, 0x83, &mut answer) && answer == LOADED
}

fn has_no_turn(alloc: Global, layout: &mut Layout) -> bool {
    let mut answer = LOADED;
    !station_turn(alloc, layout, 0, &mut answer) && answer == LOADED
}

fn has_no_motion(alloc: Global, layout: &mut Layout, i: usize) -> bool {
    let mut motion = Motion {
        functions: 1,
        ..STANDING
    };
    !station_running(alloc, layout, i, &mut motion) && motion.functions == 1
}

fn has_no_outputs(alloc: Global, layout: &mut Layout, i: usize) -> bool {
    let mut outputs = 9;
    !station_outputs(alloc, layout, i, &mut outputs) && outputs == 9
}

#[test]
fn says_no_where_there_is_none(rt: HostRuntime) -> Result<(), Fail> {
    let alloc = rt.alloc();
    let mut layout = Layout::none(alloc);
    for _ in 0..2u8 {
        assert!(rt; has_no_line(alloc, &mut layout, 0));
        assert!(rt; has_no_turn(alloc, &mut layout));
        assert!(rt; !station_run(alloc, &mut layout, &[], &mut []));
        assert!(rt; has_no_motion(alloc, &mut layout, 0));
        assert!(rt; has_no_outputs(alloc, &mut layout, 0));
        // A layout that was ended is no layout, and may be ended again.
        station_free(alloc, &mut layout);
        layout = made(alloc)?;
        station_free(alloc, &mut layout);
    }
    Ok(())
}

fn is_made(
    alloc: Global,
    layout: &mut Layout,
    lines: u8,
    decoders: &[Decoder],
    status: u8,
) -> bool {
    station_new(alloc, layout, lines, decoders) == status
        && layout.made == (status == 0 || status == 4)
}

fn is_read(alloc: Global, layout: &mut Layout, lines: u8, text: &[u8], status: u8, at: u8) -> bool {
    let mut node = 7;
    station_read(alloc, layout, lines, text, &mut node) == status && node == at
}

/// Rosters, each with its status, the number of its fault and the decoder at fault.
const CHECKED: [(&[u8], u8, u8, u8); 5] = [
    (ROSTER, 0, 7, 7),
    (b"version = ", 2, 1, 0),
    (b"version = 2\n", 2, 7, 0),
    (
        b"version = 2\n[[node]]\nname = \"yard\"\nkind = \"accessory\"\nmodule = 511\n",
        2,
        6,
        1,
    ),
    (
        b"version = 2\n[[node]]\nname = \"a\"\nkind = \"loco\"\ncvs = [[1, 3], [1, 3]]\n",
        2,
        9,
        1,
    ),
];

#[test]
fn tells_the_fault_of_a_roster(rt: HostRuntime) {
    for (text, status, wanted, at) in CHECKED {
        let (mut number, mut node) = (7, 7);
        assert_eq!(rt;
            station_check(rt.alloc(), text, &mut number, &mut node),
            status
        );
        assert_eq!(rt; (number, node), (wanted, at));
    }
}

#[test]
fn makes_none_of_what_is_wrong(rt: HostRuntime) {
    let alloc = rt.alloc();
    let no_loco = Decoder { cv1: 0, ..SHUNTER };
    let no_module = Decoder {
        module: 511,
        ..YARD
    };
    let rows: [(u8, &[Decoder], u8); 7] = [
        (0, &[SHUNTER], 1),
        (9, &[], 1),
        (9, &[no_loco], 2),
        (1, &[SHUNTER, no_module], 2),
        (1, &[SHUNTER; 65], 2),
        (8, &[YARD; 64], 0),
        (0, &[no_loco], 4),
    ];
    let mut layout = Layout::none(alloc);
    for (lines, decoders, status) in rows {
        assert!(rt;
            is_made(alloc, &mut layout, lines, decoders, status),
            "{status}"
        );
    }
    assert!(rt; is_read(alloc, &mut layout, 1, ROSTER, 4, 7));
    station_free(alloc, &mut layout);
}

#[test]
fn reads_none_of_what_is_wrong(rt: HostRuntime) {
    let alloc = rt.alloc();
    let mut layout = Layout::none(alloc);
    assert!(rt; is_read(alloc, &mut layout, 1, b"version = 3", 2, 0));
    assert!(rt; is_read(alloc, &mut layout, 1, FAULTY, 2, 2));
    assert!(rt; is_read(alloc, &mut layout, 9, ROSTER, 1, 7));
    assert!(rt; is_read(alloc, &mut layout, 2, ROSTER, 0, 7));
    let mut outputs = 9;
    assert!(rt; station_outputs(alloc, &mut layout, 1, &mut outputs));
    assert!(rt; outputs == 0);
    station_free(alloc, &mut layout);
}

const ROSTER: &[u8] =
    b"version = 2\n\n[[node]]\nname = \"a\"\nkind = \"loco\"\ncvs = [[1, 3], [29, 2]]\n\n[[node]]\nname = \"b\"\nkind = \"accessory\"\nmodule = 1\n";

const FAULTY: &[u8] =
    b"version = 2\n\n[[node]]\nname = \"a\"\nkind = \"loco\"\ncvs = [[1, 3], [29, 2]]\n\n[[node]]\nname = \"b\"\nkind = \"accessory\"\nmodule = 0\n";

/// A block of a metre with sensor 7, and a train of 100 mm at its end A.
const PLAN: &[u8] =
    b"version = 1\n[[block]]\nname = \"main\"\nlength = 1000\nsensor = 7\n[[train]]\ndecoder = \"a\"\nblock = \"main\"\nfront = 100\nfacing = \"b\"\nlength = 100\nspeed = 100\n";

const NO_TRAIN: Train = Train {
    front: 9,
    speed: 9,
    derailed_at: 9,
    block: 9,
    rear_block: 9,
    faces_b: false,
};

const AT_END_A: Train = Train {
    front: 100,
    speed: 0,
    derailed_at: 0,
    block: 0,
    rear_block: 0,
    faces_b: true,
};

fn has_no_train(alloc: Global, layout: &mut Layout, i: usize) -> bool {
    let mut train = NO_TRAIN;
    !station_train_of(alloc, layout, i, &mut train) && train == NO_TRAIN
}

fn has_no_sensor(alloc: Global, layout: &mut Layout, sensor: u16) -> bool {
    let mut occupied = false;
    !station_sensor(alloc, layout, sensor, &mut occupied) && !occupied
}

#[test]
fn has_the_trains_of_a_plan(rt: HostRuntime) {
    let alloc = rt.alloc();
    let mut layout = Layout::none(alloc);
    assert!(rt; station_plan(alloc, &mut layout, 1, b"version = 3", PLAN) == 2);
    assert!(rt; station_plan(alloc, &mut layout, 1, ROSTER, b"version = 2") == 5);
    assert!(rt; station_plan(alloc, &mut layout, 9, ROSTER, PLAN) == 1);
    assert!(rt; !station_elapse(alloc, &mut layout, 1));
    assert!(rt; has_no_train(alloc, &mut layout, 0) && has_no_sensor(alloc, &mut layout, 7));
    assert!(rt; station_plan(alloc, &mut layout, 1, ROSTER, PLAN) == 0);
    assert!(rt; station_plan(alloc, &mut layout, 1, ROSTER, PLAN) == 4);
    let (mut train, mut occupied) = (NO_TRAIN, false);
    assert!(rt; station_elapse(alloc, &mut layout, 1_000_000));
    assert!(rt; station_train_of(alloc, &mut layout, 0, &mut train) && train == AT_END_A);
    assert!(rt; station_sensor(alloc, &mut layout, 7, &mut occupied) && occupied);
    assert!(rt; has_no_train(alloc, &mut layout, 1) && has_no_sensor(alloc, &mut layout, 1));
    station_free(alloc, &mut layout);
}

#[test]
fn has_no_trains_without_a_plan(rt: HostRuntime) -> Result<(), Fail> {
    let alloc = rt.alloc();
    let mut layout = made(alloc)?;
    assert!(rt; !station_elapse(alloc, &mut layout, 1));
    assert!(rt; has_no_train(alloc, &mut layout, 0) && has_no_sensor(alloc, &mut layout, 7));
    station_free(alloc, &mut layout);
    Ok(())
}

fn is_refused(alloc: Global, layout: &mut Layout, events: &[EventFields; 3]) -> bool {
    let mut answers = [LOADED; 3];
    !station_run(alloc, layout, events, &mut answers)
        && answers[0] == LOADED
        && answers[1] == LOADED
}

#[test]
fn does_nothing_of_what_is_wrong(rt: HostRuntime) -> Result<(), Fail> {
    let alloc = rt.alloc();
    let mut layout = made(alloc)?;
    // There is line 0 alone, decoder 0 is a locomotive, and decoder 1 an accessory decoder.
    assert!(rt; has_no_line(alloc, &mut layout, 1));
    for i in [1, 2, usize::MAX] {
        assert!(rt; has_no_motion(alloc, &mut layout, i));
    }
    for i in [0, 2, usize::MAX] {
        assert!(rt; has_no_outputs(alloc, &mut layout, i));
    }
    station_free(alloc, &mut layout);
    Ok(())
}

#[test]
fn runs_no_list_with_a_wrong_event(rt: HostRuntime) -> Result<(), Fail> {
    let alloc = rt.alloc();
    let mut layout = made(alloc)?;
    let on = byte_of(0x83);
    let mut one = [LOADED];
    assert!(rt; !station_run(alloc, &mut layout, &[on, byte_of(0x7C)], &mut one));
    assert!(rt; one[0] == LOADED);
    let no_line = EventFields { line: 1, ..on };
    let no_kind = EventFields { kind: 3, ..on };
    let no_node = EventFields {
        kind: 2,
        node: 2,
        ..on
    };
    for wrong in [no_line, no_kind, no_node] {
        assert!(rt; is_refused(alloc, &mut layout, &[on, byte_of(0x7C), wrong]));
    }
    // None of these bytes was received: the power is off.
    assert!(rt; is_turn(alloc, &mut layout, 0, &OFF));
    station_free(alloc, &mut layout);
    Ok(())
}

/// The sizes that `bindings/station.h` gives these structs.
#[test]
fn structs_are_as_large_as_in_c(rt: HostRuntime) {
    assert!(rt; size_of::<Layout>() == 16);
    assert!(rt; size_of::<Decoder>() == 8);
    assert!(rt; size_of::<EventFields>() == 16);
    assert!(rt; size_of::<Answer>() == 16);
    assert!(rt; size_of::<Motion>() == 6);
    assert!(rt; size_of::<Train>() == 16);
    assert!(rt; size_of::<Message>() == 15);
}

/// The statuses of making a layout and of reading one with this much memory left, if each is
/// correct.
fn made_with(alloc: Global, layout: &mut Layout, room: usize) -> Option<(u8, u8)> {
    let mut node = 7;
    let taken = take_all_but(alloc, room).ok()?;
    let made = station_new(alloc, layout, 1, &[SHUNTER, YARD]);
    let none = layout.made != (made == 0);
    station_free(alloc, layout);
    let read = station_read(alloc, layout, 1, ROSTER, &mut node);
    let none = none || layout.made != (read == 0);
    station_free(alloc, layout);
    drop(taken);
    if none || node != 7 {
        return None;
    }
    Some((made, read))
}

#[test]
fn says_that_there_is_no_memory(rt: HostRuntime) -> Result<(), Fail> {
    let alloc = rt.alloc();
    let mut layout = Layout::none(alloc);
    let mut refused = 0u32;
    for count in 0..400usize {
        let (made, read) = made_with(alloc, &mut layout, count.saturating_mul(512)).ok_or(
            "what is right",
        )?;
        if made == 0 && read == 0 {
            assert!(rt; refused > 1);
            return Ok(());
        }
        assert!(rt; (made == 0 || made == 3) && (read == 0 || read == 3));
        refused = refused.saturating_add(1);
    }
    Err("it is never made".into())
}

/// How many of a thousand layouts were made, each ended before the next, with this much memory
/// left.
fn made_in_turn(alloc: Global, layout: &mut Layout, room: usize) -> Result<u32, Fail> {
    let taken = take_all_but(alloc, room)?;
    let mut made = 0u32;
    for _ in 0..1000u32 {
        if station_new(alloc, layout, 1, &[SHUNTER, YARD]) == 0 {
            made = made.saturating_add(1);
        }
        station_free(alloc, layout);
    }
    drop(taken);
    Ok(made)
}

/// A layout takes some ten thousand bytes, so that few fit into this memory together, and a
/// thousand only in turn.
#[test]
fn what_is_ended_leaves_its_memory(rt: HostRuntime) -> Result<(), Fail> {
    let alloc = rt.alloc();
    let mut layout = Layout::none(alloc);
    assert!(rt; made_in_turn(alloc, &mut layout, 65_536)? == 1000);
    Ok(())
}
