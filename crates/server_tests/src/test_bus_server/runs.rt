//! Runs. Each expected value is worked out from `docs`: lines and indexes from `CLIENTS.md`, limits from `DECISIONS.md`, and the
//! 5,796 microseconds of an idle packet from `DCC.md`.

use super::kept::{Entry, Seen};
use super::memory::Input::{Closes, Connects, Nothing, Sends};
use super::memory::{Input, Place};
use super::script_run::{
    FOREVER, Run, Setup, accepted, closed, disconnects_by_overflow, longest_times, messages,
    messages_before_overflow, overflows, repeated, run_server, skips, text_to, turns,
};
use bus_server::Stop;

const VERSION: &[u8] = b"VERSION lbserver station\r\n";

/// How a run ended: enough clients have disconnected, or a device has failed.
#[derive(Clone, Copy, PartialEq, Eq)]
enum Ended {
    Enough,
    AtInput,
    AtClock,
    Otherwise,
}

fn ended_of(run: &Run) -> Ended {
    match &run.ended {
        Ok(()) => Ended::Enough,
        Err(Stop::Transport(_)) => Ended::AtInput,
        Err(Stop::Clock(_)) => Ended::AtClock,
        Err(_) => Ended::Otherwise,
    }
}

/// A run, and what its logs hold.
#[derive(Clone, Copy)]
struct Case {
    name: &'static str,
    setup: Setup<'static>,
    ended: Ended,
    /// What each client received after the version, from client 0 on.
    received: &'static [&'static [u8]],
    /// The longest time of each wait, or `FOREVER`.
    longest: Option<&'static [u32]>,
    /// The index of each pending client, or `None` where it was refused.
    accepted: Option<&'static [Option<u8>]>,
    /// The times that were skipped, and whether the first of them comes before all else.
    skipped: &'static [u64],
    skips_first: bool,
    /// How many turns began, and how many messages client 0 sent.
    turns: u64,
    messages: u64,
}

/// No input, and no reading of the clock.
const BARE: Setup<'static> = Setup {
    script: &[Nothing; 4],
    readings: &[],
    blocked: None,
    turns: None,
    most: 2,
};

/// A run without input.
const QUIET: Case = Case {
    name: "",
    setup: BARE,
    ended: Ended::AtInput,
    received: &[],
    longest: None,
    accepted: None,
    skipped: &[],
    skips_first: false,
    turns: 0,
    messages: 0,
};

/// Two clients connect, the first requests something, and nothing follows.
const ASKED: Setup<'static> = Setup {
    script: &[Nothing; 4],
    readings: &[0; 4],
    blocked: None,
    turns: None,
    most: 2,
};

const POWER_ON: &[u8] = b"RECEIVE 83 7C\r\nSENT OK\r\n";

const HEARD: &[u8] = b"RECEIVE 83 7C\r\n";

const CASES: &[Case] = &[
    // Two clients connect, the first turns the power on, byte by byte, time elapses, and both close. A second is due in every other
    // round, and runs in two, 100 pieces in the first. 8 seconds are 1,380 idle turns of 5,796 microseconds, and 1,520 beyond. In
    // the last round the rest of a turn runs, and 99 turns.
    Case {
        name: "two clients",
        setup: Setup {
            script: &[
                Connects,
                Connects,
                Sends(0, b"S"),
                Sends(0, b"E"),
                Sends(0, b"N"),
                Sends(0, b"D"),
                Sends(0, b" "),
                Sends(0, b"8"),
                Sends(0, b"3"),
                Sends(0, b" "),
                Sends(0, b"7"),
                Sends(0, b"C"),
                Sends(0, b"\n"),
                Nothing,
                Nothing,
                Closes(0),
                Closes(1),
            ],
            readings: &[1_002_000; 9],
            ..BARE
        },
        ended: Ended::Enough,
        received: &[POWER_ON, HEARD],
        skipped: &[2_000; 9],
        turns: 1_380 + 1 + 99,
        messages: 1,
        ..QUIET
    },
    // Ten seconds in one reading, the rest of a turn, exactly a second, and one microsecond more. A second is 172 idle turns and
    // 3,088 microseconds, so that 2,708 remain. The last second ends 380 into a turn. A second runs in two rounds, with no wait
    // between them.
    Case {
        name: "time jumps",
        setup: Setup {
            script: &[Nothing; 7],
            readings: &[10_000_000, 2_708, 1_000_000, 1_000_001],
            ..BARE
        },
        longest: Some(&[5_796, 0, 2_708, 5_796, 0, 2_708, 0, 5_416]),
        skipped: &[9_000_000, 1],
        skips_first: true,
        turns: 172 + 1 + 172 + 173,
        ..QUIET
    },
    Case {
        name: "the clock fails in the second round",
        setup: Setup {
            readings: &[0],
            ..BARE
        },
        ended: Ended::AtClock,
        longest: Some(&[5_796, 5_796]),
        ..QUIET
    },
    // There may be more input after a client was accepted or read, and none after it closed.
    Case {
        name: "waits for the turn",
        setup: Setup {
            script: &[
                Nothing,
                Connects,
                Sends(0, b"SEND 83 7C\n"),
                Nothing,
                Nothing,
                Closes(0),
            ],
            readings: &[3 * 5_796, 0, 0, 796, 5_000, 1],
            ..BARE
        },
        longest: Some(&[5_796, 5_796, 0, 0, 5_000, 5_796, 5_795]),
        turns: 4,
        messages: 1,
        ..QUIET
    },
    // Where one turn follows each message, the server waits without end, and the clock is not read.
    Case {
        name: "waits for messages",
        setup: Setup {
            script: &[Connects, Sends(0, b"SEND 83 7C\n"), Nothing, Closes(0)],
            turns: Some(1),
            ..BARE
        },
        longest: Some(&[FOREVER, 0, 0, FOREVER, FOREVER]),
        turns: 1,
        messages: 1,
        ..QUIET
    },
    // Turns, and how decoders stand, on request: the client that requests them is answered, and nobody else.
    Case {
        name: "turns",
        setup: Setup {
            script: &[Connects, Connects, Sends(0, b"TURNS 5\n"), Nothing],
            turns: Some(2),
            ..ASKED
        },
        received: &[b"TURNS OK\r\n", b""],
        turns: 5,
        ..QUIET
    },
    Case {
        name: "turns twice",
        setup: Setup {
            script: &[Connects, Connects, Sends(0, b"TURNS 1\nTURNS 9\n"), Nothing],
            turns: Some(0),
            ..ASKED
        },
        received: &[b"TURNS OK\r\nTURNS OK\r\n", b""],
        turns: 10,
        ..QUIET
    },
    Case {
        name: "turns before a message",
        setup: Setup {
            script: &[
                Connects,
                Connects,
                Sends(0, b"TURNS 3\nSEND 83 7C\n"),
                Nothing,
            ],
            turns: Some(2),
            ..ASKED
        },
        received: &[b"TURNS OK\r\nRECEIVE 83 7C\r\nSENT OK\r\n", HEARD],
        turns: 5,
        messages: 1,
        ..QUIET
    },
    Case {
        name: "no turns",
        setup: Setup {
            script: &[Connects, Connects, Sends(0, b"TURNS 0\n"), Nothing],
            turns: Some(2),
            ..ASKED
        },
        received: &[b"TURNS ERROR no number from 1 to 10000\r\n", b""],
        ..QUIET
    },
    Case {
        name: "turns in real time",
        setup: Setup {
            script: &[Connects, Connects, Sends(0, b"TURNS 5\n"), Nothing],
            ..ASKED
        },
        received: &[b"TURNS ERROR real time\r\n", b""],
        ..QUIET
    },
    Case {
        name: "no decoders",
        setup: Setup {
            script: &[Connects, Connects, Sends(0, b"NODES\n"), Nothing],
            ..ASKED
        },
        received: &[b"NODES OK\r\n", b""],
        ..QUIET
    },
    // The second request begins the answer anew.
    Case {
        name: "no decoders, twice",
        setup: Setup {
            script: &[Connects, Connects, Sends(0, b"NODES\nNODES\n"), Nothing],
            turns: Some(2),
            ..ASKED
        },
        received: &[b"NODES OK\r\n", b""],
        ..QUIET
    },
    // Nine clients connect, and a tenth after one of the eight has closed. There may be more to accept or refuse until a round
    // accepts and refuses none.
    Case {
        name: "a ninth client",
        setup: Setup {
            script: &[
                Connects,
                Connects,
                Connects,
                Connects,
                Connects,
                Connects,
                Connects,
                Connects,
                Connects,
                Closes(3),
                Connects,
            ],
            turns: Some(0),
            ..BARE
        },
        longest: Some(&[FOREVER, 0, 0, 0, 0, 0, 0, 0, 0, 0, FOREVER, 0]),
        accepted: Some(&[
            Some(0),
            Some(1),
            Some(2),
            Some(3),
            Some(4),
            Some(5),
            Some(6),
            Some(7),
            None,
            Some(3),
        ]),
        ..QUIET
    },
];

/// Asserts what a client received.
fn check_text<R: Place>(rt: &R, entries: &[Entry], client: u8, wanted: &[u8], name: &str) {
    let text = text_to(rt, entries, client);
    let same = text.len() == VERSION.len().saturating_add(wanted.len())
        && text.as_slice().starts_with(VERSION)
        && text.as_slice().ends_with(wanted);
    assert!(rt; same, "{name}: client {client} received {text:?}");
}

/// Asserts the log of the transport.
fn check_entries<R: Place>(rt: &R, entries: &[Entry], case: &Case) {
    let mut client = 0u8;
    for wanted in case.received {
        check_text(rt, entries, client, wanted, case.name);
        client = client.saturating_add(1);
    }
    if let Some(wanted) = case.longest {
        let found = longest_times(rt, entries);
        assert!(rt; found.as_slice() == wanted, "{}: {found:?}", case.name);
    }
    if let Some(wanted) = case.accepted {
        let found = accepted(rt, entries);
        assert!(rt; found.as_slice() == wanted, "{}: {found:?}", case.name);
    }
}

/// Asserts the log of the observer.
fn check_observed<R: Place>(rt: &R, observed: &[Seen], case: &Case) {
    assert!(rt; turns(observed) == case.turns, "{}", case.name);
    assert!(rt; messages(observed) == case.messages, "{}", case.name);
    let skipped = skips(rt, observed);
    assert!(rt;
        skipped.as_slice() == case.skipped,
        "{}: {skipped:?}",
        case.name
    );
    let first = matches!(observed.first(), Some(Seen::Skipped(_)));
    assert!(rt; first || !case.skips_first, "{}", case.name);
}

/// What is read of the clock: nothing if turns follow messages.
fn readings_of(setup: &Setup<'static>) -> &'static [u64] {
    if setup.turns.is_some() {
        &[]
    } else {
        setup.readings
    }
}

fn check<R: Place>(rt: &R, cases: &[Case]) {
    for case in cases {
        let run = run_server(rt, &case.setup);
        assert!(rt; ended_of(&run) == case.ended, "{}", case.name);
        assert!(rt;
            run.readings.as_slice() == readings_of(&case.setup),
            "{}",
            case.name
        );
        check_entries(rt, run.entries.as_slice(), case);
        check_observed(rt, run.observed.as_slice(), case);
    }
}

#[test]
fn runs_have_their_logs(rt: HostRuntime) {
    check(&rt, CASES);
}

/// 5,120 lines of 11 bytes are 141 reads of 400 bytes.
const LINES: u32 = 5_120;

/// Three clients connect, and the first sends a text, 400 bytes at a time.
fn flood_script<'a, R: Place>(rt: &R, text: &'a [u8]) -> Vec<Input<'a>> {
    let mut script = Vec::new(rt.alloc());
    script.push(Connects).expect(rt, "memory");
    script.push(Connects).expect(rt, "memory");
    script.push(Connects).expect(rt, "memory");
    for bytes in text.chunks(400) {
        script.push(Sends(0, bytes)).expect(rt, "memory");
    }
    script
}

fn check_flood_entries<R: Place>(rt: &R, entries: &[Entry]) {
    let lines = repeated(rt, VERSION, POWER_ON, LINES);
    assert!(rt; text_to(rt, entries, 0) == lines);
    let lines = repeated(rt, VERSION, HEARD, LINES);
    assert!(rt; text_to(rt, entries, 1) == lines);
    assert!(rt; text_to(rt, entries, 2).is_empty());
    assert!(rt; closed(rt, entries).as_slice() == [2].as_slice());
}

fn check_flood_observed<R: Place>(rt: &R, observed: &[Seen]) {
    assert!(rt; overflows(rt, observed).as_slice() == [2].as_slice());
    // 26 bytes and 4,367 lines of 15 are 65,531 bytes: line 4,368 has no room, and the queue is closed. While it was more than a
    // quarter full, one message was read in a round. Then the rest of the 400 bytes is read, as far as message 4,400.
    assert!(rt; messages_before_overflow(observed) == 4_400);
    assert!(rt; disconnects_by_overflow(observed, 2));
    assert!(rt; messages(observed) == u64::from(LINES));
}

/// Client 0 sends without pause, client 1 reads all, and client 2 never reads.
#[test]
fn flood(rt: HostRuntime) {
    let sent = repeated(&rt, b"", b"SEND 83 7C\n", LINES);
    let script = flood_script(&rt, sent.as_slice());
    assert!(rt; script.len() == 3 + 141);
    let setup = Setup {
        script: script.as_slice(),
        readings: &[],
        blocked: Some(2),
        turns: Some(0),
        most: 2,
    };
    let run = run_server(&rt, &setup);
    assert!(rt; ended_of(&run) == Ended::AtInput);
    check_flood_entries(&rt, run.entries.as_slice());
    check_flood_observed(&rt, run.observed.as_slice());
}
