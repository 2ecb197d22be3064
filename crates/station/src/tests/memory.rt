//! Out of memory: each call with a limited number of bytes left, from none until it succeeds. Its
//! result is that memory ran out or the ordinary one, and no third.
//!
//! These tests take the memory of the process, and so need the allocator of the C library:
//! `rt test`, and not `rt try`.

use crate::{OrderFault, execute, order};
use command_line::read_words;
use decoder_node::NodeList;
use input_text::{TrackedReader, TrackedWriter};
use layout_core::World;
use refresh_ring::{BitRing, Schedule};
use show_text::{Command, HexWhy, read_hex, read_script};
use station_core::{Station, StationFault};
use station_orders::no_text;
use std::alloc::Global;
use std::net::TcpListener;
use std::test::Fail;
use std::{fs, mem};
use test_support::{Given, Scarcity};

/// A shunter and a turnout.
const LAYOUT: &[u8] = b"version = 2
[[node]]
name = \"shunter\"
kind = \"loco\"
cvs = [[1, 3], [3, 10], [17, 192], [18, 0], [29, 2]]
[[node]]
name = \"yard\"
kind = \"accessory\"
module = 1
";

const SHOWN: &[u8] = b"node shunter short 3 stop forward F 0000000000000
node yard module 1 outputs 00000000
";

const HEX: &[u8] = b"83 7C BF 01 02 03 04 05 06 07 08 09 0A 0B 0C 0D 0E";

/// The bytes of `HEX`.
const BYTES: [u8; 17] = [
    0x83, 0x7C, 0xBF, 1, 2, 3, 4, 5, 6, 7, 8, 9, 10, 11, 12, 13, 14,
];

/// `show`, nine times.
const SCRIPT: &[u8] = b"show\nshow\nshow\nshow\nshow\nshow\nshow\nshow\nshow";

/// A call that is run with little memory.
#[derive(Clone, Copy)]
enum Work<'a> {
    Schedule,
    Station,
    World,
    Roster,
    Hex,
    Script,
    Words(&'a [&'a [u8]]),
    Order(&'a [&'a str]),
    Run(Run<'a>),
}

/// The arguments and standard input of a run, and then its status, its output and its fault line.
#[derive(Clone, Copy)]
struct Run<'a> {
    words: &'a [&'a str],
    text: &'a [u8],
    status: u8,
    printed: &'a [u8],
    told: &'a [u8],
}

impl<'a> Run<'a> {
    /// Whether the run is the ordinary one. `None` if it reports that memory ran out, and prints
    /// nothing.
    fn answer(self, rt: &HostRuntime, pages: &mut Pages) -> Option<bool> {
        let mut input = TrackedReader::new(self.text);
        let mut output = TrackedWriter::new(mem::replace(&mut pages.output, Vec::new(rt.alloc())));
        let found = execute(rt, self.words, &mut input, &mut output, &mut pages.faults);
        pages.output = output.into_inner();
        let told = pages.faults.as_slice();
        if found == 6 {
            return other_than(
                pages.output.is_empty() && told == b"station: no memory\n".as_slice(),
            );
        }
        Some(found == self.status && pages.output.as_slice() == self.printed && told == self.told)
    }
}

/// The output and the fault line of a run. Their memory is taken at the start.
#[derive(Drop)]
struct Pages {
    output: Vec<u8>,
    faults: Vec<u8>,
}

impl Pages {
    fn new(alloc: Global) -> Result<Pages, Fail> {
        Ok(Pages {
            output: Vec::with_capacity(alloc, 4096)?,
            faults: Vec::with_capacity(alloc, 4096)?,
        })
    }

    fn clear(&mut self) {
        self.output.clear();
        self.faults.clear();
    }
}

/// Whether the result is the ordinary one. `None` if memory ran out.
fn answer(rt: &HostRuntime, work: Work<'_>, pages: &mut Pages) -> Option<bool> {
    let alloc = rt.alloc();
    match work {
        Work::Schedule => match Schedule::<BitRing>::new(alloc) {
            Ok(_) => Some(true),
            Err(_) => None,
        },
        Work::Station => match Station::new(alloc, 8) {
            Ok(station) => Some(station.lines() == 8),
            Err(fault) => other_than(fault == StationFault::NoMemory),
        },
        Work::World => match World::new(alloc, 8, NodeList::new()) {
            Ok(world) => Some(world.station().lines() == 8),
            Err(fault) => other_than(fault == StationFault::NoMemory),
        },
        Work::Roster => match roster::read(alloc, LAYOUT) {
            Ok(roster) => Some(roster.len() == 2),
            Err(fault) => other_than(fault.why == roster::RosterFaultKind::NoMemory),
        },
        Work::Hex => match read_hex(alloc, HEX) {
            Ok(bytes) => Some(bytes.as_slice() == BYTES.as_slice()),
            Err(fault) => other_than(fault.why == HexWhy::NoMemory),
        },
        Work::Script => match read_script(alloc, SCRIPT, 1, 0) {
            Ok(commands) => Some(commands.as_slice() == [Command::Show; 9].as_slice()),
            Err(fault) => other_than(fault.why == show_text::ScriptFaultKind::NoMemory),
        },
        Work::Words(words) => are_read(alloc, words),
        Work::Order(words) => match order(alloc, words) {
            Ok(_) => Some(true),
            Err(fault) => other_than(matches!(fault, OrderFault::NoMemory)),
        },
        Work::Run(run) => run.answer(rt, pages),
    }
}

/// Whether these arguments, the program's name and one more, are read. `None` if memory ran out.
fn are_read(alloc: Global, words: &[&[u8]]) -> Option<bool> {
    let given = Given { words };
    match read_words(alloc, &given, |alloc| no_text(alloc)) {
        Ok(words) => Some(words.len() == 1),
        Err(fault) => other_than(matches!(fault, OrderFault::NoMemory)),
    }
}

/// `None` if memory ran out, and a wrong result otherwise.
fn other_than(no_memory: bool) -> Option<bool> {
    if no_memory { None } else { Some(false) }
}

/// How many bytes more are left from call to call: the granularity of the C library's allocator, so
/// that no allocation is skipped.
const STEP: usize = 16;

/// How often the call fails with no memory, and then with more and more of it, until its result is
/// another, which is correct; and then with ample memory twice. `None` if a result is wrong, or the
/// last call still fails.
fn refusals(rt: &HostRuntime, work: Work<'_>) -> Result<Option<u32>, Fail> {
    let mut pages = Pages::new(rt.alloc())?;
    // The stack grows to all that the call needs of it, while memory is available.
    if answer(rt, work, &mut pages) != Some(true) {
        return Ok(None);
    }
    let mut scarcity = Scarcity::new(rt.alloc())?;
    for refused in 0..40_000u32 {
        pages.clear();
        scarcity.leave(refused as usize * STEP)?;
        let found = answer(rt, work, &mut pages);
        scarcity.relax();
        if let Some(right) = found {
            drop(scarcity);
            let again = is_done(rt, work, &mut pages) && is_done(rt, work, &mut pages);
            return Ok(if right && again { Some(refused) } else { None });
        }
    }
    Ok(None)
}

fn is_done(rt: &HostRuntime, work: Work<'_>, pages: &mut Pages) -> bool {
    pages.clear();
    answer(rt, work, pages) == Some(true)
}

/// Whether the call fails with no memory, succeeds at last with more and more of it, and never has
/// a wrong result.
fn grows_or_says_so(rt: &HostRuntime, work: Work<'_>) -> Result<bool, Fail> {
    let refused = refusals(rt, work)?.unwrap_or(0);
    println!(rt; "refused {refused} times")?;
    Ok(refused > 0)
}

#[test]
fn what_is_made_once(rt: HostRuntime) -> Result<(), Fail> {
    for work in [Work::Schedule, Work::Station, Work::World] {
        assert!(rt; grows_or_says_so(&rt, work)?);
    }
    Ok(())
}

#[test]
fn texts_that_are_read(rt: HostRuntime) -> Result<(), Fail> {
    for work in [Work::Hex, Work::Script] {
        assert!(rt; grows_or_says_so(&rt, work)?);
    }
    assert!(rt; grows_or_says_so(&rt, Work::Roster)?);
    Ok(())
}

/// The word is longer than the text for a wrong one, for which there is memory at some of the calls.
#[test]
fn words_that_the_system_gives(rt: HostRuntime) -> Result<(), Fail> {
    let mut word = Vec::with_capacity(rt.alloc(), 65_536)?;
    word.extend_from_slice([b'x'; 65_536].as_slice())?;
    let words = [b"station".as_slice(), word.as_slice()];
    assert!(rt; grows_or_says_so(&rt, Work::Words(words.as_slice()))?);
    Ok(())
}

#[test]
fn words_that_are_read(rt: HostRuntime) -> Result<(), Fail> {
    let rows: [&[&str]; 3] = [
        &["replay", "--roster", "layout.toml", "--lines", "8"],
        &["monitor", "capture.hex"],
        &["serve", "--port", "5550", "--turns", "4"],
    ];
    for words in rows {
        assert!(rt; grows_or_says_so(&rt, Work::Order(words))?);
    }
    Ok(())
}

/// White space, enough to make the buffer of a reader grow more than once, and then this text.
fn far_behind(rt: &HostRuntime, text: &[u8]) -> Result<Vec<u8>, Fail> {
    let mut all = Vec::with_capacity(rt.alloc(), 3 * 4096 + text.len())?;
    all.extend_from_slice([b'\n'; 3 * 4096].as_slice())?;
    all.extend_from_slice(text)?;
    Ok(all)
}

#[test]
fn replays(rt: HostRuntime) -> Result<(), Fail> {
    let file = "station-test-memory.toml";
    fs::write(&rt, file, LAYOUT)?;
    let text = far_behind(&rt, b"show")?;
    let words = ["replay", "--roster", file];
    let rows: [(&[&str], &[u8]); 3] = [(&[], b""), (&["replay"], b""), (&words, SHOWN)];
    for (words, shown) in rows {
        let run = Work::Run(Run {
            words,
            text: text.as_slice(),
            status: 0,
            printed: shown,
            told: b"",
        });
        assert!(rt; grows_or_says_so(&rt, run)?);
    }
    fs::remove_file(&rt, file)?;
    Ok(())
}

#[test]
fn monitors(rt: HostRuntime) -> Result<(), Fail> {
    let file = "station-test-memory.hex";
    fs::write(&rt, file, far_behind(&rt, b"83 7C")?.as_slice())?;
    let run = Work::Run(Run {
        words: &["monitor", file],
        text: b"",
        status: 0,
        printed: b"msg 83 7C power on\n",
        told: b"",
    });
    assert!(rt; grows_or_says_so(&rt, run)?);
    fs::remove_file(&rt, file)?;
    Ok(())
}

/// Whether a server succeeds or reports that memory ran out, on a port that is in use, so that it
/// waits for no client.
fn serves(rt: &HostRuntime, words: &[&str]) -> Result<bool, Fail> {
    let run = Work::Run(Run {
        words,
        text: b"",
        status: 4,
        printed: b"",
        told: b"station: network\n",
    });
    grows_or_says_so(rt, run)
}

/// The same without a roster and with one.
fn both_serve(rt: &HostRuntime, port: &str, file: &str) -> Result<bool, Fail> {
    let alone = serves(rt, &["serve", "--port", port])?;
    let with = serves(rt, &["serve", "--port", port, "--roster", file])?;
    Ok(alone && with)
}

#[test]
fn servers(rt: HostRuntime) -> Result<(), Fail> {
    let listener: TcpListener = TcpListener::bind(&rt, "127.0.0.1:0")?;
    let port = format!(in rt.alloc(); "{}", listener.local_addr()?.port())?;
    let file = "station-test-memory-serve.toml";
    fs::write(&rt, file, LAYOUT)?;
    let right = both_serve(&rt, port.as_str(), file)?;
    assert!(rt; right);
    fs::remove_file(&rt, file)?;
    Ok(())
}
