//! A run with a script, and what its logs hold.
ghost use Rattle.std.specs.Prelude.{◌≡◌, IsTrue};
ghost use Rattle.bus_server.specs.Pace.{is_pace};

use super::kept::{Entry, Seen};
use super::memory::Input::Nothing;
use super::memory::{FakeClock, Input, MemoryTransport, NoPages, Place, Recorder, ScriptEnded};
use bus_server::{Losses, NamedNodes, Pace, Server, Shares, Stop};
use std::convert::Infallible;

/// What is given to a run: see [`MemoryTransport`], [`FakeClock`] and [`Server`].
#[derive(Clone, Copy)]
pub(crate) struct Setup<'a> {
    pub(crate) script: &'a [Input<'a>],
    pub(crate) readings: &'a [u64],
    pub(crate) blocked: Option<u8>,
    pub(crate) turns: Option<u8>,
    pub(crate) most: u64,
}

/// How a run ended, and the logs of its transport, its clock and its observer.
#[derive(Drop)]
pub(crate) struct Run {
    pub(crate) ended: Result<(), Stop<ScriptEnded, ScriptEnded, Infallible, Infallible>>,
    pub(crate) entries: Vec<Entry>,
    pub(crate) readings: Vec<u64>,
    pub(crate) observed: Vec<Seen>,
}

/// Turns after messages, or in real time.
fn pace_of(turns: Option<u8>) -> Pace
    ensures { IsTrue (is_pace result) }
{
    match turns {
        Some(turns) => Pace::AfterMessages { turns },
        None => Pace::RealTime { rate: 1 },
    }
}

/// Runs a new server without decoders.
pub(crate) fn run_server<'a, R: Place>(rt: &'a R, setup: &Setup<'a>) -> Run {
    let mut server = Server::new(
        rt.alloc(),
        NamedNodes::new(),
        None,
        None,
        pace_of(setup.turns),
        Losses::new(Shares::new(), 0),
    )
    .expect(rt, "memory");
    let mut transport = MemoryTransport {
        rt,
        script: setup.script,
        step: 0,
        now: Nothing,
        blocked: setup.blocked,
        log: Vec::new(rt.alloc()),
    };
    let mut clock = FakeClock {
        rt,
        script: setup.readings,
        log: Vec::new(rt.alloc()),
    };
    let mut observer = Recorder {
        rt,
        log: Vec::new(rt.alloc()),
    };
    let ended = server.run(
        &mut transport,
        &mut clock,
        &mut observer,
        &mut NoPages,
        setup.most,
    );
    Run {
        ended,
        entries: transport.log,
        readings: clock.log,
        observed: observer.log,
    }
}

/// All that was written to a client.
pub(crate) fn text_to<R: Place>(rt: &R, entries: &[Entry], client: u8) -> Vec<u8> {
    let mut text = Vec::new(rt.alloc());
    for entry in entries {
        if let Entry::Written(to, bytes) = entry {
            if *to == client {
                text.extend_from_slice(bytes.as_slice())
                    .expect(rt, "memory");
            }
        }
    }
    text
}

/// What `pick` returns of each of these, in order.
fn picked<R: Place, T, U: Drop, F: Fn(&T) -> Option<U>>(rt: &R, items: &[T], pick: F) -> Vec<U>
    requires { F.IsAlwaysCallable pick }
{
    let mut found = Vec::new(rt.alloc());
    for item in items {
        if let Some(one) = pick(item) {
            found.push(one).expect(rt, "memory");
        }
    }
    found
}

/// The longest time of a wait without end.
pub(crate) const FOREVER: u32 = u32::MAX;

/// The longest time of each wait, or `FOREVER`.
pub(crate) fn longest_times<R: Place>(rt: &R, entries: &[Entry]) -> Vec<u32> {
    picked(rt, entries, |entry| match entry {
        Entry::Polled(longest) => Some(longest.unwrap_or(FOREVER)),
        _ => None,
    })
}

/// What was done with each pending client: its index, or `None` where it was refused.
pub(crate) fn accepted<R: Place>(rt: &R, entries: &[Entry]) -> Vec<Option<u8>> {
    picked(rt, entries, |entry| match entry {
        Entry::Accepted(client) => Some(Some(*client)),
        Entry::Refused => Some(None),
        _ => None,
    })
}

/// The clients that the server closed.
pub(crate) fn closed<R: Place>(rt: &R, entries: &[Entry]) -> Vec<u8> {
    picked(rt, entries, |entry| match entry {
        Entry::ServerClosed(client) => Some(*client),
        _ => None,
    })
}

/// The clients whose queue has overflowed.
pub(crate) fn overflows<R: Place>(rt: &R, observed: &[Seen]) -> Vec<u8> {
    picked(rt, observed, |seen| match seen {
        Seen::Overflowed(client) => Some(*client),
        _ => None,
    })
}

/// The times that were skipped.
pub(crate) fn skips<R: Place>(rt: &R, observed: &[Seen]) -> Vec<u64> {
    picked(rt, observed, |seen| match seen {
        Seen::Skipped(micros) => Some(*micros),
        _ => None,
    })
}

/// How many messages were sent before the first queue overflowed.
pub(crate) fn messages_before_overflow(observed: &[Seen]) -> u64 {
    let mut messages = 0u64;
    for seen in observed {
        match seen {
            Seen::Sent(_, _, _) => messages = messages.saturating_add(1),
            Seen::Overflowed(_) => return messages,
            _ => {}
        }
    }
    messages
}

/// Whether a client disconnects, and the observation before that is that its queue has overflowed.
pub(crate) fn disconnects_by_overflow(observed: &[Seen], client: u8) -> bool {
    let mut overflowed = false;
    for seen in observed {
        if matches!(seen, Seen::Disconnected(who) if *who == client) {
            return overflowed;
        }
        overflowed = matches!(seen, Seen::Overflowed(who) if *who == client);
    }
    false
}

/// How many turns began.
pub(crate) fn turns(observed: &[Seen]) -> u64 {
    let mut turns = 0u64;
    for seen in observed {
        if let Seen::TurnBegan(_) = seen {
            turns = turns.saturating_add(1);
        }
    }
    turns
}

/// How many messages client 0 sent, each without a reply.
pub(crate) fn messages(observed: &[Seen]) -> u64 {
    let mut messages = 0u64;
    for seen in observed {
        if let Seen::Sent(0, _, None) = seen {
            messages = messages.saturating_add(1);
        }
    }
    messages
}

/// A text, followed by `line`, `times` times.
pub(crate) fn repeated<R: Place>(rt: &R, text: &[u8], line: &[u8], times: u32) -> Vec<u8> {
    let mut all = text.to_vec(rt.alloc()).expect(rt, "memory");
    for _time in 0..times {
        all.extend_from_slice(line).expect(rt, "memory");
    }
    all
}
