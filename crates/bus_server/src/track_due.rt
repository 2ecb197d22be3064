//! The turns that are due, and the time: what the track is still to run.
ghost use Rattle.std.specs.Prelude.{◌≡◌, ◌<◌, ◌≤◌, IsTrue, length, map, nat_lt, replicate, slice_set, ◌||◌};
ghost use Rattle.std.specs.List.{list_any};
ghost use Rattle.bus_server.specs.SendQueues.{names_client};
ghost use Rattle.bus_server.specs.TrackDue.{after_answer, after_departure, due_after, due_to, follow_message, have_passed, is_due, is_message, is_request, less, must_wait, none_due};

use crate::CLIENTS;
use crate::pace::Pace;
use bus::{MAX_CLIENTS, Outcome};

/// What turns are due to.
#[derive(Clone, Copy, Drop)]
pub(crate) enum Cause {
    /// A message of the client. Nothing is read before they have passed.
    Message,
    /// A request of the client, which is told when they have passed.
    Request,
    /// A request of a client that has disconnected since.
    Departed,
}

impl Cause {
    /// Whether the turns follow a message.
    fn is_message(self) -> bool
        ensures { result ≡ is_message self }
    {
        matches!(self, Cause::Message)
    }

    /// Whether the client requested them.
    fn is_request(self) -> bool
        ensures { result ≡ is_request self }
    {
        matches!(self, Cause::Request)
    }

    /// The same, once the client has disconnected.
    fn after_departure(self) -> Cause
        ensures { result ≡ after_departure self }
    {
        match self {
            Cause::Message => Cause::Message,
            Cause::Request | Cause::Departed => Cause::Departed,
        }
    }
}

/// The turns that are due to a client: those that follow its message, or that it requested.
#[derive(Clone, Copy, Drop)]
pub(crate) struct TurnsDue {
    /// How many are still to run, at most 10,000.
    pub(crate) left: u16,
    pub(crate) cause: Cause,
}

impl TurnsDue {
    /// No turns.
    fn none() -> TurnsDue
        ensures { result ≡ none_due }
    {
        TurnsDue {
            left: 0,
            cause: Cause::Message,
        }
    }

    /// Whether some are left, or the client that requested them is not told yet that they have passed.
    fn is_due(&self) -> bool
        ensures { result ≡ is_due self.now }
    {
        self.left > 0 || self.cause.is_request()
    }

    /// Whether some are left that follow a message.
    fn follow_message(&self) -> bool
        ensures { result ≡ follow_message self.now }
    {
        self.left > 0 && self.cause.is_message()
    }

    /// Whether those that the client requested have passed.
    fn have_passed(&self) -> bool
        ensures { result ≡ have_passed self.now }
    {
        self.left == 0 && self.cause.is_request()
    }

    /// What is due once the client is told of those that have passed.
    fn after_answer(self) -> TurnsDue
        ensures { result ≡ after_answer self }
    {
        if self.have_passed() {
            TurnsDue::none()
        } else {
            self
        }
    }
}

/// The turns that are due to each client, and the time that is due: what the track is still to run.
#[derive(Drop)]
pub(crate) struct TrackDue {
    pub(crate) turns: [TurnsDue; MAX_CLIENTS],
    /// In microseconds of the track.
    pub(crate) micros: u32,
    ghost eight: { length turns ≡ 8 },
}

impl TrackDue {
    /// Nothing is due.
    pub(crate) fn none() -> TrackDue
        ensures turns { result.turns ≡ replicate 8 none_due }
        ensures micros { result.micros ≡ 0 }
    {
        let none = TurnsDue::none();
        TrackDue {
            turns: [none, none, none, none, none, none, none, none],
            micros: 0,
        }
    }

    /// Notes what an outcome makes due: turns after a message, or on request.
    pub(crate) fn update(&mut self, outcome: &Outcome, pace: Pace)
        requires { IsTrue (names_client outcome.now) }
        ensures turns { self.new.turns ≡ due_after outcome.now pace self.old.turns }
        ensures micros { self.new.micros ≡ self.old.micros }
    {
        match outcome {
            Outcome::Sent { client, .. } => {
                if let Pace::AfterMessages { turns } = pace {
                    self.set(*client, u16::from(turns), Cause::Message);
                }
            }
            Outcome::TurnsRequested {
                client,
                turns: Ok(count),
            } => self.set(*client, *count, Cause::Request),
            Outcome::Disconnected { client } => {
                let owed = self.turns[usize::from(*client)];
                self.set(*client, owed.left, owed.cause.after_departure());
            }
            _ => {}
        }
    }

    /// Makes turns due to a client.
    fn set(&mut self, client: u8, left: u16, cause: Cause)
        requires { client < 8 }
        ensures turns { self.new.turns ≡ slice_set self.old.turns client
            (record { left = left; cause = cause }) }
        ensures micros { self.new.micros ≡ self.old.micros }
    {
        self.turns[usize::from(client)] = TurnsDue { left, cause };
    }

    /// How many turns of a client are still to run.
    pub(crate) fn left(&self, client: u8) -> u16
        requires { client < 8 }
        ensures { result ≡ (due_to self.now.turns client).left }
    {
        self.turns[usize::from(client)].left
    }

    /// Whether what a client sends has to wait: turns are due to it, or are left that follow a message of any client.
    pub(crate) fn must_wait(&self, client: u8) -> bool
        requires { client < 8 }
        ensures { result ≡ must_wait self.now.turns client }
    {
        self.follow_message() || self.turns[usize::from(client)].is_due()
    }

    /// Whether turns are left that follow a message.
    pub(crate) fn follow_message(&self) -> bool
        ensures { result ≡ list_any follow_message self.now.turns }
    {
        self.turns.iter().any(|owed| owed.follow_message())
    }

    /// Whether the turns that a client requested have passed.
    pub(crate) fn have_passed(&self, client: u8) -> bool
        requires { client < 8 }
        ensures { result ≡ have_passed (due_to self.now.turns client) }
    {
        self.turns[usize::from(client)].have_passed()
    }

    /// Whether turns or time are due.
    pub(crate) fn is_any(&self) -> bool
        ensures { result ≡ (list_any is_due self.now.turns || nat_lt 0 self.now.micros) }
    {
        self.is_any_turn() || self.micros > 0
    }

    /// Whether turns are due.
    fn is_any_turn(&self) -> bool
        ensures { result ≡ list_any is_due self.now.turns }
    {
        self.turns.iter().any(|owed| owed.is_due())
    }

    /// Notes that so many turns of a client were run.
    pub(crate) fn note_run(&mut self, client: u8, count: u16)
        requires client { client < 8 }
        requires left { count ≤ (due_to self.old.turns client).left }
        ensures turns { self.new.turns ≡ slice_set self.old.turns client
            (less count (due_to self.old.turns client)) }
        ensures micros { self.new.micros ≡ self.old.micros }
    {
        let owed = self.turns[usize::from(client)];
        self.set(client, owed.left - count, owed.cause);
    }

    /// Notes that each client whose turns have passed was told.
    pub(crate) fn advance(&mut self)
        ensures turns { self.new.turns ≡ map after_answer self.old.turns }
        ensures micros { self.new.micros ≡ self.old.micros }
    {
        for client in 0..CLIENTS {
            self.advance_one(client);
        }
    }

    /// Notes that a client whose turns have passed was told.
    fn advance_one(&mut self, client: u8)
        requires { client < 8 }
        ensures turns { self.new.turns ≡ slice_set self.old.turns client
            (after_answer (due_to self.old.turns client)) }
        ensures micros { self.new.micros ≡ self.old.micros }
    {
        let index = usize::from(client);
        let owed = self.turns[index];
        self.turns[index] = owed.after_answer();
    }
}
