//! How long a page has been silent.
ghost use Rattle.std.specs.Prelude.{◌≡◌, ◌-◌, false, true};
ghost use Rattle.sockets.specs.declared.silence.Action.TheVariants.{Ping};
ghost use Rattle.sockets.specs.Silences.{action_after, left_after};

/// After this many microseconds of silence a page is pinged.
const PING_AFTER: u64 = 20_000_000;

/// After this many microseconds of silence a page has vanished.
const LOST_AFTER: u64 = 40_000_000;

/// What is to be done for a page.
#[derive(Clone, Copy)]
pub(crate) enum Action {
    /// Nothing yet.
    Nothing,
    /// A ping, which a connected page answers.
    Ping,
    /// Its end: it has answered no ping.
    End,
}

/// When a page was last heard, in microseconds since the start, and whether it was pinged since.
#[derive(Clone, Copy)]
pub(crate) struct Silence {
    heard: u64,
    is_pinged: bool,
}

impl Silence {
    /// Silence since now.
    pub(crate) fn new(now: u64) -> Silence
        ensures heard { result.heard ≡ now }
        ensures pinged { result.is_pinged ≡ false }
    {
        Silence {
            heard: now,
            is_pinged: false,
        }
    }

    /// Returns what is to be done now: a ping at most once in a silence.
    pub(crate) fn action(&mut self, now: u64) -> Action
        ensures action { result ≡ action_after (now - self.old.heard) self.old.is_pinged }
        ensures heard { self.new.heard ≡ self.old.heard }
        ensures pinged { result ≡ Ping → self.new.is_pinged ≡ true }
        ensures kept { (result ≡ Ping → ⊥) → self.new ≡ self.old }
    {
        let silent = now.saturating_sub(self.heard);
        if silent >= LOST_AFTER {
            return Action::End;
        }
        if silent >= PING_AFTER && !self.is_pinged {
            self.is_pinged = true;
            return Action::Ping;
        }
        Action::Nothing
    }

    /// Returns the microseconds until something is to be done.
    pub(crate) fn time_left(&self, now: u64) -> u64
        ensures { result ≡ left_after (now - self.now.heard) self.now.is_pinged }
    {
        let silent = now.saturating_sub(self.heard);
        let end = if self.is_pinged {
            LOST_AFTER
        } else {
            PING_AFTER
        };
        end.saturating_sub(silent)
    }
}
