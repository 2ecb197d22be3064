//! What the turns of the track follow: messages, or time.
ghost use Rattle.std.specs.Prelude.{◌≡◌};

/// What the turns of the track follow.
#[derive(Clone, Copy)]
pub enum Pace {
    /// Messages: this number of turns follows each, and clients may request turns.
    AfterMessages { turns: u8 },
    /// Time: track time elapses this many times as fast as by the clock, 1 to 100.
    RealTime { rate: u8 },
}

impl Pace {
    ghost use Rattle.bus_server.specs.Pace.{follows_messages};

    /// Returns whether turns follow messages.
    pub(crate) fn follows_messages(self) -> bool
        ensures { result ≡ follows_messages self }
    {
        matches!(self, Pace::AfterMessages { .. })
    }
}
