//! How much of what happens on a bus is printed.
ghost use Rattle.std.specs.Prelude.{◌≡◌};

/// How much of what happens on a bus is printed.
#[derive(Clone, Copy)]
pub enum Verbosity {
    /// Nothing.
    Silent,
    /// All but packets, each line with its time or none.
    Normal { times: bool },
    /// Packets too, all but idle ones.
    Packets { times: bool },
}

impl Verbosity {
    ghost use Rattle.bus_log.specs.Verbosities.{has_times, is_quiet, prints_packets, verbosity_of};

    /// The verbosity of the options `--track`, `--quiet` and `--times`. The second overrides the others.
    pub fn of(track: bool, quiet: bool, times: bool) -> Verbosity
        ensures { result ≡ verbosity_of track quiet times }
    {
        match (quiet, track) {
            (true, _) => Verbosity::Silent,
            (false, true) => Verbosity::Packets { times },
            (false, false) => Verbosity::Normal { times },
        }
    }

    /// Returns whether nothing is printed.
    pub(crate) fn is_quiet(self) -> bool
        ensures { result ≡ is_quiet self }
    {
        matches!(self, Verbosity::Silent)
    }

    /// Returns whether packets are printed.
    pub(crate) fn prints_packets(self) -> bool
        ensures { result ≡ prints_packets self }
    {
        matches!(self, Verbosity::Packets { .. })
    }

    /// Returns whether each line begins with its time.
    pub(crate) fn has_times(self) -> bool
        ensures { result ≡ has_times self }
    {
        match self {
            Verbosity::Silent => false,
            Verbosity::Normal { times } | Verbosity::Packets { times } => times,
        }
    }
}
