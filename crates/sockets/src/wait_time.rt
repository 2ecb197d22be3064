//! Waiting times, and their conversion between microseconds and durations.
ghost use Rattle.std.specs.Prelude.{◌≡◌, ◌*◌, ◌-◌, ◌/◌, min};
ghost use Rattle.std.specs.Duration.{as_nanos};
ghost use Rattle.std.specs.Time.{instant_nanos};
ghost use Rattle.sockets.specs.WaitTimes.{sooner};

use std::time::{Duration, Instant};

/// Returns the sooner of two times to wait, in microseconds. `None` is a wait without end.
pub fn sooner(one: Option<u64>, other: Option<u64>) -> Option<u64>
    ensures { result ≡ sooner one other }
{
    match (one, other) {
        (Some(one), Some(other)) => Some(one.min(other)),
        (Some(micros), None) | (None, Some(micros)) => Some(micros),
        (None, None) => None,
    }
}

/// Returns a duration of `micros` microseconds.
pub fn duration_of(micros: u64) -> Duration
    ensures { as_nanos result ≡ micros * 1000 }
{
    Duration::from_micros(micros)
}

/// Returns the whole microseconds of a duration, at most 2^64 - 1.
pub fn micros_of(duration: Duration) -> u64
    ensures { result ≡ min (as_nanos duration / 1000) 18446744073709551615 }
{
    u64::try_from(duration.as_micros()).unwrap_or(u64::MAX)
}

/// Returns the whole microseconds from one reading of the clock to another, at most 2^64 - 1; 0 if
/// the clock went back.
pub fn micros_between(start: Instant, now: Instant) -> u64
    ensures { result ≡ min ((instant_nanos now - instant_nanos start) / 1000) 18446744073709551615 }
{
    micros_of(now.duration_since(start))
}
