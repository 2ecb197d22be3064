//! A whole run of a server.
ghost use Rattle.std.specs.Prelude.{◌≡◌, ◌<◌, [], ◌++◌, Bool, IfErr, List, None, OnOk, min, ℕ};
ghost use Rattle.std.specs.List.{flat_map};
ghost use Rattle.bus_server.specs.declared.pace.Pace.TheVariants.{RealTime};
ghost use Rattle.bus.specs.Log.{Extends};
ghost use Rattle.bus_server.specs.Snapshots.{HasReported, IsReady, IsReadyAfter, ObservesLayout, state_of};
ghost use Rattle.bus_server.specs.ServerState.{LoggedEvent, longest_wait, observations_of};
ghost use Rattle.bus_server.specs.Pace.{track_time};
ghost use Rattle.bus_server.specs.Running.{IsRun, run_snapshot, skipped};
ghost use Rattle.bus_server.specs.Track.{IsTimeDue, RunsTrack, with_time_due};

use crate::after_round::AfterRound;
use crate::laws::rounds_are_a_run;
use crate::observer::Observer;
use crate::pace::Pace;
use crate::server::Server;
use crate::time_source::TimeSource;
use crate::transport::Transport;

/// The longest time of one round by the clock, in microseconds: what is beyond it is skipped.
const LONGEST_STEP: u64 = 1_000_000;

/// Why a run stopped. Each fault was made by a device, so that device has failed.
#[derive(Drop)]
pub enum Stop<T, C, O, A> {
    /// The transport cannot wait.
    Transport(T),
    /// The clock cannot be read.
    Clock(C),
    /// The observer cannot go on.
    Observer(O),
    /// What is done after each round cannot go on.
    AfterRound(A),
}

impl Server {
    ghost use Rattle.bus_server.specs.SoFar.{ComesTo, IsBeginning};
    ghost use Rattle.bus_server.specs.StoppedRuns.{IsStoppedRun, ServesRound, StopsOnTrack, after_round_failed, fails};

    /// Serves until `most` clients have disconnected since the server was new, or for 2 ^ 64 - 1 rounds.
    ///
    /// # Errors
    ///
    /// The fault of the device that has failed. The run ends at once: all that was logged before is applied.
    pub fn run<W: Transport, C: TimeSource, P: Observer, A: AfterRound<W, P>>(
        &mut self,
        transport: &mut W,
        clock: &mut C,
        observer: &mut P,
        after_round: &mut A,
        most: u64,
    ) -> Result<(), Stop<W::Fault, C::Fault, P::Fault, A::Fault>>
        requires observes { ObservesLayout (P.decoder_specs observer.old) self.old.hub }
        requires reported { HasReported self.old.hub }
        requires begun { IsBeginning (A.begun after_round.old)
            (run_snapshot (W.log transport.old) (C.readings clock.old) (P.observed observer.old)
            (A.shown after_round.old) self.old.hub) }
        ensures begun { A.begun after_round.new ≡ A.begun after_round.old }
        ensures observes { ObservesLayout (P.decoder_specs observer.new) self.new.hub }
        ensures reported { OnOk result (HasReported self.new.hub) }
        ensures run { OnOk result
            (IsRun most (run_snapshot (W.log transport.old) (C.readings clock.old)
            (P.observed observer.old) (A.shown after_round.old) self.old.hub)
            (run_snapshot (W.log transport.new) (C.readings clock.new) (P.observed observer.new)
            (A.shown after_round.new) self.new.hub)) }
        ensures stopped { IfErr result
            (λ stop. IsStoppedRun most stop
            (run_snapshot (W.log transport.old) (C.readings clock.old) (P.observed observer.old)
            (A.shown after_round.old) self.old.hub)
            (run_snapshot (W.log transport.new) (C.readings clock.new) (P.observed observer.new)
            (A.shown after_round.new) self.new.hub)) }
        ensures after_round { A.failed after_round.new
            ≡ after_round_failed result (A.failed after_round.old) }
    {
        bus::laws::events_are_the_layout();
        layout_core::laws::events_add_up();
        bus::laws::headline();
        self.hub.bus.invariant_holds();
        for _round in 0..u64::MAX {
            if self.hub.disconnected >= most {
                return Ok(());
            }
            self.run_round(transport, clock, observer, after_round, most)?;
        }
        Ok(())
    }

    /// Waits for input, and serves one round.
    fn run_round<W: Transport, C: TimeSource, P: Observer, A: AfterRound<W, P>>(
        &mut self,
        transport: &mut W,
        clock: &mut C,
        observer: &mut P,
        after_round: &mut A,
        most: u64,
    ) -> Result<(), Stop<W::Fault, C::Fault, P::Fault, A::Fault>>
        requires ready { IsReady (P.decoder_specs observer.old) self.old.hub }
        requires fewer { self.old.hub.disconnected < most }
        requires so_far { ComesTo most (A.begun after_round.old)
            (run_snapshot (W.log transport.old) (C.readings clock.old) (P.observed observer.old)
            (A.shown after_round.old) self.old.hub) }
        ensures begun { A.begun after_round.new ≡ A.begun after_round.old }
        ensures ready { IsReadyAfter result (P.decoder_specs observer.new) self.new.hub }
        ensures round { ServesRound most result
            (run_snapshot (W.log transport.old) (C.readings clock.old) (P.observed observer.old)
            (A.shown after_round.old) self.old.hub)
            (run_snapshot (W.log transport.new) (C.readings clock.new) (P.observed observer.new)
            (A.shown after_round.new) self.new.hub) }
        ensures after_round { A.failed after_round.new
            ≡ after_round_failed result (A.failed after_round.old) }
    {
        rounds_are_a_run();
        if let Err(fault) = transport.wait(self.longest_wait()) {
            return Err(Stop::Transport(fault));
        }
        self.hub.start_round();
        if let Err(fault) = self.round(transport, observer) {
            return Err(Stop::Observer(fault));
        }
        self.run_track::<W, C, P, A>(clock, observer)?;
        match after_round.after_round(transport, observer, self.world(), self.railway()) {
            Ok(()) => Ok(()),
            Err(fault) => Err(Stop::AfterRound(fault)),
        }
    }

    /// How long to wait for input, in microseconds; `None`: without end.
    fn longest_wait(&self) -> Option<u32>
        ensures { result ≡ longest_wait (state_of self.now.hub) }
    {
        let hub = &self.hub;
        if hub.has_backlog || hub.answers.is_any_under_way() || hub.track_due.is_any() {
            return Some(0);
        }
        match self.pace() {
            Pace::AfterMessages { .. } => None,
            Pace::RealTime { rate } => Some((self.remaining() - 1) / u32::from(rate) + 1),
        }
    }

    /// Runs the track after a round: turns that are due, or the time since the last reading of the clock.
    fn run_track<W: Transport, C: TimeSource, P: Observer, A: AfterRound<W, P>>(
        &mut self,
        clock: &mut C,
        observer: &mut P,
    ) -> Result<(), Stop<W::Fault, C::Fault, P::Fault, A::Fault>>
        requires ready { IsReady (P.decoder_specs observer.old) self.old.hub }
        ensures ready { IsReadyAfter result (P.decoder_specs observer.new) self.new.hub }
        ensures runs { OnOk result
            ((readings : List ℕ) × (elapsing : List LoggedEvent)
            × Extends (C.readings clock.old) (C.readings clock.new) readings
            × Extends (P.observed observer.old) (P.observed observer.new)
            (flat_map skipped readings ++ observations_of elapsing)
            × RunsTrack self.old.hub.pace readings elapsing (state_of self.old.hub)
            (state_of self.new.hub)) }
        ensures not_after_round { IfErr result
            (λ stop. (before : Bool) → fails stop before ≡ before) }
        ensures stopped { IfErr result
            (λ stop. (readings : List ℕ) × (elapsing : List LoggedEvent)
            × Extends (C.readings clock.old) (C.readings clock.new) readings
            × Extends (P.observed observer.old) (P.observed observer.new)
            (flat_map skipped readings ++ observations_of elapsing)
            × StopsOnTrack stop self.old.hub.pace readings elapsing (state_of self.old.hub)
            (state_of self.new.hub)) }
    {
        let Pace::RealTime { rate } = self.hub.pace else {
            return match self.run_turns(observer) {
                Ok(()) => Ok(()),
                Err(fault) => Err(Stop::Observer(fault)),
            };
        };
        self.take_time::<W, C, P, A>(rate, clock, observer)?;
        match self.run_time(observer) {
            Ok(()) => Ok(()),
            Err(fault) => Err(Stop::Observer(fault)),
        }
    }

    /// Reads the clock unless time is due. The time that it returns, a second at most, is due then, `rate` times as fast; the rest
    /// is reported as skipped.
    fn take_time<W: Transport, C: TimeSource, P: Observer, A: AfterRound<W, P>>(
        &mut self,
        rate: u8,
        clock: &mut C,
        observer: &mut P,
    ) -> Result<(), Stop<W::Fault, C::Fault, P::Fault, A::Fault>>
        requires ready { IsReady (P.decoder_specs observer.old) self.old.hub }
        ensures ready { IsReady (P.decoder_specs observer.new) self.new.hub }
        ensures takes { OnOk result
            ((readings : List ℕ) × (owed : ℕ)
            × Extends (C.readings clock.old) (C.readings clock.new) readings
            × Extends (P.observed observer.old) (P.observed observer.new) (flat_map skipped readings)
            × IsTimeDue rate (state_of self.old.hub).time_due readings owed
            × (state_of self.new.hub ≡ with_time_due owed (state_of self.old.hub))) }
        ensures not_after_round { IfErr result
            (λ stop. (before : Bool) → fails stop before ≡ before) }
        ensures stopped { IfErr result
            (λ stop. (readings : List ℕ)
            × Extends (C.readings clock.old) (C.readings clock.new) readings
            × Extends (P.observed observer.old) (P.observed observer.new) (flat_map skipped readings)
            × StopsOnTrack stop (RealTime rate) readings [] (state_of self.old.hub)
            (state_of self.new.hub)) }
    {
        if self.hub.track_due.micros > 0 {
            return Ok(());
        }
        let micros = match clock.elapsed() {
            Ok(micros) => micros,
            Err(fault) => return Err(Stop::Clock(fault)),
        };
        self.hub.track_due.micros = track_time(micros, rate);
        match observe_skipped(micros, observer) {
            Ok(()) => Ok(()),
            Err(fault) => Err(Stop::Observer(fault)),
        }
    }
}

/// The time of the track for `micros` microseconds of the clock, a second at most, `rate` times as fast.
fn track_time(micros: u64, rate: u8) -> u32
    ensures { result ≡ track_time rate micros }
{
    u32::from(rate) * micros.min(LONGEST_STEP) as u32
}

/// Reports what is beyond a second as skipped.
fn observe_skipped<P: Observer>(micros: u64, observer: &mut P) -> Result<(), P::Fault>
    ensures decoder_specs { P.decoder_specs observer.new ≡ P.decoder_specs observer.old }
    ensures observed { Extends (P.observed observer.old) (P.observed observer.new)
        (skipped micros) }
{
    if micros <= LONGEST_STEP {
        return Ok(());
    }
    observer.skipped(micros - LONGEST_STEP)
}
