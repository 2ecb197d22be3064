//! The track, which runs after each round: turns that are due, or time.
ghost use Rattle.std.specs.Prelude.{◌≡◌, ◌<◌, ◌≤◌, ◌+◌, ◌-◌, IfOk, ℕ, OnErr, OnOk};
ghost use Rattle.bus.specs.Course.{micros_in};
ghost use Rattle.bus_server.specs.ServerState.{events_of};
ghost use Rattle.bus_server.specs.Snapshots.{IsObserved, IsReady, IsReadyAfter, state_of};
ghost use Rattle.bus_server.specs.StoppedRuns.{StopsInTime, StopsInTurns};
ghost use Rattle.bus_server.specs.Track.{IsShare, RunsSteps, RunsTime, RunsTurns, RunsTurnsOf, is_piece, is_turn, turns_left};

use crate::CLIENTS;
use crate::observer::Observer;
use crate::server::Server;
use bus::SHORTEST_TURN;

/// The most turns of a client, or pieces of time, that are run after a round.
///
/// The clients are served again before more are run.
const MAX_STEPS: u16 = 100;

impl Server {
    /// Runs some of the turns that are due to each client.
    pub(crate) fn run_turns<P: Observer>(&mut self, observer: &mut P) -> Result<(), P::Fault>
        requires ready { IsReady (P.decoder_specs observer.old) self.old.hub }
        ensures ready { IsReadyAfter result (P.decoder_specs observer.new) self.new.hub }
        ensures happened { OnOk result
            (IsObserved (λ applied. RunsTurns 8 applied (state_of self.old.hub) (state_of self.new.hub))
            (P.observed observer.old) (P.observed observer.new)) }
        ensures stops { OnErr result
            (IsObserved (λ applied. StopsInTurns applied (state_of self.old.hub) (state_of self.new.hub))
            (P.observed observer.old) (P.observed observer.new)) }
    {
        for client in 0..CLIENTS {
            self.run_turns_of(client, observer)?;
        }
        Ok(())
    }

    /// Runs some of the turns that are due to a client, after which it may be read.
    fn run_turns_of<P: Observer>(&mut self, client: u8, observer: &mut P) -> Result<(), P::Fault>
        requires client { client < 8 }
        requires ready { IsReady (P.decoder_specs observer.old) self.old.hub }
        ensures ready { IsReadyAfter result (P.decoder_specs observer.new) self.new.hub }
        ensures happened { OnOk result
            (IsObserved (λ applied.
            RunsTurnsOf client applied (state_of self.old.hub) (state_of self.new.hub))
            (P.observed observer.old) (P.observed observer.new)) }
        ensures stops { OnErr result
            (IsObserved (λ applied. (count : ℕ) × (count ≤ turns_left (state_of self.old.hub) client)
            × (count ≤ 100)
            × RunsSteps is_turn count applied (state_of self.old.hub) (state_of self.new.hub))
            (P.observed observer.old) (P.observed observer.new)) }
    {
        let left = self.hub.track_due.left(client);
        if left == 0 {
            return Ok(());
        }
        let count = self.run_up_to(left, observer)?;
        self.hub.track_due.note_run(client, count);
        self.hub.has_backlog = true;
        Ok(())
    }

    /// Runs turns, `owed` or a hundred at most, and none but the first while a queue is more than a
    /// quarter full. Returns how many.
    fn run_up_to<P: Observer>(&mut self, owed: u16, observer: &mut P) -> Result<u16, P::Fault>
        requires some { 0 < owed }
        requires ready { IsReady (P.decoder_specs observer.old) self.old.hub }
        ensures ready { IsReadyAfter result (P.decoder_specs observer.new) self.new.hub }
        ensures happened { IfOk result (λ count. IsShare count count owed (state_of self.new.hub)
            × IsObserved (λ applied.
            RunsSteps is_turn count applied (state_of self.old.hub) (state_of self.new.hub))
            (P.observed observer.old) (P.observed observer.new)) }
        ensures stops { OnErr result
            (IsObserved (λ applied. (count : ℕ) × (count ≤ owed) × (count ≤ 100)
            × RunsSteps is_turn count applied (state_of self.old.hub) (state_of self.new.hub))
            (P.observed observer.old) (P.observed observer.new)) }
    {
        let most = owed.min(MAX_STEPS);
        for turn in 0..most {
            let outcome = self.hub.turn();
            self.observe(&outcome, observer)?;
            if self.hub.is_crowded() {
                return Ok(turn + 1);
            }
        }
        Ok(most)
    }

    /// Runs the track for some of the time that is due.
    pub(crate) fn run_time<P: Observer>(&mut self, observer: &mut P) -> Result<(), P::Fault>
        requires ready { IsReady (P.decoder_specs observer.old) self.old.hub }
        ensures ready { IsReadyAfter result (P.decoder_specs observer.new) self.new.hub }
        ensures happened { OnOk result
            (IsObserved (λ applied. RunsTime (state_of self.old.hub).time_due applied
            (state_of self.old.hub) (state_of self.new.hub))
            (P.observed observer.old) (P.observed observer.new)) }
        ensures stops { OnErr result
            (IsObserved (λ applied. StopsInTime (state_of self.old.hub).time_due applied
            (state_of self.old.hub) (state_of self.new.hub))
            (P.observed observer.old) (P.observed observer.new)) }
    {
        let rest = self.run_pieces(self.hub.track_due.micros, observer)?;
        self.hub.track_due.micros = rest;
        Ok(())
    }

    /// Runs the track for `owed` microseconds in pieces, a hundred at most, and none but the first while
    /// a queue is more than a quarter full. No piece is longer than the turn under way, so that trains
    /// run as the decoders do. Returns how much is left.
    fn run_pieces<P: Observer>(&mut self, owed: u32, observer: &mut P) -> Result<u32, P::Fault>
        requires ready { IsReady (P.decoder_specs observer.old) self.old.hub }
        ensures ready { IsReadyAfter result (P.decoder_specs observer.new) self.new.hub }
        ensures happened { IfOk result (λ rest. IsObserved (λ applied. (count micros : ℕ)
            × (micros + rest ≡ owed)
            × RunsSteps is_piece count applied (state_of self.old.hub) (state_of self.new.hub)
            × (micros_in (state_of self.old.hub).bus (events_of applied) ≡ micros)
            × IsShare count micros owed (state_of self.new.hub))
            (P.observed observer.old) (P.observed observer.new)) }
        ensures stops { OnErr result
            (IsObserved (λ applied. (count : ℕ)
            × RunsSteps is_piece count applied (state_of self.old.hub) (state_of self.new.hub)
            × (micros_in (state_of self.old.hub).bus (events_of applied) ≤ owed) × (count ≤ 100))
            (P.observed observer.old) (P.observed observer.new)) }
    {
        let mut rest = owed;
        for _piece in 0..MAX_STEPS {
            if rest == 0 {
                return Ok(0);
            }
            let piece = rest.min(SHORTEST_TURN).min(self.hub.bus.remaining());
            rest -= piece;
            let outcome = self.hub.elapse(piece as u16);
            self.observe(&outcome, observer)?;
            if self.hub.is_crowded() {
                return Ok(rest);
            }
        }
        Ok(rest)
    }
}
