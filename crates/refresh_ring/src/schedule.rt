//! The schedule of a command station: what waits, the position of the ring, and what is sent next.
ghost use Rattle.std.specs.Prelude.{◌≡◌, ◌≤◌, ◌<◌, ◌-◌, None, Some, IfOk, IfSome, if◌then◌else◌, not};
ghost use Rattle.dcc_packet.specs.Sent.{last_switch};
ghost use Rattle.refresh_ring.specs.Places.{IsSlot, IsPlace, next_place};
ghost use Rattle.refresh_ring.specs.Jobs.{IsJob, requests_in, sends_ahead, first_of};
ghost use Rattle.refresh_ring.specs.Scheduled.{IsScheduled, first_schedule, after_refresh, after_changed, after_switch, switch_answer};
ghost use Rattle.refresh_ring.specs.Picked.{IsCandidate, candidate, picked, turned, sent, idle, is_last};
ghost use Rattle.refresh_ring.specs.Sent.{IsDue, IsLegalPick};

use crate::fault::{Full, NoMemory};
use crate::job::{Destination, Job};
use crate::kind::Kind;
use crate::pick::{Pick, Power};
use crate::place::{kind_of, slot_of};
use crate::queue::{JobQueue, MOST_REQUESTS};
use crate::ring::Ring;
use crate::turn::{Candidate, destination_of, is_last, pick_of};
use crate::view::View;
use std::alloc::Global;
use std::marker::Model;

/// The refreshed slots, the jobs that wait, and the state of the ring and the turns.
///
/// Each place waits at most once, and at most 32 switch requests wait, so its memory is taken once,
/// by `new`.
#[derive(Drop)]
pub struct Schedule<R: Ring> {
    ring: R,
    queue: JobQueue,
    cursor: u16,
    last: Option<Destination>,
    prefers_jobs: bool,
}

impl<R: Ring> Model for Schedule<R> {
    ghost use Rattle.refresh_ring.specs.Scheduled.{Scheduled, IsScheduled};

    ghost Value = { Scheduled };

    ghost view = { λ s.
        record {
          jobs = s.queue;
          slots = R.slots s.ring;
          cursor = s.cursor;
          last = s.last;
          prefers_jobs = s.prefers_jobs;
        } };

    ghost invariant = { λ s.
        IsScheduled (record {
          jobs = s.queue;
          slots = R.slots s.ring;
          cursor = s.cursor;
          last = s.last;
          prefers_jobs = s.prefers_jobs;
        }) };
}

impl<R: Ring> Schedule<R> {
    /// Creates a schedule without refreshed slots and jobs. Fails if out of memory for 508 jobs.
    pub fn new(alloc: Global) -> Result<Schedule<R>, NoMemory>
        ensures first { IfOk result (λ s. s ≡ first_schedule) }
        ensures legal { IfOk result IsScheduled }
    {
        Ok(Schedule {
            ring: R::empty(),
            queue: JobQueue::new(alloc)?,
            cursor: 0,
            last: None,
            prefers_jobs: true,
        })
    }

    /// Sets whether a slot, 1 to 119, is refreshed from now on.
    pub fn refresh(&mut self, slot: u8, on: bool)
        requires { IsSlot slot }
        ensures state { self.new ≡ after_refresh slot on self.old }
        ensures legal { IsScheduled self.new }
    {
        self.ring.set(slot, on);
    }

    /// Records a change of this packet of a slot, 1 to 119: the place waits after all jobs, unless
    /// it waits already or its slot is not refreshed.
    pub fn changed(&mut self, slot: u8, kind: Kind)
        requires { IsSlot slot }
        ensures state { self.new ≡ after_changed slot kind self.old }
        ensures legal { IsScheduled self.new }
    {
        if self.ring.has(slot) && !self.queue.is_queued(slot, kind) {
            self.queue.push_place(slot, kind);
        }
    }

    /// Requests to close or throw a switch, number 0 to 2039, its output on or off: the request
    /// waits after all jobs, and is then sent twice. Fails, and changes nothing, exactly if 32
    /// requests wait.
    pub fn switch(&mut self, number: u16, closed: bool, on: bool) -> Result<(), Full>
        requires { number ≤ last_switch }
        ensures answer { result ≡ switch_answer self.old }
        ensures state { self.new ≡ after_switch number closed on self.old }
        ensures legal { IsScheduled self.new }
    {
        if self.queue.requests() >= MOST_REQUESTS {
            return Err(Full);
        }
        self.queue.push_request(number, closed, on);
        Ok(())
    }

    /// Returns how many sends wait ahead of a place, including those of slots that are not
    /// refreshed, or `None` if it does not wait.
    pub fn sends_ahead(&self, slot: u8, kind: Kind) -> Option<u32>
        ensures ahead { result ≡ sends_ahead slot kind self.now.jobs }
        ensures legal { IsScheduled self.now }
    {
        self.queue.sends_ahead(slot, kind)
    }

    /// Returns how many switch requests still have a packet to send.
    pub fn switches_waiting(&self) -> u8
        ensures count { result ≡ requests_in self.now.jobs }
        ensures legal { IsScheduled self.now }
    {
        self.queue.requests()
    }

    /// Returns what this turn sends. While off nothing changes, and while paused only the last
    /// destination is cleared.
    pub fn pick<V: View>(&mut self, view: &V, power: Power) -> Pick
        ensures state { self.new ≡ (turned power (V.addresses view.now) self.old).state }
        ensures answer { result ≡ (turned power (V.addresses view.now) self.old).answer }
        ensures is_due { power ≡ Power.Running → IsDue self.old result }
        ensures range { IsLegalPick result }
        ensures legal { IsScheduled self.new }
    {
        // A turn while off reads nothing else, and is to leave a legal schedule too.
        let _ = &self.last;
        match power {
            Power::Off => Pick::Off,
            Power::Running => self.pick_running(view),
            Power::Paused => {
                self.last = None;
                Pick::StopAll
            }
        }
    }

    // What a turn sends while power runs.
    #[tactic(auto, unfolding(crate::specs::Picked::picked))]
    fn pick_running<V: View>(&mut self, view: &V) -> Pick
        ensures state { self.new ≡ (picked (V.addresses view.now) self.old).state }
        ensures answer { result ≡ (picked (V.addresses view.now) self.old).answer }
        ensures range { IsLegalPick result }
        ensures legal { IsScheduled self.new }
    {
        let job = self.queue.first_live(&self.ring);
        match self.candidate(job) {
            Some(candidate) => self.offer(view, candidate),
            None => self.stay_idle(),
        }
    }

    // The preferred one of the first job and the ring's next place, or else the other.
    #[inline]
    fn candidate(&self, job: Option<Job>) -> Option<Candidate>
        requires { IfSome job IsJob }
        ensures chosen { result
            ≡ candidate self.now.prefers_jobs job (next_place self.now.slots self.now.cursor) }
        ensures legal { IfSome result IsCandidate }
    {
        let place = match job {
            // A job that is preferred goes first, so the ring is not asked.
            Some(job) if self.prefers_jobs => return Some(Candidate::FromJobs { job }),
            _ => self.next_place(),
        };
        match (place, job) {
            (Some(place), _) => Some(Candidate::FromRing { place }),
            (None, Some(job)) => Some(Candidate::FromJobs { job }),
            (None, None) => None,
        }
    }

    // The place that the ring sends next.
    fn next_place(&self) -> Option<u16>
        ensures next { result ≡ next_place self.now.slots self.now.cursor }
        ensures within { IfSome result IsPlace }
    {
        self.ring.next(self.cursor)
    }

    // Sends the first job or a place of the ring, or idle where the last packet went to the same
    // decoder.
    fn offer<V: View>(&mut self, view: &V, candidate: Candidate) -> Pick
        requires { IsCandidate candidate }
        ensures state { self.new ≡ (sent (V.addresses view.now) self.old (Some candidate)).state }
        ensures answer { result ≡ (sent (V.addresses view.now) self.old (Some candidate)).answer }
        ensures range { IsLegalPick result }
        ensures legal { IsScheduled self.new }
    {
        match candidate {
            Candidate::FromJobs { job } => {
                if !self.note_destination(destination_of(view, job)) {
                    return Pick::Idle;
                }
                self.queue.note_sent();
                self.prefers_jobs = false;
                pick_of(job)
            }
            Candidate::FromRing { place } => {
                let slot = slot_of(place);
                let there = Destination::Loco {
                    address: view.address(slot),
                };
                if !self.note_destination(there) {
                    return Pick::Idle;
                }
                self.cursor = place;
                self.prefers_jobs = true;
                Pick::Place {
                    slot,
                    kind: kind_of(place),
                }
            }
        }
    }

    // Notes where a packet goes, and whether it may: where the last one went there too, none goes,
    // and none is noted.
    #[inline]
    fn note_destination(&mut self, there: Destination) -> bool
        ensures may { result ≡ not (is_last self.old.last there) }
        ensures state { self.new
            ≡ record self.old { last = if is_last self.old.last there then None else Some there } }
        ensures legal { IsScheduled self.new }
    {
        if is_last(self.last, there) {
            self.last = None;
            return false;
        }
        self.last = Some(there);
        true
    }

    // Sends the idle packet.
    fn stay_idle(&mut self) -> Pick
        ensures state { self.new ≡ (idle self.old).state }
        ensures answer { result ≡ (idle self.old).answer }
        ensures legal { IsScheduled self.new }
    {
        self.last = None;
        Pick::Idle
    }
}
