//! The jobs that wait, in a buffer that is made once.
ghost use Rattle.std.specs.Prelude.{◌≡◌, ◌<◌, ◌≤◌, ◌+◌, ◌++◌, [], ◌∷◌, false, true, if◌then◌else◌, IfOk, IfSome, drop};
ghost use Rattle.dcc_packet.specs.Sent.{last_switch};
ghost use Rattle.refresh_ring.specs.Places.{IsSlot, is_refreshed};
ghost use Rattle.refresh_ring.specs.Jobs.{IsJob, IsQueue, most_requests, is_queued, requests_in, sends_ahead, is_live, live_jobs, first_of, after_send};
ghost use Rattle.refresh_ring.specs.declared.job.Job.TheVariants.{Place, Request};

use crate::fault::NoMemory;
use crate::job::Job;
use crate::kind::Kind;
use crate::place::{LAST_PLACE, place_of};
use crate::place_set::PlaceSet;
use crate::ring::Ring;
use circular_buffer::HeapCircularBuffer;
use std::alloc::Global;
use std::marker::Model;

// The most switch requests that wait at one time.
pub(crate) const MOST_REQUESTS: u8 = 32;

// A place waits at most once.
const MOST_JOBS: usize = LAST_PLACE as usize + MOST_REQUESTS as usize;

/// The jobs that wait, in order. Each place waits at most once, and at most 32 switch requests
/// wait.
#[derive(Drop)]
pub(crate) struct JobQueue {
    jobs: HeapCircularBuffer<Job>,
    // The places among the jobs, so that no search is needed.
    waiting: PlaceSet,
    // How many of the jobs are switch requests, so that no count is needed.
    requests: u8,
}

impl Model for JobQueue {
    ghost use Rattle.std.specs.Prelude.{List};
    ghost use Rattle.refresh_ring.specs.declared.job.Job.{Job as JobOf};

    ghost Value = { List JobOf };

    ghost use Rattle.refresh_ring.specs.Marked.{IsBuffered};

    ghost view = { λ q. q.jobs.items };

    ghost invariant = { λ q. IsBuffered q.jobs.items q.jobs.capacity q.waiting q.requests };
}

impl JobQueue {
    // No job waits.
    pub(crate) fn new(alloc: Global) -> Result<JobQueue, NoMemory>
        ensures empty { IfOk result (λ q. q ≡ []) }
        ensures queue { IfOk result IsQueue }
    {
        match HeapCircularBuffer::with_capacity(alloc, MOST_JOBS) {
            Ok(jobs) => Ok(JobQueue {
                jobs,
                waiting: PlaceSet::empty(),
                requests: 0,
            }),
            Err(_) => Err(NoMemory),
        }
    }

    // Whether a place waits.
    #[inline]
    pub(crate) fn is_queued(&self, slot: u8, kind: Kind) -> bool
        requires { IsSlot slot }
        ensures { result ≡ is_queued slot kind self.now }
    {
        self.waiting.has(place_of(slot, kind))
    }

    // How many switch requests wait.
    #[inline]
    pub(crate) fn requests(&self) -> u8
        ensures count { result ≡ requests_in self.now }
        ensures queue { IsQueue self.now }
    {
        self.requests
    }

    // The sends that wait ahead of a place, where the place waits.
    pub(crate) fn sends_ahead(&self, slot: u8, kind: Kind) -> Option<u32>
        ensures { result ≡ sends_ahead slot kind self.now }
    {
        let mut ahead = 0;
        for job in self.jobs.iter() {
            if job.is_place(slot, kind) {
                return Some(ahead);
            }
            ahead += job.sends();
        }
        None
    }

    // A place waits behind all others.
    pub(crate) fn push_place(&mut self, slot: u8, kind: Kind)
        requires slot { IsSlot slot }
        requires absent { is_queued slot kind self.old ≡ false }
        ensures jobs { self.new ≡ self.old ++ Place slot kind ∷ [] }
        ensures queue { IsQueue self.new }
    {
        self.jobs.push_back(Job::Place { slot, kind });
        self.waiting.set(place_of(slot, kind), true);
    }

    // A switch request waits behind all others, and is sent twice.
    pub(crate) fn push_request(&mut self, number: u16, closed: bool, on: bool)
        requires number { number ≤ last_switch }
        requires room { requests_in self.old < most_requests }
        ensures jobs { self.new ≡ self.old ++ Request number closed on true ∷ [] }
        ensures queue { IsQueue self.new }
    {
        self.jobs.push_back(Job::Request {
            number,
            closed,
            on,
            again: true,
        });
        self.requests += 1;
    }

    // The first job.
    #[inline]
    fn first(&self) -> Option<Job>
        ensures first { result ≡ first_of self.now }
        ensures legal { IfSome result IsJob }
        ensures queue { IsQueue self.now }
    {
        self.jobs.front().copied()
    }

    // The first job that is live. Those ahead of it, whose slot is not refreshed, are dropped.
    pub(crate) fn first_live<R: Ring>(&mut self, ring: &R) -> Option<Job>
        ensures first { result ≡ first_of self.new }
        ensures legal { IfSome result IsJob }
        ensures jobs { self.new ≡ live_jobs (R.slots ring.now) self.old }
        ensures queue { IsQueue self.new }
    {
        while let Some(job) = self.first() {
            if is_live(job, ring) {
                return Some(job);
            }
            self.drop_first();
        }
        None
    }

    // The first job leaves.
    #[inline]
    fn drop_first(&mut self) -> Option<Job>
        ensures first { result ≡ first_of self.old }
        ensures jobs { self.new ≡ drop 1 self.old }
        ensures before { IsQueue self.old }
        ensures queue { IsQueue self.new }
    {
        let job = self.jobs.pop_front();
        match job {
            Some(Job::Place { slot, kind }) => self.waiting.set(place_of(slot, kind), false),
            Some(Job::Request { .. }) => self.requests -= 1,
            None => {}
        }
        job
    }

    // The first job was sent: it leaves, or waits at the head to be sent once more.
    #[inline]
    pub(crate) fn note_sent(&mut self)
        ensures jobs { self.new ≡ after_send self.old }
        ensures queue { IsQueue self.new }
    {
        if let Some(
            Job::Request {
                number,
                closed,
                on,
                again,
            },
        ) = self.drop_first()
        {
            if again {
                self.jobs.push_front(Job::Request {
                    number,
                    closed,
                    on,
                    again: false,
                });
                self.requests += 1;
            }
        }
    }
}

// Whether the job still waits to be sent: a switch request always, a place while its slot is
// refreshed.
fn is_live<R: Ring>(job: Job, ring: &R) -> bool
    requires { IsJob job }
    ensures { result ≡ is_live (R.slots ring.now) job }
{
    match job {
        Job::Place { slot, .. } => ring.has(slot),
        Job::Request { .. } => true,
    }
}
