//! What a turn chooses from, and where it goes.
ghost use Rattle.std.specs.Prelude.{◌≡◌};
ghost use Rattle.refresh_ring.specs.Jobs.{IsJob};
ghost use Rattle.refresh_ring.specs.Sent.{IsLegalPick};
ghost use Rattle.refresh_ring.specs.Picked.{destination_of, pick_of, is_last};

use crate::job::{Destination, Job};
use crate::pick::Pick;
use crate::view::View;

// What a turn may send.
#[derive(Clone, Copy)]
pub(crate) enum Candidate {
    FromJobs { job: Job },
    FromRing { place: u16 },
}

// Where a job's packet goes.
pub(crate) fn destination_of<V: View>(view: &V, job: Job) -> Destination
    requires { IsJob job }
    ensures { result ≡ destination_of (V.addresses view.now) job }
{
    match job {
        Job::Place { slot, .. } => Destination::Loco {
            address: view.address(slot),
        },
        Job::Request { number, .. } => Destination::Module {
            number: number / 4 + 1,
        },
    }
}

// Whether the last packet went there.
#[inline]
pub(crate) fn is_last(last: Option<Destination>, there: Destination) -> bool
    ensures { result ≡ is_last last there }
{
    match (last, there) {
        (Some(Destination::Loco { address: was }), Destination::Loco { address }) => was == address,
        (Some(Destination::Module { number: was }), Destination::Module { number }) => was
            == number,
        _ => false,
    }
}

// The packet of a job.
#[inline]
pub(crate) fn pick_of(job: Job) -> Pick
    requires { IsJob job }
    ensures pick { result ≡ pick_of job }
    ensures range { IsLegalPick result }
{
    match job {
        Job::Place { slot, kind } => Pick::Place { slot, kind },
        Job::Request {
            number,
            closed,
            on,
            ..
        } => Pick::Switch { number, closed, on },
    }
}
