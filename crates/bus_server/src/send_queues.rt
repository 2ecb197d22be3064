//! The send queues of eight clients.
ghost use Rattle.std.specs.Prelude.{◌≡◌, IfOk, None, replicate};

use crate::send_queue::SendQueue;
use bus::MAX_CLIENTS;
use std::alloc::{AllocError, Global};

/// The queue of each client.
pub type SendQueues = [SendQueue; MAX_CLIENTS];

/// Eight closed queues.
///
/// They are made in pairs: a function that may return early eight times, with up to seven queues to drop, takes more than a
/// minute to prove.
///
/// # Errors
///
/// Out of memory.
pub fn empty_queues(alloc: Global) -> Result<SendQueues, AllocError>
    ensures { IfOk result (λ queues. queues ≡ replicate 8 None) }
{
    let (first, second, third, fourth) = four_queues(alloc)?;
    let (fifth, sixth, seventh, eighth) = four_queues(alloc)?;
    Ok([first, second, third, fourth, fifth, sixth, seventh, eighth])
}

/// Four closed queues.
fn four_queues(alloc: Global) -> Result<(SendQueue, SendQueue, SendQueue, SendQueue), AllocError>
    ensures { IfOk result
        (λ queues. (queues.0 ≡ None) × (queues.1 ≡ None) × (queues.2 ≡ None) × (queues.3 ≡ None)) }
{
    let (first, second) = two_queues(alloc)?;
    let (third, fourth) = two_queues(alloc)?;
    Ok((first, second, third, fourth))
}

/// Two closed queues.
fn two_queues(alloc: Global) -> Result<(SendQueue, SendQueue), AllocError>
    ensures { IfOk result (λ queues. (queues.0 ≡ None) × (queues.1 ≡ None)) }
{
    let first = SendQueue::new(alloc)?;
    let second = SendQueue::new(alloc)?;
    Ok((first, second))
}
