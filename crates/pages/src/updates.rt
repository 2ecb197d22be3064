//! What pages have received of the decoders, the plan and its trains.
ghost use Rattle.std.specs.Prelude.{◌≡◌, ◌<◌, None, get_or, length, map, replicate};
ghost use Rattle.pages.specs.Items.{max_items};
ghost use Rattle.pages.specs.Shown.{IsOfRoster, messages_of, states_of};
ghost use Rattle.pages.specs.Updates.{SendsUnsent, ServesPage, ServesPages, is_last, known_sent, nothing_sent};

use crate::clients::Clients;
use crate::items::{ItemState, MAX_ITEMS, item_message, item_state, items};
use crate::shown::Shown;
use bus::MAX_CLIENTS;

/// What the page of each client, 0 to 7, has received. Sends it the rest.
#[derive(Clone, Copy)]
pub struct Updates {
    pub(crate) pages: [SentStates; MAX_CLIENTS],
}

impl Updates {
    /// Creates the states of pages that have received nothing.
    pub fn new() -> Updates
        ensures nothing { map (λ states. states.sent) result.pages
            ≡ replicate 8 nothing_sent }
    {
        Updates {
            pages: [SentStates::new(); MAX_CLIENTS],
        }
    }

    /// Sends each page, until it would block, the messages of the decoders, in the roster's order,
    /// and of the blocks, joints, turnouts and trains, in the plan's order, whose present states it
    /// has not received.
    pub fn send_all<C: Clients>(&mut self, clients: &mut C, shown: &Shown<'_>)
        requires { IsOfRoster shown.now }
        ensures pages { ServesPages 0 (messages_of shown.now) (states_of shown.now)
            (map (λ states. states.sent) self.old.pages)
            (map (λ states. states.sent) self.new.pages)
            (C.page_log clients.old) (C.page_log clients.new) }
    {
        serve_all(&mut self.pages, clients, shown);
    }
}

/// Serves each client in turn.
fn serve_all<C: Clients>(pages: &mut [SentStates; MAX_CLIENTS], clients: &mut C, shown: &Shown<'_>)
    requires { IsOfRoster shown.now }
    ensures { ServesPages 0 (messages_of shown.now) (states_of shown.now)
        (map (λ states. states.sent) pages.old) (map (λ states. states.sent) pages.new)
        (C.page_log clients.old) (C.page_log clients.new) }
{
    for client in 0..MAX_CLIENTS {
        pages[client].serve(clients, client, shown);
    }
}

/// The last state of each item that one page has received.
#[derive(Clone, Copy)]
pub(crate) struct SentStates {
    pub(crate) sent: [Option<ItemState>; MAX_ITEMS],
    ghost places: { length sent ≡ max_items },
}

impl SentStates {
    /// Creates the states of a page that has received nothing.
    #[tactic(auto, unfolding(crate::specs::Updates::nothing_sent))]
    fn new() -> SentStates
        ensures { result.sent ≡ nothing_sent }
    {
        SentStates {
            sent: [None; MAX_ITEMS],
        }
    }

    /// Sends a client what it has not received, if it is a page that accepts messages.
    fn serve<C: Clients>(&mut self, clients: &mut C, client: usize, shown: &Shown<'_>)
        requires client { client < 8 }
        requires decoders { IsOfRoster shown.now }
        ensures { ServesPage client (messages_of shown.now) (states_of shown.now) self.old.sent
            self.new.sent (C.page_log clients.old) (C.page_log clients.new) }
    {
        let is_new = clients.take_just_opened(client);
        self.reset_if(is_new);
        if clients.is_writable(client) {
            self.send(clients, client, shown);
        }
    }

    /// Records that nothing was sent, if the page has just opened.
    fn reset_if(&mut self, is_new: bool)
        ensures { self.new.sent ≡ known_sent is_new self.old.sent }
    {
        if is_new {
            *self = SentStates::new();
        }
    }

    /// Sends a page the message of each item whose present state it has not received, in order,
    /// until it would block.
    fn send<C: Clients>(&mut self, clients: &mut C, client: usize, shown: &Shown<'_>)
        requires client { client < 8 }
        requires decoders { IsOfRoster shown.now }
        ensures { SendsUnsent client (messages_of shown.now) (states_of shown.now) self.old.sent
            self.new.sent (C.page_log clients.old) (C.page_log clients.new) }
    {
        for item in 0..items(shown.world, shown.railway) {
            let Some(now) = item_state(shown.world, shown.railway, item) else {
                return;
            };
            if self.is_sent(item, &now) {
                continue;
            }
            let message = item_message(shown.roster, shown.world, shown.railway, item);
            if !clients.send(client, message.as_str()) {
                return;
            }
            self.sent[item] = Some(now);
        }
    }

    /// Whether this state of an item was the last one sent.
    fn is_sent(&self, item: usize, now: &ItemState) -> bool
        requires { item < max_items }
        ensures { result ≡ is_last (get_or self.now.sent item None) now.now }
    {
        match &self.sent[item] {
            Some(last) => last.is_same(now),
            None => false,
        }
    }
}
