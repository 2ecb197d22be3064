//! The pages among the clients of a server.
ghost use Rattle.std.specs.Prelude.{◌<◌, Option, List, [], ◌∷◌};
ghost use Rattle.bus.specs.Log.{Extends};
ghost use Rattle.pages.specs.ClientEvents.{ClientEvent, Opening, Offer, Sending};

/// The pages among up to eight clients, 0 to 7. They receive messages between the lines of the bus.
pub trait Clients {
    /// Every call so far and what it returned, in order, where it is known.
    ghost page_log: { Self → Option (List ClientEvent) };

    /// Returns whether the client is a page that has opened since the last call.
    fn take_just_opened(&mut self, client: usize) -> bool
        requires { client < 8 }
        ensures { Extends (page_log self.old) (page_log self.new) (Opening client result ∷ []) };

    /// Returns whether the client is a page that takes messages. Sends what is queued for it first,
    /// as far as it takes it.
    fn is_writable(&mut self, client: usize) -> bool
        requires { client < 8 }
        ensures { Extends (page_log self.old) (page_log self.new) (Offer client result ∷ []) };

    /// Sends one message to a page, whole or not at all. Returns whether it was sent.
    fn send(&mut self, client: usize, message: &str) -> bool
        requires { client < 8 }
        ensures { Extends (page_log self.old) (page_log self.new)
            (Sending client message.now result ∷ []) };
}
