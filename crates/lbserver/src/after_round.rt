//! What follows a round: pages receive the states of decoders and trains, and the queued lines of the
//! log are written.
ghost use Rattle.std.specs.Prelude.{false};

use crate::standard_output::StandardOutput;
use bus_log::Printer;
use bus_server::AfterRound;
use layout_core::World;
use pages::Shown;
use railway::Railway;
use sockets::Sockets;
use std::convert::Infallible;
use std::io::Write;
use std::time::{Clock, Duration};

impl<'s, 'p, R: Clock, O: Write> AfterRound<Sockets<'s, R>, Printer<'p>> for StandardOutput<O> {
    // A log that cannot be written stops no train.
    type Fault = Infallible;

    ghost failed = { λ _. false };

    fn after_round(
        &mut self,
        transport: &mut Sockets<'s, R>,
        printer: &mut Printer<'p>,
        world: &World,
        railway: Option<&Railway>,
    ) -> Result<(), Infallible> {
        let shown = Shown {
            roster: printer.roster(),
            world,
            railway,
        };
        transport.update_pages(&mut self.updates, &shown);
        // The output notes a failed write. The lines stay queued, and are tried again after the next round.
        let _ = printer.write_queued(self, Duration::ZERO);
        Ok(())
    }
}
