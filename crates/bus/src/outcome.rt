//! The outcome of an event on a bus, and its text for each client.
ghost use Rattle.std.specs.Prelude.{◌≡◌, ◌+◌, ◌≤◌, ◌++◌};
ghost use Rattle.arrayvec.specs.ArrayVec.{array_vec_len};
ghost use Rattle.bus.specs.Outcome.{text_for};

use dcc_packet::Packet;
use ln_frame::Msg;
use loconet_tcp::{
    DeviceAnswer, DeviceRequest, PlaceError, Placement, Reason, Text, Things, TurnsError,
    push_device, push_place, push_receive, push_sent_error, push_sent_ok, push_turns, push_version,
};
use programming_track::NamedChange;

/// The outcome of an event on a bus. Clients are numbered from 0 to 7.
#[derive(Drop)]
pub enum Outcome {
    /// Nothing is sent to any client.
    Nothing,
    /// A client has connected and receives the version line.
    Connected {
        client: u8,
    },
    /// A client has disconnected and receives nothing more.
    Disconnected {
        client: u8,
    },
    /// A client's request was rejected; the client receives the reason.
    Rejected {
        client: u8,
        reason: Reason,
    },
    /// A message was sent. All clients receive it, then its sender receives `SENT OK`, then all
    /// receive the reply, if there is one.
    Sent {
        client: u8,
        message: Msg,
        reply: Option<Msg>,
    },
    /// A device beside the station reported. All clients receive the message.
    Reported {
        message: Msg,
    },
    /// A packet was sent on the programming track, and may have changed the variables of the decoder
    /// there. Clients receive nothing.
    Programmed {
        packet: Packet,
        change: Option<NamedChange>,
    },
    /// A client requested this number of turns, which follow, or was refused; it alone receives
    /// the reason. That turns have passed is not of the bus, which does not count them.
    TurnsRequested {
        client: u8,
        turns: Result<u16, TurnsError>,
    },
    /// A client asked how the decoders, the trains, the turnouts or the variables of the programming
    /// track stand. The answer is not of the bus, which knows no names; clients receive nothing of this
    /// event.
    StatesRequested {
        client: u8,
        things: Things,
    },
    /// A client requested to put a train on the track, or its line did not say where. A bus has no
    /// trains; clients receive nothing of this event.
    PlaceRequested {
        client: u8,
        placement: Result<Placement, PlaceError>,
    },
    /// A train was put where a client requested it, or was not; the client alone receives the
    /// answer.
    Placed {
        client: u8,
        answer: Result<(), PlaceError>,
    },
    /// A client requested something of the devices beside the station, or its line did not say what.
    /// A bus has no devices; clients receive nothing of this event.
    DeviceRequested {
        client: u8,
        request: DeviceRequest,
    },
    /// What a client requested of the devices was done, or was not; the client alone receives the
    /// answer.
    DeviceAnswered {
        client: u8,
        answer: DeviceAnswer,
    },
    /// A turn began and sent this packet, or none while the track power is off. Clients receive
    /// nothing.
    TurnBegan {
        packet: Option<Packet>,
    },
}

impl Outcome {
    /// Appends the lines that a client receives of the event, at most 789 bytes.
    ///
    /// The caller sends them to connected clients only.
    pub fn push_text_for(&self, receiver: u8, text: &mut Text)
        requires { array_vec_len text.old + 789 ≤ 800 }
        ensures text { text.new.items ≡ text.old.items ++ text_for receiver self.now }
        ensures most { array_vec_len text.new ≤ array_vec_len text.old + 789 }
    {
        match self {
            Outcome::Connected { client } if *client == receiver => push_version(text),
            Outcome::Rejected { client, reason } if *client == receiver => {
                push_sent_error(text, *reason);
            }
            Outcome::TurnsRequested { client, turns } if *client == receiver => {
                push_turns(text, turns);
            }
            Outcome::Placed { client, answer } if *client == receiver => push_place(text, answer),
            Outcome::DeviceAnswered { client, answer } if *client == receiver => {
                push_device(text, *answer);
            }
            Outcome::Sent {
                client,
                message,
                reply,
            } => {
                push_receive(text, message);
                if *client == receiver {
                    push_sent_ok(text);
                }
                if let Some(reply) = reply {
                    push_receive(text, reply);
                }
            }
            Outcome::Reported { message } => push_receive(text, message),
            _ => {}
        }
    }
}
