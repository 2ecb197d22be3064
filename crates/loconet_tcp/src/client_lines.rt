//! The lines sent to a client. Each ends with a carriage return and a line feed.
ghost use Rattle.std.specs.Prelude.{◌≡◌, ◌+◌, ◌*◌, ◌<◌, ◌≤◌, ◌++◌, length, Err};
ghost use Rattle.arrayvec.specs.ArrayVec.{array_vec_len};
ghost use Rattle.loconet_tcp.specs.ClientLines.{line_end, receive_text, sent_ok_text, reason_text, sent_error_text, place_error_text, place_text, change_line, device_text, fail_error_text, fail_text, mount_error_text, mount_text, turns_error_text, turns_ok_text, turns_text, node_text, states_ok_text, state_text, version_text, server_full_text};

use crate::request::{DeviceAnswer, FailError, MountError, PlaceError, Reason, Things, TurnsError};
use arrayvec::ArrayVec;
use ln_frame::Msg;
use text::{decimal_digits, push_bytes, push_hex_words};

/// Lines for one client, at most 800 bytes together.
pub type Text = ArrayVec<u8, 800>;

/// Appends `RECEIVE` and the bytes of a message seen on LocoNet, at most 390 bytes in all.
pub fn push_receive(text: &mut Text, message: &Msg)
    requires { array_vec_len text.old + 390 ≤ 800 }
    ensures text { text.new.items ≡ text.old.items ++ receive_text message.now }
    ensures len { array_vec_len text.new ≡ array_vec_len text.old + 9 + 3 * length message.now }
    ensures most { array_vec_len text.new ≤ array_vec_len text.old + 390 }
{
    push_bytes(text, b"RECEIVE");
    push_hex_words(text, message.bytes());
    push_bytes(text, b"\r\n");
}

/// Appends `SENT OK`: the message requested by the client was sent.
pub fn push_sent_ok(text: &mut Text)
    requires { array_vec_len text.old + 9 ≤ 800 }
    ensures text { text.new.items ≡ text.old.items ++ sent_ok_text }
    ensures len { array_vec_len text.new ≡ array_vec_len text.old + 9 }
{
    push_bytes(text, b"SENT OK\r\n");
}

/// Appends `SENT ERROR` and the reason in plain words, at most 43 bytes in all: nothing was sent.
pub fn push_sent_error(text: &mut Text, reason: Reason)
    requires { array_vec_len text.old + 43 ≤ 800 }
    ensures text { text.new.items ≡ text.old.items ++ sent_error_text reason }
    ensures len { array_vec_len text.new
        ≡ array_vec_len text.old + length (sent_error_text reason) }
    ensures most { array_vec_len text.new ≤ array_vec_len text.old + 43 }
{
    push_line(text, b"SENT ERROR ", words_of(reason));
}

/// Appends `TURNS OK`: the turns requested by the client have passed.
pub fn push_turns_ok(text: &mut Text)
    requires { array_vec_len text.old + 10 ≤ 800 }
    ensures text { text.new.items ≡ text.old.items ++ turns_ok_text }
    ensures len { array_vec_len text.new ≡ array_vec_len text.old + 10 }
{
    push_bytes(text, b"TURNS OK\r\n");
}

/// Appends `TURNS ERROR` and the reason in plain words, if no turns follow the request. At most 43
/// bytes in all.
pub fn push_turns(text: &mut Text, turns: &Result<u16, TurnsError>)
    requires { array_vec_len text.old + 43 ≤ 800 }
    ensures text { text.new.items ≡ text.old.items ++ turns_text turns.now }
    ensures most { array_vec_len text.new ≤ array_vec_len text.old + 43 }
{
    if let Err(error) = turns {
        push_line(text, b"TURNS ERROR ", words_of_turns(*error));
    }
}

/// Appends `PLACE OK`: the train was put where the client requested it; or `PLACE ERROR` and the
/// reason in plain words. At most 43 bytes in all.
pub fn push_place(text: &mut Text, answer: &Result<(), PlaceError>)
    requires { array_vec_len text.old + 43 ≤ 800 }
    ensures text { text.new.items ≡ text.old.items ++ place_text answer.now }
    ensures most { array_vec_len text.new ≤ array_vec_len text.old + 43 }
{
    match answer {
        Ok(()) => push_bytes(text, b"PLACE OK\r\n"),
        Err(error) => push_line(text, b"PLACE ERROR ", words_of_place(*error)),
    }
}

/// Appends `MOUNT OK` or `FAIL OK`: what the client requested of the devices beside the station is
/// done; or `MOUNT ERROR` or `FAIL ERROR` and the reason in plain words. At most 43 bytes in all.
pub fn push_device(text: &mut Text, answer: DeviceAnswer)
    requires { array_vec_len text.old + 43 ≤ 800 }
    ensures text { text.new.items ≡ text.old.items ++ device_text answer }
    ensures most { array_vec_len text.new ≤ array_vec_len text.old + 43 }
{
    match answer {
        DeviceAnswer::Mount(Ok(())) => push_bytes(text, b"MOUNT OK\r\n"),
        DeviceAnswer::Mount(Err(error)) => {
            push_line(text, b"MOUNT ERROR ", words_of_mount(error));
        }
        DeviceAnswer::Fail(Ok(())) => push_bytes(text, b"FAIL OK\r\n"),
        DeviceAnswer::Fail(Err(error)) => {
            push_line(text, b"FAIL ERROR ", words_of_fail(error));
        }
    }
}

/// Appends a line of two texts.
fn push_line(text: &mut Text, first: &[u8], rest: &[u8])
    requires { array_vec_len text.old + length first.now + length rest.now + 2 ≤ 800 }
    ensures text { text.new.items ≡ text.old.items ++ (first.now ++ rest.now ++ line_end) }
    ensures len { array_vec_len text.new
        ≡ array_vec_len text.old + length first.now + length rest.now + 2 }
{
    push_bytes(text, first);
    push_bytes(text, rest);
    push_bytes(text, b"\r\n");
}

/// Appends `CV`, the name of a decoder, at most 16 bytes, and the number of a variable and its value
/// as the `cvs` of a roster list them, at most 60 bytes in all.
pub fn push_change(text: &mut Text, name: &[u8], number: u16, value: u8)
    requires room { array_vec_len text.old + 60 ≤ 800 }
    requires name { length name.now ≤ 16 }
    ensures text { text.new.items
        ≡ text.old.items ++ state_text (change_line name.now number value) }
    ensures short { length (change_line name.now number value) ≤ 58 }
    ensures most { array_vec_len text.new ≤ array_vec_len text.old + 60 }
{
    push_bytes(text, b"CV ");
    push_bytes(text, name);
    push_bytes(text, b" [");
    push_bytes(text, decimal_digits(u64::from(number)).as_slice());
    push_bytes(text, b", ");
    push_bytes(text, decimal_digits(u64::from(value)).as_slice());
    push_bytes(text, b"]\r\n");
}

/// Appends `NODE` and the line of a decoder, 7 bytes longer than the line.
pub fn push_node(text: &mut Text, line: &[u8])
    requires { array_vec_len text.old + length line.now + 7 ≤ 800 }
    ensures text { text.new.items ≡ text.old.items ++ node_text line.now }
    ensures len { array_vec_len text.new ≡ array_vec_len text.old + length line.now + 7 }
{
    push_line(text, b"NODE ", line);
}

/// Appends the line of a train or a turnout, 2 bytes longer than the line.
pub fn push_state(text: &mut Text, line: &[u8])
    requires { array_vec_len text.old + length line.now + 2 ≤ 800 }
    ensures text { text.new.items ≡ text.old.items ++ state_text line.now }
    ensures len { array_vec_len text.new ≡ array_vec_len text.old + length line.now + 2 }
{
    push_bytes(text, line);
    push_bytes(text, b"\r\n");
}

/// Appends `NODES OK`, `TRAINS OK`, `TURNOUTS OK` or `CVS OK`, at most 14 bytes: the lines of all were
/// sent.
pub fn push_states_ok(text: &mut Text, things: Things)
    requires { array_vec_len text.old + 14 ≤ 800 }
    ensures text { text.new.items ≡ text.old.items ++ states_ok_text things }
    ensures most { array_vec_len text.new ≤ array_vec_len text.old + 14 }
{
    match things {
        Things::Nodes => push_bytes(text, b"NODES OK\r\n"),
        Things::Trains => push_bytes(text, b"TRAINS OK\r\n"),
        Things::Turnouts => push_bytes(text, b"TURNOUTS OK\r\n"),
        Things::Variables => push_bytes(text, b"CVS OK\r\n"),
    }
}

/// Appends the greeting of a client: `VERSION` and the name of the server.
pub fn push_version(text: &mut Text)
    requires { array_vec_len text.old + 26 ≤ 800 }
    ensures text { text.new.items ≡ text.old.items ++ version_text }
    ensures len { array_vec_len text.new ≡ array_vec_len text.old + 26 }
{
    push_bytes(text, b"VERSION lbserver station\r\n");
}

/// Appends `ERROR no place`: the maximum number of clients is connected.
pub fn push_server_full(text: &mut Text)
    requires { array_vec_len text.old + 16 ≤ 800 }
    ensures text { text.new.items ≡ text.old.items ++ server_full_text }
    ensures len { array_vec_len text.new ≡ array_vec_len text.old + 16 }
{
    push_bytes(text, b"ERROR no place\r\n");
}

/// The reason in plain words, at most 30 bytes.
fn words_of(reason: Reason) -> &'static [u8]
    ensures words { result.now ≡ reason_text reason }
    ensures most { length result.now ≤ 30 }
{
    match reason {
        Reason::TooLong => b"line too long",
        Reason::NotHex => b"no pairs of hexadecimal digits",
        Reason::NoMessage => b"no whole message",
        Reason::WrongCheck => b"wrong check byte",
    }
}

/// The reason in plain words, at most 29 bytes.
fn words_of_turns(error: TurnsError) -> &'static [u8]
    ensures words { result.now ≡ turns_error_text error }
    ensures most { length result.now ≤ 29 }
{
    match error {
        TurnsError::RealTime => b"real time",
        TurnsError::NoNumber => b"no number from 1 to 10000",
    }
}

/// The reason in plain words, at most 28 bytes.
fn words_of_place(error: PlaceError) -> &'static [u8]
    ensures words { result.now ≡ place_error_text error }
    ensures most { length result.now ≤ 28 }
{
    match error {
        PlaceError::NoPlan => b"no plan",
        PlaceError::TooLong => b"line too long",
        PlaceError::NoNumber => b"no number of millimetres",
        PlaceError::NoEnd => b"no end a or b",
        PlaceError::UnknownTrain => b"no such train",
        PlaceError::UnknownBlock => b"no such block",
        PlaceError::OffTrack => b"the train does not fit there",
    }
}

/// The reason in plain words, at most 20 bytes.
fn words_of_mount(error: MountError) -> &'static [u8]
    ensures words { result.now ≡ mount_error_text error }
    ensures most { length result.now ≤ 20 }
{
    match error {
        MountError::NoTrack => b"no programming track",
        MountError::NoName => b"no name of a decoder",
        MountError::UnknownDecoder => b"no such decoder",
    }
}

/// The reason in plain words, at most 20 bytes.
fn words_of_fail(error: FailError) -> &'static [u8]
    ensures words { result.now ≡ fail_error_text error }
    ensures most { length result.now ≤ 20 }
{
    match error {
        FailError::UnknownFailure => b"no such failure",
        FailError::NoTrack => b"no programming track",
        FailError::NoPlan => b"no plan",
        FailError::UnknownSensor => b"no such sensor",
        FailError::UnknownTurnout => b"no such turnout",
    }
}
