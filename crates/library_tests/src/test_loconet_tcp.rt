//! LocoNet over TCP: the requests in clients' lines, and the lines sent to clients.

use ln_frame::Msg;
use loconet_tcp::*;
use std::process::Abort;
use std::test::Fail;

const POWER_ON: [u8; 2] = [0x83, 0x7C];

// Lines that send, each with its message.
const SENT: [(&[u8], &[u8]); 5] = [
    (b"SEND 83 7C\r\n", &POWER_ON),
    (b"SEND bf 00 03 43\n", &[0xBF, 0x00, 0x03, 0x43]),
    (b"SEND  83\t7c \r", &POWER_ON),
    (b"SEND\t83 7C\n\r", &POWER_ON),
    // Another line before it, and an empty one.
    (
        b"HELLO 83 7C\n\r\nSEND A0 01 40 1E\n",
        &[0xA0, 0x01, 0x40, 0x1E],
    ),
];

// Lines whose bytes cannot be sent, each with the reason.
const INVALID: [(&[u8], Reason); 10] = [
    (b"SEND\r\n", Reason::NoMessage),
    (b"SEND \t\n", Reason::NoMessage),
    (b"SEND 83\n", Reason::NoMessage),
    (b"SEND 83 7C 00\n", Reason::NoMessage),
    (b"SEND 83 7D\n", Reason::WrongCheck),
    (b"SEND 8\n", Reason::NotHex),
    (b"SEND 837C\n", Reason::NotHex),
    (b"SEND 83 7C x\n", Reason::NotHex),
    (b"SEND 8G 7C\n", Reason::NotHex),
    (b"SEND 83,7C\n", Reason::NotHex),
];

// Lines, and what they ask the states of.
const STATES: [(&[u8], Things); 5] = [
    (b"NODES\r\n", Things::Nodes),
    (b"\nNODES\n", Things::Nodes),
    (b"TRAINS\r", Things::Trains),
    (b"TURNOUTS\n", Things::Turnouts),
    (b"CVS\r\n", Things::Variables),
];

// Lines that request turns, each with their number.
const TURNS: [(&[u8], Option<u16>); 12] = [
    (b"TURNS 1\r\n", Some(1)),
    (b"TURNS\t16\n", Some(16)),
    (b"TURNS 10000\n", Some(10_000)),
    (b"TURNS 0000001\n", Some(1)),
    (b"TURNS 0\n", None),
    (b"TURNS 10001\n", None),
    (b"TURNS 65537\n", None),
    (b"TURNS -1\n", None),
    (b"TURNS 1 1\n", None),
    (b"TURNS  1\n", None),
    (b"TURNS 1F\n", None),
    (b"TURNS\n", None),
];

// Lines that put a train, each with the names of train and block, the front and the end.
const PLACES: [(&[u8], &[u8], &[u8], u32, Option<Facing>); 4] = [
    (
        b"PLACE express back 1500\r\n",
        b"express",
        b"back",
        1500,
        None,
    ),
    (
        b"PLACE express back 1500 a\n",
        b"express",
        b"back",
        1500,
        Some(Facing::A),
    ),
    (
        b"PLACE\te  b  0000000\tb \n",
        b"e",
        b"b",
        0,
        Some(Facing::B),
    ),
    // A block's name may have 32 bytes; 33 are kept of a longer word.
    (
        b"PLACE e 0123456789012345678901234567890123456789 9999999\n",
        b"e",
        b"012345678901234567890123456789012",
        9_999_999,
        None,
    ),
];

// Lines that do not say where, each with the reason.
const NO_PLACES: [(&[u8], PlaceError); 10] = [
    (b"PLACE\n", PlaceError::NoNumber),
    (b"PLACE express back\n", PlaceError::NoNumber),
    (b"PLACE express 1500\n", PlaceError::NoNumber),
    (b"PLACE express back far a\n", PlaceError::NoNumber),
    (b"PLACE express back -1\n", PlaceError::NoNumber),
    (b"PLACE express back 10000000\n", PlaceError::NoNumber),
    (b"PLACE express back far c\n", PlaceError::NoNumber),
    (b"PLACE express back 1500 c\n", PlaceError::NoEnd),
    (b"PLACE express back 1500 A\n", PlaceError::NoEnd),
    (b"PLACE express back 1500 a b\n", PlaceError::NoEnd),
];

// Lines that put a decoder on the programming track, each with its name; nothing for none.
const MOUNTS: [(&[u8], &[u8]); 4] = [
    (b"MOUNT shunter\r\n", b"shunter"),
    (b"MOUNT\t express \n", b"express"),
    (b"MOUNT nothing\n", b""),
    (b"MOUNT Nothing\n", b"Nothing"),
];

// Lines that do not name one.
const NO_MOUNTS: [&[u8]; 3] = [b"MOUNT\n", b"MOUNT \n", b"MOUNT shunter express\n"];

// Lines that let something fail.
const FAILURES: [(&[u8], Result<Option<Failure>, FailError>); 16] = [
    (b"FAIL programming\r\n", Ok(Some(Failure::Programming))),
    (b"FAIL  none \n", Ok(None)),
    (b"FAIL\n", Err(FailError::UnknownFailure)),
    (b"FAIL sensor\n", Err(FailError::UnknownFailure)),
    (b"FAIL None\n", Err(FailError::UnknownFailure)),
    (b"FAIL programming none\n", Err(FailError::UnknownFailure)),
    (
        b"FAIL sensor 3 on\n",
        Ok(Some(Failure::Sensor {
            sensor: 3,
            occupied: true,
        })),
    ),
    (
        b"FAIL  sensor 65535 off \r\n",
        Ok(Some(Failure::Sensor {
            sensor: 65535,
            occupied: false,
        })),
    ),
    (b"FAIL sensor 65536 on\n", Err(FailError::UnknownSensor)),
    (b"FAIL sensor x off\n", Err(FailError::UnknownSensor)),
    (b"FAIL sensor x On\n", Err(FailError::UnknownFailure)),
    (b"FAIL sensor 3 on off\n", Err(FailError::UnknownFailure)),
    (b"FAIL turnout 3 on\n", Err(FailError::UnknownFailure)),
    (
        b"FAIL turnout 2040\n",
        Ok(Some(Failure::Turnout { switch: 2040 })),
    ),
    (b"FAIL turnout 65536\n", Err(FailError::UnknownTurnout)),
    (b"FAIL Turnout 2\n", Err(FailError::UnknownFailure)),
];

// Texts without a request. The line of the last has not ended.
const IDLE: [&[u8]; 20] = [
    b"CVS 1\n",
    b"MOUNTX shunter\n",
    b"fail none\n",
    b"PLACEX express back 1500\n",
    b"place express back 1500\n",
    b"NODES 1\n",
    b"NODES \n",
    b" NODES\n",
    b"NODESX\n",
    b"nodes\n",
    b"TURNS1\n",
    b"turns 1\n",
    b"SENDX 83 7C\n",
    b"SEND83 7C\n",
    b"send 83 7C\n",
    b" SEND 83 7C\n",
    b"SEN\nD 83 7C\n",
    b"RECEIVE 83 7C\r\n",
    b"\r\n\n\r",
    b"SEND 83 7C",
];

// The request in a text of at most one, read byte by byte.
fn request_in(rt: &impl Abort, reader: &mut RequestReader, text: &[u8]) -> Option<Request> {
    let mut found = None;
    for byte in text {
        if let Some(request) = reader.push(*byte) {
            assert!(rt; found.is_none(), "twice in {text:?}");
            found = Some(request);
        }
    }
    found
}

// The request in a text of at most one, by a new reader.
fn request_of(rt: &impl Abort, text: &[u8]) -> Option<Request> {
    request_in(rt, &mut RequestReader::default(), text)
}

#[test]
fn reads_lines(rt: HostRuntime) {
    for (text, bytes) in SENT {
        let sends = match request_of(&rt, text) {
            Some(Request::Send(message)) => message.bytes() == bytes,
            _ => false,
        };
        assert!(rt; sends, "{text:?}");
    }
    for (text, reason) in INVALID {
        let request = request_of(&rt, text);
        assert!(rt;
            matches!(request, Some(Request::Invalid(found)) if found == reason),
            "{text:?}"
        );
    }
    for (text, count) in TURNS {
        let request = request_of(&rt, text);
        assert!(rt;
            matches!(request, Some(Request::Turns(found)) if found == count),
            "{text:?}"
        );
    }
    for (text, things) in STATES {
        let request = request_of(&rt, text);
        assert!(rt;
            matches!(request, Some(Request::States(found)) if found == things),
            "{text:?}"
        );
    }
    for text in IDLE {
        assert!(rt; request_of(&rt, text).is_none(), "{text:?}");
    }
}

#[test]
fn reads_places(rt: HostRuntime) -> Result<(), Fail> {
    for (text, train, block, front, facing) in PLACES {
        let Some(Request::Place(Ok(placement))) = request_in(&rt, &mut RequestReader::new(), text)
        else {
            panic!(rt; "{text:?}");
        };
        assert_eq!(rt; placement.train.as_slice(), train, "{text:?}");
        assert_eq!(rt; placement.block.as_slice(), block, "{text:?}");
        assert_eq!(rt; placement.front, front, "{text:?}");
        assert_eq!(rt; placement.facing, facing, "{text:?}");
    }
    for (text, error) in NO_PLACES {
        let request = request_of(&rt, text);
        assert!(rt;
            matches!(request, Some(Request::Place(Err(found))) if found == error),
            "{text:?}"
        );
    }
    Ok(())
}

#[test]
fn reads_mounts(rt: HostRuntime) {
    for (text, name) in MOUNTS {
        let mounts = match request_of(&rt, text) {
            Some(Request::Device(DeviceRequest::Mount(Ok(Some(word))))) => word.as_slice() == name,
            Some(Request::Device(DeviceRequest::Mount(Ok(None)))) => name.is_empty(),
            _ => false,
        };
        assert!(rt; mounts, "{text:?}");
    }
    for text in NO_MOUNTS {
        let is_refused = match request_of(&rt, text) {
            Some(Request::Device(DeviceRequest::Mount(Err(error)))) => error == MountError::NoName,
            _ => false,
        };
        assert!(rt; is_refused, "{text:?}");
    }
}

#[test]
fn reads_failures(rt: HostRuntime) {
    for (text, failure) in FAILURES {
        let fails = match request_of(&rt, text) {
            Some(Request::Device(DeviceRequest::Fail(found))) => found == failure,
            _ => false,
        };
        assert!(rt; fails, "{text:?}");
    }
}

// The request of `SEND`, `blanks` blanks and `83 7C`, which are nine further characters.
fn request_behind(rt: &impl Abort, reader: &mut RequestReader, blanks: u32) -> Option<Request> {
    assert!(rt; request_in(rt, reader, b"SEND").is_none());
    for _ in 0..blanks {
        assert!(rt; reader.push(b' ').is_none());
    }
    request_in(rt, reader, b"83 7C\n")
}

// The request of a line of this start and 500 further characters.
fn request_of_long(
    rt: &impl Abort,
    reader: &mut RequestReader,
    start: &[u8],
    further: u8,
) -> Option<Request> {
    assert!(rt; request_in(rt, reader, start).is_none());
    for _ in 0..500 {
        assert!(rt; reader.push(further).is_none());
    }
    reader.push(b'\n')
}

#[test]
fn refuses_long_lines(rt: HostRuntime) {
    let mut reader = RequestReader::new();
    let rows = [(391, true), (392, false), (99_991, false), (1, true)];
    for (blanks, sends) in rows {
        let is_sent = match request_behind(&rt, &mut reader, blanks) {
            Some(Request::Send(message)) => Some(message.bytes() == POWER_ON.as_slice()),
            Some(Request::Invalid(Reason::TooLong)) => Some(false),
            _ => None,
        };
        assert!(rt; is_sent == Some(sends), "{blanks}");
    }
    // A long line that requests turns.
    let request = request_of_long(&rt, &mut reader, b"TURNS ", b'1');
    assert!(rt; matches!(&request, Some(Request::Turns(None))));
    // A long line that puts a train.
    let request = request_of_long(&rt, &mut reader, b"PLACE e b 1", b' ');
    assert!(rt; matches!(&request, Some(Request::Place(Err(PlaceError::TooLong)))));
    // Long lines that arrange the programming track.
    let request = request_of_long(&rt, &mut reader, b"MOUNT shunter", b' ');
    assert!(rt;
        matches!(
            &request,
            Some(Request::Device(DeviceRequest::Mount(Err(MountError::NoName))))
        )
    );
    let request = request_of_long(&rt, &mut reader, b"FAIL none", b' ');
    assert!(rt;
        matches!(
            &request,
            Some(Request::Device(DeviceRequest::Fail(Err(FailError::UnknownFailure))))
        )
    );
    // A long line that begins with none of the words.
    assert!(rt; request_of_long(&rt, &mut reader, b"", b'S').is_none());
}

#[test]
fn writes_exact_lines(rt: HostRuntime) -> Result<(), Fail> {
    let mut text = Text::new();
    push_receive(
        &mut text,
        &Msg::whole(&[0xBF, 0x00, 0x03, 0x43]).ok_or("a message")?,
    );
    assert_eq!(rt; text.as_slice(), b"RECEIVE BF 00 03 43\r\n".as_slice());
    let mut text = Text::new();
    push_version(&mut text);
    push_server_full(&mut text);
    push_sent_ok(&mut text);
    push_sent_error(&mut text, Reason::TooLong);
    push_sent_error(&mut text, Reason::NotHex);
    push_sent_error(&mut text, Reason::NoMessage);
    push_sent_error(&mut text, Reason::WrongCheck);
    push_turns(&mut text, &Ok(1));
    push_turns_ok(&mut text);
    push_turns(&mut text, &Err(TurnsError::RealTime));
    push_turns(&mut text, &Err(TurnsError::NoNumber));
    push_place(&mut text, &Ok(()));
    push_place(&mut text, &Err(PlaceError::NoPlan));
    push_place(&mut text, &Err(PlaceError::TooLong));
    push_place(&mut text, &Err(PlaceError::NoNumber));
    push_place(&mut text, &Err(PlaceError::NoEnd));
    push_place(&mut text, &Err(PlaceError::UnknownTrain));
    push_place(&mut text, &Err(PlaceError::UnknownBlock));
    push_place(&mut text, &Err(PlaceError::OffTrack));
    let wanted =
        b"VERSION lbserver station\r\nERROR no place\r\nSENT OK\r\nSENT ERROR line too long\r\nSENT ERROR no pairs of hexadecimal digits\r\nSENT ERROR no whole message\r\nSENT ERROR wrong check byte\r\nTURNS OK\r\nTURNS ERROR real time\r\nTURNS ERROR no number from 1 to 10000\r\nPLACE OK\r\nPLACE ERROR no plan\r\nPLACE ERROR line too long\r\nPLACE ERROR no number of millimetres\r\nPLACE ERROR no end a or b\r\nPLACE ERROR no such train\r\nPLACE ERROR no such block\r\nPLACE ERROR the train does not fit there\r\n";
    assert_eq!(rt; text.as_slice(), wanted.as_slice());
    Ok(())
}

#[test]
fn writes_exact_lines_of_the_programming_track(rt: HostRuntime) {
    let mut text = Text::new();
    push_device(&mut text, DeviceAnswer::Mount(Ok(())));
    push_device(&mut text, DeviceAnswer::Mount(Err(MountError::NoTrack)));
    push_device(&mut text, DeviceAnswer::Mount(Err(MountError::NoName)));
    push_device(
        &mut text,
        DeviceAnswer::Mount(Err(MountError::UnknownDecoder)),
    );
    push_device(&mut text, DeviceAnswer::Fail(Ok(())));
    push_device(
        &mut text,
        DeviceAnswer::Fail(Err(FailError::UnknownFailure)),
    );
    push_device(&mut text, DeviceAnswer::Fail(Err(FailError::NoTrack)));
    push_device(&mut text, DeviceAnswer::Fail(Err(FailError::NoPlan)));
    push_device(&mut text, DeviceAnswer::Fail(Err(FailError::UnknownSensor)));
    push_device(
        &mut text,
        DeviceAnswer::Fail(Err(FailError::UnknownTurnout)),
    );
    push_states_ok(&mut text, Things::Variables);
    let wanted =
        b"MOUNT OK\r\nMOUNT ERROR no programming track\r\nMOUNT ERROR no name of a decoder\r\nMOUNT ERROR no such decoder\r\nFAIL OK\r\nFAIL ERROR no such failure\r\nFAIL ERROR no programming track\r\nFAIL ERROR no plan\r\nFAIL ERROR no such sensor\r\nFAIL ERROR no such turnout\r\nCVS OK\r\n";
    assert_eq!(rt; text.as_slice(), wanted.as_slice());
    let mut text = Text::new();
    push_change(&mut text, b"shunter", 29, 6);
    push_change(&mut text, b"0123456789abcdef", 1024, 255);
    let wanted = b"CV shunter [29, 6]\r\nCV 0123456789abcdef [1024, 255]\r\n";
    assert_eq!(rt; text.as_slice(), wanted.as_slice());
}
