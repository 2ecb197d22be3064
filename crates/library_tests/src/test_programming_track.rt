//! Tasks of the programming track, worked out by hand from the packets of S-9.2.3 and the messages of
//! LocoNet Personal Use Edition 1.0.

use cv_memory::CvMemory;
use dcc_packet::Address;
use decoder_cv::{CvPair, CvSet};
use describe::service_words;
use ln_frame::Msg;
use programmer::{Status, TaskReply, TaskResult};
use programming_track::{PacketEnds, ProgrammingBench, ProgrammingTrack};
use service_mode::{Instruction, ServicePacket, read};
use std::alloc::Global;
use std::test::Fail;

/// Read CV1.
const READ_CV1: [u8; 14] = [
    0xEF, 0x0E, 0x7C, 0x2B, 0x00, 0x00, 0x00, 0x00, 0x00, 0x00, 0x00, 0x00, 0x00, 0x49,
];

/// CV1 is 3.
const CV1_IS_3: [u8; 14] = [
    0xE7, 0x0E, 0x7C, 0x2B, 0x00, 0x00, 0x00, 0x00, 0x00, 0x00, 0x03, 0x00, 0x00, 0x42,
];

/// Write 6 to CV29.
const WRITE_CV29: [u8; 14] = [
    0xEF, 0x0E, 0x7C, 0x6B, 0x00, 0x00, 0x00, 0x00, 0x00, 0x1C, 0x06, 0x00, 0x00, 0x13,
];

/// 6 is written to CV29.
const CV29_IS_6: [u8; 14] = [
    0xE7, 0x0E, 0x7C, 0x6B, 0x00, 0x00, 0x00, 0x00, 0x00, 0x1C, 0x06, 0x00, 0x00, 0x1B,
];

/// Read CV1 in paged mode.
const PAGED: [u8; 14] = [
    0xEF, 0x0E, 0x7C, 0x23, 0x00, 0x00, 0x00, 0x00, 0x00, 0x00, 0x00, 0x00, 0x00, 0x41,
];

/// Read register 1.
const REGISTER: [u8; 14] = [
    0xEF, 0x0E, 0x7C, 0x13, 0x00, 0x00, 0x00, 0x00, 0x00, 0x00, 0x00, 0x00, 0x00, 0x71,
];

/// Write 0 to CV1 of locomotive 3 on the main track.
const ON_THE_MAIN_TRACK: [u8; 14] = [
    0xEF, 0x0E, 0x7C, 0x67, 0x00, 0x00, 0x03, 0x00, 0x00, 0x00, 0x00, 0x00, 0x00, 0x06,
];

/// End the task.
const ABORT: [u8; 14] = [
    0xEF, 0x0E, 0x7C, 0x00, 0x00, 0x00, 0x00, 0x00, 0x00, 0x00, 0x00, 0x00, 0x00, 0x62,
];

/// The read of CV1 is ended by a client.
const ABORTED: [u8; 14] = [
    0xE7, 0x0E, 0x7C, 0x2B, 0x08, 0x00, 0x00, 0x00, 0x00, 0x00, 0x00, 0x00, 0x00, 0x49,
];

/// The read of CV1 is under way, bit 3 of TRK.
const UNDER_WAY: [u8; 14] = [
    0xE7, 0x0E, 0x7C, 0x2B, 0x00, 0x00, 0x00, 0x08, 0x00, 0x00, 0x00, 0x00, 0x00, 0x49,
];

/// No task has been requested.
const NOTHING: [u8; 14] = [
    0xE7, 0x0E, 0x7C, 0x00, 0x00, 0x00, 0x00, 0x00, 0x00, 0x00, 0x00, 0x00, 0x00, 0x6A,
];

/// Read slot 124.
const READ_SLOT: [u8; 4] = [0xBB, 0x7C, 0x00, 0x38];

/// The instructions of a read of CV1 that finds 3, each as its packet.
const QUESTIONS: [[u8; 4]; 9] = [
    [0x78, 0x00, 0xEF, 0x97],
    [0x78, 0x00, 0xEE, 0x96],
    [0x78, 0x00, 0xED, 0x95],
    [0x78, 0x00, 0xEC, 0x94],
    [0x78, 0x00, 0xEB, 0x93],
    [0x78, 0x00, 0xEA, 0x92],
    [0x78, 0x00, 0xE9, 0x91],
    [0x78, 0x00, 0xE8, 0x90],
    [0x74, 0x00, 0x03, 0x77],
];

/// A decoder whose file lists CV1, 3.
fn decoder() -> CvMemory {
    CvMemory::of_list(&[CvPair {
        number: 1,
        value: 3,
    }])
}

fn message(bytes: &[u8]) -> Result<Msg, Fail> {
    Ok(Msg::whole(bytes).ok_or("a message")?)
}

/// Sends a message to the programmer, and returns its reply.
fn request(track: &mut ProgrammingTrack, bytes: &[u8]) -> Result<Msg, Fail> {
    let reply = track.request(&message(bytes)?).ok_or("a reply")?;
    Ok(reply.message())
}

/// Lets time elapse, in pieces. Returns the last result in it.
fn result_within(track: &mut ProgrammingTrack, micros: u32) -> Option<TaskResult> {
    let mut result = None;
    for _piece in 0..micros / 5_796 {
        result = last_result(&track.elapse(5_796)).or(result);
    }
    last_result(&track.elapse(micros % 5_796)).or(result)
}

fn last_result(ends: &PacketEnds) -> Option<TaskResult> {
    let mut result = None;
    for end in ends.as_slice() {
        result = end.result.or(result);
    }
    result
}

/// The packets that are sent in a time.
fn sent_within(
    alloc: Global,
    track: &mut ProgrammingTrack,
    micros: u32,
) -> Result<Vec<ServicePacket>, Fail> {
    let mut sent = Vec::new(alloc);
    for _piece in 0..micros / 5_796 {
        for end in track.elapse(5_796).as_slice() {
            sent.push(end.packet)?;
        }
    }
    for end in track.elapse(micros % 5_796).as_slice() {
        sent.push(end.packet)?;
    }
    Ok(sent)
}

#[test]
fn reads_cv1(rt: HostRuntime) -> Result<(), Fail> {
    let mut track = ProgrammingTrack::new(Some(decoder()));
    let reply = request(&mut track, &READ_CV1)?;
    assert_eq!(rt; reply.bytes(), [0xB4, 0x6F, 0x01, 0x25].as_slice());
    assert!(rt; result_within(&mut track, 1_019_615).is_none());
    let result = result_within(&mut track, 1).ok_or("a result")?;
    assert!(rt; result.status == Status::Done && result.value == 3);
    assert_eq!(rt;
        request(&mut track, &READ_SLOT)?.bytes(),
        CV1_IS_3.as_slice()
    );
    assert!(rt; result_within(&mut track, 10_000_000).is_none());
    Ok(())
}

#[test]
fn sends_the_packets_of_a_read(rt: HostRuntime) -> Result<(), Fail> {
    let mut track = ProgrammingTrack::new(Some(decoder()));
    let _accepted = request(&mut track, &READ_CV1)?;
    let sent = sent_within(rt.alloc(), &mut track, 1_100_000)?;
    assert_eq!(rt; sent.len(), 126);
    for (at, packet) in sent.iter().enumerate() {
        let bytes: &[u8] = match QUESTIONS.get(at / 14) {
            Some(question) if at % 14 >= 3 && at % 14 < 8 => question.as_slice(),
            _ => &[0, 0, 0],
        };
        assert!(rt; read(bytes) == Some(*packet), "packet {at}");
    }
    Ok(())
}

#[test]
fn writes_cv29(rt: HostRuntime) -> Result<(), Fail> {
    let mut track = ProgrammingTrack::new(Some(decoder()));
    let _accepted = request(&mut track, &WRITE_CV29)?;
    assert!(rt; result_within(&mut track, 112_823).is_none());
    assert!(rt; result_within(&mut track, 1).is_some());
    assert_eq!(rt;
        request(&mut track, &READ_SLOT)?.bytes(),
        CV29_IS_6.as_slice()
    );
    let decoder = track.mount(None).ok_or("a decoder")?;
    assert_eq!(rt; decoder.value(28), 6);
    assert_eq!(rt; decoder.next_change(0), Some(28));
    assert_eq!(rt; decoder.next_change(29), None);
    Ok(())
}

#[test]
fn write_of_cv29_is_this_packet(rt: HostRuntime) {
    let write = Instruction::WriteByte {
        address: 28,
        value: 6,
    };
    let bytes = [0x7C, 0x1C, 0x06, 0x66];
    assert!(rt; read(&bytes) == Some(ServicePacket::Direct(write)));
}

#[test]
fn replies_to_requests(rt: HostRuntime) -> Result<(), Fail> {
    let mut track = ProgrammingTrack::new(Some(decoder()));
    assert_eq!(rt;
        request(&mut track, &READ_SLOT)?.bytes(),
        NOTHING.as_slice()
    );
    for unknown in &[PAGED, REGISTER, ON_THE_MAIN_TRACK] {
        let reply = request(&mut track, unknown)?;
        assert_eq!(rt; reply.bytes(), [0xB4, 0x6F, 0x7F, 0x5B].as_slice());
    }
    let _accepted = request(&mut track, &READ_CV1)?;
    let reply = request(&mut track, &WRITE_CV29)?;
    assert_eq!(rt; reply.bytes(), [0xB4, 0x6F, 0x00, 0x24].as_slice());
    assert_eq!(rt;
        request(&mut track, &READ_SLOT)?.bytes(),
        UNDER_WAY.as_slice()
    );
    assert_eq!(rt; request(&mut track, &ABORT)?.bytes(), ABORTED.as_slice());
    let reply = request(&mut track, &WRITE_CV29)?;
    assert_eq!(rt; reply.bytes(), [0xB4, 0x6F, 0x01, 0x25].as_slice());
    let power_on = message(&[0x83, 0x7C])?;
    assert!(rt; track.request(&power_on).is_none());
    Ok(())
}

/// PCMD, CVL and DATA7 of tasks, and what they come to: CV17, CV8, CV7, and bits of CV29 and CV1.
const TASK_ROWS: [(u8, u8, u8, Status, u8); 7] = [
    (0x2B, 0x10, 0x00, Status::Done, 192),
    (0x6B, 0x07, 0x08, Status::Done, 8),
    (0x6B, 0x07, 0x09, Status::NoWriteAcknowledge, 9),
    (0x6B, 0x06, 0x08, Status::NoWriteAcknowledge, 8),
    (0x4B, 0x1C, 0x0F, Status::Done, 15),
    (0x0B, 0x00, 0x01, Status::Done, 9),
    (0x0B, 0x00, 0x02, Status::Done, 2),
];

#[test]
fn results_of_tasks(rt: HostRuntime) -> Result<(), Fail> {
    for &(command, low, data, status, value) in &TASK_ROWS {
        let mut track = ProgrammingTrack::new(Some(decoder()));
        let body = [0xEF, 0x0E, 0x7C, command, 0, 0, 0, 0, 0, low, data, 0, 0];
        let message = sealed(&body).ok_or("a message")?;
        assert!(rt; track.request(&message) == Some(TaskReply::Accepted));
        let result = result_within(&mut track, 1_100_000).ok_or("a result")?;
        assert!(rt;
            result.status == status && result.value == value,
            "{command} {low} {data}"
        );
    }
    Ok(())
}

/// The message of these bytes and their check.
fn sealed(body: &[u8; 13]) -> Option<Msg> {
    let check = body.iter().fold(0xFF, |sum, byte| sum ^ byte);
    let [a, b, c, d, e, f, g, h, i, j, k, l, m] = *body;
    Msg::whole(&[a, b, c, d, e, f, g, h, i, j, k, l, m, check])
}

#[test]
fn without_decoder_and_with_failures(rt: HostRuntime) -> Result<(), Fail> {
    let mut track = ProgrammingTrack::new(None);
    let _accepted = request(&mut track, &READ_CV1)?;
    let result = result_within(&mut track, 7_836).ok_or("a result")?;
    assert!(rt; result.status == Status::NoDecoder);
    assert!(rt; track.mount(Some(decoder())).is_none());
    track.fails = true;
    let _accepted = request(&mut track, &WRITE_CV29)?;
    let result = result_within(&mut track, 112_824).ok_or("a result")?;
    assert!(rt; result.status == Status::NoWriteAcknowledge);
    let _accepted = request(&mut track, &READ_CV1)?;
    let result = result_within(&mut track, 1_100_000).ok_or("a result")?;
    assert!(rt; result.status == Status::NoReadAcknowledge && result.value == 0);
    Ok(())
}

/// The message that reads CV n, 1 to 128, or writes a value below 128 to it.
fn task(n: u8, value: Option<u8>) -> Option<Msg> {
    let command = if value.is_some() { 0x6B } else { 0x2B };
    let low = n.checked_sub(1)?;
    let data = value.unwrap_or(0);
    sealed(&[
        0xEF,
        0x0E,
        0x7C,
        command,
        0,
        0,
        0,
        0,
        data / 128 * 2,
        low,
        data % 128,
        0,
        0,
    ])
}

/// Runs one task, and returns its value if it is done.
fn done(track: &mut ProgrammingTrack, n: u8, value: Option<u8>) -> Option<u8> {
    let _accepted = track.request(&task(n, value)?);
    let result = result_within(track, 1_440_936)?;
    if result.status == Status::Done {
        Some(result.value)
    } else {
        None
    }
}

/// A decoder of version 5 by manufacturer 13, with address 3.
const FILE: [CvPair; 4] = [
    CvPair {
        number: 29,
        value: 6,
    },
    CvPair {
        number: 1,
        value: 3,
    },
    CvPair {
        number: 7,
        value: 5,
    },
    CvPair {
        number: 8,
        value: 13,
    },
];

/// Layout software reads which decoder it is, and gives it a long address: 1234 is 4 * 256 + 210.
#[test]
fn long_address_is_written(rt: HostRuntime) -> Result<(), Fail> {
    let mut track = ProgrammingTrack::new(Some(CvMemory::of_list(&FILE)));
    for &(number, value) in &[(8, 13), (7, 5), (1, 3), (29, 6), (17, 192), (18, 0)] {
        assert!(rt;
            done(&mut track, number, None) == Some(value),
            "CV {number}"
        );
    }
    for &(number, value) in &[(17, 196), (18, 210), (29, 38)] {
        assert!(rt;
            done(&mut track, number, Some(value)) == Some(value),
            "CV {number}"
        );
    }
    let decoder = track.mount(None).ok_or("a decoder")?;
    let values = (
        decoder.value(0),
        decoder.value(16),
        decoder.value(17),
        decoder.value(28),
    );
    let settings = CvSet::new(values.0, values.1, values.2, values.3)?;
    assert!(rt; settings.address() == Address::Long(1234));
    Ok(())
}

/// CV29 of the second decoder has position 1024 + 28, and keeps its value off the track.
#[test]
fn decoders_change_places(rt: HostRuntime) -> Result<(), Fail> {
    let mut bench = ProgrammingBench::new(rt.alloc());
    bench.add("yard", CvMemory::of_list(&[]))?;
    bench.add("shunter", decoder())?;
    assert!(rt; bench.mount("shunter".as_bytes()));
    let write = message(&WRITE_CV29)?;
    let accepted = bench.request(&write).ok_or("a reply")?;
    assert!(rt; accepted == TaskReply::Accepted);
    // At most 15 packets of 11,436 microseconds.
    for _ in 0..20 {
        bench.elapse(10_740);
    }
    assert_eq!(rt; bench.next_change(0), Some(1052));
    assert!(rt; !bench.mount("express".as_bytes()));
    assert!(rt; bench.mount("yard".as_bytes()));
    bench.dismount();
    assert_eq!(rt; bench.next_change(0), Some(1052));
    assert_eq!(rt; bench.next_change(1053), None);
    assert_eq!(rt; bench.name(1052), "shunter");
    assert_eq!(rt; bench.number(1052), 29);
    assert_eq!(rt; bench.value(1052), 6);
    Ok(())
}

/// Packets, and their words.
const WORD_ROWS: [(&'static [u8], &'static [u8]); 10] = [
    (&[0x00, 0x00, 0x00], b"reset"),
    (
        &[0x78, 0x00, 0xEF, 0x97],
        b"verify that bit 7 of CV 1 is on",
    ),
    (&[0x78, 0x1C, 0xF5, 0x91], b"turn bit 5 of CV 29 off"),
    (&[0x74, 0x00, 0x03, 0x77], b"verify 3 in CV 1"),
    (&[0x7F, 0xFF, 0x06, 0x86], b"write 6 to CV 1024"),
    (&[0x7D, 0x01, 0x7C], b"write 1 to register 6"),
    (&[0x70, 0x03, 0x73], b"verify 3 in register 1"),
    (&[0xFF, 0x00, 0xFF], b"unknown form"),
    (&[0x74, 0x00, 0x03, 0x76], b"wrong check"),
    (&[0x74, 0x74], b"wrong length"),
];

#[test]
fn words_of_packets(rt: HostRuntime) {
    for &(bytes, words) in &WORD_ROWS {
        assert_eq!(rt; service_words(bytes).as_slice(), words);
    }
}
