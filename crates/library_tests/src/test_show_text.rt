//! Scripts, hex text and lines, in their formats.

use dcc_packet::{Module, Motion, Packet, Steps};
use decoder_cv::CvSet;
use decoder_node::{NodeSpec, Running};
use ln_frame::Msg;
use ln_ops::read_reply;
use show_text::*;
use std::alloc::Global;
use std::process::Abort;
use std::test::Fail;

#[test]
fn reads_each_command(rt: HostRuntime) -> Result<(), Fail> {
    let text =
        b"# a comment\r\nline 0 83 7C\r\n\n \t\nturn 2\nline  7\tfF \nturn 1000000 miss 63 0 63\nshow\n#";
    let commands = read_script(rt.alloc(), text, 8, 64).ok().ok_or("a script")?;
    let wanted = [
        Command::Byte {
            line: 0,
            byte: 0x83,
        },
        Command::Byte {
            line: 0,
            byte: 0x7C,
        },
        Command::Turns {
            count: 2,
            missed: 0,
        },
        Command::Byte {
            line: 7,
            byte: 0xFF,
        },
        Command::Turns {
            count: 1_000_000,
            missed: 0x8000_0000_0000_0001,
        },
        Command::Show,
    ];
    assert!(rt; commands.as_slice() == wanted.as_slice());
    Ok(())
}

// The fault of a script for eight lines and no nodes.
fn check_script(rt: &impl Abort, alloc: Global, text: &[u8], wanted: Option<ScriptFault>) {
    let fault = read_script(alloc, text, 8, 0).err();
    assert_eq!(rt; fault, wanted, "in {text:?}");
}

// Scripts of one line each with this fault, separated by a bar.
fn check_lines(rt: &impl Abort, alloc: Global, scripts: &[u8], why: ScriptFaultKind) {
    for text in scripts.split(|byte| *byte == b'|') {
        check_script(rt, alloc, text, Some(ScriptFault { why, line: 1 }));
    }
}

#[test]
fn refuses_a_script_by_its_first_fault(rt: HostRuntime) {
    let alloc = rt.alloc();
    check_lines(
        &rt,
        alloc,
        b"line|line 0|line 0 \t|lien 0 83|LINE 0 83|lines 0 83| # no comment|turn|turn 1 miss|turn 1 2|turn 1 missed 0|show now|show\r",
        ScriptFaultKind::BadWord,
    );
    check_lines(
        &rt,
        alloc,
        b"line 0 8|line 0 83 7G|line 0 837C|line 0 83\r",
        ScriptFaultKind::BadHex,
    );
    check_lines(
        &rt,
        alloc,
        b"line 12345678 83|line x|line -1 83|turn 0|turn 1000001|turn 0 2|turn 1 miss x",
        ScriptFaultKind::BadNumber,
    );
    check_lines(
        &rt,
        alloc,
        b"line 8|line 8 83|line 8 8",
        ScriptFaultKind::BadLine,
    );
    check_lines(
        &rt,
        alloc,
        b"turn 1 miss 0|turn 1 miss 0 x",
        ScriptFaultKind::BadNode,
    );
}

#[test]
fn tells_the_line_of_the_first_fault(rt: HostRuntime) {
    let rows: [(&[u8], ScriptFaultKind, u64); 2] = [
        (
            b"\n# one\nline 0 83\nline 8\nline",
            ScriptFaultKind::BadLine,
            4,
        ),
        (
            b"show\r\nturn 1\r\nturn 1 miss 0 0\r\n",
            ScriptFaultKind::BadNode,
            3,
        ),
    ];
    for (text, why, line) in rows {
        check_script(&rt, rt.alloc(), text, Some(ScriptFault { why, line }));
    }
}

fn check_hex(rt: &impl Abort, alloc: Global, text: &[u8], wanted: Option<HexFault>) {
    let fault = read_hex(alloc, text).err();
    assert_eq!(rt; fault, wanted, "in {text:?}");
}

#[test]
fn refuses_long_texts_before_all_else(rt: HostRuntime) -> Result<(), Fail> {
    let mut text = Vec::new(rt.alloc());
    for _ in 0..LONGEST_TEXT {
        text.push(b' ')?;
    }
    check_script(&rt, rt.alloc(), text.as_slice(), None);
    check_hex(&rt, rt.alloc(), text.as_slice(), None);
    text.push(b'?')?;
    let long = ScriptFault {
        why: ScriptFaultKind::TooLong,
        line: 0,
    };
    check_script(&rt, rt.alloc(), text.as_slice(), Some(long));
    let long = HexFault {
        why: HexWhy::TooLong,
        at: 0,
    };
    check_hex(&rt, rt.alloc(), text.as_slice(), Some(long));
    Ok(())
}

#[test]
fn reads_hex_text(rt: HostRuntime) -> Result<(), Fail> {
    let rows: [(&[u8], &[u8]); 4] = [
        (b"", &[]),
        (b" \r\n", &[]),
        (b"83 7c", &[0x83, 0x7C]),
        (
            b" BF\t00\r\n 03 \t 43\n0a Fd",
            &[0xBF, 0x00, 0x03, 0x43, 0x0A, 0xFD],
        ),
    ];
    for (text, wanted) in rows {
        let bytes = read_hex(rt.alloc(), text).ok().ok_or("hex text")?;
        assert_eq!(rt; bytes.as_slice(), wanted);
    }
    Ok(())
}

#[test]
fn refuses_hex_text_where_the_first_wrong_word_begins(rt: HostRuntime) {
    let rows: [(&[u8], u64); 6] = [
        (b"0", 0),
        (b"BF 0", 3),
        (b"\r\n BF  00\n0g 0", 10),
        (b"BF,00", 0),
        (b"83 7C7 7C", 3),
        (b"83 7C \x0C 00", 6),
    ];
    for (text, at) in rows {
        let wanted = HexFault {
            why: HexWhy::BadHex,
            at,
        };
        check_hex(&rt, rt.alloc(), text, Some(wanted));
    }
}

fn check_line(rt: &impl Abort, line: &Line, wanted: &str) {
    assert_eq!(rt; line.as_str(), wanted);
}

#[test]
fn prints_replies(rt: HostRuntime) -> Result<(), Fail> {
    let rows: [(u8, &[u8], &str); 2] = [
        (7, &[0xB4, 0x3F, 0x00], "reply 7 B4 3F 00 74"),
        (
            1,
            &[
                0xE7, 0x0E, 0x01, 0x23, 0x03, 0x00, 0x00, 0x06, 0x00, 0x00, 0x00, 0x00, 0x00,
            ],
            "reply 1 E7 0E 01 23 03 00 00 06 00 00 00 00 00 31",
        ),
    ];
    for (line, body, text) in rows {
        let reply = read_reply(&Msg::sealed(body)).ok_or("a reply")?;
        check_line(&rt, &reply_line(line, &reply), text);
    }
    Ok(())
}

#[test]
fn prints_turns(rt: HostRuntime) -> Result<(), Fail> {
    let rows: [(u64, &[u8], &str); 4] = [
        (1, &[0xFF, 0x00, 0xFF], "track 1 FF 00 FF"),
        (10, &[0x03, 0x3F, 0xC0, 0xFC], "track 10 03 3F C0 FC"),
        (
            1_000_000,
            &[0xC4, 0xD2, 0x3F, 0xC0, 0xE9],
            "track 1000000 C4 D2 3F C0 E9",
        ),
        (
            u64::MAX,
            &[0x01, 0x23, 0x45, 0x67, 0x89, 0xAB],
            "track 18446744073709551615 01 23 45 67 89 AB",
        ),
    ];
    for (turn, bytes, text) in rows {
        let packet = Packet::of(bytes).ok_or("a packet")?;
        check_line(&rt, &track_line(turn, &packet), text);
    }
    check_line(&rt, &off_line(0), "track 0 off");
    check_line(&rt, &off_line(4_294_967_296), "track 4294967296 off");
    Ok(())
}

fn step(of: Steps, n: u8) -> Motion {
    Motion::Step { of, n }
}

// How a decoder runs, its bytes of CV17, CV18 and CV29, and its line.
fn running() -> [(Motion, bool, u16, [u8; 3], &'static str); 5] {
    [
        (
            step(Steps::S128, 63),
            true,
            0,
            [192, 0, 2],
            "node a short 3 step 63 of 128 forward F 0000000000000",
        ),
        (
            step(Steps::S28, 28),
            false,
            1,
            [192, 0, 2],
            "node a short 3 step 28 of 28 reverse F 1000000000000",
        ),
        (
            step(Steps::S14, 1),
            true,
            0x106,
            [192, 0, 0],
            "node a short 3 step 1 of 14 forward F 0110000010000",
        ),
        (
            Motion::Stop,
            false,
            0x1FFF,
            [196, 210, 34],
            "node a long 1234 stop reverse F 1111111111111",
        ),
        (
            Motion::Emergency,
            true,
            0x220,
            [196, 210, 34],
            "node a long 1234 emergency forward F 0000010001000",
        ),
    ]
}

#[test]
fn prints_locomotives(rt: HostRuntime) -> Result<(), Fail> {
    for (motion, forward, functions, [cv17, cv18, cv29], text) in running() {
        let cv = CvSet::new(3, cv17, cv18, cv29).ok().ok_or("settings")?;
        let running = Running {
            motion,
            forward,
            functions,
        };
        let line = node_line("a", &NodeSpec::Loco(cv), Some(running), None);
        check_line(&rt, &line, text);
    }
    Ok(())
}

#[test]
fn prints_accessory_decoders(rt: HostRuntime) -> Result<(), Fail> {
    let rows = [
        (
            "yard",
            1,
            0b0000_0010,
            "node yard module 1 outputs 01000000",
        ),
        (
            "sixteen-letters_",
            510,
            0b1001_0000,
            "node sixteen-letters_ module 510 outputs 00001001",
        ),
    ];
    for (name, number, outputs, text) in rows {
        let spec = NodeSpec::Accessory(Module::new(number).ok_or("a module")?);
        check_line(&rt, &node_line(name, &spec, None, Some(outputs)), text);
    }
    Ok(())
}

// The bytes of messages without their check, and their lines, which say all that `ln_ops` reads.
const MESSAGES: [(&'static [u8], &'static str); 25] = [
    (&[0x82], "msg 82 7D power off"),
    (&[0x83], "msg 83 7C power on"),
    (&[0x85], "msg 85 7A force idle"),
    (&[0xA0, 0x01, 0x40], "msg A0 01 40 1E speed slot 1 spd 64"),
    (&[0xA1, 0x01, 0x20], "msg A1 01 20 7F dirf slot 1 dirf 32"),
    (&[0xA2, 0x01, 0x05], "msg A2 01 05 59 snd slot 1 snd 5"),
    (&[0xB0, 0x00, 0x30], "msg B0 00 30 7F switch 0 closed on"),
    (&[0xB0, 0x77, 0x1F], "msg B0 77 1F 27 switch 2039 thrown on"),
    (
        &[0xBD, 0x78, 0x6F],
        "msg BD 78 6F 55 switch-ack 2040 closed off",
    ),
    (&[0xB4, 0x3F, 0x00], "msg B4 3F 00 74 ack opc 63 code 0"),
    (&[0xB5, 0x01, 0x30], "msg B5 01 30 7B status slot 1 stat 48"),
    (&[0xBA, 0x01, 0x05], "msg BA 01 05 41 move 1 5"),
    (&[0xBB, 0x05, 0x00], "msg BB 05 00 41 read slot 5"),
    (&[0xBF, 0x4F, 0x7F], "msg BF 4F 7F 70 address 10239"),
    (
        &[
            0xE7, 0x0E, 0x02, 0x33, 0x04, 0x20, 0x10, 0x07, 0x00, 0x00, 0x05, 0x00, 0x00,
        ],
        "msg E7 0E 02 33 04 20 10 07 00 00 05 00 00 11 slot-data slot 2 stat 51 address 4 spd 32 dirf 16 trk 7 ss2 0 snd 5 ids 0 0",
    ),
    (
        &[
            0xEF, 0x0E, 0x02, 0x33, 0x04, 0x20, 0x10, 0x07, 0x03, 0x01, 0x05, 0x11, 0x12,
        ],
        "msg EF 0E 02 33 04 20 10 07 03 01 05 11 12 18 slot-write slot 2 stat 51 address 132 spd 32 dirf 16 trk 7 ss2 3 snd 5 ids 17 18",
    ),
    (
        &[0xED, 0x0B, 0x7F, 0x23, 0x22, 0x03, 0x21, 0x00, 0x00, 0x00],
        "msg ED 0B 7F 23 22 03 21 00 00 00 45 imm 2 03 A1 00 00 00",
    ),
    (
        &[0xED, 0x0B, 0x7F, 0x33, 0x27, 0x44, 0x52, 0x21, 0x00, 0x00],
        "msg ED 0B 7F 33 27 44 52 21 00 00 45 imm 3 C4 D2 A1 00 00",
    ),
    // No packet: a short message, a longer one, and one with another byte after its count.
    (&[0xED, 0x03], "msg ED 03 11 other"),
    (
        &[
            0xED, 0x0C, 0x7F, 0x23, 0x22, 0x03, 0x21, 0x00, 0x00, 0x00, 0x00,
        ],
        "msg ED 0C 7F 23 22 03 21 00 00 00 00 42 other",
    ),
    (
        &[0xED, 0x0B, 0x7E, 0x23, 0x22, 0x03, 0x21, 0x00, 0x00, 0x00],
        "msg ED 0B 7E 23 22 03 21 00 00 00 44 other",
    ),
    (&[0xE7, 0x04, 0x00], "msg E7 04 00 1C other"),
    (&[0x81], "msg 81 7E other"),
    (&[0xB1, 0x00, 0x00], "msg B1 00 00 4E other"),
    (
        &[0xD0, 0x00, 0x00, 0x00, 0x00],
        "msg D0 00 00 00 00 2F other",
    ),
];

fn check_message(rt: &impl Abort, body: &[u8], text: &str) {
    assert!(rt; Msg::is_body(body));
    check_line(rt, &message_line(&Msg::sealed(body)), text);
}

#[test]
fn prints_messages(rt: HostRuntime) {
    for (body, text) in MESSAGES {
        check_message(&rt, body, text);
    }
}
