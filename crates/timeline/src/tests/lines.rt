//! Lines and their drawing, worked out by hand: a turn is 1,000 pixels divided by all turns, from
//! 170 on.

use super::filter;
use std::test::Fail;
use test_support::run;

/// Whether one text is part of another.
fn has(text: &[u8], part: &[u8]) -> bool {
    for at in 0..text.len() {
        if text[at..].starts_with(part) {
            return true;
        }
    }
    false
}

/// Texts, and parts of the picture of each. The strip has its bases at 70, 88, 106, 124, 142 and
/// 160; the lane below it of a decoder that was sent no packets has its speed at 220, and then one
/// row each 16 pixels.
const MARKS: [(&'static [u8], &'static [u8]); 17] = [
    (b"", b"height=\"220\""),
    // Of four turns the second is 500 pixels along, and of three the second 666.
    (
        b"track 1 off\ntrack 2 FF 00 FF\ntrack 3 off\ntrack 4 off\n",
        b"d=\"M670 118m-1-1h2v2h-2z\"",
    ),
    (
        b"track 1 off\ntrack 2 FF 00 FF\ntrack 3 off\n",
        b"d=\"M836 118m-1-1h2v2h-2z\"",
    ),
    // Turns 2 and 3 are not printed: the first of four is 250 pixels along.
    (
        b"track 1 off\ntrack 4 FF 00 FF\n",
        b"d=\"M420 136m-3-3l6 6m0-6l-6 6\"",
    ),
    // Numbered anew, a turn follows at once.
    (
        b"track 7 off\ntrack 2 off\n",
        b"d=\"M670 136m-3-3l6 6m0-6l-6 6M1170 136m-3-3l6 6m0-6l-6 6\"",
    ),
    (
        b"track 1 off\nmessage 83 7C  track power on\ntrack 2 FF 00 FF\nreply 0 B4 3F 00 74\n",
        b">messages</text>\n<path stroke-width=\"0.3\" d=\"M170 160H1170\"/>\n<path stroke-width=\"1\" d=\"M670 154v-6M1170 154v-6\"/>",
    ),
    (b"track 1 03 3F C0 FC\n", b"d=\"M1170 64v-6\""),
    // Module 1, pair 0.
    (b"track 9 81 F9 78\n", b"d=\"M1170 82v6\""),
    (b"track 1 00 00 00\n", b"d=\"M1170 100m0-6v12\""),
    (b"track 1 off\n", b"d=\"M1170 136m-3-3l6 6m0-6l-6 6\""),
    // The speed: step 63 of 126 is half of 48.
    (
        b"node s short 3 step 63 of 128 forward F 0000000000000\n",
        b">s speed</text>\n<path stroke-width=\"0.3\" d=\"M170 220H1170\"/>\n<path stroke-width=\"0.3\" stroke-dasharray=\"1 3\" d=\"M170 172H1170M170 196H1170\"/>\n<text font-size=\"8\" x=\"1174\" y=\"175\">100%</text>\n<text font-size=\"8\" x=\"1174\" y=\"199\">50%</text>\n<path stroke-width=\"2\" d=\"M170 196h1\"/>",
    ),
    (
        b"node s long 128 step 14 of 14 forward F 0000000000000\n",
        b"d=\"M170 172h1\"",
    ),
    (
        b"node s long 128 step 7 of 28 forward F 0000000000000\ntrack 1 C0 80 3F C0 BF\n",
        b">s packets, long 128</text>",
    ),
    // It is stopped for two turns, and is in reverse after the second.
    (
        b"node s short 3 stop forward F 0000000000000\ntrack 1 off\nnode s short 3 stop forward F 0000000000000\ntrack 2 off\nnode s short 3 emergency reverse F 0000000000000\n",
        b"d=\"M170 260h1H670V260H1170V268\"",
    ),
    (
        b"node s short 3 stop forward F 0010000000000\n",
        b">s F2</text>",
    ),
    (
        b"node yard module 510 outputs 00000001\n",
        b">yard output 7</text>",
    ),
    (
        b"track 1 81 F9 78\nnode yard module 1 outputs 00000001\n",
        b">yard packets, module 1</text>",
    ),
];

#[test]
fn marks_are_drawn(rt: HostRuntime) {
    for (text, part) in MARKS {
        let ran = run(&filter(), rt.alloc(), text);
        assert_eq!(rt; ran.status, 0);
        assert_eq!(rt; ran.faults.as_slice(), b"".as_slice());
        assert!(rt; has(ran.output.as_slice(), part));
    }
}

#[test]
fn what_is_never_on_has_no_row(rt: HostRuntime) {
    let ran = run(
        &filter(),
        rt.alloc(),
        b"node s short 3 stop forward F 0010000000000\nnode y module 1 outputs 00000000\n",
    );
    for part in [
        b">s F1<".as_slice(),
        b">y output".as_slice(),
        b">s emergency<".as_slice(),
        b">y speed<".as_slice(),
    ] {
        assert!(rt; !has(ran.output.as_slice(), part));
    }
}

#[test]
fn lines_with_a_fault_are_refused(rt: HostRuntime) -> Result<(), Fail> {
    let rows: [(&[u8], u32); 21] = [
        (b"log: 1,234 lines left out\n", 1),
        (b"track 1 FF 00 FE\n", 1),
        (b"node", 1),
        (b"node s", 1),
        (b"node s short 3 stop forward F 000000000000\n", 1),
        (b"node s short 3 stop forward F 00000000000000\n", 1),
        (b"node s short 3 stop forward F 0000000000002\n", 1),
        (b"node s short 3 stop forward  F 0000000000000\n", 1),
        (b"node s short 03 stop forward F 0000000000000\n", 1),
        (b"node s short 0 stop forward F 0000000000000\n", 1),
        (b"node s short 128 stop forward F 0000000000000\n", 1),
        (b"node s long 10240 stop forward F 0000000000000\n", 1),
        (b"node s short 3 step 0 of 128 forward F 0000000000000\n", 1),
        (
            b"node s short 3 step 127 of 128 forward F 0000000000000\n",
            1,
        ),
        (b"node s short 3 step 15 of 14 forward F 0000000000000\n", 1),
        (b"node s short 3 step 1 of 27 forward F 0000000000000\n", 1),
        (b"node s short 3 stop backward F 0000000000000\n", 1),
        (b"node a<b short 3 stop forward F 0000000000000\n", 1),
        (b"node s module 0 outputs 00000000\n", 1),
        (b"node s module 511 outputs 00000000\n", 1),
        (
            b"track 1 off\n\nnode s module 1 outputs 0000000\ntrack x\n",
            3,
        ),
    ];
    for (text, line) in rows {
        let ran = run(&filter(), rt.alloc(), text);
        let reported = format!(in rt.alloc(); "timeline: line {line}: bad line\n")?;
        assert!(rt; ran.is(5, b"", reported.as_str().as_bytes()));
    }
    Ok(())
}
