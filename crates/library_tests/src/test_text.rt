//! Words, pairs of digits, line feeds, and numbers written out.

use text::*;

// Texts, each with the text before its first blank and the text after it.
const CUT: [(&[u8], &[u8], &[u8]); 7] = [
    (b"", b"", b""),
    (b"SEND", b"SEND", b""),
    (b"SEND ", b"SEND", b""),
    (b"SEND 83 7C", b"SEND", b"83 7C"),
    (b"A\tB C", b"A", b"B C"),
    (b" A", b"", b"A"),
    (b"A\r\nB", b"A\r\nB", b""),
];

// Words, each with the byte that it writes.
const PAIRS: [(&[u8], Option<u8>); 12] = [
    (b"00", Some(0)),
    (b"09", Some(9)),
    (b"7f", Some(127)),
    (b"7F", Some(127)),
    (b"a0", Some(160)),
    (b"Ff", Some(255)),
    (b"", None),
    (b"8", None),
    (b"083", None),
    (b"G0", None),
    (b"0:", None),
    (b"0@", None),
];

// Texts, each with the index of its first line feed.
const FEEDS: [(&[u8], Option<usize>); 5] = [
    (b"", None),
    (b"A\rB", None),
    (b"\n", Some(0)),
    (b"AB\r\nC\n", Some(3)),
    (b"0123456789ABCDEF0123456789ABCDEF0\n", Some(33)),
];

const NUMBERS: [(u64, &[u8]); 8] = [
    (0, b"0"),
    (9, b"9"),
    (10, b"10"),
    (1234, b"1234"),
    (10239, b"10239"),
    (65535, b"65535"),
    (4294967295, b"4294967295"),
    (18446744073709551615, b"18446744073709551615"),
];

#[test]
fn texts_are_cut_at_their_first_blank(rt: HostRuntime) {
    for (text, before, behind) in CUT {
        let (word, rest) = cut_piece(text);
        assert_eq!(rt; word, before, "{text:?}");
        assert_eq!(rt; rest, behind, "{text:?}");
    }
}

#[test]
fn two_digits_of_either_case_write_a_byte(rt: HostRuntime) {
    for (word, byte) in PAIRS {
        assert_eq!(rt; read_hex_pair(word), byte, "{word:?}");
    }
    assert_eq!(rt; read_hex_digits(b'5', b'a'), Some(90));
    assert_eq!(rt; read_hex_digits(b'5', b' '), None);
}

#[test]
fn the_first_line_feed_is_found(rt: HostRuntime) {
    for (text, at) in FEEDS {
        assert_eq!(rt; line_feed_at(text), at, "{text:?}");
    }
}

#[test]
fn numbers_are_written_in_decimal_digits(rt: HostRuntime) {
    for (n, digits) in NUMBERS {
        assert_eq!(rt; decimal_digits(n).as_slice(), digits, "{n}");
    }
}

#[test]
fn spaces_and_tabs_are_blanks(rt: HostRuntime) {
    for byte in 0..=255 {
        assert_eq!(rt; is_blank(byte), (byte == b' ' || byte == b'\t'), "{byte}");
    }
}
