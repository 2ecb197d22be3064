//! Explanations of no bytes at all. Those of bytes are in `tests/process_checks`.

use describe::{Words, describe_packet, message_words};

#[test]
fn explains_nothing(rt: HostRuntime) {
    assert_eq!(rt; message_words(&[]).as_slice(), b"no opcode".as_slice());
    let mut words = Words::new();
    describe_packet(&mut words, &[]);
    assert_eq!(rt; words.as_slice(), b"wrong length".as_slice());
}
