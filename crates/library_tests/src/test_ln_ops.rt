//! Replies, as the tables of LocoNet have them. Messages are read in the tests of `show_text`.

use ln_frame::Msg;
use ln_ops::*;
use std::process::Abort;
use std::test::Fail;

// Slot 2 in use at address 4, as a throttle writes it.
const SLOT_2: SlotFields = SlotFields {
    slot: 0x02,
    stat: 0x33,
    adr: 0x04,
    spd: 0x20,
    dirf: 0x10,
    trk: 0x07,
    ss2: 0x00,
    adr2: 0x00,
    snd: 0x05,
    id1: 0x00,
    id2: 0x00,
};

// The message has these bytes, and is read as a reply whose message has them too.
fn check_reply(rt: &impl Abort, message: &Msg, bytes: &[u8]) -> Result<(), Fail> {
    assert_eq!(rt; message.bytes(), bytes);
    let reply = read_reply(message).ok_or("no reply")?;
    assert_eq!(rt; to_msg(&reply).bytes(), bytes);
    Ok(())
}

#[test]
fn writes_and_reads_replies(rt: HostRuntime) -> Result<(), Fail> {
    let data = Reply::SlotData(SLOT_2);
    let bytes = [
        0xE7, 0x0E, 0x02, 0x33, 0x04, 0x20, 0x10, 0x07, 0x00, 0x00, 0x05, 0x00, 0x00, 0x11,
    ];
    check_reply(&rt, &to_msg(&data), &bytes)?;
    let accepted = Reply::LongAck {
        opc: 0x6F,
        ack: 0x7F,
    };
    check_reply(&rt, &to_msg(&accepted), &[0xB4, 0x6F, 0x7F, 0x5B])?;
    assert!(rt; read_reply(&Msg::sealed(&[0x83])).is_none());
    Ok(())
}
