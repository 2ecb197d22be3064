//! What the station answers.
ghost use Rattle.std.specs.Prelude.{◌≡◌, IfSome, Some};
ghost use Rattle.ln_ops.specs.Reply.{reply_bytes, IsSendable};
ghost use Rattle.ln_ops.specs.declared.reply.Reply.{Reply};

use crate::fields::SlotFields;
use crate::op::{OPC_LONG_ACK, OPC_SL_RD_DATA, SLOT_DATA_COUNT, read_fields};
use ln_frame::Msg;

/// What the station answers to a message.
#[derive(Clone, Copy)]
pub enum Reply {
    /// OPC_SL_RD_DATA, E7: what a slot holds.
    SlotData(SlotFields),
    /// OPC_LONG_ACK, B4: the opcode that is answered, with bit 7 clear, and a code; both below 128.
    LongAck { opc: u8, ack: u8 },
}

/// The message of a reply.
pub fn to_msg(reply: &Reply) -> Msg
    requires { IsSendable reply.now }
    ensures { result ≡ reply_bytes reply.now }
{
    match reply {
        Reply::SlotData(fields) => slot_data(fields),
        Reply::LongAck { opc, ack } => Msg::sealed(&[OPC_LONG_ACK, *opc, *ack]),
    }
}

fn slot_data(fields: &SlotFields) -> Msg
    ensures { result ≡ reply_bytes (Reply.SlotData fields.now) }
{
    Msg::sealed(&[
        OPC_SL_RD_DATA,
        SLOT_DATA_COUNT,
        fields.slot,
        fields.stat,
        fields.adr,
        fields.spd,
        fields.dirf,
        fields.trk,
        fields.ss2,
        fields.adr2,
        fields.snd,
        fields.id1,
        fields.id2,
    ])
}

/// The reply that a message is: `Some` exactly for OPC_SL_RD_DATA with count 0E and for OPC_LONG_ACK.
pub fn read_reply(message: &Msg) -> Option<Reply>
    ensures found { IfSome result (λ r. IsSendable r × (message.now ≡ reply_bytes r)) }
    ensures exact { (reply : Reply) → IsSendable reply → message.now ≡ reply_bytes reply
        → result ≡ Some reply }
{
    let bytes = message.bytes();
    match bytes[0] {
        OPC_LONG_ACK => Some(Reply::LongAck {
            opc: bytes[1],
            ack: bytes[2],
        }),
        OPC_SL_RD_DATA if bytes[1] == SLOT_DATA_COUNT => Some(Reply::SlotData(read_fields(bytes))),
        _ => None,
    }
}
