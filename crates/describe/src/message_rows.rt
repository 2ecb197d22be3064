//! Explanations of messages that the station ignores, or that hold more than their operation
//! (LocoNet Personal Use Edition 1.0).
use crate::fields::Field::{
    Acknowledged, Bit, Byte, ClockHour, ClockMinute, LightAndFour, LowFour, LowTwo, MainTask,
    PeerByte, PeerDestination, Sensor, Switch, Task, TaskAddress, TaskValue, TaskVariable,
};
use crate::rows::Part::{Choice, Hex, Number, On, Text};
use crate::rows::Row;

/// The mode of a programmer's task, by bits 2 to 5 of its command.
const TASK_MODES: &'static str = ", unknown mode|\
    , unknown mode|\
    , direct bit mode|\
    , unknown mode|\
    , register mode|\
    , unknown mode|\
    , unknown mode|\
    , unknown mode|\
    , paged mode|\
    , unknown mode|\
    , direct byte mode|\
    , unknown mode|\
    , register mode|\
    , unknown mode|\
    , unknown mode|\
    , unknown mode";

/// The mode of one on the main track.
const MAIN_MODES: &'static str = ", bit on the main track|\
    , bit on the main track, with feedback|\
    , byte on the main track|\
    , byte on the main track, with feedback";

/// The explanation of OPC_LONG_ACK: byte 1 is the opcode that it answers, without bit 7, and byte 2
/// a code.
pub(crate) static LONG_ACKS: [Row; 22] = [
    (
        &[(Byte(1), 0x3F), (Byte(2), 0)],
        &[(Text, "no free slot for the locomotive")],
    ),
    (
        &[(Byte(1), 0x3A), (Byte(2), 0)],
        &[(Text, "move of slots refused")],
    ),
    (
        &[(Byte(1), 0x39), (Byte(2), 0)],
        &[(Text, "link of slots refused")],
    ),
    (
        &[(Byte(1), 0x30), (Byte(2), 0)],
        &[(Text, "turnout refused")],
    ),
    (
        &[(Byte(1), 0x3D), (Byte(2), 0)],
        &[(Text, "turnout refused")],
    ),
    (
        &[(Byte(1), 0x3D), (Byte(2), 0x7F)],
        &[(Text, "turnout accepted")],
    ),
    (
        &[(Byte(1), 0x3C)],
        &[
            (Text, "state of the turnout: "),
            (Choice(Bit(2, 5)), "thrown|closed"),
        ],
    ),
    (
        &[(Byte(1), 0x6F), (Byte(2), 0x7F)],
        &[(Text, "slot data accepted, or programmer: task not known")],
    ),
    (
        &[(Byte(1), 0x6F), (Byte(2), 0)],
        &[(Text, "slot data refused, or programmer busy")],
    ),
    (
        &[(Byte(1), 0x6F), (Byte(2), 1)],
        &[(Text, "programmer: task accepted")],
    ),
    (
        &[(Byte(1), 0x6F), (Byte(2), 0x40)],
        &[(Text, "programmer: task accepted, no result follows")],
    ),
    // the standard prints the opcodes of a slot write and of a packet with all seven bits set but
    // one, or none
    (
        &[(Byte(1), 0x7F), (Byte(2), 0x7F)],
        &[(Text, "programmer: task not known")],
    ),
    (
        &[(Byte(1), 0x7F), (Byte(2), 0)],
        &[(Text, "programmer: busy")],
    ),
    (
        &[(Byte(1), 0x7F), (Byte(2), 1)],
        &[(Text, "programmer: task accepted")],
    ),
    (
        &[(Byte(1), 0x7F), (Byte(2), 0x40)],
        &[(Text, "programmer: task accepted, no result follows")],
    ),
    (
        &[(Byte(1), 0x6D), (Byte(2), 0x7F)],
        &[(Text, "packet for the track accepted")],
    ),
    (
        &[(Byte(1), 0x6D), (Byte(2), 0)],
        &[(Text, "packet for the track refused")],
    ),
    (
        &[(Byte(1), 0x7D), (Byte(2), 0x7F)],
        &[(Text, "packet for the track accepted")],
    ),
    (
        &[(Byte(1), 0x7D), (Byte(2), 0)],
        &[(Text, "packet for the track refused")],
    ),
    (
        &[(Byte(2), 0)],
        &[(Hex(Acknowledged), "message "), (Text, " refused")],
    ),
    (
        &[(Byte(2), 0x7F)],
        &[(Hex(Acknowledged), "message "), (Text, " accepted")],
    ),
    (
        &[],
        &[
            (Hex(Acknowledged), "message "),
            (Number(Byte(2)), " answered with "),
        ],
    ),
];

/// The explanation of OPC_SL_RD_DATA, of a slot that holds no locomotive.
pub(crate) static SLOT_READS: [Row; 8] = [
    // slot 0, whose TRK is that of the track
    (
        &[(Byte(1), 0x0E), (Byte(2), 0)],
        &[
            (Text, "slot 0"),
            (
                Choice(LowTwo(7)),
                "; track off|; track paused|; track off|; track on",
            ),
        ],
    ),
    // fast clock: bit 6 of CLK_CNTRL is 0 if its data is not valid
    (
        &[(Byte(1), 0x0E), (Byte(2), 0x7B), (Bit(10, 6), 0)],
        &[(Text, "fast clock: no valid time")],
    ),
    (
        &[(Byte(1), 0x0E), (Byte(2), 0x7B)],
        &[
            (Number(Byte(9)), "fast clock: day "),
            (Number(ClockHour), ", hour "),
            (Number(ClockMinute), ", minute "),
            (Number(Byte(3)), ", rate "),
            (Choice(Byte(3)), " (stopped)"),
        ],
    ),
    // its result: PSTAT is 0 if the task was done
    (
        &[(Byte(1), 0x0E), (Byte(2), 0x7C), (LowFour(4), 0)],
        &[
            (
                Choice(Bit(3, 6)),
                "programmer: read CV |programmer: wrote CV ",
            ),
            (Number(TaskVariable), ""),
            (Number(TaskValue), ", value "),
        ],
    ),
    (
        &[(Byte(1), 0x0E), (Byte(2), 0x7C)],
        &[
            (Number(TaskVariable), "programmer: CV "),
            (Choice(Bit(3, 6)), " not read| not written"),
            (Choice(Bit(4, 0)), "|, programming track empty"),
            (Choice(Bit(4, 1)), "|, no answer to a write"),
            (Choice(Bit(4, 2)), "|, no answer to a read"),
            (Choice(Bit(4, 3)), "|, ended by the user"),
        ],
    ),
    // options of the command station
    (
        &[(Byte(1), 0x0E), (Byte(2), 0x7F)],
        &[
            (Hex(Byte(3)), "options of the command station: "),
            (Hex(Byte(4)), " "),
            (Hex(Byte(5)), " "),
            (Hex(Byte(6)), " "),
            (Hex(Byte(8)), " "),
        ],
    ),
    // the other slots above 119
    (
        &[(Byte(1), 0x0E)],
        &[(Number(Byte(2)), "slot "), (Text, ", of the system")],
    ),
    (&[], &[(Text, "slot data of another length")]),
];

/// The explanation of OPC_WR_SL_DATA, to a slot that holds no locomotive.
pub(crate) static SLOT_WRITES: [Row; 10] = [
    (&[(Byte(1), 0x0E), (Byte(2), 0)], &[(Text, "write slot 0")]),
    (
        &[(Byte(1), 0x0E), (Byte(2), 0x7B)],
        &[
            (Number(Byte(9)), "set the fast clock: day "),
            (Number(ClockHour), ", hour "),
            (Number(ClockMinute), ", minute "),
            (Number(Byte(3)), ", rate "),
            (Choice(Byte(3)), " (stopped)"),
        ],
    ),
    // programmer: PCMD, of which 0 ends the task and bit 6 is 1 to write
    (
        &[(Byte(1), 0x0E), (Byte(2), 0x7C), (Byte(3), 0)],
        &[(Text, "programmer: end the task")],
    ),
    (
        &[
            (Byte(1), 0x0E),
            (Byte(2), 0x7C),
            (Bit(3, 2), 1),
            (Bit(3, 6), 1),
        ],
        &[
            (Number(TaskValue), "programmer: write "),
            (Number(TaskVariable), " to CV "),
            (Number(TaskAddress), " of locomotive "),
            (Choice(MainTask), MAIN_MODES),
        ],
    ),
    (
        &[(Byte(1), 0x0E), (Byte(2), 0x7C), (Bit(3, 2), 1)],
        &[
            (Number(TaskVariable), "programmer: read CV "),
            (Number(TaskAddress), " of locomotive "),
            (Choice(MainTask), MAIN_MODES),
        ],
    ),
    (
        &[(Byte(1), 0x0E), (Byte(2), 0x7C), (Bit(3, 6), 1)],
        &[
            (Number(TaskValue), "programmer: write "),
            (Number(TaskVariable), " to CV "),
            (Choice(Task), TASK_MODES),
        ],
    ),
    (
        &[(Byte(1), 0x0E), (Byte(2), 0x7C)],
        &[
            (Number(TaskVariable), "programmer: read CV "),
            (Choice(Task), TASK_MODES),
        ],
    ),
    (
        &[(Byte(1), 0x0E), (Byte(2), 0x7F)],
        &[
            (Hex(Byte(3)), "set the options of the command station: "),
            (Hex(Byte(4)), " "),
            (Hex(Byte(5)), " "),
            (Hex(Byte(6)), " "),
            (Hex(Byte(8)), " "),
        ],
    ),
    (
        &[(Byte(1), 0x0E)],
        &[(Number(Byte(2)), "write slot "), (Text, ", of the system")],
    ),
    (&[], &[(Text, "write slot data of another length")]),
];

/// The explanation of any other whole message.
pub(crate) static MESSAGES: [Row; 12] = [
    // OPC_BUSY
    (&[(Byte(0), 0x81)], &[(Text, "busy")]),
    // OPC_SW_REP: inputs where bit 6 of SN2 is 1, else outputs
    (
        &[(Byte(0), 0xB1), (Bit(2, 6), 1)],
        &[
            (Number(Switch), "turnout "),
            (Choice(Bit(2, 5)), ": aux input |: switch input "),
            (Choice(Bit(2, 4)), "low|high"),
        ],
    ),
    (
        &[(Byte(0), 0xB1)],
        &[
            (Number(Switch), "turnout "),
            (Choice(Bit(2, 5)), ": closed output off|: closed output on"),
            (Choice(Bit(2, 4)), ", thrown output off|, thrown output on"),
        ],
    ),
    // OPC_INPUT_REP
    (
        &[(Byte(0), 0xB2)],
        &[
            (Number(Sensor), "sensor "),
            (Choice(Bit(2, 4)), " low| high"),
        ],
    ),
    // OPC_CONSIST_FUNC
    (
        &[(Byte(0), 0xB6)],
        &[
            (Number(Byte(1)), "slot "),
            (On(0, LightAndFour(2)), ", in a consist: F0 to F4:"),
        ],
    ),
    // OPC_UNLINK_SLOTS, OPC_LINK_SLOTS
    (
        &[(Byte(0), 0xB8)],
        &[
            (Number(Byte(1)), "unlink slot "),
            (Number(Byte(2)), " from slot "),
        ],
    ),
    (
        &[(Byte(0), 0xB9)],
        &[
            (Number(Byte(1)), "link slot "),
            (Number(Byte(2)), " to slot "),
        ],
    ),
    // OPC_SW_STATE
    (
        &[(Byte(0), 0xBC)],
        &[(Number(Switch), "ask for the state of turnout ")],
    ),
    // OPC_PEER_XFER
    (
        &[(Byte(0), 0xE5), (Byte(1), 0x10)],
        &[
            (Number(Byte(2)), "from "),
            (Number(PeerDestination), " to "),
            (Hex(PeerByte(0)), ": "),
            (Hex(PeerByte(1)), " "),
            (Hex(PeerByte(2)), " "),
            (Hex(PeerByte(3)), " "),
            (Hex(PeerByte(4)), " "),
            (Hex(PeerByte(5)), " "),
            (Hex(PeerByte(6)), " "),
            (Hex(PeerByte(7)), " "),
        ],
    ),
    (
        &[(Byte(0), 0xE5)],
        &[(Text, "peer transfer of another length")],
    ),
    (
        &[(Byte(0), 0xED)],
        &[(Text, "packet for the track, of another form")],
    ),
    (&[], &[(Hex(Byte(0)), "unknown opcode ")]),
];
