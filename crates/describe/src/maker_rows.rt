//! Explanations of messages that makers added to LocoNet, as their devices are known to send them.
use crate::fields::Field::{Bit, Byte, LowFour, LowSeven, Top};
use crate::rows::Part::{Choice, Hex, Number, On, Text};
use crate::rows::Row;

/// The explanation of a whole message of a maker, by its bytes.
pub(crate) static MAKER_MESSAGES: [Row; 14] = [
    // F9 to F12 of a slot, in bits 0 to 3 (Intellibox)
    (
        &[(Byte(0), 0xA3)],
        &[
            (Number(Byte(1)), "slot "),
            (On(9, LowFour(2)), ": F9 to F12:"),
        ],
    ),
    // Bits 6 and 5 say what is reported (Digitrax)
    (
        &[(Byte(0), 0xD0)],
        &[(
            Choice(Top(1, 5)),
            "transponding: a locomotive left a section|\
                transponding: a locomotive came into a section|\
                report of a detector|\
                power manager: state of a section",
        )],
    ),
    // D4 20, the slot, a group of functions and their bits (Intellibox)
    (
        &[(Byte(0), 0xD4), (Byte(1), 0x20), (Byte(3), 8)],
        &[
            (Number(Byte(2)), "slot "),
            (On(13, LowSeven(4)), ": F13 to F19:"),
        ],
    ),
    (
        &[(Byte(0), 0xD4), (Byte(1), 0x20), (Byte(3), 9)],
        &[
            (Number(Byte(2)), "slot "),
            (On(21, LowSeven(4)), ": F21 to F27:"),
        ],
    ),
    (
        &[(Byte(0), 0xD4), (Byte(1), 0x20), (Byte(3), 5)],
        &[
            (Number(Byte(2)), "slot "),
            (Choice(Bit(4, 4)), ": F12 off|: F12 on"),
            (Choice(Bit(4, 5)), ", F20 off|, F20 on"),
            (Choice(Bit(4, 6)), ", F28 off|, F28 on"),
        ],
    ),
    (
        &[(Byte(0), 0xD4), (Byte(1), 0x20)],
        &[
            (Number(Byte(2)), "slot "),
            (Text, ": functions of another group"),
        ],
    ),
    // Receivers of Lissy, and other detectors
    (
        &[(Byte(0), 0xE4), (Byte(1), 8)],
        &[(Text, "Lissy: report of a locomotive")],
    ),
    (
        &[(Byte(0), 0xE4)],
        &[(Text, "report of a detector, of another form")],
    ),
    // Variables of LocoNet modules (LNCV), 0F, three addresses and a command
    (
        &[(Byte(0), 0xE5), (Byte(1), 0x0F), (Byte(5), 0x1F)],
        &[(Text, "LNCV: a module tells a variable")],
    ),
    (
        &[(Byte(0), 0xED), (Byte(1), 0x0F), (Byte(5), 0x21)],
        &[(Text, "LNCV: read a variable of a module")],
    ),
    (
        &[(Byte(0), 0xED), (Byte(1), 0x0F), (Byte(5), 0x20)],
        &[(Text, "LNCV: write a variable of a module")],
    ),
    (
        &[(Byte(0), 0xED), (Byte(1), 0x0F)],
        &[(Text, "message to a module, of another form")],
    ),
    (
        &[(Byte(0), 0xE5)],
        &[(Text, "peer transfer of another length")],
    ),
    (&[], &[(Hex(Byte(0)), "unknown opcode ")]),
];
