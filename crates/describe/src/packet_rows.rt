//! Explanations of packets that no decoder of this project obeys (S-9.2.1).
//!
//! An instruction is explained by its bytes from the first after the address to the check, which
//! counts as one. Bits 7 to 5 of the first byte select the table.
use crate::fields::Field::{
    BinaryState, Bit, Byte, Decoder, Length, LightAndFour, LowFour, LowSeven, LowThree, Output,
    Step, Top, Variable,
};
use crate::rows::Part::{Choice, Number, On, Text};
use crate::rows::Row;

/// What an instruction of type 000 tells a decoder: decoder and consist control.
pub(crate) static CONTROLS: [Row; 10] = [
    // 2.3.1, decoder control: 0000CCCF
    (&[(Length, 2), (Byte(0), 0)], &[(Text, "decoder reset")]),
    (&[(Length, 2), (Byte(0), 1)], &[(Text, "hard reset")]),
    (&[(Top(0, 1), 1)], &[(Text, "factory test")]),
    (&[(Top(0, 1), 3)], &[(Text, "set decoder flags")]),
    (
        &[(Length, 2), (Top(0, 1), 5)],
        &[(Text, "long address "), (Choice(Bit(0, 0)), "off|on")],
    ),
    (&[(Length, 2), (Top(0, 1), 7)], &[(Text, "acknowledge")]),
    // 2.3.1, consist control: 0001CCCC 0AAAAAAA
    (
        &[(Length, 3), (Top(0, 1), 9), (Byte(1), 0)],
        &[(Text, "leave the consist")],
    ),
    (
        &[(Length, 3), (Top(0, 1), 9), (Bit(1, 7), 0)],
        &[
            (Number(LowSeven(1)), "join consist "),
            (Choice(Bit(0, 0)), ", normal direction|, reversed direction"),
        ],
    ),
    // the rest
    (
        &[(Top(0, 4), 0)],
        &[(Text, "unknown form of decoder control")],
    ),
    (&[], &[(Text, "unknown form of consist control")]),
];

/// What one of type 001 tells a decoder: advanced operations.
pub(crate) static ADVANCED_OPERATIONS: [Row; 7] = [
    // 2.3.2, 128 speed steps: 00111111 DSSSSSSS
    (
        &[(Length, 3), (Byte(0), 0x3F), (LowSeven(1), 0)],
        &[(Text, "stop"), (Choice(Bit(1, 7)), ", reverse|, forward")],
    ),
    (
        &[(Length, 3), (Byte(0), 0x3F), (LowSeven(1), 1)],
        &[
            (Text, "emergency stop"),
            (Choice(Bit(1, 7)), ", reverse|, forward"),
        ],
    ),
    (
        &[(Length, 3), (Byte(0), 0x3F)],
        &[
            (Number(Step(1)), "step "),
            (Text, " of 128"),
            (Choice(Bit(1, 7)), ", reverse|, forward"),
        ],
    ),
    // 2.3.2, restricted speed step: 00111110
    (
        &[(Length, 3), (Byte(0), 0x3E), (Bit(1, 7), 0)],
        &[(Number(LowSeven(1)), "speed restricted, number ")],
    ),
    (
        &[(Length, 3), (Byte(0), 0x3E)],
        &[(Text, "speed not restricted")],
    ),
    // 2.3.2, analog function group: 00111101
    (
        &[(Length, 4), (Byte(0), 0x3D)],
        &[
            (Number(Byte(1)), "analog function "),
            (Number(Byte(2)), " at "),
        ],
    ),
    (&[], &[(Text, "unknown form of advanced operation")]),
];

/// What one of types 010 to 101 tells a decoder: speed and direction, and function groups.
pub(crate) static SPEEDS_AND_FUNCTIONS: [Row; 5] = [
    // 2.3.3, speed and direction to all: 01DCSSSS; a locomotive's own and a stop are handled
    // elsewhere
    (
        &[(Length, 2), (Top(0, 6), 1)],
        &[
            (Number(LowFour(0)), "speed with 14 or 28 steps, number "),
            (Choice(Bit(0, 5)), ", reverse|, forward"),
        ],
    ),
    // 2.3.4 and 2.3.5, function groups to all: 100DDDDD, 1011DDDD, 1010DDDD
    (
        &[(Length, 2), (Top(0, 5), 4)],
        &[(On(0, LightAndFour(0)), "F0 to F4:")],
    ),
    (
        &[(Length, 2), (Top(0, 4), 11)],
        &[(On(5, LowFour(0)), "F5 to F8:")],
    ),
    (
        &[(Length, 2), (Top(0, 4), 10)],
        &[(On(9, LowFour(0)), "F9 to F12:")],
    ),
    (&[], &[(Text, "unknown form")]),
];

/// What one of type 110 tells a decoder: feature expansion.
pub(crate) static FEATURE_EXPANSIONS: [Row; 7] = [
    // 2.3.6, feature expansion: 110CCCCC
    (
        &[(Length, 3), (Byte(0), 0xDE)],
        &[(On(13, Byte(1)), "F13 to F20:")],
    ),
    (
        &[(Length, 3), (Byte(0), 0xDF)],
        &[(On(21, Byte(1)), "F21 to F28:")],
    ),
    (
        &[(Length, 3), (Byte(0), 0xDD), (LowSeven(1), 0)],
        &[(Text, "all binary states "), (Choice(Bit(1, 7)), "off|on")],
    ),
    (
        &[(Length, 3), (Byte(0), 0xDD)],
        &[
            (Number(LowSeven(1)), "binary state "),
            (Choice(Bit(1, 7)), " off| on"),
        ],
    ),
    (
        &[(Length, 4), (Byte(0), 0xC0), (BinaryState, 0)],
        &[(Text, "all binary states "), (Choice(Bit(1, 7)), "off|on")],
    ),
    (
        &[(Length, 4), (Byte(0), 0xC0)],
        &[
            (Number(BinaryState), "binary state "),
            (Choice(Bit(1, 7)), " off| on"),
        ],
    ),
    (&[], &[(Text, "unknown form of feature expansion")]),
];

/// What one of type 111 tells a decoder: access to configuration variables.
pub(crate) static VARIABLES: [Row; 7] = [
    // 2.3.7, configuration variables, long form: 1110CCVV VVVVVVVV DDDDDDDD
    (
        &[(Length, 4), (Top(0, 2), 57)],
        &[
            (Number(Variable(0)), "verify that CV "),
            (Number(Byte(2)), " is "),
        ],
    ),
    (
        &[(Length, 4), (Top(0, 2), 59)],
        &[
            (Number(Byte(2)), "write "),
            (Number(Variable(0)), " to CV "),
        ],
    ),
    (
        &[(Length, 4), (Top(0, 2), 58), (Top(2, 4), 14)],
        &[
            (Number(LowThree(2)), "verify that bit "),
            (Number(Variable(0)), " of CV "),
            (Number(Bit(2, 3)), " is "),
        ],
    ),
    (
        &[(Length, 4), (Top(0, 2), 58), (Top(2, 4), 15)],
        &[
            (Number(Bit(2, 3)), "write "),
            (Number(LowThree(2)), " to bit "),
            (Number(Variable(0)), " of CV "),
        ],
    ),
    // 2.3.7, short form: 1111CCCC DDDDDDDD
    (
        &[(Length, 3), (Byte(0), 0xF2)],
        &[(Number(Byte(1)), "write "), (Text, " to CV 23")],
    ),
    (
        &[(Length, 3), (Byte(0), 0xF3)],
        &[(Number(Byte(1)), "write "), (Text, " to CV 24")],
    ),
    (&[], &[(Text, "unknown form of variable access")]),
];

/// What a packet tells accessory decoders, by the whole packet.
pub(crate) static ACCESSORIES: [Row; 14] = [
    // 2.1: the first byte of an accessory decoder is 10AAAAAA
    (
        &[(Bit(0, 7), 1), (Bit(0, 6), 1)],
        &[(Number(Byte(0)), "unknown form: address ")],
    ),
    // 2.4.1, basic: 10AAAAAA 1AAACDDD; decoders 1 to 510 are handled elsewhere
    (
        &[(Length, 3), (Bit(1, 7), 1), (Decoder, 511)],
        &[
            (Number(LowThree(1)), "all accessory decoders: output "),
            (Choice(Bit(1, 3)), " off| on"),
        ],
    ),
    (
        &[(Length, 3), (Bit(1, 7), 1), (Decoder, 0)],
        &[
            (Number(LowThree(1)), "accessory decoder 0: output "),
            (Choice(Bit(1, 3)), " off| on"),
        ],
    ),
    // 2.4.2, extended: 10AAAAAA 0AAA0AA1 000XXXXX
    (
        &[
            (Length, 4),
            (Byte(0), 0xBF),
            (Byte(1), 0x07),
            (Top(2, 5), 0),
        ],
        &[(Number(Byte(2)), "all signals: aspect ")],
    ),
    (
        &[
            (Length, 4),
            (Bit(1, 7), 0),
            (Bit(1, 3), 0),
            (Bit(1, 0), 1),
            (Decoder, 0),
            (Top(2, 5), 0),
        ],
        &[(Number(Byte(2)), "signal decoder 0: aspect ")],
    ),
    (
        &[
            (Length, 4),
            (Bit(1, 7), 0),
            (Bit(1, 3), 0),
            (Bit(1, 0), 1),
            (Top(2, 5), 0),
        ],
        &[
            (Number(Output), "signal "),
            (Number(Byte(2)), ": aspect "),
            (Choice(Byte(2)), " (stop)"),
        ],
    ),
    // 2.4.4, configuration variables: basic 10AAAAAA 1AAACDDD, extended 10AAAAAA 0AAA0AA1, followed
    // by 1110CCVV VVVVVVVV DDDDDDDD
    (
        &[(Length, 6), (Bit(1, 7), 1), (Top(2, 2), 57)],
        &[
            (Number(Decoder), "accessory decoder "),
            (Number(Variable(2)), ": verify that CV "),
            (Number(Byte(4)), " is "),
        ],
    ),
    (
        &[(Length, 6), (Bit(1, 7), 1), (Top(2, 2), 59)],
        &[
            (Number(Decoder), "accessory decoder "),
            (Number(Byte(4)), ": write "),
            (Number(Variable(2)), " to CV "),
        ],
    ),
    (
        &[(Length, 6), (Bit(1, 7), 1), (Top(2, 2), 58)],
        &[
            (Number(Decoder), "accessory decoder "),
            (Number(Variable(2)), ": bit of CV "),
        ],
    ),
    (
        &[
            (Length, 6),
            (Bit(1, 7), 0),
            (Bit(1, 3), 0),
            (Bit(1, 0), 1),
            (Top(2, 2), 57),
        ],
        &[
            (Number(Output), "signal "),
            (Number(Variable(2)), ": verify that CV "),
            (Number(Byte(4)), " is "),
        ],
    ),
    (
        &[
            (Length, 6),
            (Bit(1, 7), 0),
            (Bit(1, 3), 0),
            (Bit(1, 0), 1),
            (Top(2, 2), 59),
        ],
        &[
            (Number(Output), "signal "),
            (Number(Byte(4)), ": write "),
            (Number(Variable(2)), " to CV "),
        ],
    ),
    (
        &[
            (Length, 6),
            (Bit(1, 7), 0),
            (Bit(1, 3), 0),
            (Bit(1, 0), 1),
            (Top(2, 2), 58),
        ],
        &[
            (Number(Output), "signal "),
            (Number(Variable(2)), ": bit of CV "),
        ],
    ),
    (
        &[(Bit(1, 7), 1)],
        &[
            (Number(Decoder), "accessory decoder "),
            (Text, ": unknown form"),
        ],
    ),
    (&[], &[(Text, "unknown form for signals")]),
];
