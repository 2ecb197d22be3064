//! Fields of a message or a packet: numbers of one byte or of several.
ghost use Rattle.std.specs.Prelude.{◌≡◌, ◌<◌, ◌^◌, length, slice_index};
ghost use Rattle.describe.specs.Fields.{clock_of, decoder_of, joined_value, light_and_four, output_of, peer_byte, sensor_of, slot_value, switch_of, top_of, value_of, variable_of};

/// A number in the bytes of a message or a packet. Positions count from 0; bytes after the last
/// read as 0.
#[derive(Clone, Copy)]
pub(crate) enum Field {
    /// The number of bytes.
    Length,
    /// The byte at a position.
    Byte(u8),
    /// One bit, 0 to 7, of the byte at a position.
    Bit(u8, u8),
    /// The bits of the byte at a position, from this bit on, 0 to 7.
    Top(u8, u8),
    /// The low two bits of the byte at a position.
    LowTwo(u8),
    /// The low three bits of the byte at a position.
    LowThree(u8),
    /// The low four bits of the byte at a position.
    LowFour(u8),
    /// The low five bits of the byte at a position.
    LowFive(u8),
    /// The low seven bits of the byte at a position.
    LowSeven(u8),
    /// The opcode that a long acknowledge answers, of which it holds seven bits.
    Acknowledged,
    /// The number of a switch, counted from 1.
    Switch,
    /// The number of a sensor, counted from 1.
    Sensor,
    /// The functions F0 to F4 of DIRF at a position, F0 in bit 0.
    LightAndFour(u8),
    /// The destination of a peer transfer.
    PeerDestination,
    /// One of the eight bytes of a peer transfer, counted from 0.
    PeerByte(u8),
    /// The hour of the fast clock.
    ClockHour,
    /// The minute of the fast clock.
    ClockMinute,
    /// The operation of the programmer, bits 2 to 5 of PCMD.
    Task,
    /// Of a task on the main track: bit 0 is 1 with feedback, and bit 1 for a whole byte.
    MainTask,
    /// The number of the variable that the programmer reads or writes, counted from 1.
    TaskVariable,
    /// The variable's value.
    TaskValue,
    /// The address of the locomotive programmed on the main track.
    TaskAddress,
    /// The number, counted from 1, of the variable that a packet names by two bytes, the first at a
    /// position.
    Variable(u8),
    /// The step of 126 in seven bits of a byte, which count from 2.
    Step(u8),
    /// The number of a binary state, of two bytes.
    BinaryState,
    /// The number of an accessory decoder.
    Decoder,
    /// The number of the decoder's switch or signal, counted from 1 unless the decoder has number
    /// 0.
    Output,
}

/// Returns the byte at a position, or 0 after the last.
fn byte(bytes: &[u8], at: usize) -> u8
    ensures { result ≡ slice_index bytes.now at }
{
    match bytes.get(at) {
        Some(byte) => *byte,
        None => 0,
    }
}

/// Returns the bits of `byte` from bit `bit` on.
fn top_of(byte: u8, bit: u8) -> u8
    ensures { result ≡ top_of byte bit }
{
    byte >> (bit % 8)
}

/// Returns the number of a switch, counted from 1.
fn switch_of(bytes: &[u8]) -> u16
    ensures value { result ≡ switch_of bytes.now }
    ensures range { result < 2305 }
{
    u16::from(byte(bytes, 2) % 16) * 128 + u16::from(byte(bytes, 1)) + 1
}

/// Returns the number of a sensor, counted from 1.
fn sensor_of(bytes: &[u8]) -> u16
    ensures { result ≡ sensor_of bytes.now }
{
    2 * (switch_of(bytes) - 1) + u16::from(byte(bytes, 2) / 32 % 2) + 1
}

/// Returns the number of a variable, counted from 1.
fn variable_of(high: u8, low: u8) -> u16
    ensures { result ≡ variable_of high low }
{
    u16::from(high % 4) * 256 + u16::from(low) + 1
}

/// Returns the functions F0 to F4, F0 in bit 0.
pub(crate) fn light_and_four(dirf: u8) -> u16
    ensures { result ≡ light_and_four dirf }
{
    u16::from(dirf / 16 % 2 + 2 * (dirf % 16))
}

/// Returns one of the eight bytes of a peer transfer.
fn peer_byte(bytes: &[u8], number: u8) -> u16
    ensures { result ≡ peer_byte bytes.now number }
{
    let first = if number < 4 { 5 } else { 10 };
    let top = top_of(byte(bytes, first), number % 4) % 2;
    u16::from(top) * 128 + u16::from(byte(bytes, first + 1 + usize::from(number % 4)))
}

/// Returns the value of a byte of the clock: as far below 256 as its seven bits are below 128.
fn clock_of(byte: u8) -> u16
    ensures { result ≡ clock_of byte }
{
    (128 - u16::from(byte % 128)) % 128
}

/// Returns the number of an accessory decoder.
fn decoder_of(bytes: &[u8]) -> u16
    ensures value { result ≡ decoder_of bytes.now }
    ensures range { result < 512 }
{
    u16::from(byte(bytes, 0) % 64) + 64 * (7 - u16::from(byte(bytes, 1) / 16 % 8))
}

/// Returns the number of the decoder's switch or signal, counted from 1.
fn output_of(bytes: &[u8]) -> u16
    ensures { result ≡ output_of bytes.now }
{
    (4 * decoder_of(bytes) + u16::from(byte(bytes, 1) / 2 % 4) + 1).saturating_sub(4)
}

/// Returns the number in a field of slot data for the clock or the programmer.
fn slot_value(field: Field, bytes: &[u8]) -> u16
    ensures { result ≡ slot_value field bytes.now }
{
    match field {
        Field::ClockHour => clock_of(byte(bytes, 8)),
        Field::ClockMinute => clock_of(byte(bytes, 6)),
        Field::Task => u16::from(byte(bytes, 3) / 4 % 16),
        Field::MainTask => u16::from(byte(bytes, 3) / 8 % 2 + 2 * (byte(bytes, 3) / 32 % 2)),
        Field::TaskVariable => {
            let high = byte(bytes, 8);
            u16::from(high / 16 % 4) * 256
                + u16::from(high % 2) * 128
                + u16::from(byte(bytes, 9))
                + 1
        }
        Field::TaskValue => u16::from(byte(bytes, 8) / 2 % 2) * 128 + u16::from(byte(bytes, 10)),
        Field::TaskAddress => u16::from(byte(bytes, 5)) * 128 + u16::from(byte(bytes, 6)),
        _ => 0,
    }
}

/// Returns the number in a field of several bytes.
fn joined_value(field: Field, bytes: &[u8]) -> u16
    ensures { result ≡ joined_value field bytes.now }
{
    match field {
        Field::Acknowledged => u16::from(byte(bytes, 1)) + 128,
        Field::Switch => switch_of(bytes),
        Field::Sensor => sensor_of(bytes),
        Field::LightAndFour(at) => light_and_four(byte(bytes, usize::from(at))),
        Field::PeerDestination => u16::from(byte(bytes, 4)) * 128 + u16::from(byte(bytes, 3)),
        Field::PeerByte(number) => peer_byte(bytes, number),
        Field::Variable(at) => variable_of(
            byte(bytes, usize::from(at)),
            byte(bytes, usize::from(at) + 1),
        ),
        Field::Step(at) => u16::from((byte(bytes, usize::from(at)) % 128).saturating_sub(1)),
        Field::BinaryState => u16::from(byte(bytes, 1) % 128) + 128 * u16::from(byte(bytes, 2)),
        Field::Decoder => decoder_of(bytes),
        Field::Output => output_of(bytes),
        _ => slot_value(field, bytes),
    }
}

/// Returns the number in a field.
pub(crate) fn value_of(field: Field, bytes: &[u8]) -> u16
    requires { length bytes.now < 2 ^ 16 }
    ensures { result ≡ value_of field bytes.now }
{
    match field {
        Field::Length => bytes.len() as u16,
        Field::Byte(at) => u16::from(byte(bytes, usize::from(at))),
        Field::Bit(at, bit) => u16::from(top_of(byte(bytes, usize::from(at)), bit) % 2),
        Field::Top(at, bit) => u16::from(top_of(byte(bytes, usize::from(at)), bit)),
        Field::LowTwo(at) => u16::from(byte(bytes, usize::from(at)) % 4),
        Field::LowThree(at) => u16::from(byte(bytes, usize::from(at)) % 8),
        Field::LowFour(at) => u16::from(byte(bytes, usize::from(at)) % 16),
        Field::LowFive(at) => u16::from(byte(bytes, usize::from(at)) % 32),
        Field::LowSeven(at) => u16::from(byte(bytes, usize::from(at)) % 128),
        _ => joined_value(field, bytes),
    }
}
