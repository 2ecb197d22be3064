//! The texts of marks and rows.
ghost use Rattle.std.specs.Prelude.{◌≡◌, ◌≤◌, ◌<◌, ◌^◌, ◌+◌, ◌-◌, None, OnOk, codes, length};
ghost use Rattle.std.specs.Io.KnownBytes.{Appends};
ghost use Rattle.timeline.specs.Picture.{address_name, base_line, framed, head_text, is_line, is_same, is_speed, joined_text, kind_name, label_open, module_name, marks_of, marks_text, moment_after, name_of, next_text, part_name, part_strokes, path_open, point_text, room_of, row_text, scale_at, scale_text, step_text, strokes_of, style_of, x_of};

use crate::event::Event;
use crate::levels::height_of;
use crate::mark::Mark;
use crate::moment::{Moment, START};
use crate::row::{Kind, Part, Row};
use dcc_packet::Address;
use std::io;
use std::io::Write;
use trace::{ReportedState, turns_since};

/// Returns the moment of an event, if `before` was the one before it.
pub(crate) fn moment_after(before: Moment, event: &Event) -> Moment
    requires { before.turn < 2 ^ 52 }
    ensures value { result ≡ moment_after before event.now }
    ensures most { result.turn ≤ before.turn + 16777216 }
{
    match event {
        Event::TurnBegan(turn) => Moment {
            turn: before.turn + turns_since(before.number, turn.number),
            number: turn.number,
        },
        Event::Shown(_) | Event::Message => before,
    }
}

/// Returns the distance of a turn from the left, in pixels.
pub(crate) fn x_of(turns: u64, turn: u64) -> u64
    requires { turn < 2 ^ 53 }
    ensures { result ≡ x_of turns turn }
{
    170 + turn * 1000 / turns.max(1)
}

fn is_line(row: &Row) -> bool
    ensures { result ≡ is_line row.now }
{
    match row {
        Row::Strip(_) => false,
        Row::Lane(_, kind) => match kind {
            Kind::Packets | Kind::Stops | Kind::Emergencies => false,
            Kind::Speed | Kind::Direction | Kind::Function(_) | Kind::Output(_) => true,
        },
    }
}

fn part_strokes(part: Part) -> &'static str
    ensures { result.now ≡ part_strokes part }
{
    match part {
        Part::Locomotives => "v-6",
        Part::Accessories => "v6",
        Part::Everyone => "m0-6v12",
        Part::Idle => "m-1-1h2v2h-2z",
        Part::Unpowered => "m-3-3l6 6m0-6l-6 6",
        Part::Messages => "v-6",
    }
}

/// The strokes of a mark that is not part of a line.
fn strokes_of(row: &Row) -> &'static str
    ensures { result.now ≡ strokes_of row.now }
{
    match row {
        Row::Strip(part) => part_strokes(*part),
        Row::Lane(_, kind) => match kind {
            Kind::Packets => "m0 6v-12",
            Kind::Stops => "v6",
            Kind::Emergencies => "m-3-3l6 6m0-6l-6 6",
            Kind::Speed | Kind::Direction | Kind::Function(_) | Kind::Output(_) => "",
        },
    }
}

fn write_joined<O: Write>(last: &Option<Mark>, x: u64, y: u64, output: &mut O) -> io::Result<()>
    ensures { OnOk result
        (Appends (O.contents output.old) (O.contents output.new) (joined_text last.now x y)) }
{
    match last {
        None => write!(output, "M{x} {y}h1"),
        Some(_) => write!(output, "H{x}V{y}"),
    }
}

fn is_same(last: &Option<Mark>, mark: Mark) -> bool
    ensures { result ≡ is_same last.now mark }
{
    match last {
        Some(last) => last.x == mark.x && last.height == mark.height,
        None => false,
    }
}

/// Writes a mark, unless it is the same as the last.
fn write_next<O: Write>(
    row: &Row,
    base: u64,
    last: &Option<Mark>,
    mark: Mark,
    output: &mut O,
) -> io::Result<()>
    requires { mark.height ≤ base }
    ensures { OnOk result
        (Appends (O.contents output.old) (O.contents output.new)
        (next_text row.now base last.now mark)) }
{
    if is_same(last, mark) {
        return Ok(());
    }
    let x = mark.x;
    let y = base - mark.height;
    if is_line(row) {
        return write_joined(last, x, y, output);
    }
    let strokes = strokes_of(row);
    write!(output, "M{x} {y}{strokes}")
}

fn part_name(part: Part) -> &'static str
    ensures { result.now ≡ part_name part }
{
    match part {
        Part::Locomotives => "to locomotives",
        Part::Accessories => "to accessories",
        Part::Everyone => "to all",
        Part::Idle => "idle",
        Part::Unpowered => "power off",
        Part::Messages => "messages",
    }
}

fn write_module<O: Write>(number: u16, output: &mut O) -> io::Result<()>
    ensures { OnOk result
        (Appends (O.contents output.old) (O.contents output.new) (module_name number)) }
{
    write!(output, "packets, module {number}")
}

fn write_address<O: Write>(reported_state: &ReportedState, output: &mut O) -> io::Result<()>
    ensures { OnOk result
        (Appends (O.contents output.old) (O.contents output.new)
        (address_name reported_state.now)) }
{
    match reported_state {
        ReportedState::Loco { address, .. } => match address {
            Address::Short(number) => write!(output, "packets, short {number}"),
            Address::Long(number) => write!(output, "packets, long {number}"),
        },
        ReportedState::Accessory { module, .. } => write_module(module.number(), output),
    }
}

fn write_kind<O: Write>(kind: Kind, state: &ReportedState, output: &mut O) -> io::Result<()>
    ensures { OnOk result
        (Appends (O.contents output.old) (O.contents output.new) (kind_name kind state.now)) }
{
    match kind {
        Kind::Packets => write_address(state, output),
        Kind::Speed => output.write_all(b"speed"),
        Kind::Stops => output.write_all(b"stop"),
        Kind::Emergencies => output.write_all(b"emergency"),
        Kind::Direction => output.write_all(b"forward is high"),
        Kind::Function(number) => write!(output, "F{number}"),
        Kind::Output(number) => write!(output, "output {number}"),
    }
}

fn write_name<O: Write>(row: &Row, output: &mut O) -> io::Result<()>
    ensures { OnOk result
        (Appends (O.contents output.old) (O.contents output.new) (name_of row.now)) }
{
    match row {
        Row::Strip(part) => output.write_all(part_name(*part).as_bytes()),
        Row::Lane(lane, kind) => {
            output.write_all(lane.name.bytes())?;
            output.write_all(b" ")?;
            write_kind(*kind, &lane.reported_state, output)
        }
    }
}

/// The width of the strokes of a row, and their dashes.
fn style_of(row: &Row) -> &'static str
    ensures { result.now ≡ style_of row.now }
{
    match row {
        Row::Strip(_) => "1",
        Row::Lane(_, kind) => match kind {
            Kind::Packets | Kind::Stops | Kind::Emergencies | Kind::Function(_) => "1",
            Kind::Speed => "2",
            Kind::Direction => "1\" stroke-dasharray=\"6 3",
            Kind::Output(_) => "1\" stroke-dasharray=\"2 2",
        },
    }
}

/// The height of a row in pixels, with the space above it.
pub(crate) fn room_of(row: &Row) -> u64
    ensures value { result ≡ room_of row.now }
    ensures most { result ≤ 60 }
{
    match row {
        Row::Strip(_) => 18,
        Row::Lane(_, kind) => match kind {
            Kind::Packets => 30,
            Kind::Speed => 60,
            _ => 16,
        },
    }
}

fn write_label_open<O: Write>(base: u64, output: &mut O) -> io::Result<()>
    ensures { OnOk result
        (Appends (O.contents output.old) (O.contents output.new) (label_open base)) }
{
    write!(output, "<text x=\"8\" y=\"{base}\">")
}

fn write_base<O: Write>(base: u64, output: &mut O) -> io::Result<()>
    ensures { OnOk result
        (Appends (O.contents output.old) (O.contents output.new) (base_line base)) }
{
    writeln!(
        output,
        "</text>\n<path stroke-width=\"0.3\" d=\"M170 {base}H1170\"/>"
    )
}

fn write_style<O: Write>(style: &str, output: &mut O) -> io::Result<()>
    ensures { OnOk result
        (Appends (O.contents output.old) (O.contents output.new) (path_open style.now)) }
{
    write!(output, "<path stroke-width=\"{style}\" d=\"")
}

fn write_end<O: Write>(output: &mut O) -> io::Result<()>
    ensures { OnOk result
        (Appends (O.contents output.old) (O.contents output.new) (codes "\"/>\n")) }
{
    output.write_all(b"\"/>\n")
}

fn is_speed(row: &Row) -> bool
    ensures { result ≡ is_speed row.now }
{
    match row {
        Row::Lane(_, Kind::Speed) => true,
        _ => false,
    }
}

/// A number between two texts.
pub(crate) fn write_framed<O: Write>(
    first: &str,
    number: u64,
    second: &str,
    output: &mut O,
) -> io::Result<()>
    ensures { OnOk result
        (Appends (O.contents output.old) (O.contents output.new)
        (framed first.now number second.now)) }
{
    write!(output, "{first}{number}{second}")
}

/// Thin lines at the last step of a speed and at half of it, with labels.
fn write_scale_at<O: Write>(base: u64, output: &mut O) -> io::Result<()>
    requires { 48 ≤ base }
    ensures { OnOk result
        (Appends (O.contents output.old) (O.contents output.new) (scale_at base)) }
{
    write_framed(
        "<path stroke-width=\"0.3\" stroke-dasharray=\"1 3\" d=\"M170 ",
        base - 48,
        "H1170M170 ",
        output,
    )?;
    write_framed("", base - 24, "H1170\"/>\n", output)?;
    write_framed(
        "<text font-size=\"8\" x=\"1174\" y=\"",
        base - 45,
        "\">100%</text>\n",
        output,
    )?;
    write_framed(
        "<text font-size=\"8\" x=\"1174\" y=\"",
        base - 21,
        "\">50%</text>\n",
        output,
    )
}

/// The scale of a speed; nothing for another row.
#[tactic(auto, unfolding(crate::specs::Picture::scale_text))]
fn write_scale<O: Write>(row: &Row, base: u64, output: &mut O) -> io::Result<()>
    requires { 48 ≤ base }
    ensures { OnOk result
        (Appends (O.contents output.old) (O.contents output.new) (scale_text row.now base)) }
{
    if is_speed(row) {
        write_scale_at(base, output)
    } else {
        Ok(())
    }
}

/// Writes a row up to its marks: its name, its base, its scale and the beginning of a path.
fn write_head<O: Write>(row: &Row, base: u64, output: &mut O) -> io::Result<()>
    requires { 48 ≤ base }
    ensures { OnOk result
        (Appends (O.contents output.old) (O.contents output.new) (head_text row.now base)) }
{
    write_label_open(base, output)?;
    write_name(row, output)?;
    write_base(base, output)?;
    write_scale(row, base, output)?;
    write_style(style_of(row), output)
}

/// Writes a row: its name, its base, and what it shows of all events.
pub(crate) fn write_row<O: Write>(
    row: &Row,
    turns: u64,
    events: &[Event],
    base: u64,
    output: &mut O,
) -> io::Result<()>
    requires few { length events.now < 2 ^ 25 }
    requires base { 48 ≤ base }
    ensures { OnOk result
        (Appends (O.contents output.old) (O.contents output.new)
        (row_text row.now turns events.now base)) }
{
    write_head(row, base, output)?;
    let mut moment = START;
    let mut last = None;
    for event in events {
        moment = moment_after(moment, event);
        if let Some(height) = height_of(row, event) {
            let mark = Mark {
                x: x_of(turns, moment.turn),
                height,
            };
            write_next(row, base, &last, mark, output)?;
            last = Some(mark);
        }
    }
    write_end(output)
}
