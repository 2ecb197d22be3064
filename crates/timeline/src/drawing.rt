//! The picture of a run (W3C, Scalable Vector Graphics 1.1).
ghost use Rattle.std.specs.Prelude.{◌≡◌, ◌≤◌, ◌<◌, ◌^◌, ◌*◌, ◌+◌, OnOk, length};
ghost use Rattle.std.specs.Io.KnownBytes.{Appends};
ghost use Rattle.timeline.specs.Picture.{axis, bottom_of, legend, opening, picture_with, moment_from, rows_text, start, title, turn_at, turn_text};

use crate::event::Event;
use crate::moment::START;
use crate::pieces::{moment_after, room_of, write_framed, write_row, x_of};
use crate::row::Row;
use std::io;
use std::io::Write;

/// The top of the rows, in pixels.
const TOP: u64 = 52;

/// Returns the number of turns in events.
pub(crate) fn turns_in(events: &[Event]) -> u64
    requires { length events.now < 2 ^ 25 }
    ensures value { result ≡ (moment_from start events.now).turn }
    ensures most { result ≤ 16777216 * length events.now }
{
    let mut moment = START;
    for event in events {
        moment = moment_after(moment, event);
    }
    moment.turn
}

/// Returns the bottom of the rows, in pixels.
pub(crate) fn bottom_of(rows: &[Row]) -> u64
    requires { length rows.now < 2 ^ 48 }
    ensures value { result ≡ bottom_of 52 rows.now }
    ensures most { result ≤ 52 + 60 * length rows.now }
{
    let mut bottom = TOP;
    for row in rows {
        bottom += room_of(row);
    }
    bottom
}

fn write_open<O: Write>(bottom: u64, output: &mut O) -> io::Result<()>
    requires { bottom < 2 ^ 60 }
    ensures { OnOk result
        (Appends (O.contents output.old) (O.contents output.new) (opening bottom)) }
{
    let height = bottom + 60;
    writeln!(
        output,
        "<svg xmlns=\"http://www.w3.org/2000/svg\" width=\"1200\" height=\"{height}\" font-family=\"sans-serif\" font-size=\"11\" fill=\"none\" stroke=\"black\">"
    )
}

fn write_title<O: Write>(output: &mut O) -> io::Result<()>
    ensures { OnOk result (Appends (O.contents output.old) (O.contents output.new) title) }
{
    output.write_all(b"<title>What station printed, turn by turn</title>\n")?;
    output.write_all(b"<style>text{fill:black;stroke:none}</style>\n")?;
    output.write_all(b"<rect width=\"1200\" height=\"100%\" fill=\"white\" stroke=\"none\"/>\n")?;
    output.write_all(
        b"<text x=\"8\" y=\"22\" font-size=\"16\">What station printed, turn by turn</text>\n",
    )
}

/// A number above a thin line to the bottom of the rows.
fn write_turn_at<O: Write>(x: u64, turn: u64, bottom: u64, output: &mut O) -> io::Result<()>
    ensures { OnOk result
        (Appends (O.contents output.old) (O.contents output.new) (turn_at x turn bottom)) }
{
    write_framed(
        "<text text-anchor=\"middle\" x=\"",
        x,
        "\" y=\"46\">",
        output,
    )?;
    write_framed("", turn, "</text>\n", output)?;
    write_framed(
        "<path stroke-width=\"0.3\" stroke-dasharray=\"1 3\" d=\"M",
        x,
        " 50V",
        output,
    )?;
    write_framed("", bottom, "\"/>\n", output)
}

fn write_turn<O: Write>(turns: u64, turn: u64, bottom: u64, output: &mut O) -> io::Result<()>
    requires { turn < 2 ^ 53 }
    ensures { OnOk result
        (Appends (O.contents output.old) (O.contents output.new) (turn_text turns turn bottom)) }
{
    let x = x_of(turns, turn);
    write_turn_at(x, turn, bottom, output)
}

fn write_axis<O: Write>(turns: u64, bottom: u64, output: &mut O) -> io::Result<()>
    requires { turns < 2 ^ 50 }
    ensures { OnOk result
        (Appends (O.contents output.old) (O.contents output.new) (axis turns bottom)) }
{
    write_turn(turns, 0, bottom, output)?;
    write_turn(turns, turns / 4, bottom, output)?;
    write_turn(turns, turns / 2, bottom, output)?;
    write_turn(turns, 3 * turns / 4, bottom, output)?;
    write_turn(turns, turns, bottom, output)
}

fn write_rows<O: Write>(
    rows: &[Row],
    turns: u64,
    events: &[Event],
    output: &mut O,
) -> io::Result<()>
    requires few { length events.now < 2 ^ 25 }
    requires rows { length rows.now < 2 ^ 48 }
    ensures { OnOk result
        (Appends (O.contents output.old) (O.contents output.new)
        (rows_text turns events.now 52 rows.now)) }
{
    let mut base = TOP;
    for row in rows {
        base += room_of(row);
        write_row(row, turns, events, base, output)?;
    }
    Ok(())
}

fn write_legend<O: Write>(bottom: u64, output: &mut O) -> io::Result<()>
    requires { bottom < 2 ^ 60 }
    ensures { OnOk result
        (Appends (O.contents output.old) (O.contents output.new) (legend bottom)) }
{
    let top = bottom + 28;
    writeln!(output, "<g transform=\"translate(8 {top})\">")?;
    output.write_all(
        b"<text>Packets: tick up to a locomotive, tick down to an accessory decoder, long tick to all or to one decoder, dot idle, cross no power, blank idle or no power, not printed.</text>\n",
    )?;
    output.write_all(
        b"<text y=\"16\">Speed: in hundredths of the last step; below it a tick where it stands by a stop, a cross by an emergency stop. Dashed: direction. Thin: functions. Dotted: outputs.</text>\n",
    )?;
    output.write_all(b"</g>\n</svg>\n")
}

/// Writes the picture of rows, for `turns` turns and with this bottom.
pub(crate) fn write_picture<O: Write>(
    rows: &[Row],
    turns: u64,
    bottom: u64,
    events: &[Event],
    output: &mut O,
) -> io::Result<()>
    requires few { length events.now < 2 ^ 25 }
    requires turns { turns < 2 ^ 50 }
    requires rows { length rows.now < 2 ^ 48 }
    requires bottom { bottom < 2 ^ 60 }
    ensures { OnOk result
        (Appends (O.contents output.old) (O.contents output.new)
        (picture_with turns bottom events.now rows.now)) }
{
    write_open(bottom, output)?;
    write_title(output)?;
    write_axis(turns, bottom, output)?;
    write_rows(rows, turns, events, output)?;
    write_legend(bottom, output)
}
