//! Writing whole lines.
ghost use Rattle.std.specs.Prelude.{◌≡◌, OnOk, OnErr, [], true};
ghost use Rattle.std.specs.Io.KnownBytes.{Appends};
ghost use Rattle.layout_core.specs.Faults.{AppendsFront};
ghost use Rattle.layout_core.specs.Served.{ended_line};

use input_text::{Broken, Sink, put_all};
use show_text::Line;

/// Writes a line and a line feed.
pub(crate) fn put_line<K: Sink>(sink: &mut K, line: &Line) -> Result<(), Broken>
    ensures all { OnOk result
        (Appends (K.held sink.old) (K.held sink.new) (ended_line line.now.bytes)) }
    ensures part { OnErr result
        (AppendsFront (K.held sink.old) (K.held sink.new) [] (ended_line line.now.bytes)) }
    ensures failed_ok { OnOk result (K.failed sink.new ≡ K.failed sink.old) }
    ensures failed_err { OnErr result (K.failed sink.new ≡ true) }
{
    put_all(sink, line.as_str().as_bytes())?;
    put_all(sink, b"\n")
}
