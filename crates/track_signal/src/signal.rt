//! The drawing program: the dump of the packets.
ghost use Rattle.std.specs.Prelude.{false};
ghost use Rattle.trace.specs.Traffic.{Parses};
ghost use Rattle.track_signal.specs.Dump.{dump_of};

use crate::drawing::{HEADER, ROOM, write_end, write_idle, write_sent};
use filter::{FilterFault, FilterResult, FilterText};
use input_text::{Output, put_all};
use std::alloc::Global;
use trace::{BadLine, Drawing, Turn, turn_in, turns_since};

/// The signal on the rails. It is written packet by packet.
pub struct TrackSignal;

impl Drawing for TrackSignal {
    type Item = Turn;

    ghost parses = { Parses };

    ghost drawn = { dump_of };

    ghost is_whole = { false };

    fn text(&self) -> FilterText<'static> {
        FilterText {
            name: "track_signal",
            about: "Writes the signal on the rails as a value change dump (VCD) for wave viewers",
            details: "It reads the packets that station and lbserver --track print: lines that begin with track. It skips the other lines.\n\nExample: station replay --roster layout.toml < session.script | track_signal > session.vcd",
            line: "track line",
            flag: None,
            second_flag: None,
        }
    }

    fn read(&self, line: &[u8]) -> Result<Option<Turn>, BadLine> {
        turn_in(line).map_err(|_| BadLine)
    }

    fn draw<O: Output>(&self, alloc: Global, turns: &[Turn], output: &mut O) -> FilterResult {
        let Ok(mut text) = Vec::with_capacity(alloc, ROOM) else {
            return Err(FilterFault::NoMemory);
        };
        put_all(output, HEADER)?;
        let mut time = 0;
        let mut last = 0;
        for turn in turns {
            let between = turns_since(last, turn.number) - 1;
            let began = write_idle(between, time, &mut text, output)?;
            time = write_sent(&turn.packet, began, &mut text, output)?;
            last = turn.number;
        }
        write_end(time, &mut text, output)
    }
}
