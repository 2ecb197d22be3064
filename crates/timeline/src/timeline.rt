//! The drawing program: a picture of turns and of the states of decoders.
ghost use Rattle.timeline.specs.Picture.{picture_of};
ghost use Rattle.timeline.specs.Run.{Shows};

use crate::drawing::{bottom_of, turns_in, write_picture};
use crate::event::Event;
use crate::reading::event_in;
use crate::rows::rows_of;
use filter::{FilterFault, FilterResult, FilterText};
use input_text::{Output, put_all};
use std::alloc::Global;
use trace::{BadLine, Drawing};

/// The picture of a run. It is drawn whole before it is written.
pub struct Timeline;

impl Drawing for Timeline {
    type Item = Event;

    ghost parses = { Shows };

    ghost drawn = { picture_of };

    fn text(&self) -> FilterText<'static> {
        FilterText {
            name: "timeline",
            about: "Draws what station prints as a picture (SVG), turn by turn",
            details: "It reads the packets, messages and states of decoders that station and lbserver --track print: lines that begin with track, message, reply and node. It skips the other lines.\n\nExample: station replay --roster layout.toml < session.script | timeline > session.svg",
            line: "line",
            flag: None,
            second_flag: None,
        }
    }

    fn read(&self, line: &[u8]) -> Result<Option<Event>, BadLine> {
        event_in(line)
    }

    fn draw<O: Output>(&self, alloc: Global, events: &[Event], output: &mut O) -> FilterResult {
        let rows = rows_of(alloc, events)?;
        let turns = turns_in(events);
        let bottom = bottom_of(rows.as_slice());
        let mut text = Vec::new(alloc);
        write_picture(rows.as_slice(), turns, bottom, events, &mut text).map_err(
            |_| FilterFault::NoMemory,
        )?;
        put_all(output, text.as_slice()).map_err(|_| FilterFault::Output)
    }
}
