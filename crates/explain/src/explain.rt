//! The program as a filter.
ghost use Rattle.explain.specs.Conversion.{ExplainsOrConverts, FailsSo};

use crate::conversion::{Conversion, convert};
use crate::streams::explain;
use filter::{Filter, FilterFlag, FilterResult, FilterText, Run};
use input_text::{Input, Output};

/// Adds explanations to the lines of an input, or converts a whole log or capture.
pub struct Explain;

impl Filter for Explain {
    ghost filters = { ExplainsOrConverts };

    ghost fails = { FailsSo };

    fn text(&self) -> FilterText<'static> {
        FilterText {
            name: "explain",
            about: "Copies its input, and adds to each line of a message or a packet what it says",
            details: "It reads what station and lbserver print, lines of LocoNet over TCP (RECEIVE, SEND), and messages and packets as pairs of hexadecimal digits, one a line.\n\nExample: station replay --roster layout.toml < session.script | explain",
            line: "line",
            flag: Some(FilterFlag {
                name: "hex",
                help: "Writes only the bytes of messages, one message a line, as station monitor reads them",
            }),
            second_flag: Some(FilterFlag {
                name: "binary",
                help: "Reads captured bytes of a LocoNet, not text",
            }),
        }
    }

    fn run<I: Input, O: Output>(&self, run: Run, input: &mut I, output: &mut O) -> FilterResult {
        let Run { alloc, flags } = run;
        let conversion = match (flags.first, flags.second) {
            (false, false) => return explain(alloc, input, output),
            (true, false) => Conversion::LogToHex,
            (false, true) => Conversion::CaptureExplained,
            (true, true) => Conversion::CaptureToHex,
        };
        convert(alloc, conversion, input, output)
    }
}
