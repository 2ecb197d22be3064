//! A drawing program as a filter.
ghost use Rattle.trace.specs.Drawn.{DrawsInput, FailsToDraw};

use crate::drawing::Drawing;
use crate::run::draw;
use filter::{Filter, FilterResult, FilterText, Run, run_filter};
use input_text::{Input, Output};
use std::process::ExitCode;

/// Draws the lines of an input.
#[derive(Drop)]
pub struct DrawingFilter<'a, D> {
    pub drawing: &'a D,
}

impl<D: Drawing> Filter for DrawingFilter<'_, D> {
    ghost filters = { λ _. DrawsInput D.parses D.drawn };

    ghost fails = { λ _. FailsToDraw D.parses };

    fn text(&self) -> FilterText<'static> {
        self.drawing.text()
    }

    fn run<I: Input, O: Output>(&self, run: Run, input: &mut I, output: &mut O) -> FilterResult {
        draw(self.drawing, run.alloc, input, output)
    }
}

/// Runs a drawing program on the arguments of the process and the standard streams, and returns
/// the exit code.
pub fn draw_standard<D: Drawing>(drawing: &D, rt: &HostRuntime) -> ExitCode {
    run_filter(&DrawingFilter { drawing }, rt)
}
