//! The drawing of lines, lines that are refused, devices that fail, and lack of memory.

mod devices;
mod lines;
mod memory;

use crate::Timeline;
use trace::DrawingFilter;

/// The program as a filter.
fn filter() -> DrawingFilter<'static, Timeline> {
    DrawingFilter { drawing: &Timeline }
}
