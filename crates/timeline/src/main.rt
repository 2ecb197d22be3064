//! `timeline`: draws the output of `station` as a picture, turn by turn: the packets, the messages,
//! and the state of each decoder.
#![tactic(auto)]

mod drawing;
mod event;
mod levels;
mod mark;
mod moment;
mod pieces;
mod reading;
mod row;
mod rows;
mod timeline;

pub use event::Event;
pub use mark::Mark;
pub use moment::Moment;
pub use row::{Kind, Part, Row};
use std::process::ExitCode;
pub use timeline::Timeline;
use trace::draw_standard;

#[cfg(test)]
mod tests;

fn main(rt: HostRuntime) -> ExitCode {
    draw_standard(&Timeline, &rt)
}
