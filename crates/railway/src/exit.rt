//! Where the track leads.
use crate::block::BlockEnd;
use crate::train::Place;

/// What lies beyond an end of a block.
#[derive(Clone, Copy, PartialEq, Eq)]
pub enum Exit {
    /// The end that it is joined with, as the turnouts lie.
    Leads(BlockEnd),
    /// Nothing: a train stops.
    BufferStop,
    /// A turnout that moves or lies against it: a train leaves the rails.
    Against,
}

/// Where the next femtometre ahead of a place is.
#[derive(Clone, Copy)]
pub(crate) enum Onward {
    To(Place),
    BufferStop,
    Against,
}
