//! What pages are shown.
use layout_core::World;
use railway::Railway;
use roster::Roster;

/// A layout, with the roster of its decoders and the railway beside it, if there are such.
#[derive(Clone, Copy)]
pub struct Shown<'a> {
    pub roster: Option<&'a Roster>,
    pub world: &'a World,
    pub railway: Option<&'a Railway>,
}
