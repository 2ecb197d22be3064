//! Places of the ring: a slot and a kind.
ghost use Rattle.std.specs.Prelude.{◌≡◌, ◌≤◌};
ghost use Rattle.refresh_ring.specs.Places.{IsSlot, IsPlace, place_of, slot_of, kind_of};

use crate::kind::Kind;

// Slots are 1 to 119.
pub(crate) const SLOTS: u16 = 119;

// How many packets a slot has, one of each kind.
pub(crate) const KINDS: u16 = 4;

// Places are numbered from 1 on.
pub(crate) const LAST_PLACE: u16 = SLOTS * KINDS;

// The place of a slot and a kind.
#[inline]
pub(crate) fn place_of(slot: u8, kind: Kind) -> u16
    requires { IsSlot slot }
    ensures place { result ≡ place_of slot kind }
    ensures range { IsPlace result }
{
    SLOTS * kind.number() + u16::from(slot)
}

// The slot of a place.
#[inline]
pub(crate) fn slot_of(place: u16) -> u8
    requires { 1 ≤ place }
    ensures slot { result ≡ slot_of place }
    ensures range { IsSlot result }
{
    ((place - 1) % SLOTS + 1) as u8
}

// The kind of a place.
#[inline]
pub(crate) fn kind_of(place: u16) -> Kind
    requires { 1 ≤ place }
    ensures { result ≡ kind_of place }
{
    match (place - 1) / SLOTS {
        0 => Kind::Speed,
        1 => Kind::GroupOne,
        2 => Kind::GroupTwo,
        _ => Kind::GroupThree,
    }
}
