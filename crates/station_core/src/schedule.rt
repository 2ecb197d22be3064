//! How the schedule follows the slots.
ghost use Rattle.std.specs.Prelude.{◌≡◌};
ghost use Rattle.slot_table.specs.Entry.{IsSlot};
ghost use Rattle.refresh_ring.specs.Scheduled.{after_refresh, IsScheduled};
ghost use Rattle.station_core.specs.Refreshed.{is_driven, is_refreshed};
ghost use Rattle.station_core.specs.Slots.{addresses, length-addresses};
ghost use Rattle.station_core.specs.Schedule.{after_places, change_of, places_with};

use ln_ops::State;
use refresh_ring::{BitRing, Kind, Schedule, View};
use slot_table::{Field, SlotTable};

/// Which packets of a slot a message changes.
#[derive(Clone, Copy)]
pub(crate) enum Change {
    Nothing,
    Speed,
    SpeedAndGroupOne,
    GroupTwo,
    GroupThree,
    All,
}

/// The addresses in the slots of a table.
#[derive(Drop)]
pub(crate) struct Addresses<'a> {
    pub(crate) table: &'a SlotTable,
}

impl View for Addresses<'_> {
    ghost addresses = { λ view. addresses view.table.now };

    ghost many = { λ view. length-addresses view.table.now };

    fn address(&self, slot: u8) -> u16 {
        self.table.row(slot).address
    }
}

// Whether a slot in this state is refreshed.
fn is_driven(state: State) -> bool
    ensures { result ≡ is_driven state }
{
    match state {
        State::Common | State::InUse => true,
        State::Free | State::Idle => false,
    }
}

// Which packets are made of a field.
pub(crate) fn change_of(field: Field) -> Change
    ensures { result ≡ change_of field }
{
    match field {
        Field::Speed(_) => Change::Speed,
        Field::Dirf(_) => Change::SpeedAndGroupOne,
        Field::Snd(_) => Change::GroupTwo,
        Field::More(_) => Change::GroupThree,
        Field::Stat(_) => Change::All,
    }
}

// The slot is refreshed where it now reads as driven, and not where it does not.
pub(crate) fn refresh_if_driven(table: &SlotTable, schedule: &mut Schedule<BitRing>, slot: u8)
    requires { IsSlot slot }
    ensures state { schedule.new ≡ after_refresh slot (is_refreshed table.now slot) schedule.old }
    ensures legal { IsScheduled schedule.new }
{
    schedule.refresh(slot, is_driven(table.row(slot).state));
}

// The same, and the packets that a change alters wait to be sent first, where the slot is
// refreshed.
pub(crate) fn schedule_changes(
    table: &SlotTable,
    schedule: &mut Schedule<BitRing>,
    slot: u8,
    change: Change,
)
    requires { IsSlot slot }
    ensures state { schedule.new
        ≡ after_places (places_with slot change)
        (after_refresh slot (is_refreshed table.now slot) schedule.old) }
    ensures legal { IsScheduled schedule.new }
{
    refresh_if_driven(table, schedule, slot);
    match change {
        Change::Nothing => {}
        Change::Speed => schedule.changed(slot, Kind::Speed),
        Change::SpeedAndGroupOne => {
            schedule.changed(slot, Kind::Speed);
            schedule.changed(slot, Kind::GroupOne);
        }
        Change::GroupTwo => schedule.changed(slot, Kind::GroupTwo),
        Change::GroupThree => schedule.changed(slot, Kind::GroupThree),
        Change::All => {
            schedule.changed(slot, Kind::Speed);
            schedule.changed(slot, Kind::GroupOne);
            schedule.changed(slot, Kind::GroupTwo);
            schedule.changed(slot, Kind::GroupThree);
        }
    }
}
