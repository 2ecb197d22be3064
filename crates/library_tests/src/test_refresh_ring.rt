//! The ring's wrap, the turns of two locomotives and of two switch requests, and a full queue.
ghost use Rattle.std.specs.Prelude.{◌≡◌, length};

use refresh_ring::{
    BitRing, Full, Kind, NoMemory, Pick, PlainRing, Power, Ring, Schedule, View, both,
};
use std::process::Abort;

// A table of addresses.
#[derive(Drop)]
struct Addresses {
    rows: [u16; 119],
    ghost whole: { length rows ≡ 119 },
}

impl View for Addresses {
    ghost addresses = { λ view. view.rows };

    fn address(&self, slot: u8) -> u16 {
        self.rows[(slot - 1) as usize]
    }

    ghost many = { λ view. view.whole };
}

// Address 3 in slot 1, address 4 in slot 2.
fn two_addresses() -> Addresses {
    let mut rows = [0; 119];
    rows[0] = 3;
    rows[1] = 4;
    Addresses { rows }
}

const KINDS: [Kind; 4] = [
    Kind::Speed,
    Kind::GroupOne,
    Kind::GroupTwo,
    Kind::GroupThree,
];

#[test]
fn an_empty_ring_has_no_next_place(rt: HostRuntime) {
    assert!(rt; PlainRing::default().next(0).is_none());
    assert!(rt; BitRing::default().next(0).is_none());
}

// After each of these cursors both rings have this place.
fn check_next(rt: &impl Abort, plain: &PlainRing, bits: &BitRing, steps: &[(u16, u16)]) {
    for &(cursor, place) in steps {
        assert!(rt; cursor <= 476);
        assert_eq!(rt; plain.next(cursor), Some(place));
        assert_eq!(rt; bits.next(cursor), Some(place));
    }
}

#[test]
fn both_rings_wrap_after_the_last_place(rt: HostRuntime) {
    let (plain, bits) = both(&[(1, true), (119, true)]);
    let steps = [(1, 119), (119, 120), (357, 358), (358, 476), (476, 1)];
    check_next(&rt, &plain, &bits, &steps);
}

#[test]
fn both_rings_go_over_the_borders_of_words(rt: HostRuntime) {
    let (plain, bits) = both(&[(64, true), (9, true), (82, true), (118, true), (118, false)]);
    let steps = [(9, 64), (82, 128), (302, 320), (320, 366), (439, 9)];
    check_next(&rt, &plain, &bits, &steps);
    assert!(rt; plain.has(64) && bits.has(64));
    assert!(rt; plain.has(82) && bits.has(82));
    assert!(rt; !plain.has(118) && !bits.has(118));
}

#[test]
fn a_new_schedule_has_nothing_waiting(rt: HostRuntime) -> Result<(), NoMemory> {
    let schedule: Schedule<PlainRing> = Schedule::new(rt.alloc())?;
    assert!(rt; schedule.sends_ahead(1, Kind::Speed).is_none());
    assert!(rt; schedule.switches_waiting() == 0);
    Ok(())
}

// Each running turn sends this, and leaves this number of switch requests.
fn check_turns<R: Ring>(rt: &impl Abort, schedule: &mut Schedule<R>, turns: &[(Pick, u8)]) {
    let view = two_addresses();
    for &(pick, waiting) in turns {
        assert!(rt; schedule.pick(&view, Power::Running) == pick);
        assert_eq!(rt; schedule.switches_waiting(), waiting);
    }
}

#[test]
fn two_locomotives_take_turns_on_both_rings(rt: HostRuntime) -> Result<(), NoMemory> {
    two_locomotives_take_turns(&rt, Schedule::<PlainRing>::new(rt.alloc())?);
    two_locomotives_take_turns(&rt, Schedule::<BitRing>::new(rt.alloc())?);
    Ok(())
}

fn place(slot: u8, kind: Kind) -> Pick {
    Pick::Place { slot, kind }
}

// The turns of a new schedule after both slots were loaded and changed.
fn two_locomotives_take_turns<R: Ring>(rt: &impl Abort, mut schedule: Schedule<R>) {
    let view = two_addresses();
    assert!(rt; schedule.pick(&view, Power::Off) == Pick::Off);
    assert!(rt; schedule.pick(&view, Power::Paused) == Pick::StopAll);
    for slot in 1..3u8 {
        schedule.refresh(slot, true);
        for &kind in &KINDS {
            schedule.changed(slot, kind);
        }
    }
    let turns = [
        (place(1, Kind::Speed), 0),
        (Pick::Idle, 0),
        (place(1, Kind::Speed), 0),
        (Pick::Idle, 0),
        (place(1, Kind::GroupOne), 0),
        (place(2, Kind::Speed), 0),
        (place(1, Kind::GroupTwo), 0),
        (Pick::Idle, 0),
        (place(1, Kind::GroupOne), 0),
        (Pick::Idle, 0),
        (place(1, Kind::GroupThree), 0),
        (place(2, Kind::GroupOne), 0),
    ];
    check_turns(rt, &mut schedule, &turns);
}

// A switch to be closed, its output on.
fn closed(number: u16) -> Pick {
    Pick::Switch {
        number,
        closed: true,
        on: true,
    }
}

#[test]
fn two_switch_requests_are_each_sent_twice(rt: HostRuntime) -> Result<(), NoMemory> {
    let mut schedule: Schedule<PlainRing> = Schedule::new(rt.alloc())?;
    assert!(rt; schedule.switch(0, true, true).is_ok());
    assert!(rt; schedule.switch(4, true, true).is_ok());
    assert!(rt; schedule.switches_waiting() == 2);
    let turns = [
        (closed(0), 2),
        (Pick::Idle, 2),
        (closed(0), 1),
        (closed(4), 1),
        (Pick::Idle, 1),
        (closed(4), 0),
        (Pick::Idle, 0),
    ];
    check_turns(&rt, &mut schedule, &turns);
    Ok(())
}

#[test]
fn thirty_two_requests_wait_and_no_more(rt: HostRuntime) -> Result<(), NoMemory> {
    let mut schedule: Schedule<PlainRing> = Schedule::new(rt.alloc())?;
    for number in 0..32u16 {
        assert!(rt; schedule.switch(number, false, true).is_ok());
    }
    assert!(rt; schedule.switch(32, false, true) == Err(Full));
    assert!(rt; schedule.switches_waiting() == 32);
    Ok(())
}
