//! Tests of what no clause states: the draws, and shares over many turns.

use bus_server::{Losses, Shares};

/// Shares, and which of two decoders miss the first turn. The first two words of seed 0 end in 07
/// and 27: the table of upstream's `rand_pcg` has them as one number, 18195738587432868099, the
/// first word below.
const FIRST: [(u8, u64); 6] = [(0, 0), (7, 0), (8, 1), (27, 1), (28, 3), (99, 3)];

/// The same share for each of this many decoders, at most 64.
fn equal_shares(lose: u8, decoders: u8) -> Shares {
    let mut shares = Shares::new();
    for _decoder in 0..decoders {
        let _fits = shares.try_push(lose);
    }
    shares
}

#[test]
fn first_turn_of_seed_0(rt: HostRuntime) {
    for (lose, missed) in FIRST {
        assert!(rt;
            Losses::new(equal_shares(lose, 2), 0).draw(2) == missed,
            "of {lose}"
        );
    }
}

/// Shares of two decoders, and which of them miss the first turn: each is drawn, also where only the
/// other is to miss any, by the words above.
const OWN: [((u8, u8), u64); 6] = [
    ((8, 27), 1),
    ((7, 28), 2),
    ((8, 0), 1),
    ((0, 28), 2),
    ((0, 27), 0),
    ((0, 0), 0),
];

#[test]
fn own_shares(rt: HostRuntime) {
    for ((first, second), missed) in OWN {
        let mut shares = Shares::new();
        shares.push(first);
        shares.push(second);
        assert!(rt;
            Losses::new(shares, 0).draw(2) == missed,
            "of {first} and {second}"
        );
    }
}

#[test]
fn shares_over_many_turns(rt: HostRuntime) {
    let mut losses = Losses::new(equal_shares(30, 64), 4_294_967_295);
    let mut all = 0u64;
    let mut both = 0u64;
    for _turn in 0..10_000 {
        let missed = losses.draw(64);
        all = all.saturating_add(u64::from(missed.count_ones()));
        if missed & 1 == 1 && missed >> 63 == 1 {
            both = both.saturating_add(1);
        }
    }
    // Of 640,000 draws 192,000, and 900 times both: within about five standard deviations.
    assert!(rt; all > 190_100 && all < 193_900);
    assert!(rt; both > 750 && both < 1050);
}
