//! The step of each SPD, worked out from the rule that shares the 126 steps out: with 28 steps a
//! step is four and a half of them, with 14 steps nine, each rounded down.

use dcc_packet::{Motion, Steps, steps_of};
use std::process::Abort;

/// The steps of SPD 2 to 127 with 28 steps.
const OF_28: [u8; 126] = [
    1, 1, 1, 1, 1, 2, 2, 2, 2, 3, 3, 3, 3, 3, 4, 4, 4, 4, 5, 5, 5, 5, 5, 6, 6, 6, 6, 7, 7, 7, 7, 7,
    8, 8, 8, 8, 9, 9, 9, 9, 9, 10, 10, 10, 10, 11, 11, 11, 11, 11, 12, 12, 12, 12, 13, 13, 13, 13,
    13, 14, 14, 14, 14, 15, 15, 15, 15, 15, 16, 16, 16, 16, 17, 17, 17, 17, 17, 18, 18, 18, 18, 19,
    19, 19, 19, 19, 20, 20, 20, 20, 21, 21, 21, 21, 21, 22, 22, 22, 22, 23, 23, 23, 23, 23, 24, 24,
    24, 24, 25, 25, 25, 25, 25, 26, 26, 26, 26, 27, 27, 27, 27, 27, 28, 28, 28, 28,
];

/// The steps of SPD 2 to 127 with 14 steps.
const OF_14: [u8; 126] = [
    1, 1, 1, 1, 1, 1, 1, 1, 1, 2, 2, 2, 2, 2, 2, 2, 2, 2, 3, 3, 3, 3, 3, 3, 3, 3, 3, 4, 4, 4, 4, 4,
    4, 4, 4, 4, 5, 5, 5, 5, 5, 5, 5, 5, 5, 6, 6, 6, 6, 6, 6, 6, 6, 6, 7, 7, 7, 7, 7, 7, 7, 7, 7, 8,
    8, 8, 8, 8, 8, 8, 8, 8, 9, 9, 9, 9, 9, 9, 9, 9, 9, 10, 10, 10, 10, 10, 10, 10, 10, 10, 11, 11,
    11, 11, 11, 11, 11, 11, 11, 12, 12, 12, 12, 12, 12, 12, 12, 12, 13, 13, 13, 13, 13, 13, 13, 13,
    13, 14, 14, 14, 14, 14, 14, 14, 14, 14,
];

/// Asserts the steps of SPD from 2 on, one after another.
fn asks_for(rt: &impl Abort, of: Steps, steps: &[u8]) {
    for (spd, &n) in (2..128u8).zip(steps) {
        assert!(rt; spd < 128);
        assert!(rt;
            steps_of(of, spd) == Motion::Step { of, n },
            "SPD {spd} is not step {n}"
        );
    }
}

#[test]
fn each_speed_has_its_step_of_28(rt: HostRuntime) {
    asks_for(&rt, Steps::S28, &OF_28);
}

#[test]
fn each_speed_has_its_step_of_14(rt: HostRuntime) {
    asks_for(&rt, Steps::S14, &OF_14);
}

/// SPD below 2 means no step.
const STANDING: [(u8, Motion); 2] = [(0, Motion::Stop), (1, Motion::Emergency)];

#[test]
fn the_first_two_speeds_stand(rt: HostRuntime) {
    for &(spd, motion) in &STANDING {
        assert!(rt; spd < 128);
        for of in [Steps::S14, Steps::S28, Steps::S128] {
            assert!(rt; steps_of(of, spd) == motion, "SPD {spd}");
        }
    }
}
