//! A train on the oval: what the sensors report, to the microsecond.

mod layout;

use decoder_cv::CvSet;
use decoder_node::NodeSpec;
use layout::{EXPRESS, block, decoders, end_a, end_b, layout, oval, say_missed};
use layout_core::World;
use railway::{
    BlockEnd, Conflict, End, Exit, Joint, Momentum, Plan, Position, Railway, Reports, SensorReport,
    Train, TrainState,
};
use std::process::Abort;
use std::test::Fail;

/// Reports: sensors, and whether their blocks are occupied.
type Rows = &'static [(u16, bool)];

/// Whether these are the reports.
fn are(reports: &Reports, rows: Rows) -> bool {
    let mut same = reports.len() == rows.len();
    for (i, (sensor, occupied)) in rows.iter().enumerate() {
        let report = SensorReport {
            sensor: *sensor,
            occupied: *occupied,
        };
        same = same && reports.get(i) == Some(&report);
    }
    same
}

/// A step of a story: what is done or elapses, and what is reported, or how things stand then.
#[derive(Clone, Copy)]
enum Step {
    /// A message, given without its check, and 40 turns.
    Say(&'static [u8]),
    /// The same; the locomotive misses the turns.
    Missed(&'static [u8]),
    /// Microseconds, and the reports.
    Elapse(u32, Rows),
    /// The train is put there.
    Place(Position, Rows),
    /// A full report.
    Full(Rows),
    /// How far front and rear are from end A of their blocks, in femtometres.
    Front(u64),
    Rear(u64),
    /// Millimetres a second.
    Speed(u32),
    Derailed(Option<u16>),
    Occupied(u8),
    Exit(BlockEnd, Exit),
    Conflicts(&'static [Conflict]),
}

/// Whether the train stands as a step says.
fn stands(train: &TrainState, step: Step) -> bool {
    match step {
        Step::Front(at) => train.front.at == at,
        Step::Rear(at) => train.rear.at == at,
        Step::Derailed(turnout) => {
            train.derailed_at == turnout && train.is_derailed() == turnout.is_some()
        }
        _ => false,
    }
}

/// Whether the railway is as a step says.
fn is_so(railway: &Railway, step: Step) -> bool {
    match step {
        Step::Full(rows) => are(&railway.report_all(), rows),
        Step::Occupied(block) => railway.is_occupied(usize::from(block)),
        Step::Speed(speed) => railway.speed(0) == speed && railway.speed(64) == 0,
        Step::Exit(end, exit) => railway.exit(end) == exit,
        Step::Conflicts(conflicts) => railway.conflicts().as_slice() == conflicts,
        step => match railway.trains().get(0) {
            Some(train) => stands(train, step),
            None => false,
        },
    }
}

/// Does what a step says, and returns whether all is as it says.
fn carry_out(world: &mut World, railway: &mut Railway, step: Step) -> bool {
    match step {
        Step::Say(body) => {
            say_missed(world, body, 0);
            true
        }
        Step::Missed(body) => {
            say_missed(world, body, 1);
            true
        }
        Step::Elapse(micros, rows) => are(&railway.elapse(micros, world).sensors, rows),
        Step::Place(position, rows) => match railway.place(0, position) {
            Ok(reports) => are(&reports, rows),
            Err(_) => false,
        },
        step => is_so(railway, step),
    }
}

/// Speed step 63 of 126, which is 150 millimetres a second, forward.
const DRIVE: Step = Step::Say(&[0xA0, 0x01, 0x40]);

/// Two blocks in a line, with sensors 1 and 2, between buffer stops. A train is in the second.
fn line(train: Train) -> Result<Plan, Fail> {
    let mut plan = Plan::default();
    let _ = plan.blocks.try_push(block("yard", 1)?);
    let _ = plan.blocks.try_push(block("pier", 2)?);
    let _ = plan.joints.try_push(Joint {
        one: end_b(0),
        two: end_a(1),
    });
    let _ = plan.trains.try_push(train);
    Ok(plan)
}

/// The oval with a second train, in the east.
fn two_trains() -> Result<Plan, Fail> {
    let mut plan = oval()?;
    let _ = plan.trains.try_push(Train {
        decoder: 2,
        position: Position {
            block: 3,
            ..EXPRESS.position
        },
        ..EXPRESS
    });
    Ok(plan)
}

/// The oval with an express of 1,300 millimetres: 600 are in main, and 700 in the west.
fn long_train() -> Result<Plan, Fail> {
    let mut plan = oval()?;
    plan.trains.clear();
    let _ = plan.trains.try_push(Train {
        length: 1300,
        ..EXPRESS
    });
    Ok(plan)
}

/// The express, which gathers speed by 100 and brakes by 50 millimetres a second each second.
const MOMENTUM: Train = Train {
    momentum: Some(Momentum {
        acceleration: 100,
        braking: 50,
    }),
    ..EXPRESS
};

/// The plan of a story.
#[derive(Clone, Copy)]
enum Made {
    Oval,
    Line,
    Momentum,
    TwoTrains,
    LongTrain,
}

fn railway_of(made: Made) -> Result<Railway, Fail> {
    let plan = match made {
        Made::Oval => oval()?,
        Made::Line => line(EXPRESS)?,
        Made::Momentum => line(MOMENTUM)?,
        Made::TwoTrains => two_trains()?,
        Made::LongTrain => long_train()?,
    };
    let mut nodes = decoders()?;
    let _ = nodes.try_push(NodeSpec::Loco(CvSet::new(4, 0, 0, 6)?));
    Railway::new(plan, &nodes).map_err(|_| "plan".into())
}

/// Stop, and the emergency stop.
const STOP: Step = Step::Say(&[0xA0, 0x01, 0x00]);

const EMERGENCY: Step = Step::Say(&[0xA0, 0x01, 0x01]);

/// Where the express is put: 150 millimetres from end A of the pier with its rear.
const REAR_AT_150: Position = Position {
    block: 1,
    at: 350,
    facing: End::B,
};

/// Where it is put in main.
const MAIN: Position = Position {
    block: 1,
    at: 600,
    facing: End::B,
};

/// The ends of blocks 1 and 3 that turnout 2 joins.
const MAIN_B: BlockEnd = BlockEnd {
    block: 1,
    end: End::B,
};

const EAST_A: BlockEnd = BlockEnd {
    block: 3,
    end: End::A,
};

/// Stories by their names.
const STORIES: &[(&str, Made, &[Step])] = &[
    // The front has 400 millimetres to go to the east, the rear 600; then a metre each. Occupied blocks are
    // reported before free ones.
    (
        "round the oval",
        Made::Oval,
        &[
            Step::Full(&[(1, false), (2, true), (3, false), (4, false), (5, false)]),
            // A train that nobody drives.
            Step::Elapse(1_000_000, &[]),
            DRIVE,
            Step::Elapse(2_666_666, &[]),
            Step::Elapse(1, &[(4, true)]),
            Step::Elapse(1_333_332, &[]),
            Step::Elapse(1, &[(2, false)]),
            Step::Elapse(6_666_667, &[(5, true), (4, false)]),
            Step::Elapse(6_666_667, &[(1, true), (5, false)]),
            Step::Elapse(8_000_000, &[(2, true), (1, false)]),
        ],
    ),
    // A stop that the decoder misses, and then receives.
    (
        "a train runs as its decoder does",
        Made::Oval,
        &[
            DRIVE,
            Step::Missed(&[0xA0, 0x01, 0x00]),
            Step::Elapse(3_000_000, &[(4, true)]),
            Step::Say(&[0xA0, 0x01, 0x00]),
            Step::Elapse(60_000_000, &[]),
        ],
    ),
    // The front is 50 millimetres in the east, the rear in main. Then the train is put back, and the turnout
    // lies against it.
    (
        "a turnout thrown under a train derails it",
        Made::Oval,
        &[
            DRIVE,
            Step::Elapse(3_000_000, &[(4, true)]),
            Step::Exit(MAIN_B, Exit::Leads(EAST_A)),
            Step::Say(&[0xB0, 0x01, 0x10]),
            Step::Elapse(60_000_000, &[]),
            Step::Derailed(Some(2)),
            Step::Occupied(1),
            Step::Occupied(3),
            Step::Exit(MAIN_B, Exit::Against),
            Step::Place(MAIN, &[(4, false)]),
            Step::Derailed(None),
            Step::Elapse(60_000_000, &[]),
            Step::Derailed(Some(2)),
            Step::Front(999_999_999_999_999),
        ],
    ),
    // And backward, to the other one.
    (
        "a train stops at a buffer stop",
        Made::Line,
        &[
            Step::Exit(MAIN_B, Exit::BufferStop),
            DRIVE,
            Step::Elapse(60_000_000, &[]),
            Step::Front(999_999_999_999_999),
            Step::Rear(800_000_000_000_000),
            Step::Say(&[0xA1, 0x01, 0x20]),
            Step::Elapse(60_000_000, &[(1, true), (2, false)]),
            Step::Rear(0),
            Step::Front(199_999_999_999_999),
            Step::Derailed(None),
        ],
    ),
    // 150 mm/s are 150,000,000 femtometres a microsecond, in 1,500,000 steps of 100, over 50 * 1,500,000 * 1,500,001. It
    // brakes in 3,000,000 steps of 50, over 25 * 3,000,000 * 2,999,999: these are 337.5 millimetres.
    (
        "a train gathers speed and brakes",
        Made::Momentum,
        &[
            DRIVE,
            Step::Elapse(500_000, &[]),
            Step::Speed(50),
            Step::Elapse(1_000_000, &[]),
            Step::Speed(150),
            Step::Front(712_500_074_999_999),
            STOP,
            Step::Elapse(2_000_000, &[]),
            Step::Speed(50),
            Step::Front(912_500_024_999_999),
            Step::Elapse(1_000_000, &[]),
            Step::Speed(0),
            Step::Front(937_499_999_999_999),
            Step::Elapse(60_000_000, &[]),
            Step::Front(937_499_999_999_999),
        ],
    ),
    // It brakes to the same place, and gathers speed backward: 112.500075 millimetres.
    (
        "a train with momentum turns at standstill",
        Made::Momentum,
        &[
            DRIVE,
            Step::Elapse(1_500_000, &[]),
            Step::Say(&[0xA1, 0x01, 0x20]),
            Step::Elapse(3_000_000, &[]),
            Step::Speed(0),
            Step::Front(937_499_999_999_999),
            Step::Elapse(1_500_000, &[]),
            Step::Speed(150),
            Step::Front(824_999_924_999_999),
        ],
    ),
    // It gathers speed backward to 100.0001 mm/s, brakes, and turns round. In all it goes 150 * 1,000,001 * 1,000,001
    // femtometres: 150 millimetres and 300,000,150. Before the last 4,000 microseconds 25 * 4,000 * 3,999 are left.
    // In 6,000 it goes back by 50 * 6,000 * 6,001.
    (
        "a train turns round in a block within a turn",
        Made::Momentum,
        &[
            Step::Say(&[0xA1, 0x01, 0x20]),
            DRIVE,
            Step::Place(REAR_AT_150, &[]),
            Step::Elapse(1_000_001, &[]),
            Step::Say(&[0xA1, 0x01, 0x00]),
            Step::Elapse(1_996_002, &[]),
            Step::Rear(99_899_850),
            Step::Elapse(10_000, &[(1, true), (1, false)]),
            Step::Rear(1_500_299_850),
        ],
    ),
    (
        "an emergency stop is at once",
        Made::Momentum,
        &[
            DRIVE,
            Step::Elapse(1_500_000, &[]),
            EMERGENCY,
            Step::Elapse(1, &[]),
            Step::Speed(0),
            Step::Front(712_500_074_999_999),
        ],
    ),
    // Its decoder drives on as power returns, and the train gathers speed again.
    (
        "without power a train stands at once",
        Made::Momentum,
        &[
            DRIVE,
            Step::Elapse(1_500_000, &[]),
            Step::Say(&[0x82]),
            Step::Elapse(60_000_000, &[]),
            Step::Speed(0),
            Step::Front(712_500_074_999_999),
            Step::Say(&[0x83]),
            Step::Elapse(1_500_000, &[]),
            Step::Speed(150),
            Step::Front(825_000_149_999_999),
        ],
    ),
    // It reaches the buffer stop at 150 mm/s.
    (
        "a train with momentum stands at a buffer stop",
        Made::Momentum,
        &[
            DRIVE,
            Step::Elapse(60_000_000, &[]),
            Step::Speed(0),
            Step::Front(999_999_999_999_999),
        ],
    ),
    // After 450 millimetres it is in three blocks, and turnout 1 is thrown under the middle of it.
    (
        "a train in three blocks",
        Made::LongTrain,
        &[
            Step::Full(&[(1, true), (2, true), (3, false), (4, false), (5, false)]),
            Step::Rear(300_000_000_000_000),
            DRIVE,
            Step::Elapse(3_000_000, &[(4, true)]),
            Step::Say(&[0xB0, 0x00, 0x10]),
            Step::Elapse(60_000_000, &[]),
            Step::Derailed(Some(1)),
            Step::Full(&[(1, true), (2, true), (3, false), (4, true), (5, false)]),
        ],
    ),
    (
        "two trains in a block conflict",
        Made::TwoTrains,
        &[
            Step::Conflicts(&[]),
            DRIVE,
            Step::Elapse(3_000_000, &[]),
            Step::Conflicts(&[Conflict {
                block: 3,
                first: 0,
                second: 1,
            }]),
        ],
    ),
];

/// Asserts the steps of a story.
fn check(rt: &impl Abort, world: &mut World, railway: &mut Railway, name: &str, steps: &[Step]) {
    for step in steps {
        assert!(rt; carry_out(world, railway, *step), "{name}");
    }
}

#[test]
fn trains_run(rt: HostRuntime) -> Result<(), Fail> {
    for (name, made, steps) in STORIES {
        let mut railway = railway_of(*made)?;
        let mut world = layout(&rt)?;
        check(&rt, &mut world, &mut railway, name, steps);
    }
    Ok(())
}
