//! An oval with a passing siding, and its decoders.

use dcc_packet::Module;
use decoder_cv::CvSet;
use decoder_node::{NodeList, NodeSpec};
use layout_core::{Event, World};
use railway::{Block, BlockEnd, End, Joint, Plan, Position, Train, Turnout};
use std::test::Fail;

/// A block of a metre, with this sensor.
pub(super) fn block(name: &str, sensor: u16) -> Result<Block, Fail> {
    let mut block = Block::default();
    block.name.try_push_str(name).map_err(|_| "name")?;
    block.length = 1000;
    block.sensor = Some(sensor);
    Ok(block)
}

pub(super) const fn end_a(block: u8) -> BlockEnd {
    BlockEnd { block, end: End::A }
}

pub(super) const fn end_b(block: u8) -> BlockEnd {
    BlockEnd { block, end: End::B }
}

/// A train of 200 millimetres in block 1, its front 600 millimetres from end A. It runs 300
/// millimetres a second at the last step.
pub(super) const EXPRESS: Train = Train {
    decoder: 0,
    top: 300,
    length: 200,
    momentum: None,
    position: Position {
        block: 1,
        at: 600,
        facing: End::B,
    },
};

/// A turnout that moves at once, with its ends where it is closed and thrown.
fn turnout(switch: u16, common: BlockEnd, [closed, thrown]: [BlockEnd; 2]) -> Turnout {
    Turnout {
        switch,
        common,
        closed,
        thrown,
        time: 0,
        has_feedback: false,
    }
}

/// The blocks west, main, siding, east and back, with sensors 1 to 5. Turnout 1 leads from the west
/// to main or, thrown, to the siding; turnout 2 from the east.
pub(super) fn oval() -> Result<Plan, Fail> {
    let mut plan = Plan::default();
    let _ = plan.blocks.try_push(block("west", 1)?);
    let _ = plan.blocks.try_push(block("main", 2)?);
    let _ = plan.blocks.try_push(block("siding", 3)?);
    let _ = plan.blocks.try_push(block("east", 4)?);
    let _ = plan.blocks.try_push(block("back", 5)?);
    let _ = plan
        .turnouts
        .try_push(turnout(1, end_b(0), [end_a(1), end_a(2)]));
    let _ = plan
        .turnouts
        .try_push(turnout(2, end_a(3), [end_b(1), end_b(2)]));
    let _ = plan.joints.try_push(Joint {
        one: end_b(3),
        two: end_a(4),
    });
    let _ = plan.joints.try_push(Joint {
        one: end_b(4),
        two: end_a(0),
    });
    let _ = plan.trains.try_push(EXPRESS);
    Ok(plan)
}

/// The decoder of locomotive 3, and that of switches 1 to 4.
pub(super) fn decoders() -> Result<NodeList, Fail> {
    let mut nodes = NodeList::new();
    nodes.push(NodeSpec::Loco(CvSet::new(3, 0, 0, 6)?));
    nodes.push(NodeSpec::Accessory(Module::new(1).ok_or("module")?));
    Ok(nodes)
}

/// Passes a message, given without its check, to line 0, and runs 40 turns.
pub(super) fn say(world: &mut World, body: &[u8]) {
    say_missed(world, body, 0);
}

/// The same; decoder i misses the turns if bit i of `missed` is set.
pub(super) fn say_missed(world: &mut World, body: &[u8], missed: u64) {
    let check = body.iter().fold(0xFF, |sum, byte| sum ^ *byte);
    pass(world, body);
    pass(world, &[check]);
    for _ in 0..40 {
        let _step = world.step(Event::Turn { missed });
    }
}

fn pass(world: &mut World, bytes: &[u8]) {
    for byte in bytes {
        if 0 < world.station().lines() {
            let _step = world.step(Event::Byte {
                line: 0,
                byte: *byte,
            });
        }
    }
}

/// A layout with power on, in which slot 1 is that of locomotive 3.
pub(super) fn layout(rt: &HostRuntime) -> Result<World, Fail> {
    let mut world = World::new(rt.alloc(), 1, decoders()?)?;
    say(&mut world, &[0xBF, 0x00, 0x03]);
    say(&mut world, &[0xBA, 0x01, 0x01]);
    say(&mut world, &[0x83]);
    Ok(world)
}
