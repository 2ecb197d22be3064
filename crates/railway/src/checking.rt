//! The first fault of a plan.
ghost use Rattle.std.specs.Prelude.{◌≡◌, ◌<◌, ◌≤◌, ◌++◌, length, List, IfSome, slice_get};
ghost use Rattle.motion.specs.Velocity.{is_momentum};
ghost use Rattle.railway.specs.Blocks.{has_sensor, is_block_sensor, is_free};
ghost use Rattle.railway.specs.Ends.{ends_of, ends_of_joints, ends_of_turnouts, has_end, is_end, named_twice};
ghost use Rattle.railway.specs.Decoders.{decoder_of, is_loco, is_module, module_index};
ghost use Rattle.railway.specs.Faults.{fault_of_block, fault_of_blocks, fault_of_joints, fault_of_motors, fault_of_track, fault_of_all_trains, fault_of_train, fault_of_trains, fault_of_turnouts, has_decoder, is_renamed};

use crate::block::{Block, BlockEnd, LONGEST_BLOCK};
use crate::fault::{Part, PlanFault};
use crate::joint::{Joint, Turnout};
use crate::passing::fault_of_speeds;
use crate::placement::has_front;
use crate::plan::{MAX_JOINTS, MAX_TURNOUTS, Plan};
use crate::track::Track;
use crate::train::Train;
use arrayvec::ArrayVec;
use decoder_node::NodeSpec;
use ln_ops::LAST_SENSOR;
use motion::Momentum;

/// The most ends that a plan names.
const MAX_ENDS: usize = 2 * MAX_JOINTS + 3 * MAX_TURNOUTS;

/// The ends that a plan names.
type Ends = ArrayVec<BlockEnd, MAX_ENDS>;

/// Returns the first fault of the track of a plan for a layout with these decoders.
pub(crate) fn fault_of_track(decoders: &[NodeSpec], plan: &Plan) -> Option<PlanFault>
    ensures fault { result ≡ fault_of_track decoders.now plan.now }
    ensures few { length plan.now.blocks.items ≤ 64 }
{
    let blocks = plan.blocks.as_slice();
    let turnouts = plan.turnouts.as_slice();
    fault_of_blocks(blocks)
        .or_else(|| fault_of_joints(blocks.len(), plan.joints.as_slice()))
        .or_else(|| fault_of_turnouts(blocks.len(), turnouts))
        .or_else(|| named_twice(plan.joints.as_slice(), turnouts).map(PlanFault::EndTwice))
        .or_else(|| fault_of_motors(decoders, turnouts))
}

fn fault_of_blocks(blocks: &[Block]) -> Option<PlanFault>
    ensures { result ≡ fault_of_blocks 0 blocks.now }
{
    for (i, block) in blocks.iter().enumerate() {
        let rest = &blocks[i + 1..];
        if let Some(fault) = fault_of_block(i, block, rest) {
            return Some(fault);
        }
    }
    None
}

fn fault_of_block(i: usize, block: &Block, rest: &[Block]) -> Option<PlanFault>
    ensures { result ≡ fault_of_block i block.now rest.now }
{
    if block.length < 1 || block.length > LONGEST_BLOCK {
        return Some(PlanFault::BlockLength(i));
    }
    if is_renamed(block, rest) {
        return Some(PlanFault::NameTwice(i));
    }
    if !is_sensor(block.sensor) {
        return Some(PlanFault::Sensor(i));
    }
    if !is_free(block.sensor, rest) {
        return Some(PlanFault::SensorTwice(i));
    }
    None
}

fn is_renamed(block: &Block, rest: &[Block]) -> bool
    ensures { result ≡ is_renamed block.now rest.now }
{
    rest.iter().any(|other| block.name == other.name)
}

fn is_sensor(sensor: Option<u16>) -> bool
    ensures { result ≡ is_block_sensor sensor }
{
    match sensor {
        None => true,
        Some(sensor) => sensor >= 1 && sensor <= LAST_SENSOR,
    }
}

fn is_free(sensor: Option<u16>, blocks: &[Block]) -> bool
    ensures { result ≡ is_free sensor blocks.now }
{
    match sensor {
        None => true,
        Some(sensor) => !has_sensor(sensor, blocks),
    }
}

fn has_sensor(sensor: u16, blocks: &[Block]) -> bool
    ensures { result ≡ has_sensor sensor blocks.now }
{
    blocks.iter().any(|block| block.sensor == Some(sensor))
}

fn is_end(blocks: usize, end: BlockEnd) -> bool
    ensures { result ≡ is_end blocks end }
{
    usize::from(end.block) < blocks
}

fn fault_of_joints(blocks: usize, joints: &[Joint]) -> Option<PlanFault>
    ensures { result ≡ fault_of_joints blocks 0 joints.now }
{
    for (i, joint) in joints.iter().enumerate() {
        if !is_end(blocks, joint.one) || !is_end(blocks, joint.two) {
            return Some(PlanFault::UnknownBlock(Part::Joint(i)));
        }
    }
    None
}

fn fault_of_turnouts(blocks: usize, turnouts: &[Turnout]) -> Option<PlanFault>
    ensures { result ≡ fault_of_turnouts blocks 0 turnouts.now }
{
    for (i, turnout) in turnouts.iter().enumerate() {
        let branches = is_end(blocks, turnout.closed) && is_end(blocks, turnout.thrown);
        if !is_end(blocks, turnout.common) || !branches {
            return Some(PlanFault::UnknownBlock(Part::Turnout(i)));
        }
    }
    None
}

/// Returns the first end that is named twice.
fn named_twice(joints: &[Joint], turnouts: &[Turnout]) -> Option<BlockEnd>
    requires joints { length joints.now ≤ 128 }
    requires turnouts { length turnouts.now ≤ 64 }
    ensures { result ≡ named_twice (ends_of joints.now turnouts.now) }
{
    let mut ends = ends_of_joints(joints);
    push_ends_of_turnouts(&mut ends, turnouts);
    first_twice(ends.as_slice())
}

fn ends_of_joints(joints: &[Joint]) -> Ends
    requires { length joints.now ≤ 128 }
    ensures ends { result.items ≡ ends_of_joints joints.now }
    ensures few { length result.items ≤ 256 }
{
    let mut ends = ArrayVec::new();
    for joint in joints {
        ends.push(joint.one);
        ends.push(joint.two);
    }
    ends
}

fn push_ends_of_turnouts(ends: &mut Ends, turnouts: &[Turnout])
    requires room { length ends.old.items ≤ 256 }
    requires turnouts { length turnouts.now ≤ 64 }
    ensures { ends.new.items ≡ ends.old.items ++ ends_of_turnouts turnouts.now }
{
    for turnout in turnouts {
        ends.push(turnout.common);
        ends.push(turnout.closed);
        ends.push(turnout.thrown);
    }
}

fn first_twice(ends: &[BlockEnd]) -> Option<BlockEnd>
    ensures { result ≡ named_twice ends.now }
{
    for (i, end) in ends.iter().enumerate() {
        let rest = &ends[i + 1..];
        if has_end(*end, rest) {
            return Some(*end);
        }
    }
    None
}

fn has_end(end: BlockEnd, ends: &[BlockEnd]) -> bool
    ensures { result ≡ has_end end ends.now }
{
    ends.iter().any(|other| end.is(*other))
}

fn fault_of_motors(decoders: &[NodeSpec], turnouts: &[Turnout]) -> Option<PlanFault>
    ensures { result ≡ fault_of_motors decoders.now 0 turnouts.now }
{
    for (i, turnout) in turnouts.iter().enumerate() {
        if decoder_of(decoders, turnout.switch).is_none() {
            return Some(PlanFault::UnknownDecoder(Part::Turnout(i)));
        }
    }
    None
}

/// Returns the index of the accessory decoder of a switch, which is counted from 1.
pub(crate) fn decoder_of(decoders: &[NodeSpec], switch: u16) -> Option<usize>
    ensures value { result ≡ decoder_of decoders.now switch }
    ensures within { IfSome result (λ i. i < length decoders.now) }
{
    if switch == 0 {
        return None;
    }
    module_index(decoders, (switch - 1) / 4 + 1)
}

fn module_index(decoders: &[NodeSpec], number: u16) -> Option<usize>
    ensures value { result ≡ module_index number 0 decoders.now }
    ensures within { IfSome result (λ i. i < length decoders.now) }
{
    for (i, spec) in decoders.iter().enumerate() {
        if is_module(number, spec) {
            return Some(i);
        }
    }
    None
}

fn is_module(number: u16, spec: &NodeSpec) -> bool
    ensures { result ≡ is_module number spec.now }
{
    match spec {
        NodeSpec::Loco(_) => false,
        NodeSpec::Accessory(own) => own.number() == number,
    }
}

impl Track {
    /// Returns the first fault of the trains of a plan for a layout with these decoders: of each in
    /// turn, and then of their speeds.
    pub(crate) fn fault_of_all_trains(
        &self,
        decoders: &[NodeSpec],
        trains: &[Train],
    ) -> Option<PlanFault>
        ensures { result ≡ fault_of_all_trains decoders.now self.now trains.now }
    {
        self.fault_of_trains(decoders, trains)
            .or_else(|| fault_of_speeds(self.blocks.as_slice(), trains))
    }

    fn fault_of_trains(&self, decoders: &[NodeSpec], trains: &[Train]) -> Option<PlanFault>
        ensures { result ≡ fault_of_trains decoders.now self.now 0 trains.now }
    {
        for (i, train) in trains.iter().enumerate() {
            let rest = &trains[i + 1..];
            if let Some(fault) = self.fault_of_train(decoders, i, train, rest) {
                return Some(fault);
            }
        }
        None
    }

    fn fault_of_train(
        &self,
        decoders: &[NodeSpec],
        i: usize,
        train: &Train,
        rest: &[Train],
    ) -> Option<PlanFault>
        ensures { result ≡ fault_of_train decoders.now self.now i train.now rest.now }
    {
        let blocks = self.blocks.as_slice();
        if !is_loco(decoders, train.decoder) {
            return Some(PlanFault::UnknownDecoder(Part::Train(i)));
        }
        if has_decoder(train.decoder, rest) {
            return Some(PlanFault::DecoderTwice(i));
        }
        if usize::from(train.position.block) >= blocks.len() {
            return Some(PlanFault::UnknownBlock(Part::Train(i)));
        }
        if train.length < 1 {
            return Some(PlanFault::TrainLength(i));
        }
        if !is_momentum(train.momentum) {
            return Some(PlanFault::Momentum(i));
        }
        if !has_front(blocks, train.position) {
            return Some(PlanFault::OffTrack(i));
        }
        if !self.is_room(train) {
            return Some(PlanFault::LongTrain {
                train: i,
                decoder: train.decoder,
                block: self.block_behind(train),
            });
        }
        None
    }
}

fn has_decoder(decoder: u8, trains: &[Train]) -> bool
    ensures { result ≡ has_decoder decoder trains.now }
{
    trains.iter().any(|train| train.decoder == decoder)
}

fn is_loco(decoders: &[NodeSpec], decoder: u8) -> bool
    ensures { result ≡ is_loco (slice_get decoders.now decoder) }
{
    match decoders.get(usize::from(decoder)) {
        Some(NodeSpec::Loco(_)) => true,
        _ => false,
    }
}

/// Whether both rates are at least 1.
fn is_momentum(momentum: Option<Momentum>) -> bool
    ensures { result ≡ is_momentum momentum }
{
    match momentum {
        None => true,
        Some(momentum) => momentum.acceleration >= 1 && momentum.braking >= 1,
    }
}
