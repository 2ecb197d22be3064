//! What pages are told of: the decoders of a layout, and the plan and the trains of a railway. Each
//! of these items has a state and a message.
ghost use Rattle.std.specs.Prelude.{◌≡◌, ◌<◌, ◌≤◌, [], get_or, length, map, option_copied, slice_get};
ghost use Rattle.std.specs.List.{slice_index_or};
ghost use Rattle.layout_core.specs.declared.node.Node.{Node};
ghost use Rattle.layout_core.specs.DecoderStates.{decoder_state_of};
ghost use Rattle.layout_core.specs.Nodes.{spec_of};
ghost use Rattle.roster.specs.Decoders.{decoder_name, entries_of, specs_of};
ghost use Rattle.roster.specs.Entry.{Entry};
ghost use Rattle.pages.specs.Items.{block_message, item_messages, item_states, joint_message, max_items, node_message, parts_of, plan_messages, plan_states, same_item_state, state_of_turnout, turnout_message};
ghost use Rattle.railway_text.specs.TrainPlace.{place_of, train_line};

use crate::words::{Message, push_end, push_point};
use decoder_node::MAX_NODES;
use layout_core::{DecoderState, World};
use railway::{
    Block, End, Joint, MAX_BLOCKS, MAX_JOINTS, MAX_TRAINS, MAX_TURNOUTS, Railway, TrainState,
    TurnoutState,
};
use railway_text::{TrainPlace, side_of};
use roster::{Roster, decoder_name};
use text::push_number;

/// The most items that pages are told of.
pub(crate) const MAX_ITEMS: usize = MAX_NODES + MAX_BLOCKS + MAX_JOINTS + MAX_TURNOUTS + MAX_TRAINS;

/// The state of an item.
#[derive(Clone, Copy)]
pub enum ItemState {
    Decoder(DecoderState),
    /// A block or a joint of the plan, which do not change.
    Part,
    /// A turnout: whether it moves, and whether it lies thrown, or did last.
    Turnout { is_moving: bool, is_thrown: bool },
    Train(TrainPlace),
}

impl ItemState {
    /// Whether the two states are the same.
    pub(crate) fn is_same(&self, other: &ItemState) -> bool
        ensures { result ≡ same_item_state self.now other.now }
    {
        match (self, other) {
            (ItemState::Decoder(one), ItemState::Decoder(other)) => one.is_same(other),
            (ItemState::Part, ItemState::Part) => true,
            (
                ItemState::Turnout {
                    is_moving: one_moving,
                    is_thrown: one_thrown,
                },
                ItemState::Turnout {
                    is_moving,
                    is_thrown,
                },
            ) => one_moving == is_moving && one_thrown == is_thrown,
            (ItemState::Train(one), ItemState::Train(other)) => one.is(*other),
            _ => false,
        }
    }
}

/// Returns the number of items.
pub(crate) fn items(world: &World, railway: Option<&Railway>) -> usize
    ensures count { result ≡ length (item_states world.now.nodes (option_copied railway.entry)) }
    ensures most { result ≤ max_items }
{
    match railway {
        Some(railway) => world.nodes() + plan_items(railway),
        None => world.nodes(),
    }
}

/// Returns the number of blocks, joints, turnouts and trains.
fn plan_items(railway: &Railway) -> usize
    ensures count { result ≡ length (plan_states railway.now) }
    ensures most { result ≤ 320 }
{
    parts(railway) + railway.turnouts().len() + railway.trains().len()
}

/// Returns the number of blocks and joints.
fn parts(railway: &Railway) -> usize
    ensures count { result ≡ parts_of railway.now.network }
    ensures most { result ≤ 192 }
{
    railway.blocks().len() + railway.joints().len()
}

/// Returns the present state of an item, or `None` if there are no more.
pub(crate) fn item_state(world: &World, railway: Option<&Railway>, i: usize) -> Option<ItemState>
    ensures { result ≡ slice_get (item_states world.now.nodes (option_copied railway.entry)) i }
{
    let decoders = world.nodes();
    if i < decoders {
        return Some(ItemState::Decoder(world.decoder_state(i)));
    }
    match railway {
        Some(railway) => plan_state(railway, i - decoders),
        None => None,
    }
}

/// Returns the present state of a part of the plan or of a train.
fn plan_state(railway: &Railway, i: usize) -> Option<ItemState>
    ensures { result ≡ slice_get (plan_states railway.now) i }
{
    let parts = parts(railway);
    if i < parts {
        return Some(ItemState::Part);
    }
    let i = i - parts;
    let turnouts = railway.turnouts();
    if i < turnouts.len() {
        return Some(state_of_turnout(&turnouts[i]));
    }
    let i = i - turnouts.len();
    match railway.trains().get(i) {
        Some(train) => {
            let speed = railway.speed(i);
            Some(ItemState::Train(TrainPlace::of(railway.blocks(), train, speed)))
        }
        None => None,
    }
}

/// Returns the state of a turnout.
fn state_of_turnout(state: &TurnoutState) -> ItemState
    ensures { result ≡ state_of_turnout state.now }
{
    ItemState::Turnout {
        is_moving: state.is_moving(),
        is_thrown: state.is_thrown,
    }
}

/// Returns the message of an item.
pub(crate) fn item_message(
    roster: Option<&Roster>,
    world: &World,
    railway: Option<&Railway>,
    i: usize,
) -> Message
    requires { map spec_of world.now.nodes ≡ specs_of (entries_of roster) }
    ensures { result.bytes ≡ get_or (item_messages (entries_of roster.entry) world.now.nodes
        (option_copied railway.entry)) i [] }
{
    let decoders = world.nodes();
    if i < decoders {
        return node_message(roster, world, i);
    }
    match railway {
        Some(railway) => plan_message(roster, railway, i - decoders),
        None => Message::new(),
    }
}

/// Returns `NODE` and the line of a decoder.
fn node_message(roster: Option<&Roster>, world: &World, decoder: usize) -> Message
    requires decoders { map spec_of world.now.nodes ≡ specs_of (entries_of roster) }
    requires decoder { decoder < length world.now.nodes }
    ensures { (entry : Entry) → (node : Node) → result.bytes
        ≡ node_message (slice_index_or (entries_of roster.entry) decoder entry)
        (decoder_state_of (slice_index_or world.now.nodes decoder node)) }
{
    let mut message = Message::new();
    message.push_str("NODE ");
    // Without a roster there are no decoders.
    if let Some(roster) = roster {
        let specs = roster.nodes();
        let state = world.decoder_state(decoder);
        let line = state.line(roster.name(decoder), &specs.as_slice()[decoder]);
        message.push_str(line.as_str());
    }
    message
}

/// Returns the message of a part of the plan or of a train.
fn plan_message(roster: Option<&Roster>, railway: &Railway, i: usize) -> Message
    ensures { result.bytes ≡ get_or (plan_messages (entries_of roster.entry) railway.now) i [] }
{
    let blocks = railway.blocks();
    if i < blocks.len() {
        return block_message(&blocks[i]);
    }
    let i = i - blocks.len();
    let joints = railway.joints();
    if i < joints.len() {
        return joint_message(blocks, &joints[i]);
    }
    let i = i - joints.len();
    let turnouts = railway.turnouts();
    if i < turnouts.len() {
        return turnout_message(blocks, &turnouts[i]);
    }
    let i = i - turnouts.len();
    match railway.trains().get(i) {
        Some(train) => message_of_train(roster, blocks, train, railway.speed(i)),
        None => Message::new(),
    }
}

/// Returns the message of a train of this speed.
fn message_of_train(
    roster: Option<&Roster>,
    blocks: &[Block],
    train: &TrainState,
    speed: u32,
) -> Message
    ensures { result.bytes
        ≡ train_line (decoder_name (slice_get (entries_of roster.entry) train.now.decoder))
        blocks.now (place_of blocks.now train.now speed) }
{
    let name = decoder_name(roster, usize::from(train.decoder));
    let mut message = Message::new();
    message.push_str(
        TrainPlace::of(blocks, train, speed)
            .line(name, blocks)
            .as_str(),
    );
    message
}

/// Returns `BLOCK NAME LENGTH`, and where its ends are drawn.
#[tactic(auto, unfolding(crate::specs::Items::block_message))]
fn block_message(block: &Block) -> Message
    ensures { result.bytes ≡ block_message block.now }
{
    let mut message = Message::new();
    message.push_str("BLOCK ");
    message.push_str(block.name.as_str());
    message.push_str(" ");
    push_number(&mut message, u64::from(block.length));
    push_point(&mut message, End::A, block.point_a);
    push_point(&mut message, End::B, block.point_b);
    message
}

/// Returns `JOINT` and its two ends.
#[tactic(auto, unfolding(crate::specs::Items::joint_message))]
fn joint_message(blocks: &[Block], joint: &Joint) -> Message
    ensures { result.bytes ≡ joint_message blocks.now joint.now }
{
    let mut message = Message::new();
    message.push_str("JOINT ");
    push_end(&mut message, blocks, joint.one);
    message.push_str(" ");
    push_end(&mut message, blocks, joint.two);
    message
}

/// Returns `TURNOUT`, its number, its common, closed and thrown end, and how it lies.
#[tactic(auto, unfolding(crate::specs::Items::turnout_message))]
fn turnout_message(blocks: &[Block], state: &TurnoutState) -> Message
    ensures { result.bytes ≡ turnout_message blocks.now state.now }
{
    let turnout = &state.turnout;
    let mut message = Message::new();
    message.push_str("TURNOUT ");
    push_number(&mut message, u64::from(turnout.switch));
    message.push_str(" ");
    push_end(&mut message, blocks, turnout.common);
    message.push_str(" ");
    push_end(&mut message, blocks, turnout.closed);
    message.push_str(" ");
    push_end(&mut message, blocks, turnout.thrown);
    message.push_str(" ");
    message.push_str(side_of(state));
    message
}
