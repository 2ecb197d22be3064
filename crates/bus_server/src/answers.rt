//! The answers to clients that ask how the decoders, the trains, the turnouts or the variables of the
//! programming track stand.
ghost use Rattle.std.specs.Prelude.{◌≡◌, ◌<◌, ◌≤◌, ◌+◌, ◌++◌, [], ℕ, List, IsTrue, None, Some, is_some, length, map, option_copied, replicate, slice_set};
ghost use Rattle.std.specs.List.{list_any, slice_index_or};
ghost use Rattle.arrayvec.specs.ArrayVec.{array_vec_len};
ghost use Rattle.decoder_node.specs.declared.node.NodeSpec.{NodeSpec as NodeSpecValue};
ghost use Rattle.layout_core.specs.declared.node.Node.{Node};
ghost use Rattle.layout_core.specs.DecoderStates.{decoder_line, decoder_state_of};
ghost use Rattle.layout_core.specs.Nodes.{spec_of};
ghost use Rattle.loconet_tcp.specs.ClientLines.{states_ok_text};
ghost use Rattle.programming_track.specs.Bench.{next_change};
ghost use Rattle.railway.specs.declared.joint.TurnoutState.{TurnoutState};
ghost use Rattle.railway.specs.declared.train.TrainState.{TrainState};
ghost use Rattle.railway_text.specs.Turnouts.{turnout_line};
ghost use Rattle.bus_server.specs.Answers.{after_change, after_line, after_state, after_variable, answers_after, count_of, line_of_change, lines_of, next_line, node_lines, text_of_train, train_lines, turnout_lines, variable_line};
ghost use Rattle.bus_server.specs.SendQueues.{names_client};
ghost use Rattle.bus_server.specs.NamedNodes.{names_of, specs_of};

use crate::CLIENTS;
use crate::named_node::NamedNodes;
use crate::under_way::UnderWay;
use bus::{MAX_CLIENTS, Outcome};
use decoder_node::{NodeList, NodeSpec};
use layout_core::World;
use loconet_tcp::{Text, Things, push_change, push_node, push_state, push_states_ok};
use programming_track::ProgrammingBench;
use railway::Railway;
use railway_text::{StateLine, TrainPlace, turnout_line};
use show_text::Line;

/// The answers to clients that ask how the decoders, the trains, the turnouts or the variables of the
/// programming track stand: a line for each of them, and then that all were sent.
#[derive(Drop)]
pub(crate) struct Answers {
    pub(crate) nodes: NamedNodes,
    /// For each client, the answer under way.
    pub(crate) under_way: [Option<UnderWay>; MAX_CLIENTS],
    ghost eight: { length under_way ≡ 8 },
}

impl Answers {
    /// Creates the answers about these decoders; none is under way.
    pub(crate) fn new(nodes: NamedNodes) -> Answers
        ensures nodes { result.nodes ≡ nodes }
        ensures none { result.under_way ≡ replicate 8 None }
    {
        Answers {
            nodes,
            under_way: [None, None, None, None, None, None, None, None],
        }
    }

    /// Whether an answer is under way.
    pub(crate) fn is_any_under_way(&self) -> bool
        ensures { result ≡ list_any is_some self.now.under_way }
    {
        self.under_way.iter().any(|answer| answer.is_some())
    }

    /// Begins an answer to a client that asks, and ends that to a client that disconnects.
    pub(crate) fn update(&mut self, outcome: &Outcome)
        requires { IsTrue (names_client outcome.now) }
        ensures under_way { self.new.under_way ≡ answers_after outcome.now self.old.under_way }
        ensures nodes { self.new.nodes ≡ self.old.nodes }
    {
        match outcome {
            Outcome::StatesRequested { client, things } => {
                self.under_way[usize::from(*client)] = Some(UnderWay {
                    things: *things,
                    next: 0,
                });
            }
            Outcome::Disconnected { client } => self.under_way[usize::from(*client)] = None,
            _ => {}
        }
    }

    /// Returns the line that a client, 0 to 7, receives next; nothing where no answer is under way.
    pub(crate) fn next_line(
        &self,
        client: u8,
        world: &World,
        railway: Option<&Railway>,
        programming: Option<&ProgrammingBench>,
    ) -> Text
        requires client { client < 8 }
        requires specs { specs_of self.now.nodes.items ≡ map spec_of world.now.nodes }
        ensures line { result.items
            ≡ next_line (lines_of (names_of self.now.nodes.items) world.now.nodes
            (option_copied railway.entry)) (option_copied programming.entry)
            (slice_index_or self.now.under_way client None) }
        ensures most { array_vec_len result ≤ 647 }
    {
        match &self.under_way[usize::from(client)] {
            Some(answer) => self.line(answer, world, railway, programming),
            None => Text::new(),
        }
    }

    /// Notes that each client has received its next line.
    pub(crate) fn advance(
        &mut self,
        railway: Option<&Railway>,
        programming: Option<&ProgrammingBench>,
    )
        ensures under_way { self.new.under_way
            ≡ map (after_line (count_of (names_of self.old.nodes.items)
            (option_copied railway.entry)) (option_copied programming.entry))
            self.old.under_way }
        ensures nodes { self.new.nodes ≡ self.old.nodes }
    {
        for client in 0..CLIENTS {
            self.advance_one(client, railway, programming);
        }
    }

    /// Notes that a client has received its next line.
    fn advance_one(
        &mut self,
        client: u8,
        railway: Option<&Railway>,
        programming: Option<&ProgrammingBench>,
    )
        requires { client < 8 }
        ensures under_way { self.new.under_way
            ≡ slice_set self.old.under_way client
            (after_line (count_of (names_of self.old.nodes.items) (option_copied railway.entry))
            (option_copied programming.entry)
            (slice_index_or self.old.under_way client None)) }
        ensures nodes { self.new.nodes ≡ self.old.nodes }
    {
        let index = usize::from(client);
        self.under_way[index] = match self.under_way[index] {
            Some(answer) => self.after_line(answer, railway, programming),
            None => None,
        };
    }

    /// Returns an answer after its next line; `None` after its last.
    fn after_line(
        &self,
        answer: UnderWay,
        railway: Option<&Railway>,
        programming: Option<&ProgrammingBench>,
    ) -> Option<UnderWay>
        ensures { result
            ≡ after_line (count_of (names_of self.now.nodes.items) (option_copied railway.entry))
            (option_copied programming.entry) (Some answer) }
    {
        let count = self.count(answer.things, railway);
        match answer.things {
            Things::Variables => after_variable(answer.next, programming),
            Things::Nodes | Things::Trains | Things::Turnouts => {
                after_state(count, answer.things, answer.next)
            }
        }
    }

    /// Returns how many there are of these things, at most 64.
    fn count(&self, things: Things, railway: Option<&Railway>) -> usize
        ensures count { result
            ≡ count_of (names_of self.now.nodes.items) (option_copied railway.entry) things }
        ensures most { result ≤ 64 }
    {
        match things {
            Things::Nodes => self.nodes.len(),
            Things::Trains => match railway {
                Some(railway) => railway.trains().len(),
                None => 0,
            },
            Things::Turnouts => match railway {
                Some(railway) => railway.turnouts().len(),
                None => 0,
            },
            Things::Variables => 0,
        }
    }

    /// Returns the next line of an answer.
    fn line(
        &self,
        answer: &UnderWay,
        world: &World,
        railway: Option<&Railway>,
        programming: Option<&ProgrammingBench>,
    ) -> Text
        requires specs { specs_of self.now.nodes.items ≡ map spec_of world.now.nodes }
        ensures line { result.items
            ≡ next_line (lines_of (names_of self.now.nodes.items) world.now.nodes
            (option_copied railway.entry)) (option_copied programming.entry) (Some answer.now) }
        ensures most { array_vec_len result ≤ 647 }
    {
        match answer.things {
            Things::Nodes => self.node(answer.next, world),
            Things::Trains => self.train(answer.next, railway),
            Things::Turnouts => turnout(answer.next, railway),
            Things::Variables => variable(answer.next, programming),
        }
    }

    /// Returns the line of a train; `TRAINS OK` if there is none of this index.
    fn train(&self, i: usize, railway: Option<&Railway>) -> Text
        ensures line { result.items
            ≡ slice_index_or (train_lines (names_of self.now.nodes.items)
            (option_copied railway.entry)) i (states_ok_text Things.Trains) }
        ensures most { array_vec_len result ≤ 647 }
    {
        let mut text = Text::new();
        match railway {
            Some(railway) if i < railway.trains().len() => {
                push_state(&mut text, self.train_line(i, railway).as_str().as_bytes());
            }
            _ => push_states_ok(&mut text, Things::Trains),
        }
        text
    }

    /// Returns the line of a train, without its line end.
    fn train_line(&self, i: usize, railway: &Railway) -> StateLine
        requires { i < length railway.now.trains }
        ensures { (none : TrainState) → result.bytes
            ≡ text_of_train (names_of self.now.nodes.items) railway.now.network
            (slice_index_or railway.now.trains i none) }
    {
        let blocks = railway.blocks();
        let train = &railway.trains()[i];
        let name = self.name_or_none(usize::from(train.decoder));
        TrainPlace::of(blocks, train, railway.speed(i)).line(name, blocks)
    }

    /// Returns the line of a decoder; `NODES OK` if there is no decoder of this index.
    fn node(&self, decoder: usize, world: &World) -> Text
        requires specs { specs_of self.now.nodes.items ≡ map spec_of world.now.nodes }
        ensures line { result.items
            ≡ slice_index_or (node_lines (names_of self.now.nodes.items) world.now.nodes) decoder
            (states_ok_text Things.Nodes) }
        ensures most { array_vec_len result ≤ 647 }
    {
        let mut text = Text::new();
        if decoder < self.nodes.len() {
            push_node(
                &mut text,
                self.node_line(decoder, world).as_str().as_bytes(),
            );
        } else {
            push_states_ok(&mut text, Things::Nodes);
        }
        text
    }

    /// Returns the line of a decoder, without its first word and its line end: its name, its address and how it runs or
    /// how its outputs are, as `station` prints it (`decoder_line`).
    fn node_line(&self, decoder: usize, world: &World) -> Line
        requires specs { specs_of self.now.nodes.items ≡ map spec_of world.now.nodes }
        requires decoder { decoder < length (names_of self.now.nodes.items) }
        ensures { (name : List ℕ) (spec : NodeSpecValue) (node : Node) → result.bytes
            ≡ decoder_line (slice_index_or (names_of self.now.nodes.items) decoder name)
            (slice_index_or (map spec_of world.now.nodes) decoder spec)
            (decoder_state_of (slice_index_or world.now.nodes decoder node)) }
    {
        world
            .decoder_state(decoder)
            .line(self.name(decoder), self.spec(decoder))
    }

    /// The name of a decoder, at most 16 bytes.
    fn name(&self, decoder: usize) -> &str
        requires { decoder < length (names_of self.now.nodes.items) }
        ensures name { (name : List ℕ)
            → result.now ≡ slice_index_or (names_of self.now.nodes.items) decoder name }
        ensures most { length result.now ≤ 16 }
    {
        self.nodes.as_slice()[decoder].name.as_str()
    }

    /// The name of a decoder, at most 16 bytes; nothing if there is none of this index.
    fn name_or_none(&self, decoder: usize) -> &str
        ensures name { result.now ≡ slice_index_or (names_of self.now.nodes.items) decoder [] }
        ensures most { length result.now ≤ 16 }
    {
        if decoder < self.nodes.len() {
            self.name(decoder)
        } else {
            ""
        }
    }

    /// The description of a decoder.
    fn spec(&self, decoder: usize) -> &NodeSpec
        requires { decoder < length (specs_of self.now.nodes.items) }
        ensures { (spec : NodeSpecValue)
            → result.now ≡ slice_index_or (specs_of self.now.nodes.items) decoder spec }
    {
        &self.nodes.as_slice()[decoder].spec
    }
}

/// Returns the line of a turnout; `TURNOUTS OK` if there is none of this index.
fn turnout(i: usize, railway: Option<&Railway>) -> Text
    ensures line { result.items
        ≡ slice_index_or (turnout_lines (option_copied railway.entry)) i
        (states_ok_text Things.Turnouts) }
    ensures most { array_vec_len result ≤ 647 }
{
    let mut text = Text::new();
    match railway {
        Some(railway) if i < railway.turnouts().len() => {
            push_state(&mut text, line_of_turnout(i, railway).as_str().as_bytes());
        }
        _ => push_states_ok(&mut text, Things::Turnouts),
    }
    text
}

/// Returns the line of a turnout, without its line end.
fn line_of_turnout(i: usize, railway: &Railway) -> StateLine
    requires { i < length railway.now.network.turnouts }
    ensures { (none : TurnoutState) → result.bytes
        ≡ turnout_line (slice_index_or railway.now.network.turnouts i none) }
{
    turnout_line(&railway.turnouts()[i])
}

/// Returns the line of the next variable from a position on that differs from the file; `CVS OK` if
/// none does.
fn variable(from: usize, programming: Option<&ProgrammingBench>) -> Text
    ensures line { result.items ≡ variable_line (option_copied programming.entry) from }
    ensures most { array_vec_len result ≤ 647 }
{
    let mut text = Text::new();
    match programming {
        Some(bench) => push_variable(&mut text, from, bench),
        None => push_states_ok(&mut text, Things::Variables),
    }
    text
}

/// Appends the line of the next variable from a position on that differs from the file; `CVS OK` if
/// none does.
fn push_variable(text: &mut Text, from: usize, bench: &ProgrammingBench)
    requires { array_vec_len text.old + 60 ≤ 800 }
    ensures line { text.new.items
        ≡ text.old.items ++ line_of_change bench.now (next_change bench.now from) }
    ensures most { array_vec_len text.new ≤ array_vec_len text.old + 60 }
{
    match bench.next_change(from) {
        Some(position) => {
            let name = bench.name(position).as_bytes();
            push_change(text, name, bench.number(position), bench.value(position));
        }
        None => push_states_ok(text, Things::Variables),
    }
}

/// Returns an answer about things of this number after its next line; `None` after its last.
fn after_state(count: usize, things: Things, next: usize) -> Option<UnderWay>
    requires { count ≤ 64 }
    ensures { result ≡ after_state count things next }
{
    if next >= count {
        return None;
    }
    Some(UnderWay {
        things,
        next: next + 1,
    })
}

/// Returns an answer about variables after its next line; `None` after its last.
fn after_variable(from: usize, programming: Option<&ProgrammingBench>) -> Option<UnderWay>
    ensures { result ≡ after_variable (option_copied programming.entry) from }
{
    let position = programming?.next_change(from)?;
    Some(UnderWay {
        things: Things::Variables,
        next: position + 1,
    })
}

/// The decoders without their names.
pub(crate) fn specs(nodes: &NamedNodes) -> NodeList
    ensures { result.items ≡ specs_of nodes.now.items }
{
    let mut specs = NodeList::new();
    for node in nodes.as_slice() {
        specs.push(node.spec);
    }
    specs
}
