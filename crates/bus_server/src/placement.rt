//! Putting trains on the track for clients.
ghost use Rattle.std.specs.Prelude.{◌≡◌, ◌≤◌, IsTrue, Ok, Some, length, position, slice_get};
ghost use Rattle.std.specs.List.{list_all, slice_index_or};
ghost use Rattle.std.specs.Str.{bytes_eq};
ghost use Rattle.railway.specs.Course.{after, reports_of};
ghost use Rattle.railway.specs.Course.Happening.{Places};
ghost use Rattle.railway.specs.Railway.{place_fault};
ghost use Rattle.railway.specs.Reports.{is_report};
ghost use Rattle.railway.specs.Trains.{default_state};
ghost use Rattle.bus_server.specs.NamedNodes.{names_of};
ghost use Rattle.bus_server.specs.Placement.{block_named, end_or, error_of, is_name, place_answer, places, position_of, train_named, unless_fault};

use crate::named_node::NamedNodes;
use loconet_tcp::{Facing, PlaceError, Placement};
use railway::{Block, End, PlaceFault, Position, Railway, Reports, TrainState};

/// Puts a train where a client asks for. Returns what the sensors report of it, nothing if it is
/// not put there, and the answer to the client.
pub(crate) fn place(
    railway: &mut Railway,
    nodes: &NamedNodes,
    placement: &Placement,
) -> (Reports, Result<(), PlaceError>)
    ensures railway { railway.new
        ≡ after railway.old (places (names_of nodes.now.items) railway.old placement.now) }
    ensures reports { result.0.items
        ≡ reports_of railway.old (places (names_of nodes.now.items) railway.old placement.now) }
    ensures sensors { IsTrue (list_all is_report result.0.items) }
    ensures answer { result.1
        ≡ place_answer (names_of nodes.now.items) (Some railway.old) (Ok placement.now) }
{
    let train = train_named(railway.trains(), nodes, placement.train.as_slice());
    let position = position_of(railway, train, placement);
    place_at(railway, train, position)
}

/// Puts a train at a position. Returns what the sensors report of it, nothing if it is not put
/// there, and the answer to the client.
fn place_at(
    railway: &mut Railway,
    train: usize,
    position: Position,
) -> (Reports, Result<(), PlaceError>)
    ensures railway { railway.new ≡ after railway.old (Places train position) }
    ensures reports { result.0.items ≡ reports_of railway.old (Places train position) }
    ensures sensors { IsTrue (list_all is_report result.0.items) }
    ensures answer { result.1 ≡ unless_fault (place_fault railway.old train position) }
{
    match railway.place(train, position) {
        Ok(reports) => (reports, Ok(())),
        Err(fault) => (Reports::new(), Err(error_of(fault))),
    }
}

/// Returns where a train is to be put.
fn position_of(railway: &Railway, train: usize, placement: &Placement) -> Position
    ensures { result ≡ position_of railway.now train placement.now }
{
    let facing = facing_now(railway.trains(), train);
    Position {
        block: block_named(railway.blocks(), placement.block.as_slice()) as u8,
        at: placement.front,
        facing: end_or(facing, placement.facing),
    }
}

/// Returns the end that a train faces.
fn facing_now(trains: &[TrainState], train: usize) -> End
    ensures { result ≡ (slice_index_or trains.now train default_state).front.toward }
{
    match trains.get(train) {
        Some(train) => train.front.toward,
        None => TrainState::default().front.toward,
    }
}

/// Returns the index of the first train whose decoder has this name, or how many trains there are.
fn train_named(trains: &[TrainState], nodes: &NamedNodes, name: &[u8]) -> usize
    ensures { result ≡ train_named (names_of nodes.now.items) trains.now name.now }
{
    first_train(trains, nodes, name).unwrap_or(trains.len())
}

fn first_train(trains: &[TrainState], nodes: &NamedNodes, name: &[u8]) -> Option<usize>
    ensures { result
        ≡ position (λ train. is_name name.now
        (slice_get (names_of nodes.now.items) train.decoder)) trains.now }
{
    trains
        .iter()
        .position(|train| is_name(nodes, train.decoder, name))
}

/// Whether the decoder of an index has this name.
fn is_name(nodes: &NamedNodes, decoder: u8, name: &[u8]) -> bool
    ensures { result ≡ is_name name.now (slice_get (names_of nodes.now.items) decoder) }
{
    match nodes.as_slice().get(usize::from(decoder)) {
        Some(node) => node.name.as_str().as_bytes() == name,
        None => false,
    }
}

/// Returns the index of the block of this name, or how many blocks there are.
fn block_named(blocks: &[Block], name: &[u8]) -> usize
    ensures index { result ≡ block_named blocks.now name.now }
    ensures within { result ≤ length blocks.now }
{
    first_block(blocks, name).unwrap_or(blocks.len())
}

fn first_block(blocks: &[Block], name: &[u8]) -> Option<usize>
    ensures { result ≡ position (λ block. bytes_eq block.name.bytes name.now) blocks.now }
{
    blocks.iter().position(|block| has_name(block, name))
}

fn has_name(block: &Block, name: &[u8]) -> bool
    ensures { result ≡ bytes_eq block.now.name.bytes name.now }
{
    block.name.as_str().as_bytes() == name
}

/// The end that a train is to face: without one, the end that it faces now.
fn end_or(now: End, facing: Option<Facing>) -> End
    ensures { result ≡ end_or now facing }
{
    match facing {
        None => now,
        Some(Facing::A) => End::A,
        Some(Facing::B) => End::B,
    }
}

fn error_of(fault: PlaceFault) -> PlaceError
    ensures { result ≡ error_of fault }
{
    match fault {
        PlaceFault::UnknownTrain => PlaceError::UnknownTrain,
        PlaceFault::UnknownBlock => PlaceError::UnknownBlock,
        PlaceFault::OffTrack => PlaceError::OffTrack,
    }
}
