//! What a row shows of an event.
ghost use Rattle.std.specs.Prelude.{◌≡◌, ◌≤◌, ◌<◌, Some, IfSome};
ghost use Rattle.std.specs.Str.{bytes_eq};
ghost use Rattle.dcc_packet.specs.Reading.{instruction_of};
ghost use Rattle.trace.specs.Node.{is_on};
ghost use Rattle.timeline.specs.Rows.{counts, height_of, is_address, is_emergency, is_for, is_for_loco, is_for_module, is_in, is_packets, is_part, is_sent_to, is_stop, is_switch, lane_height, mark_if, part_of, part_sent, speed_height, state_height, switch_height};

use crate::event::Event;
use crate::row::{Kind, Part, Row};
use dcc_packet::{Address, Instr, Module, Motion, Packet, read};
use trace::{Name, ReportedState, Seen, Switches, last_of};

/// The kind of decoder that a packet is sent to.
fn part_of(instr: &Option<Instr>) -> Part
    ensures { result ≡ part_of instr.now }
{
    match instr {
        Some(
            Instr::Speed { .. }
            | Instr::Speed128 { .. }
            | Instr::GroupOne { .. }
            | Instr::GroupTwo { .. }
            | Instr::GroupThree { .. },
        ) => Part::Locomotives,
        Some(Instr::Accessory { .. }) => Part::Accessories,
        Some(Instr::Idle) => Part::Idle,
        Some(Instr::Reset | Instr::StopAll { .. }) | None => Part::Everyone,
    }
}

fn is_part(one: Part, other: Part) -> bool
    ensures { result ≡ is_part one other }
{
    one == other
}

/// What a turn sent.
fn part_sent(packet: &Option<Packet>) -> Part
    ensures { result ≡ part_sent packet.now }
{
    match packet {
        Some(packet) => part_of(&read(packet)),
        None => Part::Unpowered,
    }
}

fn is_in(part: Part, event: &Event) -> bool
    ensures { result ≡ is_in part event.now }
{
    match event {
        Event::TurnBegan(turn) => is_part(part, part_sent(&turn.packet)),
        Event::Shown(_) => false,
        Event::Message => is_part(part, Part::Messages),
    }
}

fn is_address(one: Address, other: Address) -> bool
    ensures { result ≡ is_address one other }
{
    match (one, other) {
        (Address::Short(one), Address::Short(other)) => one == other,
        (Address::Long(one), Address::Long(other)) => one == other,
        (Address::Short(_), Address::Long(_)) | (Address::Long(_), Address::Short(_)) => false,
    }
}

fn is_for_loco(own: Address, instr: &Option<Instr>) -> bool
    ensures { result ≡ is_for_loco own instr.now }
{
    match instr {
        Some(
            Instr::Speed { address, .. }
            | Instr::Speed128 { address, .. }
            | Instr::GroupOne { address, .. }
            | Instr::GroupTwo { address, .. }
            | Instr::GroupThree { address, .. },
        ) => is_address(own, *address),
        Some(Instr::Accessory { .. } | Instr::Idle | Instr::Reset | Instr::StopAll { .. }) | None =>
            false,
    }
}

fn is_for_module(own: Module, instr: &Option<Instr>) -> bool
    ensures { result ≡ is_for_module own instr.now }
{
    match instr {
        Some(Instr::Accessory { module, .. }) => own.number() == module.number(),
        _ => false,
    }
}

/// Whether a packet is sent to the decoder of this state.
fn is_for(reported_state: &ReportedState, packet: &Packet) -> bool
    ensures { result ≡ is_for reported_state.now (instruction_of packet.now) }
{
    match reported_state {
        ReportedState::Loco { address, .. } => is_for_loco(*address, &read(packet)),
        ReportedState::Accessory { module, .. } => is_for_module(*module, &read(packet)),
    }
}

/// Whether a turn sent a packet to the decoder of this state.
fn is_sent_to(reported_state: &ReportedState, packet: &Option<Packet>) -> bool
    ensures { result ≡ is_sent_to reported_state.now packet.now }
{
    match packet {
        Some(packet) => is_for(reported_state, packet),
        None => false,
    }
}

/// Returns 48 for the last step, and for each other step that fraction of it.
fn speed_height(motion: Motion) -> u64
    ensures value { result ≡ speed_height motion }
    ensures most { result ≤ 48 }
{
    match motion {
        Motion::Stop | Motion::Emergency => 0,
        Motion::Step { of, n } => (48 * u64::from(n) / u64::from(last_of(of))).min(48),
    }
}

fn mark_if(is: bool) -> Option<u64>
    ensures value { result ≡ mark_if is }
    ensures most { IfSome result (λ height. height ≤ 48) }
{
    if is { Some(6) } else { None }
}

fn switch_height(is: bool) -> u64
    ensures value { result ≡ switch_height is }
    ensures most { result ≤ 48 }
{
    if is { 8 } else { 0 }
}

fn is_stop(motion: Motion) -> bool
    ensures { result ≡ is_stop motion }
{
    match motion {
        Motion::Stop => true,
        Motion::Emergency | Motion::Step { .. } => false,
    }
}

fn is_emergency(motion: Motion) -> bool
    ensures { result ≡ is_emergency motion }
{
    match motion {
        Motion::Emergency => true,
        Motion::Stop | Motion::Step { .. } => false,
    }
}

fn is_on(switches: &Switches, number: u8) -> Option<u64>
    ensures value { result ≡ Some (switch_height (is_on switches.now number)) }
    ensures most { IfSome result (λ height. height ≤ 48) }
{
    Some(switch_height(switches.is_on(usize::from(number))))
}

/// What a row of this kind shows of a decoder in this state.
fn state_height(kind: Kind, reported_state: &ReportedState) -> Option<u64>
    ensures value { result ≡ state_height kind reported_state.now }
    ensures most { IfSome result (λ height. height ≤ 48) }
{
    match reported_state {
        ReportedState::Loco {
            motion,
            forward,
            functions,
            ..
        } => match kind {
            Kind::Speed => Some(speed_height(*motion)),
            Kind::Stops => mark_if(is_stop(*motion)),
            Kind::Emergencies => mark_if(is_emergency(*motion)),
            Kind::Direction => Some(switch_height(*forward)),
            Kind::Function(number) => is_on(functions, number),
            Kind::Output(_) | Kind::Packets => None,
        },
        ReportedState::Accessory { outputs, .. } => match kind {
            Kind::Output(number) => is_on(outputs, number),
            _ => None,
        },
    }
}

fn is_packets(kind: Kind) -> bool
    ensures { result ≡ is_packets kind }
{
    match kind {
        Kind::Packets => true,
        _ => false,
    }
}

pub(crate) fn is_named(seen: &Seen, name: &Name) -> bool
    ensures { result ≡ bytes_eq seen.now.name name.now }
{
    seen.name.bytes() == name.bytes()
}

/// What the row of this kind in a lane shows of an event.
pub(crate) fn lane_height(lane: &Seen, kind: Kind, event: &Event) -> Option<u64>
    ensures value { result ≡ lane_height lane.now kind event.now }
    ensures most { IfSome result (λ height. height ≤ 48) }
{
    match event {
        Event::TurnBegan(turn) => {
            mark_if(is_packets(kind) && is_sent_to(&lane.reported_state, &turn.packet))
        }
        Event::Shown(seen) => {
            if is_named(seen, &lane.name) {
                state_height(kind, &seen.reported_state)
            } else {
                None
            }
        }
        Event::Message => None,
    }
}

/// Returns the height in pixels of what a row shows of an event, at most 48, or `None` if it shows
/// nothing.
pub(crate) fn height_of(row: &Row, event: &Event) -> Option<u64>
    ensures value { result ≡ height_of row.now event.now }
    ensures most { IfSome result (λ height. height ≤ 48) }
{
    match row {
        Row::Strip(part) => mark_if(is_in(*part, event)),
        Row::Lane(lane, kind) => lane_height(lane, *kind, event),
    }
}

fn is_switch(kind: Kind) -> bool
    ensures { result ≡ is_switch kind }
{
    match kind {
        Kind::Function(_) | Kind::Output(_) => true,
        _ => false,
    }
}

/// Whether the row of this kind in a lane shows anything of an event.
pub(crate) fn is_parsed(lane: &Seen, kind: Kind, event: &Event) -> bool
    ensures { result ≡ counts (is_switch kind) (lane_height lane.now kind event.now) }
{
    match lane_height(lane, kind, event) {
        Some(height) => !is_switch(kind) || height > 0,
        None => false,
    }
}
