//! The laws of every list of calls.
ghost use Rattle.std.specs.Prelude.{◌≡◌, ◌<◌, ◌≤◌, ◌++◌, ℕ, List, length, IfSome, IsTrue};
ghost use Rattle.dcc_packet.specs.Packet.{is_checked};
ghost use Rattle.ln_frame.specs.Stream.{messages_of};
ghost use Rattle.ln_frame.specs.Unfinished.{unfinished_of};
ghost use Rattle.station_core.specs.ThrottleView.{ThrottleView, bytes_of, known_after_all};
ghost use Rattle.station_core.specs.Messages.{bytes_on, carried_out_on};
ghost use Rattle.station_core.specs.Moments.{AtEveryMoment};
ghost use Rattle.station_core.specs.Neighbours.{NeighboursApart};
ghost use Rattle.station_core.specs.Powered.{HasDesk};
ghost use Rattle.station_core.specs.Promises.{ChangesFirst, ChangesWait, SwitchesAreSent, SwitchesInOrder};
ghost use Rattle.ln_ops.specs.declared.op.Op.{Op as OpOf};
ghost use Rattle.station_core.specs.Runs.{Covers, answer_of, state_after, state_of};
ghost use Rattle.station_core.specs.Station.{after_byte, after_turn, answer_to_byte, packet_of_turn, replied, sent};
ghost use Rattle.station_core.specs.Seen.{Seen, known_of, scheduled};
ghost use Rattle.refresh_ring.specs.Scheduled.{IsScheduled};
ghost use Rattle.station_core.specs.Sent.{IsPacketOfDesk};
ghost use Rattle.station_core.specs.declared.call.Call.{Call as CallOf};
ghost use Rattle.station_core.specs.declared.call.Call.TheVariants.{Byte as ByteCall, Turn as TurnCall};

use ln_frame::{any_cut, left_is_enough};

/// The effect of a call on a station, and its result, by its kind: a byte is answered by a reply or
/// by nothing, a turn by a packet or, while off, by none.
#[tactic(auto, unfolding(crate::specs::Station::moved))]
pub fn calls_are_moves()
    ensures after_byte { (seen : Seen) (line byte : ℕ)
        → state_of seen (ByteCall line byte) ≡ after_byte seen line byte }
    ensures to_byte { (seen : Seen) (line byte : ℕ)
        → answer_of seen (ByteCall line byte) ≡ replied (answer_to_byte seen line byte) }
    ensures after_turn { (seen : Seen) → state_of seen TurnCall ≡ after_turn seen }
    ensures to_turn { (seen : Seen) → answer_of seen TurnCall ≡ sent (packet_of_turn seen) }
{}

/// From any start, in a full refresh cycle of a slot each of its packets is sent, for what is in
/// the slot at that turn.
pub fn coverage()
    ensures { (start : Seen) (calls : List CallOf) → Covers start calls }
{
    left_is_enough();
    refresh_ring::laws::four_turns();
}

/// What a turn sends is a packet of the desk at that moment, and never of an older value.
pub fn packets_of_the_desk()
    ensures { (seen : Seen) → IsPacketOfDesk seen.powered.power seen (packet_of_turn seen) }
{
    refresh_ring::laws::picks_are_due();
}

/// What a turn sends has 3 to 5 bytes, the last of them a right check.
pub fn packets_are_short()
    ensures some { (seen : Seen) → IfSome (packet_of_turn seen) (λ packet. 3 ≤ length packet) }
    ensures few { (seen : Seen) → IfSome (packet_of_turn seen) (λ packet. length packet ≤ 5) }
    ensures checked { (seen : Seen)
        → IfSome (packet_of_turn seen) (λ packet. IsTrue (is_checked packet)) }
{}

/// From any start, a packet of a slot that waits is sent within four turns for each send ahead of
/// it and four more, for what is in the slot at that turn.
pub fn changes_first()
    ensures { (start : Seen) (calls : List CallOf) → ChangesFirst start calls }
{
    left_is_enough();
    refresh_ring::laws::changes_first();
}

/// Each place that an accepted message changes waits then, where its slot is refreshed.
pub fn changes_wait()
    ensures { (seen : Seen) (op : OpOf) → ChangesWait seen op }
{
    refresh_ring::laws::changes_first();
    refresh_ring::laws::switches_in_order();
}

/// From any start, switch requests are sent in order, each twice.
pub fn switches_in_order()
    ensures { (start : Seen) (calls : List CallOf) → SwitchesInOrder start calls }
{
    refresh_ring::laws::switches_in_order();
}

/// From a start that a station can have, all that was to send of switch requests is sent in 2,160
/// turns with power.
pub fn switches_are_sent()
    ensures { (start : Seen) (calls : List CallOf) → IsScheduled (scheduled start)
        → SwitchesAreSent start calls }
{
    left_is_enough();
    refresh_ring::laws::switches_in_order();
}

/// From a start that a station can have, no two neighbouring packets go to one locomotive address
/// or one module.
pub fn neighbours()
    ensures { (start : Seen) (calls : List CallOf) → IsScheduled (scheduled start)
        → NeighboursApart start calls }
{
    refresh_ring::laws::neighbours();
    refresh_ring::laws::switches_in_order();
    refresh_ring::laws::picks_are_due();
}

/// From any start, the power and the desk of a station are what throttles can know: those that the
/// messages of its lines make, whatever is sent meanwhile.
pub fn desk_of_messages()
    ensures { (start : Seen) (calls : List CallOf)
        → (state_after start calls).powered ≡ (known_after_all (known_of start) calls).powered }
{
    left_is_enough();
}

/// The messages that are carried out on a line are the whole messages of its bytes: of the
/// unfinished ones and then those received.
pub fn messages_of_a_line()
    ensures { (known : ThrottleView) (calls : List CallOf) (line : ℕ) → line < length known.lines
        → unfinished_of (bytes_of known line) ≡ bytes_of known line
        → carried_out_on line known calls
        ≡ messages_of (bytes_of known line ++ bytes_on line calls) }
{
    left_is_enough();
    any_cut();
}

/// From a desk every list of calls leaves a desk, at each of its moments.
pub fn stays_a_desk()
    ensures { (known : ThrottleView) (calls : List CallOf) → HasDesk known.powered
        → AtEveryMoment HasDesk known calls }
{
    slot_table::laws::leaves_desk();
}
