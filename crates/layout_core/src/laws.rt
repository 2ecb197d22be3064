//! The laws of this crate. Each is a function without code that ensures it: a call gives the law to
//! a proof.
ghost use Rattle.std.specs.Prelude.{◌≡◌, ◌≢◌, ℕ, Bool, false, List, [], ◌∷◌, ◌++◌, IsTrue};
ghost use Rattle.dcc_packet.specs.Sent.{accessory_bytes, idle_bytes};
ghost use Rattle.slot_table.specs.Entry.{Entry, IsAddress, IsEntry};
ghost use Rattle.station_core.specs.Powered.{HasDesk};
ghost use Rattle.station_core.specs.Seen.{Seen, known_of};
ghost use Rattle.decoder_cv.specs.Answering.{answers_to};
ghost use Rattle.decoder_cv.specs.Settings.{Settings};
ghost use Rattle.decoder_node.specs.Obey.{runs};
ghost use Rattle.decoder_node.specs.declared.running.Running.{Running};
ghost use Rattle.layout_core.specs.declared.event.Event.{Event};
ghost use Rattle.layout_core.specs.declared.node.Node.{Node};
ghost use Rattle.layout_core.specs.Cycle.{RunsAfterNoise, RunsAsWanted, RunsOnAsWanted};
ghost use Rattle.layout_core.specs.Settling.{IsAskedBy, IsPacketOf, LeavesAsItIs, TellsAll};
ghost use Rattle.layout_core.specs.Wanted.{wanted};
ghost use Rattle.layout_core.specs.Played.{after_events, answer_to};
ghost use Rattle.layout_core.specs.World.{AfterEvent, HaveHeard, HaveObeyed};

/// A decoder that answers to an address and agrees with its entry, and that hears each of the
/// entry's packets and otherwise only these and packets that leave it as it is, ends as the entry
/// asks, however it ran before.
pub fn settling()
    ensures { (cv : Settings) (a : ℕ) (e : Entry) (start : Running) (packets : List (List ℕ))
        → IsAskedBy cv a e → TellsAll cv a e packets
        → runs cv start packets ≡ wanted e cv.reversed }
{
    dcc_packet::laws::spellings_are_read();
    dcc_packet::laws::sent_packets_spell();
    dcc_packet::laws::speeds_read_back();
}

/// The packets of other addresses, idle packets and the packets of switches leave a locomotive
/// decoder as it is.
pub fn others_leave_it()
    ensures not_its_own { (cv : Settings) (b : ℕ) (e : Entry) (packet : List ℕ) → IsAddress b
        → IsEntry e → answers_to cv b ≡ false → IsPacketOf b e packet → LeavesAsItIs cv packet }
    ensures other_address { (cv : Settings) (a b : ℕ) (e : Entry) (packet : List ℕ) → IsAddress b
        → IsEntry e → IsTrue (answers_to cv a) → a ≢ b → IsPacketOf b e packet
        → LeavesAsItIs cv packet }
    ensures idle { (cv : Settings) → LeavesAsItIs cv idle_bytes }
    ensures accessory { (cv : Settings) (number : ℕ) (closed on : Bool)
        → LeavesAsItIs cv (accessory_bytes number closed on) }
{
    dcc_packet::laws::spellings_are_read();
    dcc_packet::laws::sent_packets_spell();
}

/// What the nodes of a layout hear of events adds up, however the list is divided into calls. So a
/// node that no noise names obeyed its packets.
pub fn events_add_up()
    ensures none { (seen : Seen) (nodes : List Node) → HaveHeard seen [] nodes nodes }
    ensures one { (seen : Seen) (event : Event) (old new : List Node)
        → AfterEvent event (answer_to seen event) old new → HaveHeard seen (event ∷ []) old new }
    ensures more { (seen : Seen) (events later : List Event) (old mid new : List Node)
        → HaveHeard seen events old mid → HaveHeard (after_events seen events) later mid new
        → HaveHeard seen (events ++ later) old new }
    ensures obeyed { (seen : Seen) (events : List Event) (old new : List Node)
        → HaveHeard seen events old new → HaveObeyed seen events old new }
{}

/// The headline, and the headline after noise, of all nodes after events from a desk: so they hold
/// for `step` and `run`, in any number of calls.
pub fn headline()
    ensures headline { (start : Seen) (events : List Event) (old new : List Node)
        → HasDesk start.powered → HaveHeard start events old new
        → RunsAsWanted (known_of start) events old new }
    ensures after_noise { (start : Seen) (events : List Event) (old new : List Node)
        → HasDesk start.powered → HaveHeard start events old new
        → RunsAfterNoise (known_of start) events old new }
    // It goes on as long as the slot says the same.
    ensures goes_on { (start : Seen) (events : List Event) (old new : List Node)
        → HasDesk start.powered → HaveHeard start events old new
        → RunsOnAsWanted (known_of start) events old new }
{
    station_core::laws::calls_are_moves();
    station_core::laws::desk_of_messages();
    station_core::laws::stays_a_desk();
    station_core::laws::coverage();
    station_core::laws::packets_of_the_desk();
    slot_table::laws::rows_are_legal();
    settling();
    others_leave_it();
}
