//! The laws of a railway, each as a function that does nothing and ensures it: a call hands the
//! law to a proof.
ghost use Rattle.std.specs.Prelude.{◌≡◌, ◌≢◌, ◌↔◌, ℕ, ◌+◌, ◌*◌, ◌/◌, ◌<◌, ◌≤◌, Bool, List, [], length, map, not, true, false, IfSome, IsTrue, Some, None};
ghost use Rattle.std.specs.List.{slice_index_or};
ghost use Rattle.dcc_packet.specs.declared.steps.Motion.TheVariants.{Emergency, Stop};
ghost use Rattle.decoder_node.specs.declared.running.Running.{Running};
ghost use Rattle.layout_core.specs.declared.node.Node.{Node};
ghost use Rattle.motion.specs.Velocity.{braking_way, is_momentum, same_bool, velocity};
ghost use Rattle.motion.specs.declared.velocity.Momentum.{Momentum};
ghost use Rattle.refresh_ring.specs.declared.pick.Power.{Power};
ghost use Rattle.refresh_ring.specs.declared.pick.Power.TheVariants.{Off};
ghost use Rattle.railway.specs.declared.block.BlockEnd.{BlockEnd};
ghost use Rattle.railway.specs.declared.conflict.Conflict.{Conflict};
ghost use Rattle.railway.specs.declared.exit.Exit.TheVariants.{Leads, Against as ExitAgainst};
ghost use Rattle.railway.specs.declared.exit.Onward.TheVariants.{BufferStop, Against};
ghost use Rattle.railway.specs.declared.failing_sensors.FailingSensors.{FailingSensors};
ghost use Rattle.railway.specs.declared.joint.TurnoutState.{TurnoutState};
ghost use Rattle.railway.specs.declared.train.Place.{Place};
ghost use Rattle.railway.specs.declared.train.TrainState.{TrainState};
ghost use Rattle.railway.specs.declared.turnout_report.TurnoutReport.{TurnoutReport};
ghost use Rattle.railway.specs.Blocks.{default_block, length_of};
ghost use Rattle.railway.specs.Conflicts.{conflict_in};
ghost use Rattle.railway.specs.Driven.{AllLeaveAlone, AreDrivenBy, HasRun, IsOnWayOf, reaches, time_in, trailing_end, way_asked};
ghost use Rattle.railway.specs.Course.{Happening, after, after_all, movements_of, movements_of_all, reports_of_all};
ghost use Rattle.railway.specs.Laws.{AreSensorChanges, AreCompleted, HasAllBlocks, IsCompleted, IsConflict, IsOnRails, IsOnWay, IsSensedAt, IsVisited, StandsBetween, is_among, is_failure, is_moving_end, is_sensor_failure, is_time, leading, runs_only, speed_times_time, train_after, velocity_of, way_of};
ghost use Rattle.railway.specs.Failures.{failing_by, has_switch, none_failing, with_sensor};
ghost use Rattle.railway.specs.Feedback.{full_turnouts, is_alone, turnout_report_bytes, side_after, turnout_report_of};
ghost use Rattle.railway.specs.Network.{Network, exit_of, is_sound, lies, onward, switch_at, turnouts_of, way_on};
ghost use Rattle.railway.specs.Places.{end_ahead, is_derailed, leading_end, span, still, to_end};
ghost use Rattle.railway.specs.Railway.{RailwayState, elapsed, is_piece, is_railway, is_sensed, is_sensed_in, is_train, laid_in, ran_in, reports_in, run_in, run_under};
ghost use Rattle.railway.specs.Reports.{full, has_report, is_occupied, level_after, occupies, senses};
ghost use Rattle.railway.specs.Trains.{is_forward, running_in};
ghost use Rattle.railway.specs.Turnouts.{asked, checked, is_changed, is_moved_end, laid, moved_on, moved_on_under, observed, outputs_in, seen_of};

/// Each train is in blocks of the plan, within their lengths. Its ends are as far apart as its
/// length along the track, in both directions, or it is derailed.
pub fn trains_are_on_rails()
    ensures rails { (railway : RailwayState) (i : ℕ) (none : TrainState)
        → IsTrue (is_railway railway) → i < length railway.trains
        → IsOnRails railway.network (slice_index_or railway.trains i none) }
{}

/// A train that is not derailed is in exactly the blocks on the way from its rear to its front.
pub fn trains_are_between_their_ends()
    ensures between { (network : Network) (train : TrainState) (block : ℕ)
        → IsTrue (is_train network train) → is_derailed train ≡ false → block < 64
        → IsTrue (occupies block train) ↔ IsOnWay network train.rear (span train) block }
{}

/// Whatever happens to a railway, each train stays as long as it was.
pub fn trains_keep_their_lengths()
    ensures length { (railway : RailwayState) (happening : Happening) (i : ℕ) (none : TrainState)
        → (slice_index_or (after railway happening).trains i none).length
        ≡ (slice_index_or railway.trains i none).length }
{}

/// However a time is cut in which the decoders do the same, it has the same result. What holds of
/// every railway holds after it.
pub fn time_adds_up()
    ensures kept { (railway : RailwayState) (power : Power) (nodes : List Node) (micros : ℕ)
        → IsTrue (is_railway railway)
        → IsTrue (is_railway (elapsed railway micros power nodes)) }
    ensures adds { (railway : RailwayState) (power : Power) (nodes : List Node) (these those : ℕ)
        → IsTrue (is_railway railway)
        → elapsed (elapsed railway these power nodes) those power nodes
        ≡ elapsed railway (these + those) power nodes }
{}

/// What holds of every railway holds after whatever happens to it. Its blocks and turnouts stay.
pub fn railways_are_kept()
    ensures kept { (railway : RailwayState) (happening : Happening)
        → IsTrue (is_railway railway) → IsTrue (is_railway (after railway happening)) }
    ensures blocks { (railway : RailwayState) (happening : Happening)
        → (after railway happening).network.blocks ≡ railway.network.blocks }
    ensures turnouts { (railway : RailwayState) (happening : Happening)
        → turnouts_of (after railway happening).network.turnouts
        ≡ turnouts_of railway.network.turnouts }
{
    time_adds_up();
}

/// A railway has at most 64 blocks and 64 turnouts.
pub fn railways_are_small()
    ensures blocks { (railway : RailwayState)
        → IsTrue (is_railway railway) → length railway.network.blocks ≤ 64 }
    ensures turnouts { (railway : RailwayState)
        → IsTrue (is_railway railway) → length railway.network.turnouts ≤ 64 }
{}

/// A train that nothing stops goes as far as its motor runs it, and stays on the rails. Its motor
/// changes its velocity as its momentum says, one microsecond after another, whatever is ahead.
pub fn ways_are_those_of_momentum()
    ensures goes { (network : Network) (train : TrainState) (micros : ℕ) (nodes : List Node)
        (forward : Bool) (place : Place)
        → IsTrue (is_sound network) → IsTrue (is_train network train) → is_derailed train ≡ false
        → IsTrue (runs_only forward nodes micros train)
        → way_on network (leading_end forward train) (way_of nodes micros train) ≡ Some place
        → leading_end forward (run_in network micros nodes train) ≡ place }
    ensures rails { (network : Network) (train : TrainState) (micros : ℕ) (nodes : List Node)
        (forward : Bool) (place : Place)
        → IsTrue (is_sound network) → IsTrue (is_train network train) → is_derailed train ≡ false
        → IsTrue (runs_only forward nodes micros train)
        → way_on network (leading_end forward train) (way_of nodes micros train) ≡ Some place
        → is_derailed (run_in network micros nodes train) ≡ false }
    ensures velocity { (network : Network) (train : TrainState) (micros : ℕ) (nodes : List Node)
        → IsTrue (is_train network train)
        → is_derailed (run_in network micros nodes train) ≡ false
        → (run_in network micros nodes train).velocity ≡ velocity_of nodes micros train }
{}

/// Without momentum a train that nothing stops goes as far as its speed times the time, and stays on
/// the rails.
pub fn ways_are_speed_times_time()
    ensures way { (train : TrainState) (micros : ℕ) (nodes : List Node)
        → train.momentum ≡ None → way_of nodes micros train ≡ speed_times_time nodes micros train }
    ensures direction { (train : TrainState) (micros : ℕ) (nodes : List Node)
        → train.momentum ≡ None
        → IsTrue (runs_only (is_forward (running_in nodes train.decoder)) nodes micros train) }
    ensures goes { (network : Network) (train : TrainState) (micros : ℕ) (nodes : List Node)
        (place : Place) → IsTrue (is_sound network) → IsTrue (is_train network train)
        → is_derailed train ≡ false → train.momentum ≡ None
        → way_on network (leading nodes train) (speed_times_time nodes micros train) ≡ Some place
        → leading nodes (run_in network micros nodes train) ≡ place }
    ensures rails { (network : Network) (train : TrainState) (micros : ℕ) (nodes : List Node)
        (place : Place) → IsTrue (is_sound network) → IsTrue (is_train network train)
        → is_derailed train ≡ false → train.momentum ≡ None
        → way_on network (leading nodes train) (speed_times_time nodes micros train) ≡ Some place
        → is_derailed (run_in network micros nodes train) ≡ false }
{
    motion::laws::without_momentum_at_once();
}

/// A train whose decoder runs the same through all that happens, and that is left alone, has run so
/// for all of the time: at its speed times the time, or at its speed after its ramp. Turnouts that
/// are not on its way may move.
pub fn trains_run_as_driven()
    ensures { (railway : RailwayState) (happenings : List Happening) (i : ℕ) (none : TrainState)
        (running : Running) → IsTrue (is_railway railway) → i < length railway.trains
        → AllLeaveAlone i running railway happenings
        → AreDrivenBy (slice_index_or railway.trains i none).decoder running happenings
        → HasRun railway.network running (time_in happenings)
        (slice_index_or railway.trains i none)
        (slice_index_or (after_all railway happenings).trains i none) }
{
    railways_are_kept();
    ways_are_speed_times_time();
    motion::laws::ramps_end();
}

/// Without momentum the turnouts on the way of a train are among those that the track reaches from its
/// trailing end, over its length and its speed times the time: up to the place to which it runs.
pub fn turnouts_on_ways_are_reached()
    ensures reached { (network : Network) (running : Running) (micros : ℕ) (train : TrainState)
        (i : ℕ) (none : TurnoutState) → IsTrue (is_sound network) → IsTrue (is_train network train)
        → train.momentum ≡ None → i < length network.turnouts
        → IsOnWayOf network running micros train (slice_index_or network.turnouts i none)
        → IsTrue (reaches network (trailing_end running.forward train)
        (span train + way_asked running micros train) (slice_index_or network.turnouts i none)) }
{}

/// A train whose decoder is to stop brakes over exactly its braking distance, and then stands; this
/// takes a microsecond more than its speed over its braking.
pub fn trains_brake()
    ensures way { (train : TrainState) (micros : ℕ) (nodes : List Node) (running : Running)
        (momentum : Momentum) → IsTrue (is_momentum train.momentum)
        → running_in nodes train.decoder ≡ Some running
        → running.motion ≡ Stop → train.momentum ≡ Some momentum
        → train.velocity.speed / momentum.braking < micros
        → way_of nodes micros train ≡ braking_way train.velocity.speed momentum.braking }
    ensures stands { (train : TrainState) (micros : ℕ) (nodes : List Node) (running : Running)
        (momentum : Momentum) → IsTrue (is_momentum train.momentum)
        → running_in nodes train.decoder ≡ Some running
        → running.motion ≡ Stop → train.momentum ≡ Some momentum
        → train.velocity.speed / momentum.braking < micros
        → (velocity_of nodes micros train).speed ≡ 0 }
{
    motion::laws::ways_are_closed_forms();
}

/// A train stands at once where it is, without braking: after an emergency stop of its decoder, and
/// without track power.
pub fn trains_stand_at_once()
    ensures emergency { (network : Network) (train : TrainState) (micros : ℕ) (nodes : List Node)
        (running : Running) → IsTrue (is_train network train) → is_derailed train ≡ false
        → running_in nodes train.decoder ≡ Some running → running.motion ≡ Emergency → 0 < micros
        → run_in network micros nodes train
        ≡ record train { velocity = velocity running.forward 0 } }
    ensures power { (network : Network) (train : TrainState) (micros : ℕ) (nodes : List Node)
        → run_under Off network micros nodes train ≡ still train }
{
    motion::laws::without_momentum_at_once();
}

/// A train that nothing stops, and that then goes as far in the other direction, is where it was:
/// while the turnouts stay, also over any number of them.
pub fn ways_lead_back()
    ensures back { (network : Network) (train : TrainState) (there back : ℕ)
        (nodes others : List Node) (forward : Bool) (place : Place)
        → IsTrue (is_sound network) → IsTrue (is_train network train) → is_derailed train ≡ false
        → IsTrue (runs_only forward nodes there train)
        → way_on network (leading_end forward train) (way_of nodes there train) ≡ Some place
        → IsTrue (runs_only (not forward) others back (run_in network there nodes train))
        → way_of others back (run_in network there nodes train) ≡ way_of nodes there train
        → run_in network back others (run_in network there nodes train)
        ≡ record train {
          velocity = velocity_of others back (run_in network there nodes train);
        } }
{}

/// With momentum a train that goes the other way stood still between.
pub fn reversals_stand_still()
    ensures between { (train : TrainState) (micros : ℕ) (nodes : List Node) (running : Running)
        → running_in nodes train.decoder ≡ Some running
        → running.motion ≢ Emergency → train.momentum ≢ None
        → same_bool train.velocity.forward (velocity_of nodes micros train).forward ≡ false
        → StandsBetween nodes micros train }
{
    motion::laws::reversals_stand_still();
}

/// A train stops where the track ends. It is derailed by a turnout that lies against it, and has its
/// switch. A derailed train stands. Of a time in which a motor turns both ways these hold of each part.
pub fn trains_stop()
    ensures buffer_stop { (network : Network) (train : TrainState) (micros : ℕ)
        (nodes : List Node) (forward : Bool) (ahead : ℕ) (place : Place)
        → IsTrue (is_sound network) → IsTrue (is_train network train) → is_derailed train ≡ false
        → IsTrue (runs_only forward nodes micros train)
        → way_on network (leading_end forward train) ahead ≡ Some place
        → onward network place ≡ BufferStop → ahead ≤ way_of nodes micros train
        → leading_end forward (run_in network micros nodes train) ≡ place }
    ensures against { (network : Network) (train : TrainState) (micros : ℕ)
        (nodes : List Node) (forward : Bool) (ahead : ℕ) (place : Place)
        → IsTrue (is_sound network) → IsTrue (is_train network train) → is_derailed train ≡ false
        → IsTrue (runs_only forward nodes micros train)
        → way_on network (leading_end forward train) ahead ≡ Some place
        → onward network place ≡ Against → ahead < way_of nodes micros train
        → (run_in network micros nodes train).derailed_at
        ≡ Some (switch_at network.turnouts (end_ahead place)) }
    ensures derailed { (network : Network) (train : TrainState) (micros : ℕ) (nodes : List Node)
        → is_derailed train ≡ true → run_in network micros nodes train ≡ train }
{}

/// A turnout that is thrown under any part of a train derails it, where it is, in all its blocks: the
/// first from its rear on, whatever the others then do. No other train is derailed. The switch that a
/// derailed train has is that of a turnout of the plan.
pub fn thrown_turnouts_derail()
    ensures thrown { (network : Network) (train : TrainState) (nodes : List Node) (part : ℕ)
        (place : Place) → is_derailed train ≡ false → part < span train
        → way_on network train.rear part ≡ Some place
        → to_end (length_of network.blocks place.block) place ≡ 0
        → IsTrue (is_moved_end nodes network.turnouts (end_ahead place))
        → is_derailed (checked nodes network train) ≡ true }
    ensures stands { (network : Network) (train : TrainState) (power : Power) (micros : ℕ)
        (nodes : List Node) → is_derailed train ≡ false
        → is_derailed (checked nodes network train) ≡ true
        → train_after power network micros nodes train
        ≡ record (still train) { derailed_at = (checked nodes network train).derailed_at } }
    ensures others { (network : Network) (train : TrainState) (nodes : List Node)
        → ((part : ℕ) (place : Place) → part < span train
        → way_on network train.rear part ≡ Some place
        → to_end (length_of network.blocks place.block) place ≡ 0
        → is_moved_end nodes network.turnouts (end_ahead place) ≡ false)
        → checked nodes network train ≡ train }
    ensures turnout { (network : Network) (train : TrainState) (power : Power) (micros : ℕ)
        (nodes : List Node) → is_derailed train ≡ false
        → IfSome (train_after power network micros nodes train).derailed_at
        (λ switch. IsTrue (has_switch network.turnouts switch)) }
{}

/// A turnout that moves leads nowhere: a train that comes to one of its three ends is derailed.
pub fn moving_turnouts_derail()
    ensures exit { (network : Network) (end : BlockEnd) → IsTrue (is_sound network)
        → IsTrue (is_moving_end network.turnouts end) → exit_of network end ≡ ExitAgainst }
{}

/// Turnouts move as long as they are to by track power, whatever trains do, and however a time is cut:
/// from one side to the other their time; asked back meanwhile as long as they have moved; with time 0
/// at once. Until the first comes to lie, trains run on the track as the turnouts lay at first.
pub fn turnouts_take_their_time()
    ensures turnouts { (railway : RailwayState) (micros : ℕ) (power : Power) (nodes : List Node)
        → (elapsed railway micros power nodes).network.turnouts
        ≡ map (moved_on_under power micros) (map (observed nodes) railway.network.turnouts) }
    ensures other { (state : TurnoutState) (micros : ℕ) → IsTrue (lies state)
        → IsTrue (lies (moved_on micros (asked (not state.is_thrown) state)))
        ↔ state.turnout.time * 1000 ≤ micros }
    ensures back { (state : TurnoutState) (part micros : ℕ) → IsTrue (lies state)
        → part < state.turnout.time * 1000
        → IsTrue (lies (moved_on micros (asked state.is_thrown
        (moved_on part (asked (not state.is_thrown) state))))) ↔ part ≤ micros }
    ensures at_once { (state : TurnoutState) (thrown : Bool) → IsTrue (lies state)
        → state.turnout.time ≡ 0 → asked thrown state ≡ record state { is_thrown = thrown } }
    ensures pieces { (railway : RailwayState) (micros : ℕ) (power : Power) (nodes : List Node)
        → 0 < micros → IsTrue (is_piece power micros (laid nodes railway.network))
        → elapsed railway micros power nodes ≡ ran_in power micros nodes (laid_in nodes railway) }
{}

/// The track that leads from an end to another leads back.
pub fn tracks_lead_back()
    ensures back { (network : Network) (end next : BlockEnd) → IsTrue (is_sound network)
        → exit_of network end ≡ Leads next → exit_of network next ≡ Leads end }
{}

/// An observer of a full report and of each report from then on knows each sensor as it finds its
/// block, also while sensors fail.
pub fn observers_know()
    ensures full { (railway : RailwayState) (block sensor : ℕ) (before : Bool)
        → IsTrue (is_railway railway) → block < length railway.network.blocks
        → (slice_index_or railway.network.blocks block default_block).sensor ≡ Some sensor
        → level_after (full railway.network.blocks (is_sensed railway)) sensor before
        ≡ is_sensed railway block }
    ensures after { (railway : RailwayState) (happenings : List Happening) (block sensor : ℕ)
        → IsTrue (is_railway railway) → block < length railway.network.blocks
        → (slice_index_or railway.network.blocks block default_block).sensor ≡ Some sensor
        → level_after (reports_of_all railway happenings) sensor
        (is_sensed railway block)
        ≡ is_sensed (after_all railway happenings) block }
{}

/// A sensor that fails keeps the level of its failure, wherever trains are, until all failures end; each
/// other finds its block. Failures move no train.
pub fn failing_sensors_keep_their_level()
    ensures level { (failing : FailingSensors) (trains : List TrainState) (block : ℕ)
        (occupied : Bool) → HasAllBlocks failing → block < 64
        → senses (with_sensor failing block occupied) trains block ≡ occupied }
    ensures others { (failing : FailingSensors) (trains : List TrainState) (block other : ℕ)
        (occupied : Bool) → other ≢ block
        → senses (with_sensor failing block occupied) trains other ≡ senses failing trains other }
    ensures blocks { (failing : FailingSensors) (block : ℕ) (occupied : Bool)
        → HasAllBlocks failing → HasAllBlocks (with_sensor failing block occupied) }
    ensures none { (trains : List TrainState) (block : ℕ) → block < 64
        → senses none_failing trains block ≡ is_occupied trains block }
    ensures stays { (railway : RailwayState) (happening : Happening)
        → is_sensor_failure happening ≡ false
        → (after railway happening).failing ≡ railway.failing }
    ensures trains { (railway : RailwayState) (happening : Happening)
        → IsTrue (is_failure happening) → (after railway happening).trains ≡ railway.trains }
{}

/// A turnout that fails stays as it lies, or goes on to where it moves, whatever its decoder does.
/// As the failure ends it stays until an output comes on.
pub fn failing_turnouts_stay()
    ensures stays { (state : TurnoutState) (nodes : List Node) → IsTrue state.fails
        → observed nodes state
        ≡ record state { outputs = seen_of state.outputs (outputs_in nodes state.decoder) } }
    ensures ends { (state : TurnoutState) (nodes : List Node) → is_changed nodes state ≡ false
        → observed nodes (failing_by None state) ≡ failing_by None state }
{}

/// Nothing is reported without a change.
pub fn reports_are_changes()
    ensures changes { (railway : RailwayState) (micros : ℕ) (power : Power) (nodes : List Node)
        → AreSensorChanges railway.network.blocks (is_sensed railway)
        (is_sensed_in railway micros power nodes)
        (is_sensed (elapsed railway micros power nodes)) (reports_in railway micros power nodes) }
{}

/// Nothing passes unseen: a block in which a part of a train is at any moment of a time is reported as
/// occupied, unless it was before, and as free, if it is so in the end; also if the train turns round
/// and leaves the block again, whatever turnouts do. Only a sensor that fails reports otherwise.
pub fn nothing_passes_unseen()
    ensures occupied { (railway : RailwayState) (micros : ℕ) (power : Power) (nodes : List Node)
        (block sensor : ℕ) → IsVisited railway micros power nodes block sensor
        → is_sensed railway block ≡ false
        → IsTrue (has_report sensor true (reports_in railway micros power nodes)) }
    ensures free { (railway : RailwayState) (micros : ℕ) (power : Power) (nodes : List Node)
        (block sensor : ℕ) → IsVisited railway micros power nodes block sensor
        → is_sensed (elapsed railway micros power nodes) block ≡ false
        → IsTrue (has_report sensor false (reports_in railway micros power nodes)) }
    ensures moments { (railway : RailwayState) (micros : ℕ) (power : Power) (nodes : List Node)
        (block : ℕ) → IsTrue (is_sensed_in railway micros power nodes block)
        ↔ IsSensedAt railway micros power nodes block }
{}

/// Turnouts with feedback report exactly their completed movements: nothing while they move, and
/// nothing without a movement. No failure and no placement makes such a report.
pub fn turnouts_report_movements()
    ensures only { (railway : RailwayState) (happening : Happening) (none : TurnoutState)
        → AreCompleted railway.network.turnouts (after railway happening).network.turnouts none
        (movements_of railway happening) }
    ensures each { (railway : RailwayState) (happening : Happening) (none : TurnoutState)
        (report : TurnoutReport)
        → IsCompleted railway.network.turnouts (after railway happening).network.turnouts none
        report → IsTrue (is_among report (movements_of railway happening)) }
    ensures time { (railway : RailwayState) (happening : Happening)
        → is_time happening ≡ false → movements_of railway happening ≡ [] }
{}

/// An observer of a full report of the turnouts and of each report from then on knows the side of a
/// turnout with feedback whenever it lies, if no other with feedback has its switch.
pub fn observers_know_turnouts()
    ensures full { (railway : RailwayState) (turnout switch : ℕ) (before : Bool)
        (none : TurnoutState)
        → IsTrue (is_alone turnout switch (turnouts_of railway.network.turnouts))
        → IsTrue (lies (slice_index_or railway.network.turnouts turnout none))
        → side_after (full_turnouts railway.network.turnouts) switch before
        ≡ (slice_index_or railway.network.turnouts turnout none).is_thrown }
    ensures after { (railway : RailwayState) (happenings : List Happening) (turnout switch : ℕ)
        (side : Bool) (none : TurnoutState)
        → IsTrue (is_alone turnout switch (turnouts_of railway.network.turnouts))
        → (IsTrue (lies (slice_index_or railway.network.turnouts turnout none))
        → side ≡ (slice_index_or railway.network.turnouts turnout none).is_thrown)
        → IsTrue (lies (slice_index_or (after_all railway happenings).network.turnouts
        turnout none))
        → side_after (movements_of_all railway happenings) switch side
        ≡ (slice_index_or (after_all railway happenings).network.turnouts turnout
        none).is_thrown }
{}

/// The message of a turnout's report is read back as it, as layout software reads it.
pub fn turnout_reports_are_read_back()
    ensures read { (report : TurnoutReport) → 1 ≤ report.switch → report.switch ≤ 2048
        → turnout_report_of (turnout_report_bytes report) ≡ Some report }
{}

/// A conflict is reported of a block exactly if two different trains are in it.
pub fn conflicts_are_two_trains()
    ensures reported { (trains : List TrainState) (block : ℕ) (conflict : Conflict)
        (none : TrainState) → conflict_in block trains ≡ Some conflict
        → IsConflict trains block conflict.first conflict.second none }
    ensures found { (trains : List TrainState) (block first second : ℕ) (none : TrainState)
        → IsConflict trains block first second none → conflict_in block trains ≢ None }
{}
