//! The laws of tasks in time, each as a function that does nothing and ensures it.
ghost use Rattle.std.specs.Prelude.{◌≡◌, ◌<◌, ◌≤◌, ◌+◌, ◌*◌, ◌++◌, ℕ, Bool, List, Option, Some, false, length, option_map, slice_index, true};
ghost use Rattle.cv_memory.specs.Changes.{after_changes};
ghost use Rattle.cv_memory.specs.Hearing.{CvState, is_read_only, is_reset};
ghost use Rattle.programmer.specs.declared.task.Task.{Task};
ghost use Rattle.service_mode.specs.declared.packet.ServicePacket.{ServicePacket};
ghost use Rattle.programmer.specs.declared.task_result.TaskResult.{TaskResult};
ghost use Rattle.programmer.specs.declared.task_state.TaskState.{TaskState};
ghost use Rattle.programmer.specs.Requests.{task_of};
ghost use Rattle.programming_track.specs.declared.programming_track.ProgrammingTrack.{ProgrammingTrack};
ghost use Rattle.programming_track.specs.Bench.{BenchState, IsBench, dismounted, mounted_as, values_of};
ghost use Rattle.programming_track.specs.Completes.{Completes, changes_in};
ghost use Rattle.programming_track.specs.Outcomes.{begins_bit_read, begins_bit_write, begins_read, begins_task, begins_write, bit_read, bit_refused, bit_written, empty, read, read_failed, refused, reset, with_decoder, with_failures, without_decoder, write_failed, write_sent, written};
ghost use Rattle.programming_track.specs.Tasks.{TaskRun, run_of};
ghost use Rattle.programming_track.specs.Time.{elapsed_by, ends_within, time_of};
ghost use Rattle.programming_track.specs.Track.{requested, waiting};

/// Time may be cut anywhere.
pub fn time_adds_up()
    ensures state { (a b : ℕ) (s : ProgrammingTrack)
        → elapsed_by (a + b) s ≡ elapsed_by b (elapsed_by a s) }
    ensures ends { (a b : ℕ) (s : ProgrammingTrack)
        → ends_within (a + b) s ≡ ends_within a s ++ ends_within b (elapsed_by a s) }
{}

/// The changes of a time, one after another, give the variables of the decoder the values that they have
/// after it.
pub fn changes_are_reported()
    ensures { (micros : ℕ) (s : ProgrammingTrack)
        → option_map (λ d. d.values) (elapsed_by micros s).decoder
        ≡ option_map (λ d. after_changes d.filed d.values (changes_in (ends_within micros s)))
        s.decoder }
{
    cv_memory::changes_are_complete();
    cv_memory::others_never_change();
}

/// A task takes exactly as long as its packets, whatever it comes to.
pub fn tasks_take_their_time()
    ensures { (n : ℕ) (state : TaskState) (last : TaskResult) (fails : Bool)
        (decoder : Option CvState) (run : TaskRun) → run_of n state fails decoder ≡ Some run
        → Completes (waiting (Some state) last fails decoder) run }
{}

/// A read of a byte ends with the value that the decoder holds, and changes nothing.
pub fn reads_return_the_value()
    ensures { (message : List ℕ) (d : CvState) (last : TaskResult) → begins_read message ≡ true
        → slice_index d.values (task_of message).address < 256
        → Completes (requested (with_decoder d last) message) (read (task_of message) d) }
{}

/// A write of a byte ends with the value stored, and all others unchanged; of a variable that is read
/// only without an acknowledgment, and all unchanged. A write of 8 to CV8 gives the values of the file.
/// Either is one change, or none if nothing differs after it.
pub fn writes_store_the_value()
    ensures stored { (message : List ℕ) (d : CvState) (last : TaskResult)
        → begins_write message ≡ true → is_read_only (task_of message).address ≡ false
        → Completes (requested (with_decoder d last) message) (written (task_of message) d) }
    ensures read_only { (message : List ℕ) (d : CvState) (last : TaskResult)
        → begins_write message ≡ true → is_read_only (task_of message).address ≡ true
        → is_reset (task_of message).address (task_of message).value ≡ false
        → Completes (requested (with_decoder d last) message) (refused (task_of message) d) }
    ensures reset { (message : List ℕ) (d : CvState) (last : TaskResult)
        → begins_write message ≡ true
        → is_reset (task_of message).address (task_of message).value ≡ true
        → Completes (requested (with_decoder d last) message) (reset (task_of message) d) }
{}

/// A read of a bit ends with the bit that the decoder holds, and changes nothing. A write
/// of a bit ends with the bit stored, and all else unchanged; of a variable that is read only without an
/// acknowledgment, and all unchanged.
pub fn bits_are_read_and_written()
    ensures read { (message : List ℕ) (d : CvState) (last : TaskResult)
        → begins_bit_read message ≡ true
        → Completes (requested (with_decoder d last) message) (bit_read (task_of message) d) }
    ensures stored { (message : List ℕ) (d : CvState) (last : TaskResult)
        → begins_bit_write message ≡ true → is_read_only (task_of message).address ≡ false
        → (task_of message).address < length d.values
        → Completes (requested (with_decoder d last) message) (bit_written (task_of message) d) }
    ensures read_only { (message : List ℕ) (d : CvState) (last : TaskResult)
        → begins_bit_write message ≡ true → is_read_only (task_of message).address ≡ true
        → Completes (requested (with_decoder d last) message) (bit_refused (task_of message) d) }
{}

/// With no decoder a task ends after one packet, and says so.
pub fn without_a_decoder()
    ensures { (message : List ℕ) (last : TaskResult) → begins_task message ≡ true
        → Completes (requested (without_decoder last) message) (empty (task_of message)) }
{}

/// If acknowledgments fail, a read ends without the value, and a write without an acknowledgment,
/// though the value is stored.
pub fn failures_are_reported()
    ensures read { (message : List ℕ) (d : CvState) (last : TaskResult) → begins_read message ≡ true
        → Completes (requested (with_failures d last) message)
        (read_failed (task_of message) d) }
    ensures write { (message : List ℕ) (d : CvState) (last : TaskResult)
        → begins_write message ≡ true → is_read_only (task_of message).address ≡ false
        → Completes (requested (with_failures d last) message)
        (write_failed (task_of message) d) }
{}

/// A read of a byte sends 126 packets in at most 1.45 seconds, a write 14 in at most 0.17 seconds. No
/// packet takes more than 11,436 microseconds.
pub fn tasks_are_short()
    ensures packet { (packets : List ServicePacket) → time_of packets ≤ 11436 * length packets }
    ensures read { (task : Task) (d : CvState)
        → (length (read task d).sent ≡ 126) × (time_of (read task d).sent ≤ 1440936) }
    ensures write { (task : Task)
        → (length (write_sent task) ≡ 14) × (time_of (write_sent task) ≤ 160104) }
{
    half_bits::durations_are_bounded();
}

/// A packet takes 5,820 microseconds or more, so that few end in a time: at most two within the longest
/// turn of the main track.
pub fn ends_are_few()
    ensures { (micros : ℕ) (s : ProgrammingTrack)
        → 5820 * length (ends_within micros s) ≤ micros + 5820 }
{
    half_bits::durations_are_bounded();
}

/// Putting decoders on the track and taking them off it changes no variable of any decoder.
#[tactic(auto, using(crate::proofs::Benches::mounting_keeps, crate::proofs::Benches::dismounting_keeps))]
pub fn decoders_keep_their_variables()
    ensures on { (b : BenchState) (name : List ℕ) (index : ℕ) → IsBench b
        → values_of (mounted_as name b) index ≡ values_of b index }
    ensures off { (b : BenchState) (index : ℕ) → IsBench b
        → values_of (dismounted b) index ≡ values_of b index }
{}
