//! The laws of tasks, each as a function that does nothing and ensures it.
ghost use Rattle.std.specs.Prelude.{◌≡◌, ◌<◌, ◌⊎◌, ℕ, Bool, IsTrue, List, Some, false, slice_index, true};
ghost use Rattle.std.specs.List.{flat_map};
ghost use Rattle.service_mode.specs.declared.instruction.Instruction.{Instruction};
ghost use Rattle.service_mode.specs.declared.instruction.Instruction.TheVariants.{WriteByte};
ghost use Rattle.programmer.specs.declared.task.Task.{Task};
ghost use Rattle.programmer.specs.declared.task_result.Status.{Status};
ghost use Rattle.programmer.specs.declared.task_result.Status.TheVariants.{Done, NoReadAcknowledge};
ghost use Rattle.programmer.specs.Machine.{begun, bit_write};
ghost use Rattle.programmer.specs.Requests.{address_of, is_bit, is_task, is_write, pstat, result_bytes, result_of, value_of};
ghost use Rattle.programmer.specs.Whole.{IsBitQuestion, WritesBy, end_of, read_of, sequence};

/// A result has the variable that the task names, the value and the status where a client looks for
/// them.
pub fn results_are_read()
    ensures address { (task : Task) (status : Status) (value : ℕ) → IsTrue (is_task task)
        → value < 256
        → address_of (slice_index (result_bytes (result_of task status value)) 8)
        (slice_index (result_bytes (result_of task status value)) 9) ≡ task.address }
    ensures value { (task : Task) (status : Status) (value : ℕ) → IsTrue (is_task task)
        → value < 256
        → value_of (slice_index (result_bytes (result_of task status value)) 8)
        (slice_index (result_bytes (result_of task status value)) 10) ≡ value }
    ensures status { (task : Task) (status : Status) (value : ℕ)
        → slice_index (result_bytes (result_of task status value)) 4 ≡ pstat status }
{}

/// Whatever is acknowledged, a read sends nine instructions, a write one, and a read of a bit one or
/// two, each five times between resets, and ends with the value that was found.
pub fn tasks_end()
    ensures read { (task : Task) (bits : ℕ → Bool) → is_bit task ≡ false
        → is_write task ≡ false
        → (value : ℕ) × (status : Status) × ((status ≡ Done) ⊎ (status ≡ NoReadAcknowledge))
        × (end_of 126 (begun task) bits ≡ Some (record {
          result = result_of task status value;
          sent = flat_map sequence (read_of task.address value);
        })) }
    ensures written { (task : Task) (bits : ℕ → Bool) → is_bit task ≡ false
        → is_write task ≡ true → WritesBy (WriteByte task.address task.value) task bits }
    ensures read_bit { (task : Task) (bits : ℕ → Bool) → is_bit task ≡ true
        → is_write task ≡ false
        → (value : ℕ) × (status : Status) × (questions : List Instruction)
        × ((status ≡ Done) ⊎ (status ≡ NoReadAcknowledge)) × IsBitQuestion task questions
        × (end_of 126 (begun task) bits ≡ Some (record {
          result = result_of task status value;
          sent = flat_map sequence questions;
        })) }
    ensures written_bit { (task : Task) (bits : ℕ → Bool) → is_bit task ≡ true
        → is_write task ≡ true → WritesBy (bit_write task.address task.value) task bits }
{}
