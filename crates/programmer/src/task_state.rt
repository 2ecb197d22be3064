//! A task under way.
ghost use Rattle.std.specs.Prelude.{◌≡◌, ◌<◌, ◌≤◌, ◌-◌, IsTrue};
ghost use Rattle.service_mode.specs.Spelling.{is_legal, is_legal_packet};
ghost use Rattle.programmer.specs.Machine.{at_sequence, begun, bit_value, ended, instruction_of, is_noticed, finished, is_phase, is_sound, is_sound_next, left_after, left_of, moved, next_of, packet_of, phase_of, question};
ghost use Rattle.programmer.specs.Requests.{is_task};

use crate::load::Load;
use crate::task::Task;
use crate::task_result::{Status, TaskResult};
use service_mode::{Instruction, ServicePacket};

/// How many reset packets come before an instruction (S-9.2.3: three or more).
const RESETS: u8 = 3;

/// How many packets of a sequence come before the resets that end it: the instruction is sent five
/// times, and six resets follow, in which the decoder recovers.
const BEFORE_RECOVERY: u8 = 8;

/// The last packet of a sequence, counted from 0.
const LAST: u8 = 13;

/// What a task does with its sequences of packets.
#[derive(Clone, Copy)]
pub enum Phase {
    /// Writes the byte.
    Writing,
    /// Reads the byte: `left` bits are still to be asked for, and `known` are those above them.
    Reading { left: u8, known: u8 },
    /// Writes the bit.
    WritingBit,
    /// Asks whether the bit is on, and then whether it is off.
    ReadingBit { on: bool },
}

/// A task under way.
#[derive(Clone, Copy)]
pub struct TaskState {
    pub task: Task,
    pub phase: Phase,
    /// How many packets of this sequence have been sent, 0 to 13.
    pub sent: u8,
    /// Whether the instruction of this sequence has been acknowledged.
    pub acknowledged: bool,
}

/// What comes after a packet.
#[derive(Clone, Copy)]
pub enum Next {
    /// Another packet.
    Continued(TaskState),
    /// The task has ended.
    Finished(TaskResult),
}

impl TaskState {
    /// A task of which nothing has been sent.
    pub(crate) fn begin(task: Task) -> TaskState
        requires { IsTrue (is_task task) }
        ensures task { result ≡ begun task }
        ensures sound { IsTrue (is_sound result) }
    {
        at_sequence(task, phase_of(task))
    }

    /// The instruction of this sequence.
    fn instruction(self) -> Instruction
        requires { IsTrue (is_sound self) }
        ensures value { result ≡ instruction_of self }
        ensures legal { IsTrue (is_legal result) }
    {
        let address = self.task.address;
        let value = self.task.value;
        match self.phase {
            Phase::Writing => Instruction::WriteByte { address, value },
            Phase::WritingBit => {
                Instruction::WriteBit {
                    address,
                    bit: value % 8,
                    on: value / 8 % 2 == 1,
                }
            }
            Phase::ReadingBit { on } => {
                Instruction::VerifyBit {
                    address,
                    bit: value % 8,
                    on,
                }
            }
            Phase::Reading { left, known } => question(address, left, known),
        }
    }

    /// The packet that is sent now.
    pub(crate) fn packet(self) -> ServicePacket
        requires { IsTrue (is_sound self) }
        ensures value { result ≡ packet_of self }
        ensures legal { IsTrue (is_legal_packet result) }
    {
        if self.sent >= RESETS && self.sent < BEFORE_RECOVERY {
            ServicePacket::Direct(self.instruction())
        } else {
            ServicePacket::Reset
        }
    }

    /// What comes after the packet, by what was drawn.
    pub(crate) fn next(self, load: Load) -> Next
        requires { IsTrue (is_sound self) }
        ensures value { result ≡ next_of self load }
        ensures sound { IsTrue (is_sound_next result) }
        ensures nearer { left_after result ≤ left_of self.phase self.sent - 1 }
    {
        match load {
            Load::Empty => Next::Finished(TaskResult {
                task: self.task,
                status: Status::NoDecoder,
                value: self.task.value,
            }),
            Load::Decoder { acknowledged } => {
                self.move_on((self.sent >= RESETS && acknowledged) || self.acknowledged)
            }
        }
    }

    /// What comes after the packet, if the instruction has been acknowledged by now or not.
    fn move_on(self, acknowledged: bool) -> Next
        requires { IsTrue (is_sound self) }
        ensures value { result ≡ moved self acknowledged }
        ensures sound { IsTrue (is_sound_next result) }
        ensures nearer { left_after result ≤ left_of self.phase self.sent - 1 }
    {
        if self.sent < LAST {
            Next::Continued(TaskState {
                task: self.task,
                phase: self.phase,
                sent: self.sent + 1,
                acknowledged,
            })
        } else {
            end_sequence(self.task, self.phase, acknowledged)
        }
    }
}

/// A task at the start of a sequence.
fn at_sequence(task: Task, phase: Phase) -> TaskState
    requires task { IsTrue (is_task task) }
    requires phase { IsTrue (is_phase phase) }
    ensures state { result ≡ at_sequence task phase }
    ensures sound { IsTrue (is_sound result) }
{
    TaskState {
        task,
        phase,
        sent: 0,
        acknowledged: false,
    }
}

/// What a task does first.
fn phase_of(task: Task) -> Phase
    ensures value { result ≡ phase_of task }
    ensures sound { IsTrue (is_phase result) }
{
    if task.is_bit() {
        if task.is_write() {
            Phase::WritingBit
        } else {
            Phase::ReadingBit { on: true }
        }
    } else if task.is_write() {
        Phase::Writing
    } else {
        Phase::Reading { left: 8, known: 0 }
    }
}

/// What a read asks for: whether the next bit is on, or at the end whether the byte is the one found.
fn question(address: u16, left: u8, known: u8) -> Instruction
    requires address { address < 1024 }
    requires left { left ≤ 8 }
    ensures value { result ≡ question address left known }
    ensures legal { IsTrue (is_legal result) }
{
    if left == 0 {
        Instruction::VerifyByte {
            address,
            value: known,
        }
    } else {
        Instruction::VerifyBit {
            address,
            bit: left - 1,
            on: true,
        }
    }
}

/// What comes after a sequence.
fn end_sequence(task: Task, phase: Phase, acknowledged: bool) -> Next
    requires task { IsTrue (is_task task) }
    requires phase { IsTrue (is_phase phase) }
    ensures value { result ≡ ended task phase acknowledged }
    ensures sound { IsTrue (is_sound_next result) }
    ensures nearer { left_after result ≤ left_of phase 13 - 1 }
{
    match phase {
        Phase::Writing | Phase::WritingBit => {
            finished(task, acknowledged, Status::NoWriteAcknowledge, task.value)
        }
        Phase::Reading { left, known } => {
            if left == 0 {
                finished(task, acknowledged, Status::NoReadAcknowledge, known)
            } else {
                Next::Continued(at_sequence(
                    task,
                    Phase::Reading {
                        left: left - 1,
                        known: known % 128 * 2 + u8::from(acknowledged),
                    },
                ))
            }
        }
        Phase::ReadingBit { on } => {
            if on && !acknowledged {
                Next::Continued(at_sequence(task, Phase::ReadingBit { on: false }))
            } else {
                finished(
                    task,
                    acknowledged,
                    Status::NoReadAcknowledge,
                    bit_value(task.value, on),
                )
            }
        }
    }
}

/// The end of a task, done if it was acknowledged.
fn finished(task: Task, acknowledged: bool, fault: Status, value: u8) -> Next
    requires { IsTrue (is_task task) }
    ensures value { result ≡ finished task acknowledged fault value }
    ensures sound { IsTrue (is_sound_next result) }
    ensures left { left_after result ≡ 0 }
{
    Next::Finished(TaskResult {
        task,
        status: if acknowledged { Status::Done } else { fault },
        value,
    })
}

/// The value of a task of direct mode by bits, with its bit on or off.
fn bit_value(value: u8, on: bool) -> u8
    ensures { result ≡ bit_value value on }
{
    value / 16 * 16 + 8 * u8::from(on) + value % 8
}
