//! The programmer.
ghost use Rattle.std.specs.Prelude.{◌≡◌, ◌↔◌, ◌≤◌, ◌-◌, IfSome, IsSome, IsTrue, None, Some, is_some};
ghost use Rattle.service_mode.specs.Spelling.{is_legal_packet};
ghost use Rattle.programmer.specs.declared.reply.TaskReply.TheVariants.{Busy, Data};
ghost use Rattle.programmer.specs.declared.task_result.Status.TheVariants.{Aborted};
ghost use Rattle.programmer.specs.declared.task_state.TaskState.{TaskState as State};
ghost use Rattle.programmer.specs.Machine.{after_begin, after_packet, after_request, busy_data, data_of, idle, next_packet, packets_left, reply_of, reply_to, result_after, with_aborted};
ghost use Rattle.programmer.specs.Replies.{is_legal_reply};
ghost use Rattle.programmer.specs.Requests.{is_abort, is_for_programmer, is_legal_result, is_start, is_task, request_in, result_of};

use crate::load::Load;
use crate::reply::TaskReply;
use crate::slot_request::SlotRequest;
use crate::task::Task;
use crate::task_result::{Status, TaskResult};
use crate::task_state::{Next, TaskState};
use ln_frame::Msg;
use service_mode::ServicePacket;
use std::marker::Model;

/// Bit 3 of TRK: the programming track is busy.
const BUSY: u8 = 8;

/// The programmer: at most one task is under way.
#[derive(Drop)]
pub struct Programmer {
    under_way: Option<TaskState>,
    /// The result of the last task that ended.
    last: TaskResult,
}

impl Model for Programmer {
    ghost use Rattle.std.specs.Prelude.{IsTrue};
    ghost use Rattle.programmer.specs.Machine.{ProgrammerState, is_sound_state};

    ghost Value = { ProgrammerState };

    ghost view = { λ p. record { under_way = p.under_way; last = p.last } };

    ghost invariant = { λ p.
        IsTrue (is_sound_state (record { under_way = p.under_way; last = p.last })) };
}

impl Programmer {
    /// No task is under way, and the slot's data are zeros.
    pub fn new() -> Programmer
        ensures { result ≡ idle }
    {
        Programmer {
            under_way: None,
            last: TaskResult {
                task: Task {
                    command: 0,
                    hopsa: 0,
                    lopsa: 0,
                    trk: 0,
                    address: 0,
                    value: 0,
                },
                status: Status::Done,
                value: 0,
            },
        }
    }

    /// Whether a task is under way.
    pub fn is_busy(&self) -> bool
        ensures { result ≡ is_some self.now.under_way }
    {
        self.under_way.is_some()
    }

    /// Does what a message asks for. Returns the reply, or `None` if it is not for slot 124.
    pub fn request(&mut self, message: &Msg) -> Option<TaskReply>
        ensures state { self.new ≡ after_request self.old (request_in message.now) }
        ensures reply { result ≡ reply_of self.old (request_in message.now) }
        ensures legal { IfSome result (λ reply. IsTrue (is_legal_reply reply)) }
        // Which messages are withheld from the station.
        ensures withheld { IsSome result ↔ IsTrue (is_for_programmer message.now) }
        // Under way: busy, and nothing changes.
        ensures busy { IsSome self.old.under_way → IsTrue (is_start message.now)
            → (result ≡ Some Busy) × (self.new ≡ self.old) }
        // A task that is aborted has ended, and another may begin.
        ensures aborted { (state : State) → self.old.under_way ≡ Some state
            → IsTrue (is_abort message.now)
            → (result ≡ Some (Data (result_of state.task Aborted state.task.value)))
            × (self.new.under_way ≡ None) }
        // A task ends within 126 packets.
        ensures bound { packets_left self.old ≤ 126 → packets_left self.new ≤ 126 }
    {
        match SlotRequest::of(message)? {
            SlotRequest::Read => Some(TaskReply::Data(self.data())),
            SlotRequest::Abort => {
                self.abort();
                Some(TaskReply::Data(self.data()))
            }
            SlotRequest::Begin(task) => Some(self.begin(task)),
        }
    }

    /// The data of the slot: of the task under way, with bit 3 of TRK, or of the last that ended.
    fn data(&self) -> TaskResult
        ensures value { result ≡ data_of self.now }
        ensures legal { IsTrue (is_legal_result result) }
    {
        match self.under_way {
            None => self.last,
            Some(state) => busy_data(state.task),
        }
    }

    /// Ends the task under way, if one is.
    fn abort(&mut self)
        ensures { self.new ≡ with_aborted self.old }
    {
        if let Some(state) = self.under_way {
            self.under_way = None;
            self.last = TaskResult {
                task: state.task,
                status: Status::Aborted,
                value: state.task.value,
            };
        }
    }

    /// Begins a task, unless another is under way.
    fn begin(&mut self, task: Task) -> TaskReply
        requires { IsTrue (is_task task) }
        ensures state { self.new ≡ after_begin self.old task }
        ensures reply { result ≡ reply_to self.old task }
    {
        if self.under_way.is_some() {
            return TaskReply::Busy;
        }
        if task.is_byte() || task.is_bit() {
            self.under_way = Some(TaskState::begin(task));
            TaskReply::Accepted
        } else {
            TaskReply::NotImplemented
        }
    }

    /// The packet that is to be sent now, if a task is under way.
    pub fn packet(&self) -> Option<ServicePacket>
        ensures value { result ≡ next_packet self.now.under_way }
        ensures legal { IfSome result (λ packet. IsTrue (is_legal_packet packet)) }
    {
        match self.under_way {
            Some(state) => Some(state.packet()),
            None => None,
        }
    }

    /// Takes what was drawn while the packet was sent. Returns the result, if the task ends.
    pub fn step(&mut self, load: Load) -> Option<TaskResult>
        ensures state { self.new ≡ after_packet self.old load }
        ensures result { result ≡ result_after self.old.under_way load }
        ensures legal { IfSome result (λ ended. IsTrue (is_legal_result ended)) }
        // Each packet brings the end nearer, whatever is drawn.
        ensures progress { packets_left self.new ≤ packets_left self.old - 1 }
        ensures ends { packets_left self.old ≡ 1 → IsSome result }
    {
        match self.under_way?.next(load) {
            Next::Continued(state) => {
                self.under_way = Some(state);
                None
            }
            Next::Finished(ended) => {
                self.under_way = None;
                self.last = ended;
                Some(ended)
            }
        }
    }
}

/// The data of the slot while a task is under way: bit 3 of TRK is set.
fn busy_data(task: Task) -> TaskResult
    requires { IsTrue (is_task task) }
    ensures value { result ≡ busy_data task }
    ensures legal { IsTrue (is_legal_result result) }
{
    TaskResult {
        task: Task {
            trk: task.trk / 16 * 16 + BUSY + task.trk % 8,
            ..task
        },
        status: Status::Done,
        value: task.value,
    }
}
