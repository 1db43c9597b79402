//! Commands that change the debuggee or ask it, each by its definition (JDWP specification, "Protocol Details").
ghost use Rattle.std.specs.Prelude.{◌≡◌};
ghost use Rattle.jdwp_action.specs.Actions as action;
ghost use Rattle.jdwp_debuggee.specs.Debuggees.{CarriesOut};
ghost use Rattle.jdwp_debuggee.specs.Replies.{reply_meaning};

use crate::debuggee::Debuggee;
use crate::reply::Reply;
use crate::stopped::keep_stopped;
use jdwp_machine::Machine;
use jdwp_value::ObjectId;
use jdwp_wire::ErrorCode;

impl<M: Machine> Debuggee<M> {
    /// VirtualMachine.Suspend: every live thread's suspend count rises by one; `INTERNAL` where one stands at the count limit, and
    /// before the first handshake.
    pub fn suspend(&mut self) -> Reply
        ensures { CarriesOut M.meaning action.Suspend self.old self.new (reply_meaning result) }
    {
        if !self.handshaken || self.threads.stands_at(self.settings.count_limit()) {
            return Reply::Refused(ErrorCode::INTERNAL);
        }
        self.threads.raise_all();
        Reply::Done
    }

    /// VirtualMachine.Resume: every positive suspend count falls by one.
    pub fn resume(&mut self) -> Reply
        ensures { CarriesOut M.meaning action.Resume self.old self.new (reply_meaning result) }
    {
        self.threads.lower_all();
        keep_stopped(&mut self.stopped, &self.threads);
        Reply::Done
    }

    /// VirtualMachine.Dispose: the debuggee is reset, and the session closes.
    pub fn dispose(&mut self) -> Reply
        ensures { CarriesOut M.meaning action.Dispose self.old self.new (reply_meaning result) }
    {
        self.reset();
        Reply::Done
    }

    /// VirtualMachine.HoldEvents: from now on no thread steps.
    pub fn hold_events(&mut self) -> Reply
        ensures { CarriesOut M.meaning action.HoldEvents self.old self.new (reply_meaning result) }
    {
        self.held = true;
        Reply::Done
    }

    /// VirtualMachine.ReleaseEvents: threads may step again.
    pub fn release_events(&mut self) -> Reply
        ensures { CarriesOut M.meaning action.ReleaseEvents self.old self.new
            (reply_meaning result) }
    {
        self.held = false;
        Reply::Done
    }

    /// VirtualMachine.IDSizes: how many bytes each kind of id takes.
    pub fn ask_sizes(&self) -> Reply
        ensures { CarriesOut M.meaning action.IdSizes self.now self.now (reply_meaning result) }
    {
        Reply::Sizes(self.machine.sizes())
    }

    /// ThreadReference.Suspend: the thread's suspend count rises by one; `INTERNAL` before the first handshake, `INVALID_THREAD`
    /// where it is not alive, `INTERNAL` where it stands at the count limit.
    pub fn suspend_thread(&mut self, thread: ObjectId) -> Reply
        ensures { CarriesOut M.meaning (action.SuspendThread thread.0) self.old self.new
            (reply_meaning result) }
    {
        match self.threads.count(thread) {
            _ if !self.handshaken => Reply::Refused(ErrorCode::INTERNAL),
            None => Reply::Refused(ErrorCode::INVALID_THREAD),
            Some(count) if count == self.settings.count_limit() => {
                Reply::Refused(ErrorCode::INTERNAL)
            }
            Some(_) => {
                self.threads.raise(thread);
                Reply::Done
            }
        }
    }

    /// ThreadReference.Resume: the thread's suspend count falls by one, if it is positive; `INVALID_THREAD` where it is not alive.
    pub fn resume_thread(&mut self, thread: ObjectId) -> Reply
        ensures { CarriesOut M.meaning (action.ResumeThread thread.0) self.old self.new
            (reply_meaning result) }
    {
        if !self.threads.is_live(thread) {
            return Reply::Refused(ErrorCode::INVALID_THREAD);
        }
        self.threads.lower(thread);
        keep_stopped(&mut self.stopped, &self.threads);
        Reply::Done
    }

    /// ThreadReference.SuspendCount; `INVALID_THREAD` where the thread is not alive.
    pub fn ask_suspend_count(&self, thread: ObjectId) -> Reply
        ensures { CarriesOut M.meaning (action.SuspendCount thread.0) self.now self.now
            (reply_meaning result) }
    {
        match self.threads.count(thread) {
            None => Reply::Refused(ErrorCode::INVALID_THREAD),
            Some(count) => Reply::Number(count),
        }
    }

    /// ThreadReference.Status; `INVALID_THREAD` where the thread is not alive.
    pub fn ask_status(&self, thread: ObjectId) -> Reply
        ensures { CarriesOut M.meaning (action.ThreadStatus thread.0) self.now self.now
            (reply_meaning result) }
    {
        match self.threads.count(thread) {
            None => Reply::Refused(ErrorCode::INVALID_THREAD),
            Some(count) => Reply::Status(count),
        }
    }

    /// EventRequest.Clear: the request of this kind and id goes, if there is one.
    pub fn clear_request(&mut self, kind: u8, id: i32) -> Reply
        ensures { CarriesOut M.meaning (action.ClearRequest kind id) self.old self.new
            (reply_meaning result) }
    {
        self.requests.remove(kind, id);
        Reply::Done
    }

    /// EventRequest.ClearAllBreakpoints: all requests of the kind BREAKPOINT go.
    pub fn clear_breakpoints(&mut self) -> Reply
        ensures { CarriesOut M.meaning action.ClearBreakpoints self.old self.new
            (reply_meaning result) }
    {
        self.requests.remove_breakpoints();
        Reply::Done
    }
}
