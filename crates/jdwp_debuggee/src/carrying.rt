//! Commands are carried out, each by its action (JDWP specification, "Protocol Details").
ghost use Rattle.std.specs.Prelude.{◌≡◌, true, false, IfOk, IfErr, OnErr, MatchOption};
ghost use Rattle.jdwp_action.specs.Actions.{Command, action_of, is_dispose, is_exit};
ghost use Rattle.jdwp_debuggee.specs.Askings.{action_meaning, asking, asking_of};
ghost use Rattle.jdwp_debuggee.specs.Debuggees.{CarriesOut};
ghost use Rattle.jdwp_debuggee.specs.Effects.{carried};
ghost use Rattle.jdwp_debuggee.specs.Replies.{reply_meaning};
ghost use Rattle.jdwp_action.specs.AnswerPackets.{EncodesAnswer};
ghost use Rattle.jdwp_debuggee.specs.Sending.{Did, is_question, is_short_action, sent_short};
ghost use Rattle.jdwp_debuggee.specs.Wants.{MayWantFor};

use crate::command::Action;
use crate::debuggee::Debuggee;
use crate::reply::{Reply, Sent};
use crate::strings::{makes_string, text_in};
use jdwp_machine::Machine;
use jdwp_wire::NoMemory;
use std::alloc::Global;

impl Action {
    /// Whether the session closes after it: Dispose and Exit.
    pub fn closes(&self) -> bool
        ensures dispose { is_dispose (action_meaning self.now) ≡ true → result ≡ true }
        ensures exit { is_exit (action_meaning self.now) ≡ true → result ≡ true }
        ensures other { is_dispose (action_meaning self.now) ≡ false
            → is_exit (action_meaning self.now) ≡ false → result ≡ false }
    {
        matches!(self, Action::Dispose | Action::Exit)
    }

    /// Whether the machine is dead after it: Exit.
    pub fn kills(&self) -> bool
        ensures { result ≡ is_exit (action_meaning self.now) }
    {
        matches!(self, Action::Exit)
    }
}

/// A reply that takes no memory, as it is sent.
fn short(reply: Result<Reply, NoMemory>) -> Result<Sent, NoMemory>
    ensures { result ≡ sent_short reply }
{
    Ok(Sent::Short(reply?))
}

impl<M: Machine> Debuggee<M> {
    /// What a command is answered that asks neither the machine nor for its threads is encoded by the bytes that are sent for it. It
    /// does nothing.
    pub fn own_answers(&self)
        ensures { (c : Command) → is_question (action_of c) ≡ false
            → EncodesAnswer (M.meaning.sizes self.now.moment.machine) c.set c.number
            (carried M.meaning self.now.settings self.now.moment c (action_of c)).answer }
    {
        self.settings.count_limit();
    }

    /// Carries out an action, and answers what is to be sent for it.
    ///
    /// # Errors
    /// `NoMemory` where an allocation was refused; then nothing has changed. Those that want no memory never answer it, and nor does an
    /// action that is refused because a thread is not alive or runs, or by the machine, or a request whose kind or policy is refused or
    /// for which there is no room.
    pub fn carry_out(&mut self, alloc: Global, action: Action) -> Result<Sent, NoMemory>
        ensures ok { IfOk result (λ sent. (c : Command) → asking action ≡ asking_of c
            → Did M.meaning c self.old self.new sent) }
        ensures encoded { IfOk result (λ sent. (c : Command) → asking action ≡ asking_of c
            → is_question (action_of c) ≡ true
            → EncodesAnswer (M.meaning.sizes self.old.moment.machine) c.set c.number
            (carried M.meaning self.old.settings self.old.moment c (action_of c)).answer) }
        ensures err { OnErr result (self.new ≡ self.old) }
        ensures memory { IfErr result (λ _. is_short_action (action_meaning action) ≡ false) }
        ensures wants { IfErr result (λ _. MayWantFor M.meaning self.old.settings self.old.moment
            (asking action)) }
    {
        match action {
            Action::Suspend => Ok(Sent::Short(self.suspend())),
            Action::Resume => Ok(Sent::Short(self.resume())),
            Action::Dispose => Ok(Sent::Short(self.dispose())),
            Action::HoldEvents => Ok(Sent::Short(self.hold_events())),
            Action::ReleaseEvents => Ok(Sent::Short(self.release_events())),
            Action::ClearRequest { kind, id } => Ok(Sent::Short(self.clear_request(kind, id))),
            Action::ClearBreakpoints => Ok(Sent::Short(self.clear_breakpoints())),
            Action::SuspendThread(thread) => Ok(Sent::Short(self.suspend_thread(thread))),
            Action::ResumeThread(thread) => Ok(Sent::Short(self.resume_thread(thread))),
            Action::SuspendCount(thread) => Ok(Sent::Short(self.ask_suspend_count(thread))),
            Action::ThreadStatus(thread) => Ok(Sent::Short(self.ask_status(thread))),
            Action::IdSizes => Ok(Sent::Short(self.ask_sizes())),
            Action::Exit => short(self.exit(alloc)),
            Action::SetRequest {
                kind,
                policy,
                modifiers,
            } => short(self.set_request(alloc, kind, policy, modifiers)),
            Action::SetSlots {
                thread,
                frame,
                values,
            } => short(self.set_slots(thread, frame, &values)),
            Action::AskFrames(thread, query) => self.ask_frames(alloc, thread, &query),
            Action::AskThread(thread, query) => self.ask_thread(alloc, thread, &query),
            Action::AllThreads => self.ask_all_threads(alloc),
            Action::Ask(query) if makes_string(&query) => {
                self.make_string(text_in(&query.content))
            }
            Action::Ask(query) => self.ask(alloc, &query),
        }
    }
}
