//! The commands that take memory: EventRequest.Set, and VirtualMachine.Exit, after which the machine is dead.
ghost use Rattle.std.specs.Prelude.{◌≡◌, List, [], None, IfOk, IfErr, OnErr};
ghost use Rattle.jdwp_event.specs.Modifiers.{modifiers_of};
ghost use Rattle.jdwp_event.specs.RequestParts.{modifiers_meaning};
ghost use Rattle.jdwp_layout.specs.Meanings.{ScalarMeaning, entry_meanings};
ghost use Rattle.jdwp_machine.specs.Meanings.{numbers};
ghost use Rattle.jdwp_action.specs.Actions as action;
ghost use Rattle.jdwp_debuggee.specs.Debuggees.{CarriesOut};
ghost use Rattle.jdwp_debuggee.specs.Effects.{all_ended};
ghost use Rattle.jdwp_debuggee.specs.Refusals.{set_refusal};
ghost use Rattle.jdwp_debuggee.specs.Replies.{reply_meaning};
ghost use Rattle.jdwp_debuggee.specs.Wants.{early_refusal};

use crate::debuggee::Debuggee;
use crate::refusals::first_origin;
use crate::reply::Reply;
use jdwp_event::{Modifier, Request, RequestId};
use jdwp_layout::Scalar;
use jdwp_machine::Machine;
use jdwp_value::ObjectId;
use jdwp_wire::NoMemory;
use std::alloc::Global;

/// The same threads, in a list of their own.
///
/// # Errors
/// `NoMemory` where an allocation was refused, and only where there are any.
fn copied(alloc: Global, threads: &[ObjectId]) -> Result<Vec<ObjectId>, NoMemory>
    ensures value { IfOk result (λ copies. numbers copies.items ≡ numbers threads.now) }
    ensures memory { IfErr result (λ _. numbers threads.now ≡ [] → ⊥) }
{
    if threads.is_empty() {
        return Ok(Vec::new(alloc));
    }
    Ok(threads.to_vec(alloc)?)
}

/// Ends all live threads, in the machine's order.
fn end_all<M: Machine>(machine: &mut M, threads: &[ObjectId])
    requires state { M.meaning.is_state machine.old }
    requires all { numbers threads.now ≡ M.meaning.live machine.old }
    ensures { machine.new ≡ all_ended M.meaning machine.old (numbers threads.now) }
{
    for thread in threads {
        machine.end(*thread);
    }
}

impl<M: Machine> Debuggee<M> {
    /// VirtualMachine.Exit: every thread ends, and the machine is dead. The session closes behind VM_DEATH.
    ///
    /// # Errors
    /// `NoMemory` where an allocation was refused, and only where threads live; then nothing has changed.
    pub fn exit(&mut self, alloc: Global) -> Result<Reply, NoMemory>
        ensures ok { IfOk result (λ reply. CarriesOut M.meaning action.Exit self.old self.new
            (reply_meaning reply)) }
        ensures err { OnErr result (self.new ≡ self.old) }
        ensures memory { IfErr result (λ _. M.meaning.live self.old.moment.machine ≡ [] → ⊥) }
    {
        let live = copied(alloc, self.machine.live())?;
        end_all(&mut self.machine, live.as_slice());
        self.threads.clear();
        self.requests.clear();
        self.alive = false;
        Ok(Reply::Done)
    }

    /// EventRequest.Set of this kind and policy, with the entries of its list of modifiers: the request under the next id, which is
    /// answered; or the first of the refusals.
    ///
    /// # Errors
    /// `NoMemory` where an allocation was refused, and only where neither the kind nor the policy is refused and there is room; then
    /// nothing has changed.
    pub fn set_request(
        &mut self,
        alloc: Global,
        kind: u8,
        policy: u8,
        entries: Vec<Vec<Scalar>>,
    ) -> Result<Reply, NoMemory>
        ensures ok { IfOk result (λ reply. CarriesOut M.meaning (action.SetRequest kind policy
            (entry_meanings entries.items)) self.old self.new (reply_meaning reply)) }
        ensures err { OnErr result (self.new ≡ self.old) }
        ensures memory { IfErr result (λ _. early_refusal self.old.settings self.old.moment.state
            kind policy ≡ None) }
    {
        if let Some(error) = self.early_refusal(kind, policy) {
            return Ok(Reply::Refused(error));
        }
        let modifiers = Modifier::of_entries(alloc, entries)?;
        match self.late_refusal(alloc, kind, modifiers.as_slice())? {
            Some(error) => Ok(Reply::Refused(error)),
            None => self.add_request(alloc, kind, policy, modifiers),
        }
    }

    /// Adds a request that is not refused, under the next id, which is answered.
    ///
    /// # Errors
    /// `NoMemory` where an allocation was refused; then nothing has changed.
    fn add_request(
        &mut self,
        alloc: Global,
        kind: u8,
        policy: u8,
        modifiers: Vec<Modifier>,
    ) -> Result<Reply, NoMemory>
        requires { set_refusal M.meaning self.old.settings self.old.moment kind policy
            (modifiers_meaning modifiers) ≡ None }
        ensures ok { IfOk result (λ reply. (entries : List (List ScalarMeaning))
            → modifiers_meaning modifiers ≡ modifiers_of entries
            → CarriesOut M.meaning (action.SetRequest kind policy entries) self.old self.new
            (reply_meaning reply)) }
        ensures err { OnErr result (self.new ≡ self.old) }
    {
        let origin = first_origin(alloc, &self.machine, modifiers.as_slice())?;
        let id = self.next_request;
        let asked_id = RequestId::new(id).unwrap();
        let request = Request::new(alloc, asked_id, kind, policy, modifiers, origin)?;
        self.requests.insert(request)?;
        self.next_request = id + 1;
        Ok(Reply::Number(id))
    }
}
