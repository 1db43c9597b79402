//! In which order a target sends what it says.
ghost use Rattle.std.specs.Prelude.{◌≡◌, [], OnErr, OnOk, not, true};
ghost use Rattle.std.specs.List.{list_any};
ghost use Rattle.jdwp_event.specs.Told.{is_event_of};
ghost use Rattle.jdwp_event.specs.declared.kind.EventKind.TheVariants as kind;
ghost use Rattle.jdwp_layout.specs.Meanings.{scalar_meanings};
ghost use Rattle.jdwp_action.specs.Actions.{action_of};
ghost use Rattle.jdwp_debugger.specs.declared.order.Order.TheVariants.{Apart, One};
ghost use Rattle.jdwp_mirror.specs.CommandKinds.{kind_of};
ghost use Rattle.jdwp_watch.specs.Ledgers.{is_thread_kind, is_told};
ghost use Rattle.jdwp_debugger.specs.Orders.{LearnedIn, MayLearn, is_bad_in, is_no_death};
ghost use Rattle.jdwp_debugger.specs.Orders as orders;
ghost use Rattle.jdwp_mirror.specs.FaultParts.{IsData};
ghost use Rattle.jdwp_mirror.specs.KnownThreads.{count_in};
ghost use Rattle.jdwp_mirror.specs.Messages.{Reply, Report, Ticket};

use jdwp_event::{Composite, Event, EventKind, Policy, has_event_of};
use jdwp_layout::{Answer, Scalar};
use jdwp_mirror::{Command, Mirror, is_bad_composite};
use jdwp_watch::tells_of_threads;
use jdwp_wire::NoMemory;
use std::alloc::Global;

/// In which order a target sends its replies and composites.
#[derive(Clone, Copy, Debug, PartialEq, Eq)]
pub enum Order {
    /// One after another: it sends the packet of each act as it acts, so that packets come in the order of the acts.
    One,
    /// By threads of their own, as Java machines do: replies come in the order of their commands, but for those to commands that invoke
    /// methods, composites in the order of their events, each sent before the next event takes effect, and nothing else orders the two.
    /// Such packets, read one by one, tell no suspend count: the mirror knows no thread. What is surely so of the threads is followed
    /// beside it.
    Apart,
}

impl Order {
    /// Whether no target of this order may send a composite to a debugger with this mirror.
    pub(crate) fn is_bad(self, mirror: &Mirror, composite: &Composite) -> bool
        requires { MayLearn self mirror.now }
        ensures { result ≡ is_bad_in self (count_in mirror.now.threads) composite.now }
    {
        match self {
            Order::One => is_bad_composite(mirror, composite),
            Order::Apart => {
                if is_asked_death(composite) {
                    composite.policy() > Policy::All.byte()
                } else {
                    is_bad_composite(mirror, composite)
                }
            }
        }
    }

    /// Learns from a composite.
    ///
    /// # Errors
    /// `NoMemory` where an allocation was refused, and only in the order `One`; nothing has changed.
    pub(crate) fn learn_composite(
        self,
        mirror: &mut Mirror,
        composite: &Composite,
    ) -> Result<(), NoMemory>
        requires { MayLearn self mirror.old }
        ensures ok { OnOk result (LearnedIn self mirror.old (Report composite.now) mirror.new) }
        ensures err { OnErr result (mirror.new ≡ mirror.old) }
        ensures order { OnErr result (self ≡ One) }
    {
        match self {
            Order::One => mirror.learn_composite(composite),
            Order::Apart => {
                if has_event_of(composite, EventKind::VmDeath) {
                    mirror.clear();
                }
                Ok(())
            }
        }
    }

    /// Learns from the reply to a command.
    ///
    /// # Errors
    /// `NoMemory` where an allocation was refused; nothing has changed. A reply with an error takes no memory.
    pub(crate) fn learn_reply(
        self,
        alloc: Global,
        mirror: &mut Mirror,
        command: &Command,
        answer: &Answer,
    ) -> Result<(), NoMemory>
        requires { MayLearn self mirror.old }
        ensures ok { OnOk result ((ticket : Ticket)
            → LearnedIn self mirror.old (Reply ticket command.now answer.now) mirror.new) }
        ensures err { OnErr result (mirror.new ≡ mirror.old) }
        ensures memory { OnErr result (IsData answer.now) }
        ensures same { self ≡ Apart → is_told command.now answer.now ≡ true → mirror.new ≡ mirror.old }
    {
        match self {
            Order::One => mirror.learn_reply(alloc, command, answer),
            Order::Apart => learn_requests(alloc, mirror, command, answer),
        }
    }
}

/// Learns from the reply to a command of event requests alone, where no thread is known.
fn learn_requests(
    alloc: Global,
    mirror: &mut Mirror,
    command: &Command,
    answer: &Answer,
) -> Result<(), NoMemory>
    requires { mirror.old.threads ≡ [] }
    ensures ok { OnOk result ((ticket : Ticket)
        → LearnedIn Apart mirror.old (Reply ticket command.now answer.now) mirror.new) }
    ensures err { OnErr result (mirror.new ≡ mirror.old) }
    ensures memory { OnErr result (IsData answer.now) }
    ensures same { is_thread_kind (kind_of (action_of command.now)) ≡ true → mirror.new ≡ mirror.old }
{
    if tells_of_threads(command.kind()) {
        return Ok(()); // what it tells is not of requests
    }
    mirror.learn_reply(alloc, command, answer)
}

/// Whether several events were reported, all of VM_DEATH.
fn is_asked_death(composite: &Composite) -> bool
    ensures { result ≡ orders.is_asked_death composite.now }
{
    composite.events().len() > 1 && are_deaths(composite.events())
}

/// Whether all events are of VM_DEATH.
fn are_deaths(events: &[Event]) -> bool
    ensures { result ≡ not (list_any is_no_death events.now) }
{
    for event in events {
        if !is_death(event.fields()) {
            return false;
        }
    }
    true
}

fn is_death(fields: &[Scalar]) -> bool
    ensures { result ≡ is_event_of kind.VmDeath (scalar_meanings fields.now) }
{
    match fields {
        [Scalar::Byte(byte), ..] => *byte == EventKind::VmDeath.byte(),
        _ => false,
    }
}
