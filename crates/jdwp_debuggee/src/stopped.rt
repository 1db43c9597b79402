//! Threads that an event stopped.
ghost use Rattle.std.specs.Prelude.{◌≡◌, OnOk};
ghost use Rattle.jdwp_machine.specs.Meanings.{numbers};
ghost use Rattle.jdwp_debuggee.specs.State.{still_stopped};
ghost use Rattle.jdwp_debuggee.specs.Steps.{stops};
ghost use Rattle.jdwp_debuggee.specs.StepParts.{HasStopRoom, stopped_for};

use crate::threads::Threads;
use jdwp_event::{Composite, Policy};
use jdwp_value::ObjectId;
use jdwp_wire::NoMemory;

/// Leaves those that are still suspended.
pub(crate) fn keep_stopped(stopped: &mut Vec<ObjectId>, threads: &Threads)
    ensures { numbers stopped.new.items ≡ still_stopped threads.now.list
        (numbers stopped.old.items) }
{
    stopped.retain(|thread| threads.is_suspended(*thread));
}

/// Whether the policy of this byte suspends the event's thread.
fn stops(policy: u8) -> bool
    ensures { result ≡ stops policy }
{
    policy == Policy::All.byte() || policy == Policy::EventThread.byte()
}

/// Makes room for the event's thread, if anything is sent.
pub(crate) fn make_stop_room(
    stopped: &mut Vec<ObjectId>,
    sends: &Option<Composite>,
) -> Result<(), NoMemory>
    ensures same { stopped.new.items ≡ stopped.old.items }
    ensures room { OnOk result (HasStopRoom sends.now stopped.new) }
{
    if sends.is_some() {
        stopped.reserve(1)?;
    }
    Ok(())
}

/// The event's thread is suspended by what is sent, if the policy suspends it; there is room for it.
pub(crate) fn stop_for(
    stopped: &mut Vec<ObjectId>,
    sends: &Option<Composite>,
    event_thread: ObjectId,
)
    requires { HasStopRoom sends.now stopped.old }
    ensures { numbers stopped.new.items ≡ stopped_for sends.now event_thread.0
        (numbers stopped.old.items) }
{
    if let Some(composite) = sends {
        if stops(composite.policy()) {
            stopped.push_reserved(event_thread);
        }
    }
}
