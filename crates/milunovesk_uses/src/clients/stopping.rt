//! Stopping at a place.

use jdwp_client::{Client, ClientError};
use jdwp_command::answers::{one_int, one_list};
use jdwp_command::{event_request, thread_reference, virtual_machine};
use jdwp_end::Pipe;
use jdwp_event::{Composite, EventKind, Modifier, Policy};
use jdwp_layout::Scalar;
use jdwp_value::{Location, ObjectId};
use std::alloc::Global;

/// Begins a session, sets a breakpoint at this place, lets all threads run, and waits for the first that gets there. How many frames it has;
/// None where the target refused the breakpoint. It goes on then.
///
/// # Errors
/// Those of a client's `ask` and `wait_for`.
pub fn frames_at_breakpoint<P: Pipe + Drop>(
    alloc: Global,
    client: &mut Client<P>,
    place: Location,
) -> Result<Option<usize>, ClientError> {
    client.attach()?;
    let Some(request) = set_breakpoint(alloc, client, place)? else {
        return Ok(None);
    };
    client.ask(virtual_machine::resume(alloc))?;
    let event = client.wait_for(request)?;
    let Some(thread) = thread_at(&event) else {
        return Ok(None);
    };
    let count = count_frames(alloc, client, thread)?;
    client.ask(thread_reference::resume(alloc, thread)?)?;
    Ok(count)
}

/// Asks for events of this place, each of which suspends its thread. The id of the request; None where the target refuses it.
///
/// # Errors
/// Those of a client's `ask`.
pub fn set_breakpoint<P: Pipe + Drop>(
    alloc: Global,
    client: &mut Client<P>,
    place: Location,
) -> Result<Option<i32>, ClientError> {
    let modifiers = vec![in alloc; Modifier::LocationOnly(place)]?;
    let (kind, policy) = (EventKind::Breakpoint, Policy::EventThread);
    let answer = client.ask(event_request::set(alloc, kind, policy, modifiers)?)?;
    Ok(one_int(&answer))
}

/// How many frames a thread has; None where the target does not tell.
///
/// # Errors
/// Those of a client's `ask`.
pub fn count_frames<P: Pipe + Drop>(
    alloc: Global,
    client: &mut Client<P>,
    thread: ObjectId,
) -> Result<Option<usize>, ClientError> {
    let answer = client.ask(thread_reference::frames(alloc, thread, 0, -1)?)?;
    Ok(one_list(&answer).map(|frames| frames.len()))
}

/// The thread of the first event of a composite; None where it has none.
pub fn thread_at(composite: &Composite) -> Option<ObjectId> {
    match composite.events().first()?.fields() {
        [_, _, Scalar::ObjectId(thread), ..] => Some(*thread),
        _ => None,
    }
}
