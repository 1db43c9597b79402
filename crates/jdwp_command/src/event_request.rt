//! The commands of the set EventRequest (JDWP specification, "Protocol Details").
ghost use Rattle.std.specs.Prelude.{[], IfOk};
ghost use Rattle.jdwp_event.specs.RequestParts.{modifiers_meaning};
ghost use Rattle.jdwp_layout.specs.CommandNumbers as commands;
ghost use Rattle.jdwp_command.specs.Asks.{Asks};
ghost use Rattle.jdwp_command.specs.Contents.{of_request, of_request_id};

use crate::made::{made, plain};
use crate::modifiers::modifier_entries;
use jdwp_event::{EventKind, Modifier, Policy};
use jdwp_layout::numbers::{CLEAR_ALL_BREAKPOINTS, CLEAR_REQUEST, EVENT_REQUEST, SET_REQUEST};
use jdwp_layout::{Datum, Scalar};
use jdwp_mirror::Command;
use jdwp_wire::NoMemory;
use std::alloc::Global;

/// EventRequest.Set: events of a kind are asked for, which suspend as the policy says, and are reported where each modifier in turn lets
/// them. The reply is an int, the id of the request.
///
/// # Errors
/// `NoMemory` where an allocation was refused.
pub fn set(
    alloc: Global,
    kind: EventKind,
    policy: Policy,
    modifiers: Vec<Modifier>,
) -> Result<Command, NoMemory>
    ensures { IfOk result
        (Asks commands.SET_REQUEST (of_request kind policy (modifiers_meaning modifiers))) }
{
    let entries = modifier_entries(alloc, modifiers)?;
    let items = vec![in alloc;
        Datum::One(Scalar::Byte(kind.byte())),
        Datum::One(Scalar::Byte(policy.byte())),
        Datum::Many(entries),
    ]?;
    Ok(made(EVENT_REQUEST, SET_REQUEST, items))
}

/// EventRequest.Clear: the request of this kind and this id is cleared. The reply is empty.
///
/// # Errors
/// `NoMemory` where an allocation was refused.
pub fn clear(alloc: Global, kind: EventKind, id: i32) -> Result<Command, NoMemory>
    ensures { IfOk result (Asks commands.CLEAR_REQUEST (of_request_id kind id)) }
{
    let items = vec![in alloc;
        Datum::One(Scalar::Byte(kind.byte())),
        Datum::One(Scalar::Int(id)),
    ]?;
    Ok(made(EVENT_REQUEST, CLEAR_REQUEST, items))
}

/// EventRequest.ClearAllBreakpoints: all requests of the kind BREAKPOINT are cleared. The reply is empty. Takes no memory.
pub fn clear_all_breakpoints(alloc: Global) -> Command
    ensures { Asks commands.CLEAR_ALL_BREAKPOINTS [] result }
{
    plain(alloc, EVENT_REQUEST, CLEAR_ALL_BREAKPOINTS)
}
