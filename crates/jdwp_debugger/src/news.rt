//! What packets from a target say by their bytes.
ghost use Rattle.std.specs.Prelude.{◌≡◌, ◌==◌, ℕ, IfOk, List, None, Result, Some, if◌then◌else◌, length};
ghost use Rattle.std.specs.Result.{IsErrOf};
ghost use Rattle.jdwp_wire.specs.ErrorCodes.{NONE};
ghost use Rattle.jdwp_wire.specs.declared.data_fault.DataFault.{DataFault};
ghost use Rattle.jdwp_wire.specs.Reading as reading;
ghost use Rattle.jdwp_layout.specs.Meanings.{DatumMeaning, meanings};
ghost use Rattle.jdwp_layout.specs.declared.answer.Answer.TheVariants.{Error};
ghost use Rattle.jdwp_event.specs.Composites.{CompositeMeaning};
ghost use Rattle.jdwp_action.specs.RowLayouts.{found_layout};
ghost use Rattle.jdwp_debugger.specs.declared.faults.DebuggerFault.TheVariants as code;
ghost use Rattle.jdwp_mirror.specs.FaultParts.{IsData};
ghost use Rattle.jdwp_debugger.specs.News.{Fails, Tells, answer_by, answer_in, composite_in, composites_in, content_in, data_by, raw_data, required, unless_bad, whole};

use crate::faults::DebuggerFault;
use crate::order::Order;
use crate::parked::Parked;
use jdwp_action::reply_layout;
use jdwp_event::Composite;
use jdwp_layout::{Answer, Data, Datum, Layout, read};
use jdwp_mirror::{Command, is_bad_answer};
use jdwp_wire::{DataFault, ErrorCode, IdSizes, NoMemory, Wire};
use std::alloc::Global;

/// The composite that all of these bytes are.
///
/// # Errors
/// `BadEvent` where they are none; `NoMemory` where an allocation was refused.
pub(crate) fn read_composite(
    alloc: Global,
    sizes: &IdSizes,
    bytes: &[u8],
) -> Result<Composite, DebuggerFault>
    ensures { Tells (λ c. c) result (required code.BadEvent (composite_in sizes.now bytes.now)) }
{
    match Composite::take_front(alloc, bytes, bytes.len(), sizes) {
        Ok((composite, rest)) => {
            if !rest.is_empty() {
                return Err(DebuggerFault::BadEvent);
            }
            Ok(composite)
        }
        Err(fault) => Err(event_fault(fault)),
    }
}

/// What is the matter with an event whose data do not read.
fn event_fault(fault: DataFault) -> DebuggerFault
    ensures { (found : Result (CompositeMeaning × List ℕ) DataFault) → reading.Fails fault found
        → Fails result (required code.BadEvent (whole found)) }
{
    match fault {
        DataFault::NoMemory => DebuggerFault::NoMemory,
        DataFault::Short(_)
        | DataFault::Extra(_)
        | DataFault::BadTag
        | DataFault::NegativeCount
        | DataFault::NotUtf8
        | DataFault::BadSize
        | DataFault::IdTooWide => DebuggerFault::BadEvent,
    }
}

/// The composites that waited, in order.
///
/// # Errors
/// `BadEvent` where one of them is none; `NoMemory` where an allocation was refused.
pub(crate) fn read_parked(
    alloc: Global,
    sizes: &IdSizes,
    parked: &[Parked],
) -> Result<Vec<Composite>, DebuggerFault>
    ensures { Tells (λ v. v.items) result (required code.BadEvent
        (composites_in sizes.now parked.now)) }
{
    let mut composites = Vec::new(alloc);
    for waiting in parked {
        let composite = read_composite(alloc, sizes, &waiting.body)?;
        composites.push(composite)?;
    }
    Ok(composites)
}

/// The answer of a reply to a command, with this error code and these data.
///
/// # Errors
/// `BadReply` where the data do not read, an error has data and the order is `One`, or a debugger can't use them; `NoMemory` where an allocation was refused,
/// which a reply with an error does not call for.
pub(crate) fn read_answer(
    alloc: Global,
    order: Order,
    command: &Command,
    sizes: &IdSizes,
    error: ErrorCode,
    bytes: &[u8],
) -> Result<Answer, DebuggerFault>
    ensures value { Tells (λ a. a) result (required code.BadReply (unless_bad command.now
        (answer_by order sizes.now command.now error bytes.now))) }
    ensures memory { IsErrOf result code.NoMemory → error.0 ≡ NONE.0 }
    ensures without_error { IfOk result (λ a. IsData a → error.0 ≡ NONE.0) }
{
    let answer = read_any_answer(alloc, order, command, sizes, error, bytes)?;
    if is_bad_answer(command, &answer) {
        return Err(DebuggerFault::BadReply);
    }
    Ok(answer)
}

/// The same, whether or not a debugger can use it.
fn read_any_answer(
    alloc: Global,
    order: Order,
    command: &Command,
    sizes: &IdSizes,
    error: ErrorCode,
    bytes: &[u8],
) -> Result<Answer, DebuggerFault>
    ensures value { Tells (λ a. a) result (required code.BadReply
        (answer_by order sizes.now command.now error bytes.now)) }
    ensures memory { IsErrOf result code.NoMemory → error.0 ≡ NONE.0 }
    ensures without_error { IfOk result (λ a. IsData a → error.0 ≡ NONE.0) }
{
    if error == ErrorCode::NONE {
        let layout = reply_layout(command.set(), command.number());
        return read_data(alloc, layout, sizes, bytes);
    }
    match order {
        Order::One => read_error(error, bytes),
        Order::Apart => Ok(Answer::Error(error)),
    }
}

/// The answer of a reply with this error code, which has no data.
fn read_error(error: ErrorCode, bytes: &[u8]) -> Result<Answer, DebuggerFault>
    ensures value { Tells (λ a. a) result (required code.BadReply
        (if length bytes.now == 0 then Some (Error error) else None)) }
    ensures memory { IsErrOf result code.NoMemory → error.0 ≡ NONE.0 }
    ensures without_error { IfOk result (λ a. IsData a → error.0 ≡ NONE.0) }
{
    if !bytes.is_empty() {
        return Err(DebuggerFault::BadReply);
    }
    Ok(Answer::Error(error))
}

/// The data of a reply without an error in this layout; without one, its bytes.
fn read_data(
    alloc: Global,
    layout: Option<Layout>,
    sizes: &IdSizes,
    bytes: &[u8],
) -> Result<Answer, DebuggerFault>
    ensures { Tells (λ a. a) result (required code.BadReply (data_by sizes.now
        (found_layout layout) bytes.now)) }
{
    let Some(layout) = layout else {
        let items = raw_items(alloc, bytes)?;
        return Ok(Answer::Data(Data::new(items)));
    };
    match read(alloc, &layout, sizes, bytes) {
        Ok(items) => Ok(Answer::Data(Data::new(items))),
        Err(fault) => Err(reply_fault(fault)),
    }
}

/// What is the matter with a reply whose data do not read.
fn reply_fault(fault: DataFault) -> DebuggerFault
    ensures { (found : Result (List DatumMeaning) DataFault) → reading.Fails fault found
        → Fails result (required code.BadReply (content_in found)) }
{
    match fault {
        DataFault::NoMemory => DebuggerFault::NoMemory,
        DataFault::Short(_)
        | DataFault::Extra(_)
        | DataFault::BadTag
        | DataFault::NegativeCount
        | DataFault::NotUtf8
        | DataFault::BadSize
        | DataFault::IdTooWide => DebuggerFault::BadReply,
    }
}

/// Bytes that are not read, as they are.
fn raw_items(alloc: Global, bytes: &[u8]) -> Result<Vec<Datum>, NoMemory>
    ensures { IfOk result (λ items. meanings items.items ≡ raw_data bytes.now) }
{
    let copy = Vec::from_slice(alloc, bytes)?;
    Ok(vec![in alloc; Datum::Raw(copy)]?)
}
