//! The lines that tell what a debugger read and what it knows, each with its newline.
ghost use Rattle.std.specs.Prelude.{◌≡◌, ◌++◌, IfOk, codes, is_none};
ghost use Rattle.std.specs.String.{string_bytes};
ghost use Rattle.jdwp_layout.specs.Meanings.{datum_meaning};
ghost use Rattle.jdwp_show.specs.Data.{shapes_of};
ghost use Rattle.jdwp_show.specs.MessageLines.{hello_line, reply_start};
ghost use Rattle.jdwp_show.specs.declared.capture_line.Sender.TheVariants.{Target};
ghost use Rattle.jdwp_wire.specs.ErrorCodes.{NONE};
ghost use Rattle.jdwp_attach.specs.Telling.{answered_line, bytes_in, items_text, least_line, named, request_line, seen_line, sizes_line, thread_line, width_item};

use jdwp_debugger::{Debugger, Known};
use jdwp_event::Composite;
use jdwp_layout::numbers::{ID_SIZES, VIRTUAL_MACHINE};
use jdwp_layout::{Answer, Data, Datum, Scalar, layout_of};
use jdwp_show::{composite_line, reply_line};
use jdwp_value::ObjectId;
use jdwp_wire::{ErrorCode, IdSizes, NoMemory};
use std::alloc::Global;

/// What is told of the target's handshake: `< hello`.
///
/// # Errors
/// `NoMemory` where an allocation was refused.
pub fn hello_line(alloc: Global) -> Result<String, NoMemory>
    ensures { IfOk result (λ line. string_bytes line ≡ hello_line Target ++ codes "\n") }
{
    let line = format!(in alloc; "< hello\n")?;
    Ok(line)
}

/// What is told of a composite under this packet id: `< ID Event.Composite DATA`.
///
/// # Errors
/// `NoMemory` where an allocation was refused.
pub fn seen_line(alloc: Global, id: u32, composite: &Composite) -> Result<String, NoMemory>
    ensures { IfOk result (λ line. string_bytes line ≡ seen_line id composite.now) }
{
    ended(composite_line(alloc, id, composite)?)
}

/// The line with its newline.
fn ended(mut line: String) -> Result<String, NoMemory>
    ensures { IfOk result (λ ended. string_bytes ended ≡ string_bytes line ++ codes "\n") }
{
    line.push_str("\n")?;
    Ok(line)
}

/// What is told of the answer to a command, under the id of its packet: `< ID reply SET.COMMAND ERROR DATA`.
///
/// # Errors
/// `NoMemory` where an allocation was refused.
pub fn answered_line(
    alloc: Global,
    id: u32,
    set: u8,
    number: u8,
    answer: &Answer,
) -> Result<String, NoMemory>
    ensures { IfOk result (λ line. string_bytes line
        ≡ answered_line id (named set number) answer.now) }
{
    match answer {
        Answer::Error(error) => ended(reply_line(alloc, id, set, number, *error, &[], &[])?),
        Answer::Data(data) => ended(data_line(alloc, id, set, number, data)?),
    }
}

/// The line of an answer without an error, without its newline.
fn data_line(alloc: Global, id: u32, set: u8, number: u8, data: &Data) -> Result<String, NoMemory>
    ensures { IfOk result (λ line. string_bytes line ≡ reply_start Target id
        (named set number) NONE.0 ++ items_text (shapes_of (named set number)) «data».now) }
{
    if is_unread(set, number) {
        let bytes = bytes_in(data);
        return reply_line(alloc, id, set, number, ErrorCode::NONE, &[], bytes);
    }
    reply_line(alloc, id, set, number, ErrorCode::NONE, data.items(), &[])
}

/// Whether the table has no layouts by which the command's data are read.
fn is_unread(set: u8, number: u8) -> bool
    ensures { result ≡ is_none (shapes_of (named set number)) }
{
    match layout_of(set, number) {
        Some(row) => row.layouts.is_none(),
        None => true,
    }
}

/// The bytes of data that are not read; none of data that are.
fn bytes_in(data: &Data) -> &[u8]
    ensures { result.now ≡ bytes_in «data».now }
{
    match data.raw() {
        Some(bytes) => bytes,
        None => &[],
    }
}

/// What is told of the widths of ids, under the id of the reply that had them.
///
/// # Errors
/// `NoMemory` where an allocation was refused.
pub fn sizes_line(alloc: Global, id: u32, sizes: &IdSizes) -> Result<String, NoMemory>
    ensures { IfOk result (λ line. string_bytes line ≡ sizes_line id sizes.now) }
{
    let (set, number) = (VIRTUAL_MACHINE, ID_SIZES);
    let items = [
        width(sizes.field()),
        width(sizes.method()),
        width(sizes.object()),
        width(sizes.reference()),
        width(sizes.frame()),
    ];
    ended(reply_line(alloc, id, set, number, ErrorCode::NONE, &items, &[])?)
}

/// The width of ids of one kind, as data.
fn width(bytes: u8) -> Datum
    ensures { datum_meaning result ≡ width_item bytes }
{
    Datum::One(Scalar::Int(i32::from(bytes)))
}

/// What is told of a thread that is known: `thread T COUNT held`, or `free`.
///
/// # Errors
/// `NoMemory` where an allocation was refused.
pub(crate) fn thread_line(alloc: Global, thread: &Known) -> Result<String, NoMemory>
    ensures { IfOk result (λ line. string_bytes line ≡ thread_line thread.now) }
{
    let id = thread.id.0;
    let count = thread.count;
    let held = if thread.held { "held" } else { "free" };
    let line = format!(in alloc; "thread {id} {count} {held}\n")?;
    Ok(line)
}

/// What is told of a thread that was named: `thread T N+ held`, or `free`.
///
/// # Errors
/// `NoMemory` where an allocation was refused.
pub(crate) fn least_line(
    alloc: Global,
    debugger: &Debugger,
    thread: ObjectId,
) -> Result<String, NoMemory>
    ensures { IfOk result (λ line. string_bytes line ≡ least_line debugger.now thread.0) }
{
    let id = thread.0;
    let count = debugger.at_least(thread);
    let held = if debugger.is_held(thread) {
        "held"
    } else {
        "free"
    };
    let line = format!(in alloc; "thread {id} {count}+ {held}\n")?;
    Ok(line)
}

/// What is told of an event request by its id, kind and policy: `request ID KIND POLICY`.
///
/// # Errors
/// `NoMemory` where an allocation was refused.
pub(crate) fn request_line(alloc: Global, request: (i32, u8, u8)) -> Result<String, NoMemory>
    ensures { IfOk result (λ line. string_bytes line ≡ request_line request) }
{
    let (id, kind, policy) = request;
    let line = format!(in alloc; "request {id} {kind} {policy}\n")?;
    Ok(line)
}
