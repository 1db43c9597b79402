//! Reading commands: those that carry little without memory, and all others by the table of commands
//! (JDWP specification, "Protocol Details").
ghost use Rattle.std.specs.Prelude.{◌≡◌, ℕ, Result, ◌∷◌, [], true, false, List, IfOk, IfErr, IfSome, MatchOption, Some, None, if◌then◌else◌};
ghost use Rattle.jdwp_wire.specs.Widths.{Widths};
ghost use Rattle.jdwp_wire.specs.declared.data_fault.DataFault.{DataFault};
ghost use Rattle.jdwp_wire.specs.declared.data_fault.DataFault.TheVariants.{NoMemory as WantOfMemory};
ghost use Rattle.jdwp_wire.specs.Reading.{Fails};
ghost use Rattle.jdwp_layout.specs.Meanings.{DatumMeaning, Raw, meanings};
ghost use Rattle.jdwp_action.specs.CommandReads.{command_read, content_read};
ghost use Rattle.jdwp_debuggee.specs.Askings.{action_meaning, asked_meaning, asking, asks, carries_nothing, is_short};
ghost use Rattle.jdwp_action.specs.RowLayouts.{found_layout};
ghost use Rattle.jdwp_debuggee.specs.Answering.{read_as};
ghost use Rattle.jdwp_debuggee.specs.ReadParts.{IsBare, answered_request, clear_asks, object_alone};
ghost use Rattle.jdwp_debuggee.specs.RefusalParts.{found_thread};
ghost use Rattle.jdwp_debuggee.specs.Sending.{is_short_action, is_short_asked};
ghost use Rattle.jdwp_debuggee.specs.Wants.{ReadsData};

use crate::command::{Action, ParsedCommand};
use jdwp_layout::invocation::request_layout;
use jdwp_layout::numbers::{
    CLEAR_ALL_BREAKPOINTS, CLEAR_REQUEST, DISPOSE, EVENT, EVENT_REQUEST, HOLD_EVENTS, ID_SIZES,
    RELEASE_EVENTS, RESUME, RESUME_THREAD, SUSPEND, SUSPEND_COUNT, SUSPEND_THREAD,
    THREAD_REFERENCE, THREAD_STATUS, VIRTUAL_MACHINE,
};
use jdwp_layout::{Data, Datum, Layout, layout_of, read};
use jdwp_machine::{Profile, Query};
use jdwp_value::ObjectId;
use jdwp_wire::{DataFault, ErrorCode, IdSizes, NoMemory, Wire};
use std::alloc::Global;

/// What a command comes to that carries nothing.
fn bare(set: u8, number: u8, action: Action, bytes: &[u8]) -> ParsedCommand
    requires bare { IsBare (asking action) set number }
    requires short { is_short_action (action_meaning action) ≡ true }
    ensures value { (w : Widths) → asked_meaning result
        ≡ asks (command_read w set number bytes.now) }
    ensures short { is_short_asked (asked_meaning result) ≡ true }
{
    if bytes.is_empty() {
        ParsedCommand::Carries(action)
    } else {
        ParsedCommand::Refuses(ErrorCode::ILLEGAL_ARGUMENT)
    }
}

/// What a command comes to that carries nothing; None where it is none of those.
fn read_bare(set: u8, number: u8, bytes: &[u8]) -> Option<ParsedCommand>
    ensures value { (w : Widths) → MatchOption result (carries_nothing set number ≡ false) (λ asked.
        (carries_nothing set number ≡ true)
        × (asked_meaning asked ≡ asks (command_read w set number bytes.now))) }
    ensures short { IfSome result (λ asked. is_short_asked (asked_meaning asked) ≡ true) }
{
    match (set, number) {
        (VIRTUAL_MACHINE, SUSPEND) => Some(bare(set, number, Action::Suspend, bytes)),
        (VIRTUAL_MACHINE, RESUME) => Some(bare(set, number, Action::Resume, bytes)),
        (VIRTUAL_MACHINE, HOLD_EVENTS) => Some(bare(set, number, Action::HoldEvents, bytes)),
        (VIRTUAL_MACHINE, RELEASE_EVENTS) => {
            Some(bare(set, number, Action::ReleaseEvents, bytes))
        }
        (VIRTUAL_MACHINE, ID_SIZES) => Some(bare(set, number, Action::IdSizes, bytes)),
        (VIRTUAL_MACHINE, DISPOSE) => Some(bare(set, number, Action::Dispose, bytes)),
        (EVENT_REQUEST, CLEAR_ALL_BREAKPOINTS) => {
            Some(bare(set, number, Action::ClearBreakpoints, bytes))
        }
        _ => None,
    }
}

/// The object id that the data are, and nothing else.
fn object(alloc: Global, sizes: &IdSizes, bytes: &[u8]) -> Option<ObjectId>
    ensures { found_thread result ≡ object_alone sizes.now.object bytes.now }
{
    match ObjectId::take(alloc, bytes, sizes) {
        Ok((id, used)) if used == bytes.len() => Some(id),
        Ok(_) | Err(_) => None,
    }
}

/// What a command of ThreadReference comes to that carries a thread alone.
fn read_of_thread(alloc: Global, number: u8, sizes: &IdSizes, bytes: &[u8]) -> Option<ParsedCommand>
    ensures value { MatchOption result (is_short 11 number ≡ false) (λ asked.
        (is_short 11 number ≡ true)
        × (asked_meaning asked ≡ asks (command_read sizes.now 11 number bytes.now))) }
    ensures short { IfSome result (λ asked. is_short_asked (asked_meaning asked) ≡ true) }
{
    let thread = object(alloc, sizes, bytes);
    match (number, thread) {
        (SUSPEND_THREAD, Some(thread)) => Some(ParsedCommand::Carries(Action::SuspendThread(
            thread,
        ))),
        (RESUME_THREAD, Some(thread)) => Some(ParsedCommand::Carries(Action::ResumeThread(thread))),
        (THREAD_STATUS, Some(thread)) => Some(ParsedCommand::Carries(Action::ThreadStatus(thread))),
        (SUSPEND_COUNT, Some(thread)) => Some(ParsedCommand::Carries(Action::SuspendCount(thread))),
        (SUSPEND_THREAD | RESUME_THREAD | THREAD_STATUS | SUSPEND_COUNT, None) => {
            Some(ParsedCommand::Refuses(ErrorCode::ILLEGAL_ARGUMENT))
        }
        _ => None,
    }
}

/// The kind and the id that the data of an EventRequest.Clear are.
fn take_clear(alloc: Global, sizes: &IdSizes, bytes: &[u8]) -> Result<(u8, i32), DataFault>
    ensures { asks (command_read sizes.now 15 2 bytes.now) ≡ clear_asks result }
{
    let (kind, rest) = u8::take_front(alloc, bytes, bytes.len(), sizes)?;
    let (id, rest) = i32::take_front(alloc, rest, bytes.len(), sizes)?;
    if !rest.is_empty() {
        return Err(DataFault::Extra(bytes.len() - rest.len()));
    }
    Ok((kind, id))
}

/// What an EventRequest.Clear comes to.
fn read_clear(alloc: Global, sizes: &IdSizes, bytes: &[u8]) -> ParsedCommand
    ensures short { is_short_asked (asked_meaning result) ≡ true }
    ensures value { asked_meaning result ≡ asks (command_read sizes.now 15 2 bytes.now) }
{
    match take_clear(alloc, sizes, bytes) {
        Ok((kind, id)) => ParsedCommand::Carries(Action::ClearRequest { kind, id }),
        Err(_) => ParsedCommand::Refuses(ErrorCode::ILLEGAL_ARGUMENT),
    }
}

/// What a command comes to that is read without memory; None where it is none of those.
fn read_short(
    alloc: Global,
    set: u8,
    number: u8,
    sizes: &IdSizes,
    bytes: &[u8],
) -> Option<ParsedCommand>
    ensures value { MatchOption result (is_short set number ≡ false) (λ asked.
        (is_short set number ≡ true)
        × (asked_meaning asked ≡ asks (command_read sizes.now set number bytes.now))) }
    ensures short { IfSome result (λ asked. is_short_asked (asked_meaning asked) ≡ true) }
{
    match (set, number) {
        (THREAD_REFERENCE, _) => read_of_thread(alloc, number, sizes, bytes),
        (EVENT_REQUEST, CLEAR_REQUEST) => Some(read_clear(alloc, sizes, bytes)),
        _ => read_bare(set, number, bytes),
    }
}

/// What a command comes to whose data do not read for this fault.
///
/// # Errors
/// `NoMemory` where that is the fault.
fn refused(fault: DataFault) -> Result<ParsedCommand, NoMemory>
    ensures memory { IfErr result (λ _. fault ≡ WantOfMemory) }
    ensures value { (set number : ℕ) (found : Result (List DatumMeaning) DataFault)
        → Fails fault found → IfOk result (λ asked. asked_meaning asked
        ≡ asks (content_read set number found)) }
{
    match fault {
        DataFault::NoMemory => Err(NoMemory),
        DataFault::Short(_)
        | DataFault::Extra(_)
        | DataFault::BadTag
        | DataFault::NegativeCount
        | DataFault::NotUtf8
        | DataFault::BadSize
        | DataFault::IdTooWide => Ok(ParsedCommand::Refuses(ErrorCode::ILLEGAL_ARGUMENT)),
    }
}

/// The layout of a command's data, where they are read in the profile.
pub(crate) fn request_of(profile: Profile, set: u8, number: u8) -> Option<Layout>
    ensures { found_layout result ≡ answered_request profile set number }
{
    let row = layout_of(set, number)?;
    let layouts = row.layouts?;
    if (row.starred || set == EVENT) && !profile.adds(set, number) {
        return None;
    }
    Some(layouts.request)
}

/// What a command comes to whose data are not read in the profile: a raw one that is answered is a question with no data, or an invocation
/// with its bytes, and another is refused.
///
/// # Errors
/// `NoMemory` where an allocation was refused, and only for an invocation.
fn unread(
    alloc: Global,
    profile: Profile,
    set: u8,
    number: u8,
    bytes: &[u8],
) -> Result<ParsedCommand, NoMemory>
    ensures value { (w : Widths) → answered_request profile set number ≡ None
        → IfOk result (λ asked. asked_meaning asked
        ≡ asks (read_as profile w set number bytes.now)) }
    ensures reads { (w : Widths) → answered_request profile set number ≡ None
        → IfErr result (λ _. ReadsData (read_as profile w set number bytes.now)) }
{
    if !profile.adds_raw(set, number) {
        return Ok(ParsedCommand::Refuses(ErrorCode::NOT_IMPLEMENTED));
    }
    let items = kept_bytes(alloc, request_layout(set, number).is_some(), bytes)?;
    Ok(ParsedCommand::Carries(Action::Ask(Query {
        set,
        number,
        content: Data::new(items),
    })))
}

/// These bytes as data that are not read, where they are kept; else no data.
///
/// # Errors
/// `NoMemory` where an allocation was refused, and only where they are kept.
fn kept_bytes(alloc: Global, are_kept: bool, bytes: &[u8]) -> Result<Vec<Datum>, NoMemory>
    ensures value { IfOk result (λ items. meanings items.items
        ≡ if are_kept then Raw bytes.now ∷ [] else []) }
    ensures memory { IfErr result (λ _. are_kept ≡ true) }
{
    if !are_kept {
        return Ok(Vec::new(alloc));
    }
    let kept = Vec::from_slice(alloc, bytes)?;
    Ok(vec![in alloc; Datum::Raw(kept)]?)
}

/// What a command of this set and number comes to in the profile that has these bytes as its data.
///
/// A command that is not answered in the profile is refused with `NOT_IMPLEMENTED`, and its data are not read; one whose data do not read, or
/// leave bytes over, with `ILLEGAL_ARGUMENT`. The data of a raw one that is answered are not read
/// here. These take no memory: VirtualMachine's Suspend, Resume, HoldEvents, ReleaseEvents,
/// IDSizes and Dispose; ThreadReference's Suspend, Resume, Status and SuspendCount; EventRequest's Clear and ClearAllBreakpoints. What
/// these ask for is carried out without memory, too.
///
/// # Errors
/// `NoMemory` where an allocation was refused, and only where the command is none of these, its data read, and there are any: one that
/// is refused takes no memory.
pub fn read_command(
    alloc: Global,
    profile: Profile,
    set: u8,
    number: u8,
    sizes: &IdSizes,
    bytes: &[u8],
) -> Result<ParsedCommand, NoMemory>
    ensures value { IfOk result (λ asked. asked_meaning asked
        ≡ asks (read_as profile sizes.now set number bytes.now)) }
    ensures short { IfOk result (λ asked. is_short set number ≡ true
        → is_short_asked (asked_meaning asked) ≡ true) }
    ensures memory { IfErr result (λ _. is_short set number ≡ false) }
    ensures reads { IfErr result (λ _.
        ReadsData (read_as profile sizes.now set number bytes.now)) }
{
    if let Some(asked) = read_short(alloc, set, number, sizes, bytes) {
        return Ok(asked);
    }
    let Some(layout) = request_of(profile, set, number) else {
        return unread(alloc, profile, set, number, bytes);
    };
    match read(alloc, &layout, sizes, bytes) {
        Ok(items) => {
            let action = Action::of_command(alloc, set, number, Data::new(items))?;
            Ok(ParsedCommand::Carries(action))
        }
        Err(fault) => refused(fault),
    }
}
