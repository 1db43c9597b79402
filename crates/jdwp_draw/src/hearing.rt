//! What packets of a capture say by their bytes.
ghost use Rattle.std.specs.Prelude.{◌≡◌, ℕ, List, None, Result, IfOk, OnOk, option_map};
ghost use Rattle.std.specs.Result.{result_ok};
ghost use Rattle.jdwp_wire.specs.declared.data_fault.DataFault.{DataFault};
ghost use Rattle.jdwp_wire.specs.Reading.{Fails};
ghost use Rattle.jdwp_layout.specs.Meanings.{DatumMeaning, meanings};
ghost use Rattle.jdwp_event.specs.Composites.{CompositeMeaning};
ghost use Rattle.jdwp_show.specs.Data.{shapes_of};
ghost use Rattle.jdwp_show.specs.MessageLines.{found_shape, reply_in, request_in};
ghost use Rattle.jdwp_draw.specs.Hearing.{answer_of, command_of, composite_of, content_found, content_of, numbered, whole};

use jdwp_event::Composite;
use jdwp_layout::{Answer, Data, Datum, Layout, layout_of, read};
use jdwp_mirror::Command;
use jdwp_wire::{DataFault, ErrorCode, IdSizes, NoMemory, Wire};
use std::alloc::Global;

/// The command of this set and number with these data.
pub(crate) fn read_command(
    alloc: Global,
    sizes: &Option<IdSizes>,
    set: u8,
    number: u8,
    bytes: &[u8],
) -> Result<Command, NoMemory>
    ensures { IfOk result (λ command. command ≡ command_of sizes.now set number bytes.now) }
{
    match read_content(alloc, sizes, request_layout(set, number), bytes)? {
        Some(items) => Ok(Command::new(set, number, items)),
        None => Ok(Command::raw(set, number, Vec::from_slice(alloc, bytes)?)),
    }
}

/// The answer to the command of this set and number with this error code and these data.
pub(crate) fn read_answer(
    alloc: Global,
    sizes: &Option<IdSizes>,
    set: u8,
    number: u8,
    error: ErrorCode,
    bytes: &[u8],
) -> Result<Answer, NoMemory>
    ensures { IfOk result (λ answer. answer ≡ answer_of sizes.now set number error bytes.now) }
{
    if error != ErrorCode::NONE {
        return Ok(Answer::Error(error));
    }
    let items = read_items(alloc, sizes, reply_layout(set, number), bytes)?;
    Ok(Answer::Data(Data::new(items)))
}

/// What data say under a layout; their bytes where they are not read.
fn read_items(
    alloc: Global,
    sizes: &Option<IdSizes>,
    layout: Option<Layout>,
    bytes: &[u8],
) -> Result<Vec<Datum>, NoMemory>
    ensures { IfOk result (λ items. meanings items.items ≡ content_of
        (content_found sizes.now (found_shape layout) bytes.now) bytes.now) }
{
    match read_content(alloc, sizes, layout, bytes)? {
        Some(items) => Ok(items),
        None => raw_items(alloc, bytes),
    }
}

/// Bytes that are not read, as they are.
fn raw_items(alloc: Global, bytes: &[u8]) -> Result<Vec<Datum>, NoMemory>
    ensures { IfOk result (λ items. meanings items.items ≡ content_of None bytes.now) }
{
    let copy = Vec::from_slice(alloc, bytes)?;
    Ok(vec![in alloc; Datum::Raw(copy)]?)
}

/// The composite that all of these bytes are; None where they are none, or the widths of ids are not known.
pub(crate) fn read_composite(
    alloc: Global,
    sizes: &Option<IdSizes>,
    bytes: &[u8],
) -> Result<Option<Composite>, NoMemory>
    ensures { IfOk result (λ found. option_map (λ (c : CompositeMeaning). c) found
        ≡ composite_of sizes.now bytes.now) }
{
    let Some(sizes) = sizes else {
        return Ok(None);
    };
    match Composite::take_front(alloc, bytes, bytes.len(), sizes) {
        Ok((composite, rest)) => {
            if !rest.is_empty() {
                return Ok(None);
            }
            Ok(Some(composite))
        }
        Err(fault) => no_composite(fault),
    }
}

/// What is read where this is the matter with the data of a composite.
///
/// # Errors
/// `NoMemory` where it is want of memory.
fn no_composite(fault: DataFault) -> Result<Option<Composite>, NoMemory>
    ensures { (found : Result (CompositeMeaning × List ℕ) DataFault) → Fails fault found
        → IfOk result (λ read. option_map (λ (c : CompositeMeaning). c) read ≡ whole found) }
{
    match fault {
        DataFault::NoMemory => Err(NoMemory),
        DataFault::Short(_)
        | DataFault::Extra(_)
        | DataFault::BadTag
        | DataFault::NegativeCount
        | DataFault::NotUtf8
        | DataFault::BadSize
        | DataFault::IdTooWide => Ok(None),
    }
}

/// What data say under a layout; None where they are not read, or the widths of ids are not known.
fn read_content(
    alloc: Global,
    sizes: &Option<IdSizes>,
    layout: Option<Layout>,
    bytes: &[u8],
) -> Result<Option<Vec<Datum>>, NoMemory>
    ensures { IfOk result (λ found. option_map (λ items. meanings items.items) found
        ≡ content_found sizes.now (found_shape layout) bytes.now) }
{
    let Some(sizes) = sizes else {
        return Ok(None);
    };
    let Some(layout) = layout else {
        return Ok(None);
    };
    match read(alloc, &layout, sizes, bytes) {
        Ok(items) => Ok(Some(items)),
        Err(fault) => no_content(fault),
    }
}

/// What is read where this is the matter with data.
///
/// # Errors
/// `NoMemory` where it is want of memory.
fn no_content(fault: DataFault) -> Result<Option<Vec<Datum>>, NoMemory>
    ensures { (found : Result (List DatumMeaning) DataFault) → Fails fault found → IfOk result
        (λ read. option_map (λ items. meanings items.items) read ≡ result_ok found) }
{
    match fault {
        DataFault::NoMemory => Err(NoMemory),
        DataFault::Short(_)
        | DataFault::Extra(_)
        | DataFault::BadTag
        | DataFault::NegativeCount
        | DataFault::NotUtf8
        | DataFault::BadSize
        | DataFault::IdTooWide => Ok(None),
    }
}

/// The layout of the data of a command, where they are read.
fn request_layout(set: u8, number: u8) -> Option<Layout>
    ensures { found_shape result ≡ request_in (shapes_of (numbered set number)) }
{
    let row = layout_of(set, number)?;
    match row.layouts {
        None => None,
        Some(layouts) => Some(layouts.request),
    }
}

/// The layout of the data of a reply, where they are read.
fn reply_layout(set: u8, number: u8) -> Option<Layout>
    ensures { found_shape result ≡ reply_in (shapes_of (numbered set number)) }
{
    let row = layout_of(set, number)?;
    match row.layouts {
        None => None,
        Some(layouts) => Some(layouts.reply),
    }
}
