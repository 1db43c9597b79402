//! What is told of answers, events and what the debugger knows.
ghost use Rattle.std.specs.Prelude.{◌≡◌, drop, string_bytes, IfErr, IfOk, OnOk};
ghost use Rattle.jdwp_layout.specs.Meanings.{raw_bytes};
ghost use Rattle.jdwp_show.specs.MessageLines.{name_text};
ghost use Rattle.jdwp_plan_run.specs.RunsKept.{telling};
ghost use Rattle.jdwp_plan_run.specs.Tellings.{PrintStops, event_line, printed, reply_line, text_by, told_of_answer, told_of_event};

use crate::stop::Stop;
use jdwp_end::{Pipe, flush_all, write_all};
use jdwp_event::Composite;
use jdwp_layout::{Answer, Data, layout_of};
use jdwp_plan::items_text;
use jdwp_wire::NoMemory;
use std::alloc::Global;

/// What was told: its text, and the data that it tells, where it tells some.
#[derive(Debug, Drop)]
pub(crate) struct Told {
    pub text: Vec<u8>,
    pub items: Option<Data>,
}

/// What is told of an answer: its error code, and behind it its data.
pub(crate) fn told_answer(alloc: Global, answer: Answer) -> Result<Told, NoMemory>
    ensures { IfOk result (λ told. telling told ≡ told_of_answer answer) }
{
    match answer {
        Answer::Error(error) => {
            let code = error.0;
            let text = format!(in alloc; "{code}")?.into_bytes();
            Ok(Told { text, items: None })
        }
        Answer::Data(data) => {
            let mut text = format!(in alloc; "0")?.into_bytes();
            text.extend_from_slice(&data_text(alloc, &data)?)?;
            Ok(Told {
                text,
                items: Some(data),
            })
        }
    }
}

/// What is told of the data of an answer: each item behind a space, and nothing where no bytes came.
fn data_text(alloc: Global, data: &Data) -> Result<Vec<u8>, NoMemory>
    ensures { IfOk result (λ text. text.items ≡ text_by (raw_bytes «data».now) «data».now) }
{
    match data.raw() {
        Some([]) => Ok(Vec::new(alloc)),
        _ => items_text(alloc, data.items()),
    }
}

/// What is told of a composite: its data, without the space before them.
pub(crate) fn told_event(alloc: Global, composite: Composite) -> Result<Told, NoMemory>
    ensures { IfOk result (λ told. telling told ≡ told_of_event composite) }
{
    let data = composite.into_data(alloc)?;
    let spaced = items_text(alloc, data.items())?;
    let text = behind_first(alloc, &spaced)?;
    Ok(Told {
        text,
        items: Some(data),
    })
}

/// A text without its first byte.
fn behind_first(alloc: Global, text: &[u8]) -> Result<Vec<u8>, NoMemory>
    ensures { IfOk result (λ rest. rest.items ≡ drop 1 text.now) }
{
    match text {
        [_, rest @ ..] => Ok(Vec::from_slice(alloc, rest)?),
        [] => Ok(Vec::new(alloc)),
    }
}

/// Prints the answer to a command of which this is told: `< reply NAME ERROR DATA`.
pub(crate) fn print_answer<W: Pipe>(
    alloc: Global,
    out: &mut W,
    set: u8,
    number: u8,
    text: &[u8],
) -> Result<(), Stop>
    ensures ok { OnOk result (W.story out.new ≡ printed (reply_line set number text.now)
        (W.story out.old)) }
    ensures err { IfErr result PrintStops }
{
    match reply_text(alloc, set, number, text) {
        Ok(line) => print(out, &line),
        Err(_) => Err(Stop::NoMemory),
    }
}

/// The line of an answer.
fn reply_text(alloc: Global, set: u8, number: u8, text: &[u8]) -> Result<Vec<u8>, NoMemory>
    ensures { IfOk result (λ line. line.items ≡ reply_line set number text.now) }
{
    let mut line = Vec::from_slice(alloc, b"< reply ")?;
    line.extend_from_slice(name_of(alloc, set, number)?.as_bytes())?;
    line.extend_from_slice(b" ")?;
    line.extend_from_slice(text)?;
    line.extend_from_slice(b"\n")?;
    Ok(line)
}

/// The name of a command, as `VirtualMachine.Version`; its numbers, where it has none.
fn name_of(alloc: Global, set: u8, number: u8) -> Result<String, NoMemory>
    ensures { IfOk result (λ name. string_bytes name ≡ name_text (record {
      set = set;
      number = number;
    })) }
{
    match layout_of(set, number) {
        Some(row) => {
            let set_name = row.set_name;
            let name = row.name;
            Ok(format!(in alloc; "{set_name}.{name}")?)
        }
        None => Ok(format!(in alloc; "{set}.{number}")?),
    }
}

/// Prints a composite of which this is told: `< Event.Composite DATA`.
pub(crate) fn print_event<W: Pipe>(alloc: Global, out: &mut W, text: &[u8]) -> Result<(), Stop>
    ensures ok { OnOk result (W.story out.new ≡ printed (event_line text.now) (W.story out.old)) }
    ensures err { IfErr result PrintStops }
{
    match event_text(alloc, text) {
        Ok(line) => print(out, &line),
        Err(_) => Err(Stop::NoMemory),
    }
}

/// The line of a composite.
fn event_text(alloc: Global, text: &[u8]) -> Result<Vec<u8>, NoMemory>
    ensures { IfOk result (λ line. line.items ≡ event_line text.now) }
{
    let mut line = Vec::from_slice(alloc, b"< Event.Composite ")?;
    line.extend_from_slice(text)?;
    line.extend_from_slice(b"\n")?;
    Ok(line)
}

/// Prints these bytes, and sees that they leave.
pub(crate) fn print<W: Pipe>(out: &mut W, bytes: &[u8]) -> Result<(), Stop>
    ensures ok { OnOk result (W.story out.new ≡ printed bytes.now (W.story out.old)) }
    ensures err { IfErr result PrintStops }
{
    if !write_all(out, bytes) {
        return Err(Stop::NotPrinted);
    }
    if !flush_all(out) {
        return Err(Stop::NotPrinted);
    }
    Ok(())
}
