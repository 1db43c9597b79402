//! Where a thread is, as the machine answers it: from there the steps of a new request are measured
//! (JDWP specification, "Protocol Details": ThreadReference.Frames, Method.LineTable, and the modifier Step).
ghost use Rattle.std.specs.Prelude.{◌≡◌, ◌<◌, ◌^◌, ◌∷◌, List, None, IfOk, length};
ghost use Rattle.jdwp_layout.specs.Meanings.{ScalarMeaning, scalar_meanings, entry_meanings, meanings};
ghost use Rattle.jdwp_layout.specs.declared.answer.Answer.TheVariants.{Data};
ghost use Rattle.jdwp_event.specs.RequestParts.{origin_meaning};
ghost use Rattle.jdwp_debuggee.specs.Origins.{line_at, line_by, newest_line, origin_by, origin_of};
ghost use Rattle.jdwp_debuggee.specs.OriginParts.{HasFewFrames, newest_place};

use crate::questions::ask;
use jdwp_event::StepOrigin;
use jdwp_layout::numbers::{FRAMES, LINE_TABLE, METHOD, THREAD_REFERENCE};
use jdwp_layout::{Answer, Datum, Scalar};
use jdwp_machine::Machine;
use jdwp_value::{Location, ObjectId};
use jdwp_wire::NoMemory;
use std::alloc::Global;

/// The line after one more entry of a line table.
fn line_after(index: u64, entry: &[Scalar], line: Option<u32>) -> Option<u32>
    ensures { (entries : List (List ScalarMeaning))
        → line_at index (scalar_meanings entry.now ∷ entries) line ≡ line_at index entries result }
{
    match entry {
        [Scalar::Long(start), Scalar::Int(number)] if start.cast_unsigned() <= index => {
            Some(number.cast_unsigned())
        }
        _ => line,
    }
}

/// The line of the last entry at or before an index.
fn find_line(index: u64, entries: &[Vec<Scalar>]) -> Option<u32>
    ensures { result ≡ line_at index (entry_meanings entries.now) None }
{
    let mut line = None;
    for entry in entries {
        line = line_after(index, entry, line);
    }
    line
}

/// The line of an index, by the data of Method.LineTable.
fn line_in_items(index: u64, items: &[Datum]) -> Option<u32>
    ensures { result ≡ line_by index (Data (meanings items.now)) }
{
    match items {
        [
            Datum::One(Scalar::Long(_)),
            Datum::One(Scalar::Long(_)),
            Datum::Many(entries),
        ] => find_line(index, entries),
        _ => None,
    }
}

/// The line of an index, by the answer of Method.LineTable.
fn line_in_answer(index: u64, answer: &Answer) -> Option<u32>
    ensures { result ≡ line_by index answer.now }
{
    match answer {
        Answer::Data(content) => line_in_items(index, content.items()),
        Answer::Error(_) => None,
    }
}

/// Where the newest frame is.
fn newest_place(frames: &[Vec<Scalar>]) -> Option<Location>
    ensures { result ≡ newest_place (entry_meanings frames.now) }
{
    let [newest, ..] = frames else {
        return None;
    };
    match newest.as_slice() {
        [Scalar::FrameId(_), Scalar::Location(place)] => Some(*place),
        _ => None,
    }
}

/// The line of the newest frame, where one is known.
fn line_of_newest<M: Machine>(
    alloc: Global,
    machine: &M,
    frames: &[Vec<Scalar>],
) -> Result<Option<u32>, NoMemory>
    ensures { IfOk result (λ line. line ≡ newest_line M.meaning machine.now
        (entry_meanings frames.now)) }
{
    let Some(
        Location::At {
            class,
            method,
            index,
            ..
        },
    ) = newest_place(frames)
    else {
        return Ok(None);
    };
    let items = vec![in alloc;
        Datum::One(Scalar::ReferenceTypeId(class)),
        Datum::One(Scalar::MethodId(method)),
    ]?;
    let answer = ask(machine, METHOD, LINE_TABLE, items)?;
    Ok(line_in_answer(index, &answer))
}

/// Where a thread is, by the answer of ThreadReference.Frames.
fn origin_in_answer<M: Machine>(
    alloc: Global,
    machine: &M,
    answer: &Answer,
) -> Result<StepOrigin, NoMemory>
    requires { HasFewFrames answer.now }
    ensures { IfOk result (λ origin. origin_meaning origin
        ≡ origin_by M.meaning machine.now answer.now) }
{
    let nowhere = StepOrigin {
        frames: 0,
        line: None,
    };
    let Answer::Data(content) = answer else {
        return Ok(nowhere);
    };
    let [Datum::Many(frames)] = content.items() else {
        return Ok(nowhere);
    };
    let line = line_of_newest(alloc, machine, frames)?;
    Ok(StepOrigin {
        frames: frames.len() as u32,
        line,
    })
}

/// Where a thread is: how many frames it has, and the line of its newest frame, where one is known. No frames where the machine
/// answers an error.
///
/// # Errors
/// `NoMemory` where an allocation was refused.
pub(crate) fn origin_of<M: Machine>(
    alloc: Global,
    machine: &M,
    thread: ObjectId,
) -> Result<StepOrigin, NoMemory>
    ensures { IfOk result (λ origin. origin_meaning origin
        ≡ origin_of M.meaning machine.now thread.0) }
{
    // All of its frames: from 0, and -1 means the rest.
    let items = vec![in alloc;
        Datum::One(Scalar::ObjectId(thread)),
        Datum::One(Scalar::Int(0)),
        Datum::One(Scalar::Int(-1)),
    ]?;
    let _live = machine.live();
    let answer = ask(machine, THREAD_REFERENCE, FRAMES, items)?;
    origin_in_answer(alloc, machine, &answer)
}
