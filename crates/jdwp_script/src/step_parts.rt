//! Steps as JSON values: each is a list that begins with a word.
ghost use Rattle.std.specs.Prelude.{◌≡◌};
ghost use Rattle.jdwp_script.specs.Parts.{StepPart};
ghost use Rattle.jdwp_script.specs.Meanings.{step_part};
ghost use Rattle.jdwp_script.specs.Reading.{Reader, Gives, second};
ghost use Rattle.jdwp_script.specs.Scripts as scripts;
ghost use Rattle.jdwp_script.specs.declared.step.Place.{Place};
ghost use Rattle.jdwp_script.specs.declared.step.SlotValue.{SlotValue};
ghost use Rattle.serde_json.specs.View.{view};

use crate::fault::ScriptFault;
use crate::member::Member;
use crate::reading::{Part, entries, entry, tuple};
use crate::step::{Call, Place, SlotValue, Step, Throw};
use jdwp_value::{FrameId, MethodId, ObjectId, ReferenceTypeId};
use serde_json::Value;
use std::alloc::Global;

/// A slot and a value.
impl Part for SlotValue {
    ghost Meaning = { SlotValue };

    ghost meaning = { λ held. held };

    ghost reads = { scripts.slot_value };

    fn read(alloc: Global, value: &Value, member: Member) -> Result<SlotValue, ScriptFault> {
        let list = tuple(value, 2, member)?;
        Ok(SlotValue {
            slot: entry(alloc, list, 0, member)?,
            value: entry(alloc, list, 1, member)?,
        })
    }
}

/// The ids of a class and a method, and a code index.
impl Part for Place {
    ghost Meaning = { Place };

    ghost meaning = { λ place. place };

    ghost reads = { scripts.place };

    fn read(alloc: Global, value: &Value, member: Member) -> Result<Place, ScriptFault> {
        let list = tuple(value, 3, member)?;
        Ok(Place {
            class: ReferenceTypeId(entry(alloc, list, 0, member)?),
            method: MethodId(entry(alloc, list, 1, member)?),
            index: entry(alloc, list, 2, member)?,
        })
    }
}

/// A word, and what belongs to it.
impl Part for Step {
    ghost Meaning = { StepPart };

    ghost meaning = { step_part };

    ghost reads = { scripts.step };

    fn read(alloc: Global, value: &Value, member: Member) -> Result<Step, ScriptFault> {
        let list = entries(value, member)?;
        let Some(first) = list.get(0) else {
            return Err(ScriptFault::Missing(member));
        };
        let Some(word) = first.as_str() else {
            return Err(ScriptFault::Missing(member));
        };
        named(alloc, word, value, member)
    }
}

/// The step of this word.
fn named(alloc: Global, word: &str, value: &Value, member: Member) -> Result<Step, ScriptFault>
    ensures { Gives step_part result (scripts.step_named word.now member (view value.now)) }
{
    match word {
        "call" => call(alloc, value, member),
        "go" => go(alloc, value, member),
        "return" => returned(alloc, value, member),
        "throw" => throw(alloc, value, member),
        "prepare" => prepare(alloc, value, member),
        "start" => start(alloc, value, member),
        "again" => again(alloc, value, member),
        _ => Err(ScriptFault::Missing(member)),
    }
}

/// `["call", frame, class, method, this, [[slot, value]]]`
fn call(alloc: Global, value: &Value, member: Member) -> Result<Step, ScriptFault>
    ensures { Gives step_part result (scripts.call_step member (view value.now)) }
{
    let list = tuple(value, 6, member)?;
    Ok(Step::Call(Call {
        frame: FrameId(entry(alloc, list, 1, member)?),
        class: ReferenceTypeId(entry(alloc, list, 2, member)?),
        method: MethodId(entry(alloc, list, 3, member)?),
        this: ObjectId(entry(alloc, list, 4, member)?),
        slots: entry(alloc, list, 5, member)?,
    }))
}

/// `["go", index]`
fn go(alloc: Global, value: &Value, member: Member) -> Result<Step, ScriptFault>
    ensures { Gives step_part result (scripts.go_step member (view value.now)) }
{
    Ok(Step::Go(second(alloc, value, member)?))
}

/// `["return", value]`
fn returned(alloc: Global, value: &Value, member: Member) -> Result<Step, ScriptFault>
    ensures { Gives step_part result (scripts.return_step member (view value.now)) }
{
    Ok(Step::Return(second(alloc, value, member)?))
}

/// `["throw", object, [class, method, index]]`, or with `null` in place of where it is caught
fn throw(alloc: Global, value: &Value, member: Member) -> Result<Step, ScriptFault>
    ensures { Gives step_part result (scripts.throw_step member (view value.now)) }
{
    let list = tuple(value, 3, member)?;
    Ok(Step::Throw(Throw {
        object: ObjectId(entry(alloc, list, 1, member)?),
        caught: entry(alloc, list, 2, member)?,
    }))
}

/// `["prepare", class]`
fn prepare(alloc: Global, value: &Value, member: Member) -> Result<Step, ScriptFault>
    ensures { Gives step_part result (scripts.prepare_step member (view value.now)) }
{
    Ok(Step::Prepare(second(alloc, value, member)?))
}

/// `["start", thread]`
fn start(alloc: Global, value: &Value, member: Member) -> Result<Step, ScriptFault>
    ensures { Gives step_part result (scripts.start_step member (view value.now)) }
{
    Ok(Step::Start(ObjectId(second(alloc, value, member)?)))
}

/// `["again", back]`
fn again(alloc: Global, value: &Value, member: Member) -> Result<Step, ScriptFault>
    ensures { Gives step_part result (scripts.again_step member (view value.now)) }
{
    Ok(Step::Again(second(alloc, value, member)?))
}

/// What stands behind the word, in a list of two.
fn second<T: Part>(alloc: Global, value: &Value, member: Member) -> Result<T, ScriptFault>
    ensures { Gives T.meaning result (second T.reads member (view value.now)) }
{
    let list = tuple(value, 2, member)?;
    entry(alloc, list, 1, member)
}
