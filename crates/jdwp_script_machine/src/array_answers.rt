//! What is answered of arrays (JDWP specification, "ArrayReference").
ghost use Rattle.std.specs.Prelude.{◌≡◌, map, false, IfOk, IfErr, IsTrue};
ghost use Rattle.jdwp_wire.specs.ErrorCodes.{INVALID_ARRAY};
ghost use Rattle.jdwp_layout.specs.Meanings.{meanings};
ghost use Rattle.jdwp_script.specs.Meanings.{elements_part, object_part, script_part};
ghost use Rattle.jdwp_machine.specs.Laws.{takes_memory};
ghost use Rattle.jdwp_script_machine.specs.StateMeanings.{state_now};
ghost use Rattle.jdwp_script_machine.specs.Requests.{found_or, of_object, part_of};
ghost use Rattle.jdwp_script_machine.specs.ObjectAnswers.{element, length_answer, array_length_answer, region_answer, elements_asked, elements_answer, array_answer};

use crate::asked::object_asked;
use crate::replies::{of_datum, of_scalar};
use crate::requests::{part_of, range_of};
use crate::sites::tagged;
use crate::state::MachineState;
use jdwp_layout::numbers::{ARRAY_LENGTH, GET_ELEMENTS};
use jdwp_layout::{Answer, Datum, Scalar};
use jdwp_script::{Elements, Literal, Object, Script};
use jdwp_value::{ArrayRegion, ObjectId, Tag, Value};
use jdwp_wire::{ErrorCode, NoMemory};
use std::alloc::Global;

/// What is answered of an array to the command of this number: its length, or some of its elements.
///
/// # Errors
/// `NoMemory` where an allocation was refused, an array has 2^31 elements or more, or its tag is that of no value: no
/// script that was read has such arrays.
pub(crate) fn array_answer(
    alloc: Global,
    state: &MachineState,
    number: u8,
    content: &[Datum],
) -> Result<Answer, NoMemory>
    ensures value { IfOk result (λ a. a ≡ array_answer (state_now state.now) number
        (meanings content.now)) }
    // A refusal takes no memory.
    ensures memory { IfErr result (λ _.
        IsTrue (takes_memory (array_answer (state_now state.now) number (meanings content.now)))) }
{
    match number {
        ARRAY_LENGTH => array_length(alloc, state, content),
        GET_ELEMENTS => array_values(alloc, state, content),
        _ => Ok(Answer::Error(ErrorCode::NOT_IMPLEMENTED)),
    }
}

/// The length of an array.
fn array_length(alloc: Global, state: &MachineState, content: &[Datum]) -> Result<Answer, NoMemory>
    ensures value { IfOk result (λ a. a ≡ of_object (state_now state.now) array_length_answer
        (meanings content.now)) }
    // A refusal takes no memory.
    ensures memory { IfErr result (λ _.
        IsTrue (takes_memory (of_object (state_now state.now) array_length_answer
        (meanings content.now)))) }
{
    match object_asked(state, content) {
        Ok((object, [])) => length_of(alloc, object),
        Ok(_) => Ok(Answer::Error(ErrorCode::ILLEGAL_ARGUMENT)),
        Err(error) => Ok(Answer::Error(error)),
    }
}

/// The length of this object, where it is an array.
fn length_of(alloc: Global, object: &Object) -> Result<Answer, NoMemory>
    ensures value { IfOk result (λ a. a ≡ found_or INVALID_ARRAY length_answer
        (object_part object.now).array) }
    // A refusal takes no memory.
    ensures memory { IfErr result (λ _. IsTrue (takes_memory (found_or INVALID_ARRAY length_answer
        (object_part object.now).array))) }
{
    match &object.array {
        Some(elements) => count_of(alloc, elements),
        None => Ok(Answer::Error(ErrorCode::INVALID_ARRAY)),
    }
}

/// How many the elements are.
fn count_of(alloc: Global, elements: &Elements) -> Result<Answer, NoMemory>
    ensures value { IfOk result (λ a. a ≡ length_answer (elements_part elements.now)) }
    // A refusal takes no memory.
    ensures memory { IfErr result (λ _.
        IsTrue (takes_memory (length_answer (elements_part elements.now)))) }
{
    match i32::try_from(elements.bits.len()) {
        Ok(count) => of_scalar(alloc, Scalar::Int(count)),
        Err(_) => Err(NoMemory),
    }
}

/// Some elements of an array.
fn array_values(alloc: Global, state: &MachineState, content: &[Datum]) -> Result<Answer, NoMemory>
    ensures value { IfOk result (λ a. a ≡ of_object (state_now state.now) (elements_answer
        (state_now state.now).script) (meanings content.now)) }
    // A refusal takes no memory.
    ensures memory { IfErr result (λ _.
        IsTrue (takes_memory (of_object (state_now state.now) (elements_answer
        (state_now state.now).script) (meanings content.now)))) }
{
    match object_asked(state, content) {
        Ok((object, rest)) => values_of(alloc, &state.script, object, rest),
        Err(error) => Ok(Answer::Error(error)),
    }
}

/// Some elements of this object, where it is an array.
fn values_of(
    alloc: Global,
    script: &Script,
    object: &Object,
    rest: &[Datum],
) -> Result<Answer, NoMemory>
    ensures value { IfOk result (λ a. a ≡ elements_answer (script_part script.now)
        (object_part object.now) (meanings rest.now)) }
    // A refusal takes no memory.
    ensures memory { IfErr result (λ _.
        IsTrue (takes_memory (elements_answer (script_part script.now) (object_part object.now)
        (meanings rest.now)))) }
{
    match &object.array {
        Some(elements) => some_of(alloc, script, elements, rest),
        None => Ok(Answer::Error(ErrorCode::INVALID_ARRAY)),
    }
}

/// Those of these elements that are asked for by a place and a count.
#[tactic(auto, using(crate::specs::PartLaws::range_is))]
fn some_of(
    alloc: Global,
    script: &Script,
    elements: &Elements,
    rest: &[Datum],
) -> Result<Answer, NoMemory>
    ensures value { IfOk result (λ a. a ≡ elements_asked (script_part script.now)
        (meanings rest.now) (elements_part elements.now)) }
    // A refusal takes no memory.
    ensures memory { IfErr result (λ _.
        IsTrue (takes_memory (elements_asked (script_part script.now) (meanings rest.now)
        (elements_part elements.now)))) }
{
    match range_of(rest) {
        Some((from, count)) => part_told(alloc, script, elements.tag, &elements.bits, from, count),
        None => Ok(Answer::Error(ErrorCode::ILLEGAL_ARGUMENT)),
    }
}

/// So many elements of this tag from a place on; a count of -1 doesn't mean the rest.
#[tactic(auto, using(crate::specs::PartLaws::plain_part_is))]
fn part_told(
    alloc: Global,
    script: &Script,
    tag: Tag,
    bits: &[u64],
    from: i32,
    count: i32,
) -> Result<Answer, NoMemory>
    ensures value { IfOk result (λ a. a ≡ part_of false (region_answer (script_part script.now) tag)
        bits.now from count) }
    // A refusal takes no memory.
    ensures memory { IfErr result (λ _.
        IsTrue (takes_memory (part_of false (region_answer (script_part script.now) tag) bits.now
        from count))) }
{
    match part_of(false, bits, from, count) {
        Ok(part) => region(alloc, script, tag, part),
        Err(error) => Ok(Answer::Error(error)),
    }
}

/// The elements of this tag and these bits.
fn region(alloc: Global, script: &Script, tag: Tag, bits: &[u64]) -> Result<Answer, NoMemory>
    ensures value { IfOk result (λ a. a ≡ region_answer (script_part script.now) tag bits.now) }
    // A refusal takes no memory.
    ensures memory { IfErr result (λ _.
        IsTrue (takes_memory (region_answer (script_part script.now) tag bits.now))) }
{
    let values = elements_of(alloc, script, tag, bits)?;
    match ArrayRegion::new(tag, values) {
        Some(region) => of_datum(alloc, Datum::Region(region)),
        None => Err(NoMemory),
    }
}

/// The values of the elements.
fn elements_of(
    alloc: Global,
    script: &Script,
    tag: Tag,
    bits: &[u64],
) -> Result<Vec<Value>, NoMemory>
    ensures { IfOk result (λ values. values.items
        ≡ map (element (script_part script.now) tag) bits.now) }
{
    let mut values = Vec::with_capacity(alloc, bits.len())?;
    for each in bits {
        values.push_reserved(element(script, tag, *each));
    }
    Ok(values)
}

/// The element of these bits: an object has the tag of what it has.
fn element(script: &Script, tag: Tag, bits: u64) -> Value
    ensures { result ≡ element (script_part script.now) tag bits }
{
    if tag.is_object() {
        Value::Object(tagged(script, ObjectId(bits)))
    } else {
        Literal { tag, bits }.value()
    }
}
