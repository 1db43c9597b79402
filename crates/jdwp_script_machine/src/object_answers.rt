//! What is answered of objects and strings (JDWP specification, "ObjectReference" and "StringReference").
ghost use Rattle.std.specs.Prelude.{◌≡◌, IfOk, IfErr, IsTrue};
ghost use Rattle.jdwp_layout.specs.Meanings.{meanings};
ghost use Rattle.jdwp_script.specs.Meanings.{class_part, object_part, script_part};
ghost use Rattle.jdwp_machine.specs.Laws.{takes_memory};
ghost use Rattle.jdwp_script_machine.specs.StateMeanings.{state_now};
ghost use Rattle.jdwp_wire.specs.ErrorCodes.{INVALID_CLASS, INVALID_STRING};
ghost use Rattle.jdwp_script_machine.specs.Sites.{class_in};
ghost use Rattle.jdwp_script_machine.specs.Requests.{found_or, of_object};
ghost use Rattle.jdwp_script_machine.specs.ObjectAnswers.{held_value, type_answer, object_type_answer, held_answer, collection_answer, collected_answer, object_answer, text_answer, string_value_answer, string_answer};

use crate::asked::object_asked;
use crate::field_values::{Fielded, values_asked};
use crate::places::class_of;
use crate::replies::{done, of_pair, of_scalar, of_text};
use crate::requests::entries_of;
use crate::state::MachineState;
use jdwp_layout::numbers::{
    DISABLE_COLLECTION, ENABLE_COLLECTION, GET_FIELDS, IS_COLLECTED, OBJECT_TYPE, STRING_VALUE,
};
use jdwp_layout::{Answer, Datum, Scalar};
use jdwp_script::{Class, Literal, Object, Script};
use jdwp_value::FieldId;
use jdwp_wire::{ErrorCode, NoMemory};
use std::alloc::Global;

/// What is answered of an object to the command of this number: its type, values of its fields, or whether it was
/// collected, which it never is; disabling and enabling collection does nothing.
///
/// # Errors
/// `NoMemory` where an allocation was refused; a refusal takes no memory.
pub(crate) fn object_answer(
    alloc: Global,
    state: &MachineState,
    number: u8,
    content: &[Datum],
) -> Result<Answer, NoMemory>
    ensures value { IfOk result (λ a. a ≡ object_answer (state_now state.now) number
        (meanings content.now)) }
    // A refusal takes no memory.
    ensures memory { IfErr result (λ _.
        IsTrue (takes_memory (object_answer (state_now state.now) number (meanings content.now)))) }
{
    match number {
        OBJECT_TYPE => object_type(alloc, state, content),
        GET_FIELDS => held_values(alloc, state, content),
        DISABLE_COLLECTION | ENABLE_COLLECTION => Ok(collection(alloc, state, content)),
        IS_COLLECTED => collected(alloc, state, content),
        _ => Ok(Answer::Error(ErrorCode::NOT_IMPLEMENTED)),
    }
}

/// The type of an object.
pub(crate) fn object_type(
    alloc: Global,
    state: &MachineState,
    content: &[Datum],
) -> Result<Answer, NoMemory>
    ensures value { IfOk result (λ a. a ≡ of_object (state_now state.now) (object_type_answer
        (state_now state.now).script) (meanings content.now)) }
    // A refusal takes no memory.
    ensures memory { IfErr result (λ _.
        IsTrue (takes_memory (of_object (state_now state.now) (object_type_answer
        (state_now state.now).script) (meanings content.now)))) }
{
    match object_asked(state, content) {
        Ok((object, [])) => type_of(alloc, &state.script, object),
        Ok(_) => Ok(Answer::Error(ErrorCode::ILLEGAL_ARGUMENT)),
        Err(error) => Ok(Answer::Error(error)),
    }
}

/// The type of this object.
fn type_of(alloc: Global, script: &Script, object: &Object) -> Result<Answer, NoMemory>
    ensures value { IfOk result (λ a. a ≡ found_or INVALID_CLASS type_answer
        (class_in (script_part script.now) (object_part object.now).class)) }
    // A refusal takes no memory.
    ensures memory { IfErr result (λ _.
        IsTrue (takes_memory (found_or INVALID_CLASS type_answer (class_in (script_part script.now)
        (object_part object.now).class)))) }
{
    match class_of(script, object.class) {
        Some(class) => class_told(alloc, class),
        None => Ok(Answer::Error(ErrorCode::INVALID_CLASS)),
    }
}

/// The tag and the id of a class.
pub(crate) fn class_told(alloc: Global, class: &Class) -> Result<Answer, NoMemory>
    ensures value { IfOk result (λ a. a ≡ type_answer (class_part class.now)) }
    // A refusal takes no memory.
    ensures memory { IfErr result (λ _.
        IsTrue (takes_memory (type_answer (class_part class.now)))) }
{
    let tag = Scalar::Byte(class.tag.byte());
    let id = Scalar::ReferenceTypeId(class.id);
    of_pair(alloc, Datum::One(tag), Datum::One(id))
}

/// The values of fields of an object.
fn held_values(alloc: Global, state: &MachineState, content: &[Datum]) -> Result<Answer, NoMemory>
    ensures value { IfOk result (λ a. a ≡ of_object (state_now state.now) held_answer
        (meanings content.now)) }
    // A refusal takes no memory.
    ensures memory { IfErr result (λ _.
        IsTrue (takes_memory (of_object (state_now state.now) held_answer
        (meanings content.now)))) }
{
    match object_asked(state, content) {
        Ok((object, rest)) => held_by(alloc, object, rest),
        Err(error) => Ok(Answer::Error(error)),
    }
}

/// The values of fields of this object.
fn held_by(alloc: Global, object: &Object, content: &[Datum]) -> Result<Answer, NoMemory>
    ensures value { IfOk result (λ a. a ≡ held_answer (object_part object.now)
        (meanings content.now)) }
    // A refusal takes no memory.
    ensures memory { IfErr result (λ _. IsTrue (takes_memory (held_answer (object_part object.now)
        (meanings content.now)))) }
{
    match entries_of(content) {
        Some(entries) => values_asked(alloc, object, entries),
        None => Ok(Answer::Error(ErrorCode::ILLEGAL_ARGUMENT)),
    }
}

impl Fielded for Object {
    ghost held = { λ o. held_value (object_part o) };

    fn value(&self, id: FieldId) -> Option<Literal> {
        for held in &self.fields {
            if held.field.0 == id.0 {
                return Some(held.value);
            }
        }
        None
    }
}

/// Success where the object is there, and nothing more is asked.
fn collection(alloc: Global, state: &MachineState, content: &[Datum]) -> Answer
    ensures { result ≡ of_object (state_now state.now) collection_answer (meanings content.now) }
{
    match object_asked(state, content) {
        Ok((_, [])) => done(alloc),
        Ok(_) => Answer::Error(ErrorCode::ILLEGAL_ARGUMENT),
        Err(error) => Answer::Error(error),
    }
}

/// Whether an object was collected: no object ever is.
fn collected(alloc: Global, state: &MachineState, content: &[Datum]) -> Result<Answer, NoMemory>
    ensures value { IfOk result (λ a. a ≡ of_object (state_now state.now) collected_answer
        (meanings content.now)) }
    // A refusal takes no memory.
    ensures memory { IfErr result (λ _.
        IsTrue (takes_memory (of_object (state_now state.now) collected_answer
        (meanings content.now)))) }
{
    match object_asked(state, content) {
        Ok((_, [])) => of_scalar(alloc, Scalar::Boolean(false)),
        Ok(_) => Ok(Answer::Error(ErrorCode::ILLEGAL_ARGUMENT)),
        Err(error) => Ok(Answer::Error(error)),
    }
}

/// What is answered of a string to the command of this number: its text.
///
/// # Errors
/// `NoMemory` where an allocation was refused; a refusal takes no memory.
pub(crate) fn string_answer(
    alloc: Global,
    state: &MachineState,
    number: u8,
    content: &[Datum],
) -> Result<Answer, NoMemory>
    ensures value { IfOk result (λ a. a ≡ string_answer (state_now state.now) number
        (meanings content.now)) }
    // A refusal takes no memory.
    ensures memory { IfErr result (λ _.
        IsTrue (takes_memory (string_answer (state_now state.now) number (meanings content.now)))) }
{
    match number {
        STRING_VALUE => string_value(alloc, state, content),
        _ => Ok(Answer::Error(ErrorCode::NOT_IMPLEMENTED)),
    }
}

/// The text of a string.
fn string_value(alloc: Global, state: &MachineState, content: &[Datum]) -> Result<Answer, NoMemory>
    ensures value { IfOk result (λ a. a ≡ of_object (state_now state.now) string_value_answer
        (meanings content.now)) }
    // A refusal takes no memory.
    ensures memory { IfErr result (λ _.
        IsTrue (takes_memory (of_object (state_now state.now) string_value_answer
        (meanings content.now)))) }
{
    match object_asked(state, content) {
        Ok((object, [])) => text_of(alloc, object),
        Ok(_) => Ok(Answer::Error(ErrorCode::ILLEGAL_ARGUMENT)),
        Err(error) => Ok(Answer::Error(error)),
    }
}

/// The text of this object, where it is a string.
fn text_of(alloc: Global, object: &Object) -> Result<Answer, NoMemory>
    ensures value { IfOk result (λ a. a ≡ found_or INVALID_STRING text_answer
        (object_part object.now).text) }
    // A refusal takes no memory.
    ensures memory { IfErr result (λ _.
        IsTrue (takes_memory (found_or INVALID_STRING text_answer (object_part object.now).text))) }
{
    match &object.text {
        Some(content) => of_text(alloc, content),
        None => Ok(Answer::Error(ErrorCode::INVALID_STRING)),
    }
}
