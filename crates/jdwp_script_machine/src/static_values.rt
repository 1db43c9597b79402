//! The values of static fields (JDWP specification, "ReferenceType": GetValues).
ghost use Rattle.std.specs.Prelude.{◌≡◌, List, map, IfOk, IfErr, IsTrue};
ghost use Rattle.jdwp_layout.specs.declared.answer.Answer as declared;
ghost use Rattle.jdwp_layout.specs.Meanings.{ScalarMeaning, meanings, entry_meanings};
ghost use Rattle.jdwp_script.specs.Meanings.{class_part};
ghost use Rattle.jdwp_script_machine.specs.Requests.{of_entries};
ghost use Rattle.jdwp_script_machine.specs.ClassAnswers.{static_value, field_values, answer_entries, statics_answer};
ghost use Rattle.jdwp_machine.specs.Laws.{takes_memory};
ghost use Rattle.jdwp_script_machine.specs.ClassQuestions.{by_entries};

use crate::field_values::{Fielded, values_asked};
use crate::places::field_of;
use jdwp_layout::{Answer, Datum, Scalar};
use jdwp_script::{Class, Literal};
use jdwp_value::FieldId;
use jdwp_wire::{ErrorCode, NoMemory};
use std::alloc::Global;

/// The entries that the data are, if they are one list, of fewer than 2^31 entries.
pub(crate) fn entries_asked(content: &[Datum]) -> Option<&[Vec<Scalar>]>
    ensures { (answer : List (List ScalarMeaning) → declared.Answer)
        → of_entries answer (meanings content.now) ≡ by_entries answer result }
{
    match content {
        [Datum::Many(entries)] => {
            if entries.len() < 2_147_483_648 {
                Some(entries.as_slice())
            } else {
                None
            }
        }
        _ => None,
    }
}

/// The answer to GetValues of the class, where the data ask for fields: the value of each, in the order asked.
/// `INVALID_FIELDID` where one is not the class's own or not static.
///
/// # Errors
/// `NoMemory` where an allocation was refused; a refusal takes no memory.
pub(crate) fn static_values(
    alloc: Global,
    class: &Class,
    content: &[Datum],
) -> Result<Answer, NoMemory>
    ensures value { IfOk result (λ a. a ≡ statics_answer (class_part class.now)
        (meanings content.now)) }
    // A refusal takes no memory.
    ensures memory { IfErr result (λ _. IsTrue (takes_memory (statics_answer (class_part class.now)
        (meanings content.now)))) }
{
    match entries_asked(content) {
        Some(entries) => values_asked(alloc, class, entries),
        None => Ok(Answer::Error(ErrorCode::ILLEGAL_ARGUMENT)),
    }
}

impl Fielded for Class {
    ghost held = { λ c. static_value (class_part c) };

    fn value(&self, id: FieldId) -> Option<Literal> {
        match field_of(self, id) {
            Some(field) => field.value,
            None => None,
        }
    }
}
