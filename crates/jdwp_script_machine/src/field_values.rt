//! The values of fields, where entries name the fields (JDWP specification, "ReferenceType" and "ObjectReference":
//! GetValues).
ghost use Rattle.std.specs.Prelude.{◌≡◌, IfOk, IfErr, IsTrue};
ghost use Rattle.jdwp_layout.specs.Meanings.{scalar_meanings, entry_meanings};
ghost use Rattle.jdwp_machine.specs.Laws.{takes_memory};
ghost use Rattle.jdwp_script_machine.specs.ClassAnswers.{answer_entries, entry_value, field_values};

use crate::replies::{of_entries, value_entry};
use jdwp_layout::{Answer, Scalar};
use jdwp_script::Literal;
use jdwp_value::FieldId;
use jdwp_wire::{ErrorCode, NoMemory};
use std::alloc::Global;

/// What has fields with values.
pub(crate) trait Fielded {
    ghost use Rattle.std.specs.Prelude.{ℕ, Option};
    ghost use Rattle.jdwp_script.specs.declared.step.Literal.{Literal};

    /// The value that it has in the field of this id, if it has one.
    ghost held: { Self → ℕ → Option Literal };

    /// The value that it has in the field, if it has one.
    fn value(&self, id: FieldId) -> Option<Literal>
        ensures { result ≡ held self.now id.0 };
}

/// The answer with the value of each field that an entry names, in their order; `INVALID_FIELDID` where one has none.
///
/// # Errors
/// `NoMemory` where an allocation was refused; a refusal takes no memory.
#[tactic(auto, using(crate::proofs::FieldValues::refused_as))]
pub(crate) fn values_asked<T: Fielded>(
    alloc: Global,
    owner: &T,
    entries: &[Vec<Scalar>],
) -> Result<Answer, NoMemory>
    ensures value { IfOk result (λ a. a ≡ answer_entries (field_values (T.held owner.now)
        (entry_meanings entries.now))) }
    // A refusal takes no memory.
    ensures memory { IfErr result (λ _.
        IsTrue (takes_memory (answer_entries (field_values (T.held owner.now)
        (entry_meanings entries.now))))) }
{
    if !have_values(owner, entries) {
        return Ok(Answer::Error(ErrorCode::INVALID_FIELDID));
    }
    values_told(alloc, owner, entries)
}

/// Whether each entry names a field with a value.
fn have_values<T: Fielded>(owner: &T, entries: &[Vec<Scalar>]) -> bool
    ensures { result ≡ takes_memory (answer_entries (field_values (T.held owner.now)
        (entry_meanings entries.now))) }
{
    for entry in entries {
        if value_asked(owner, entry).is_none() {
            return false;
        }
    }
    true
}

/// The answer, by the value of each entry's field.
fn values_told<T: Fielded>(
    alloc: Global,
    owner: &T,
    entries: &[Vec<Scalar>],
) -> Result<Answer, NoMemory>
    ensures { IfOk result (λ a. a ≡ answer_entries (field_values (T.held owner.now)
        (entry_meanings entries.now))) }
{
    let mut values = Vec::new(alloc);
    for entry in entries {
        match value_asked(owner, entry) {
            Some(literal) => {
                let value = value_entry(alloc, literal.value())?;
                values.push(value)?;
            }
            None => return Ok(Answer::Error(ErrorCode::INVALID_FIELDID)),
        }
    }
    of_entries(alloc, values)
}

/// The value of the field that the entry names.
fn value_asked<T: Fielded>(owner: &T, entry: &[Scalar]) -> Option<Literal>
    ensures { result ≡ entry_value (T.held owner.now) (scalar_meanings entry.now) }
{
    match entry {
        [Scalar::FieldId(id)] => owner.value(*id),
        _ => None,
    }
}
