//! What is answered of methods (JDWP specification, "Method").
ghost use Rattle.std.specs.Prelude.{◌≡◌, IfOk, IfErr, IsTrue};
ghost use Rattle.jdwp_layout.specs.Meanings.{meanings};
ghost use Rattle.jdwp_script.specs.Parts.{ClassPart, MethodPart};
ghost use Rattle.jdwp_script.specs.Meanings.{class_part, method_part, script_part};
ghost use Rattle.jdwp_script_machine.specs.Requests.{Asks, alone, of_method_in, of_method};
ghost use Rattle.jdwp_script_machine.specs.StateMeanings.{state_now};
ghost use Rattle.jdwp_script_machine.specs.ClassAnswers.{lines_answer, method_answer};
ghost use Rattle.jdwp_machine.specs.Laws.{takes_memory};
ghost use Rattle.jdwp_script_machine.specs.ClassQuestions.{method_answer_to};

use crate::asked::{class_asked, method_asked};
use crate::class_entries::{GenericVariableEntry, LineEntry, VariableEntry, long_of_index};
use crate::entries::Tell;
use crate::replies::{of_pair, of_scalar};
use crate::state::MachineState;
use jdwp_layout::numbers::{IS_OBSOLETE, LINE_TABLE, VARIABLE_TABLE, VARIABLE_TABLE_WITH_GENERIC};
use jdwp_layout::{Answer, Data, Datum, Scalar};
use jdwp_script::{Class, Method, Script};
use jdwp_wire::{ErrorCode, NoMemory};
use std::alloc::Global;

/// What may be asked of a method.
#[derive(Clone, Copy)]
pub(crate) enum MethodQuestion {
    LineTable,
    VariableTable,
    IsObsolete,
    GenericVariableTable,
}

/// The answer to a command of the set Method with these data, in the state.
///
/// A class that is not known is `INVALID_CLASS`, a method that the class does not have `INVALID_METHODID`, and
/// LineTable of a method without lines `ABSENT_INFORMATION`. Data that are not in the command's layout are
/// `ILLEGAL_ARGUMENT`, and another command `NOT_IMPLEMENTED`.
///
/// # Errors
/// `NoMemory` where an allocation was refused; a refusal takes no memory.
pub fn method_answer(
    alloc: Global,
    state: &MachineState,
    number: u8,
    content: &[Datum],
) -> Result<Answer, NoMemory>
    ensures value { IfOk result (λ a. a ≡ method_answer (state_now state.now) number
        (meanings content.now)) }
    // A refusal takes no memory.
    ensures memory { IfErr result (λ _.
        IsTrue (takes_memory (method_answer (state_now state.now) number (meanings content.now)))) }
{
    let script = &state.script;
    match number {
        LINE_TABLE => of_method(alloc, script, MethodQuestion::LineTable, content),
        VARIABLE_TABLE => of_method(alloc, script, MethodQuestion::VariableTable, content),
        IS_OBSOLETE => of_method(alloc, script, MethodQuestion::IsObsolete, content),
        VARIABLE_TABLE_WITH_GENERIC => {
            of_method(alloc, script, MethodQuestion::GenericVariableTable, content)
        }
        _ => Ok(Answer::Error(ErrorCode::NOT_IMPLEMENTED)),
    }
}

/// The answer to the question of the method that the data name, and nothing more.
fn of_method(
    alloc: Global,
    script: &Script,
    question: MethodQuestion,
    content: &[Datum],
) -> Result<Answer, NoMemory>
    ensures value { IfOk result (λ a. a ≡ of_method (script_part script.now) (λ c m.
        alone (method_answer_to question m)) (meanings content.now)) }
    // A refusal takes no memory.
    ensures memory { IfErr result (λ _. IsTrue (takes_memory (of_method (script_part script.now)
        (λ c m. alone (method_answer_to question m)) (meanings content.now)))) }
{
    match class_asked(script, content) {
        Ok((class, rest)) => of_method_in(alloc, class, question, rest),
        Err(error) => Ok(Answer::Error(error)),
    }
}

/// The answer to the question of the method of the class that the data name, and nothing more.
fn of_method_in(
    alloc: Global,
    class: &Class,
    question: MethodQuestion,
    content: &[Datum],
) -> Result<Answer, NoMemory>
    ensures value { IfOk result (λ a. a ≡ of_method_in (λ c m. alone (method_answer_to question m))
        (class_part class.now) (meanings content.now)) }
    // A refusal takes no memory.
    ensures memory { IfErr result (λ _.
        IsTrue (takes_memory (of_method_in (λ c m. alone (method_answer_to question m))
        (class_part class.now) (meanings content.now)))) }
{
    match method_asked(class, content) {
        Ok((method, [])) => method_answer_to(alloc, question, method),
        Ok(_) => Ok(Answer::Error(ErrorCode::ILLEGAL_ARGUMENT)),
        Err(error) => Ok(Answer::Error(error)),
    }
}

/// The answer to the question of the method.
fn method_answer_to(
    alloc: Global,
    question: MethodQuestion,
    method: &Method,
) -> Result<Answer, NoMemory>
    ensures value { IfOk result (λ a. a ≡ method_answer_to question (method_part method.now)) }
    // A refusal takes no memory.
    ensures memory { IfErr result (λ _.
        IsTrue (takes_memory (method_answer_to question (method_part method.now)))) }
{
    match question {
        MethodQuestion::LineTable => line_table(alloc, method),
        MethodQuestion::VariableTable => {
            let slots = VariableEntry.tell_each(alloc, &method.slots)?;
            of_pair(alloc, Datum::One(Scalar::Int(method.args)), slots)
        }
        MethodQuestion::IsObsolete => of_scalar(alloc, Scalar::Boolean(false)),
        MethodQuestion::GenericVariableTable => {
            let slots = GenericVariableEntry.tell_each(alloc, &method.slots)?;
            of_pair(alloc, Datum::One(Scalar::Int(method.args)), slots)
        }
    }
}

/// The first and the last code index of the method, and its lines.
fn line_table(alloc: Global, method: &Method) -> Result<Answer, NoMemory>
    ensures value { IfOk result (λ a. a ≡ lines_answer method.now.last method.now.lines.items) }
    // A refusal takes no memory.
    ensures memory { IfErr result (λ _.
        IsTrue (takes_memory (lines_answer method.now.last method.now.lines.items))) }
{
    if method.lines.is_empty() {
        return Ok(Answer::Error(ErrorCode::ABSENT_INFORMATION));
    }
    let lines = LineEntry.tell_each(alloc, &method.lines)?;
    let first = Datum::One(Scalar::Long(0));
    let last = Datum::One(long_of_index(method.last));
    Ok(Answer::Data(Data::new(vec![in alloc; first, last, lines]?)))
}
