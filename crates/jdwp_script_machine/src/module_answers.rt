//! What is answered of modules (JDWP specification, "ModuleReference").
ghost use Rattle.std.specs.Prelude.{◌≡◌, IfOk, IfErr, IsTrue};
ghost use Rattle.jdwp_layout.specs.Meanings.{meanings};
ghost use Rattle.jdwp_script.specs.Meanings.{script_part};
ghost use Rattle.jdwp_machine.specs.Laws.{takes_memory};
ghost use Rattle.jdwp_script_machine.specs.StateMeanings.{state_now};
ghost use Rattle.jdwp_script_machine.specs.Requests.{of_module};
ghost use Rattle.jdwp_script_machine.specs.ModuleAnswers.{module_name_answer, module_loader_answer, module_reference_answer};

use crate::asked::module_asked;
use crate::replies::{of_scalar, of_text};
use crate::state::MachineState;
use jdwp_layout::numbers::{MODULE_CLASS_LOADER, MODULE_NAME};
use jdwp_layout::{Answer, Datum, Scalar};
use jdwp_script::Script;
use jdwp_value::ObjectId;
use jdwp_wire::{ErrorCode, NoMemory};
use std::alloc::Global;

/// What is answered of a module to the command of this number: its name, or its class loader, which is 0. An id that is no module's, 0
/// too, is `INVALID_MODULE`. Data that are not in the command's layout are `ILLEGAL_ARGUMENT`, and another command `NOT_IMPLEMENTED`.
///
/// # Errors
/// `NoMemory` where an allocation was refused; a refusal takes no memory.
pub(crate) fn module_reference_answer(
    alloc: Global,
    state: &MachineState,
    number: u8,
    content: &[Datum],
) -> Result<Answer, NoMemory>
    ensures value { IfOk result (λ a. a ≡ module_reference_answer (state_now state.now) number
        (meanings content.now)) }
    // A refusal takes no memory.
    ensures memory { IfErr result (λ _.
        IsTrue (takes_memory (module_reference_answer (state_now state.now) number
        (meanings content.now)))) }
{
    match number {
        MODULE_NAME => name(alloc, &state.script, content),
        MODULE_CLASS_LOADER => class_loader(alloc, &state.script, content),
        _ => Ok(Answer::Error(ErrorCode::NOT_IMPLEMENTED)),
    }
}

/// The name of a module.
fn name(alloc: Global, script: &Script, content: &[Datum]) -> Result<Answer, NoMemory>
    ensures value { IfOk result (λ a. a ≡ of_module (script_part script.now) module_name_answer
        (meanings content.now)) }
    // A refusal takes no memory.
    ensures memory { IfErr result (λ _.
        IsTrue (takes_memory (of_module (script_part script.now) module_name_answer
        (meanings content.now)))) }
{
    match module_asked(script, content) {
        Ok((module, [])) => of_text(alloc, &module.name),
        Ok(_) => Ok(Answer::Error(ErrorCode::ILLEGAL_ARGUMENT)),
        Err(error) => Ok(Answer::Error(error)),
    }
}

/// The class loader of a module: none has one.
fn class_loader(alloc: Global, script: &Script, content: &[Datum]) -> Result<Answer, NoMemory>
    ensures value { IfOk result (λ a. a ≡ of_module (script_part script.now) module_loader_answer
        (meanings content.now)) }
    // A refusal takes no memory.
    ensures memory { IfErr result (λ _.
        IsTrue (takes_memory (of_module (script_part script.now) module_loader_answer
        (meanings content.now)))) }
{
    match module_asked(script, content) {
        Ok((_, [])) => of_scalar(alloc, Scalar::ObjectId(ObjectId(0))),
        Ok(_) => Ok(Answer::Error(ErrorCode::ILLEGAL_ARGUMENT)),
        Err(error) => Ok(Answer::Error(error)),
    }
}
