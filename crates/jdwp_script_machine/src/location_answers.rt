//! Whether a location is one at which a breakpoint may be set (JDWP specification, "EventRequest": Set).
ghost use Rattle.std.specs.Prelude.{◌≡◌, [], ◌∷◌, IfOk, IfErr, IsTrue};
ghost use Rattle.jdwp_layout.specs.Meanings.{One, Byte, Many, meanings, scalar_meanings, entry_meanings};
ghost use Rattle.jdwp_script.specs.Meanings.{method_part, class_part, script_part};
ghost use Rattle.jdwp_machine.specs.Laws.{takes_memory};
ghost use Rattle.jdwp_script_machine.specs.ThreadAnswers.{index_answer, location_in_class, location_answer, set_answer};

use crate::places::{class_of, method_of};
use crate::replies::of_scalar;
use jdwp_event::{EventKind, Policy};
use jdwp_layout::modifier_kinds::LOCATION_ONLY;
use jdwp_layout::{Answer, Datum, Scalar};
use jdwp_script::{Class, Method, Script};
use jdwp_value::{Location, MethodId};
use jdwp_wire::{ErrorCode, NoMemory};
use std::alloc::Global;

/// What is answered to a Set of a breakpoint with the policy NONE and one modifier, LocationOnly: 0 where the
/// location is one of the script, and else why it is none. Other requests are not implemented here.
///
/// # Errors
/// `NoMemory` where an allocation was refused; a refusal takes no memory.
pub(crate) fn set_answer(
    alloc: Global,
    script: &Script,
    content: &[Datum],
) -> Result<Answer, NoMemory>
    ensures value { IfOk result (λ a. a ≡ set_answer (script_part script.now)
        (meanings content.now)) }
    // A refusal takes no memory.
    ensures memory { IfErr result (λ _.
        IsTrue (takes_memory (set_answer (script_part script.now) (meanings content.now)))) }
{
    match content {
        [
            Datum::One(Scalar::Byte(kind)),
            Datum::One(Scalar::Byte(policy)),
            Datum::Many(modifiers),
        ] => { by_modifiers(alloc, script, *kind, *policy, modifiers) }
        _ => Ok(Answer::Error(ErrorCode::NOT_IMPLEMENTED)),
    }
}

/// What is answered to a request of this kind and policy with these modifiers.
fn by_modifiers(
    alloc: Global,
    script: &Script,
    kind: u8,
    policy: u8,
    modifiers: &[Vec<Scalar>],
) -> Result<Answer, NoMemory>
    ensures value { IfOk result (λ a. a ≡ set_answer (script_part script.now) (One (Byte kind) ∷ One
        (Byte policy) ∷ Many (entry_meanings modifiers.now) ∷ [])) }
    // A refusal takes no memory.
    ensures memory { IfErr result (λ _.
        IsTrue (takes_memory (set_answer (script_part script.now) (One (Byte kind) ∷ One
        (Byte policy) ∷ Many (entry_meanings modifiers.now) ∷ [])))) }
{
    match modifiers {
        [modifier] => by_modifier(alloc, script, kind, policy, modifier),
        _ => Ok(Answer::Error(ErrorCode::NOT_IMPLEMENTED)),
    }
}

/// What is answered to a request of this kind and policy with this modifier alone.
fn by_modifier(
    alloc: Global,
    script: &Script,
    kind: u8,
    policy: u8,
    modifier: &[Scalar],
) -> Result<Answer, NoMemory>
    ensures value { IfOk result (λ a. a ≡ set_answer (script_part script.now) (One (Byte kind) ∷ One
        (Byte policy) ∷ Many (scalar_meanings modifier.now ∷ []) ∷ [])) }
    // A refusal takes no memory.
    ensures memory { IfErr result (λ _.
        IsTrue (takes_memory (set_answer (script_part script.now) (One (Byte kind) ∷ One
        (Byte policy) ∷ Many (scalar_meanings modifier.now ∷ []) ∷ [])))) }
{
    match modifier {
        [Scalar::Byte(modifier), Scalar::Location(location)] => {
            if kind == EventKind::Breakpoint.byte()
                && policy == Policy::None.byte()
                && *modifier == LOCATION_ONLY
            {
                return location_answer(alloc, script, *location);
            }
            Ok(Answer::Error(ErrorCode::NOT_IMPLEMENTED))
        }
        _ => Ok(Answer::Error(ErrorCode::NOT_IMPLEMENTED)),
    }
}

/// Success where the location is one of the script.
fn location_answer(alloc: Global, script: &Script, location: Location) -> Result<Answer, NoMemory>
    ensures value { IfOk result (λ a. a ≡ location_answer (script_part script.now) location) }
    // A refusal takes no memory.
    ensures memory { IfErr result (λ _.
        IsTrue (takes_memory (location_answer (script_part script.now) location))) }
{
    match location {
        Location::Null => Ok(Answer::Error(ErrorCode::INVALID_LOCATION)),
        Location::At {
            tag: _,
            class,
            method,
            index,
        } => match class_of(script, class) {
            Some(class) => in_class(alloc, class, method, index),
            None => Ok(Answer::Error(ErrorCode::INVALID_CLASS)),
        },
    }
}

/// Success where the class has the method, and the method the index.
fn in_class(alloc: Global, class: &Class, method: MethodId, index: u64) -> Result<Answer, NoMemory>
    ensures value { IfOk result (λ a. a ≡ location_in_class method.0 index (class_part class.now)) }
    // A refusal takes no memory.
    ensures memory { IfErr result (λ _.
        IsTrue (takes_memory (location_in_class method.0 index (class_part class.now)))) }
{
    match method_of(class, method) {
        Some(method) => in_method(alloc, method, index),
        None => Ok(Answer::Error(ErrorCode::INVALID_METHODID)),
    }
}

/// Success where the index is not above the method's last one.
fn in_method(alloc: Global, method: &Method, index: u64) -> Result<Answer, NoMemory>
    ensures value { IfOk result (λ a. a ≡ index_answer index (method_part method.now)) }
    // A refusal takes no memory.
    ensures memory { IfErr result (λ _.
        IsTrue (takes_memory (index_answer index (method_part method.now)))) }
{
    if index > method.last {
        return Ok(Answer::Error(ErrorCode::INVALID_LOCATION));
    }
    of_scalar(alloc, Scalar::Int(0))
}
