//! What invocations of methods are answered (JDWP specification, "ClassType", "InterfaceType" and "ObjectReference": InvokeMethod).
ghost use Rattle.std.specs.Prelude.{◌≡◌, option_map, IfOk, IfErr, IsTrue};
ghost use Rattle.jdwp_layout.specs.Meanings.{meanings};
ghost use Rattle.jdwp_machine.specs.Laws.{takes_memory};
ghost use Rattle.jdwp_script.specs.Meanings.{class_part, script_part};
ghost use Rattle.jdwp_script_machine.specs.Found.{found};
ghost use Rattle.jdwp_script_machine.specs.InvocationAnswers.{are_arguments, invoking_answer_at, is_object_in, method_invoked, object_invoked, past_thread, reply_bytes, returned, returned_answer, returned_behind, type_invoked, with_rest};
ghost use Rattle.jdwp_script_machine.specs.Requests.{of_class, of_method_in};
ghost use Rattle.jdwp_script_machine.specs.StateMeanings.{state_now};

use crate::asked::{class_asked, method_asked};
use crate::jdi_answers::jdi_answer_at;
use crate::places::{group_of, object_of, thread_of};
use crate::replies::of_datum;
use crate::state::MachineState;
use jdwp_layout::invocation::reply_layout;
use jdwp_layout::numbers::{
    CLASS_INVOKE, CLASS_TYPE, INTERFACE_INVOKE, INTERFACE_TYPE, OBJECT_INVOKE, OBJECT_REFERENCE,
};
use jdwp_layout::{Answer, Datum, Scalar, refusal, write};
use jdwp_script::{Class, Literal, Script};
use jdwp_value::{ObjectId, ObjectTag, TaggedId};
use jdwp_wire::{DataFault, ErrorCode, IdSizes, NoMemory};
use std::alloc::Global;

/// What a command of this set and number with these data is answered: an invocation what the script says that its method returns, and any
/// other as debuggers over the Java Debug Interface are. `sizes` are the script's.
///
/// # Errors
/// `NoMemory` where an allocation was refused; a refusal takes no memory.
pub(crate) fn invoking_answer_at(
    alloc: Global,
    state: &MachineState,
    sizes: &IdSizes,
    set: u8,
    number: u8,
    content: &[Datum],
) -> Result<Answer, NoMemory>
    requires { sizes.now ≡ (state_now state.now).script.sizes }
    ensures value { IfOk result (λ a. a ≡ invoking_answer_at (state_now state.now) set number
        (meanings content.now)) }
    // A refusal takes no memory.
    ensures memory { IfErr result (λ _.
        IsTrue (takes_memory (invoking_answer_at (state_now state.now) set number
        (meanings content.now)))) }
{
    let script = &state.script;
    match (set, number) {
        (CLASS_TYPE, CLASS_INVOKE) | (INTERFACE_TYPE, INTERFACE_INVOKE) => {
            type_invoked(alloc, script, sizes, content)
        }
        (OBJECT_REFERENCE, OBJECT_INVOKE) => object_invoked(alloc, state, sizes, content),
        _ => jdi_answer_at(alloc, state, set, number, content),
    }
}

/// A method of a type.
fn type_invoked(
    alloc: Global,
    script: &Script,
    sizes: &IdSizes,
    content: &[Datum],
) -> Result<Answer, NoMemory>
    requires { sizes.now ≡ (script_part script.now).sizes }
    ensures value { IfOk result (λ a. a ≡ type_invoked (script_part script.now)
        (meanings content.now)) }
    // A refusal takes no memory.
    ensures memory { IfErr result (λ _.
        IsTrue (takes_memory (type_invoked (script_part script.now) (meanings content.now)))) }
{
    match class_asked(script, content) {
        Ok((class, rest)) => method_invoked(alloc, sizes, class, rest),
        Err(error) => Ok(Answer::Error(error)),
    }
}

/// A method of a class, behind the thread.
fn method_invoked(
    alloc: Global,
    sizes: &IdSizes,
    class: &Class,
    content: &[Datum],
) -> Result<Answer, NoMemory>
    ensures value { IfOk result (λ a. a ≡ method_invoked sizes.now (class_part class.now)
        (meanings content.now)) }
    // A refusal takes no memory.
    ensures memory { IfErr result (λ _.
        IsTrue (takes_memory (method_invoked sizes.now (class_part class.now)
        (meanings content.now)))) }
{
    match past_thread(content) {
        Some(rest) => of_method_in(alloc, sizes, class, rest),
        None => Ok(Answer::Error(ErrorCode::ILLEGAL_ARGUMENT)),
    }
}

/// The data behind the thread that they begin with.
fn past_thread(content: &[Datum]) -> Option<&[Datum]>
    ensures { option_map meanings (found result) ≡ past_thread (meanings content.now) }
{
    match content {
        [Datum::One(Scalar::ObjectId(_)), rest @ ..] => Some(rest),
        _ => None,
    }
}

/// A method of an object, a thread or a group.
fn object_invoked(
    alloc: Global,
    state: &MachineState,
    sizes: &IdSizes,
    content: &[Datum],
) -> Result<Answer, NoMemory>
    requires { sizes.now ≡ (state_now state.now).script.sizes }
    ensures value { IfOk result (λ a. a ≡ object_invoked (state_now state.now)
        (meanings content.now)) }
    // A refusal takes no memory.
    ensures memory { IfErr result (λ _.
        IsTrue (takes_memory (object_invoked (state_now state.now) (meanings content.now)))) }
{
    match content {
        [Datum::One(Scalar::ObjectId(id)), rest @ ..] => {
            if is_object_in(state, *id) {
                method_of_object(alloc, &state.script, sizes, rest)
            } else {
                Ok(Answer::Error(ErrorCode::INVALID_OBJECT))
            }
        }
        _ => Ok(Answer::Error(ErrorCode::ILLEGAL_ARGUMENT)),
    }
}

/// A method of a class, behind the thread.
fn method_of_object(
    alloc: Global,
    script: &Script,
    sizes: &IdSizes,
    content: &[Datum],
) -> Result<Answer, NoMemory>
    ensures value { IfOk result (λ a. a ≡ with_rest (of_class (script_part script.now)
        (of_method_in (returned_answer sizes.now))) (past_thread (meanings content.now))) }
    // A refusal takes no memory.
    ensures memory { IfErr result (λ _.
        IsTrue (takes_memory (with_rest (of_class (script_part script.now)
        (of_method_in (returned_answer sizes.now))) (past_thread (meanings content.now))))) }
{
    match past_thread(content) {
        Some(rest) => of_method(alloc, script, sizes, rest),
        None => Ok(Answer::Error(ErrorCode::ILLEGAL_ARGUMENT)),
    }
}

/// Whether an id is that of an object, a thread or a group.
fn is_object_in(state: &MachineState, id: ObjectId) -> bool
    ensures { result ≡ is_object_in (state_now state.now) id.0 }
{
    object_of(state, id).is_some()
        || thread_of(&state.script, id).is_some()
        || group_of(&state.script, id).is_some()
}

/// A class, and a method of it.
fn of_method(
    alloc: Global,
    script: &Script,
    sizes: &IdSizes,
    content: &[Datum],
) -> Result<Answer, NoMemory>
    ensures value { IfOk result (λ a. a ≡ of_class (script_part script.now)
        (of_method_in (returned_answer sizes.now)) (meanings content.now)) }
    // A refusal takes no memory.
    ensures memory { IfErr result (λ _.
        IsTrue (takes_memory (of_class (script_part script.now)
        (of_method_in (returned_answer sizes.now)) (meanings content.now)))) }
{
    match class_asked(script, content) {
        Ok((class, rest)) => of_method_in(alloc, sizes, class, rest),
        Err(error) => Ok(Answer::Error(error)),
    }
}

/// A method of a class, with arguments and options.
fn of_method_in(
    alloc: Global,
    sizes: &IdSizes,
    class: &Class,
    content: &[Datum],
) -> Result<Answer, NoMemory>
    ensures value { IfOk result (λ a. a ≡ of_method_in (returned_answer sizes.now)
        (class_part class.now) (meanings content.now)) }
    // A refusal takes no memory.
    ensures memory { IfErr result (λ _.
        IsTrue (takes_memory (of_method_in (returned_answer sizes.now)
        (class_part class.now) (meanings content.now)))) }
{
    match method_asked(class, content) {
        Ok((method, rest)) => returned_behind(alloc, sizes, method.returns, rest),
        Err(error) => Ok(Answer::Error(error)),
    }
}

/// What a method returns, behind arguments and options.
fn returned_behind(
    alloc: Global,
    sizes: &IdSizes,
    returns: Option<Literal>,
    content: &[Datum],
) -> Result<Answer, NoMemory>
    ensures value { IfOk result (λ a. a ≡ returned_behind sizes.now returns
        (meanings content.now)) }
    // A refusal takes no memory.
    ensures memory { IfErr result (λ _.
        IsTrue (takes_memory (returned_behind sizes.now returns (meanings content.now)))) }
{
    if are_arguments(content) {
        returned(alloc, sizes, returns)
    } else {
        Ok(Answer::Error(ErrorCode::ILLEGAL_ARGUMENT))
    }
}

/// Whether data are arguments and options, and nothing more.
fn are_arguments(content: &[Datum]) -> bool
    ensures { result ≡ are_arguments (meanings content.now) }
{
    match content {
        [Datum::Many(_), Datum::One(Scalar::Int(_))] => true,
        _ => false,
    }
}

/// What the script says that a method returns, and no exception.
fn returned(alloc: Global, sizes: &IdSizes, returns: Option<Literal>) -> Result<Answer, NoMemory>
    ensures value { IfOk result (λ a. a ≡ returned sizes.now returns) }
    // A refusal takes no memory.
    ensures memory { IfErr result (λ _. IsTrue (takes_memory (returned sizes.now returns))) }
{
    let Some(literal) = returns else {
        return Ok(Answer::Error(ErrorCode::NOT_IMPLEMENTED));
    };
    let no_exception = TaggedId {
        tag: ObjectTag::Object,
        id: ObjectId(0),
    };
    let items = [
        Datum::One(Scalar::Value(literal.value())),
        Datum::One(Scalar::TaggedId(no_exception)),
    ];
    reply_bytes(alloc, sizes, &items)
}

/// The data of an invocation's reply, as bytes.
fn reply_bytes(alloc: Global, sizes: &IdSizes, items: &[Datum]) -> Result<Answer, NoMemory>
    ensures value { IfOk result (λ a. a ≡ reply_bytes sizes.now (meanings items.now)) }
    // A refusal takes no memory.
    ensures memory { IfErr result (λ _.
        IsTrue (takes_memory (reply_bytes sizes.now (meanings items.now)))) }
{
    let layout = reply_layout();
    if refusal(&layout, sizes, items).is_some() {
        return Ok(Answer::Error(ErrorCode::INTERNAL));
    }
    let mut bytes = Vec::new(alloc);
    match write(&layout, sizes, items, &mut bytes) {
        Ok(()) => of_datum(alloc, Datum::Raw(bytes)),
        Err(DataFault::NoMemory) => Err(NoMemory),
        Err(
            DataFault::Short(_)
            | DataFault::Extra(_)
            | DataFault::BadTag
            | DataFault::NegativeCount
            | DataFault::NotUtf8
            | DataFault::BadSize
            | DataFault::IdTooWide,
        ) => unreachable!(),
    }
}
