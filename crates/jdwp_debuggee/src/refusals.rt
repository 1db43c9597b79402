//! Which event requests are refused, and why (JDWP specification, "Protocol Details": EventRequest.Set).
ghost use Rattle.std.specs.Prelude.{◌≡◌, ◌==◌, ◌&&◌, ℕ, true, length, map, nat_le, not, IfOk, IfErr, Some, None};
ghost use Rattle.std.specs.List.{list_any, filter};
ghost use Rattle.jdwp_event.specs.Composites.{POLICY_ALL};
ghost use Rattle.jdwp_event.specs.ModifierMeanings.{modifier_meaning};
ghost use Rattle.jdwp_event.specs.RequestParts.{origin_meaning};
ghost use Rattle.jdwp_wire.specs.ErrorCodes as codes;
ghost use Rattle.jdwp_event.specs.declared.kind.EventKind.TheVariants as kind;
ghost use Rattle.jdwp_debuggee.specs.State.{count_in};
ghost use Rattle.jdwp_debuggee.specs.Effects as effects;
ghost use Rattle.jdwp_debuggee.specs.Refusals as spec;
ghost use Rattle.jdwp_debuggee.specs.RefusalParts.{moment_of, asks_machine, found_thread};
ghost use Rattle.jdwp_debuggee.specs.Wants.{early_refusal, late_refusal};

use crate::debuggee::Debuggee;
use crate::origins::origin_of;
use crate::questions::ask;
use crate::threads::Threads;
use jdwp_event::{EventKind, Modifier, Policy, StepDepth, StepOrigin, StepSize};
use jdwp_layout::modifier_kinds::LOCATION_ONLY;
use jdwp_layout::numbers::{EVENT_REQUEST, REFERENCE_TYPE, SET_REQUEST, SIGNATURE};
use jdwp_layout::{Answer, Datum, Scalar};
use jdwp_machine::{Machine, Profile};
use jdwp_value::{Location, ObjectId, ReferenceTypeId};
use jdwp_wire::number::GREATEST_INT;
use jdwp_wire::{ErrorCode, NoMemory};
use std::alloc::Global;

/// The kinds that may be requested in the standard profile.
static REQUESTABLE: [EventKind; 9] = [
    EventKind::SingleStep,
    EventKind::Breakpoint,
    EventKind::Exception,
    EventKind::ThreadStart,
    EventKind::ThreadDeath,
    EventKind::ClassPrepare,
    EventKind::MethodEntry,
    EventKind::MethodExit,
    EventKind::MethodExitWithReturnValue,
];

/// The kinds that may be requested in the profile for the Java Debug Interface.
static REQUESTABLE_BY_JDI: [EventKind; 10] = [
    EventKind::ClassUnload,
    EventKind::SingleStep,
    EventKind::Breakpoint,
    EventKind::Exception,
    EventKind::ThreadStart,
    EventKind::ThreadDeath,
    EventKind::ClassPrepare,
    EventKind::MethodEntry,
    EventKind::MethodExit,
    EventKind::MethodExitWithReturnValue,
];

/// The kinds of events that are of no class.
static OF_THREADS: [EventKind; 2] = [EventKind::ThreadStart, EventKind::ThreadDeath];

/// The kinds of events that no thread runs into.
static OF_NO_THREAD: [EventKind; 1] = [EventKind::ClassUnload];

/// The kinds of events that are at no place in a class.
static OF_NO_PLACE: [EventKind; 3] = [
    EventKind::ClassUnload,
    EventKind::ThreadStart,
    EventKind::ThreadDeath,
];

/// The kinds at which a location says nothing of its own.
static WITHOUT_LOCATIONS: [EventKind; 7] = [
    EventKind::ThreadStart,
    EventKind::ThreadDeath,
    EventKind::ClassPrepare,
    EventKind::ClassUnload,
    EventKind::MethodEntry,
    EventKind::MethodExit,
    EventKind::MethodExitWithReturnValue,
];

/// The greatest id of a request, which is an int on the wire.
const LAST_REQUEST: u32 = GREATEST_INT;

/// The error, unless the test holds.
fn unless(holds: bool, error: ErrorCode) -> Option<ErrorCode>
    ensures { result ≡ spec.unless holds error }
{
    if holds { None } else { Some(error) }
}

/// The first refusal of two tests.
fn or_else(first: Option<ErrorCode>, second: Option<ErrorCode>) -> Option<ErrorCode>
    ensures { result ≡ spec.or_else first second }
{
    match first {
        Some(error) => Some(error),
        None => second,
    }
}

/// Whether it is the byte of one of these kinds.
fn is_one_of(kinds: &[EventKind], byte: u8) -> bool
    ensures { result ≡ spec.is_one_of kinds.now byte }
{
    for kind in kinds {
        if byte == kind.byte() {
            return true;
        }
    }
    false
}

/// Whether it is the byte of a kind that may be requested in the profile.
fn is_requestable(profile: Profile, byte: u8) -> bool
    ensures { result ≡ spec.is_one_of (spec.requestable profile) byte }
{
    match profile {
        Profile::Standard => is_one_of(&REQUESTABLE, byte),
        Profile::Jdi => is_one_of(&REQUESTABLE_BY_JDI, byte),
    }
}

/// A kind byte of no kind, and a kind that is not implemented in the profile.
fn kind_refusal(profile: Profile, byte: u8) -> Option<ErrorCode>
    ensures { result ≡ spec.kind_refusal profile byte }
{
    match EventKind::of_byte(byte) {
        None => Some(ErrorCode::INVALID_EVENT_TYPE),
        Some(_) => unless(is_requestable(profile, byte), ErrorCode::NOT_IMPLEMENTED),
    }
}

/// A policy that the specification does not name.
fn policy_refusal(byte: u8) -> Option<ErrorCode>
    ensures { result ≡ spec.unless (nat_le byte POLICY_ALL) codes.ILLEGAL_ARGUMENT }
{
    unless(Policy::of_byte(byte).is_some(), ErrorCode::ILLEGAL_ARGUMENT)
}

/// A thread that is not alive.
fn thread_refusal(threads: &Threads, thread: ObjectId) -> Option<ErrorCode>
    ensures { result ≡ spec.unless (spec.is_some_count (count_in threads.now.list thread.0))
        codes.INVALID_THREAD }
{
    unless(threads.is_live(thread), ErrorCode::INVALID_THREAD)
}

/// A class that the machine does not know, or else the next refusal.
fn class_refusal<M: Machine>(
    alloc: Global,
    machine: &M,
    class: ReferenceTypeId,
    next: Option<ErrorCode>,
) -> Result<Option<ErrorCode>, NoMemory>
    ensures { IfOk result (λ refusal.
        refusal ≡ spec.or_else (spec.class_refusal M.meaning machine.now class.0) next) }
{
    let items = vec![in alloc; Datum::One(Scalar::ReferenceTypeId(class))]?;
    match ask(machine, REFERENCE_TYPE, SIGNATURE, items)? {
        Answer::Error(error) if error.0 == ErrorCode::INVALID_CLASS.0 => {
            Ok(Some(ErrorCode::INVALID_CLASS))
        }
        Answer::Data(_) | Answer::Error(_) => Ok(next),
    }
}

/// A place that is none, as the machine answers, or else the next refusal.
fn location_refusal<M: Machine>(
    alloc: Global,
    machine: &M,
    location: Location,
    next: Option<ErrorCode>,
) -> Result<Option<ErrorCode>, NoMemory>
    ensures { IfOk result (λ refusal.
        refusal ≡ spec.or_else (spec.location_refusal M.meaning machine.now location) next) }
{
    // The question is a Set of a breakpoint there.
    let modifier = vec![in alloc; Scalar::Byte(LOCATION_ONLY), Scalar::Location(location)]?;
    let modifiers = vec![in alloc; modifier]?;
    let items = vec![in alloc;
        Datum::One(Scalar::Byte(EventKind::Breakpoint.byte())),
        Datum::One(Scalar::Byte(Policy::None.byte())),
        Datum::Many(modifiers),
    ]?;
    match ask(machine, EVENT_REQUEST, SET_REQUEST, items)? {
        Answer::Data(_) => Ok(next),
        Answer::Error(error) => Ok(Some(error)),
    }
}

/// A modifier that says nothing in requests of these kinds.
fn not_in(kinds: &[EventKind], byte: u8) -> Option<ErrorCode>
    ensures { result ≡ spec.not_in kinds.now byte }
{
    unless(!is_one_of(kinds, byte), ErrorCode::ILLEGAL_ARGUMENT)
}

/// A Step in a request of another kind, or of a size or depth that the specification does not name.
fn step_refusal(byte: u8, size: i32, depth: i32) -> Option<ErrorCode>
    ensures { result ≡ spec.unless (spec.is_kind kind.SingleStep byte &&
        (spec.is_size size && spec.is_depth depth)) codes.ILLEGAL_ARGUMENT }
{
    unless(
        byte == EventKind::SingleStep.byte()
            && StepSize::of_number(size).is_some()
            && StepDepth::of_number(depth).is_some(),
        ErrorCode::ILLEGAL_ARGUMENT,
    )
}

/// Why a modifier is refused in a request of this kind.
fn modifier_refusal<M: Machine>(
    alloc: Global,
    machine: &M,
    threads: &Threads,
    byte: u8,
    modifier: &Modifier,
) -> Result<Option<ErrorCode>, NoMemory>
    ensures value { IfOk result (λ refusal. refusal ≡ spec.modifier_refusal M.meaning
        (moment_of threads.now.list machine.now) byte (modifier_meaning modifier.now)) }
    ensures memory { IfErr result (λ _. asks_machine (modifier_meaning modifier.now) ≡ true) }
{
    match modifier {
        Modifier::Count(count) => Ok(unless(*count >= 1, ErrorCode::INVALID_COUNT)),
        Modifier::ThreadOnly(thread) => Ok(or_else(
            thread_refusal(threads, *thread),
            not_in(&OF_NO_THREAD, byte),
        )),
        Modifier::ClassOnly(class) => {
            class_refusal(alloc, machine, *class, not_in(&OF_NO_PLACE, byte))
        }
        Modifier::ClassMatch(_) | Modifier::ClassExclude(_) => Ok(not_in(&OF_THREADS, byte)),
        Modifier::LocationOnly(location) => {
            location_refusal(alloc, machine, *location, not_in(&WITHOUT_LOCATIONS, byte))
        }
        Modifier::ExceptionOnly { class, .. } => {
            let is_exception = byte == EventKind::Exception.byte();
            let next = unless(is_exception, ErrorCode::ILLEGAL_ARGUMENT);
            if class.0 == 0 {
                return Ok(next);
            }
            class_refusal(alloc, machine, *class, next)
        }
        Modifier::Step {
            thread,
            size,
            depth,
        } => Ok(or_else(
            thread_refusal(threads, *thread),
            step_refusal(byte, *size, *depth),
        )),
        Modifier::Conditional(_)
        | Modifier::FieldOnly { .. }
        | Modifier::InstanceOnly(_)
        | Modifier::SourceNameMatch(_) => Ok(Some(ErrorCode::NOT_IMPLEMENTED)),
    }
}

/// The refusal of the first modifier that is refused in a request of this kind, or else the next refusal.
fn modifiers_refusal<M: Machine>(
    alloc: Global,
    machine: &M,
    threads: &Threads,
    byte: u8,
    modifiers: &[Modifier],
    next: Option<ErrorCode>,
) -> Result<Option<ErrorCode>, NoMemory>
    ensures value { IfOk result (λ refusal. refusal ≡ spec.or_else (spec.modifiers_refusal M.meaning
        (moment_of threads.now.list machine.now) byte (map modifier_meaning modifiers.now)) next) }
    ensures memory { IfErr result (λ _. list_any asks_machine (map modifier_meaning modifiers.now)
        ≡ true) }
{
    for modifier in modifiers {
        let refusal = modifier_refusal(alloc, machine, threads, byte, modifier)?;
        if refusal.is_some() {
            return Ok(refusal);
        }
    }
    Ok(next)
}

/// Whether there is a LocationOnly.
fn has_location(modifiers: &[Modifier]) -> bool
    ensures { result ≡ list_any spec.is_location (map modifier_meaning modifiers.now) }
{
    for modifier in modifiers {
        if let Modifier::LocationOnly(_) = modifier {
            return true;
        }
    }
    false
}

/// How many modifiers are a Step.
fn count_steps(modifiers: &[Modifier]) -> usize
    ensures { result ≡ length (filter spec.is_step (map modifier_meaning modifiers.now)) }
{
    let mut count = 0;
    for modifier in modifiers {
        if let Modifier::Step { .. } = modifier {
            count += 1;
        }
    }
    count
}

/// What a request of a kind must have: a breakpoint a location, and a single step exactly one Step.
fn shape_refusal(byte: u8, modifiers: &[Modifier]) -> Option<ErrorCode>
    ensures { result ≡ spec.shape_refusal byte (map modifier_meaning modifiers.now) }
{
    if byte == EventKind::Breakpoint.byte() {
        unless(has_location(modifiers), ErrorCode::ILLEGAL_ARGUMENT)
    } else if byte == EventKind::SingleStep.byte() {
        unless(count_steps(modifiers) == 1, ErrorCode::ILLEGAL_ARGUMENT)
    } else {
        None
    }
}

impl<M: Machine> Debuggee<M> {
    /// Why an event request is refused before its modifiers are looked at; None where it is not. The tests are made in this order, and
    /// the first that fails is the answer: the kind (`INVALID_EVENT_TYPE`, `NOT_IMPLEMENTED`), the policy (`ILLEGAL_ARGUMENT`), and room
    /// (`INTERNAL`).
    pub(crate) fn early_refusal(&self, kind: u8, policy: u8) -> Option<ErrorCode>
        ensures { result ≡ early_refusal self.now.settings self.now.moment.state kind policy }
    {
        let has_room = self.requests.len() < self.settings.limits().requests() as usize
            && self.next_request <= LAST_REQUEST;
        let room = unless(has_room, ErrorCode::INTERNAL);
        let suits = kind_refusal(self.settings.profile(), kind);
        or_else(suits, or_else(policy_refusal(policy), room))
    }

    /// Why an event request of this kind is refused that is not refused before its modifiers are looked at; None where it is not. Each
    /// modifier is tested in the order sent, and then what a request of the kind must have (`ILLEGAL_ARGUMENT`).
    ///
    /// # Errors
    /// `NoMemory` where an allocation was refused, and only where the machine is asked about a modifier.
    pub(crate) fn late_refusal(
        &self,
        alloc: Global,
        kind: u8,
        modifiers: &[Modifier],
    ) -> Result<Option<ErrorCode>, NoMemory>
        ensures value { IfOk result (λ refusal.
            refusal ≡ late_refusal M.meaning self.now.moment kind
            (map modifier_meaning modifiers.now)) }
        ensures memory { IfErr result (λ _.
            list_any asks_machine (map modifier_meaning modifiers.now) ≡ true) }
    {
        let last = shape_refusal(kind, modifiers);
        modifiers_refusal(alloc, &self.machine, &self.threads, kind, modifiers, last)
    }
}

/// The thread of the first Step.
fn step_thread(modifiers: &[Modifier]) -> Option<ObjectId>
    ensures { found_thread result ≡ effects.step_thread (map modifier_meaning modifiers.now) }
{
    for modifier in modifiers {
        if let Modifier::Step { thread, .. } = modifier {
            return Some(*thread);
        }
    }
    None
}

/// From where the steps of a new request are measured: where the thread of its Step is.
///
/// # Errors
/// `NoMemory` where an allocation was refused.
pub(crate) fn first_origin<M: Machine>(
    alloc: Global,
    machine: &M,
    modifiers: &[Modifier],
) -> Result<StepOrigin, NoMemory>
    ensures { IfOk result (λ origin. origin_meaning origin
        ≡ effects.first_origin M.meaning machine.now (effects.step_thread
        (map modifier_meaning modifiers.now))) }
{
    match step_thread(modifiers) {
        Some(thread) => origin_of(alloc, machine, thread),
        None => Ok(StepOrigin {
            frames: 0,
            line: None,
        }),
    }
}
