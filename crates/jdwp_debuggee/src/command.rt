//! What a command asks the debuggee to do (JDWP specification, "Protocol Details").
ghost use Rattle.std.specs.Prelude.{◌≡◌, ◌==◌, ◌||◌, ◌∷◌, [], ◌++◌, List, IfOk, IfErr, OnOk, Some, None, true, false};
ghost use Rattle.std.specs.List.{filter_map};
ghost use Rattle.jdwp_layout.specs.Meanings.{entry_meanings, scalar_meanings};
ghost use Rattle.jdwp_action.specs.Actions.{first_object};
ghost use Rattle.jdwp_action.specs.Actions as actions;
ghost use Rattle.jdwp_action.specs.CommandReads.{with_content};
ghost use Rattle.jdwp_debuggee.specs.Askings.{asking, asking_of};
ghost use Rattle.jdwp_debuggee.specs.ActionParts.{thread_asking, other_asking, slots_asking, set_asking, clear_asking};
ghost use Rattle.jdwp_debuggee.specs.RefusalParts.{found_thread};

use jdwp_layout::numbers::{
    ALL_THREADS, CLEAR_ALL_BREAKPOINTS, CLEAR_REQUEST, DISPOSE, EVENT_REQUEST, EXIT, FRAME_COUNT,
    FRAMES, HOLD_EVENTS, ID_SIZES, RELEASE_EVENTS, RESUME, RESUME_THREAD, SET_REQUEST, SET_SLOTS,
    STACK_FRAME, SUSPEND, SUSPEND_COUNT, SUSPEND_THREAD, THREAD_REFERENCE, THREAD_STATUS,
    VIRTUAL_MACHINE,
};
use jdwp_layout::{Data, Datum, Scalar};
use jdwp_machine::Query;
use jdwp_value::{FrameId, ObjectId, Value};
use jdwp_wire::{ErrorCode, NoMemory};
use std::alloc::Global;

/// What a command asks for.
#[derive(Drop)]
pub enum Action {
    /// VirtualMachine.Suspend.
    Suspend,
    /// VirtualMachine.Resume.
    Resume,
    /// VirtualMachine.Dispose.
    Dispose,
    /// VirtualMachine.Exit.
    Exit,
    /// VirtualMachine.HoldEvents.
    HoldEvents,
    /// VirtualMachine.ReleaseEvents.
    ReleaseEvents,
    /// EventRequest.Set.
    SetRequest {
        /// The byte of the event kind.
        kind: u8,
        /// The byte of the suspend policy.
        policy: u8,
        /// The entries of the modifiers' list, in the order sent.
        modifiers: Vec<Vec<Scalar>>,
    },
    /// EventRequest.Clear.
    ClearRequest {
        /// The byte of the event kind.
        kind: u8,
        /// The id of the request.
        id: i32,
    },
    /// EventRequest.ClearAllBreakpoints.
    ClearBreakpoints,
    /// ThreadReference.Suspend.
    SuspendThread(ObjectId),
    /// ThreadReference.Resume.
    ResumeThread(ObjectId),
    /// ThreadReference.SuspendCount.
    SuspendCount(ObjectId),
    /// ThreadReference.Status.
    ThreadStatus(ObjectId),
    /// StackFrame.SetValues.
    SetSlots {
        /// The thread of the frame.
        thread: ObjectId,
        /// The frame.
        frame: FrameId,
        /// Slots with their values, in the order sent.
        values: Vec<(i32, Value)>,
    },
    /// A question about the frames of a thread.
    AskFrames(ObjectId, Query),
    /// Another question about a thread.
    AskThread(ObjectId, Query),
    /// VirtualMachine.AllThreads.
    AllThreads,
    /// VirtualMachine.IDSizes.
    IdSizes,
    /// Any other question, for the machine.
    Ask(Query),
}

/// What a command comes to, before it is carried out.
#[derive(Drop)]
pub enum ParsedCommand {
    /// An action.
    Carries(Action),
    /// It is refused: it is not implemented, or its data do not read.
    Refuses(ErrorCode),
}

/// The object that data begin with.
fn object_in_front(content: &Data) -> Option<ObjectId>
    ensures { found_thread result ≡ first_object content.now }
{
    match content.items() {
        [Datum::One(Scalar::ObjectId(object)), ..] => Some(*object),
        _ => None,
    }
}

/// The slot of an entry of a StackFrame.SetValues, with its value.
fn slot_of(entry: &[Scalar]) -> Option<(i32, Value)>
    ensures { result ≡ actions.slot_of (scalar_meanings entry.now) }
{
    match entry {
        [Scalar::Int(slot), Scalar::Value(value)] => Some((*slot, *value)),
        _ => None,
    }
}

/// The slots of the entries of a StackFrame.SetValues, with their values.
#[tactic(auto, using(std::proofs::lemmas::Grind::common_steps, crate::proofs::Read::slots_more))]
fn slots_of(alloc: Global, entries: &[Vec<Scalar>]) -> Result<Vec<(i32, Value)>, NoMemory>
    ensures { IfOk result (λ slots. slots.items ≡ filter_map actions.slot_of
        (entry_meanings entries.now)) }
{
    let mut slots = Vec::new(alloc);
    for entry in entries {
        if let Some(slot) = slot_of(entry) {
            slots.push(slot)?;
        }
    }
    Ok(slots)
}

/// What a StackFrame.SetValues of this thread asks for.
fn set_slots(alloc: Global, thread: ObjectId, query: Query) -> Result<Action, NoMemory>
    ensures { IfOk result (λ action. asking action ≡ slots_asking thread.0 query) }
{
    if let [
        Datum::One(Scalar::ObjectId(_)),
        Datum::One(Scalar::FrameId(frame)),
        Datum::Many(entries),
    ] = query.content.items()
    {
        return Ok(Action::SetSlots {
            thread,
            frame: *frame,
            values: slots_of(alloc, entries)?,
        });
    }
    Ok(Action::AskFrames(thread, query))
}

/// What a command of ThreadReference or StackFrame that begins with this thread asks for.
fn of_thread(alloc: Global, thread: ObjectId, query: Query) -> Result<Action, NoMemory>
    ensures { IfOk result (λ action. asking action ≡ thread_asking thread.0 query) }
{
    match (query.set, query.number) {
        (THREAD_REFERENCE, SUSPEND_THREAD) => Ok(Action::SuspendThread(thread)),
        (THREAD_REFERENCE, RESUME_THREAD) => Ok(Action::ResumeThread(thread)),
        (THREAD_REFERENCE, SUSPEND_COUNT) => Ok(Action::SuspendCount(thread)),
        (THREAD_REFERENCE, THREAD_STATUS) => Ok(Action::ThreadStatus(thread)),
        (STACK_FRAME, SET_SLOTS) => set_slots(alloc, thread, query),
        (STACK_FRAME, _) | (THREAD_REFERENCE, FRAMES | FRAME_COUNT) => {
            Ok(Action::AskFrames(thread, query))
        }
        _ => Ok(Action::AskThread(thread, query)),
    }
}

/// What an EventRequest.Set asks for.
fn set_request(query: Query) -> Action
    ensures { asking result ≡ set_asking query }
{
    let [
        Datum::One(Scalar::Byte(kind)),
        Datum::One(Scalar::Byte(policy)),
        Datum::Many(_),
    ] = query.content.items()
    else {
        return Action::Ask(query);
    };
    let (kind, policy) = (*kind, *policy);
    match query.content.into_items().pop() {
        Some(Datum::Many(modifiers)) => Action::SetRequest {
            kind,
            policy,
            modifiers,
        },
        _ => unreachable!(),
    }
}

/// What an EventRequest.Clear asks for.
fn clear_request(query: Query) -> Action
    ensures { asking result ≡ clear_asking query }
{
    match query.content.items() {
        [Datum::One(Scalar::Byte(kind)), Datum::One(Scalar::Int(id))] => Action::ClearRequest {
            kind: *kind,
            id: *id,
        },
        _ => Action::Ask(query),
    }
}

/// What a command that is about no thread asks for.
fn of_no_thread(query: Query) -> Action
    ensures { asking result ≡ other_asking query }
{
    match (query.set, query.number) {
        (VIRTUAL_MACHINE, SUSPEND) => Action::Suspend,
        (VIRTUAL_MACHINE, RESUME) => Action::Resume,
        (VIRTUAL_MACHINE, DISPOSE) => Action::Dispose,
        (VIRTUAL_MACHINE, EXIT) => Action::Exit,
        (VIRTUAL_MACHINE, HOLD_EVENTS) => Action::HoldEvents,
        (VIRTUAL_MACHINE, RELEASE_EVENTS) => Action::ReleaseEvents,
        (VIRTUAL_MACHINE, ALL_THREADS) => Action::AllThreads,
        (VIRTUAL_MACHINE, ID_SIZES) => Action::IdSizes,
        (EVENT_REQUEST, SET_REQUEST) => set_request(query),
        (EVENT_REQUEST, CLEAR_REQUEST) => clear_request(query),
        (EVENT_REQUEST, CLEAR_ALL_BREAKPOINTS) => Action::ClearBreakpoints,
        _ => Action::Ask(query),
    }
}

impl Action {
    /// What a command of this set and number asks for that carries these data. Most actions move the data, and take no memory.
    ///
    /// # Errors
    /// `NoMemory` where an allocation was refused, and only where there are data.
    pub fn of_command(alloc: Global, set: u8, number: u8, content: Data) -> Result<Action, NoMemory>
        ensures value { IfOk result (λ action. asking action
            ≡ asking_of (with_content set number content)) }
        ensures memory { IfErr result (λ _. content ≡ [] → ⊥) }
    {
        let thread = if set == THREAD_REFERENCE || set == STACK_FRAME {
            object_in_front(&content)
        } else {
            None
        };
        let query = Query {
            set,
            number,
            content,
        };
        match thread {
            Some(thread) => of_thread(alloc, thread, query),
            None => Ok(of_no_thread(query)),
        }
    }
}
