//! Events by kind (JDWP specification, "Protocol Details": the command Composite of the set Event).
ghost use Rattle.std.specs.Prelude.{◌≡◌, IfOk, IfErr, IsTrue, Some, option_map};
ghost use Rattle.jdwp_event.specs.Told.{event_thread, is_event_of};
ghost use Rattle.jdwp_layout.specs.Meanings.{scalar_meanings};
ghost use Rattle.jdwp_event_fields.specs.Events.{event_request, event_says, HasText, IsEvent, ReadAs};

use crate::reading::of_kind;
use jdwp_event::EventKind;
use jdwp_layout::Scalar;
use jdwp_value::{FieldId, Location, ObjectId, ReferenceTypeId, TaggedId, Value};
use jdwp_wire::NoMemory;
use std::alloc::Global;

/// An event of a composite, by its kind.
///
/// Its fields have the names of the specification. In each kind
///
/// - `request` is the id of the request that reports it; 0 where the target reports it by itself;
/// - `thread` is the thread in which it happened, and `location` the place where;
/// - `ref_type_tag` is whether a type is a class, 1, an interface, 2, or an array, 3, and `type_id` is its id: of the prepared type, or
///   of the type that has the field;
/// - `signature` is the JNI signature of a type.
#[derive(Debug, PartialEq, Drop)]
pub enum Event {
    /// The machine started, in this thread.
    VmStart {
        request: i32,
        thread: ObjectId,
    },
    /// A step is done.
    SingleStep {
        request: i32,
        thread: ObjectId,
        location: Location,
    },
    /// A breakpoint is reached.
    Breakpoint {
        request: i32,
        thread: ObjectId,
        location: Location,
    },
    /// A method is entered; the location is its first one.
    MethodEntry {
        request: i32,
        thread: ObjectId,
        location: Location,
    },
    /// A method is left; the location is its last one that ran.
    MethodExit {
        request: i32,
        thread: ObjectId,
        location: Location,
    },
    /// A method is left with `value`.
    MethodExitWithReturnValue {
        request: i32,
        thread: ObjectId,
        location: Location,
        value: Value,
    },
    /// The thread waits for the monitor of `object`, which another holds.
    MonitorContendedEnter {
        request: i32,
        thread: ObjectId,
        object: TaggedId,
        location: Location,
    },
    /// The thread has the monitor of `object` that it waited for.
    MonitorContendedEntered {
        request: i32,
        thread: ObjectId,
        object: TaggedId,
        location: Location,
    },
    /// The thread begins to wait on the monitor of `object`, for `timeout` milliseconds.
    MonitorWait {
        request: i32,
        thread: ObjectId,
        object: TaggedId,
        location: Location,
        timeout: i64,
    },
    /// The thread has waited on the monitor of `object`; `timed_out` is whether the time ran out.
    MonitorWaited {
        request: i32,
        thread: ObjectId,
        object: TaggedId,
        location: Location,
        timed_out: bool,
    },
    /// `exception` is thrown at `location`, and caught at `catch_location`, which is `Location::Null` where it is not.
    Exception {
        request: i32,
        thread: ObjectId,
        location: Location,
        exception: TaggedId,
        catch_location: Location,
    },
    /// The thread started.
    ThreadStart {
        request: i32,
        thread: ObjectId,
    },
    /// The thread ends.
    ThreadDeath {
        request: i32,
        thread: ObjectId,
    },
    /// A type is prepared, in the state of these `status` bits: 1 verified, 2 prepared, 4 initialized, 8 error.
    ClassPrepare {
        request: i32,
        thread: ObjectId,
        ref_type_tag: u8,
        type_id: ReferenceTypeId,
        signature: String,
        status: i32,
    },
    /// A type is unloaded.
    ClassUnload {
        request: i32,
        signature: String,
    },
    /// The field is read, of `object`, which is of the id 0 for a static field.
    FieldAccess {
        request: i32,
        thread: ObjectId,
        location: Location,
        ref_type_tag: u8,
        type_id: ReferenceTypeId,
        field_id: FieldId,
        object: TaggedId,
    },
    /// The field is written, of `object`, which is of the id 0 for a static field.
    FieldModification {
        request: i32,
        thread: ObjectId,
        location: Location,
        ref_type_tag: u8,
        type_id: ReferenceTypeId,
        field_id: FieldId,
        object: TaggedId,
        value_to_be: Value,
    },
    /// The machine ends.
    VmDeath {
        request: i32,
    },
}

impl Event {
    /// The event with these fields, as `jdwp_event::Event::fields` has them: the kind as a byte, and the fields of that kind. None
    /// exactly where they are none.
    ///
    /// # Errors
    /// `NoMemory` where an allocation was refused, and only where they have a text: in a `ClassPrepare` or a `ClassUnload`.
    pub fn of_fields(alloc: Global, fields: &[Scalar]) -> Result<Option<Event>, NoMemory>
        // Nothing is lost: what is read says just what the fields do.
        ensures value { IfOk result (ReadAs event_says IsEvent (scalar_meanings fields.now)) }
        ensures memory { IfErr result (λ _. HasText (scalar_meanings fields.now)) }
    {
        match fields {
            [Scalar::Byte(kind), rest @ ..] => of_kind(alloc, *kind, rest),
            _ => Ok(None),
        }
    }

    /// Its kind.
    pub fn kind(&self) -> EventKind
        ensures { IsTrue (is_event_of result (event_says self.now)) }
    {
        match self {
            Event::VmStart { .. } => EventKind::VmStart,
            Event::SingleStep { .. } => EventKind::SingleStep,
            Event::Breakpoint { .. } => EventKind::Breakpoint,
            Event::MethodEntry { .. } => EventKind::MethodEntry,
            Event::MethodExit { .. } => EventKind::MethodExit,
            Event::MethodExitWithReturnValue { .. } => EventKind::MethodExitWithReturnValue,
            Event::MonitorContendedEnter { .. } => EventKind::MonitorContendedEnter,
            Event::MonitorContendedEntered { .. } => EventKind::MonitorContendedEntered,
            Event::MonitorWait { .. } => EventKind::MonitorWait,
            Event::MonitorWaited { .. } => EventKind::MonitorWaited,
            Event::Exception { .. } => EventKind::Exception,
            Event::ThreadStart { .. } => EventKind::ThreadStart,
            Event::ThreadDeath { .. } => EventKind::ThreadDeath,
            Event::ClassPrepare { .. } => EventKind::ClassPrepare,
            Event::ClassUnload { .. } => EventKind::ClassUnload,
            Event::FieldAccess { .. } => EventKind::FieldAccess,
            Event::FieldModification { .. } => EventKind::FieldModification,
            Event::VmDeath { .. } => EventKind::VmDeath,
        }
    }

    /// The id of the request that reports it; 0 where the target reports it by itself.
    pub fn request(&self) -> i32
        ensures { event_request (event_says self.now) ≡ Some result }
    {
        match self {
            Event::VmStart { request, .. }
            | Event::SingleStep { request, .. }
            | Event::Breakpoint { request, .. }
            | Event::MethodEntry { request, .. }
            | Event::MethodExit { request, .. }
            | Event::MethodExitWithReturnValue { request, .. }
            | Event::MonitorContendedEnter { request, .. }
            | Event::MonitorContendedEntered { request, .. }
            | Event::MonitorWait { request, .. }
            | Event::MonitorWaited { request, .. }
            | Event::Exception { request, .. }
            | Event::ThreadStart { request, .. }
            | Event::ThreadDeath { request, .. }
            | Event::ClassPrepare { request, .. }
            | Event::ClassUnload { request, .. }
            | Event::FieldAccess { request, .. }
            | Event::FieldModification { request, .. }
            | Event::VmDeath { request, .. } => *request,
        }
    }

    /// The thread in which it happened; None for a `ClassUnload` and a `VmDeath`.
    pub fn thread(&self) -> Option<ObjectId>
        ensures { option_map (λ thread. thread.0) result ≡ event_thread (event_says self.now) }
    {
        match self {
            Event::VmStart { thread, .. }
            | Event::SingleStep { thread, .. }
            | Event::Breakpoint { thread, .. }
            | Event::MethodEntry { thread, .. }
            | Event::MethodExit { thread, .. }
            | Event::MethodExitWithReturnValue { thread, .. }
            | Event::MonitorContendedEnter { thread, .. }
            | Event::MonitorContendedEntered { thread, .. }
            | Event::MonitorWait { thread, .. }
            | Event::MonitorWaited { thread, .. }
            | Event::Exception { thread, .. }
            | Event::ThreadStart { thread, .. }
            | Event::ThreadDeath { thread, .. }
            | Event::ClassPrepare { thread, .. }
            | Event::FieldAccess { thread, .. }
            | Event::FieldModification { thread, .. } => Some(*thread),
            Event::ClassUnload { .. } | Event::VmDeath { .. } => None,
        }
    }
}
