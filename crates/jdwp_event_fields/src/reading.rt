//! Reading the fields of each kind of event. The function of a kind gives the event with these fields behind the kind byte, and None
//! exactly where they are not those of the kind.
ghost use Rattle.std.specs.Prelude.{◌∷◌, IfOk, IfErr};
ghost use Rattle.jdwp_layout.specs.EventKindNumbers as number;
ghost use Rattle.jdwp_layout.specs.Meanings.{Byte, scalar_meanings};
ghost use Rattle.jdwp_event_fields.specs.Events.{event_says, HasText, IsEvent, ReadAs};

use crate::event::Event;
use crate::scalars::{
    byte_in, field_in, int_in, location_in, object_in, tagged_in, type_in, value_in,
};
use jdwp_layout::{Scalar, event_kinds};
use jdwp_wire::NoMemory;
use std::alloc::Global;

/// The event of this kind with these fields behind the kind byte; None exactly where they are none.
///
/// # Errors
/// `NoMemory` where an allocation was refused, and only where they have a text.
pub(crate) fn of_kind(alloc: Global, kind: u8, fields: &[Scalar]) -> Result<Option<Event>, NoMemory>
    ensures value { IfOk result
        (ReadAs event_says IsEvent (Byte kind ∷ scalar_meanings fields.now)) }
    ensures memory { IfErr result (λ _. HasText (scalar_meanings fields.now)) }
{
    match kind {
        event_kinds::VM_START => Ok(vm_start(fields)),
        event_kinds::SINGLE_STEP => Ok(single_step(fields)),
        event_kinds::BREAKPOINT => Ok(breakpoint(fields)),
        event_kinds::METHOD_ENTRY => Ok(method_entry(fields)),
        event_kinds::METHOD_EXIT => Ok(method_exit(fields)),
        event_kinds::METHOD_EXIT_WITH_RETURN_VALUE => Ok(method_exit_with_return_value(fields)),
        event_kinds::MONITOR_CONTENDED_ENTER => Ok(monitor_contended_enter(fields)),
        event_kinds::MONITOR_CONTENDED_ENTERED => Ok(monitor_contended_entered(fields)),
        event_kinds::MONITOR_WAIT => Ok(monitor_wait(fields)),
        event_kinds::MONITOR_WAITED => Ok(monitor_waited(fields)),
        event_kinds::EXCEPTION => Ok(exception(fields)),
        event_kinds::THREAD_START => Ok(thread_start(fields)),
        event_kinds::THREAD_DEATH => Ok(thread_death(fields)),
        event_kinds::CLASS_PREPARE => class_prepare(alloc, fields),
        event_kinds::CLASS_UNLOAD => class_unload(alloc, fields),
        event_kinds::FIELD_ACCESS => Ok(field_access(fields)),
        event_kinds::FIELD_MODIFICATION => Ok(field_modification(fields)),
        event_kinds::VM_DEATH => Ok(vm_death(fields)),
        _ => Ok(None),
    }
}

fn vm_start(fields: &[Scalar]) -> Option<Event>
    ensures { ReadAs event_says IsEvent (Byte number.VM_START ∷ scalar_meanings fields.now) result }
{
    match fields {
        [Scalar::Int(request), Scalar::ObjectId(thread)] => Some(Event::VmStart {
            request: *request,
            thread: *thread,
        }),
        _ => None,
    }
}

fn single_step(fields: &[Scalar]) -> Option<Event>
    ensures { ReadAs event_says IsEvent (Byte number.SINGLE_STEP ∷ scalar_meanings fields.now) result }
{
    match fields {
        [
            Scalar::Int(request),
            Scalar::ObjectId(thread),
            Scalar::Location(location),
        ] => Some(Event::SingleStep {
            request: *request,
            thread: *thread,
            location: *location,
        }),
        _ => None,
    }
}

fn breakpoint(fields: &[Scalar]) -> Option<Event>
    ensures { ReadAs event_says IsEvent (Byte number.BREAKPOINT ∷ scalar_meanings fields.now) result }
{
    match fields {
        [
            Scalar::Int(request),
            Scalar::ObjectId(thread),
            Scalar::Location(location),
        ] => Some(Event::Breakpoint {
            request: *request,
            thread: *thread,
            location: *location,
        }),
        _ => None,
    }
}

fn method_entry(fields: &[Scalar]) -> Option<Event>
    ensures { ReadAs event_says IsEvent (Byte number.METHOD_ENTRY ∷ scalar_meanings fields.now) result }
{
    match fields {
        [
            Scalar::Int(request),
            Scalar::ObjectId(thread),
            Scalar::Location(location),
        ] => Some(Event::MethodEntry {
            request: *request,
            thread: *thread,
            location: *location,
        }),
        _ => None,
    }
}

fn method_exit(fields: &[Scalar]) -> Option<Event>
    ensures { ReadAs event_says IsEvent (Byte number.METHOD_EXIT ∷ scalar_meanings fields.now) result }
{
    match fields {
        [
            Scalar::Int(request),
            Scalar::ObjectId(thread),
            Scalar::Location(location),
        ] => Some(Event::MethodExit {
            request: *request,
            thread: *thread,
            location: *location,
        }),
        _ => None,
    }
}

fn method_exit_with_return_value(fields: &[Scalar]) -> Option<Event>
    ensures { ReadAs event_says IsEvent (Byte number.METHOD_EXIT_WITH_RETURN_VALUE ∷ scalar_meanings fields.now) result }
{
    match fields {
        [
            Scalar::Int(request),
            Scalar::ObjectId(thread),
            Scalar::Location(location),
            Scalar::Value(value),
        ] => Some(Event::MethodExitWithReturnValue {
            request: *request,
            thread: *thread,
            location: *location,
            value: *value,
        }),
        _ => None,
    }
}

fn monitor_contended_enter(fields: &[Scalar]) -> Option<Event>
    ensures { ReadAs event_says IsEvent (Byte number.MONITOR_CONTENDED_ENTER ∷ scalar_meanings fields.now) result }
{
    match fields {
        [
            Scalar::Int(request),
            Scalar::ObjectId(thread),
            Scalar::TaggedId(object),
            Scalar::Location(location),
        ] => Some(Event::MonitorContendedEnter {
            request: *request,
            thread: *thread,
            object: *object,
            location: *location,
        }),
        _ => None,
    }
}

fn monitor_contended_entered(fields: &[Scalar]) -> Option<Event>
    ensures { ReadAs event_says IsEvent (Byte number.MONITOR_CONTENDED_ENTERED ∷ scalar_meanings fields.now) result }
{
    match fields {
        [
            Scalar::Int(request),
            Scalar::ObjectId(thread),
            Scalar::TaggedId(object),
            Scalar::Location(location),
        ] => Some(Event::MonitorContendedEntered {
            request: *request,
            thread: *thread,
            object: *object,
            location: *location,
        }),
        _ => None,
    }
}

fn monitor_wait(fields: &[Scalar]) -> Option<Event>
    ensures { ReadAs event_says IsEvent (Byte number.MONITOR_WAIT ∷ scalar_meanings fields.now) result }
{
    match fields {
        [
            Scalar::Int(request),
            Scalar::ObjectId(thread),
            Scalar::TaggedId(object),
            Scalar::Location(location),
            Scalar::Long(timeout),
        ] => Some(Event::MonitorWait {
            request: *request,
            thread: *thread,
            object: *object,
            location: *location,
            timeout: *timeout,
        }),
        _ => None,
    }
}

fn monitor_waited(fields: &[Scalar]) -> Option<Event>
    ensures { ReadAs event_says IsEvent (Byte number.MONITOR_WAITED ∷ scalar_meanings fields.now) result }
{
    match fields {
        [
            Scalar::Int(request),
            Scalar::ObjectId(thread),
            Scalar::TaggedId(object),
            Scalar::Location(location),
            Scalar::Boolean(timed_out),
        ] => Some(Event::MonitorWaited {
            request: *request,
            thread: *thread,
            object: *object,
            location: *location,
            timed_out: *timed_out,
        }),
        _ => None,
    }
}

fn exception(fields: &[Scalar]) -> Option<Event>
    ensures { ReadAs event_says IsEvent (Byte number.EXCEPTION ∷ scalar_meanings fields.now) result }
{
    match fields {
        [
            Scalar::Int(request),
            Scalar::ObjectId(thread),
            Scalar::Location(location),
            Scalar::TaggedId(exception),
            Scalar::Location(catch_location),
        ] => Some(Event::Exception {
            request: *request,
            thread: *thread,
            location: *location,
            exception: *exception,
            catch_location: *catch_location,
        }),
        _ => None,
    }
}

fn thread_start(fields: &[Scalar]) -> Option<Event>
    ensures { ReadAs event_says IsEvent (Byte number.THREAD_START ∷ scalar_meanings fields.now) result }
{
    match fields {
        [Scalar::Int(request), Scalar::ObjectId(thread)] => Some(Event::ThreadStart {
            request: *request,
            thread: *thread,
        }),
        _ => None,
    }
}

fn thread_death(fields: &[Scalar]) -> Option<Event>
    ensures { ReadAs event_says IsEvent (Byte number.THREAD_DEATH ∷ scalar_meanings fields.now) result }
{
    match fields {
        [Scalar::Int(request), Scalar::ObjectId(thread)] => Some(Event::ThreadDeath {
            request: *request,
            thread: *thread,
        }),
        _ => None,
    }
}

fn class_prepare(alloc: Global, fields: &[Scalar]) -> Result<Option<Event>, NoMemory>
    ensures value { IfOk result
        (ReadAs event_says IsEvent (Byte number.CLASS_PREPARE ∷ scalar_meanings fields.now)) }
    ensures memory { IfErr result (λ _. HasText (scalar_meanings fields.now)) }
{
    let [request, thread, ref_type_tag, type_id, signature, status] = fields else {
        return Ok(None);
    };
    let Some(request) = int_in(request) else {
        return Ok(None);
    };
    let Some(thread) = object_in(thread) else {
        return Ok(None);
    };
    let Some(ref_type_tag) = byte_in(ref_type_tag) else {
        return Ok(None);
    };
    let Some(type_id) = type_in(type_id) else {
        return Ok(None);
    };
    let Scalar::String(signature) = signature else {
        return Ok(None);
    };
    let Some(status) = int_in(status) else {
        return Ok(None);
    };
    let signature = String::from_str(alloc, signature)?;
    Ok(Some(Event::ClassPrepare {
        request,
        thread,
        ref_type_tag,
        type_id,
        signature,
        status,
    }))
}

fn class_unload(alloc: Global, fields: &[Scalar]) -> Result<Option<Event>, NoMemory>
    ensures value { IfOk result
        (ReadAs event_says IsEvent (Byte number.CLASS_UNLOAD ∷ scalar_meanings fields.now)) }
    ensures memory { IfErr result (λ _. HasText (scalar_meanings fields.now)) }
{
    match fields {
        [Scalar::Int(request), Scalar::String(signature)] => {
            let signature = String::from_str(alloc, signature)?;
            Ok(Some(Event::ClassUnload {
                request: *request,
                signature,
            }))
        }
        _ => Ok(None),
    }
}

fn field_access(fields: &[Scalar]) -> Option<Event>
    ensures { ReadAs event_says IsEvent (Byte number.FIELD_ACCESS ∷ scalar_meanings fields.now)
        result }
{
    let [
        request,
        thread,
        location,
        ref_type_tag,
        type_id,
        field_id,
        object,
    ] = fields
    else {
        return None;
    };
    Some(Event::FieldAccess {
        request: int_in(request)?,
        thread: object_in(thread)?,
        location: location_in(location)?,
        ref_type_tag: byte_in(ref_type_tag)?,
        type_id: type_in(type_id)?,
        field_id: field_in(field_id)?,
        object: tagged_in(object)?,
    })
}

fn field_modification(fields: &[Scalar]) -> Option<Event>
    ensures { ReadAs event_says IsEvent (Byte number.FIELD_MODIFICATION ∷ scalar_meanings fields.now)
        result }
{
    let [
        request,
        thread,
        location,
        ref_type_tag,
        type_id,
        field_id,
        object,
        value_to_be,
    ] = fields
    else {
        return None;
    };
    Some(Event::FieldModification {
        request: int_in(request)?,
        thread: object_in(thread)?,
        location: location_in(location)?,
        ref_type_tag: byte_in(ref_type_tag)?,
        type_id: type_in(type_id)?,
        field_id: field_in(field_id)?,
        object: tagged_in(object)?,
        value_to_be: value_in(value_to_be)?,
    })
}

fn vm_death(fields: &[Scalar]) -> Option<Event>
    ensures { ReadAs event_says IsEvent (Byte number.VM_DEATH ∷ scalar_meanings fields.now) result }
{
    match fields {
        [Scalar::Int(request)] => Some(Event::VmDeath { request: *request }),
        _ => None,
    }
}
