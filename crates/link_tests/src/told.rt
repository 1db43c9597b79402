//! What is told of events, in few words.
use jdwp_debugger::Refused;
use jdwp_event::{Composite, EventKind};
use jdwp_layout::event_kinds::{BREAKPOINT, SINGLE_STEP, THREAD_DEATH};
use jdwp_layout::{Answer, Datum, Scalar};
use jdwp_link::Outcome;
use jdwp_value::{FrameId, Location, MethodId, ObjectId, ReferenceTypeId, TypeTag};

/// What is told of an event.
#[derive(Clone, Copy)]
pub(crate) enum Told {
    Asked(u64),
    Refused(Refused),
    Answered(u64, Reply),
    Lost(u64),
    Seen(Report),
}

/// What a command is answered.
#[derive(Clone, Copy)]
pub(crate) enum Reply {
    /// No data.
    Done,
    /// A number: a suspend count, the id of a request, or the status of a class.
    Number(i32),
    /// A text: the signature of a class.
    Text(&'static str),
    /// Whether it is so: that a method is obsolete.
    Truth(bool),
    /// These threads.
    Threads(&'static [u64]),
    /// One frame, of id 30, at this index of method 20 of class 10.
    OneFrame(u64),
    /// An error of this code.
    Error(u16),
}

/// A composite with one event.
#[derive(Clone, Copy)]
pub(crate) enum Report {
    /// VM_START with this policy, in this thread.
    Began(u8, u64),
    /// VM_DEATH.
    Died,
    /// By a policy and a request: a thread reached a breakpoint, at index 3 of method 20 of class 10.
    Reached(u8, i32, u64),
    /// The same: a thread made a step, to index 0 of that method.
    Stepped(u8, i32, u64),
    /// The same: a thread has run out.
    RanOut(u8, i32, u64),
}

/// What is told as the first session begins: VM_START of thread 1, which suspends nobody.
pub(crate) const BEGUN: Told = Told::Seen(Report::Began(0, 1));

/// Whether it is index `index` of method 20 of class 10.
fn is_index(location: &Location, index: u64) -> bool {
    *location
        == Location::At {
            tag: TypeTag::Class,
            class: ReferenceTypeId(10),
            method: MethodId(20),
            index,
        }
}

/// Whether these are the entries of a list of these threads.
fn are_threads(entries: &[Vec<Scalar>], threads: &[u64]) -> bool {
    if entries.len() != threads.len() {
        return false;
    }
    for (entry, thread) in entries.iter().zip(threads) {
        match entry.as_slice() {
            [Scalar::ObjectId(ObjectId(id))] if *id == *thread => {}
            _ => return false,
        }
    }
    true
}

/// Whether these are the entries of a list of one frame, at this index.
fn is_one_frame(entries: &[Vec<Scalar>], index: u64) -> bool {
    let [entry] = entries else {
        return false;
    };
    match entry.as_slice() {
        [Scalar::FrameId(FrameId(30)), Scalar::Location(location)] => is_index(location, index),
        _ => false,
    }
}

/// Whether this is the data of such a reply.
fn are_data(items: &[Datum], reply: &Reply) -> bool {
    match (items, reply) {
        ([], Reply::Done) => true,
        ([Datum::One(Scalar::Int(found))], Reply::Number(number)) => *found == *number,
        ([Datum::One(Scalar::String(found))], Reply::Text(text)) => found.as_str() == *text,
        ([Datum::One(Scalar::Boolean(found))], Reply::Truth(truth)) => *found == *truth,
        ([Datum::Many(entries)], Reply::Threads(threads)) => {
            are_threads(entries.as_slice(), threads)
        }
        ([Datum::Many(entries)], Reply::OneFrame(index)) => {
            is_one_frame(entries.as_slice(), *index)
        }
        _ => false,
    }
}

/// Whether a command is answered so.
pub(crate) fn is_reply(answer: &Answer, reply: &Reply) -> bool {
    match answer {
        Answer::Data(data) => are_data(data.items(), reply),
        Answer::Error(code) => match reply {
            Reply::Error(number) => code.0 == *number,
            _ => false,
        },
    }
}

/// Whether these are the fields of an event of a kind, by a request, of a thread; they end with its index where it has one.
fn are_fields(fields: &[Scalar], kind: u8, request: i32, thread: u64, at: Option<u64>) -> bool {
    match (fields, at) {
        ([Scalar::Byte(k), Scalar::Int(r), Scalar::ObjectId(t)], None) => {
            *k == kind && *r == request && t.0 == thread
        }
        (
            [
                Scalar::Byte(k),
                Scalar::Int(r),
                Scalar::ObjectId(t),
                Scalar::Location(location),
            ],
            Some(index),
        ) => *k == kind && *r == request && t.0 == thread && is_index(location, index),
        _ => false,
    }
}

/// Whether these are the fields of VM_DEATH.
fn is_death(fields: &[Scalar]) -> bool {
    match fields {
        [Scalar::Byte(kind), Scalar::Int(0)] => *kind == EventKind::VmDeath.byte(),
        _ => false,
    }
}

/// Whether a composite is so reported.
fn is_report(composite: &Composite, report: &Report) -> bool {
    let [event] = composite.events() else {
        return false;
    };
    let fields = event.fields();
    let (policy, is) = match *report {
        Report::Began(policy, thread) => {
            let kind = EventKind::VmStart.byte();
            (policy, are_fields(fields, kind, 0, thread, None))
        }
        Report::Died => (0, is_death(fields)),
        Report::Reached(policy, request, thread) => (
            policy,
            are_fields(fields, BREAKPOINT, request, thread, Some(3)),
        ),
        Report::Stepped(policy, request, thread) => (
            policy,
            are_fields(fields, SINGLE_STEP, request, thread, Some(0)),
        ),
        Report::RanOut(policy, request, thread) => {
            (
                policy,
                are_fields(fields, THREAD_DEATH, request, thread, None),
            )
        }
    };
    is && composite.policy() == policy
}

/// Whether this is told.
fn is_told(outcome: &Outcome, told: &Told) -> bool {
    match (outcome, told) {
        (Outcome::Asked(found), Told::Asked(ticket)) => found.0 == *ticket,
        (Outcome::Refused(found), Told::Refused(refused)) => *found == *refused,
        (Outcome::Answered(found, answer), Told::Answered(ticket, reply)) => {
            found.0 == *ticket && is_reply(answer, reply)
        }
        (Outcome::Lost(found), Told::Lost(ticket)) => found.0 == *ticket,
        (Outcome::Seen(composite), Told::Seen(report)) => is_report(composite, report),
        _ => false,
    }
}

/// Whether exactly this is told, in this order.
pub(crate) fn are_told(outcomes: &[Outcome], told: &[Told]) -> bool {
    if outcomes.len() != told.len() {
        return false;
    }
    for (outcome, one) in outcomes.iter().zip(told) {
        if !is_told(outcome, one) {
            return false;
        }
    }
    true
}
