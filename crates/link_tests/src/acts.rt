//! What is done with a link, in few words, and the events that it is.
use crate::memory::supply::Stop;
use jdwp_debugger::Command;
use jdwp_layout::{layout_of, numbers, read};
use jdwp_link::LinkEvent;
use jdwp_value::ObjectId;
use jdwp_wire::IdSizes;
use std::alloc::Global;
use test_parts::commands;

/// More bytes than are ever under way here.
pub(crate) const ALL: usize = 65_536;

/// A command.
#[derive(Clone, Copy)]
pub(crate) enum Wanted {
    /// VirtualMachine's of this number, without data.
    OfMachine(u8),
    /// VirtualMachine.Exit.
    Exit,
    /// ThreadReference's of this number, on a thread.
    OfThread(u8, u64),
    /// ReferenceType's of this number, on a class.
    OfClass(u8, u64),
    /// Method.IsObsolete of method 20 of class 10.
    IsObsolete,
    /// ThreadReference.Frames: all of a thread.
    FramesOf(u8),
    /// EventRequest.Set with this policy: breakpoints at index 3.
    Breakpoint(u8),
    /// The same, reported the second time that it is reached.
    SecondBreakpoint(u8),
    /// EventRequest.Set with this policy: deaths of threads.
    Deaths(u8),
    /// EventRequest.Set with this policy: each step of this thread.
    StepsOf(u8, u8),
    /// EventRequest.Clear of the breakpoint under this id.
    Clear(i32),
    /// ThreadReference.Frames without data, which is none.
    Unfit,
}

/// What is done with a link.
#[derive(Clone, Copy)]
pub(crate) enum Act {
    Attach,
    Ask(Wanted),
    ToTarget(usize),
    ToDebugger(usize),
    TargetTurn,
    DebuggerTurn,
    Step(u64),
    TargetLoses,
    DebuggerLoses,
    Defer(bool),
    Release(usize),
    /// A command is asked, comes, and is handled or deferred.
    Give(Wanted),
    /// What the target put comes, and one message of it is read.
    Read,
    /// A command is asked and handled, and its reply is read.
    Round(Wanted),
    /// A session begins: both handshakes, and the reply to IDSizes. In the first session VM_START comes before it.
    Greet,
}

/// The command whose data are these bytes, where ids have 8.
fn of_bytes(alloc: Global, (set, number): (u8, u8), data: &[u8]) -> Result<Command, Stop> {
    let (Some(row), Ok(sizes)) = (layout_of(set, number), IdSizes::new(8, 8, 8, 8, 8)) else {
        return Err(Stop::Script);
    };
    let Some(layouts) = row.layouts else {
        return Err(Stop::Script);
    };
    match read(alloc, &layouts.request, &sizes, data) {
        Ok(items) => Ok(Command::new(set, number, items)),
        Err(_) => Err(Stop::NoMemory),
    }
}

/// EventRequest.Set with this policy.
fn request(alloc: Global, wanted: Wanted) -> Result<Command, Stop> {
    let set = commands::SET_REQUEST;
    match wanted {
        Wanted::Breakpoint(policy) => of_bytes(
            alloc,
            set,
            &[
                2, policy, 0, 0, 0, 1, 7, 1, 0, 0, 0, 0, 0, 0, 0, 10, 0, 0, 0, 0, 0, 0, 0, 20, 0,
                0, 0, 0, 0, 0, 0, 3,
            ],
        ),
        Wanted::SecondBreakpoint(policy) => of_bytes(
            alloc,
            set,
            &[
                2, policy, 0, 0, 0, 2, 7, 1, 0, 0, 0, 0, 0, 0, 0, 10, 0, 0, 0, 0, 0, 0, 0, 20, 0,
                0, 0, 0, 0, 0, 0, 3, 1, 0, 0, 0, 2,
            ],
        ),
        Wanted::StepsOf(thread, policy) => of_bytes(
            alloc,
            set,
            &[
                1, policy, 0, 0, 0, 1, 10, 0, 0, 0, 0, 0, 0, 0, thread, 0, 0, 0, 0, 0, 0, 0, 0,
            ],
        ),
        Wanted::Deaths(policy) => of_bytes(alloc, set, &[7, policy, 0, 0, 0, 0]),
        _ => Err(Stop::Script),
    }
}

/// The command that is wanted.
pub(crate) fn command(alloc: Global, wanted: Wanted) -> Result<Command, Stop> {
    match wanted {
        Wanted::OfMachine(number) => of_bytes(alloc, (numbers::VIRTUAL_MACHINE, number), &[]),
        Wanted::Exit => of_bytes(alloc, commands::EXIT, &[0, 0, 0, 0]),
        Wanted::OfThread(number, thread) => of_bytes(
            alloc,
            (numbers::THREAD_REFERENCE, number),
            &thread.to_be_bytes(),
        ),
        Wanted::OfClass(number, class) => of_bytes(
            alloc,
            (numbers::REFERENCE_TYPE, number),
            &class.to_be_bytes(),
        ),
        Wanted::IsObsolete => of_bytes(
            alloc,
            commands::IS_OBSOLETE,
            &[0, 0, 0, 0, 0, 0, 0, 10, 0, 0, 0, 0, 0, 0, 0, 20],
        ),
        Wanted::FramesOf(thread) => of_bytes(
            alloc,
            commands::FRAMES,
            &[0, 0, 0, 0, 0, 0, 0, thread, 0, 0, 0, 0, 255, 255, 255, 255],
        ),
        Wanted::Clear(id) => {
            let [first, second, third, last] = id.to_be_bytes();
            let data = [2, first, second, third, last];
            of_bytes(alloc, commands::CLEAR_REQUEST, &data)
        }
        Wanted::Unfit => {
            let (set, number) = commands::FRAMES;
            Ok(Command::new(set, number, Vec::new(alloc)))
        }
        _ => request(alloc, wanted),
    }
}

/// Appends a command that is asked.
fn push_ask(alloc: Global, wanted: Wanted, events: &mut Vec<LinkEvent>) -> Result<(), Stop> {
    let command = command(alloc, wanted)?;
    events.push(LinkEvent::Ask(command))?;
    Ok(())
}

/// What the debugger put comes and is handled.
const HANDLING: [Act; 2] = [Act::ToTarget(ALL), Act::TargetTurn];

/// What the target put comes, and one message of it is read.
const READING: [Act; 2] = [Act::ToDebugger(ALL), Act::DebuggerTurn];

/// The first, and then the second.
const EXCHANGE: [Act; 4] = [
    Act::ToTarget(ALL),
    Act::TargetTurn,
    Act::ToDebugger(ALL),
    Act::DebuggerTurn,
];

/// What begins a session.
const GREETING: [Act; 10] = [
    Act::Attach,
    Act::ToTarget(ALL),
    Act::TargetTurn,
    Act::ToDebugger(ALL),
    Act::DebuggerTurn,
    Act::DebuggerTurn,
    Act::ToTarget(ALL),
    Act::TargetTurn,
    Act::ToDebugger(ALL),
    Act::DebuggerTurn,
];

/// The events of these acts.
pub(crate) fn events_of(alloc: Global, acts: &[Act]) -> Result<Vec<LinkEvent>, Stop> {
    let mut events = Vec::new(alloc);
    for act in acts {
        push_events(alloc, act, &mut events)?;
    }
    Ok(events)
}

/// The event that an act is, which is one and asks nothing.
fn event_of(act: &Act) -> Option<LinkEvent> {
    match *act {
        Act::Attach => Some(LinkEvent::Attach),
        Act::ToTarget(count) => Some(LinkEvent::ToTarget(count)),
        Act::ToDebugger(count) => Some(LinkEvent::ToDebugger(count)),
        Act::TargetTurn => Some(LinkEvent::TargetTurn),
        Act::DebuggerTurn => Some(LinkEvent::DebuggerTurn),
        Act::Step(thread) => Some(LinkEvent::Step(ObjectId(thread))),
        Act::TargetLoses => Some(LinkEvent::TargetLoses),
        Act::DebuggerLoses => Some(LinkEvent::DebuggerLoses),
        Act::Defer(deferring) => Some(LinkEvent::Defer(deferring)),
        Act::Release(place) => Some(LinkEvent::Release(place)),
        _ => None,
    }
}

/// Appends the events that acts are, each of which is one and asks nothing.
fn push_plain(acts: &[Act], events: &mut Vec<LinkEvent>) -> Result<(), Stop> {
    for act in acts {
        if let Some(event) = event_of(act) {
            events.push(event)?;
        }
    }
    Ok(())
}

/// Appends a command that is asked, and then the events that these acts are.
fn push_asked(
    alloc: Global,
    wanted: Wanted,
    behind: &[Act],
    events: &mut Vec<LinkEvent>,
) -> Result<(), Stop> {
    push_ask(alloc, wanted, events)?;
    push_plain(behind, events)
}

/// Appends the events that an act is.
pub(crate) fn push_events(
    alloc: Global,
    act: &Act,
    events: &mut Vec<LinkEvent>,
) -> Result<(), Stop> {
    match *act {
        Act::Ask(wanted) => push_ask(alloc, wanted, events),
        Act::Give(wanted) => push_asked(alloc, wanted, &HANDLING, events),
        Act::Round(wanted) => push_asked(alloc, wanted, &EXCHANGE, events),
        Act::Read => push_plain(&READING, events),
        Act::Greet => push_plain(&GREETING, events),
        one => push_plain(&[one], events),
    }
}
