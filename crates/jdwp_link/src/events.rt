//! What happens to a link, one thing at a time, and what is told of it.
use jdwp_debugger::{Command, Refused, Ticket};
use jdwp_event::Composite;
use jdwp_layout::Answer;
use jdwp_value::ObjectId;

/// One thing that happens to a link.
#[derive(Debug, Drop)]
pub enum LinkEvent {
    /// A new session begins, where both ends are closed, no ticket waits and the machine lives. Nothing is under way but the debugger's
    /// handshake.
    Attach,
    /// The debugger is asked to send a command.
    Ask(Command),
    /// At most so many of the bytes under way come to the target, as many as it has room for.
    ToTarget(usize),
    /// At most so many of the bytes under way come to the debugger, as many as it has room for.
    ToDebugger(usize),
    /// The target handles the message at the front of what came to it, if it is whole, or defers the reply.
    TargetTurn,
    /// The debugger handles the message at the front of what came to it, if it is whole.
    DebuggerTurn,
    /// A thread makes a step, if it may make one.
    Step(ObjectId),
    /// The target notices that the connection is lost. What it had put stays under way; what it deferred is never answered.
    TargetLoses,
    /// The debugger notices that the connection is lost. What it had put stays under way.
    DebuggerLoses,
    /// From now on the target defers the replies to commands of the sets ReferenceType and Method, at most 16 at a time, or it answers each
    /// at once, as before the first of these events. What is deferred stays so.
    Defer(bool),
    /// The target answers the deferred command at this place, 0 for the oldest, by the debuggee as it is now, where one is deferred there
    /// and the target is not paused.
    Release(usize),
}

/// What is told of an event.
#[derive(Debug, Drop)]
pub enum Outcome {
    /// A command was sent under this ticket.
    Asked(Ticket),
    /// A command was not sent.
    Refused(Refused),
    /// The command of this ticket was answered.
    Answered(Ticket, Answer),
    /// The command of this ticket will never be answered.
    Lost(Ticket),
    /// A composite was read.
    Seen(Composite),
}

/// A run of events met want of memory.
#[derive(Debug, Drop)]
pub struct Stopped {
    /// How many events were done before the one that met it.
    pub event: usize,
    /// What was told of them, in order.
    pub outcomes: Vec<Outcome>,
}
