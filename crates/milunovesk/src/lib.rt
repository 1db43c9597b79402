//! The Java Debug Wire Protocol (JDWP, Java SE 11), both ends: all that its users call, under one name.
//!
//! A program that stands on this crate names no other of this repository. docs/USING.md shows a capture, a machine, a target, a debugger and
//! a link in use.
#![tactic(auto)]

pub mod laws;

// Frames, items of data, and limits.
pub use jdwp_wire::{
    BadSize, DataFault, ErrorCode, FrameFault, Header, IdKind, IdSizes, Limits, Next, NextHello,
    NoMemory, PacketKind, PacketRef, Width, Wire, all_or_nothing, next_hello, next_packet,
    next_packet_within, number,
};

// Ids, values and places.
pub use jdwp_value::{
    ArrayRegion, FieldId, FrameId, Location, MethodId, ObjectId, ObjectTag, ReferenceTypeId, Tag,
    TaggedId, TypeTag, Value,
};

// The table of commands and their data.
pub use jdwp_layout::{
    Answer, CommandRow, Data, Datum, Entry, Field, Item, Layout, Layouts, Scalar, event_kinds,
    invocation, layout_of, modifier_kinds, numbers, read, validate, write,
};

// Event requests, and what reports.
pub use jdwp_event::{
    ClassSeen, Composite, Event, EventKind, Happening, Modifier, Occurrence, Place, Policy,
    PreparedClass, Request, RequestId, Requests, StepDepth, StepOrigin, StepSize, ThrownException,
    count_down, gather, matches,
};

// Machines that are debugged.
pub use jdwp_machine::{Machine, Profile, Query};
pub use jdwp_script_machine::ScriptMachine;

// The scripts that describe them, part by part, and their faults.
pub use jdwp_script as scripts;
pub use jdwp_script::ScriptFault;

// What both ends have in common.
pub use jdwp_end::SessionEnd;

// The debuggee's end.
pub use jdwp_debuggee::Settings;
pub use jdwp_target::{SetupFault, Stepped, Target, TargetFault, TargetOptions, Turn};

// The debugger's end.
pub use jdwp_debugger::{
    Carried, Command, Debugger, DebuggerFault, Head, KeptRequest, KeptRequests, Known,
    KnownThreads, Lost, Mirror, NamedThreads, Order, Read, Refused, Ticket,
};
pub use jdwp_mirror::CommandKind;

// The commands that a debugger asks, by name, and their answers; replies and events with their fields by name; data as texts.
pub use jdwp_answer as replies;
pub use jdwp_command as commands;
pub use jdwp_event_fields as events;
pub use jdwp_text as texts;

// Both ends in one process.
pub use jdwp_link::{Link, LinkEvent, Memory, Outcome, Side, Stopped, Way, deliver};

// Captures, whole; and sessions and captures judged as they go on.
pub use jdwp_judge as captures;
pub use jdwp_judge::{check, show};
pub use jdwp_show::{CaptureFault, Sender, Shown, Table, Verdict, composite_line, reply_line};

// Sessions over readers and writers.
pub use jdwp_attach::{
    Attached, LineFault, PlanFault, PlanLine, attach, attach_by_lines, read_plan,
};
pub use jdwp_end::{Ended, Pipe, Streams};
pub use jdwp_engine::{
    Came, LivePipe, LiveStreams, Patience, PatientRead, serve, serve_live, serve_script,
    serve_session,
};

// A client: a debugger that asks, and waits for answers and events; one at an address; and one that keeps frames.
pub use jdwp_client as client;
pub use jdwp_client_port::{ConnectFault, Connection, connect};
pub use jdwp_frames::FrameClient;

// Live sessions: a target whose threads step while a debugger is there.

// Sessions at ports of this machine.
pub use jdwp_port as ports;
