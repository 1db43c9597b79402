//! A target and a debugger with nothing between them, whose packets' ids are chosen: a link's begin at 1. All of it for any machine.
ghost use Rattle.jdwp_target.specs.Options.{LivesWithin};
ghost use Rattle.jdwp_wire.specs.Limits.{standard_limits};

use crate::acts::{Wanted, command};
use crate::asserts::expect_same;
use crate::told::{Reply, is_reply};
use jdwp_debugger::{Debugger, Head, Read, Ticket};
use jdwp_link::{Memory, Side, deliver};
use jdwp_machine::Machine;
use jdwp_target::{Target, TargetOptions, Turn};
use jdwp_wire::ErrorCode;
use std::alloc::Global;
use std::process::Abort;

/// More bytes than are ever under way here.
const MOST: usize = 512;

/// What is done with both ends, and what comes of it.
#[derive(Clone, Copy)]
pub(crate) enum Move {
    /// The next packet of the debugger has this id, where no command that waits for its reply has it.
    NextId(u32),
    /// A command is asked under this ticket, and this comes of it at the target.
    Asks(Wanted, u64, Turn),
    /// The target releases the command at this place, which has this id, and answers it without an error.
    Releases(usize, u32),
    /// The debugger reads a packet with this id: this answer under this ticket.
    Reads(u32, u64, Reply),
}

/// What the debugger put comes to the target, which handles one message of it.
fn handles<M: Machine + Drop>(
    rt: &impl Abort,
    debugger: &mut Debugger,
    target: &mut Target<M>,
) -> Turn {
    let mut buffer = [0; MOST];
    deliver(
        debugger,
        target,
        &mut Memory::new(),
        Side::Debugger,
        &mut buffer,
    );
    target.turn().expect(rt, "a turn")
}

/// What the target put comes to the debugger, which handles one message of it.
fn reads<M: Machine + Drop>(
    rt: &impl Abort,
    alloc: Global,
    debugger: &mut Debugger,
    target: &mut Target<M>,
) -> Read {
    let mut buffer = [0; MOST];
    deliver(
        target,
        debugger,
        &mut Memory::new(),
        Side::Target,
        &mut buffer,
    );
    debugger.turn(alloc).expect(rt, "a turn")
}

/// Whether a session begins: the handshakes, VM_START and the widths of ids are read.
fn greets<M: Machine + Drop>(
    rt: &impl Abort,
    alloc: Global,
    debugger: &mut Debugger,
    target: &mut Target<M>,
) -> bool {
    if !target.accept() || !debugger.attach() {
        return false;
    }
    for _ in 0..3u32 {
        handles(rt, debugger, target);
        reads(rt, alloc, debugger, target);
    }
    debugger.sizes().is_some()
}

/// Whether a command is asked under this ticket, and this comes of it at the target.
fn asks<M: Machine + Drop>(
    rt: &impl Abort,
    alloc: Global,
    debugger: &mut Debugger,
    target: &mut Target<M>,
    wanted: Wanted,
    ticket: u64,
    turn: Turn,
) -> bool {
    let command = command(alloc, wanted).expect(rt, "memory");
    let is_given = debugger.ask(alloc, command) == Ok(Ticket(ticket));
    is_given && handles(rt, debugger, target) == turn
}

/// Whether the debugger reads a packet with this id, this answer under this ticket.
fn reads_answer<M: Machine + Drop>(
    rt: &impl Abort,
    alloc: Global,
    debugger: &mut Debugger,
    target: &mut Target<M>,
    id: u32,
    ticket: u64,
    reply: &Reply,
) -> bool {
    let is_answer = match reads(rt, alloc, debugger, target) {
        Read::Answered(found, answer) => found.0 == ticket && is_reply(&answer, reply),
        _ => false,
    };
    let has_id = match debugger.last() {
        [Head::Reply { header, .. }] => header.id == id,
        _ => false,
    };
    is_answer && has_id
}

/// Whether this comes of it.
fn comes<M: Machine + Drop>(
    rt: &impl Abort,
    alloc: Global,
    debugger: &mut Debugger,
    target: &mut Target<M>,
    one: &Move,
) -> bool {
    match one {
        Move::NextId(id) => {
            debugger.set_next_id(*id);
            true
        }
        Move::Asks(wanted, ticket, turn) => asks(
            rt, alloc, debugger, target, *wanted, *ticket, *turn,
        ),
        Move::Releases(place, id) => {
            target.release(*place) == Ok(Turn::Replied(*id, ErrorCode::NONE))
        }
        Move::Reads(id, ticket, reply) => reads_answer(
            rt, alloc, debugger, target, *id, *ticket, reply,
        ),
    }
}

/// The place, from 0, of the first of these moves of which something else comes, in a session of these ends in which replies are deferred;
/// None where all is as it is to be.
fn first_wrong<M: Machine + Drop>(
    rt: &impl Abort,
    alloc: Global,
    debugger: &mut Debugger,
    target: &mut Target<M>,
    moves: &[Move],
) -> Option<usize> {
    if !greets(rt, alloc, debugger, target) {
        panic!(rt; "no session begins");
    }
    target.set_deferring(true);
    for (place, one) in moves.iter().enumerate() {
        if !comes(rt, alloc, debugger, target, one) {
            return Some(place);
        }
    }
    None
}

/// A closed target over this machine, on the heap. No thread begins suspended.
fn target_over<M: Machine + Drop>(rt: &impl Abort, alloc: Global, machine: M) -> Box<Target<M>>
    requires { LivesWithin M.meaning standard_limits machine }
{
    let options = TargetOptions::new(false, 65_535).expect(rt, "the count limit is accepted");
    let target = Target::new(alloc, machine, options).expect(rt, "memory");
    Box::new(alloc, target).expect(rt, "memory")
}

/// A closed debugger whose first packet has this id, on the heap.
fn debugger_from(rt: &impl Abort, alloc: Global, first_id: u32) -> Box<Debugger> {
    let debugger = Debugger::with_first_id(alloc, first_id).expect(rt, "memory");
    Box::new(alloc, debugger).expect(rt, "memory")
}

/// Of each of these moves comes what it says, with a debugger whose first packet has this id, and a target over this machine that defers.
pub(crate) fn goes_under_ids<M: Machine + Drop>(
    rt: &impl Abort,
    alloc: Global,
    machine: M,
    first_id: u32,
    moves: &[Move],
)
    requires { LivesWithin M.meaning standard_limits machine }
{
    let mut target = target_over(rt, alloc, machine);
    let mut debugger = debugger_from(rt, alloc, first_id);
    let found = first_wrong(rt, alloc, &mut debugger, &mut target, moves);
    expect_same(rt, &found, &None);
}
