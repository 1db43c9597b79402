//! Commands that wait stay as they were asked while those before them are settled, however many are, and the ids of these are free again.
use crate::asserts::expect_same;
use crate::debuggers::extreme_tests::established;
use jdwp_debugger::{Command, Debugger, Read, Ticket};
use jdwp_layout::{Datum, Scalar};
use jdwp_value::ObjectId;
use std::alloc::Global;
use std::process::Abort;
use test_parts::commands;

/// Asks for the suspend count of the thread that has the ticket's number, under this ticket.
fn asks(rt: &impl Abort, alloc: Global, debugger: &mut Debugger, ticket: u64) -> bool {
    let (set, number) = commands::SUSPEND_COUNT;
    let items = vec![in alloc; Datum::One(Scalar::ObjectId(ObjectId(ticket)))];
    let command = Command::new(set, number, items.expect(rt, "memory"));
    let asked = debugger.ask(alloc, command) == Ok(Ticket(ticket));
    let count = debugger.waiting();
    debugger.leave(count);
    asked
}

/// Whether a reply under this id is the answer under this ticket: the suspend count 0.
fn settles(rt: &impl Abort, alloc: Global, debugger: &mut Debugger, id: u32, ticket: u64) -> bool {
    let id = id.to_be_bytes();
    debugger.feed(&[
        0, 0, 0, 15, id[0], id[1], id[2], id[3], 0x80, 0, 0, 0, 0, 0, 0,
    ]);
    match debugger.turn(alloc).expect(rt, "a turn") {
        Read::Answered(answered, _) => answered == Ticket(ticket),
        _ => false,
    }
}

/// Whether these tickets wait, and no more, each with the command that was asked under it.
fn wait(debugger: &Debugger, tickets: &[u64]) -> bool {
    for (place, ticket) in tickets.iter().enumerate() {
        match debugger.unanswered(place) {
            Some((waiting, command))
                if waiting.0 == *ticket && command.thread() == Some(ObjectId(*ticket)) => {}
            _ => return false,
        }
    }
    debugger.unanswered(tickets.len()).is_none()
}

/// The first ticket as whose answer comes something else is told, where each of the first 600 is answered while three others wait.
fn first_wrong(rt: &impl Abort, alloc: Global, debugger: &mut Debugger) -> Option<u64> {
    // IDSizes has the id 1.
    for id in 2..602u32 {
        let ticket = u64::from(id).saturating_sub(1);
        let next = ticket.saturating_add(1);
        let last = ticket.saturating_add(2);
        let behind = ticket.saturating_add(3);
        let as_told = wait(debugger, &[ticket, next, last])
            && asks(rt, alloc, debugger, behind)
            && settles(rt, alloc, debugger, id, ticket)
            && wait(debugger, &[next, last, behind]);
        if !as_told {
            return Some(ticket);
        }
    }
    None
}

#[test]
fn what_waits_stays_while_600_are_settled(rt: HostRuntime) {
    let mut debugger = established(&rt, rt.alloc());
    for ticket in 1..4u64 {
        expect_same(&rt, &asks(&rt, rt.alloc(), &mut debugger, ticket), &true);
    }
    let found = first_wrong(&rt, rt.alloc(), &mut debugger);
    expect_same(&rt, &found, &None);
    let lost = debugger.lose();
    expect_same(&rt, &lost.as_slice().len(), &3);
    expect_same(&rt, &wait(&debugger, &[]), &true);
}

/// The ids 2 to 4 are given to the first three commands, of which two are settled, and then again: 4, under which the third waits, is passed
/// over.
#[test]
fn ids_of_settled_commands_are_given_again(rt: HostRuntime) {
    let mut debugger = established(&rt, rt.alloc());
    for ticket in 1..4u64 {
        expect_same(&rt, &asks(&rt, rt.alloc(), &mut debugger, ticket), &true);
    }
    let settled = settles(&rt, rt.alloc(), &mut debugger, 2, 1)
        && settles(&rt, rt.alloc(), &mut debugger, 3, 2);
    expect_same(&rt, &settled, &true);
    debugger.set_next_id(3);
    for ticket in 4..6u64 {
        expect_same(&rt, &asks(&rt, rt.alloc(), &mut debugger, ticket), &true);
    }
    expect_same(&rt, &wait(&debugger, &[3, 4, 5]), &true);
    // Ticket 4 has the id 3, and 5 the id 5.
    let again = settles(&rt, rt.alloc(), &mut debugger, 3, 4)
        && settles(&rt, rt.alloc(), &mut debugger, 5, 5);
    expect_same(&rt, &again, &true);
    expect_same(&rt, &wait(&debugger, &[3]), &true);
}
