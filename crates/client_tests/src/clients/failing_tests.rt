//! Sessions in which the connection is lost, or what comes is refused.
use crate::asserts::{expect_same, expect_same_for};
use crate::clients::packets::{beginning, push_breakpoint, push_int_reply, push_reply};
use crate::clients::peers::{FakeClient, client};
use jdwp_client::{ClientError, Loss};
use jdwp_command::thread_reference;
use jdwp_debugger::{DebuggerFault, Ticket};
use jdwp_value::ObjectId;
use std::alloc::Global;
use std::process::Abort;

const THREAD: ObjectId = ObjectId(1);

/// The beginning, a breakpoint that suspends its thread, and the answers to two commands.
fn session(rt: &impl Abort, alloc: Global) -> Vec<u8> {
    let mut bytes = beginning(rt, alloc);
    push_breakpoint(rt, &mut bytes, 1, 5);
    push_int_reply(rt, &mut bytes, 2, 1);
    push_reply(rt, &mut bytes, 3, 0);
    bytes
}

/// Behind which of the session's bytes each of four waits has what it waits for: the widths of ids, the event, and the two answers.
const ENDS: [usize; 4] = [45, 99, 114, 125];

/// What the four waits give, one after the other: how many have what they wait for, and the error of the next one.
fn waits(rt: &impl Abort, alloc: Global, client: &mut FakeClient) -> (usize, Option<ClientError>) {
    if let Err(error) = client.attach() {
        return (0, Some(error));
    }
    if let Err(error) = client.wait_for(5) {
        return (1, Some(error));
    }
    let count = thread_reference::suspend_count(alloc, THREAD).expect(rt, "memory");
    if let Err(error) = client.ask(count) {
        return (2, Some(error));
    }
    let resume = thread_reference::resume(alloc, THREAD).expect(rt, "memory");
    if let Err(error) = client.ask(resume) {
        return (3, Some(error));
    }
    (4, None)
}

/// Behind a loss nothing is known, and nobody is held.
fn is_over(rt: &impl Abort, client: &mut FakeClient, note: usize) {
    let state = (
        client.is_open(),
        client.is_held(THREAD),
        client.requests().len(),
    );
    expect_same_for(rt, &state, &(false, false, 0), &note);
    expect_same_for(
        rt,
        &client.next_event().err(),
        &Some(ClientError::Closed),
        &note,
    );
}

#[test]
fn the_input_ends_behind_each_byte(rt: HostRuntime) {
    let alloc = rt.alloc();
    let bytes = session(&rt, alloc);
    expect_same(&rt, &bytes.len(), &125);
    for count in 0..125usize {
        let front = bytes.get(..count).expect(&rt, "so many bytes");
        let mut client = client(&rt, alloc, front, count as u32, 0, 64);
        let had = ENDS.iter().filter(|end| **end <= count).count();
        let lost = Some(ClientError::Lost(Loss::ByRead));
        expect_same_for(&rt, &waits(&rt, alloc, &mut client), &(had, lost), &count);
        is_over(&rt, &mut client, count);
    }
    let mut client = client(&rt, alloc, &bytes, 1, 0, 64);
    expect_same(&rt, &waits(&rt, alloc, &mut client), &(4, None));
}

#[test]
fn each_write_fails(rt: HostRuntime) {
    let alloc = rt.alloc();
    let bytes = session(&rt, alloc);
    let mut last = 0;
    for fails in 1..64u32 {
        let mut client = client(&rt, alloc, &bytes, 3, fails, 64);
        let (had, error) = waits(&rt, alloc, &mut client);
        expect_same_for(&rt, &(had >= last), &true, &fails);
        last = had;
        if had == 4 {
            return;
        }
        expect_same_for(&rt, &error, &Some(ClientError::Lost(Loss::ByWrite)), &fails);
        is_over(&rt, &mut client, fails as usize);
    }
    expect_same(&rt, &last, &4);
}

#[test]
fn a_reply_to_nothing_is_refused(rt: HostRuntime) {
    let alloc = rt.alloc();
    let mut bytes = beginning(&rt, alloc);
    push_breakpoint(&rt, &mut bytes, 1, 5);
    push_reply(&rt, &mut bytes, 77, 0);
    let mut client = client(&rt, alloc, &bytes, 9, 0, 64);
    expect_same(&rt, &client.attach().is_ok(), &true);
    let count = thread_reference::suspend_count(alloc, THREAD).expect(&rt, "memory");
    let fault = ClientError::Fault(DebuggerFault::UnknownReply);
    expect_same(&rt, &client.ask(count).err(), &Some(fault));
    expect_same(&rt, &client.lost(), &[Ticket(1)].as_slice());
    // The event that came before it is still there.
    expect_same(&rt, &client.next_event().is_ok(), &true);
    is_over(&rt, &mut client, 0);
}

#[test]
fn a_client_that_closes_loses_what_waits(rt: HostRuntime) {
    let alloc = rt.alloc();
    let bytes = session(&rt, alloc);
    let mut client = client(&rt, alloc, &bytes, 10, 0, 64);
    expect_same(&rt, &client.attach().is_ok(), &true);
    let count = thread_reference::suspend_count(alloc, THREAD).expect(&rt, "memory");
    expect_same(&rt, &client.send(count).is_ok(), &true);
    client.close();
    expect_same(&rt, &client.lost(), &[Ticket(1)].as_slice());
    is_over(&rt, &mut client, 0);
}
