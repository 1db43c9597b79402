//! Commands, answers and events, in any order.
use crate::asserts::{expect_same, expect_same_for};
use crate::clients::packets::{beginning, push_breakpoint, push_int_reply, push_reply};
use crate::clients::peers::{FakeClient, client, request_of};
use jdwp_client::{ClientError, ReplyError, is_surely_suspended};
use jdwp_command::answers::{is_done, one_int};
use jdwp_command::{thread_reference, virtual_machine};
use jdwp_debugger::{Refused, Ticket};
use jdwp_layout::Answer;
use jdwp_value::ObjectId;
use jdwp_wire::ErrorCode;
use std::alloc::Global;
use std::process::Abort;

const THREAD: ObjectId = ObjectId(1);

/// What a client is to send: the handshake, IDSizes under the id 1, and SuspendCount of thread 1 under the id 2.
const SENT: [u8; 44] = [
    0x4a, 0x44, 0x57, 0x50, 0x2d, 0x48, 0x61, 0x6e, 0x64, 0x73, 0x68, 0x61, 0x6b, 0x65, //
    0x00, 0x00, 0x00, 0x0b, 0x00, 0x00, 0x00, 0x01, 0x00, 0x01, 0x07, //
    0x00, 0x00, 0x00, 0x13, 0x00, 0x00, 0x00, 0x02, 0x00, 0x0b, 0x0c, 0x00, 0x00, 0x00, 0x00, 0x00,
    0x00, 0x00, 0x01,
];

/// Asks for the suspend count of thread 1.
fn ask_count(
    rt: &impl Abort,
    alloc: Global,
    client: &mut FakeClient,
) -> Result<Answer, ClientError> {
    let command = thread_reference::suspend_count(alloc, THREAD).expect(rt, "memory");
    client.ask(command)
}

/// The requests of the events that are kept, in order.
fn kept_requests(rt: &impl Abort, alloc: Global, client: &mut FakeClient) -> Vec<Option<i32>> {
    let mut requests = Vec::new(alloc);
    for _ in 0..64u32 {
        match client.try_event() {
            Some(composite) => requests.push(request_of(&composite)).expect(rt, "memory"),
            None => return requests,
        }
    }
    requests
}

#[test]
fn events_that_come_before_an_answer_are_kept_in_order(rt: HostRuntime) {
    let alloc = rt.alloc();
    let mut bytes = beginning(&rt, alloc);
    push_breakpoint(&rt, &mut bytes, 0, 5);
    push_breakpoint(&rt, &mut bytes, 0, 7);
    push_int_reply(&rt, &mut bytes, 2, 3);
    push_breakpoint(&rt, &mut bytes, 0, 9);
    let mut client = client(&rt, alloc, &bytes, 1, 0, 64);
    expect_same(&rt, &client.attach().is_ok(), &true);
    let answer = ask_count(&rt, alloc, &mut client);
    expect_same(
        &rt,
        &answer.ok().and_then(|answer| one_int(&answer)),
        &Some(3),
    );
    expect_same(
        &rt,
        &kept_requests(&rt, alloc, &mut client).as_slice(),
        &[Some(5), Some(7)].as_slice(),
    );
    let next = client
        .next_event()
        .ok()
        .and_then(|composite| request_of(&composite));
    expect_same(&rt, &next, &Some(9));
}

#[test]
fn what_is_asked_is_sent(rt: HostRuntime) {
    let alloc = rt.alloc();
    let mut bytes = beginning(&rt, alloc);
    push_int_reply(&rt, &mut bytes, 2, 3);
    let mut client = client(&rt, alloc, &bytes, 2, 0, 64);
    expect_same(&rt, &client.attach().is_ok(), &true);
    let answer = ask_count(&rt, alloc, &mut client);
    expect_same(&rt, &answer.is_ok(), &true);
    expect_same(&rt, &client.sent(), &Some(Ticket(1)));
    let (_, writer) = Box::into_inner(client).into_pipe().into_parts();
    expect_same(&rt, &writer.bytes.as_slice(), &SENT.as_slice());
}

#[test]
fn the_answer_of_another_ticket_comes_first(rt: HostRuntime) {
    let alloc = rt.alloc();
    let mut bytes = beginning(&rt, alloc);
    push_int_reply(&rt, &mut bytes, 3, 33);
    push_int_reply(&rt, &mut bytes, 4, 44);
    push_int_reply(&rt, &mut bytes, 2, 22);
    let mut client = client(&rt, alloc, &bytes, 3, 0, 64);
    expect_same(&rt, &client.attach().is_ok(), &true);
    for _ in 0..3u32 {
        let command = thread_reference::suspend_count(alloc, THREAD).expect(&rt, "memory");
        expect_same(&rt, &client.send(command).is_ok(), &true);
    }
    for (ticket, count) in [(1, 22), (3, 44), (2, 33)] {
        let answer = client.wait(Ticket(ticket));
        let told = answer.ok().and_then(|answer| one_int(&answer));
        expect_same_for(&rt, &told, &Some(count), &ticket);
    }
    let again = client.wait(Ticket(1)).err();
    expect_same(&rt, &again, &Some(ClientError::NotWaiting(Ticket(1))));
}

#[test]
fn a_reply_is_read_as_a_struct(rt: HostRuntime) {
    let alloc = rt.alloc();
    let mut bytes = beginning(&rt, alloc);
    push_int_reply(&rt, &mut bytes, 2, 3);
    push_reply(&rt, &mut bytes, 3, 10);
    push_int_reply(&rt, &mut bytes, 4, 3);
    let mut client = client(&rt, alloc, &bytes, 5, 0, 64);
    expect_same(&rt, &client.attach().is_ok(), &true);
    let refused = ReplyError::Target(ErrorCode::INVALID_THREAD);
    for wanted in [Ok(3), Err(refused)] {
        let command = thread_reference::suspend_count(alloc, THREAD).expect(&rt, "memory");
        expect_same(&rt, &client.ask_for::<i32>(command), &wanted);
    }
    let command = thread_reference::suspend_count(alloc, THREAD).expect(&rt, "memory");
    let other = client.ask_for::<Vec<ObjectId>>(command).err();
    expect_same(&rt, &other, &Some(ReplyError::Layout));
}

#[test]
fn an_event_of_a_request_is_taken_out_of_others(rt: HostRuntime) {
    let alloc = rt.alloc();
    let mut bytes = beginning(&rt, alloc);
    for request in [5, 7, 9, 7] {
        push_breakpoint(&rt, &mut bytes, 0, request);
    }
    let mut client = client(&rt, alloc, &bytes, 4, 0, 64);
    let found = client
        .wait_for(9)
        .ok()
        .and_then(|composite| request_of(&composite));
    expect_same(&rt, &found, &Some(9));
    let found = client
        .wait_for(7)
        .ok()
        .and_then(|composite| request_of(&composite));
    expect_same(&rt, &found, &Some(7));
    let found = client
        .wait_for(7)
        .ok()
        .and_then(|composite| request_of(&composite));
    expect_same(&rt, &found, &Some(7));
    expect_same(
        &rt,
        &kept_requests(&rt, alloc, &mut client).as_slice(),
        &[Some(5)].as_slice(),
    );
}

#[test]
fn an_error_code_is_an_answer(rt: HostRuntime) {
    let alloc = rt.alloc();
    let mut bytes = beginning(&rt, alloc);
    push_reply(&rt, &mut bytes, 2, 10);
    let mut client = client(&rt, alloc, &bytes, 5, 0, 64);
    expect_same(&rt, &client.attach().is_ok(), &true);
    match ask_count(&rt, alloc, &mut client) {
        Ok(Answer::Error(code)) => expect_same(&rt, &code, &ErrorCode::INVALID_THREAD),
        _ => expect_same(&rt, &"another answer", &"INVALID_THREAD"),
    }
    expect_same(&rt, &client.is_open(), &true);
}

#[test]
fn nothing_is_asked_before_the_widths_of_ids_are_known(rt: HostRuntime) {
    let alloc = rt.alloc();
    let bytes = beginning(&rt, alloc);
    let mut client = client(&rt, alloc, &bytes, 6, 0, 64);
    let early = ask_count(&rt, alloc, &mut client).err();
    expect_same(&rt, &early, &Some(ClientError::Refused(Refused::NotReady)));
    expect_same(&rt, &client.sent(), &None);
    expect_same(&rt, &client.attach().is_ok(), &true);
}

#[test]
fn a_session_that_is_disposed_of_is_over(rt: HostRuntime) {
    let alloc = rt.alloc();
    let mut bytes = beginning(&rt, alloc);
    push_reply(&rt, &mut bytes, 3, 0);
    let mut client = client(&rt, alloc, &bytes, 7, 0, 64);
    expect_same(&rt, &client.attach().is_ok(), &true);
    let suspend = client.send(virtual_machine::suspend(alloc));
    expect_same(&rt, &suspend.ok(), &Some(Ticket(1)));
    let disposed = client
        .dispose()
        .ok()
        .map_or(false, |answer| is_done(&answer));
    expect_same(&rt, &disposed, &true);
    expect_same(&rt, &client.is_open(), &false);
    expect_same(&rt, &client.lost(), &[Ticket(1)].as_slice());
    expect_same(&rt, &client.next_event().err(), &Some(ClientError::Closed));
    expect_same(
        &rt,
        &client.wait(Ticket(1)).err(),
        &Some(ClientError::Closed),
    );
    let late = ask_count(&rt, alloc, &mut client).err();
    expect_same(&rt, &late, &Some(ClientError::Closed));
}

#[test]
fn a_thread_is_surely_suspended_until_a_resume_is_put(rt: HostRuntime) {
    let alloc = rt.alloc();
    let mut bytes = beginning(&rt, alloc);
    push_breakpoint(&rt, &mut bytes, 1, 5);
    push_reply(&rt, &mut bytes, 2, 0);
    let mut client = client(&rt, alloc, &bytes, 8, 0, 64);
    expect_same(&rt, &client.attach().is_ok(), &true);
    expect_same(&rt, &client.wait_for(5).is_ok(), &true);
    let held = is_surely_suspended(client.debugger(), THREAD);
    expect_same(
        &rt,
        &(held, client.is_held(THREAD), client.count(THREAD)),
        &(true, true, 1),
    );
    let resume = thread_reference::resume(alloc, THREAD).expect(&rt, "memory");
    let ticket = client.send(resume).ok();
    expect_same(&rt, &is_surely_suspended(client.debugger(), THREAD), &false);
    expect_same(
        &rt,
        &client.wait(ticket.unwrap_or(Ticket(0))).is_ok(),
        &true,
    );
    expect_same(&rt, &client.is_held(THREAD), &false);
}
