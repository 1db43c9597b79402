//! More events than are kept.
use crate::asserts::{expect_same, expect_same_for};
use crate::clients::packets::{beginning, push_breakpoint, push_int_reply};
use crate::clients::peers::{FakeClient, client, request_of};
use jdwp_client::ClientError;
use jdwp_command::answers::one_int;
use jdwp_command::thread_reference;
use jdwp_value::ObjectId;
use std::process::Abort;

const EVENTS: i32 = 10_000;

/// Takes all events that are kept, which are of the requests from this one on, and gives the request of the next one.
fn take_kept(rt: &impl Abort, client: &mut FakeClient, from: i32) -> i32 {
    let mut next = from;
    for _ in 0..EVENTS {
        match client.try_event() {
            Some(composite) => expect_same(rt, &request_of(&composite), &Some(next)),
            None => return next,
        }
        next = next.wrapping_add(1);
    }
    next
}

#[test]
fn many_events_come_before_an_answer(rt: HostRuntime) {
    let alloc = rt.alloc();
    let mut bytes = beginning(&rt, alloc);
    for request in 0..EVENTS {
        push_breakpoint(&rt, &mut bytes, 0, request);
    }
    push_int_reply(&rt, &mut bytes, 2, 3);
    let mut client = client(&rt, alloc, &bytes, 1, 0, 1_000);
    expect_same(&rt, &client.attach().is_ok(), &true);
    let command = thread_reference::suspend_count(alloc, ObjectId(1)).expect(&rt, "memory");
    let ticket = client.send(command).expect(&rt, "it is put");
    let mut next = 0;
    // With 997 kept there is no room for four more.
    for full in 1..11i32 {
        expect_same(
            &rt,
            &client.wait(ticket).err(),
            &Some(ClientError::TooManyEvents),
        );
        next = take_kept(&rt, &mut client, next);
        expect_same_for(&rt, &next, &997i32.saturating_mul(full), &full);
    }
    let answer = client.wait(ticket).ok().and_then(|answer| one_int(&answer));
    expect_same(&rt, &answer, &Some(3));
    expect_same(&rt, &take_kept(&rt, &mut client, next), &EVENTS);
    expect_same(&rt, &client.is_open(), &true);
}
