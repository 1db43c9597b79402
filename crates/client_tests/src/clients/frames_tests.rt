//! Frames that are asked for once between two stops.
use crate::asserts::expect_same_for;
use crate::clients::packets::{
    beginning, push_breakpoint, push_frames_reply, push_int_reply, push_reply,
};
use crate::clients::peers::client;
use jdwp_command::answers::one_list;
use jdwp_command::{stack_frame, thread_reference, virtual_machine};
use jdwp_debugger::{Command, Ticket};
use jdwp_frames::FrameClient;
use jdwp_value::{FrameId, ObjectId};
use std::alloc::Global;
use std::process::Abort;

const THREAD: ObjectId = ObjectId(1);

/// What is asked between two looks at the frames.
#[derive(Clone, Copy, Debug)]
enum Between {
    Count,
    ResumeOther,
    Resume,
    ResumeAll,
    SetValues,
    Exit,
    Lost,
}

fn command(rt: &impl Abort, alloc: Global, between: Between) -> Command {
    match between {
        Between::Count | Between::Lost => thread_reference::suspend_count(alloc, THREAD),
        Between::ResumeOther => thread_reference::resume(alloc, ObjectId(2)),
        Between::Resume => thread_reference::resume(alloc, THREAD),
        Between::ResumeAll => Ok(virtual_machine::resume(alloc)),
        Between::SetValues => stack_frame::set_values(alloc, THREAD, FrameId(7), &[]),
        Between::Exit => virtual_machine::exit(alloc, 0),
    }
    .expect(rt, "memory")
}

/// What a target sends: a stop, the frames, an answer, another stop, the frames again.
fn session(rt: &impl Abort, alloc: Global, between: Between) -> Vec<u8> {
    let mut bytes = beginning(rt, alloc);
    push_breakpoint(rt, &mut bytes, 1, 5);
    push_frames_reply(rt, &mut bytes, 2);
    match between {
        Between::Lost => return bytes,
        Between::Count => push_int_reply(rt, &mut bytes, 3, 1),
        _ => push_reply(rt, &mut bytes, 3, 0),
    }
    push_breakpoint(rt, &mut bytes, 1, 6);
    push_frames_reply(rt, &mut bytes, 4);
    bytes
}

/// What is asked, whether the frames are still true behind it, and behind the next stop which command was the last that was asked for a look
/// at them, where there was one.
const ROWS: [(Between, bool, Option<u64>); 7] = [
    (Between::Count, true, Some(2)),
    (Between::ResumeOther, true, Some(2)),
    (Between::Resume, false, Some(3)),
    (Between::ResumeAll, false, Some(3)),
    (Between::SetValues, false, Some(3)),
    (Between::Exit, false, None),
    (Between::Lost, false, None),
];

#[test]
fn frames_are_asked_for_once_between_two_stops(rt: HostRuntime) {
    let alloc = rt.alloc();
    for (between, stays, asked) in ROWS {
        let bytes = session(&rt, alloc, between);
        let mut client = client(&rt, alloc, &bytes, 1, 0, 64);
        expect_same_for(&rt, &client.attach().is_ok(), &true, &between);
        let client = FrameClient::new(alloc, Box::into_inner(client));
        let mut client = Box::new(alloc, client).expect(&rt, "memory");
        expect_same_for(&rt, &client.wait_for(5).is_ok(), &true, &between);
        for _ in 0..3u32 {
            let left = client.read_frames(THREAD).map(|left| left.is_none());
            expect_same_for(&rt, &left, &Ok(true), &between);
            let count = client
                .frames(THREAD)
                .and_then(|frames| one_list(frames))
                .map(|frames| frames.len());
            expect_same_for(&rt, &count, &Some(1), &between);
            expect_same_for(&rt, &client.client().sent(), &Some(Ticket(1)), &between);
        }
        let answered = client.ask(command(&rt, alloc, between)).is_ok();
        expect_same_for(&rt, &client.is_still_true(THREAD), &stays, &between);
        expect_same_for(&rt, &client.frames(THREAD).is_some(), &stays, &between);
        if let Some(ticket) = asked {
            expect_same_for(&rt, &answered, &true, &between);
            expect_same_for(&rt, &client.wait_for(6).is_ok(), &true, &between);
            let left = client.read_frames(THREAD).map(|left| left.is_none());
            expect_same_for(&rt, &left, &Ok(true), &between);
            expect_same_for(
                &rt,
                &client.client().sent(),
                &Some(Ticket(ticket)),
                &between,
            );
        }
    }
}

/// The answer to a look at frames is left where it is an error, and where the thread was not held as it was asked for.
#[test]
fn frames_are_kept_of_held_threads_alone(rt: HostRuntime) {
    let alloc = rt.alloc();
    for (policy, error, is_left) in [(1, 0, false), (1, 13, true), (0, 0, true), (0, 13, true)] {
        let mut bytes = beginning(&rt, alloc);
        push_breakpoint(&rt, &mut bytes, policy, 5);
        if error == 0 {
            push_frames_reply(&rt, &mut bytes, 2);
        } else {
            push_reply(&rt, &mut bytes, 2, error);
        }
        let mut client = client(&rt, alloc, &bytes, 1, 0, 64);
        expect_same_for(&rt, &client.attach().is_ok(), &true, &policy);
        let client = FrameClient::new(alloc, Box::into_inner(client));
        let mut client = Box::new(alloc, client).expect(&rt, "memory");
        expect_same_for(&rt, &client.wait_for(5).is_ok(), &true, &policy);
        let left = client.read_frames(THREAD).map(|left| left.is_some());
        expect_same_for(&rt, &left, &Ok(is_left), &(policy, error));
        expect_same_for(
            &rt,
            &client.frames(THREAD).is_none(),
            &is_left,
            &(policy, error),
        );
    }
}
