//! What commands ask and packets tell, and which packets no target may send.
use crate::asserts::expect_same;
use crate::debuggers::mirror_tests::{event, event_of_none, of_thread, plain, with_int};
use jdwp_event::{Composite, EventKind, has_event_of};
use jdwp_layout::{Answer, Data, Datum, Scalar};
use jdwp_mirror::{CommandKind, Mirror, is_bad_answer, is_bad_composite, widths_in_answer};
use jdwp_wire::IdSizes;
use std::alloc::Global;
use std::process::Abort;
use test_parts::commands;

/// Whether a suspend count of thread 1 is bad.
fn is_bad_count(rt: &impl Abort, alloc: Global, count: i32) -> bool {
    let command = of_thread(rt, alloc, commands::SUSPEND_COUNT, 1);
    let answer = with_int(rt, alloc, count);
    is_bad_answer(&command, &answer)
}

#[test]
fn a_negative_count_is_bad(rt: HostRuntime) {
    expect_same(&rt, &is_bad_count(&rt, rt.alloc(), -1), &true);
    expect_same(&rt, &is_bad_count(&rt, rt.alloc(), 2), &false);
}

#[test]
fn a_suspended_thread_reports_nothing(rt: HostRuntime) {
    // A thread starts, and is suspended by the event's policy.
    let started = event(&rt, rt.alloc(), 6, 1, 1);
    let found = is_bad_then_again(&rt, rt.alloc(), &started);
    expect_same(&rt, &found, &(false, true));
}

/// Whether the composite is bad at an empty mirror, and once this has learnt it.
fn is_bad_then_again(rt: &impl Abort, alloc: Global, composite: &Composite) -> (bool, bool) {
    let mut mirror = Mirror::new(alloc);
    let first = is_bad_composite(&mirror, composite);
    mirror.learn_composite(composite).expect(rt, "memory");
    (first, is_bad_composite(&mirror, composite))
}

#[test]
fn what_is_asked(rt: HostRuntime) {
    expect_same(
        &rt,
        &plain(rt.alloc(), commands::DISPOSE).kind(),
        &CommandKind::Dispose,
    );
}

#[test]
fn a_copied_command_asks_the_same(rt: HostRuntime) {
    let command = of_thread(&rt, rt.alloc(), commands::SUSPEND_COUNT, 5);
    let copy = command.copied(rt.alloc()).expect(&rt, "memory");
    expect_same(&rt, &(copy.set(), copy.number()), &(11, 12));
    expect_same(&rt, &copy.kind(), &CommandKind::SuspendCount);
}

#[test]
fn what_is_told(rt: HostRuntime) {
    let death = event_of_none(&rt, rt.alloc(), 99);
    expect_same(&rt, &has_event_of(&death, EventKind::VmDeath), &true);
    expect_same(&rt, &has_event_of(&death, EventKind::ThreadDeath), &false);
}

#[test]
fn widths_of_ids(rt: HostRuntime) {
    let widths = vec![in rt.alloc();
        Datum::One(Scalar::Int(1)),
        Datum::One(Scalar::Int(2)),
        Datum::One(Scalar::Int(3)),
        Datum::One(Scalar::Int(4)),
        Datum::One(Scalar::Int(5)),
    ]
    .expect(&rt, "memory");
    let told = widths_in_answer(&Answer::Data(Data::new(widths)));
    expect_same(&rt, &told, &IdSizes::new(1, 2, 3, 4, 5).ok());
}
