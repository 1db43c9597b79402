//! Sessions of a target whose turns and steps are refused.
use crate::asserts::{expect_at_least, expect_same};
use crate::memory::supply::{Stop, Supply};
use crate::memory::target_lists::{
    A_BREAKPOINT_THAT_COUNTS_REPORTS_ONCE, A_DEATH_IS_REPORTED_BEFORE_THE_END,
    A_STEP_AND_A_BREAKPOINT_REPORT_TOGETHER, A_STEP_INTO_BY_LINE, A_STEP_OVER_BY_LINE,
    EACH_KIND_IS_REPORTED_ONCE, EVENT_REQUESTS_THAT_ARE_REFUSED, FRAMES_OF_A_SUSPENDED_THREAD,
    REQUESTS_ARE_CLEARED_BY_KIND_AND_ID, SLOTS_ARE_WRITTEN_AND_READ, SUSPENDS_AND_RESUMES,
    THE_LAST_END_IS_THE_MACHINES, TWO_BREAKPOINTS_OF_ONE_PLACE_REPORT_TOGETHER,
};
use crate::memory::targets::{Act, Target, done, greet, target};
use std::alloc::Global;
use std::process::Abort;
use test_parts::{ALL_KINDS, MACHINE_A, WITH_A_SLOT};

/// A list of acts over the machine of a script, and how often its calls are refused at least while memory is scarce.
#[derive(Clone, Copy)]
struct Session {
    script: &'static str,
    acts: &'static [Act],
    refusals: u32,
}

fn over(script: &'static str, acts: &'static [Act], refusals: u32) -> Session {
    Session {
        script,
        acts,
        refusals,
    }
}

/// What comes of a list with memory, in words.
fn with_memory(alloc: Global, list: &Session) -> Result<String, Stop> {
    let mut target = target(alloc, list.script)?;
    greet(&mut target);
    done(alloc, &mut target, list.acts, &mut Supply::ample())
}

/// The same, begun anew where a request for memory of the test's own is refused.
fn once_more(alloc: Global, list: &Session) -> Result<String, Stop> {
    match with_memory(alloc, list) {
        Ok(log) => Ok(log),
        Err(_) => with_memory(alloc, list),
    }
}

/// What comes of a list whose calls find nothing at first, and how often they were refused.
fn without_memory(alloc: Global, list: &Session) -> Result<(String, u32), Stop> {
    let mut target = target(alloc, list.script)?;
    greet(&mut target);
    done_without_memory(alloc, &mut target, list.acts)
}

/// The same, done with this target that the handshake greeted.
fn done_without_memory(
    alloc: Global,
    target: &mut Target,
    acts: &[Act],
) -> Result<(String, u32), Stop> {
    let mut supply = Supply::scarce(alloc)?;
    let log = done(alloc, target, acts, &mut supply)?;
    Ok((log, supply.refusals()))
}

/// Of each list comes the same with memory and without.
fn come_without_memory(rt: &impl Abort, alloc: Global, lists: &[Session]) {
    for list in lists {
        let expected = with_memory(alloc, list).expect(rt, "a log");
        let (found, refusals) = without_memory(alloc, list).expect(rt, "a log without memory");
        expect_same(rt, &found, &expected);
        expect_at_least(rt, refusals, list.refusals);
    }
}

/// Of each list comes the same twice, though one request for memory may be refused.
fn bear_one_refusal(rt: &impl Abort, alloc: Global, lists: &[Session]) {
    for list in lists {
        let first = once_more(alloc, list).expect(rt, "a log");
        let second = once_more(alloc, list).expect(rt, "a second log");
        expect_same(rt, &first, &second);
    }
}

fn queries() -> [Session; 4] {
    [
        over(MACHINE_A, &SUSPENDS_AND_RESUMES, 0),
        over(MACHINE_A, &FRAMES_OF_A_SUSPENDED_THREAD, 5),
        over(WITH_A_SLOT, &SLOTS_ARE_WRITTEN_AND_READ, 2),
        over(MACHINE_A, &EVENT_REQUESTS_THAT_ARE_REFUSED, 4),
    ]
}

fn breakpoints() -> [Session; 2] {
    [
        over(MACHINE_A, &TWO_BREAKPOINTS_OF_ONE_PLACE_REPORT_TOGETHER, 3),
        over(MACHINE_A, &A_BREAKPOINT_THAT_COUNTS_REPORTS_ONCE, 2),
    ]
}

fn steps() -> [Session; 3] {
    [
        over(MACHINE_A, &A_STEP_INTO_BY_LINE, 2),
        over(MACHINE_A, &A_STEP_OVER_BY_LINE, 1),
        over(MACHINE_A, &A_STEP_AND_A_BREAKPOINT_REPORT_TOGETHER, 3),
    ]
}

fn ends() -> [Session; 2] {
    [
        over(MACHINE_A, &A_DEATH_IS_REPORTED_BEFORE_THE_END, 2),
        over(MACHINE_A, &THE_LAST_END_IS_THE_MACHINES, 1),
    ]
}

fn requests() -> [Session; 2] {
    [
        over(ALL_KINDS, &EACH_KIND_IS_REPORTED_ONCE, 14),
        over(MACHINE_A, &REQUESTS_ARE_CLEARED_BY_KIND_AND_ID, 6),
    ]
}

#[test]
fn queries_without_memory(rt: HostRuntime) {
    come_without_memory(&rt, rt.alloc(), &queries());
}

#[test]
fn a_list_of_queries_bears_one_refusal(rt: HostRuntime) {
    bear_one_refusal(&rt, rt.alloc(), &queries());
}

#[test]
fn breakpoints_without_memory(rt: HostRuntime) {
    come_without_memory(&rt, rt.alloc(), &breakpoints());
}

#[test]
fn a_list_of_breakpoints_bears_one_refusal(rt: HostRuntime) {
    bear_one_refusal(&rt, rt.alloc(), &breakpoints());
}

#[test]
fn steps_without_memory(rt: HostRuntime) {
    come_without_memory(&rt, rt.alloc(), &steps());
}

#[test]
fn a_list_of_steps_bears_one_refusal(rt: HostRuntime) {
    bear_one_refusal(&rt, rt.alloc(), &steps());
}

#[test]
fn ends_without_memory(rt: HostRuntime) {
    come_without_memory(&rt, rt.alloc(), &ends());
}

#[test]
fn a_list_of_ends_bears_one_refusal(rt: HostRuntime) {
    bear_one_refusal(&rt, rt.alloc(), &ends());
}

#[test]
fn requests_without_memory(rt: HostRuntime) {
    come_without_memory(&rt, rt.alloc(), &requests());
}

#[test]
fn a_list_of_requests_bears_one_refusal(rt: HostRuntime) {
    bear_one_refusal(&rt, rt.alloc(), &requests());
}
