//! Worked sessions, line by line, and their events in one run and in two.
use crate::asserts::expect_same_for;
use crate::machine_a::{go_on_a, stands_on_a};
use crate::sessions::{Session, Standing, events_of, session, told_in};
use crate::told::Told;
use crate::worked::{
    COUNTED, CROSSED, DISPOSED, ENDED_UNSEEN, FRAMES_AGAIN, HELD_EVENTS, LOST_TWICE,
    LOST_WITH_COUNTS, LOST_WITH_REPLIES, REPORTED_DEATH, TARGET_LOST_TWICE,
};
use jdwp_link::LinkEvent;
use std::alloc::Global;
use std::process::Abort;

/// The worked sessions.
fn worked() -> [Session; 11] {
    [
        session("a counted breakpoint reports once", &COUNTED),
        session("a suspend alone holds nobody", &ENDED_UNSEEN),
        session("an event counts before the suspend it crossed", &CROSSED),
        session("frames of a suspended thread are read again", &FRAMES_AGAIN),
        session(
            "replies under way are read behind a loss at the target",
            &LOST_WITH_REPLIES,
        ),
        session(
            "commands under way are handled behind a loss at the debugger",
            &LOST_WITH_COUNTS,
        ),
        session("a second loss at the debugger drops nothing", &LOST_TWICE),
        session(
            "a second loss at the target drops nothing",
            &TARGET_LOST_TWICE,
        ),
        session("held events stop threads", &HELD_EVENTS),
        session(
            "a reported death holds until the thread is resumed",
            &REPORTED_DEATH,
        ),
        session("what waits behind dispose is lost", &DISPOSED),
    ]
}

#[test]
fn worked_sessions_go_as_told(rt: HostRuntime) {
    go_on_a(&rt, rt.alloc(), &worked());
}

/// The first place at which a cut makes a difference; None where no cut does.
fn first_cut(rt: &impl Abort, alloc: Global, events: &[LinkEvent], told: &[Told]) -> Option<usize> {
    let whole: Option<Standing> = stands_on_a(rt, alloc, events, 0, told);
    if whole.is_none() {
        return Some(0);
    }
    for cut in 1..events.len() {
        if stands_on_a(rt, alloc, events, cut, told) != whole {
            return Some(cut);
        }
    }
    None
}

/// One run of each session's events tells what the lines say, and leaves what two runs leave, wherever they are cut.
pub(crate) fn are_the_same_cut(rt: &impl Abort, alloc: Global, sessions: &[Session]) {
    for (name, lines) in sessions {
        let events = events_of(rt, alloc, lines);
        let told = told_in(rt, alloc, lines);
        let found = first_cut(rt, alloc, &events, &told);
        expect_same_for(rt, &found, &None, name);
    }
}

#[test]
fn worked_sessions_in_two_runs(rt: HostRuntime) {
    are_the_same_cut(&rt, rt.alloc(), &worked());
}
