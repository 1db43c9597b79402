//! Deferred replies: in which order they come, what drops them, and that a thread that is held stays so.
use crate::acts::Wanted;
use crate::deferred::{
    AS_IT_IS_THEN, CEASES, DISPOSED_WHILE_DEFERRED, ENDED_WHILE_DEFERRED, EXITED_WHILE_DEFERRED,
    FRAMES_BETWEEN, HELD_WHILE_DEFERRED, IN_THE_ORDER_ASKED, LOST_AT_DEBUGGER, LOST_AT_TARGET,
    NEWEST_FIRST, NO_SUCH_PLACE, OLDEST_FIRST, PAUSED, SEVENTEEN,
};
use crate::ends::{Move, goes_under_ids};
use crate::loss_tests::is_lost_anywhere;
use crate::losses::WAYS;
use crate::machine_a::go_on_a;
use crate::sessions::{Session, goes_as_told, session};
use crate::spinning::Spinning;
use crate::told::Reply;
use crate::worked_tests::are_the_same_cut;
use jdwp_layout::numbers::{ALL_THREADS, CLASS_STATUS, SIGNATURE};
use jdwp_script_machine::ScriptMachine;
use jdwp_target::Turn;
use jdwp_wire::ErrorCode;
use test_parts::{ALL_KINDS, MACHINE_A};

/// Sessions with deferred replies.
fn deferred() -> [Session; 13] {
    [
        session("the newest is answered first", &NEWEST_FIRST),
        session("the oldest is answered first", &OLDEST_FIRST),
        session(
            "replies come in the order asked where none is deferred",
            &IN_THE_ORDER_ASKED,
        ),
        session("what is deferred stays so where no more is", &CEASES),
        session("a loss at the target drops them", &LOST_AT_TARGET),
        session(
            "a loss at the debugger leaves them to the target",
            &LOST_AT_DEBUGGER,
        ),
        session("dispose drops them", &DISPOSED_WHILE_DEFERRED),
        session("exit drops them", &EXITED_WHILE_DEFERRED),
        session(
            "the end of the last thread drops them",
            &ENDED_WHILE_DEFERRED,
        ),
        session("frames are the same around a release", &FRAMES_BETWEEN),
        session(
            "a held thread is suspended while replies are deferred",
            &HELD_WHILE_DEFERRED,
        ),
        session("the seventeenth is answered at once", &SEVENTEEN),
        session("a release of nothing does nothing", &NO_SUCH_PLACE),
    ]
}

#[test]
fn sessions_that_defer_go_as_told(rt: HostRuntime) {
    go_on_a(&rt, rt.alloc(), &deferred());
}

#[test]
fn a_command_is_answered_as_the_machine_is_then(rt: HostRuntime) {
    let alloc = rt.alloc();
    let machine = ScriptMachine::read(alloc, ALL_KINDS).expect(&rt, "the script is read");
    goes_as_told(&rt, alloc, machine, &AS_IT_IS_THEN);
}

#[test]
fn a_paused_target_releases_nothing(rt: HostRuntime) {
    let alloc = rt.alloc();
    let machine = Spinning::new(alloc).expect(&rt, "memory");
    goes_as_told(&rt, alloc, machine, &PAUSED);
}

/// Those of them that are cut in two.
fn cut() -> [Session; 5] {
    [
        ("the newest is answered first", NEWEST_FIRST.as_slice()),
        ("a loss at the target drops them", LOST_AT_TARGET.as_slice()),
        (
            "a loss at the debugger leaves them to the target",
            LOST_AT_DEBUGGER.as_slice(),
        ),
        ("exit drops them", EXITED_WHILE_DEFERRED.as_slice()),
        (
            "a held thread is suspended while replies are deferred",
            HELD_WHILE_DEFERRED.as_slice(),
        ),
    ]
}

/// One run of each of these sessions leaves what two runs leave, wherever they are cut.
#[test]
fn deferred_replies_in_two_runs(rt: HostRuntime) {
    are_the_same_cut(&rt, rt.alloc(), &cut());
}

/// A session that defers is lost after each byte, at either end first, and begun anew.
#[test]
fn a_session_that_defers_is_lost_anywhere(rt: HostRuntime) {
    for way in WAYS.iter() {
        is_lost_anywhere(&rt, rt.alloc(), &NEWEST_FIRST, way);
    }
}

/// IDSizes has the id 2^32 - 2. Three commands are deferred under the ids behind it, which no other gets as long as they wait: the fourth has
/// the next free one, and the fifth that of the one that was answered.
static ACROSS_THE_WRAP: [Move; 16] = [
    Move::Asks(
        Wanted::OfClass(SIGNATURE, 10),
        1,
        Turn::Deferred(4_294_967_295),
    ),
    Move::Asks(Wanted::OfClass(CLASS_STATUS, 10), 2, Turn::Deferred(0)),
    Move::Asks(Wanted::IsObsolete, 3, Turn::Deferred(1)),
    Move::NextId(4_294_967_295),
    Move::Asks(
        Wanted::OfMachine(ALL_THREADS),
        4,
        Turn::Replied(2, ErrorCode::NONE),
    ),
    Move::Reads(2, 4, Reply::Threads(&[1, 2])),
    Move::Releases(1, 0),
    Move::Reads(0, 2, Reply::Number(3)),
    Move::NextId(4_294_967_295),
    Move::Asks(Wanted::OfClass(SIGNATURE, 10), 5, Turn::Deferred(0)),
    Move::Releases(1, 1),
    Move::Releases(1, 0),
    Move::Releases(0, 4_294_967_295),
    Move::Reads(1, 3, Reply::Truth(false)),
    Move::Reads(0, 5, Reply::Text("LMain;")),
    Move::Reads(4_294_967_295, 1, Reply::Text("LMain;")),
];

#[test]
fn ids_wrap_while_replies_are_deferred(rt: HostRuntime) {
    let alloc = rt.alloc();
    let machine = ScriptMachine::read(alloc, MACHINE_A).expect(&rt, "the script is read");
    goes_under_ids(&rt, alloc, machine, 4_294_967_294, &ACROSS_THE_WRAP);
}
