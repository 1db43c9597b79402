//! How many threads a Suspend, a Resume and an event of policy ALL visit: exactly those that begin or cease to be suspended.
use crate::asserts::expect_same;
use crate::targets::sessions::{Act, HANDSHAKE, first_wrong, goes_as_told, target};
use jdwp_target::Stepped;
use test_parts::MACHINE_A;

static SUSPENDS_AND_RESUMES: [Act; 20] = [
    Act::Visits(0),
    Act::Says("0000000b 00000002 00 01 08", "0000000b 00000002 80 0000"),
    Act::Visits(2),
    Act::Counts(Some(1), Some(1)),
    Act::Says("0000000b 00000003 00 01 08", "0000000b 00000003 80 0000"),
    Act::Visits(0),
    Act::Counts(Some(2), Some(2)),
    Act::Says(
        "00000013 00000004 00 0b 03 0000000000000002",
        "0000000b 00000004 80 0000",
    ),
    Act::Visits(0),
    Act::Counts(Some(2), Some(1)),
    Act::Says("0000000b 00000005 00 01 09", "0000000b 00000005 80 0000"),
    Act::Visits(1),
    Act::Counts(Some(1), Some(0)),
    Act::Says("0000000b 00000006 00 01 09", "0000000b 00000006 80 0000"),
    Act::Visits(1),
    Act::Counts(Some(0), Some(0)),
    Act::Says("0000000b 00000007 00 01 09", "0000000b 00000007 80 0000"),
    Act::Visits(0),
    Act::Counts(Some(0), Some(0)),
    Act::Open(true),
];

/// A refused Suspend, another command, Dispose, a session's begin and a loss leave the visits.
static WHAT_LEAVES_THEM: [Act; 15] = [
    Act::Says("0000000b 00000002 00 01 08", "0000000b 00000002 80 0000"),
    Act::Visits(2),
    Act::Says("0000000b 00000003 00 01 08", "0000000b 00000003 80 0071"),
    Act::Visits(2),
    Act::Says(
        "00000013 00000004 00 0b 0c 0000000000000001",
        "0000000f 00000004 80 0000 00000001",
    ),
    Act::Visits(2),
    Act::Says("0000000b 00000005 00 01 06", "0000000b 00000005 80 0000"),
    Act::Visits(2),
    Act::Counts(Some(0), Some(0)),
    Act::Accepts(true),
    Act::Says(HANDSHAKE, HANDSHAKE),
    Act::Visits(2),
    Act::Loses,
    Act::Visits(2),
    Act::Counts(Some(0), Some(0)),
];

static BEGUN_SUSPENDED: [Act; 6] = [
    Act::Visits(2),
    Act::Counts(Some(1), Some(1)),
    Act::Says(
        "00000013 00000004 00 0b 03 0000000000000001",
        "0000000b 00000004 80 0000",
    ),
    Act::Visits(2),
    Act::Says("0000000b 00000005 00 01 09", "0000000b 00000005 80 0000"),
    Act::Visits(1),
];

/// VM_START of policy ALL visits all that live.
#[test]
fn a_suspended_start_visits(rt: HostRuntime) {
    let mut target = target(&rt, rt.alloc(), MACHINE_A, true, 65535);
    let wrong = first_wrong(&rt, rt.alloc(), &mut target, &BEGUN_SUSPENDED);
    expect_same(&rt, &wrong, &None);
}

/// An event of policy ALL visits those that ran, and not the thread that was suspended before it.
static AN_EVENT_OF_POLICY_ALL: [Act; 7] = [
    Act::Says(
        "00000013 00000003 00 0b 02 0000000000000002",
        "0000000b 00000003 80 0000",
    ),
    Act::Visits(0),
    Act::Grants("28 02 00000000", 1),
    Act::Steps(
        1,
        1,
        Stepped::Reported,
        "00000036 00000002 00 40 64 02 00000001 28 00000001 0000000000000001 01 000000000000000a 0000000000000014 0000000000000000",
    ),
    Act::Visits(1),
    Act::Counts(Some(1), Some(2)),
    Act::Open(true),
];

/// Each session: what it shows, the script of its machine, the count limit, and its acts.
fn sessions() -> [(&'static str, &'static str, u32, &'static [Act]); 3] {
    [
        (
            "suspends and resumes visit",
            MACHINE_A,
            65535,
            &SUSPENDS_AND_RESUMES,
        ),
        ("what leaves visits", MACHINE_A, 1, &WHAT_LEAVES_THEM),
        (
            "an event visits those that ran",
            MACHINE_A,
            65535,
            &AN_EVENT_OF_POLICY_ALL,
        ),
    ]
}

#[test]
fn each_session_goes_as_told(rt: HostRuntime) {
    for (name, script, count_limit, acts) in sessions() {
        goes_as_told(&rt, rt.alloc(), name, script, count_limit, acts);
    }
}
