//! A Suspend that meets a thread that runs, and handshakes that do not come.
use crate::asserts::expect_same;
use crate::live::readers::Gives;
use crate::live::sessions::{expect_served, served, target};
use jdwp_end::Ended;
use jdwp_engine::Patience;
use jdwp_value::ObjectId;
use test_parts::MACHINE_A;

const ROUNDS: u64 = 1000;

const HANDSHAKE: &[u8] = b"JDWP-Handshake";

/// ThreadReference.SuspendCount of thread 1, with id 2, and with id 4.
const COUNT_BEFORE: &[u8] = &[
    0x00, 0x00, 0x00, 0x13, 0x00, 0x00, 0x00, 0x02, 0x00, 0x0b, 0x0c, //
    0x00, 0x00, 0x00, 0x00, 0x00, 0x00, 0x00, 0x01,
];

const COUNT_BEHIND: &[u8] = &[
    0x00, 0x00, 0x00, 0x13, 0x00, 0x00, 0x00, 0x04, 0x00, 0x0b, 0x0c, //
    0x00, 0x00, 0x00, 0x00, 0x00, 0x00, 0x00, 0x01,
];

/// VirtualMachine.Suspend, with id 3.
const SUSPEND: &[u8] = &[
    0x00, 0x00, 0x00, 0x0b, 0x00, 0x00, 0x00, 0x03, 0x00, 0x01, 0x08,
];

/// VirtualMachine.Dispose, with id 5.
const DISPOSE: &[u8] = &[
    0x00, 0x00, 0x00, 0x0b, 0x00, 0x00, 0x00, 0x05, 0x00, 0x01, 0x06,
];

/// The handshake, VM_START, the counts 0 and, behind the reply to Suspend, 1.
const ANSWERS: [u8; 84] = [
    0x4a, 0x44, 0x57, 0x50, 0x2d, 0x48, 0x61, 0x6e, 0x64, 0x73, 0x68, 0x61, 0x6b, 0x65, //
    0x00, 0x00, 0x00, 0x1d, 0x00, 0x00, 0x00, 0x01, 0x00, 0x40, 0x64, 0x00, 0x00, 0x00, 0x00, 0x01,
    0x5a, 0x00, 0x00, 0x00, 0x00, 0x00, 0x00, 0x00, 0x00, 0x00, 0x00, 0x00, 0x01, //
    0x00, 0x00, 0x00, 0x0f, 0x00, 0x00, 0x00, 0x02, 0x80, 0x00, 0x00, 0x00, 0x00, 0x00, 0x00, //
    0x00, 0x00, 0x00, 0x0b, 0x00, 0x00, 0x00, 0x03, 0x80, 0x00, 0x00, //
    0x00, 0x00, 0x00, 0x0f, 0x00, 0x00, 0x00, 0x04, 0x80, 0x00, 0x00, 0x00, 0x00, 0x00, 0x01,
];

/// Threads step while nothing comes, until a Suspend meets them: then none steps, and a read waits for what comes.
#[test]
fn a_suspend_meets_a_thread_that_runs(rt: HostRuntime) {
    let mut target = target(&rt, rt.alloc(), MACHINE_A);
    let gives = [
        Gives::Bytes(HANDSHAKE),
        Gives::Nothing,
        Gives::Bytes(COUNT_BEFORE),
        Gives::Nothing,
        Gives::Bytes(SUSPEND),
        Gives::Bytes(COUNT_BEHIND),
        Gives::Nothing,
        Gives::End,
    ];
    let served = served(rt.alloc(), &mut target, &gives, ROUNDS);
    let asked = [
        Patience::Handshake,
        Patience::Step,
        Patience::Step,
        Patience::Step,
        Patience::Step,
        Patience::Step,
        Patience::Step,
        Patience::Forever,
    ];
    expect_served(&rt, &served, Ended::LostByRead, &asked, &0);
    expect_same(&rt, &served.written.as_slice(), &ANSWERS.as_slice());
}

/// Whoever disposes of a session is answered, and the session is done.
#[test]
fn a_session_is_disposed_of(rt: HostRuntime) {
    let mut target = target(&rt, rt.alloc(), MACHINE_A);
    let gives = [Gives::Bytes(HANDSHAKE), Gives::Bytes(DISPOSE)];
    let served = served(rt.alloc(), &mut target, &gives, ROUNDS);
    let asked = [Patience::Handshake, Patience::Step];
    expect_served(&rt, &served, Ended::Done, &asked, &0);
    expect_same(&rt, &target.is_open(), &false);
    expect_same(&rt, &target.count(ObjectId(1)), &Some(0));
}

/// A handshake that does not come in its time, that ends, or whose read fails, loses the connection; one that is another is refused.
#[test]
fn no_handshake_comes(rt: HostRuntime) {
    let begun = Gives::Bytes(b"JDWP-");
    let rows: [([Gives; 2], Ended); 4] = [
        ([begun, Gives::Nothing], Ended::LostByRead),
        ([begun, Gives::End], Ended::LostByRead),
        ([begun, Gives::Fails], Ended::LostByRead),
        (
            [Gives::Bytes(b"GET / HTTP/1.1"), Gives::End],
            Ended::Refused(4),
        ),
    ];
    for (gives, ended) in rows {
        let mut target = target(&rt, rt.alloc(), MACHINE_A);
        let served = served(rt.alloc(), &mut target, &gives, ROUNDS);
        expect_same(&rt, &served.ended, &ended);
        expect_same(&rt, &served.written.len(), &0);
    }
}
