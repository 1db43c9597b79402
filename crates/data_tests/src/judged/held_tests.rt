//! How much a judge keeps.
use super::sessions::{HELLOS, SIZES, read_line};
use jdwp_judge::{Held, Judge};
use jdwp_show::Sender;
use std::alloc::Global;
use std::process::Abort;

/// Nothing is held but so many messages and commands.
fn held(messages: usize, commands: usize) -> Held {
    Held {
        debugger_bytes: 0,
        target_bytes: 0,
        messages,
        commands,
    }
}

/// Feeds a line of a capture, and answers what is told.
fn feed(rt: &impl Abort, alloc: Global, judge: &mut Judge, line: &str) -> String {
    let (sender, bytes) = read_line(rt, alloc, line);
    judge.feed(sender, &bytes).expect(rt, "memory")
}

/// A judge of a session in which the widths of ids are told.
fn begun(rt: &impl Abort, alloc: Global) -> Judge {
    let mut judge = Judge::new(alloc);
    for line in HELLOS.iter().chain(&SIZES) {
        let _ = feed(rt, alloc, &mut judge, line);
    }
    judge
}

/// A command that is asked under each id in turn, 8 before the first reply: what is kept is what has no reply.
#[test]
fn a_session_of_many_packets(rt: HostRuntime) {
    let alloc = rt.alloc();
    let mut judge = begun(&rt, alloc);
    for id in 2..2000u32 {
        let line = format!(in alloc; "> 00000013{id:08x}000b0c0000000000000001");
        let told = feed(&rt, alloc, &mut judge, &line.expect(&rt, "memory"));
        let wanted = format!(in alloc; "> {id} ThreadReference.SuspendCount #1\n");
        assert_eq!(&rt; told, wanted.expect(&rt, "memory"));
        if id < 10 {
            continue;
        }
        let answered = id - 8;
        let line = format!(in alloc; "< 0000000f{answered:08x}80000000000001");
        let told = feed(&rt, alloc, &mut judge, &line.expect(&rt, "memory"));
        let wanted = format!(in alloc; "< {answered} reply ThreadReference.SuspendCount 0 1\n");
        assert_eq!(&rt; told, wanted.expect(&rt, "memory"));
        assert_eq!(&rt; judge.held(), held(0, 8));
    }
}

/// Before the widths of ids are sure messages are kept; of a message that is not whole its bytes are.
#[test]
fn what_waits_is_kept(rt: HostRuntime) {
    let alloc = rt.alloc();
    let mut judge = Judge::new(alloc);
    for line in &HELLOS {
        let _ = feed(&rt, alloc, &mut judge, line);
    }
    let _ = feed(
        &rt,
        alloc,
        &mut judge,
        "> 0000001300000003000b0c0000000000000001",
    );
    let _ = feed(&rt, alloc, &mut judge, "< 0000000f0000000380000000000001");
    assert_eq!(&rt; judge.held(), held(2, 0));
    let _ = feed(&rt, alloc, &mut judge, SIZES[0]);
    assert_eq!(&rt; judge.held(), held(3, 1));
    let _ = feed(&rt, alloc, &mut judge, SIZES[1]);
    assert_eq!(&rt; judge.held(), held(0, 0));
    let _ = judge.feed(Sender::Target, &[0, 0, 0]).expect(&rt, "memory");
    assert_eq!(&rt; judge.held().target_bytes, 3);
}
