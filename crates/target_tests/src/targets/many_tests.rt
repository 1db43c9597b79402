//! Targets of very many live threads, at the limit of theirs and one past it, and long commands that are deferred.
use crate::asserts::expect_same_for;
use crate::targets::sessions::{Target, greet, sends, target};
use jdwp_script_machine::ScriptMachine;
use jdwp_target::{SetupFault, Stepped, TargetOptions, Turn};
use jdwp_value::ObjectId;
use jdwp_wire::{ErrorCode, Limits};
use std::alloc::Global;
use std::process::Abort;
use test_parts::MACHINE_A;

/// Appends what stands before `mark` in the text, and tells what stands behind it.
fn push_to<'a>(rt: &impl Abort, text: &'a str, mark: &str, all: &mut String) -> &'a str {
    let (front, behind) = text.split_once(mark).expect(rt, "the mark");
    all.push_str(front).expect(rt, "memory");
    behind
}

/// Machine A with thread 3, and so many threads more, from id 1000 on, where thread 1 makes this step before its others.
fn with_many(rt: &impl Abort, alloc: Global, first: &str, more: u32) -> String {
    let mut text = String::new(alloc);
    let behind = push_to(rt, MACHINE_A, "\"threads\":[", &mut text);
    let three = "\"threads\":[{\"id\":3,\"name\":\"\",\"group\":5,\"steps\":[]},";
    text.push_str(three).expect(rt, "memory");
    for place in 0..more {
        let id = place.saturating_add(1000);
        write!(
            text,
            "{{\"id\":{id},\"name\":\"\",\"group\":5,\"steps\":[]}},"
        )
        .expect(rt, "memory");
    }
    let behind = push_to(rt, behind, "[\"call\"", &mut text);
    write!(text, "{first}[\"call\"{behind}").expect(rt, "memory");
    text
}

/// A machine of many threads at a target: how many there are beside the threads 1 to 3, the first step of thread 1, how many may live,
/// and what that step tells and how many live then, unless no target is made.
type Many = (u32, &'static str, u32, Result<(Stepped, usize), SetupFault>);

/// That thread 1 starts thread 3.
const STARTS: &str = "[\"start\",3],";

const REFUSED: Result<(Stepped, usize), SetupFault> = Err(SetupFault::TooManyThreads);

/// Beside the threads 1 and 2 that live, and those that are more, lives thread 3 where no step starts it.
static MANY: [Many; 13] = [
    (61, "", 64, Ok((Stepped::Quiet, 64))),
    (61, STARTS, 64, Ok((Stepped::Quiet, 64))),
    (62, STARTS, 64, Ok((Stepped::Frozen, 64))),
    (62, STARTS, 65, Ok((Stepped::Quiet, 65))),
    (62, STARTS, 1024, Ok((Stepped::Quiet, 65))),
    (62, "", 64, REFUSED),
    (62, "", 65, Ok((Stepped::Quiet, 65))),
    (63, "", 65, REFUSED),
    (63, STARTS, 65, Ok((Stepped::Frozen, 65))),
    (1021, "", 1023, REFUSED),
    (1021, "", 1024, Ok((Stepped::Quiet, 1024))),
    (1021, STARTS, 1023, Ok((Stepped::Frozen, 1023))),
    (1021, STARTS, 1024, Ok((Stepped::Quiet, 1024))),
];

/// The target of the row's machine.
fn made(rt: &impl Abort, alloc: Global, row: &Many) -> Result<Target, SetupFault> {
    let options = TargetOptions::new(false, 65_535).expect(rt, "the count limit is taken");
    let wide = Limits::new(65_536, 1024, 64, 64).expect(rt, "limits");
    let limits = Limits::new(65_536, row.2, 64, 64).expect(rt, "limits");
    let text = with_many(rt, alloc, row.1, row.0);
    let machine = ScriptMachine::read_with(alloc, text.as_str(), &wide).expect(rt, "a machine");
    Target::with_limits(alloc, machine, options, limits)
}

/// Whether each live thread is suspended so many times.
fn all_have(target: &Target, count: u32) -> bool {
    target
        .live()
        .iter()
        .all(|thread| target.count(*thread) == Some(count))
}

/// Whether AllThreads is answered with so many threads: the header and the count, and 8 bytes for each.
fn lists(target: &mut Target, count: u32) -> bool {
    target.feed(&[0, 0, 0, 11, 0, 0, 0, 2, 0, 1, 4]);
    let replied = target.turn() == Ok(Turn::Replied(2, ErrorCode::NONE));
    let length = count.saturating_mul(8).saturating_add(15);
    let is_whole = target.waiting() == length as usize;
    let [_, _, high, low] = length.to_be_bytes();
    let [_, _, above, below] = count.to_be_bytes();
    let head = [0, 0, high, low, 0, 0, 0, 2, 0x80, 0, 0, 0, 0, above, below];
    let mut sent = [0; 15];
    let is_head = target.take(&mut sent) == 15 && sent == head;
    replied && is_whole && is_head && takes_all(target)
}

/// Whether all that waits to leave is taken.
fn takes_all(target: &mut Target) -> bool {
    let mut block = [0; 8192];
    target.take(&mut block);
    target.waiting() == 0
}

/// Whether Suspend raises each count by one, no thread steps then, and Resume lowers each.
fn suspends_all(target: &mut Target) -> bool {
    target.feed(&[0, 0, 0, 11, 0, 0, 0, 3, 0, 1, 8]);
    let suspended = target.turn() == Ok(Turn::Replied(3, ErrorCode::NONE)) && all_have(target, 1);
    let frozen = target.step(ObjectId(2)) == Ok(Stepped::Frozen);
    target.feed(&[0, 0, 0, 11, 0, 0, 0, 4, 0, 1, 9]);
    let resumed = target.turn() == Ok(Turn::Replied(4, ErrorCode::NONE)) && all_have(target, 0);
    suspended && frozen && resumed
}

/// What the first step of thread 1 tells, and how many threads live then, of which all are listed, suspended and resumed.
fn told(rt: &impl Abort, alloc: Global, row: &Many) -> Result<(Stepped, usize), SetupFault> {
    let mut target = made(rt, alloc, row)?;
    greet(rt, alloc, &mut target);
    let stepped = target.step(ObjectId(1)).expect(rt, "a step");
    let count = target.live().len();
    let listed = u32::try_from(count).expect(rt, "a count");
    expect_same_for(rt, &lists(&mut target, listed), &true, row);
    expect_same_for(rt, &suspends_all(&mut target), &true, row);
    Ok((stepped, count))
}

#[test]
fn as_many_threads_live_as_may(rt: HostRuntime) {
    for row in MANY.iter() {
        expect_same_for(&rt, &told(&rt, rt.alloc(), row), &row.3, row);
    }
}

/// A packet of this length, 11 to 65,536, under the id 3, of a command of the set of classes that there is none of.
fn unknown_command(rt: &impl Abort, alloc: Global, length: u32) -> Vec<u8> {
    let [_, above, high, low] = length.to_be_bytes();
    let head = [0, above, high, low, 0, 0, 0, 3, 0, 2, 99];
    let mut packet = Vec::from_slice(alloc, &head).expect(rt, "memory");
    for place in 11..length {
        packet.push((place % 251) as u8).expect(rt, "memory");
    }
    packet
}

/// Machine A where the class has a static field.
fn with_a_static(rt: &impl Abort, alloc: Global) -> String {
    let mut text = String::new(alloc);
    let behind = push_to(rt, MACHINE_A, "\"fields\":[]", &mut text);
    let field =
        "{\"id\":40,\"name\":\"count\",\"signature\":\"I\",\"modifiers\":8,\"value\":[\"I\",7]}";
    write!(text, "\"fields\":[{field}]{behind}").expect(rt, "memory");
    text
}

/// GetValues of the class, under the id 3, of that field so many times, 1 to 8,189.
fn many_values(rt: &impl Abort, alloc: Global, count: u32) -> Vec<u8> {
    let [_, _, high, low] = count.saturating_mul(8).saturating_add(23).to_be_bytes();
    let [_, _, above, below] = count.to_be_bytes();
    let head = [
        0, 0, high, low, 0, 0, 0, 3, 0, 2, 6, 0, 0, 0, 0, 0, 0, 0, 10, 0, 0, above, below,
    ];
    let mut packet = Vec::from_slice(alloc, &head).expect(rt, "memory");
    for _ in 0..count {
        packet
            .extend_from_slice(&[0, 0, 0, 0, 0, 0, 0, 40])
            .expect(rt, "memory");
    }
    packet
}

/// Its reply: the int 7 so many times.
fn seven_so_often(rt: &impl Abort, alloc: Global, count: u32) -> String {
    let length = count.saturating_mul(5).saturating_add(15);
    let mut text = String::new(alloc);
    write!(text, "{length:08x} 00000003 80 0000 {count:08x}").expect(rt, "memory");
    for _ in 0..count {
        text.push_str("4900000007").expect(rt, "memory");
    }
    text
}

/// Whether the command waits, and is answered with this error code and these bytes once it is released.
fn waits(
    rt: &impl Abort,
    alloc: Global,
    target: &mut Target,
    command: &[u8],
    error: ErrorCode,
    output: &str,
) -> bool {
    let deferred = target.feed(command) == command.len() && target.turn() == Ok(Turn::Deferred(3));
    let waits = target.deferred() == 1 && target.waiting() == 0;
    let released = target.release(0) == Ok(Turn::Replied(3, error)) && target.deferred() == 0;
    deferred && waits && released && sends(rt, alloc, target, output)
}

/// A target that defers, of a class with a static field.
fn deferring(rt: &impl Abort, alloc: Global) -> Box<Target> {
    let mut target = target(rt, alloc, &with_a_static(rt, alloc), false, 2);
    greet(rt, alloc, &mut target);
    target.set_deferring(true);
    target
}

/// Packets of 4,096 bytes, of one more, and of the greatest length; values for 4,095 bytes and 4,103, and for 65,535.
#[test]
fn long_commands_are_deferred(rt: HostRuntime) {
    let alloc = rt.alloc();
    let mut target = deferring(&rt, alloc);
    for length in [11u32, 4_096, 4_097, 4_107, 4_108, 65_536] {
        let command = unknown_command(&rt, alloc, length);
        let none = ErrorCode::NOT_IMPLEMENTED;
        let is = waits(
            &rt,
            alloc,
            &mut target,
            &command,
            none,
            "0000000b 00000003 80 0063",
        );
        expect_same_for(&rt, &is, &true, &length);
    }
    for count in [1u32, 509, 510, 1_024, 8_189] {
        let command = many_values(&rt, alloc, count);
        let reply = seven_so_often(&rt, alloc, count);
        let is = waits(
            &rt,
            alloc,
            &mut target,
            &command,
            ErrorCode::NONE,
            reply.as_str(),
        );
        expect_same_for(&rt, &is, &true, &count);
    }
}
