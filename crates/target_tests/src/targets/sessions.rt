//! Targets over machine scripts, what is done with them, and what is to come of it.
use crate::asserts::expect_same;
use jdwp_script_machine::ScriptMachine;
use jdwp_target::{Stepped, TargetFault, TargetOptions, Turn};
use jdwp_value::ObjectId;
use jdwp_wire::{ErrorCode, FrameFault};
use std::alloc::Global;
use std::process::Abort;
use test_parts::bytes;

/// A target over the machine of a script.
pub(crate) type Target = jdwp_target::Target<ScriptMachine>;

pub(crate) const HANDSHAKE: &str = "4a4457502d48616e647368616b65";

/// The handshake, and VM_START behind it.
pub(crate) const GREETING: &str =
    "4a4457502d48616e647368616b65 0000001d 00000001 00 40 64 00 00000001 5a 00000000 0000000000000001";

/// All that waits to leave.
fn taken(rt: &impl Abort, alloc: Global, target: &mut Target) -> Vec<u8> {
    let mut all = Vec::new(alloc);
    let mut buffer = [0; 256];
    for _ in 0..1024u32 {
        let count = target.take(&mut buffer);
        if count == 0 || count > 256 {
            break;
        }
        all.extend_from_slice(&buffer[..count]).expect(rt, "memory");
    }
    all
}

/// A closed target over this script, on the heap: where a function holds one itself, each part of it is proved to be let go there.
pub(crate) fn target(
    rt: &impl Abort,
    alloc: Global,
    script: &str,
    start_all: bool,
    count_limit: u32,
) -> Box<Target> {
    let options = TargetOptions::new(start_all, count_limit).expect(rt, "the count limit is taken");
    let machine = ScriptMachine::read(alloc, script).expect(rt, "the script is read");
    let target = Target::new(alloc, machine, options).expect(rt, "memory");
    Box::new(alloc, target).expect(rt, "memory")
}

/// Begins a session: the handshake, whose answer is taken.
pub(crate) fn greet(rt: &impl Abort, alloc: Global, target: &mut Target) {
    target.accept();
    target.feed(b"JDWP-Handshake");
    if target.turn() != Ok(Turn::Hello) {
        panic!(rt; "a handshake");
    }
    taken(rt, alloc, target);
}

/// What is done with a target, and what comes of it.
#[derive(Clone, Copy)]
pub(crate) enum Act {
    /// It is sent the first bytes, and sends the others, in turns until nothing is left to handle.
    Says(&'static str, &'static str),
    /// EventRequest.Set with these data is refused with this error code.
    Refuses(&'static str, u16),
    /// EventRequest.Set with these data is answered with this request id.
    Grants(&'static str, u32),
    /// The same so many times, with the request ids from 1 on.
    GrantsSoMany(&'static str, u32),
    /// A thread is stepped so many times; each step tells this, and all send these bytes.
    Steps(u64, u32, Stepped, &'static str),
    /// Whether no thread may step.
    Still(bool),
    /// It is sent bytes that begin no message.
    Fails(&'static str, FrameFault),
    /// The suspend counts of threads 1 and 2.
    Counts(Option<u32>, Option<u32>),
    /// How many threads the last move of all suspend counts visited.
    Visits(u32),
    /// How many event requests there are.
    Requests(usize),
    /// How many threads live.
    Lives(usize),
    /// Whether the session is open.
    Open(bool),
    /// Whether a session begins.
    Accepts(bool),
    /// The connection is lost.
    Loses,
    /// It defers from now on, or not.
    Defers(bool),
    /// How many commands are deferred.
    Waits(usize),
    /// The deferred command at this place is released; the release tells this, and these bytes are sent.
    Releases(usize, Turn, &'static str),
}

/// Whether this comes of it.
pub(crate) fn comes(rt: &impl Abort, alloc: Global, target: &mut Target, act: &Act) -> bool {
    match act {
        Act::Says(input, output) => says(rt, alloc, target, input, output),
        Act::Refuses(data, error) => refuses(rt, alloc, target, data, *error),
        Act::Grants(data, id) => grants(rt, alloc, target, data, *id),
        Act::GrantsSoMany(data, count) => grants_so_many(rt, alloc, target, data, *count),
        Act::Steps(thread, times, told, output) => steps(
            rt, alloc, target, *thread, *times, *told, output,
        ),
        Act::Still(still) => target.is_still() == *still,
        Act::Fails(input, fault) => fails(rt, alloc, target, input, *fault),
        Act::Counts(first, second) => {
            target.count(ObjectId(1)) == *first && target.count(ObjectId(2)) == *second
        }
        Act::Visits(visits) => target.visits() == *visits,
        Act::Requests(count) => target.requests().len() == *count,
        Act::Lives(count) => { target.live().len() == *count && target.is_alive() == (*count > 0) }
        Act::Open(open) => target.is_open() == *open,
        Act::Accepts(accepts) => { target.accept() == *accepts && !(*accepts && target.has_lost()) }
        Act::Loses => {
            target.lose();
            target.has_lost() && target.room() == 0 && target.waiting() == 0
        }
        Act::Defers(deferring) => {
            target.set_deferring(*deferring);
            true
        }
        Act::Waits(count) => target.deferred() == *count,
        Act::Releases(place, told, output) => {
            target.release(*place) == Ok(*told) && sends(rt, alloc, target, output)
        }
    }
}

/// Whether these bytes are sent for those that came, in turns until nothing is left to handle.
fn says(rt: &impl Abort, alloc: Global, target: &mut Target, input: &str, output: &str) -> bool {
    target.feed(&bytes(alloc, input).expect(rt, "memory"));
    for _ in 0..16u32 {
        if target.turn() == Ok(Turn::Nothing) {
            break;
        }
    }
    sends(rt, alloc, target, output)
}

/// Sends EventRequest.Set, under the id 2, with these data.
fn sets(rt: &impl Abort, alloc: Global, target: &mut Target, data: &str) {
    let data = bytes(alloc, data).expect(rt, "memory");
    let count = u8::try_from(data.len()).expect(rt, "no more data than the length here holds");
    target.feed(&[0, 0, 0, count.saturating_add(11), 0, 0, 0, 2, 0, 15, 1]);
    target.feed(&data);
    target.turn().expect(rt, "a turn");
}

/// Whether EventRequest.Set with these data is refused with this error code.
fn refuses(rt: &impl Abort, alloc: Global, target: &mut Target, data: &str, error: u16) -> bool {
    sets(rt, alloc, target, data);
    let [high, low] = error.to_be_bytes();
    is_sent(
        rt,
        alloc,
        target,
        &[0, 0, 0, 11, 0, 0, 0, 2, 0x80, high, low],
    )
}

/// Whether it is answered with this request id.
fn grants(rt: &impl Abort, alloc: Global, target: &mut Target, data: &str, id: u32) -> bool {
    sets(rt, alloc, target, data);
    let [first, second, third, last] = id.to_be_bytes();
    let reply = [
        0, 0, 0, 15, 0, 0, 0, 2, 0x80, 0, 0, first, second, third, last,
    ];
    is_sent(rt, alloc, target, &reply)
}

/// Whether it is answered so many times with the next request id, from 1 on.
fn grants_so_many(
    rt: &impl Abort,
    alloc: Global,
    target: &mut Target,
    data: &str,
    count: u32,
) -> bool {
    for before in 0..count {
        if !grants(rt, alloc, target, data, before.saturating_add(1)) {
            return false;
        }
    }
    true
}

/// Whether these bytes, which begin no message, are this fault.
fn fails(
    rt: &impl Abort,
    alloc: Global,
    target: &mut Target,
    input: &str,
    fault: FrameFault,
) -> bool {
    target.feed(&bytes(alloc, input).expect(rt, "memory"));
    !target.has_lost() && target.turn() == Err(TargetFault::Frame(fault)) && target.has_lost()
}

/// Whether each step of a thread tells this, and all send these bytes.
fn steps(
    rt: &impl Abort,
    alloc: Global,
    target: &mut Target,
    thread: u64,
    times: u32,
    told: Stepped,
    output: &str,
) -> bool {
    for _ in 0..times {
        if target.step(ObjectId(thread)) != Ok(told) {
            return false;
        }
    }
    sends(rt, alloc, target, output)
}

/// Whether these bytes wait to leave; they are taken.
pub(crate) fn sends(rt: &impl Abort, alloc: Global, target: &mut Target, output: &str) -> bool {
    is_sent(
        rt,
        alloc,
        target,
        &bytes(alloc, output).expect(rt, "memory"),
    )
}

/// The same of bytes.
fn is_sent(rt: &impl Abort, alloc: Global, target: &mut Target, output: &[u8]) -> bool {
    taken(rt, alloc, target).as_slice() == output
}

/// The place, from 0, of the first act of which something else comes; None where all is as it is to be.
pub(crate) fn first_wrong(
    rt: &impl Abort,
    alloc: Global,
    target: &mut Target,
    acts: &[Act],
) -> Option<usize> {
    greet(rt, alloc, target);
    for (place, act) in acts.iter().enumerate() {
        if !comes(rt, alloc, target, act) {
            return Some(place);
        }
    }
    None
}

/// The same of a target over this script.
fn first_wrong_of(
    rt: &impl Abort,
    alloc: Global,
    script: &str,
    count_limit: u32,
    acts: &[Act],
) -> Option<usize> {
    let mut target = target(rt, alloc, script, false, count_limit);
    first_wrong(rt, alloc, &mut target, acts)
}

/// Of each act of a session comes what it says. The session begins with the handshake done and its answer taken, and no thread is
/// suspended.
pub(crate) fn goes_as_told(
    rt: &impl Abort,
    alloc: Global,
    name: &str,
    script: &str,
    count_limit: u32,
    acts: &[Act],
) {
    let found = first_wrong_of(rt, alloc, script, count_limit, acts);
    expect_same(rt, &(name, found), &(name, None));
}
