//! A session of four commands, and the target that answers them.
use jdwp_debuggee::Settings;
use jdwp_end::Ended;
use jdwp_port::{AtPort, Notice, PortFault, PortListener, serve_next, serve_sessions};
use jdwp_script_machine::ScriptMachine;
use jdwp_wire::Limits;
use std::alloc::Global;
use std::io::{Read, Write};
use std::net::{OpenListener, OpenStream};
use std::process::Abort;
use std::rt::Clock;
use test_parts::MACHINE_A;

/// A target over the machine of a script.
pub(crate) type Target = jdwp_target::Target<ScriptMachine>;

/// A closed target over machine A, none of whose threads is suspended at the start, on the heap: where a function holds one itself, each part
/// of it is proved to be let go there.
pub(crate) fn target(rt: &impl Abort, alloc: Global) -> Box<Target> {
    let settings = Settings::new(false, 65535, Limits::standard()).expect(rt, "a count limit");
    let machine = ScriptMachine::read(alloc, MACHINE_A).expect(rt, "the script is read");
    let target = Target::with_settings(alloc, machine, settings).expect(rt, "memory");
    Box::new(alloc, target).expect(rt, "memory")
}

/// The handshake, IDSizes with id 1, Suspend with id 2, SuspendCount of thread 1 with id 3, Dispose with id 4.
pub(crate) static SESSION: [u8; 66] = [
    0x4a, 0x44, 0x57, 0x50, 0x2d, 0x48, 0x61, 0x6e, 0x64, 0x73, 0x68, 0x61, 0x6b, 0x65, //
    0x00, 0x00, 0x00, 0x0b, 0x00, 0x00, 0x00, 0x01, 0x00, 0x01, 0x07, //
    0x00, 0x00, 0x00, 0x0b, 0x00, 0x00, 0x00, 0x02, 0x00, 0x01, 0x08, //
    0x00, 0x00, 0x00, 0x13, 0x00, 0x00, 0x00, 0x03, 0x00, 0x0b, 0x0c, 0x00, 0x00, 0x00, 0x00, 0x00,
    0x00, 0x00, 0x01, //
    0x00, 0x00, 0x00, 0x0b, 0x00, 0x00, 0x00, 0x04, 0x00, 0x01, 0x06, //
];

/// What is answered to it where no thread is suspended at the start.
pub(crate) static ANSWERS: [u8; 111] = [
    0x4a, 0x44, 0x57, 0x50, 0x2d, 0x48, 0x61, 0x6e, 0x64, 0x73, 0x68, 0x61, 0x6b, 0x65, //
    0x00, 0x00, 0x00, 0x1d, 0x00, 0x00, 0x00, 0x01, 0x00, 0x40, 0x64, 0x00, 0x00, 0x00, 0x00, 0x01,
    0x5a, 0x00, 0x00, 0x00, 0x00, 0x00, 0x00, 0x00, 0x00, 0x00, 0x00, 0x00, 0x01, //
    0x00, 0x00, 0x00, 0x1f, 0x00, 0x00, 0x00, 0x01, 0x80, 0x00, 0x00, 0x00, 0x00, 0x00, 0x08, 0x00,
    0x00, 0x00, 0x08, 0x00, 0x00, 0x00, 0x08, 0x00, 0x00, 0x00, 0x08, 0x00, 0x00, 0x00, 0x08, //
    0x00, 0x00, 0x00, 0x0b, 0x00, 0x00, 0x00, 0x02, 0x80, 0x00, 0x00, //
    0x00, 0x00, 0x00, 0x0f, 0x00, 0x00, 0x00, 0x03, 0x80, 0x00, 0x00, 0x00, 0x00, 0x00, 0x01, //
    0x00, 0x00, 0x00, 0x0b, 0x00, 0x00, 0x00, 0x04, 0x80, 0x00, 0x00, //
];

/// A handshake that is wrong at its last byte.
pub(crate) static NO_HANDSHAKE: [u8; 14] = [
    0x4a, 0x44, 0x57, 0x50, 0x2d, 0x48, 0x61, 0x6e, 0x64, 0x73, 0x68, 0x61, 0x6b, 0x66,
];

/// How sessions of a closed target on a port ended, and what was told on the way.
pub(crate) fn serves_all<L: OpenListener, C: Clock + Abort>(
    rt: &C,
    alloc: Global,
    target: &mut Target,
    listener: &PortListener<L>,
    rounds: u64,
) -> (Result<Ended, PortFault>, Vec<Notice>)
where
    L::Stream: Read + Write + OpenStream,
{
    serves_by(rt, alloc, rt, target, listener, rounds)
}

/// The same by another clock.
pub(crate) fn serves_by<L: OpenListener, C: Clock>(
    rt: &impl Abort,
    alloc: Global,
    clock: &C,
    target: &mut Target,
    listener: &PortListener<L>,
    rounds: u64,
) -> (Result<Ended, PortFault>, Vec<Notice>)
where
    L::Stream: Read + Write + OpenStream,
{
    if target.is_open() {
        panic!(rt; "the target is open");
    }
    let mut told = Vec::new(alloc);
    let ended = serve_sessions(alloc, clock, target, listener, rounds, |notice| {
        let _ = told.push(notice);
    });
    (ended, told)
}

/// The numbers of the sessions that were refused, if nothing else was told.
pub(crate) fn refused(rt: &impl Abort, alloc: Global, told: &[Notice]) -> Vec<u16> {
    let mut numbers = Vec::new(alloc);
    for notice in told {
        match notice {
            Notice::Refused(number) => numbers.push(*number).expect(rt, "memory"),
            Notice::Lost(_) | Notice::Again(_) => panic!(rt; "another notice"),
        }
    }
    numbers
}

/// How the next session of a closed target on a port ended.
pub(crate) fn serves_one<L: OpenListener, C: Clock + Abort>(
    rt: &C,
    alloc: Global,
    target: &mut Target,
    listener: &PortListener<L>,
    rounds: u64,
) -> Result<AtPort<Ended>, PortFault>
where
    L::Stream: Read + Write + OpenStream,
{
    if target.is_open() {
        panic!(rt; "the target is open");
    }
    serve_next(alloc, rt, target, listener, rounds)
}
