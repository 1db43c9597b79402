//! `serve` and `attach`, each over what the other sends, through readers that cut it at random.
use crate::asserts::expect_same;
use jdwp_attach::{attach, read_plan};
use jdwp_debuggee::Settings;
use jdwp_debugger::Debugger;
use jdwp_end::{Ended, Streams};
use jdwp_engine::serve;
use jdwp_script_machine::ScriptMachine;
use jdwp_target::Target;
use jdwp_wire::Limits;
use std::alloc::Global;
use std::io;
use std::io::{Empty, Read, Write};
use std::process::Abort;
use test_parts::{MACHINE_A, push_bytes};

/// A breakpoint is set at index 3 of machine A, and all threads, which began suspended, are resumed.
const PLAN: &str = "ask 15 1 0202000000010701000000000000000a00000000000000140000000000000003
ask 1 9
events 2
mirror
ask 11 12 0000000000000001
";

/// What the debugger sends: the handshake, IDSizes, Set, Resume and SuspendCount of thread 1.
const SENT: &str = "4a4457502d48616e647368616b65
0000000b 00000001 00 0107
0000002b 00000002 00 0f01 02 02 00000001 07 01 000000000000000a 0000000000000014 0000000000000003
0000000b 00000003 00 0109
00000013 00000004 00 0b0c 0000000000000001";

/// What the target sends: the handshake, VM_START, the widths of ids, two OK replies, the breakpoint with its policy, and the count.
const ANSWERED: &str = "4a4457502d48616e647368616b65
0000001d 00000001 00 4064 02 00000001 5a 00000000 0000000000000001
0000001f 00000001 80 0000 00000008 00000008 00000008 00000008 00000008
0000000f 00000002 80 0000 00000001
0000000b 00000003 80 0000
00000036 00000002 00 4064 02 00000001 02 00000001 0000000000000001 01 000000000000000a 0000000000000014 0000000000000003
0000000f 00000004 80 0000 00000001";

const LINES: &str = "< hello
< 1 Event.Composite 2 [(90, 0, #1)]
< 1 reply VirtualMachine.IDSizes 0 8 8 8 8 8
< 2 reply EventRequest.Set 0 1
< 3 reply VirtualMachine.Resume 0
< 2 Event.Composite 2 [(2, 1, #1, 1:#10:#20:3)]
thread 1 1 held
request 1 2 2
< 4 reply ThreadReference.SuspendCount 0 1
";

/// Gives the bytes in pieces of 1 to 7, drawn by the number.
#[derive(Drop)]
struct Cutter<'a> {
    bytes: &'a [u8],
    number: u32,
}

impl<'a> Read for Cutter<'a> {
    fn read(&mut self, buffer: &mut [u8]) -> io::Result<usize> {
        self.number = self
            .number
            .wrapping_mul(1_664_525)
            .wrapping_add(1_013_904_223);
        let most = (self.number >> 16) % 7 + 1;
        let count = (most as usize).min(buffer.len()).min(self.bytes.len());
        buffer[..count].copy_from_slice(&self.bytes[..count]);
        self.bytes = &self.bytes[count..];
        Ok(count)
    }
}

/// Keeps what is written.
#[derive(Drop)]
struct Keeper {
    bytes: Vec<u8>,
}

impl Write for Keeper {
    fn write(&mut self, bytes: &[u8]) -> io::Result<usize> {
        self.bytes.extend_from_slice(bytes)?;
        Ok(bytes.len())
    }

    fn flush(&mut self) -> io::Result<()> {
        Ok(())
    }
}

/// What a new target over machine A sends where these bytes come.
fn served(rt: &impl Abort, alloc: Global, bytes: &[u8], number: u32) -> Vec<u8> {
    let settings = Settings::new(true, 65_535, Limits::standard()).expect(rt, "a count limit");
    let machine = ScriptMachine::read(alloc, MACHINE_A).expect(rt, "the script is read");
    let target = Target::with_settings(alloc, machine, settings).expect(rt, "memory");
    let mut target = Box::new(alloc, target).expect(rt, "memory");
    let keeper = Keeper {
        bytes: Vec::new(alloc),
    };
    let mut pipe: Streams<Cutter, Keeper> = Streams::new(Cutter { bytes, number }, keeper);
    if target.is_open() {
        panic!(rt; "the target is open");
    }
    serve(&mut target, &mut pipe, 1_000);
    let (_, keeper) = pipe.into_parts();
    keeper.bytes
}

/// How a new debugger's run by the plan ends where these bytes come, what it sends, and what is printed.
fn attached(
    rt: &impl Abort,
    alloc: Global,
    bytes: &[u8],
    number: u32,
) -> (Ended, Vec<u8>, Vec<u8>) {
    let plan = read_plan(alloc, PLAN).expect(rt, "a plan");
    let debugger = Debugger::new(alloc).expect(rt, "memory");
    let mut debugger = Box::new(alloc, debugger).expect(rt, "memory");
    let keeper = Keeper {
        bytes: Vec::new(alloc),
    };
    let printer = Keeper {
        bytes: Vec::new(alloc),
    };
    let mut pipe: Streams<Cutter, Keeper> = Streams::new(Cutter { bytes, number }, keeper);
    let mut out: Streams<Empty, Keeper> = Streams::new(io::empty(), printer);
    let ended = attach(alloc, &mut debugger, &mut pipe, &plan, &mut out, 1_000);
    let (_, keeper) = pipe.into_parts();
    let (_, printer) = out.into_parts();
    (ended, keeper.bytes, printer.bytes)
}

/// The bytes that a text spells in hex, in lines.
fn hex(rt: &impl Abort, alloc: Global, text: &str) -> Vec<u8> {
    let mut bytes = Vec::new(alloc);
    for line in text.lines() {
        push_bytes(&mut bytes, line).expect(rt, "memory");
    }
    bytes
}

/// What each end sends over all that the other sent by then grows until both have sent all that they will.
fn passes(rt: &impl Abort, alloc: Global, number: u32) {
    let mut sent = Vec::new(alloc);
    for _ in 0..20u32 {
        let answered = served(rt, alloc, &sent, number);
        let (ended, more, lines) = attached(rt, alloc, &answered, !number);
        if more == sent {
            expect_same(rt, &ended, &Ended::Done);
            expect_same(rt, &sent.as_slice(), &hex(rt, alloc, SENT).as_slice());
            expect_same(
                rt,
                &answered.as_slice(),
                &hex(rt, alloc, ANSWERED).as_slice(),
            );
            expect_same(rt, &lines.as_slice(), &LINES.as_bytes());
            return;
        }
        sent = more;
    }
    panic!(rt; "the two go on and on");
}

#[test]
fn two_programs_do_what_the_link_does(rt: HostRuntime) {
    for number in 0..12u32 {
        passes(&rt, rt.alloc(), number.wrapping_mul(2_654_435_761));
    }
}
