//! Links within limits other than the standard ones.
ghost use Rattle.jdwp_target.specs.Options.{Lives};

use crate::asserts::{expect_same, expect_same_for};
use crate::sessions::{Line, first_wrong};
use crate::worked::{COUNTED, FRAMES_AGAIN};
use jdwp_link::Link;
use jdwp_machine::Machine;
use jdwp_script_machine::ScriptMachine;
use jdwp_target::{SetupFault, TargetOptions};
use jdwp_wire::Limits;
use std::alloc::Global;
use std::process::Abort;
use test_parts::MACHINE_A;

/// What comes of making a link over this machine within these limits, in which no thread is suspended as the first session begins.
fn made<M: Machine + Drop>(
    rt: &impl Abort,
    alloc: Global,
    machine: M,
    limits: Limits,
) -> Result<Box<Link<M>>, SetupFault>
    requires { Lives M.meaning machine }
{
    let options = TargetOptions::new(false, 65_535).expect(rt, "the count limit is accepted");
    let link = Link::with_limits(alloc, machine, options, limits)?;
    Ok(Box::new(alloc, link).expect(rt, "memory"))
}

/// The first line that does not hold in such a link.
fn first_wrong_within<M: Machine + Drop>(
    rt: &impl Abort,
    alloc: Global,
    machine: M,
    limits: Limits,
    lines: &[Line],
) -> Option<usize>
    requires { Lives M.meaning machine }
{
    let mut link = made(rt, alloc, machine, limits).expect(rt, "a link");
    first_wrong(rt, alloc, &mut link, lines)
}

/// Why no link is made of it, where none is.
fn fault_of<M: Machine + Drop>(
    rt: &impl Abort,
    alloc: Global,
    machine: M,
    limits: Limits,
) -> Option<SetupFault>
    requires { Lives M.meaning machine }
{
    made(rt, alloc, machine, limits).err()
}

/// Each line of this session holds in a link over machine A within so few threads, requests and commands.
fn goes_within_few(rt: &impl Abort, alloc: Global, name: &str, lines: &[Line]) {
    let limits = Limits::new(4096, 8, 2, 4).expect(rt, "the limits are accepted");
    let machine = ScriptMachine::read(alloc, MACHINE_A).expect(rt, "the script is read");
    let found = first_wrong_within(rt, alloc, machine, limits, lines);
    expect_same_for(rt, &found, &None, &name);
}

/// Sessions that need no more go as within the standard limits.
#[test]
fn sessions_go_within_limits(rt: HostRuntime) {
    goes_within_few(&rt, rt.alloc(), "counted", &COUNTED);
    goes_within_few(&rt, rt.alloc(), "frames again", &FRAMES_AGAIN);
}

/// Within the least packets and so many live threads this comes of making a link over machine A.
fn has_fault_within(rt: &impl Abort, alloc: Global, live: u32, fault: Option<SetupFault>) {
    let limits = Limits::new(2048, live, 1, 1).expect(rt, "the limits are accepted");
    let machine = ScriptMachine::read(alloc, MACHINE_A).expect(rt, "the script is read");
    expect_same(rt, &fault_of(rt, alloc, machine, limits), &fault);
}

/// No link is made where more threads live than may.
#[test]
fn too_many_threads(rt: HostRuntime) {
    has_fault_within(&rt, rt.alloc(), 1, Some(SetupFault::TooManyThreads));
    has_fault_within(&rt, rt.alloc(), 2, None);
}
