//! Steps of a link whose target is paused, where no memory is left.
ghost use Rattle.jdwp_target.specs.Options.{Lives};

use crate::acts::{ALL, Act, Wanted, events_of};
use crate::asserts::expect_same;
use crate::memory::supply::{Stop, Supply};
use jdwp_layout::numbers::ALL_THREADS;
use jdwp_link::{Link, LinkEvent};
use jdwp_machine::Machine;
use jdwp_script_machine::ScriptMachine;
use jdwp_target::TargetOptions;
use jdwp_value::ObjectId;
use jdwp_wire::Limits;
use std::alloc::Global;
use test_parts::MACHINE_A;

/// Thread 1 is about to reach a breakpoint.
static BEFORE_BREAKPOINT: [Act; 3] = [Act::Greet, Act::Round(Wanted::Breakpoint(0)), Act::Step(1)];

/// A list of both threads is asked and sent, in 31 bytes, and does not come to the debugger.
static LIST_UNDER_WAY: [Act; 3] = [
    Act::Ask(Wanted::OfMachine(ALL_THREADS)),
    Act::ToTarget(ALL),
    Act::TargetTurn,
];

/// What came of a step where no memory was left.
#[derive(Clone, Copy, Debug, PartialEq, Eq)]
enum Came {
    /// It stopped the run.
    Stopped,
    /// It was not made.
    Frozen,
    /// It was made.
    Made,
}

/// What comes of the step that reaches the breakpoint, where no memory is left and so many lists are under way.
fn what_comes<M: Machine + Drop>(
    link: &mut Link<M>,
    alloc: Global,
    lists: u32,
) -> Result<Came, Stop> {
    let before = events_of(alloc, &BEFORE_BREAKPOINT)?;
    let list = events_of(alloc, &LIST_UNDER_WAY)?;
    let Ok(_) = link.run(&before) else {
        return Err(Stop::NoMemory);
    };
    for _ in 0..lists {
        let Ok(_) = link.run(&list) else {
            return Err(Stop::NoMemory);
        };
    }
    let mut supply = Supply::scarce(alloc)?;
    supply.starve()?;
    let ran = link.run(&[LinkEvent::Step(ObjectId(1))]);
    supply.relieve();
    match ran {
        Ok(_) if link.did() => Ok(Came::Made),
        Ok(_) => Ok(Came::Frozen),
        Err(_) => Ok(Came::Stopped),
    }
}

/// The same in a link over this machine, in which a packet has 2,048 bytes at most.
fn what_comes_over<M: Machine + Drop>(alloc: Global, machine: M, lists: u32) -> Result<Came, Stop>
    requires { Lives M.meaning machine }
{
    let (Some(limits), Some(options)) = (
        Limits::new(2048, 64, 3, 256),
        TargetOptions::new(false, 65_535),
    ) else {
        return Err(Stop::CountLimit);
    };
    match Link::with_limits(alloc, machine, options, limits) {
        Ok(link) => {
            let mut link = Box::new(alloc, link)?;
            what_comes(&mut link, alloc, lists)
        }
        Err(_) => Err(Stop::NoMemory),
    }
}

fn what_comes_on_a(alloc: Global, lists: u32) -> Result<Came, Stop> {
    let machine = ScriptMachine::read(alloc, MACHINE_A)?;
    what_comes_over(alloc, machine, lists)
}

/// 66 lists are 2,046 bytes, and the target is not paused: the step wants memory. 67 are 2,077, and it asks for none.
#[test]
fn a_step_at_a_paused_target_never_stops_a_run(rt: HostRuntime) {
    for (lists, want) in [(66, Came::Stopped), (67, Came::Frozen)] {
        let found = what_comes_on_a(rt.alloc(), lists).ok();
        expect_same(&rt, &found, &Some(want));
    }
}
