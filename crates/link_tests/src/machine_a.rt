//! Links over machine A. No function here names such a link: each hands a machine to a call for any machine.
use crate::asserts::expect_same_for;
use crate::losses::{Loss, begins_anew_over};
use crate::sessions::{Session, Standing, first_wrong_over, stands_after_over, waits_after_over};
use crate::told::Told;
use jdwp_link::LinkEvent;
use jdwp_script_machine::ScriptMachine;
use std::alloc::Global;
use std::process::Abort;
use test_parts::MACHINE_A;

/// Each line of each of these sessions holds.
pub(crate) fn go_on_a(rt: &impl Abort, alloc: Global, sessions: &[Session]) {
    for (name, lines) in sessions {
        let machine = ScriptMachine::read(alloc, MACHINE_A).expect(rt, "the script is read");
        let found = first_wrong_over(rt, alloc, machine, lines);
        expect_same_for(rt, &found, &None, name);
    }
}

/// How a link stands after these events, done in two runs; None where something else is told of them.
pub(crate) fn stands_on_a(
    rt: &impl Abort,
    alloc: Global,
    events: &[LinkEvent],
    cut: usize,
    expected: &[Told],
) -> Option<Standing> {
    let machine = ScriptMachine::read(alloc, MACHINE_A).expect(rt, "the script is read");
    stands_after_over(rt, alloc, machine, events, cut, expected)
}

/// How many bytes wait to leave the debugger, and the target, after these events.
pub(crate) fn waits_on_a(rt: &impl Abort, alloc: Global, events: &[LinkEvent]) -> (usize, usize) {
    let machine = ScriptMachine::read(alloc, MACHINE_A).expect(rt, "the script is read");
    waits_after_over(rt, alloc, machine, events)
}

/// Whether a session that is lost so leaves nothing, and a new one goes as the first did.
pub(crate) fn begins_anew_on_a(
    rt: &impl Abort,
    alloc: Global,
    events: &[LinkEvent],
    loss: &Loss,
) -> bool {
    let machine = ScriptMachine::read(alloc, MACHINE_A).expect(rt, "the script is read");
    begins_anew_over(rt, alloc, machine, events, loss)
}
