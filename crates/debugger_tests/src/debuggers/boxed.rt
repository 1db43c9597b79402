//! Debuggers on the heap: where a function holds one itself, each part of it is proved to be let go there.
use jdwp_debugger::{Debugger, Order};
use jdwp_wire::Limits;
use std::alloc::Global;
use std::process::Abort;

/// A closed debugger whose first packet has this id.
pub(crate) fn debugger(rt: &impl Abort, alloc: Global, first_id: u32) -> Box<Debugger> {
    let debugger = Debugger::with_first_id(alloc, first_id).expect(rt, "memory");
    Box::new(alloc, debugger).expect(rt, "memory")
}

/// A closed debugger within these limits.
pub(crate) fn debugger_within(rt: &impl Abort, alloc: Global, limits: Limits) -> Box<Debugger> {
    let debugger = Debugger::with_limits(alloc, 1, limits).expect(rt, "memory");
    Box::new(alloc, debugger).expect(rt, "memory")
}

/// A closed debugger of a target that sends replies and composites by threads of their own.
pub(crate) fn debugger_apart(rt: &impl Abort, alloc: Global) -> Box<Debugger> {
    let debugger = Debugger::with_order(alloc, 1, Limits::standard(), Order::Apart);
    Box::new(alloc, debugger.expect(rt, "memory")).expect(rt, "memory")
}
