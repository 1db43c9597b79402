//! Debuggers on the heap: where a function holds one itself, each part of it is proved to be let go there.
use jdwp_debugger::Debugger;
use std::alloc::Global;
use std::process::Abort;

/// A closed debugger.
pub(crate) fn debugger(rt: &impl Abort, alloc: Global) -> Box<Debugger> {
    let debugger = Debugger::new(alloc).expect(rt, "memory");
    Box::new(alloc, debugger).expect(rt, "memory")
}
