//! Live sessions, and what comes of them.
use crate::asserts::expect_same_for;
use crate::live::readers::{Gives, Reader};
use jdwp_end::Ended;
use jdwp_engine::{LiveStreams, Patience, serve_live};
use jdwp_script_machine::ScriptMachine;
use jdwp_target::TargetOptions;
use std::alloc::Global;
use std::process::Abort;

/// A target over the machine of a script.
pub(crate) type Target = jdwp_target::Target<ScriptMachine>;

/// A closed target over this script whose threads are not suspended at the start, on the heap.
pub(crate) fn target(rt: &impl Abort, alloc: Global, script: &str) -> Box<Target> {
    let options = TargetOptions::new(false, 65535).expect(rt, "the count limit is taken");
    let machine = ScriptMachine::read(alloc, script).expect(rt, "the script is read");
    let target = Target::new(alloc, machine, options).expect(rt, "memory");
    Box::new(alloc, target).expect(rt, "memory")
}

/// A session that was served: how it ended, how long each read was to wait, and what was written.
#[derive(Drop)]
pub(crate) struct AfterServing {
    pub ended: Ended,
    pub asked: Vec<Patience>,
    pub written: Vec<u8>,
}

/// Serves one live session whose reads are given these.
pub(crate) fn served(
    alloc: Global,
    target: &mut Target,
    gives: &[Gives],
    rounds: u64,
) -> AfterServing {
    let reader = Reader::new(gives, Vec::new(alloc));
    let mut pipe = LiveStreams::new(reader, Vec::new(alloc));
    let ended = serve_live(target, &mut pipe, rounds);
    let (reader, written) = pipe.into_parts();
    AfterServing {
        ended,
        asked: reader.into_asked(),
        written,
    }
}

/// A session ended so, and its reads were to wait so long.
pub(crate) fn expect_served(
    rt: &impl Abort,
    served: &AfterServing,
    ended: Ended,
    asked: &[Patience],
    note: &u32,
) {
    expect_same_for(rt, &served.ended, &ended, note);
    expect_same_for(rt, &served.asked.as_slice(), &asked, note);
}
