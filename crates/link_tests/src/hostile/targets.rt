//! Targets over a machine of two threads, and what they answer.
use jdwp_script_machine::ScriptMachine;
use jdwp_target::{TargetFault, TargetOptions, Turn};
use jdwp_value::ObjectId;
use std::alloc::Global;
use std::process::Abort;
use test_parts::MACHINE_A;

/// A target over the machine of a script.
pub(crate) type Target = jdwp_target::Target<ScriptMachine>;

/// A closed target over that machine, no thread of which begins suspended, on the heap: where a function holds one itself, each part of it is
/// proved to be let go there.
pub(crate) fn target(rt: &impl Abort, alloc: Global) -> Box<Target> {
    let options = TargetOptions::new(false, 65_535).expect(rt, "a count limit");
    let machine = ScriptMachine::read(alloc, MACHINE_A).expect(rt, "the script is read");
    let target = Target::new(alloc, machine, options).expect(rt, "memory");
    Box::new(alloc, target).expect(rt, "memory")
}

/// What a target answers to what came.
#[derive(Clone, Copy)]
pub(crate) struct Course {
    /// How many messages were handled.
    pub(crate) messages: u32,
    /// The fault of the turn that failed.
    pub(crate) fault: Option<TargetFault>,
    /// What was sent: this many of the bytes.
    pub(crate) sent: usize,
    pub(crate) bytes: [u8; 256],
}

/// Turns until nothing is left to handle or a turn fails, 32 times at most, and takes what is sent.
pub(crate) fn handled(target: &mut Target) -> Course {
    let mut all = Course {
        messages: 0,
        fault: None,
        sent: 0,
        bytes: [0; 256],
    };
    for _ in 0..32u32 {
        match target.turn() {
            Ok(Turn::Nothing) => break,
            Ok(_) => all.messages = all.messages.saturating_add(1),
            Err(fault) => {
                all.fault = Some(fault);
                break;
            }
        }
        let from = all.sent.min(256);
        all.sent = from.saturating_add(target.take(&mut all.bytes[from..]));
    }
    all
}

/// Whether the target stands as after a loss: closed, nothing is taken or waits to leave, nobody is suspended and nothing requested.
pub(crate) fn is_lost(target: &mut Target) -> bool {
    !target.is_open()
        && target.feed(&[0]) == 0
        && target.room() == 0
        && target.waiting() == 0
        && target.turn() == Ok(Turn::Nothing)
        && target.take(&mut [0]) == 0
        && target.count(ObjectId(1)) == Some(0)
        && target.count(ObjectId(2)) == Some(0)
        && target.requests().is_empty()
}
