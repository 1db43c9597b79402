//! The commands that the harness asks.
use milunovesk::commands::answers::one_list;
use milunovesk::commands::event_request;
use milunovesk::{
    Answer, Command, EventKind, Location, MethodId, Modifier, NoMemory, Policy, ReferenceTypeId,
    TypeTag,
};
use std::alloc::Global;

/// A breakpoint at index 3 of method 20 of class 10, which suspends the thread that reaches it.
///
/// # Errors
/// `NoMemory` where an allocation was refused.
pub fn breakpoint(alloc: Global) -> Result<Command, NoMemory> {
    let location = Location::At {
        tag: TypeTag::Class,
        class: ReferenceTypeId(10),
        method: MethodId(20),
        index: 3,
    };
    let modifiers = vec![in alloc; Modifier::LocationOnly(location)]?;
    event_request::set(alloc, EventKind::Breakpoint, Policy::EventThread, modifiers)
}

/// How many frames an answer to Frames lists; 0 where it is an error.
pub fn frame_count(answer: &Answer) -> usize {
    one_list(answer).map_or(0, |frames| frames.len())
}
