//! Commands that the debuggee refuses by itself, told from the beginning of their data and without memory.
ghost use Rattle.std.specs.Prelude.{◌≡◌, ◌≤◌, List, Ok, true, false, IfSome};
ghost use Rattle.jdwp_wire.specs.Widths.{Widths};
ghost use Rattle.jdwp_layout.specs.CommandNumbers as commands;
ghost use Rattle.jdwp_layout.specs.Meanings.{DatumMeaning};
ghost use Rattle.jdwp_layout.specs.Reads.{data_at};
ghost use Rattle.jdwp_layout.specs.Shapes.{shapes};
ghost use Rattle.jdwp_action.specs.Actions.{Command, action_of, first_object};
ghost use Rattle.jdwp_action.specs.CommandReads.{command_read};
ghost use Rattle.jdwp_debuggee.specs.Answering.{read_as};
ghost use Rattle.jdwp_debuggee.specs.Askings.{is_short};
ghost use Rattle.jdwp_debuggee.specs.Effects.{effect, refused};
ghost use Rattle.jdwp_debuggee.specs.ReadParts as parts;
ghost use Rattle.jdwp_debuggee.specs.ReadParts.{AsksFor};
ghost use Rattle.jdwp_debuggee.specs.RefusalParts.{found_thread};
ghost use Rattle.jdwp_debuggee.specs.Wants as spec;

use crate::debuggee::Debuggee;
use crate::reading::request_of;
use jdwp_layout::numbers::{
    EVENT_REQUEST, FRAME_COUNT, FRAMES, SET_REQUEST, STACK_FRAME, THREAD_REFERENCE,
};
use jdwp_layout::{Field, Item};
use jdwp_machine::Machine;
use jdwp_value::ObjectId;
use jdwp_wire::{ErrorCode, IdSizes, Wire};
use std::alloc::Global;

/// Whether data of these items begin with an object.
fn begin_with_object(items: &[Item]) -> bool
    ensures { result ≡ parts.begin_with_object (shapes items.now) }
{
    match items {
        [Item::One(Field::ObjectId), ..] => true,
        _ => false,
    }
}

/// The object that data of these items begin with.
fn object_of(alloc: Global, items: &[Item], sizes: &IdSizes, bytes: &[u8]) -> Option<ObjectId>
    ensures { (content : List DatumMeaning) → data_at sizes.now (shapes items.now) bytes.now
        ≡ Ok content → found_thread result ≡ first_object content }
{
    if !begin_with_object(items) {
        return None;
    }
    match ObjectId::take_front(alloc, bytes, bytes.len(), sizes) {
        Ok((object, _)) => Some(object),
        Err(_) => None,
    }
}

/// The kind and the policy that the data of an EventRequest.Set begin with.
fn kind_and_policy(bytes: &[u8]) -> Option<(u8, u8)>
    ensures { (w : Widths) (c : Command) → command_read w commands.SET_REQUEST.set
        commands.SET_REQUEST.number bytes.now ≡ Ok c → AsksFor result (action_of c) }
{
    match bytes {
        [kind, policy, ..] => Some((*kind, *policy)),
        _ => None,
    }
}

/// Whether a command of ThreadReference or StackFrame is about the frames of its thread.
fn asks_of_frames(set: u8, number: u8) -> bool
    ensures { result ≡ spec.asks_of_frames set number }
{
    set == STACK_FRAME || (set == THREAD_REFERENCE && (number == FRAMES || number == FRAME_COUNT))
}

/// Why a command about a thread of this suspend count is refused, where it is about the thread's frames or is not.
fn refusal_by_count(frames: bool, count: Option<u32>) -> Option<ErrorCode>
    ensures value { result ≡ spec.refusal_by_count frames count }
    ensures code { IfSome result (λ error. 1 ≤ error.0) }
{
    match count {
        None => Some(ErrorCode::INVALID_THREAD),
        Some(0) if frames => Some(ErrorCode::THREAD_NOT_SUSPENDED),
        Some(_) => None,
    }
}

impl<M: Machine> Debuggee<M> {
    /// Why the debuggee refuses a command of this set and number by itself, whatever its machine would answer; None where it does not. The
    /// command's data read, and it is none of those that are read without memory. Refused are: a question about a thread that is not alive
    /// (`INVALID_THREAD`), and one about the frames of a thread that runs (`THREAD_NOT_SUSPENDED`); and an EventRequest.Set whose kind
    /// (`INVALID_EVENT_TYPE`, `NOT_IMPLEMENTED`) or policy (`ILLEGAL_ARGUMENT`) is refused, or for which there is no room (`INTERNAL`). It
    /// takes no memory.
    pub fn own_refusal(
        &self,
        alloc: Global,
        set: u8,
        number: u8,
        sizes: &IdSizes,
        bytes: &[u8],
    ) -> Option<ErrorCode>
        ensures value { (c : Command) →
            read_as self.now.settings.profile sizes.now set number bytes.now ≡ Ok c
            → is_short set number ≡ false
            → result ≡ spec.own_refusal self.now.settings self.now.moment.state (action_of c) }
        // It is what the command is answered, and nothing changes.
        ensures effect { IfSome result (λ error. (c : Command) →
            read_as self.now.settings.profile sizes.now set number bytes.now ≡ Ok c
            → is_short set number ≡ false
            → effect M.meaning self.now.settings self.now.moment c
            ≡ refused self.now.moment error) }
        ensures code { IfSome result (λ error. 1 ≤ error.0) }
    {
        match (set, number) {
            (EVENT_REQUEST, SET_REQUEST) => {
                let (kind, policy) = kind_and_policy(bytes)?;
                self.early_refusal(kind, policy)
            }
            (THREAD_REFERENCE | STACK_FRAME, _) => {
                self.refusal_about_thread(alloc, set, number, sizes, bytes)
            }
            _ => None,
        }
    }

    /// Why the debuggee refuses a command of ThreadReference or StackFrame by itself: its thread is not alive, or runs where it has to be
    /// suspended. None where it does not, and where the command's data do not begin with a thread.
    fn refusal_about_thread(
        &self,
        alloc: Global,
        set: u8,
        number: u8,
        sizes: &IdSizes,
        bytes: &[u8],
    ) -> Option<ErrorCode>
        ensures value { (c : Command) → parts.begins_with_thread set ≡ true
            → read_as self.now.settings.profile sizes.now set number bytes.now ≡ Ok c
            → is_short set number ≡ false
            → result ≡ spec.own_refusal self.now.settings self.now.moment.state (action_of c) }
        ensures code { IfSome result (λ error. 1 ≤ error.0) }
    {
        let layout = request_of(self.profile(), set, number)?;
        let thread = object_of(alloc, layout.items, sizes, bytes)?;
        refusal_by_count(asks_of_frames(set, number), self.threads.count(thread))
    }
}
