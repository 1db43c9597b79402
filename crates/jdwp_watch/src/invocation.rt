//! Invocations of methods.
ghost use Rattle.std.specs.Prelude.{◌≡◌, ◌==◌, ◌&&◌, drop, if◌then◌else◌};
ghost use Rattle.std.specs.Option.{option_map};
ghost use Rattle.jdwp_apart.specs.Following.{before_thread, invocation_by, invocation_in, is_odd, is_single};
ghost use Rattle.jdwp_apart.specs.Following as following;
ghost use Rattle.jdwp_apart.specs.Messages as messages;
ghost use Rattle.jdwp_action.specs.Actions as actions;
ghost use Rattle.jdwp_mirror.specs.Commands.{carried_meaning};
ghost use Rattle.jdwp_wire.specs.Numbers.{number_at};
ghost use Rattle.jdwp_watch.specs.Watching.{invocation_of};

use jdwp_layout::numbers::{
    CLASS_INVOKE, CLASS_TYPE, INTERFACE_INVOKE, INTERFACE_TYPE, NEW_INSTANCE, OBJECT_INVOKE,
    OBJECT_REFERENCE,
};
use jdwp_mirror::{Carried, Command};
use jdwp_value::ObjectId;
use jdwp_wire::number::take_number;
use jdwp_wire::{IdKind, IdSizes};

/// Which threads run while a method does that a debugger invoked (JDWP specification, "Protocol Details": ClassType.InvokeMethod and
/// NewInstance, InterfaceType.InvokeMethod, ObjectReference.InvokeMethod).
#[derive(Clone, Copy, Debug, PartialEq, Eq)]
pub enum Invocation {
    /// The one that runs it, alone: the option INVOKE_SINGLE_THREADED was asked.
    ByThread(ObjectId),
    /// All.
    ByAll,
}

impl Invocation {
    /// Which threads run while the method does that a command invokes, by its data; None where it invokes none.
    pub fn of(command: &Command, sizes: &IdSizes) -> Option<Invocation>
        ensures { option_map invocation_of result ≡ invocation_in sizes.now command.now }
    {
        if is_invocation(command) {
            let front = bytes_before_thread(command, sizes);
            Some(Invocation::in_carried(command.carried(), front, sizes))
        } else {
            None
        }
    }

    /// Whether it lowers the count of a thread, where that is positive.
    pub(crate) fn releases(self, thread: ObjectId) -> bool
        ensures { messages.one_if result ≡ messages.releases (invocation_of self) thread.0 }
    {
        match self {
            Invocation::ByThread(resumed) => resumed.0 == thread.0,
            Invocation::ByAll => true,
        }
    }

    /// The same by what it carries, where the thread stands behind so many bytes.
    fn in_carried(carried: &Carried, front: usize, sizes: &IdSizes) -> Invocation
        ensures { invocation_of result ≡ invocation_by front sizes.now.object (carried_meaning carried.now) }
    {
        match carried {
            Carried::Raw(bytes) => Invocation::in_bytes(bytes, front, sizes),
            Carried::Content(_) => Invocation::ByAll,
        }
    }

    fn in_bytes(bytes: &[u8], front: usize, sizes: &IdSizes) -> Invocation
        ensures { invocation_of result ≡ invocation_by front sizes.now.object (actions.Raw bytes.now) }
    {
        let found = take_number(
            behind(bytes, front),
            bytes.len(),
            sizes.width(IdKind::Object),
        );
        match found {
            Ok((thread, _)) if is_single(bytes) => Invocation::ByThread(ObjectId(thread)),
            _ => Invocation::ByAll,
        }
    }
}

/// Whether a command invokes a method.
pub fn is_invocation(command: &Command) -> bool
    ensures { result ≡ messages.is_invocation command.now }
{
    is(command, CLASS_TYPE, CLASS_INVOKE)
        || is(command, CLASS_TYPE, NEW_INSTANCE)
        || is(command, INTERFACE_TYPE, INTERFACE_INVOKE)
        || is(command, OBJECT_REFERENCE, OBJECT_INVOKE)
}

fn is(command: &Command, set: u8, number: u8) -> bool
    ensures { result ≡ ((command.now.set == set) && (command.now.number == number)) }
{
    command.set() == set && command.number() == number
}

/// Behind how many bytes the thread stands: the id of an object, or of a reference type.
fn bytes_before_thread(command: &Command, sizes: &IdSizes) -> usize
    ensures { result ≡ before_thread sizes.now command.now }
{
    if is(command, OBJECT_REFERENCE, OBJECT_INVOKE) {
        sizes.object() as usize
    } else {
        sizes.reference() as usize
    }
}

/// Those behind so many bytes.
fn behind(bytes: &[u8], count: usize) -> &[u8]
    ensures { result.now ≡ drop count bytes.now }
{
    if bytes.len() < count {
        &[]
    } else {
        &bytes[count..]
    }
}

/// Whether the option INVOKE_SINGLE_THREADED is there, the lowest bit of the last byte.
fn is_single(bytes: &[u8]) -> bool
    ensures { result ≡ following.is_single bytes.now }
{
    match bytes {
        [] => false,
        [.., last] => *last % 2 == 1,
    }
}
