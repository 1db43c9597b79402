//! The commands of the set VirtualMachine (JDWP specification, "Protocol Details").
ghost use Rattle.std.specs.Prelude.{[], IfOk};
ghost use Rattle.jdwp_layout.specs.CommandNumbers as commands;
ghost use Rattle.jdwp_command.specs.Asks.{Asks};
ghost use Rattle.jdwp_command.specs.Contents.{of_disposed, of_int, of_text};

use crate::entries::disposed_entries;
use crate::made::{made, plain};
use jdwp_layout::numbers::{
    ALL_CLASSES, ALL_CLASSES_WITH_GENERIC, ALL_MODULES, ALL_THREADS, CAPABILITIES,
    CAPABILITIES_NEW, CLASSES_BY_SIGNATURE, DISPOSE, DISPOSE_OBJECTS, EXIT, HOLD_EVENTS, ID_SIZES,
    RELEASE_EVENTS, RESUME, SUSPEND, TOP_LEVEL_THREAD_GROUPS, VERSION, VIRTUAL_MACHINE,
};
use jdwp_layout::{Datum, Scalar};
use jdwp_mirror::Command;
use jdwp_value::ObjectId;
use jdwp_wire::NoMemory;
use std::alloc::Global;

/// VirtualMachine.Version: what the machine says of itself. The reply is a text, two ints and two texts. Takes no memory.
pub fn version(alloc: Global) -> Command
    ensures { Asks commands.VERSION [] result }
{
    plain(alloc, VIRTUAL_MACHINE, VERSION)
}

/// VirtualMachine.ClassesBySignature: the classes of a signature, as `Ljava/lang/String;`. The reply is a list of type tags, class ids and
/// statuses.
///
/// # Errors
/// `NoMemory` where an allocation was refused.
pub fn classes_by_signature(alloc: Global, signature: &str) -> Result<Command, NoMemory>
    ensures { IfOk result (Asks commands.CLASSES_BY_SIGNATURE (of_text signature.now)) }
{
    let text = String::from_str(alloc, signature)?;
    let items = vec![in alloc; Datum::One(Scalar::String(text))]?;
    Ok(made(VIRTUAL_MACHINE, CLASSES_BY_SIGNATURE, items))
}

/// VirtualMachine.AllClasses: the classes. The reply is a list of type tags, class ids, signatures and statuses. Takes no memory.
pub fn all_classes(alloc: Global) -> Command
    ensures { Asks commands.ALL_CLASSES [] result }
{
    plain(alloc, VIRTUAL_MACHINE, ALL_CLASSES)
}

/// VirtualMachine.AllThreads: the threads that live. The reply is a list of thread ids. Takes no memory.
pub fn all_threads(alloc: Global) -> Command
    ensures { Asks commands.ALL_THREADS [] result }
{
    plain(alloc, VIRTUAL_MACHINE, ALL_THREADS)
}

/// VirtualMachine.TopLevelThreadGroups: the thread groups without a parent. The reply is a list of group ids. Takes no memory.
pub fn top_level_thread_groups(alloc: Global) -> Command
    ensures { Asks commands.TOP_LEVEL_THREAD_GROUPS [] result }
{
    plain(alloc, VIRTUAL_MACHINE, TOP_LEVEL_THREAD_GROUPS)
}

/// VirtualMachine.Dispose: the session ends, its event requests are cleared, and all that it suspended goes on. The reply is empty. Takes
/// no memory.
pub fn dispose(alloc: Global) -> Command
    ensures { Asks commands.DISPOSE [] result }
{
    plain(alloc, VIRTUAL_MACHINE, DISPOSE)
}

/// VirtualMachine.IDSizes: how many bytes ids have. The reply is five ints. A debugger asks this by itself, before any other command. Takes
/// no memory.
pub fn id_sizes(alloc: Global) -> Command
    ensures { Asks commands.ID_SIZES [] result }
{
    plain(alloc, VIRTUAL_MACHINE, ID_SIZES)
}

/// VirtualMachine.Suspend: every thread is suspended once more. The reply is empty. Takes no memory.
pub fn suspend(alloc: Global) -> Command
    ensures { Asks commands.SUSPEND [] result }
{
    plain(alloc, VIRTUAL_MACHINE, SUSPEND)
}

/// VirtualMachine.Resume: every thread is suspended once less. The reply is empty. Takes no memory.
pub fn resume(alloc: Global) -> Command
    ensures { Asks commands.RESUME [] result }
{
    plain(alloc, VIRTUAL_MACHINE, RESUME)
}

/// VirtualMachine.Exit: the machine ends, with this exit code. The reply is empty.
///
/// # Errors
/// `NoMemory` where an allocation was refused.
pub fn exit(alloc: Global, code: i32) -> Result<Command, NoMemory>
    ensures { IfOk result (Asks commands.EXIT (of_int code)) }
{
    let items = vec![in alloc; Datum::One(Scalar::Int(code))]?;
    Ok(made(VIRTUAL_MACHINE, EXIT, items))
}

/// VirtualMachine.Capabilities: what the machine can do. The reply is seven booleans. Takes no memory.
pub fn capabilities(alloc: Global) -> Command
    ensures { Asks commands.CAPABILITIES [] result }
{
    plain(alloc, VIRTUAL_MACHINE, CAPABILITIES)
}

/// VirtualMachine.DisposeObjects: the debugger is done with these objects, each of which it was told of at least so many times. The reply
/// is empty.
///
/// # Errors
/// `NoMemory` where an allocation was refused.
pub fn dispose_objects(alloc: Global, objects: &[(ObjectId, i32)]) -> Result<Command, NoMemory>
    ensures { IfOk result (Asks commands.DISPOSE_OBJECTS (of_disposed objects.now)) }
{
    let entries = disposed_entries(alloc, objects)?;
    let items = vec![in alloc; Datum::Many(entries)]?;
    Ok(made(VIRTUAL_MACHINE, DISPOSE_OBJECTS, items))
}

/// VirtualMachine.HoldEvents: events are reported no more until ReleaseEvents. The reply is empty. Takes no memory.
pub fn hold_events(alloc: Global) -> Command
    ensures { Asks commands.HOLD_EVENTS [] result }
{
    plain(alloc, VIRTUAL_MACHINE, HOLD_EVENTS)
}

/// VirtualMachine.ReleaseEvents: events are reported again. The reply is empty. Takes no memory.
pub fn release_events(alloc: Global) -> Command
    ensures { Asks commands.RELEASE_EVENTS [] result }
{
    plain(alloc, VIRTUAL_MACHINE, RELEASE_EVENTS)
}

/// VirtualMachine.CapabilitiesNew: what the machine can do. The reply is 32 booleans. Takes no memory.
pub fn capabilities_new(alloc: Global) -> Command
    ensures { Asks commands.CAPABILITIES_NEW [] result }
{
    plain(alloc, VIRTUAL_MACHINE, CAPABILITIES_NEW)
}

/// VirtualMachine.AllClassesWithGeneric: the classes. The reply is a list of type tags, class ids, signatures, generic signatures and
/// statuses. Takes no memory.
pub fn all_classes_with_generic(alloc: Global) -> Command
    ensures { Asks commands.ALL_CLASSES_WITH_GENERIC [] result }
{
    plain(alloc, VIRTUAL_MACHINE, ALL_CLASSES_WITH_GENERIC)
}

/// VirtualMachine.AllModules: the modules. The reply is a list of module ids. Takes no memory.
pub fn all_modules(alloc: Global) -> Command
    ensures { Asks commands.ALL_MODULES [] result }
{
    plain(alloc, VIRTUAL_MACHINE, ALL_MODULES)
}
