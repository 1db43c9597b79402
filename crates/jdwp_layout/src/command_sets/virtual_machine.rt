//! The commands of the set VirtualMachine (JDWP specification, "Protocol Details").
ghost use Rattle.std.specs.Prelude.{◌≡◌};
ghost use Rattle.jdwp_layout.specs.Rows.{found_row, look_up};
ghost use Rattle.jdwp_layout.specs.CommandTable.{virtual_machine_rows};

use crate::command::CommandRow;
use crate::row_macros::{answered, raw, starred};

static VERSION: CommandRow =
    answered!(VirtualMachine.Version: [] => [String, Int, Int, String, String]);

static CLASSES_BY_SIGNATURE: CommandRow =
    answered!(VirtualMachine.ClassesBySignature: [String] => [list(Byte, ReferenceTypeId, Int)]);

static ALL_CLASSES: CommandRow =
    answered!(VirtualMachine.AllClasses: [] => [list(Byte, ReferenceTypeId, String, Int)]);

static ALL_THREADS: CommandRow = answered!(VirtualMachine.AllThreads: [] => [list(ObjectId)]);

static TOP_LEVEL_THREAD_GROUPS: CommandRow =
    answered!(VirtualMachine.TopLevelThreadGroups: [] => [list(ObjectId)]);

static DISPOSE: CommandRow = answered!(VirtualMachine.Dispose: [] => []);

static ID_SIZES: CommandRow = answered!(VirtualMachine.IDSizes: [] => [Int, Int, Int, Int, Int]);

static SUSPEND: CommandRow = answered!(VirtualMachine.Suspend: [] => []);

static RESUME: CommandRow = answered!(VirtualMachine.Resume: [] => []);

static EXIT: CommandRow = answered!(VirtualMachine.Exit: [Int] => []);

static CREATE_STRING: CommandRow = starred!(VirtualMachine.CreateString: [String] => [ObjectId]);

static CAPABILITIES: CommandRow =
    answered!(VirtualMachine.Capabilities: [] => [Boolean, Boolean, Boolean, Boolean, Boolean, Boolean, Boolean]);

static CLASS_PATHS: CommandRow = raw!(VirtualMachine.ClassPaths);

static DISPOSE_OBJECTS: CommandRow =
    answered!(VirtualMachine.DisposeObjects: [list(ObjectId, Int)] => []);

static HOLD_EVENTS: CommandRow = answered!(VirtualMachine.HoldEvents: [] => []);

static RELEASE_EVENTS: CommandRow = answered!(VirtualMachine.ReleaseEvents: [] => []);

static CAPABILITIES_NEW: CommandRow =
    answered!(VirtualMachine.CapabilitiesNew: [] => [Boolean, Boolean, Boolean, Boolean, Boolean, Boolean, Boolean, Boolean, Boolean, Boolean, Boolean, Boolean, Boolean, Boolean, Boolean, Boolean, Boolean, Boolean, Boolean, Boolean, Boolean, Boolean, Boolean, Boolean, Boolean, Boolean, Boolean, Boolean, Boolean, Boolean, Boolean, Boolean]);

static REDEFINE_CLASSES: CommandRow = raw!(VirtualMachine.RedefineClasses);

static SET_DEFAULT_STRATUM: CommandRow = starred!(VirtualMachine.SetDefaultStratum: [String] => []);

static ALL_CLASSES_WITH_GENERIC: CommandRow =
    answered!(VirtualMachine.AllClassesWithGeneric: [] => [list(Byte, ReferenceTypeId, String, String, Int)]);

static INSTANCE_COUNTS: CommandRow =
    starred!(VirtualMachine.InstanceCounts: [list(ReferenceTypeId)] => [list(Long)]);

static ALL_MODULES: CommandRow = answered!(VirtualMachine.AllModules: [] => [list(ObjectId)]);

/// The row of a command of the set VirtualMachine.
pub(crate) fn row_of(command: u8) -> Option<&'static CommandRow>
    ensures { found_row result ≡ look_up command virtual_machine_rows }
{
    match command {
        1 => Some(&VERSION),
        2 => Some(&CLASSES_BY_SIGNATURE),
        3 => Some(&ALL_CLASSES),
        4 => Some(&ALL_THREADS),
        5 => Some(&TOP_LEVEL_THREAD_GROUPS),
        6 => Some(&DISPOSE),
        7 => Some(&ID_SIZES),
        8 => Some(&SUSPEND),
        9 => Some(&RESUME),
        10 => Some(&EXIT),
        11 => Some(&CREATE_STRING),
        12 => Some(&CAPABILITIES),
        13 => Some(&CLASS_PATHS),
        14 => Some(&DISPOSE_OBJECTS),
        15 => Some(&HOLD_EVENTS),
        16 => Some(&RELEASE_EVENTS),
        17 => Some(&CAPABILITIES_NEW),
        18 => Some(&REDEFINE_CLASSES),
        19 => Some(&SET_DEFAULT_STRATUM),
        20 => Some(&ALL_CLASSES_WITH_GENERIC),
        21 => Some(&INSTANCE_COUNTS),
        22 => Some(&ALL_MODULES),
        _ => None,
    }
}
