//! The commands of the set ObjectReference (JDWP specification, "Protocol Details").
ghost use Rattle.std.specs.Prelude.{◌≡◌};
ghost use Rattle.jdwp_layout.specs.Rows.{found_row, look_up};
ghost use Rattle.jdwp_layout.specs.CommandTable.{object_reference_rows};

use crate::command::CommandRow;
use crate::row_macros::{answered, raw, starred};

static REFERENCE_TYPE: CommandRow =
    answered!(ObjectReference.ReferenceType: [ObjectId] => [Byte, ReferenceTypeId]);

static GET_VALUES: CommandRow =
    answered!(ObjectReference.GetValues: [ObjectId, list(FieldId)] => [list(Value)]);

static SET_VALUES: CommandRow = raw!(ObjectReference.SetValues);

static MONITOR_INFO: CommandRow =
    starred!(ObjectReference.MonitorInfo: [ObjectId] => [ObjectId, Int, list(ObjectId)]);

static INVOKE_METHOD: CommandRow = raw!(ObjectReference.InvokeMethod);

static DISABLE_COLLECTION: CommandRow =
    answered!(ObjectReference.DisableCollection: [ObjectId] => []);

static ENABLE_COLLECTION: CommandRow =
    answered!(ObjectReference.EnableCollection: [ObjectId] => []);

static IS_COLLECTED: CommandRow = answered!(ObjectReference.IsCollected: [ObjectId] => [Boolean]);

static REFERRING_OBJECTS: CommandRow =
    starred!(ObjectReference.ReferringObjects: [ObjectId, Int] => [list(TaggedId)]);

/// The row of a command of the set ObjectReference.
pub(crate) fn row_of(command: u8) -> Option<&'static CommandRow>
    ensures { found_row result ≡ look_up command object_reference_rows }
{
    match command {
        1 => Some(&REFERENCE_TYPE),
        2 => Some(&GET_VALUES),
        3 => Some(&SET_VALUES),
        5 => Some(&MONITOR_INFO),
        6 => Some(&INVOKE_METHOD),
        7 => Some(&DISABLE_COLLECTION),
        8 => Some(&ENABLE_COLLECTION),
        9 => Some(&IS_COLLECTED),
        10 => Some(&REFERRING_OBJECTS),
        _ => None,
    }
}
