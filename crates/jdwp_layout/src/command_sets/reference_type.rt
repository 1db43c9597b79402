//! The commands of the set ReferenceType (JDWP specification, "Protocol Details").
ghost use Rattle.std.specs.Prelude.{◌≡◌};
ghost use Rattle.jdwp_layout.specs.Rows.{found_row, look_up};
ghost use Rattle.jdwp_layout.specs.CommandTable.{reference_type_rows};

use crate::command::CommandRow;
use crate::row_macros::{answered, starred};

static SIGNATURE: CommandRow = answered!(ReferenceType.Signature: [ReferenceTypeId] => [String]);

static CLASS_LOADER: CommandRow =
    answered!(ReferenceType.ClassLoader: [ReferenceTypeId] => [ObjectId]);

static MODIFIERS: CommandRow = answered!(ReferenceType.Modifiers: [ReferenceTypeId] => [Int]);

static FIELDS: CommandRow =
    answered!(ReferenceType.Fields: [ReferenceTypeId] => [list(FieldId, String, String, Int)]);

static METHODS: CommandRow =
    answered!(ReferenceType.Methods: [ReferenceTypeId] => [list(MethodId, String, String, Int)]);

static GET_VALUES: CommandRow =
    answered!(ReferenceType.GetValues: [ReferenceTypeId, list(FieldId)] => [list(Value)]);

static SOURCE_FILE: CommandRow = answered!(ReferenceType.SourceFile: [ReferenceTypeId] => [String]);

static NESTED_TYPES: CommandRow =
    starred!(ReferenceType.NestedTypes: [ReferenceTypeId] => [list(Byte, ReferenceTypeId)]);

static STATUS: CommandRow = answered!(ReferenceType.Status: [ReferenceTypeId] => [Int]);

static INTERFACES: CommandRow =
    answered!(ReferenceType.Interfaces: [ReferenceTypeId] => [list(ReferenceTypeId)]);

static CLASS_OBJECT: CommandRow =
    starred!(ReferenceType.ClassObject: [ReferenceTypeId] => [ObjectId]);

static SOURCE_DEBUG_EXTENSION: CommandRow =
    starred!(ReferenceType.SourceDebugExtension: [ReferenceTypeId] => [String]);

static SIGNATURE_WITH_GENERIC: CommandRow =
    answered!(ReferenceType.SignatureWithGeneric: [ReferenceTypeId] => [String, String]);

static FIELDS_WITH_GENERIC: CommandRow =
    answered!(ReferenceType.FieldsWithGeneric: [ReferenceTypeId] => [list(FieldId, String, String, String, Int)]);

static METHODS_WITH_GENERIC: CommandRow =
    answered!(ReferenceType.MethodsWithGeneric: [ReferenceTypeId] => [list(MethodId, String, String, String, Int)]);

static INSTANCES: CommandRow =
    starred!(ReferenceType.Instances: [ReferenceTypeId, Int] => [list(TaggedId)]);

static CLASS_FILE_VERSION: CommandRow =
    starred!(ReferenceType.ClassFileVersion: [ReferenceTypeId] => [Int, Int]);

static CONSTANT_POOL: CommandRow =
    starred!(ReferenceType.ConstantPool: [ReferenceTypeId] => [Int, list(Byte)]);

static MODULE: CommandRow = answered!(ReferenceType.Module: [ReferenceTypeId] => [ObjectId]);

/// The row of a command of the set ReferenceType.
pub(crate) fn row_of(command: u8) -> Option<&'static CommandRow>
    ensures { found_row result ≡ look_up command reference_type_rows }
{
    match command {
        1 => Some(&SIGNATURE),
        2 => Some(&CLASS_LOADER),
        3 => Some(&MODIFIERS),
        4 => Some(&FIELDS),
        5 => Some(&METHODS),
        6 => Some(&GET_VALUES),
        7 => Some(&SOURCE_FILE),
        8 => Some(&NESTED_TYPES),
        9 => Some(&STATUS),
        10 => Some(&INTERFACES),
        11 => Some(&CLASS_OBJECT),
        12 => Some(&SOURCE_DEBUG_EXTENSION),
        13 => Some(&SIGNATURE_WITH_GENERIC),
        14 => Some(&FIELDS_WITH_GENERIC),
        15 => Some(&METHODS_WITH_GENERIC),
        16 => Some(&INSTANCES),
        17 => Some(&CLASS_FILE_VERSION),
        18 => Some(&CONSTANT_POOL),
        19 => Some(&MODULE),
        _ => None,
    }
}
