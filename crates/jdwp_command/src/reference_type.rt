//! The commands of the set ReferenceType (JDWP specification, "Protocol Details").
ghost use Rattle.std.specs.Prelude.{IfOk};
ghost use Rattle.jdwp_layout.specs.CommandNumbers as commands;
ghost use Rattle.jdwp_command.specs.Asks.{Asks};
ghost use Rattle.jdwp_command.specs.Contents.{of_class, of_static_fields};

use crate::entries::field_entries;
use crate::made::{about_class, made};
use jdwp_layout::numbers::{
    CLASS_LOADER, CLASS_MODULE, CLASS_STATUS, FIELDS, FIELDS_WITH_GENERIC, GET_STATICS, INTERFACES,
    METHODS, METHODS_WITH_GENERIC, MODIFIERS, REFERENCE_TYPE, SIGNATURE, SIGNATURE_WITH_GENERIC,
    SOURCE_FILE,
};
use jdwp_layout::{Datum, Scalar};
use jdwp_mirror::Command;
use jdwp_value::{FieldId, ReferenceTypeId};
use jdwp_wire::NoMemory;
use std::alloc::Global;

/// ReferenceType.Signature of a class. The reply is a text.
///
/// # Errors
/// `NoMemory` where an allocation was refused.
pub fn signature(alloc: Global, class: ReferenceTypeId) -> Result<Command, NoMemory>
    ensures { IfOk result (Asks commands.SIGNATURE (of_class class)) }
{
    about_class(alloc, REFERENCE_TYPE, SIGNATURE, class)
}

/// ReferenceType.ClassLoader of a class. The reply is an object id, 0 for the bootstrap loader.
///
/// # Errors
/// `NoMemory` where an allocation was refused.
pub fn class_loader(alloc: Global, class: ReferenceTypeId) -> Result<Command, NoMemory>
    ensures { IfOk result (Asks commands.CLASS_LOADER (of_class class)) }
{
    about_class(alloc, REFERENCE_TYPE, CLASS_LOADER, class)
}

/// ReferenceType.Modifiers of a class. The reply is an int, of bits.
///
/// # Errors
/// `NoMemory` where an allocation was refused.
pub fn modifiers(alloc: Global, class: ReferenceTypeId) -> Result<Command, NoMemory>
    ensures { IfOk result (Asks commands.MODIFIERS (of_class class)) }
{
    about_class(alloc, REFERENCE_TYPE, MODIFIERS, class)
}

/// ReferenceType.Fields of a class. The reply is a list of field ids, names, signatures and modifiers.
///
/// # Errors
/// `NoMemory` where an allocation was refused.
pub fn fields(alloc: Global, class: ReferenceTypeId) -> Result<Command, NoMemory>
    ensures { IfOk result (Asks commands.FIELDS (of_class class)) }
{
    about_class(alloc, REFERENCE_TYPE, FIELDS, class)
}

/// ReferenceType.Methods of a class. The reply is a list of method ids, names, signatures and modifiers.
///
/// # Errors
/// `NoMemory` where an allocation was refused.
pub fn methods(alloc: Global, class: ReferenceTypeId) -> Result<Command, NoMemory>
    ensures { IfOk result (Asks commands.METHODS (of_class class)) }
{
    about_class(alloc, REFERENCE_TYPE, METHODS, class)
}

/// ReferenceType.GetValues: the values of static fields of a class. The reply is a list of values, in the order asked.
///
/// # Errors
/// `NoMemory` where an allocation was refused.
pub fn get_values(
    alloc: Global,
    class: ReferenceTypeId,
    fields: &[FieldId],
) -> Result<Command, NoMemory>
    ensures { IfOk result (Asks commands.GET_STATICS (of_static_fields class fields.now)) }
{
    let entries = field_entries(alloc, fields)?;
    let items = vec![in alloc;
        Datum::One(Scalar::ReferenceTypeId(class)),
        Datum::Many(entries),
    ]?;
    Ok(made(REFERENCE_TYPE, GET_STATICS, items))
}

/// ReferenceType.SourceFile of a class. The reply is a text.
///
/// # Errors
/// `NoMemory` where an allocation was refused.
pub fn source_file(alloc: Global, class: ReferenceTypeId) -> Result<Command, NoMemory>
    ensures { IfOk result (Asks commands.SOURCE_FILE (of_class class)) }
{
    about_class(alloc, REFERENCE_TYPE, SOURCE_FILE, class)
}

/// ReferenceType.Status of a class. The reply is an int, of bits: 1 verified, 2 prepared, 4 initialized, 8 an error.
///
/// # Errors
/// `NoMemory` where an allocation was refused.
pub fn status(alloc: Global, class: ReferenceTypeId) -> Result<Command, NoMemory>
    ensures { IfOk result (Asks commands.CLASS_STATUS (of_class class)) }
{
    about_class(alloc, REFERENCE_TYPE, CLASS_STATUS, class)
}

/// ReferenceType.Interfaces that a class declares. The reply is a list of interface ids.
///
/// # Errors
/// `NoMemory` where an allocation was refused.
pub fn interfaces(alloc: Global, class: ReferenceTypeId) -> Result<Command, NoMemory>
    ensures { IfOk result (Asks commands.INTERFACES (of_class class)) }
{
    about_class(alloc, REFERENCE_TYPE, INTERFACES, class)
}

/// ReferenceType.SignatureWithGeneric of a class. The reply is two texts, the signature and the generic one.
///
/// # Errors
/// `NoMemory` where an allocation was refused.
pub fn signature_with_generic(alloc: Global, class: ReferenceTypeId) -> Result<Command, NoMemory>
    ensures { IfOk result (Asks commands.SIGNATURE_WITH_GENERIC (of_class class)) }
{
    about_class(alloc, REFERENCE_TYPE, SIGNATURE_WITH_GENERIC, class)
}

/// ReferenceType.FieldsWithGeneric of a class. The reply is a list of field ids, names, signatures, generic signatures and modifiers.
///
/// # Errors
/// `NoMemory` where an allocation was refused.
pub fn fields_with_generic(alloc: Global, class: ReferenceTypeId) -> Result<Command, NoMemory>
    ensures { IfOk result (Asks commands.FIELDS_WITH_GENERIC (of_class class)) }
{
    about_class(alloc, REFERENCE_TYPE, FIELDS_WITH_GENERIC, class)
}

/// ReferenceType.MethodsWithGeneric of a class. The reply is a list of method ids, names, signatures, generic signatures and modifiers.
///
/// # Errors
/// `NoMemory` where an allocation was refused.
pub fn methods_with_generic(alloc: Global, class: ReferenceTypeId) -> Result<Command, NoMemory>
    ensures { IfOk result (Asks commands.METHODS_WITH_GENERIC (of_class class)) }
{
    about_class(alloc, REFERENCE_TYPE, METHODS_WITH_GENERIC, class)
}

/// ReferenceType.Module of a class. The reply is a module id, 0 where the class is in none.
///
/// # Errors
/// `NoMemory` where an allocation was refused.
pub fn module(alloc: Global, class: ReferenceTypeId) -> Result<Command, NoMemory>
    ensures { IfOk result (Asks commands.CLASS_MODULE (of_class class)) }
{
    about_class(alloc, REFERENCE_TYPE, CLASS_MODULE, class)
}
