//! The commands of the set ObjectReference (JDWP specification, "Protocol Details").
ghost use Rattle.std.specs.Prelude.{IfOk};
ghost use Rattle.jdwp_layout.specs.CommandNumbers as commands;
ghost use Rattle.jdwp_command.specs.Asks.{Asks};
ghost use Rattle.jdwp_command.specs.Contents.{of_fields, of_object};

use crate::entries::field_entries;
use crate::made::{about_object, made};
use jdwp_layout::numbers::{
    DISABLE_COLLECTION, ENABLE_COLLECTION, GET_FIELDS, IS_COLLECTED, OBJECT_REFERENCE, OBJECT_TYPE,
};
use jdwp_layout::{Datum, Scalar};
use jdwp_mirror::Command;
use jdwp_value::{FieldId, ObjectId};
use jdwp_wire::NoMemory;
use std::alloc::Global;

/// ObjectReference.ReferenceType: the class of an object. The reply is a type tag and a class id.
///
/// # Errors
/// `NoMemory` where an allocation was refused.
pub fn reference_type(alloc: Global, object: ObjectId) -> Result<Command, NoMemory>
    ensures { IfOk result (Asks commands.OBJECT_TYPE (of_object object)) }
{
    about_object(alloc, OBJECT_REFERENCE, OBJECT_TYPE, object)
}

/// ObjectReference.GetValues: the values of fields of an object. The reply is a list of values, in the order asked.
///
/// # Errors
/// `NoMemory` where an allocation was refused.
pub fn get_values(alloc: Global, object: ObjectId, fields: &[FieldId]) -> Result<Command, NoMemory>
    ensures { IfOk result (Asks commands.GET_FIELDS (of_fields object fields.now)) }
{
    let entries = field_entries(alloc, fields)?;
    let items = vec![in alloc; Datum::One(Scalar::ObjectId(object)), Datum::Many(entries)]?;
    Ok(made(OBJECT_REFERENCE, GET_FIELDS, items))
}

/// ObjectReference.DisableCollection: an object is not to be collected. The reply is empty.
///
/// # Errors
/// `NoMemory` where an allocation was refused.
pub fn disable_collection(alloc: Global, object: ObjectId) -> Result<Command, NoMemory>
    ensures { IfOk result (Asks commands.DISABLE_COLLECTION (of_object object)) }
{
    about_object(alloc, OBJECT_REFERENCE, DISABLE_COLLECTION, object)
}

/// ObjectReference.EnableCollection: an object may be collected again. The reply is empty.
///
/// # Errors
/// `NoMemory` where an allocation was refused.
pub fn enable_collection(alloc: Global, object: ObjectId) -> Result<Command, NoMemory>
    ensures { IfOk result (Asks commands.ENABLE_COLLECTION (of_object object)) }
{
    about_object(alloc, OBJECT_REFERENCE, ENABLE_COLLECTION, object)
}

/// ObjectReference.IsCollected: whether an object was collected. The reply is a boolean.
///
/// # Errors
/// `NoMemory` where an allocation was refused.
pub fn is_collected(alloc: Global, object: ObjectId) -> Result<Command, NoMemory>
    ensures { IfOk result (Asks commands.IS_COLLECTED (of_object object)) }
{
    about_object(alloc, OBJECT_REFERENCE, IS_COLLECTED, object)
}
