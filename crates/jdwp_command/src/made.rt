//! Commands by the families of their layouts.
ghost use Rattle.std.specs.Prelude.{◌≡◌, ◌∷◌, [], IfOk, Some};
ghost use Rattle.jdwp_layout.specs.declared.item.Field.TheVariants as field;
ghost use Rattle.jdwp_layout.specs.CommandNumbers.{METHOD};
ghost use Rattle.jdwp_layout.specs.Meanings.{meanings};
ghost use Rattle.jdwp_layout.specs.Shapes.{OneOf};
ghost use Rattle.jdwp_command.specs.Asks.{Asks};
ghost use Rattle.jdwp_command.specs.Contents.{of_class, of_method, of_object, of_range};
ghost use Rattle.jdwp_command.specs.Layouts.{HasLayout, request_of};

use jdwp_layout::numbers::METHOD;
use jdwp_layout::{Datum, Scalar};
use jdwp_mirror::Command;
use jdwp_value::{MethodId, ObjectId, ReferenceTypeId};
use jdwp_wire::NoMemory;
use std::alloc::Global;

/// The command of a set and a number with these items, which are in the layout of its request.
pub(crate) fn made(set: u8, number: u8, items: Vec<Datum>) -> Command
    requires { HasLayout set number (meanings items.items) }
    ensures { Asks (record { set = set; number = number }) (meanings items.items) result }
{
    Command::new(set, number, items)
}

/// A command that carries nothing. Takes no memory.
pub(crate) fn plain(alloc: Global, set: u8, number: u8) -> Command
    requires { request_of set number ≡ Some [] }
    ensures { Asks (record { set = set; number = number }) [] result }
{
    made(set, number, Vec::new(alloc))
}

/// A command that carries an object.
pub(crate) fn about_object(
    alloc: Global,
    set: u8,
    number: u8,
    object: ObjectId,
) -> Result<Command, NoMemory>
    requires { request_of set number ≡ Some (OneOf field.ObjectId ∷ []) }
    ensures { IfOk result (Asks (record { set = set; number = number }) (of_object object)) }
{
    let items = vec![in alloc; Datum::One(Scalar::ObjectId(object))]?;
    Ok(made(set, number, items))
}

/// A command that carries a class.
pub(crate) fn about_class(
    alloc: Global,
    set: u8,
    number: u8,
    class: ReferenceTypeId,
) -> Result<Command, NoMemory>
    requires { request_of set number ≡ Some (OneOf field.ReferenceTypeId ∷ []) }
    ensures { IfOk result (Asks (record { set = set; number = number }) (of_class class)) }
{
    let items = vec![in alloc; Datum::One(Scalar::ReferenceTypeId(class))]?;
    Ok(made(set, number, items))
}

/// A command of the set Method that carries a method.
pub(crate) fn about_method(
    alloc: Global,
    number: u8,
    class: ReferenceTypeId,
    method: MethodId,
) -> Result<Command, NoMemory>
    requires { request_of METHOD number
        ≡ Some (OneOf field.ReferenceTypeId ∷ OneOf field.MethodId ∷ []) }
    ensures { IfOk result
        (Asks (record { set = METHOD; number = number }) (of_method class method)) }
{
    let items = vec![in alloc;
        Datum::One(Scalar::ReferenceTypeId(class)),
        Datum::One(Scalar::MethodId(method)),
    ]?;
    Ok(made(METHOD, number, items))
}

/// A command that carries an object and some of what it has in a row.
pub(crate) fn about_range(
    alloc: Global,
    set: u8,
    number: u8,
    object: ObjectId,
    first: i32,
    count: i32,
) -> Result<Command, NoMemory>
    requires { request_of set number
        ≡ Some (OneOf field.ObjectId ∷ OneOf field.Int ∷ OneOf field.Int ∷ []) }
    ensures { IfOk result
        (Asks (record { set = set; number = number }) (of_range object first count)) }
{
    let items = vec![in alloc;
        Datum::One(Scalar::ObjectId(object)),
        Datum::One(Scalar::Int(first)),
        Datum::One(Scalar::Int(count)),
    ]?;
    Ok(made(set, number, items))
}
