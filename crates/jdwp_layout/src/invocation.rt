//! Invocations of methods: ClassType.InvokeMethod, InterfaceType.InvokeMethod and ObjectReference.InvokeMethod, whose data the table of
//! commands does not read (JDWP specification, "ClassType", "InterfaceType" and "ObjectReference").
ghost use Rattle.std.specs.Prelude.{◌≡◌, option_map};
ghost use Rattle.jdwp_layout.specs.Invocations.{invocation_reply, invocation_request};
ghost use Rattle.jdwp_layout.specs.Shapes.{shape};

use crate::item::{Entry, Field, Item, Layout};
use crate::numbers::{
    CLASS_INVOKE, CLASS_TYPE, INTERFACE_INVOKE, INTERFACE_TYPE, OBJECT_INVOKE, OBJECT_REFERENCE,
};

/// What ClassType.InvokeMethod and InterfaceType.InvokeMethod carry: a type, a thread, a method, arguments and options.
pub const OF_TYPE: Layout = Layout {
    items: &[
        Item::One(Field::ReferenceTypeId),
        Item::One(Field::ObjectId),
        Item::One(Field::MethodId),
        Item::Many(Entry::Fields(&[Field::Value])),
        Item::One(Field::Int),
    ],
};

/// What ObjectReference.InvokeMethod carries: an object, a thread, a class, a method, arguments and options.
pub const OF_OBJECT: Layout = Layout {
    items: &[
        Item::One(Field::ObjectId),
        Item::One(Field::ObjectId),
        Item::One(Field::ReferenceTypeId),
        Item::One(Field::MethodId),
        Item::Many(Entry::Fields(&[Field::Value])),
        Item::One(Field::Int),
    ],
};

/// What the reply of an invocation carries: what was returned, and what was thrown.
pub const REPLY: Layout = Layout {
    items: &[Item::One(Field::Value), Item::One(Field::TaggedId)],
};

/// The layout of the data of a command of this set and number, if it is an invocation.
pub fn request_layout(set: u8, number: u8) -> Option<Layout>
    ensures { option_map shape result ≡ invocation_request set number }
{
    match (set, number) {
        (CLASS_TYPE, CLASS_INVOKE) | (INTERFACE_TYPE, INTERFACE_INVOKE) => Some(OF_TYPE),
        (OBJECT_REFERENCE, OBJECT_INVOKE) => Some(OF_OBJECT),
        _ => None,
    }
}

/// The layout of the data of an invocation's reply.
pub fn reply_layout() -> Layout
    ensures { shape result ≡ invocation_reply }
{
    REPLY
}
