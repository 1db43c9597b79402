//! Layouts: what stands in the data of a packet, in which order.
ghost use Rattle.std.specs.Prelude.{◌≡◌};
ghost use Rattle.jdwp_layout.specs.ModifiersAndEvents.{modifier_fields, event_fields, kind_fields};
ghost use Rattle.jdwp_layout.specs.Shapes.{entry_shape, found_fields};

use crate::{event_kinds, modifier_kinds};

/// One value (JDWP specification, "Data Types").
#[derive(Clone, Copy, Debug, PartialEq, Eq)]
pub enum Field {
    /// One unsigned byte.
    Byte,
    /// One byte: 0 is false, and any other is true.
    Boolean,
    /// 4 bytes, signed.
    Int,
    /// 8 bytes, signed.
    Long,
    /// A length in 4 bytes, and so many bytes of UTF-8.
    String,
    /// The id of an object, and so of a thread, thread group, string, class loader, class object or module.
    ObjectId,
    /// The id of a class, an interface or an array type.
    ReferenceTypeId,
    /// The id of a method of a reference type.
    MethodId,
    /// The id of a field of a reference type.
    FieldId,
    /// The id of a frame of a thread.
    FrameId,
    /// A place in a method, or none.
    Location,
    /// A tag, and what the tag calls for.
    Value,
    /// An object tag and an object id.
    TaggedId,
}

/// What is repeated in a list.
#[derive(Clone, Copy, Debug, PartialEq, Eq)]
pub enum Entry {
    /// These fields, one after another.
    Fields(&'static [Field]),
    /// A modifier of an event request: a kind byte, and the fields of that kind.
    Modifier,
    /// An event of a composite: a kind byte, the id of the request, and the fields of that kind.
    Event,
}

/// An item of a layout.
#[derive(Clone, Copy, Debug, PartialEq, Eq)]
pub enum Item {
    /// One field.
    One(Field),
    /// An int count, and so many entries.
    Many(Entry),
    /// An array region: a tag, an int count, and so many elements.
    Region,
}

/// Items, one after another.
#[derive(Clone, Copy, Debug, PartialEq, Eq)]
pub struct Layout {
    pub items: &'static [Item],
}

static COUNT: [Field; 1] = [Field::Int];

static THREAD: [Field; 1] = [Field::ObjectId];

static CLASS: [Field; 1] = [Field::ReferenceTypeId];

static PATTERN: [Field; 1] = [Field::String];

static PLACE: [Field; 1] = [Field::Location];

static EXCEPTION_ONLY: [Field; 3] = [Field::ReferenceTypeId, Field::Boolean, Field::Boolean];

static FIELD_ONLY: [Field; 2] = [Field::ReferenceTypeId, Field::FieldId];

static STEP: [Field; 3] = [Field::ObjectId, Field::Int, Field::Int];

/// The fields after the kind byte of a modifier; None where no modifier has this kind.
pub fn fields_of_modifier(kind: u8) -> Option<&'static [Field]>
    ensures { found_fields result ≡ modifier_fields kind }
{
    match kind {
        modifier_kinds::COUNT | modifier_kinds::CONDITIONAL => Some(&COUNT),
        modifier_kinds::THREAD_ONLY | modifier_kinds::INSTANCE_ONLY => Some(&THREAD),
        modifier_kinds::CLASS_ONLY => Some(&CLASS),
        modifier_kinds::CLASS_MATCH
        | modifier_kinds::CLASS_EXCLUDE
        | modifier_kinds::SOURCE_NAME_MATCH => Some(&PATTERN),
        modifier_kinds::LOCATION_ONLY => Some(&PLACE),
        modifier_kinds::EXCEPTION_ONLY => Some(&EXCEPTION_ONLY),
        modifier_kinds::FIELD_ONLY => Some(&FIELD_ONLY),
        modifier_kinds::STEP => Some(&STEP),
        _ => None,
    }
}

static DEATH: [Field; 1] = [Field::Int];

static OF_THREAD: [Field; 2] = [Field::Int, Field::ObjectId];

static AT_PLACE: [Field; 3] = [Field::Int, Field::ObjectId, Field::Location];

static RETURN: [Field; 4] = [Field::Int, Field::ObjectId, Field::Location, Field::Value];

static EXCEPTION: [Field; 5] = [
    Field::Int,
    Field::ObjectId,
    Field::Location,
    Field::TaggedId,
    Field::Location,
];

static PREPARE: [Field; 6] = [
    Field::Int,
    Field::ObjectId,
    Field::Byte,
    Field::ReferenceTypeId,
    Field::String,
    Field::Int,
];

static UNLOAD: [Field; 2] = [Field::Int, Field::String];

static ACCESS: [Field; 7] = [
    Field::Int,
    Field::ObjectId,
    Field::Location,
    Field::Byte,
    Field::ReferenceTypeId,
    Field::FieldId,
    Field::TaggedId,
];

static MODIFICATION: [Field; 8] = [
    Field::Int,
    Field::ObjectId,
    Field::Location,
    Field::Byte,
    Field::ReferenceTypeId,
    Field::FieldId,
    Field::TaggedId,
    Field::Value,
];

static CONTENDED: [Field; 4] = [
    Field::Int,
    Field::ObjectId,
    Field::TaggedId,
    Field::Location,
];

static WAIT: [Field; 5] = [
    Field::Int,
    Field::ObjectId,
    Field::TaggedId,
    Field::Location,
    Field::Long,
];

static WAITED: [Field; 5] = [
    Field::Int,
    Field::ObjectId,
    Field::TaggedId,
    Field::Location,
    Field::Boolean,
];

/// The fields after the kind byte of an event, of which the first is the id of the request; None where no event
/// has this kind.
pub fn fields_of_event(kind: u8) -> Option<&'static [Field]>
    ensures { found_fields result ≡ event_fields kind }
{
    match kind {
        event_kinds::SINGLE_STEP
        | event_kinds::BREAKPOINT
        | event_kinds::METHOD_ENTRY
        | event_kinds::METHOD_EXIT => Some(&AT_PLACE),
        event_kinds::EXCEPTION => Some(&EXCEPTION),
        event_kinds::THREAD_START | event_kinds::THREAD_DEATH | event_kinds::VM_START => {
            Some(&OF_THREAD)
        }
        event_kinds::CLASS_PREPARE => Some(&PREPARE),
        event_kinds::CLASS_UNLOAD => Some(&UNLOAD),
        event_kinds::FIELD_ACCESS => Some(&ACCESS),
        event_kinds::FIELD_MODIFICATION => Some(&MODIFICATION),
        event_kinds::METHOD_EXIT_WITH_RETURN_VALUE => Some(&RETURN),
        event_kinds::MONITOR_CONTENDED_ENTER | event_kinds::MONITOR_CONTENDED_ENTERED => {
            Some(&CONTENDED)
        }
        event_kinds::MONITOR_WAIT => Some(&WAIT),
        event_kinds::MONITOR_WAITED => Some(&WAITED),
        event_kinds::VM_DEATH => Some(&DEATH),
        _ => None,
    }
}

/// The fields after the kind byte of an entry that has one; None where no such entry has this kind.
pub(crate) fn fields_of_kind(entry: Entry, kind: u8) -> Option<&'static [Field]>
    ensures { found_fields result ≡ kind_fields (entry_shape entry) kind }
{
    match entry {
        Entry::Fields(_) => None,
        Entry::Modifier => fields_of_modifier(kind),
        Entry::Event => fields_of_event(kind),
    }
}
