//! Why a text says no data.
ghost use Rattle.std.specs.Prelude.{◌≡◌};
ghost use Rattle.jdwp_text.specs.declared.text_fault.Stop.TheVariants as stop;

use jdwp_layout::Field;
use jdwp_wire::DataFault;
use std::alloc::{AllocError, AllocFailed};
use thiserror::Error;

/// What is to stand at a place of a text.
#[derive(Clone, Copy, Debug, PartialEq, Eq, Error)]
pub enum Expected {
    /// The space before an item.
    #[error("a space")]
    Space,
    /// A byte.
    #[error("a number from 0 to 255")]
    Byte,
    /// A boolean.
    #[error("`true` or `false`")]
    Boolean,
    /// An int.
    #[error("a number from -2147483648 to 2147483647")]
    Int,
    /// A long.
    #[error("a number from -9223372036854775808 to 9223372036854775807")]
    Long,
    /// A string.
    #[error("a text in double quotes, as \"LMain;\"")]
    Text,
    /// What stands behind a backslash in a string.
    #[error("a double quote, a backslash, or `x` and two hex digits, as \\x0a, behind a backslash")]
    Escape,
    /// The closing quote of a string.
    #[error("a closing double quote")]
    Quote,
    /// An id.
    #[error("an id, as #10")]
    Id,
    /// A location.
    #[error("a location, as 1:#10:#20:3")]
    Location,
    /// A value.
    #[error("a value, as I:7, V or L#5")]
    Value,
    /// An object id and its tag.
    #[error("an object with its tag, as L#5")]
    TaggedId,
    /// A list.
    #[error("a list, as [1, 2] or []")]
    List,
    /// An array region.
    #[error("an array region, as I[1, 2] or L[L#5]")]
    Region,
    /// An element of an array region.
    #[error("an element: the bits of a value as a number, or an object with its tag, as L#5")]
    Element,
    /// An entry of several items.
    #[error("an entry in round brackets, as (1, #2)")]
    Entry,
    /// The kind of a modifier or of an event.
    #[error("the number of a kind")]
    Kind,
    /// What parts two items of an entry.
    #[error("`, `")]
    Separator,
    /// The end of an entry.
    #[error("`)`")]
    EntryEnd,
    /// What parts two entries of a list, or its end.
    #[error("`, ` or `]`")]
    ListEnd,
    /// The end of the text.
    #[error("the end")]
    End,
    /// What `show` prints of these data, of which the text has another form.
    #[error("the form that `show` prints")]
    ShownForm,
}

impl Expected {
    /// What is to stand where a field does.
    pub(crate) fn of(field: Field) -> Expected {
        match field {
            Field::Byte => Expected::Byte,
            Field::Boolean => Expected::Boolean,
            Field::Int => Expected::Int,
            Field::Long => Expected::Long,
            Field::String => Expected::Text,
            Field::ObjectId
            | Field::ReferenceTypeId
            | Field::MethodId
            | Field::FieldId
            | Field::FrameId => Expected::Id,
            Field::Location => Expected::Location,
            Field::Value => Expected::Value,
            Field::TaggedId => Expected::TaggedId,
        }
    }
}

/// Why a text says no data.
#[derive(Clone, Copy, Debug, PartialEq, Eq, Error)]
pub enum TextFault {
    /// At this byte of the text, counted from 0, something else was expected.
    #[error("at byte {0}, counted from 0: expected {1}")]
    At(usize, Expected),
    /// The text is of the layout's form, but no data are so: `IdTooWide` for an id that its width does not hold, and `BadSize` for a string or
    /// a list longer than 2,147,483,647.
    #[error("{0}")]
    Unwritable(DataFault),
    /// An allocation was refused.
    #[error("no memory")]
    NoMemory,
}

/// Why reading stopped.
#[derive(Clone, Copy)]
pub(crate) enum Stop {
    /// So many bytes before the end something else was expected.
    Expected(usize, Expected),
    NoMemory,
}

impl From<AllocError> for Stop {
    ghost from_gives = { λ _ f. f ≡ stop.NoMemory };

    fn from(_error: AllocError) -> Stop {
        Stop::NoMemory
    }
}

impl<T: Drop> From<AllocFailed<T>> for Stop {
    ghost from_gives = { λ _ f. f ≡ stop.NoMemory };

    fn from(_error: AllocFailed<T>) -> Stop {
        Stop::NoMemory
    }
}
