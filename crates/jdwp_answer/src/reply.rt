//! Replies as structs.
ghost use Rattle.std.specs.Prelude.{◌≡◌, List, Ok, IfOk, IfErr};
ghost use Rattle.std.specs.Result.{IsErrOf};
ghost use Rattle.jdwp_wire.specs.declared.data_fault.DataFault.TheVariants.{NoMemory as WantOfMemory};
ghost use Rattle.jdwp_wire.specs.Reading.{Gives, Blames};
ghost use Rattle.jdwp_layout.specs.Shapes.{ItemShape, shape as shape_of};
ghost use Rattle.jdwp_layout.specs.Meanings.{DatumMeaning, meanings};
ghost use Rattle.jdwp_layout.specs.Grammar.{EncodesData, DataFaults};
ghost use Rattle.jdwp_layout.specs.Reads.{data_at};
ghost use Rattle.jdwp_answer.specs.Shaped.{HasItems, Converted};

use jdwp_layout::{Data, Datum, Layout, read};
use jdwp_wire::{DataFault, IdSizes, NoMemory};
use std::alloc::Global;

/// What a command is answered, as a struct or a list of structs.
pub trait Reply: Drop {
    /// The layout of its data.
    ghost shape: { List ItemShape };

    /// What it says, item by item.
    ghost says: { Self → List DatumMeaning };

    /// The layout of its data.
    fn layout() -> &'static Layout
        ensures { shape_of result.now ≡ shape };

    /// The reply that data are, item by item; None exactly where they are not in its layout.
    ///
    /// # Errors
    /// `NoMemory` where an allocation was refused.
    fn of_items(alloc: Global, items: Vec<Datum>) -> Result<Option<Self>, NoMemory>
        ensures { IfOk result (Converted says (HasItems shape) (meanings items.items)) };

    /// The reply that data are; None exactly where they are not in its layout.
    ///
    /// # Errors
    /// `NoMemory` where an allocation was refused.
    final fn of_data(alloc: Global, carried: Data) -> Result<Option<Self>, NoMemory>
        ensures { IfOk result (Converted says (HasItems shape) carried) }
    {
        Self::of_items(alloc, carried.into_items())
    }

    /// The reply that the whole slice encodes.
    ///
    /// # Errors
    /// The first fault from the left, as `jdwp_layout::read` answers it: `Short` with the length of the slice where an item
    /// calls for more bytes than are left, `BadTag`, `NegativeCount` or `NotUtf8`; where each item is encoded and bytes are left
    /// over, `Extra` with the number of bytes used. `NoMemory` where an allocation was refused, and only where the whole
    /// slice encodes a reply: want of memory hides no fault.
    final fn read(alloc: Global, sizes: &IdSizes, bytes: &[u8]) -> Result<Self, DataFault>
        // What is read is what the slice encodes.
        ensures found { IfOk result (λ v. EncodesData sizes.now shape (says v) bytes.now) }
        // What the slice encodes is read, unless memory runs out, and nothing else is.
        ensures only { (xs : List DatumMeaning) → EncodesData sizes.now shape xs bytes.now
            → Gives says result (Ok xs) }
        // The fault is the first from the left.
        ensures fault { IfErr result (λ f. Blames (DataFaults sizes.now shape) bytes.now f) }
        // All of this as a function of the slice.
        ensures value { Gives says result (data_at sizes.now shape bytes.now) }
        ensures hides { IsErrOf result WantOfMemory
            → (xs : List DatumMeaning) × EncodesData sizes.now shape xs bytes.now }
    {
        let items = match read(alloc, Self::layout(), sizes, bytes) {
            Ok(items) => items,
            Err(fault) => return Err(fault),
        };
        match Self::of_items(alloc, items) {
            Ok(Some(reply)) => Ok(reply),
            Ok(None) => unreachable!(),
            Err(NoMemory) => Err(DataFault::NoMemory),
        }
    }

    /// What it says is in its layout.
    ghost fits: { (x : Self) → HasItems shape (says x) };
}
