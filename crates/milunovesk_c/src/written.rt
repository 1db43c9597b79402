//! What a turn told, as bytes again.
ghost use Rattle.std.specs.Prelude.{◌≡◌, IfOk, IsSome, OnErr, option_map};
ghost use Rattle.jdwp_event.specs.CompositeBytes.{composite_canonical};
ghost use Rattle.jdwp_layout.specs.Writes.{data_canonical};
ghost use Rattle.milunovesk_c.specs.Telling.{told_bytes};

use crate::seat::Seat;
use jdwp_debugger::{Head, Read};
use jdwp_event::Composite;
use jdwp_layout::{Answer, Data, Layout, layout_of};
use jdwp_wire::{DataFault, IdSizes, Wire};
use std::alloc::Global;

impl Seat {
    /// The data at this place of what the last turn told, as bytes, in ids as wide as they came; None where there are none.
    ///
    /// # Errors
    /// `NoMemory` where an allocation was refused. Another fault where the data can't be written: none that a turn told is such.
    pub(crate) fn data(&self, alloc: Global, place: usize) -> Result<Option<Vec<u8>>, DataFault>
        ensures ok { IfOk result (λ found. option_map (λ bytes. bytes.items) found
            ≡ told_bytes self.now place) }
        ensures err { OnErr result (IsSome (told_bytes self.now place)) }
    {
        let Some(sizes) = self.widths else {
            return Ok(None);
        };
        match &self.read {
            Read::Answered(_, Answer::Data(data)) if place == 0 => {
                Ok(Some(self.answer_bytes(alloc, data, &sizes)?))
            }
            Read::Seen(composite) if place == 0 => {
                Ok(Some(composite_bytes(alloc, composite, &sizes)?))
            }
            Read::Sizes(composites) => match composites.get(place) {
                Some(composite) => Ok(Some(composite_bytes(alloc, composite, &sizes)?)),
                None => Ok(None),
            },
            _ => Ok(None),
        }
    }

    /// The data of an answer: in the layout of the command that it answers, or as they came where they are not read.
    fn answer_bytes(
        &self,
        alloc: Global,
        told: &Data,
        sizes: &IdSizes,
    ) -> Result<Vec<u8>, DataFault>
        ensures { IfOk result (λ bytes. bytes.items ≡ data_canonical sizes.now told.now) }
    {
        if let Some(raw) = told.raw() {
            return Ok(Vec::from_slice(alloc, raw)?);
        }
        let mut bytes = Vec::new(alloc);
        jdwp_layout::write(&self.layout()?, sizes, told.items(), &mut bytes)?;
        Ok(bytes)
    }

    /// The layout of the reply that the last turn read.
    fn layout(&self) -> Result<Layout, DataFault> {
        let [Head::Reply { set, number, .. }] = self.debugger.last() else {
            return Err(DataFault::BadSize);
        };
        match layout_of(*set, *number) {
            Some(row) => match row.layouts {
                Some(layouts) => Ok(layouts.reply),
                None => Err(DataFault::BadSize),
            },
            None => Err(DataFault::BadSize),
        }
    }
}

/// The data of a composite.
fn composite_bytes(
    alloc: Global,
    composite: &Composite,
    sizes: &IdSizes,
) -> Result<Vec<u8>, DataFault>
    ensures { IfOk result (λ bytes. bytes.items ≡ composite_canonical sizes.now composite.now) }
{
    let mut bytes = Vec::new(alloc);
    composite.put(sizes, &mut bytes)?;
    Ok(bytes)
}
