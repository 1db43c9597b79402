//! What a command is answered.
ghost use Rattle.std.specs.Prelude.{◌≡◌, IfOk};
ghost use Rattle.std.specs.Option.{option_map};
ghost use Rattle.jdwp_layout.specs.Meanings.{meanings, raw_bytes};

use crate::datum::{Datum, copy_items};
use jdwp_wire::{ErrorCode, NoMemory};
use std::alloc::Global;
use std::marker::Model;

/// The data of a packet: what its row's layout says, item by item. Contracts see what they say, apart from where they
/// lie in memory.
#[derive(Debug, Drop)]
pub struct Data {
    items: Vec<Datum>,
}

impl Model for Data {
    ghost use Rattle.std.specs.Prelude.{List};
    ghost use Rattle.jdwp_layout.specs.Meanings.{DatumMeaning};

    ghost Value = { List DatumMeaning };

    ghost use Rattle.jdwp_layout.specs.Meanings.{meanings};

    ghost view = { λ d. meanings d.items.items };
}

impl Data {
    /// These items.
    pub fn new(items: Vec<Datum>) -> Data
        ensures { result ≡ meanings items.items }
    {
        Data { items }
    }

    /// The items, in order.
    pub fn items(&self) -> &[Datum]
        ensures { meanings result.now ≡ self.now }
    {
        self.items.as_slice()
    }

    /// Other data that say the same.
    ///
    /// # Errors
    /// `NoMemory` where an allocation was refused.
    pub fn copied(&self, alloc: Global) -> Result<Data, NoMemory>
        ensures { IfOk result (λ copy. copy ≡ self.now) }
    {
        let items = copy_items(alloc, self.items.as_slice())?;
        Ok(Data { items })
    }

    /// The bytes, where the data are not read; None where they are.
    pub fn raw(&self) -> Option<&[u8]>
        ensures { option_map (λ bytes. bytes.now) result ≡ raw_bytes self.now }
    {
        match self.items.as_slice() {
            [Datum::Raw(bytes)] => Some(bytes.as_slice()),
            _ => None,
        }
    }

    /// The items themselves.
    pub fn into_items(self) -> Vec<Datum>
        ensures { meanings result.items ≡ self }
    {
        self.items
    }
}

/// What a command is answered: data in the layout of its row's reply, or an error, which has no data
/// (JDWP specification, "Packets": a reply's error code and data).
#[derive(Debug, Drop)]
pub enum Answer {
    /// The command succeeded.
    Data(Data),
    /// The error code, not 0.
    Error(ErrorCode),
}
