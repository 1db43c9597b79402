//! Questions to the machine.
ghost use Rattle.std.specs.Prelude.{◌≡◌, IfOk};
ghost use Rattle.jdwp_layout.specs.Meanings.{meanings};

use jdwp_layout::{Answer, Data, Datum};
use jdwp_machine::{Machine, Query};
use jdwp_wire::NoMemory;

/// What a machine answers the command of this set and number with these items as its data.
///
/// # Errors
/// `NoMemory` where an allocation was refused.
pub(crate) fn ask<M: Machine>(
    machine: &M,
    set: u8,
    number: u8,
    items: Vec<Datum>,
) -> Result<Answer, NoMemory>
    ensures { IfOk result (λ answer. answer ≡ M.meaning.query machine.now
        (record { set = set; number = number; content = meanings items.items })) }
{
    let query = Query {
        set,
        number,
        content: Data::new(items),
    };
    machine.query(&query)
}
