//! Whether a text is the one that is shown.
ghost use Rattle.std.specs.Prelude.{◌≡◌, OnOk};
ghost use Rattle.jdwp_layout.specs.Meanings.{meanings};
ghost use Rattle.jdwp_show.specs.DataText.{data_text};

use crate::text_fault::{Expected, TextFault};
use jdwp_layout::Datum;
use jdwp_show::composite_data_line;
use std::alloc::Global;

/// How many bytes stand before the data in the line of a composite under the id 0, `< 0 Event.Composite`.
const BEFORE_DATA: usize = 19;

/// Whether this text is the one that `show` prints of these data.
///
/// # Errors
/// `At` with the first byte at which it is another, and `NoMemory`.
#[tactic(auto, using(crate::proofs::ShownLaws::behind_start, crate::proofs::ShownLaws::start_long))]
pub(crate) fn expect_shown(alloc: Global, items: &[Datum], text: &str) -> Result<(), TextFault>
    ensures { OnOk result (text.now ≡ data_text (meanings items.now)) }
{
    match composite_data_line(alloc, 0, items) {
        Ok(line) => {
            let shown = &line.as_bytes()[BEFORE_DATA..];
            expect_same(text.as_bytes(), shown)
        }
        Err(_) => Err(TextFault::NoMemory),
    }
}

/// Whether this text is the shown one.
///
/// # Errors
/// `At` with the first byte at which it is another.
#[tactic(auto, using(crate::proofs::ShownLaws::equal))]
fn expect_same(text: &[u8], shown: &[u8]) -> Result<(), TextFault>
    ensures { OnOk result (text.now ≡ shown.now) }
{
    let same = text == shown;
    if same {
        return Ok(());
    }
    let place = common(text, shown);
    Err(TextFault::At(place, Expected::ShownForm))
}

/// How many bytes in front are the same in both.
fn common(one: &[u8], other: &[u8]) -> usize {
    for (index, byte) in one.iter().enumerate() {
        if other.get(index) != Some(byte) {
            return index;
        }
    }
    one.len()
}
