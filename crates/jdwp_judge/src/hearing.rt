//! From the bytes of an end to its messages.
ghost use Rattle.std.specs.Prelude.{List, ℕ, OnOk};
ghost use Rattle.jdwp_judge.specs.Coming.{IsComing};
ghost use Rattle.jdwp_judge.specs.Hearing.{HasHeardAll};
ghost use Rattle.jdwp_judge.specs.Standing.{Follows};
ghost use Rattle.jdwp_show.specs.Items.{Item};
ghost use Rattle.jdwp_show.specs.declared.table.Table.{Table};

use crate::coming::Coming;
use crate::heard::Heard;
use crate::rulings::Rulings;
use jdwp_show::{Sender, Transcript};
use jdwp_wire::NoMemory;

/// Takes the messages out of what an end sent, with these bytes more, as far as they are whole. Appends the lines that are
/// told now.
pub(crate) fn hear_all(
    coming: &mut Coming,
    rulings: &mut Rulings,
    piece: usize,
    sender: Sender,
    bytes: &[u8],
    lines: &mut Transcript,
) -> Result<(), NoMemory>
    ensures { (table : Table) (items : List Item) (sent : List ℕ) → Follows table rulings.old items
        → IsComing sent items sender coming.old → OnOk result (HasHeardAll table piece sender items
        sent bytes.now rulings.new coming.new lines.old lines.new) }
{
    coming.come(bytes)?;
    let mut taken = 0;
    while let Some((found, used)) = coming.next_found(taken) {
        let heard = Heard {
            piece,
            sender,
            found,
        };
        rulings.hear(&heard, lines)?;
        // A frame fault takes none, and behind a fault nothing is heard.
        if used == 0 || rulings.fault().is_some() {
            return Ok(());
        }
        coming.begin();
        taken += used;
    }
    coming.take(taken);
    Ok(())
}
