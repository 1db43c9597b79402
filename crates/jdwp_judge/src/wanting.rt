//! Which messages have to wait until it is known what is to be told of them.
ghost use Rattle.std.specs.Prelude.{◌≡◌, ◌⊎◌, [], true, false};
ghost use Rattle.std.specs.Bool.{OnTrue, OnFalse};
ghost use Rattle.jdwp_judge.specs.Heard.{thing};
ghost use Rattle.jdwp_judge.specs.Standing.{kept_in};
ghost use Rattle.jdwp_judge.specs.Told as told;

use crate::backlog::Backlog;
use crate::heard::Heard;
use crate::rules::wants_widths;
use jdwp_show::{CommandNumber, Table};

/// Whether a message that does not make the widths of ids sure has to wait, behind those that are kept.
#[inline(always)]
pub(crate) fn has_to_wait(
    table: Table,
    kept: &Backlog,
    waits: Option<CommandNumber>,
    heard: &Heard,
) -> bool
    ensures waits { OnTrue result ((kept_in kept.now ≡ [] → ⊥)
        ⊎ (told.wants_widths table waits (thing heard.now.found) ≡ true)) }
    ensures known { OnFalse result ((kept_in kept.now ≡ [])
        × (told.wants_widths table waits (thing heard.now.found) ≡ false)) }
{
    if !kept.is_empty() {
        return true;
    }
    wants_widths(table, waits, heard)
}
