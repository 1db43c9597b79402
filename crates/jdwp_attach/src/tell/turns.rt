//! The lines that tell what a turn read.
ghost use Rattle.std.specs.Prelude.{◌≡◌, ◌≢◌, [], IfOk, OnErr};
ghost use Rattle.std.specs.String.{string_bytes};
ghost use Rattle.jdwp_debugger.specs.DebuggerTurns.{read_meaning};
ghost use Rattle.jdwp_attach.specs.Telling.{composite_lines, reply_lines, sizes_lines, turn_lines, widths_line};

use crate::tell::lines::{answered_line, hello_line, seen_line, sizes_line};
use jdwp_debugger::{Head, Read};
use jdwp_event::Composite;
use jdwp_layout::Answer;
use jdwp_wire::{IdSizes, NoMemory};
use std::alloc::Global;

/// What is told of what a turn read in messages with these heads (`Debugger::last`), by the widths of ids that were known behind it: their lines,
/// each with its newline.
///
/// # Errors
/// `NoMemory` where an allocation was refused, and there is something to tell.
pub fn turn_text(
    alloc: Global,
    heads: &[Head],
    read: &Read,
    sizes: Option<IdSizes>,
) -> Result<String, NoMemory>
    ensures text { IfOk result (λ text. string_bytes text
        ≡ turn_lines (read_meaning read.now) heads.now sizes) }
    ensures memory { OnErr result (turn_lines (read_meaning read.now) heads.now sizes ≢ []) }
{
    match read {
        Read::Nothing | Read::Parked => Ok(String::new(alloc)),
        Read::Hello => hello_line(alloc),
        Read::Sizes(composites) => sizes_text(alloc, heads, composites, sizes),
        Read::Answered(_, answer) => answer_text(alloc, heads, answer),
        Read::Seen(composite) => composite_text(alloc, heads, composite),
    }
}

/// The lines of the composites that waited for the widths of ids, and then of the reply that had them.
fn sizes_text(
    alloc: Global,
    heads: &[Head],
    composites: &[Composite],
    sizes: Option<IdSizes>,
) -> Result<String, NoMemory>
    ensures text { IfOk result (λ text. string_bytes text
        ≡ sizes_lines composites.now heads.now sizes) }
    ensures memory { OnErr result (sizes_lines composites.now heads.now sizes ≢ []) }
{
    match composites {
        [] => match heads {
            [Head::Reply { header, .. }] => widths_text(alloc, header.id, sizes),
            _ => Ok(String::new(alloc)),
        },
        [first, others @ ..] => match heads {
            [Head::Composite(header), rest @ ..] => {
                let mut text = seen_line(alloc, header.id, first)?;
                text.push_str(&sizes_text(alloc, rest, others, sizes)?)?;
                Ok(text)
            }
            _ => Ok(String::new(alloc)),
        },
    }
}

/// The line of the widths of ids, under the id of the reply that had them.
fn widths_text(alloc: Global, id: u32, sizes: Option<IdSizes>) -> Result<String, NoMemory>
    ensures text { IfOk result (λ text. string_bytes text ≡ widths_line sizes id) }
    ensures memory { OnErr result (widths_line sizes id ≢ []) }
{
    match sizes {
        Some(sizes) => sizes_line(alloc, id, &sizes),
        None => Ok(String::new(alloc)),
    }
}

/// The line of an answer that came with this head.
fn answer_text(alloc: Global, heads: &[Head], answer: &Answer) -> Result<String, NoMemory>
    ensures text { IfOk result (λ text. string_bytes text ≡ reply_lines answer.now heads.now) }
    ensures memory { OnErr result (reply_lines answer.now heads.now ≢ []) }
{
    match heads {
        [
            Head::Reply {
                header,
                set,
                number,
            },
        ] => answered_line(alloc, header.id, *set, *number, answer),
        _ => Ok(String::new(alloc)),
    }
}

/// The line of a composite that came with this head.
fn composite_text(alloc: Global, heads: &[Head], composite: &Composite) -> Result<String, NoMemory>
    ensures text { IfOk result (λ text. string_bytes text ≡ composite_lines composite.now heads.now) }
    ensures memory { OnErr result (composite_lines composite.now heads.now ≢ []) }
{
    match heads {
        [Head::Composite(header)] => seen_line(alloc, header.id, composite),
        _ => Ok(String::new(alloc)),
    }
}
