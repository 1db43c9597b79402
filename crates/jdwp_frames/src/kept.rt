//! Frames that are kept.
ghost use Rattle.std.specs.Prelude.{◌≡◌, ◌≤◌, ◌<◌, ◌&&◌, vec_capacity, vec_len};
ghost use Rattle.std.specs.List.{filter, position};
ghost use Rattle.jdwp_frames.specs.Frames as spec;
ghost use Rattle.jdwp_frames.specs.Frames.{KeepsBy, is_of, lasts_at, others};

use crate::changing::{do_frames_last, may_change};
use jdwp_debugger::{Command, Debugger};
use jdwp_layout::Answer;
use jdwp_value::ObjectId;

/// What the command may change is forgotten.
pub(crate) fn forget_changed(kept: &mut Vec<(ObjectId, Answer)>, command: &Command)
    ensures { kept.new.items ≡ filter (spec.is_left command.now) kept.old.items }
{
    kept.retain(|frames| !may_change(command, frames.0));
}

/// What may have changed, by what the debugger knows, is forgotten.
pub(crate) fn forget_freed(kept: &mut Vec<(ObjectId, Answer)>, debugger: &Debugger)
    ensures items { kept.new.items ≡ filter (lasts_at debugger.now) kept.old.items }
    ensures few { vec_len kept.new ≤ vec_len kept.old }
    ensures capacity { vec_capacity kept.new ≡ vec_capacity kept.old }
{
    kept.retain(|frames| do_frames_last(debugger, frames.0));
}

/// What is kept of a thread is forgotten.
pub(crate) fn forget(kept: &mut Vec<(ObjectId, Answer)>, thread: ObjectId)
    ensures { kept.new.items ≡ filter (others thread.0) kept.old.items }
{
    kept.retain(|frames| frames.0.0 != thread.0);
}

/// Keeps an answer about a thread, for which there is room, or leaves it.
pub(crate) fn keep(
    kept: &mut Vec<(ObjectId, Answer)>,
    thread: ObjectId,
    answer: Answer,
    keeps: bool,
) -> Option<Answer>
    requires { vec_len kept.old < vec_capacity kept.old }
    ensures { KeepsBy keeps (thread, answer) kept.old.items result kept.new.items }
{
    if !keeps {
        return Some(answer);
    }
    kept.push_reserved((thread, answer));
    None
}

/// The place of what is kept of a thread.
pub(crate) fn place_of(kept: &[(ObjectId, Answer)], thread: ObjectId) -> Option<usize>
    ensures { result ≡ position (is_of thread.0) kept.now }
{
    kept.iter().position(|frames| frames.0.0 == thread.0)
}

/// Whether an answer is kept: it has data, and nothing may have changed it as it was asked for, and as it came.
pub(crate) fn is_lasting(lasted: bool, lasts: bool, answer: &Answer) -> bool
    ensures { result ≡ (lasted && (lasts && spec.is_data answer.now)) }
{
    lasted && (lasts && is_data(answer))
}

/// Whether an answer has data.
fn is_data(answer: &Answer) -> bool
    ensures { result ≡ spec.is_data answer.now }
{
    match answer {
        Answer::Data(_) => true,
        Answer::Error(_) => false,
    }
}
