//! Both ends of Java Debug Wire Protocol sessions for C, and through it for other languages: a debugger, a target over the machine of a script,
//! and captures. `foreign/include/milunovesk.h` declares the same for C.
//!
//! C owns a `Handle`, all zero at first, and lends it to each call; what it keeps is a debugger or a target. Each function answers one of the
//! numbers below. Where nothing is kept, or what is kept is of the other kind, it says so and changes nothing.
#![tactic(auto)]

ghost use Rattle.std.specs.Prelude.{◌≡◌, None};
ghost use Rattle.milunovesk_c.specs.KeptIn.{kind_of};
ghost use Rattle.milunovesk_c.specs.Numbers.{DONE};

mod capturing;
mod copying;
mod debugging;
mod error_names;
mod fault_texts;
mod framed;
mod handle;
mod handled;
mod heard;
mod judged;
mod kept;
mod lining;
mod loose;
mod naming;
mod packets;
mod seat;
mod targeting;
mod widths;
mod written;

pub use capturing::{mv_check, mv_show};
pub use debugging::{
    mv_debugger_ask, mv_debugger_attach, mv_debugger_data, mv_debugger_feed, mv_debugger_lose,
    mv_debugger_new, mv_debugger_new_apart, mv_debugger_request, mv_debugger_take,
    mv_debugger_thread, mv_debugger_turn, mv_debugger_unanswered, mv_debugger_waiting,
    mv_debugger_widths,
};
pub use framed::{Framed, mv_next_packet};
pub use handle::Handle;
pub use handled::Handled;
pub use heard::Heard;
pub use judged::Judged;
use kept::Kept;
pub use lining::mv_debugger_lines;
pub use naming::{mv_command_name, mv_error_name, mv_fault_text};
pub use packets::{Found, mv_next_packets};
use std::alloc::Global;
pub use targeting::{
    mv_target_accept, mv_target_feed, mv_target_live, mv_target_lose, mv_target_new,
    mv_target_step, mv_target_take, mv_target_thread, mv_target_turn, mv_target_waiting,
};
pub use widths::{Asked, IdWidths, Request};

/// The call did what it says.
pub const DONE: u32 = 0;

/// Nothing is kept at the handle: it is all zero, or was freed.
pub const EMPTY: u32 = 1;

/// Something is kept at the handle already.
pub const LIVE: u32 = 2;

/// What is kept at the handle is of the other kind.
pub const OTHER_KIND: u32 = 3;

/// An allocation was refused, and nothing changed.
pub const NO_MEMORY: u32 = 4;

/// The bytes are no UTF-8.
pub const NOT_UTF8: u32 = 5;

/// It takes a larger buffer, and nothing changed.
pub const SHORT_BUFFER: u32 = 6;

/// What was asked for is refused, and nothing changed.
pub const REFUSED: u32 = 7;

/// What came was refused, for a fault that is told beside.
pub const FAULT: u32 = 8;

/// There is nothing at this place.
pub const NO_ITEM: u32 = 9;

/// The version of this interface.
#[unsafe(no_mangle)]
pub extern "C" fn mv_version() -> u32
    ensures { result ≡ 1 }
{
    1
}

/// Says which kind is kept: 0 nothing, 1 a debugger, 2 a target.
#[unsafe(no_mangle)]
pub extern "C" fn mv_kind(alloc: Global, handle: &mut Handle, kind: &mut u8) -> u32
    ensures told { (result ≡ DONE) × (kind.new ≡ kind_of handle.old.value) }
    ensures same { handle.new.value ≡ handle.old.value }
{
    match handle.take_out(alloc) {
        None => *kind = 0,
        Some(kept) => {
            *kind = match &*kept {
                Kept::Debugger(_) => 1,
                Kept::Target(_) => 2,
            };
            handle.put(kept);
        }
    }
    DONE
}

/// Frees what is kept, if something is. The handle keeps nothing afterwards, so a second call does nothing.
#[unsafe(no_mangle)]
pub extern "C" fn mv_free(alloc: Global, handle: &mut Handle)
    ensures { handle.new.value ≡ None }
{
    let _freed = handle.take_out(alloc);
}
