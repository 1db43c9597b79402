//! The lines of what a debugger was told, for C.
ghost use Rattle.std.specs.Prelude.{◌≡◌};
ghost use Rattle.std.specs.declared.option.Option.TheVariants.{Some};
ghost use Rattle.milunovesk_c.specs.declared.kept.Kept.TheVariants as kept;
ghost use Rattle.milunovesk_c.specs.KeptIn.{AtDebugger, KeepsNoDebugger};
ghost use Rattle.milunovesk_c.specs.Telling.{IsLined, seat_lines};

use crate::copying::copy_out;
use crate::handle::Handle;
use crate::kept::Kept;
use crate::seat::Seat;
use crate::{EMPTY, NO_MEMORY, OTHER_KIND};
use jdwp_attach::turn_text;
use jdwp_wire::NoMemory;
use std::alloc::Global;

/// Moves the lines of what the last turn told to the front of `out`, as `mv_show` has them, each with a newline, and says how many bytes they
/// are; none where it told nothing. Nothing changes, so they may be asked for again. `SHORT_BUFFER` where `out` has too little room,
/// `NO_MEMORY` where an allocation was refused.
#[unsafe(no_mangle)]
pub extern "C" fn mv_debugger_lines(
    alloc: Global,
    handle: &mut Handle,
    out: &mut [u8],
    needed: &mut usize,
) -> u32
    ensures given { AtDebugger handle.old.value result handle.new.value
        (λ s. IsLined (seat_lines s) result out.old out.new needed.new
        × (handle.new.value ≡ Some (kept.Debugger s))) }
    ensures untouched { KeepsNoDebugger handle.old.value → (out.new ≡ out.old) × (needed.new ≡ 0) }
{
    *needed = 0;
    match handle.take_out(alloc) {
        None => EMPTY,
        Some(kept) => {
            let code = match &*kept {
                Kept::Debugger(seat) => give_lines(alloc, seat, out, needed),
                Kept::Target(_) => OTHER_KIND,
            };
            handle.put(kept);
            code
        }
    }
}

fn give_lines(alloc: Global, seat: &Seat, out: &mut [u8], needed: &mut usize) -> u32
    ensures { IsLined (seat_lines seat.now) result out.old out.new needed.new }
{
    *needed = 0;
    match seat.lines(alloc) {
        Ok(text) => copy_out(text.as_bytes(), out, needed),
        Err(NoMemory) => NO_MEMORY,
    }
}
