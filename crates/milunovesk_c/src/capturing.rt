//! Captures, judged and shown.
ghost use Rattle.milunovesk_c.specs.Captures.{JudgesAs, ShowsAs};

use crate::copying::copy_out;
use crate::judged::Judged;
use crate::{DONE, NO_MEMORY, NOT_UTF8};
use std::alloc::Global;

/// Judges a capture. `NOT_UTF8` where the bytes are no text, `NO_MEMORY` where an allocation was refused.
#[unsafe(no_mangle)]
pub extern "C" fn mv_check(alloc: Global, text: &[u8], out: &mut Judged) -> u32
    ensures { JudgesAs text.now result out.new }
{
    *out = Judged::nothing();
    match std::str::from_utf8(text) {
        Err(_) => NOT_UTF8,
        Ok(capture) => match jdwp_judge::check(alloc, capture) {
            Err(_) => NO_MEMORY,
            Ok(verdict) => {
                *out = Judged::of(verdict);
                DONE
            }
        },
    }
}

/// Shows a capture in words, and judges it: moves its lines to the front of `out`, and says how many bytes they are. `SHORT_BUFFER` where `out`
/// has too little room, `NOT_UTF8` where the bytes are no text, `NO_MEMORY` where an allocation was refused.
#[unsafe(no_mangle)]
pub extern "C" fn mv_show(
    alloc: Global,
    text: &[u8],
    out: &mut [u8],
    needed: &mut usize,
    judged: &mut Judged,
) -> u32
    ensures { ShowsAs text.now result out.old out.new needed.new judged.new }
{
    *needed = 0;
    *judged = Judged::nothing();
    match std::str::from_utf8(text) {
        Err(_) => NOT_UTF8,
        Ok(capture) => match jdwp_judge::show(alloc, capture) {
            Err(_) => NO_MEMORY,
            Ok(shown) => {
                *judged = Judged::by(shown.fault);
                copy_out(shown.lines.as_bytes(), out, needed)
            }
        },
    }
}
