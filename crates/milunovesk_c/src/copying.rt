//! Bytes that are handed out to C.
ghost use Rattle.std.specs.Prelude.{◌≡◌, ◌++◌, codes};
ghost use Rattle.milunovesk_c.specs.Telling.{IsCopied};

use crate::{DONE, SHORT_BUFFER};

/// Moves all of the bytes to the front of `out` where it has room for all, and says how many there are: `DONE`, or `SHORT_BUFFER` where it has
/// not, and then `out` is as it was.
pub(crate) fn copy_out(bytes: &[u8], out: &mut [u8], needed: &mut usize) -> u32
    ensures { IsCopied bytes.now result out.old out.new needed.new }
{
    *needed = bytes.len();
    if bytes.len() > out.len() {
        return SHORT_BUFFER;
    }
    out[..bytes.len()].copy_from_slice(bytes);
    DONE
}

/// The same of two names with a point between.
pub(crate) fn copy_pair(first: &[u8], second: &[u8], out: &mut [u8], needed: &mut usize) -> u32
    ensures { IsCopied (first.now ++ (codes "." ++ second.now)) result out.old out.new needed.new }
{
    *needed = first.len() + 1 + second.len();
    if *needed > out.len() {
        return SHORT_BUFFER;
    }
    let (front, behind) = out.split_at_mut(first.len());
    front.copy_from_slice(first);
    let (point, rest) = behind.split_at_mut(1);
    point.copy_from_slice(b".");
    rest[..second.len()].copy_from_slice(second);
    DONE
}
