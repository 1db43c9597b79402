//! A target over any machine, with bytes in and bytes out.
ghost use Rattle.std.specs.Prelude.{◌≡◌, IfOk, IfErr, OnErr, length, min, take};
ghost use Rattle.milunovesk.specs.End.Ends.{room_of};
ghost use Rattle.milunovesk.specs.Target.Targets.{with_fed};
ghost use Rattle.milunovesk_uses.specs.Answering.{FailsBehind, HasAnswered};

use milunovesk::{Machine, Target, TargetFault, Turn};

/// Gives the target what came from the debugger, lets it handle all of it that is whole, and moves what it sends to `out`. Answers how many
/// bytes of `came` it took and how many of `out` it filled: what it did not take is to be given again, and what did not fit is to be taken
/// the next time. A target at which much waits to leave is paused, and handles the rest the next time.
///
/// # Errors
/// The fault of what came; the target has lost the connection then. Or `NoMemory`, and then the message in front was not handled. What
/// stood before it was, as much of `came` was taken as else, and `out` is as it was.
pub fn answer<M: Machine + Drop>(
    target: &mut Target<M>,
    came: &[u8],
    out: &mut [u8],
) -> Result<(usize, usize), TargetFault>
    ensures taken { IfOk result (λ counts. counts.0
        ≡ min (length came.now) (room_of target.old.end)) }
    ensures answered { IfOk result (λ counts. HasAnswered M.meaning
        (with_fed (take counts.0 came.now) target.old) counts.1 out.old out.new target.new) }
    ensures fails { IfErr result (λ fault. FailsBehind M.meaning
        (with_fed (take (min (length came.now) (room_of target.old.end)) came.now) target.old)
        fault target.new) }
    ensures kept { OnErr result (out.new ≡ out.old) }
{
    let taken = target.feed(came);
    while target.turn()? != Turn::Nothing {}
    let filled = target.take(out);
    Ok((taken, filled))
}
