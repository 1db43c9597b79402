//! The engine that runs a target on a pipe.
ghost use Rattle.std.specs.Prelude.{◌≡◌, ◌⊎◌, ◌<◌, ◌≤◌, ◌+◌, ◌||◌, [], Bool, None, Ok, Err, true, false, length, IfOk, IfErr, OnErr, OnOk};
ghost use Rattle.jdwp_end.specs.Ends.{front_of, is_open, is_paused, room_of};
ghost use Rattle.jdwp_wire.specs.Streams.{More};
ghost use Rattle.jdwp_target.specs.declared.target.Stepped as declared;
ghost use Rattle.jdwp_target.specs.Targets as spec;
ghost use Rattle.jdwp_target.specs.Targets.{Ran, opened_target};
ghost use Rattle.jdwp_target.specs.ReadsBack.{StepReadsBack};
ghost use Rattle.jdwp_target.specs.Turns.{StepsAt};
ghost use Rattle.jdwp_end.specs.Endings.{unflushed_end};
ghost use Rattle.jdwp_end.specs.Story.{FailsFlush, Story, flushed};
ghost use Rattle.jdwp_engine.specs.Next.{IfEnds};
ghost use Rattle.jdwp_engine.specs.Outcome.{EndsSo, MayEnd, MayStep};
ghost use Rattle.jdwp_engine.specs.Run.{GoesOn, InOrder, LosesAtRead, LosesAtWrite, ReadsMore, WritesAll, cost};
ghost use Rattle.jdwp_engine.specs.Rounds.{IsAhead, StepsEach, id_in, is_step};
ghost use Rattle.jdwp_engine.specs.Sessions.{LastRound, Round, Runs, Serves, unflushed_target};
ghost use Rattle.jdwp_engine.specs.Steps.{StepsIf};

use crate::stepping::step_each;
use jdwp_end::{CHUNK, Ended, NoInput, Pipe, flush_all, read_and_feed, write_out};
use jdwp_machine::Machine;
use jdwp_target::{Stepped, Target, TargetFault, Turn};
use jdwp_value::ObjectId;

/// Runs the target on the pipe for one session, for at most so many rounds.
///
/// It begins with `accept`; a target that is already open is `Refused(0)`, and one whose machine is dead is `Done` at once, with nothing
/// touched. A round is one turn; if that handled nothing, the pipe is flushed, and where commands are deferred the newest is released;
/// else comes one step of each live thread by rising id, and if none of them stepped, one read of at most 4,096 bytes and of what the
/// target has room for, which are fed. What waits to leave is written after each round, and the pipe is flushed at the end of the
/// session, whatever ends it. The session is done after Dispose, and where the machine died. Where the input ends, or a read, a write or
/// a flush fails, the target loses the connection; a write or flush that fails is `LostByWrite`, wherever it comes, but for the last
/// flush behind a frame fault, which stays `Refused`. Where a turn, a release or a step wants memory the session ends with `NoMemory` and
/// stays open. It takes no memory of its own.
pub fn serve<M: Machine + Drop, P: Pipe>(target: &mut Target<M>, pipe: &mut P, rounds: u64) -> Ended
    ensures refused { is_open target.old.end ≡ true → (result ≡ Ended.Refused 0)
        × (target.new ≡ target.old) × (P.story pipe.new ≡ P.story pipe.old) }
    ensures dead { is_open target.old.end ≡ false → target.old.moment.state.alive ≡ false
        → (result ≡ Ended.Done) × (target.new ≡ target.old)
        × (P.story pipe.new ≡ P.story pipe.old) }
    ensures in_order { is_open target.old.end ≡ false → target.old.moment.state.alive ≡ true
        → InOrder target.old (P.story pipe.old) (P.story pipe.new) target.new }
    ensures ended { is_open target.old.end ≡ false → target.old.moment.state.alive ≡ true
        → MayEnd M.meaning result (P.story pipe.old) (P.story pipe.new) target.new }
    ensures rounds { is_open target.old.end ≡ false → target.old.moment.state.alive ≡ true
        → Serves M.meaning rounds (opened_target target.old) (P.story pipe.old) result target.new
        (P.story pipe.new) }
    ensures limit { result ≡ Ended.TurnLimit → rounds + (P.story pipe.old).rooms
        ≤ cost (P.story pipe.new) target.new }
    ensures at_most { is_open target.old.end ≡ false → target.old.moment.state.alive ≡ true
        → target.new.end.session.turns + (P.story pipe.new).rooms
        ≤ rounds + (P.story pipe.old).rooms }
    ensures ran { Ran M.meaning target.new }
{
    if target.is_open() {
        target.session();
        return Ended::Refused(0);
    }
    if !target.accept() {
        target.session();
        return Ended::Done;
    }
    let ended = run_session(target, pipe, rounds);
    target.session();
    ended
}

/// Runs a session that was accepted, and flushes the pipe.
fn run_session<M: Machine + Drop, P: Pipe>(
    target: &mut Target<M>,
    pipe: &mut P,
    rounds: u64,
) -> Ended
    requires opened { target.old ≡ opened_target target.old }
    ensures in_order { InOrder target.old (P.story pipe.old) (P.story pipe.new) target.new }
    ensures ended { MayEnd M.meaning result (P.story pipe.old) (P.story pipe.new) target.new }
    ensures limit { result ≡ Ended.TurnLimit → rounds + (P.story pipe.old).rooms
        ≤ cost (P.story pipe.new) target.new }
    ensures rounds { Serves M.meaning rounds target.old (P.story pipe.old) result target.new
        (P.story pipe.new) }
{
    let ended = run_rounds(target, pipe, rounds);
    target.session();
    match pipe.flush() {
        Ok(()) => ended,
        Err(_) => lose_what_is_kept(target, ended),
    }
}

/// How a session ends whose last flush failed: a connection that was not lost before is lost now. A frame fault is told as one.
fn lose_what_is_kept<M: Machine + Drop>(target: &mut Target<M>, ended: Ended) -> Ended
    requires { Ran M.meaning target.old }
    ensures how { result ≡ unflushed_end ended }
    ensures left { target.new ≡ unflushed_target ended target.old }
    ensures ends { (base : spec.Target M) (start now after : Story)
        → InOrder base start now target.old → MayEnd M.meaning ended start (flushed now) target.old
        → FailsFlush now after → InOrder base start after target.new
        × MayEnd M.meaning result start after target.new }
{
    match ended {
        Ended::Refused(number) => Ended::Refused(number),
        Ended::LostByRead | Ended::LostByWrite => Ended::LostByWrite,
        Ended::Done | Ended::NoMemory | Ended::TurnLimit => {
            target.lose();
            Ended::LostByWrite
        }
    }
}

/// Runs the rounds of a session that was accepted. It ends so once all that was written has left.
fn run_rounds<M: Machine + Drop, P: Pipe>(
    target: &mut Target<M>,
    pipe: &mut P,
    rounds: u64,
) -> Ended
    requires opened { target.old ≡ opened_target target.old }
    ensures in_order { InOrder target.old (P.story pipe.old) (P.story pipe.new) target.new }
    ensures ended { MayEnd M.meaning result (P.story pipe.old)
        (flushed (P.story pipe.new)) target.new }
    ensures limit { result ≡ Ended.TurnLimit → rounds + (P.story pipe.old).rooms
        ≤ cost (P.story pipe.new) target.new }
    ensures rounds { Runs M.meaning rounds target.old (P.story pipe.old) result target.new
        (P.story pipe.new) }
{
    let mut buffer = [0; CHUNK];
    for _done in 0..rounds {
        if let AfterRound::Ends(ended) = round(target, pipe, &mut buffer) {
            return ended;
        }
    }
    Ended::TurnLimit
}

/// What an engine does after a round.
#[derive(Clone, Copy)]
enum AfterRound {
    /// The session goes on.
    Goes,
    Ends(Ended),
}

/// One turn, and if it handled nothing a flush and the release of the newest deferred command, or a step of each live thread, or else one
/// read. What waits to leave is written.
fn round<M: Machine + Drop, P: Pipe>(
    target: &mut Target<M>,
    pipe: &mut P,
    buffer: &mut [u8; CHUNK],
) -> AfterRound
    requires is_open { is_open target.old.end ≡ true }
    requires idle { target.old.end.outgoing ≡ [] }
    ensures goes { result ≡ AfterRound.Goes → GoesOn target.old target.new (P.story pipe.old)
        (P.story pipe.new) }
    ensures ends { IfEnds result (EndsSo M.meaning target.old target.new (P.story pipe.old)
        (P.story pipe.new)) }
    ensures round { result ≡ AfterRound.Goes → Round M.meaning target.old (P.story pipe.old) target.new
        (P.story pipe.new) }
    ensures last { IfEnds result (LastRound M.meaning target.old (P.story pipe.old) target.new
        (P.story pipe.new)) }
{
    jdwp_target::laws::closes_for_a_reason::<M>();
    target.session();
    let turn = match target.turn() {
        Ok(turn) => turn,
        Err(TargetFault::Frame(fault)) => return AfterRound::Ends(Ended::Refused(fault.number())),
        Err(TargetFault::NoMemory) => return AfterRound::Ends(Ended::NoMemory),
    };
    match turn {
        Turn::Nothing => flush_and_go(target, pipe, buffer),
        _ => write_and_go(target, pipe),
    }
}

/// Sees that all that was written leaves, and then releases, steps or reads.
fn flush_and_go<M: Machine + Drop, P: Pipe>(
    target: &mut Target<M>,
    pipe: &mut P,
    buffer: &mut [u8; CHUNK],
) -> AfterRound
    requires is_open { is_open target.old.end ≡ true }
    requires idle { target.old.end.outgoing ≡ [] }
    requires asks { front_of target.old.end ≡ More }
    requires flows { is_paused target.old.end ≡ false }
    requires room { 0 < room_of target.old.end }
    ensures goes { result ≡ AfterRound.Goes → GoesOn target.old target.new (P.story pipe.old)
        (P.story pipe.new) }
    ensures ends { IfEnds result (EndsSo M.meaning target.old target.new (P.story pipe.old)
        (P.story pipe.new)) }
    ensures round { result ≡ AfterRound.Goes → Round M.meaning target.old (P.story pipe.old) target.new
        (P.story pipe.new) }
    ensures last { IfEnds result (LastRound M.meaning target.old (P.story pipe.old) target.new
        (P.story pipe.new)) }
{
    target.session();
    if !flush_all(pipe) {
        target.lose();
        return AfterRound::Ends(Ended::LostByWrite);
    }
    if target.deferred() > 0 {
        release_and_go(target, pipe)
    } else {
        step_or_read(target, pipe, buffer)
    }
}

/// Releases the newest deferred command. What waits to leave is written.
fn release_and_go<M: Machine + Drop, P: Pipe>(target: &mut Target<M>, pipe: &mut P) -> AfterRound
    requires is_open { is_open target.old.end ≡ true }
    requires asks { front_of target.old.end ≡ More }
    requires flows { is_paused target.old.end ≡ false }
    requires waits { 0 < length target.old.deferred }
    requires left { (P.story pipe.old).unflushed ≡ [] }
    ensures goes { result ≡ AfterRound.Goes → GoesOn target.old target.new (P.story pipe.old)
        (P.story pipe.new) }
    ensures ends { IfEnds result (EndsSo M.meaning target.old target.new (P.story pipe.old)
        (P.story pipe.new)) }
    ensures round { result ≡ AfterRound.Goes → (before : Story) → P.story pipe.old ≡ flushed before
        → Round M.meaning target.old before target.new (P.story pipe.new) }
    ensures last { IfEnds result (λ ended. (before : Story) → P.story pipe.old ≡ flushed before
        → LastRound M.meaning target.old before target.new (P.story pipe.new) ended) }
{
    jdwp_target::laws::closes_for_a_reason::<M>();
    target.session();
    let newest = target.deferred() - 1;
    match target.release(newest) {
        Ok(_) => write_and_go(target, pipe),
        Err(_) => AfterRound::Ends(Ended::NoMemory),
    }
}

/// One step of each live thread, and if none of them stepped one read. What waits to leave is written.
fn step_or_read<M: Machine + Drop, P: Pipe>(
    target: &mut Target<M>,
    pipe: &mut P,
    buffer: &mut [u8; CHUNK],
) -> AfterRound
    requires is_open { is_open target.old.end ≡ true }
    requires idle { target.old.end.outgoing ≡ [] }
    requires asks { front_of target.old.end ≡ More }
    requires flows { is_paused target.old.end ≡ false }
    requires room { 0 < room_of target.old.end }
    requires none { target.old.deferred ≡ [] }
    requires left { (P.story pipe.old).unflushed ≡ [] }
    ensures goes { result ≡ AfterRound.Goes → GoesOn target.old target.new (P.story pipe.old)
        (P.story pipe.new) }
    ensures ends { IfEnds result (EndsSo M.meaning target.old target.new (P.story pipe.old)
        (P.story pipe.new)) }
    ensures round { result ≡ AfterRound.Goes → (before : Story) → P.story pipe.old ≡ flushed before
        → Round M.meaning target.old before target.new (P.story pipe.new) }
    ensures last { IfEnds result (λ ended. (before : Story) → P.story pipe.old ≡ flushed before
        → LastRound M.meaning target.old before target.new (P.story pipe.new) ended) }
{
    target.session();
    match step_each(target) {
        Ok(false) => read_and_go(target, pipe, buffer),
        Ok(true) => write_and_go(target, pipe),
        Err(_) => match write_and_go(target, pipe) {
            AfterRound::Goes => AfterRound::Ends(Ended::NoMemory),
            AfterRound::Ends(ended) => AfterRound::Ends(ended),
        },
    }
}

/// Reads once, where all that was written has left, and feeds what came, or ends where nothing did.
fn read_and_go<M: Machine + Drop, P: Pipe>(
    target: &mut Target<M>,
    pipe: &mut P,
    buffer: &mut [u8; CHUNK],
) -> AfterRound
    requires room { 0 < room_of target.old.end }
    requires left { (P.story pipe.old).unflushed ≡ [] }
    ensures goes { result ≡ AfterRound.Goes → ReadsMore target.old target.new (P.story pipe.old)
        (P.story pipe.new) }
    ensures ends { IfEnds result (λ ended. (ended ≡ Ended.LostByRead)
        × LosesAtRead target.old target.new (P.story pipe.old) (P.story pipe.new)) }
{
    match read_and_feed(target, pipe, buffer) {
        Ok(()) => AfterRound::Goes,
        Err(NoInput) => {
            target.lose();
            AfterRound::Ends(Ended::LostByRead)
        }
    }
}

/// Writes what waits, and ends where a write fails or the session has closed.
fn write_and_go<M: Machine + Drop, P: Pipe>(target: &mut Target<M>, pipe: &mut P) -> AfterRound
    ensures goes { result ≡ AfterRound.Goes → (is_open target.old.end ≡ true)
        × WritesAll target.old target.new (P.story pipe.old) (P.story pipe.new) }
    ensures done { result ≡ AfterRound.Ends Ended.Done → (is_open target.old.end ≡ false)
        × WritesAll target.old target.new (P.story pipe.old) (P.story pipe.new)
        × Ran M.meaning target.new }
    ensures ends { IfEnds result (λ ended. (ended ≡ Ended.Done) ⊎ (ended ≡ Ended.LostByWrite)) }
    ensures fails { result ≡ AfterRound.Ends Ended.LostByWrite
        → LosesAtWrite M.meaning target.old target.new (P.story pipe.old) (P.story pipe.new) }
{
    let written = write_out(target, pipe);
    target.session();
    if !written {
        target.lose();
        return AfterRound::Ends(Ended::LostByWrite);
    }
    if target.is_open() {
        AfterRound::Goes
    } else {
        AfterRound::Ends(Ended::Done)
    }
}
