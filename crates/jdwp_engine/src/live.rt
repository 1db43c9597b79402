//! The engine of live sessions.
ghost use Rattle.std.specs.Prelude.{◌≡◌, ◌⊎◌, ◌<◌, ◌||◌, [], Bool, None, Some, Ok, Err, true, false, length, nat_lt, IfOk, IfErr, IfSome, OnErr, OnOk};
ghost use Rattle.jdwp_end.specs.Ends.{front_of, is_established, is_open, is_paused, room_of};
ghost use Rattle.jdwp_wire.specs.Streams.{More};
ghost use Rattle.jdwp_target.specs.declared.target.Stepped as declared;
ghost use Rattle.jdwp_target.specs.Targets as spec;
ghost use Rattle.jdwp_target.specs.Targets.{Ran, opened_target};
ghost use Rattle.jdwp_target.specs.ReadsBack.{StepReadsBack};
ghost use Rattle.jdwp_target.specs.Turns.{StepsAt};
ghost use Rattle.jdwp_end.specs.Endings.{unflushed_end};
ghost use Rattle.jdwp_end.specs.Story as story;
ghost use Rattle.jdwp_engine.specs.Outcome.{EndsSo, MayEnd, MayStep};
ghost use Rattle.jdwp_engine.specs.Run.{GoesOn, InOrder};
ghost use Rattle.jdwp_engine.specs.Rounds.{IsAhead, StepsEach, id_in, is_step};
ghost use Rattle.jdwp_engine.specs.Sessions.{unflushed_target};
ghost use Rattle.jdwp_engine.specs.Steps.{StepsIf};
ghost use Rattle.jdwp_engine.specs.LiveStory.{LiveStory, flushed, with_read};
ghost use Rattle.jdwp_engine.specs.LiveNext.{IfEnds};
ghost use Rattle.jdwp_engine.specs.LiveRounds.{LastRound, LosesAtRead, LosesAtWrite, ReadsSome, Round, Runs, Serves, WritesAll, patience_at};

use crate::pipes::{LivePipe, Patience, flush_all, read_and_feed, write_out};
use crate::stepping::step_each;
use jdwp_end::{CHUNK, Ended, NoInput};
use jdwp_machine::Machine;
use jdwp_target::{Target, TargetFault, Turn};

/// Runs the target on the pipe for one live session, for at most so many rounds: no thread steps while bytes that came can be read, and none
/// outside an established session.
///
/// It begins with `accept`; a target that is already open is `Refused(0)`, and one whose machine is dead is `Done` at once, with nothing
/// touched. A round is one turn; if that handled nothing, the pipe is flushed, and where commands are deferred the newest is released; else
/// comes a read. Where the handshake was not handled yet it has the patience `Handshake`. Behind the handshake it has the patience `Step`, and
/// where nothing comes in that time, each live thread makes one step, by rising id; if none of them stepped, another read waits until bytes
/// come. What came, at most 4,096 bytes at a read and what the target has room for, is fed. What waits to leave is written after each round,
/// and the pipe is flushed at the end of the session, whatever ends it. So between two steps of a thread there is always a read that found
/// nothing in the time between two steps.
///
/// A session ends as one of `serve` does: done after Dispose, and where the machine died; where the input ends, or a read, a write or a flush
/// fails, the target loses the connection, and a handshake that does not come in its time is a read that fails; where a turn, a release or a
/// step wants memory, it ends with `NoMemory` and stays open. It takes no memory of its own.
pub fn serve_live<M: Machine + Drop, P: LivePipe>(
    target: &mut Target<M>,
    pipe: &mut P,
    rounds: u64,
) -> Ended
    ensures refused { is_open target.old.end ≡ true → (result ≡ Ended.Refused 0)
        × (target.new ≡ target.old) × (P.story pipe.new ≡ P.story pipe.old) }
    ensures dead { is_open target.old.end ≡ false → target.old.moment.state.alive ≡ false
        → (result ≡ Ended.Done) × (target.new ≡ target.old)
        × (P.story pipe.new ≡ P.story pipe.old) }
    ensures in_order { is_open target.old.end ≡ false → target.old.moment.state.alive ≡ true
        → InOrder target.old (P.story pipe.old).through (P.story pipe.new).through target.new }
    ensures ended { is_open target.old.end ≡ false → target.old.moment.state.alive ≡ true
        → MayEnd M.meaning result (P.story pipe.old).through (P.story pipe.new).through
        target.new }
    ensures rounds { is_open target.old.end ≡ false → target.old.moment.state.alive ≡ true
        → Serves M.meaning rounds (opened_target target.old) (P.story pipe.old) result target.new
        (P.story pipe.new) }
    ensures ran { Ran M.meaning target.new }
{
    if target.is_open() {
        target.session();
        return Ended::Refused(0);
    }
    if !target.accept() {
        target.session();
        return Ended::Done;
    }
    let ended = run_session(target, pipe, rounds);
    target.session();
    ended
}

/// Runs a session that was accepted, and flushes the pipe.
fn run_session<M: Machine + Drop, P: LivePipe>(
    target: &mut Target<M>,
    pipe: &mut P,
    rounds: u64,
) -> Ended
    requires opened { target.old ≡ opened_target target.old }
    ensures in_order { InOrder target.old (P.story pipe.old).through (P.story pipe.new).through target.new }
    ensures ended { MayEnd M.meaning result (P.story pipe.old).through (P.story pipe.new).through
        target.new }
    ensures rounds { Serves M.meaning rounds target.old (P.story pipe.old) result target.new
        (P.story pipe.new) }
{
    let ended = run_rounds(target, pipe, rounds);
    target.session();
    if flush_all(pipe) {
        ended
    } else {
        lose_what_is_kept(target, ended)
    }
}

/// How a session ends whose last flush failed: a connection that was not lost before is lost now. A frame fault is told as one.
fn lose_what_is_kept<M: Machine + Drop>(target: &mut Target<M>, ended: Ended) -> Ended
    requires { Ran M.meaning target.old }
    ensures how { result ≡ unflushed_end ended }
    ensures left { target.new ≡ unflushed_target ended target.old }
    ensures ends { (base : spec.Target M) (start now after : story.Story)
        → InOrder base start now target.old
        → MayEnd M.meaning ended start (story.flushed now) target.old
        → story.FailsFlush now after → InOrder base start after target.new
        × MayEnd M.meaning result start after target.new }
{
    match ended {
        Ended::Refused(number) => Ended::Refused(number),
        Ended::LostByRead | Ended::LostByWrite => Ended::LostByWrite,
        Ended::Done | Ended::NoMemory | Ended::TurnLimit => {
            target.lose();
            Ended::LostByWrite
        }
    }
}

/// Runs the rounds of a session that was accepted. It ends so once all that was written has left.
fn run_rounds<M: Machine + Drop, P: LivePipe>(
    target: &mut Target<M>,
    pipe: &mut P,
    rounds: u64,
) -> Ended
    requires opened { target.old ≡ opened_target target.old }
    ensures in_order { InOrder target.old (P.story pipe.old).through (P.story pipe.new).through target.new }
    ensures ended { MayEnd M.meaning result (P.story pipe.old).through
        (story.flushed (P.story pipe.new).through) target.new }
    ensures rounds { Runs M.meaning rounds target.old (P.story pipe.old) result target.new
        (P.story pipe.new) }
{
    let mut buffer = [0; CHUNK];
    let mut greeted = false;
    for _done in 0..rounds {
        if let AfterLiveRound::Ends(ended) = round(target, pipe, &mut buffer, &mut greeted) {
            return ended;
        }
    }
    Ended::TurnLimit
}

/// What an engine does after a round.
#[derive(Clone, Copy)]
enum AfterLiveRound {
    /// The session goes on.
    Goes,
    Ends(Ended),
}

/// One turn, and if it handled nothing a flush, and the release of the newest deferred command or a read, and a step of each live thread where
/// nothing came. What waits to leave is written. `greeted` says whether a message was handled in the session.
fn round<M: Machine + Drop, P: LivePipe>(
    target: &mut Target<M>,
    pipe: &mut P,
    buffer: &mut [u8; CHUNK],
    greeted: &mut bool,
) -> AfterLiveRound
    requires is_open { is_open target.old.end ≡ true }
    requires idle { target.old.end.outgoing ≡ [] }
    requires greeted { greeted.old ≡ nat_lt 0 target.old.end.session.turns }
    ensures goes { result ≡ AfterLiveRound.Goes → GoesOn target.old target.new (P.story pipe.old).through
        (P.story pipe.new).through }
    ensures ends { IfEnds result (EndsSo M.meaning target.old target.new
        (P.story pipe.old).through (P.story pipe.new).through) }
    ensures greeted { result ≡ AfterLiveRound.Goes
        → greeted.new ≡ nat_lt 0 target.new.end.session.turns }
    ensures round { result ≡ AfterLiveRound.Goes → Round M.meaning target.old (P.story pipe.old) target.new
        (P.story pipe.new) }
    ensures last { IfEnds result (LastRound M.meaning target.old (P.story pipe.old) target.new
        (P.story pipe.new)) }
{
    jdwp_target::laws::closes_for_a_reason::<M>();
    target.session();
    let turn = match target.turn() {
        Ok(turn) => turn,
        Err(TargetFault::Frame(fault)) => return AfterLiveRound::Ends(Ended::Refused(
            fault.number(),
        )),
        Err(TargetFault::NoMemory) => return AfterLiveRound::Ends(Ended::NoMemory),
    };
    match turn {
        Turn::Nothing => flush_and_go(target, pipe, buffer, *greeted),
        _ => {
            *greeted = true;
            write_and_go(target, pipe)
        }
    }
}

/// Sees that all that was written leaves, and then releases, reads or steps.
fn flush_and_go<M: Machine + Drop, P: LivePipe>(
    target: &mut Target<M>,
    pipe: &mut P,
    buffer: &mut [u8; CHUNK],
    greeted: bool,
) -> AfterLiveRound
    requires is_open { is_open target.old.end ≡ true }
    requires idle { target.old.end.outgoing ≡ [] }
    requires asks { front_of target.old.end ≡ More }
    requires flows { is_paused target.old.end ≡ false }
    requires room { 0 < room_of target.old.end }
    requires greeted { greeted ≡ nat_lt 0 target.old.end.session.turns }
    ensures goes { result ≡ AfterLiveRound.Goes → GoesOn target.old target.new (P.story pipe.old).through
        (P.story pipe.new).through }
    ensures ends { IfEnds result (EndsSo M.meaning target.old target.new
        (P.story pipe.old).through (P.story pipe.new).through) }
    ensures turns { result ≡ AfterLiveRound.Goes
        → target.new.end.session.turns ≡ target.old.end.session.turns }
    ensures round { result ≡ AfterLiveRound.Goes → Round M.meaning target.old (P.story pipe.old) target.new
        (P.story pipe.new) }
    ensures last { IfEnds result (LastRound M.meaning target.old (P.story pipe.old) target.new
        (P.story pipe.new)) }
{
    target.session();
    if !flush_all(pipe) {
        target.lose();
        return AfterLiveRound::Ends(Ended::LostByWrite);
    }
    if target.deferred() > 0 {
        release_and_go(target, pipe)
    } else {
        read_or_step(target, pipe, buffer, greeted)
    }
}

/// Releases the newest deferred command. What waits to leave is written.
fn release_and_go<M: Machine + Drop, P: LivePipe>(
    target: &mut Target<M>,
    pipe: &mut P,
) -> AfterLiveRound
    requires is_open { is_open target.old.end ≡ true }
    requires asks { front_of target.old.end ≡ More }
    requires flows { is_paused target.old.end ≡ false }
    requires waits { 0 < length target.old.deferred }
    ensures goes { result ≡ AfterLiveRound.Goes → GoesOn target.old target.new (P.story pipe.old).through
        (P.story pipe.new).through }
    ensures ends { IfEnds result (EndsSo M.meaning target.old target.new
        (P.story pipe.old).through (P.story pipe.new).through) }
    ensures turns { result ≡ AfterLiveRound.Goes
        → target.new.end.session.turns ≡ target.old.end.session.turns }
    ensures round { result ≡ AfterLiveRound.Goes → (before : LiveStory) → P.story pipe.old ≡ flushed before
        → Round M.meaning target.old before target.new (P.story pipe.new) }
    ensures last { IfEnds result (λ ended. (before : LiveStory) → P.story pipe.old ≡ flushed before
        → LastRound M.meaning target.old before target.new (P.story pipe.new) ended) }
{
    jdwp_target::laws::closes_for_a_reason::<M>();
    target.session();
    let newest = target.deferred() - 1;
    match target.release(newest) {
        Ok(_) => write_and_go(target, pipe),
        Err(_) => AfterLiveRound::Ends(Ended::NoMemory),
    }
}

/// One read, for the handshake or for as long as passes between two steps; and where nothing came in that time a step of each live thread,
/// and if none of them stepped a read that waits.
fn read_or_step<M: Machine + Drop, P: LivePipe>(
    target: &mut Target<M>,
    pipe: &mut P,
    buffer: &mut [u8; CHUNK],
    greeted: bool,
) -> AfterLiveRound
    requires is_open { is_open target.old.end ≡ true }
    requires idle { target.old.end.outgoing ≡ [] }
    requires asks { front_of target.old.end ≡ More }
    requires flows { is_paused target.old.end ≡ false }
    requires room { 0 < room_of target.old.end }
    requires none { target.old.deferred ≡ [] }
    requires left { (P.story pipe.old).through.unflushed ≡ [] }
    requires greeted { greeted ≡ nat_lt 0 target.old.end.session.turns }
    ensures goes { result ≡ AfterLiveRound.Goes → GoesOn target.old target.new (P.story pipe.old).through
        (P.story pipe.new).through }
    ensures ends { IfEnds result (EndsSo M.meaning target.old target.new
        (P.story pipe.old).through (P.story pipe.new).through) }
    ensures turns { result ≡ AfterLiveRound.Goes
        → target.new.end.session.turns ≡ target.old.end.session.turns }
    ensures round { result ≡ AfterLiveRound.Goes → (before : LiveStory) → P.story pipe.old ≡ flushed before
        → Round M.meaning target.old before target.new (P.story pipe.new) }
    ensures last { IfEnds result (λ ended. (before : LiveStory) → P.story pipe.old ≡ flushed before
        → LastRound M.meaning target.old before target.new (P.story pipe.new) ended) }
{
    target.session();
    match read_and_go(target, pipe, patience_at(greeted), buffer) {
        Some(next) => next,
        None => step_or_wait(target, pipe, buffer),
    }
}

/// How long the first read of a round waits, by whether the handshake was handled.
fn patience_at(greeted: bool) -> Patience
    ensures { result ≡ patience_at greeted }
{
    if greeted {
        Patience::Step
    } else {
        Patience::Handshake
    }
}

/// One step of each live thread, where nothing could be read, and if none of them stepped a read that waits. What waits to leave is written.
fn step_or_wait<M: Machine + Drop, P: LivePipe>(
    target: &mut Target<M>,
    pipe: &mut P,
    buffer: &mut [u8; CHUNK],
) -> AfterLiveRound
    requires is_open { is_open target.old.end ≡ true }
    requires established { is_established target.old.end ≡ true }
    requires asks { front_of target.old.end ≡ More }
    requires flows { is_paused target.old.end ≡ false }
    requires room { 0 < room_of target.old.end }
    requires none { target.old.deferred ≡ [] }
    requires left { (P.story pipe.old).through.unflushed ≡ [] }
    ensures goes { result ≡ AfterLiveRound.Goes → GoesOn target.old target.new (P.story pipe.old).through
        (P.story pipe.new).through }
    ensures ends { IfEnds result (EndsSo M.meaning target.old target.new
        (P.story pipe.old).through (P.story pipe.new).through) }
    ensures turns { result ≡ AfterLiveRound.Goes
        → target.new.end.session.turns ≡ target.old.end.session.turns }
    ensures round { result ≡ AfterLiveRound.Goes → (before : LiveStory)
        → P.story pipe.old ≡ with_read Patience.Step [] (flushed before)
        → Round M.meaning target.old before target.new (P.story pipe.new) }
    ensures last { IfEnds result (λ ended. (before : LiveStory)
        → P.story pipe.old ≡ with_read Patience.Step [] (flushed before)
        → LastRound M.meaning target.old before target.new (P.story pipe.new) ended) }
{
    target.session();
    match step_each(target) {
        Ok(false) => wait_and_go(target, pipe, buffer),
        Ok(true) => write_and_go(target, pipe),
        Err(_) => match write_and_go(target, pipe) {
            AfterLiveRound::Goes => AfterLiveRound::Ends(Ended::NoMemory),
            AfterLiveRound::Ends(ended) => AfterLiveRound::Ends(ended),
        },
    }
}

/// Reads once with this patience, where all that was written has left, and feeds what came, or ends where the input did. None where nothing
/// came in the time.
fn read_and_go<M: Machine + Drop, P: LivePipe>(
    target: &mut Target<M>,
    pipe: &mut P,
    patience: Patience,
    buffer: &mut [u8; CHUNK],
) -> Option<AfterLiveRound>
    requires room { 0 < room_of target.old.end }
    requires left { (P.story pipe.old).through.unflushed ≡ [] }
    ensures goes { result ≡ Some AfterLiveRound.Goes → ReadsSome patience target.old target.new
        (P.story pipe.old) (P.story pipe.new) }
    ensures nothing { result ≡ None → (patience ≡ Patience.Step) × (target.new ≡ target.old)
        × (P.story pipe.new ≡ with_read patience [] (P.story pipe.old)) }
    ensures ends { IfSome result (λ next. IfEnds next (λ ended. (ended ≡ Ended.LostByRead)
        × LosesAtRead patience target.old target.new (P.story pipe.old) (P.story pipe.new))) }
{
    match read_and_feed(target, pipe, patience, buffer) {
        Ok(true) => Some(AfterLiveRound::Goes),
        Ok(false) => None,
        Err(NoInput) => {
            target.lose();
            Some(AfterLiveRound::Ends(Ended::LostByRead))
        }
    }
}

/// Reads once, until bytes come, where all that was written has left, and feeds them, or ends where the input did.
fn wait_and_go<M: Machine + Drop, P: LivePipe>(
    target: &mut Target<M>,
    pipe: &mut P,
    buffer: &mut [u8; CHUNK],
) -> AfterLiveRound
    requires room { 0 < room_of target.old.end }
    requires left { (P.story pipe.old).through.unflushed ≡ [] }
    ensures goes { result ≡ AfterLiveRound.Goes → ReadsSome Patience.Forever target.old target.new
        (P.story pipe.old) (P.story pipe.new) }
    ensures ends { IfEnds result (λ ended. (ended ≡ Ended.LostByRead)
        × LosesAtRead Patience.Forever target.old target.new (P.story pipe.old) (P.story pipe.new)) }
{
    match read_and_feed(target, pipe, Patience::Forever, buffer) {
        Ok(_) => AfterLiveRound::Goes,
        Err(NoInput) => {
            target.lose();
            AfterLiveRound::Ends(Ended::LostByRead)
        }
    }
}

/// Writes what waits, and ends where a write fails or the session has closed.
fn write_and_go<M: Machine + Drop, P: LivePipe>(
    target: &mut Target<M>,
    pipe: &mut P,
) -> AfterLiveRound
    ensures goes { result ≡ AfterLiveRound.Goes → (is_open target.old.end ≡ true)
        × WritesAll target.old target.new (P.story pipe.old) (P.story pipe.new) }
    ensures done { result ≡ AfterLiveRound.Ends Ended.Done → (is_open target.old.end ≡ false)
        × WritesAll target.old target.new (P.story pipe.old) (P.story pipe.new)
        × Ran M.meaning target.new }
    ensures ends { IfEnds result (λ ended. (ended ≡ Ended.Done) ⊎ (ended ≡ Ended.LostByWrite)) }
    ensures fails { result ≡ AfterLiveRound.Ends Ended.LostByWrite
        → LosesAtWrite M.meaning target.old target.new (P.story pipe.old) (P.story pipe.new) }
{
    let written = write_out(target, pipe);
    target.session();
    if !written {
        target.lose();
        return AfterLiveRound::Ends(Ended::LostByWrite);
    }
    if target.is_open() {
        AfterLiveRound::Goes
    } else {
        AfterLiveRound::Ends(Ended::Done)
    }
}
