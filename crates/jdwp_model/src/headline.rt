//! What a debugger may rely on, of every machine and over every list of events: each function is a theorem, and does nothing.
ghost use Rattle.jdwp_model.specs.Headline.{Always, KnowsAndHolds, HasTheCounts, HasTheRequests, HeldIsSuspended, HeldIsCovered, CountIsAtMost};
ghost use Rattle.jdwp_model.specs.Tickets.{SettlesOnce, SettlesInOrder};
ghost use Rattle.jdwp_model.specs.Given.{TellsWhatWasGiven, GivesOnce};
ghost use Rattle.jdwp_model.specs.Faultless.{NoPacketIsRefused, NoCallIsRefused, AnswersOneWaiting, AnswersFirstWaiting, AlwaysUndeferred, FewWait, TurnsLoseNothing, TurnsCloseAtEnds, IdlesUnchanged, AtEachTurn};
ghost use Rattle.jdwp_model.specs.Lasting.{AlwaysStaysTrue};
ghost use Rattle.jdwp_model.specs.Soundness.{AlwaysStandsSoundly};
ghost use Rattle.jdwp_model.specs.Places.{EachAtOnePlace};
ghost use Rattle.jdwp_model.specs.Deferred.{DefersFew};

use crate::laws;
use jdwp_machine::Machine;

/// What the debugger's mirror shows is what the target had when it sent the last packet that the debugger read.
///
/// The mirror knows exactly the threads that some packet taught and no later one forgot, and holds exactly those of them that were
/// shown alive and stayed suspended in the target from then on, as far as the debugger has read. Each suspend count of a thread that
/// lived then, and each event request, is the target's of that moment.
pub fn mirrors_what_was_seen<M: Machine>()
    ensures known_and_held { Always M.meaning KnowsAndHolds }
    ensures counts { Always M.meaning HasTheCounts }
    ensures requests { Always M.meaning HasTheRequests }
{
    laws::rests_on_laws::<M>();
}

/// A thread that the debugger holds for suspended is suspended in the target now, whatever is under way between them, unless the
/// machine died, the target lost the connection, or a Dispose or a Resume of that thread or of all is unanswered.
///
/// More sharply, where Resumes are unanswered: each of them can lower the thread's suspend count by one, and nothing else can.
pub fn holds_only_suspended_threads<M: Machine>()
    ensures suspended { Always M.meaning HeldIsSuspended }
    ensures covered { Always M.meaning HeldIsCovered }
{
    laws::rests_on_laws::<M>();
}

/// The suspend count in the target of each known thread that lived as the last packet read was sent exceeds the one that the debugger shows
/// by no more than what it may not know yet: its own unanswered Suspends, and the composites under way.
pub fn counts_at_most<M: Machine>()
    ensures { Always M.meaning CountIsAtMost }
{
    laws::rests_on_laws::<M>();
}

/// Each command that was asked is settled once: it is answered, or it is lost as the debugger's end closes.
/// Those that are settled and those that wait are all that were asked, whatever was lost and reattached in between.
pub fn settles_each_command_once<M: Machine>()
    ensures { SettlesOnce M.meaning }
{
    laws::rests_on_laws::<M>();
}

/// As long as no target begins to defer replies, commands are settled in the order asked: those that are settled and then those that
/// wait are all that were asked, in their order.
pub fn settles_in_order<M: Machine>()
    ensures { SettlesInOrder M.meaning }
{
    laws::rests_on_laws::<M>();
}

/// Each answer that the debugger tells of a ticket is the one that the target gave to that same ticket when it carried out its command,
/// as it handled it, or, where it deferred it, as it released it: the only one, since the target gives no ticket two answers.
pub fn tells_what_was_given<M: Machine>()
    ensures told { TellsWhatWasGiven M.meaning }
    ensures once { GivesOnce M.meaning }
{}

/// Neither end ever refuses what the other sent.
///
/// Whatever the debugger reads is a handshake where it waits for it, a reply to a command that waits for one and that says what such a
/// reply has to say, or a composite that a target may send; and no more composites come before the widths of ids are known than may
/// wait: never more than two do. The target reads the handshake first, and after it commands alone.
pub fn meets_no_fault<M: Machine>()
    ensures debugger { Always M.meaning NoPacketIsRefused }
    ensures target { Always M.meaning NoCallIsRefused }
    ensures waiting { Always M.meaning FewWait }
{
    laws::rests_on_laws::<M>();
}

/// A reply that the debugger reads next is to one command that waits, under its ticket; and no two commands that are under way, or are
/// deferred, or whose replies are under way, have the same ticket.
pub fn answers_one_that_waits<M: Machine>()
    ensures one { Always M.meaning AnswersOneWaiting }
    ensures places { Always M.meaning EachAtOnePlace }
{
    laws::rests_on_laws::<M>();
}

/// As long as no target begins to defer replies, a reply that the debugger reads next is to the command that waits longest.
pub fn answers_the_first_waiting<M: Machine>()
    ensures { AlwaysUndeferred M.meaning AnswersFirstWaiting }
{
    laws::rests_on_laws::<M>();
}

/// A target defers at most 16 commands at a time, all of them of the sets ReferenceType and Method, and none but in an established
/// session.
pub fn defers_few_commands<M: Machine>()
    ensures { Always M.meaning DefersFew }
{
    laws::rests_on_laws::<M>();
}

/// No turn is a loss, and none closes the debugger's end but at an end of the session.
///
/// A target that handles a message stays as it is in what it knows of losses: it takes nothing that came for nonsense. A debugger's
/// turn closes its end only where the packet in front, or a composite that waited for the widths of ids, is VM_DEATH or the packet is
/// an OK reply to Dispose.
pub fn turns_close_at_ends_alone<M: Machine>()
    ensures target { AtEachTurn M.meaning (TurnsLoseNothing M.meaning) }
    ensures debugger { AtEachTurn M.meaning TurnsCloseAtEnds }
{
    laws::rests_on_laws::<M>();
}

/// A turn that handles no message, a release that answers no command and a step that is not made leave everything as it was, and
/// nothing is told of them.
pub fn idle_turns_change_nothing<M: Machine>()
    ensures { AtEachTurn M.meaning (IdlesUnchanged M.meaning) }
{
    laws::rests_on_laws::<M>();
}

/// What the debugger read of a suspended thread's frames (where they are, how many, their slots, their `this`) the target would answer
/// now, whatever is under way.
///
/// This holds for as long as the thread's count was above 0 as each later packet was sent, the debugger has written no slot of the
/// thread since, and fewer Resumes of it are unanswered than its count was as the last packet read was sent.
pub fn frames_read_stay_true<M: Machine>()
    ensures { AlwaysStaysTrue M.meaning }
{
    laws::rests_on_laws::<M>();
}

/// Whatever events led there, the debuggee is sound, there are no requests but in an established session, a target that is open noticed
/// no loss, and nothing waits at a debugger that is closed.
pub fn stands_soundly<M: Machine>()
    ensures { AlwaysStandsSoundly M.meaning }
{
    laws::rests_on_laws::<M>();
}
