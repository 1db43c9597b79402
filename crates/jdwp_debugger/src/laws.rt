//! Laws: each function says what holds, in its contract, and does nothing; to call it is to cite it.
ghost use Rattle.std.specs.Prelude.{◌≡◌, ℕ, List, [], Some, Ok};
ghost use Rattle.jdwp_wire.specs.ErrorCodes.{NONE};
ghost use Rattle.jdwp_wire.specs.Streams.{NextMessage};
ghost use Rattle.jdwp_wire.specs.Widths.{AreWidths, Widths};
ghost use Rattle.jdwp_wire.specs.declared.packet.Header.{Header};
ghost use Rattle.jdwp_event.specs.CompositeBytes.{EncodesComposite};
ghost use Rattle.jdwp_event.specs.Composites.{CompositeMeaning};
ghost use Rattle.jdwp_layout.specs.declared.answer.Answer.{Answer};
ghost use Rattle.jdwp_action.specs.Actions.{Command};
ghost use Rattle.jdwp_action.specs.AnswerPackets.{sizes_answer, EncodesAnswer, answer_bytes, error_of};
ghost use Rattle.jdwp_action.specs.CommandPackets.{carried_bytes};
ghost use Rattle.jdwp_debugger.specs.Asking.{EncodesCommand, ReadsAsAsked, command_header};
ghost use Rattle.jdwp_debugger.specs.Debuggers.{Debugger};
ghost use Rattle.jdwp_debugger.specs.DebuggerTurns.{TurnsAt, read_meaning, sizes_header};
ghost use Rattle.jdwp_debugger.specs.Judging.{EncodesMessage, IsJudgedAs, Stands};
ghost use Rattle.jdwp_debugger.specs.News.{EIGHT, answer_in, composite_in};
ghost use Rattle.jdwp_debugger.specs.Runs.{GoesOn};
ghost use Rattle.jdwp_debugger.specs.TellsHeads.{TellsHeads};
ghost use Rattle.jdwp_debugger.specs.declared.turning.Read.{Read};
ghost use Rattle.jdwp_mirror.specs.Messages.{Message, id_sizes};
ghost use Rattle.jdwp_mirror.specs.Widths.{widths_in};
ghost use Rattle.jdwp_wire.specs.Limits.{AreLimits};

use jdwp_layout::laws::reads_what_is_encoded;
use jdwp_wire::Limits;

/// Whatever bytes come, the packets that were read or that wait are the first whole ones of the bytes fed, none is read behind the first
/// fault, what was taken and what waits to leave are the bytes of the messages put, or where the connection was lost a beginning of them,
/// and the mirror is what the packets that were read in the session say, each once and in order: this holds before the first session, and
/// each call keeps it.
pub fn goes_on_at_each_call()
    ensures { GoesOn }
{}

/// A command that was asked reads at the target as what was asked, where the target carries it out; any other it refuses unread. It does
/// nothing.
pub fn reads_what_was_asked()
    ensures { (w : Widths) (c : Command) → EncodesCommand w c → ReadsAsAsked w c }
{
    reads_what_is_encoded();
}

/// A composite that was sent is read as what was sent, whether it waited for the widths of ids or not.
pub fn reads_what_was_reported()
    ensures { (w : Widths) (c : CompositeMeaning) (code : List ℕ) → EncodesComposite w c code
        → composite_in w code ≡ Some c }
{}

/// A reply that was sent is read as the answer that was given to the command.
pub fn reads_what_was_answered()
    ensures { (w : Widths) (c : Command) (answer : Answer) → EncodesAnswer w c.set c.number answer
        → answer_in w c (error_of answer) (answer_bytes w answer) ≡ Some answer }
{
    reads_what_is_encoded();
}

/// IDSizes is put as any other command, in ids of any widths: it has no data, which encode it.
pub fn puts_id_sizes()
    ensures header { (w : Widths) (id : ℕ) → command_header w id id_sizes ≡ sizes_header id }
    ensures data_are { (w : Widths) → carried_bytes w id_sizes.carried ≡ [] }
    ensures encoded { (w : Widths) → EncodesCommand w id_sizes }
{}

/// The reply to IDSizes is read as the answer that was given, whatever the widths of ids by which it is sent and read, since no id stands
/// in it.
pub fn reads_id_sizes_at_any_widths()
    ensures { (v w : Widths) (answer : Answer) → EncodesAnswer w id_sizes.set id_sizes.number answer
        → answer_in v id_sizes (error_of answer) (answer_bytes w answer) ≡ Some answer }
{
    reads_what_is_encoded();
}

/// The widths of ids that a target tells are read before any are known, and are those that it tells.
pub fn reads_widths()
    ensures read { (w : Widths) → AreWidths w.field w.method w.object w.reference w.frame
        → answer_in EIGHT id_sizes NONE (answer_bytes w (sizes_answer w)) ≡ Some (sizes_answer w) }
    ensures widths { (w : Widths) → AreWidths w.field w.method w.object w.reference w.frame
        → widths_in (sizes_answer w) ≡ Some w }
{
    reads_what_is_encoded();
}

/// What a turn tells can be told under the heads that it leaves: one of its kind for each message, in the order in which they are told, and
/// for an answer the one that names the command that waited under its id, with the ticket that is told.
pub fn tells_what_it_read()
    ensures { (next : NextMessage) (old new : Debugger) (read : Read)
        → TurnsAt next old (Ok read) new
        → TellsHeads old.pending (read_meaning read) new.last new.sizes }
{}

/// A packet that encodes a message is refused where the message is refused, and for the same.
pub fn refuses_what_is_refused()
    ensures { (d : Debugger) (waiting : List CompositeMeaning) (header : Header) (body : List ℕ)
        (message : Message) → Stands d waiting → EncodesMessage d waiting header body message
        → IsJudgedAs d waiting header body message }
{
    reads_what_is_encoded();
}

/// All limits are some that there may be.
pub(crate) fn are_limits(limits: &Limits)
    ensures { AreLimits limits.now.packet limits.now.live limits.now.requests limits.now.pending }
{
    let _packet = limits.packet();
    let _live = limits.live();
    let _requests = limits.requests();
    let _pending = limits.pending();
}
