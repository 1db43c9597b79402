//! Messages as a target over any machine handles them.
ghost use Rattle.std.specs.Prelude.{◌≡◌, ◌≢◌, ◌≤◌, ◌+◌, ◌-◌, ◌⊎◌, ◌∷◌, ℕ, ℤ, List, Some, None, Ok, Err, true, false, length, IfOk, IfErr, OnErr};
ghost use Rattle.jdwp_end.specs.Ends.{HasPacket, HasPacketWith, front_of, most_outgoing, with_enqueued};
ghost use Rattle.jdwp_end.specs.declared.phase.Phase.TheVariants.{Established};
ghost use Rattle.jdwp_event.specs.Composites.{vm_start};
ghost use Rattle.jdwp_event.specs.Constants.{policy_byte};
ghost use Rattle.jdwp_event.specs.Modifiers.{modifiers_of};
ghost use Rattle.jdwp_event.specs.RequestLists.{without, without_breakpoints};
ghost use Rattle.jdwp_wire.specs.Bytes.{IsBytes};
ghost use Rattle.jdwp_wire.specs.declared.frame.FrameFault.{FrameFault};
ghost use Rattle.jdwp_wire.specs.ErrorCodes.{NONE};
ghost use Rattle.jdwp_wire.specs.Numbers.{id_refusal};
ghost use Rattle.jdwp_wire.specs.declared.packet.Header.{Header};
ghost use Rattle.jdwp_wire.specs.declared.packet.PacketKind.TheVariants as kind;
ghost use Rattle.jdwp_wire.specs.Streams.{AreSendable, Packet, Whole, message_bytes, stream};
ghost use Rattle.jdwp_wire.specs.Limits.{least_packet_limit, most_packet_limit};
ghost use Rattle.jdwp_layout.specs.Meanings.{ScalarMeaning};
ghost use Rattle.jdwp_action.specs.Actions as asked;
ghost use Rattle.jdwp_debuggee.specs.Answering.{read_as};
ghost use Rattle.jdwp_debuggee.specs.Askings.{asked_meaning, asks, is_short};
ghost use Rattle.jdwp_action.specs.AnswerPackets.{EncodesAnswer};
ghost use Rattle.jdwp_debuggee.specs.Sending.{is_short_asked, sent_bytes, sent_error};
ghost use Rattle.jdwp_debuggee.specs.declared.reply.Reply.TheVariants as reply;
ghost use Rattle.jdwp_debuggee.specs.declared.reply.Sent.TheVariants as sent;
ghost use Rattle.jdwp_debuggee.specs.Debuggees.{visiting};
ghost use Rattle.jdwp_debuggee.specs.Wants.{MayWantAsRead, MayWantAsked, ReadsData};
ghost use Rattle.jdwp_debuggee.specs.Steps.{start_event};
ghost use Rattle.jdwp_target.specs.Sends.{IsEncoded, report_of};
ghost use Rattle.jdwp_target.specs.Standings.{carried_out, greets_by, stands};
ghost use Rattle.jdwp_target.specs.StepParts.{debuggee_after};
ghost use Rattle.jdwp_target.specs.TurnParts.{HasAtOnce, IsCarriedOut, IsDone, after_deaths, closed_where, deaths, reply_of};
ghost use Rattle.jdwp_target.specs.Turns.{EncodesNext, SendsAt, TurnsAt};
ghost use Rattle.jdwp_target.specs.Protocol.{AddsRequest, Answers, EachCount, HasReplied, IsOver, OneCount, requests};
ghost use Rattle.jdwp_target.specs.Visits.{visits_hello, visits_read};

use crate::laws;
use crate::numbers::{enqueue_int, fits_code};
use crate::sending::{enqueue_composite_header, enqueue_death, enqueue_reply};
use crate::target::{Target, TargetFault, Turn};
use jdwp_debuggee::{Debuggee, ParsedCommand, Reply, Sent, Start, read_command};
use jdwp_end::{End, Front};
use jdwp_event::EventKind;
use jdwp_machine::Machine;
use jdwp_wire::{ErrorCode, HANDSHAKE, Header, IdSizes, NoMemory, PacketKind};
use std::alloc::Global;

/// What became of a command: what is sent for it, whether the machine died by it, and whether the session closes behind it.
#[derive(Drop)]
pub struct Done {
    pub(crate) sent: Sent,
    dies: bool,
    closes: bool,
}

impl Done {
    /// A command was refused, and nothing changed.
    fn refused(error: ErrorCode) -> Done
        ensures { result ≡ record {
          sent = sent.Short (reply.Refused error);
          dies = false;
          closes = false;
        } }
    {
        Done {
            sent: Sent::Short(Reply::Refused(error)),
            dies: false,
            closes: false,
        }
    }
}

impl<M: Machine + Drop> Target<M> {
    /// Handles the message in front, if one is whole and the end is neither closed nor paused. An open end that is not paused and
    /// asks for more has room for a byte. VM_START and what a command is answered are encoded by the bytes that are sent, so they can
    /// be read; and each packet that is sent is within the limit. A turn that handles a message takes its bytes off, 11 at least, so
    /// turns come to an end.
    ///
    /// Where `set_deferring` says so and fewer than 16 commands are deferred, a command of the sets ReferenceType and Method is
    /// deferred: it is taken off and kept, nothing is sent, and the debuggee stays as it is.
    ///
    /// # Errors
    /// `Frame` exactly where the bytes in front begin no message; the end is then as after `lose`. `NoMemory` where an allocation
    /// was refused, which only commands call for that are deferred and have data, or that are handled at once and for which the debuggee
    /// may want memory as it stands. For these it wants none: a command that is not implemented, or whose data do not read; VirtualMachine's
    /// Suspend, Resume, HoldEvents, ReleaseEvents, IDSizes and Dispose; ThreadReference's Suspend, Resume, Status and SuspendCount;
    /// EventRequest's Clear and ClearAllBreakpoints; a question about a thread that is not alive, or about the frames of one that runs; an
    /// EventRequest.Set whose kind or policy is refused, or for which there is no room; and a question without data that its machine
    /// refuses. Then nothing has changed.
    pub fn turn(&mut self) -> Result<Turn, TargetFault>
        // The whole of it: what is told and left, by what there is to handle. What is sent can be read, and fits the limit.
        ensures turns { TurnsAt M.meaning (front_of self.old.end) self.old result self.new }
        ensures encoded { IfOk result (λ _.
            EncodesNext M.meaning (front_of self.old.end) self.old) }
        ensures packets { IfOk result (λ _. SendsAt M.meaning (front_of self.old.end) self.old) }
        ensures shrinks { IfOk result (λ turn. turn ≢ Turn.Nothing
            → 11 + length self.new.end.incoming ≤ length self.old.end.incoming) }

        // A reply has the id of the command in front. A command that is refused changes nothing of the debuggee's state. Nothing, and
        // want of memory, leave all as it was.
        ensures replies { (id : ℕ) (error : ErrorCode) → result ≡ Ok (Turn.Replied id error)
            → HasReplied M.meaning id error self.old self.new }
        ensures refused { (id : ℕ) (error : ErrorCode) → result ≡ Ok (Turn.Replied id error)
            → error ≢ NONE → self.new.moment.state ≡ self.old.moment.state }
        ensures unchanged { (result ≡ Ok Turn.Nothing) ⊎ (result ≡ Err TargetFault.NoMemory)
            → self.new ≡ self.old }

        // VirtualMachine: Suspend raises the suspend count of each live thread by one, and Resume lowers each that is above 0 by one.
        ensures suspend { Answers M.meaning asked.Suspend self.old result
            → EachCount (λ n. n + 1) self.old self.new }
        ensures resume { Answers M.meaning asked.Resume self.old result
            → EachCount (λ n. n - 1) self.old self.new }

        // ThreadReference: Suspend and Resume do so to their thread alone.
        ensures suspend_thread { (t : ℕ) → Answers M.meaning (asked.SuspendThread t) self.old result
            → OneCount t (λ n. n + 1) self.old self.new }
        ensures resume_thread { (t : ℕ) → Answers M.meaning (asked.ResumeThread t) self.old result
            → OneCount t (λ n. n - 1) self.old self.new }

        // EventRequest: Set adds one request, whose id the reply tells; Clear removes the one of its kind and id, and
        // ClearAllBreakpoints those of the kind BREAKPOINT.
        ensures set { (kind policy : ℕ) (modifiers : List (List ScalarMeaning))
            → (set : Answers M.meaning (asked.SetRequest kind policy modifiers) self.old result)
            → AddsRequest M.meaning set.header.id kind policy (modifiers_of modifiers) self.old
            self.new }
        ensures clear { (kind : ℕ) (id : ℤ)
            → Answers M.meaning (asked.ClearRequest kind id) self.old result
            → requests self.new ≡ without kind id (requests self.old) }
        ensures clear_all_breakpoints { Answers M.meaning asked.ClearBreakpoints self.old result
            → requests self.new ≡ without_breakpoints (requests self.old) }

        // Dispose, and bytes that begin no message, end the session: each suspend count is 0, there are no requests, the end is closed.
        ensures dispose { Answers M.meaning asked.Dispose self.old result
            → IsOver self.old self.new }
        ensures fault { (fault : FrameFault) → result ≡ Err (TargetFault.Frame fault)
            → IsOver self.old self.new }
    {
        self.handle_next()
    }

    /// Handles the message in front, if one is whole and the end is neither closed nor paused.
    ///
    /// # Errors
    /// As those of `turn`.
    fn handle_next(&mut self) -> Result<Turn, TargetFault>
        ensures turns { TurnsAt M.meaning (front_of self.old.end) self.old result self.new }
        ensures encoded { IfOk result (λ _.
            EncodesNext M.meaning (front_of self.old.end) self.old) }
        ensures packets { IfOk result (λ _. SendsAt M.meaning (front_of self.old.end) self.old) }
        ensures shrinks { IfOk result (λ turn. turn ≢ Turn.Nothing
            → 11 + length self.new.end.incoming ≤ length self.old.end.incoming) }
    {
        match self.end.front() {
            Front::More => Ok(Turn::Nothing),
            Front::Fault(fault) => {
                self.lose();
                Err(TargetFault::Frame(fault))
            }
            Front::Handshake => {
                self.end.take_off(HANDSHAKE.len());
                greet(&mut self.debuggee, &mut self.end);
                Ok(Turn::Hello)
            }
            Front::Packet(header, used) => self.take_packet(header, used),
        }
    }

    /// Handles the packet in front, which has this header and takes so many bytes: a command is answered, or its reply is deferred.
    ///
    /// # Errors
    /// `NoMemory`, as a turn.
    fn take_packet(&mut self, header: Header, used: usize) -> Result<Turn, TargetFault>
        requires packet { HasPacketWith header used self.old.end }
        requires bytes { IsBytes self.old.end.incoming }
        requires least { least_packet_limit ≤ self.old.end.limits.packet }
        requires most { self.old.end.limits.packet ≤ most_packet_limit }
        ensures turns { TurnsAt M.meaning (front_of self.old.end) self.old result self.new }
        ensures encoded { IfOk result (λ _.
            EncodesNext M.meaning (front_of self.old.end) self.old) }
        ensures packets { IfOk result (λ _. SendsAt M.meaning (front_of self.old.end) self.old) }
    {
        match header.kind {
            PacketKind::Reply { .. } => Ok(self.ignore(header, used)),
            PacketKind::Command { set, number } => {
                if self.deferral.takes(set) {
                    return self.defer(header, set, number, used);
                }
                self.answer(header, set, number, used)
            }
        }
    }

    /// Takes the reply in front off, which has this header and takes so many bytes: it means nothing to a target.
    fn ignore(&mut self, header: Header, used: usize) -> Turn
        requires packet { HasPacketWith header used self.old.end }
        requires reply { (error : ErrorCode) × (header.kind ≡ kind.Reply error) }
        requires bytes { IsBytes self.old.end.incoming }
        ensures turns { TurnsAt M.meaning (front_of self.old.end) self.old (Ok result) self.new }
        ensures encoded { EncodesNext M.meaning (front_of self.old.end) self.old }
        ensures packets { SendsAt M.meaning (front_of self.old.end) self.old }
    {
        self.end.take_off(used);
        Turn::Ignored
    }

    /// Carries out or refuses the command of this set and number in the packet in front, which has this header and takes so many bytes, and
    /// replies to it.
    ///
    /// # Errors
    /// `NoMemory`, as a turn.
    fn answer(
        &mut self,
        header: Header,
        set: u8,
        number: u8,
        used: usize,
    ) -> Result<Turn, TargetFault>
        requires packet { HasAtOnce header used self.old }
        requires command { header.kind ≡ kind.Command set number }
        requires bytes { IsBytes self.old.end.incoming }
        requires least { least_packet_limit ≤ self.old.end.limits.packet }
        requires most { self.old.end.limits.packet ≤ most_packet_limit }
        ensures turns { TurnsAt M.meaning (front_of self.old.end) self.old result self.new }
        ensures encoded { IfOk result (λ _.
            EncodesNext M.meaning (front_of self.old.end) self.old) }
        ensures packets { IfOk result (λ _. SendsAt M.meaning (front_of self.old.end) self.old) }
    {
        let id = header.id;
        let sizes = self.debuggee.sizes();
        let done = handle_front(
            &mut self.debuggee,
            self.alloc,
            &mut self.end,
            (set, number),
            used,
            &sizes,
        )?;
        fits_reply(id, &done, &sizes, &self.debuggee);
        self.end.take_off(used);
        reply(id, &done, &sizes, &mut self.debuggee, &mut self.end);
        self.deferral.keep_where(self.end.is_established());
        Ok(Turn::Replied(id, error_of(&done.sent)))
    }
}

/// Carries out or refuses the command of this set and number in the packet in front of an end, which takes so many bytes. Its data are
/// read where they lie, or joined where they wrap, and the end is as it was.
///
/// # Errors
/// As those of `handle_command`.
fn handle_front<M: Machine>(
    debuggee: &mut Debuggee<M>,
    alloc: Global,
    end: &mut End,
    command: (u8, u8),
    used: usize,
    sizes: &IdSizes,
) -> Result<Done, NoMemory>
    requires packet { HasPacket used end.old }
    requires shaken { debuggee.old.moment.state.handshaken ≡ true }
    requires widths { sizes.now ≡ M.meaning.sizes debuggee.old.moment.machine }
    ensures ok { IfOk result (λ done. (header : Header) (body : List ℕ)
        → front_of end.old ≡ Whole (Packet header body) used
        → IsCarriedOut M.meaning debuggee.old debuggee.new command.0 command.1 body done) }
    ensures err { OnErr result (debuggee.new ≡ debuggee.old) }
    ensures wants { IfErr result (λ _. (header : Header) (body : List ℕ)
        → front_of end.old ≡ Whole (Packet header body) used
        → MayWantAsRead M.meaning debuggee.old.settings debuggee.old.moment
        (read_as debuggee.old.settings.profile sizes.now command.0 command.1 body)) }
    ensures same { end.new ≡ end.old }
{
    let (set, number) = command;
    match end.data_in_place(used) {
        Some(body) => handle_command(debuggee, alloc, set, number, sizes, body),
        None => {
            let body = end.data_joined(used);
            handle_command(debuggee, alloc, set, number, sizes, body)
        }
    }
}

/// Reads a command of this set and number with these data, and carries it out or refuses it.
///
/// # Errors
/// `NoMemory` where an allocation was refused, and only where the debuggee may want memory for the command. Then nothing has changed.
pub(crate) fn handle_command<M: Machine>(
    debuggee: &mut Debuggee<M>,
    alloc: Global,
    set: u8,
    number: u8,
    sizes: &IdSizes,
    body: &[u8],
) -> Result<Done, NoMemory>
    requires shaken { debuggee.old.moment.state.handshaken ≡ true }
    requires widths { sizes.now ≡ M.meaning.sizes debuggee.old.moment.machine }
    ensures ok { IfOk result (IsCarriedOut M.meaning debuggee.old debuggee.new set number body.now) }
    ensures err { OnErr result (debuggee.new ≡ debuggee.old) }
    ensures wants { IfErr result (λ _. MayWantAsRead M.meaning debuggee.old.settings
        debuggee.old.moment (read_as debuggee.old.settings.profile sizes.now set number body.now)) }
{
    let asked = match read_command(alloc, debuggee.profile(), set, number, sizes, body) {
        Ok(asked) => asked,
        Err(NoMemory) => return refuse_unread(debuggee, alloc, set, number, sizes, body),
    };
    handle(debuggee, alloc, asked)
}

/// What becomes of a command of this set and number whose data read, and for which there was no memory: it is refused where the debuggee
/// does that by itself.
///
/// # Errors
/// `NoMemory` exactly where it does not.
fn refuse_unread<M: Machine>(
    debuggee: &Debuggee<M>,
    alloc: Global,
    set: u8,
    number: u8,
    sizes: &IdSizes,
    body: &[u8],
) -> Result<Done, NoMemory>
    requires long { is_short set number ≡ false }
    requires reads { ReadsData (read_as debuggee.now.settings.profile sizes.now set number
        body.now) }
    requires widths { sizes.now ≡ M.meaning.sizes debuggee.now.moment.machine }
    ensures ok { IfOk result (IsCarriedOut M.meaning debuggee.now debuggee.now set number
        body.now) }
    ensures wants { IfErr result (λ _. MayWantAsRead M.meaning debuggee.now.settings
        debuggee.now.moment (read_as debuggee.now.settings.profile sizes.now set number body.now)) }
{
    match debuggee.own_refusal(alloc, set, number, sizes, body) {
        Some(error) => Ok(Done::refused(error)),
        None => Err(NoMemory),
    }
}

/// Answers the handshake; behind the first of the target's life follows VM_START. It takes no memory.
fn greet<M: Machine>(debuggee: &mut Debuggee<M>, end: &mut End)
    requires { length end.old.outgoing + 43 ≤ most_outgoing end.old.limits }
    ensures debuggee { debuggee.new ≡ visiting (visits_hello debuggee.old.settings
        debuggee.old.moment.state debuggee.old.moment.state.handshaken debuggee.old.visits)
        (debuggee_after (greets_by M.meaning debuggee.old.settings (stands debuggee.old.moment
        Established) debuggee.old.moment.state.handshaken) debuggee.old) }
    ensures end { end.new ≡ with_enqueued (stream (greets_by M.meaning debuggee.old.settings
        (stands debuggee.old.moment Established) debuggee.old.moment.state.handshaken).sends)
        end.old }
    ensures encoded { debuggee.old.moment.state.handshaken ≡ false
        → IsEncoded (M.meaning.sizes debuggee.old.moment.machine)
        (Some (start_event debuggee.old.settings debuggee.old.moment.state)) }
    ensures packets { AreSendable debuggee.old.settings.limits.packet
        (greets_by M.meaning debuggee.old.settings (stands debuggee.old.moment Established)
        debuggee.old.moment.state.handshaken).sends }
{
    end.enqueue(&HANDSHAKE);
    let sizes = debuggee.sizes();
    if let Some(start) = debuggee.handshake() {
        laws::fits_id(start.packet);
        enqueue_start(start, &sizes, end);
    }
}

/// Enqueues VM_START: the policy, the number of events, and the event's kind, request and thread. It takes no memory.
fn enqueue_start(start: Start, sizes: &IdSizes, end: &mut End)
    requires fits { id_refusal sizes.now.object start.thread.0 ≡ None }
    requires room { length end.old.outgoing + 29 ≤ most_outgoing end.old.limits }
    ensures { end.new ≡ with_enqueued (message_bytes (report_of sizes.now start.packet
        (vm_start (policy_byte start.policy) start.thread.0))) end.old }
{
    enqueue_composite_header(start.packet, 10 + u32::from(sizes.object()), end);
    end.put(&start.policy.byte(), sizes);
    enqueue_int(1, end);
    end.put(&EventKind::VmStart.byte(), sizes);
    enqueue_int(0, end);
    end.put(&start.thread, sizes);
}

/// Carries out what a command comes to, or refuses it.
///
/// # Errors
/// `NoMemory` where an allocation was refused, which what wants no memory never answers; then nothing has changed.
fn handle<M: Machine>(
    debuggee: &mut Debuggee<M>,
    alloc: Global,
    asked: ParsedCommand,
) -> Result<Done, NoMemory>
    requires { debuggee.old.moment.state.handshaken ≡ true }
    ensures ok { IfOk result (λ done. (set number : ℕ) (body : List ℕ)
        → asked_meaning asked ≡ asks (read_as debuggee.old.settings.profile (M.meaning.sizes debuggee.old.moment.machine) set
        number body) → IsDone (M.meaning.sizes debuggee.old.moment.machine)
        (carried_out M.meaning debuggee.old.settings debuggee.old.moment
        (read_as debuggee.old.settings.profile (M.meaning.sizes debuggee.old.moment.machine) set number body))
        (visits_read M.meaning debuggee.old.settings debuggee.old.moment
        (read_as debuggee.old.settings.profile (M.meaning.sizes debuggee.old.moment.machine) set number body)
        debuggee.old.visits) debuggee.old debuggee.new done) }
    ensures encoded { IfOk result (λ _. (set number : ℕ) (body : List ℕ)
        → asked_meaning asked ≡ asks (read_as debuggee.old.settings.profile (M.meaning.sizes debuggee.old.moment.machine) set
        number body) → EncodesAnswer (M.meaning.sizes debuggee.old.moment.machine) set number
        (carried_out M.meaning debuggee.old.settings debuggee.old.moment
        (read_as debuggee.old.settings.profile (M.meaning.sizes debuggee.old.moment.machine) set number body)).answer) }
    ensures err { OnErr result (debuggee.new ≡ debuggee.old) }
    ensures memory { IfErr result (λ _. is_short_asked (asked_meaning asked) ≡ false) }
    ensures wants { IfErr result (λ _. MayWantAsked M.meaning debuggee.old.settings
        debuggee.old.moment (asked_meaning asked)) }
{
    match asked {
        ParsedCommand::Refuses(error) => Ok(Done::refused(error)),
        ParsedCommand::Carries(action) => {
            let dies = action.kills();
            let closes = action.closes();
            debuggee.own_answers();
            let sent = debuggee.carry_out(alloc, action)?;
            Ok(Done { sent, dies, closes })
        }
    }
}

/// What is sent for a command, and VM_DEATH behind it, are packets within the limit, where its data are. It changes nothing.
pub(crate) fn fits_reply<M: Machine>(id: u32, done: &Done, sizes: &IdSizes, debuggee: &Debuggee<M>)
    ensures { (limit : ℕ) → least_packet_limit ≤ limit
        → 11 + length (sent_bytes sizes.now done.now.sent) ≤ limit
        → AreSendable limit (reply_of sizes.now id done.now.sent ∷ deaths sizes.now
        debuggee.now.moment.state.next_packet done.now.dies) }
{
    jdwp_debuggee::laws::fits_vm_death();
    laws::fits_id(id);
    laws::fits_id(debuggee.next_packet());
    fits_code(error_of(&done.sent));
}

/// Enqueues what is sent for a command, and VM_DEATH behind it where the machine died; the session closes where it is to. It takes
/// no memory.
pub(crate) fn reply<M: Machine>(
    id: u32,
    done: &Done,
    sizes: &IdSizes,
    debuggee: &mut Debuggee<M>,
    end: &mut End,
)
    requires short { length end.old.outgoing + 32 ≤ most_outgoing end.old.limits }
    requires room { length end.old.outgoing + (11 + length (sent_bytes sizes.now done.now.sent))
        ≤ most_outgoing end.old.limits }
    requires small { length (sent_bytes sizes.now done.now.sent) ≤ most_packet_limit }
    requires bare { done.now.dies ≡ true → length (sent_bytes sizes.now done.now.sent) ≡ 0 }
    ensures debuggee { debuggee.new ≡ after_deaths done.now.dies debuggee.old }
    ensures end { end.new ≡ closed_where done.now.closes
        (with_enqueued (stream (reply_of sizes.now id done.now.sent ∷ deaths sizes.now
        debuggee.old.moment.state.next_packet done.now.dies)) end.old) }
{
    enqueue_reply(id, &done.sent, sizes, end);
    if done.dies {
        enqueue_death(debuggee.take_packet_id(), sizes, end);
    }
    if done.closes {
        end.close();
    }
}

/// The error code of a reply.
pub(crate) fn error_of(sent: &Sent) -> ErrorCode
    ensures { result ≡ sent_error sent.now }
{
    match sent {
        Sent::Short(Reply::Refused(error)) => *error,
        Sent::Short(_) | Sent::Written(_) | Sent::Object(_) => ErrorCode::NONE,
    }
}
