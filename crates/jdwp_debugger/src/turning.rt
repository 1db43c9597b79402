//! Turns of a debugger.
ghost use Rattle.std.specs.Prelude.{◌≡◌, ◌≢◌, ◌<◌, ◌++◌, ◌∷◌, [], ℕ, ℤ, pos, List, IfOk, IfErr, OnOk, Ok, Err, None, Some, length, true, false};
ghost use Rattle.std.specs.List.{filter, list_any};
ghost use Rattle.std.specs.Option.{option_map};
ghost use Rattle.std.specs.Result.{IsErrOf};
ghost use Rattle.jdwp_wire.specs.Bytes.{IsBytes};
ghost use Rattle.jdwp_wire.specs.Streams.{Handshake, Packet, Whole};
ghost use Rattle.jdwp_end.specs.Ends.{HasPacketWith, front_of};
ghost use Rattle.jdwp_debugger.specs.declared.faults.DebuggerFault.TheVariants as code;
ghost use Rattle.jdwp_debugger.specs.DebuggerTurns as turns;
ghost use Rattle.jdwp_debugger.specs.DebuggerTurns.{AreFew, Enters, EntersAt, FailsOnly, FailsTo, GoesOnBy, HandlesAt, IsSaid, LearnedAll, MayTakeMemory, TellsSizes, TurnsAt, closed_debugger, closed_where, command_at, measured_where, news_meaning, refused, reports, read_meaning, with_ledger, with_sizes};
ghost use Rattle.jdwp_debugger.specs.FollowingKept.{HasNoTicket, IsFirstOf};
ghost use Rattle.jdwp_debugger.specs.Orders.{MayLearn, has_bad_in, none_known};
ghost use Rattle.jdwp_mirror.specs.FaultParts.{is_dispose_kind};
ghost use Rattle.jdwp_mirror.specs.KnownThreads.{count_in};
ghost use Rattle.jdwp_mirror.specs.Messages.{Reply, Ticket as MessageTicket};
ghost use Rattle.jdwp_mirror.specs.Mirror.{ends, has_other_id, one_less, one_more};
ghost use Rattle.jdwp_mirror.specs.Mirrors.{empty_mirror};
ghost use Rattle.jdwp_debugger.specs.News as news;
ghost use Rattle.jdwp_event.specs.Composites.{CompositeMeaning, POLICY_ALL, POLICY_NONE};
ghost use Rattle.jdwp_event.specs.Modifiers.{modifiers_of};
ghost use Rattle.jdwp_event.specs.Told.{composite_thread, is_vm_death};
ghost use Rattle.jdwp_layout.specs.Meanings.{DatumMeaning, Int, One, ScalarMeaning};
ghost use Rattle.jdwp_layout.specs.declared.answer.Answer as meant;
ghost use Rattle.jdwp_action.specs.Actions as asked;
ghost use Rattle.jdwp_action.specs.Actions.{action_of};
ghost use Rattle.jdwp_mirror.specs.CommandKinds.{kind_of};
ghost use Rattle.jdwp_debugger.specs.Holding.{is_held};
ghost use Rattle.jdwp_debugger.specs.Protocol.{AnswersOwn, Hears, IsOver, Tells, count};

use crate::debugger::Debugger;
use crate::faults::DebuggerFault;
use crate::following::{check_room, follow_waited, note_answer, note_composite, note_put};
use crate::heads::Head;
use crate::order::Order;
use crate::parked::Parked;
use crate::pending::Ticket;
use crate::reading::{News, PacketReader};
use jdwp_end::Front;
use jdwp_event::{Composite, EventKind, has_event_of};
use jdwp_layout::Answer;
use jdwp_layout::numbers::{ID_SIZES, VIRTUAL_MACHINE};
use jdwp_mirror::{Command, CommandKind, Mirror};
use jdwp_watch::{Ledger, Put};
use jdwp_wire::{HANDSHAKE, Header, IdSizes, NoMemory, PacketKind};
use std::alloc::Global;

/// What a turn read.
#[derive(Debug, Drop)]
pub enum Read {
    /// Nothing: the end is closed or paused, or no message is whole.
    Nothing,
    /// The target's handshake. IDSizes is to leave.
    Hello,
    /// A composite, which waits for the widths of ids.
    Parked,
    /// The widths of ids, and before them the composites that waited, in order.
    Sizes(Vec<Composite>),
    /// The answer to the command that was asked under this ticket.
    Answered(Ticket, Answer),
    /// A composite.
    Seen(Composite),
}

/// What was learned as the widths of ids became known.
#[derive(Drop)]
pub(crate) struct Learned {
    pub mirror: Mirror,
    pub ledger: Option<Ledger>,
}

impl Debugger {
    /// Handles the message in front, if one is whole and the end is neither closed nor paused.
    ///
    /// # Errors
    /// `Frame` where the bytes in front begin no message; `UnknownReply`, `BadReply`, `TooManyParked` and `BadEvent` where the target may
    /// not send the packet. Then the session is closed, and what was learned forgotten; the tickets wait for `lose`, and what waits to
    /// leave may still be taken. `NoMemory` where an allocation was refused: nothing has changed. Nothing to handle, a fault of the
    /// bytes and a reply with an error take no memory.
    pub fn turn(&mut self, alloc: Global) -> Result<Read, DebuggerFault>
        // The whole of it: what is told and left, by what there is to handle.
        ensures turns { TurnsAt (front_of self.old.end) self.old result self.new }
        ensures few { IfOk result (λ r. AreFew (read_meaning r)) }
        ensures memory { IsErrOf result code.NoMemory → MayTakeMemory (front_of self.old.end) }

        // Nothing changes nothing, but for what `last` shows; want of memory changes nothing at all.
        ensures nothing { result ≡ Ok Read.Nothing → self.new ≡ record self.old { last = [] } }
        ensures no_memory { result ≡ Err DebuggerFault.NoMemory → self.new ≡ self.old }

        // An answer is told under its own ticket, and of its own command.
        ensures answered { (ticket : ℕ) (answer : meant.Answer)
            → Tells (turns.Answered ticket answer) result
            → AnswersOwn ticket answer self.old self.new }

        // The mirror's suspend counts, in `Order::One`: Suspend raises that of each thread that is known by one, up to 2^31 - 1, Resume
        // lowers each that is above 0 by one, and SuspendCount tells that of its thread.
        ensures suspend { (content : List DatumMeaning) → self.old.order ≡ Order.One
            → Hears asked.Suspend content self.old result → (t : ℕ) → count self.new t
            ≡ option_map one_more (count self.old t) }
        ensures resume { (content : List DatumMeaning) → self.old.order ≡ Order.One
            → Hears asked.Resume content self.old result → (t : ℕ) → count self.new t
            ≡ option_map one_less (count self.old t) }
        ensures suspend_count { (t n : ℕ) → self.old.order ≡ Order.One
            → Hears (asked.SuspendCount t) (One (Int (pos n)) ∷ []) self.old result
            → count self.new t ≡ Some n }

        // Event.Composite, in `Order::One`: with the policy EVENT_THREAD or ALL its thread has the count 1 and is held, and ALL raises the
        // count of each other thread that is known by one.
        ensures event_thread { (c : CompositeMeaning) (t : ℕ) → self.old.order ≡ Order.One
            → Tells (turns.Seen c) result → c.policy ≢ POLICY_NONE → composite_thread c ≡ Some t
            → (count self.new t ≡ Some 1) × (is_held self.new t ≡ true) }
        ensures event_all { (c : CompositeMeaning) (t : ℕ) → self.old.order ≡ Order.One
            → Tells (turns.Seen c) result → c.policy ≡ POLICY_ALL → composite_thread c ≢ Some t
            → count self.new t ≡ option_map one_more (count self.old t) }

        // EventRequest.Set: the request is kept under the id that the reply tells, in place of an older one of that id.
        ensures set { (kind policy : ℕ) (modifiers : List (List ScalarMeaning)) (id : ℤ)
            → Hears (asked.SetRequest kind policy modifiers) (One (Int id) ∷ []) self.old result
            → self.new.mirror.requests ≡ filter (has_other_id id) self.old.mirror.requests
            ++ record {
              id = id;
              kind = kind;
              policy = policy;
              modifiers = modifiers_of modifiers;
            } ∷ [] }

        // The end is closed and the mirror empty behind Dispose, behind VM_DEATH, and where a packet is refused.
        ensures dispose { (content : List DatumMeaning)
            → Hears asked.Dispose content self.old result → IsOver self.new }
        ensures vm_death { (c : CompositeMeaning) → Tells (turns.Seen c) result
            → is_vm_death c ≡ true → IsOver self.new }
        ensures refused { (fault : DebuggerFault) → result ≡ Err fault
            → fault ≢ DebuggerFault.NoMemory → IsOver self.new }
    {
        self.handle_next(alloc)
    }

    /// Handles the message in front, if one is whole and the end is neither closed nor paused.
    ///
    /// # Errors
    /// As those of `turn`.
    fn handle_next(&mut self, alloc: Global) -> Result<Read, DebuggerFault>
        ensures turns { TurnsAt (front_of self.old.end) self.old result self.new }
        ensures few { IfOk result (λ r. AreFew (read_meaning r)) }
        ensures memory { IsErrOf result code.NoMemory → MayTakeMemory (front_of self.old.end) }
    {
        match self.end.front() {
            Front::More => {
                self.last.clear();
                Ok(Read::Nothing)
            }
            Front::Fault(fault) => {
                self.refuse();
                Err(DebuggerFault::Frame(fault))
            }
            Front::Handshake => self.greet(alloc),
            Front::Packet(header, used) => self.handle_packet(alloc, header, used),
        }
    }

    /// Handles the packet in front, which has this header and takes so many bytes: it is read, and then taken in.
    fn handle_packet(
        &mut self,
        alloc: Global,
        header: Header,
        used: usize,
    ) -> Result<Read, DebuggerFault>
        requires front { HasPacketWith header used self.old.end }
        requires bytes { IsBytes self.old.end.incoming }
        ensures { (body : List ℕ) → front_of self.old.end ≡ Whole (Packet header body) used
            → HandlesAt (Packet header body) used self.old result self.new }
    {
        let reader = PacketReader {
            order: self.order,
            sizes: self.sizes,
            parked: &self.parked,
            pending: &self.pending,
        };
        match reader.read_front(alloc, &mut self.end, header, used) {
            Ok(news) => self.enter(alloc, header, used, news),
            Err(fault) => self.fail(fault),
        }
    }

    /// Handles the handshake: IDSizes is put, under the next id, without a ticket. No command waits yet, so no other has the id.
    fn greet(&mut self, alloc: Global) -> Result<Read, DebuggerFault>
        requires front { front_of self.old.end ≡ Whole Handshake 14 }
        requires bytes { IsBytes self.old.end.incoming }
        ensures { HandlesAt Handshake 14 self.old result self.new }
    {
        let id = self.next_id;
        let command = Command::new(VIRTUAL_MACHINE, ID_SIZES, Vec::new(alloc));
        check_room(&self.ledger)?;
        self.pending.push(id, None, command)?;
        note_put(&mut self.ledger, Put::Asks);
        self.end.take_off(HANDSHAKE.len());
        self.end.enqueue(&sizes_header(id).to_bytes());
        self.next_id = id.wrapping_add(1);
        self.last.clear();
        self.last.push(Head::Hello);
        Ok(Read::Hello)
    }

    /// Takes in what a packet with this header says, which takes so many bytes.
    fn enter(
        &mut self,
        alloc: Global,
        header: Header,
        used: usize,
        news: News,
    ) -> Result<Read, DebuggerFault>
        requires said { IsSaid self.old header used (news_meaning news) }
        requires bytes { IsBytes self.old.end.incoming }
        ensures { (body : List ℕ) → front_of self.old.end ≡ Whole (Packet header body) used
            → EntersAt header body used (news_meaning news) self.old result self.new }
    {
        match news {
            News::Waits(body) => self.park(header, used, body),
            News::Happens(composite) => self.see(header, used, composite),
            News::Answers(place, ticket, answer) => {
                self.take_answer(alloc, (header, used), place, ticket, answer)
            }
            News::Measures(place, answer, sizes, composites) => {
                self.measure(alloc, (header, used), place, answer, sizes, composites)
            }
        }
    }

    /// The widths of ids are told: the composites that waited for them are judged and learned, and then the answer.
    fn measure(
        &mut self,
        alloc: Global,
        packet: (Header, usize),
        place: usize,
        answer: Answer,
        sizes: IdSizes,
        composites: Vec<Composite>,
    ) -> Result<Read, DebuggerFault>
        requires said { IsSaid self.old packet.0 packet.1
            (news.Measures place answer sizes composites.items) }
        requires bytes { IsBytes self.old.end.incoming }
        ensures { (content : List ℕ) → front_of self.old.end
            ≡ Whole (Packet packet.0 content) packet.1
            → EntersAt packet.0 content packet.1
            (news.Measures place answer sizes composites.items) self.old result self.new }
    {
        match self.learn_waited(alloc, place, &answer, &composites) {
            Ok(learned) => {
                let closes = has_death(&composites);
                self.take_sizes(packet, place, learned, sizes, closes);
                Ok(Read::Sizes(composites))
            }
            Err(fault) => self.fail(fault),
        }
    }

    /// A composite waits for the widths of ids.
    fn park(&mut self, header: Header, used: usize, body: Vec<u8>) -> Result<Read, DebuggerFault>
        requires said { IsSaid self.old header used (news.Waits body.items) }
        requires bytes { IsBytes self.old.end.incoming }
        ensures ok { IfOk result (λ r. (content : List ℕ) → front_of self.old.end
            ≡ Whole (Packet header content) used → Enters (Packet header content) used header
            (news.Waits body.items) self.old (read_meaning r) self.new) }
        ensures err { IfErr result (λ fault. (fault ≡ code.NoMemory) × (self.new ≡ self.old)) }
    {
        self.parked.push(Parked { header, body })?;
        self.end.take_off(used);
        self.last.clear();
        Ok(Read::Parked)
    }

    /// A composite is judged and learned.
    fn see(
        &mut self,
        header: Header,
        used: usize,
        composite: Composite,
    ) -> Result<Read, DebuggerFault>
        requires said { IsSaid self.old header used (news.Happens composite) }
        requires bytes { IsBytes self.old.end.incoming }
        ensures { (content : List ℕ) → front_of self.old.end ≡ Whole (Packet header content) used
            → EntersAt header content used (news.Happens composite) self.old result self.new }
    {
        if self.order.is_bad(&self.mirror, &composite) {
            return self.fail(DebuggerFault::BadEvent);
        }
        note_composite(&mut self.ledger, &composite)?;
        self.order.learn_composite(&mut self.mirror, &composite)?;
        let closes = has_event_of(&composite, EventKind::VmDeath);
        self.end.take_off(used);
        self.last.clear();
        self.last.push(Head::Composite(header));
        self.close_where(closes);
        Ok(Read::Seen(composite))
    }

    /// An answer is learned.
    fn take_answer(
        &mut self,
        alloc: Global,
        packet: (Header, usize),
        place: usize,
        ticket: Ticket,
        answer: Answer,
    ) -> Result<Read, DebuggerFault>
        requires said { IsSaid self.old packet.0 packet.1 (news.Answers place ticket.0 answer) }
        requires bytes { IsBytes self.old.end.incoming }
        ensures { (content : List ℕ) → front_of self.old.end
            ≡ Whole (Packet packet.0 content) packet.1
            → EntersAt packet.0 content packet.1 (news.Answers place ticket.0 answer) self.old
            result self.new }
    {
        let (_, asked) = self.pending.at(place);
        self.order
            .learn_reply(alloc, &mut self.mirror, &asked.command, &answer)?;
        note_answer(
            &mut self.ledger,
            self.pending.is_next(place),
            &asked.command,
            &answer,
        )?;
        let closes = closes_session(&asked.command, &answer);
        let head = Head::of_reply(packet.0, &asked.command);
        self.pending.remove(place);
        self.end.take_off(packet.1);
        self.last.clear();
        self.last.push(head);
        self.close_where(closes);
        Ok(Read::Answered(ticket, answer))
    }

    /// What is learned from the composites that waited, and then from the answer to the command at this place. Before them nothing
    /// was learned.
    fn learn_waited(
        &self,
        alloc: Global,
        place: usize,
        answer: &Answer,
        composites: &[Composite],
    ) -> Result<Learned, DebuggerFault>
        requires place { place < length self.now.pending }
        requires bare { HasNoTicket place self.now.pending }
        ensures ok { IfOk result (λ l. (has_bad_in self.now.order none_known (reports composites.now) ≡ false)
            × LearnedAll self.now.order empty_mirror (reports composites.now ++ Reply None
            (command_at place self.now.pending) answer.now ∷ []) l.mirror) }
        ensures followed { IfOk result (λ l. IsFirstOf self.now.order answer.now composites.now l.ledger) }
        ensures err { IfErr result (λ fault.
            FailsOnly fault (has_bad_in self.now.order none_known (reports composites.now))) }
    {
        let mirror = self.learn_packets(alloc, place, answer, composites)?;
        let (_, asked) = self.pending.at(place);
        match follow_waited(self.order, alloc, &asked.command, answer, composites) {
            Ok(ledger) => Ok(Learned { mirror, ledger }),
            Err(NoMemory) => Err(DebuggerFault::NoMemory),
        }
    }

    /// What the mirror learns from the composites that waited, and then from the answer to the command at this place.
    fn learn_packets(
        &self,
        alloc: Global,
        place: usize,
        answer: &Answer,
        composites: &[Composite],
    ) -> Result<Mirror, DebuggerFault>
        requires place { place < length self.now.pending }
        ensures ok { IfOk result (λ m. (has_bad_in self.now.order none_known (reports composites.now) ≡ false)
            × LearnedAll self.now.order empty_mirror (reports composites.now ++ Reply None
            (command_at place self.now.pending) answer.now ∷ []) m) }
        ensures err { IfErr result (λ fault.
            FailsOnly fault (has_bad_in self.now.order none_known (reports composites.now))) }
    {
        let mut mirror = Mirror::new(alloc);
        learn_each(self.order, &mut mirror, composites)?;
        let (_, asked) = self.pending.at(place);
        self.order
            .learn_reply(alloc, &mut mirror, &asked.command, answer)?;
        Ok(mirror)
    }

    /// The widths of ids become known, and with them what was learned.
    fn take_sizes(
        &mut self,
        packet: (Header, usize),
        place: usize,
        learned: Learned,
        sizes: IdSizes,
        closes: bool,
    )
        requires told { TellsSizes self.old packet.0 packet.1 place sizes learned.mirror learned.ledger }
        requires bytes { IsBytes self.old.end.incoming }
        ensures left { (content : List ℕ) → front_of self.old.end ≡ Whole (Packet packet.0 content) packet.1
            → self.new ≡ measured_where closes sizes (with_ledger learned.ledger
            (with_sizes (Packet packet.0 content) packet.1 packet.0 place learned.mirror sizes self.old)) }
        ensures followed { (told : TellsSizes self.old packet.0 packet.1 place sizes learned.mirror learned.ledger)
            → GoesOnBy (news.Measures place told.answer sizes told.composites) self.old learned.ledger }
    {
        self.mirror = learned.mirror;
        self.ledger = learned.ledger;
        self.sizes = Some(sizes);
        self.end.take_off(packet.1);
        self.last.set_sizes(&self.parked, packet.0);
        self.parked.clear();
        self.pending.remove(place);
        self.close_measured(closes, sizes);
    }

    /// Fails: but for want of memory, the message is refused.
    fn fail(&mut self, fault: DebuggerFault) -> Result<Read, DebuggerFault>
        ensures fault { result ≡ Err fault }
        ensures left { FailsTo fault self.old self.new }
    {
        match fault {
            DebuggerFault::NoMemory => {}
            DebuggerFault::Frame(_)
            | DebuggerFault::UnknownReply
            | DebuggerFault::BadReply
            | DebuggerFault::TooManyParked
            | DebuggerFault::BadEvent => self.refuse(),
        }
        Err(fault)
    }

    /// Closes the session and forgets what was learned in it.
    fn close(&mut self)
        ensures { self.new ≡ closed_debugger self.old }
    {
        self.end.close();
        self.mirror.clear();
        self.sizes = None;
        self.parked.clear();
        self.ledger = None;
    }

    /// The same, where it is so.
    fn close_where(&mut self, closes: bool)
        ensures { self.new ≡ closed_where closes self.old }
    {
        if closes {
            self.close();
        }
    }

    /// The same as the widths of ids become known, which stay.
    fn close_measured(&mut self, closes: bool, sizes: IdSizes)
        ensures { self.new ≡ measured_where closes sizes self.old }
    {
        if closes {
            self.close();
            self.sizes = Some(sizes);
        }
    }

    /// The same at a message that is refused.
    fn refuse(&mut self)
        ensures { self.new ≡ refused self.old }
    {
        self.close();
        self.last.clear();
    }
}

/// The header of IDSizes.
fn sizes_header(id: u32) -> Header
    ensures { result ≡ turns.sizes_header id }
{
    Header {
        length: 11,
        id,
        kind: PacketKind::Command {
            set: VIRTUAL_MACHINE,
            number: ID_SIZES,
        },
    }
}

/// Learns from composites, in order, each judged after those before it.
///
/// # Errors
/// `BadEvent` where no target may send one of them; `NoMemory` where an allocation was refused.
fn learn_each(
    order: Order,
    mirror: &mut Mirror,
    composites: &[Composite],
) -> Result<(), DebuggerFault>
    requires { MayLearn order mirror.old }
    ensures ok { OnOk result ((has_bad_in order (count_in mirror.old.threads)
        (reports composites.now) ≡ false)
        × LearnedAll order mirror.old (reports composites.now) mirror.new) }
    ensures err { IfErr result (λ fault. FailsOnly fault
        (has_bad_in order (count_in mirror.old.threads) (reports composites.now))) }
{
    match composites {
        [] => Ok(()),
        [first, rest @ ..] => {
            if order.is_bad(mirror, first) {
                return Err(DebuggerFault::BadEvent);
            }
            order.learn_composite(mirror, first)?;
            learn_each(order, mirror, rest)
        }
    }
}

/// Whether one of the composites has VM_DEATH.
fn has_death(composites: &[Composite]) -> bool
    ensures { result ≡ list_any ends (reports composites.now) }
{
    for composite in composites {
        if has_event_of(composite, EventKind::VmDeath) {
            return true;
        }
    }
    false
}

/// Whether the answer ends the session: one without an error to Dispose.
fn closes_session(command: &Command, answer: &Answer) -> bool
    ensures { (ticket : MessageTicket) → result ≡ ends (Reply ticket command.now answer.now) }
{
    match answer {
        Answer::Data(_) => is_of_dispose(command),
        Answer::Error(_) => false,
    }
}

/// Whether the command is Dispose. What one of another set asks is not looked at.
fn is_of_dispose(command: &Command) -> bool
    ensures { result ≡ is_dispose_kind (kind_of (action_of command.now)) }
{
    if command.set() != VIRTUAL_MACHINE {
        return false;
    }
    is_dispose(command.kind())
}

fn is_dispose(kind: CommandKind) -> bool
    ensures { result ≡ is_dispose_kind kind }
{
    matches!(kind, CommandKind::Dispose)
}
