//! The debugger's end of a session.
ghost use Rattle.std.specs.Prelude.{◌≡◌, ◌≤◌, ◌<◌, ◌+◌, ◌^◌, ◌++◌, ◌↔◌, [], Contains, IfErr, IfOk, IfSome, IsTrue, MatchOption, None, OnErr, OnOk, Some, ℕ, drop, false, length, min, take, true};
ghost use Rattle.jdwp_end.specs.declared.phase.Phase.TheVariants.{AwaitingHandshake};
ghost use Rattle.jdwp_end.specs.Ends as ends;
ghost use Rattle.jdwp_end.specs.Ends.{front_of, most_outgoing, room_of};
ghost use Rattle.jdwp_wire.specs.Bytes.{IsBytes};
ghost use Rattle.jdwp_wire.specs.Handshake.{handshake_bytes};
ghost use Rattle.jdwp_wire.specs.Limits.{AreLimits, standard_limits};
ghost use Rattle.jdwp_wire.specs.Streams.{More};
ghost use Rattle.jdwp_wire.specs.Widths.{Widths};
ghost use Rattle.jdwp_debugger.specs.Asking.{HasAsked, IsAdmitted, IsRefusal, MayLeave, is_busy, refusal_of_ask};
ghost use Rattle.jdwp_debugger.specs.Debuggers.{AreDistinct, AreOwn, Begins, IsSizesAlone, at_place, attached, has_tickets, is_front, lost_debugger, new_debugger, new_debugger_in, seen_unanswered, tickets_of, unanswered, with_fed, with_taken};
ghost use Rattle.jdwp_apart.specs.Following.{Following};
ghost use Rattle.jdwp_watch.specs.Targets.{CountsAtLeast, InEachTarget, IsSuspended};
ghost use Rattle.jdwp_debugger.specs.declared.order.Order.TheVariants.{One};
ghost use Rattle.jdwp_debugger.specs.FollowingKept.{following};
ghost use Rattle.jdwp_event.specs.Told.{object_id};
ghost use Rattle.jdwp_debugger.specs.Protocol.{HoldsNobody, IsOver, LosesEach, PutsPacket, WaitsUnder};
ghost use Rattle.jdwp_debugger.specs.Holding.{at_least, is_held, is_named, named_in, surely};
ghost use Rattle.std.specs.Map.Iter.{GivesInOrder};
ghost use Rattle.jdwp_value.specs.declared.id.ObjectId.{ObjectId as Id};
ghost use Rattle.jdwp_watch.specs.Naming.{Covers};
ghost use Rattle.jdwp_debugger.specs.Histories.{IsMirrorIn};
ghost use Rattle.jdwp_debugger.specs.Runs.{known};
ghost use Rattle.jdwp_debugger.specs.Runs.{Ran, heard_by};
ghost use Rattle.jdwp_mirror.specs.Faults.{PARKED_MOST};
ghost use Rattle.jdwp_mirror.specs.Mirrors.{empty_mirror};

use crate::asking::{Admitted, Body, Refused};
use crate::following::{begin, check_room, note_put, put_where_followed};
use crate::heads::{Head, Heads};
use crate::laws;
use crate::lost::Lost;
use crate::order::Order;
use crate::parked::Parked;
use crate::pending::{Pending, Ticket};
use crate::reading::widths_by;
use jdwp_apart::shows_only_suspended_threads;
use jdwp_end::{End, Front};
use jdwp_mirror::{Command, Mirror};
use jdwp_value::ObjectId;
use jdwp_watch::{Ledger, NamedThreads};
use jdwp_wire::{HANDSHAKE, IdSizes, Limits, NoMemory};
use std::alloc::Global;
use std::marker::Model;
use std::mem;

/// The last ticket that there is.
const LAST_TICKET: u64 = u64::MAX;

/// A debugger: its end of a session, what it learned, and the commands that wait for replies.
#[derive(Drop)]
pub struct Debugger {
    pub(crate) order: Order,
    pub(crate) end: End,
    pub(crate) mirror: Mirror,
    pub(crate) sizes: Option<IdSizes>,
    pub(crate) parked: Vec<Parked>,
    pub(crate) pending: Pending,
    pub(crate) next_id: u32,
    pub(crate) tickets: u64,
    pub(crate) last: Heads,
    pub(crate) alloc: Global,
    /// With the commands that wait, what is followed of the session.
    pub(crate) ledger: Option<Ledger>,
    /// The packet of the last command that was asked: room for that of the next.
    packet: Vec<u8>,
}

impl Model for Debugger {
    ghost use Rattle.jdwp_debugger.specs.Debuggers as debuggers;

    ghost Value = { debuggers.Debugger };

    ghost use Rattle.jdwp_debugger.specs.DebuggersKept.{IsRightDebugger, view_of};

    ghost view = { view_of };

    ghost invariant = { IsRightDebugger };
}

impl Debugger {
    /// A closed debugger before its first session, within the standard limits, whose first packet has the id 1. Its buffers are made
    /// here.
    ///
    /// # Errors
    /// `NoMemory` where an allocation was refused.
    pub fn new(alloc: Global) -> Result<Debugger, NoMemory>
        ensures { IfOk result (λ d. d ≡ new_debugger standard_limits 1) }
    {
        Debugger::with_first_id(alloc, 1)
    }

    /// The same with another id of the first packet.
    ///
    /// # Errors
    /// `NoMemory` where an allocation was refused.
    pub fn with_first_id(alloc: Global, first_id: u32) -> Result<Debugger, NoMemory>
        ensures { IfOk result (λ d. d ≡ new_debugger standard_limits first_id) }
    {
        Debugger::with_limits(alloc, first_id, Limits::standard())
    }

    /// The same within these limits: so many bytes a packet may have, and so many commands may wait for replies.
    ///
    /// # Errors
    /// `NoMemory` where an allocation was refused.
    pub fn with_limits(alloc: Global, first_id: u32, limits: Limits) -> Result<Debugger, NoMemory>
        ensures { IfOk result (λ d. d ≡ new_debugger limits first_id) }
    {
        Debugger::with_order(alloc, first_id, limits, Order::One)
    }

    /// The same of a target that sends its replies and composites in this order. In `Apart` no composite is refused for the suspend count
    /// of its thread, VM_DEATH may come as it was asked for beside the one that the target sends by itself, a reply with an error may have
    /// data, and the mirror knows no thread, only the event requests: `is_held` tells who is surely suspended, by all that was put and
    /// read.
    ///
    /// # Errors
    /// `NoMemory` where an allocation was refused.
    pub fn with_order(
        alloc: Global,
        first_id: u32,
        limits: Limits,
        order: Order,
    ) -> Result<Debugger, NoMemory>
        ensures { IfOk result (λ d. d ≡ new_debugger_in order limits first_id) }
    {
        laws::are_limits(&limits);
        Ok(Debugger {
            order,
            end: End::new(alloc, limits)?,
            mirror: Mirror::new(alloc),
            sizes: None,
            parked: Vec::new(alloc),
            pending: Pending::new(alloc),
            next_id: first_id,
            tickets: 0,
            last: Heads::new(),
            alloc,
            ledger: None,
            packet: Vec::new(alloc),
        })
    }

    /// In which order its target sends replies and composites.
    pub fn order(&self) -> Order
        ensures { result ≡ self.now.order }
    {
        self.order
    }

    /// The next packet has this id, where no command that waits for a reply has it.
    pub fn set_next_id(&mut self, id: u32)
        ensures { self.new ≡ record self.old { next_id = id } }
    {
        self.next_id = id;
    }

    /// Begins a session: both buffers are emptied, the handshake is to leave, nothing is known. False, and nothing changes, where a
    /// session is open or tickets of the last one wait for `lose`. Takes no memory.
    pub fn attach(&mut self) -> bool
        ensures when { IsTrue result ↔ ((ends.is_open self.old.end ≡ false)
            × (has_tickets self.old.pending ≡ false)) }
        ensures attached { IsTrue result → self.new ≡ attached self.old }
        ensures refused { result ≡ false → self.new ≡ self.old }

        // A session begins: the handshake, 14 bytes, is all that waits to leave, and no byte came.
        ensures handshake { IsTrue result → self.new.end.outgoing ≡ handshake_bytes }
        ensures unread { IsTrue result → self.new.end.incoming ≡ [] }
        // Nobody is held, no event request is known, and no command waits. Ids of packets and tickets go on.
        ensures nobody { IsTrue result → HoldsNobody self.new }
        ensures no_requests { IsTrue result → self.new.mirror.requests ≡ [] }
        ensures none_waits { IsTrue result → self.new.pending ≡ [] }
        ensures goes_on { (self.new.next_id ≡ self.old.next_id)
            × (self.new.tickets ≡ self.old.tickets) }
    {
        if self.end.is_open() || self.pending.has_tickets() {
            return false;
        }
        self.begin_session();
        true
    }

    /// Begins a session, in place of what was before.
    fn begin_session(&mut self)
        ensures { self.new ≡ attached self.old }
    {
        self.end.open();
        self.end.enqueue(&HANDSHAKE);
        self.mirror.clear();
        self.sizes = None;
        self.parked.clear();
        self.pending.clear();
        self.ledger = begin(self.order, self.alloc);
    }

    /// Asks a command of the target: its packet is to leave, under the next id under which no command waits for its reply. The answer comes
    /// under the ticket.
    ///
    /// # Errors
    /// The first of these that applies; nothing has changed. `Closed` where no session is open; `NotReady` where the widths of ids are not
    /// known; `Busy` where as many commands wait for replies as the limits allow, as many bytes wait to leave as a packet may have or
    /// more, or 2^64 - 1 tickets were given; `BadCommand` where the sets 0 to 63 have no such command, or its data don't fit it;
    /// `TooLong` where its packet would have more bytes than one may have; `NoMemory` where an allocation was refused.
    pub fn ask(&mut self, alloc: Global, command: Command) -> Result<Ticket, Refused>
        // The whole of it: what is left where the command is asked, and why it is not.
        ensures ok { IfOk result (λ ticket. (refusal_of_ask self.old command ≡ None)
            × (ticket.0 ≡ self.old.tickets + 1) × HasAsked command self.old self.new) }
        ensures err { IfErr result (λ e. (self.new ≡ self.old)
            × IsRefusal e (refusal_of_ask self.old command)) }

        // The packet that waits to leave has the command's set, number and data, and the next id under which no command waits.
        ensures packet { OnOk result (PutsPacket command self.old self.new) }

        // The command waits for its reply under the ticket; nothing is learned before that comes. A refusal changes nothing.
        ensures waits { IfOk result (λ ticket. WaitsUnder ticket.0 command self.old self.new) }
        ensures mirror { self.new.mirror ≡ self.old.mirror }
        ensures refused { OnErr result (self.new ≡ self.old) }
    {
        self.put_command(alloc, command)
    }

    /// Puts the packet of a command, where it may be asked.
    ///
    /// # Errors
    /// As those of `ask`.
    fn put_command(&mut self, alloc: Global, command: Command) -> Result<Ticket, Refused>
        ensures ok { IfOk result (λ ticket. (refusal_of_ask self.old command ≡ None)
            × (ticket.0 ≡ self.old.tickets + 1) × HasAsked command self.old self.new) }
        ensures err { IfErr result (λ e. (self.new ≡ self.old)
            × IsRefusal e (refusal_of_ask self.old command)) }
    {
        let id = self.pending.next_free(self.next_id);
        let mut packet = mem::replace(&mut self.packet, Vec::new(alloc));
        self.write_packet(id, &command, &mut packet)?;
        check_room(&self.ledger)?;
        let ticket = Ticket(self.tickets + 1);
        let put = put_where_followed(&self.ledger, &command);
        self.pending.push(id, Some(ticket), command)?;
        note_put(&mut self.ledger, put);
        self.end.enqueue(&packet);
        self.packet = packet;
        self.next_id = id.wrapping_add(1);
        self.tickets = ticket.0;
        Ok(ticket)
    }

    /// Writes the packet of a command under an id, where it may be asked, in place of what the buffer had.
    fn write_packet(&self, id: u32, command: &Command, packet: &mut Vec<u8>) -> Result<(), Refused>
        ensures ok { OnOk result (MayLeave self.now command.now id packet.new.items) }
        ensures err { IfErr result (λ e. IsRefusal e (refusal_of_ask self.now command.now)) }
    {
        match self.admit(command) {
            Ok(admitted) => {
                admitted.write(id, command, packet)?;
                Ok(())
            }
            Err(refused) => Err(refused),
        }
    }

    /// A command that may be asked, or the first reason why not. Takes no memory.
    fn admit<'a>(&self, command: &'a Command) -> Result<Admitted<'a>, Refused>
        ensures ok { IfOk result (λ a. IsAdmitted self.now command.now a.sizes a.body a.size) }
        ensures err { IfErr result (λ e. IsRefusal e (refusal_of_ask self.now command.now)) }
    {
        if !self.end.is_open() {
            return Err(Refused::Closed);
        }
        let sizes = match self.sizes {
            None => return Err(Refused::NotReady),
            Some(sizes) => sizes,
        };
        if self.is_busy() {
            return Err(Refused::Busy);
        }
        let body = match Body::of(command, &sizes) {
            None => return Err(Refused::BadCommand),
            Some(body) => body,
        };
        let most = self.end.limits().packet() as usize;
        match body.size(&sizes) {
            Some(size) if size <= most - 11 => Ok(Admitted {
                sizes,
                body,
                size: size + 11,
            }),
            _ => Err(Refused::TooLong),
        }
    }

    /// Whether so much waits that no command is asked.
    fn is_busy(&self) -> bool
        ensures { result ≡ is_busy self.now }
    {
        let most = self.end.limits().pending() as usize;
        self.pending.len() >= most || self.end.is_paused() || self.tickets >= LAST_TICKET
    }

    /// The connection is lost: the end is closed, both buffers are empty, and nothing is known. Answers the tickets that were neither
    /// answered nor lost before, which are no more than commands may wait; no command waits afterwards. Takes no memory.
    pub fn lose(&mut self) -> Lost
        ensures tickets { result ≡ tickets_of self.old.pending }
        ensures few { length result ≤ self.old.end.limits.pending }
        ensures lost { self.new ≡ lost_debugger self.old }

        // Each command that waits under a ticket is told as lost, once, in the order asked.
        ensures each { LosesEach self.old.pending result }
        // The end is closed, the mirror is empty, nobody is held, and no command waits. Ids of packets and tickets go on.
        ensures over { IsOver self.new }
        ensures nobody { HoldsNobody self.new }
        ensures none { self.new.pending ≡ [] }
        ensures goes_on { (self.new.next_id ≡ self.old.next_id)
            × (self.new.tickets ≡ self.old.tickets) }
        // The loss is noticed; what came and was not handled is dropped, and what waited to leave never does.
        ensures noticed { self.new.end.session.lost ≡ true }
        ensures unread { self.new.end.incoming ≡ [] }
        ensures unsent { self.new.end.outgoing ≡ [] }
    {
        let lost = Lost::of(&self.pending);
        self.end.lose();
        self.mirror.clear();
        self.sizes = None;
        self.parked.clear();
        self.pending.clear();
        self.ledger = None;
        lost
    }

    /// Whether a session is open: attached, and not closed since.
    pub fn is_open(&self) -> bool
        ensures { result ≡ ends.is_open self.now.end }
    {
        self.end.is_open()
    }

    /// How many bytes `feed` would take, 0 at a closed end.
    pub fn room(&self) -> usize
        ensures room { result ≡ room_of self.now.end }
        ensures bound { length self.now.end.incoming ≤ self.now.end.limits.packet }
    {
        self.end.room()
    }

    /// Takes as many of the bytes as fit, and answers how many.
    pub fn feed(&mut self, bytes: &[u8]) -> usize
        ensures count { result ≡ min (length bytes.now) (room_of self.old.end) }
        ensures fed { self.new ≡ with_fed (take result bytes.now) self.old }
        // They stand behind those that came before, in order, and nothing is learned yet.
        ensures behind { self.new.end.incoming ≡ self.old.end.incoming ++ take result bytes.now }
        ensures keeps { self.new.mirror ≡ self.old.mirror }
    {
        self.end.feed(bytes)
    }

    /// How many bytes wait to leave.
    pub fn waiting(&self) -> usize
        ensures count { result ≡ length self.now.end.outgoing }
        ensures bound { result ≤ most_outgoing self.now.end.limits }
    {
        self.end.waiting()
    }

    /// All bytes that wait to leave, where they lie, in two pieces of which the first leaves first. It is empty only where none waits.
    pub fn waiting_slices(&self) -> (&[u8], &[u8])
        ensures all { result.0.now ++ result.1.now ≡ self.now.end.outgoing }
        ensures none { result.0.now ≡ [] → self.now.end.outgoing ≡ [] }
    {
        self.end.waiting_slices()
    }

    /// So many of the bytes that wait, the first, have left, or all where no more wait.
    pub fn leave(&mut self, count: usize)
        ensures { self.new ≡ with_taken (take count self.old.end.outgoing) self.old }
    {
        self.end.leave(count);
    }

    /// Moves as many of the bytes that wait to the front of `out` as fit, and answers how many.
    pub fn take(&mut self, out: &mut [u8]) -> usize
        ensures count { result ≡ min (length out.old) (length self.old.end.outgoing) }
        ensures bytes { out.new ≡ take result self.old.end.outgoing ++ drop result out.old }
        ensures taken { self.new ≡ with_taken (take result self.old.end.outgoing) self.old }
        // They are the beginning of what waited, and the rest still waits.
        ensures first { take result out.new ++ self.new.end.outgoing ≡ self.old.end.outgoing }
    {
        self.end.take(out)
    }

    /// Whether there is something to handle: the end is neither closed nor paused, and a whole message or a frame fault stands in
    /// front. Takes no memory.
    pub fn has_front(&mut self) -> bool
        ensures front { result ≡ is_front (front_of self.old.end) }
        ensures same { self.new ≡ self.old }
    {
        match self.end.front() {
            Front::More => false,
            Front::Fault(_) | Front::Handshake | Front::Packet(..) => true,
        }
    }

    /// What was learned from the packets that were read in this session; in the order `Apart` of event requests alone.
    pub fn mirror(&self) -> &Mirror
        ensures { result.now ≡ self.now.mirror }
    {
        &self.mirror
    }

    /// The widths of ids; None until they are known.
    pub fn sizes(&self) -> Option<IdSizes>
        ensures { result ≡ self.now.sizes }
    {
        self.sizes
    }

    /// What the last turn read, in the order in which it was learned; nothing before the first turn.
    pub fn last(&self) -> &[Head]
        ensures { result.now ≡ self.now.last }
    {
        self.last.as_slice()
    }

    /// The command at this place among those that were asked under tickets and neither answered nor lost, in the order asked, from 0;
    /// None past the last.
    pub fn unanswered(&self, place: usize) -> Option<(Ticket, &Command)>
        ensures { seen_unanswered result ≡ at_place (unanswered self.now.pending) place }
    {
        self.pending.unanswered_at(place)
    }

    /// Whether a thread is held for suspended, as long as it lives. In the order `One` the mirror holds it. In `Apart` it is surely
    /// suspended by what was put and read in the session: so it is suspended in each target that carries out commands one by one and
    /// answers them in the order asked, invocations apart, sends composites one by one in the order of their events, each packet after its
    /// effect, gives no request id twice, and moves suspend counts by these alone, whose debugger put and read the same. Nobody is held
    /// there before the widths of ids are known, from Dispose, Exit, or a command on that a target of this layer does not carry out,
    /// invocations apart, or from an answer on that was given out of turn. Nothing is kept of how threads end, and one that ended may be
    /// held: so a client requests THREAD_DEATH events (kind 7), which a thread reports before it ends, and takes a thread as ended from
    /// then on, or from INVALID_THREAD on.
    pub fn is_held(&self, thread: ObjectId) -> bool
        ensures value { result ≡ is_held self.now thread.0 }
        ensures suspended { (f : Following) → following self.now ≡ Some f → IsTrue result
            → InEachTarget f.watch (IsSuspended thread.0) }
    {
        match self.order {
            Order::One => self.mirror.is_held(thread),
            Order::Apart => self.at_least(thread) > 0,
        }
    }

    /// What the suspend count of a thread is no less than, as long as the thread lives: in the order `One` the count that the mirror has,
    /// 0 where it has none; in `Apart` what is sure by what was put and read in the session, in the same targets as `is_held` says.
    pub fn at_least(&self, thread: ObjectId) -> u64
        ensures value { result ≡ at_least self.now thread.0 }
        ensures covered { (f : Following) → following self.now ≡ Some f
            → InEachTarget f.watch (CountsAtLeast result thread.0) }
    {
        shows_only_suspended_threads();
        match self.order {
            Order::One => self.mirror.count(thread).map_or(0, u64::from),
            Order::Apart => self.surely(thread),
        }
    }

    /// The threads that were named where the order is `Apart`, in the order of their ids: those of which a composite or a reply told in
    /// the session. Each that is held is among them, and none is dropped as it ends. None as long as nothing is followed.
    pub fn named_threads(&self) -> Option<NamedThreads<'_>>
        ensures all { result ≡ named_in self.now.ledger }
        ensures held { IfSome result (λ ids. (t : ℕ) → 0 < surely (following self.now) t
            → Contains ids (object_id t)) }
        ensures covers { MatchOption result (following self.now ≡ None) (Covers (is_named self.now)) }
        ensures runs { GivesInOrder Id }
    {
        match &self.ledger {
            Some(kept) => Some(kept.threads()),
            None => None,
        }
    }

    /// Whether a thread was named where the order is `Apart`: a composite of its own was read in the session, or an answer without an error
    /// about it. No thread is as long as nothing is followed.
    pub fn is_named(&self, thread: ObjectId) -> bool
        ensures { result ≡ is_named self.now thread.0 }
    {
        match &self.ledger {
            Some(kept) => kept.is_named(thread),
            None => false,
        }
    }

    fn surely(&self, thread: ObjectId) -> u64
        ensures { result ≡ surely (following self.now) thread.0 }
    {
        match &self.ledger {
            Some(kept) => kept
                .bound(thread)
                .saturating_sub(self.pending.lowered(thread, &widths_by(self.sizes))),
            None => 0,
        }
    }

    /// What holds after every list of calls in a session, whatever bytes came: the whole run, by which the mirror is what the packets that
    /// were read in it say, each once and in order, with the commands that they answer, and so of each thread and of the requests, and what
    /// is followed is what all that was put and read makes of what is so as a session begins, in order, and nothing where the order is
    /// `One`; that
    /// what came are bytes; that an end at which nothing waits is not paused; that an open end that is not paused and asks for more has
    /// room for a byte; that no more commands and composites wait than may, no two commands under one id, and without a ticket only
    /// IDSizes; that nothing waits before the target's handshake, and IDSizes alone until the widths of ids are known, up to when nothing
    /// is learned, and from when on no composite waits; and that the next id has four bytes. It changes nothing.
    pub fn session(&self)
        ensures ran { Ran self.now }
        ensures mirror { (run : Ran self.now) → IsMirrorIn self.now.order (heard_by run) self.now.mirror }
        ensures follows { (run : Ran self.now) → following self.now
            ≡ (known self.now.order run.before run.acts).following }
        ensures unfollowed { self.now.order ≡ One → following self.now ≡ None }
        ensures pending { length self.now.pending ≤ self.now.end.limits.pending }
        ensures limits { AreLimits self.now.end.limits.packet self.now.end.limits.live
            self.now.end.limits.requests self.now.end.limits.pending }
        ensures parked { length self.now.parked ≤ PARKED_MOST }
        ensures distinct { AreDistinct self.now.pending }
        ensures own { AreOwn self.now.pending }
        ensures begins { self.now.end.phase ≡ AwaitingHandshake → Begins self.now }
        ensures alone { ends.is_open self.now.end ≡ true → self.now.sizes ≡ None
            → IsSizesAlone self.now.pending }
        ensures unlearned { self.now.sizes ≡ None → self.now.mirror ≡ empty_mirror }
        ensures unparked { (w : Widths) → self.now.sizes ≡ Some w → self.now.parked ≡ [] }
        ensures id { self.now.next_id < 2 ^ 32 }
        ensures bytes { IsBytes self.now.end.incoming }
        ensures flows { self.now.end.outgoing ≡ [] → ends.is_paused self.now.end ≡ false }
        ensures room { front_of self.now.end ≡ More → ends.is_open self.now.end ≡ true
            → ends.is_paused self.now.end ≡ false → 0 < room_of self.now.end }
    {
        self.end.invariants();
        let _id = self.next_id;
    }
}
