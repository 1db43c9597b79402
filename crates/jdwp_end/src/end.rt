//! One end of a session.
ghost use Rattle.std.specs.Prelude.{◌≡◌, ◌≤◌, ◌<◌, ◌+◌, ◌-◌, ◌*◌, ◌++◌, [], List, None, true, false, ℕ, IfOk, IfSome, length, take, drop, min};
ghost use Rattle.std.specs.Borrow.{sem};
ghost use Rattle.jdwp_wire.specs.Bytes.{IsBytes};
ghost use Rattle.jdwp_wire.specs.Streams.{Message, Packet, Whole, More};
ghost use Rattle.jdwp_wire.specs.declared.packet.Header.{Header};
ghost use Rattle.jdwp_wire.specs.Limits.{least_packet_limit, most_packet_limit};
ghost use Rattle.jdwp_end.specs.Ends as ends;
ghost use Rattle.jdwp_end.specs.Ends.{HasPacket, TellsFront, closed_end, front_of, lost_end, most_outgoing, new_end, opened_end, room_of, with_enqueued, with_fed, with_handled, with_taken};

use crate::front::Front;
use crate::laws;
use crate::parts::{in_two_pieces, join, packet_standing, shared_behind, take_into};
use crate::phase::Phase;
use crate::session::Session;
use circular_buffer::HeapCircularBuffer;
use jdwp_wire::{HEADER_LENGTH, IdSizes, Limits, NextHello, Standing, Wire, next_hello_in};
use std::alloc::{AllocError, Global};
use std::marker::Model;

/// One end of a session: at most `limits.packet()` bytes that came and were not handled, and at most twice as many that wait to leave.
#[derive(Drop)]
pub struct End {
    limits: Limits,
    phase: Phase,
    incoming: HeapCircularBuffer<u8>,
    outgoing: HeapCircularBuffer<u8>,
    /// A value on its way into `outgoing`, or a packet in front that wraps in `incoming`: room for as much as may wait to leave.
    scratch: Vec<u8>,
    session: Session,
}

impl Model for End {
    ghost use Rattle.jdwp_end.specs.Ends as ends;

    ghost Value = { ends.End };

    ghost use Rattle.jdwp_end.specs.Kept.{view_of, IsRightEnd};

    ghost view = { view_of };

    ghost invariant = { IsRightEnd };
}

impl End {
    ghost use Rattle.jdwp_end.specs.EndLends.{EndStays};

    /// A closed end before its first session. Its buffers are made here.
    ///
    /// # Errors
    /// Where an allocation is refused.
    pub fn new(alloc: Global, limits: Limits) -> Result<End, AllocError>
        ensures { IfOk result (λ end. end ≡ new_end limits) }
    {
        let packet = limits.packet() as usize;
        Ok(End {
            limits,
            phase: Phase::Closed,
            incoming: HeapCircularBuffer::with_capacity(alloc, packet)?,
            outgoing: HeapCircularBuffer::with_capacity(alloc, packet * 2)?,
            scratch: Vec::with_capacity(alloc, packet * 2)?,
            session: Session::new(),
        })
    }

    /// The limits within which it was made.
    pub fn limits(&self) -> Limits
        ensures { result ≡ self.now.limits }
    {
        self.limits
    }

    /// Whether a session is open: begun, and not closed since.
    pub fn is_open(&self) -> bool
        ensures { result ≡ ends.is_open self.now }
    {
        self.phase != Phase::Closed
    }

    /// Whether a session is open whose handshake was handled, so that packets are handled and sent.
    pub fn is_established(&self) -> bool
        ensures { result ≡ ends.is_established self.now }
    {
        self.phase == Phase::Established
    }

    /// Whether the end noticed in this session, or in the last one that was open, that the connection is lost. A new session begins without.
    pub fn has_lost(&self) -> bool
        ensures { result ≡ self.now.session.lost }
    {
        self.session.has_lost()
    }

    /// Whether so much waits to leave, `limits.packet()` bytes or more, that nothing is handled.
    pub fn is_paused(&self) -> bool
        ensures paused { result ≡ ends.is_paused self.now }
        ensures least { least_packet_limit ≤ self.now.limits.packet }
        ensures most { self.now.limits.packet ≤ most_packet_limit }
    {
        self.outgoing.len() >= self.limits.packet() as usize
    }

    /// Begins a session: both buffers are empty, and the peer's handshake is waited for.
    pub fn open(&mut self)
        ensures { self.new ≡ opened_end self.old }
    {
        self.phase = Phase::AwaitingHandshake;
        self.empty();
        self.session = Session::new();
    }

    /// Ends the session. What waits to leave may still be taken.
    pub fn close(&mut self)
        ensures { self.new ≡ closed_end self.old }
    {
        self.phase = Phase::Closed; // both buffers stay
    }

    /// The connection is lost: the end is closed and both buffers are empty.
    pub fn lose(&mut self)
        ensures { self.new ≡ lost_end self.old }
    {
        self.phase = Phase::Closed;
        self.empty();
        self.session.lose();
    }

    /// Empties both buffers.
    fn empty(&mut self)
        ensures { self.new ≡ record self.old { incoming = []; outgoing = [] } }
    {
        self.incoming.clear();
        self.outgoing.clear();
    }

    /// How many bytes `feed` would take, 0 at a closed end.
    pub fn room(&self) -> usize
        ensures room { result ≡ room_of self.now }
        ensures bound { length self.now.incoming ≤ self.now.limits.packet }
    {
        match self.phase {
            Phase::Closed => 0,
            Phase::AwaitingHandshake | Phase::Established => {
                self.incoming.capacity() - self.incoming.len()
            }
        }
    }

    /// Takes as many of the bytes as fit, and answers how many.
    pub fn feed(&mut self, bytes: &[u8]) -> usize
        ensures count { result ≡ min (length bytes.now) (room_of self.old) }
        ensures fed { self.new ≡ with_fed (take result bytes.now) self.old }
    {
        if self.phase == Phase::Closed {
            return 0;
        }
        let count = self.incoming.fill_from_slice(bytes);
        self.session.feed(&bytes[..count]);
        count
    }

    /// What there is to handle. `data_in_place` or `data_joined` lends the data of a packet.
    ///
    /// An open end that is not paused and asks for more has room for a byte.
    pub fn front(&self) -> Front
        ensures front { TellsFront result (front_of self.now) }
        ensures room { front_of self.now ≡ More → ends.is_open self.now ≡ true
            → ends.is_paused self.now ≡ false → 0 < room_of self.now }
        ensures bytes { IsBytes self.now.incoming }
        ensures least { least_packet_limit ≤ self.now.limits.packet }
        ensures most { self.now.limits.packet ≤ most_packet_limit }
        ensures flows { self.now.outgoing ≡ [] → ends.is_paused self.now ≡ false }
    {
        let (first, second) = self.incoming.as_slices();
        laws::are_bytes(first, second);
        if self.is_paused() {
            return Front::More;
        }
        match self.phase {
            Phase::Closed => Front::More,
            Phase::AwaitingHandshake => match next_hello_in(&self.incoming) {
                NextHello::Whole => Front::Handshake,
                NextHello::More => Front::More,
                NextHello::Fault(fault) => Front::Fault(fault),
            },
            Phase::Established => match packet_standing(&self.incoming, &self.limits) {
                Standing::Whole(header, used) => Front::Packet(header, used),
                Standing::More => Front::More,
                Standing::Fault(fault) => Front::Fault(fault),
            },
        }
    }

    /// The data of the packet in front, which takes so many bytes, where they lie. None where the packet wraps round the end of the ring.
    pub fn data_in_place(&self, used: usize) -> Option<&[u8]>
        requires { HasPacket used self.now }
        ensures { IfSome result (λ lent. (header : Header) (body : List ℕ)
            → front_of self.now ≡ Whole (Packet header body) used → lent.now ≡ body) }
    {
        let (first, second) = self.incoming.as_slices();
        laws::are_bytes(first, second);
        if used <= first.len() {
            Some(&first[HEADER_LENGTH..used])
        } else {
            None
        }
    }

    /// The data of the packet in front, which takes so many bytes, copied into one piece. The end is as it was. It takes no memory.
    pub fn data_joined(&mut self, used: usize) -> &[u8]
        requires { HasPacket used self.old }
        ensures* stays { sem 𝓛 (EndStays self.entry) }
        ensures body { (header : Header) (body : List ℕ)
            → front_of self.old ≡ Whole (Packet header body) used → result.now ≡ body }
    {
        let (first, second) = self.incoming.as_slices();
        laws::are_bytes(first, second);
        join(&mut self.scratch, first, second, used);
        shared_behind(&mut self.scratch, HEADER_LENGTH)
    }

    /// What holds of every end: what came are bytes; one at which nothing waits is not paused; and one that is open, not paused and asks
    /// for more has room for a byte. It does nothing.
    pub fn invariants(&self)
        ensures bytes { IsBytes self.now.incoming }
        ensures flows { self.now.outgoing ≡ [] → ends.is_paused self.now ≡ false }
        ensures room { front_of self.now ≡ More → ends.is_open self.now ≡ true
            → ends.is_paused self.now ≡ false → 0 < room_of self.now }
    {
        let (first, second) = self.incoming.as_slices();
        laws::are_bytes(first, second);
    }

    /// Takes the message in front off, which takes so many bytes: it is handled.
    pub fn take_off(&mut self, used: usize)
        requires { (message : Message) × (front_of self.old ≡ Whole message used) }
        ensures { (message : Message) → front_of self.old ≡ Whole message used
            → self.new ≡ with_handled message used self.old }
    {
        let (first, second) = self.incoming.as_slices();
        laws::are_bytes(first, second);
        self.session.handle(first, second, used);
        self.incoming.truncate_front(self.incoming.len() - used);
        self.phase = Phase::Established;
    }

    /// Enqueues these bytes to leave. It takes no memory.
    pub fn enqueue(&mut self, bytes: &[u8])
        requires { length self.old.outgoing + length bytes.now ≤ most_outgoing self.old.limits }
        ensures { self.new ≡ with_enqueued bytes.now self.old }
    {
        self.outgoing.fill_from_slice(bytes);
        self.session.enqueue(bytes);
    }

    /// Enqueues a value to leave. It takes no memory.
    pub fn put<T: Wire>(&mut self, value: &T, sizes: &IdSizes)
        requires writable { T.refusal sizes.now (T.meaning value.now) ≡ None }
        requires room { length self.old.outgoing + length (T.canonical sizes.now
            (T.meaning value.now)) ≤ most_outgoing self.old.limits }
        ensures enqueued { self.new ≡ with_enqueued (T.canonical sizes.now
            (T.meaning value.now)) self.old }
        ensures encoded { T.encodes sizes.now (T.meaning value.now) (T.canonical sizes.now
            (T.meaning value.now)) }
    {
        self.scratch.clear();
        value.put(sizes, &mut self.scratch).unwrap();
        self.outgoing.fill_from_slice(&self.scratch);
        self.session.enqueue(&self.scratch);
    }

    /// How many bytes wait to leave.
    pub fn waiting(&self) -> usize
        ensures count { result ≡ length self.now.outgoing }
        ensures bound { result ≤ most_outgoing self.now.limits }
    {
        self.outgoing.len()
    }

    /// All bytes that wait to leave, where they lie, in two pieces of which the first leaves first. It is empty only where none waits.
    pub fn waiting_slices(&self) -> (&[u8], &[u8])
        ensures all { result.0.now ++ result.1.now ≡ self.now.outgoing }
        ensures none { result.0.now ≡ [] → self.now.outgoing ≡ [] }
    {
        in_two_pieces(&self.outgoing)
    }

    /// So many of the bytes that wait, the first, have left, or all where no more wait.
    pub fn leave(&mut self, count: usize)
        ensures { self.new ≡ with_taken (take count self.old.outgoing) self.old }
    {
        let count = count.min(self.outgoing.len());
        let (first, second) = self.outgoing.as_slices();
        self.session.leave(first, second, count);
        self.outgoing.truncate_front(self.outgoing.len() - count);
    }

    /// Moves as many of the bytes that wait to the front of `out` as fit, and answers how many.
    pub fn take(&mut self, out: &mut [u8]) -> usize
        ensures count { result ≡ min (length out.old) (length self.old.outgoing) }
        ensures bytes { out.new ≡ take result self.old.outgoing ++ drop result out.old }
        ensures taken { self.new ≡ with_taken (take result self.old.outgoing) self.old }
    {
        let count = take_into(&mut self.outgoing, out);
        self.session.take(&out[..count]);
        count
    }
}
