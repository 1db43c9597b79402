//! What packets say to a debugger.
ghost use Rattle.std.specs.Prelude.{◌≡◌, ◌<◌, ℕ, IfOk, List, Some, length, slice_get};
ghost use Rattle.std.specs.Result.{IsErrOf};
ghost use Rattle.jdwp_wire.specs.ErrorCodes.{NONE};
ghost use Rattle.jdwp_wire.specs.Streams.{Packet, Whole};
ghost use Rattle.jdwp_end.specs.Ends.{HasPacketWith, front_of};
ghost use Rattle.jdwp_mirror.specs.FaultParts.{IsData};
ghost use Rattle.jdwp_mirror.specs.Widths.{widths_in};
ghost use Rattle.jdwp_debugger.specs.declared.faults.DebuggerFault.TheVariants as code;
ghost use Rattle.jdwp_debugger.specs.DebuggerTurns.{MayWantMemory, ReadsPacket, WantsMemory, news_meaning, reading};
ghost use Rattle.jdwp_debugger.specs.News as news;
ghost use Rattle.jdwp_debugger.specs.News.{Tells, answer_says, event_says, reply_to, says, sizes_say, widths_by};

use crate::faults::DebuggerFault;
use crate::news::{read_answer, read_composite, read_parked};
use crate::order::Order;
use crate::parked::Parked;
use crate::pending::{Pending, Ticket};
use jdwp_end::End;
use jdwp_event::Composite;
use jdwp_layout::Answer;
use jdwp_layout::numbers::{COMPOSITE, EVENT};
use jdwp_mirror::widths_in_answer;
use jdwp_wire::{ErrorCode, Header, IdSizes, PacketKind, PacketRef};
use std::alloc::Global;

/// How many composites may wait for the widths of ids.
const MOST_PARKED: usize = 4;

/// What a packet says by its bytes.
#[derive(Drop)]
pub(crate) enum News {
    /// A composite, to be read once the widths of ids are known.
    Waits(Vec<u8>),
    Happens(Composite),
    /// The answer to the command at this place among those that wait.
    Answers(usize, Ticket, Answer),
    /// The widths of ids, in the answer to the command at this place, and the composites that waited.
    Measures(usize, Answer, IdSizes, Vec<Composite>),
}

/// What packets are read by.
#[derive(Clone, Copy)]
pub(crate) struct PacketReader<'a> {
    /// In which order the target sends.
    pub order: Order,
    /// The widths of ids; None until they are known.
    pub sizes: Option<IdSizes>,
    /// The composites that wait for them.
    pub parked: &'a [Parked],
    /// The commands that wait for replies.
    pub pending: &'a Pending,
}

impl<'a> PacketReader<'a> {
    /// What the packet in front of an end says, which has this header and takes so many bytes. Its data are read where they lie, or joined
    /// where they wrap, and the end is as it was.
    pub fn read_front(
        &self,
        alloc: Global,
        end: &mut End,
        header: Header,
        used: usize,
    ) -> Result<News, DebuggerFault>
        requires { HasPacketWith header used end.old }
        ensures read { (body : List ℕ) → front_of end.old ≡ Whole (Packet header body) used
            → ReadsPacket (reading self.now) header body result }
        ensures same { end.new ≡ end.old }
    {
        match end.data_in_place(used) {
            Some(body) => self.read_packet(alloc, &PacketRef { header, body }),
            None => {
                let body = end.data_joined(used);
                self.read_packet(alloc, &PacketRef { header, body })
            }
        }
    }

    /// What a packet says by its bytes.
    fn read_packet(&self, alloc: Global, packet: &PacketRef<'_>) -> Result<News, DebuggerFault>
        ensures value { Tells news_meaning result (says (reading self.now) packet.now.header.id
            packet.now.header.kind packet.now.body.now) }
        ensures memory { IsErrOf result code.NoMemory → MayWantMemory packet.now.header.kind }
        ensures wants { IfOk result (λ n. WantsMemory (news_meaning n)
            → MayWantMemory packet.now.header.kind) }
    {
        match packet.header.kind {
            PacketKind::Command { set, number } => {
                if set != EVENT || number != COMPOSITE {
                    return Err(DebuggerFault::BadEvent);
                }
                self.read_event(alloc, packet.body)
            }
            PacketKind::Reply { error } => match self.pending.place_under(packet.header.id) {
                Some(place) => self.read_reply(alloc, place, error, packet.body),
                None => Err(DebuggerFault::UnknownReply),
            },
        }
    }

    /// What a composite says.
    fn read_event(&self, alloc: Global, bytes: &[u8]) -> Result<News, DebuggerFault>
        ensures { Tells news_meaning result
            (event_says self.now.sizes self.now.parked.now bytes.now) }
    {
        let Some(sizes) = self.sizes else {
            if self.parked.len() == MOST_PARKED {
                return Err(DebuggerFault::TooManyParked);
            }
            let body = Vec::from_slice(alloc, bytes)?;
            return Ok(News::Waits(body));
        };
        let composite = read_composite(alloc, &sizes, bytes)?;
        Ok(News::Happens(composite))
    }

    /// What the reply to the command at a place says.
    fn read_reply(
        &self,
        alloc: Global,
        place: usize,
        error: ErrorCode,
        bytes: &[u8],
    ) -> Result<News, DebuggerFault>
        requires { place < length self.now.pending.now }
        ensures value { Tells news_meaning result (reply_to (reading self.now) error bytes.now place
            (slice_get self.now.pending.now place)) }
        ensures memory { IsErrOf result code.NoMemory → error.0 ≡ NONE.0 }
        ensures wants { IfOk result (λ n. WantsMemory (news_meaning n) → error.0 ≡ NONE.0) }
    {
        let (_, asked) = self.pending.at(place);
        let answer = read_answer(
            alloc,
            self.order,
            &asked.command,
            &self.widths(),
            error,
            bytes,
        )?;
        self.read_ticketed(alloc, place, asked.ticket, answer)
    }

    /// What the answer to a command with this ticket says, which waits at a place.
    fn read_ticketed(
        &self,
        alloc: Global,
        place: usize,
        ticket: Option<Ticket>,
        answer: Answer,
    ) -> Result<News, DebuggerFault>
        ensures value { Tells news_meaning result (answer_says self.now.parked.now place ticket
            (Some answer)) }
        ensures memory { IsErrOf result code.NoMemory → IsData answer }
        ensures wants { IfOk result (λ n. WantsMemory (news_meaning n) → IsData answer) }
    {
        match ticket {
            Some(ticket) => Ok(News::Answers(place, ticket, answer)),
            None => self.read_sizes(alloc, place, answer),
        }
    }

    /// The widths by which replies are read. Before they are known only IDSizes waits for its reply, in which no id stands.
    fn widths(&self) -> IdSizes
        ensures { result ≡ widths_by self.now.sizes }
    {
        widths_by(self.sizes)
    }

    /// What the answer to IDSizes says.
    fn read_sizes(&self, alloc: Global, place: usize, answer: Answer) -> Result<News, DebuggerFault>
        ensures value { Tells news_meaning result (sizes_say self.now.parked.now place answer
            (widths_in answer)) }
        ensures memory { IsErrOf result code.NoMemory → IsData answer }
        ensures wants { IfOk result (λ n. WantsMemory (news_meaning n) → IsData answer) }
    {
        let Some(sizes) = widths_in_answer(&answer) else {
            return Err(DebuggerFault::BadReply);
        };
        let composites = read_parked(alloc, &sizes, self.parked)?;
        Ok(News::Measures(place, answer, sizes, composites))
    }
}

/// The widths that are known, or the greatest.
pub(crate) fn widths_by(sizes: Option<IdSizes>) -> IdSizes
    ensures { result ≡ news.widths_by sizes }
{
    match sizes {
        Some(sizes) => sizes,
        None => match IdSizes::new(8, 8, 8, 8, 8) {
            Ok(sizes) => sizes,
            Err(_) => unreachable!(),
        },
    }
}
