//! The mirror of a debugger that reads the messages of a capture.
ghost use Rattle.std.specs.Prelude.{◌≡◌, ◌==◌, ℕ, None, IfOk, OnOk, map, option_map, if◌then◌else◌};
ghost use Rattle.jdwp_mirror.specs.Messages.{Report};
ghost use Rattle.jdwp_draw.specs.declared.sender.Sender.TheVariants.{Debugger, Target};
ghost use Rattle.jdwp_draw.specs.Following.{Hears, IsAt, waits_in};
ghost use Rattle.jdwp_draw.specs.Hearing.{composite_of, heard, packet_heard, reply_heard};
ghost use Rattle.jdwp_draw.specs.Pictures.{standing_of};
ghost use Rattle.jdwp_draw.specs.Sessions.{Asked, answered_by, answered_in, command_in, start, waits_after, waits_by};

use crate::hearing::{read_answer, read_command, read_composite};
use crate::message_list::{Message, OwnedPacket, ShownMessage};
use crate::picture::Standing;
use crate::sender::Sender;
use jdwp_layout::numbers::{COMPOSITE, EVENT};
use jdwp_mirror::{Command, Known, Mirror};
use jdwp_wire::{ErrorCode, IdSizes, NoMemory, PacketKind};
use std::alloc::Global;
use std::collections::BTreeMap;

/// A command that waits for its reply.
#[derive(Drop)]
pub(crate) struct AskedCommand {
    /// Which of the messages it is, from 0.
    place: usize,
    command: Command,
}

/// The commands that wait, by their ids, and the mirror.
#[derive(Drop)]
pub(crate) struct Follower {
    alloc: Global,
    asked: BTreeMap<u32, AskedCommand>,
    mirror: Mirror,
}

impl Follower {
    /// Before the first message.
    pub(crate) fn new(alloc: Global) -> Follower
        ensures { IsAt result start }
    {
        Follower {
            alloc,
            asked: BTreeMap::new(alloc),
            mirror: Mirror::new(alloc),
        }
    }

    /// One message more, which is this one, from 0. Answers the place of the command that it answers.
    ///
    /// # Errors
    /// `NoMemory` where an allocation was refused. What is kept may then not be that of a session.
    pub(crate) fn follow(
        &mut self,
        sizes: &Option<IdSizes>,
        place: usize,
        message: &ShownMessage,
    ) -> Result<Option<usize>, NoMemory>
        ensures answers { IfOk result (λ answers. answers ≡ answered_in (waits_in self.old)
            message.now.sender message.now.message) }
        ensures waits { OnOk result ((other : ℕ) → waits_in self.new other
            ≡ waits_after sizes.now place message.now.sender message.now.message (waits_in self.old
            other) other) }
        ensures mirror { OnOk result (Hears (heard sizes.now (λ id. command_in (waits_in self.old
            id)) message.now.sender message.now.message) self.old.mirror self.new.mirror) }
    {
        let Message::Packet(packet) = &message.message else {
            return Ok(None);
        };
        match message.sender {
            Sender::Debugger => {
                self.ask(sizes, place, packet)?;
                Ok(None)
            }
            Sender::Target => self.hear(sizes, packet),
        }
    }

    /// A packet of the debugger: a command waits under its id.
    fn ask(
        &mut self,
        sizes: &Option<IdSizes>,
        place: usize,
        packet: &OwnedPacket,
    ) -> Result<(), NoMemory>
        ensures waits { OnOk result ((other : ℕ) → waits_in self.new other ≡ waits_by sizes.now
            place Debugger packet.now.header.id packet.now.header.kind packet.now.body.items
            (waits_in self.old other) other) }
        ensures mirror { OnOk result (self.new.mirror ≡ self.old.mirror) }
    {
        if let PacketKind::Command { set, number } = packet.header.kind {
            let command = read_command(self.alloc, sizes, set, number, &packet.body)?;
            self.asked
                .insert(packet.header.id, AskedCommand { place, command })?;
        }
        Ok(())
    }

    /// A packet of the target: the mirror learns from it.
    fn hear(
        &mut self,
        sizes: &Option<IdSizes>,
        packet: &OwnedPacket,
    ) -> Result<Option<usize>, NoMemory>
        ensures answers { IfOk result (λ answers. answers ≡ answered_by (waits_in self.old) Target
            packet.now.header.id packet.now.header.kind) }
        ensures waits { OnOk result ((place other : ℕ) → waits_in self.new other
            ≡ waits_by sizes.now place Target packet.now.header.id packet.now.header.kind
            packet.now.body.items (waits_in self.old other) other) }
        ensures mirror { OnOk result (Hears (packet_heard sizes.now (command_in (waits_in self.old
            packet.now.header.id)) packet.now.header.kind packet.now.body.items) self.old.mirror
            self.new.mirror) }
    {
        match packet.header.kind {
            PacketKind::Command { set, number } => {
                if set == EVENT && number == COMPOSITE {
                    self.hear_events(sizes, &packet.body)?;
                }
                Ok(None)
            }
            PacketKind::Reply { error } => {
                self.hear_reply(sizes, packet.header.id, error, &packet.body)
            }
        }
    }

    fn hear_events(&mut self, sizes: &Option<IdSizes>, bytes: &[u8]) -> Result<(), NoMemory>
        ensures asked { OnOk result (self.new.asked ≡ self.old.asked) }
        ensures mirror { OnOk result (Hears (option_map (λ c. Report c) (composite_of sizes.now
            bytes.now)) self.old.mirror self.new.mirror) }
    {
        if let Some(composite) = read_composite(self.alloc, sizes, bytes)? {
            self.mirror.learn_composite(&composite)?;
        }
        Ok(())
    }

    fn hear_reply(
        &mut self,
        sizes: &Option<IdSizes>,
        id: u32,
        error: ErrorCode,
        bytes: &[u8],
    ) -> Result<Option<usize>, NoMemory>
        ensures answers { IfOk result (λ answers. answers ≡ option_map (λ (a : Asked). a.place)
            (waits_in self.old id)) }
        ensures asked { OnOk result ((other : ℕ) → waits_in self.new other
            ≡ (if id == other then None else waits_in self.old other)) }
        ensures mirror { OnOk result (Hears (reply_heard sizes.now (command_in (waits_in self.old
            id)) error bytes.now) self.old.mirror self.new.mirror) }
    {
        let Some(asked) = self.asked.remove(&id) else {
            return Ok(None);
        };
        let AskedCommand { place, command } = asked;
        let answer = read_answer(
            self.alloc,
            sizes,
            command.set(),
            command.number(),
            error,
            bytes,
        )?;
        self.mirror.learn_reply(self.alloc, &command, &answer)?;
        Ok(Some(place))
    }

    /// The threads that the mirror knows.
    pub(crate) fn threads(&self) -> Result<Vec<Known>, NoMemory>
        ensures { IfOk result (λ threads. threads.items ≡ self.now.mirror.threads) }
    {
        let threads = self.mirror.known().collect::<Vec<Known>>(self.alloc)?;
        Ok(threads)
    }

    /// The event requests that stand.
    pub(crate) fn requests(&self) -> Result<Vec<Standing>, NoMemory>
        ensures { IfOk result (λ requests. requests.items ≡ map standing_of
            self.now.mirror.requests) }
    {
        let mut requests = Vec::new(self.alloc);
        for request in self.mirror.requests() {
            requests.push(Standing {
                id: request.id(),
                kind: request.kind(),
            })?;
        }
        Ok(requests)
    }
}
