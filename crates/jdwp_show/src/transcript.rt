//! The lines in which a capture is shown.
ghost use Rattle.std.specs.Prelude.{◌≡◌, ◌++◌, [], None, IfOk, codes};
ghost use Rattle.std.specs.String.{string_bytes};
ghost use Rattle.jdwp_wire.specs.Streams.{Packet};
ghost use Rattle.jdwp_show.specs.CaptureLines.{more_line};
ghost use Rattle.jdwp_show.specs.Found.{Sent};
ghost use Rattle.jdwp_show.specs.MessageLines.{body_text, body_fault, hello_line, packet_line, found_shape};
ghost use Rattle.jdwp_show.specs.Rules.{Holds};
ghost use Rattle.jdwp_show.specs.Telling.{Grows};
ghost use Rattle.jdwp_show.specs.Transcripts.{said, Tells, IsWhole};

use crate::capture_line::Sender;
use crate::command_number::CommandNumber;
use crate::data_text::push_number;
use crate::message_text::{
    push_command_start, push_hello, push_mark, push_reply_start, push_sound_body, reply_layout,
    request_layout,
};
use crate::terms::Terms;
use crate::text::Text;
use jdwp_layout::Layout;
use jdwp_wire::{IdSizes, NoMemory, PacketKind, PacketRef};
use std::alloc::Global;

/// The lines by which `show` tells messages, one after another; or none, where only a verdict is wanted.
///
/// Where an allocation is refused, nothing more is appended, and `into_string` says so.
#[derive(Drop)]
pub struct Transcript {
    alloc: Global,
    lines: Text,
}

impl Transcript {
    /// No line yet.
    pub fn new(alloc: Global) -> Transcript
        ensures { said result ≡ [] }
    {
        let lines = Text::new(alloc);
        Transcript { alloc, lines }
    }

    /// One that keeps no lines.
    pub fn none(alloc: Global) -> Transcript {
        let lines = Text::none(alloc);
        Transcript { alloc, lines }
    }

    /// The lines, each with a newline at its end.
    ///
    /// # Errors
    /// `NoMemory` where an allocation was refused, or no lines are kept.
    pub fn into_string(self) -> Result<String, NoMemory>
        ensures { IfOk result (λ lines. IsWhole self (string_bytes lines)) }
    {
        let Transcript { lines, .. } = self;
        lines.into_string()
    }

    /// Appends the line of a handshake.
    pub fn push_hello(&mut self, sender: Sender)
        ensures { Tells self.old (hello_line sender ++ codes "\n") self.new }
    {
        push_hello(&mut self.lines, sender);
        self.lines.push_str("\n");
    }

    /// Appends the line of a packet that breaks no rule where data are read so. The command that waits under its id is given.
    pub fn push_packet(
        &mut self,
        terms: Terms,
        waits: Option<CommandNumber>,
        sender: Sender,
        packet: &PacketRef,
    )
        requires { Holds terms waits sender (Sent (Packet packet.now.header packet.now.body.now)) }
        ensures { Tells self.old (packet_line terms waits sender packet.now.header.id
            packet.now.header.kind packet.now.body.now) self.new }
    {
        if self.lines.is_refused() {
            return;
        }
        self.show_packet(terms, waits, sender, packet);
    }

    fn show_packet(
        &mut self,
        terms: Terms,
        waits: Option<CommandNumber>,
        sender: Sender,
        packet: &PacketRef,
    )
        requires { Holds terms waits sender (Sent (Packet packet.now.header packet.now.body.now)) }
        ensures { Grows self.old.lines (packet_line terms waits sender packet.now.header.id
            packet.now.header.kind packet.now.body.now) self.new.lines }
    {
        let id = packet.header.id;
        match packet.header.kind {
            PacketKind::Command { set, number } => {
                let command = CommandNumber { set, number };
                push_command_start(&mut self.lines, sender, id, command);
                self.show_body(
                    terms.sizes,
                    request_layout(terms.table, command),
                    packet.body,
                );
            }
            PacketKind::Reply { error } => match waits {
                None => {}
                Some(command) => {
                    push_reply_start(&mut self.lines, sender, id, command, error);
                    self.show_body(
                        terms.sizes,
                        reply_layout(terms.table, command, error),
                        packet.body,
                    );
                }
            },
        }
    }

    /// Appends data and a newline.
    fn show_body(&mut self, sizes: Option<IdSizes>, layout: Option<Layout>, body: &[u8])
        requires { body_fault sizes (found_shape layout) body.now ≡ None }
        ensures { Grows self.old.lines (body_text sizes (found_shape layout) body.now ++ codes "\n")
            self.new.lines }
    {
        push_sound_body(self.alloc, &mut self.lines, sizes, layout, body);
        self.lines.push_str("\n");
    }

    /// Appends how many bytes of an end belong to no whole message, if any do.
    pub fn push_more(&mut self, sender: Sender, count: usize)
        ensures { Tells self.old (more_line sender count) self.new }
    {
        if count > 0 {
            push_mark(&mut self.lines, sender);
            self.lines.push_str("more ");
            push_number(&mut self.lines, count);
            self.lines.push_str("\n");
        }
    }
}
