//! Commands as a turn defers them.
ghost use Rattle.std.specs.Prelude.{◌≡◌, ℕ, List, [], IfOk, IfErr};
ghost use Rattle.jdwp_end.specs.Ends.{HasPacket, front_of};
ghost use Rattle.jdwp_wire.specs.Bytes.{IsBytes};
ghost use Rattle.jdwp_wire.specs.Streams.{Packet, Whole};
ghost use Rattle.jdwp_wire.specs.declared.packet.Header.{Header};
ghost use Rattle.jdwp_wire.specs.declared.packet.PacketKind.TheVariants as kind;
ghost use Rattle.jdwp_target.specs.TurnParts.{HasDeferred};
ghost use Rattle.jdwp_target.specs.Turns.{TurnsAt};

use crate::deferral::DeferredCommand;
use crate::target::{Target, TargetFault, Turn};
use jdwp_end::End;
use jdwp_machine::Machine;
use jdwp_wire::{Header, NoMemory};
use std::alloc::Global;

impl<M: Machine + Drop> Target<M> {
    /// Defers the reply to the command of this set and number in the packet in front, which has this header and takes so many bytes: it is
    /// taken off and kept.
    ///
    /// # Errors
    /// `NoMemory` where an allocation was refused, and only where the command has data; then nothing has changed.
    pub(crate) fn defer(
        &mut self,
        header: Header,
        set: u8,
        number: u8,
        used: usize,
    ) -> Result<Turn, TargetFault>
        requires deferred { HasDeferred header used self.old }
        requires command { header.kind ≡ kind.Command set number }
        requires bytes { IsBytes self.old.end.incoming }
        ensures { TurnsAt M.meaning (front_of self.old.end) self.old result self.new }
    {
        let id = header.id;
        let body = copy_front(self.alloc, &mut self.end, used)?;
        let command = DeferredCommand {
            id,
            set,
            number,
            body,
        };
        self.end.take_off(used);
        self.deferral.push(command);
        Ok(Turn::Deferred(id))
    }
}

/// A copy of the data of the packet in front of an end, which takes so many bytes. They are read where they lie, or joined where they
/// wrap, and the end is as it was.
///
/// # Errors
/// `NoMemory` where an allocation was refused, and only where there are data.
fn copy_front(alloc: Global, end: &mut End, used: usize) -> Result<Vec<u8>, NoMemory>
    requires { HasPacket used end.old }
    ensures copy { IfOk result (λ copy. (header : Header) (body : List ℕ) → front_of end.old
        ≡ Whole (Packet header body) used → copy.items ≡ body) }
    ensures memory { IfErr result (λ _. (header : Header) (body : List ℕ) → front_of end.old
        ≡ Whole (Packet header body) used → body ≡ [] → ⊥) }
    ensures same { end.new ≡ end.old }
{
    match end.data_in_place(used) {
        Some(body) => copy(alloc, body),
        None => copy(alloc, end.data_joined(used)),
    }
}

/// A copy of these bytes.
///
/// # Errors
/// `NoMemory` where an allocation was refused, and only where there are any.
fn copy(alloc: Global, bytes: &[u8]) -> Result<Vec<u8>, NoMemory>
    ensures copy { IfOk result (λ copy. copy.items ≡ bytes.now) }
    ensures memory { IfErr result (λ _. bytes.now ≡ [] → ⊥) }
{
    if bytes.is_empty() {
        return Ok(Vec::new(alloc));
    }
    Ok(Vec::from_slice(alloc, bytes)?)
}
