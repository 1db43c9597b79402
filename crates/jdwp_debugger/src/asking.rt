//! Commands as they are asked: why they are not, and their packets.
ghost use Rattle.std.specs.Prelude.{◌≡◌, ◌<◌, ◌≤◌, ◌^◌, ◌++◌, ℕ, MatchOption, None, OnOk, false, is_none, length, true};
ghost use Rattle.jdwp_wire.specs.Frames.{IsPacket};
ghost use Rattle.jdwp_wire.specs.Reading.{in_usize};
ghost use Rattle.jdwp_layout.specs.Grammar.{EncodesData};
ghost use Rattle.jdwp_layout.specs.Meanings.{meanings};
ghost use Rattle.jdwp_layout.specs.Shapes.{shape};
ghost use Rattle.jdwp_layout.specs.Writes.{data_canonical, data_refusal};
ghost use Rattle.jdwp_action.specs.CommandPackets.{carried_bytes, is_for_target, packet_length};
ghost use Rattle.jdwp_debugger.specs.Asking.{EncodesBody, EncodesCommand, body_bytes, command_bytes, command_header};
ghost use Rattle.jdwp_debugger.specs.RefusedNumbers.{refused_number};

use jdwp_layout::numbers::EVENT;
use jdwp_layout::{Datum, Layout, data_size, layout_of, refusal, write};
use jdwp_mirror::{Carried, Command};
use jdwp_wire::{Header, IdSizes, NoMemory, PacketKind};
use std::alloc::AllocFailed;
use thiserror::Error;

/// Why a command was not asked. Nothing has changed.
#[derive(Clone, Copy, Debug, PartialEq, Eq, Error)]
pub enum Refused {
    /// No session is open.
    #[error("fault 33: the session is closed")]
    Closed,
    /// The widths of ids are not known yet.
    #[error("fault 31: the widths of ids are not known yet")]
    NotReady,
    /// As many commands wait for replies as the limits allow, as many bytes wait to leave as a packet may have or more, or 2^64 - 1
    /// tickets were given.
    #[error("fault 32: too much waits")]
    Busy,
    /// It is no command of the sets 0 to 63 that the specification names, or its data are not those of the command.
    #[error("fault 36: a command that no target has, or data that do not read in its layout")]
    BadCommand,
    /// Its packet would be longer than a packet may be.
    #[error("fault 34: a command longer than a packet may be")]
    TooLong,
    /// An allocation was refused.
    #[error("fault 35: no memory")]
    NoMemory,
}

impl Refused {
    /// The number of the refusal, 31 to 36, as programs print it.
    pub fn number(self) -> u16
        ensures { result ≡ refused_number self }
    {
        match self {
            Refused::Closed => 33,
            Refused::NotReady => 31,
            Refused::Busy => 32,
            Refused::BadCommand => 36,
            Refused::TooLong => 34,
            Refused::NoMemory => 35,
        }
    }
}

impl From<NoMemory> for Refused {
    ghost use Rattle.jdwp_debugger.specs.declared.asking.Refused.TheVariants as refused;

    ghost from_gives = { λ _ e. e ≡ refused.NoMemory };

    fn from(_error: NoMemory) -> Refused {
        Refused::NoMemory
    }
}

impl<T: Drop> From<AllocFailed<T>> for Refused {
    ghost use Rattle.jdwp_debugger.specs.declared.asking.Refused.TheVariants as refused;

    ghost from_gives = { λ _ e. e ≡ refused.NoMemory };

    fn from(_error: AllocFailed<T>) -> Refused {
        Refused::NoMemory
    }
}

/// What a command carries, which was found to fit its row.
#[derive(Clone, Copy)]
pub(crate) enum Body<'a> {
    /// Data of this layout.
    Laid(Layout, &'a [Datum]),
    /// Bytes, of a row whose data are not read.
    Raw(&'a [u8]),
}

impl<'a> Body<'a> {
    /// What a command carries; None where it is none that the target may be asked, or its data don't fit.
    pub fn of(command: &'a Command, sizes: &IdSizes) -> Option<Body<'a>>
        ensures { MatchOption result (is_for_target sizes.now command.now ≡ false) (λ b.
            (is_for_target sizes.now command.now ≡ true)
            × (body_bytes sizes.now b ≡ carried_bytes sizes.now command.now.carried)
            × (EncodesBody sizes.now b → EncodesCommand sizes.now command.now)) }
    {
        if command.set() >= EVENT {
            return None;
        }
        let row = layout_of(command.set(), command.number())?;
        match (row.layouts, command.carried()) {
            (None, Carried::Raw(bytes)) => Some(Body::Raw(bytes)),
            (Some(layouts), Carried::Content(data)) => {
                laid_out(layouts.request, data.items(), sizes)
            }
            _ => None,
        }
    }

    /// How many bytes it takes; None past `usize`. Takes no memory.
    pub fn size(&self, sizes: &IdSizes) -> Option<usize>
        ensures { result ≡ in_usize (length (body_bytes sizes.now self.now)) }
    {
        match self {
            Body::Laid(_, items) => data_size(items, sizes),
            Body::Raw(bytes) => Some(bytes.len()),
        }
    }

    /// Appends it to a packet.
    ///
    /// # Errors
    /// `NoMemory` where an allocation was refused.
    pub fn append(&self, sizes: &IdSizes, packet: &mut Vec<u8>) -> Result<(), NoMemory>
        ensures bytes { OnOk result (packet.new.items
            ≡ packet.old.items ++ body_bytes sizes.now self.now) }
        ensures encoded { OnOk result (EncodesBody sizes.now self.now) }
    {
        match self {
            Body::Laid(layout, items) => {
                match write(layout, sizes, items, packet) {
                    Ok(()) => Ok(()),
                    Err(_) => Err(NoMemory), // the data fit the layout
                }
            }
            Body::Raw(bytes) => {
                packet.extend_from_slice(bytes)?;
                Ok(())
            }
        }
    }
}

/// Data of a layout; None where they don't fit it.
fn laid_out<'a>(layout: Layout, items: &'a [Datum], sizes: &IdSizes) -> Option<Body<'a>>
    ensures { MatchOption result (is_none (data_refusal sizes.now (shape layout)
        (meanings items.now)) ≡ false) (λ b.
        (data_refusal sizes.now (shape layout) (meanings items.now) ≡ None)
        × (body_bytes sizes.now b ≡ data_canonical sizes.now (meanings items.now))
        × (EncodesBody sizes.now b → EncodesData sizes.now (shape layout) (meanings items.now)
        (data_canonical sizes.now (meanings items.now)))) }
{
    match refusal(&layout, sizes, items) {
        None => Some(Body::Laid(layout, items)),
        Some(_) => None,
    }
}

/// A command that may be asked.
#[derive(Clone, Copy)]
pub(crate) struct Admitted<'a> {
    /// The widths of ids.
    pub sizes: IdSizes,
    pub body: Body<'a>,
    /// How many bytes its packet has.
    pub size: usize,
}

impl<'a> Admitted<'a> {
    /// Writes the packet of the command under an id, in place of what the buffer had.
    ///
    /// # Errors
    /// `NoMemory` where an allocation was refused.
    pub fn write(&self, id: u32, command: &Command, packet: &mut Vec<u8>) -> Result<(), NoMemory>
        requires bytes { body_bytes self.now.sizes self.now.body
            ≡ carried_bytes self.now.sizes command.now.carried }
        requires size { self.now.size ≡ packet_length self.now.sizes command.now }
        requires fits { self.now.size < 2 ^ 32 }
        ensures bytes { OnOk result (packet.new.items
            ≡ command_bytes self.now.sizes id command.now) }
        ensures length { OnOk result (length packet.new.items ≡ self.now.size) }
        ensures encoded { OnOk result (EncodesBody self.now.sizes self.now.body) }
        ensures sendable { (limit : ℕ) → self.now.size ≤ limit
            → IsPacket limit (command_header self.now.sizes id command.now)
            (carried_bytes self.now.sizes command.now.carried) }
    {
        let header = Header {
            length: self.size as u32,
            id,
            kind: PacketKind::Command {
                set: command.set(),
                number: command.number(),
            },
        };
        packet.clear();
        packet.reserve(self.size)?;
        packet.extend_from_slice(&header.to_bytes())?;
        self.body.append(&self.sizes, packet)?;
        Ok(())
    }
}
