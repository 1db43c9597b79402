//! The packets of a recording, in the forms pcap and pcapng.

use crate::fields::{Order, short_at, word_at};
use crate::packets::Packet;
use crate::recording_fault::RecordingFault;
use std::alloc::{AllocError, Global};

/// The form of a recording.
#[derive(Clone, Copy, Debug, PartialEq, Eq)]
enum Form {
    /// pcap: all packets are of one kind of link.
    Records { order: Order, link: u32 },
    /// pcapng: the numbers of a section stand in this order.
    Blocks { order: Order },
}

/// An interface of a section of pcapng.
#[derive(Clone, Copy, Debug)]
struct Interface {
    link: u32,
    /// The most bytes of a packet that are recorded, 0 for all.
    snap_length: u32,
}

/// A recording that is read packet by packet.
#[derive(Drop)]
pub(crate) struct Packets<'a> {
    rest: &'a [u8],
    form: Form,
    interfaces: Vec<Interface>,
    /// How many packets were read.
    count: usize,
}

/// A block of pcapng.
#[derive(Clone, Copy)]
struct Block<'a> {
    order: Order,
    /// The number of its type.
    kind: u32,
    /// What stands between its two lengths.
    body: &'a [u8],
}

/// What a block has.
#[derive(Clone, Copy)]
enum Content<'a> {
    /// No packet.
    Other,
    Packet(Packet<'a>),
    /// What it says can't be.
    Damaged,
}

impl<'a> Packets<'a> {
    /// A recording of which nothing was read.
    ///
    /// # Errors
    /// `NoRecording` where it begins neither as pcap nor as pcapng; `CutOff` where it ends in its first header.
    pub(crate) fn new(alloc: Global, bytes: &'a [u8]) -> Result<Packets<'a>, RecordingFault> {
        let form = form_of(bytes)?;
        let rest = match form {
            Form::Records { .. } => bytes.get(24..).ok_or(RecordingFault::CutOff(0))?,
            Form::Blocks { .. } => bytes,
        };
        Ok(Packets {
            rest,
            form,
            interfaces: Vec::new(alloc),
            count: 0,
        })
    }

    /// How many packets were read.
    pub(crate) fn count(&self) -> usize {
        self.count
    }

    /// The next packet. None at the end.
    ///
    /// # Errors
    /// `CutOff` and `Damaged` with the number of packets before; `NoMemory`.
    pub(crate) fn next(&mut self) -> Result<Option<Packet<'a>>, RecordingFault> {
        if self.rest.is_empty() {
            return Ok(None);
        }
        let packet = match self.form {
            Form::Records { order, link } => Some(self.record(order, link)?),
            Form::Blocks { .. } => self.packet_block()?,
        };
        if packet.is_some() {
            self.count = self.count.saturating_add(1);
        }
        Ok(packet)
    }

    /// The packet of the next record of pcap.
    fn record(&mut self, order: Order, link: u32) -> Result<Packet<'a>, RecordingFault> {
        let cut = RecordingFault::CutOff(self.count);
        let (Some(recorded), Some(length), Some(behind)) = (
            word_at(order, self.rest, 8),
            word_at(order, self.rest, 12),
            self.rest.get(16..),
        ) else {
            return Err(cut);
        };
        let Some(bytes) = behind.get(..recorded as usize) else {
            return Err(cut);
        };
        self.rest = &behind[recorded as usize..];
        Ok(Packet {
            link,
            bytes,
            missing: length.saturating_sub(recorded) as usize,
        })
    }

    /// The packet of the next block of pcapng that has one.
    fn packet_block(&mut self) -> Result<Option<Packet<'a>>, RecordingFault> {
        // each block takes bytes away
        for _ in 0..self.rest.len() {
            if self.rest.is_empty() {
                return Ok(None);
            }
            let block = self.take_block()?;
            if block.kind == 1 {
                self.note_interface(block.order, block.body)?;
            }
            match self.read_block(&block) {
                Content::Other => {}
                Content::Packet(packet) => return Ok(Some(packet)),
                Content::Damaged => return Err(RecordingFault::Damaged(self.count)),
            }
        }
        Ok(None)
    }

    /// Takes the next block off.
    fn take_block(&mut self) -> Result<Block<'a>, RecordingFault> {
        let order = self.note_section()?;
        let cut = RecordingFault::CutOff(self.count);
        let (Some(kind), Some(length)) = (
            word_at(order, self.rest, 0),
            word_at(order, self.rest, 4),
        ) else {
            return Err(cut);
        };
        let length = length as usize;
        if length < 12 {
            return Err(RecordingFault::Damaged(self.count));
        }
        let Some(block) = self.rest.get(..length) else {
            return Err(cut);
        };
        self.rest = &self.rest[length..];
        Ok(Block {
            order,
            kind,
            body: &block[8..length - 4],
        })
    }

    /// The order of the numbers of the next block. Where it begins a section the order is noted, and interfaces are counted anew.
    fn note_section(&mut self) -> Result<Order, RecordingFault> {
        if self.rest.starts_with(&SECTION) {
            let order = section_order(self.rest, self.count)?;
            self.form = Form::Blocks { order };
            self.interfaces.clear();
            return Ok(order);
        }
        match self.form {
            Form::Records { order, .. } | Form::Blocks { order } => Ok(order),
        }
    }

    /// Notes an interface that a block describes.
    fn note_interface(&mut self, order: Order, body: &[u8]) -> Result<(), RecordingFault> {
        let damaged = RecordingFault::Damaged(self.count);
        let (Some(link), Some(snap_length)) = (short_at(order, body, 0), word_at(order, body, 4))
        else {
            return Err(damaged);
        };
        let link = u32::from(link);
        self.interfaces.push(Interface { link, snap_length })?;
        Ok(())
    }

    /// What a block has.
    fn read_block(&self, block: &Block<'a>) -> Content<'a> {
        let packet = match block.kind {
            3 => self.simple_packet(block.order, block.body),
            6 => self.enhanced_packet(block.order, block.body),
            _ => return Content::Other,
        };
        match packet {
            Some(packet) => Content::Packet(packet),
            None => Content::Damaged,
        }
    }

    /// The packet of a Simple Packet Block, which is of the first interface.
    fn simple_packet(&self, order: Order, body: &'a [u8]) -> Option<Packet<'a>> {
        let (Some(interface), Some(length), Some(behind)) = (
            self.interfaces.first(),
            word_at(order, body, 0),
            body.get(4..),
        ) else {
            return None;
        };
        let length = length as usize;
        let limit = interface.snap_length as usize;
        let recorded = if limit == 0 {
            length
        } else {
            length.min(limit)
        };
        Some(Packet {
            link: interface.link,
            bytes: behind.get(..recorded)?,
            missing: length - recorded,
        })
    }

    /// The packet of an Enhanced Packet Block.
    fn enhanced_packet(&self, order: Order, body: &'a [u8]) -> Option<Packet<'a>> {
        let interface = self.interfaces.get(word_at(order, body, 0)? as usize)?;
        let (Some(recorded), Some(length), Some(behind)) = (
            word_at(order, body, 12),
            word_at(order, body, 16),
            body.get(20..),
        ) else {
            return None;
        };
        Some(Packet {
            link: interface.link,
            bytes: behind.get(..recorded as usize)?,
            missing: length.saturating_sub(recorded) as usize,
        })
    }
}

/// How a Section Header Block begins, in either order.
const SECTION: [u8; 4] = [0x0a, 0x0d, 0x0d, 0x0a];

/// The form of a recording by its first bytes.
fn form_of(bytes: &[u8]) -> Result<Form, RecordingFault> {
    let order = match bytes {
        [0xa1, 0xb2, 0xc3, 0xd4, ..] | [0xa1, 0xb2, 0x3c, 0x4d, ..] => Order::Big,
        [0xd4, 0xc3, 0xb2, 0xa1, ..] | [0x4d, 0x3c, 0xb2, 0xa1, ..] => Order::Little,
        [0x0a, 0x0d, 0x0d, 0x0a, ..] => {
            return Ok(Form::Blocks {
                order: section_order(bytes, 0)?,
            });
        }
        _ => return Err(RecordingFault::NoRecording),
    };
    let link = word_at(order, bytes, 20).ok_or(RecordingFault::CutOff(0))?;
    Ok(Form::Records {
        order,
        link: link & 0xffff,
    })
}

/// The order of the numbers of the section that begins here, behind so many packets.
fn section_order(bytes: &[u8], count: usize) -> Result<Order, RecordingFault> {
    match word_at(Order::Big, bytes, 8) {
        Some(0x1a2b_3c4d) => Ok(Order::Big),
        Some(0x4d3c_2b1a) => Ok(Order::Little),
        Some(_) => Err(RecordingFault::Damaged(count)),
        None => Err(RecordingFault::CutOff(count)),
    }
}
