//! A debugger, and beside it what its last turn told.
ghost use Rattle.std.specs.Prelude.{◌≡◌, ◌≢◌, ◌+◌, [], IfOk, IfErr, OnErr};
ghost use Rattle.std.specs.String.{string_bytes};
ghost use Rattle.milunovesk_c.specs.Askings.{AsksBytes, RefusesBytes, command_in};
ghost use Rattle.milunovesk_c.specs.Seats.{new_seat_in};
ghost use Rattle.milunovesk_c.specs.Telling.{SeatTurns, known_widths, seat_lines};

use jdwp_attach::turn_text;
use jdwp_debugger::{Command, Debugger, DebuggerFault, Order, Read, Refused, Ticket};
use jdwp_layout::layout_of;
use jdwp_wire::{DataFault, IdSizes, Limits, NoMemory};
use std::alloc::Global;

/// A debugger, and beside it what its last turn told.
#[derive(Drop)]
pub struct Seat {
    /// The debugger.
    pub debugger: Debugger,
    /// The widths of ids by which the last turn read, where they were known.
    pub widths: Option<IdSizes>,
    /// What the last turn read that did not fail for want of memory.
    pub read: Read,
}

impl Seat {
    /// A debugger before its first session, of a target of this order, within the standard limits, whose first packet has this id.
    ///
    /// # Errors
    /// `NoMemory` where an allocation was refused.
    pub(crate) fn new(alloc: Global, order: Order, first_id: u32) -> Result<Seat, NoMemory>
        ensures { IfOk result (λ s. s ≡ new_seat_in order first_id) }
    {
        let debugger = Debugger::with_order(alloc, first_id, Limits::standard(), order)?;
        Ok(Seat {
            debugger,
            widths: None,
            read: Read::Nothing,
        })
    }

    /// Handles the message in front, and keeps what it tells.
    ///
    /// # Errors
    /// As `Debugger::turn`.
    pub(crate) fn turn(&mut self, alloc: Global) -> Result<(), DebuggerFault>
        ensures { SeatTurns self.old result self.new }
    {
        let before = self.debugger.sizes();
        match self.debugger.turn(alloc) {
            Ok(read) => {
                self.widths = known(self.debugger.sizes(), before);
                self.read = read;
                Ok(())
            }
            Err(DebuggerFault::NoMemory) => Err(DebuggerFault::NoMemory),
            Err(fault) => {
                self.widths = None;
                self.read = Read::Nothing;
                Err(fault)
            }
        }
    }

    /// The lines of what the last turn told.
    ///
    /// # Errors
    /// `NoMemory` where an allocation was refused, and there are any.
    pub(crate) fn lines(&self, alloc: Global) -> Result<String, NoMemory>
        ensures text { IfOk result (λ text. string_bytes text ≡ seat_lines self.now) }
        ensures memory { OnErr result (seat_lines self.now ≢ []) }
    {
        turn_text(alloc, self.debugger.last(), &self.read, self.widths)
    }

    /// Asks the command whose data these bytes are.
    ///
    /// # Errors
    /// As `Debugger::ask`; `BadCommand` where there is no such command, or the bytes don't read as its data.
    pub(crate) fn ask(
        &mut self,
        alloc: Global,
        set: u8,
        number: u8,
        bytes: &[u8],
    ) -> Result<Ticket, Refused>
        ensures ok { IfOk result (λ ticket. (ticket.0 ≡ self.old.debugger.tickets + 1)
            × AsksBytes set number bytes.now self.old self.new) }
        ensures err { IfErr result (λ e. (self.new ≡ self.old)
            × RefusesBytes self.old.debugger.sizes set number bytes.now e self.old.debugger) }
    {
        let sizes = match self.debugger.sizes() {
            Some(sizes) => sizes,
            None if self.debugger.is_open() => return Err(Refused::NotReady),
            None => return Err(Refused::Closed),
        };
        match command(alloc, &sizes, set, number, bytes)? {
            None => Err(Refused::BadCommand),
            Some(command) => self.debugger.ask(alloc, command),
        }
    }
}

/// The widths of ids that are known after a turn, or else those before it.
fn known(after: Option<IdSizes>, before: Option<IdSizes>) -> Option<IdSizes>
    ensures { result ≡ known_widths after before }
{
    match after {
        None => before,
        Some(sizes) => Some(sizes),
    }
}

/// The command whose data these bytes are; None where there is no such command, or they don't read as its data.
///
/// # Errors
/// `NoMemory` where an allocation was refused.
fn command(
    alloc: Global,
    sizes: &IdSizes,
    set: u8,
    number: u8,
    bytes: &[u8],
) -> Result<Option<Command>, NoMemory>
    ensures { IfOk result (λ found. found ≡ command_in sizes.now set number bytes.now) }
{
    let Some(row) = layout_of(set, number) else {
        return Ok(None);
    };
    match row.layouts {
        None => {
            let kept = Vec::from_slice(alloc, bytes)?;
            Ok(Some(Command::raw(set, number, kept)))
        }
        Some(layouts) => match jdwp_layout::read(alloc, &layouts.request, sizes, bytes) {
            Ok(items) => Ok(Some(Command::new(set, number, items))),
            Err(DataFault::NoMemory) => Err(NoMemory),
            Err(_) => Ok(None),
        },
    }
}
