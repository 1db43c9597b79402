//! The commands that a plan asks.
ghost use Rattle.std.specs.Prelude.{◌≡◌, false, IfErr, IfOk, None, OnOk, Some, is_some};
ghost use Rattle.jdwp_debugger.specs.RefusedNumbers.{refused_number};
ghost use Rattle.jdwp_pair.specs.declared.asking.Unread.TheVariants as unread;
ghost use Rattle.jdwp_pair.specs.Connections.{disconnects};
ghost use Rattle.jdwp_pair.specs.Events.{refusal_in};
ghost use Rattle.jdwp_pair.specs.Followers.{KeepsUp};
ghost use Rattle.jdwp_pair.specs.Lines.{AsksFor, EndsAsking, command_by};

use crate::connection::Connection;
use crate::ended::PairEnded;
use crate::following::ask_too;
use crate::happening::happen;
use jdwp_debugger::{Command, Debugger, Refused};
use jdwp_layout::{layout_of, read};
use jdwp_link::{Link, LinkEvent, Outcome};
use jdwp_machine::Machine;
use jdwp_wire::{DataFault, IdSizes, NoMemory};
use std::alloc::{AllocError, Global};

/// Why a line is no command.
#[derive(Clone, Copy)]
enum Unread {
    /// The bytes do not read by the layout of the request.
    BadData,
    /// An allocation was refused.
    NoMemory,
}

impl From<AllocError> for Unread {
    ghost from_gives = { λ _ e. e ≡ unread.NoMemory };

    fn from(_error: AllocError) -> Unread {
        Unread::NoMemory
    }
}

/// What a line asks: a command, and its data as they stand in the packet.
#[derive(Clone, Copy)]
pub(crate) struct Asked<'a> {
    pub set: u8,
    pub number: u8,
    pub data: &'a [u8],
}

/// Asks the command of the line at this place, counted from 1, of the follower and of the link's debugger.
///
/// # Errors
/// `RefusedLine` with the place and the number of the refusal: 36 where the data do not read by the layout of the request, else that of the
/// debugger. `NoMemory` where an allocation was refused; `LostConnection`.
pub(crate) fn ask_line<M: Machine + Drop, C: Connection>(
    alloc: Global,
    link: &mut Link<M>,
    connection: &mut C,
    follower: &mut Option<Debugger>,
    place: usize,
    asked: Asked<'_>,
) -> Result<(), PairEnded>
    requires { is_some (C.failed_by connection.old) ≡ false }
    ensures asks { OnOk result (AsksFor M.meaning
        (command_by link.old.debugger.sizes asked.entry.set asked.entry.number asked.entry.data.now)
        link.old link.new) }
    ensures ends { IfErr result (λ ended.
        EndsAsking M.meaning (command_by link.old.debugger.sizes asked.entry.set asked.entry.number
        asked.entry.data.now) place ended link.old link.new) }
    ensures follows { OnOk result (KeepsUp M.meaning link.old follower.old link.new follower.new) }
    ensures failed { is_some (C.failed_by connection.new) ≡ disconnects result }
{
    let (set, number) = (asked.set, asked.number);
    let command = match command_of(alloc, link.debugger().sizes(), set, number, asked.data) {
        Ok(command) => command,
        Err(Unread::NoMemory) => return Err(PairEnded::NoMemory),
        Err(Unread::BadData) => return Err(refused_at(place, Refused::BadCommand)),
    };
    match ask_too(alloc, follower, &command) {
        Ok(()) => {}
        Err(NoMemory) => return Err(PairEnded::NoMemory),
    }
    let outcomes = happen(link, connection, LinkEvent::Ask(command))?;
    match refusal_in(&outcomes) {
        Some(refused) => Err(refused_at(place, refused)),
        None => Ok(()),
    }
}

/// How the run ends at a command that was refused, of the line at this place.
fn refused_at(place: usize, refused: Refused) -> PairEnded
    ensures { result ≡ PairEnded.RefusedLine place (refused_number refused) }
{
    PairEnded::RefusedLine {
        line: place,
        number: refused.number(),
    }
}

/// The command of a line: its bytes are read by the layout of the request, or stay as they are where it has none, or where the widths of ids
/// are not known.
///
/// # Errors
/// `BadData` where they do not read; `NoMemory` where an allocation was refused.
fn command_of(
    alloc: Global,
    sizes: Option<IdSizes>,
    set: u8,
    number: u8,
    bytes: &[u8],
) -> Result<Command, Unread>
    ensures ok { IfOk result (λ command. command_by sizes set number bytes.now ≡ Some command) }
    ensures err { IfErr result (λ e. e ≡ Unread.BadData
        → command_by sizes set number bytes.now ≡ None) }
{
    let Some(sizes) = sizes else {
        return Ok(Command::raw(set, number, Vec::from_slice(alloc, bytes)?));
    };
    let layouts = match layout_of(set, number) {
        Some(row) => row.layouts,
        None => None,
    };
    match layouts {
        Some(layouts) => match read(alloc, &layouts.request, &sizes, bytes) {
            Ok(items) => Ok(Command::new(set, number, items)),
            Err(DataFault::NoMemory) => Err(Unread::NoMemory),
            Err(_) => Err(Unread::BadData),
        },
        None => Ok(Command::raw(set, number, Vec::from_slice(alloc, bytes)?)),
    }
}

/// The first refusal that is told of.
pub(crate) fn refusal_in(outcomes: &[Outcome]) -> Option<Refused>
    ensures { result ≡ refusal_in outcomes.now }
{
    match outcomes {
        [] => None,
        [Outcome::Refused(refused), ..] => Some(*refused),
        [_, rest @ ..] => refusal_in(rest),
    }
}
