//! The commands that a plan asks.
ghost use Rattle.std.specs.Prelude.{◌≡◌, [], ◌∷◌, ◌++◌, ◌+◌, true, is_some, IfErr, IfOk, None, OnOk, Some};
ghost use Rattle.jdwp_end.specs.Story.{Story};
ghost use Rattle.jdwp_attach.specs.declared.plans.plan_line.PlanLine.{PlanLine};
ghost use Rattle.jdwp_attach.specs.declared.asking.Unread.TheVariants as unread;
ghost use Rattle.jdwp_attach.specs.PlanAsks.{command_asked};
ghost use Rattle.jdwp_attach.specs.PlanRuns.{EndsRefused, IsAsk, LineEndsSo, LineGoesOn, LineTells};
ghost use Rattle.jdwp_attach.specs.PlanWaits.{Counts};
ghost use Rattle.jdwp_attach.specs.Runs.{IsReady, at};

use crate::run::Run;
use jdwp_debugger::{Command, Debugger, Refused};
use jdwp_end::{Ended, Pipe, write_out};
use jdwp_layout::{layout_of, read};
use jdwp_wire::{DataFault, IdSizes};
use std::alloc::{AllocError, Global};

/// Why a line is no command.
#[derive(Clone, Copy)]
pub(crate) enum Unread {
    /// The bytes do not read by the layout of the request.
    BadData,
    /// An allocation was refused.
    NoMemory,
}

impl From<AllocError> for Unread {
    ghost from_gives = { λ _ e. e ≡ unread.NoMemory };

    fn from(_error: AllocError) -> Unread {
        Unread::NoMemory
    }
}

/// The command of a line: its bytes are read by the layout of the request, or stay as they are where it has none.
///
/// # Errors
/// `BadData` where they do not read; `NoMemory` where an allocation was refused, and only where they do.
fn command_of(
    alloc: Global,
    sizes: &IdSizes,
    set: u8,
    number: u8,
    bytes: &[u8],
) -> Result<Command, Unread>
    ensures ok { IfOk result (λ command. command_asked sizes.now set number bytes.now
        ≡ Some command) }
    ensures err { IfErr result (λ e. e ≡ Unread.BadData
        → command_asked sizes.now set number bytes.now ≡ None) }
    ensures memory { IfErr result (λ e. e ≡ Unread.NoMemory
        → is_some (command_asked sizes.now set number bytes.now) ≡ true) }
{
    jdwp_layout::laws::reads_what_is_encoded();
    let layouts = match layout_of(set, number) {
        Some(row) => row.layouts,
        None => None,
    };
    match layouts {
        Some(layouts) => match read(alloc, &layouts.request, sizes, bytes) {
            Ok(items) => Ok(Command::new(set, number, items)),
            Err(DataFault::NoMemory) => Err(Unread::NoMemory),
            Err(_) => Err(Unread::BadData),
        },
        None => Ok(Command::raw(set, number, Vec::from_slice(alloc, bytes)?)),
    }
}

/// Asks the command of a line, and writes its packet.
///
/// # Errors
/// Why the run ends: `Refused(36)` where the bytes do not read by the layout of the request, else `Refused` with the number of the
/// debugger's refusal.
pub(crate) fn ask_line<P: Pipe>(
    alloc: Global,
    debugger: &mut Debugger,
    pipe: &mut P,
    run: &mut Run,
    set: u8,
    number: u8,
    bytes: &[u8],
) -> Result<(), Ended>
    requires ready { IsReady debugger.old }
    requires known { is_some debugger.old.sizes ≡ true }
    requires counts { Counts run.old.composites run.old.left debugger.old }
    ensures goes { OnOk result ((out : Story) (line : PlanLine) → IsAsk line set number bytes.now
        → LineGoesOn line (at (P.story pipe.old) out debugger.old run.old.left)
        (at (P.story pipe.new) out debugger.new run.new.left)) }
    ensures ready { OnOk result (IsReady debugger.new) }
    ensures known { OnOk result (is_some debugger.new.sizes ≡ true) }
    ensures counts { OnOk result (Counts run.new.composites run.new.left debugger.new) }
    ensures tells { IfErr result (λ ended. (out : Story) (line : PlanLine)
        → IsAsk line set number bytes.now
        → LineTells line (at (P.story pipe.old) out debugger.old run.old.left) debugger.new ended) }
    ensures ends { IfErr result (λ ended. (out : Story) (line : PlanLine)
        → IsAsk line set number bytes.now
        → LineEndsSo line (at (P.story pipe.old) out debugger.old run.old.left)
        (at (P.story pipe.new) out debugger.new run.new.left) ended) }
{
    let Some(sizes) = debugger.sizes() else {
        unreachable!();
    };
    let command = match command_of(alloc, &sizes, set, number, bytes) {
        Ok(command) => command,
        Err(Unread::NoMemory) => return Err(Ended::NoMemory),
        Err(Unread::BadData) => return Err(end_refused(debugger, Refused::BadCommand)),
    };
    if let Err(refused) = debugger.ask(alloc, command) {
        return Err(end_refused(debugger, refused));
    }
    if !write_out(debugger, pipe) {
        debugger.lose();
        return Err(Ended::LostByWrite);
    }
    Ok(())
}

/// How the run ends at a command that the debugger refused.
fn end_refused(debugger: &mut Debugger, refused: Refused) -> Ended
    ensures { EndsRefused refused debugger.old debugger.new result }
{
    match refused {
        Refused::NoMemory => Ended::NoMemory,
        Refused::Closed
        | Refused::NotReady
        | Refused::Busy
        | Refused::BadCommand
        | Refused::TooLong => {
            debugger.lose();
            Ended::Refused(refused.number())
        }
    }
}
