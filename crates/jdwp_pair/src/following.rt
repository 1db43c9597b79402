//! A debugger beside that of the link, of a target that sends replies and events by threads of its own: it is asked what that one is asked,
//! and reads what that one reads.
ghost use Rattle.std.specs.Prelude.{◌≡◌, ◌∷◌, [], IfOk, OnErr, OnOk, Option, is_some, length, min, true};
ghost use Rattle.jdwp_attach.specs.OwnCounts.{suspend_count};
ghost use Rattle.jdwp_debugger.specs.Asking.{IsRefusal};
ghost use Rattle.jdwp_debugger.specs.declared.asking.Refused as asking;
ghost use Rattle.jdwp_debugger.specs.declared.order.Order as orders;
ghost use Rattle.jdwp_link.specs.Clauses.{Ran};
ghost use Rattle.jdwp_link.specs.Links.{come_to_debugger, way_to_debugger};
ghost use Rattle.jdwp_model.specs.Events as events;
ghost use Rattle.jdwp_pair.specs.Events.{MayCount, Stays, piece, refusal_in};
ghost use Rattle.jdwp_pair.specs.Followers.{AsksBoth, AsksBothWhere, AsksToo, AttachesWhere, Followed, IsNewIn, KeepsUp, MayAsk, MayAskAlone, MayAskAloneWhere, MayAskWhere, TurnsToo, TurnsWhere, begun_anew, begun_too, fed_too, fed_where, lost_where, silent};
ghost use Rattle.jdwp_pair.specs.Rounds.{StopsCounting};

use crate::asking::refusal_in;
use jdwp_attach::due_count;
use jdwp_command::thread_reference::suspend_count as command_of_count;
use jdwp_debugger::{Command, Debugger, DebuggerFault, Order, Refused};
use jdwp_link::{Link, LinkEvent, Outcome};
use jdwp_machine::Machine;
use jdwp_value::ObjectId;
use jdwp_wire::{Limits, NoMemory};
use std::alloc::Global;

/// How many bytes come to it at once at most.
const PIECE: usize = 4_096;

/// The follower of a new link within these limits, where its debugger takes the target to send in this order: None where that sends each
/// packet as it acts.
///
/// # Errors
/// `NoMemory`.
pub(crate) fn follower_of(
    alloc: Global,
    order: Order,
    limits: Limits,
) -> Result<Option<Debugger>, NoMemory>
    ensures { IfOk result (IsNewIn order limits) }
{
    match order {
        Order::One => Ok(None),
        Order::Apart => {
            let debugger = Debugger::with_order(alloc, 1, limits, Order::Apart)?;
            Ok(Some(debugger))
        }
    }
}

// ---- sessions

/// A session begins at the follower, whatever it knew before, where one began at the link's debugger, which was open before or not, and is
/// behind it or not.
pub(crate) fn attach_where(before: bool, behind: bool, follower: &mut Option<Debugger>)
    ensures { AttachesWhere before behind follower.old follower.new }
{
    if let Some(debugger) = follower {
        attach_too(before, behind, debugger);
    }
}

/// The same at it.
fn attach_too(before: bool, behind: bool, debugger: &mut Debugger)
    ensures { debugger.new ≡ begun_too before behind debugger.old }
{
    if before {
        return;
    }
    if !behind {
        return;
    }
    begin_anew(debugger);
}

/// A session begins, whatever it knew before.
fn begin_anew(debugger: &mut Debugger)
    ensures { debugger.new ≡ begun_anew debugger.old }
{
    debugger.lose();
    debugger.attach();
}

/// The follower loses the connection.
pub(crate) fn lose_too(follower: &mut Option<Debugger>)
    ensures { follower.new ≡ lost_where follower.old }
{
    if let Some(debugger) = follower {
        debugger.lose();
    }
}

// ---- bytes

/// The bytes that come next to the link's debugger, 4,096 at most, come to the follower.
///
/// # Errors
/// `NoMemory` where an allocation was refused.
pub(crate) fn feed_too<M: Machine + Drop>(
    alloc: Global,
    link: &Link<M>,
    follower: &mut Option<Debugger>,
) -> Result<(), NoMemory>
    ensures { OnOk result (follower.new ≡ fed_where piece link.now follower.old) }
{
    match follower {
        None => Ok(()),
        Some(debugger) => feed_follower(alloc, link, debugger),
    }
}

/// They come to it.
///
/// # Errors
/// Those of `feed_too`.
fn feed_follower<M: Machine + Drop>(
    alloc: Global,
    link: &Link<M>,
    follower: &mut Debugger,
) -> Result<(), NoMemory>
    ensures { OnOk result (follower.new ≡ fed_too piece link.now follower.old) }
{
    let bytes = coming(alloc, link)?;
    follower.feed(&bytes);
    Ok(())
}

/// The bytes that come next to the link's debugger, 4,096 at most.
///
/// # Errors
/// `NoMemory` where an allocation was refused.
fn coming<M: Machine + Drop>(alloc: Global, link: &Link<M>) -> Result<Vec<u8>, NoMemory>
    ensures { IfOk result (λ bytes. bytes.items ≡ come_to_debugger piece link.now) }
{
    let mut bytes = under_way(alloc, link)?;
    let count = count_coming(bytes.len(), link.debugger().room());
    bytes.truncate(count);
    Ok(bytes)
}

/// How many bytes come at once, where so many are under way to an end that has room for so many.
fn count_coming(under_way: usize, room: usize) -> usize
    ensures { result ≡ min piece (min under_way room) }
{
    PIECE.min(under_way.min(room))
}

/// The bytes under way to the link's debugger.
///
/// # Errors
/// `NoMemory` where an allocation was refused.
fn under_way<M: Machine + Drop>(alloc: Global, link: &Link<M>) -> Result<Vec<u8>, NoMemory>
    ensures { IfOk result (λ bytes. bytes.items ≡ way_to_debugger link.now) }
{
    let (kept, first, second) = link.under_way_to_debugger();
    let mut bytes = Vec::from_slice(alloc, kept)?;
    bytes.extend_from_slice(first)?;
    bytes.extend_from_slice(second)?;
    Ok(bytes)
}

// ---- commands

/// The follower is asked a command. What it refuses is passed over.
///
/// # Errors
/// `NoMemory` where an allocation was refused.
pub(crate) fn ask_too(
    alloc: Global,
    follower: &mut Option<Debugger>,
    command: &Command,
) -> Result<(), NoMemory>
    ensures { OnOk result (MayAskWhere command.now follower.old follower.new) }
{
    match follower {
        None => Ok(()),
        Some(debugger) => ask_copy(alloc, debugger, command),
    }
}

/// It is asked a copy of this one.
///
/// # Errors
/// Those of `ask_too`.
fn ask_copy(alloc: Global, debugger: &mut Debugger, command: &Command) -> Result<(), NoMemory>
    ensures { OnOk result (MayAsk command.now debugger.old debugger.new) }
{
    match command.copied(alloc) {
        Ok(copy) => ask_follower(alloc, debugger, copy),
        Err(NoMemory) => Err(NoMemory),
    }
}

/// It is asked this one.
///
/// # Errors
/// Those of `ask_too`.
fn ask_follower(alloc: Global, debugger: &mut Debugger, command: Command) -> Result<(), NoMemory>
    ensures { OnOk result (MayAsk command debugger.old debugger.new) }
{
    match debugger.ask(alloc, command) {
        Ok(_) => {
            silence(debugger);
            Ok(())
        }
        Err(refused) => pass_over(refused),
    }
}

/// A refusal is passed over.
///
/// # Errors
/// `NoMemory` where memory was wanting.
fn pass_over(refused: Refused) -> Result<(), NoMemory>
    ensures { OnOk result ((refusal : Option asking.Refused) → IsRefusal refused refusal
        → is_some refusal ≡ true) }
{
    match refused {
        Refused::NoMemory => Err(NoMemory),
        Refused::Closed
        | Refused::NotReady
        | Refused::Busy
        | Refused::BadCommand
        | Refused::TooLong => Ok(()),
    }
}

/// What it put is let go: the target gets it of the link's debugger.
fn silence(debugger: &mut Debugger)
    ensures { debugger.new ≡ silent debugger.old }
{
    let count = debugger.waiting();
    debugger.leave(count);
}

// ---- turns

/// The follower handles the message in front of it, where the link's debugger did. Answers the thread whose suspend count is due behind it,
/// if one is.
///
/// # Errors
/// `NoMemory` where an allocation was refused.
pub(crate) fn turn_too(
    alloc: Global,
    follower: &mut Option<Debugger>,
) -> Result<Option<ObjectId>, NoMemory>
    ensures { OnOk result (TurnsWhere follower.old follower.new) }
{
    match follower {
        None => Ok(None),
        Some(debugger) => turn_follower(alloc, debugger),
    }
}

/// It handles it.
///
/// # Errors
/// Those of `turn_too`.
fn turn_follower(alloc: Global, debugger: &mut Debugger) -> Result<Option<ObjectId>, NoMemory>
    ensures { OnOk result (TurnsToo true debugger.old debugger.new) }
{
    let turned = debugger.turn(alloc);
    silence(debugger);
    match turned {
        Ok(read) => Ok(due_count(debugger, &read)),
        Err(DebuggerFault::NoMemory) => Err(NoMemory),
        Err(_) => Ok(None),
    }
}

// ---- counts

/// The suspend count that is due is asked, if one is, of the link's debugger and of the follower.
///
/// # Errors
/// `NoMemory` where an allocation was refused.
pub(crate) fn ask_due<M: Machine + Drop>(
    alloc: Global,
    link: &mut Link<M>,
    follower: &mut Option<Debugger>,
    due: Option<ObjectId>,
) -> Result<(), NoMemory>
    ensures counts { OnOk result ((order : orders.Order)
        → Followed M.meaning order link.old follower.old
        → MayCount M.meaning order link.old link.new) }
    ensures follows { OnOk result
        (KeepsUp M.meaning link.old follower.old link.new follower.new) }
    ensures stops { OnErr result ((order : orders.Order)
        → Followed M.meaning order link.old follower.old
        → StopsCounting M.meaning order link.old link.new) }
{
    match due {
        None => Ok(()),
        Some(thread) => ask_count(alloc, link, follower, thread),
    }
}

/// The suspend count of a thread is asked of the link's debugger, and of the follower, where there is one. What the link's refuses is passed
/// over.
///
/// # Errors
/// `NoMemory` where an allocation was refused.
fn ask_count<M: Machine + Drop>(
    alloc: Global,
    link: &mut Link<M>,
    follower: &mut Option<Debugger>,
    thread: ObjectId,
) -> Result<(), NoMemory>
    ensures asks { OnOk result (AsksBothWhere M.meaning (suspend_count thread.0) link.old
        follower.old link.new follower.new) }
    ensures stops { OnErr result (MayAskAloneWhere M.meaning (suspend_count thread.0) follower.old
        link.old link.new) }
{
    match follower {
        None => Ok(()),
        Some(debugger) => ask_both(alloc, link, debugger, thread),
    }
}

/// It is asked of both.
///
/// # Errors
/// Those of `ask_count`.
fn ask_both<M: Machine + Drop>(
    alloc: Global,
    link: &mut Link<M>,
    follower: &mut Debugger,
    thread: ObjectId,
) -> Result<(), NoMemory>
    ensures asks { OnOk result (AsksBoth M.meaning (suspend_count thread.0) link.old follower.old
        link.new follower.new) }
    ensures stops { OnErr result (MayAskAlone M.meaning (suspend_count thread.0) link.old link.new) }
{
    let command = match count_command(alloc, thread) {
        Ok(command) => command,
        Err(NoMemory) => return Err(NoMemory),
    };
    let copy = match command.copied(alloc) {
        Ok(copy) => copy,
        Err(NoMemory) => return Err(NoMemory),
    };
    let told = match ask_link(link, command) {
        Ok(told) => told,
        Err(NoMemory) => return Err(NoMemory),
    };
    ask_unless_refused(alloc, follower, copy, &told)
}

/// A command is asked of the link's debugger. What is told of it.
///
/// # Errors
/// `NoMemory` where an allocation was refused, and then it was not asked.
fn ask_link<M: Machine + Drop>(
    link: &mut Link<M>,
    command: Command,
) -> Result<Vec<Outcome>, NoMemory>
    ensures asks { IfOk result (λ told.
        Ran M.meaning (events.Ask command ∷ []) link.old link.new told.items) }
    ensures stays { OnErr result (Stays M.meaning link.old link.new) }
{
    let asking = [LinkEvent::Ask(command)];
    match link.run(&asking) {
        Ok(told) => Ok(told),
        Err(_) => Err(NoMemory),
    }
}

/// The follower is asked a command where what was told of it is no refusal.
///
/// # Errors
/// `NoMemory` where an allocation was refused.
fn ask_unless_refused(
    alloc: Global,
    follower: &mut Debugger,
    command: Command,
    told: &[Outcome],
) -> Result<(), NoMemory>
    ensures { OnOk result (AsksToo (refusal_in told.now) command follower.old follower.new) }
{
    match refusal_in(told) {
        Some(_) => Ok(()),
        None => ask_follower(alloc, follower, command),
    }
}

/// SuspendCount of a thread.
///
/// # Errors
/// `NoMemory` where an allocation was refused.
fn count_command(alloc: Global, thread: ObjectId) -> Result<Command, NoMemory>
    ensures { IfOk result (λ command. command ≡ suspend_count thread.0) }
{
    match command_of_count(alloc, thread) {
        Ok(command) => Ok(command),
        Err(NoMemory) => Err(NoMemory),
    }
}
