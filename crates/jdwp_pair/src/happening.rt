//! One event at a time.
ghost use Rattle.std.specs.Prelude.{◌≡◌, ◌∷◌, [], IfErr, IfOk, OnOk, is_some};
ghost use Rattle.jdwp_model.specs.Events as events;
ghost use Rattle.jdwp_link.specs.Clauses.{Ran};
ghost use Rattle.jdwp_link.specs.Told.{event_meaning};
ghost use Rattle.jdwp_pair.specs.Connections.{disconnects};
ghost use Rattle.jdwp_pair.specs.Events.{Happens, IsQuiet, Quietly};
ghost use Rattle.jdwp_pair.specs.Followers.{KeepsUp};
ghost use Rattle.jdwp_pair.specs.Rounds.{EndsAt, EndsQuietly};

use crate::connection::Connection;
use crate::ended::PairEnded;
use crate::following::attach_where;
use crate::standing::{is_debugger_open, may_begin};
use jdwp_debugger::Debugger;
use jdwp_link::{Link, LinkEvent, Outcome};
use jdwp_machine::Machine;

/// Does this event, and answers what is told of it.
///
/// # Errors
/// `LostConnection` where the connection failed; `NoMemory` where an allocation was refused, and then it did not happen.
pub(crate) fn happen<M: Machine + Drop, C: Connection>(
    link: &mut Link<M>,
    connection: &mut C,
    event: LinkEvent,
) -> Result<Vec<Outcome>, PairEnded>
    ensures ok { IfOk result (λ told.
        Ran M.meaning (event_meaning event ∷ []) link.old link.new told.items) }
    ensures ends { IfErr result (λ ended.
        EndsAt M.meaning (event_meaning event) ended link.old link.new) }
    ensures failed { is_some (C.failed_by connection.new) ≡ disconnects result }
{
    let events = [event];
    let ran = link.run_over(connection, &events);
    if connection.failure().is_some() {
        return Err(PairEnded::LostConnection);
    }
    match ran {
        Ok(outcomes) => Ok(outcomes),
        Err(_) => Err(PairEnded::NoMemory),
    }
}

/// The same of an event of which nothing is told.
///
/// # Errors
/// Those of `happen`.
pub(crate) fn act<M: Machine + Drop, C: Connection>(
    link: &mut Link<M>,
    connection: &mut C,
    event: LinkEvent,
) -> Result<(), PairEnded>
    requires { IsQuiet (event_meaning event) }
    ensures acts { OnOk result (Quietly M.meaning (event_meaning event) link.old link.new) }
    ensures ends { IfErr result (λ ended. EndsQuietly M.meaning ended link.old link.new) }
    ensures failed { is_some (C.failed_by connection.new) ≡ disconnects result }
{
    link.session();
    let _told = match happen(link, connection, event) {
        Ok(told) => told,
        Err(ended) => return Err(ended),
    };
    Ok(())
}

/// From now on the target defers the replies that may come later, or it defers none.
pub(crate) fn set_deferring<M: Machine + Drop>(link: &mut Link<M>, deferring: bool)
    ensures { Happens M.meaning (events.Defer deferring) link.old link.new }
{
    let events = [LinkEvent::Defer(deferring)];
    match link.run(&events) {
        Ok(_) => {}
        Err(_) => unreachable!(),
    }
}

/// A session begins, where it may: on a new connection. Where it began, one begins at the follower.
///
/// # Errors
/// `LostConnection` where the connection failed.
pub(crate) fn attach<M: Machine + Drop, C: Connection>(
    link: &mut Link<M>,
    connection: &mut C,
    follower: &mut Option<Debugger>,
) -> Result<(), PairEnded>
    ensures attaches { Happens M.meaning events.Attach link.old link.new }
    ensures ends { IfErr result (λ ended. ended ≡ PairEnded.LostConnection) }
    ensures follows { KeepsUp M.meaning link.old follower.old link.new follower.new }
    ensures failed { is_some (C.failed_by connection.new) ≡ disconnects result }
{
    let before = is_debugger_open(link);
    let begun = begin(link, connection);
    let behind = is_debugger_open(link);
    attach_where(before, behind, follower);
    begun
}

/// It begins.
///
/// # Errors
/// Those of `attach`.
fn begin<M: Machine + Drop, C: Connection>(
    link: &mut Link<M>,
    connection: &mut C,
) -> Result<(), PairEnded>
    ensures attaches { Happens M.meaning events.Attach link.old link.new }
    ensures ends { IfErr result (λ ended. ended ≡ PairEnded.LostConnection) }
    ensures failed { is_some (C.failed_by connection.new) ≡ disconnects result }
{
    let begins = may_begin(link);
    let events = [LinkEvent::Attach];
    match link.run_over(connection, &events) {
        Ok(_) => {}
        Err(_) => unreachable!(),
    }
    if begins {
        connection.attach();
    }
    match connection.failure() {
        Some(_) => Err(PairEnded::LostConnection),
        None => Ok(()),
    }
}
