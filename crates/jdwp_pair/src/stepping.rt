//! Releases of deferred commands, and steps of threads.
ghost use Rattle.std.specs.Prelude.{◌≡◌, None, false, IfErr, IfOk, OnOk, is_some};
ghost use Rattle.jdwp_engine.specs.Rounds.{IsAhead, id_in};
ghost use Rattle.jdwp_model.specs.Events as events;
ghost use Rattle.jdwp_pair.specs.Connections.{disconnects};
ghost use Rattle.jdwp_pair.specs.Events.{Quietly};
ghost use Rattle.jdwp_pair.specs.Rounds.{EndsQuietly, ReleasesOrSteps, StepsEach};

use crate::connection::Connection;
use crate::ended::PairEnded;
use crate::happening::act;
use jdwp_engine::ThreadWalk;
use jdwp_link::{Link, LinkEvent};
use jdwp_machine::Machine;
use jdwp_value::ObjectId;

/// The newest of the commands that the target defers is released; where it defers none, each live thread makes a step. Whether something was
/// done.
///
/// # Errors
/// `NoMemory` where the release or a step wanted memory, and `LostConnection`.
pub(crate) fn release_or_step<M: Machine + Drop, C: Connection>(
    link: &mut Link<M>,
    connection: &mut C,
) -> Result<bool, PairEnded>
    requires { is_some (C.failed_by connection.old) ≡ false }
    ensures moves { IfOk result (λ did. ReleasesOrSteps M.meaning link.old.target.deferred link.old
        did link.new) }
    ensures ends { IfErr result (λ ended. EndsQuietly M.meaning ended link.old link.new) }
    ensures failed { is_some (C.failed_by connection.new) ≡ disconnects result }
{
    let deferred = link.target().deferred();
    if deferred == 0 {
        return step_each(link, connection);
    }
    match act(link, connection, LinkEvent::Release(deferred - 1)) {
        Ok(()) => Ok(link.did()),
        Err(ended) => Err(ended),
    }
}

/// One step of each live thread, by rising id, and whether one of them stepped. Threads that a step starts are among them where their
/// ids are higher.
///
/// # Errors
/// `NoMemory` where a step wanted memory, and `LostConnection`; those of lower ids were made.
fn step_each<M: Machine + Drop, C: Connection>(
    link: &mut Link<M>,
    connection: &mut C,
) -> Result<bool, PairEnded>
    requires { is_some (C.failed_by connection.old) ≡ false }
    ensures each { IfOk result (λ did. StepsEach M.meaning None link.old did link.new) }
    ensures ends { IfErr result (λ ended. EndsQuietly M.meaning ended link.old link.new) }
    ensures failed { is_some (C.failed_by connection.new) ≡ disconnects result }
{
    let mut has_stepped = false;
    let mut walk = ThreadWalk::begin(link.target().live());
    while let Some(thread) = walk.next(link.target().live()) {
        match step_one(link, connection, thread, &mut walk) {
            Ok(()) => has_stepped = has_stepped || link.did(),
            Err(ended) => return Err(ended),
        }
    }
    Ok(has_stepped)
}

/// One step of this thread. Where it was made, the walk goes on over the threads that live now.
///
/// # Errors
/// `NoMemory` where the step wanted memory, and `LostConnection`.
fn step_one<M: Machine + Drop, C: Connection>(
    link: &mut Link<M>,
    connection: &mut C,
    thread: ObjectId,
    walk: &mut ThreadWalk,
) -> Result<(), PairEnded>
    ensures acts { OnOk result (Quietly M.meaning (events.Step thread.0) link.old link.new) }
    ensures last { walk.new.last ≡ walk.old.last }
    ensures ahead { OnOk result
        (IsAhead (M.meaning.live link.old.target.moment.machine) (id_in walk.old.last) walk.old.place
        → IsAhead (M.meaning.live link.new.target.moment.machine) (id_in walk.new.last)
        walk.new.place) }
    ensures ends { IfErr result (λ ended. EndsQuietly M.meaning ended link.old link.new) }
    ensures failed { is_some (C.failed_by connection.new) ≡ disconnects result }
{
    link.session();
    match act(link, connection, LinkEvent::Step(thread)) {
        Ok(()) => {}
        Err(ended) => return Err(ended),
    }
    if !link.did() {
        return Ok(());
    }
    walk.renew(link.target().live());
    Ok(())
}
