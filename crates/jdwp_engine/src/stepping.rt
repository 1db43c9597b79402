//! The steps of a round.
ghost use Rattle.std.specs.Prelude.{◌≡◌, ◌||◌, Bool, None, Ok, Err, true, IfOk, IfErr, OnErr, OnOk};
ghost use Rattle.jdwp_end.specs.Ends.{is_open};
ghost use Rattle.jdwp_target.specs.declared.target.Stepped as declared;
ghost use Rattle.jdwp_target.specs.Targets as spec;
ghost use Rattle.jdwp_target.specs.ReadsBack.{StepReadsBack};
ghost use Rattle.jdwp_target.specs.Turns.{StepsAt};
ghost use Rattle.jdwp_engine.specs.Outcome.{MayStep};
ghost use Rattle.jdwp_engine.specs.Rounds.{IsAhead, StepsEach, id_in, is_step};
ghost use Rattle.jdwp_engine.specs.Steps.{StepsIf};

use crate::walk::ThreadWalk;
use jdwp_machine::Machine;
use jdwp_target::{Stepped, Target, TargetFault};
use jdwp_value::ObjectId;

/// One step of each live thread, by rising id, and whether one of them stepped. Threads that a step starts are among them where their
/// ids are higher. Where no thread may step, none is looked at.
///
/// # Errors
/// `NoMemory` where a step wanted memory; those of lower ids were made.
pub fn step_each<M: Machine + Drop>(target: &mut Target<M>) -> Result<bool, TargetFault>
    requires { is_open target.old.end ≡ true }
    ensures stepped { IfOk result (StepsIf target.old target.new) }
    ensures each { StepsEach M.meaning None target.old result target.new }
    ensures memory { OnErr result (((stepped : Bool) × StepsIf target.old target.new stepped)
        × (is_open target.new.end ≡ true) × MayStep target.new) }
{
    if target.is_still() {
        return Ok(false);
    }
    let mut has_stepped = false;
    let mut walk = ThreadWalk::begin(target.live());
    while let Some(thread) = walk.next(target.live()) {
        match step_one(target, thread, has_stepped, &mut walk) {
            Ok(now) => has_stepped = now,
            Err(fault) => return Err(fault),
        }
    }
    Ok(has_stepped)
}

/// One step of this thread, after others or none, and whether one of them stepped. Where it was made, the walk goes on over the threads that
/// live now.
fn step_one<M: Machine + Drop>(
    target: &mut Target<M>,
    thread: ObjectId,
    has_stepped: bool,
    walk: &mut ThreadWalk,
) -> Result<bool, TargetFault>
    ensures goes { IfOk result (λ now. (first : spec.Target M) → is_open first.end ≡ true
        → StepsIf first target.old has_stepped → StepsIf first target.new now) }
    ensures steps { IfOk result (λ now. (stepped : declared.Stepped)
        × StepsAt M.meaning thread.0 target.old (Ok stepped) target.new
        × StepReadsBack M.meaning thread.0 target.old
        × (now ≡ (has_stepped || is_step stepped))) }
    ensures wants { IfErr result (λ fault. StepsAt M.meaning thread.0 target.old
        (Err fault) target.new) }
    ensures memory { OnErr result (MayStep target.old × (target.new ≡ target.old)) }
    ensures last { walk.new.last ≡ walk.old.last }
    ensures ahead { OnOk result (IsAhead (M.meaning.live target.old.moment.machine)
        (id_in walk.old.last) walk.old.place → IsAhead (M.meaning.live target.new.moment.machine)
        (id_in walk.new.last) walk.new.place) }
{
    jdwp_target::laws::closes_for_a_reason::<M>();
    let stepped = match target.step(thread) {
        Ok(stepped) => stepped,
        Err(fault) => return Err(fault),
    };
    match stepped {
        Stepped::Frozen => Ok(has_stepped),
        _ => {
            walk.renew(target.live());
            Ok(true)
        }
    }
}
