//! The rounds of a target that goes on while its debugger waits.
ghost use Rattle.std.specs.Prelude.{◌≡◌, ◌≤◌, ℕ, [], false, true, IfErr, IfOk};
ghost use Rattle.jdwp_end.specs.Ends.{front_of, is_open};
ghost use Rattle.jdwp_partner.specs.Keeping.{IsStill, Keeps, Stands};
ghost use Rattle.jdwp_wire.specs.Streams.{More};

use crate::standing::Standing;
use jdwp_engine::step_each;
use jdwp_machine::Machine;
use jdwp_target::{Target, Turn};

/// The target goes on where its session is open and what it says is waited for; else it stands as before. How it stands then.
pub(crate) fn wait_for<M: Machine + Drop>(
    target: &mut Target<M>,
    rounds: &mut u64,
    standing: Standing,
    is_waited: bool,
) -> Standing
    requires { Stands M.meaning standing rounds.old target.old }
    ensures keeps { Keeps target.old target.new }
    ensures opened { is_open target.new.end ≡ true → is_open target.old.end ≡ true }
    ensures stands { Stands M.meaning result rounds.new target.new }
    ensures fewer { rounds.new ≤ rounds.old }
{
    if is_waited && target.is_open() {
        return go_on(target, rounds);
    }
    standing
}

/// Runs rounds of a target whose session is open until it has something to say, its session is over, or nothing more can happen, and takes them
/// off those that are left. How it stands then.
fn go_on<M: Machine + Drop>(target: &mut Target<M>, rounds: &mut u64) -> Standing
    requires { is_open target.old.end ≡ true }
    ensures keeps { Keeps target.old target.new }
    ensures stands { Stands M.meaning result rounds.new target.new }
    ensures fewer { rounds.new ≤ rounds.old }
{
    while target.waiting() == 0 && target.is_open() {
        if *rounds == 0 {
            return Standing::AllUsed;
        }
        *rounds -= 1;
        match round(target) {
            Ok(true) => {}
            Ok(false) => return Standing::Still,
            Err(standing) => return standing,
        }
    }
    Standing::Goes
}

/// One round of a target at which nothing waits to leave: a message is handled; where none is whole, the newest deferred command is answered, or
/// where nothing is deferred each live thread makes a step, by rising id. Whether something was done.
///
/// # Errors
/// `Refused` where the target refuses what came, and `NoMemory`.
fn round<M: Machine + Drop>(target: &mut Target<M>) -> Result<bool, Standing>
    requires opened { is_open target.old.end ≡ true }
    requires idle { target.old.end.outgoing ≡ [] }
    ensures keeps { Keeps target.old target.new }
    ensures still { IfOk result (λ did. did ≡ false → IsStill M.meaning target.new) }
    ensures fails { IfErr result (λ standing. (rounds : ℕ)
        → Stands M.meaning standing rounds target.new) }
{
    match target.turn() {
        Ok(Turn::Nothing) => release_or_step(target),
        Ok(_) => Ok(true),
        Err(fault) => Err(Standing::of(fault)),
    }
}

/// The newest deferred command is answered, or where nothing is deferred each live thread makes a step, by rising id. Whether something was done.
///
/// # Errors
/// `NoMemory`.
fn release_or_step<M: Machine + Drop>(target: &mut Target<M>) -> Result<bool, Standing>
    requires opened { is_open target.old.end ≡ true }
    requires idle { target.old.end.outgoing ≡ [] }
    requires asks { front_of target.old.end ≡ More }
    ensures keeps { Keeps target.old target.new }
    ensures still { IfOk result (λ did. did ≡ false → IsStill M.meaning target.new) }
    ensures fails { IfErr result (λ standing. (rounds : ℕ)
        → Stands M.meaning standing rounds target.new) }
{
    let deferred = target.deferred();
    if deferred == 0 {
        return step(target);
    }
    match target.release(deferred - 1) {
        Ok(_) => Ok(true),
        Err(fault) => Err(Standing::of(fault)),
    }
}

/// Each live thread makes a step, by rising id. Whether one did.
///
/// # Errors
/// `NoMemory`.
fn step<M: Machine + Drop>(target: &mut Target<M>) -> Result<bool, Standing>
    requires opened { is_open target.old.end ≡ true }
    requires idle { target.old.end.outgoing ≡ [] }
    requires asks { front_of target.old.end ≡ More }
    requires none { target.old.deferred ≡ [] }
    ensures keeps { Keeps target.old target.new }
    ensures still { IfOk result (λ did. did ≡ false → IsStill M.meaning target.new) }
    ensures fails { IfErr result (λ standing. (rounds : ℕ)
        → Stands M.meaning standing rounds target.new) }
{
    match step_each(target) {
        Ok(stepped) => Ok(stepped),
        Err(fault) => Err(Standing::of(fault)),
    }
}
