//! Calls on a target over the machine of a script.
ghost use Rattle.std.specs.Prelude.{◌≡◌, ◌++◌, ◌↔◌, ◌==◌, IfOk, IfErr, IsTrue, IsFalse, None, Some, Ok, Err, drop, false, is_some, length, min, option_map, slice_get, take, true, unwrap_or};
ghost use Rattle.jdwp_debuggee.specs.State as spec;
ghost use Rattle.jdwp_end.specs.Ends.{is_open, room_of};
ghost use Rattle.jdwp_machine.specs.Meanings.{numbers};
ghost use Rattle.jdwp_script_machine.specs.ScriptMeaning.{script_meaning};
ghost use Rattle.jdwp_target.specs.Options.{LivesWithin, settings_at};
ghost use Rattle.jdwp_target.specs.Targets.{lost_target, new_target, with_fed, with_taken};
ghost use Rattle.jdwp_wire.specs.Limits.{standard_limits};
ghost use Rattle.milunovesk_c.specs.KeptIn.{AtTarget, KeepsNoTarget, KeepsTarget};
ghost use Rattle.milunovesk_c.specs.Numbers.{DONE};
ghost use Rattle.milunovesk_c.specs.Targets.{HasHandled, HasStepped, IsTargetMade, IsUnmade, MakesTarget, opened_where, step_number};
ghost use Rattle.milunovesk_c.specs.declared.kept.Kept.TheVariants as kept;

use crate::handle::Handle;
use crate::handled::Handled;
use crate::judged::Judged;
use crate::kept::Kept;
use crate::{DONE, EMPTY, FAULT, LIVE, NO_MEMORY, NOT_UTF8, OTHER_KIND, REFUSED};
use jdwp_script::ScriptFault;
use jdwp_script_machine::ScriptMachine;
use jdwp_target::{Stepped, Target, TargetFault, TargetOptions};
use jdwp_value::ObjectId;
use jdwp_wire::NoMemory;
use std::alloc::Global;

/// Keeps a target over the machine of a script at a handle that keeps nothing. `LIVE` where something is kept; `NOT_UTF8` where the bytes are no
/// text; `REFUSED` where `count_limit` is outside 1 to 2,147,483,647; `FAULT` with the number of the script's first fault, 21 to 26; `NO_MEMORY`
/// where an allocation was refused: then nothing changes.
#[unsafe(no_mangle)]
pub extern "C" fn mv_target_new(
    alloc: Global,
    handle: &mut Handle,
    json: &[u8],
    start_all: bool,
    count_limit: u32,
    script: &mut Judged,
) -> u32
    ensures { IsTargetMade handle.old.value json.now start_all count_limit
        result script.new handle.new.value }
{
    *script = Judged::nothing();
    match handle.take_out(alloc) {
        Some(kept) => {
            handle.put(kept);
            LIVE
        }
        None => match made(alloc, json, start_all, count_limit) {
            Ok(kept) => {
                *script = Judged::sound();
                handle.put(kept);
                DONE
            }
            Err(Unmade::NoMemory) => NO_MEMORY,
            Err(Unmade::NotUtf8) => NOT_UTF8,
            Err(Unmade::BadLimit) => REFUSED,
            Err(Unmade::Script(fault)) => {
                script.fault = fault.number();
                FAULT
            }
        },
    }
}

/// Why no target is made.
#[derive(Clone, Copy)]
pub(crate) enum Unmade {
    /// The bytes of the script are not UTF-8.
    NotUtf8,
    /// The limit of suspend counts is outside 1 to 2,147,483,647.
    BadLimit,
    /// The first fault of the script.
    Script(ScriptFault),
    /// An allocation was refused.
    NoMemory,
}

fn made(alloc: Global, json: &[u8], start_all: bool, count_limit: u32) -> Result<Box<Kept>, Unmade>
    ensures ok { IfOk result (λ b. MakesTarget json.now start_all count_limit b.value) }
    ensures err { IfErr result (λ e. IsUnmade json.now count_limit e) }
{
    let Ok(text) = std::str::from_utf8(json) else {
        return Err(Unmade::NotUtf8);
    };
    let Some(options) = TargetOptions::new(start_all, count_limit) else {
        return Err(Unmade::BadLimit);
    };
    let machine = match ScriptMachine::read(alloc, text) {
        Ok(machine) => machine,
        Err(ScriptFault::NoMemory) => return Err(Unmade::NoMemory),
        Err(fault) => return Err(Unmade::Script(fault)),
    };
    match boxed(alloc, machine, options) {
        Ok(kept) => Ok(kept),
        Err(_) => Err(Unmade::NoMemory),
    }
}

/// A target over this machine, on the heap. It is a function of its own: where `made` owns a target, each part of it is proved to be let go at
/// each of its ends.
fn boxed(
    alloc: Global,
    machine: ScriptMachine,
    options: TargetOptions,
) -> Result<Box<Kept>, NoMemory>
    requires { LivesWithin script_meaning standard_limits machine }
    ensures { IfOk result (λ b. b.value ≡ kept.Target (new_target (settings_at standard_limits options)
        (record { state = spec.new_state (script_meaning.live machine); machine = machine }))) }
{
    let target = Target::new(alloc, machine, options)?;
    Ok(Box::new(alloc, Kept::Target(target))?)
}

/// Begins a session; `opened` says whether it did: not where one is open, or the machine is dead.
#[unsafe(no_mangle)]
pub extern "C" fn mv_target_accept(alloc: Global, handle: &mut Handle, opened: &mut bool) -> u32
    ensures accepted { AtTarget handle.old.value result handle.new.value (λ t. (result ≡ DONE)
        × (IsTrue opened.new ↔ ((is_open t.end ≡ false) × (t.moment.state.alive ≡ true)))
        × (handle.new.value ≡ Some (kept.Target (opened_where opened.new t)))) }
    ensures untouched { IsFalse (result == DONE) → opened.new ≡ false }
{
    *opened = false;
    match handle.take_out(alloc) {
        None => EMPTY,
        Some(kept) => {
            let mut kept = kept;
            let code = match &mut *kept {
                Kept::Target(target) => {
                    *opened = target.accept();
                    DONE
                }
                Kept::Debugger(_) => OTHER_KIND,
            };
            handle.put(kept);
            code
        }
    }
}

/// Takes as many of the bytes as fit, and says how many.
#[unsafe(no_mangle)]
pub extern "C" fn mv_target_feed(
    alloc: Global,
    handle: &mut Handle,
    bytes: &[u8],
    count: &mut usize,
) -> u32
    ensures fed { AtTarget handle.old.value result handle.new.value (λ t. (result ≡ DONE)
        × (count.new ≡ min (length bytes.now) (room_of t.end))
        × (handle.new.value ≡ Some (kept.Target (with_fed (take count.new bytes.now) t)))) }
    ensures untouched { IsFalse (result == DONE) → count.new ≡ 0 }
{
    *count = 0;
    match handle.take_out(alloc) {
        None => EMPTY,
        Some(kept) => {
            let mut kept = kept;
            let code = match &mut *kept {
                Kept::Target(target) => {
                    *count = target.feed(bytes);
                    DONE
                }
                Kept::Debugger(_) => OTHER_KIND,
            };
            handle.put(kept);
            code
        }
    }
}

/// Moves as many of the bytes that wait to leave to the front of `out` as fit, and says how many.
#[unsafe(no_mangle)]
pub extern "C" fn mv_target_take(
    alloc: Global,
    handle: &mut Handle,
    out: &mut [u8],
    count: &mut usize,
) -> u32
    ensures taken { AtTarget handle.old.value result handle.new.value (λ t. (result ≡ DONE)
        × (count.new ≡ min (length out.old) (length t.end.outgoing))
        × (out.new ≡ take count.new t.end.outgoing ++ drop count.new out.old)
        × (handle.new.value
        ≡ Some (kept.Target (with_taken (take count.new t.end.outgoing) t)))) }
    ensures untouched { IsFalse (result == DONE) → (count.new ≡ 0) × (out.new ≡ out.old) }
{
    *count = 0;
    match handle.take_out(alloc) {
        None => EMPTY,
        Some(kept) => {
            let mut kept = kept;
            let code = match &mut *kept {
                Kept::Target(target) => {
                    *count = target.take(out);
                    DONE
                }
                Kept::Debugger(_) => OTHER_KIND,
            };
            handle.put(kept);
            code
        }
    }
}

/// Says how many bytes `mv_target_feed` would take, how many wait to leave, and whether a session is open.
#[unsafe(no_mangle)]
pub extern "C" fn mv_target_waiting(
    alloc: Global,
    handle: &mut Handle,
    room: &mut usize,
    waiting: &mut usize,
    opened: &mut bool,
) -> u32
    ensures told { AtTarget handle.old.value result handle.new.value (λ t. (result ≡ DONE)
        × (room.new ≡ room_of t.end) × (waiting.new ≡ length t.end.outgoing)
        × (opened.new ≡ is_open t.end) × (handle.new.value ≡ Some (kept.Target t))) }
    ensures untouched { IsFalse (result == DONE)
        → (room.new ≡ 0) × (waiting.new ≡ 0) × (opened.new ≡ false) }
{
    *room = 0;
    *waiting = 0;
    *opened = false;
    match handle.take_out(alloc) {
        None => EMPTY,
        Some(kept) => {
            let code = match &*kept {
                Kept::Target(target) => {
                    *room = target.room();
                    *waiting = target.waiting();
                    *opened = target.is_open();
                    DONE
                }
                Kept::Debugger(_) => OTHER_KIND,
            };
            handle.put(kept);
            code
        }
    }
}

/// Handles the message in front, and says what it did. `FAULT` where the bytes in front begin no message, and the target is as after
/// `mv_target_lose`; `NO_MEMORY` where an allocation was refused, and nothing changes.
#[unsafe(no_mangle)]
pub extern "C" fn mv_target_turn(alloc: Global, handle: &mut Handle, out: &mut Handled) -> u32
    ensures turned { AtTarget handle.old.value result handle.new.value
        (λ t. KeepsTarget handle.new.value (HasHandled t result out.new)) }
    ensures untouched { KeepsNoTarget handle.old.value → out.new ≡ out.old }
{
    match handle.take_out(alloc) {
        None => EMPTY,
        Some(kept) => {
            let mut kept = kept;
            let code = match &mut *kept {
                Kept::Target(target) => turn(target, out),
                Kept::Debugger(_) => OTHER_KIND,
            };
            handle.put(kept);
            code
        }
    }
}

fn turn(target: &mut Target<ScriptMachine>, out: &mut Handled) -> u32
    ensures { HasHandled target.old result out.new target.new }
{
    match target.turn() {
        Ok(turn) => {
            *out = Handled::of(turn);
            DONE
        }
        Err(TargetFault::Frame(fault)) => {
            *out = Handled::of_fault(fault.number());
            FAULT
        }
        Err(TargetFault::NoMemory) => {
            *out = Handled::of_fault(0);
            NO_MEMORY
        }
    }
}

/// Lets a thread of the machine make a step, and says what it did: 0 nothing, 1 nothing that is reported, 2 what is reported, 3 it ended.
/// `NO_MEMORY` where an allocation was refused, and nothing changes.
#[unsafe(no_mangle)]
pub extern "C" fn mv_target_step(
    alloc: Global,
    handle: &mut Handle,
    thread: u64,
    stepped: &mut u8,
) -> u32
    ensures stepped { AtTarget handle.old.value result handle.new.value
        (λ t. KeepsTarget handle.new.value (HasStepped thread t result stepped.new)) }
    ensures untouched { IsFalse (result == DONE) → stepped.new ≡ 0 }
{
    *stepped = 0;
    match handle.take_out(alloc) {
        None => EMPTY,
        Some(kept) => {
            let mut kept = kept;
            let code = match &mut *kept {
                Kept::Target(target) => step(target, thread, stepped),
                Kept::Debugger(_) => OTHER_KIND,
            };
            handle.put(kept);
            code
        }
    }
}

fn step(target: &mut Target<ScriptMachine>, thread: u64, stepped: &mut u8) -> u32
    ensures { HasStepped thread target.old result stepped.new target.new }
{
    match target.step(ObjectId(thread)) {
        Ok(done) => {
            *stepped = number(done);
            DONE
        }
        Err(_) => {
            *stepped = 0;
            NO_MEMORY
        }
    }
}

fn number(stepped: Stepped) -> u8
    ensures { result ≡ step_number stepped }
{
    match stepped {
        Stepped::Frozen => 0,
        Stepped::Quiet => 1,
        Stepped::Reported => 2,
        Stepped::Ended => 3,
    }
}

/// Says the thread at this place among those that live, in the machine's order.
#[unsafe(no_mangle)]
pub extern "C" fn mv_target_live(
    alloc: Global,
    handle: &mut Handle,
    place: usize,
    lives: &mut bool,
    thread: &mut u64,
) -> u32
    ensures told { AtTarget handle.old.value result handle.new.value (λ t. (result ≡ DONE)
        × (lives.new ≡ is_some (slice_get (script_meaning.live t.moment.machine) place))
        × (thread.new ≡ unwrap_or (slice_get (script_meaning.live t.moment.machine) place) 0)
        × (handle.new.value ≡ Some (kept.Target t))) }
    ensures untouched { IsFalse (result == DONE) → (lives.new ≡ false) × (thread.new ≡ 0) }
{
    *lives = false;
    *thread = 0;
    match handle.take_out(alloc) {
        None => EMPTY,
        Some(kept) => {
            let code = match &*kept {
                Kept::Target(target) => {
                    if let Some(found) = target.live().get(place) {
                        *lives = true;
                        *thread = found.0;
                    }
                    DONE
                }
                Kept::Debugger(_) => OTHER_KIND,
            };
            handle.put(kept);
            code
        }
    }
}

/// Says whether a thread lives, and its suspend count.
#[unsafe(no_mangle)]
pub extern "C" fn mv_target_thread(
    alloc: Global,
    handle: &mut Handle,
    thread: u64,
    lives: &mut bool,
    count: &mut u32,
) -> u32
    ensures told { AtTarget handle.old.value result handle.new.value (λ t. (result ≡ DONE)
        × (lives.new ≡ is_some (spec.count_of t.moment.state thread))
        × (count.new ≡ unwrap_or (spec.count_of t.moment.state thread) 0)
        × (handle.new.value ≡ Some (kept.Target t))) }
    ensures untouched { IsFalse (result == DONE) → (lives.new ≡ false) × (count.new ≡ 0) }
{
    *lives = false;
    *count = 0;
    match handle.take_out(alloc) {
        None => EMPTY,
        Some(kept) => {
            let code = match &*kept {
                Kept::Target(target) => {
                    let found = target.count(ObjectId(thread));
                    *lives = found.is_some();
                    *count = found.unwrap_or(0);
                    DONE
                }
                Kept::Debugger(_) => OTHER_KIND,
            };
            handle.put(kept);
            code
        }
    }
}

/// The connection is lost: the session is closed, every suspend count is 0, and there are no event requests.
#[unsafe(no_mangle)]
pub extern "C" fn mv_target_lose(alloc: Global, handle: &mut Handle) -> u32
    ensures { AtTarget handle.old.value result handle.new.value (λ t. (result ≡ DONE)
        × (handle.new.value ≡ Some (kept.Target (lost_target t)))) }
{
    match handle.take_out(alloc) {
        None => EMPTY,
        Some(kept) => {
            let mut kept = kept;
            let code = match &mut *kept {
                Kept::Target(target) => {
                    target.lose();
                    DONE
                }
                Kept::Debugger(_) => OTHER_KIND,
            };
            handle.put(kept);
            code
        }
    }
}
