//! The state in which a script begins.
ghost use Rattle.std.specs.Prelude.{◌≡◌, ℕ, map, IfOk, OnOk};
ghost use Rattle.std.specs.List.{list_any};
ghost use Rattle.jdwp_script.specs.Meanings.{step_part, script_part};
ghost use Rattle.jdwp_script_machine.specs.States.{some_step, starts_thread, prepares_class, opening_thread, opening_class, opening_of, opening_as};
ghost use Rattle.jdwp_script_machine.specs.Layers.{Holds, Gains};
ghost use Rattle.jdwp_script_machine.specs.StateMeanings.{thread_now, class_now, state_now};
ghost use Rattle.jdwp_script_machine.specs.Sought.{names, is_that, thread_at_opening, class_at_opening};

use crate::arranging::arrange;
use crate::state::{ClassState, Life, MachineState, ThreadState};
use jdwp_machine::Profile;
use jdwp_script::{Script, Step};
use jdwp_value::{ObjectId, ReferenceTypeId};
use jdwp_wire::NoMemory;
use std::alloc::Global;
use std::collections::BTreeSet;

/// What is looked for in the steps of a script.
#[derive(Clone, Copy)]
pub(crate) enum Sought {
    /// The threads that are started.
    Starts,
    /// The classes that are prepared.
    Prepares,
}

/// The state in which the script begins, in this profile. A thread that a step starts waits for it, and a class that a step prepares is
/// unprepared until then.
///
/// # Errors
/// `NoMemory` where an allocation was refused.
pub(crate) fn opening(
    alloc: Global,
    profile: Profile,
    mut script: Script,
) -> Result<MachineState, NoMemory>
    ensures { IfOk result (λ s. state_now s ≡ opening_as profile (script_part script)) }
{
    arrange(&mut script);
    state_of(alloc, profile, script)
}

/// The state in which the script begins, whose lists stand by rising id.
fn state_of(alloc: Global, profile: Profile, script: Script) -> Result<MachineState, NoMemory>
    ensures { IfOk result (λ s.
        state_now s ≡ record (opening_of (script_part script)) { profile = profile }) }
{
    let threads = opening_threads(alloc, &script)?;
    let classes = opening_classes(alloc, &script)?;
    Ok(MachineState {
        script,
        threads,
        classes,
        made: Vec::new(alloc),
        profile,
    })
}

/// The threads of the script, as they begin.
fn opening_threads(alloc: Global, script: &Script) -> Result<Vec<ThreadState>, NoMemory>
    ensures { IfOk result (λ es. map thread_now es.items
        ≡ map (opening_thread (script_part script.now)) (script_part script.now).threads) }
{
    let started = named_in(alloc, script, Sought::Starts)?;
    threads_of(alloc, script, &started)
}

/// The classes of the script, as they begin.
fn opening_classes(alloc: Global, script: &Script) -> Result<Vec<ClassState>, NoMemory>
    ensures { IfOk result (λ cs. map class_now cs.items
        ≡ map (opening_class (script_part script.now)) (script_part script.now).classes) }
{
    let prepared = named_in(alloc, script, Sought::Prepares)?;
    classes_of(alloc, script, &prepared)
}

fn threads_of(
    alloc: Global,
    script: &Script,
    started: &BTreeSet<u64>,
) -> Result<Vec<ThreadState>, NoMemory>
    requires { Holds started.now (λ t. some_step (starts_thread t) (script_part script.now)) }
    ensures { IfOk result (λ es. map thread_now es.items
        ≡ map (opening_thread (script_part script.now)) (script_part script.now).threads) }
{
    let mut threads = Vec::new(alloc);
    for thread in &script.threads {
        let is_started = started.contains(&thread.id.0);
        threads.push(opening_thread(alloc, thread.id, is_started))?;
    }
    Ok(threads)
}

fn opening_thread(alloc: Global, id: ObjectId, is_started: bool) -> ThreadState
    ensures { thread_now result ≡ thread_at_opening id.0 is_started }
{
    ThreadState {
        id,
        life: if is_started { Life::Waits } else { Life::Lives },
        place: 0,
        frames: Vec::new(alloc),
    }
}

fn classes_of(
    alloc: Global,
    script: &Script,
    prepared: &BTreeSet<u64>,
) -> Result<Vec<ClassState>, NoMemory>
    requires { Holds prepared.now (λ c. some_step (prepares_class c) (script_part script.now)) }
    ensures { IfOk result (λ cs. map class_now cs.items
        ≡ map (opening_class (script_part script.now)) (script_part script.now).classes) }
{
    let mut classes = Vec::new(alloc);
    for class in &script.classes {
        let is_prepared_later = prepared.contains(&class.id.0);
        classes.push(opening_class(class.id, is_prepared_later))?;
    }
    Ok(classes)
}

fn opening_class(id: ReferenceTypeId, is_prepared_later: bool) -> ClassState
    ensures { class_now result ≡ class_at_opening id.0 is_prepared_later }
{
    ClassState {
        id,
        is_prepared: !is_prepared_later,
    }
}

/// The ids that steps of the script name so.
fn named_in(alloc: Global, script: &Script, sought: Sought) -> Result<BTreeSet<u64>, NoMemory>
    ensures { IfOk result (λ found. Holds found (λ n.
        some_step (names sought n) (script_part script.now))) }
{
    let mut found = BTreeSet::new(alloc);
    for thread in &script.threads {
        add_named(&mut found, &thread.steps, sought)?;
    }
    Ok(found)
}

/// Adds the ids that the steps name so.
fn add_named(found: &mut BTreeSet<u64>, steps: &[Step], sought: Sought) -> Result<(), NoMemory>
    ensures { OnOk result (Gains found.old found.new (λ n.
        list_any (names sought n) (map step_part steps.now))) }
{
    for step in steps {
        add(found, named_by(step, sought))?;
    }
    Ok(())
}

fn add(found: &mut BTreeSet<u64>, id: Option<u64>) -> Result<(), NoMemory>
    ensures { OnOk result (Gains found.old found.new (λ n. is_that n id)) }
{
    match id {
        None => Ok(()),
        Some(id) => {
            found.insert(id)?;
            Ok(())
        }
    }
}

/// The id that a step names so.
fn named_by(step: &Step, sought: Sought) -> Option<u64>
    ensures { (n : ℕ) → names sought n (step_part step.now) ≡ is_that n result }
{
    match (sought, step) {
        (Sought::Starts, Step::Start(thread)) => Some(thread.0),
        (Sought::Prepares, Step::Prepare(class)) => Some(class.0),
        _ => None,
    }
}
