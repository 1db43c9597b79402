//! A machine that runs a script.
ghost use Rattle.std.specs.Prelude.{◌≡◌, ◌≤◌, length, map, take, IfOk};
ghost use Rattle.jdwp_wire.specs.Limits.{standard_limits};
ghost use Rattle.jdwp_wire.specs.Widths.{AreWidths};
ghost use Rattle.jdwp_script.specs.Meanings.{widths};
ghost use Rattle.jdwp_script.specs.Reading.{Gives};
ghost use Rattle.jdwp_machine.specs.Meanings.{numbers};
ghost use Rattle.jdwp_script_machine.specs.States.{living};
ghost use Rattle.jdwp_script_machine.specs.StateMeanings.{thread_now};
ghost use Rattle.jdwp_script_machine.specs.Machines.{itself, read_machine, read_machine_as};
ghost use Rattle.jdwp_script_machine.specs.ScriptMeaning.{script_meaning};
ghost use Rattle.jdwp_script_machine.specs.ScriptLaws.{script_lawful};

use crate::answers::answer_by;
use crate::happening::next;
use crate::making::make_string_of;
use crate::opening::opening;
use crate::slots::write_slots_of;
use crate::state::{MachineState, ThreadState};
use crate::steps::{end, step};
use jdwp_event::Happening;
use jdwp_layout::Answer;
use jdwp_machine::{Machine, Profile, Query};
use jdwp_script::{Script, ScriptFault, Sizes};
use jdwp_value::{FrameId, ObjectId, Value};
use jdwp_wire::{IdSizes, Limits, NoMemory};
use std::alloc::Global;
use std::marker::Model;

/// A machine that runs a script. Its threads step one at a time, as they are asked to.
#[derive(Drop)]
pub struct ScriptMachine {
    state: MachineState,
    live: Vec<ObjectId>,
    count: usize,
    sizes: IdSizes,
}

impl Model for ScriptMachine {
    ghost use Rattle.jdwp_script_machine.specs.States.{State};
    ghost use Rattle.jdwp_script_machine.specs.StateMeanings.{state_now};
    ghost use Rattle.jdwp_script_machine.specs.Machines.{IsMachine};

    ghost Value = { State };

    ghost view = { λ m. state_now m.state };

    ghost invariant = { λ m. IsMachine (state_now m.state) m.live.items m.count m.sizes };
}

impl ScriptMachine {
    /// The machine of the script that the text is, where 64 threads may live at the beginning.
    ///
    /// # Errors
    /// As `read_with`.
    pub fn read(alloc: Global, text: &str) -> Result<ScriptMachine, ScriptFault>
        ensures value { Gives itself result (read_machine standard_limits.live text.now) }
        // A thread lives at the beginning, and no more than 64.
        ensures live { IfOk result (λ m. (1 ≤ length (script_meaning.live m))
            × (length (script_meaning.live m) ≤ standard_limits.live)) }
    {
        ScriptMachine::read_with(alloc, text, &Limits::standard())
    }

    /// The machine of the script that the text is, where as many threads may live at the beginning as `limits` has live
    /// threads.
    ///
    /// # Errors
    /// The first of these that applies: `NotJson`, `Missing` with the first member that is missing or of another type,
    /// `OverLimit`, `IdTwice`, `IdTooWide`, `BadReference`. `NoMemory` where an allocation was refused.
    pub fn read_with(
        alloc: Global,
        text: &str,
        limits: &Limits,
    ) -> Result<ScriptMachine, ScriptFault>
        ensures value { Gives itself result (read_machine limits.now.live text.now) }
        // A thread lives at the beginning, and no more than the limit.
        ensures live { IfOk result (λ m. (1 ≤ length (script_meaning.live m))
            × (length (script_meaning.live m) ≤ limits.now.live)) }
    {
        ScriptMachine::read_as(alloc, Profile::Standard, text, limits)
    }

    /// The same machine in this profile: what it answers beside what it answers in the standard one, and nothing else.
    ///
    /// # Errors
    /// As `read_with`.
    pub fn read_as(
        alloc: Global,
        profile: Profile,
        text: &str,
        limits: &Limits,
    ) -> Result<ScriptMachine, ScriptFault>
        ensures value { Gives itself result (read_machine_as profile limits.now.live text.now) }
        // A thread lives at the beginning, and no more than the limit.
        ensures live { IfOk result (λ m. (1 ≤ length (script_meaning.live m))
            × (length (script_meaning.live m) ≤ limits.now.live)) }
    {
        let script = Script::read_with(alloc, text, limits)?;
        let sizes = id_sizes(&script.sizes);
        let state = opening(alloc, profile, script)?;
        let mut live = places_of(alloc, &state.threads)?;
        let count = list_living(&state.threads, &mut live);
        Ok(ScriptMachine {
            state,
            live,
            count,
            sizes,
        })
    }
}

impl Machine for ScriptMachine {
    ghost meaning = { script_meaning };

    fn sizes(&self) -> IdSizes {
        self.sizes
    }

    fn live(&self) -> &[ObjectId] {
        &self.live[..self.count]
    }

    fn next(&self, thread: ObjectId) -> Result<Happening, NoMemory> {
        next(*self.live.allocator(), &self.state, thread)
    }

    fn step(&mut self, thread: ObjectId) -> Result<(), NoMemory> {
        step(*self.live.allocator(), &mut self.state, thread)?;
        self.count = list_living(&self.state.threads, &mut self.live);
        Ok(())
    }

    fn end(&mut self, thread: ObjectId) {
        end(&mut self.state, thread);
        self.count = list_living(&self.state.threads, &mut self.live);
    }

    fn query(&self, query: &Query) -> Result<Answer, NoMemory> {
        let alloc = *self.live.allocator();
        let content = query.content.items();
        answer_by(
            alloc,
            &self.state,
            &self.sizes,
            query.set,
            query.number,
            content,
        )
    }

    fn write_slots(
        &mut self,
        thread: ObjectId,
        frame: FrameId,
        values: &[(i32, Value)],
    ) -> Result<Answer, NoMemory> {
        let alloc = *self.live.allocator();
        Ok(write_slots_of(alloc, &mut self.state, thread, frame, values))
    }

    fn make_string(&mut self, text: &str) -> Result<Answer, NoMemory> {
        let alloc = *self.live.allocator();
        make_string_of(alloc, &mut self.state, text)
    }

    ghost lawful = { script_lawful };
}

/// The widths that a script says.
fn id_sizes(sizes: &Sizes) -> IdSizes
    requires { AreWidths sizes.now.field sizes.now.method sizes.now.object sizes.now.reference
        sizes.now.frame }
    ensures { result ≡ widths sizes.now }
{
    match IdSizes::new(
        sizes.field,
        sizes.method,
        sizes.object,
        sizes.reference,
        sizes.frame,
    ) {
        Ok(sizes) => sizes,
        Err(_) => unreachable!(),
    }
}

/// A place for each thread.
fn places_of(alloc: Global, threads: &[ThreadState]) -> Result<Vec<ObjectId>, NoMemory>
    ensures { IfOk result (λ places. length places.items ≡ length threads.now) }
{
    let mut places = Vec::new(alloc);
    for entry in threads {
        places.push(entry.id)?;
    }
    Ok(places)
}

/// Lists the threads that live at the front of the places, and tells how many they are.
fn list_living(threads: &[ThreadState], places: &mut [ObjectId]) -> usize
    requires { length places.old ≡ length threads.now }
    ensures within { result ≤ length places.new }
    ensures value { numbers (take result places.new) ≡ living (map thread_now threads.now) }
{
    let mut count = 0;
    for entry in threads {
        if entry.life.is_living() {
            places[count] = entry.id;
            count += 1;
        }
    }
    count
}
