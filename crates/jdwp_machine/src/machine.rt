//! The machine that a target runs.
ghost use Rattle.std.specs.Prelude.{◌≡◌, true, false, IfOk, IfErr, IsTrue, OnOk, OnErr};
ghost use Rattle.jdwp_event.specs.Occurrences.{runs_out};
ghost use Rattle.jdwp_machine.specs.Meanings.{Meaning, has, numbers};
ghost use Rattle.jdwp_machine.specs.Laws.{IsLawful, takes_memory};

use crate::query::Query;
use jdwp_event::Happening;
use jdwp_layout::Answer;
use jdwp_value::{FrameId, ObjectId, Value};
use jdwp_wire::{IdSizes, NoMemory};

/// A machine with threads, whose steps happen one at a time, as a target asks for them.
///
/// It knows classes, methods, frames, slots and objects. Whether a thread is suspended is not its to say.
pub trait Machine {
    /// What it means.
    ghost meaning: { Meaning Self };

    /// The widths of its ids, which never change.
    fn sizes(&self) -> IdSizes
        ensures { result ≡ meaning.sizes self.now };

    /// The threads that live, in the machine's order.
    fn live(&self) -> &[ObjectId]
        ensures live { numbers result.now ≡ meaning.live self.now }
        ensures state { meaning.is_state self.now };

    /// What the next step of a live thread makes happen; RanOut where it has run out.
    ///
    /// # Errors
    /// `NoMemory` where an allocation was refused.
    fn next(&self, thread: ObjectId) -> Result<Happening, NoMemory>
        requires { has (meaning.live self.now) thread.0 ≡ true }
        ensures { IfOk result (λ happening. happening ≡ meaning.next self.now thread.0) };

    /// One step of a live thread that has not run out: `next` tells it, and `has_run_out` tests what it tells.
    ///
    /// # Errors
    /// `NoMemory` where an allocation was refused; then nothing has changed.
    fn step(&mut self, thread: ObjectId) -> Result<(), NoMemory>
        requires lives { has (meaning.live self.old) thread.0 ≡ true }
        requires runs { runs_out (meaning.next self.old thread.0) ≡ false }
        ensures ok { OnOk result (self.new ≡ meaning.stepped self.old thread.0) }
        ensures err { OnErr result (self.new ≡ self.old) };

    /// Ends a live thread.
    fn end(&mut self, thread: ObjectId)
        requires { has (meaning.live self.old) thread.0 ≡ true }
        ensures { self.new ≡ meaning.ended self.old thread.0 };

    /// What a command that changes nothing is answered.
    ///
    /// # Errors
    /// `NoMemory` where an allocation was refused; a refusal takes no memory.
    fn query(&self, query: &Query) -> Result<Answer, NoMemory>
        ensures value { IfOk result (λ answer. answer ≡ meaning.query self.now query.now) }
        // A refusal takes no memory.
        ensures memory { IfErr result (λ _.
            IsTrue (takes_memory (meaning.query self.now query.now))) };

    /// Writes slots of a frame of a live thread, all of them or none.
    ///
    /// # Errors
    /// `NoMemory` where an allocation was refused; then nothing has changed. A refusal takes no memory.
    fn write_slots(
        &mut self,
        thread: ObjectId,
        frame: FrameId,
        values: &[(i32, Value)],
    ) -> Result<Answer, NoMemory>
        ensures ok { IfOk result (λ answer.
            (answer ≡ meaning.write_answer self.old thread.0 frame.0 values.now)
            × (self.new ≡ meaning.written self.old thread.0 frame.0 values.now)) }
        ensures err { OnErr result (self.new ≡ self.old) }
        // A refusal takes no memory.
        ensures memory { IfErr result (λ _.
            IsTrue (takes_memory (meaning.write_answer self.old thread.0 frame.0 values.now))) };

    /// Makes an object that is a string of this text (VirtualMachine.CreateString), and answers its id. No thread steps, and no frame changes.
    ///
    /// # Errors
    /// `NoMemory` where an allocation was refused; then nothing has changed. A refusal takes no memory.
    fn make_string(&mut self, text: &str) -> Result<Answer, NoMemory>
        ensures ok { IfOk result (λ answer. (answer ≡ meaning.made_answer self.old text.now)
            × (self.new ≡ meaning.made self.old text.now)) }
        ensures err { OnErr result (self.new ≡ self.old) }
        // A refusal takes no memory.
        ensures memory { IfErr result (λ _.
            IsTrue (takes_memory (meaning.made_answer self.old text.now))) };

    /// What every machine keeps.
    ghost lawful: { IsLawful meaning };
}
