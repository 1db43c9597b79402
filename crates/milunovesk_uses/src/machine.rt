//! A machine of one's own.
ghost use Rattle.std.specs.Prelude.{◌≡◌, IfOk};
ghost use Rattle.milunovesk.specs.Debuggee.State.{new_state};
ghost use Rattle.milunovesk.specs.Event.Occurrences.{prepared_meaning};
ghost use Rattle.milunovesk.specs.Target.Options.{settings_at};
ghost use Rattle.milunovesk.specs.Target.Targets.{new_target};
ghost use Rattle.milunovesk.specs.Wire.Limits.{standard_limits};
ghost use Rattle.milunovesk_uses.specs.OneStep.{begun, main_class, one_step};
ghost use Rattle.milunovesk_uses.specs.OneStepLaws.{one_step_lawful};

use milunovesk::{
    Answer, ClassSeen, ErrorCode, FrameId, Happening, IdSizes, Machine, NoMemory, ObjectId,
    Occurrence, PreparedClass, Query, ReferenceTypeId, Target, TargetOptions, TypeTag, Value,
};
use std::alloc::Global;
use std::marker::Model;

/// The thread of the machine.
static THREADS: [ObjectId; 1] = [ObjectId(1)];

/// A machine of one thread that makes one step, which prepares a class. It answers no question.
#[derive(Drop)]
pub struct OneStep {
    alloc: Global,
    sizes: IdSizes,
    lives: bool,
    is_new: bool,
}

impl Model for OneStep {
    ghost use Rattle.std.specs.Prelude.{◌≡◌};
    ghost use Rattle.milunovesk_uses.specs.OneStep.{State, eight};

    ghost Value = { State };

    ghost view = { λ m. record { lives = m.lives; is_new = m.is_new } };

    ghost invariant = { λ m. m.sizes ≡ eight };
}

impl OneStep {
    /// The machine before its step. Each of its ids has eight bytes.
    pub fn new(alloc: Global) -> OneStep
        ensures { result ≡ begun }
    {
        match IdSizes::new(8, 8, 8, 8, 8) {
            Ok(sizes) => OneStep {
                alloc,
                sizes,
                lives: true,
                is_new: true,
            },
            Err(_) => unreachable!(),
        }
    }
}

/// The class that the step prepares.
fn main_class(alloc: Global) -> Result<PreparedClass, NoMemory>
    ensures { IfOk result (λ class. prepared_meaning class ≡ main_class) }
{
    let id = ReferenceTypeId(1);
    let reaches = vec![in alloc; id]?;
    let signature = String::from_str(alloc, "LMain;")?;
    Ok(PreparedClass {
        tag: TypeTag::Class,
        id,
        status: 3,
        class: ClassSeen { signature, reaches },
    })
}

impl Machine for OneStep {
    ghost meaning = { one_step };

    fn sizes(&self) -> IdSizes {
        self.sizes
    }

    fn live(&self) -> &[ObjectId] {
        if self.lives { &THREADS } else { &[] }
    }

    fn next(&self, thread: ObjectId) -> Result<Happening, NoMemory> {
        let occurrence = if self.is_new {
            Occurrence::Prepared(main_class(self.alloc)?)
        } else {
            Occurrence::RanOut
        };
        Ok(Happening::new(thread, occurrence))
    }

    fn step(&mut self, _thread: ObjectId) -> Result<(), NoMemory> {
        self.is_new = false;
        Ok(())
    }

    fn end(&mut self, _thread: ObjectId) {
        self.lives = false;
    }

    fn query(&self, _query: &Query) -> Result<Answer, NoMemory> {
        Ok(Answer::Error(ErrorCode::INVALID_LOCATION))
    }

    fn write_slots(
        &mut self,
        _thread: ObjectId,
        _frame: FrameId,
        _values: &[(i32, Value)],
    ) -> Result<Answer, NoMemory> {
        Ok(Answer::Error(ErrorCode::INVALID_LOCATION))
    }

    fn make_string(&mut self, _text: &str) -> Result<Answer, NoMemory> {
        Ok(Answer::Error(ErrorCode::NOT_IMPLEMENTED))
    }

    ghost lawful = { one_step_lawful };
}

/// A closed target over such a machine, before its first session, within the standard limits.
///
/// # Errors
/// `NoMemory` where an allocation was refused.
pub fn one_step_target(alloc: Global, options: TargetOptions) -> Result<Target<OneStep>, NoMemory>
    ensures { IfOk result (λ t. t ≡ new_target (settings_at standard_limits options)
        (record { state = new_state (one_step.live begun); machine = begun })) }
{
    Target::new(alloc, OneStep::new(alloc), options)
}
