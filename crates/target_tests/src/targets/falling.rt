//! A machine for tests of the order in which threads step: three threads in a list that falls.
ghost use Rattle.std.specs.Prelude.{◌≡◌, IfOk, length};
ghost use Rattle.jdwp_event.specs.Occurrences.{prepared_meaning};
ghost use Rattle.target_tests.specs.FallingMachine.{class_prepared, falling};
ghost use Rattle.target_tests.specs.FallingLaws.{falling_lawful};

use jdwp_event::{ClassSeen, Happening, Occurrence, PreparedClass};
use jdwp_layout::Answer;
use jdwp_machine::{Machine, Query};
use jdwp_value::{FrameId, ObjectId, ReferenceTypeId, TypeTag, Value};
use jdwp_wire::{ErrorCode, IdSizes, NoMemory};
use std::alloc::Global;
use std::marker::Model;

/// The threads 2^64 - 1, 2^63 and 2, in this order. The first step of any of them prepares a class, where one is to be prepared; but for
/// that they have run out.
#[derive(Drop)]
pub(crate) struct Falling {
    alloc: Global,
    sizes: IdSizes,
    live: Vec<ObjectId>,
    prepares: bool,
}

impl Model for Falling {
    ghost use Rattle.std.specs.Prelude.{◌≡◌};
    ghost use Rattle.jdwp_machine.specs.Meanings.{numbers};
    ghost use Rattle.target_tests.specs.FallingMachine.{Three, IsState, eight};

    ghost Value = { Three };

    ghost view = { λ m. record { live = numbers m.live.items; prepares = m.prepares } };

    ghost invariant = { λ m. record { state : IsState (numbers m.live.items); sizes : m.sizes ≡ eight } };
}

impl Falling {
    /// All three threads live, and a class is to be prepared where `prepares`.
    pub(crate) fn new(alloc: Global, prepares: bool) -> Result<Falling, NoMemory>
        ensures { IfOk result (λ three. length three.live ≡ 3) }
    {
        let Ok(sizes) = IdSizes::new(8, 8, 8, 8, 8) else {
            return Err(NoMemory);
        };
        let mut live = Vec::new(alloc);
        live.push(ObjectId(u64::MAX))?;
        live.push(ObjectId(1 << 63))?;
        live.push(ObjectId(2))?;
        Ok(Falling {
            alloc,
            sizes,
            live,
            prepares,
        })
    }
}

/// The class that is prepared, of id 1 and without a signature.
fn prepared(alloc: Global) -> PreparedClass
    ensures { prepared_meaning result ≡ class_prepared }
{
    PreparedClass {
        tag: TypeTag::Class,
        id: ReferenceTypeId(1),
        status: 7,
        class: ClassSeen {
            signature: String::new(alloc),
            reaches: Vec::new(alloc),
        },
    }
}

impl Machine for Falling {
    ghost meaning = { falling };

    fn sizes(&self) -> IdSizes {
        self.sizes
    }

    fn live(&self) -> &[ObjectId] {
        &self.live
    }

    fn next(&self, thread: ObjectId) -> Result<Happening, NoMemory> {
        let occurrence = if self.prepares {
            Occurrence::Prepared(prepared(self.alloc))
        } else {
            Occurrence::RanOut
        };
        Ok(Happening::new(thread, occurrence))
    }

    fn step(&mut self, _thread: ObjectId) -> Result<(), NoMemory> {
        self.prepares = false;
        Ok(())
    }

    fn end(&mut self, thread: ObjectId) {
        self.live.retain(|id| id.0 != thread.0);
    }

    fn query(&self, _query: &Query) -> Result<Answer, NoMemory> {
        Ok(Answer::Error(ErrorCode::INVALID_LOCATION))
    }

    fn write_slots(
        &mut self,
        _thread: ObjectId,
        _frame: FrameId,
        _values: &[(i32, Value)],
    ) -> Result<Answer, NoMemory> {
        Ok(Answer::Error(ErrorCode::INVALID_LOCATION))
    }

    fn make_string(&mut self, _text: &str) -> Result<Answer, NoMemory> {
        Ok(Answer::Error(ErrorCode::NOT_IMPLEMENTED))
    }

    ghost lawful = { falling_lawful };
}
