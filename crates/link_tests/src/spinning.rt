//! A machine for tests: a thread that steps on and on at one place, and one that has run out.
ghost use Rattle.std.specs.Prelude.{◌≡◌, IfOk, length};
ghost use Rattle.jdwp_event.specs.Occurrences.{place_meaning};
ghost use Rattle.link_tests.specs.SpinningMachine.{hub, spinning};
ghost use Rattle.link_tests.specs.SpinningLaws.{spinning_lawful};

use jdwp_event::{ClassSeen, Happening, Occurrence, Place};
use jdwp_layout::Answer;
use jdwp_machine::{Machine, Query};
use jdwp_value::{FrameId, Location, MethodId, ObjectId, ReferenceTypeId, TypeTag, Value};
use jdwp_wire::{ErrorCode, IdSizes, NoMemory};
use std::alloc::Global;
use std::marker::Model;

/// The threads 1 and 2.
#[derive(Drop)]
pub(crate) struct Spinning {
    alloc: Global,
    sizes: IdSizes,
    live: Vec<ObjectId>,
}

impl Model for Spinning {
    ghost use Rattle.std.specs.Prelude.{◌≡◌, ℕ, List};
    ghost use Rattle.jdwp_machine.specs.Meanings.{numbers};
    ghost use Rattle.link_tests.specs.SpinningMachine.{IsState, five};

    ghost Value = { List ℕ };

    ghost view = { λ m. numbers m.live.items };

    ghost invariant = { λ m. record { state : IsState (numbers m.live.items); sizes : m.sizes ≡ five } };
}

impl Spinning {
    /// Both threads live.
    pub(crate) fn new(alloc: Global) -> Result<Spinning, NoMemory>
        ensures { IfOk result (λ live. length live ≡ 2) }
    {
        let Ok(sizes) = IdSizes::new(1, 2, 4, 8, 3) else {
            return Err(NoMemory);
        };
        let mut live = Vec::new(alloc);
        live.push(ObjectId(1))?;
        live.push(ObjectId(2))?;
        Ok(Spinning { alloc, sizes, live })
    }
}

/// Where thread 1 is.
fn at_hub(alloc: Global) -> Result<Place, NoMemory>
    ensures { IfOk result (λ place. place_meaning place ≡ hub) }
{
    let location = Location::At {
        tag: TypeTag::Class,
        class: ReferenceTypeId(10),
        method: MethodId(20),
        index: 0,
    };
    let class = ClassSeen {
        signature: String::from_str(alloc, "LHub;")?,
        reaches: Vec::new(alloc),
    };
    Ok(Place {
        location,
        line: None,
        frames: 1,
        class,
    })
}

impl Machine for Spinning {
    ghost meaning = { spinning };

    fn sizes(&self) -> IdSizes {
        self.sizes
    }

    fn live(&self) -> &[ObjectId] {
        &self.live
    }

    fn next(&self, thread: ObjectId) -> Result<Happening, NoMemory> {
        if thread.0 != 1 {
            return Ok(Happening::new(thread, Occurrence::RanOut));
        }
        let place = at_hub(self.alloc)?;
        Ok(Happening::new(thread, Occurrence::Moved(place)))
    }

    fn step(&mut self, _thread: ObjectId) -> Result<(), NoMemory> {
        Ok(())
    }

    fn end(&mut self, thread: ObjectId) {
        self.live.retain(|id| id.0 != thread.0);
    }

    fn query(&self, _query: &Query) -> Result<Answer, NoMemory> {
        Ok(Answer::Error(ErrorCode::INVALID_LOCATION))
    }

    fn write_slots(
        &mut self,
        _thread: ObjectId,
        _frame: FrameId,
        _values: &[(i32, Value)],
    ) -> Result<Answer, NoMemory> {
        Ok(Answer::Error(ErrorCode::INVALID_LOCATION))
    }

    fn make_string(&mut self, _text: &str) -> Result<Answer, NoMemory> {
        Ok(Answer::Error(ErrorCode::NOT_IMPLEMENTED))
    }

    ghost lawful = { spinning_lawful };
}
