//! What happens at a step of a thread: the data of its events, and all that the filters of event requests read.
ghost use Rattle.std.specs.Prelude.{◌≡◌};
ghost use Rattle.jdwp_event.specs.Occurrences.{occurrence_meaning};

use jdwp_value::{Location, ObjectId, ReferenceTypeId, TaggedId, TypeTag, Value};
use std::marker::Model;

/// A class, as filters see it.
#[derive(Debug, Drop)]
pub struct ClassSeen {
    /// The signature, as `Ljava/lang/Object;`.
    pub signature: String,
    /// The classes that it reaches: itself, and those that its superclass and its interfaces reach.
    pub reaches: Vec<ReferenceTypeId>,
}

/// A place in a method.
#[derive(Debug, Drop)]
pub struct Place {
    /// Where it is.
    pub location: Location,
    /// The source line, where one is known.
    pub line: Option<u32>,
    /// How many frames the thread has.
    pub frames: u32,
    /// The class of the method.
    pub class: ClassSeen,
}

/// An exception that was thrown.
#[derive(Debug, Drop)]
pub struct ThrownException {
    /// The exception.
    pub exception: TaggedId,
    /// Where it is caught: `Null` where it isn't.
    pub caught_at: Location,
    /// The classes that its class reaches.
    pub reaches: Vec<ReferenceTypeId>,
}

/// A class that became prepared.
#[derive(Debug, Drop)]
pub struct PreparedClass {
    /// Whether it is a class, an interface or an array.
    pub tag: TypeTag,
    /// Its id.
    pub id: ReferenceTypeId,
    /// Its status bits.
    pub status: i32,
    /// The class itself.
    pub class: ClassSeen,
}

/// What happened.
#[derive(Debug, Drop)]
pub enum Occurrence {
    /// The newest frame moved to a place: SINGLE_STEP and BREAKPOINT.
    Moved(Place),
    /// A method was entered: METHOD_ENTRY.
    Entered(Place),
    /// A method was left with this value: METHOD_EXIT and METHOD_EXIT_WITH_RETURN_VALUE.
    Left(Place, Value),
    /// An exception was thrown at this place: EXCEPTION.
    Threw(Place, ThrownException),
    /// A class became prepared: CLASS_PREPARE.
    Prepared(PreparedClass),
    /// A thread started: THREAD_START.
    Started,
    /// The thread has run out: THREAD_DEATH.
    RanOut,
}

/// What happened, and the thread that its events name: the new one where a thread started.
#[derive(Debug, Drop)]
pub struct Happening {
    thread: ObjectId,
    occurrence: Occurrence,
}

impl Model for Happening {
    ghost use Rattle.jdwp_event.specs.Occurrences.{HappeningMeaning, occurrence_meaning};

    ghost Value = { HappeningMeaning };

    ghost view = { λ h. record {
      thread = h.thread.0;
      occurrence = occurrence_meaning h.occurrence;
    } };
}

impl Happening {
    /// This happened, and its events name this thread.
    pub fn new(thread: ObjectId, occurrence: Occurrence) -> Happening
        ensures { result
            ≡ record { thread = thread.0; occurrence = occurrence_meaning occurrence } }
    {
        Happening { thread, occurrence }
    }

    /// The thread that its events name.
    pub fn thread(&self) -> ObjectId
        ensures { result.0 ≡ self.now.thread }
    {
        self.thread
    }

    /// What happened.
    pub fn occurrence(&self) -> &Occurrence
        ensures { occurrence_meaning result.now ≡ self.now.occurrence }
    {
        &self.occurrence
    }
}
