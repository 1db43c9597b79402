//! What replies and composites tell of the threads.
ghost use Rattle.std.specs.Prelude.{◌≡◌, ◌<◌, ◌^◌};
ghost use Rattle.jdwp_action.specs.Actions.{action_of};
ghost use Rattle.jdwp_apart.specs.Messages.{count_in};
ghost use Rattle.jdwp_event.specs.Told.{id_found};
ghost use Rattle.jdwp_layout.specs.Meanings.{meanings};
ghost use Rattle.jdwp_watch.specs.Tellings.{told_by, told_in};
ghost use Rattle.jdwp_watch.specs.Tellings as spec;

use crate::standing::Telling;
use jdwp_event::{Composite, Policy, thread_in};
use jdwp_layout::{Answer, Data, Datum, Scalar};
use jdwp_mirror::{Command, CommandKind};
use jdwp_value::ObjectId;

/// What a reply tells: of the thread that its command is about, and of all others.
#[derive(Clone, Copy)]
pub(crate) struct Told {
    pub thread: Option<ObjectId>,
    pub own: Telling,
    /// None where it tells nothing of them.
    pub others: Option<Telling>,
}

impl Telling {
    /// Nothing.
    pub fn nothing() -> Telling
        ensures { result ≡ spec.nothing }
    {
        Telling {
            raises: false,
            lowers: false,
            count: 0,
            shows: false,
        }
    }

    fn raised() -> Telling
        ensures { result ≡ spec.raised }
    {
        Telling {
            raises: true,
            ..Telling::nothing()
        }
    }

    fn lowered() -> Telling
        ensures { result ≡ spec.lowered }
    {
        Telling {
            lowers: true,
            ..Telling::nothing()
        }
    }

    fn counted(count: u32) -> Telling
        ensures { result ≡ spec.counted count }
    {
        Telling {
            count,
            ..Telling::nothing()
        }
    }
}

impl Told {
    /// What the answer to a command tells.
    pub fn of(command: &Command, answer: &Answer) -> Told
        ensures told { result ≡ told_in (action_of command.now) answer.now }
        ensures small { result.own.count < 2 ^ 32 }
    {
        match answer {
            Answer::Data(content) => Told::by(command.kind(), command.thread(), content),
            Answer::Error(_) => Told::nothing(),
        }
    }

    fn nothing() -> Told
        ensures { result ≡ spec.told_nothing }
    {
        Told {
            thread: None,
            own: Telling::nothing(),
            others: None,
        }
    }

    /// What data tell that answer a command of a kind about a thread.
    fn by(kind: CommandKind, thread: Option<ObjectId>, content: &Data) -> Told
        ensures told { result ≡ told_by kind thread (count_in content.now) }
        ensures small { result.own.count < 2 ^ 32 }
    {
        match (kind, thread) {
            (CommandKind::Suspend, _) => Told::of_all(Telling::raised()),
            (CommandKind::Resume, _) => Told::of_all(Telling::lowered()),
            (CommandKind::SuspendThread, Some(own)) => Told::of_one(own, Telling::raised()),
            (CommandKind::ResumeThread, Some(own)) => Told::of_one(own, Telling::lowered()),
            (CommandKind::SuspendCount, Some(own)) => {
                Told::of_one(own, Telling::counted(count_in_items(content.items())))
            }
            _ => Told::nothing(),
        }
    }

    fn of_all(telling: Telling) -> Told
        ensures { result ≡ spec.told_of_all telling }
    {
        Told {
            thread: None,
            own: Telling::nothing(),
            others: Some(telling),
        }
    }

    /// It shows the thread alive, too.
    fn of_one(thread: ObjectId, telling: Telling) -> Told
        ensures told { result ≡ spec.told_of_one thread telling }
        ensures small { result.own.count < 2 ^ 32 }
    {
        Told {
            thread: Some(thread),
            own: Telling {
                shows: true,
                ..telling
            },
            others: None,
        }
    }
}

/// The count in data that answer a SuspendCount.
fn count_in_items(items: &[Datum]) -> u32
    ensures { result ≡ count_in (meanings items.now) }
{
    match items {
        [Datum::One(Scalar::Int(count))] => u32::try_from(*count).unwrap_or(0),
        _ => 0,
    }
}

/// Whom the events of a composite stop.
#[derive(Clone, Copy)]
pub(crate) struct Stops {
    /// The thread that the composite is of.
    pub thread: Option<ObjectId>,
    /// Whether they stop that thread, and whether all others.
    pub own: bool,
    pub others: bool,
}

impl Stops {
    /// Whom these stop.
    pub fn of(composite: &Composite) -> Stops
        ensures { result ≡ spec.stops_in composite.now }
    {
        let others = composite.policy() == Policy::All.byte();
        Stops {
            thread: thread_in(composite),
            own: others || composite.policy() == Policy::EventThread.byte(),
            others,
        }
    }
}
