//! Look-ups in lists of things that have ids.
ghost use Rattle.std.specs.Prelude.{◌≡◌, ℕ, map, option_map};
ghost use Rattle.jdwp_script.specs.Parts.{GroupPart, FieldPart, MethodPart, ClassPart, ObjectPart, ThreadPart, ModulePart};
ghost use Rattle.jdwp_script.specs.Meanings.{group_part, field_part, method_part, class_part, object_part, thread_part, module_part};
ghost use Rattle.jdwp_script_machine.specs.LookUps.{with_id};
ghost use Rattle.jdwp_script_machine.specs.States.{FrameNow, ThreadNow, ClassNow};
ghost use Rattle.jdwp_script_machine.specs.StateMeanings.{frame_now, thread_now, class_now};
ghost use Rattle.jdwp_script_machine.specs.Found.{found};

use crate::state::{ClassState, FrameState, ThreadState};
use jdwp_script::{Class, Field, Group, Method, Module, Object, Thread};

/// What has an id.
pub(crate) trait Numbered {
    /// What it is, apart from where it lies in memory.
    ghost Meaning: { Type 0 };

    ghost meaning: { Self → Meaning };

    /// Its id.
    ghost key: { Meaning → ℕ };

    /// The number of its id.
    fn number(&self) -> u64
        ensures { result ≡ key (meaning self.now) };
}

/// The first of them with this id.
pub(crate) fn with_id<T: Numbered>(parts: &[T], id: u64) -> Option<&T>
    ensures { option_map T.meaning (found result) ≡ with_id T.key id (map T.meaning parts.now) }
{
    for part in parts {
        if part.number() == id {
            return Some(part);
        }
    }
    None
}

impl Numbered for Group {
    ghost Meaning = { GroupPart };

    ghost meaning = { group_part };

    ghost key = { λ g. g.id };

    fn number(&self) -> u64 {
        self.id.0
    }
}

impl Numbered for Class {
    ghost Meaning = { ClassPart };

    ghost meaning = { class_part };

    ghost key = { λ c. c.id };

    fn number(&self) -> u64 {
        self.id.0
    }
}

impl Numbered for Field {
    ghost Meaning = { FieldPart };

    ghost meaning = { field_part };

    ghost key = { λ f. f.id };

    fn number(&self) -> u64 {
        self.id.0
    }
}

impl Numbered for Method {
    ghost Meaning = { MethodPart };

    ghost meaning = { method_part };

    ghost key = { λ m. m.id };

    fn number(&self) -> u64 {
        self.id.0
    }
}

impl Numbered for Object {
    ghost Meaning = { ObjectPart };

    ghost meaning = { object_part };

    ghost key = { λ o. o.id };

    fn number(&self) -> u64 {
        self.id.0
    }
}

impl Numbered for Thread {
    ghost Meaning = { ThreadPart };

    ghost meaning = { thread_part };

    ghost key = { λ t. t.id };

    fn number(&self) -> u64 {
        self.id.0
    }
}

impl Numbered for Module {
    ghost Meaning = { ModulePart };

    ghost meaning = { module_part };

    ghost key = { λ m. m.id };

    fn number(&self) -> u64 {
        self.id.0
    }
}

impl Numbered for ThreadState {
    ghost Meaning = { ThreadNow };

    ghost meaning = { thread_now };

    ghost key = { λ e. e.id };

    fn number(&self) -> u64 {
        self.id.0
    }
}

impl Numbered for FrameState {
    ghost Meaning = { FrameNow };

    ghost meaning = { frame_now };

    ghost key = { λ f. f.id };

    fn number(&self) -> u64 {
        self.id.0
    }
}

impl Numbered for ClassState {
    ghost Meaning = { ClassNow };

    ghost meaning = { class_now };

    ghost key = { λ c. c.id };

    fn number(&self) -> u64 {
        self.id.0
    }
}
