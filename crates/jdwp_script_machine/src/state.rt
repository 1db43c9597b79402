//! A machine that runs a script, as the code keeps it.
ghost use Rattle.std.specs.Prelude.{◌≡◌};
ghost use Rattle.jdwp_script_machine.specs.States.{is_living, has_begun};
ghost use Rattle.jdwp_script_machine.specs.StateMeanings.{life_now};

use jdwp_machine::Profile;
use jdwp_script::{Object, Script};
use jdwp_value::{FrameId, MethodId, ObjectId, ReferenceTypeId, Value};

/// What a slot of a frame holds.
#[derive(Clone, Copy)]
pub struct SlotState {
    pub slot: i32,
    pub value: Value,
}

/// A frame of a thread.
#[derive(Drop)]
pub struct FrameState {
    pub id: FrameId,
    pub class: ReferenceTypeId,
    pub method: MethodId,
    /// The code index where it is.
    pub index: u64,
    /// 0 where the method has none.
    pub this: ObjectId,
    pub slots: Vec<SlotState>,
}

/// A thread waits until another one starts it, lives, or has ended.
#[derive(Clone, Copy)]
pub enum Life {
    Waits,
    Lives,
    HasEnded,
}

impl Life {
    /// Whether the thread lives.
    pub fn is_living(self) -> bool
        ensures { result ≡ is_living (life_now self) }
    {
        match self {
            Life::Lives => true,
            Life::Waits | Life::HasEnded => false,
        }
    }

    /// Whether the thread lives or has lived.
    pub fn has_begun(self) -> bool
        ensures { result ≡ has_begun (life_now self) }
    {
        match self {
            Life::Waits => false,
            Life::Lives | Life::HasEnded => true,
        }
    }
}

/// A thread as it is now.
#[derive(Drop)]
pub struct ThreadState {
    pub id: ObjectId,
    pub life: Life,
    /// The place of its next step in its list.
    pub place: usize,
    /// The newest first.
    pub frames: Vec<FrameState>,
}

/// A class as it is now.
#[derive(Clone, Copy)]
pub struct ClassState {
    pub id: ReferenceTypeId,
    pub is_prepared: bool,
}

/// The script, whose lists stand by rising id, its threads and classes as they are now, in the script's order, the strings that were made,
/// in turn, and the profile.
#[derive(Drop)]
pub struct MachineState {
    pub script: Script,
    pub threads: Vec<ThreadState>,
    pub classes: Vec<ClassState>,
    pub made: Vec<Object>,
    pub profile: Profile,
}
