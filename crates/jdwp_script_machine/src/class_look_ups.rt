//! Whether a class is prepared, and its status.
ghost use Rattle.std.specs.Prelude.{◌≡◌, true, IsTrue, pos, if◌then◌else◌};
ghost use Rattle.jdwp_script_machine.specs.States.{is_prepared};
ghost use Rattle.jdwp_script_machine.specs.StateMeanings.{state_now};

use crate::state::MachineState;
use jdwp_value::ReferenceTypeId;

/// Whether the class is prepared. One that is, is found at once, since the classes stand by rising id; for another all are looked at.
pub(crate) fn is_prepared(state: &MachineState, id: ReferenceTypeId) -> bool
    ensures { result ≡ is_prepared (state_now state.now) id.0 }
{
    stands_prepared(state, id) || is_any_prepared(state, id)
}

/// Whether the class stands where it does in a list by rising id, and is prepared.
fn stands_prepared(state: &MachineState, id: ReferenceTypeId) -> bool
    ensures { IsTrue result → is_prepared (state_now state.now) id.0 ≡ true }
{
    let place = state.classes.partition_point(|class| class.id.0 < id.0);
    match state.classes.get(place) {
        Some(class) => class.is_prepared && class.id == id,
        None => false,
    }
}

/// Whether the class is one that is prepared, wherever it stands.
fn is_any_prepared(state: &MachineState, id: ReferenceTypeId) -> bool
    ensures { result ≡ is_prepared (state_now state.now) id.0 }
{
    for class in &state.classes {
        if class.is_prepared && class.id == id {
            return true;
        }
    }
    false
}

/// The status of the class as an int: 3, verified and prepared, once it is prepared, and 0 before
/// (JDWP specification, "ClassStatus Constants").
pub(crate) fn status(state: &MachineState, id: ReferenceTypeId) -> i32
    ensures { result ≡ (if is_prepared (state_now state.now) id.0 then pos 3 else pos 0) }
{
    if is_prepared(state, id) { 3 } else { 0 }
}
