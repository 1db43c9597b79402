//! Machine scripts: what a machine has and what its threads do, read from JSON with every fault.
#![tactic(auto)]

mod detail;
mod fault;
mod gather;
mod id_detail;
mod id_set;
mod ids;
mod judge;
mod known;
mod limit_detail;
mod limits;
mod loops;
mod member;
mod missing_detail;
mod parts;
mod read;
mod reading;
mod reference_detail;
mod references;
mod script;
mod step;
mod step_parts;
mod telling;
mod too_wide;

pub use detail::{Cause, Detail, Entry, IdKind, Path};
pub use fault::ScriptFault;
pub use limits::LIST_LIMIT;
pub use member::Member;
pub use script::{
    Class, Elements, Field, FieldValue, Group, Line, Method, Module, Object, Script, Sizes, Slot,
    Thread,
};
pub use step::{Call, Literal, Place, SlotValue, Step, Throw};
