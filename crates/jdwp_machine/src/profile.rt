//! What a target is made for.
ghost use Rattle.std.specs.Prelude.{◌≡◌};
ghost use Rattle.jdwp_machine.specs.Profiles.{adds, adds_raw, is_added};

use jdwp_layout::invocation::request_layout;
use jdwp_layout::numbers::{
    CLASS_PATHS, CONTENDED_MONITOR, CREATE_STRING, OWNED_MONITORS, REFERENCE_TYPE,
    SOURCE_DEBUG_EXTENSION, THREAD_REFERENCE, VIRTUAL_MACHINE,
};

/// What a target is made for: how much it answers beside what a target answers everywhere.
#[derive(Clone, Copy, Debug, PartialEq, Eq)]
pub enum Profile {
    /// Nothing more.
    Standard,
    /// What debuggers over the Java Debug Interface ask for, as jdb and IDEs: a CLASS_UNLOAD may be requested and never happens, threads
    /// and thread groups have a class, every class is in a module, and four starred commands are answered, and a raw one, and
    /// invocations of methods.
    Jdi,
}

impl Profile {
    /// Whether a starred command of this set and number is answered in the profile.
    pub fn adds(self, set: u8, number: u8) -> bool
        ensures { result ≡ adds self set number }
    {
        match self {
            Profile::Standard => false,
            Profile::Jdi => is_added(set, number),
        }
    }

    /// Whether a raw command of this set and number is answered in the profile, by bytes: in `Jdi` VirtualMachine.ClassPaths, whatever its
    /// data are, and invocations of methods (`invocation`).
    pub fn adds_raw(self, set: u8, number: u8) -> bool
        ensures { result ≡ adds_raw self set number }
    {
        match self {
            Profile::Standard => false,
            Profile::Jdi => {
                set == VIRTUAL_MACHINE && number == CLASS_PATHS
                    || request_layout(set, number).is_some()
            }
        }
    }
}

fn is_added(set: u8, number: u8) -> bool
    ensures { result ≡ is_added set number }
{
    match set {
        VIRTUAL_MACHINE => number == CREATE_STRING,
        REFERENCE_TYPE => number == SOURCE_DEBUG_EXTENSION,
        THREAD_REFERENCE => number == OWNED_MONITORS || number == CONTENDED_MONITOR,
        _ => false,
    }
}
