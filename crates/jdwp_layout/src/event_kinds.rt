//! The number of each event kind (JDWP specification, "EventKind Constants").

/// A step that was asked for is done.
pub const SINGLE_STEP: u8 = 1;
/// A location that was asked for is reached.
pub const BREAKPOINT: u8 = 2;
/// A frame is popped. No event of a composite has this kind.
pub const FRAME_POP: u8 = 3;
/// An exception is thrown.
pub const EXCEPTION: u8 = 4;
/// Defined by the user. No event of a composite has this kind.
pub const USER_DEFINED: u8 = 5;
/// A thread has started.
pub const THREAD_START: u8 = 6;
/// A thread has ended.
pub const THREAD_DEATH: u8 = 7;
/// A class is prepared.
pub const CLASS_PREPARE: u8 = 8;
/// A class is unloaded.
pub const CLASS_UNLOAD: u8 = 9;
/// A class is loaded. No event of a composite has this kind.
pub const CLASS_LOAD: u8 = 10;
/// A field is read.
pub const FIELD_ACCESS: u8 = 20;
/// A field is written.
pub const FIELD_MODIFICATION: u8 = 21;
/// An exception is caught. No event of a composite has this kind.
pub const EXCEPTION_CATCH: u8 = 30;
/// A method is entered.
pub const METHOD_ENTRY: u8 = 40;
/// A method is left.
pub const METHOD_EXIT: u8 = 41;
/// A method is left, told with the value that it returns.
pub const METHOD_EXIT_WITH_RETURN_VALUE: u8 = 42;
/// A thread waits for a monitor that another holds.
pub const MONITOR_CONTENDED_ENTER: u8 = 43;
/// A thread has the monitor that it waited for.
pub const MONITOR_CONTENDED_ENTERED: u8 = 44;
/// A thread begins to wait on a monitor.
pub const MONITOR_WAIT: u8 = 45;
/// A thread has waited on a monitor.
pub const MONITOR_WAITED: u8 = 46;
/// The machine has started.
pub const VM_START: u8 = 90;
/// The machine ends.
pub const VM_DEATH: u8 = 99;
