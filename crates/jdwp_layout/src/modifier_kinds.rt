//! The number of each kind of modifier (JDWP specification, "Protocol Details": the command Set of the set EventRequest).

/// Only the n-th time.
pub const COUNT: u8 = 1;
/// Reserved by the specification.
pub const CONDITIONAL: u8 = 2;
/// Only one thread.
pub const THREAD_ONLY: u8 = 3;
/// Only one class and those that reach it.
pub const CLASS_ONLY: u8 = 4;
/// Only classes whose name fits a pattern.
pub const CLASS_MATCH: u8 = 5;
/// Only classes whose name does not fit a pattern.
pub const CLASS_EXCLUDE: u8 = 6;
/// Only one location.
pub const LOCATION_ONLY: u8 = 7;
/// Only exceptions of one class, caught ones or not, uncaught ones or not.
pub const EXCEPTION_ONLY: u8 = 8;
/// Only one field.
pub const FIELD_ONLY: u8 = 9;
/// Only steps of one thread, of a size and a depth.
pub const STEP: u8 = 10;
/// Only one object.
pub const INSTANCE_ONLY: u8 = 11;
/// Only classes whose source name fits a pattern.
pub const SOURCE_NAME_MATCH: u8 = 12;
