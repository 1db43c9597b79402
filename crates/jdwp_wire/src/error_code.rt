//! Error codes of reply packets (JDWP specification, "Error Constants").

/// The error code of a reply packet: 16 bits, 0 where the command succeeded.
///
/// The constants have the names of the specification's page of constants. Any other code is passed on as it came.
#[derive(Clone, Copy, Debug, PartialEq, Eq)]
pub struct ErrorCode(pub u16);

impl ErrorCode {
    /// The command succeeded.
    pub const NONE: ErrorCode = ErrorCode(0);
    /// The thread is not alive, or its id is not known.
    pub const INVALID_THREAD: ErrorCode = ErrorCode(10);
    /// The id is that of no thread group.
    pub const INVALID_THREAD_GROUP: ErrorCode = ErrorCode(11);
    /// The thread runs, and the command calls for one that is suspended.
    pub const THREAD_NOT_SUSPENDED: ErrorCode = ErrorCode(13);
    /// The id is that of no object, or of one that was unloaded.
    pub const INVALID_OBJECT: ErrorCode = ErrorCode(20);
    /// The id is that of no reference type.
    pub const INVALID_CLASS: ErrorCode = ErrorCode(21);
    /// The class was loaded and is not prepared yet.
    pub const CLASS_NOT_PREPARED: ErrorCode = ErrorCode(22);
    /// The id is that of no method of the reference type.
    pub const INVALID_METHODID: ErrorCode = ErrorCode(23);
    /// The location is not valid.
    pub const INVALID_LOCATION: ErrorCode = ErrorCode(24);
    /// The id is that of no field of the reference type.
    pub const INVALID_FIELDID: ErrorCode = ErrorCode(25);
    /// The id is that of no frame of the thread.
    pub const INVALID_FRAMEID: ErrorCode = ErrorCode(30);
    /// A variable is of another type than the value.
    pub const TYPE_MISMATCH: ErrorCode = ErrorCode(34);
    /// The frame has no variable in this slot.
    pub const INVALID_SLOT: ErrorCode = ErrorCode(35);
    /// The id is that of no module.
    pub const INVALID_MODULE: ErrorCode = ErrorCode(42);
    /// The command is not implemented.
    pub const NOT_IMPLEMENTED: ErrorCode = ErrorCode(99);
    /// The target has no such information, for example of lines or of sources.
    pub const ABSENT_INFORMATION: ErrorCode = ErrorCode(101);
    /// There is no event of this kind.
    pub const INVALID_EVENT_TYPE: ErrorCode = ErrorCode(102);
    /// The data of the command do not read, or are not allowed.
    pub const ILLEGAL_ARGUMENT: ErrorCode = ErrorCode(103);
    /// There is no more memory.
    pub const OUT_OF_MEMORY: ErrorCode = ErrorCode(110);
    /// The target cannot carry the command out.
    pub const INTERNAL: ErrorCode = ErrorCode(113);
    /// An index is outside its range.
    pub const INVALID_INDEX: ErrorCode = ErrorCode(503);
    /// A length is outside its range.
    pub const INVALID_LENGTH: ErrorCode = ErrorCode(504);
    /// The object is no string.
    pub const INVALID_STRING: ErrorCode = ErrorCode(506);
    /// The object is no array.
    pub const INVALID_ARRAY: ErrorCode = ErrorCode(508);
    /// A count is not allowed.
    pub const INVALID_COUNT: ErrorCode = ErrorCode(512);
}
