//! The recorded session: the handshake, IDSizes, Suspend, SuspendCount of thread 1 and Dispose, with what the target sends.

/// What the debugger sends: messages from the bytes 0, 14, 25, 36 and 55 on.
pub(crate) const ASKED: [u8; 66] = [
    0x4a, 0x44, 0x57, 0x50, 0x2d, 0x48, 0x61, 0x6e, 0x64, 0x73, 0x68, 0x61, 0x6b, 0x65, //
    0, 0, 0, 11, 0, 0, 0, 1, 0, 1, 7, //
    0, 0, 0, 11, 0, 0, 0, 2, 0, 1, 8, //
    0, 0, 0, 19, 0, 0, 0, 3, 0, 11, 12, 0, 0, 0, 0, 0, 0, 0, 1, //
    0, 0, 0, 11, 0, 0, 0, 4, 0, 1, 6,
];

/// What the target sends: messages from the bytes 0, 14 (VM_START), 43, 74, 85 and 100 on.
pub(crate) const ANSWERED: [u8; 111] = [
    0x4a, 0x44, 0x57, 0x50, 0x2d, 0x48, 0x61, 0x6e, 0x64, 0x73, 0x68, 0x61, 0x6b, 0x65, //
    0, 0, 0, 29, 0, 0, 0, 1, 0, 0x40, 0x64, 0, 0, 0, 0, 1, 0x5a, 0, 0, 0, 0, 0, 0, 0, 0, 0, 0, 0,
    1, //
    0, 0, 0, 31, 0, 0, 0, 1, 0x80, 0, 0, 0, 0, 0, 8, 0, 0, 0, 8, 0, 0, 0, 8, 0, 0, 0, 8, 0, 0, 0,
    8, //
    0, 0, 0, 11, 0, 0, 0, 2, 0x80, 0, 0, //
    0, 0, 0, 15, 0, 0, 0, 3, 0x80, 0, 0, 0, 0, 0, 1, //
    0, 0, 0, 11, 0, 0, 0, 4, 0x80, 0, 0,
];

/// Where the messages of what the target sends begin.
pub(crate) const ANSWERS_BEGIN: [usize; 6] = [0, 14, 43, 74, 85, 100];

/// Where the messages of what the debugger sends begin.
pub(crate) const COMMANDS_BEGIN: [usize; 5] = [0, 14, 25, 36, 55];

/// Which message a byte stands in, from 0, and at which place of it.
pub(crate) fn place_in(beginnings: &[usize], place: usize) -> (usize, usize) {
    let mut found = (0, place);
    for (message, begin) in beginnings.iter().enumerate() {
        if *begin <= place {
            found = (message, place.saturating_sub(*begin));
        }
    }
    found
}
