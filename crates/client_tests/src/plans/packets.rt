//! What a target sends, byte for byte (JDWP specification, "JDWP Packets" and "Protocol Details").
use std::alloc::Global;
use std::process::Abort;

/// The target's handshake.
const HELLO: &[u8] = b"JDWP-Handshake";

/// The reply to IDSizes under the id 1: each id has 8 bytes.
const SIZES: [u8; 31] = [
    0x00, 0x00, 0x00, 0x1f, 0x00, 0x00, 0x00, 0x01, 0x80, 0x00, 0x00, 0x00, 0x00, 0x00, 0x08, 0x00,
    0x00, 0x00, 0x08, 0x00, 0x00, 0x00, 0x08, 0x00, 0x00, 0x00, 0x08, 0x00, 0x00, 0x00, 0x08,
];

/// The session's beginning: the handshake, and the widths of ids.
pub(crate) fn beginning(rt: &impl Abort, alloc: Global) -> Vec<u8> {
    let mut bytes = Vec::new(alloc);
    push(rt, &mut bytes, HELLO);
    push(rt, &mut bytes, &SIZES);
    bytes
}

/// A reply under this id without an error, with an int.
pub(crate) fn push_int_reply(rt: &impl Abort, bytes: &mut Vec<u8>, id: u32, number: i32) {
    push(rt, bytes, &15u32.to_be_bytes());
    push(rt, bytes, &id.to_be_bytes());
    push(rt, bytes, &[0x80, 0x00, 0x00]);
    push(rt, bytes, &number.to_be_bytes());
}

/// A composite with this policy of one event: a breakpoint of thread 1, by this request, at index 3 of method 20 of class 10.
pub(crate) fn push_breakpoint(rt: &impl Abort, bytes: &mut Vec<u8>, policy: u8, request: i32) {
    push(
        rt,
        bytes,
        &[
            0x00, 0x00, 0x00, 0x36, 0x00, 0x00, 0x00, 0x01, 0x00, 0x40, 0x64,
        ],
    );
    push(rt, bytes, &[policy, 0x00, 0x00, 0x00, 0x01, 0x02]);
    push(rt, bytes, &request.to_be_bytes());
    push(rt, bytes, &1u64.to_be_bytes());
    push(rt, bytes, &[0x01]);
    push(rt, bytes, &10u64.to_be_bytes());
    push(rt, bytes, &20u64.to_be_bytes());
    push(rt, bytes, &3u64.to_be_bytes());
}

fn push(rt: &impl Abort, bytes: &mut Vec<u8>, more: &[u8]) {
    bytes.extend_from_slice(more).expect(rt, "memory");
}
