//! Worked examples of frames.
use crate::asserts::{expect_same, expect_that};
use jdwp_wire::{
    ErrorCode, FrameFault, HANDSHAKE, IdKind, IdSizes, Limits, Next, NextHello, Width, next_hello,
    next_packet, next_packet_within,
};
use std::alloc::Global;
use std::process::Abort;
use test_parts::bytes;

/// Bytes as text, and what stands in front of them.
const HELLOS: &str = "JDWP-Handshake = Whole
JDWP-Handshake and more = Whole
JDWP-HandshakE = Fault(BadHandshake(13))
GET / HTTP/1.1 = Fault(BadHandshake(0))";

#[test]
fn the_handshake(rt: HostRuntime) {
    for count in 0..14usize {
        expect_same(&rt, &next_hello(&HANDSHAKE[..count]), &NextHello::More);
    }
    for row in HELLOS.lines() {
        let (text, wanted) = row.split_once(" = ").expect(&rt, "a row");
        let found = format!(in rt.alloc(); "{:?}", next_hello(text.as_bytes()));
        expect_same(&rt, &found.expect(&rt, "memory").as_str(), &wanted);
    }
}

/// Bytes as hex digits, and what stands in front of them: packets, and bytes whose last shows a fault.
const PACKETS: &str = "0000000d.00000007.00.0108.aabbcc \
    Whole(PacketRef { header: Header { length: 13, id: 7, kind: Command { set: 1, number: 8 } }, body: [170, 187] }, 13)
0000000b.00000003.80.0071 \
    Whole(PacketRef { header: Header { length: 11, id: 3, kind: Reply { error: ErrorCode(113) } }, body: [] }, 11)
0000000a Fault(ShortLength) 1
00000000 Fault(ShortLength) 1
00010001 Fault(TooLong) 2
ffffffff Fault(TooLong) 2
0000000b.00000001.01 Fault(BadFlags) 3
00010000.00000001.7f Fault(BadFlags) 3";

/// What stands in front of the bytes. A header has its own bytes; before the last byte that shows a fault, there is none, and it has its
/// number.
fn told(rt: &impl Abort, alloc: Global, bytes: &[u8]) -> String {
    let next = next_packet(bytes);
    let text = match next {
        Next::Fault(fault) => {
            let (_, before) = bytes.split_last().expect(rt, "a byte");
            expect_that(rt, matches!(next_packet(before), Next::More));
            format!(in alloc; "{next:?} {}", fault.number())
        }
        Next::Whole(packet, _) => {
            let header = packet.header.to_bytes();
            expect_that(rt, bytes.starts_with(&header));
            format!(in alloc; "{next:?}")
        }
        Next::More => format!(in alloc; "{next:?}"),
    };
    text.expect(rt, "memory")
}

#[test]
fn packets_and_faults(rt: HostRuntime) {
    for row in PACKETS.lines() {
        let (hex, wanted) = row.split_once(' ').expect(&rt, "a row");
        let bytes = bytes(rt.alloc(), hex).expect(&rt, "memory");
        expect_same(&rt, &told(&rt, rt.alloc(), &bytes).as_str(), &wanted);
    }
}

#[test]
fn widths_of_ids(rt: HostRuntime) {
    let sizes = IdSizes::new(1, 2, 3, 4, 8).expect(&rt, "widths");
    let widths = (
        sizes.field(),
        sizes.method(),
        sizes.object(),
        sizes.reference(),
        sizes.frame(),
    );
    expect_same(&rt, &widths, &(1, 2, 3, 4, 8));
}

#[test]
fn a_width_that_there_is_not(rt: HostRuntime) {
    for place in 0..5usize {
        for width in [0, 9, 4_294_967_295] {
            let mut widths = [8; 5];
            widths[place] = width;
            let [field, method, object, reference, frame] = widths;
            let sizes = IdSizes::new(field, method, object, reference, frame);
            expect_that(&rt, sizes.is_err());
        }
    }
}

#[test]
fn a_width_of_one_kind(rt: HostRuntime) {
    for bytes in 1..=8u8 {
        let width = Width::new(bytes).expect(&rt, "a width");
        expect_same(&rt, &width.bytes(), &usize::from(bytes));
    }
    for bytes in [0, 9, 255] {
        expect_that(&rt, Width::new(bytes).is_none());
    }
    let sizes = IdSizes::new(1, 2, 3, 4, 8).expect(&rt, "widths");
    expect_same(&rt, &sizes.width(IdKind::ReferenceType).bytes(), &4);
    expect_same(&rt, &sizes.width(IdKind::Frame).bytes(), &8);
}

#[test]
fn the_standard_limits(rt: HostRuntime) {
    let wanted = Some(Limits::standard());
    expect_same(&rt, &Limits::new(65536, 64, 64, 64), &wanted);
}

/// The most bytes of a packet, live threads, requests and commands that wait, and whether there are such limits.
static LIMITS: [(u32, u32, u32, u32, bool); 12] = [
    (2048, 64, 3, 64, true),
    (2048, 64, 4, 64, false),
    (2047, 64, 3, 64, false),
    (1_048_576, 1024, 1024, 1024, true),
    (1_048_577, 64, 64, 64, false),
    (65536, 1025, 64, 64, false),
    (65536, 0, 64, 64, false),
    (1_048_576, 64, 1025, 64, false),
    (65536, 64, 0, 64, false),
    (65536, 64, 64, 1025, false),
    (65536, 64, 64, 0, false),
    (65536, 64, 4_294_967_295, 64, false),
];

#[test]
fn limits_of_sessions(rt: HostRuntime) {
    for &(packet, live, requests, pending, wanted) in LIMITS.iter() {
        let limits = Limits::new(packet, live, requests, pending);
        expect_same(&rt, &limits.is_some(), &wanted);
        if let Some(it) = limits {
            let found = (it.packet(), it.live(), it.requests(), it.pending());
            expect_same(&rt, &found, &(packet, live, requests, pending));
        }
    }
}

#[test]
fn packets_within_limits(rt: HostRuntime) {
    let limits = Limits::new(2048, 64, 3, 64).expect(&rt, "limits");
    let (over, at) = ([0, 0, 8, 1], [0, 0, 8, 0]);
    let fault = next_packet_within(&over, &limits);
    let is_long = matches!(fault, Next::Fault(FrameFault::TooLong));
    expect_that(&rt, is_long);
    expect_that(&rt, matches!(next_packet_within(&at, &limits), Next::More));
    expect_that(&rt, matches!(next_packet(&over), Next::More));
}

/// Each named error, and its number.
static ERROR_CODES: [(ErrorCode, u16); 24] = [
    (ErrorCode::NONE, 0),
    (ErrorCode::INVALID_THREAD, 10),
    (ErrorCode::INVALID_THREAD_GROUP, 11),
    (ErrorCode::THREAD_NOT_SUSPENDED, 13),
    (ErrorCode::INVALID_OBJECT, 20),
    (ErrorCode::INVALID_CLASS, 21),
    (ErrorCode::CLASS_NOT_PREPARED, 22),
    (ErrorCode::INVALID_METHODID, 23),
    (ErrorCode::INVALID_LOCATION, 24),
    (ErrorCode::INVALID_FIELDID, 25),
    (ErrorCode::INVALID_FRAMEID, 30),
    (ErrorCode::TYPE_MISMATCH, 34),
    (ErrorCode::INVALID_SLOT, 35),
    (ErrorCode::INVALID_MODULE, 42),
    (ErrorCode::NOT_IMPLEMENTED, 99),
    (ErrorCode::ABSENT_INFORMATION, 101),
    (ErrorCode::INVALID_EVENT_TYPE, 102),
    (ErrorCode::ILLEGAL_ARGUMENT, 103),
    (ErrorCode::INTERNAL, 113),
    (ErrorCode::INVALID_INDEX, 503),
    (ErrorCode::INVALID_LENGTH, 504),
    (ErrorCode::INVALID_STRING, 506),
    (ErrorCode::INVALID_ARRAY, 508),
    (ErrorCode::INVALID_COUNT, 512),
];

/// The law that says the same is called once, which shows that it can be: it answers nothing that could be compared.
#[test]
fn error_codes(rt: HostRuntime) {
    jdwp_wire::laws::names_error_codes();
    for (code, number) in ERROR_CODES.iter() {
        expect_same(&rt, &code.0, number);
    }
}
