//! A mirror of more threads than a byte counts, and of the thread of id 0; a debugger at the longest composite, at four that wait, and at
//! the longest data that are not read.
use crate::asserts::expect_same;
use crate::debuggers::boxed::debugger;
use crate::debuggers::mirror_tests::event;
use crate::debuggers::turning_tests::{HELLO, SIZES, VM_START};
use jdwp_debugger::{Command, Debugger, Mirror, Read, Ticket};
use jdwp_event::{Composite, Event};
use jdwp_layout::{Answer, Data, Datum, Scalar};
use jdwp_value::ObjectId;
use std::alloc::Global;
use std::process::Abort;
use test_parts::bytes;

/// The mirror learns an event of the kind THREAD_START, with a policy, of a thread.
fn starts(rt: &impl Abort, alloc: Global, mirror: &mut Mirror, policy: u8, thread: u64) {
    let started = event(rt, alloc, 6, policy, thread);
    mirror.learn_composite(&started).expect(rt, "memory");
}

/// A mirror that saw each of the threads 0 to 256 start, from the last on, with no thread suspended by it.
fn of_257_threads(rt: &impl Abort, alloc: Global) -> Mirror {
    let mut mirror = Mirror::new(alloc);
    for before in 0..257u64 {
        starts(rt, alloc, &mut mirror, 0, 256u64.saturating_sub(before));
    }
    mirror
}

/// Whether these are the threads 256 to 0, each with this count, held or not.
fn are_all(mirror: &Mirror, count: u32, held: bool) -> bool {
    let mut next = 257u64;
    for known in mirror.known() {
        next = next.saturating_sub(1);
        if known.id.0 != next || known.count != count || known.held != held {
            return false;
        }
    }
    next == 0 && mirror.known().len() == 257
}

#[test]
fn threads_0_to_256_are_known(rt: HostRuntime) {
    let mut mirror = of_257_threads(&rt, rt.alloc());
    expect_same(&rt, &are_all(&mirror, 0, false), &true);
    expect_same(&rt, &mirror.count(ObjectId(0)), &Some(0));
    expect_same(&rt, &mirror.count(ObjectId(257)), &None);
    // An event of thread 0 that suspends all: its own count is 1, and so is each other's, which it shows alive no more than before.
    starts(&rt, rt.alloc(), &mut mirror, 2, 0);
    expect_same(&rt, &mirror.count(ObjectId(256)), &Some(1));
    expect_same(&rt, &mirror.is_held(ObjectId(256)), &false);
    expect_same(&rt, &mirror.is_held(ObjectId(0)), &true);
}

/// What the debugger reads as these bytes, as hex digits, come.
fn read(rt: &impl Abort, alloc: Global, debugger: &mut Debugger, hex: &str) -> Read {
    debugger.feed(&bytes(alloc, hex).expect(rt, "memory"));
    debugger.turn(alloc).expect(rt, "a turn")
}

/// A debugger that read the target's handshake.
fn greeted(rt: &impl Abort, alloc: Global) -> Box<Debugger> {
    let mut debugger = debugger(rt, alloc, 1);
    debugger.attach();
    read(rt, alloc, &mut debugger, HELLO);
    debugger
}

/// A debugger that read the widths of ids, too.
pub(crate) fn established(rt: &impl Abort, alloc: Global) -> Box<Debugger> {
    let mut debugger = greeted(rt, alloc);
    read(rt, alloc, &mut debugger, SIZES);
    debugger
}

/// A packet of 34,704 bytes under the id 2: CLASS_PREPARE for each of the requests 1 to 64, whose signature has 512 bytes, so that each
/// event has 542.
fn longest_composite(rt: &impl Abort, alloc: Global) -> Vec<u8> {
    let head = [
        0, 0, 0x87, 0x90, 0, 0, 0, 2, 0, 0x40, 0x64, 0, 0, 0, 0, 0x40,
    ];
    let mut packet = Vec::from_slice(alloc, &head).expect(rt, "memory");
    for request in 1..65u8 {
        push(
            rt,
            &mut packet,
            &[8, 0, 0, 0, request, 0, 0, 0, 0, 0, 0, 0, 1],
        );
        push(rt, &mut packet, &[1, 0, 0, 0, 0, 0, 0, 0, 10, 0, 0, 2, 0]);
        push(rt, &mut packet, &[b'x'; 512]);
        push(rt, &mut packet, &[0, 0, 0, 7]);
    }
    packet
}

/// Appends bytes to a packet.
fn push(rt: &impl Abort, packet: &mut Vec<u8>, bytes: &[u8]) {
    packet.extend_from_slice(bytes).expect(rt, "memory");
}

/// Whether the first of these fields are CLASS_PREPARE for this request, of thread 1.
fn are_of_request(fields: &[Scalar], wanted: i32) -> bool {
    match fields {
        [
            Scalar::Byte(8),
            Scalar::Int(request),
            Scalar::ObjectId(thread),
            ..
        ] => { *request == wanted && thread.0 == 1 }
        _ => false,
    }
}

/// Whether these are seven fields, of which the last four are those of class 10, with a signature of 512 bytes.
fn are_of_class(fields: &[Scalar]) -> bool {
    match fields {
        [
            _,
            _,
            _,
            Scalar::Byte(1),
            Scalar::ReferenceTypeId(class),
            Scalar::String(signature),
            Scalar::Int(7),
        ] => class.0 == 10 && signature.len() == 512,
        _ => false,
    }
}

/// Whether this is CLASS_PREPARE of thread 1 and class 10 for this request, with a signature of 512 bytes.
fn is_prepared(event: &Event, wanted: i32) -> bool {
    are_of_request(event.fields(), wanted) && are_of_class(event.fields())
}

/// Whether these are CLASS_PREPARE for the requests 1 to 64, in this order.
fn are_prepared(composite: &Composite) -> bool {
    let mut request = 0i32;
    for event in composite.events() {
        request = request.saturating_add(1);
        if !is_prepared(event, request) {
            return false;
        }
    }
    request == 64
}

/// Whether this is a composite of CLASS_PREPARE for the requests 1 to 64.
fn is_longest_composite(read: &Read) -> bool {
    match read {
        Read::Seen(composite) => are_prepared(composite),
        _ => false,
    }
}

#[test]
fn the_longest_composite(rt: HostRuntime) {
    let alloc = rt.alloc();
    let mut debugger = established(&rt, alloc);
    let packet = longest_composite(&rt, alloc);
    expect_same(&rt, &packet.len(), &34_704usize);
    expect_same(&rt, &debugger.feed(&packet), &34_704usize);
    let read = debugger.turn(alloc).expect(&rt, "a turn");
    expect_same(&rt, &is_longest_composite(&read), &true);
    expect_same(&rt, &debugger.mirror().count(ObjectId(1)), &Some(0));
}

/// How many composites the debugger tells of in the turn that reads the widths of ids.
fn told_with_the_widths(rt: &impl Abort, alloc: Global, debugger: &mut Debugger) -> usize {
    match read(rt, alloc, debugger, SIZES) {
        Read::Sizes(composites) => composites.len(),
        _ => panic!(rt; "no widths"),
    }
}

/// Four composites may wait for the widths of ids: with these all four are told.
#[test]
fn four_composites_wait(rt: HostRuntime) {
    let alloc = rt.alloc();
    let mut debugger = greeted(&rt, alloc);
    for _ in 0..4u32 {
        let parked = matches!(read(&rt, alloc, &mut debugger, VM_START), Read::Parked);
        expect_same(&rt, &parked, &true);
    }
    let told = told_with_the_widths(&rt, alloc, &mut debugger);
    expect_same(&rt, &told, &4usize);
    expect_same(&rt, &debugger.last().len(), &5usize);
}

/// The longest reply under the id 2: a packet of 65,536 bytes, whose data have no period of 256.
fn longest_reply(rt: &impl Abort, alloc: Global) -> Vec<u8> {
    let head = [0, 1, 0, 0, 0, 0, 0, 2, 0x80, 0, 0];
    let mut packet = Vec::from_slice(alloc, &head).expect(rt, "memory");
    for place in 0..65_525u32 {
        packet.push((place % 251) as u8).expect(rt, "memory");
    }
    packet
}

/// A debugger that knows the widths of ids, and has asked VirtualMachine.ClassPaths.
fn that_asked_class_paths(rt: &impl Abort, alloc: Global) -> Box<Debugger> {
    let mut debugger = established(rt, alloc);
    let asked = debugger.ask(alloc, Command::raw(1, 13, Vec::new(alloc)));
    expect_same(rt, &asked, &Ok(Ticket(1)));
    debugger
}

/// The data of the answer that was read.
fn data_of(rt: &impl Abort, read: Read) -> Data {
    match read {
        Read::Answered(_, Answer::Data(data)) => data,
        _ => panic!(rt; "no data"),
    }
}

/// The data are these bytes, and their first item has them, too.
fn are_raw(rt: &impl Abort, alloc: Global, data: &Data, wanted: &[u8]) {
    expect_same(rt, &data.raw(), &Some(wanted));
    let item = Datum::Raw(Vec::from_slice(alloc, wanted).expect(rt, "memory"));
    expect_same(rt, &data.items().first(), &Some(&item));
}

/// VirtualMachine.ClassPaths, whose data are not read: its answer has the bytes of the reply as they came.
#[test]
fn the_longest_data_that_are_not_read(rt: HostRuntime) {
    let alloc = rt.alloc();
    let mut debugger = that_asked_class_paths(&rt, alloc);
    let reply = longest_reply(&rt, alloc);
    expect_same(&rt, &debugger.feed(&reply), &65_536usize);
    let read = debugger.turn(alloc).expect(&rt, "a turn");
    let wanted = reply.get(11..).expect(&rt, "data");
    are_raw(&rt, alloc, &data_of(&rt, read), wanted);
}
