//! Targets at their limits: 64 threads that step, a command of the longest packet, and the longest composite.
use crate::asserts::expect_same;
use crate::targets::sessions::{Act, Target, comes, greet, sends, target};
use jdwp_target::{Stepped, Turn};
use jdwp_value::ObjectId;
use jdwp_wire::ErrorCode;
use std::alloc::Global;
use std::process::Abort;
use test_parts::MACHINE_A;

/// Machine A with the threads 101 to 164, each of which calls a method.
fn with_64_threads(rt: &impl Abort, alloc: Global) -> String {
    let (front, _) = MACHINE_A.split_once("\"threads\":[").expect(rt, "threads");
    let mut text = String::from_str(alloc, front).expect(rt, "memory");
    text.push_str("\"threads\":[").expect(rt, "memory");
    for id in 101..165u32 {
        let separator = if id == 101 { "" } else { "," };
        write!(
            text,
            "{separator}{{\"id\":{id},\"name\":\"\",\"group\":5,\"steps\":[[\"call\",{id},10,20,0,[]]]}}"
        )
        .expect(rt, "memory");
    }
    text.push_str("]}").expect(rt, "memory");
    text
}

/// Whether each of the threads 101 to 164 makes such a step.
fn all_step(target: &mut Target, told: Stepped) -> bool {
    for id in 101..165u64 {
        if target.step(ObjectId(id)) != Ok(told) {
            return false;
        }
    }
    true
}

#[test]
fn sixty_four_threads_step(rt: HostRuntime) {
    let alloc = rt.alloc();
    let mut target = target(&rt, alloc, with_64_threads(&rt, alloc).as_str(), false, 2);
    greet(&rt, alloc, &mut target);
    expect_same(&rt, &target.live().len(), &64usize);
    expect_same(&rt, &all_step(&mut target, Stepped::Quiet), &true);
    expect_same(&rt, &all_step(&mut target, Stepped::Ended), &true);
    expect_same(&rt, &target.live().len(), &0usize);
}

/// VirtualMachine.ClassesBySignature under the id 5 in a packet of 65,536 bytes, of which this is the last.
fn longest_command(rt: &impl Abort, alloc: Global, last: u8) -> Vec<u8> {
    let head = [0, 1, 0, 0, 0, 0, 0, 5, 0, 1, 2, 0, 0, 0xff, 0xf1];
    let mut packet = Vec::from_slice(alloc, &head).expect(rt, "memory");
    for _ in 0..65_520u32 {
        packet.push(b'x').expect(rt, "memory");
    }
    packet.push(last).expect(rt, "memory");
    packet
}

/// A target is sent the command, and replies to it with this error code and these bytes.
fn replies(rt: &impl Abort, alloc: Global, last: u8, error: ErrorCode, output: &str) {
    let mut target = target(rt, alloc, MACHINE_A, false, 2);
    greet(rt, alloc, &mut target);
    let command = longest_command(rt, alloc, last);
    expect_same(rt, &target.feed(&command), &65_536usize);
    expect_same(rt, &(target.turn() == Ok(Turn::Replied(5, error))), &true);
    expect_same(rt, &sends(rt, alloc, &mut target, output), &true);
}

/// No class has so long a signature, and a byte 0xFF is no UTF-8.
#[test]
fn the_longest_packet(rt: HostRuntime) {
    let none = "0000000f 00000005 80 0000 00000000";
    replies(&rt, rt.alloc(), b'x', ErrorCode::NONE, none);
    let refused = "0000000b 00000005 80 0067";
    replies(&rt, rt.alloc(), 0xff, ErrorCode::ILLEGAL_ARGUMENT, refused);
}

/// So many times this text.
fn repeated(rt: &impl Abort, alloc: Global, text: &str, times: u32) -> String {
    let mut all = String::new(alloc);
    for _ in 0..times {
        all.push_str(text).expect(rt, "memory");
    }
    all
}

/// A machine whose thread 1 prepares class 12, the signature of which has 512 bytes.
fn with_a_long_name(rt: &impl Abort, alloc: Global) -> String {
    let name = repeated(rt, alloc, "x", 512);
    let mut text = String::from_str(
        alloc,
        "{\"name\":\"L\",\"sizes\":[8,8,8,8,8],\"groups\":[{\"id\":5,\"name\":\"main\",\"parent\":0}],\"classes\":[{\"id\":12,\"tag\":1,\"signature\":\"",
    )
    .expect(rt, "memory");
    text.push_str(&name).expect(rt, "memory");
    text.push_str(
        "\",\"modifiers\":1,\"super\":0,\"interfaces\":[],\"source\":null,\"fields\":[],\"methods\":[]}],\"objects\":[],\"threads\":[{\"id\":1,\"name\":\"main\",\"group\":5,\"steps\":[[\"prepare\",12]]}]}",
    ).expect(rt, "memory");
    text
}

/// A packet of 34,704 bytes under the id 2: CLASS_PREPARE for each of the requests 1 to 64, each event of 542 bytes.
fn longest_composite(rt: &impl Abort, alloc: Global) -> String {
    let name = repeated(rt, alloc, "78", 512);
    let head = "00008790 00000002 00 40 64 00 00000040";
    let mut text = String::from_str(alloc, head).expect(rt, "memory");
    for request in 1..65u32 {
        write!(
            text,
            "08 {request:08x} 0000000000000001 01 000000000000000c 00000200{name} 00000003"
        )
        .expect(rt, "memory");
    }
    text
}

/// 64 requests report one class together.
#[test]
fn the_longest_composite_is_sent(rt: HostRuntime) {
    let alloc = rt.alloc();
    let mut target = target(&rt, alloc, with_a_long_name(&rt, alloc).as_str(), false, 2);
    greet(&rt, alloc, &mut target);
    let requests = Act::GrantsSoMany("08 00 00000000", 64);
    let granted = comes(&rt, alloc, &mut target, &requests);
    expect_same(&rt, &granted, &true);
    let stepped = target.step(ObjectId(1)) == Ok(Stepped::Reported);
    expect_same(&rt, &stepped, &true);
    expect_same(&rt, &target.waiting(), &34_704usize);
    let packet = longest_composite(&rt, alloc);
    expect_same(&rt, &sends(&rt, alloc, &mut target, &packet), &true);
}
