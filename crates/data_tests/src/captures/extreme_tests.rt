//! Captures at their limits: the longest composite that a target sends, and long raw data.
use crate::asserts::expect_same;
use jdwp_judge::show;
use std::alloc::Global;
use std::process::Abort;

/// The handshakes, VirtualMachine.IDSizes and its reply: all widths 8.
const BEGINNING: &str =
    "> 4a4457502d48616e647368616b65\n< 4a4457502d48616e647368616b65\n> 0000000b00000001000107\n< 0000001f000000018000000000000800000008000000080000000800000008\n";

/// The same in words.
const BEGINNING_IN_WORDS: &str =
    "> hello\n< hello\n> 1 VirtualMachine.IDSizes\n< 1 reply VirtualMachine.IDSizes 0 8 8 8 8 8\n";

/// A capture that begins so and goes on with this is shown without a fault, and so it goes on in words.
fn is_shown(rt: &impl Abort, alloc: Global, more: &str, wanted: &str) {
    let text = format!(in alloc; "{BEGINNING}{more}\n").expect(rt, "memory");
    let lines = format!(in alloc; "{BEGINNING_IN_WORDS}{wanted}\n").expect(rt, "memory");
    let shown = show(alloc, text.as_str()).expect(rt, "memory");
    expect_same(rt, &shown.lines.as_str(), &lines.as_str());
    expect_same(rt, &shown.fault, &None);
}

/// So many times this text.
fn repeated(rt: &impl Abort, alloc: Global, text: &str, times: u32) -> String {
    let mut all = String::new(alloc);
    for _ in 0..times {
        all.push_str(text).expect(rt, "memory");
    }
    all
}

/// The text as a `String`.
fn text_of(rt: &impl Abort, alloc: Global, text: &str) -> String {
    String::from_str(alloc, text).expect(rt, "memory")
}

/// A packet of 34,704 bytes: CLASS_PREPARE for each of the requests 1 to 64, whose signature has 512 bytes, so that each event has 542.
fn longest_composite(rt: &impl Abort, alloc: Global) -> String {
    let signature = repeated(rt, alloc, "78", 512);
    let mut text = text_of(rt, alloc, "< 00008790000000020040640000000040");
    for request in 1..65u32 {
        write!(
            text,
            "08{request:08x}000000000000000101000000000000000a00000200{signature}00000007"
        )
        .expect(rt, "memory");
    }
    text
}

/// The same in words.
fn longest_composite_in_words(rt: &impl Abort, alloc: Global) -> String {
    let signature = repeated(rt, alloc, "x", 512);
    let mut text = text_of(rt, alloc, "< 2 Event.Composite 0 [");
    for request in 1..65u32 {
        let separator = if request == 1 { "" } else { ", " };
        write!(
            text,
            "{separator}(8, {request}, #1, 1, #10, \"{signature}\", 7)"
        )
        .expect(rt, "memory");
    }
    text.push_str("]").expect(rt, "memory");
    text
}

#[test]
fn the_longest_composite(rt: HostRuntime) {
    let packet = longest_composite(&rt, rt.alloc());
    let words = longest_composite_in_words(&rt, rt.alloc());
    is_shown(&rt, rt.alloc(), &packet, &words);
}

/// 5,000 bytes in hex: 0 to 249, again and again.
fn long_data(rt: &impl Abort, alloc: Global) -> String {
    let mut digits = String::new(alloc);
    for place in 0..5000u32 {
        let byte = place % 250;
        write!(digits, "{byte:02x}").expect(rt, "memory");
    }
    digits
}

/// VirtualMachine.ClassPaths, whose data are not read: each end sends 5,000 bytes.
#[test]
fn raw_data_longer_than_a_read(rt: HostRuntime) {
    let alloc = rt.alloc();
    let data = long_data(&rt, alloc);
    let packets = format!(in alloc;
        "> 000013930000000600010d{data}\n< 0000139300000006800000{data}"
    );
    let words = format!(in alloc;
        "> 6 VirtualMachine.ClassPaths raw {data}\n< 6 reply VirtualMachine.ClassPaths 0 raw {data}"
    );
    let (packets, words) = (packets.expect(&rt, "memory"), words.expect(&rt, "memory"));
    is_shown(&rt, alloc, &packets, &words);
}
