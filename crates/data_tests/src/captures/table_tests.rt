//! Captures by each table of commands.
use crate::asserts::expect_same;
use jdwp_judge::{check, check_under, show, show_under};
use jdwp_show::{CaptureFault, Table, Verdict};
use jdwp_wire::DataFault;
use std::alloc::Global;
use std::process::Abort;

/// Handshakes, and VirtualMachine.IDSizes with its reply: all widths 8.
const BEGINNING: &str =
    "> 4a4457502d48616e647368616b65\n< 4a4457502d48616e647368616b65\n> 0000000b00000001000107\n< 0000001f000000018000000000000800000008000000080000000800000008\n";

/// The same in words.
const WORDS: &str =
    "> hello\n< hello\n> 1 VirtualMachine.IDSizes\n< 1 reply VirtualMachine.IDSizes 0 8 8 8 8 8\n";

/// Lines of packets, their words by the standard's table, and by that of the profile `jdi`.
static ROWS: [(&str, &str, &str); 6] = [
    // VirtualMachine.ClassPaths: base `/`, and no paths; and base `b`, paths `p` and `q`, and boot path `r`
    (
        "> 0000000b0000000600010d\n< 0000001800000006800000000000012f0000000000000000\n",
        "> 6 VirtualMachine.ClassPaths\n< 6 reply VirtualMachine.ClassPaths 0 raw 000000012f0000000000000000\n",
        "> 6 VirtualMachine.ClassPaths\n< 6 reply VirtualMachine.ClassPaths 0 \"/\" [] []\n",
    ),
    (
        "> 0000000b0000000600010d\n< 00000027000000068000000000000162000000020000000170000000017100000001\n< 0000000172\n",
        "> 6 VirtualMachine.ClassPaths\n< 6 reply VirtualMachine.ClassPaths 0 raw 00000001620000000200000001700000000171000000010000000172\n",
        "> 6 VirtualMachine.ClassPaths\n< 6 reply VirtualMachine.ClassPaths 0 \"b\" [\"p\", \"q\"] [\"r\"]\n",
    ),
    // ClassType.InvokeMethod of class 10, thread 1 and method 20 with an int
    (
        "> 0000003000000007000303000000000000000a0000000000000001000000000000001400000001490000000700000000\n< 000000190000000780000049000000094c0000000000000000\n",
        "> 7 ClassType.InvokeMethod raw 000000000000000a0000000000000001000000000000001400000001490000000700000000\n< 7 reply ClassType.InvokeMethod 0 raw 49000000094c0000000000000000\n",
        "> 7 ClassType.InvokeMethod #10 #1 #20 [I:7] 0\n< 7 reply ClassType.InvokeMethod 0 I:9 L#0\n",
    ),
    // InterfaceType.InvokeMethod, of the one thread alone, which returns nothing
    (
        "> 0000002b00000008000501000000000000000a000000000000000100000000000000140000000000000001\n< 0000001500000008800000564c0000000000000000\n",
        "> 8 InterfaceType.InvokeMethod raw 000000000000000a000000000000000100000000000000140000000000000001\n< 8 reply InterfaceType.InvokeMethod 0 raw 564c0000000000000000\n",
        "> 8 InterfaceType.InvokeMethod #10 #1 #20 [] 1\n< 8 reply InterfaceType.InvokeMethod 0 V L#0\n",
    ),
    // ObjectReference.InvokeMethod of object 50, with itself, which returns a string
    (
        "> 0000003c0000000900090600000000000000320000000000000001000000000000000a0000000000000014000000014c000000000000003200000000\n< 0000001d000000098000007300000000000000334c0000000000000000\n",
        "> 9 ObjectReference.InvokeMethod raw 00000000000000320000000000000001000000000000000a0000000000000014000000014c000000000000003200000000\n< 9 reply ObjectReference.InvokeMethod 0 raw 7300000000000000334c0000000000000000\n",
        "> 9 ObjectReference.InvokeMethod #50 #1 #10 #20 [L#50] 0\n< 9 reply ObjectReference.InvokeMethod 0 s#51 L#0\n",
    ),
    // a row that is raw in each, and one that is read in each
    (
        "> 0000000f0000000500011200000000\n> 0000001300000003000b0c0000000000000001\n",
        "> 5 VirtualMachine.RedefineClasses raw 00000000\n> 3 ThreadReference.SuspendCount #1\n",
        "> 5 VirtualMachine.RedefineClasses raw 00000000\n> 3 ThreadReference.SuspendCount #1\n",
    ),
];

/// A capture that begins so and goes on with these lines is shown in these words by the table.
fn is_shown(rt: &impl Abort, alloc: Global, table: Table, more: &str, wanted: &str) {
    let text = format!(in alloc; "{BEGINNING}{more}").expect(rt, "memory");
    let lines = format!(in alloc; "{WORDS}{wanted}").expect(rt, "memory");
    let shown = show_under(alloc, table, text.as_str()).expect(rt, "memory");
    expect_same(rt, &shown.lines.as_str(), &lines.as_str());
    expect_same(rt, &shown.fault, &None);
}

#[test]
fn tables_tell_as_their_rows_say(rt: HostRuntime) {
    for (more, standard, jdi) in ROWS.iter() {
        is_shown(&rt, rt.alloc(), Table::Standard, more, standard);
        is_shown(&rt, rt.alloc(), Table::Jdi, more, jdi);
    }
}

/// A ClassPaths that carries a byte, and a reply to one that ends within its second list; and where the data of each don't read.
static FAULTS: [(&str, Verdict); 2] = [
    (
        "> 0000000c0000000600010dab\n",
        Verdict::No(5, CaptureFault::BadData(DataFault::Extra(0))),
    ),
    (
        "> 0000000b0000000600010d\n< 0000001700000006800000000000012f00000000000000\n",
        Verdict::No(6, CaptureFault::BadData(DataFault::Short(12))),
    ),
];

#[test]
fn data_that_a_table_reads_are_judged(rt: HostRuntime) {
    let alloc = rt.alloc();
    for (more, wanted) in FAULTS.iter() {
        let text = format!(in alloc; "{BEGINNING}{more}").expect(&rt, "memory");
        let text = text.as_str();
        expect_same(
            &rt,
            &check(alloc, text).expect(&rt, "memory"),
            &Verdict::Yes,
        );
        let shown = show(alloc, text).expect(&rt, "memory");
        expect_same(&rt, &shown.fault, &None);
        let judged = check_under(alloc, Table::Jdi, text).expect(&rt, "memory");
        expect_same(&rt, &judged, wanted);
    }
}
