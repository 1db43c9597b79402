//! Requests, what passes them and what is counted, by worked examples.
use crate::asserts::{expect_same, expect_that};
use jdwp_event::{
    ClassSeen, Composite, Happening, Modifier, Occurrence, Place, Policy, PreparedClass, Request,
    RequestId, Requests, StepOrigin, ThrownException, count_down, count_gathered, gather, matches,
};
use jdwp_layout::{layout_of, write};
use jdwp_value::{
    Location, MethodId, ObjectId, ObjectTag, ReferenceTypeId, TaggedId, TypeTag, Value,
};
use jdwp_wire::{IdSizes, Wire};
use std::alloc::Global;
use std::process::Abort;
use test_parts::bytes;

const NOWHERE: StepOrigin = StepOrigin {
    frames: 0,
    line: None,
};

/// From two frames at line 2.
const AT_LINE_2: StepOrigin = StepOrigin {
    frames: 2,
    line: Some(2),
};

/// From the only frame at line 1.
const AT_LINE_1: StepOrigin = StepOrigin {
    frames: 1,
    line: Some(1),
};

/// An index of a method of a class.
fn at(class: u64, method: u64, index: u64) -> Location {
    Location::At {
        tag: TypeTag::Class,
        class: ReferenceTypeId(class),
        method: MethodId(method),
        index,
    }
}

/// A class of this signature, which reaches 10 and 11.
fn seen(rt: &impl Abort, alloc: Global, signature: &str) -> ClassSeen {
    ClassSeen {
        signature: text(rt, alloc, signature),
        reaches: ids(rt, alloc, [ReferenceTypeId(10), ReferenceTypeId(11)]),
    }
}

/// The two ids as a `Vec`.
fn ids(rt: &impl Abort, alloc: Global, ids: [ReferenceTypeId; 2]) -> Vec<ReferenceTypeId> {
    ids.to_vec(alloc).expect(rt, "memory")
}

/// A place of class 10, which reaches 11.
fn place(rt: &impl Abort, alloc: Global, index: u64, line: Option<u32>, frames: u32) -> Place {
    Place {
        location: at(10, 20, index),
        line,
        frames,
        class: seen(rt, alloc, "Ljava/lang/Main;"),
    }
}

/// A thread moves to this index and line, with so many frames.
fn moved_to(
    rt: &impl Abort,
    alloc: Global,
    thread: u64,
    index: u64,
    line: Option<u32>,
    frames: u32,
) -> Happening {
    let place = place(rt, alloc, index, line, frames);
    Happening::new(ObjectId(thread), Occurrence::Moved(place))
}

/// Thread 1 moves to index 3, line 2, with one frame.
fn moved(rt: &impl Abort, alloc: Global) -> Happening {
    moved_to(rt, alloc, 1, 3, Some(2), 1)
}

/// Thread 1 throws an exception of class 30, which reaches 31.
fn thrown(rt: &impl Abort, alloc: Global, caught_at: Location) -> Happening {
    let place = place(rt, alloc, 3, Some(2), 1);
    let exception = ThrownException {
        exception: TaggedId {
            tag: ObjectTag::Object,
            id: ObjectId(7),
        },
        caught_at,
        reaches: ids(rt, alloc, [ReferenceTypeId(30), ReferenceTypeId(31)]),
    };
    Happening::new(ObjectId(1), Occurrence::Threw(place, exception))
}

/// The text as a `String`.
fn text(rt: &impl Abort, alloc: Global, text: &str) -> String {
    String::from_str(alloc, text).expect(rt, "memory")
}

/// The modifier that these digits are.
fn modifier_of(rt: &impl Abort, alloc: Global, hex: &str) -> Modifier {
    let sizes = eight(rt);
    let all = bytes(alloc, hex).expect(rt, "memory");
    let (modifier, used) = Modifier::take(alloc, &all, &sizes).expect(rt, "a modifier");
    expect_same(rt, &used, &all.len());
    modifier
}

/// Ids of 8 bytes.
fn eight(rt: &impl Abort) -> IdSizes {
    IdSizes::new(8, 8, 8, 8, 8).expect(rt, "widths")
}

/// The modifiers that these digits are, with a space between two.
fn modifiers_of(rt: &impl Abort, alloc: Global, hex: &str) -> Vec<Modifier> {
    let mut modifiers = Vec::new(alloc);
    for one in hex.split_whitespace() {
        let modifier = modifier_of(rt, alloc, one);
        modifiers.push(modifier).expect(rt, "memory");
    }
    modifiers
}

/// An id, the bytes of a kind and a policy, and modifiers as digits with a space between two.
type Asked = (u32, u8, u8, &'static str);

/// The request that is asked for so, whose steps are measured from there.
fn request(rt: &impl Abort, alloc: Global, asked: &Asked, origin: StepOrigin) -> Request {
    let (id, kind, policy, hex) = *asked;
    let modifiers = modifiers_of(rt, alloc, hex);
    request_with(rt, alloc, (id, kind, policy), modifiers, origin)
}

/// The request of this id, kind and policy with these modifiers.
fn request_with(
    rt: &impl Abort,
    alloc: Global,
    (id, kind, policy): (u32, u8, u8),
    modifiers: Vec<Modifier>,
    origin: StepOrigin,
) -> Request {
    let id = RequestId::new(id).expect(rt, "an id");
    let request = Request::new(alloc, id, kind, policy, modifiers, origin);
    request.expect(rt, "memory")
}

/// The requests that are asked for so.
fn requests(rt: &impl Abort, alloc: Global, asked: &[Asked], origin: StepOrigin) -> Requests {
    let mut requests = Requests::new(alloc);
    for one in asked {
        let request = request(rt, alloc, one, origin);
        requests.insert(request).expect(rt, "memory");
    }
    requests
}

/// Modifiers as bytes where ids have 8, and whether they pass it: Count, Conditional, ThreadOnly, ClassOnly, LocationOnly, FieldOnly,
/// InstanceOnly and SourceNameMatch.
const FILTERS: &str = "01.00000001 true
01.00000002 false
01.00000000 false
01.ffffffff false
02.00000001 false
03.0000000000000001 true
03.0000000000000002 false
04.000000000000000a true
04.000000000000000b true
04.000000000000000c false
07.01.000000000000000a.0000000000000014.0000000000000003 true
07.01.000000000000000a.0000000000000014.0000000000000004 false
07.01.000000000000000a.0000000000000015.0000000000000003 false
07.01.000000000000000b.0000000000000014.0000000000000003 false
07.00.0000000000000000.0000000000000000.0000000000000000 false
09.000000000000000a.0000000000000001 false
0b.0000000000000000 false
0c.00000001.2a false";

#[test]
fn modifiers_are_filters(rt: HostRuntime) {
    let here = moved(&rt, rt.alloc());
    for row in FILTERS.lines() {
        filters(&rt, rt.alloc(), row, &here);
    }
}

/// A breakpoint with the modifier of a row reports this, or does not, as the row says.
fn filters(rt: &impl Abort, alloc: Global, row: &str, what: &Happening) {
    let (hex, wanted) = row.split_once(' ').expect(rt, "a row");
    let modifiers = modifiers_of(rt, alloc, hex);
    let request = request_with(rt, alloc, (1, 2, 0), modifiers, NOWHERE);
    expect_same(rt, &matches(&request, what), &(wanted == "true"));
}

/// Whether a pattern passes the class java.lang.Main.
static PATTERNS: [(bool, &str); 8] = [
    (true, "java.lang.Main"),
    (true, "*.Main"),
    (true, "java.*"),
    (true, "*"),
    (false, "*Main*"),
    (false, "lang.*"),
    (false, "java/lang/Main"),
    (false, "a.java.lang.Main"),
];

/// Whether a breakpoint passes at the class java.lang.Main whose class has to match the pattern, or is not to match it.
fn passes_class(rt: &impl Abort, alloc: Global, pattern: &str, excludes: bool) -> bool {
    let pattern = text(rt, alloc, pattern);
    let modifier = if excludes {
        Modifier::ClassExclude(pattern)
    } else {
        Modifier::ClassMatch(pattern)
    };
    let modifiers = vec![in alloc; modifier].expect(rt, "memory");
    let request = request_with(rt, alloc, (1, 2, 0), modifiers, NOWHERE);
    matches(&request, &moved(rt, alloc))
}

#[test]
fn patterns_are_filters(rt: HostRuntime) {
    for &(wanted, pattern) in PATTERNS.iter() {
        let found = passes_class(&rt, rt.alloc(), pattern, false);
        expect_same(&rt, &found, &wanted);
    }
    expect_that(&rt, passes_class(&rt, rt.alloc(), "javax.*", true));
    expect_that(&rt, !passes_class(&rt, rt.alloc(), "java.*", true));
}

/// An ExceptionOnly: the class, whether caught ones and uncaught ones are to pass. Whether a caught one passes, and an uncaught one.
static EXCEPTIONS: [(Asked, bool, bool); 6] = [
    ((1, 4, 0, "08.0000000000000000.01.00"), true, false),
    ((1, 4, 0, "08.0000000000000000.00.01"), false, true),
    ((1, 4, 0, "08.000000000000001e.01.01"), true, true),
    ((1, 4, 0, "08.000000000000001f.01.01"), true, true),
    ((1, 4, 0, "08.000000000000000a.01.01"), false, false),
    ((1, 4, 0, "08.000000000000001e.00.00"), false, false),
];

#[test]
fn exceptions_pass_by_class_and_by_whether_they_are_caught(rt: HostRuntime) {
    let caught = thrown(&rt, rt.alloc(), at(10, 20, 9));
    let uncaught = thrown(&rt, rt.alloc(), Location::Null);
    for (asked, wanted, other) in EXCEPTIONS.iter() {
        let request = request(&rt, rt.alloc(), asked, NOWHERE);
        let found = (matches(&request, &caught), matches(&request, &uncaught));
        expect_same(&rt, &found, &(*wanted, *other));
    }
}

/// From two frames at line 2, a Step of thread 1: its size and depth. The frames now, the line now, and whether the step passes.
static STEPS: [(Asked, u32, Option<u32>, bool); 12] = [
    (
        (1, 1, 0, "0a.0000000000000001.00000000.00000000"),
        3,
        Some(2),
        true,
    ),
    (
        (1, 1, 0, "0a.0000000000000001.00000001.00000000"),
        3,
        Some(2),
        true,
    ),
    (
        (1, 1, 0, "0a.0000000000000001.00000001.00000000"),
        2,
        Some(2),
        false,
    ),
    (
        (1, 1, 0, "0a.0000000000000001.00000001.00000000"),
        2,
        Some(3),
        true,
    ),
    (
        (1, 1, 0, "0a.0000000000000001.00000001.00000000"),
        2,
        None,
        true,
    ),
    (
        (1, 1, 0, "0a.0000000000000001.00000000.00000001"),
        2,
        Some(2),
        true,
    ),
    (
        (1, 1, 0, "0a.0000000000000001.00000000.00000001"),
        3,
        Some(3),
        false,
    ),
    (
        (1, 1, 0, "0a.0000000000000001.00000001.00000001"),
        1,
        Some(2),
        true,
    ),
    (
        (1, 1, 0, "0a.0000000000000001.00000000.00000002"),
        2,
        Some(3),
        false,
    ),
    (
        (1, 1, 0, "0a.0000000000000001.00000000.00000002"),
        1,
        Some(3),
        true,
    ),
    (
        (1, 1, 0, "0a.0000000000000001.00000002.00000000"),
        1,
        Some(3),
        false,
    ),
    (
        (1, 1, 0, "0a.0000000000000001.00000000.00000003"),
        1,
        Some(3),
        false,
    ),
];

#[test]
fn steps_pass_by_size_and_depth(rt: HostRuntime) {
    for (asked, frames, line, wanted) in STEPS.iter() {
        let request = request(&rt, rt.alloc(), asked, AT_LINE_2);
        let there = moved_to(&rt, rt.alloc(), 1, 4, *line, *frames);
        expect_same(&rt, &matches(&request, &there), wanted);
    }
}

/// Steps over calls in lines of thread 1.
const STEPS_OVER: [Asked; 1] = [(1, 1, 0, "0a.0000000000000001.00000001.00000001")];

/// Whether a move to this line with so many frames is reported; then it is counted.
fn reports_move(
    rt: &impl Abort,
    alloc: Global,
    requests: &mut Requests,
    line: u32,
    frames: u32,
) -> bool {
    let there = moved_to(rt, alloc, 1, 4, Some(line), frames);
    let found = gather(alloc, requests, &there).expect(rt, "memory");
    count_down(requests, &there);
    found.is_some()
}

/// The line from which the steps of the first request are measured.
fn origin_line(requests: &Requests) -> Option<u32> {
    match requests.as_slice().first() {
        Some(request) => request.origin().line,
        None => None,
    }
}

/// To line 2, into the call, out again on the same line, to line 3: the line, the frames, and whether it is reported.
static MOVES: [(u32, u32, bool); 4] = [(2, 1, true), (7, 2, false), (2, 1, false), (3, 1, true)];

#[test]
fn a_step_over_a_call_begins_where_it_last_reported(rt: HostRuntime) {
    let mut requests = requests(&rt, rt.alloc(), &STEPS_OVER, AT_LINE_1);
    for &(line, frames, wanted) in MOVES.iter() {
        let found = reports_move(&rt, rt.alloc(), &mut requests, line, frames);
        expect_same(&rt, &found, &wanted);
    }
    expect_same(&rt, &origin_line(&requests), &Some(3));
}

/// Breakpoints at a Count of 2: that of the request 1 stands before the thread, and that of the request 2 behind it.
const COUNTS: [Asked; 2] = [
    (1, 2, 0, "01.00000002 03.0000000000000001"),
    (2, 2, 0, "03.0000000000000001 01.00000002"),
];

/// A move of a thread is reported by this request alone, or by none; then it is counted.
fn is_reported_by(
    rt: &impl Abort,
    alloc: Global,
    requests: &mut Requests,
    thread: u64,
    wanted: Option<u32>,
) {
    let here = moved_to(rt, alloc, thread, 3, Some(2), 1);
    let found = gather(alloc, requests, &here).expect(rt, "memory");
    expect_same(rt, &found.is_some(), &wanted.is_some());
    passes_alone(rt, requests, &here, wanted);
    count_gathered(requests, &here, &found);
}

/// Of these requests this one alone reports the happening, or none.
fn passes_alone(rt: &impl Abort, requests: &Requests, happening: &Happening, wanted: Option<u32>) {
    for request in requests.as_slice() {
        let is_wanted = wanted == Some(request.id());
        expect_same(rt, &matches(request, happening), &is_wanted);
    }
}

/// The thread that moves, and the request that reports it.
static COUNTED: [(u64, Option<u32>); 4] = [(2, None), (1, Some(1)), (1, Some(2)), (1, None)];

#[test]
fn a_count_that_was_reached_is_counted_though_a_later_modifier_fails(rt: HostRuntime) {
    let mut requests = requests(&rt, rt.alloc(), &COUNTS, NOWHERE);
    for &(thread, wanted) in COUNTED.iter() {
        is_reported_by(&rt, rt.alloc(), &mut requests, thread, wanted);
    }
    expect_same(&rt, &requests.len(), &2);
}

/// The composite that requests report of this.
fn told(rt: &impl Abort, alloc: Global, requests: &Requests, what: &Happening) -> Composite {
    let found = gather(alloc, requests, what).expect(rt, "memory");
    found.expect(rt, "a composite")
}

/// The data of a composite as hexadecimal digits.
fn digits(rt: &impl Abort, alloc: Global, composite: Composite) -> String {
    let data = composite.into_data(alloc).expect(rt, "memory");
    let layouts = layout_of(64, 100).expect(rt, "a row").layouts;
    let layout = layouts.expect(rt, "layouts").request;
    let mut bytes = Vec::new(alloc);
    let wrote = write(&layout, &eight(rt), data.items(), &mut bytes);
    wrote.expect(rt, "the data are written");
    hexadecimal(rt, alloc, &bytes)
}

/// The bytes as hexadecimal digits.
fn hexadecimal(rt: &impl Abort, alloc: Global, bytes: &[u8]) -> String {
    let mut text = String::new(alloc);
    for byte in bytes {
        write!(text, "{byte:02x}").expect(rt, "memory");
    }
    text
}

/// Breakpoints of one place under the requests 2 and 1, with the policies ALL and NONE.
const TOGETHER: [Asked; 2] = [
    (
        2,
        2,
        2,
        "07.01.000000000000000a.0000000000000014.0000000000000003",
    ),
    (
        1,
        2,
        0,
        "07.01.000000000000000a.0000000000000014.0000000000000003",
    ),
];

#[test]
fn two_requests_report_together(rt: HostRuntime) {
    let requests = requests(&rt, rt.alloc(), &TOGETHER, NOWHERE);
    let composite = told(&rt, rt.alloc(), &requests, &moved(&rt, rt.alloc()));
    expect_same(&rt, &composite.policy(), &2);
    expect_same(&rt, &composite.events().len(), &2);
    are_digits(
        &rt,
        rt.alloc(),
        composite,
        "0200000002\
         0200000001000000000000000101000000000000000a00000000000000140000000000000003\
         0200000002000000000000000101000000000000000a00000000000000140000000000000003",
    );
}

/// The data of a composite are these digits.
fn are_digits(rt: &impl Abort, alloc: Global, composite: Composite, wanted: &str) {
    let found = digits(rt, alloc, composite);
    expect_same(rt, &found.as_str(), &wanted);
}

/// Requests under the ids 1 to 3, of which the last replaces another kind.
const THREE: [Asked; 4] = [(3, 2, 0, ""), (1, 6, 0, ""), (2, 2, 0, ""), (3, 7, 0, "")];

/// Whether these are the ids and the kinds of the requests.
fn are_kept(requests: &Requests, wanted: &[(u32, u8)]) -> bool {
    for (request, (id, kind)) in requests.as_slice().iter().zip(wanted) {
        if request.id() != *id || request.kind() != *kind {
            return false;
        }
    }
    requests.len() == wanted.len() && requests.is_empty() == wanted.is_empty()
}

/// They are kept by rising id, and removed by kind and id, all breakpoints at once, and all.
#[test]
fn requests_are_kept_and_removed(rt: HostRuntime) {
    expect_that(&rt, are_kept(&Requests::new(rt.alloc()), &[]));
    let mut requests = requests(&rt, rt.alloc(), &THREE, NOWHERE);
    expect_that(&rt, are_kept(&requests, &[(1, 6), (2, 2), (3, 7)]));
    requests.remove(2, 3);
    expect_that(&rt, are_kept(&requests, &[(1, 6), (2, 2), (3, 7)]));
    requests.remove(7, 3);
    expect_that(&rt, are_kept(&requests, &[(1, 6), (2, 2)]));
    requests.remove_breakpoints();
    expect_that(&rt, are_kept(&requests, &[(1, 6)]));
    requests.clear();
    expect_that(&rt, are_kept(&requests, &[]));
}

/// A breakpoint of thread 1 at its second time.
const SECOND: Asked = (1, 2, 0, "03.0000000000000001 01.00000002");

/// The thread that a modifier names.
fn thread_of(modifier: Option<&Modifier>) -> Option<ObjectId> {
    match modifier {
        Some(Modifier::ThreadOnly(thread)) => Some(*thread),
        _ => None,
    }
}

/// The count that a modifier has.
fn count_of(modifier: Option<&Modifier>) -> Option<i32> {
    match modifier {
        Some(Modifier::Count(count)) => Some(*count),
        _ => None,
    }
}

/// The request has these two modifiers, in the order sent.
fn has_both(rt: &impl Abort, request: &Request) {
    expect_same(rt, &request.modifier_count(), &2);
    expect_same(rt, &thread_of(request.modifier(0)), &Some(ObjectId(1)));
    expect_same(rt, &count_of(request.modifier(1)), &Some(2));
    expect_same(rt, &request.modifier(2).is_none(), &true);
}

#[test]
fn modifiers_are_kept_in_the_order_sent(rt: HostRuntime) {
    has_both(&rt, &request(&rt, rt.alloc(), &SECOND, NOWHERE));
}

/// Something that thread 1 does, which a request of this kind reports.
fn occurrence(rt: &impl Abort, alloc: Global, kind: u8) -> Occurrence {
    match kind {
        6 => Occurrence::Started,
        7 => Occurrence::RanOut,
        8 => Occurrence::Prepared(interface(rt, alloc)),
        _ => there(kind, place(rt, alloc, 3, None, 1)),
    }
}

/// An interface that was prepared.
fn interface(rt: &impl Abort, alloc: Global) -> PreparedClass {
    PreparedClass {
        tag: TypeTag::Interface,
        id: ReferenceTypeId(10),
        status: 3,
        class: seen(rt, alloc, "LA;"),
    }
}

/// Something at a place, which a request of this kind reports.
fn there(kind: u8, place: Place) -> Occurrence {
    match kind {
        40 => Occurrence::Entered(place),
        41 | 42 => Occurrence::Left(place, Value::Int(5)),
        _ => Occurrence::Moved(place),
    }
}

/// The byte of each kind, and its data behind the thread.
static KINDS: [(u8, &str); 8] = [
    (1, "01000000000000000a00000000000000140000000000000003"),
    (2, "01000000000000000a00000000000000140000000000000003"),
    (40, "01000000000000000a00000000000000140000000000000003"),
    (41, "01000000000000000a00000000000000140000000000000003"),
    (
        42,
        "01000000000000000a000000000000001400000000000000034900000005",
    ),
    (8, "02000000000000000a000000034c413b00000003"),
    (6, ""),
    (7, ""),
];

/// What the request 9 of this kind, of policy EVENT_THREAD and without modifiers, reports has these data behind the thread.
fn has_data(rt: &impl Abort, alloc: Global, kind: u8, wanted: &str) {
    let requests = requests(rt, alloc, &[(9, kind, 1, "")], NOWHERE);
    let what = Happening::new(ObjectId(1), occurrence(rt, alloc, kind));
    let all = format!(in alloc; "0100000001{kind:02x}000000090000000000000001{wanted}");
    let all = all.expect(rt, "memory");
    are_digits(rt, alloc, told(rt, alloc, &requests, &what), all.as_str());
}

#[test]
fn each_kind_has_its_data(rt: HostRuntime) {
    for (kind, wanted) in KINDS.iter() {
        has_data(&rt, rt.alloc(), *kind, wanted);
    }
}

#[test]
fn an_exception_has_its_data(rt: HostRuntime) {
    let requests = requests(&rt, rt.alloc(), &[(9, 4, 0, "")], NOWHERE);
    let happening = thrown(&rt, rt.alloc(), Location::Null);
    are_digits(
        &rt,
        rt.alloc(),
        told(&rt, rt.alloc(), &requests, &happening),
        "000000000104000000090000000000000001\
         01000000000000000a000000000000001400000000000000034c0000000000000007\
         00000000000000000000000000000000000000000000000000",
    );
}

/// The machine starts and dies.
#[test]
fn the_machine_has_its_data(rt: HostRuntime) {
    let start = Composite::vm_start(rt.alloc(), Policy::None, ObjectId(1));
    let wanted = "00000000015a000000000000000000000001";
    are_digits(&rt, rt.alloc(), start.expect(&rt, "memory"), wanted);
    let death = Composite::vm_death(rt.alloc()).expect(&rt, "memory");
    are_digits(&rt, rt.alloc(), death, "00000000016300000000");
}
