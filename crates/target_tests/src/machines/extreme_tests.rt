//! Machines of a long array, and of a long script.
use crate::asserts::expect_same;
use crate::machines::machine_tests::{OBJECTS, machine, query_of};
use crate::machines::script_tests::edited;
use jdwp_layout::{Answer, Data, Datum, Scalar};
use jdwp_machine::Machine;
use jdwp_script_machine::ScriptMachine;
use jdwp_value::Value;
use std::alloc::Global;
use std::process::Abort;

/// The objects with an array of 4,096 ints, 7 but for the last, in place of that of object 52.
fn with_long_array(rt: &impl Abort, alloc: Global) -> String {
    let mut array = String::from_str(alloc, "[\"I\",[").expect(rt, "memory");
    for _ in 0..4_095u32 {
        array.push_str("7,").expect(rt, "memory");
    }
    array.push_str("8]]").expect(rt, "memory");
    edited(rt, alloc, OBJECTS, "[\"L\",[50,51,0]]", array.as_str())
}

/// The data that a command with these data is answered.
fn told(
    rt: &impl Abort,
    alloc: Global,
    machine: &ScriptMachine,
    row: (u8, u8),
    content: &str,
) -> Data {
    let query = query_of(rt, alloc, row, content, row);
    match machine.query(&query).expect(rt, "memory") {
        Answer::Data(told) => told,
        Answer::Error(_) => panic!(rt; "the command is refused"),
    }
}

/// How many elements are told, and the last of them.
fn elements_in(rt: &impl Abort, told: &Data) -> (usize, Option<Value>) {
    match told.items() {
        [Datum::Region(region)] => {
            let elements = region.elements();
            (elements.len(), elements.last().copied())
        }
        _ => panic!(rt; "no elements"),
    }
}

#[test]
fn an_array_of_4096_elements(rt: HostRuntime) {
    let alloc = rt.alloc();
    let text = with_long_array(&rt, alloc);
    let machine = machine(&rt, alloc, text.as_str());
    let length = told(&rt, alloc, &machine, (13, 1), "34");
    expect_same(
        &rt,
        &matches!(length.items(), [Datum::One(Scalar::Int(4_096))]),
        &true,
    );
    let all = told(&rt, alloc, &machine, (13, 2), "34 00000000 00001000");
    let elements = elements_in(&rt, &all);
    expect_same(&rt, &elements, &(4_096usize, Some(Value::Int(8))));
}

/// So many letters.
fn letters(rt: &impl Abort, alloc: Global, count: u32) -> String {
    let mut text = String::new(alloc);
    for _ in 0..count {
        text.push_str("x").expect(rt, "memory");
    }
    text
}

/// The objects, and 17 more from id 100 on, each with a text of 62,000 letters: more than 1,048,576 bytes.
fn long_script(rt: &impl Abort, alloc: Global) -> String {
    let text = letters(rt, alloc, 62_000);
    let mut objects = String::from_str(alloc, "\"objects\":[").expect(rt, "memory");
    for id in 100..117u32 {
        write!(
            objects,
            "{{\"id\":{id},\"class\":10,\"fields\":[],\"text\":\"{text}\",\"array\":null}},"
        )
        .expect(rt, "memory");
    }
    edited(rt, alloc, OBJECTS, "\"objects\":[", objects.as_str())
}

/// How long the text is that is told.
fn length_in(told: &Data) -> Option<usize> {
    match told.items() {
        [Datum::One(Scalar::String(text))] => Some(text.len()),
        _ => None,
    }
}

#[test]
fn a_script_of_a_megabyte(rt: HostRuntime) {
    let alloc = rt.alloc();
    let text = long_script(&rt, alloc);
    expect_same(&rt, &(text.len() > 1_048_576), &true);
    let machine = machine(&rt, alloc, text.as_str());
    let last = told(&rt, alloc, &machine, (10, 1), "74");
    expect_same(&rt, &length_in(&last), &Some(62_000usize));
}
