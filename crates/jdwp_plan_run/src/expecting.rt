//! What lines expect and bind.
ghost use Rattle.std.specs.Prelude.{◌≡◌, ◌^◌, Some, true, not, IfErr, IfOk, OnOk};
ghost use Rattle.std.specs.Option.{option_map};
ghost use Rattle.jdwp_layout.specs.Meanings.{scalar_meaning};
ghost use Rattle.jdwp_debugger.specs.Holding.{is_held};
ghost use Rattle.jdwp_plan.specs.Cuts.{number_of};
ghost use Rattle.jdwp_plan.specs.Items as items_at;
ghost use Rattle.jdwp_plan_run.specs.Expecting as expecting;
ghost use Rattle.jdwp_plan_run.specs.Expecting.{AtStops, BothTexts, CompareStops, ExpectStops, HeldStops, InStops, IsHeldSo, IsNamedSo, IsSame, IsTold, ItemStops, NamedStops, SameStops, WordsDiffer, held_word, item_told};
ghost use Rattle.jdwp_plan_run.specs.RunsKept.{telling};

use crate::asking::filled;
use crate::stop::{LineRefusal, Stop};
use crate::telling::Told;
use jdwp_debugger::Debugger;
use jdwp_layout::{Data, Scalar};
use jdwp_plan::{Path, Values, is_expected, item_at};
use jdwp_value::ObjectId;
use std::alloc::Global;
use std::str;

/// The item at a path in what was told last.
pub(crate) fn item_of(alloc: Global, told: &Option<Told>, path: Path) -> Result<Scalar, Stop>
    ensures ok { IfOk result (λ item. item_told path (option_map telling told.now)
        ≡ Some (scalar_meaning item)) }
    ensures err { IfErr result (ItemStops path (option_map telling told.now)) }
{
    match told {
        Some(told) => item_in(alloc, &told.items, path),
        None => Err(Stop::Refused(LineRefusal::NoItem)),
    }
}

/// The item at a path in data.
fn item_in(alloc: Global, items: &Option<Data>, path: Path) -> Result<Scalar, Stop>
    ensures ok { IfOk result (λ item. expecting.item_in path items.now
        ≡ Some (scalar_meaning item)) }
    ensures err { IfErr result (InStops path items.now) }
{
    match items {
        Some(items) => item_among(alloc, items, path),
        None => Err(Stop::Refused(LineRefusal::NoItem)),
    }
}

/// The same where there are data.
fn item_among(alloc: Global, items: &Data, path: Path) -> Result<Scalar, Stop>
    ensures ok { IfOk result (λ item. items_at.item_at path items.now
        ≡ Some (scalar_meaning item)) }
    ensures err { IfErr result (AtStops path items.now) }
{
    match item_at(alloc, path, items.items()) {
        Ok(Some(item)) => Ok(item),
        Ok(None) => Err(Stop::Refused(LineRefusal::NoItem)),
        Err(_) => Err(Stop::NoMemory),
    }
}

/// Compares what was told last with a text.
pub(crate) fn expect(
    alloc: Global,
    values: &Values,
    told: &Option<Told>,
    text: &str,
) -> Result<(), Stop>
    ensures ok { OnOk result (IsTold values.now (option_map telling told.now) text.now) }
    ensures err { IfErr result (ExpectStops values.now (option_map telling told.now) text.now) }
{
    match told {
        Some(told) => expect_told(alloc, values, told.text.as_slice(), text.as_bytes()),
        None => Err(Stop::Refused(LineRefusal::NothingTold)),
    }
}

/// Compares a text that was told with this one, with the values in it.
fn expect_told(alloc: Global, values: &Values, told: &[u8], text: &[u8]) -> Result<(), Stop>
    ensures ok { OnOk result (IsSame values.now told.now text.now) }
    ensures err { IfErr result (SameStops values.now told.now text.now) }
{
    match filled(alloc, values, text) {
        Ok(expected) => compare(alloc, expected, told),
        Err(stop) => Err(stop),
    }
}

/// Compares a text that was told with the expected one.
fn compare(alloc: Global, expected: Vec<u8>, told: &[u8]) -> Result<(), Stop>
    ensures ok { OnOk result (expecting.is_expected_in expected.items told.now ≡ true) }
    ensures err { IfErr result (CompareStops expected.items told.now) }
{
    if is_expected_in(expected.as_slice(), told) {
        Ok(())
    } else {
        Err(differs(alloc, expected, told))
    }
}

/// Why a line is not carried out that expects another text than was told.
fn differs(alloc: Global, expected: Vec<u8>, told: &[u8]) -> Stop
    ensures { BothTexts expected.items told.now result }
{
    match Vec::from_slice(alloc, told) {
        Ok(found) => Stop::Differs { expected, found },
        Err(_) => Stop::NoMemory,
    }
}

/// Whether one of the lines of a text is the expected one.
fn is_expected_in(expected: &[u8], text: &[u8]) -> bool
    ensures { result ≡ expecting.is_expected_in expected.now text.now }
{
    text.split(|byte| *byte == b'\n')
        .any(|line| is_expected(expected, line))
}

/// Compares whether the thread that a text names is held.
pub(crate) fn expect_held(
    alloc: Global,
    debugger: &Debugger,
    values: &Values,
    text: &str,
    held: bool,
) -> Result<(), Stop>
    ensures ok { OnOk result (IsHeldSo values.now debugger.now text.now held) }
    ensures err { IfErr result (HeldStops values.now debugger.now text.now held) }
{
    match filled(alloc, values, text.as_bytes()) {
        Ok(full) => expect_named(alloc, debugger, full.as_slice(), held),
        Err(stop) => Err(stop),
    }
}

/// The same of a text with its values.
fn expect_named(alloc: Global, debugger: &Debugger, full: &[u8], held: bool) -> Result<(), Stop>
    ensures ok { OnOk result (IsNamedSo debugger.now full.now held) }
    ensures err { IfErr result (NamedStops debugger.now full.now held) }
{
    match thread_of(full) {
        Some(thread) => expect_thread(alloc, debugger, thread, held),
        None => Err(Stop::Refused(LineRefusal::NoId)),
    }
}

/// The same of a thread.
fn expect_thread(
    alloc: Global,
    debugger: &Debugger,
    thread: ObjectId,
    held: bool,
) -> Result<(), Stop>
    ensures ok { OnOk result (is_held debugger.now thread.0 ≡ held) }
    ensures err { IfErr result (λ why. (is_held debugger.now thread.0 ≡ not held)
        × WordsDiffer held why) }
{
    if debugger.is_held(thread) == held {
        Ok(())
    } else {
        Err(held_differs(alloc, held))
    }
}

/// Why a line is not carried out that expects this of a thread of which the other is so.
fn held_differs(alloc: Global, held: bool) -> Stop
    ensures { WordsDiffer held result }
{
    let expected = match Vec::from_slice(alloc, word_of(held)) {
        Ok(expected) => expected,
        Err(_) => return Stop::NoMemory,
    };
    match Vec::from_slice(alloc, word_of(!held)) {
        Ok(found) => Stop::Differs { expected, found },
        Err(_) => Stop::NoMemory,
    }
}

/// The word for a thread that is held, or is not.
fn word_of(held: bool) -> &'static [u8]
    ensures { result.now ≡ held_word held }
{
    if held { b"held" } else { b"free" }
}

/// The thread of an id, as `#1`.
fn thread_of(text: &[u8]) -> Option<ObjectId>
    ensures { option_map (λ id. id.0) result ≡ expecting.thread_of text.now }
{
    match text {
        [b'#', digits @ ..] => match number(digits) {
            Some(id) => Some(ObjectId(id)),
            None => None,
        },
        _ => None,
    }
}

/// A decimal number below 2^64, of digits alone.
fn number(digits: &[u8]) -> Option<u64>
    ensures { result ≡ number_of (2 ^ 64) digits.now }
{
    match str::from_utf8(digits) {
        Ok(text) => number_in(text),
        Err(_) => None,
    }
}

/// The same in a text.
fn number_in(text: &str) -> Option<u64>
    ensures { result ≡ number_of (2 ^ 64) text.now }
{
    if text.as_bytes().first() == Some(&b'+') {
        return None;
    }
    text.parse::<u64>().ok()
}
