//! A session that is lost after each byte that comes to an end.
use crate::asserts::expect_same_for;
use crate::losses::{Loss, WAYS, Way};
use crate::machine_a::{begins_anew_on_a, waits_on_a};
use crate::sessions::{Line, events_of};
use crate::worked::CROSSED;
use jdwp_link::LinkEvent;
use std::alloc::Global;
use std::process::Abort;

/// How many bytes come to an end at this event of a session.
fn bytes_at(rt: &impl Abort, alloc: Global, events: &[LinkEvent], place: usize) -> Option<usize> {
    let (front, behind) = events.split_at(place.min(events.len()));
    let is_to_target = match behind.first() {
        Some(LinkEvent::ToTarget(_)) => true,
        Some(LinkEvent::ToDebugger(_)) => false,
        _ => return None,
    };
    let (debugger, target) = waits_on_a(rt, alloc, front);
    Some(if is_to_target { debugger } else { target })
}

/// The place of the first event at which the target handles something.
fn first_turn(events: &[LinkEvent]) -> usize {
    for (place, event) in events.iter().enumerate() {
        if let LinkEvent::TargetTurn = event {
            return place;
        }
    }
    events.len()
}

/// The first number of bytes of a delivery behind which a loss is not as it is to be; None where there is none.
fn first_byte(
    rt: &impl Abort,
    alloc: Global,
    events: &[LinkEvent],
    place: usize,
    way: &Way,
) -> Option<usize> {
    let Some(count) = bytes_at(rt, alloc, events, place) else {
        return None;
    };
    let begun = place > first_turn(events) || way.handles;
    for bytes in 0..=count {
        let loss = Loss {
            events: place,
            bytes,
            way: *way,
            begun,
        };
        if !begins_anew_on_a(rt, alloc, events, &loss) {
            return Some(bytes);
        }
    }
    None
}

/// The first event, and the number of its bytes, behind which a loss is not as it is to be; None where there is none.
fn first_wrong(
    rt: &impl Abort,
    alloc: Global,
    events: &[LinkEvent],
    way: &Way,
) -> Option<(usize, usize)> {
    for place in 0..events.len() {
        if let Some(bytes) = first_byte(rt, alloc, events, place, way) {
            return Some((place, bytes));
        }
    }
    None
}

/// After each byte of each direction a session is lost in this way.
pub(crate) fn is_lost_anywhere(rt: &impl Abort, alloc: Global, lines: &[Line], way: &Way) {
    let events = events_of(rt, alloc, lines);
    let found = first_wrong(rt, alloc, &events, way);
    expect_same_for(rt, &found, &None, &way.name);
}

#[test]
fn the_target_loses_first(rt: HostRuntime) {
    is_lost_anywhere(&rt, rt.alloc(), &CROSSED, &WAYS[0]);
}

#[test]
fn the_target_loses_first_and_what_it_put_is_read(rt: HostRuntime) {
    is_lost_anywhere(&rt, rt.alloc(), &CROSSED, &WAYS[1]);
}

#[test]
fn the_debugger_loses_first(rt: HostRuntime) {
    is_lost_anywhere(&rt, rt.alloc(), &CROSSED, &WAYS[2]);
}

#[test]
fn the_debugger_loses_first_and_what_it_put_is_handled(rt: HostRuntime) {
    is_lost_anywhere(&rt, rt.alloc(), &CROSSED, &WAYS[3]);
}
