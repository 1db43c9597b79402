//! An end with packets of at most 2,048 bytes.
use crate::asserts::{expect_same, expect_that};
use jdwp_end::{End, Front};
use jdwp_wire::{FrameFault, HANDSHAKE, IdSizes, Limits};
use std::alloc::Global;
use std::process::Abort;

/// A closed end.
fn end(rt: &impl Abort, alloc: Global) -> End {
    let limits = Limits::new(2048, 1, 1, 1).expect(rt, "limits in range");
    End::new(alloc, limits).expect(rt, "memory")
}

/// What there is to handle, without the packet: its id and how many bytes it takes.
fn front_of(end: &End) -> Result<Option<(u32, usize)>, FrameFault> {
    match end.front() {
        Front::More => Ok(None),
        Front::Fault(fault) => Err(fault),
        Front::Handshake => Ok(Some((0, 14))),
        Front::Packet(header, used) => Ok(Some((header.id, used))),
    }
}

/// The data of the packet in front: whether they lie in one piece, how many bytes they have, and the last of them.
fn data_of(end: &mut End) -> Option<(bool, usize, Option<u8>)> {
    let Front::Packet(_, used) = end.front() else {
        return None;
    };
    if let Some(data) = end.data_in_place(used) {
        return Some((true, data.len(), data.last().copied()));
    }
    let data = end.data_joined(used);
    Some((false, data.len(), data.last().copied()))
}

#[test]
fn a_session_in_pieces(rt: HostRuntime) {
    is_read_in_pieces(&rt, &mut end(&rt, rt.alloc()));
}

/// A closed end takes nothing; once it is open, the handshake stands in front as its last byte came.
fn is_read_in_pieces(rt: &impl Abort, end: &mut End) {
    expect_that(rt, !end.is_open());
    expect_same(rt, &end.feed(&HANDSHAKE), &0);
    end.open();
    expect_that(rt, end.is_open());
    expect_same(rt, &end.room(), &2048);
    expect_same(rt, &end.feed(&HANDSHAKE[..13]), &13);
    expect_same(rt, &front_of(end), &Ok(None));
    expect_same(rt, &end.feed(&HANDSHAKE[13..]), &1);
    expect_same(rt, &front_of(end), &Ok(Some((0, 14))));
}

/// What is in front of an end at which the handshake was handled, once these bytes came.
fn front_behind(
    rt: &impl Abort,
    alloc: Global,
    length: [u8; 4],
) -> Result<Option<(u32, usize)>, FrameFault> {
    let mut end = established(rt, alloc);
    end.feed(&length);
    front_of(&end)
}

#[test]
fn a_length_above_the_packet_limit(rt: HostRuntime) {
    let greatest = front_behind(&rt, rt.alloc(), [0, 0, 8, 0]);
    expect_same(&rt, &greatest, &Ok(None));
    let one_more = front_behind(&rt, rt.alloc(), [0, 0, 8, 1]);
    expect_same(&rt, &one_more, &Err(FrameFault::TooLong));
}

/// A packet of 2,040 bytes behind the handshake wraps round the end of the room of 2,048, and is found once its last byte came.
#[test]
fn a_packet_that_wraps(rt: HostRuntime) {
    let mut end = established(&rt, rt.alloc());
    expect_same(
        &rt,
        &end.feed(&[0, 0, 0x07, 0xf8, 0, 0, 0, 7, 0, 1, 7]),
        &11,
    );
    expect_same(&rt, &end.feed(&[0; 2028]), &2028);
    expect_same(&rt, &front_of(&end), &Ok(None));
    expect_same(&rt, &end.feed(&[3; 100]), &9);
    expect_same(&rt, &front_of(&end), &Ok(Some((7, 2040))));
    expect_same(&rt, &data_of(&mut end), &Some((false, 2029, Some(3))));
    expect_same(&rt, &front_of(&end), &Ok(Some((7, 2040))));
}

/// A packet that does not wrap is read where it lies, and what follows it is not looked at.
#[test]
fn a_packet_in_one_piece(rt: HostRuntime) {
    let mut end = established(&rt, rt.alloc());
    end.feed(&[0, 0, 0, 15, 0, 0, 0, 7, 0, 1, 7, 1, 2, 3, 4, 9]);
    expect_same(&rt, &front_of(&end), &Ok(Some((7, 15))));
    expect_same(&rt, &data_of(&mut end), &Some((true, 4, Some(4))));
}

/// An end at which the handshake was handled.
fn established(rt: &impl Abort, alloc: Global) -> End {
    let mut end = end(rt, alloc);
    end.open();
    end.feed(&HANDSHAKE);
    if let Front::Handshake = end.front() {
        end.take_off(HANDSHAKE.len());
    }
    end
}

/// The handshake and an int wait to leave, and the end is closed.
fn end_with_two(rt: &impl Abort, alloc: Global) -> End {
    let sizes = IdSizes::new(8, 8, 8, 8, 8).expect(rt, "widths in range");
    let mut end = end(rt, alloc);
    end.open();
    end.enqueue(&HANDSHAKE);
    end.put(&7i32, &sizes);
    end.close();
    end
}

/// What is enqueued is taken though the end is closed.
fn leaves(rt: &impl Abort, end: &mut End) {
    expect_that(rt, !end.is_open() && !end.is_paused());
    expect_same(rt, &end.waiting(), &18);
    let mut out = [0; 16];
    expect_same(rt, &end.take(&mut out), &16);
    expect_that(rt, out.as_slice().starts_with(HANDSHAKE.as_slice()));
    expect_same(rt, &end.take(&mut out), &2);
    expect_that(rt, out.as_slice().starts_with([0u8, 7].as_slice()));
}

#[test]
fn what_is_enqueued_is_taken(rt: HostRuntime) {
    leaves(&rt, &mut end_with_two(&rt, rt.alloc()));
}

/// An open end whose ring goes on at its byte 4,090, and at which the handshake waits.
fn end_near_the_turn(rt: &impl Abort, alloc: Global) -> End {
    let mut end = end(rt, alloc);
    end.open();
    end.enqueue(&[1; 4090]);
    let count = end.waiting();
    end.leave(count);
    end.open();
    end.enqueue(&HANDSHAKE);
    end
}

/// Whether the end lends these two pieces.
fn lends(end: &End, pieces: [&[u8]; 2]) -> bool {
    let (first, second) = end.waiting_slices();
    first == pieces[0] && second == pieces[1]
}

/// The handshake leaves in two pieces, from where they lie.
fn leaves_in_two_pieces(rt: &impl Abort, end: &mut End) {
    expect_that(rt, lends(end, [b"JDWP-H", b"andshake"]));
    end.leave(6);
    expect_that(rt, lends(end, [b"andshake", b""]));
    expect_same(rt, &end.waiting(), &8);
    end.leave(100);
    expect_that(rt, lends(end, [b"", b""]));
}

/// What lies in one piece is lent in one, whether it begins the ring or not: the handshake and an int behind it, and then what is left of
/// them.
#[test]
fn one_piece_is_lent_whole(rt: HostRuntime) {
    let mut end = end_with_two(&rt, rt.alloc());
    expect_that(&rt, lends(&end, [b"JDWP-Handshake\0\0\0\x07", b""]));
    end.leave(13);
    expect_that(&rt, lends(&end, [b"e\0\0\0\x07", b""]));
}

/// The ring goes on where it was, so what is enqueued next wraps round its end: it leaves in two pieces.
#[test]
fn what_wraps_leaves_in_two_pieces(rt: HostRuntime) {
    leaves_in_two_pieces(&rt, &mut end_near_the_turn(&rt, rt.alloc()));
}

#[test]
fn a_loss_keeps_nothing(rt: HostRuntime) {
    let mut end = end_with_two(&rt, rt.alloc());
    end.open();
    end.enqueue(&HANDSHAKE);
    end.lose();
    expect_same(&rt, &(end.waiting(), end.room()), &(0, 0));
}
