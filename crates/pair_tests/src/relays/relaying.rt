//! Whole sessions over fake connections.
use super::fakes::{Behind, Manner, Paper, Pen, Side, Stream};
use super::packets::{ANSWERS, ASKS};
use crate::asserts::expect_same_for;
use jdwp_record::{ReadHalf, WriteHalf};
use jdwp_relay::{Capture, Halves, Readiness, Relay, RelayFault};
use std::alloc::Global;
use std::io;
use std::io::ErrorKind;
use std::process::Abort;
use std::rc::Rc;

/// Never.
const NEVER: usize = usize::MAX;

/// Waits that end at once; too many of them fail.
#[derive(Drop)]
struct Waits {
    left: u32,
}

impl Readiness for Waits {
    fn wait(&mut self) -> io::Result<()> {
        match self.left.checked_sub(1) {
            Some(left) => {
                self.left = left;
                Ok(())
            }
            None => Err(io::Error::from(ErrorKind::TimedOut)),
        }
    }
}

/// Both halves of the connection to an end.
fn halves(rt: &impl Abort, side: &Rc<Side>) -> Halves<ReadHalf<Stream>, WriteHalf<Stream>> {
    let source = side.clone().expect(rt, "memory");
    let sink = side.clone().expect(rt, "memory");
    Halves {
        source: ReadHalf::new(Stream { side: source }),
        sink: WriteHalf::new(Stream { side: sink }),
    }
}

/// How a session ends between these ends, with a capture on this paper.
fn relays(
    rt: &impl Abort,
    alloc: Global,
    debugger: &Rc<Side>,
    target: &Rc<Side>,
    paper: &Rc<Paper>,
) -> Result<(), RelayFault> {
    let mut relay = Relay::new(alloc).expect(rt, "memory");
    let mut capture = Capture::new(alloc, Pen(paper.clone().expect(rt, "memory")));
    let mut waits = Waits { left: 10_000 };
    relay.run(
        &mut halves(rt, debugger),
        &mut halves(rt, target),
        &mut capture,
        &mut waits,
    )
}

/// Gives and takes so many bytes at once, and is never lost.
fn manner(gives: usize, takes: usize) -> Manner {
    Manner {
        gives,
        takes,
        breaks_at: NEVER,
        behind: Behind::End,
    }
}

/// What an end says comes to the other, in many cuttings, and each end's half-close once behind it; and the capture's lines hold it.
#[test]
fn all_comes_in_many_cuttings(rt: HostRuntime) {
    for gives in [1, 2, 3, 7, 13, 14, 15, 25, 44, 45] {
        for takes in [1, 14, 45] {
            let paper = Paper::new(&rt, rt.alloc(), takes, NEVER);
            let debugger = Side::new(&rt, &paper, &ASKS, '<', manner(gives, takes));
            let target = Side::new(&rt, &paper, &ANSWERS, '>', manner(takes, gives));
            relays(&rt, rt.alloc(), &debugger, &target, &paper).expect(&rt, "the end of both");
            let cut = (gives, takes);
            expect_same_for(&rt, &target.took().as_slice(), &ASKS.as_slice(), &cut);
            expect_same_for(&rt, &debugger.took().as_slice(), &ANSWERS.as_slice(), &cut);
            expect_same_for(&rt, &target.endings(), &(1, 0), &cut);
            expect_same_for(&rt, &debugger.endings(), &(1, 0), &cut);
            expect_same_for(&rt, &paper.sent('>').as_slice(), &ASKS.as_slice(), &cut);
            expect_same_for(&rt, &paper.sent('<').as_slice(), &ANSWERS.as_slice(), &cut);
            let early = debugger.is_early() || target.is_early();
            expect_same_for(&rt, &early, &false, &cut);
        }
    }
}

/// An end that is reset behind what it says: the other gets all of it, and then a reset.
#[test]
fn resets_are_handed_on_behind_all(rt: HostRuntime) {
    for gives in 1..26 {
        let paper = Paper::new(&rt, rt.alloc(), NEVER, NEVER);
        let resets = Manner {
            behind: Behind::Reset,
            ..manner(gives, 45)
        };
        let debugger = Side::new(&rt, &paper, &ASKS, '<', resets);
        let target = Side::new(&rt, &paper, &[], '>', manner(1, gives));
        relays(&rt, rt.alloc(), &debugger, &target, &paper).expect(&rt, "a reset");
        expect_same_for(&rt, &target.took().as_slice(), &ASKS.as_slice(), &gives);
        expect_same_for(&rt, &target.endings(), &(0, 1), &gives);
    }
}

/// An end that is lost at any of its writes: what it took is a beginning; and all that it says comes to the other, and then a reset, unless it
/// had ended before.
#[test]
fn an_end_that_is_lost_resets_the_other(rt: HostRuntime) {
    for breaks_at in 0..9 {
        let paper = Paper::new(&rt, rt.alloc(), NEVER, NEVER);
        let lost = Manner {
            breaks_at,
            ..manner(1, 3)
        };
        let debugger = Side::new(&rt, &paper, &ASKS, '<', manner(45, 45));
        let target = Side::new(&rt, &paper, &ANSWERS, '>', lost);
        relays(&rt, rt.alloc(), &debugger, &target, &paper).expect(&rt, "a loss");
        let took = target.took();
        expect_same_for(&rt, &took.as_slice(), &&ASKS[..3 * breaks_at], &breaks_at);
        expect_same_for(&rt, &target.endings(), &(0, 0), &breaks_at);
        expect_same_for(
            &rt,
            &debugger.took().as_slice(),
            &ANSWERS.as_slice(),
            &breaks_at,
        );
        expect_same_for(&rt, &debugger.endings(), &(0, 1), &breaks_at);
        expect_same_for(&rt, &target.is_early(), &false, &breaks_at);
    }
}

/// A capture that is full at any of its writes, in any cutting of its lines: no end gets a byte whose line is not written whole.
#[test]
fn no_byte_passes_without_its_line(rt: HostRuntime) {
    for fails_at in 0..20 {
        for piece in [5, 9, NEVER] {
            let paper = Paper::new(&rt, rt.alloc(), piece, fails_at);
            let debugger = Side::new(&rt, &paper, &ASKS, '<', manner(4, 2));
            let target = Side::new(&rt, &paper, &ANSWERS, '>', manner(9, 3));
            let ended = relays(&rt, rt.alloc(), &debugger, &target, &paper);
            let cut = (fails_at, piece);
            let early = debugger.is_early() || target.is_early();
            expect_same_for(&rt, &early, &false, &cut);
            let is_whole = paper.sent('>').len() == 25 && paper.sent('<').len() == 45;
            match ended {
                Ok(()) => expect_same_for(&rt, &is_whole, &true, &cut),
                Err(RelayFault::Capture(_)) => expect_same_for(&rt, &is_whole, &false, &cut),
                Err(RelayFault::Waiting(_)) => panic!(rt; "it waits for ever"),
            }
        }
    }
}

static SEVENS: [u8; 200_000] = [7; 200_000];

/// Where nothing is taken 65,536 bytes wait, and no more are read.
#[test]
fn at_most_64_kilobytes_wait(rt: HostRuntime) {
    for gives in [4096, 50_000, NEVER] {
        let paper = Paper::new(&rt, rt.alloc(), NEVER, NEVER);
        let debugger = Side::new(&rt, &paper, &SEVENS, '<', manner(gives, 45));
        let target = Side::new(&rt, &paper, &[], '>', manner(1, 0));
        let ended = relays(&rt, rt.alloc(), &debugger, &target, &paper);
        expect_same_for(&rt, &ended.is_err(), &true, &gives);
        expect_same_for(&rt, &debugger.unsaid(), &(200_000 - 65_536), &gives);
    }
}
