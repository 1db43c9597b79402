//! Moves of the counts of two threads, and how many threads each visits.
use crate::asserts::expect_same;
use levels::Counts;

#[test]
fn two_threads(rt: HostRuntime) {
    let mut counts = Counts::new(rt.alloc(), 2).expect(&rt, "memory");
    let begun = (counts.visits(), counts.count(0), counts.count(1));
    counts.raise_all();
    let both_stop = (counts.visits(), counts.count(0), counts.count(1));
    counts.raise_all();
    let both_stand = (counts.visits(), counts.count(0), counts.count(1));
    counts.lower_one(1);
    let one_lowered = (counts.visits(), counts.count(0), counts.count(1));
    let is_at_limit = counts.is_at_limit(2);
    counts.lower_all();
    let one_runs = (counts.visits(), counts.count(0), counts.count(1));
    counts.lower_all();
    let both_run = (counts.visits(), counts.count(0), counts.count(1));
    counts.lower_all();
    let both_ran = (counts.visits(), counts.count(0), counts.count(1));
    expect_same(&rt, &begun, &(0, 0, 0));
    expect_same(&rt, &both_stop, &(2, 1, 1));
    expect_same(&rt, &both_stand, &(0, 2, 2));
    expect_same(&rt, &one_lowered, &(0, 2, 1));
    expect_same(&rt, &is_at_limit, &true);
    expect_same(&rt, &one_runs, &(1, 1, 0));
    expect_same(&rt, &both_run, &(1, 0, 0));
    expect_same(&rt, &both_ran, &(0, 0, 0));
}

/// One is added while the other is suspended, rises alone, and the first is taken out.
#[test]
fn one_comes_and_one_goes(rt: HostRuntime) {
    let mut counts = Counts::new(rt.alloc(), 1).expect(&rt, "memory");
    counts.raise_all();
    counts.make_room().expect(&rt, "memory");
    counts.add();
    counts.raise_one(1);
    counts.raise_one(1);
    let both = (counts.count(0), counts.count(1));
    counts.remove(0);
    let left = counts.count(0);
    counts.clear();
    let cleared = (counts.count(0), counts.visits());
    expect_same(&rt, &both, &(1, 2));
    expect_same(&rt, &left, &2);
    expect_same(&rt, &cleared, &(0, 1));
}
