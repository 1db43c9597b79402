//! What is known of each of many threads behind some thousand packets, against the rules as they are carried out for each thread by itself.
use crate::asserts::expect_same;
use crate::debuggers::watch_tests::{Asked, Step, take_step};
use jdwp_value::ObjectId;
use jdwp_watch::{Invocation, Watch};
use std::alloc::Global;
use std::process::Abort;

/// So many threads there are. A composite is of one of the first, a SuspendCount of any.
const THREADS: u64 = 150;

const STOPPING: u64 = 120;

/// So many of them are named as the session begins.
const FIRST: u64 = 60;

const NONE: u8 = 0;

const ALL: u8 = 2;

/// A number that a count is surely no less than, and the ticket of the command after which what it counts took effect.
#[derive(Clone, Copy)]
struct Number {
    value: u64,
    base: u64,
}

impl Number {
    fn raise(&mut self) {
        self.value = self.value.saturating_add(1);
    }

    /// Something that took effect after the command of a ticket raised the count.
    fn raise_after(&mut self, ticket: u64) {
        if self.base <= ticket {
            self.raise();
        }
    }

    fn lower(&mut self, ticket: u64) {
        if self.value == 0 {
            self.base = ticket;
        } else {
            self.value = self.value.saturating_sub(1);
        }
    }
}

/// A thread by itself.
#[derive(Clone, Copy)]
struct One {
    told: Number,
    recounted: Number,
    /// Since which ticket it is known to live, and whether by a composite of its own.
    since: Option<u64>,
    is_named: bool,
}

impl One {
    fn new() -> One {
        let none = Number { value: 0, base: 0 };
        One {
            told: none,
            recounted: none,
            since: None,
            is_named: false,
        }
    }

    /// A Suspend of all was answered. It counts for threads that lived before it.
    fn on_suspend(&mut self, ticket: u64) {
        if let Some(since) = self.since {
            if since < ticket {
                self.told.raise();
                self.recounted.raise();
            }
        }
    }

    fn on_resume(&mut self, ticket: u64) {
        self.told.lower(ticket);
        self.recounted.lower(ticket);
    }

    /// A SuspendCount of it was answered.
    fn on_count(&mut self, ticket: u64, count: u64) {
        if self.recounted.value < count {
            self.recounted = Number {
                value: count,
                base: ticket,
            };
        }
        if self.since.is_none() {
            self.since = Some(ticket);
        }
    }

    /// A composite was read that stops all, of this thread or of another.
    fn on_stop(&mut self, after: u64, is_own: bool) {
        let lived = match self.since {
            Some(since) => self.is_named || since <= after,
            None => false,
        };
        if is_own || lived {
            self.told.raise_after(after);
            self.recounted.raise_after(after);
        }
    }

    /// A composite of it was read when so many commands were asked.
    fn on_own(&mut self, asked: u64) {
        self.is_named = true;
        if self.since.is_none() {
            self.since = Some(asked);
        }
    }
}

/// A session, and each thread by itself.
#[derive(Drop)]
struct Crowd {
    watch: Watch,
    one_by_one: bool,
    threads: Vec<One>,
    /// How many commands were answered, and how many invocations were not.
    answered: u64,
    invoked: u64,
    past: u64,
    /// What comes next is chosen by this.
    seed: u64,
}

impl Crowd {
    fn new(rt: &impl Abort, alloc: Global, one_by_one: bool) -> Crowd {
        let mut threads = Vec::new(alloc);
        for _ in 0..THREADS {
            threads.push(One::new()).expect(rt, "memory");
        }
        Crowd {
            watch: Watch::new(alloc, one_by_one),
            one_by_one,
            threads,
            answered: 0,
            invoked: 0,
            past: 0,
            seed: 1,
        }
    }

    /// A number below this, which is not 0.
    fn choose(&mut self, below: u64) -> u64 {
        self.seed = self
            .seed
            .wrapping_mul(6_364_136_223_846_793_005)
            .wrapping_add(1_442_695_040_888_963_407);
        (self.seed >> 33).checked_rem(below).unwrap_or(0)
    }

    fn ask(&mut self, rt: &impl Abort, alloc: Global, asked: Asked) {
        take_step(rt, alloc, &mut self.watch, Step::Asks(asked));
    }

    fn suspended(&mut self, rt: &impl Abort, alloc: Global) {
        take_step(rt, alloc, &mut self.watch, Step::IsDone(Asked::Suspend));
        self.answered = self.answered.saturating_add(1);
        for one in self.threads.iter_mut() {
            one.on_suspend(self.answered);
        }
    }

    fn resumed(&mut self, rt: &impl Abort, alloc: Global) {
        take_step(rt, alloc, &mut self.watch, Step::IsDone(Asked::Resume));
        self.answered = self.answered.saturating_add(1);
        for one in self.threads.iter_mut() {
            one.on_resume(self.answered);
        }
    }

    fn counted(&mut self, rt: &impl Abort, alloc: Global, thread: u64, count: u64) {
        self.ask(rt, alloc, Asked::SuspendCount(thread));
        let told = Step::IsTold(thread, i32::try_from(count).unwrap_or(0));
        take_step(rt, alloc, &mut self.watch, told);
        self.answered = self.answered.saturating_add(1);
        let ticket = self.answered;
        if let Some(one) = self.threads.get_mut(thread as usize) {
            one.on_count(ticket, count);
        }
    }

    /// A composite of a thread is read, of a request that was made by the command of a ticket, while so many commands wait.
    fn read(
        &mut self,
        rt: &impl Abort,
        alloc: Global,
        policy: u8,
        since: u64,
        thread: u64,
        waiting: u64,
    ) {
        take_step(
            rt,
            alloc,
            &mut self.watch,
            Step::Reads(policy, since, thread),
        );
        let after = self.past.max(since);
        let mut id = 0u64;
        for one in self.threads.iter_mut() {
            if policy == ALL {
                one.on_stop(after, id == thread);
            }
            if id == thread {
                one.on_own(self.answered.saturating_add(waiting));
            }
            id = id.saturating_add(1);
        }
        self.past = if self.one_by_one {
            after.max(self.answered)
        } else {
            after
        };
    }

    /// Two commands are asked, a thread is named, and then they are answered.
    fn cross(&mut self, rt: &impl Abort, alloc: Global, thread: u64) {
        self.ask(rt, alloc, Asked::Suspend);
        self.ask(rt, alloc, Asked::Resume);
        self.read(rt, alloc, NONE, 0, thread, 2);
        self.suspended(rt, alloc);
        self.resumed(rt, alloc);
    }

    fn invoke(&mut self, rt: &impl Abort, alloc: Global) {
        if self.invoked == 0 {
            take_step(rt, alloc, &mut self.watch, Step::Invokes(Invocation::ByAll));
            self.invoked = 1;
        } else {
            take_step(rt, alloc, &mut self.watch, Step::Returns(Invocation::ByAll));
            self.invoked = 0;
        }
    }

    /// Something happens.
    fn go_on(&mut self, rt: &impl Abort, alloc: Global) {
        let stopped = self.choose(STOPPING);
        match self.choose(16) {
            0..=3 => {
                self.ask(rt, alloc, Asked::Suspend);
                self.suspended(rt, alloc);
            }
            4..=8 => {
                self.ask(rt, alloc, Asked::Resume);
                self.resumed(rt, alloc);
            }
            9 | 10 => self.read(rt, alloc, ALL, 0, stopped, 0),
            11 => self.read(rt, alloc, ALL, self.answered, stopped, 0),
            12 => {
                let since = self.choose(self.answered.saturating_add(1));
                self.read(rt, alloc, ALL, since, stopped, 0);
            }
            13 => {
                let thread = self.choose(THREADS);
                let count = self.choose(3);
                self.counted(rt, alloc, thread, count);
            }
            14 => self.cross(rt, alloc, stopped),
            _ => self.invoke(rt, alloc),
        }
    }

    /// Expects of a thread what is known of it by itself, where nothing waits.
    fn look(&self, rt: &impl Abort, thread: u64) {
        if let Some(one) = self.threads.get(thread as usize) {
            let bound = one.told.value.max(one.recounted.value);
            let sure = bound.saturating_sub(self.invoked);
            expect_same(rt, &self.watch.sure(ObjectId(thread)), &sure);
        }
    }

    fn look_at_all(&self, rt: &impl Abort) {
        for thread in 0..THREADS {
            self.look(rt, thread);
        }
    }
}

/// A session of some thousand packets, with a look behind each.
fn goes_by(rt: &impl Abort, alloc: Global, one_by_one: bool) {
    let mut crowd = Crowd::new(rt, alloc, one_by_one);
    for thread in 0..FIRST {
        crowd.read(rt, alloc, NONE, 0, thread, 0);
    }
    for packet in 0..2500u64 {
        crowd.go_on(rt, alloc);
        let thread = crowd.choose(THREADS);
        crowd.look(rt, thread);
        if packet % 50 == 0 {
            crowd.look_at_all(rt);
        }
    }
    crowd.look_at_all(rt);
}

#[test]
fn each_thread_is_known_as_by_itself(rt: HostRuntime) {
    goes_by(&rt, rt.alloc(), false);
    goes_by(&rt, rt.alloc(), true);
}
