//! Moves of all threads, in the order in which they were made.
ghost use Rattle.std.specs.Prelude.{◌≡◌, ◌++◌, ◌∷◌, [], ◌≤◌, ◌<◌, ◌-◌, IfSome, OnErr, OnOk, drop, get_or, length, take};
ghost use Rattle.std.specs.List.{fold};
ghost use Rattle.jdwp_watch.specs.Drifts.{AreJoined, IsJoined, between, no_step, ones_of};
ghost use Rattle.jdwp_watch.specs.Tables.{changed_by};

use crate::drift::Drift;
use crate::standing::{Change, Standing};
use jdwp_wire::NoMemory;
use std::alloc::Global;
use std::marker::Model;

/// A move, and what all since an earlier time make.
#[derive(Clone, Copy)]
pub(crate) struct Step {
    one: Change,
    /// How many moves had been made by then.
    back: usize,
    /// What the moves since then make, this one among them.
    all: Drift,
}

/// Moves of all threads. What those since any time make is found in steps whose number is the logarithm of theirs, for a thread of which the
/// steps tell; in fewer moves each where they do not.
#[derive(Drop)]
pub(crate) struct Moves {
    steps: Vec<Step>,
}

impl Model for Moves {
    ghost use Rattle.std.specs.Prelude.{List};
    ghost use Rattle.jdwp_watch.specs.declared.standing.Change.{Change};
    ghost use Rattle.jdwp_watch.specs.Drifts.{AreJoined, ones_of};

    ghost Value = { List Change };

    ghost view = { λ m. ones_of m.steps.items };

    ghost invariant = { λ m. AreJoined m.steps.items };
}

impl Moves {
    /// No moves.
    pub fn new(alloc: Global) -> Moves
        ensures { result ≡ [] }
    {
        Moves {
            steps: Vec::new(alloc),
        }
    }

    /// How many there are.
    pub fn len(&self) -> usize
        ensures { result ≡ length self.now }
    {
        self.steps.len()
    }

    /// Takes all of them out.
    pub fn clear(&mut self)
        ensures { self.new ≡ [] }
    {
        self.steps.clear();
    }

    /// Adds one.
    ///
    /// # Errors
    /// `NoMemory` where an allocation was refused; nothing has changed.
    pub fn push(&mut self, one: Change) -> Result<(), NoMemory>
        ensures ok { OnOk result (self.new ≡ self.old ++ one ∷ []) }
        ensures err { OnErr result (self.new ≡ self.old) }
    {
        let step = step_after(self.steps.as_slice(), one);
        self.steps.push(step)?;
        Ok(())
    }

    /// Takes all but the first so many out.
    pub fn truncate(&mut self, count: usize)
        ensures { self.new ≡ take count self.old }
    {
        self.steps.truncate(count);
    }

    /// What a thread is now that was written after so many moves.
    pub fn after(&self, from: usize, standing: Standing) -> Standing
        ensures { result ≡ fold changed_by standing (drop from self.now) }
    {
        after(self.steps.as_slice(), self.steps.len(), from, standing)
    }
}

/// The step of a move that comes after these.
fn step_after(steps: &[Step], one: Change) -> Step
    requires { AreJoined steps.now }
    ensures one { result.one ≡ one }
    ensures joined { IsJoined (ones_of steps.now ++ one ∷ []) (length steps.now) result }
{
    match wide_step_after(steps, one) {
        Some(step) => step,
        None => Step {
            one,
            back: steps.len(),
            all: Drift::of(one),
        },
    }
}

/// The same, where its moves are those of the last two steps besides: so the numbers of moves that steps have are 1, 1, 3, 1, 1, 3, 7 and so on.
fn wide_step_after(steps: &[Step], one: Change) -> Option<Step>
    requires { AreJoined steps.now }
    ensures one { IfSome result (λ step. step.one ≡ one) }
    ensures joined { IfSome result (λ step. IsJoined (ones_of steps.now ++ one ∷ []) (length steps.now) step) }
{
    let now = steps.len();
    let last = step_to(steps, now)?;
    let before = step_to(steps, last.back)?;
    if now.saturating_sub(last.back) != last.back.saturating_sub(before.back) {
        return None;
    }
    let both = before.all.then(&last.all);
    let all = both.then(&Drift::of(one));
    Some(Step {
        one,
        back: before.back,
        all,
    })
}

/// The last of the first so many steps.
fn step_to(steps: &[Step], at: usize) -> Option<Step>
    ensures inside { IfSome result (λ step. at ≤ length steps.now) }
    ensures positive { IfSome result (λ step. 0 < at) }
    ensures value { IfSome result (λ step. step ≡ get_or steps.now (at - 1) no_step) }
{
    if at == 0 || at > steps.len() {
        return None;
    }
    Some(last_of(steps, at))
}

/// The last of the first so many steps, where there are so many.
fn last_of(steps: &[Step], at: usize) -> Step
    requires positive { 0 < at }
    requires inside { at ≤ length steps.now }
    ensures { result ≡ get_or steps.now (at - 1) no_step }
{
    steps[at - 1]
}

/// What a thread is after the first so many moves that was written after fewer. Where a step tells nothing of it, it goes on by those that
/// have fewer moves.
fn after(steps: &[Step], at: usize, from: usize, standing: Standing) -> Standing
    requires joined { AreJoined steps.now }
    requires inside { at ≤ length steps.now }
    ensures { result ≡ fold changed_by standing (between from at (ones_of steps.now)) }
{
    if at <= from {
        return standing;
    }
    let step = last_of(steps, at);
    if step.back < from {
        return after(steps, at - 1, from, standing).changed(step.one);
    }
    let before = after(steps, step.back, from, standing);
    match step.all.apply(before) {
        Some(now) => now,
        None => after(steps, at - 1, step.back, before).changed(step.one),
    }
}
