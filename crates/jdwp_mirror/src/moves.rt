//! Moves of all suspend counts, in the order in which they were made.
ghost use Rattle.std.specs.Prelude.{◌≡◌, ◌++◌, ◌∷◌, [], ◌≤◌, ◌<◌, ◌-◌, IfSome, get_or, length};
ghost use Rattle.std.specs.Bool.{OnFalse, OnTrue};
ghost use Rattle.jdwp_mirror.specs.Drifts as spec;
ghost use Rattle.jdwp_mirror.specs.Drifts.{AreJoined, IsJoined, no_step, ones_of};
ghost use Rattle.jdwp_mirror.specs.Numbering.{HasNoted};

use crate::drift::{Drift, Standing};
use crate::threads::Change;
use std::alloc::Global;
use std::marker::Model;

/// A move, and what all since an earlier time make.
#[derive(Clone, Copy)]
pub(crate) struct Step {
    one: Drift,
    /// How many moves had been made by then.
    back: usize,
    /// What the moves since then make, this one among them.
    all: Drift,
}

/// Moves of all counts. What those since any time make is found in steps whose number is the logarithm of theirs.
#[derive(Drop)]
pub(crate) struct Moves {
    steps: Vec<Step>,
}

impl Model for Moves {
    ghost use Rattle.std.specs.Prelude.{List};
    ghost use Rattle.jdwp_mirror.specs.declared.drift.Drift.{Drift};
    ghost use Rattle.jdwp_mirror.specs.Drifts.{AreJoined, ones_of};

    ghost Value = { List Drift };

    ghost view = { λ m. ones_of m.steps.items };

    ghost invariant = { λ m. AreJoined m.steps.items };
}

impl Moves {
    /// No moves.
    pub fn new(alloc: Global) -> Moves
        ensures { result ≡ [] }
    {
        Moves {
            steps: Vec::new(alloc),
        }
    }

    /// How many there are.
    pub fn len(&self) -> usize
        ensures { result ≡ length self.now }
    {
        self.steps.len()
    }

    /// Takes all of them out.
    pub fn clear(&mut self)
        ensures { self.new ≡ [] }
    {
        self.steps.clear();
    }

    /// Notes a change of all counts, where that is a move. Whether there was memory for it.
    pub fn note(&mut self, change: Change) -> bool
        ensures done { OnTrue result (HasNoted change self.old self.new) }
        ensures other { OnFalse result (self.new ≡ self.old) }
    {
        match change {
            Change::Keep => true,
            Change::Raise => self.push(Drift::raise()),
            Change::Lower => self.push(Drift::lower()),
            Change::Set(_) => false,
        }
    }

    /// Adds one. Whether there was memory for it.
    fn push(&mut self, one: Drift) -> bool
        ensures done { OnTrue result (self.new ≡ self.old ++ one ∷ []) }
        ensures other { OnFalse result (self.new ≡ self.old) }
    {
        let step = step_after(self.steps.as_slice(), one);
        match self.steps.reserve(1) {
            Ok(()) => {
                self.steps.push_reserved(step);
                true
            }
            Err(_) => false,
        }
    }

    /// What a thread is now that was written after so many moves.
    pub fn after(&self, from: usize, standing: Standing) -> Standing
        ensures { result ≡ spec.after self.now from (length self.now) standing }
    {
        after(self.steps.as_slice(), self.steps.len(), from, standing)
    }
}

/// The step of a move that comes after these.
fn step_after(steps: &[Step], one: Drift) -> Step
    requires { AreJoined steps.now }
    ensures one { result.one ≡ one }
    ensures joined { IsJoined (ones_of steps.now ++ one ∷ []) (length steps.now) result }
{
    match wide_step_after(steps, one) {
        Some(step) => step,
        None => Step {
            one,
            back: steps.len(),
            all: one,
        },
    }
}

/// The same, where its moves are those of the last two steps besides: so the numbers of moves that steps have are 1, 1, 3, 1, 1, 3, 7 and so on.
fn wide_step_after(steps: &[Step], one: Drift) -> Option<Step>
    requires { AreJoined steps.now }
    ensures one { IfSome result (λ step. step.one ≡ one) }
    ensures joined { IfSome result (λ step. IsJoined (ones_of steps.now ++ one ∷ []) (length steps.now) step) }
{
    let now = steps.len();
    let last = step_to(steps, now)?;
    let before = step_to(steps, last.back)?;
    if now.saturating_sub(last.back) != last.back.saturating_sub(before.back) {
        return None;
    }
    let all = before.all.then(last.all)?.then(one)?;
    Some(Step {
        one,
        back: before.back,
        all,
    })
}

/// The last of the first so many steps.
fn step_to(steps: &[Step], at: usize) -> Option<Step>
    ensures inside { IfSome result (λ step. at ≤ length steps.now) }
    ensures positive { IfSome result (λ step. 0 < at) }
    ensures value { IfSome result (λ step. step ≡ get_or steps.now (at - 1) no_step) }
{
    if at == 0 || at > steps.len() {
        return None;
    }
    Some(last_of(steps, at))
}

/// The last of the first so many steps, where there are so many.
fn last_of(steps: &[Step], at: usize) -> Step
    requires positive { 0 < at }
    requires inside { at ≤ length steps.now }
    ensures { result ≡ get_or steps.now (at - 1) no_step }
{
    steps[at - 1]
}

/// What a thread is after the first so many moves that was written after fewer.
fn after(steps: &[Step], at: usize, from: usize, standing: Standing) -> Standing
    requires joined { AreJoined steps.now }
    requires inside { at ≤ length steps.now }
    ensures { result ≡ spec.after (ones_of steps.now) from at standing }
{
    if at <= from {
        return standing;
    }
    let step = last_of(steps, at);
    if step.back >= from {
        step.all.apply(after(steps, step.back, from, standing))
    } else {
        step.one.apply(after(steps, at - 1, from, standing))
    }
}
