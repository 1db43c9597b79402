//! Whether a thread may go back in its steps as it does.
ghost use Rattle.std.specs.Prelude.{◌≡◌, map, Some};
ghost use Rattle.jdwp_script.specs.Parts.{StepPart};
ghost use Rattle.jdwp_script.specs.Meanings.{step_part};
ghost use Rattle.jdwp_script.specs.References.{goes_back, is_once, returns_own, again_lost, last_lost, loop_lost};

use crate::judge::Judge;
use crate::step::Step;

/// Finds steps that go back.
pub(crate) struct GoesBack;

impl Judge<Step> for GoesBack {
    ghost Meaning = { StepPart };

    ghost meaning = { step_part };

    ghost judges = { λ _. goes_back };

    fn is_bad(&self, step: &Step) -> bool {
        match step {
            Step::Again(_) => true,
            _ => false,
        }
    }
}

/// Finds steps that are made once at most.
pub(crate) struct IsOnce;

impl Judge<Step> for IsOnce {
    ghost Meaning = { StepPart };

    ghost meaning = { step_part };

    ghost judges = { λ _. is_once };

    fn is_bad(&self, step: &Step) -> bool {
        match step {
            Step::Prepare(_) | Step::Start(_) => true,
            _ => false,
        }
    }
}

/// Whether the steps return each frame that they call and no other.
fn returns_own(steps: &[Step]) -> bool
    ensures { result ≡ returns_own 0 (map step_part steps.now) }
{
    let mut frames = 0usize;
    for step in steps {
        match step {
            Step::Call(_) => frames += 1,
            Step::Return(_) => {
                if frames == 0 {
                    return false;
                }
                frames -= 1;
            }
            _ => {}
        }
    }
    frames == 0
}

/// Whether an `again` behind these steps may not go so many back.
fn again_lost(before: &[Step], back: u32) -> bool
    ensures { result ≡ again_lost (map step_part before.now) back }
{
    if back == 0 || before.len() < back as usize {
        return true;
    }
    let steps = &before[before.len() - back as usize..];
    IsOnce.has_bad(steps) || !returns_own(steps)
}

/// Whether the last step, behind these, is an `again` that may not stand there.
fn last_lost(before: &[Step], last: &Step) -> bool
    ensures { result ≡ last_lost (map step_part before.now) (Some (step_part last.now)) }
{
    match last {
        Step::Again(back) => again_lost(before, *back),
        _ => false,
    }
}

/// Whether an `again` is among these steps that does not stand last or may not go back so far.
pub(crate) fn loop_lost(steps: &[Step]) -> bool
    ensures { result ≡ loop_lost (map step_part steps.now) }
{
    let Some(last) = steps.last() else {
        return false;
    };
    let before = &steps[..steps.len() - 1];
    GoesBack.has_bad(before) || last_lost(before, last)
}
