//! What moves of all suspend counts make of one of them.
ghost use Rattle.std.specs.Prelude.{◌≡◌, IfSome};
ghost use Rattle.jdwp_mirror.specs.Drifts.{drifted, joined_rise, lowered, raised};

use jdwp_wire::number::GREATEST_INT;

/// Where a count stops.
pub(crate) const COUNT_MOST: u32 = GREATEST_INT;

/// A suspend count, and whether its thread is held.
#[derive(Clone, Copy)]
pub(crate) struct Standing {
    pub count: u32,
    pub held: bool,
}

/// What moves in a row make of a count: so much of it is lost, and what is left rises. A thread whose whole count is lost is no longer
/// held, since it came to 0.
#[derive(Clone, Copy)]
pub(crate) struct Drift {
    pub lost: u32,
    /// None where no move was upwards.
    pub rise: Option<Rise>,
}

/// How far what is left of a count rises.
#[derive(Clone, Copy)]
pub(crate) struct Rise {
    /// What becomes of 0.
    pub least: u32,
    /// No count is above it.
    pub most: u32,
}

impl Drift {
    /// One more, where it is below the greatest count.
    pub fn raise() -> Drift
        ensures { result ≡ raised }
    {
        Drift {
            lost: 0,
            rise: Some(Rise {
                least: 1,
                most: COUNT_MOST,
            }),
        }
    }

    /// One less, where it is above 0.
    pub fn lower() -> Drift
        ensures { result ≡ lowered }
    {
        Drift {
            lost: 1,
            rise: None,
        }
    }

    /// What becomes of a count, and of its thread.
    pub fn apply(self, standing: Standing) -> Standing
        ensures { result ≡ drifted self standing }
    {
        let left = standing.count.saturating_sub(self.lost);
        let count = match self.rise {
            Some(rise) => left.saturating_add(rise.least).min(rise.most),
            None => left,
        };
        Standing {
            count,
            held: standing.count > self.lost && standing.held,
        }
    }

    /// Both in a row, or None where the numbers get too large.
    pub fn then(self, next: Drift) -> Option<Drift>
        ensures { IfSome result (λ both. (standing : Standing) → drifted both standing ≡ drifted next (drifted self standing)) }
    {
        let Some(rise) = self.rise else {
            let lost = self.lost.checked_add(next.lost)?;
            return Some(Drift {
                lost,
                rise: next.rise,
            });
        };
        if rise.most <= next.lost {
            return None;
        }
        let lost = self.lost.checked_add(next.lost.saturating_sub(rise.least))?;
        let rise = rise.then(next)?;
        Some(Drift {
            lost,
            rise: Some(rise),
        })
    }
}

impl Rise {
    fn then(self, next: Drift) -> Option<Rise>
        ensures { IfSome result (λ rise. rise ≡ joined_rise self next) }
    {
        let least = self.least.saturating_sub(next.lost);
        let most = self.most.saturating_sub(next.lost);
        match next.rise {
            Some(rise) => Some(Rise {
                least: least.checked_add(rise.least)?,
                most: most.saturating_add(rise.least).min(rise.most),
            }),
            None => Some(Rise { least, most }),
        }
    }
}
