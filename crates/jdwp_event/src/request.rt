//! Event requests: what was asked for, and what has become of it (JDWP specification, "Protocol Details": the set EventRequest).
ghost use Rattle.std.specs.Prelude.{◌≡◌, ◌≤◌, ◌<◌, length, IfOk, IfErr, []};
ghost use Rattle.jdwp_wire.specs.Numbers.{greatest_int};
ghost use Rattle.jdwp_event.specs.ModifierMeanings.{modifier_meaning, found_modifier_behind};
ghost use Rattle.jdwp_event.specs.RequestParts.{origin_meaning, modifiers_meaning, new_limit, limit_passes, limit_counted, limits_after, asked_modifiers, times_reached, nth_modifier};
ghost use Rattle.jdwp_event.specs.Requests.{new_request};
ghost use Rattle.jdwp_event.specs.Filters.{passes_all, passes, counted};
ghost use Rattle.jdwp_event.specs.KindsAsked.{has_count};

use crate::filter;
use crate::happening::Happening;
use crate::modifier::Modifier;
use crate::request_id::RequestId;
use jdwp_wire::NoMemory;
use std::alloc::Global;
use std::marker::Model;
use trace::Trace;

/// From where the steps of a request are measured: where a thread was.
#[derive(Clone, Copy, Debug, PartialEq, Eq)]
pub struct StepOrigin {
    /// How many frames it had.
    pub frames: u32,
    /// The line of its place, where one is known.
    pub line: Option<u32>,
}

/// A modifier of a request, and how often it was reached, where it is a Count. What is kept of that is how many reachings it is
/// still away from its last.
#[derive(Drop)]
struct Limit {
    modifier: Modifier,
    left: u32,
    reached: Trace<()>,
}

impl Model for Limit {
    ghost use Rattle.std.specs.Prelude.{◌≡◌, length};
    ghost use Rattle.jdwp_event.specs.ModifierMeanings.{modifier_meaning};
    ghost use Rattle.jdwp_event.specs.RequestParts.{LimitMeaning, left_of};

    ghost Value = { LimitMeaning };

    ghost view = { λ l. record {
      modifier = modifier_meaning l.modifier;
      reached = length l.reached.items;
    } };

    ghost invariant = { λ l. l.left
        ≡ left_of (modifier_meaning l.modifier) (length l.reached.items) };
}

impl Limit {
    /// A modifier that was not reached yet.
    fn new(modifier: Modifier) -> Limit
        ensures { result ≡ new_limit (modifier_meaning modifier) }
    {
        let left = match &modifier {
            Modifier::Count(count) => u32::try_from(*count).unwrap_or(0),
            _ => 0,
        };
        Limit {
            modifier,
            left,
            reached: Trace::new(),
        }
    }

    /// Whether the happening passes it, this time.
    fn passes(&self, origin: &StepOrigin, happening: &Happening) -> bool
        ensures { result ≡ limit_passes (origin_meaning origin.now) happening.now self.now }
    {
        match &self.modifier {
            Modifier::Count(_) => self.left == 1,
            other => filter::passes(other, *origin, happening),
        }
    }

    /// It was reached once more, which is counted where it is a Count.
    fn reach(&mut self)
        ensures { self.new ≡ limit_counted self.old }
    {
        if let Modifier::Count(_) = &self.modifier {
            self.left = self.left.saturating_sub(1);
            self.reached.push(&());
        }
    }
}

/// Counts each Count that the happening reaches, and answers whether it passes all modifiers.
fn count_limits(limits: &mut [Limit], origin: StepOrigin, happening: &Happening) -> bool
    ensures passed { result ≡ passes_all (origin_meaning origin) happening.now
        (asked_modifiers limits.old) (times_reached limits.old) }
    ensures reached { limits.new ≡ limits_after (origin_meaning origin) happening.now limits.old }
{
    for limit in limits.iter_mut() {
        let passes = limit.passes(&origin, happening);
        limit.reach();
        if !passes {
            return false;
        }
    }
    true
}

/// What was asked for under an id, how often each Count among its modifiers was reached, and from where its steps are measured.
///
/// The kind and the policy are kept as the bytes that were sent, since a peer may have taken others than the specification's.
#[derive(Drop)]
pub struct Request {
    id: RequestId,
    kind: u8,
    policy: u8,
    limits: Vec<Limit>,
    origin: StepOrigin,
}

impl Model for Request {
    ghost use Rattle.jdwp_event.specs.Requests.{Request};
    ghost use Rattle.jdwp_event.specs.RequestParts.{origin_meaning, asked_modifiers, times_reached};

    ghost Value = { Request };

    ghost view = { λ r. record {
      asked = record {
        id = r.id;
        kind = r.kind;
        policy = r.policy;
        modifiers = asked_modifiers r.limits.items;
      };
      reached = times_reached r.limits.items;
      origin = origin_meaning r.origin;
    } };
}

impl Request {
    /// A request that nothing has reached yet.
    ///
    /// # Errors
    /// `NoMemory` where an allocation was refused, and only where there are modifiers.
    pub fn new(
        alloc: Global,
        id: RequestId,
        kind: u8,
        policy: u8,
        modifiers: Vec<Modifier>,
        origin: StepOrigin,
    ) -> Result<Request, NoMemory>
        ensures value { IfOk result (λ r. r ≡ new_request (record {
          id = id;
          kind = kind;
          policy = policy;
          modifiers = modifiers_meaning modifiers;
        }) (origin_meaning origin)) }
        ensures memory { IfErr result (λ _. modifiers_meaning modifiers ≡ [] → ⊥) }
    {
        let mut limits = Vec::new(alloc);
        for modifier in modifiers {
            limits.push(Limit::new(modifier))?;
        }
        Ok(Request {
            id,
            kind,
            policy,
            limits,
            origin,
        })
    }

    /// The id, 0 to 2,147,483,647.
    pub fn id(&self) -> u32
        ensures is { result ≡ self.now.asked.id }
        ensures within { result ≤ greatest_int }
    {
        self.id.number()
    }

    /// The byte of the event kind.
    pub fn kind(&self) -> u8
        ensures { result ≡ self.now.asked.kind }
    {
        self.kind
    }

    /// The byte of the suspend policy.
    pub fn policy(&self) -> u8
        ensures { result ≡ self.now.asked.policy }
    {
        self.policy
    }

    /// The number of modifiers.
    pub fn modifier_count(&self) -> usize
        ensures { result ≡ length self.now.asked.modifiers }
    {
        self.limits.len()
    }

    /// The modifier at this place in the order sent, counted from 0; None past the last.
    pub fn modifier(&self, place: usize) -> Option<&Modifier>
        ensures { found_modifier_behind result ≡ nth_modifier self.now.asked.modifiers place }
    {
        match self.limits.get(place) {
            Some(limit) => Some(&limit.modifier),
            None => None,
        }
    }

    /// From where its steps are measured.
    pub fn origin(&self) -> StepOrigin
        ensures { origin_meaning result ≡ self.now.origin }
    {
        self.origin
    }

    /// Whether one of its modifiers is a Count.
    pub(crate) fn has_count(&self) -> bool
        ensures { result ≡ has_count self.now }
    {
        for limit in &self.limits {
            if matches!(limit.modifier, Modifier::Count(_)) {
                return true;
            }
        }
        false
    }

    /// Counts a happening: where the kinds agree, each Count that is reached, and a new origin where all pass.
    pub(crate) fn count(&mut self, happening: &Happening)
        ensures { self.new ≡ counted happening.now self.old }
    {
        let occurrence = happening.occurrence();
        if filter::is_kind(occurrence, self.kind)
            && count_limits(&mut self.limits, self.origin, happening)
        {
            if let Some(place) = filter::place_seen(occurrence) {
                self.origin = StepOrigin {
                    frames: place.frames,
                    line: place.line,
                };
            }
        }
    }
}

/// Whether the request reports the happening: the kinds agree, and it passes each modifier in the order sent.
/// A Count passes exactly at its n-th reaching.
pub fn matches(request: &Request, happening: &Happening) -> bool
    ensures { result ≡ passes happening.now request.now }
{
    if !filter::is_kind(happening.occurrence(), request.kind) {
        return false;
    }
    for limit in &request.limits {
        if !limit.passes(&request.origin, happening) {
            return false;
        }
    }
    true
}
