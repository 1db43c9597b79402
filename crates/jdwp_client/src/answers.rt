//! Answers that were told and not handed out.
ghost use Rattle.std.specs.Prelude.{◌≡◌, ◌≤◌, ◌<◌, ◌+◌, ◌-◌, ◌∷◌, ◌++◌, [], ℕ, false, length, remove, IsTrue, MatchOption, OnErr, OnOk, slice_index_or};
ghost use Rattle.std.specs.List.{position};
ghost use Rattle.std.specs.VecDeque.{deque_capacity};
ghost use Rattle.jdwp_layout.specs.declared.answer.Answer.{Answer as Given};
ghost use Rattle.jdwp_debugger.specs.declared.pending.Ticket.{Ticket as Name};
ghost use Rattle.jdwp_client.specs.Keeping.{HandsOut, Rises, is_under};

use jdwp_debugger::Ticket;
use jdwp_layout::Answer;
use std::alloc::{AllocError, Global};
use std::collections::VecDeque;

/// Answers that were told and not handed out, in the order told.
///
/// A target answers most commands in the order asked. So the tickets rise from the first answer on, mostly up to the last, and among those
/// that rise one is found by halving. Those behind them are looked through.
#[derive(Drop)]
pub(crate) struct Answers {
    pub items: VecDeque<(Ticket, Answer)>,
    /// So many, from the first on, are known to rise.
    pub rising: usize,
}

impl Answers {
    /// None.
    pub fn new(alloc: Global) -> Answers
        ensures items { result.items.items ≡ [] }
        ensures rises { Rises result.rising result.items.items }
    {
        Answers {
            items: VecDeque::new(alloc),
            rising: 0,
        }
    }

    /// Makes room for one more.
    ///
    /// # Errors
    /// Where an allocation was refused.
    pub fn reserve(&mut self) -> Result<(), AllocError>
        requires { Rises self.old.rising self.old.items.items }
        ensures items { self.new.items.items ≡ self.old.items.items }
        ensures room { OnOk result (length self.new.items.items + 1 ≤ deque_capacity self.new.items) }
        ensures rises { Rises self.new.rising self.new.items.items }
    {
        self.items.reserve(1)
    }

    /// Keeps one more, for which there is room.
    pub fn push(&mut self, ticket: Ticket, answer: Answer)
        requires room { length self.old.items.items + 1 ≤ deque_capacity self.old.items }
        requires rises { Rises self.old.rising self.old.items.items }
        ensures items { self.new.items.items ≡ self.old.items.items ++ (ticket, answer) ∷ [] }
        ensures rises { Rises self.new.rising self.new.items.items }
    {
        self.items.push_back_reserved((ticket, answer));
        self.rising = rising_from(&self.items, self.rising);
    }

    /// Hands out the first one under a ticket.
    pub fn take(&mut self, ticket: Ticket) -> Option<Answer>
        requires { Rises self.old.rising self.old.items.items }
        ensures answer { MatchOption result
            ((position (is_under ticket.0) self.old.items.items ≡ None)
            × (self.new.items.items ≡ self.old.items.items)) (λ answer.
            HandsOut (is_under ticket.0) self.old.items.items (ticket, answer)
            self.new.items.items) }
        ensures rises { Rises self.new.rising self.new.items.items }
    {
        let place = self.place_of(ticket)?;
        let known = known_without(place, self.rising);
        let (_, answer) = self.items.remove(place)?;
        self.rising = rising_from(&self.items, known);
        Some(answer)
    }

    /// The place of the first one under a ticket.
    pub fn place_of(&self, ticket: Ticket) -> Option<usize>
        requires { Rises self.now.rising self.now.items.items }
        ensures { result ≡ position (is_under ticket.0) self.now.items.items }
    {
        let place = place_among(&self.items, self.rising, ticket);
        if is_at(&self.items, place, ticket) {
            return Some(place);
        }
        for later in self.rising..self.items.len() {
            if is_at(&self.items, later, ticket) {
                return Some(later);
            }
        }
        None
    }
}

/// Whether the one at a place is under this ticket.
fn is_at(items: &VecDeque<(Ticket, Answer)>, place: usize, ticket: Ticket) -> bool
    ensures at { (d : Name × Given) → place < length items.now.items
        → result ≡ is_under ticket.0 (slice_index_or items.now.items place d) }
    ensures within { IsTrue result → place < length items.now.items }
{
    match items.get(place) {
        Some(kept) => kept.0.0 == ticket.0,
        None => false,
    }
}

/// The place of the first of so many that rise whose ticket is no less.
fn place_among(items: &VecDeque<(Ticket, Answer)>, rising: usize, ticket: Ticket) -> usize
    requires { Rises rising items.now.items }
    ensures bound { result ≤ rising }
    ensures before { (i : ℕ) (d : Name × Given) → i < result
        → (slice_index_or items.now.items i d).0.0 < ticket.0 }
    ensures behind { (i : ℕ) (d : Name × Given) → result ≤ i → i < rising
        → ticket.0 ≤ (slice_index_or items.now.items i d).0.0 }
{
    let mut low = 0;
    let mut high = rising;
    while low < high {
        let middle = low + (high - low) / 2;
        if is_below(items, middle, ticket) {
            low = middle + 1;
        } else {
            high = middle;
        }
    }
    low
}

/// Whether the ticket at a place is less than this one.
fn is_below(items: &VecDeque<(Ticket, Answer)>, place: usize, ticket: Ticket) -> bool
    requires { place < length items.now.items }
    ensures below { IsTrue result → (d : Name × Given)
        → (slice_index_or items.now.items place d).0.0 < ticket.0 }
    ensures above { result ≡ false → (d : Name × Given)
        → ticket.0 ≤ (slice_index_or items.now.items place d).0.0 }
{
    match items.get(place) {
        Some(kept) => kept.0.0 < ticket.0,
        None => false,
    }
}

/// How many still rise without the one at a place, where so many did.
fn known_without(place: usize, rising: usize) -> usize
    ensures below { place < rising → result + 1 ≡ rising }
    ensures above { rising ≤ place → result ≡ rising }
{
    if place < rising { rising - 1 } else { rising }
}

/// How many rise, where so many are known to.
fn rising_from(items: &VecDeque<(Ticket, Answer)>, known: usize) -> usize
    requires { Rises known items.now.items }
    ensures { Rises result items.now.items }
{
    for rising in known..items.len() {
        if !rises_at(items, rising) {
            return rising;
        }
    }
    items.len()
}

/// Whether the ticket at a place is above the one before it, if there is one.
fn rises_at(items: &VecDeque<(Ticket, Answer)>, place: usize) -> bool
    ensures { IsTrue result → (d : Name × Given) → 0 < place
        → (slice_index_or items.now.items (place - 1) d).0.0
        < (slice_index_or items.now.items place d).0.0 }
{
    if place == 0 {
        return true;
    }
    match (items.get(place - 1), items.get(place)) {
        (Some(before), Some(here)) => before.0.0 < here.0.0,
        _ => false,
    }
}
