//! The event requests that a debugger knows.
ghost use Rattle.std.specs.Prelude.{◌≡◌, ◌++◌, ◌∷◌, [], IfOk, List, OnErr, OnOk, map};
ghost use Rattle.std.specs.List.{filter};
ghost use Rattle.std.specs.Map.Iter.{ShowsInOrder, deref};
ghost use Rattle.jdwp_event.specs.ModifierMeanings.{modifier_meaning};
ghost use Rattle.jdwp_event.specs.Modifiers.{modifiers_of};
ghost use Rattle.jdwp_event.specs.RequestParts.{modifiers_meaning};
ghost use Rattle.jdwp_layout.specs.Meanings.{DatumMeaning, entry_meanings, meanings};
ghost use Rattle.jdwp_action.specs.Actions as actions;
ghost use Rattle.jdwp_action.specs.Actions.{clear_action, set_action};
ghost use Rattle.jdwp_mirror.specs.CommandKinds.{requests_after_others};
ghost use Rattle.jdwp_mirror.specs.Commands.{carried_meaning};
ghost use Rattle.jdwp_mirror.specs.Mirror.{Kept, given_id, has_other_id, is_no_kept_breakpoint, is_not_kept, requests_after_data};
ghost use Rattle.jdwp_mirror.specs.Rows.{number_in, without_first};

use crate::command::{Carried, CommandKind};
use crate::kept::KeptRequests;
use crate::reply::id_in_reply;
use crate::row::Row;
use jdwp_event::Modifier;
use jdwp_layout::{Data, Datum, Scalar, copy_entry};
use jdwp_wire::NoMemory;
use std::alloc::Global;
use std::collections::BTreeMap;
use std::marker::Model;

/// An event request that a target accepted: as asked, under the id in the reply.
///
/// The kind and the policy are the bytes that were asked, and the id is the int that was answered, since a peer may take others
/// than the specification's.
#[derive(Debug, Drop)]
pub struct KeptRequest {
    id: i32,
    kind: u8,
    policy: u8,
    modifiers: Vec<Modifier>,
}

impl Model for KeptRequest {
    ghost use Rattle.jdwp_mirror.specs.Mirror.{Kept};
    ghost use Rattle.jdwp_event.specs.RequestParts.{modifiers_meaning};

    ghost Value = { Kept };

    ghost view = { λ r. record { id = r.id; kind = r.kind; policy = r.policy; modifiers = modifiers_meaning r.modifiers } };
}

impl KeptRequest {
    pub(crate) fn new(id: i32, kind: u8, policy: u8, modifiers: Vec<Modifier>) -> KeptRequest
        ensures { result ≡ record {
          id = id;
          kind = kind;
          policy = policy;
          modifiers = modifiers_meaning modifiers;
        } }
    {
        KeptRequest {
            id,
            kind,
            policy,
            modifiers,
        }
    }

    /// The id in the target's reply.
    pub fn id(&self) -> i32
        ensures { result ≡ self.now.id }
    {
        self.id
    }

    /// The byte of the event kind.
    pub fn kind(&self) -> u8
        ensures { result ≡ self.now.kind }
    {
        self.kind
    }

    /// The byte of the suspend policy.
    pub fn policy(&self) -> u8
        ensures { result ≡ self.now.policy }
    {
        self.policy
    }

    /// The modifiers, in the order asked.
    pub fn modifiers(&self) -> &[Modifier]
        ensures { map modifier_meaning result.now ≡ self.now.modifiers }
    {
        self.modifiers.as_slice()
    }
}

/// Event requests, the last one asked last, each id once, and found by their ids. None of the calls takes a walk over those that it leaves.
#[derive(Drop)]
pub(crate) struct Requests {
    row: Row,
    /// The number of each in the row, by its id.
    numbers: BTreeMap<i32, u64>,
}

impl Model for Requests {
    ghost use Rattle.std.specs.Prelude.{List};
    ghost use Rattle.std.specs.Map.{values_of};
    ghost use Rattle.jdwp_mirror.specs.Mirror.{Kept};
    ghost use Rattle.jdwp_mirror.specs.Rows.{AreNamed, number_in};

    ghost Value = { List Kept };

    ghost view = { λ r. values_of r.row };

    ghost invariant = { λ r. AreNamed r.row (number_in r.numbers) };
}

impl Requests {
    /// No requests.
    pub fn new(alloc: Global) -> Requests
        ensures { result ≡ [] }
    {
        Requests {
            row: Row::new(alloc),
            numbers: BTreeMap::new(alloc),
        }
    }

    /// All of them, the last one asked last.
    pub fn iter(&self) -> KeptRequests<'_>
        ensures all { result ≡ self.now }
        ensures runs { ShowsInOrder (deref {X = Kept}) }
    {
        self.row.iter()
    }

    /// Adds what a Set asked, under the id in its reply.
    ///
    /// # Errors
    /// `NoMemory` where an allocation was refused; nothing has changed.
    pub fn add(&mut self, alloc: Global, carried: &Carried, reply: &Data) -> Result<(), NoMemory>
        ensures ok { OnOk result (self.new ≡ requests_after_data
            (set_action (carried_meaning carried.now)) reply.now self.old) }
        ensures err { OnErr result (self.new ≡ self.old) }
    {
        match carried {
            Carried::Content(asked) => self.add_asked(alloc, asked.items(), id_in_reply(reply)),
            Carried::Raw(_) => Ok(()),
        }
    }

    fn add_asked(&mut self, alloc: Global, asked: &[Datum], id: Option<i32>) -> Result<(), NoMemory>
        ensures ok { OnOk result ((content : List DatumMeaning) → id ≡ given_id content
            → self.new ≡ requests_after_data (set_action (actions.Content (meanings asked.now)))
            content self.old) }
        ensures err { OnErr result (self.new ≡ self.old) }
    {
        match (asked, id) {
            (
                [
                    Datum::One(Scalar::Byte(kind)),
                    Datum::One(Scalar::Byte(policy)),
                    Datum::Many(entries),
                ],
                Some(id),
            ) => {
                let modifiers = modifiers_in(alloc, entries)?;
                self.put(KeptRequest::new(id, *kind, *policy, modifiers))
            }
            _ => Ok(()),
        }
    }

    /// Removes what a command asked to be removed.
    pub fn remove_by(&mut self, kind: CommandKind, carried: &Carried)
        ensures { (content : List DatumMeaning)
            → self.new ≡ requests_after_others kind (carried_meaning carried.now) content self.old }
    {
        match kind {
            CommandKind::Clear => self.remove_asked(carried),
            CommandKind::ClearBreakpoints => self.remove_breakpoints(),
            CommandKind::Exit | CommandKind::Dispose => self.clear(),
            _ => {}
        }
    }

    fn remove_asked(&mut self, carried: &Carried)
        ensures { (content : List DatumMeaning)
            → self.new ≡ requests_after_data (clear_action (carried_meaning carried.now))
            content self.old }
    {
        match carried {
            Carried::Content(asked) => self.remove_in(asked.items()),
            Carried::Raw(_) => {}
        }
    }

    fn remove_in(&mut self, asked: &[Datum])
        ensures { (content : List DatumMeaning)
            → self.new ≡ requests_after_data (clear_action (actions.Content (meanings asked.now)))
            content self.old }
    {
        match asked {
            [Datum::One(Scalar::Byte(kind)), Datum::One(Scalar::Int(id))] => {
                self.remove(*kind, *id);
            }
            _ => {}
        }
    }

    /// Adds a request, in place of an older one of its id.
    ///
    /// # Errors
    /// `NoMemory` where an allocation was refused; nothing has changed.
    pub fn put(&mut self, request: KeptRequest) -> Result<(), NoMemory>
        ensures ok { OnOk result (self.new
            ≡ filter (has_other_id request.id) self.old ++ request ∷ []) }
        ensures err { OnErr result (self.new ≡ self.old) }
    {
        let id = request.id();
        let number = self.row.push(request)?;
        match self.numbers.insert(id, number) {
            Ok(Some(older)) => {
                self.row.remove(older);
                Ok(())
            }
            Ok(None) => Ok(()),
            Err(_) => {
                // It is taken back, so that nothing has changed.
                self.row.remove(number);
                Err(NoMemory)
            }
        }
    }

    /// Removes the request of this kind and id, if there is one.
    pub fn remove(&mut self, kind: u8, id: i32)
        ensures { self.new ≡ filter (is_not_kept kind id) self.old }
    {
        let Some(number) = number_of(&self.numbers, id) else {
            return;
        };
        if self.row.has_kind(number, kind) {
            self.row.remove(number);
            let _ = self.numbers.remove(&id);
        }
    }

    /// Removes all requests of the kind BREAKPOINT.
    pub fn remove_breakpoints(&mut self)
        ensures { self.new ≡ filter is_no_kept_breakpoint self.old }
    {
        for _ in 0..self.row.breakpoints() {
            self.remove_breakpoint();
        }
    }

    /// Removes the first request of the kind BREAKPOINT, if there is one.
    fn remove_breakpoint(&mut self)
        ensures { self.new ≡ without_first is_no_kept_breakpoint self.old }
    {
        if let Some(request) = self.row.take_breakpoint() {
            let _ = self.numbers.remove(&request.id());
        }
    }

    /// Removes all of them.
    pub fn clear(&mut self)
        ensures { self.new ≡ [] }
    {
        self.row.clear();
        self.numbers.clear();
    }
}

/// The number of the request of this id, or None where there is none.
fn number_of(numbers: &BTreeMap<i32, u64>, id: i32) -> Option<u64>
    ensures { result ≡ number_in numbers.now id }
{
    numbers.get(&id).copied()
}

/// The modifiers of the entries of a Set's list, in the order sent. An entry that is none is left out.
///
/// # Errors
/// `NoMemory` where an allocation was refused.
pub(crate) fn modifiers_in(
    alloc: Global,
    entries: &[Vec<Scalar>],
) -> Result<Vec<Modifier>, NoMemory>
    ensures { IfOk result (λ modifiers. modifiers_meaning modifiers
        ≡ modifiers_of (entry_meanings entries.now)) }
{
    let mut modifiers = Vec::with_capacity(alloc, entries.len())?;
    for entry in entries {
        let copy = copy_entry(alloc, entry)?;
        match Modifier::of_entry(copy) {
            Some(modifier) => modifiers.push(modifier)?,
            None => {}
        }
    }
    Ok(modifiers)
}
