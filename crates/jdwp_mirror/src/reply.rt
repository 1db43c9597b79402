//! What data of replies say, as far as a mirror learns from them.
ghost use Rattle.std.specs.Prelude.{◌≡◌, ℕ, IfOk};
ghost use Rattle.std.specs.BTreeSet.{contains};
ghost use Rattle.std.specs.List.{list_any};
ghost use Rattle.std.specs.Ordering.{nat_cmp};
ghost use Rattle.jdwp_layout.specs.Meanings.{entry_meanings, meanings, scalar_meanings};
ghost use Rattle.jdwp_mirror.specs.KnownThreads.{is_of_id};
ghost use Rattle.jdwp_mirror.specs.Mirror.{begins_with_object, counted, given_id, lists};

use jdwp_layout::{Data, Datum, Scalar};
use jdwp_value::ObjectId;
use jdwp_wire::NoMemory;
use std::alloc::Global;
use std::collections::BTreeSet;

/// The suspend count in a reply to ThreadReference.SuspendCount; None where it is no number from 0.
pub fn count_in_reply(reply: &Data) -> Option<u32>
    ensures { result ≡ counted reply.now }
{
    count_in_items(reply.items())
}

fn count_in_items(items: &[Datum]) -> Option<u32>
    ensures { result ≡ counted (meanings items.now) }
{
    match items {
        [Datum::One(Scalar::Int(count))] => u32::try_from(*count).ok(),
        _ => None,
    }
}

/// The id in a reply to EventRequest.Set.
pub fn id_in_reply(reply: &Data) -> Option<i32>
    ensures { result ≡ given_id reply.now }
{
    id_in_items(reply.items())
}

fn id_in_items(items: &[Datum]) -> Option<i32>
    ensures { result ≡ given_id (meanings items.now) }
{
    match items {
        [Datum::One(Scalar::Int(id))] => Some(*id),
        _ => None,
    }
}

/// The ids of the threads that a reply to VirtualMachine.AllThreads lists.
///
/// # Errors
/// `NoMemory` where an allocation was refused.
pub fn listed_in(alloc: Global, reply: &Data) -> Result<BTreeSet<u64>, NoMemory>
    ensures { IfOk result (λ listed. (t : ℕ) → contains nat_cmp listed t ≡ lists reply.now t) }
{
    listed_in_items(alloc, reply.items())
}

fn listed_in_items(alloc: Global, items: &[Datum]) -> Result<BTreeSet<u64>, NoMemory>
    ensures { IfOk result (λ listed. (t : ℕ) → contains nat_cmp listed t
        ≡ lists (meanings items.now) t) }
{
    match items {
        [Datum::Many(entries)] => listed_among(alloc, entries),
        _ => Ok(BTreeSet::new(alloc)),
    }
}

fn listed_among(alloc: Global, entries: &[Vec<Scalar>]) -> Result<BTreeSet<u64>, NoMemory>
    ensures { IfOk result (λ listed. (t : ℕ) → contains nat_cmp listed t
        ≡ list_any (begins_with_object t) (entry_meanings entries.now)) }
{
    let mut listed = BTreeSet::new(alloc);
    for entry in entries {
        if let Some(id) = first_object(entry) {
            listed.insert(id.0)?;
        }
    }
    Ok(listed)
}

/// The object with which an entry begins.
fn first_object(fields: &[Scalar]) -> Option<ObjectId>
    ensures { (t : ℕ) → begins_with_object t (scalar_meanings fields.now) ≡ is_of_id result t }
{
    match fields {
        [Scalar::ObjectId(first), ..] => Some(*first),
        _ => None,
    }
}
