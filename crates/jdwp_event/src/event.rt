//! Events and composites (JDWP specification, "Protocol Details": the command Composite of the set Event).
ghost use Rattle.std.specs.Prelude.{◌≡◌, ◌≤◌, ◌+◌, ◌<◌, ◌++◌, length, take, option_map, IfOk, IfErr, [], vec_len, vec_capacity};
ghost use Rattle.std.specs.List.{flat_map, list_any};
ghost use Rattle.std.specs.Result.{IsErrOf};
ghost use Rattle.jdwp_wire.specs.declared.data_fault.DataFault.TheVariants.{NoMemory as WantOfMemory};
ghost use Rattle.jdwp_wire.specs.Reading.{Gives, passed, in_usize};
ghost use Rattle.jdwp_wire.specs.Writing.{Appends, LeavesInFront, HasRoom};
ghost use Rattle.jdwp_wire.specs.Each.{times_at, EncodesAll};
ghost use Rattle.jdwp_wire.specs.Listed.{first_refusal};
ghost use Rattle.jdwp_layout.specs.Shapes.{Events};
ghost use Rattle.jdwp_layout.specs.Meanings.{ScalarMeaning, entry_meaning, entry_meanings, scalar_meanings};
ghost use Rattle.jdwp_layout.specs.Grammar.{EncodesEntry, EntryFault};
ghost use Rattle.jdwp_layout.specs.Keeping.{EntryIsKept, EntriesAreKept};
ghost use Rattle.jdwp_layout.specs.Reads.{entry_at};
ghost use Rattle.jdwp_layout.specs.Writes.{entry_canonical, entry_refusal};
ghost use Rattle.jdwp_layout.specs.EntryLaws.{entry_codes, entry_unrefused};
ghost use Rattle.jdwp_event.specs.CompositeBytes.{EncodesComposite, composite_canonical, composite_refusal, CompositeFault, composite_at, CompositeIsKept, HasEvents, composite_of, with_policy};
ghost use Rattle.jdwp_event.specs.CompositeLaws.{composite_codes, composite_unrefused};
ghost use Rattle.jdwp_event.specs.Constants.{policy_byte};
ghost use Rattle.jdwp_event.specs.Filters.{all_counted, passes, passing};
ghost use Rattle.jdwp_event.specs.Occurrences.{occurrence_meaning};
ghost use Rattle.jdwp_event.specs.Composites.{composite_data, details, event_for, gathered, vm_start, vm_death};

use crate::happening::{Happening, Occurrence};
use crate::kind::EventKind;
use crate::policy::Policy;
use crate::request::{Request, matches};
use crate::requests::{Requests, count_down};
use jdwp_layout::{
    Data, Datum, Entry, Scalar, entry_size, pass_entries, pass_entry, read_entry, write_entry,
};
use jdwp_value::ObjectId;
use jdwp_wire::number::{put_count, take_byte, take_count};
use jdwp_wire::{DataFault, IdSizes, NoMemory, Wire, all_or_nothing};
use std::alloc::Global;
use std::marker::Model;

/// An event of a composite: its kind as a byte, the id of its request, and the fields of its kind.
#[derive(Debug, Drop)]
pub struct Event {
    fields: Vec<Scalar>,
}

impl Model for Event {
    ghost use Rattle.std.specs.Prelude.{List};
    ghost use Rattle.jdwp_layout.specs.Meanings.{ScalarMeaning, entry_meaning};

    ghost Value = { List ScalarMeaning };

    ghost view = { λ e. entry_meaning e.fields };
}

impl Event {
    /// The event with these fields, of which the first two are the kind as a byte and the id of the request as an int.
    pub fn new(fields: Vec<Scalar>) -> Event
        ensures { result ≡ entry_meaning fields }
    {
        Event { fields }
    }

    /// Its fields, the kind and the id of the request among them.
    pub fn fields(&self) -> &[Scalar]
        ensures { scalar_meanings result.now ≡ self.now }
    {
        self.fields.as_slice()
    }
}

/// A kind byte, the id of the request as an int, and the fields of that kind.
///
/// A kind that no event has is `BadTag` once its byte is there. An event whose fields are not those of its kind is not
/// written: `BadSize`.
impl Wire for Event {
    ghost use Rattle.std.specs.Prelude.{List};

    ghost Meaning = { List ScalarMeaning };

    ghost meaning = { λ event. event };

    ghost encodes = { λ w. EncodesEntry w Events };

    ghost canonical = { entry_canonical };

    ghost refusal = { λ w. entry_refusal w Events };

    ghost faults = { λ w whole. EntryFault w whole Events };

    ghost decoded = { λ w whole. entry_at w whole Events };

    ghost takes_memory = { λ w. EntryIsKept w Events };

    fn size(&self, sizes: &IdSizes) -> Option<usize> {
        entry_size(&self.fields, sizes)
    }

    fn put(&self, sizes: &IdSizes, output: &mut Vec<u8>) -> Result<(), DataFault> {
        write_entry(Entry::Event, &self.fields, sizes, output)
    }

    fn take_front<'a>(
        alloc: Global,
        rest: &'a [u8],
        whole: usize,
        sizes: &IdSizes,
    ) -> Result<(Event, &'a [u8]), DataFault> {
        let (fields, rest) = read_entry(alloc, Entry::Event, rest, whole, sizes)?;
        Ok((Event { fields }, rest))
    }

    fn pass_front<'a>(
        rest: &'a [u8],
        whole: usize,
        sizes: &IdSizes,
    ) -> Result<&'a [u8], DataFault> {
        pass_entry(Entry::Event, rest, whole, sizes)
    }

    ghost found = { λ w whole. (entry_codes w whole Events).found };

    ghost again = { λ w whole. (entry_codes w whole Events).again };

    ghost blamed = { λ w whole. (entry_codes w whole Events).blamed };

    ghost judged = { λ w whole. (entry_codes w whole Events).judged };

    ghost unrefused = { λ w. entry_unrefused w Events };
}

/// What is reported at once, and which threads that suspends.
///
/// The policy is kept as its byte, since a peer may send another than the specification's.
#[derive(Debug, Drop)]
pub struct Composite {
    policy: u8,
    events: Vec<Event>,
}

impl Model for Composite {
    ghost use Rattle.jdwp_event.specs.Composites.{CompositeMeaning};

    ghost Value = { CompositeMeaning };

    ghost view = { λ c. record { policy = c.policy; events = c.events.items } };
}

impl Composite {
    /// A composite of these events.
    pub fn new(policy: u8, events: Vec<Event>) -> Composite
        ensures { result ≡ record { policy = policy; events = events.items } }
    {
        Composite { policy, events }
    }

    /// The start of the machine, in this thread, which the target reports under the request id 0.
    ///
    /// # Errors
    /// `NoMemory` where an allocation was refused.
    pub fn vm_start(alloc: Global, policy: Policy, thread: ObjectId) -> Result<Composite, NoMemory>
        ensures { IfOk result (λ c. c ≡ vm_start (policy_byte policy) thread.0) }
    {
        let kind = Scalar::Byte(EventKind::VmStart.byte());
        let fields = vec![in alloc; kind, Scalar::Int(0), Scalar::ObjectId(thread)]?;
        Ok(Composite {
            policy: policy.byte(),
            events: vec![in alloc; Event { fields }]?,
        })
    }

    /// The death of the machine, which the target reports under the request id 0, with the policy NONE.
    ///
    /// # Errors
    /// `NoMemory` where an allocation was refused.
    pub fn vm_death(alloc: Global) -> Result<Composite, NoMemory>
        ensures { IfOk result (λ c. c ≡ vm_death) }
    {
        let kind = Scalar::Byte(EventKind::VmDeath.byte());
        let fields = vec![in alloc; kind, Scalar::Int(0)]?;
        Ok(Composite {
            policy: Policy::None.byte(),
            events: vec![in alloc; Event { fields }]?,
        })
    }

    /// Its data, in the layout of its row.
    ///
    /// # Errors
    /// `NoMemory` where an allocation was refused.
    pub fn into_data(self, alloc: Global) -> Result<Data, NoMemory>
        ensures { IfOk result (λ d. d ≡ composite_data self) }
    {
        let mut entries = Vec::with_capacity(alloc, self.events.len())?;
        for event in self.events {
            entries.push_reserved(event.fields);
        }
        let policy = Datum::One(Scalar::Byte(self.policy));
        Ok(Data::new(vec![in alloc; policy, Datum::Many(entries)]?))
    }

    /// The composite of data in the layout of its row; None exactly where they are not a byte and a list.
    ///
    /// # Errors
    /// `NoMemory` where an allocation was refused, and only where they have an event.
    pub fn of_data(alloc: Global, carried: Data) -> Result<Option<Composite>, NoMemory>
        ensures value { IfOk result (λ found. found ≡ composite_of carried) }
        ensures memory { IfErr result (λ _. HasEvents (composite_of carried)) }
    {
        let Some((policy, entries)) = policy_and_entries(carried) else {
            return Ok(None);
        };
        let events = events_of(alloc, entries)?;
        Ok(Some(Composite { policy, events }))
    }

    /// The byte of the suspend policy.
    pub fn policy(&self) -> u8
        ensures { result ≡ self.now.policy }
    {
        self.policy
    }

    /// Its events, in order.
    pub fn events(&self) -> &[Event]
        ensures { result.now ≡ self.now.events }
    {
        self.events.as_slice()
    }
}

/// The policy and the entries of data that are a byte and a list.
#[tactic(auto, using(std::proofs::lemmas::Grind::common_steps))]
fn policy_and_entries(carried: Data) -> Option<(u8, Vec<Vec<Scalar>>)>
    ensures { option_map (λ p. with_policy p.0 (entry_meanings p.1.items)) result
        ≡ composite_of carried }
{
    let mut items = carried.into_items();
    let [Datum::One(Scalar::Byte(policy)), Datum::Many(_)] = items.as_slice() else {
        return None;
    };
    let policy = *policy;
    match items.pop() {
        Some(Datum::Many(entries)) => Some((policy, entries)),
        _ => unreachable!(),
    }
}

/// The events of these fields.
///
/// # Errors
/// `NoMemory` where an allocation was refused, and only where there are any.
fn events_of(alloc: Global, entries: Vec<Vec<Scalar>>) -> Result<Vec<Event>, NoMemory>
    ensures value { IfOk result (λ events. events.items ≡ entry_meanings entries.items) }
    ensures memory { IfErr result (λ _. entry_meanings entries.items ≡ [] → ⊥) }
{
    let mut events = Vec::with_capacity(alloc, entries.len())?;
    for fields in entries {
        events.push_reserved(Event { fields });
    }
    Ok(events)
}

/// The policy as a byte, an int count and so many events.
///
/// Events are read one by one, and nothing is reserved by the count.
impl Wire for Composite {
    ghost use Rattle.jdwp_event.specs.Composites.{CompositeMeaning};

    ghost Meaning = { CompositeMeaning };

    ghost meaning = { λ composite. composite };

    ghost encodes = { EncodesComposite };

    ghost canonical = { composite_canonical };

    ghost refusal = { composite_refusal };

    ghost faults = { CompositeFault };

    ghost decoded = { composite_at };

    ghost takes_memory = { CompositeIsKept };

    fn size(&self, sizes: &IdSizes) -> Option<usize> {
        let events = events_size(&self.events, sizes)?;
        events.checked_add(5)
    }

    fn put(&self, sizes: &IdSizes, output: &mut Vec<u8>) -> Result<(), DataFault> {
        let before = output.len();
        let done = put_parts(self.policy, &self.events, sizes, output);
        all_or_nothing(done, before, output)
    }

    fn take_front<'a>(
        alloc: Global,
        rest: &'a [u8],
        whole: usize,
        sizes: &IdSizes,
    ) -> Result<(Composite, &'a [u8]), DataFault> {
        let (policy, rest) = take_byte(rest, whole)?;
        let (count, rest) = take_count(rest, whole)?;
        let (events, rest) = take_events(alloc, count, rest, whole, sizes)?;
        Ok((Composite { policy, events }, rest))
    }

    fn pass_front<'a>(
        rest: &'a [u8],
        whole: usize,
        sizes: &IdSizes,
    ) -> Result<&'a [u8], DataFault> {
        let (_policy, rest) = take_byte(rest, whole)?;
        let (count, rest) = take_count(rest, whole)?;
        pass_entries(count, Entry::Event, rest, whole, sizes)
    }

    ghost found = { λ w whole. (composite_codes w whole).found };

    ghost again = { λ w whole. (composite_codes w whole).again };

    ghost blamed = { λ w whole. (composite_codes w whole).blamed };

    ghost judged = { λ w whole. (composite_codes w whole).judged };

    ghost unrefused = { composite_unrefused };
}

/// How many bytes the events take; None past `usize`.
fn events_size(events: &[Event], sizes: &IdSizes) -> Option<usize>
    ensures { result ≡ in_usize (length (flat_map (entry_canonical sizes.now) events.now)) }
{
    let mut total: usize = 0;
    for event in events {
        let size = event.size(sizes)?;
        total = total.checked_add(size)?;
    }
    Some(total)
}

/// `count` events, and what follows them.
fn take_events<'a>(
    alloc: Global,
    count: usize,
    bytes: &'a [u8],
    whole: usize,
    sizes: &IdSizes,
) -> Result<(Vec<Event>, &'a [u8]), DataFault>
    ensures value { Gives (λ x. (x.0.items, x.1.now)) result
        (times_at (entry_at sizes.now whole Events) count bytes.now) }
    ensures shorter { IfOk result (λ x. length x.1.now ≤ length bytes.now) }
    ensures memory { IsErrOf result WantOfMemory → EntriesAreKept sizes.now Events count bytes.now }
{
    let mut events = Vec::new(alloc);
    let mut rest = bytes;
    for _ in 0..count {
        let (event, after) = Event::take_front(alloc, rest, whole, sizes)?;
        events.push(event)?;
        rest = after;
    }
    Ok((events, rest))
}

/// Appends the policy, the count and the events, and may stop on the way.
fn put_parts(
    policy: u8,
    events: &[Event],
    sizes: &IdSizes,
    output: &mut Vec<u8>,
) -> Result<(), DataFault>
    ensures ok { Appends (EncodesComposite sizes.now) (composite_canonical sizes.now)
        (with_policy policy events.now) result output.old output.new }
    ensures err { LeavesInFront (composite_refusal sizes.now (with_policy policy events.now))
        result output.old output.new }
    ensures room { HasRoom (composite_canonical sizes.now (with_policy policy events.now))
        output.old → IsErrOf result WantOfMemory → ⊥ }
    ensures capacity { vec_capacity output.old ≤ vec_capacity output.new }
{
    output.push(policy)?;
    put_count(events.len(), output)?;
    put_events(events, sizes, output)
}

/// Appends each event, and may stop on the way.
fn put_events(events: &[Event], sizes: &IdSizes, output: &mut Vec<u8>) -> Result<(), DataFault>
    ensures ok { Appends (EncodesAll (EncodesEntry sizes.now Events))
        (flat_map (entry_canonical sizes.now)) events.now result output.old output.new }
    ensures err { LeavesInFront (first_refusal (entry_refusal sizes.now Events) events.now)
        result output.old output.new }
    ensures room { HasRoom (flat_map (entry_canonical sizes.now) events.now) output.old
        → IsErrOf result WantOfMemory → ⊥ }
    ensures capacity { vec_capacity output.old ≤ vec_capacity output.new }
{
    for event in events {
        event.put(sizes, output)?;
    }
    Ok(())
}

/// The composite of all requests that report the happening, by rising id, with the most suspending of their policies; None exactly
/// where none does, and then it takes no memory. Changes nothing: `count_down` counts the happening.
///
/// # Errors
/// `NoMemory` where an allocation was refused.
pub fn gather(
    alloc: Global,
    requests: &Requests,
    happening: &Happening,
) -> Result<Option<Composite>, NoMemory>
    ensures gathers { IfOk result (λ found. found ≡ gathered happening.now requests.now) }
    ensures memory { IfErr result (λ _. passing happening.now requests.now ≡ [] → ⊥) }
{
    if !requests.ask_for(happening.occurrence()) {
        return Ok(None);
    }
    if !any_matches(requests.as_slice(), happening) {
        return Ok(None);
    }
    gather_passing(alloc, requests, happening)
}

/// Whether a request reports the happening: mostly none does, and this loop writes nothing.
fn any_matches(requests: &[Request], happening: &Happening) -> bool
    ensures { result ≡ list_any (passes happening.now) requests.now }
{
    for request in requests {
        if matches(request, happening) {
            return true;
        }
    }
    false
}

/// Counts a happening as `count_down` does, where it is known what `gather` gives for it (`found`): where that is None and no request
/// has a Count, nothing is left to do, and no request is tried. Takes no memory.
pub fn count_gathered(requests: &mut Requests, happening: &Happening, found: &Option<Composite>)
    ensures { found.now ≡ gathered happening.now requests.old
        → requests.new ≡ all_counted happening.now requests.old }
{
    if found.is_some() || requests.have_count() {
        count_down(requests, happening);
    }
}

/// The composite of the happening, by a trial of each request.
fn gather_passing(
    alloc: Global,
    requests: &Requests,
    happening: &Happening,
) -> Result<Option<Composite>, NoMemory>
    ensures gathers { IfOk result (λ found. found ≡ gathered happening.now requests.now) }
    ensures memory { IfErr result (λ _. passing happening.now requests.now ≡ [] → ⊥) }
{
    let mut policy = Policy::None.byte();
    let mut events = Vec::new(alloc);
    for request in requests.as_slice() {
        if matches(request, happening) {
            let event = report(alloc, request, happening)?;
            events.push(event)?;
            policy = policy.max(request.policy());
        }
    }
    if events.is_empty() {
        return Ok(None);
    }
    Ok(Some(Composite { policy, events }))
}

/// The event by which the request reports the happening.
fn report(alloc: Global, request: &Request, happening: &Happening) -> Result<Event, NoMemory>
    ensures { IfOk result (λ e. e ≡ event_for happening.now request.now) }
{
    let kind = request.kind();
    let mut fields = Vec::with_capacity(alloc, 7)?;
    fields.push_reserved(Scalar::Byte(kind));
    fields.push_reserved(Scalar::Int(request.id() as i32));
    fields.push_reserved(Scalar::ObjectId(happening.thread()));
    put_details(alloc, kind, happening.occurrence(), &mut fields)?;
    Ok(Event { fields })
}

/// Appends what an event of the kind tells of the occurrence, behind its thread.
///
/// # Errors
/// `NoMemory` where an allocation was refused.
fn put_details(
    alloc: Global,
    kind: u8,
    occurrence: &Occurrence,
    fields: &mut Vec<Scalar>,
) -> Result<(), NoMemory>
    requires { vec_len fields.old + 4 ≤ vec_capacity fields.old }
    ensures { IfOk result (λ _. scalar_meanings fields.new.items
        ≡ scalar_meanings fields.old.items ++ details kind (occurrence_meaning occurrence.now)) }
{
    match occurrence {
        Occurrence::Moved(place) | Occurrence::Entered(place) => {
            fields.push_reserved(Scalar::Location(place.location));
        }
        Occurrence::Left(place, value) => {
            fields.push_reserved(Scalar::Location(place.location));
            if kind == EventKind::MethodExitWithReturnValue.byte() {
                fields.push_reserved(Scalar::Value(*value));
            }
        }
        Occurrence::Threw(place, thrown) => {
            fields.push_reserved(Scalar::Location(place.location));
            fields.push_reserved(Scalar::TaggedId(thrown.exception));
            fields.push_reserved(Scalar::Location(thrown.caught_at));
        }
        Occurrence::Prepared(prepared) => {
            let signature = String::from_str(alloc, &prepared.class.signature)?;
            fields.push_reserved(Scalar::Byte(prepared.tag.byte()));
            fields.push_reserved(Scalar::ReferenceTypeId(prepared.id));
            fields.push_reserved(Scalar::String(signature));
            fields.push_reserved(Scalar::Int(prepared.status));
        }
        Occurrence::Started | Occurrence::RanOut => {}
    }
    Ok(())
}
