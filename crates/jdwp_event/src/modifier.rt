//! Modifiers of event requests (JDWP specification, "Protocol Details": the command Set of the set EventRequest).
ghost use Rattle.std.specs.Prelude.{◌≡◌, ◌≢◌, ◌≤◌, ◌<◌, ◌+◌, ◌∷◌, [], length, OnOk, IfOk, IfErr, Some, vec_len, vec_capacity};
ghost use Rattle.std.specs.Result.{IsErrOf};
ghost use Rattle.std.specs.String.{string_bytes};
ghost use Rattle.jdwp_wire.specs.declared.data_fault.DataFault.TheVariants.{NoMemory as WantOfMemory};
ghost use Rattle.jdwp_wire.specs.Reading.{in_usize};
ghost use Rattle.jdwp_wire.specs.Writing.{Appends, Leaves, HasRoom};
ghost use Rattle.jdwp_layout.specs.declared.item.Field.TheVariants.{String as TextField};
ghost use Rattle.jdwp_layout.specs.ModifierKindNumbers.{CLASS_MATCH};
ghost use Rattle.jdwp_layout.specs.ModifiersAndEvents.{modifier_fields};
ghost use Rattle.jdwp_layout.specs.Shapes.{Modifiers};
ghost use Rattle.jdwp_layout.specs.Meanings.{Byte, Text};
ghost use Rattle.jdwp_layout.specs.Grammar.{EncodesEntry};
ghost use Rattle.jdwp_layout.specs.Writes.{entry_canonical, entry_refusal};
ghost use Rattle.jdwp_layout.specs.Meanings.{scalar_meaning, scalar_meanings, entry_meaning, entry_meanings};
ghost use Rattle.jdwp_event.specs.ModifierBytes.{modifier_entry, EncodesModifier, modifier_canonical, modifier_refusal, ModifierFault, modifier_at, ModifierIsKept};
ghost use Rattle.jdwp_event.specs.ModifierParts.{parts_meaning, MayHavePattern};
ghost use Rattle.jdwp_event.specs.ModifierLaws.{modifier_codes, modifier_unrefused};
ghost use Rattle.jdwp_event.specs.Modifiers.{ModifierMeaning, modifier_of, modifier_of_kind, modifiers_of};
ghost use Rattle.jdwp_event.specs.ModifierMeanings.{found_modifier, modifier_meaning};
ghost use Rattle.jdwp_event.specs.RequestParts.{modifiers_meaning};

use jdwp_layout::modifier_kinds::{
    CLASS_EXCLUDE, CLASS_MATCH, CLASS_ONLY, CONDITIONAL, COUNT, EXCEPTION_ONLY, FIELD_ONLY,
    INSTANCE_ONLY, LOCATION_ONLY, SOURCE_NAME_MATCH, STEP, THREAD_ONLY,
};
use jdwp_layout::{Entry, Scalar, entry_size, pass_entry, read_entry, write_entry};
use jdwp_value::{FieldId, Location, ObjectId, ReferenceTypeId};
use jdwp_wire::{DataFault, IdSizes, NoMemory, Wire, all_or_nothing};
use std::alloc::Global;

/// What limits the events that a request reports. A request tries its modifiers in the order sent.
#[derive(Debug, Drop)]
pub enum Modifier {
    /// 1: only the n-th time that it is reached.
    Count(i32),
    /// 2: reserved by the specification.
    Conditional(i32),
    /// 3: only events of this thread.
    ThreadOnly(ObjectId),
    /// 4: only in this class and those that reach it.
    ClassOnly(ReferenceTypeId),
    /// 5: only in classes whose name fits the pattern: an equal name, or with one `*` at an end.
    ClassMatch(String),
    /// 6: only in classes whose name does not fit the pattern.
    ClassExclude(String),
    /// 7: only at this location.
    LocationOnly(Location),
    /// 8: only exceptions of this class (0: of any), caught ones or not, uncaught ones or not.
    ExceptionOnly {
        class: ReferenceTypeId,
        caught: bool,
        uncaught: bool,
    },
    /// 9: only events of this field.
    FieldOnly {
        class: ReferenceTypeId,
        field: FieldId,
    },
    /// 10: only steps of this thread, by size and depth as numbers.
    Step {
        thread: ObjectId,
        size: i32,
        depth: i32,
    },
    /// 11: only events of this object.
    InstanceOnly(ObjectId),
    /// 12: only in classes whose source name fits the pattern.
    SourceNameMatch(String),
}

impl Modifier {
    /// The modifier that an entry of a Set's list is; None where the entry is no kind byte with the fields of that kind.
    /// Wants no memory.
    pub fn of_entry(mut entry: Vec<Scalar>) -> Option<Modifier>
        ensures { found_modifier result ≡ modifier_of (entry_meaning entry) }
    {
        match entry.as_slice() {
            [Scalar::Byte(kind), _] => {
                let kind = *kind;
                of_one(kind, entry.take_last())
            }
            [Scalar::Byte(kind), fields @ ..] if fields.len() > 1 => of_more(*kind, fields),
            _ => None,
        }
    }

    /// The modifiers of the entries of a Set's list, in the order sent. An entry that is no modifier is left out.
    ///
    /// # Errors
    /// `NoMemory` where an allocation was refused, and only where an entry is a modifier.
    pub fn of_entries(alloc: Global, entries: Vec<Vec<Scalar>>) -> Result<Vec<Modifier>, NoMemory>
        ensures value { IfOk result
            (λ found. modifiers_meaning found ≡ modifiers_of (entry_meanings entries.items)) }
        ensures memory { IfErr result (λ _. modifiers_of (entry_meanings entries.items) ≡ [] → ⊥) }
    {
        let mut modifiers = Vec::new(alloc);
        for entry in entries {
            if let Some(modifier) = Modifier::of_entry(entry) {
                modifiers.push(modifier)?;
            }
        }
        Ok(modifiers)
    }
}

/// A kind byte and the fields of that kind.
///
/// A kind that no modifier has is `BadTag` once its byte is there.
impl Wire for Modifier {
    ghost Meaning = { ModifierMeaning };

    ghost meaning = { modifier_meaning };

    ghost encodes = { EncodesModifier };

    ghost canonical = { modifier_canonical };

    ghost refusal = { modifier_refusal };

    ghost faults = { ModifierFault };

    ghost decoded = { modifier_at };

    ghost takes_memory = { ModifierIsKept };

    fn size(&self, sizes: &IdSizes) -> Option<usize> {
        match parts_of(self) {
            Parts::Pattern(_, pattern) => pattern_size(pattern, sizes),
            Parts::One(kind, field) => entry_size(&[Scalar::Byte(kind), field], sizes),
            Parts::Two(kind, first, second) => {
                entry_size(&[Scalar::Byte(kind), first, second], sizes)
            }
            Parts::Three(kind, first, second, third) => {
                entry_size(&[Scalar::Byte(kind), first, second, third], sizes)
            }
        }
    }

    fn put(&self, sizes: &IdSizes, output: &mut Vec<u8>) -> Result<(), DataFault> {
        match parts_of(self) {
            Parts::Pattern(kind, pattern) => put_pattern(kind, pattern, sizes, output),
            Parts::One(kind, field) => {
                write_entry(Entry::Modifier, &[Scalar::Byte(kind), field], sizes, output)
            }
            Parts::Two(kind, first, second) => {
                let entry = [Scalar::Byte(kind), first, second];
                write_entry(Entry::Modifier, &entry, sizes, output)
            }
            Parts::Three(kind, first, second, third) => {
                let entry = [Scalar::Byte(kind), first, second, third];
                write_entry(Entry::Modifier, &entry, sizes, output)
            }
        }
    }

    fn take_front<'a>(
        alloc: Global,
        rest: &'a [u8],
        whole: usize,
        sizes: &IdSizes,
    ) -> Result<(Modifier, &'a [u8]), DataFault> {
        let (entry, rest) = read_entry(alloc, Entry::Modifier, rest, whole, sizes)?;
        match Modifier::of_entry(entry) {
            Some(modifier) => Ok((modifier, rest)),
            None => Err(DataFault::BadTag),
        }
    }

    fn pass_front<'a>(
        rest: &'a [u8],
        whole: usize,
        sizes: &IdSizes,
    ) -> Result<&'a [u8], DataFault> {
        pass_entry(Entry::Modifier, rest, whole, sizes)
    }

    ghost found = { λ w whole. (modifier_codes w whole).found };

    ghost again = { λ w whole. (modifier_codes w whole).again };

    ghost blamed = { λ w whole. (modifier_codes w whole).blamed };

    ghost judged = { λ w whole. (modifier_codes w whole).judged };

    ghost unrefused = { modifier_unrefused };
}

/// The kind of a modifier, and what its fields hold: a pattern where it lies, or up to three scalars.
#[derive(Drop)]
enum Parts<'a> {
    Pattern(u8, &'a String),
    One(u8, Scalar),
    Two(u8, Scalar, Scalar),
    Three(u8, Scalar, Scalar, Scalar),
}

fn parts_of(modifier: &Modifier) -> Parts<'_>
    ensures all { parts_meaning result ≡ modifier_entry (modifier_meaning modifier.now) }
    ensures pattern { MayHavePattern result }
{
    match modifier {
        Modifier::Count(n) => Parts::One(COUNT, Scalar::Int(*n)),
        Modifier::Conditional(n) => Parts::One(CONDITIONAL, Scalar::Int(*n)),
        Modifier::ThreadOnly(thread) => Parts::One(THREAD_ONLY, Scalar::ObjectId(*thread)),
        Modifier::ClassOnly(class) => Parts::One(CLASS_ONLY, Scalar::ReferenceTypeId(*class)),
        Modifier::ClassMatch(pattern) => Parts::Pattern(CLASS_MATCH, pattern),
        Modifier::ClassExclude(pattern) => Parts::Pattern(CLASS_EXCLUDE, pattern),
        Modifier::LocationOnly(location) => Parts::One(LOCATION_ONLY, Scalar::Location(*location)),
        Modifier::ExceptionOnly {
            class,
            caught,
            uncaught,
        } => Parts::Three(
            EXCEPTION_ONLY,
            Scalar::ReferenceTypeId(*class),
            Scalar::Boolean(*caught),
            Scalar::Boolean(*uncaught),
        ),
        Modifier::FieldOnly { class, field } => {
            Parts::Two(
                FIELD_ONLY,
                Scalar::ReferenceTypeId(*class),
                Scalar::FieldId(*field),
            )
        }
        Modifier::Step {
            thread,
            size,
            depth,
        } => Parts::Three(
            STEP,
            Scalar::ObjectId(*thread),
            Scalar::Int(*size),
            Scalar::Int(*depth),
        ),
        Modifier::InstanceOnly(object) => Parts::One(INSTANCE_ONLY, Scalar::ObjectId(*object)),
        Modifier::SourceNameMatch(pattern) => Parts::Pattern(SOURCE_NAME_MATCH, pattern),
    }
}

/// How many bytes a modifier with a pattern takes; None past `usize`.
fn pattern_size(pattern: &String, sizes: &IdSizes) -> Option<usize>
    ensures { result ≡ in_usize (length (entry_canonical sizes.now
        (Byte CLASS_MATCH ∷ Text (string_bytes pattern.now) ∷ []))) }
{
    let text = pattern.size(sizes)?;
    text.checked_add(1)
}

/// Appends a modifier of a kind that has a pattern.
fn put_pattern(
    kind: u8,
    pattern: &String,
    sizes: &IdSizes,
    output: &mut Vec<u8>,
) -> Result<(), DataFault>
    requires { modifier_fields kind ≡ Some (TextField ∷ []) }
    ensures ok { Appends (EncodesEntry sizes.now Modifiers) (entry_canonical sizes.now)
        (Byte kind ∷ Text (string_bytes pattern.now) ∷ []) result output.old output.new }
    ensures err { Leaves
        (entry_refusal sizes.now Modifiers (Byte kind ∷ Text (string_bytes pattern.now) ∷ []))
        result output.old output.new }
    ensures room { HasRoom
        (entry_canonical sizes.now (Byte kind ∷ Text (string_bytes pattern.now) ∷ [])) output.old
        → IsErrOf result WantOfMemory → ⊥ }
    ensures capacity { vec_capacity output.old ≤ vec_capacity output.new }
{
    let before = output.len();
    output.push(kind)?;
    let done = pattern.put(sizes, output);
    all_or_nothing(done, before, output)
}

/// The modifier of a kind with one field.
fn of_one(kind: u8, field: Scalar) -> Option<Modifier>
    ensures { found_modifier result ≡ modifier_of_kind kind (scalar_meaning field ∷ []) }
{
    match (kind, field) {
        (COUNT, Scalar::Int(count)) => Some(Modifier::Count(count)),
        (CONDITIONAL, Scalar::Int(expression)) => Some(Modifier::Conditional(expression)),
        (THREAD_ONLY, Scalar::ObjectId(thread)) => Some(Modifier::ThreadOnly(thread)),
        (CLASS_ONLY, Scalar::ReferenceTypeId(class)) => Some(Modifier::ClassOnly(class)),
        (CLASS_MATCH, Scalar::String(pattern)) => Some(Modifier::ClassMatch(pattern)),
        (CLASS_EXCLUDE, Scalar::String(pattern)) => Some(Modifier::ClassExclude(pattern)),
        (LOCATION_ONLY, Scalar::Location(location)) => Some(Modifier::LocationOnly(location)),
        (INSTANCE_ONLY, Scalar::ObjectId(object)) => Some(Modifier::InstanceOnly(object)),
        (SOURCE_NAME_MATCH, Scalar::String(pattern)) => Some(Modifier::SourceNameMatch(pattern)),
        _ => None,
    }
}

/// The modifier of a kind with more than one field.
fn of_more(kind: u8, fields: &[Scalar]) -> Option<Modifier>
    requires { 1 < length fields.now }
    ensures { found_modifier result ≡ modifier_of_kind kind (scalar_meanings fields.now) }
{
    match (kind, fields) {
        (
            EXCEPTION_ONLY,
            [
                Scalar::ReferenceTypeId(class),
                Scalar::Boolean(caught),
                Scalar::Boolean(uncaught),
            ],
        ) => Some(Modifier::ExceptionOnly {
            class: *class,
            caught: *caught,
            uncaught: *uncaught,
        }),
        (FIELD_ONLY, [Scalar::ReferenceTypeId(class), Scalar::FieldId(field)]) => {
            Some(Modifier::FieldOnly {
                class: *class,
                field: *field,
            })
        }
        (
            STEP,
            [
                Scalar::ObjectId(thread),
                Scalar::Int(size),
                Scalar::Int(depth),
            ],
        ) => {
            Some(Modifier::Step {
                thread: *thread,
                size: *size,
                depth: *depth,
            })
        }
        _ => None,
    }
}
