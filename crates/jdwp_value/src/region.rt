//! Array regions (JDWP specification, "Data Types": arrayregion).
ghost use Rattle.std.specs.Prelude.{◌≡◌, ◌≤◌, ◌+◌, ◌<◌, ◌^◌, ◌↔◌, IsTrue, IsSome, IfSome, true, false, Ok, Err, length, take, List, IfOk, OnOk, IfErr, vec_len, vec_capacity};
ghost use Rattle.std.specs.List.{list_all, flat_map};
ghost use Rattle.std.specs.Cmp.{and_per, on_per};
ghost use Rattle.std.specs.Cmp.Lexicographic.{lists_per};
ghost use Rattle.std.specs.Cmp.Lexicographic.{pointwise};
ghost use Rattle.std.specs.Ordering.{eq_of_both, on};
ghost use Rattle.std.specs.Result.{IsErrOf};
ghost use Rattle.jdwp_wire.specs.declared.data_fault.DataFault.TheVariants.{NoMemory as WantOfMemory};
ghost use Rattle.jdwp_wire.specs.Reading.{Gives, passed, BeginsWith};
ghost use Rattle.jdwp_wire.specs.Writing.{Appends, Leaves, LeavesInFront, HasRoom};
ghost use Rattle.jdwp_wire.specs.Each.{times_at, EncodesAll};
ghost use Rattle.jdwp_wire.specs.Listed.{first_refusal};
ghost use Rattle.jdwp_wire.specs.Widths.{Widths};
ghost use Rattle.jdwp_value.specs.Tags.{tag_at};
ghost use Rattle.jdwp_value.specs.Values.{value_refusal, is_void};
ghost use Rattle.jdwp_value.specs.Regions.{Region, region_of, may_stand, is_region, EncodesElement, element_canonical, element_width, element_at, EncodesRegion, region_canonical, region_refusal, RegionFault, RegionIsKept, region_at};
ghost use Rattle.jdwp_value.specs.RegionLaws.{region_codes, region_unrefused};

use crate::tag::{Tag, take_tag};
use crate::value::{
    TaggedId, Value, pass_untagged, put_untagged, take_tagged_id, take_untagged, untagged_size,
};
use jdwp_wire::number::{put_count, take_count};
use jdwp_wire::{DataFault, IdSizes, NoMemory, Wire, all_or_nothing};
use std::alloc::Global;
use std::marker::Model;

/// Elements of an array, and their tag. A region has another tag than `V`. Where its tag is an object's, its
/// elements are objects of any kind; else they have its very tag.
#[derive(Debug, Drop)]
pub struct ArrayRegion {
    tag: Tag,
    elements: Vec<Value>,
}

impl Model for ArrayRegion {
    ghost Value = { Region };

    ghost view = { λ r. region_of r.tag r.elements.items };

    ghost invariant = { λ r. is_region r.tag r.elements.items ≡ true };
}

impl ArrayRegion {
    /// A region of this tag and these elements; None where the tag is `V` or an element doesn't fit it.
    pub fn new(tag: Tag, elements: Vec<Value>) -> Option<ArrayRegion>
        ensures some { IsSome result ↔ IsTrue (is_region tag elements.items) }
        ensures same { IfSome result (λ r. r ≡ region_of tag elements.items) }
    {
        if tag.is_void() || !all_may_stand(tag, &elements) {
            return None;
        }
        Some(ArrayRegion { tag, elements })
    }

    /// The tag of the region.
    pub fn tag(&self) -> Tag
        ensures { result ≡ self.now.tag }
    {
        self.tag
    }

    /// Another region of the same tag and elements.
    ///
    /// # Errors
    /// `NoMemory` where an allocation was refused.
    pub fn copied(&self, alloc: Global) -> Result<ArrayRegion, NoMemory>
        ensures { IfOk result (λ copy. copy ≡ self.now) }
    {
        let elements = Vec::from_slice(alloc, &self.elements)?;
        Ok(ArrayRegion {
            tag: self.tag,
            elements,
        })
    }

    /// The elements, in order, given back.
    pub fn into_elements(self) -> Vec<Value>
        ensures { result.items ≡ self.elements }
    {
        self.elements
    }

    /// The elements, in order.
    pub fn elements(&self) -> &[Value]
        ensures { result.now ≡ self.now.elements }
    {
        &self.elements
    }
}

impl PartialEq for ArrayRegion {
    ghost use Rattle.jdwp_value.specs.contracts.tag.TagPartialEq.TheImpl as tags;
    ghost use Rattle.jdwp_value.specs.contracts.value.ValuePartialEq.TheImpl as values;

    ghost eq = { eq_of_both (on (λ r. r.tag) tags.ghosts.eq)
        (on (λ r. r.elements) (pointwise values.ghosts.eq)) };

    ghost use Rattle.jdwp_value.specs.contracts.tag.TagPartialEq.TheImpl.Laws as tag_laws;
    ghost use Rattle.jdwp_value.specs.contracts.value.ValuePartialEq.TheImpl.Laws as value_laws;

    ghost laws = { and_per (on_per (λ r. r.tag) tag_laws.lawful.laws)
        (on_per (λ r. r.elements) (lists_per value_laws.lawful.laws)) };

    fn eq(&self, other: &ArrayRegion) -> bool {
        let same_tag = self.tag == other.tag;
        same_tag && self.elements.as_slice() == other.elements.as_slice()
    }
}

/// A tag, a count and so many elements: those of an object's tag with tags of their own, the others without.
///
/// Tag `V` is `BadTag`. Elements are read one by one, and nothing is reserved by the count.
impl Wire for ArrayRegion {
    ghost Meaning = { Region };

    ghost meaning = { λ region. region };

    ghost encodes = { EncodesRegion };

    ghost canonical = { region_canonical };

    ghost refusal = { region_refusal };

    ghost faults = { RegionFault };

    ghost decoded = { region_at };

    ghost takes_memory = { RegionIsKept };

    fn size(&self, sizes: &IdSizes) -> Option<usize> {
        let count = self.elements.len();
        let each = element_size(self.tag, sizes);
        count.checked_mul(each)?.checked_add(5)
    }

    fn put(&self, sizes: &IdSizes, output: &mut Vec<u8>) -> Result<(), DataFault> {
        let before = output.len();
        let done = put_parts(self.tag, &self.elements, sizes, output);
        all_or_nothing(done, before, output)
    }

    fn take_front<'a>(
        alloc: Global,
        rest: &'a [u8],
        whole: usize,
        sizes: &IdSizes,
    ) -> Result<(ArrayRegion, &'a [u8]), DataFault> {
        let (tag, rest) = take_region_tag(rest, whole)?;
        let (count, rest) = take_count(rest, whole)?;
        let (elements, rest) = take_elements(alloc, tag, count, rest, whole, sizes)?;
        Ok((ArrayRegion { tag, elements }, rest))
    }

    fn pass_front<'a>(
        rest: &'a [u8],
        whole: usize,
        sizes: &IdSizes,
    ) -> Result<&'a [u8], DataFault> {
        let (tag, rest) = take_region_tag(rest, whole)?;
        let (count, rest) = take_count(rest, whole)?;
        pass_elements(tag, count, rest, whole, sizes)
    }

    ghost found = { λ w whole. (region_codes w whole).found };

    ghost again = { λ w whole. (region_codes w whole).again };

    ghost blamed = { λ w whole. (region_codes w whole).blamed };

    ghost judged = { λ w whole. (region_codes w whole).judged };

    ghost unrefused = { region_unrefused };
}

/// The tag of the region at the front of the rest of a slice of `whole` bytes, and what follows it.
fn take_region_tag(rest: &[u8], whole: usize) -> Result<(Tag, &[u8]), DataFault>
    ensures ok { IfOk result (λ x. (tag_at whole rest.now ≡ Ok (x.0, x.1.now))
        × (is_void x.0 ≡ false)) }
    ensures err { IfErr result (λ e. (w : Widths) → region_at w whole rest.now ≡ Err e) }
    ensures shorter { IfOk result (λ x. length x.1.now ≤ length rest.now) }
    ensures memory { IsErrOf result WantOfMemory → ⊥ }
{
    let (tag, rest) = take_tag(rest, whole)?;
    if tag.is_void() {
        return Err(DataFault::BadTag);
    }
    Ok((tag, rest))
}

/// Whether each value may stand in a region of this tag.
fn all_may_stand(tag: Tag, values: &[Value]) -> bool
    ensures { result ≡ list_all (may_stand tag) values.now }
{
    for value in values {
        if !value_may_stand(tag, value) {
            return false;
        }
    }
    true
}

/// Whether a value may stand in a region of this tag.
fn value_may_stand(tag: Tag, value: &Value) -> bool
    ensures { result ≡ may_stand tag value.now }
{
    if tag.is_object() {
        value.tag().is_object()
    } else {
        value.tag().byte() == tag.byte()
    }
}

/// How many bytes an element has in a region of this tag, 0 to 9.
fn element_size(tag: Tag, sizes: &IdSizes) -> usize
    ensures size { result ≡ element_width sizes.now tag }
    ensures small { result ≤ 9 }
{
    if tag.is_object() {
        1 + untagged_size(tag, sizes)
    } else {
        untagged_size(tag, sizes)
    }
}

/// The element at the front of the rest of a slice of `whole` bytes, and what follows it.
fn take_element<'a>(
    tag: Tag,
    rest: &'a [u8],
    whole: usize,
    sizes: &IdSizes,
) -> Result<(Value, &'a [u8]), DataFault>
    ensures value { Gives (λ x. (x.0, x.1.now)) result (element_at sizes.now whole tag rest.now) }
    ensures fits { IfOk result (λ x. may_stand tag x.0 ≡ true) }
    ensures shorter { IfOk result (λ x. length x.1.now ≤ length rest.now) }
    ensures memory { IsErrOf result WantOfMemory → ⊥ }
{
    if tag.is_object() {
        let (tagged, rest) = take_tagged_id(rest, whole, sizes)?;
        Ok((Value::Object(tagged), rest))
    } else {
        take_untagged(tag, rest, whole, sizes)
    }
}

/// What follows the element.
fn pass_element<'a>(
    tag: Tag,
    rest: &'a [u8],
    whole: usize,
    sizes: &IdSizes,
) -> Result<&'a [u8], DataFault>
    ensures value { Gives (λ after. after.now) result
        (passed (element_at sizes.now whole tag rest.now)) }
    ensures memory { IsErrOf result WantOfMemory → ⊥ }
{
    if tag.is_object() {
        TaggedId::pass_front(rest, whole, sizes)
    } else {
        pass_untagged(tag, rest, whole, sizes)
    }
}

/// `count` elements at the front of the rest of a slice of `whole` bytes, and what follows them.
fn take_elements<'a>(
    alloc: Global,
    tag: Tag,
    count: usize,
    bytes: &'a [u8],
    whole: usize,
    sizes: &IdSizes,
) -> Result<(Vec<Value>, &'a [u8]), DataFault>
    ensures value { Gives (λ x. (x.0.items, x.1.now)) result
        (times_at (element_at sizes.now whole tag) count bytes.now) }
    ensures fits { IfOk result (λ x. list_all (may_stand tag) x.0.items ≡ true) }
    ensures shorter { IfOk result (λ x. length x.1.now ≤ length bytes.now) }
    ensures memory { IsErrOf result WantOfMemory
        → (0 < count) × BeginsWith (EncodesElement sizes.now tag) bytes.now }
{
    let mut values = Vec::new(alloc);
    let mut rest = bytes;
    for _ in 0..count {
        let (value, after) = take_element(tag, rest, whole, sizes)?;
        values.push(value)?;
        rest = after;
    }
    Ok((values, rest))
}

/// What follows `count` elements.
fn pass_elements<'a>(
    tag: Tag,
    count: usize,
    bytes: &'a [u8],
    whole: usize,
    sizes: &IdSizes,
) -> Result<&'a [u8], DataFault>
    ensures value { Gives (λ after. after.now) result
        (passed (times_at (element_at sizes.now whole tag) count bytes.now)) }
    ensures memory { IsErrOf result WantOfMemory → ⊥ }
{
    let mut rest = bytes;
    for _ in 0..count {
        let after = pass_element(tag, rest, whole, sizes)?;
        rest = after;
    }
    Ok(rest)
}

/// Appends an element.
fn put_element(
    tag: Tag,
    value: &Value,
    sizes: &IdSizes,
    output: &mut Vec<u8>,
) -> Result<(), DataFault>
    requires { may_stand tag value.now ≡ true }
    ensures ok { Appends (EncodesElement sizes.now tag) (element_canonical sizes.now tag) value.now
        result output.old output.new }
    ensures err { Leaves (value_refusal sizes.now value.now) result output.old output.new }
    ensures room { HasRoom (element_canonical sizes.now tag value.now) output.old
        → IsErrOf result WantOfMemory → ⊥ }
    ensures capacity { vec_capacity output.old ≤ vec_capacity output.new }
{
    if tag.is_object() {
        value.put(sizes, output)
    } else {
        put_untagged(value, sizes, output)
    }
}

/// Appends each element, and may stop on the way.
fn put_elements(
    tag: Tag,
    values: &[Value],
    sizes: &IdSizes,
    output: &mut Vec<u8>,
) -> Result<(), DataFault>
    requires { list_all (may_stand tag) values.now ≡ true }
    ensures ok { Appends (EncodesAll (EncodesElement sizes.now tag))
        (flat_map (element_canonical sizes.now tag)) values.now result output.old output.new }
    ensures err { LeavesInFront (first_refusal (value_refusal sizes.now) values.now)
        result output.old output.new }
    ensures room { HasRoom (flat_map (element_canonical sizes.now tag) values.now) output.old
        → IsErrOf result WantOfMemory → ⊥ }
    ensures capacity { vec_capacity output.old ≤ vec_capacity output.new }
{
    for value in values {
        put_element(tag, value, sizes, output)?;
    }
    Ok(())
}

/// Appends the tag, the count and the elements, and may stop on the way.
fn put_parts(
    tag: Tag,
    values: &[Value],
    sizes: &IdSizes,
    output: &mut Vec<u8>,
) -> Result<(), DataFault>
    requires { is_region tag values.now ≡ true }
    ensures ok { Appends (EncodesRegion sizes.now) (region_canonical sizes.now)
        (region_of tag values.now) result output.old output.new }
    ensures err { LeavesInFront (region_refusal sizes.now (region_of tag values.now))
        result output.old output.new }
    ensures room { HasRoom (region_canonical sizes.now (region_of tag values.now)) output.old
        → IsErrOf result WantOfMemory → ⊥ }
    ensures capacity { vec_capacity output.old ≤ vec_capacity output.new }
{
    output.push(tag.byte())?;
    put_count(values.len(), output)?;
    put_elements(tag, values, sizes, output)
}
