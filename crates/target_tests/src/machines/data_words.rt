//! Data in words, as `jdwp_show` has them.
use jdwp_layout::{Datum, Scalar};
use jdwp_show::composite_data_line;
use jdwp_value::Location;
use std::alloc::Global;
use std::process::Abort;

/// The data in words, one space between two: what stands in the line of a composite behind its name.
pub(crate) fn text_of(rt: &impl Abort, alloc: Global, values: &[Datum]) -> String {
    let line = composite_data_line(alloc, 0, values).expect(rt, "memory");
    let words = line.as_str().strip_prefix("< 0 Event.Composite");
    let words = words.expect(rt, "the line of a composite");
    String::from_str(alloc, words.strip_prefix(" ").unwrap_or(words)).expect(rt, "memory")
}

/// Appends the location: its tag, class, method and index.
pub(crate) fn push_location(rt: &impl Abort, alloc: Global, location: Location, text: &mut String) {
    push_scalar(rt, alloc, Scalar::Location(location), text);
}

/// Appends the scalar.
pub(crate) fn push_scalar(rt: &impl Abort, alloc: Global, scalar: Scalar, text: &mut String) {
    let words = text_of(rt, alloc, &[Datum::One(scalar)]);
    text.push_str(words.as_str()).expect(rt, "memory");
}
