//! The data of answers.
ghost use Rattle.std.specs.Prelude.{◌≡◌, [], ◌∷◌, IfOk};
ghost use Rattle.jdwp_layout.specs.Meanings.{One, Many, Text, Valued, Object, scalar_meaning, entry_meaning, entry_meanings, datum_meaning};

use crate::entries::text;
use jdwp_layout::{Answer, Data, Datum, Scalar};
use jdwp_value::{ObjectId, Value};
use jdwp_wire::NoMemory;
use std::alloc::Global;

/// Success, with no data.
pub(crate) fn done(alloc: Global) -> Answer
    ensures { result ≡ Answer.Data [] }
{
    Answer::Data(Data::new(Vec::new(alloc)))
}

/// What one field holds.
pub(crate) fn of_scalar(alloc: Global, scalar: Scalar) -> Result<Answer, NoMemory>
    ensures { IfOk result (λ a. a ≡ Answer.Data (One (scalar_meaning scalar) ∷ [])) }
{
    of_datum(alloc, Datum::One(scalar))
}

/// A text.
pub(crate) fn of_text(alloc: Global, content: &str) -> Result<Answer, NoMemory>
    ensures { IfOk result (λ a. a ≡ Answer.Data (One (Text content.now) ∷ [])) }
{
    of_scalar(alloc, text(alloc, content)?)
}

/// The entries of a list.
pub(crate) fn of_entries(alloc: Global, entries: Vec<Vec<Scalar>>) -> Result<Answer, NoMemory>
    ensures { IfOk result (λ a. a ≡ Answer.Data (Many (entry_meanings entries.items) ∷ [])) }
{
    of_datum(alloc, Datum::Many(entries))
}

/// One item.
pub(crate) fn of_datum(alloc: Global, datum: Datum) -> Result<Answer, NoMemory>
    ensures { IfOk result (λ a. a ≡ Answer.Data (datum_meaning datum ∷ [])) }
{
    Ok(Answer::Data(Data::new(vec![in alloc; datum]?)))
}

/// Two items.
pub(crate) fn of_pair(alloc: Global, first: Datum, second: Datum) -> Result<Answer, NoMemory>
    ensures { IfOk result (λ a. a ≡ Answer.Data (datum_meaning first ∷ datum_meaning second ∷ [])) }
{
    Ok(Answer::Data(Data::new(vec![in alloc; first, second]?)))
}

/// The entry of a value.
pub(crate) fn value_entry(alloc: Global, value: Value) -> Result<Vec<Scalar>, NoMemory>
    ensures { IfOk result (λ entry. entry_meaning entry ≡ Valued value ∷ []) }
{
    Ok(vec![in alloc; Scalar::Value(value)]?)
}

/// The entry of an object.
pub(crate) fn object_entry(alloc: Global, id: ObjectId) -> Result<Vec<Scalar>, NoMemory>
    ensures { IfOk result (λ entry. entry_meaning entry ≡ Object id.0 ∷ []) }
{
    Ok(vec![in alloc; Scalar::ObjectId(id)]?)
}
