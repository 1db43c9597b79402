//! Data of replies, put together: texts, and lists with an entry for each thing.
ghost use Rattle.std.specs.Prelude.{◌≡◌, [], ◌∷◌, map, IfOk};
ghost use Rattle.jdwp_layout.specs.Meanings.{Many, Text, scalar_meaning, datum_meaning, entry_meaning};

use crate::replies::of_datum;
use jdwp_layout::{Answer, Datum, Scalar};
use jdwp_wire::NoMemory;
use std::alloc::Global;

/// Tells of a thing in an entry of a reply's list.
pub(crate) trait Tell<T> {
    ghost use Rattle.std.specs.Prelude.{List};
    ghost use Rattle.jdwp_layout.specs.Meanings.{ScalarMeaning};

    /// What a thing is, apart from where it lies in memory.
    ghost Meaning: { Type 0 };

    ghost meaning: { T → Meaning };

    /// What the entry of a thing holds.
    ghost tells: { Self → Meaning → List ScalarMeaning };

    /// The entry of the thing.
    fn tell(&self, alloc: Global, thing: &T) -> Result<Vec<Scalar>, NoMemory>
        ensures { IfOk result (λ entry. entry_meaning entry ≡ tells self.now (meaning thing.now)) };

    /// The list with the entry of each thing, in order.
    final fn tell_each(&self, alloc: Global, things: &[T]) -> Result<Datum, NoMemory>
        ensures { IfOk result (λ datum. datum_meaning datum
            ≡ Many (map (tells self.now) (map meaning things.now))) }
    {
        let mut entries = Vec::with_capacity(alloc, things.len())?;
        for thing in things {
            entries.push_reserved(self.tell(alloc, thing)?);
        }
        Ok(Datum::Many(entries))
    }

    /// The answer that is the list with the entry of each thing, in order.
    final fn answer_each(&self, alloc: Global, things: &[T]) -> Result<Answer, NoMemory>
        ensures { IfOk result (λ answer.
            answer ≡ Answer.Data (Many (map (tells self.now) (map meaning things.now)) ∷ [])) }
    {
        of_datum(alloc, self.tell_each(alloc, things)?)
    }
}

/// The text as a field.
pub(crate) fn text(alloc: Global, text: &str) -> Result<Scalar, NoMemory>
    ensures { IfOk result (λ scalar. scalar_meaning scalar ≡ Text text.now) }
{
    Ok(Scalar::String(String::from_str(alloc, text)?))
}

/// A text with nothing in it, as a field.
pub(crate) fn empty_text(alloc: Global) -> Scalar
    ensures { scalar_meaning result ≡ Text [] }
{
    Scalar::String(String::new(alloc))
}
