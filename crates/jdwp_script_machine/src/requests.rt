//! What is left of a request behind its ids: the entries of a list, and a part of a list.
ghost use Rattle.std.specs.Prelude.{◌≡◌, List, Ok, Err, MatchResult};
ghost use Rattle.jdwp_layout.specs.declared.answer.Answer as declared;
ghost use Rattle.jdwp_layout.specs.Meanings.{ScalarMeaning, meanings};
ghost use Rattle.jdwp_script_machine.specs.Requests.{of_entries};
ghost use Rattle.jdwp_script_machine.specs.SlotQuestions.{by_entries};
ghost use Rattle.jdwp_script_machine.specs.Parts.{part, range_asked};

use jdwp_layout::{Datum, Scalar};
use jdwp_wire::ErrorCode;

/// The entries of the list that the data are; None where they are no list alone, or one of 2^31 entries or more.
pub(crate) fn entries_of(content: &[Datum]) -> Option<&[Vec<Scalar>]>
    ensures { (answer : List (List ScalarMeaning) → declared.Answer)
        → of_entries answer (meanings content.now) ≡ by_entries answer result }
{
    match content {
        [Datum::Many(entries)] => {
            if entries.len() < 2_147_483_648 {
                Some(entries.as_slice())
            } else {
                None
            }
        }
        _ => None,
    }
}

/// The place and the count that are asked for; None where the data are not these two alone.
pub(crate) fn range_of(content: &[Datum]) -> Option<(i32, i32)>
    ensures { result ≡ range_asked (meanings content.now) }
{
    match content {
        [
            Datum::One(Scalar::Int(from)),
            Datum::One(Scalar::Int(count)),
        ] => Some((*from, *count)),
        _ => None,
    }
}

/// So many of a list from a place on; with `or_rest` a count of -1 means the rest.
///
/// # Errors
/// `INVALID_INDEX` where the place is below 0 or above the length, and `INVALID_LENGTH` where the count goes past the
/// end, or is below 0 and doesn't mean the rest.
pub(crate) fn part_of<T>(
    or_rest: bool,
    list: &[T],
    from: i32,
    count: i32,
) -> Result<&[T], ErrorCode>
    ensures { MatchResult result (λ found. part or_rest list.now from count ≡ Ok found.now) (λ e.
        part or_rest list.now from count ≡ Err e) }
{
    let Ok(from) = usize::try_from(from) else {
        return Err(ErrorCode::INVALID_INDEX);
    };
    if from > list.len() {
        return Err(ErrorCode::INVALID_INDEX);
    }
    let rest = &list[from..];
    if count == -1 && or_rest {
        return Ok(rest);
    }
    match usize::try_from(count) {
        Ok(count) if count <= rest.len() => Ok(&rest[..count]),
        _ => Err(ErrorCode::INVALID_LENGTH),
    }
}
