//! Judging the parts of a script one by one.
ghost use Rattle.std.specs.Prelude.{◌≡◌, ◌<◌, Bool, length, map, IfSome};
ghost use Rattle.std.specs.List.{list_any};

/// A test of a script's parts.
pub(crate) trait Judge<T> {
    /// What a part is, apart from where it lies in memory.
    ghost Meaning: { Type 0 };

    ghost meaning: { T → Meaning };

    /// Whether a part is bad.
    ghost judges: { Self → Meaning → Bool };

    /// Whether the part is bad.
    fn is_bad(&self, part: &T) -> bool
        ensures { result ≡ judges self.now (meaning part.now) };

    /// Whether one of the parts is bad.
    final fn has_bad(&self, parts: &[T]) -> bool
        ensures { result ≡ list_any (judges self.now) (map meaning parts.now) }
    {
        for part in parts {
            if self.is_bad(part) {
                return true;
            }
        }
        false
    }
}

/// The place of the first of the parts that is bad.
pub(crate) fn first_bad<T, J: Judge<T>>(judge: &J, parts: &[T]) -> Option<usize>
    ensures { IfSome result (λ place. place < length parts.now) }
{
    for place in 0..parts.len() {
        if judge.is_bad(&parts[place]) {
            return Some(place);
        }
    }
    None
}
