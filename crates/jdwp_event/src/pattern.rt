//! Class names and the patterns that they fit (JDWP specification, "Protocol Details": the modifiers ClassMatch and ClassExclude of
//! EventRequest.Set).
ghost use Rattle.std.specs.Prelude.{◌≡◌, map};
ghost use Rattle.std.specs.Str.{bytes_eq};
ghost use Rattle.jdwp_event.specs.Filters.{dotted, bare_name, class_name, begins_in, ends_in, ends_with_star, fits_plain, fits_pattern};

/// Whether the class of this signature has a name that fits the pattern: `*x` fits names that end in x, `x*` names that begin
/// with x, and another pattern an equal name. The name is the signature without `L` and `;`, and with dots.
pub(crate) fn fits(pattern: &[u8], signature: &[u8]) -> bool
    ensures { result ≡ fits_pattern pattern.now (class_name signature.now) }
{
    let name = bare(signature);
    match pattern {
        [b'*', end @ ..] => ends(end, name),
        _ => fits_other(pattern, name),
    }
}

/// The same for a pattern that does not begin with `*`, and a name that still has slashes.
fn fits_other(pattern: &[u8], name: &[u8]) -> bool
    ensures { result ≡ fits_plain pattern.now (map dotted name.now) }
{
    if ends_in_star(pattern) {
        begins(&pattern[..pattern.len() - 1], name)
    } else {
        is_same(name, pattern)
    }
}

fn ends_in_star(text: &[u8]) -> bool
    ensures { result ≡ ends_with_star text.now }
{
    !text.is_empty() && text[text.len() - 1] == b'*'
}

/// The name in a signature, with slashes.
fn bare(signature: &[u8]) -> &[u8]
    ensures { result.now ≡ bare_name signature.now }
{
    match signature {
        [b'L', name @ .., b';'] => name,
        [b'L', name @ ..] => name,
        _ => signature,
    }
}

/// Whether a name with slashes begins in this, with dots.
fn begins(front: &[u8], name: &[u8]) -> bool
    ensures { result ≡ begins_in front.now (map dotted name.now) }
{
    front.len() <= name.len() && is_same(&name[..front.len()], front)
}

/// Whether a name with slashes ends in this, with dots.
fn ends(back: &[u8], name: &[u8]) -> bool
    ensures { result ≡ ends_in back.now (map dotted name.now) }
{
    back.len() <= name.len() && is_same(&name[name.len() - back.len()..], back)
}

/// Whether a name with slashes is this, with dots.
#[tactic(auto, using(crate::proofs::Patterns::same_step))]
fn is_same(name: &[u8], text: &[u8]) -> bool
    ensures { result ≡ bytes_eq (map dotted name.now) text.now }
{
    if name.len() != text.len() {
        return false;
    }
    for (place, byte) in name.iter().enumerate() {
        if dot(*byte) != text[place] {
            return false;
        }
    }
    true
}

/// `/` as `.`
fn dot(byte: u8) -> u8
    ensures { result ≡ dotted byte }
{
    if byte == b'/' { b'.' } else { byte }
}
