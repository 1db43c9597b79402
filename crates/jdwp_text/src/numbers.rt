//! Numbers and ids at the front of a text.
ghost use Rattle.std.specs.Prelude.{◌≤◌, IfSome};

/// What follows this byte.
pub(crate) fn after(bytes: &[u8], byte: u8) -> Option<&[u8]> {
    match bytes {
        [] => None,
        [first, rest @ ..] => { if *first == byte { Some(rest) } else { None } }
    }
}

/// What follows `, `.
pub(crate) fn after_separator(bytes: &[u8]) -> Option<&[u8]> {
    let rest = after(bytes, b',')?;
    after(rest, b' ')
}

/// The number of the digits in front, and what follows them; None from 2^64 on.
fn digits(bytes: &[u8]) -> Option<(u64, &[u8])> {
    let mut number: u64 = 0;
    let mut rest = bytes;
    while let [byte, behind @ ..] = rest {
        let Some(value) = digit(*byte) else {
            return Some((number, rest));
        };
        number = number.checked_mul(10)?.checked_add(value as u64)?;
        rest = behind;
    }
    Some((number, rest))
}

/// The value of a digit.
fn digit(byte: u8) -> Option<u8> {
    match byte {
        b'0'..=b'9' => Some(byte - b'0'),
        _ => None,
    }
}

/// The number in front, of at least one digit and at most the greatest, and what follows it.
pub(crate) fn number(bytes: &[u8], greatest: u64) -> Option<(u64, &[u8])>
    ensures fits { IfSome result (λ x. x.0 ≤ greatest) }
{
    let (number, rest) = digits(bytes)?;
    if rest.len() == bytes.len() || number > greatest {
        None
    } else {
        Some((number, rest))
    }
}

/// The int in front, and what follows it.
pub(crate) fn int(bytes: &[u8]) -> Option<(i32, &[u8])> {
    match bytes {
        [] => None,
        [first, rest @ ..] => {
            if *first == b'-' {
                let (below, rest) = number(rest, 0x8000_0000)?;
                let int = 0_i32.checked_sub_unsigned(below as u32)?;
                return Some((int, rest));
            }
            let (int, rest) = number(bytes, 0x7fff_ffff)?;
            Some((int as i32, rest))
        }
    }
}

/// The long in front, and what follows it.
pub(crate) fn long(bytes: &[u8]) -> Option<(i64, &[u8])> {
    match bytes {
        [] => None,
        [first, rest @ ..] => {
            if *first == b'-' {
                let (below, rest) = number(rest, 0x8000_0000_0000_0000)?;
                let long = 0_i64.checked_sub_unsigned(below)?;
                return Some((long, rest));
            }
            let (long, rest) = number(bytes, 0x7fff_ffff_ffff_ffff)?;
            Some((long as i64, rest))
        }
    }
}

/// The id in front, as `#5`, and what follows it.
pub(crate) fn id(bytes: &[u8]) -> Option<(u64, &[u8])> {
    let rest = after(bytes, b'#')?;
    number(rest, u64::MAX)
}
