//! Hex digits, read into bytes.
ghost use Rattle.std.specs.Prelude.{◌≡◌, ◌+◌, ◌*◌, ◌/◌, ◌%◌, ◌<◌, ◌↔◌, ◌==◌, if◌then◌else◌, length, unwrap_or, nat_lt, is_some, true, false, MatchResult};
ghost use Rattle.hex.specs.Hex.{decode_of, hex_digit_value};

/// Writes the bytes of hex digits, two digits a byte, and answers whether all are digits.
///
/// No pair is skipped, whatever those before it are, and each is read as one number: so compilers take many at once.
pub(crate) fn decode_into(digits: &[u8], bytes: &mut [u8]) -> bool
    requires { length digits.now ≡ 2 * length bytes.old }
    ensures { MatchResult (decode_of digits.now) (λ decoded. (result ≡ true)
        × (bytes.new ≡ decoded)) (λ e. result ≡ false) }
{
    let mut worst: u8 = 0;
    let (pairs, _) = digits.as_chunks::<2>();
    for i in 0..bytes.len() {
        let both = u16::from_le_bytes(pairs[i]);
        let high = digit_value((both % 256) as u8);
        let low = digit_value((both / 256) as u8);
        let pair = larger(high, low);
        worst = larger(worst, pair);
        bytes[i] = high % 16 * 16 + low % 16;
    }
    worst < 16
}

/// The value of a hex digit, and 255 for another character.
fn digit_value(digit: u8) -> u8
    ensures value { result ≡ unwrap_or (hex_digit_value digit) 255 }
    ensures is_digit { is_some (hex_digit_value digit) ≡ nat_lt result 16 }
{
    match small(digit) {
        letter @ b'a'..=b'f' => letter - b'a' + 10,
        _ => match digit {
            b'0'..=b'9' => digit - b'0',
            _ => 255,
        },
    }
}

/// A capital letter as the small one; no other character becomes a letter.
fn small(digit: u8) -> u8
    ensures { result ≡ (if digit / 32 % 2 == 0 then digit + 32 else digit) }
{
    if digit / 32 % 2 == 0 {
        digit + 32
    } else {
        digit
    }
}

fn larger(one: u8, other: u8) -> u8
    ensures { (result < 16) ↔ ((one < 16) × (other < 16)) }
{
    if one < other { other } else { one }
}
