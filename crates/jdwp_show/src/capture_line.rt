//! Lines of a capture, read.
ghost use Rattle.std.specs.Prelude.{IfOk};
ghost use Rattle.hex.specs.Hex.{decode_of};
ghost use Rattle.jdwp_show.specs.Lines.{line_of, line_by, HasRead};

use crate::hex_digits::decode_into;
use jdwp_wire::NoMemory;

/// Which end sent the bytes of a line.
#[derive(Clone, Copy)]
pub enum Sender {
    Debugger,
    Target,
}

/// Reads a line, `> HEX` or `< HEX`: appends its bytes, and answers which end sent them. None where it does not read, and then nothing
/// has changed.
///
/// # Errors
/// `NoMemory` where an allocation was refused.
pub fn read_line(line: &[u8], bytes: &mut Vec<u8>) -> Result<Option<Sender>, NoMemory>
    ensures { IfOk result (λ sender. HasRead (line_of line.now) sender bytes.old.items
        bytes.new.items) }
{
    if line.len() < 2 || line[1] != b' ' {
        return Ok(None);
    }
    let digits = &line[2..];
    match line[0] {
        b'>' => read_digits(Sender::Debugger, digits, bytes),
        b'<' => read_digits(Sender::Target, digits, bytes),
        _ => Ok(None),
    }
}

/// Reads the hex digits of a line that this end sent; none where they are not the digits of at least one byte.
fn read_digits(
    sender: Sender,
    digits: &[u8],
    bytes: &mut Vec<u8>,
) -> Result<Option<Sender>, NoMemory>
    ensures { IfOk result (λ read. HasRead (line_by sender (decode_of digits.now)) read
        bytes.old.items bytes.new.items) }
{
    let before = bytes.len();
    let count = digits.len() / 2;
    if count == 0 {
        return Ok(None);
    }
    if digits.len() % 2 == 1 {
        return Ok(None);
    }
    bytes.resize(before + count, 0)?;
    if !decode_into(digits, &mut bytes[before..]) {
        bytes.truncate(before);
        return Ok(None);
    }
    Ok(Some(sender))
}
