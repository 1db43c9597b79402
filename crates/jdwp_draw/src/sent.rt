//! What each end sent, by the lines of a capture.
ghost use Rattle.std.specs.Prelude.{◌≡◌, IfOk, OnOk};
ghost use Rattle.jdwp_show.specs.Lines.{capture_of, line_of, sent_by};
ghost use Rattle.jdwp_show.specs.declared.capture_line.Sender.TheVariants.{Debugger, Target};
ghost use Rattle.hex.specs.Hex.{decode_of};
ghost use Rattle.jdwp_draw.specs.Reading.{HasRead, IsDecoded};

use hex::FromHexError;
use jdwp_wire::NoMemory;
use std::alloc::Global;

/// The bytes of both ends.
#[derive(Drop)]
pub(crate) struct Sent {
    pub(crate) debugger: Vec<u8>,
    pub(crate) target: Vec<u8>,
}

/// What each end sent in the lines before the first that does not read.
pub(crate) fn read_sent(alloc: Global, text: &str) -> Result<Sent, NoMemory>
    ensures debugger { IfOk result (λ sent. sent.debugger.items ≡ sent_by Debugger
        (capture_of text.now)) }
    ensures target { IfOk result (λ sent. sent.target.items ≡ sent_by Target
        (capture_of text.now)) }
{
    let mut sent = Sent {
        debugger: Vec::new(alloc),
        target: Vec::new(alloc),
    };
    for line in text.lines() {
        if !read_line(alloc, &mut sent, line.as_bytes())? {
            return Ok(sent);
        }
    }
    Ok(sent)
}

/// Appends what a line says; false where it does not read.
fn read_line(alloc: Global, sent: &mut Sent, line: &[u8]) -> Result<bool, NoMemory>
    ensures { IfOk result (λ reads. HasRead sent.old (line_of line.now) reads sent.new) }
{
    match line {
        [b'>', b' ', digits @ ..] => append_digits(alloc, &mut sent.debugger, digits),
        [b'<', b' ', digits @ ..] => append_digits(alloc, &mut sent.target, digits),
        _ => Ok(false),
    }
}

/// Appends the bytes of hex digits; false where they are not the digits of at least one byte.
fn append_digits(alloc: Global, bytes: &mut Vec<u8>, digits: &[u8]) -> Result<bool, NoMemory>
    ensures { IfOk result (λ reads. IsDecoded bytes.old.items (decode_of digits.now) reads
        bytes.new.items) }
{
    match hex::decode(alloc, digits) {
        Ok(found) => {
            bytes.extend_from_slice(&found)?;
            Ok(!found.is_empty())
        }
        Err(FromHexError::OutOfMemory) => Err(NoMemory),
        Err(_) => Ok(false),
    }
}
