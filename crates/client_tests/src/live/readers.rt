//! A reader that is told what to give, and keeps how long each of its reads was to wait.
ghost use Rattle.std.specs.Prelude.{◌≡◌, ◌<◌, length, IfOk};
ghost use Rattle.jdwp_engine.specs.LiveStory.{Fits};

use jdwp_engine::{Came, Patience, PatientRead};
use std::io;
use std::io::ErrorKind;

/// What a read is given.
#[derive(Clone, Copy, Debug)]
pub(crate) enum Gives {
    /// These bytes, or as many of them as there is room for.
    Bytes(&'static [u8]),
    /// Nothing, for as long as it waits.
    Nothing,
    /// The end of the input.
    End,
    /// An error.
    Fails,
}

/// Gives these, a read each, and then the end.
#[derive(Drop)]
pub(crate) struct Reader<'a> {
    gives: &'a [Gives],
    asked: Vec<Patience>,
}

impl<'a> Reader<'a> {
    pub(crate) fn new(gives: &'a [Gives], asked: Vec<Patience>) -> Reader<'a> {
        Reader { gives, asked }
    }

    /// How long each read was to wait.
    pub(crate) fn into_asked(self) -> Vec<Patience> {
        self.asked
    }
}

/// The first bytes, into the front of the buffer.
fn give(bytes: &[u8], buffer: &mut [u8]) -> Came
    requires { 0 < length buffer.old }
    ensures { Fits Patience.Forever (length buffer.new) result }
{
    let count = bytes.len().min(buffer.len());
    if count == 0 {
        return Came::End;
    }
    buffer[..count].copy_from_slice(&bytes[..count]);
    Came::Bytes(count)
}

impl<'a> PatientRead for Reader<'a> {
    fn read(&mut self, patience: Patience, buffer: &mut [u8]) -> io::Result<Came> {
        self.asked.push(patience)?;
        let Some((next, rest)) = self.gives.split_first() else {
            return Ok(Came::End);
        };
        let next = *next;
        self.gives = rest;
        match next {
            Gives::Bytes(bytes) => Ok(give(bytes, buffer)),
            Gives::Nothing => match patience {
                Patience::Step => Ok(Came::Nothing),
                Patience::Handshake | Patience::Forever => {
                    Err(io::Error::from(ErrorKind::TimedOut))
                }
            },
            Gives::End => Ok(Came::End),
            Gives::Fails => Err(io::Error::from(ErrorKind::ConnectionReset)),
        }
    }
}
