//! Words that are refused.
use clap::error::ErrorKind;
use clap::{Command, Error};
use jdwp_program::Fault;
use std::alloc::{AllocError, Global};

/// Words that clap takes and the program doesn't, told with the usage of this command.
pub(crate) fn bad_words<'a>(
    alloc: Global,
    command: Result<Command<'_>, AllocError>,
    message: &str,
) -> Fault<'a> {
    match told(command, message) {
        Ok(error) => refused(alloc, &error),
        Err(_) => Fault::NoMemory,
    }
}

/// What clap would say of them.
fn told(command: Result<Command<'_>, AllocError>, message: &str) -> Result<Error, AllocError> {
    command?.error(ErrorKind::ValueValidation, message)
}

/// What clap says of words that it refuses, or of the help that they ask for.
pub(crate) fn refused<'a>(alloc: Global, error: &Error) -> Fault<'a> {
    if error.kind() == ErrorKind::OutOfMemory {
        return Fault::NoMemory;
    }
    match error.to_string(alloc) {
        Ok(text) => Fault::Words(without_line_end(text)),
        Err(_) => Fault::NoMemory,
    }
}

/// The text without the end of its last line.
fn without_line_end(mut text: String) -> String {
    if text.as_str().ends_with('\n') {
        text.pop();
    }
    text
}
