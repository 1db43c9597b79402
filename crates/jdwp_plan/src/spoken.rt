//! What a line says, in the words of the line.

use crate::plan_line::Path;

/// What a line says; texts are parts of the line, and a command goes by its name.
#[derive(Clone, Copy)]
pub(crate) enum Spoken<'a> {
    Nothing,
    Version,
    Ask(&'a str, Option<&'a str>),
    Let(&'a str, Path),
    Expect(&'a str),
    ExpectHeld(&'a str),
    ExpectFree(&'a str),
    Timeout(u32),
    Events(u32),
    WaitEvent,
    Mirror,
    MayEnd,
}
