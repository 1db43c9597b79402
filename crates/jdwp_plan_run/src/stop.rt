//! Why a line was not carried out.
use jdwp_client::ClientError;
use jdwp_plan::FillFault;
use jdwp_text::TextFault;
use thiserror::Error;

/// Why a line says nothing that can be done. Places are counted in the text behind the word, the name or the first space that the line begins with.
#[derive(Clone, Copy, Debug, PartialEq, Eq, Error)]
pub enum LineRefusal {
    /// A `$` has no value.
    #[error("{0}")]
    Fill(FillFault),
    /// The text says no data of the command: the place, with the values that stand there, and what was expected.
    #[error("the data: {0}")]
    Data(TextFault),
    /// The text with its values is not UTF-8.
    #[error("the data are not UTF-8")]
    NotText,
    /// The command's data are not read, and the line has some.
    #[error("the data of this command are not read")]
    NoLayout,
    /// No item stands at the path in what was told last.
    #[error("no item stands at the path in what was told last")]
    NoItem,
    /// Nothing was told that could be expected.
    #[error("nothing was told before it")]
    NothingTold,
    /// The text is no id.
    #[error("expected an id, as #1")]
    NoId,
}

/// Why a line was not carried out.
#[derive(Debug, Drop)]
pub enum Stop {
    /// Something else was told than it expects, or a thread is held that was to be free, or free that was to be held: what was expected, with the
    /// values that stand there, and what was found.
    Differs {
        /// What the line expects.
        expected: Vec<u8>,
        /// What was told.
        found: Vec<u8>,
    },
    /// It says nothing that can be done. No command was asked for it.
    Refused(LineRefusal),
    /// A call of the client failed so.
    Client(ClientError),
    /// An allocation was refused.
    NoMemory,
    /// What was told could not be printed.
    NotPrinted,
}
