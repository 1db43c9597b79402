//! A target in this process as the other end of a debugger's pipe: what is written comes to it at once, and a read has it go on, round by
//! round, until it says something.
#![tactic(auto)]

mod keeping;
mod limit;
mod partner;
mod rounds;
mod standing;
mod through;

pub use partner::Partner;
pub use standing::Standing;
