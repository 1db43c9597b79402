//! What a run keeps between events.

use jdwp_debugger::{Debugger, Order};

/// What a run keeps between events.
#[derive(Drop)]
pub(crate) struct Run {
    /// How many lines of the plan were carried out.
    pub carried: usize,
    /// Whether the widths of ids were known once, so that lines may be carried out.
    pub begun: bool,
    /// How many composites were read in the session.
    pub composites: u64,
    /// In which order the target is taken to send replies and composites.
    pub order: Order,
    /// The debugger beside that of the link, where the order is `Apart`.
    pub follower: Option<Debugger>,
}
