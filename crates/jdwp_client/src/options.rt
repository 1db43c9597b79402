//! What a client is made with.
use jdwp_debugger::Order;
use jdwp_wire::Limits;

/// What a client is made with.
#[derive(Clone, Copy, Debug)]
pub struct Options {
    /// In which order the target sends its replies and events: `Apart` where it sends them by threads of their own, as a JVM does.
    pub order: Order,
    /// How many bytes a packet may have, and how many commands may wait for answers.
    pub limits: Limits,
    /// The id of the first packet.
    pub first_id: u32,
    /// How many composites are kept at most. As many as four may come at once, so nothing is read where fewer than four more may be kept.
    pub most_events: usize,
}

impl Options {
    /// A target of this order, the standard limits, the first id 1, and 1,024 composites kept.
    pub fn new(order: Order) -> Options {
        Options {
            order,
            limits: Limits::standard(),
            first_id: 1,
            most_events: 1_024,
        }
    }
}
