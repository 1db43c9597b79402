//! Composite events that wait for the widths of ids.
use jdwp_wire::Header;
use std::marker::Model;

/// A composite event that was read before the widths of ids were known: its header, and its data as they came.
#[derive(Drop)]
pub(crate) struct Parked {
    pub header: Header,
    pub body: Vec<u8>,
}

impl Model for Parked {
    ghost use Rattle.jdwp_debugger.specs.Debuggers as debuggers;

    ghost Value = { debuggers.Parked };

    ghost view = { λ p. record { header = p.header; body = p.body.items } };
}
