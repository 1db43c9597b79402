//! By what data are read.
use crate::table::Table;
use jdwp_wire::IdSizes;

/// By what the data of items are read: the table of commands, and the widths of ids, where they are known.
#[derive(Clone, Copy)]
pub struct Terms {
    pub table: Table,
    pub sizes: Option<IdSizes>,
}
