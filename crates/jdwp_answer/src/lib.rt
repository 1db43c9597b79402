//! What commands are answered, as structs of named fields (JDWP specification, "Protocol Details").
#![tactic(auto)]

mod capabilities;
mod fields;
mod items;
mod lines;
mod lists;
mod method;
mod reference_type;
mod reply;
mod rows;
mod table;
mod thread_reference;
mod values;
mod virtual_machine;

pub use capabilities::{Capabilities, CapabilitiesNew};
pub use fields::{Listed, Record};
pub use lists::Children;
pub use method::{
    GenericVariable, GenericVariableTable, LineEntry, LineTable, VariableEntry, VariableTable,
};
pub use reference_type::{
    FieldEntry, GenericField, GenericMethod, MethodEntry, Signatures, TaggedType,
};
pub use reply::Reply;
pub use thread_reference::{FrameEntry, ThreadStatus};
pub use virtual_machine::{ClassEntry, GenericClass, NamedClass, SizesOfIds, Version};
