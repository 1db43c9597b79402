//! The rows of the table of commands, a file for each command set.
pub(crate) mod array_reference;
pub(crate) mod array_type;
pub(crate) mod class_loader_reference;
pub(crate) mod class_object_reference;
pub(crate) mod class_type;
pub(crate) mod event;
pub(crate) mod event_request;
pub(crate) mod interface_type;
pub(crate) mod method;
pub(crate) mod module_reference;
pub(crate) mod object_reference;
pub(crate) mod reference_type;
pub(crate) mod stack_frame;
pub(crate) mod string_reference;
pub(crate) mod thread_group_reference;
pub(crate) mod thread_reference;
pub(crate) mod virtual_machine;
