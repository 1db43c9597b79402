//! Ids, tags, values, locations and array regions of the Java Debug Wire Protocol.
#![tactic(auto)]

mod id;
pub mod laws;
mod location;
mod region;
mod tag;
mod value;

pub use id::{FieldId, FrameId, MethodId, ObjectId, ReferenceTypeId};
pub use location::{Location, TypeTag};
pub use region::ArrayRegion;
pub use tag::{ObjectTag, Tag};
pub use value::{TaggedId, Value, pass_untagged, put_untagged, take_untagged, untagged_size};
