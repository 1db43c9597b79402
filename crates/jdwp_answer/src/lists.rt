//! What is answered to Children and to GetValues of an array (JDWP specification, "ThreadGroupReference", "ArrayReference").
ghost use Rattle.std.specs.Prelude.{[], ◌∷◌, map};
ghost use Rattle.jdwp_layout.specs.Shapes.{ListOf, RegionOf};
ghost use Rattle.jdwp_layout.specs.Meanings.{Many, Elements};
ghost use Rattle.jdwp_answer.specs.ShapedLaws.{objects_have};
ghost use Rattle.jdwp_answer.specs.Objects.{object_fields, objects};

use crate::fields::entries_of;
use crate::items::{items_of, only_item};
use crate::reply::Reply;
use crate::table::reply_of;
use jdwp_layout::numbers::{ARRAY_REFERENCE, GET_ELEMENTS, GROUP_CHILDREN, THREAD_GROUP_REFERENCE};
use jdwp_layout::{Datum, Layout};
use jdwp_value::{ArrayRegion, ObjectId};
use jdwp_wire::NoMemory;
use std::alloc::Global;

/// What Children of the set ThreadGroupReference is answered.
#[derive(Debug, PartialEq, Drop)]
pub struct Children {
    /// The live threads of the group itself.
    pub threads: Vec<ObjectId>,
    /// The groups of the group itself.
    pub groups: Vec<ObjectId>,
}

impl Reply for Children {
    ghost shape = { ListOf objects ∷ ListOf objects ∷ [] };

    ghost says = { λ c. Many (map object_fields c.threads.items)
        ∷ Many (map object_fields c.groups.items) ∷ [] };

    fn layout() -> &'static Layout {
        reply_of(THREAD_GROUP_REFERENCE, GROUP_CHILDREN)
    }

    fn of_items(alloc: Global, items: Vec<Datum>) -> Result<Option<Children>, NoMemory> {
        match items_of(items) {
            Some((threads, (groups, ()))) => match entries_of(alloc, threads) {
                Ok(Some(threads)) => match entries_of(alloc, groups) {
                    Ok(Some(groups)) => Ok(Some(Children { threads, groups })),
                    Ok(None) => Ok(None),
                    Err(NoMemory) => Err(NoMemory),
                },
                Ok(None) => Ok(None),
                Err(NoMemory) => Err(NoMemory),
            },
            None => Ok(None),
        }
    }

    ghost fits = { λ c. (objects_have c.threads.items, (objects_have c.groups.items, tt)) };
}

/// The elements that GetValues of the set ArrayReference is answered.
impl Reply for ArrayRegion {
    ghost shape = { RegionOf ∷ [] };

    ghost says = { λ region. Elements region ∷ [] };

    fn layout() -> &'static Layout {
        reply_of(ARRAY_REFERENCE, GET_ELEMENTS)
    }

    fn of_items(_alloc: Global, items: Vec<Datum>) -> Result<Option<ArrayRegion>, NoMemory> {
        Ok(only_item(items))
    }

    ghost fits = { λ _. (tt, tt) };
}
