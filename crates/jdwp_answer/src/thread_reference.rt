//! What commands of the set ThreadReference are answered (JDWP specification, "ThreadReference").
ghost use Rattle.std.specs.Prelude.{[], ◌∷◌, refl};
ghost use Rattle.jdwp_layout.specs.declared.item.Field.TheVariants as held;
ghost use Rattle.jdwp_layout.specs.Shapes.{OneOf};
ghost use Rattle.jdwp_layout.specs.Meanings.{One, Int, Frame, Located};

use crate::fields::{Listed, Record, record_of};
use crate::reply::Reply;
use crate::rows::row_of;
use crate::table::reply_of;
use jdwp_layout::numbers::{FRAMES, THREAD_REFERENCE, THREAD_STATUS};
use jdwp_layout::{Datum, Layout, Scalar};
use jdwp_value::{FrameId, Location};
use jdwp_wire::NoMemory;
use std::alloc::Global;

/// What Status is answered.
#[derive(Clone, Copy, Debug, PartialEq, Eq)]
pub struct ThreadStatus {
    /// 0 zombie, 1 running, 2 sleeping, 3 waiting for a monitor, 4 waiting.
    pub thread_status: i32,
    /// 1 where the thread is suspended, and else 0.
    pub suspend_status: i32,
}

impl Record for ThreadStatus {
    ghost kinds = { held.Int ∷ held.Int ∷ [] };

    ghost fields = { λ s. Int s.thread_status ∷ Int s.suspend_status ∷ [] };

    fn of_fields(_alloc: Global, scalars: Vec<Scalar>) -> Option<ThreadStatus> {
        match row_of(scalars) {
            Some((thread_status, (suspend_status, ()))) => Some(ThreadStatus {
                thread_status,
                suspend_status,
            }),
            None => None,
        }
    }

    ghost has = { λ s. refl };
}

impl Reply for ThreadStatus {
    ghost shape = { OneOf held.Int ∷ OneOf held.Int ∷ [] };

    ghost says = { λ s. One (Int s.thread_status) ∷ One (Int s.suspend_status) ∷ [] };

    fn layout() -> &'static Layout {
        reply_of(THREAD_REFERENCE, THREAD_STATUS)
    }

    fn of_items(alloc: Global, items: Vec<Datum>) -> Result<Option<ThreadStatus>, NoMemory> {
        record_of::<ThreadStatus>(alloc, items)
    }

    ghost fits = { λ s. (refl, (refl, tt)) };
}

/// A frame and where it stands, in what Frames is answered.
#[derive(Clone, Copy, Debug, PartialEq)]
pub struct FrameEntry {
    /// The frame.
    pub id: FrameId,
    /// Where it stands.
    pub location: Location,
}

impl Record for FrameEntry {
    ghost kinds = { held.FrameId ∷ held.Location ∷ [] };

    ghost fields = { λ f. Frame f.id.0 ∷ Located f.location ∷ [] };

    fn of_fields(_alloc: Global, scalars: Vec<Scalar>) -> Option<FrameEntry> {
        match row_of(scalars) {
            Some((id, (location, ()))) => Some(FrameEntry { id, location }),
            None => None,
        }
    }

    ghost has = { λ f. refl };
}

impl Listed for FrameEntry {
    fn list() -> &'static Layout {
        reply_of(THREAD_REFERENCE, FRAMES)
    }
}
