// The handle that C keeps.
ghost use Rattle.std.specs.Prelude.{◌≡◌, Option};
ghost use Rattle.std.specs.Option.{MatchOption};
ghost use Rattle.std.specs.declared.option.Option.TheVariants.{None, Some};
ghost use Rattle.std.specs.contracts.impls.GlobalAllocator.TheImpl.{ghosts};
ghost use Rattle.milunovesk_c.specs.contracts.kept.Kept.{the_row};
ghost use Rattle.milunovesk_c.specs.declared.kept.Kept.{Kept as State};
ghost use Rattle.milunovesk_c.specs.Handles.{holds};

use crate::kept::Kept;
use crate::loose::Loose;
use std::alloc::Global;
use std::marker::{Model, Send};

/// A place that C owns: all zero, or as the last call that it was passed to left it.
#[repr(C)]
pub struct Handle {
    live: bool,
    at: *mut u8,
    alloc: Global,
    pub ghost value: { Option State },
}

impl Model for Handle {
    ghost also_owns = { λ h. holds (ghosts.dealloc_token h.alloc) the_row h.live h.at h.value };
}

/// What a handle keeps is its own, to the last byte, so it may go to any thread.
unsafe impl Send for Handle {}

impl Handle {
    pub(crate) fn none(at: *mut u8, alloc: Global) -> Handle
        ensures { result.value ≡ None }
    {
        Handle {
            live: false,
            at,
            alloc,
        }
    }

    pub(crate) fn of(value: Loose<Kept, Global>) -> Handle
        ensures { result.value ≡ Some value.value }
    {
        let Loose { at, alloc } = value;
        Handle {
            live: true,
            at: at as *mut u8,
            alloc,
        }
    }

    pub(crate) fn into_loose(self) -> Option<Loose<Kept, Global>>
        ensures { MatchOption result (self.value ≡ None) (λ l. self.value ≡ Some l.value) }
    {
        let Handle { live, at, alloc } = self;
        if live {
            Some(Loose {
                at: at as *mut Kept,
                alloc,
            })
        } else {
            None
        }
    }

    // What is kept. Nothing is, afterwards.
    pub(crate) fn take_out(&mut self, alloc: Global) -> Option<Box<Kept>>
        ensures after { self.new.value ≡ None }
        ensures before { MatchOption result (self.old.value ≡ None) (λ l. self.old.value ≡ Some l.value) }
    {
        std::mem::replace(self, Handle::empty(alloc)).into_kept()
    }

    // A handle that keeps nothing, as one that is all zero.
    fn empty(alloc: Global) -> Handle
        ensures { result.value ≡ None }
    {
        let at = std::ptr::null_mut();
        Handle::none(at, alloc)
    }

    fn into_kept(self) -> Option<Box<Kept>>
        ensures { MatchOption result (self.value ≡ None) (λ l. self.value ≡ Some l.value) }
    {
        match self.into_loose() {
            None => None,
            Some(loose) => Some(loose.into_box()),
        }
    }

    // Keeps this, and drops what was kept before.
    pub(crate) fn put(&mut self, low: Box<Kept>)
        ensures { self.new.value ≡ Some low.value }
    {
        *self = Handle::of(Loose::of(low));
    }
}

impl Drop for Handle {
    fn drop(self) {
        match self.into_loose() {
            None => {}
            Some(loose) => drop(loose.into_box()),
        }
    }
}
