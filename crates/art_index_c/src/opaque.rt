//! What C holds of a handle.
ghost use Rattle.std.specs.Prelude.{◌≡◌, IfSome, None, Option, Some};
ghost use Rattle.std.specs.Option.{option_map};
ghost use Rattle.art_handle.specs.Handles.{IsOfItsTable};
ghost use Rattle.art_handle.specs.declared.handles.Handle.{Handle as HandleOf};

use crate::unboxed::Unboxed;
use art_handle::Handle;
use std::alloc::Global;
use std::marker::Model;
use std::ptr;

/// A handle that C holds as one pointer, whose type says nothing of what it points to; null is no handle. It owns the handle and its room.
#[repr(C)]
pub struct OpaquePass {
    at: *mut u8,
    alloc: Global,
    pub ghost held: { Option HandleOf },
}

impl Model for OpaquePass {
    ghost use Rattle.art_index_c.specs.Held.{owns_held};

    ghost also_owns = { λ p. owns_held p.alloc p.at p.held };
}

impl OpaquePass {
    /// None.
    pub(crate) fn none(alloc: Global) -> OpaquePass
        ensures { result.held ≡ None }
    {
        OpaquePass {
            at: ptr::null_mut(),
            alloc,
        }
    }

    /// One that holds the handle.
    pub(crate) fn of(handle: Box<Handle, Global>) -> OpaquePass
        requires { IsOfItsTable handle.value }
        ensures { result.held ≡ Some handle.value }
    {
        OpaquePass::of_unboxed(Unboxed::of(handle))
    }

    /// The handle that it holds.
    pub(crate) fn into_box(self) -> Option<Box<Handle, Global>>
        ensures held { option_map (λ b. b.value) result ≡ self.held }
        ensures own { IfSome result (λ b. IsOfItsTable b.value) }
    {
        match self.into_unboxed() {
            Some(unboxed) => Some(unboxed.into_box()),
            None => None,
        }
    }

    fn of_unboxed(handle: Unboxed<Handle, Global>) -> OpaquePass
        requires { IsOfItsTable handle.value }
        ensures { result.held ≡ Some handle.value }
    {
        let Unboxed { at, alloc } = handle;
        OpaquePass {
            at: at as *mut u8,
            alloc,
        }
    }

    fn into_unboxed(self) -> Option<Unboxed<Handle, Global>>
        ensures held { option_map (λ u. u.value) result ≡ self.held }
        ensures own { IfSome result (λ u. IsOfItsTable u.value) }
    {
        let OpaquePass { at, alloc } = self;
        if at.is_null() {
            return None;
        }
        Some(Unboxed {
            at: at as *mut Handle,
            alloc,
        })
    }
}

impl Drop for OpaquePass {
    fn drop(self) {
        let _ended = self.into_box();
    }
}
