//! The handle of sums that C stores: it has a pointer to sums, or none. It is made as the handle of a client is, and
//! only this module follows its pointer.
ghost use Rattle.std.specs.Prelude.{◌≡◌, Option, Some, None, IsSome, is_some};
ghost use Rattle.cadence_c.specs.declared.sums_handle.Sums.{Sums};
ghost use Rattle.cadence_c.specs.Slot.{box_value, option_coded, pointer_owns};
ghost use Rattle.cadence_c.specs.contracts.sums_handle.Sums.{the_row};
ghost use Rattle.std.specs.Option.{option_map};

use crate::box_parts::BoxParts;
use cadence_aggregating::{LineKey, SummedLines};
use std::alloc::{AllocError, Global};
use std::marker::Model;
use std::{mem, ptr};

/// What a handle of sums contains: lines that are added up, and the keys of calls that make no line. The number of a
/// key is how many keys were made before it.
#[derive(Drop)]
pub struct Sums {
    pub(crate) lines: SummedLines,
    pub(crate) keys: Vec<LineKey>,
}

/// A pointer to sums, or null, with the allocator. In proofs it has the sums, and it owns what a `Box` of them owns.
#[repr(C)]
#[derive(Drop)]
pub struct SumsPointer {
    at: *mut u8,
    alloc: Global,
    pub ghost sums: { Option Sums } by { option_coded the_row },
}

impl Model for SumsPointer {
    ghost also_owns = { λ s. pointer_owns the_row s.alloc s.at s.sums };
}

unsafe impl Send for SumsPointer {}

impl SumsPointer {
    /// Makes a pointer to no sums.
    pub fn empty(alloc: Global) -> SumsPointer
        ensures { result.sums ≡ None }
    {
        SumsPointer {
            at: ptr::null_mut(),
            alloc,
        }
    }

    /// Makes the pointer to sums of the parts of their `Box`.
    pub fn from_parts(parts: BoxParts<Sums, Global>) -> SumsPointer
        ensures { result.sums ≡ Some parts.value }
    {
        let BoxParts { ptr, alloc } = parts;
        SumsPointer {
            at: ptr as *mut u8,
            alloc,
        }
    }

    /// Makes the parts of the `Box` again.
    pub fn into_parts(self) -> BoxParts<Sums, Global>
        requires { IsSome self.sums }
        ensures { self.sums ≡ Some result.value }
    {
        let SumsPointer { at, alloc } = self;
        BoxParts {
            ptr: at as *mut Sums,
            alloc,
        }
    }
}

/// The handle of sums that C stores: it has sums, or none. Contracts name `sums_of` and `keys_of` a handle.
#[repr(C)]
pub struct SumsHandle {
    pointer: SumsPointer,
    open: bool,
    ghost ok: { «open» ≡ is_some pointer.sums },
}

impl SumsHandle {
    ghost use Rattle.std.specs.Prelude.{◌≡◌, Some, None, IfOk};
    ghost use Rattle.cadence_c.specs.SumsHandle.{contents};

    /// Makes a handle without sums.
    pub fn empty(alloc: Global) -> SumsHandle
        ensures { contents result ≡ None }
    {
        SumsHandle {
            pointer: SumsPointer::empty(alloc),
            open: false,
        }
    }

    /// Makes a handle of sums, which it moves into memory of their own. The error is that memory ran out.
    pub fn new(alloc: Global, sums: Sums) -> Result<SumsHandle, AllocError>
        ensures { IfOk result (λ h. contents h ≡ Some sums) }
    {
        let boxed = Box::new(alloc, sums)?;
        Ok(SumsHandle {
            pointer: SumsPointer::from_parts(BoxParts::from_box(boxed)),
            open: true,
        })
    }

    // Takes the handle apart and returns its sums, if it has some.
    fn into_box(self) -> Option<Box<Sums>>
        ensures { option_map box_value result ≡ contents self }
    {
        let SumsHandle { pointer, open } = self;
        if open {
            Some(pointer.into_parts().into_box())
        } else {
            None
        }
    }

    /// Takes the sums out, if there are some, and leaves the handle without sums.
    pub fn take(&mut self, alloc: Global) -> Option<Box<Sums>>
        ensures taken { option_map box_value result ≡ contents self.old }
        ensures left { contents self.new ≡ None }
    {
        let whole = mem::replace(self, SumsHandle::empty(alloc));
        whole.into_box()
    }

    /// Puts sums in, and drops earlier ones.
    pub fn put(&mut self, sums: Box<Sums>)
        ensures { contents self.new ≡ Some sums.value }
    {
        *self = SumsHandle {
            pointer: SumsPointer::from_parts(BoxParts::from_box(sums)),
            open: true,
        };
    }
}

impl Drop for SumsHandle {
    fn drop(self) {
        let boxed = self.into_box();
        drop(boxed);
    }
}
