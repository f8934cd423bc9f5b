//! A context behind an erased pointer.

ghost use Rattle.std.specs.Prelude.{◌≡◌, IsSome, Option, Some, None};
ghost use Rattle.std.specs.Coded.{coded_option};
ghost use Rattle.pf_context.specs.Context.{Context};
ghost use Rattle.pf_context.specs.contracts.context.Context.{the_row};

use crate::raw_box::RawBox;
use pf_context::Context;
use std::alloc::Global;
use std::marker::Model;
use std::ptr::null_mut;

#[repr(C)]
#[derive(Drop)]
pub struct Handle {
    at: *mut u8,
    pub ghost value: { Option Context } by { coded_option the_row.coded },
}

impl Model for Handle {
    ghost use Rattle.pf_c.specs.Held.{held};

    ghost also_owns = { λ l. held l.at l.value };
}

// The context may go to another thread, and any thread may give its block back.
unsafe impl Send for Handle {}

impl Handle {
    pub fn none() -> Handle
        ensures { result.value ≡ None }
    {
        Handle { at: null_mut() }
    }

    pub(crate) fn of(raw_box: RawBox<Context, Global>) -> Handle
        ensures { result.value ≡ Some raw_box.value }
    {
        let RawBox { at, alloc: _ } = raw_box;
        Handle { at: at as *mut u8 }
    }

    pub(crate) fn into_raw_box(self, alloc: Global) -> RawBox<Context, Global>
        requires { IsSome self.value }
        ensures { self.value ≡ Some result.value }
    {
        let Handle { at } = self;
        RawBox {
            at: at as *mut Context,
            alloc,
        }
    }
}
