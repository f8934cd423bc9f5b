//! A context as C holds it: open or closed.

ghost use Rattle.std.specs.Prelude.{◌≡◌, ◌↔◌, IfNone, IfSome, IsSome, IsTrue, None, Some};
ghost use Rattle.std.specs.Fn.{FnOnceReturnsAtMut};
ghost use Rattle.pf_context.specs.Context.{Context};
ghost use Rattle.pf_c.specs.Calls.{CallsOpen};

use crate::handle::Handle;
use crate::raw_box::RawBox;
use pf_context::{Context, ContextError};
use std::alloc::Global;
use std::mem;

/// A context as C holds it, which begins as zeros. The pointer is that of a context where it is
/// open, and else null.
#[repr(C)]
#[derive(Drop)]
pub struct PfContext {
    is_open: bool,
    pub handle: Handle,
    ghost agrees: { IsTrue is_open ↔ IsSome handle.value },
}

impl PfContext {
    /// A context that is closed.
    pub(crate) fn closed() -> PfContext
        ensures { result.handle.value ≡ None }
    {
        PfContext {
            is_open: false,
            handle: Handle::none(),
        }
    }

    /// A context that is open.
    fn open(context: Box<Context>) -> PfContext
        ensures { result.handle.value ≡ Some context.value }
    {
        PfContext {
            is_open: true,
            handle: Handle::of(RawBox::of(context)),
        }
    }

    /// Takes the context out, if it is open.
    pub(crate) fn take_out(&mut self, alloc: Global) -> Option<Box<Context>>
        ensures some { IfSome result (λ context. self.old.handle.value ≡ Some context.value) }
        ensures none { IfNone result (self.old.handle.value ≡ None) }
        ensures closed { self.new.handle.value ≡ None }
    {
        let PfContext { is_open, handle } = mem::replace(self, PfContext::closed());
        if is_open {
            Some(handle.into_raw_box(alloc).into_box())
        } else {
            None
        }
    }

    /// Puts a context into a closed one.
    pub(crate) fn put_back(&mut self, context: Box<Context>)
        requires { self.old.handle.value ≡ None }
        ensures { self.new.handle.value ≡ Some context.value }
    {
        *self = PfContext::open(context);
    }

    /// Calls the context, if it is open, and returns what the call returned.
    pub(crate) fn call<T, F: FnOnce(&mut Context) -> Result<T, ContextError>>(
        &mut self,
        alloc: Global,
        call: F,
    ) -> Option<Result<T, ContextError>>
        requires { F.IsAlwaysCallable call }
        ensures { CallsOpen
            (λ before after answer. FnOnceReturnsAtMut F.FnOnce call before answer after)
            self.old.handle.value self.new.handle.value result }
    {
        let mut inside = self.take_out(alloc)?;
        let answer = call(&mut inside);
        self.put_back(inside);
        Some(answer)
    }
}
