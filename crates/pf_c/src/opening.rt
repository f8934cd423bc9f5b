//! Contexts that are opened and closed.

ghost use Rattle.std.specs.Prelude.{None, Some};
ghost use Rattle.pf_c.specs.Opening.{Closes, Opens};

use crate::codes::{PF_CLOSED, PF_OK, PF_OUT_OF_MEMORY, PF_STILL_OPEN};
use crate::held::PfContext;
use pf_context::Context;
use std::alloc::Global;

/// Opens a context without scenes and peers. One that is open stays as it is.
#[unsafe(no_mangle)]
pub extern "C" fn pf_open(alloc: Global, context: &mut PfContext) -> u32
    ensures { Opens context.old.handle.value context.new.handle.value result }
{
    if let Some(inside) = context.take_out(alloc) {
        context.put_back(inside);
        return PF_STILL_OPEN;
    }
    match Box::new(alloc, Context::new(alloc)) {
        Ok(inside) => {
            context.put_back(inside);
            PF_OK
        }
        Err(_) => PF_OUT_OF_MEMORY,
    }
}

/// Closes a context: its scenes and peers are gone, and their memory is given back.
#[unsafe(no_mangle)]
pub extern "C" fn pf_close(alloc: Global, context: &mut PfContext) -> u32
    ensures { Closes context.old.handle.value context.new.handle.value result }
{
    match context.take_out(alloc) {
        Some(_) => PF_OK,
        None => PF_CLOSED,
    }
}
