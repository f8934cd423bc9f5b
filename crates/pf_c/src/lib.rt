//! A context behind a C interface: each export makes one call of `pf_context`. C holds the context
//! as a flag and a pointer. Each export calls it (`held.rt`), writes its outputs and returns
//! a code (`answers.rt`).
//!
//! No export trusts what C passes but this: the pointers are live, aligned, not null and do not
//! overlap, and what `PfContext` holds is all zeros or what an export left there.
#![tactic(auto)]

mod answers;
mod codes;
mod commands;
mod frames;
mod handle;
mod held;
pub mod laws;
mod names;
mod opening;
mod peers;
mod raw_box;
mod scenes;
mod ticks;
mod worlds;

pub use codes::{
    PF_BAD_KEY, PF_BAD_NUMBER, PF_BAD_PLAYER, PF_BAD_RING, PF_CHECK, PF_CLOSED, PF_FRAME, PF_FULL,
    PF_OK, PF_OUT_OF_MEMORY, PF_REFUSED, PF_SCENE, PF_SMALL_BUFFER, PF_STILL_OPEN,
};
pub use held::PfContext;

// What the header's structs take.
const _: () = prove!(std::mem::size_of::<PfContext>() == 16);

const _: () = prove!(std::mem::size_of::<pf_context::Key>() == 8);

const _: () = prove!(std::mem::size_of::<pf_context::RawV2>() == 16);

const _: () = prove!(std::mem::size_of::<scenes::PfMaterial>() == 24);

const _: () = prove!(std::mem::size_of::<commands::PfFrame>() == 27);

const _: () = prove!(std::mem::size_of::<worlds::PfSizes>() == 16);

const _: () = prove!(std::mem::size_of::<ticks::PfCounts>() == 16);
