//! Fixed-point numbers: exact, saturating arithmetic that gives the same bits on every machine.
//!
//! A number is a whole number of units of 2^-24. The result of an operation is the exact value,
//! rounded to the nearest unit (ties to even; a square root down) and saturated.
#![tactic(auto)]

mod divisor;
mod fx;
mod guess;
pub mod laws;
mod quotient;
mod root;

pub use divisor::Divisor;
pub use fx::Fx;
pub use root::whole_root;
