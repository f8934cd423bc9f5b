//! Gates that try what no contract says: workers work side by side, and each passes its gate once
//! in each solve. They make threads meet, count them, or shut some out.
#![tactic(auto)]

mod gate;

pub use gate::{Book, Rule, TrialGate};
