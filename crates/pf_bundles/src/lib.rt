//! Bundles: the rows of a level side by side, each in a lane of its own (Box2D 3's
//! `b2ContactConstraintSIMD`, Bepu's bundles), and the limits within which they are solved in
//! lanes.
#![tactic(auto)]

mod bundle;
mod exact;
mod lane_row;
pub mod laws;
pub mod limits;
mod prepared;
mod seat;
mod unknowns;
mod vectors;
mod workspace;

pub use bundle::{Bundle, load_bundles};
pub use exact::{ExactConstraint, ExactMass, ExactVector};
pub use lane_row::LaneRow;
pub use prepared::{ConstraintLanes, MassLanes, PreparedLanes};
pub use seat::LaneSeat;
pub use unknowns::{ExactImpulses, ExactVelocity, SeatState, Unknowns};
pub use vectors::{ScaledVectors, VectorLanes};
pub use workspace::Workspace;
