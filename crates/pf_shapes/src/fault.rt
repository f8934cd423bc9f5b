//! What can be wrong with a line of a scene.

ghost use Rattle.std.specs.Prelude.{◌≡◌};
ghost use Rattle.pf_shapes.specs.Fault.{scene_fault_of};

use pf_text::LineFault;
use thiserror::Error;

/// What is wrong with a line of a scene.
#[derive(Clone, Copy, Debug, PartialEq, Eq, Error)]
pub enum SceneFault {
    /// No line of a scene has this word and so many fields, or none may stand here; or the line is
    /// too long, not ASCII, or its fields are not separated by single spaces; or the text ended
    /// before its scene.
    #[error("no such line may stand here")]
    BadLine,
    /// A field is no whole number, or one out of its range.
    #[error("a number is not whole, or out of its range: friction is 0 to 4, gravity within 1,024, \
         a position within 2^20, a direction within 1, an owner 0 to 7")]
    BadNumber,
    /// The scene has as many bodies as it may have.
    #[error("the scene has 1,024 bodies already")]
    TooMany,
    /// A mass is neither 0 nor from 2^20 to 2^34 raw.
    #[error("a mass is neither 0 nor from 1/16 to 1,024 (2^20 to 2^34 raw)")]
    BadMass,
    /// A radius or a half extent is not from 2^20 to 2^34 raw.
    #[error("a radius or a half extent is not from 1/16 to 1,024 (2^20 to 2^34 raw)")]
    BadSize,
}

impl From<LineFault> for SceneFault {
    ghost from_gives = { λ fault scene_fault. scene_fault ≡ scene_fault_of fault };

    fn from(fault: LineFault) -> SceneFault {
        match fault {
            LineFault::BadLine => SceneFault::BadLine,
            LineFault::BadNumber => SceneFault::BadNumber,
        }
    }
}
