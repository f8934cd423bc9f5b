//! A scene read from a text that holds nothing else.

use crate::fault::SceneFault;
use crate::reader::{Progress, SceneReader};
use crate::scene::{MAX_BODIES, Scene};
use pf_text::{Bytes, Collected, DriveError, LineFault, Machine, TakeError, drive};
use std::alloc::Global;
use thiserror::Error;

/// Why no scene was read from a text.
#[derive(Clone, Copy, Debug, PartialEq, Eq, Error)]
pub enum ReadError {
    /// The line of this number, from 1, is invalid.
    #[error("line {0}: {1}")]
    Line(u64, SceneFault),
    /// No memory is left.
    #[error("out of memory")]
    Memory,
}

impl Machine<()> for Progress {
    ghost use Rattle.pf_shapes.specs.SceneRead.{scene_rules};

    type Fault = SceneFault;

    ghost rules = { scene_rules };

    fn line_error(fault: LineFault) -> SceneFault {
        SceneFault::from(fault)
    }

    #[tactic(auto, unfolding(crate::specs::SceneRead::transition, crate::specs::SceneRead::allocates))]
    fn take(
        self,
        alloc: Global,
        _lent: &mut (),
        fields: &[&[u8]],
    ) -> Result<(String, Self), TakeError<SceneFault>> {
        match self {
            Progress::More(reader) => {
                let progress = reader.take(alloc, fields)?;
                Ok((String::new(alloc), progress))
            }
            Progress::Ended(_) => Err(TakeError::Fault(SceneFault::BadLine)),
        }
    }
}

impl Scene {
    ghost use Rattle.pf_shapes.specs.SceneRead.{scene_of, ReadsScene};

    /// Reads a text that holds a scene of at most 1,024 bodies and nothing else: only skipped lines
    /// may follow its `end`. It takes memory only for lines that are valid.
    #[tactic(auto, unfolding(crate::specs::SceneRead::scene_of))]
    pub fn read(alloc: Global, text: &[u8]) -> Result<Scene, ReadError>
        ensures { ReadsScene text.now result }
    {
        let opening = Progress::More(SceneReader::new(MAX_BODIES));
        let mut output = Collected::new(alloc);
        match drive(alloc, &mut (), &mut Bytes::new(text), &mut output, opening) {
            Ok((_, Progress::Ended(scene))) => Ok(scene),
            Ok((number, Progress::More(_))) => Err(ReadError::Line(number, SceneFault::BadLine)),
            Err(DriveError::Line(number, fault)) => Err(ReadError::Line(number, fault)),
            Err(DriveError::Memory) => Err(ReadError::Memory),
            // A reader in memory does not fail.
            Err(DriveError::Read) => unreachable!(),
            // The lines of a scene have no output.
            Err(DriveError::Write) => unreachable!(),
        }
    }
}
