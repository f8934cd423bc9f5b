//! A crew that counts its calls, and fails where it is told to.

use anyhow::{Context, Result, bail};
use pf_islands::Island;
use pf_shapes::Scene;
use pf_step::{Crew, CrewError, solve_all};

/// Counts its calls. From one of them on, if it has that, each fails with this error.
#[derive(Drop)]
pub struct CountingCrew {
    pub calls: u64,
    fails: Option<(u64, CrewError)>,
}

impl CountingCrew {
    /// A crew that was not called. The words are none, or the number of the first call that fails
    /// and its error.
    pub fn new(words: &[&str]) -> Result<CountingCrew> {
        let fails = match words {
            [] => None,
            [call, error] => Some((call.parse().context("a number")?, error_of(error)?)),
            _ => bail!("a number and an error"),
        };
        Ok(CountingCrew { calls: 0, fails })
    }
}

/// The error of this name.
fn error_of(name: &str) -> Result<CrewError> {
    Ok(match name {
        "OutOfMemory" => CrewError::OutOfMemory,
        "NoThread" => CrewError::NoThread,
        "GateShut" => CrewError::GateShut,
        "CrewLost" => CrewError::CrewLost,
        _ => bail!("no such error"),
    })
}

impl Crew for CountingCrew {
    fn solve(&mut self, scene: &Scene, islands: Vec<Island>) -> Result<Vec<Island>, CrewError> {
        self.calls = self.calls.saturating_add(1);
        match self.fails {
            Some((call, error)) if call <= self.calls => return Err(error),
            _ => {}
        }
        let mut islands = islands;
        solve_all(scene, &mut islands);
        Ok(islands)
    }
}
