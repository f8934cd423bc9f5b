//! Which crew of threads a line asks for.

ghost use Rattle.std.specs.Prelude.{◌<◌, ◌≤◌};
ghost use Rattle.pf_pool.specs.declared.pool.TheConstants.{MAX_WORKERS};

use anyhow::{Context, Result, bail};
use pf_workers::MAX_WORKERS;
use tests_gates::Rule;

/// When a crew starts its workers.
#[derive(Clone, Copy, Debug)]
pub enum Life {
    /// In each solve.
    Scoped,
    /// Once.
    Standing,
}

/// What the workers of a crew pass.
#[derive(Clone, Copy, Debug)]
pub enum GateKind {
    /// The gate that is open for all.
    Open,
    /// A gate with a rule.
    Ruled(Rule),
    /// A gate that is open for all, and notes when a rule would shut it.
    Noting(Rule),
}

/// A crew of threads.
#[derive(Clone, Copy, Debug)]
pub struct Plan {
    pub life: Life,
    pub gate: GateKind,
    pub workers: usize,
    ghost some: { 0 < workers },
    ghost within: { workers ≤ MAX_WORKERS },
}

fn count(word: &str) -> Result<usize> {
    word.parse::<usize>().context("reading a number")
}

fn life_of(word: &str) -> Result<Life> {
    Ok(match word {
        "scoped" => Life::Scoped,
        "standing" => Life::Standing,
        _ => bail!("no such crew"),
    })
}

fn gate_of(words: &[&str]) -> Result<GateKind> {
    Ok(match words {
        ["open"] => GateKind::Open,
        ["meeting"] => GateKind::Ruled(Rule::Meeting),
        ["counting"] => GateKind::Noting(Rule::Meeting),
        ["unwatched"] => GateKind::Noting(Rule::Unwatched),
        ["counted"] => GateKind::Noting(Rule::Counted),
        ["shut", worker, turn] => GateKind::Ruled(Rule::Shut {
            worker: count(worker)?,
            turn: count(turn)?,
        }),
        ["shut-from", worker, turn] => GateKind::Ruled(Rule::ShutFrom {
            worker: count(worker)?,
            turn: count(turn)?,
        }),
        _ => bail!("no such gate"),
    })
}

/// The crew that words encode.
pub fn plan_of(life: &str, workers: &str, gate: &[&str]) -> Result<Plan> {
    let life = life_of(life)?;
    let gate = gate_of(gate)?;
    let workers = count(workers)?;
    if workers == 0 || workers > MAX_WORKERS {
        bail!("no such number of workers");
    }
    Ok(Plan {
        life,
        gate,
        workers,
    })
}
