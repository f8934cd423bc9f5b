//! Runs lists of calls on peers, and sessions of peers in threads, with crews of threads and gates
//! that try what no contract says, and prints what each returned.
//!
//! Standard input holds texts, each but the last with `# next text` as its last line. A text is a
//! scene and then lines. A line that begins with `#` is printed as it is.
//!
//! # Calls
//!
//! The second word is the number of a peer: the next number, for `new`.
//!
//! | line | call | printed |
//! |---|---|---|
//! | `new N PLAYER RING` | a peer that keeps so many settled worlds | `new PLAYER RING` |
//! | `advance N TICKS` | goes on | `advance REACHED` |
//! | `issue N push BODY X Y`, `turn BODY X`, `stop BODY` | issues a command | `issue FRAME` |
//! | `issue N place BODY X Y` | the same | `issue FRAME` |
//! | `take N FRAME` | takes a frame | `take new`, `same`, `greater` or `lesser` |
//! | `merge N OTHER` | merges another peer's commands | `merge COUNT` |
//! | `merge-sealed N OTHER` | the same, with the other's horizon and its world | `merge COUNT` |
//! | `seal N TICK` | makes a tick the horizon | `seal TICK` |
//! | `settle N` | settles on one thread | `settle REACHED` |
//! | `crew N` | settles with a crew | `crew REACHED calls CALLS SEEN` |
//! | `crew N NTH ERROR` | the same; this solve of the crew fails | `crew ERROR calls CALLS` |
//! | `crews N LIFE WORKERS GATE` | makes a crew of threads | `crews WORKERS` or `crews ERROR` |
//! | `threads N` | settles with it | `threads REACHED NOTED` or `threads ERROR NOTED` |
//! | `dismiss N WORKER` | ends a worker of it, if that was started once | `dismiss WORKER` |
//! | `close N` | ends it | `close` |
//! | `same N OTHER FIRST LAST` | compares peers' worlds | `same COUNT`: the ticks with one world |
//! | `world N TICK` | the world at a tick | `world TICKS`, its bodies and its contacts |
//! | `latest N` | the latest settled world | `world 0`, its bodies and its contacts |
//!
//! SEEN is what the crew was last given: the number of islands, of their bodies and of their
//! contacts, and the least body. TICKS is how many ticks were simulated for the world. Lines of
//! bodies are as `pf_play` shows them, and a line `contacts COUNT NORMAL TANGENT` has the sums of
//! what contacts have accumulated. A call that is refused prints `refused` and why.
//!
//! LIFE is `scoped` or `standing`. GATE is `open`; `meeting`, where each worker waits in each
//! solve until each other worker has come; `counting`, as `meeting`, but open also where one did
//! not come; `unwatched`, as `counting`, but the crew is told that nobody watches, so that its
//! caller works too; `counted`, where nobody watches, and nobody waits; `shut WORKER TURN`, which
//! is shut for this worker in this turn; or `shut-from WORKER TURN`, for this one and those of
//! greater numbers. NOTED is `shut COUNT`, how often the gate should have been shut, and for each
//! worker how often it came, and for how many turns. The open gate notes nothing.
//!
//! After each call stands a line `state N PLAYER BODIES COMMANDS REACHED SETTLED TICKS COLLIDES`:
//! the last two are the counts of the peer's meter.
//!
//! # Sessions
//!
//! | line | does | printed |
//! |---|---|---|
//! | `turn P K FRAME ..` | adds a turn to peer P's script: these frames, and K ticks | nothing |
//! | `session GATE` | plays all scripts, each peer in a thread of its own | below |
//! | `session-crews N GATE` | the same, each peer with a crew of N workers | below |
//! | `two GATE` | peers 0 and 1 play in threads, and take no rest | `two`, and counts |
//!
//! GATE is `open`; `meeting N`, where each peer waits in each turn until those below N have come;
//! `counting N`, the same, but open also where one did not come; `shut-from P TURN`, which is shut
//! in this turn for this peer and those above it; or `after P TURN OTHER`, where this peer waits in
//! this turn until another one has come for it, and the other one in the turn before until this
//! peer has come for this one.
//!
//! A session prints `session`, and for each peer `peer PLAYER REACHED SETTLED COMMANDS` and its
//! bodies that move, as `pf_play` shows them; or `session` and its fault. The counts of `two` are
//! `COMMANDS/TICKS` for each peer: how many it holds, and has simulated. A gate that is not `open`
//! prints `gate shut COUNT passes` and for each peer, or those below N, how often it came and for
//! how many turns; COUNT is how often its rule was not met. `two` has a gate that may be shut, and
//! prints no such line.
//!
//! The stored run has worked cases, with values by an independent program.
#![tactic(auto)]

mod bodies;
mod call;
mod crew;
mod gates;
mod peers;
mod plan;
mod print;
mod script;
mod sessions;
mod table;
mod texts;
mod threads;
mod two;

use crate::call::parse;
use crate::script::Scripts;
use crate::table::Table;
use crate::texts::{split_scene, split_text};
use crate::threads::Handle;
use anyhow::{Context, Result};
use pf_shapes::Scene;
use std::alloc::Global;
use std::io::{BufWriter, Read, Write};

/// Prints the answer to a line of a session, or to a call with the state of its peer behind it.
fn run_line<R: Handle, W: Write>(
    rt: &R,
    alloc: Global,
    table: &mut Table<'_, R>,
    scripts: &mut Scripts,
    line: &str,
    writer: &mut W,
) -> Result<()> {
    let words: Vec<&str> = line.split_whitespace().collect(alloc)?;
    if let Some(text) = sessions::answer(rt, alloc, table.scene(), scripts, words.as_slice())? {
        writer.write_all(text.as_bytes())?;
        return Ok(());
    }
    let (number, call) = parse(alloc, words.as_slice())?;
    let text = table.answer(number, &call)?;
    let state = table.state(number)?;
    writeln!(writer, "{text}\n{state}")?;
    Ok(())
}

/// Runs the lines of a text.
fn run<R: Handle, W: Write>(rt: &R, alloc: Global, text: &[u8], writer: &mut W) -> Result<()> {
    let (scene, lines) = split_scene(text).context("no end of the scene")?;
    let scene = Scene::read(alloc, scene)?;
    let mut table = Table::new(rt, alloc, scene);
    let mut scripts = Scripts::new(alloc);
    for line in str::from_utf8(lines).context("lines are text")?.lines() {
        if line.starts_with('#') {
            writeln!(writer, "{line}")?;
        } else {
            run_line(rt, alloc, &mut table, &mut scripts, line, writer)?;
        }
    }
    Ok(())
}

fn main(rt: HostRuntime) -> Result<()> {
    let alloc = rt.alloc();
    let mut texts = Vec::new(alloc);
    rt.stdin().read_to_end(&mut texts)?;
    let mut writer = BufWriter::new(alloc, std::io::writer(&rt))?;
    let mut rest = texts.as_slice();
    while let Some((text, others)) = split_text(rest) {
        run(&rt, alloc, text, &mut writer)?;
        rest = others;
    }
    run(&rt, alloc, rest, &mut writer)?;
    writer.flush()?;
    Ok(())
}
