//! Worked cases of what a tick is made of: scenes, command maps, pairs, contact points, contacts,
//! levels, lanes, batches of islands and steps. They stand in a crate of their own, so that those
//! crates are proved without them. Expected values are computed by hand from docs/FORMATS.md, or
//! taken from an independent program; cases in numbers stand in the stored runs of `runs_geometry`,
//! `runs_peers` and `runs_texts`. Each test is proved, and its cost grows with the places at
//! which it returns, so it has few of them: what is called and compared stands in functions that
//! borrow it.
#![tactic(auto)]

#[cfg(test)]
mod batches;
#[cfg(test)]
mod bundles;
#[cfg(test)]
mod commands;
#[cfg(test)]
mod contacts;
#[cfg(test)]
mod lanes;
#[cfg(test)]
mod laws_called;
#[cfg(test)]
mod levels;
#[cfg(test)]
mod pairs_of_scenes;
#[cfg(test)]
mod scenes;
#[cfg(test)]
mod steps;
