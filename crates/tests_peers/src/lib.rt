//! Tests by public calls of what stands above the tick: links, sessions, keys and contexts, texts
//! and the command line. They stand in a crate of their own, so that those crates are proved
//! without them. What a stored run can show stands in those of `runs_peers` and `runs_texts`.
#![tactic(auto)]

#[cfg(test)]
mod context;
#[cfg(test)]
mod crew;
#[cfg(test)]
mod errors;
#[cfg(test)]
mod laws_called;
#[cfg(test)]
mod links;
#[cfg(test)]
mod scoped;
#[cfg(test)]
mod sessions;
#[cfg(test)]
mod table;
#[cfg(test)]
mod text;
#[cfg(test)]
mod words;
