//! Laws of sessions in threads. These functions compute nothing: their clauses are the statements.

ghost use Rattle.std.specs.Prelude.{◌≡◌, ◌≢◌, ℕ, ◌<◌, List, length};
ghost use Rattle.pf_links.specs.declared.output.LinkOut.{LinkOut};
ghost use Rattle.pf_sessions.specs.Table.{IsTable, entry_of, transpose};

use crate::links::{LINK_CAPACITY, RING};

/// In the transpose of a table each peer has for another one what that one has for it in the table;
/// the transpose is a table of as many peers, and its own transpose is the table.
pub fn transposes_exchange_peers()
    ensures table { (rows : List (List LinkOut)) → IsTable rows
        → IsTable (transpose rows) × (length (transpose rows) ≡ length rows) }
    ensures back { (rows : List (List LinkOut)) → IsTable rows
        → transpose (transpose rows) ≡ rows }
    ensures entries { (rows : List (List LinkOut)) (own other : ℕ) → IsTable rows → own ≢ other
        → own < length rows → other < length rows
        → entry_of (transpose rows) other own ≡ entry_of rows own other }
{}

/// The capacity with which links are made, and the number of settled worlds that a peer keeps, are
/// 64.
pub fn named_limits()
    ensures links { LINK_CAPACITY ≡ 64 }
    ensures worlds { RING ≡ 64 }
{}
