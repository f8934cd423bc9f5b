//! The table of the links between peers, by sender and by receiver.

ghost use Rattle.std.specs.Prelude.{◌≡◌, ◌<◌, ◌∷◌, ◌++◌, All, IfOk, OnOk, length};
ghost use Rattle.pf_sessions.specs.Links.{table_rows};
ghost use Rattle.pf_sessions.specs.Table.{IsTable, first_entries, other_entries, transpose, with_entries};

use pf_links::LinkOut;
use std::alloc::{AllocError, Global};

/// Moves the first entry of each row into a column.
fn take_first_entries(
    rows: &mut [Vec<LinkOut>],
    column: &mut Vec<LinkOut>,
) -> Result<(), AllocError>
    requires { All (λ row. 0 < length row.items) rows.old }
    ensures column { OnOk result (column.new.items
        ≡ column.old.items ++ first_entries (table_rows rows.old)) }
    ensures rows { OnOk result (table_rows rows.new ≡ other_entries (table_rows rows.old)) }
{
    let Some((row, others)) = rows.split_first_mut() else {
        return Ok(());
    };
    column.push(row.remove(0))?;
    take_first_entries(others, column)
}

/// Moves the entries of a row to the fronts of columns.
fn add_first_entries(row: Vec<LinkOut>, columns: &mut [Vec<LinkOut>]) -> Result<(), AllocError>
    requires { length row.items ≡ length columns.old }
    ensures { OnOk result
        (table_rows columns.new ≡ with_entries row.items (table_rows columns.old)) }
{
    let Some((column, others)) = columns.split_first_mut() else {
        return Ok(());
    };
    let mut row = row;
    column.insert(0, row.remove(0))?;
    add_first_entries(row, others)
}

/// The first entries of rows, and the rows without them.
fn split_first_entries(
    alloc: Global,
    rows: Vec<Vec<LinkOut>>,
) -> Result<(Vec<LinkOut>, Vec<Vec<LinkOut>>), AllocError>
    requires { All (λ row. 0 < length row.items) rows.items }
    ensures column { IfOk result (λ parts. parts.0.items ≡ first_entries (table_rows rows.items)) }
    ensures rows { IfOk result (λ parts.
        table_rows parts.1.items ≡ other_entries (table_rows rows.items)) }
{
    let mut rows = rows;
    let mut column = Vec::with_capacity(alloc, rows.len())?;
    take_first_entries(&mut rows, &mut column)?;
    Ok((column, rows))
}

/// Puts the entries of a row in front of columns, and a column before all of them.
fn join_first_entries(
    column: Vec<LinkOut>,
    row: Vec<LinkOut>,
    columns: Vec<Vec<LinkOut>>,
) -> Result<Vec<Vec<LinkOut>>, AllocError>
    requires { length row.items ≡ length columns.items }
    ensures { IfOk result (λ joined. table_rows joined.items
        ≡ column.items ∷ with_entries row.items (table_rows columns.items)) }
{
    let mut columns = columns;
    add_first_entries(row, &mut columns)?;
    columns.insert(0, column)?;
    Ok(columns)
}

/// The table turned over: by receiver where it was by sender, and back.
pub fn transpose(alloc: Global, table: Vec<Vec<LinkOut>>) -> Result<Vec<Vec<LinkOut>>, AllocError>
    requires { IsTable (table_rows table.items) }
    ensures { IfOk result (λ other. table_rows other.items ≡ transpose (table_rows table.items)) }
{
    let mut rows = table;
    if rows.is_empty() {
        return Ok(rows);
    }
    let first = rows.remove(0);
    let (column, others) = split_first_entries(alloc, rows)?;
    let columns = transpose(alloc, others)?;
    join_first_entries(column, first, columns)
}
