//! The columns of a picture.
ghost use Rattle.std.specs.Prelude.{◌≡◌, IfOk, OnOk, map};
ghost use Rattle.std.specs.List.{flat_map, fold, list_any};
ghost use Rattle.jdwp_mirror.specs.declared.threads.Known.{Known};
ghost use Rattle.jdwp_draw.specs.Columns.{columns_of, request_columns, same_column, same_request, thread_columns, with_column};
ghost use Rattle.jdwp_draw.specs.declared.columns.Column.{Column};

use crate::picture::{Row, Standing};
use jdwp_wire::NoMemory;
use std::alloc::Global;

/// What a column shows.
#[derive(Clone, Copy, Debug, PartialEq, Eq)]
pub enum Column {
    /// A thread, by its id.
    Thread(u64),
    /// An event request.
    Request(Standing),
}

/// Whether they have the same id and kind.
pub(crate) fn is_same_request(a: Standing, b: Standing) -> bool
    ensures { result ≡ same_request a b }
{
    a.id == b.id && a.kind == b.kind
}

fn is_same(a: Column, b: Column) -> bool
    ensures { result ≡ same_column a b }
{
    match (a, b) {
        (Column::Thread(a), Column::Thread(b)) => a == b,
        (Column::Request(a), Column::Request(b)) => is_same_request(a, b),
        _ => false,
    }
}

/// The columns of these rows.
pub(crate) fn columns_of(alloc: Global, rows: &[Row]) -> Result<Vec<Column>, NoMemory>
    ensures { IfOk result (λ columns. columns.items ≡ columns_of rows.now) }
{
    let mut columns = Vec::new(alloc);
    for row in rows {
        add_threads(&mut columns, row)?;
    }
    for row in rows {
        add_requests(&mut columns, row)?;
    }
    Ok(columns)
}

fn add_threads(columns: &mut Vec<Column>, row: &Row) -> Result<(), NoMemory>
    ensures { OnOk result (columns.new.items ≡ fold with_column columns.old.items (thread_columns
        row.now)) }
{
    for known in &row.threads {
        add(columns, Column::Thread(known.id.0))?;
    }
    Ok(())
}

fn add_requests(columns: &mut Vec<Column>, row: &Row) -> Result<(), NoMemory>
    ensures { OnOk result (columns.new.items ≡ fold with_column columns.old.items (request_columns
        row.now)) }
{
    for request in &row.requests {
        add(columns, Column::Request(*request))?;
    }
    Ok(())
}

/// Adds a column where it is not among them.
fn add(columns: &mut Vec<Column>, column: Column) -> Result<(), NoMemory>
    ensures { OnOk result (columns.new.items ≡ with_column columns.old.items column) }
{
    if !is_among(columns, column) {
        columns.push(column)?;
    }
    Ok(())
}

fn is_among(columns: &[Column], column: Column) -> bool
    ensures { result ≡ list_any (same_column column) columns.now }
{
    for other in columns {
        if is_same(column, *other) {
            return true;
        }
    }
    false
}
