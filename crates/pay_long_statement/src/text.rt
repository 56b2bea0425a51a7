//! A row as `csv` writes it.
ghost use Rattle.std.specs.Prelude.{◌≡◌, ◌++◌, map, IfOk, OnOk};
ghost use Rattle.csv.specs.Writing.{default_writer, row_text};
ghost use Rattle.pay_day.specs.Words.{IsDay};
ghost use Rattle.pay_long_statement.specs.Text.{columns, row_bytes};

use crate::fields::{
    amount_text, date_text, kind_text, name_text, number_text, posted_text, time_text,
};
use crate::row::Row;
use csv::Writer;
use pay_names::Names;
use std::alloc::{AllocError, Global};

/// Fields as a row. An `Err` is out of memory: a vector takes all bytes, as far as there is any.
fn fields_text(alloc: Global, fields: &[&[u8]]) -> Result<Vec<u8>, AllocError>
    ensures { IfOk result (λ text. text.items ≡ row_text default_writer (map (λ f. f.now) fields.now)) }
{
    let mut row = Writer::from_writer(Vec::new(alloc));
    if row.write_fields(fields).is_err() {
        return Err(AllocError);
    }
    match row.into_inner() {
        Ok(text) => Ok(text),
        Err(_) => Err(AllocError),
    }
}

/// The row that names the fields.
pub fn first_row(alloc: Global) -> Result<Vec<u8>, AllocError>
    ensures { IfOk result (λ text. text.items ≡ row_text default_writer columns) }
{
    fields_text(
        alloc,
        &[
            b"date",
            b"kind",
            b"from",
            b"from_name",
            b"to",
            b"to_name",
            b"start",
            b"end",
            b"amount",
            b"posted",
        ],
    )
}

/// A row, with the names of its places.
fn row_bytes(alloc: Global, names: &Names, row: &Row) -> Result<Vec<u8>, AllocError>
    requires { IsDay row.now.day }
    ensures { IfOk result (λ text. text.items ≡ row_bytes names.now row.now) }
{
    let date = date_text(alloc, row.day)?;
    let from = number_text(alloc, row.from)?;
    let from_name = name_text(alloc, names, row.from)?;
    let to = number_text(alloc, row.to)?;
    let to_name = name_text(alloc, names, row.to)?;
    let start = time_text(alloc, row.start)?;
    let end = time_text(alloc, row.end)?;
    let amount = amount_text(alloc, row.amount)?;
    let posted = posted_text(alloc, row.amount)?;
    fields_text(
        alloc,
        &[
            date.as_bytes(),
            kind_text(row.kind).as_bytes(),
            from.as_bytes(),
            from_name.as_bytes(),
            to.as_bytes(),
            to_name.as_bytes(),
            start.as_bytes(),
            end.as_bytes(),
            amount.as_bytes(),
            posted.as_bytes(),
        ],
    )
}

/// Adds a row to a text.
pub fn push_row(text: &mut Vec<u8>, names: &Names, row: &Row) -> Result<(), AllocError>
    requires { IsDay row.now.day }
    ensures { OnOk result (text.new.items ≡ text.old.items ++ row_bytes names.now row.now) }
{
    let bytes = row_bytes(*text.allocator(), names, row)?;
    text.extend_from_slice(&bytes)
}
