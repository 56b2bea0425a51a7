//! Rows as they are written.
ghost use Rattle.std.specs.Prelude.{◌≡◌, map, OnOk, IfOk};
ghost use Rattle.std.specs.Io.KnownBytes.{Appends};
ghost use Rattle.csv.specs.Writing.{default_writer, row_text, text_written};
ghost use Rattle.pay_statement.specs.Statement.{columns, fields_of_line, row, rows_of_lines, statement_text};
ghost use Rattle.pay_statement.specs.Rows.{IsBetweenRows};

use crate::fields::{band_name, number, time_of_day};
use csv::Writer;
use pay_rules::Line;
use pay_tables::Editions;
use std::io::Write;
use thiserror::Error;

/// Why a statement was not written.
#[derive(Clone, Copy, Debug, PartialEq, Eq, Error)]
pub enum StatementFault {
    /// The writer failed, or what makes the rows did. How much was written by then is open.
    #[error("output fault")]
    Write,
}

impl From<csv::Error> for StatementFault {
    ghost use Rattle.pay_statement.specs.declared.statement.StatementFault.TheVariants as faults;

    ghost from_gives = { λ _ fault. fault ≡ faults.Write };

    fn from(_error: csv::Error) -> StatementFault {
        StatementFault::Write
    }
}

/// Writes the statement of journeys to a writer, flushes it and gives it back.
///
/// The first row names the seven fields: `day,kind,from,to,start,fare,band`. Each journey is a row, in the
/// order given: its service day, counted from 1970-01-01; `RAIL`, `SAME`, `LONE` or `BUS`; the stations where
/// it began and ended, 0 for none; the local time of its first tap, as `07:00:00`; its fare before caps, in
/// pence; and the name of its band in the edition of its day, `bus` or its zones as `1-2`, and `-` where it has
/// none. Commas stand between the fields of a row, and a newline ends it.
pub fn write_csv<W: Write + Drop>(
    editions: &Editions,
    lines: &[Line],
    writer: W,
) -> Result<W, StatementFault>
    ensures { IfOk result (λ written.
        Appends (W.contents writer) (W.contents written) (statement_text editions.now lines.now)) }
{
    let mut rows = Writer::from_writer(writer);
    write_rows(&mut rows, editions, lines)?;
    match rows.into_inner() {
        Ok(writer) => Ok(writer),
        Err(_) => Err(StatementFault::Write),
    }
}

/// Writes the row that names the fields, and the rows of journeys.
fn write_rows<W: Write + Drop>(
    rows: &mut Writer<W>,
    editions: &Editions,
    lines: &[Line],
) -> Result<(), StatementFault>
    requires { IsBetweenRows rows.old }
    ensures { OnOk result (Appends (text_written W.contents rows.old) (text_written W.contents rows.new) (statement_text editions.now lines.now)) }
{
    write_columns(rows)?;
    write_lines(rows, editions, lines)
}

/// Writes the row that names the fields.
fn write_columns<W: Write + Drop>(rows: &mut Writer<W>) -> Result<(), StatementFault>
    requires { IsBetweenRows rows.old }
    ensures between { OnOk result (IsBetweenRows rows.new) }
    ensures text { OnOk result (Appends (text_written W.contents rows.old) (text_written W.contents rows.new) (row columns)) }
{
    write_row(
        rows,
        &[b"day", b"kind", b"from", b"to", b"start", b"fare", b"band"],
    )
}

/// Writes the rows of journeys, in their order.
fn write_lines<W: Write + Drop>(
    rows: &mut Writer<W>,
    editions: &Editions,
    lines: &[Line],
) -> Result<(), StatementFault>
    requires { IsBetweenRows rows.old }
    ensures between { OnOk result (IsBetweenRows rows.new) }
    ensures text { OnOk result (Appends (text_written W.contents rows.old) (text_written W.contents rows.new) (rows_of_lines editions.now lines.now)) }
{
    for line in lines {
        write_line(rows, editions, line)?;
    }
    Ok(())
}

/// Writes the row of a journey.
fn write_line<W: Write + Drop>(
    rows: &mut Writer<W>,
    editions: &Editions,
    line: &Line,
) -> Result<(), StatementFault>
    requires { IsBetweenRows rows.old }
    ensures between { OnOk result (IsBetweenRows rows.new) }
    ensures text { OnOk result (Appends (text_written W.contents rows.old) (text_written W.contents rows.new) (row (fields_of_line editions.now line.now))) }
{
    let day = number(u64::from(line.day));
    let from = number(u64::from(line.from));
    let to = number(u64::from(line.to));
    let start = time_of_day(line.second);
    let fare = number(line.fare.pence());
    let band = band_name(editions.on(line.day), line.band);
    write_row(
        rows,
        &[
            day.as_slice(),
            line.kind.word(),
            from.as_slice(),
            to.as_slice(),
            start.as_slice(),
            fare.as_slice(),
            band.as_slice(),
        ],
    )
}

/// Writes a row of these fields.
fn write_row<W: Write + Drop>(rows: &mut Writer<W>, fields: &[&[u8]]) -> Result<(), StatementFault>
    requires { IsBetweenRows rows.old }
    ensures between { OnOk result (IsBetweenRows rows.new) }
    ensures text { OnOk result (Appends (text_written W.contents rows.old) (text_written W.contents rows.new) (row_text default_writer (map (λ f. f.now) fields.now))) }
{
    rows.write_fields(fields)?;
    Ok(())
}
