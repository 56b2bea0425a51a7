//! The job `statement`, by the texts of its fare file and its zone: all that the program does below the reading of files.
ghost use Rattle.std.specs.Prelude.{◌≡◌, IfOk, IfErr, OnOk};
ghost use Rattle.pay_wire.specs.Words.{IsFlushed};
ghost use Rattle.std.specs.Arc.{arc_value};
ghost use Rattle.pay_day.specs.Words.{IsDay};
ghost use Rattle.pay_statement.specs.Words.{statement_text};
ghost use Rattle.pay_run.specs.Words.{HasInputFault};
ghost use Rattle.pay_jobs.specs.Faults.{HasCause};
ghost use Rattle.pay_jobs.specs.Texts.{texts};
ghost use Rattle.pay_jobs.specs.Statement.{PageFails, IsPage, StatementWritten, StatementRefused};

use crate::fault::Fault;
use crate::output::write_text;
use crate::run::{read_clock, read_fares};
use pay_book::Book;
use pay_rules::Line;
use pay_run::week_by_lines;
use pay_session::KnownReader;
use pay_statement::write_csv;
use pay_tables::Editions;
use pay_wire::KnownWriter;
use std::alloc::{AllocError, Global};
use std::sync::Arc;

/// Writes the statement of the week that holds a service day, counted from 1970-01-01, of an account that has accepted what a
/// journal has, and then what the lines of a reader ask for. The fare file is read before the zone, then the journal, all three
/// before the first line, and all of them before anything is written.
pub fn statement_texts<R: KnownReader, W: KnownWriter>(
    alloc: Global,
    fares: &str,
    zone: &str,
    past: &[u8],
    account: u32,
    day: u32,
    reader: &mut R,
    writer: &mut W,
) -> Result<(), Fault>
    requires { IsDay day }
    ensures ends { OnOk result (StatementWritten (texts fares.now zone.now past.now) (account, day) (R.remaining reader.old, W.contents writer.old)
        (R.remaining reader.new, W.contents writer.new)) }
    ensures fails { IfErr result (StatementRefused (texts fares.now zone.now past.now) (account, day) (R.remaining reader.old, W.contents writer.old)
        (R.remaining reader.new, W.contents writer.new)) }
    ensures flushed { OnOk result (IsFlushed W.MayAnswer writer.new) }
    ensures cause { IfErr result (λ fault. HasCause R.MayAnswer W.MayAnswer fault reader.old reader.new writer.new) }
{
    let page = read_page(alloc, fares, zone, past, account, day, reader)?;
    write_text(writer, &page)
}

/// The text of the statement.
fn read_page<R: KnownReader>(
    alloc: Global,
    fares: &str,
    zone: &str,
    past: &[u8],
    account: u32,
    day: u32,
    reader: &mut R,
) -> Result<Vec<u8>, Fault>
    requires { IsDay day }
    ensures page { IfOk result (λ page. IsPage (texts fares.now zone.now past.now) (account, day) (R.remaining reader.old, R.remaining reader.new) page.items) }
    ensures fails { IfErr result (λ fault. PageFails fault (texts fares.now zone.now past.now) (R.remaining reader.old, R.remaining reader.new)) }
    ensures cause { IfErr result (λ fault. fault ≡ Fault.Input → HasInputFault R.MayAnswer reader.old reader.new) }
{
    pay_run::laws::all_else_stays();
    let editions = read_fares(alloc, fares)?;
    let zone = read_clock(alloc, zone)?;
    let shared = share(&editions)?;
    let lines = week_by_lines::<Book, R>(alloc, reader, &zone, shared, past, account, day)?;
    let page = page_of(alloc, &editions, lines.as_slice())?;
    Ok(page)
}

/// The same editions once more.
fn share(editions: &Arc<Editions>) -> Result<Arc<Editions>, AllocError>
    ensures { IfOk result (λ shared. arc_value shared ≡ arc_value editions.now) }
{
    Arc::clone(editions)
}

/// The text of the statement of journeys.
fn page_of(alloc: Global, editions: &Editions, lines: &[Line]) -> Result<Vec<u8>, AllocError>
    ensures { IfOk result (λ page. page.items ≡ statement_text editions.now lines.now) }
{
    // A vector takes all bytes, as far as there is memory.
    match write_csv(editions, lines, Vec::new(alloc)) {
        Ok(page) => Ok(page),
        Err(_) => Err(AllocError),
    }
}
