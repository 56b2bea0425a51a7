ghost use Rattle.std.specs.Prelude.{◌≡◌, false, [], IsOkUnless};
ghost use Rattle.sqlite.specs.Held.{state};
ghost use Rattle.pay_records.specs.Kinds.{is_there, together, told_by, shared_in, first_in, second_in, tables_in, is_view, has_shared_view, has_own_view, has_view};
ghost use Rattle.pay_records.specs.Kinds.{first_by, second_by, kind_of_version, kind_by, kind_without, IsKindOf, IsOfKind};
ghost use Rattle.pay_records.specs.Free.{IsFree};
ghost use Rattle.pay_records.specs.Calls.{LeavesAsBefore, CommitsNothing, CommitsNothingInside, StaysInside, Answers, SeesInSchema, SeesNoTables, FindsInRows, FindsInFirst};

use crate::fault::ReadFault;
use crate::read::query;
use sqlite::types::ValueRef;
use sqlite::{Alter, Connection, Error, Row, Statement, Transaction};
use sqlite_resolve::CompileError;
use sqlite_schema::schema::Schema;

/// What a database is to a ledger.
#[derive(Clone, Copy)]
pub enum DatabaseKind {
    /// None of the seven tables of either version is there.
    Blank,
    /// A ledger of version 1.
    First,
    /// A ledger of version 2.
    Ledger,
    /// A ledger of another version.
    Version,
    /// Anything else.
    Other,
}

/// Whether tables are there, with their columns.
#[derive(Clone, Copy)]
pub(crate) enum Presence {
    /// None is.
    Missing,
    /// All are.
    There,
    /// Some are, or not all of their columns.
    Partly,
}

impl Presence {
    /// Of these and others.
    fn with(self, other: Presence) -> Presence
        ensures { result ≡ together self other }
    {
        if self == other {
            self
        } else {
            Presence::Partly
        }
    }
}

/// Which of the seven tables are there.
#[derive(Clone, Copy)]
pub(crate) struct Presences {
    /// Those of both versions: `meta`, `taps` and `fixes`.
    pub(crate) shared: Presence,
    /// Those of version 1 alone: `postings` and `shares`.
    pub(crate) first: Presence,
    /// Those of version 2 alone: `postings2` and `shares2`.
    pub(crate) second: Presence,
}

/// What it tells of a table that a query of it was prepared, or was not.
fn told_by(prepared: &Result<Statement, Error>) -> Result<Presence, ReadFault>
    ensures value { result ≡ told_by prepared.now }
    ensures store { IsOkUnless result ReadFault.Store }
{
    match prepared {
        Ok(_) => Ok(Presence::There),
        Err(Error::SqlInputError(CompileError::NoSuchTable)) => Ok(Presence::Missing),
        Err(Error::SqlInputError(CompileError::NoSuchColumn)) => Ok(Presence::Partly),
        Err(error) => Err(ReadFault::from(*error)),
    }
}

/// Whether the table that a query reads is there.
fn presence_by<S: Alter>(tx: &mut Transaction<'_, S>, sql: &str) -> Result<Presence, ReadFault>
    ensures same_reference { tx.new.conn.ghost_name ≡ tx.old.conn.ghost_name }
    ensures value { SeesInSchema S.Store tx.old.conn.now tx.new.conn.now result (λ schema. is_there schema sql.now) }
    ensures store { IsOkUnless result ReadFault.Store }
    ensures unchanged { CommitsNothing S.Store tx.old.conn.now tx.new.conn.now }
    ensures survives { LeavesAsBefore S.Store tx.old.conn.now tx.new.conn.now }
{
    let prepared = tx.prepare(sql);
    told_by(&prepared)
}

/// Whether the tables of both versions are there.
fn shared_tables<S: Alter>(tx: &mut Transaction<'_, S>) -> Result<Presence, ReadFault>
    ensures same_reference { tx.new.conn.ghost_name ≡ tx.old.conn.ghost_name }
    ensures value { SeesInSchema S.Store tx.old.conn.now tx.new.conn.now result shared_in }
    ensures store { IsOkUnless result ReadFault.Store }
    ensures unchanged { CommitsNothing S.Store tx.old.conn.now tx.new.conn.now }
    ensures survives { LeavesAsBefore S.Store tx.old.conn.now tx.new.conn.now }
{
    let meta = presence_by(tx, "SELECT name, version FROM meta")?;
    let taps = presence_by(
        tx,
        "SELECT account, reader, seq, utc, day, second, place, kind FROM taps",
    )?;
    let fixes = presence_by(
        tx,
        "SELECT account, staff, seq, what, a, b, c, d, e FROM fixes",
    )?;
    Ok(meta.with(taps).with(fixes))
}

/// Whether those of version 1 alone are there.
fn first_tables<S: Alter>(tx: &mut Transaction<'_, S>) -> Result<Presence, ReadFault>
    ensures same_reference { tx.new.conn.ghost_name ≡ tx.old.conn.ghost_name }
    ensures value { SeesInSchema S.Store tx.old.conn.now tx.new.conn.now result first_in }
    ensures store { IsOkUnless result ReadFault.Store }
    ensures unchanged { CommitsNothing S.Store tx.old.conn.now tx.new.conn.now }
    ensures survives { LeavesAsBefore S.Store tx.old.conn.now tx.new.conn.now }
{
    let postings = presence_by(
        tx,
        "SELECT id, account, week, through, version, due, amount FROM postings",
    )?;
    let shares = presence_by(tx, "SELECT posting, operator, amount FROM shares")?;
    Ok(postings.with(shares))
}

/// Whether those of version 2 alone are there.
fn second_tables<S: Alter>(tx: &mut Transaction<'_, S>) -> Result<Presence, ReadFault>
    ensures same_reference { tx.new.conn.ghost_name ≡ tx.old.conn.ghost_name }
    ensures value { SeesInSchema S.Store tx.old.conn.now tx.new.conn.now result second_in }
    ensures store { IsOkUnless result ReadFault.Store }
    ensures unchanged { CommitsNothing S.Store tx.old.conn.now tx.new.conn.now }
    ensures survives { LeavesAsBefore S.Store tx.old.conn.now tx.new.conn.now }
{
    let postings = presence_by(
        tx,
        "SELECT id, account, week, through, version, due, amount, edition FROM postings2",
    )?;
    let shares = presence_by(tx, "SELECT posting, operator, amount FROM shares2")?;
    Ok(postings.with(shares))
}

/// Which of the seven tables are there.
fn tables<S: Alter>(tx: &mut Transaction<'_, S>) -> Result<Presences, ReadFault>
    ensures same_reference { tx.new.conn.ghost_name ≡ tx.old.conn.ghost_name }
    ensures value { SeesInSchema S.Store tx.old.conn.now tx.new.conn.now result tables_in }
    ensures store { IsOkUnless result ReadFault.Store }
    ensures unchanged { CommitsNothing S.Store tx.old.conn.now tx.new.conn.now }
    ensures survives { LeavesAsBefore S.Store tx.old.conn.now tx.new.conn.now }
{
    let shared = shared_tables(tx)?;
    let first = first_tables(tx)?;
    let second = second_tables(tx)?;
    Ok(Presences {
        shared,
        first,
        second,
    })
}

/// Whether a name is a view's, and no table's.
fn is_view(schema: &Schema, name: &str) -> bool
    ensures { result ≡ is_view schema.now name.now }
{
    let name = name.as_bytes();
    schema.table_named(name).is_none() && schema.view_named(name).is_some()
}

/// Whether one of the names of both versions is.
fn has_shared_view(schema: &Schema) -> bool
    ensures { result ≡ has_shared_view schema.now }
{
    is_view(schema, "meta") || is_view(schema, "taps") || is_view(schema, "fixes")
}

/// Whether one of the names of one version is.
fn has_own_view(schema: &Schema) -> bool
    ensures { result ≡ has_own_view schema.now }
{
    let first = is_view(schema, "postings") || is_view(schema, "shares");
    let second = is_view(schema, "postings2") || is_view(schema, "shares2");
    first || second
}

/// Whether one of the seven names is.
fn has_view_in(schema: &Schema) -> bool
    ensures { result ≡ has_view schema.now }
{
    has_shared_view(schema) || has_own_view(schema)
}

/// Whether a view stands in the place of one of the seven tables. So does a table that SQLite keeps as it is, since it has a trigger.
pub fn has_view<S: Alter>(conn: &Connection<S>) -> bool
    ensures value { result ≡ has_view (state S.Store conn.now).now.schema }
    ensures free { IsFree (state S.Store conn.now).now → result ≡ false }
{
    has_view_in(conn.schema())
}

/// A ledger of version 1 has its two tables, and neither of version 2.
fn first_by(first: Presence, second: Presence) -> DatabaseKind
    ensures { result ≡ first_by first second }
{
    match (first, second) {
        (Presence::There, Presence::Missing) => DatabaseKind::First,
        _ => DatabaseKind::Other,
    }
}

/// A ledger of version 2 has its two tables, whatever there is of version 1.
fn second_by(second: Presence) -> DatabaseKind
    ensures { result ≡ second_by second }
{
    match second {
        Presence::There => DatabaseKind::Ledger,
        _ => DatabaseKind::Other,
    }
}

/// By the version in `meta`.
fn kind_of_version(there: Presences, version: i64) -> DatabaseKind
    ensures { result ≡ kind_of_version there version }
{
    if version == 1 {
        first_by(there.first, there.second)
    } else if version == 2 {
        second_by(there.second)
    } else {
        DatabaseKind::Version
    }
}

/// What the rows of `meta` say, where the tables of both versions are there.
fn kind_by(there: Presences, rows: &[Row]) -> DatabaseKind
    ensures { result ≡ kind_by there rows.now }
{
    if rows.len() != 1 {
        return DatabaseKind::Other;
    }
    match (rows[0].get_ref(0), rows[0].get_ref(1)) {
        (Ok(ValueRef::Text(name)), Ok(ValueRef::Int(version))) if name == b"farebox".as_slice() => {
            kind_of_version(there, version)
        }
        _ => DatabaseKind::Other,
    }
}

/// Where one of the tables of both versions is not there: a ledger can be made where none of the seven is.
fn kind_without(there: Presences) -> DatabaseKind
    ensures { result ≡ kind_without there }
{
    match there.shared.with(there.first.with(there.second)) {
        Presence::Missing => DatabaseKind::Blank,
        _ => DatabaseKind::Other,
    }
}

/// By its tables, and by the rows of `meta`.
fn by_tables<S: Alter>(tx: &mut Transaction<'_, S>) -> Result<DatabaseKind, ReadFault>
    ensures same_reference { tx.new.conn.ghost_name ≡ tx.old.conn.ghost_name }
    ensures value { Answers S.Store tx.old.conn.now tx.new.conn.now result IsKindOf }
    ensures inside { StaysInside S.Store tx.old.conn.now tx.new.conn.now result }
    ensures store { IsOkUnless result ReadFault.Store }
    ensures unchanged { CommitsNothingInside S.Store tx.old.conn.now tx.new.conn.now }
    ensures survives { LeavesAsBefore S.Store tx.old.conn.now tx.new.conn.now }
{
    let there = tables(tx)?;
    match there.shared {
        Presence::There => Ok(kind_by(there, &query(tx, "SELECT name, version FROM meta", &[])?)),
        _ => Ok(kind_without(there)),
    }
}

/// What a database is to a ledger.
pub fn kind_of<S: Alter>(tx: &mut Transaction<'_, S>) -> Result<DatabaseKind, ReadFault>
    ensures same_reference { tx.new.conn.ghost_name ≡ tx.old.conn.ghost_name }
    ensures value { Answers S.Store tx.old.conn.now tx.new.conn.now result (λ old _ kind. IsOfKind old.now kind) }
    ensures blank { SeesNoTables S.Store tx.old.conn.now tx.new.conn.now result DatabaseKind.Blank }
    ensures ledger { FindsInRows S.Store tx.old.conn.now tx.new.conn.now result (λ _ kind. kind ≡ DatabaseKind.Ledger) }
    ensures first { FindsInFirst S.Store tx.old.conn.now tx.new.conn.now result (λ _ kind. kind ≡ DatabaseKind.First) }
    ensures inside { StaysInside S.Store tx.old.conn.now tx.new.conn.now result }
    ensures store { IsOkUnless result ReadFault.Store }
    ensures unchanged { CommitsNothingInside S.Store tx.old.conn.now tx.new.conn.now }
    ensures survives { LeavesAsBefore S.Store tx.old.conn.now tx.new.conn.now }
{
    by_tables(tx)
}
