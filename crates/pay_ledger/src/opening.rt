ghost use Rattle.std.specs.Prelude.{◌≡◌, false};
ghost use Rattle.pay_records.specs.Words.{LeavesAsBeforeOr, LeavesAsBefore, CommitsNothing, StaysInside, MakesLedger, Upgrades, Refuses, Does};
ghost use Rattle.pay_ledger.specs.Opening.{HasNoView, readying_of, IsReadied, IsWhyNot, IsOpened, MayLeaveOpened, BlankJustGrows};
ghost use Rattle.pay_ledger.specs.Steps.{IsStep};
ghost use Rattle.pay_ledger.specs.Calls.{ChangesNothingIfRefused};

use crate::fault::OpenFault;
use pay_records::{DatabaseKind, has_view, kind_of, make, upgrade};
use sqlite::{Alter, Connection, Error, Transaction};

/// What there is to do to a database for it to be a ledger.
#[derive(Clone, Copy)]
pub(crate) enum Readying {
    /// Its tables are made.
    Make,
    /// It is one of version 1: what was posted is copied into the tables of version 2.
    Upgrade,
    /// Nothing.
    Keep,
}

/// What there is to do to a database of a kind, or why it is not opened.
fn readying_of(kind: DatabaseKind) -> Result<Readying, OpenFault>
    ensures { result ≡ readying_of kind }
{
    match kind {
        DatabaseKind::Blank => Ok(Readying::Make),
        DatabaseKind::First => Ok(Readying::Upgrade),
        DatabaseKind::Ledger => Ok(Readying::Keep),
        DatabaseKind::Version => Err(OpenFault::Version),
        DatabaseKind::Other => Err(OpenFault::NotALedger),
    }
}

/// Does it.
fn change<S: Alter>(tx: &mut Transaction<'_, S>, readying: Readying) -> Result<(), Error>
    ensures same_reference { tx.new.conn.ghost_name ≡ tx.old.conn.ghost_name }
    ensures made { readying ≡ Readying.Make → Does S.Store tx.old.conn.now tx.new.conn.now result MakesLedger }
    ensures upgraded { readying ≡ Readying.Upgrade → Does S.Store tx.old.conn.now tx.new.conn.now result Upgrades }
    ensures kept { readying ≡ Readying.Keep → tx.new.conn.now ≡ tx.old.conn.now }
    ensures inside { StaysInside S.Store tx.old.conn.now tx.new.conn.now result }
    ensures unchanged { CommitsNothing S.Store tx.old.conn.now tx.new.conn.now }
    ensures survives { LeavesAsBefore S.Store tx.old.conn.now tx.new.conn.now }
{
    match readying {
        Readying::Make => make(tx),
        Readying::Upgrade => upgrade(tx),
        Readying::Keep => Ok(()),
    }
}

/// Makes it a ledger, in a transaction that is not committed yet.
fn ready<S: Alter>(tx: &mut Transaction<'_, S>) -> Result<(), OpenFault>
    ensures step { IsStep S.Store tx.old.conn tx.new.conn result }
    ensures readied { Does S.Store tx.old.conn.now tx.new.conn.now result (λ old new. IsReadied old.now new.now) }
    ensures refused { Refuses S.Store tx.old.conn.now tx.new.conn.now result (λ old _ fault. IsWhyNot fault old.now) }
{
    let kind = kind_of(tx)?;
    let readying = readying_of(kind)?;
    change(tx, readying)?;
    Ok(())
}

/// Makes the tables, if none is there, or copies those of version 1, in one transaction.
fn prepare_tables<S: Alter>(conn: &mut Connection<S>) -> Result<(), OpenFault>
    requires { conn.old.in_transaction ≡ false }
    ensures autocommit { conn.new.in_transaction ≡ false }
    ensures opened { Does S.Store conn.old conn.new result IsOpened }
    ensures grows { Does S.Store conn.old conn.new result (λ old new. BlankJustGrows old.now new.now) }
    ensures refused { Refuses S.Store conn.old conn.new result (λ old _ fault. IsWhyNot fault old.now) }
    ensures unchanged { ChangesNothingIfRefused S.Store conn.old conn.new result }
    ensures survives { LeavesAsBeforeOr S.Store conn.old conn.new MayLeaveOpened }
{
    let _ = conn.is_autocommit();
    let mut tx = conn.transaction();
    ready(&mut tx)?;
    tx.commit()?;
    Ok(())
}

/// Opens a database as a ledger, which is made in one transaction where there is none, or where it is one of version 1.
pub(crate) fn prepare<S: Alter>(conn: &mut Connection<S>) -> Result<(), OpenFault>
    requires { conn.old.in_transaction ≡ false }
    ensures autocommit { conn.new.in_transaction ≡ false }
    ensures opened { Does S.Store conn.old conn.new result IsOpened }
    ensures grows { Does S.Store conn.old conn.new result (λ old new. BlankJustGrows old.now new.now) }
    ensures no_view { Does S.Store conn.old conn.new result (λ old _. HasNoView old.now) }
    ensures refused { Refuses S.Store conn.old conn.new result (λ old _ fault. IsWhyNot fault old.now) }
    ensures unchanged { ChangesNothingIfRefused S.Store conn.old conn.new result }
    ensures survives { LeavesAsBeforeOr S.Store conn.old conn.new MayLeaveOpened }
{
    if has_view(conn) {
        return Err(OpenFault::NotALedger);
    }
    prepare_tables(conn)
}
