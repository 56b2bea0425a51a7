ghost use Rattle.std.specs.Prelude.{◌≡◌};
ghost use Rattle.pay_records.specs.Steps.{Makes, Begins, MakesLedger};
ghost use Rattle.pay_records.specs.Free.{ledger_tables, new_tables};
ghost use Rattle.pay_records.specs.Calls.{LeavesAsBefore, CommitsNothing, Does};

use sqlite::{Alter, Error, Transaction};

fn make_meta<S: Alter>(tx: &mut Transaction<'_, S>) -> Result<usize, Error>
    ensures same_reference { tx.new.conn.ghost_name ≡ tx.old.conn.ghost_name }
    ensures made { Does S.Store tx.old.conn.now tx.new.conn.now result (λ old new. Makes ledger_tables old new 0 1) }
    ensures unchanged { CommitsNothing S.Store tx.old.conn.now tx.new.conn.now }
    ensures survives { LeavesAsBefore S.Store tx.old.conn.now tx.new.conn.now }
{
    tx.execute(
        "CREATE TABLE meta (name TEXT NOT NULL PRIMARY KEY, version INTEGER NOT NULL) STRICT",
        &[],
    )
}

pub(crate) fn make_postings<S: Alter>(tx: &mut Transaction<'_, S>) -> Result<usize, Error>
    ensures same_reference { tx.new.conn.ghost_name ≡ tx.old.conn.ghost_name }
    ensures made { Does S.Store tx.old.conn.now tx.new.conn.now result (λ old new. Makes ledger_tables old new 1 2) }
    ensures added { Does S.Store tx.old.conn.now tx.new.conn.now result (λ old new. Makes new_tables old new 0 1) }
    ensures unchanged { CommitsNothing S.Store tx.old.conn.now tx.new.conn.now }
    ensures survives { LeavesAsBefore S.Store tx.old.conn.now tx.new.conn.now }
{
    tx.execute(
        "CREATE TABLE postings2 (id INTEGER PRIMARY KEY AUTOINCREMENT, account INTEGER NOT NULL, week INTEGER NOT NULL, through INTEGER NOT NULL, version INTEGER NOT NULL, due INTEGER NOT NULL, amount INTEGER NOT NULL, edition INTEGER NOT NULL, UNIQUE (account, week, through, version)) STRICT",
        &[],
    )
}

pub(crate) fn make_shares<S: Alter>(tx: &mut Transaction<'_, S>) -> Result<usize, Error>
    ensures same_reference { tx.new.conn.ghost_name ≡ tx.old.conn.ghost_name }
    ensures made { Does S.Store tx.old.conn.now tx.new.conn.now result (λ old new. Makes ledger_tables old new 2 3) }
    ensures added { Does S.Store tx.old.conn.now tx.new.conn.now result (λ old new. Makes new_tables old new 1 2) }
    ensures unchanged { CommitsNothing S.Store tx.old.conn.now tx.new.conn.now }
    ensures survives { LeavesAsBefore S.Store tx.old.conn.now tx.new.conn.now }
{
    tx.execute(
        "CREATE TABLE shares2 (posting INTEGER NOT NULL REFERENCES postings2 (id), operator INTEGER NOT NULL, amount INTEGER NOT NULL, PRIMARY KEY (posting, operator)) STRICT",
        &[],
    )
}

fn make_taps<S: Alter>(tx: &mut Transaction<'_, S>) -> Result<usize, Error>
    ensures same_reference { tx.new.conn.ghost_name ≡ tx.old.conn.ghost_name }
    ensures made { Does S.Store tx.old.conn.now tx.new.conn.now result (λ old new. Makes ledger_tables old new 3 4) }
    ensures unchanged { CommitsNothing S.Store tx.old.conn.now tx.new.conn.now }
    ensures survives { LeavesAsBefore S.Store tx.old.conn.now tx.new.conn.now }
{
    tx.execute(
        "CREATE TABLE taps (account INTEGER NOT NULL, reader INTEGER NOT NULL, seq INTEGER NOT NULL, utc INTEGER NOT NULL, day INTEGER NOT NULL, second INTEGER NOT NULL, place INTEGER NOT NULL, kind INTEGER NOT NULL, PRIMARY KEY (account, reader, seq)) STRICT",
        &[],
    )
}

fn make_fixes<S: Alter>(tx: &mut Transaction<'_, S>) -> Result<usize, Error>
    ensures same_reference { tx.new.conn.ghost_name ≡ tx.old.conn.ghost_name }
    ensures made { Does S.Store tx.old.conn.now tx.new.conn.now result (λ old new. Makes ledger_tables old new 4 5) }
    ensures unchanged { CommitsNothing S.Store tx.old.conn.now tx.new.conn.now }
    ensures survives { LeavesAsBefore S.Store tx.old.conn.now tx.new.conn.now }
{
    tx.execute(
        "CREATE TABLE fixes (account INTEGER NOT NULL, staff INTEGER NOT NULL, seq INTEGER NOT NULL, what INTEGER NOT NULL, a INTEGER NOT NULL, b INTEGER NOT NULL, c INTEGER NOT NULL, d INTEGER NOT NULL, e INTEGER NOT NULL, PRIMARY KEY (account, staff, seq)) STRICT",
        &[],
    )
}

fn add_meta<S: Alter>(tx: &mut Transaction<'_, S>) -> Result<usize, Error>
    ensures same_reference { tx.new.conn.ghost_name ≡ tx.old.conn.ghost_name }
    ensures made { Does S.Store tx.old.conn.now tx.new.conn.now result Begins }
    ensures unchanged { CommitsNothing S.Store tx.old.conn.now tx.new.conn.now }
    ensures survives { LeavesAsBefore S.Store tx.old.conn.now tx.new.conn.now }
{
    tx.execute(
        "INSERT INTO meta (name, version) VALUES ('farebox', 2)",
        &[],
    )
}

fn make_first<S: Alter>(tx: &mut Transaction<'_, S>) -> Result<(), Error>
    ensures same_reference { tx.new.conn.ghost_name ≡ tx.old.conn.ghost_name }
    ensures made { Does S.Store tx.old.conn.now tx.new.conn.now result (λ old new. Makes ledger_tables old new 0 3) }
    ensures unchanged { CommitsNothing S.Store tx.old.conn.now tx.new.conn.now }
    ensures survives { LeavesAsBefore S.Store tx.old.conn.now tx.new.conn.now }
{
    make_meta(tx)?;
    make_postings(tx)?;
    make_shares(tx)?;
    Ok(())
}

/// Makes the five tables, and the row that says what they are.
pub fn make<S: Alter>(tx: &mut Transaction<'_, S>) -> Result<(), Error>
    ensures same_reference { tx.new.conn.ghost_name ≡ tx.old.conn.ghost_name }
    ensures made { Does S.Store tx.old.conn.now tx.new.conn.now result MakesLedger }
    ensures unchanged { CommitsNothing S.Store tx.old.conn.now tx.new.conn.now }
    ensures survives { LeavesAsBefore S.Store tx.old.conn.now tx.new.conn.now }
{
    make_first(tx)?;
    make_taps(tx)?;
    make_fixes(tx)?;
    add_meta(tx)?;
    Ok(())
}
