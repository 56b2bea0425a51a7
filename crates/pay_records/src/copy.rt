ghost use Rattle.std.specs.Prelude.{◌≡◌};
ghost use Rattle.pay_records.specs.Calls.{LeavesAsBefore, CommitsNothing, Does};
ghost use Rattle.pay_records.specs.Copied.{SetsVersion, CopiesPostings, CopiesShares, Upgrades};
ghost use Rattle.pay_records.specs.Free.{new_tables};
ghost use Rattle.pay_records.specs.Steps.{Makes};

use crate::tables::{make_postings, make_shares};
use sqlite::{Alter, Error, Transaction};

/// Sets the version in the one row of `meta`.
fn set_version<S: Alter>(tx: &mut Transaction<'_, S>) -> Result<usize, Error>
    ensures same_reference { tx.new.conn.ghost_name ≡ tx.old.conn.ghost_name }
    ensures made { Does S.Store tx.old.conn.now tx.new.conn.now result SetsVersion }
    ensures unchanged { CommitsNothing S.Store tx.old.conn.now tx.new.conn.now }
    ensures survives { LeavesAsBefore S.Store tx.old.conn.now tx.new.conn.now }
{
    tx.execute("UPDATE meta SET version = 2", &[])
}

/// Makes the two tables that version 1 does not have.
fn make_new<S: Alter>(tx: &mut Transaction<'_, S>) -> Result<(), Error>
    ensures same_reference { tx.new.conn.ghost_name ≡ tx.old.conn.ghost_name }
    ensures made { Does S.Store tx.old.conn.now tx.new.conn.now result (λ old new. Makes new_tables old new 0 2) }
    ensures unchanged { CommitsNothing S.Store tx.old.conn.now tx.new.conn.now }
    ensures survives { LeavesAsBefore S.Store tx.old.conn.now tx.new.conn.now }
{
    make_postings(tx)?;
    make_shares(tx)?;
    Ok(())
}

/// Copies each posting, with its number and edition 0.
fn copy_postings<S: Alter>(tx: &mut Transaction<'_, S>) -> Result<usize, Error>
    ensures same_reference { tx.new.conn.ghost_name ≡ tx.old.conn.ghost_name }
    ensures made { Does S.Store tx.old.conn.now tx.new.conn.now result CopiesPostings }
    ensures unchanged { CommitsNothing S.Store tx.old.conn.now tx.new.conn.now }
    ensures survives { LeavesAsBefore S.Store tx.old.conn.now tx.new.conn.now }
{
    tx.execute(
        "INSERT INTO postings2 (edition, id, account, week, through, version, due, amount) SELECT 0, id, account, week, through, version, due, amount FROM postings ORDER BY id",
        &[],
    )
}

/// Copies each share, in the order in which they were written.
fn copy_shares<S: Alter>(tx: &mut Transaction<'_, S>) -> Result<usize, Error>
    ensures same_reference { tx.new.conn.ghost_name ≡ tx.old.conn.ghost_name }
    ensures made { Does S.Store tx.old.conn.now tx.new.conn.now result CopiesShares }
    ensures unchanged { CommitsNothing S.Store tx.old.conn.now tx.new.conn.now }
    ensures survives { LeavesAsBefore S.Store tx.old.conn.now tx.new.conn.now }
{
    tx.execute(
        "INSERT INTO shares2 (posting, operator, amount) SELECT posting, operator, amount FROM shares ORDER BY rowid",
        &[],
    )
}

/// Makes a ledger of version 2 of one of version 1: `postings` and `shares` stay as they stood, and are not read again.
pub fn upgrade<S: Alter>(tx: &mut Transaction<'_, S>) -> Result<(), Error>
    ensures same_reference { tx.new.conn.ghost_name ≡ tx.old.conn.ghost_name }
    ensures upgraded { Does S.Store tx.old.conn.now tx.new.conn.now result Upgrades }
    ensures unchanged { CommitsNothing S.Store tx.old.conn.now tx.new.conn.now }
    ensures survives { LeavesAsBefore S.Store tx.old.conn.now tx.new.conn.now }
{
    set_version(tx)?;
    make_new(tx)?;
    copy_postings(tx)?;
    copy_shares(tx)?;
    Ok(())
}
