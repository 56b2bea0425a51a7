//! What an account has accepted by journals, which all that is told of it is made of.
ghost use Rattle.std.specs.Prelude.{◌≡◌, ◌+◌, length, map as each, vec_items, IfOk, IfErr};
ghost use Rattle.pay_explain_job.specs.Accounts.{IsAccount, given};
ghost use Rattle.pay_explain_job.specs.Explain.{IsNotExplained};

use crate::sets::{fix_set, sets_of, tap_set};
use pay_fix::FixSet;
use pay_jobs::{Fault, begin_service, replayed_texts};
use pay_names::{Called, called_in};
use pay_rules::Sets;
use pay_run::replayed_lines;
use pay_tables::Editions;
use pay_taps::TapSet;
use std::alloc::Global;
use std::sync::Arc;

/// An account by its journals.
#[derive(Drop)]
pub(crate) struct Account {
    /// What the fare file calls places and operators, and its currency.
    pub called: Called,
    /// The fare file.
    pub editions: Arc<Editions>,
    /// The taps that the account has accepted.
    pub taps: TapSet,
    /// Its corrections.
    pub fixes: FixSet,
    /// How many taps and corrections these are.
    pub version: usize,
}

/// An account by journals, which are given as texts and replayed one after the other. The fare file is read before the zone, and both
/// before the journals. A line that is not accepted is told by the number of its journal, from 0 on.
pub(crate) fn account_by(
    alloc: Global,
    fares: &str,
    zone: &str,
    texts: &[Vec<u8>],
    account: u32,
) -> Result<Account, Fault>
    ensures account { IfOk result (IsAccount (given fares.now zone.now (each vec_items texts.now)) account) }
    ensures fails { IfErr result (IsNotExplained (given fares.now zone.now (each vec_items texts.now))) }
{
    pay_run::laws::all_else_stays();
    let read = begin_service(alloc, fares, zone)?;
    let editions = Arc::clone(&read.editions)?;
    let replayed = replayed_texts(alloc, read.editions, &read.zone, texts, 0)?;
    // What was replayed is what the shard has.
    replayed_lines(&replayed.0);
    let called = called_in(alloc, fares)?;
    let sets = sets_of(alloc, replayed.0.shard(), account)?;
    let taps = tap_set(alloc, sets.taps())?;
    let fixes = fix_set(alloc, sets.fixes())?;
    Ok(Account {
        called,
        editions,
        taps,
        fixes,
        version: version_of(&sets),
    })
}

/// How many taps and corrections there are.
fn version_of(sets: &Sets) -> usize
    ensures { result ≡ length sets.now.taps + length sets.now.fixes }
{
    sets.taps().len() + sets.fixes().len()
}
