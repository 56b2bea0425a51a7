//! The last posting, as it is noted beside a journal.
ghost use Rattle.std.specs.Prelude.{◌≡◌, true, None, IfOk, IfSome};
ghost use Rattle.std.specs.String.{string_bytes};
ghost use Rattle.pay_ledger.specs.Words.{ChangesNothing, AnswersOfLedger, RefusesOfLedger, AnswersOfRows, RefusesOfRows, has_posting, has_row};
ghost use Rattle.pay_jobs.specs.Last.{IsLacking, posting_text};

use crate::fault::{Fault, FileFault};
use pay_ledger::{LastPosting, Ledger};
use sqlite::Alter;
use std::alloc::{AllocError, Global};

/// A posting as it is noted: a line with the account, the week, the day through which it is, the version, and its number in the ledger, if
/// that is known.
pub fn text_of_posting(alloc: Global, posting: &LastPosting) -> Result<String, AllocError>
    ensures { IfOk result (λ text. string_bytes text ≡ posting_text posting.now) }
{
    let LastPosting {
        account,
        week,
        through,
        version,
        id,
    } = *posting;
    let mut text = String::new(alloc);
    match id {
        Some(id) => write!(text, "{account} {week} {through} {version} {id}\n")?,
        None => write!(text, "{account} {week} {through} {version}\n")?,
    }
    Ok(text)
}

/// The numbers of a line: five, or four of an earlier version, which did not note the number in the ledger.
fn numbers_of(text: &str) -> Option<LastPosting> {
    let (account, rest) = text.strip_suffix('\n')?.split_once(' ')?;
    let (week, rest) = rest.split_once(' ')?;
    let (through, rest) = rest.split_once(' ')?;
    let (version, id) = match rest.split_once(' ') {
        Some((version, id)) => (version, Some(id.parse().ok()?)),
        None => (rest, None),
    };
    Some(LastPosting {
        account: account.parse().ok()?,
        week: week.parse().ok()?,
        through: through.parse().ok()?,
        version: version.parse().ok()?,
        id,
    })
}

/// The posting that a text notes, if it notes one.
pub fn posting_of_text(alloc: Global, text: &str) -> Result<Option<LastPosting>, AllocError>
    ensures { IfOk result (λ found. IfSome found (λ posting. text.now ≡ posting_text posting)) }
{
    let Some(posting) = numbers_of(text) else {
        return Ok(None);
    };
    let same = text_of_posting(alloc, &posting)?;
    if same.as_str() != text {
        return Ok(None);
    }
    Ok(Some(posting))
}

/// That a ledger has the posting that is noted beside its journal, or why it is not taken.
pub fn take_noted<S: Alter>(ledger: &mut Ledger<S>, noted: &LastPosting) -> Result<(), Fault>
    ensures known { AnswersOfRows S.Store ledger.old ledger.new result (λ rows _. has_row noted.now rows ≡ true) }
    ensures made { AnswersOfLedger S.Store ledger.old ledger.new result (λ parts _. has_posting noted.now parts.postings ≡ true) }
    ensures lacks { RefusesOfRows S.Store ledger.old ledger.new result (λ rows fault. IsLacking noted.now fault (has_row noted.now rows)) }
    ensures not_made { RefusesOfLedger S.Store ledger.old ledger.new result (λ parts fault. noted.now.id ≡ None → IsLacking noted.now fault (has_posting noted.now parts.postings)) }
    ensures unchanged { ChangesNothing S.Store ledger.old ledger.new }
{
    match ledger.has(noted) {
        Ok(true) => Ok(()),
        Ok(false) => Err(Fault::File(FileFault::LacksPosting {
            account: noted.account,
            week: noted.week,
            through: noted.through,
        })),
        Err(fault) => Err(Fault::from(fault)),
    }
}
