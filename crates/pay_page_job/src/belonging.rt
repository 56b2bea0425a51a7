//! Whose postings they are.
ghost use Rattle.std.specs.Prelude.{◌≡◌};
ghost use Rattle.pay_page.specs.Words.{is_of_ledger};
ghost use Rattle.pay_page_job.specs.Followed.{AreOfWeek, are_of};

use pay_page::Posted;
use pay_rules::Posting;

/// Whether postings are all of an account and a week.
fn are_of(account: u32, week: u32, postings: &[Posting]) -> bool
    ensures { result ≡ are_of account week postings.now }
{
    for posting in postings {
        if posting.quote.account() != account || posting.quote.week() != week {
            return false;
        }
    }
    true
}

/// What was posted, if it is of this account and week; and else it is not known.
pub(crate) fn of_week(account: u32, week: u32, posted: Posted) -> Posted
    ensures same { is_of_ledger result ≡ is_of_ledger posted }
    ensures of_week { AreOfWeek account week result }
{
    match posted {
        Posted::NoLedger => Posted::NoLedger,
        Posted::Unknown => Posted::Unknown,
        Posted::Known(postings) => {
            if are_of(account, week, postings.as_slice()) {
                Posted::Known(postings)
            } else {
                Posted::Unknown
            }
        }
    }
}
