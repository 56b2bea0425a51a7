//! What was posted for an account and week, and what is due for it.
ghost use Rattle.std.specs.Prelude.{◌≡◌, ◌≤◌, ◌↔◌, ◌++◌, ◌+ℤ◌, ℕ, List, Some, map, pos, sum, FitsSigned, IfOk, IfErr, IfSome};
ghost use Rattle.std.specs.Int.{w64};
ghost use Rattle.std.specs.List.{Contains, filter_map};
ghost use Rattle.std.specs.List.Sorted.{IsStrictlySortedBy};
ghost use Rattle.std.specs.Ordering.{nat_cmp};
ghost use Rattle.pay_day.specs.Words.{IsDay, monday};
ghost use Rattle.pay_money.specs.declared.limits.TheConstants.{MOST_MONEY};
ghost use Rattle.pay_rules.specs.declared.posting.Posting.{Posting};
ghost use Rattle.pay_records.specs.Words.{LeavesAsBefore};
ghost use Rattle.pay_ledger.specs.Words.{ReadsAs, AnswersOfLedger, AnswersOfRows, FailsByStoreAlone, RefusesBadRows, ChangesNothing};
ghost use Rattle.pay_audit.specs.Settled.{nothing_posted, net_of, with_posting, so_far, ComeTooFar, posted_for, is_as_posted, other_due, unsettled, day_of, IsWeekOf};

use pay_day::monday;
use pay_ledger::{Ledger, LedgerFault};
use pay_money::Pence;
use pay_money::limits::OPERATORS;
use pay_rules::{Fares, Fix, PostFault, Posting, Quote, Tap, What};
use pay_tables::Editions;
use sqlite::Alter;
use std::alloc::{AllocError, Global};

/// What was charged for an account and week less what was given back, in pence.
#[derive(Clone, Copy, Debug, PartialEq, Eq)]
pub struct PostedSums {
    /// The sum of the amounts.
    pub net: i64,
    /// What of it fell to each operator, operator 1 first: the sum of its share amounts.
    pub shares: [i64; OPERATORS],
}

impl PostedSums {
    /// Nothing was posted.
    pub fn none() -> PostedSums
        ensures { result ≡ nothing_posted }
    {
        PostedSums {
            net: 0,
            shares: [0; OPERATORS],
        }
    }
}

/// What was posted for an account and week so far.
#[derive(Clone, Copy, Debug, PartialEq, Eq)]
pub struct PostedSoFar {
    /// The day through which the last posting is, counted from 1970-01-01.
    pub through: u32,
    /// What the postings come to.
    pub sums: PostedSums,
}

/// Shares as amounts.
fn as_amounts(shares: &[u64; OPERATORS]) -> [i64; OPERATORS]
    requires { sum shares.now ≤ MOST_MONEY }
    ensures { result ≡ map pos shares.now }
{
    let mut amounts = [0; OPERATORS];
    for place in 0..OPERATORS {
        amounts[place] = shares[place] as i64;
    }
    amounts
}

/// What of a quote falls to each operator, as amounts.
fn shares_of(quote: &Quote) -> [i64; OPERATORS]
    ensures { result ≡ map pos quote.now.shares }
{
    // For the range of the shares.
    let _ = quote.due();
    as_amounts(quote.shares())
}

/// What was posted so far, with a further posting. `BadArchive` where the sum has no 64 bits.
fn with_posting(before: Option<PostedSoFar>, posting: &Posting) -> Result<PostedSoFar, PostFault>
    ensures value { IfOk result (λ it. Some it ≡ with_posting before posting.now) }
    ensures is_day { IfOk result (λ it. IsDay it.through) }
    ensures too_far { IfErr result (λ fault. (fault ≡ PostFault.BadArchive) × (FitsSigned w64 (net_of before +ℤ posting.now.amount) → ⊥)) }
{
    let net = match before {
        Some(it) => it.sums.net,
        None => 0,
    };
    let Some(net) = net.checked_add(posting.amount) else {
        return Err(PostFault::BadArchive);
    };
    Ok(PostedSoFar {
        through: posting.quote.through(),
        sums: PostedSums {
            net,
            // What a posting is read as: what fell to each operator up to it is its quote's share.
            shares: shares_of(&posting.quote),
        },
    })
}

/// What these postings come to.
fn so_far(postings: &[Posting]) -> Result<Option<PostedSoFar>, PostFault>
    ensures value { IfOk result (λ it. it ≡ so_far postings.now) }
    ensures is_day { IfOk result (λ posted. IfSome posted (λ it. IsDay it.through)) }
    ensures too_far { IfErr result (λ fault. (fault ≡ PostFault.BadArchive) × ComeTooFar postings.now) }
{
    let mut posted = None;
    for posting in postings {
        posted = Some(with_posting(posted, posting)?);
    }
    Ok(posted)
}

/// What was posted for an account and a week, which its Monday names; `None` where nothing was. `BadArchive` where rows of the account's
/// postings are bad.
pub fn posted_for<S: Alter>(
    ledger: &mut Ledger<S>,
    account: u32,
    week: u32,
) -> Result<Option<PostedSoFar>, LedgerFault>
    ensures told { AnswersOfLedger S.Store ledger.old ledger.new result (λ it posted. posted ≡ posted_for account week it.postings) }
    ensures never_bad { FailsByStoreAlone S.Store ledger.old ledger.new result }
    ensures read { AnswersOfRows S.Store ledger.old ledger.new result (λ rows posted. (all : List Posting) × ReadsAs rows account (Some all) × (posted ≡ posted_for account week all)) }
    ensures bad { RefusesBadRows S.Store ledger.old ledger.new result account }
    // So what is due through it may be asked, whatever the store gives.
    ensures is_day { IfOk result (λ posted. IfSome posted (λ it. IsDay it.through)) }
    ensures unchanged { ChangesNothing S.Store ledger.old ledger.new }
    ensures survives { LeavesAsBefore S.Store ledger.old ledger.new }
{
    pay_postings::laws::net_of_rows();
    let postings = ledger.postings(account, week)?;
    Ok(so_far(postings.as_slice())?)
}

/// Whether as much was posted as is due, and for each operator as much as its share.
fn is_as_posted(quote: &Quote, posted: &PostedSums) -> bool
    ensures { result ≡ is_as_posted quote.now posted.now }
{
    quote.due().pence() as i64 == posted.net && shares_of(quote) == posted.shares
}

/// What is due, if it is not what was posted, or falls to other operators, in pence.
fn other_due(quote: &Quote, posted: &PostedSums) -> Option<Pence>
    ensures { result ≡ other_due quote.now posted.now }
{
    if is_as_posted(quote, posted) {
        None
    } else {
        Some(quote.due())
    }
}

/// What is due through a service day, counted from 1970-01-01, of its week, if that is not what was posted, or falls to other operators, in
/// pence. An `Err` is out of memory.
pub fn unsettled<F: Fares>(
    account: &F,
    editions: &Editions,
    through: u32,
    posted: &PostedSums,
) -> Result<Option<Pence>, AllocError>
    requires numbered { 1 ≤ F.account account.now }
    requires is_day { IsDay through }
    requires priced_by { F.IsPricedBy editions.now account.now }
    ensures { IfOk result (λ it. it ≡ unsettled editions.now (F.account account.now) (F.accepted account.now) through posted.now) }
{
    let quote = account.quote(editions, through)?;
    Ok(other_due(&quote, posted))
}

/// The service day of which a correction is, if it is a Fill or a Credit.
fn day_of(what: What) -> Option<u32>
    ensures value { result ≡ day_of what }
    ensures in_range { IfSome result IsDay }
{
    match what {
        What::Fill(stamp, _, _) => Some(stamp.day()),
        What::Credit(credit) => Some(credit.day()),
        What::Void(..) | What::Drop(..) => None,
    }
}

/// The Monday of the week of each tap. An `Err` is out of memory.
fn tap_weeks(alloc: Global, taps: &[Tap]) -> Result<Vec<u32>, AllocError>
    ensures { IfOk result (λ it. it.items ≡ map (λ (tap : Tap). monday tap.stamp.day) taps.now) }
{
    taps.iter()
        .map(|tap| monday(tap.stamp.day()))
        .collect(alloc)
}

/// After these weeks, the Monday of the week of each correction that has a day. An `Err` is out of memory.
fn with_fix_weeks(before: Vec<u32>, fixes: &[Fix]) -> Result<Vec<u32>, AllocError>
    ensures { IfOk result (λ it. it.items ≡ before.items ++ map monday (filter_map (λ (fix : Fix). day_of fix.what) fixes.now)) }
{
    let mut weeks = before;
    for fix in fixes {
        if let Some(day) = day_of(fix.what) {
            weeks.push(monday(day))?;
        }
    }
    Ok(weeks)
}

/// The same numbers, each once, in ascending order.
fn each_once(numbers: Vec<u32>) -> Vec<u32>
    ensures same { (number : ℕ) → Contains result.items number ↔ Contains numbers.items number }
    ensures ascending { IsStrictlySortedBy nat_cmp result.items }
{
    let mut list = numbers;
    list.sort_unstable();
    list.dedup();
    list
}

/// The weeks of which an account has accepted anything, each told by its Monday, counted from 1970-01-01, in ascending order: those of
/// its taps, voided or not, and of its Fills and Credits, dropped or not. An `Err` is out of memory.
pub fn weeks_of<F: Fares>(alloc: Global, account: &F) -> Result<Vec<u32>, AllocError>
    ensures exactly { IfOk result (λ it. (week : ℕ) → Contains it.items week ↔ IsWeekOf (F.accepted account.now) week) }
    ensures ascending { IfOk result (λ it. IsStrictlySortedBy nat_cmp it.items) }
{
    let sets = account.sets()?;
    let taps = tap_weeks(alloc, sets.taps())?;
    let all = with_fix_weeks(taps, sets.fixes())?;
    Ok(each_once(all))
}
