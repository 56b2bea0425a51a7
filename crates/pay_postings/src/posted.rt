ghost use Rattle.std.specs.Prelude.{◌≡◌, ◌≤◌, pos, [], ◌∷◌, ◌++◌, map, sum, Some, IfOk, OnOk, OnErr};
ghost use Rattle.std.specs.Option.{option_map};
ghost use Rattle.pay_money.specs.declared.limits.TheConstants.{MOST_MONEY};
ghost use Rattle.pay_postings.specs.Amounts.{IsMoney, less};
ghost use Rattle.pay_postings.specs.Postings.{is_of, is_stale, is_again, is_as_due, is_of_edition, is_kept, net, with_amount, shares_posted, last_of, posting_of};
ghost use Rattle.pay_postings.specs.Paid.{AreRead};
ghost use Rattle.pay_postings.specs.Answers.{IsPosted, IsJudged};
ghost use Rattle.pay_postings.specs.Judged.{is_further};

use pay_money::limits::OPERATORS;
use pay_rules::{PostFault, Posting, Postings, Quote};
use std::alloc::{AllocError, Global};
use std::marker::Model;

/// The postings of a ledger, in order. In a contract they are the list of them.
#[derive(Drop)]
pub struct Posted {
    postings: Vec<Posting>,
}

impl Model for Posted {
    ghost use Rattle.std.specs.Prelude.{List};
    ghost use Rattle.pay_rules.specs.declared.posting.Posting.{Posting};
    ghost use Rattle.pay_rules.specs.PostingsCode.{postings_code};
    ghost use Rattle.pay_postings.specs.Paid.{AreRead};

    ghost Value = { List Posting };

    ghost coded = { postings_code };

    ghost view = { λ p. p.postings.items };

    ghost invariant = { λ p. AreRead p.postings.items };
}

/// Whether a posting is of an account and a week.
fn is_of(posting: &Posting, account: u32, week: u32) -> bool
    ensures { result ≡ is_of account week posting.now }
{
    posting.quote.account() == account && posting.quote.week() == week
}

/// The last posting of an account and a week.
fn last_of(postings: &[Posting], account: u32, week: u32) -> Option<&Posting>
    ensures { option_map (λ p. p.now) result ≡ last_of account week postings.now }
{
    let mut last = None;
    for posting in postings {
        if is_of(posting, account, week) {
            last = Some(posting);
        }
    }
    last
}

/// What was posted for an account and a week, with a further posting.
fn with_amount(net: i64, posting: &Posting, account: u32, week: u32) -> i64
    requires { IsMoney (with_amount account week net posting.now) }
    ensures { result ≡ with_amount account week net posting.now }
{
    if is_of(posting, account, week) {
        net + posting.amount
    } else {
        net
    }
}

/// The sum of the amounts of an account and a week.
fn net_of(postings: &[Posting], account: u32, week: u32) -> i64
    requires { AreRead postings.now }
    ensures value { result ≡ net account week postings.now }
    ensures in_range { IsMoney result }
{
    let mut net = 0;
    for posting in postings {
        net = with_amount(net, posting, account, week);
    }
    net
}

/// What is left of shares once those of another posting were posted: the difference for each operator.
fn less(shares: &[u64; OPERATORS], posted: &[u64; OPERATORS]) -> [i64; OPERATORS]
    requires shares_in_range { sum shares.now ≤ MOST_MONEY }
    requires posted_in_range { sum posted.now ≤ MOST_MONEY }
    ensures { result ≡ less shares.now (map pos posted.now) }
{
    let mut left = [0; OPERATORS];
    for place in 0..OPERATORS {
        left[place] = shares[place] as i64 - posted[place] as i64;
    }
    left
}

/// Whether a quote is of an earlier version than one that was posted, or through an earlier day.
fn is_stale(quote: &Quote, posted: &Quote) -> bool
    ensures { result ≡ is_stale quote.now posted.now }
{
    quote.version() < posted.version() || quote.through() < posted.through()
}

/// Whether it is of the same version and through the same day.
pub(crate) fn is_again(quote: &Quote, posted: &Quote) -> bool
    ensures { result ≡ is_again quote.now posted.now }
{
    quote.version() == posted.version() && quote.through() == posted.through()
}

/// Whether as much is due by it, and as much for each operator.
fn is_as_due(quote: &Quote, posted: &Quote) -> bool
    ensures { result ≡ is_as_due quote.now posted.now }
{
    quote.due() == posted.due() && quote.shares() == posted.shares()
}

/// Whether it is of the edition of what was posted, as far as that is known: a posting that was copied from version 1 of the
/// ledger names none.
fn is_of_edition(quote: &Quote, posted: &Quote) -> bool
    ensures { result ≡ is_of_edition quote.now posted.now }
{
    posted.edition() == 0 || quote.edition() == posted.edition()
}

/// Whether what was posted for the same version and day is kept for a quote.
pub fn is_kept(quote: &Quote, posted: &Quote) -> bool
    ensures { result ≡ is_kept quote.now posted.now }
{
    is_as_due(quote, posted) && is_of_edition(quote, posted)
}

/// Whether a quote is posted anew beside the one that was posted last for its account and week, or what was posted for that is
/// kept; or why it is refused.
pub(crate) fn is_further(quote: &Quote, last: &Quote) -> Result<bool, PostFault>
    ensures { result ≡ is_further quote.now (Some last.now) }
{
    if is_stale(quote, last) {
        return Err(PostFault::StaleQuote {
            account: last.account(),
            version: last.version(),
            through: last.through(),
        });
    }
    if !is_again(quote, last) {
        return Ok(true);
    }
    if is_kept(quote, last) {
        Ok(false)
    } else {
        Err(PostFault::QuoteDiffers)
    }
}

/// A posting as it is. An `Err` is out of memory.
fn copied(posting: &Posting) -> Result<Posting, AllocError>
    ensures { IfOk result (λ p. p ≡ posting.now) }
{
    posting.clone()
}

impl Posted {
    /// No postings.
    pub fn new(alloc: Global) -> Posted
        ensures { result ≡ [] }
    {
        Posted {
            postings: Vec::new(alloc),
        }
    }

    /// The postings as a slice.
    pub fn as_slice(&self) -> &[Posting]
        ensures value { result.now ≡ self.now }
        ensures read { AreRead result.now }
    {
        &self.postings
    }

    /// The postings alone.
    pub fn into_postings(self) -> Postings
        ensures { result ≡ self }
    {
        Postings::from(self.postings)
    }

    /// What an account was charged for a week, which its Monday names, less what it was given back, in pence.
    pub fn net(&self, account: u32, week: u32) -> i64
        ensures value { result ≡ net account week self.now }
        ensures in_range { IsMoney result }
    {
        net_of(self.as_slice(), account, week)
    }

    /// What of it fell to each operator, in pence: operator 1 stands first.
    pub fn shares(&self, account: u32, week: u32) -> [u64; OPERATORS]
        ensures value { map pos result ≡ shares_posted account week self.now }
        ensures in_range { sum result ≤ MOST_MONEY }
    {
        match last_of(&self.postings, account, week) {
            Some(last) => *last.quote.shares(),
            None => [0; OPERATORS],
        }
    }

    /// The quote that was posted last for an account and a week.
    pub(crate) fn last_quote(&self, account: u32, week: u32) -> Option<&Quote>
        ensures { option_map (λ q. q.now) result ≡ option_map (λ p. p.quote) (last_of account week self.now) }
    {
        match last_of(&self.postings, account, week) {
            Some(last) => Some(&last.quote),
            None => None,
        }
    }

    /// The posting that is kept for a quote which was posted before; none where it is to be posted.
    fn judge(&self, quote: &Quote) -> Result<Option<Posting>, PostFault>
        ensures { IsJudged result self.now quote.now }
    {
        let Some(last) = last_of(&self.postings, quote.account(), quote.week()) else {
            return Ok(None);
        };
        if is_further(quote, &last.quote)? {
            return Ok(None);
        }
        Ok(Some(copied(last)?))
    }

    /// A quote as a further posting. An `Err` is out of memory.
    fn posting_of(&self, quote: &Quote) -> Result<Posting, AllocError>
        ensures value { IfOk result (λ p. p ≡ posting_of self.now quote.now) }
        ensures read { IfOk result (λ p. AreRead (self.now ++ p ∷ [])) }
    {
        let _ = &self.postings;
        let _ranges = (quote.version(), quote.through(), quote.edition());
        let net = self.net(quote.account(), quote.week());
        let posted = self.shares(quote.account(), quote.week());
        Ok(Posting {
            quote: quote.clone()?,
            amount: quote.due().pence() as i64 - net,
            share_amounts: less(quote.shares(), &posted),
        })
    }

    /// Adds a posting at the end. After an `Err` all postings are as before.
    pub fn push(&mut self, posting: Posting) -> Result<(), AllocError>
        requires { AreRead (self.old ++ posting ∷ []) }
        ensures ok { OnOk result (self.new ≡ self.old ++ posting ∷ []) }
        ensures err { OnErr result (self.new ≡ self.old) }
    {
        self.postings.push(posting)?;
        Ok(())
    }

    /// Posts a quote: its posting is what is due less what was posted for its account and week, and each
    /// operator's share likewise. One that was posted before adds nothing, and its posting is given again as it stands, also
    /// where that names no edition. Where it is refused, all postings are as before.
    pub fn post(&mut self, quote: &Quote) -> Result<Posting, PostFault>
        ensures { IsPosted result self.old self.new quote.now }
    {
        if let Some(kept) = self.judge(quote)? {
            return Ok(kept);
        }
        let posting = self.posting_of(quote)?;
        let given = copied(&posting)?;
        self.push(posting)?;
        Ok(given)
    }
}
