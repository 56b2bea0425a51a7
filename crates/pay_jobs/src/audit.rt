//! The job `audit`: what of a ledger differs from what journals give back, what is not settled, and what no close has reached.
ghost use Rattle.std.specs.Prelude.{◌≡◌, ◌≤◌, ◌+◌, false, length, None, Some, IfOk, IfNone, IfSome, OnOk, OnErr};
ghost use Rattle.pay_day.specs.Words.{IsDay};
ghost use Rattle.pay_postings.specs.Words.{AgreesWith};
ghost use Rattle.pay_shard.specs.Words.{state_now};
ghost use Rattle.pay_ledger.specs.Words.{AnswersOfLedger};
ghost use Rattle.pay_rules.specs.SetsParts.{sets};
ghost use Rattle.pay_audit.specs.Settled.{unsettled};
ghost use Rattle.pay_audit.specs.Unclosed.{is_unclosed};

use crate::begun::FaresAndZone;
use crate::fault::Fault;
use crate::kept::compare_with;
use crate::last::take_noted;
use crate::ledger::differs;
use crate::replays::{accounts_of, replayed_texts};
use crate::run::begin_service;
use pay_audit::{
    Difference, PostedSums, WeekClosed, first_difference, is_unclosed, next_difference, posted_for,
    unsettled, weeks_of,
};
use pay_book::Book;
use pay_day::limits::{FIRST_DAY, LAST_DAY};
use pay_day::monday;
use pay_ledger::{LastPosting, Ledger};
use pay_rules::Fares;
use pay_shard::{LocalDesk, Shard};
use pay_tables::Editions;
use sqlite::Alter;
use std::alloc::{AllocError, Global};
use std::collections::{BTreeMap, BTreeSet};

/// What is due for an account and a week, and is not what was posted, or falls to other operators.
#[derive(Clone, Copy)]
pub struct Unsettled {
    /// The account.
    pub account: u32,
    /// The Monday of the week, counted from 1970-01-01.
    pub week: u32,
    /// The last day through which the week was closed.
    pub through: u32,
    /// What is due through that day, in pence.
    pub due: u64,
    /// What was charged less what was given back, in pence: what is due, where only the shares of operators differ.
    pub posted: i64,
}

/// All that is not settled, and all that is not closed.
#[derive(Drop)]
pub struct Open {
    /// In ascending order of account and week.
    pub unsettled: Vec<Unsettled>,
    /// The Mondays of the weeks that have days which are over and that no close has reached, and of each how many accounts have a tap
    /// or a Fill on such a day.
    pub unclosed: BTreeMap<u32, u64>,
    /// The days that settle all of it if they are closed, in ascending order.
    pub closes: BTreeSet<u32>,
}

/// What was posted for an account and a week.
#[derive(Clone, Copy)]
struct PostedWeek {
    account: u32,
    week: u32,
    sums: PostedSums,
}

/// The last day through which each week was closed, by its Monday, for whichever account.
#[derive(Drop)]
struct Closed {
    weeks: BTreeMap<u32, u32>,
    // The last of all these days, and 0 where there is none.
    last: u32,
}

impl Closed {
    /// A week was closed through a day.
    fn note(&mut self, week: u32, through: u32) -> Result<(), AllocError>
        ensures last { OnOk result (through ≤ self.new.last) }
        ensures rises { self.old.last ≤ self.new.last }
    {
        let last = match self.weeks.get(&week) {
            Some(last) => *last,
            None => through,
        };
        self.weeks.insert(week, last.max(through))?;
        self.last = self.last.max(through);
        Ok(())
    }

    /// The last day through which a week was closed, if it was.
    fn through(&self, week: u32) -> Option<u32>
        ensures { IfSome result IsDay }
    {
        match self.weeks.get(&week) {
            Some(through) => Some((*through).clamp(FIRST_DAY, LAST_DAY)),
            None => None,
        }
    }

    /// How far a week was closed, and how far all were.
    fn of(&self, week: u32) -> WeekClosed
        ensures week { result.week ≡ week }
        ensures last { result.last ≡ self.now.last }
        ensures through { IfSome result.through IsDay }
    {
        WeekClosed {
            week,
            through: self.through(week),
            last: self.last,
        }
    }
}

/// What an audit of journals beside a ledger found.
#[derive(Drop)]
pub struct Audit {
    /// What differs, as a start reports it.
    pub differences: Vec<Fault>,
    /// What is not settled, and what is not closed.
    pub open: Open,
}

/// What differs between what journals give back and what is kept beside them, if anything is.
pub fn audit_journals(
    alloc: Global,
    fares: &str,
    zone: &str,
    texts: &[Vec<u8>],
    kept: Option<&str>,
) -> Result<Vec<Fault>, Fault> {
    let desk = desk_of(alloc, fares, zone, texts)?;
    compared(alloc, desk.shard(), zone, kept)
}

/// The same, and what differs between it and a ledger, which has the posting that is noted beside the journals; and what is not settled,
/// or not closed.
pub fn audit_ledger<S: Alter>(
    alloc: Global,
    fares: &str,
    zone: &str,
    texts: &[Vec<u8>],
    kept: Option<&str>,
    ledger: &mut Ledger<S>,
    noted: Option<&LastPosting>,
) -> Result<Audit, Fault> {
    let desk = desk_of(alloc, fares, zone, texts)?;
    let mut differences = compared(alloc, desk.shard(), zone, kept)?;
    if let Some(noted) = noted {
        put_compared(&mut differences, take_noted(ledger, noted))?;
    }
    let mut more = all_differences(alloc, desk.shard(), ledger)?;
    differences.append(&mut more)?;
    let open = all_open(alloc, desk.shard(), ledger)?;
    Ok(Audit { differences, open })
}

/// A desk that has what journals give back, which are told by their numbers from 0 on.
fn desk_of(
    alloc: Global,
    fares: &str,
    zone: &str,
    texts: &[Vec<u8>],
) -> Result<LocalDesk<Book>, Fault> {
    let FaresAndZone { editions, zone } = begin_service(alloc, fares, zone)?;
    let (desk, _) = replayed_texts(alloc, editions, &zone, texts, 0)?;
    Ok(desk)
}

/// What differs between the accounts of a shard and what is kept beside their journals.
fn compared(
    alloc: Global,
    shard: &Shard<Book>,
    zone: &str,
    kept: Option<&str>,
) -> Result<Vec<Fault>, Fault>
    requires { shard.now.memory.forgotten ≡ 0 }
{
    let mut list = Vec::new(alloc);
    if let Some(kept) = kept {
        put_compared(&mut list, compare_with(alloc, shard, zone, kept))?;
    }
    Ok(list)
}

/// Puts how something differs at the end of a list, if it does. Any other fault ends the audit.
fn put_compared(list: &mut Vec<Fault>, compared: Result<(), Fault>) -> Result<(), Fault>
    ensures differs { OnOk result (OnErr compared (length list.new.items ≡ 1 + length list.old.items)) }
{
    match compared {
        Ok(()) => Ok(()),
        Err(Fault::Kept(why)) => Ok(put_fault(list, Fault::Kept(why))?),
        Err(Fault::File(why)) => Ok(put_fault(list, Fault::File(why))?),
        Err(fault) => Err(fault),
    }
}

/// All that is due for weeks that were closed, and was not posted, or not for these operators: late taps and corrections are posted only
/// when their week is closed again. A week counts as closed through the last day through which it was posted for whichever account. And
/// all weeks with taps or Fills on days that no close has reached: up to the last day that was closed of any week, since later ones may
/// not be over.
fn all_open<S: Alter>(
    alloc: Global,
    shard: &Shard<Book>,
    ledger: &mut Ledger<S>,
) -> Result<Open, Fault>
    requires { shard.now.memory.forgotten ≡ 0 }
{
    let mut open = Open {
        unsettled: Vec::new(alloc),
        unclosed: BTreeMap::new(alloc),
        closes: BTreeSet::new(alloc),
    };
    let mut closed = Closed {
        weeks: BTreeMap::new(alloc),
        last: 0,
    };
    let weeks = posted_weeks(alloc, shard, ledger, &mut closed)?;
    for week in &weeks {
        open.look_at(shard, &closed, *week)?;
    }
    Ok(open)
}

/// What of a ledger differs from what a shard's accounts have accepted: of each account the first thing, in ascending order of account, as a
/// start reports it.
fn all_differences<S: Alter>(
    alloc: Global,
    shard: &Shard<Book>,
    ledger: &mut Ledger<S>,
) -> Result<Vec<Fault>, Fault>
    ensures agree { AnswersOfLedger S.Store ledger.old ledger.new result (λ it list. length list.items ≡ 0 → AgreesWith shard.now.editions (state_now shard.now) it) }
{
    match first_difference(alloc, shard, ledger) {
        Ok(None) => Ok(Vec::new(alloc)),
        Ok(Some(first)) => differences_from(alloc, shard, ledger, first),
        Err(fault) => Err(Fault::from(fault)),
    }
}

/// All that differs from this on.
fn differences_from<S: Alter>(
    alloc: Global,
    shard: &Shard<Book>,
    ledger: &mut Ledger<S>,
    first: (u32, Difference),
) -> Result<Vec<Fault>, Fault>
    ensures some { IfOk result (λ list. 1 ≤ length list.items) }
{
    let has_line = shard.journal().len() > 0;
    let mut list = Vec::new(alloc);
    let (mut account, difference) = first;
    put_fault(&mut list, differs(account, difference, has_line))?;
    for _ in 0..u32::MAX {
        match next_difference(alloc, shard, ledger, account)? {
            None => break,
            Some((next, difference)) => {
                put_fault(&mut list, differs(next, difference, has_line))?;
                account = next;
            }
        }
    }
    Ok(list)
}

/// Puts what differs at the end of a list.
fn put_fault(list: &mut Vec<Fault>, fault: Fault) -> Result<(), AllocError>
    ensures { OnOk result (length list.new.items ≡ 1 + length list.old.items) }
{
    list.push(fault).map_err(AllocError::from)
}

/// What was posted for each account of a shard and each week of it, and through which day each week was closed.
fn posted_weeks<S: Alter>(
    alloc: Global,
    shard: &Shard<Book>,
    ledger: &mut Ledger<S>,
    closed: &mut Closed,
) -> Result<Vec<PostedWeek>, Fault>
    requires { shard.now.memory.forgotten ≡ 0 }
{
    let accounts = accounts_of(alloc, shard.journal())?;
    let mut list = Vec::new(alloc);
    for number in &accounts {
        if let Some(account) = shard.account(*number) {
            put_weeks(alloc, &mut list, (*number, account), ledger, closed)?;
        }
    }
    Ok(list)
}

/// Puts the weeks of an account at the end of a list.
fn put_weeks<S: Alter>(
    alloc: Global,
    list: &mut Vec<PostedWeek>,
    (number, account): (u32, &Book),
    ledger: &mut Ledger<S>,
    closed: &mut Closed,
) -> Result<(), Fault> {
    for week in &weeks_of(alloc, account)? {
        let posted = posted_week(ledger, closed, number, *week)?;
        list.push(posted).map_err(AllocError::from)?;
    }
    Ok(())
}

/// What was posted for an account and a week. The day through which it was is noted.
fn posted_week<S: Alter>(
    ledger: &mut Ledger<S>,
    closed: &mut Closed,
    account: u32,
    week: u32,
) -> Result<PostedWeek, Fault> {
    let sums = match posted_for(ledger, account, week)? {
        None => PostedSums::none(),
        Some(posted) => {
            closed.note(week, posted.through)?;
            posted.sums
        }
    };
    Ok(PostedWeek {
        account,
        week,
        sums,
    })
}

impl Open {
    /// Looks whether a week is settled that was closed, and whether it has days that no close has reached.
    fn look_at(
        &mut self,
        shard: &Shard<Book>,
        closed: &Closed,
        posted: PostedWeek,
    ) -> Result<(), Fault> {
        if let Some(account) = shard.account(posted.account) {
            if let Some(through) = closed.through(posted.week) {
                self.put(account, shard.editions(), through, posted)?;
            }
            self.put_unclosed(account, closed.of(posted.week))?;
        }
        Ok(())
    }
}

impl Open {
    /// Puts what is due for an account through a day at the end, if it is not what was posted, or falls to other operators.
    fn put<F: Fares>(
        &mut self,
        account: &F,
        editions: &Editions,
        through: u32,
        posted: PostedWeek,
    ) -> Result<(), AllocError>
        requires numbered { 1 ≤ F.account account.now }
        requires is_day { IsDay through }
        requires priced_by { F.IsPricedBy editions.now account.now }
    {
        let found = unsettled_of(account, posted.account, editions, through, &posted.sums)?;
        if let Some(it) = found {
            self.unsettled.push(it).map_err(AllocError::from)?;
            self.closes.insert(through).map_err(AllocError::from)?;
        }
        Ok(())
    }
}

impl Open {
    /// Counts an account in a week, if it has a day there that no close has reached. A close through its Sunday reaches it.
    fn put_unclosed<F: Fares>(&mut self, account: &F, closed: WeekClosed) -> Result<(), AllocError>
        ensures unchanged { OnOk result (is_unclosed closed (sets (F.account account.now) (F.accepted account.now)) ≡ false → self.new ≡ self.old) }
        ensures settled { self.new.unsettled ≡ self.old.unsettled }
    {
        if is_unclosed(account, closed)? {
            let before = match self.unclosed.get(&closed.week) {
                Some(accounts) => *accounts,
                None => 0,
            };
            self.unclosed.insert(closed.week, before.saturating_add(1))?;
            self.closes.insert(closed.week.saturating_add(6))?;
        }
        Ok(())
    }
}

/// What is due for an account through a day of its week, if it is not what was posted, or falls to other operators.
fn unsettled_of<F: Fares>(
    account: &F,
    number: u32,
    editions: &Editions,
    through: u32,
    posted: &PostedSums,
) -> Result<Option<Unsettled>, AllocError>
    requires numbered { 1 ≤ F.account account.now }
    requires is_day { IsDay through }
    requires priced_by { F.IsPricedBy editions.now account.now }
    ensures due { IfOk result (λ found. IfSome found (λ it. unsettled editions.now (F.account account.now) (F.accepted account.now) through posted.now ≡ Some it.due)) }
    ensures through { IfOk result (λ found. IfSome found (λ it. (it.account ≡ number) × (it.through ≡ through))) }
    ensures posted { IfOk result (λ found. IfSome found (λ it. it.posted ≡ posted.now.net)) }
    ensures settled { IfOk result (λ found. IfNone found (unsettled editions.now (F.account account.now) (F.accepted account.now) through posted.now ≡ None)) }
{
    match unsettled(account, editions, through, posted)? {
        None => Ok(None),
        Some(due) => Ok(Some(Unsettled {
            account: number,
            week: monday(through),
            through,
            due: due.pence(),
            posted: posted.net,
        })),
    }
}
