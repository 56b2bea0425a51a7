//! The job `replay`, by the texts of its fare file, its zone and its journals: all that the program does below the reading of files.
ghost use Rattle.std.specs.Prelude.{◌≡◌, ◌<◌, ◌≤◌, ◌+◌, ◌^◌, ◌++◌, List, [], None, Some, fold, map as each, max, length, decimal, slice_get, IfOk, IfErr, OnOk};
ghost use Rattle.std.specs.Arc.{arc_value};
ghost use Rattle.std.specs.BTreeSet.{insert_key};
ghost use Rattle.std.specs.List.{flat_map};
ghost use Rattle.std.specs.Ordering.{nat_cmp};
ghost use Rattle.std.specs.String.{string_bytes};
ghost use Rattle.pay_session.specs.Words.{line_requests, rest_of};
ghost use Rattle.pay_session.specs.declared.request.Request.{Request};
ghost use Rattle.pay_tables.specs.Words.{FareEditions};
ghost use Rattle.pay_wire.specs.Words.{IsFlushed, HasFault};
ghost use Rattle.pay_run.specs.Words.{commands_in, HasReplayed, IsReplayedAfter};
ghost use Rattle.pay_jobs.specs.Replays.{ReplayWritten, ReplayRefused, IsFaultOf, IsStoppedAt, IsStoppedAmong, IsSummed, IsNotSummed, account_of, all_requests, each_once, instant_of, instant_of_what, last_of, list_of, rests, sooner, summary_line, summary_of};

use crate::fault::Fault;
use crate::output::write_text;
use crate::run::{read_fares, read_zone};
use jiff::tz::TimeZone;
use pay_book::Book;
use pay_journal::ReplayFault;
use pay_rules::What;
use pay_run::{new_desk, replay_more, replayed_lines};
use pay_shard::{Asked, Command, Journal, LocalDesk};
use pay_tables::Editions;
use pay_wire::KnownWriter;
use pay_zone::Zone;
use std::alloc::{AllocError, Global};
use std::collections::BTreeSet;
use std::sync::Arc;

/// Texts of fewer bytes have few lines, some five thousand.
const FEW_BYTES: usize = 200_000;

/// What is told of journals.
#[derive(Clone, Copy)]
pub(crate) struct Summary {
    /// The whole lines.
    pub lines: usize,
    /// The accounts that they are of.
    pub accounts: usize,
    /// The first instant of a tap or of a Fill, or 0.
    pub first: u64,
    /// The last one.
    pub last: u64,
    /// The bytes that stand after a last newline.
    pub rest: u128,
}

/// Replays journals, which are given as texts, one after the other, and writes what they have as one line: `OK lines 3 accounts 2
/// from 1704697200 to 1704702200`, and ` rest 12` after it where bytes stand after a last newline. The instants are those of taps
/// and of Fills, and 0 where there is none. The fare file is read before the zone, and both before the journals.
pub fn replay_texts<W: KnownWriter>(
    alloc: Global,
    fares: &str,
    zone: &str,
    texts: &[Vec<u8>],
    writer: &mut W,
) -> Result<(), Fault>
    ensures ends { OnOk result (ReplayWritten fares.now zone.now (each (λ text. text.items) texts.now) (W.contents writer.old) (W.contents writer.new)) }
    ensures fails { IfErr result (λ fault. ReplayRefused fault fares.now zone.now (each (λ text. text.items) texts.now) (W.contents writer.old) (W.contents writer.new)) }
    ensures flushed { OnOk result (IsFlushed W.MayAnswer writer.new) }
    ensures cause { IfErr result (λ fault. fault ≡ Fault.Output → HasFault W.MayAnswer writer.new) }
{
    let line = summed(alloc, fares, zone, texts)?;
    write_text(writer, line.as_str().as_bytes())
}

/// The line that is told of journals.
fn summed(alloc: Global, fares: &str, zone: &str, texts: &[Vec<u8>]) -> Result<String, Fault>
    ensures summed { IfOk result (λ line. IsSummed fares.now zone.now (each (λ text. text.items) texts.now) (string_bytes line)) }
    ensures fails { IfErr result (IsNotSummed fares.now zone.now (each (λ text. text.items) texts.now)) }
{
    let editions = read_fares(alloc, fares)?;
    let zone = read_zone(zone)?;
    let replayed = replayed_texts(alloc, editions, &zone, texts, 1)?;
    let (desk, rest) = replayed;
    // What was replayed is what the journal has.
    replayed_lines(&desk);
    let summary = summed_up(alloc, desk.shard().journal(), rest)?;
    let line = summary_line(alloc, summary)?;
    Ok(line)
}

/// A desk that has what journals give back, one after the other, and how many bytes stand after their last newlines. They are told by
/// their numbers, from the first one's on.
pub fn replayed_texts(
    alloc: Global,
    editions: Arc<Editions>,
    zone: &TimeZone<'_>,
    texts: &[Vec<u8>],
    first: u64,
) -> Result<(LocalDesk<Book>, u128), Fault>
    requires { first ≤ 1 }
    ensures replayed { IfOk result (λ it. HasReplayed zone.now (arc_value editions) it.0 (all_requests (each (λ text. text.items) texts.now))) }
    ensures rest { IfOk result (λ it. it.1 ≡ rests (each (λ text. text.items) texts.now)) }
    ensures stopped { IfErr result (IsStoppedAmong zone.now (arc_value editions) (each (λ text. text.items) texts.now) first) }
{
    let mut desk = new_desk(alloc, editions);
    let zone = zone_for(alloc, zone, texts);
    let rest = replay_each(&mut desk, &zone, texts, first)?;
    Ok((desk, rest))
}

/// The zone for the instants of these texts, many or few.
fn zone_for<'a>(alloc: Global, zone: &TimeZone<'a>, texts: &[Vec<u8>]) -> Zone<'a>
    ensures { result ≡ zone.now }
{
    if texts.iter().all(|text| text.len() < FEW_BYTES) {
        Zone::by_rules(alloc, *zone)
    } else {
        Zone::new(alloc, *zone)
    }
}

/// Replays one journal over what a desk has. The answer is how many bytes stand after its last newline.
fn replay_text(
    desk: &mut LocalDesk<Book>,
    zone: &Zone<'_>,
    text: &[u8],
    journal: u64,
) -> Result<u64, Fault>
    ensures rest { IfOk result (λ rest. rest ≡ length (rest_of text.now)) }
    ensures replayed { OnOk result (IsReplayedAfter zone.now desk.old desk.new (line_requests text.now)) }
    ensures stopped { IfErr result (λ fault. (editions : FareEditions) (before : List Request) → HasReplayed zone.now editions desk.old before → IsStoppedAt zone.now editions before text.now journal fault) }
{
    match replay_more(desk, zone, text) {
        Ok(replayed) => Ok(text.len() as u64 - replayed.bytes),
        Err(fault) => Err(fault_of(journal, fault)),
    }
}

/// What is told of one of several journals that is not accepted.
fn fault_of(journal: u64, fault: ReplayFault) -> Fault
    ensures { IsFaultOf journal fault result }
{
    match fault {
        ReplayFault::Line { line, why } => Fault::JournalLineOf { journal, line, why },
        ReplayFault::Memory => Fault::from(AllocError),
    }
}

/// Replays journals, one after the other. The answer is how many bytes stand after their last newlines.
fn replay_each(
    desk: &mut LocalDesk<Book>,
    zone: &Zone<'_>,
    texts: &[Vec<u8>],
    first: u64,
) -> Result<u128, Fault>
    requires { first ≤ 1 }
    ensures rest { IfOk result (λ rest. rest ≡ rests (each (λ text. text.items) texts.now)) }
    ensures replayed { OnOk result ((editions : FareEditions) → HasReplayed zone.now editions desk.old [] → HasReplayed zone.now editions desk.new (all_requests (each (λ text. text.items) texts.now))) }
    ensures stopped { IfErr result (λ fault. (editions : FareEditions) → HasReplayed zone.now editions desk.old [] → IsStoppedAmong zone.now editions (each (λ text. text.items) texts.now) first fault) }
{
    let mut rest = 0u128;
    for place in 0..texts.len() {
        let text = text_at(texts, place);
        let left = replay_text(desk, zone, text, place as u64 + first)?;
        rest = with_more(rest, left);
    }
    Ok(rest)
}

/// So many bytes, and more.
fn with_more(rest: u128, left: u64) -> u128
    requires { rest + 2 ^ 64 ≤ 2 ^ 128 }
    ensures sum { result ≡ rest + left }
    ensures few { result < rest + 2 ^ 64 }
{
    rest + left as u128
}

/// The text at a place.
fn text_at(texts: &[Vec<u8>], place: usize) -> &[u8]
    requires { place < length texts.now }
    ensures { slice_get (each (λ text. text.items) texts.now) place ≡ Some result.now }
{
    texts[place].as_slice()
}

/// What is told of a journal and of so many bytes that are left over.
fn summed_up(alloc: Global, journal: &Journal, rest: u128) -> Result<Summary, AllocError>
    requires { journal.now.memory.forgotten ≡ 0 }
    ensures { IfOk result (λ it. it ≡ summary_of (commands_in journal.now.items) rest) }
{
    let tally = tally_of(alloc, journal)?;
    Ok(Summary {
        lines: journal.len(),
        accounts: tally.accounts.len(),
        first: tally.first.unwrap_or(0),
        last: tally.last,
        rest,
    })
}

/// The tally of the commands of a journal.
fn tally_of(alloc: Global, journal: &Journal) -> Result<Tally, AllocError>
    requires { journal.now.memory.forgotten ≡ 0 }
    ensures accounts { IfOk result (λ it. it.accounts.keys ≡ each_once (flat_map account_of (commands_in journal.now.items))) }
    ensures first { IfOk result (λ it. it.first ≡ fold sooner None (flat_map instant_of (commands_in journal.now.items))) }
    ensures last { IfOk result (λ it. it.last ≡ last_of (flat_map instant_of (commands_in journal.now.items))) }
{
    let mut tally = Tally {
        accounts: BTreeSet::new(alloc),
        first: None,
        last: 0,
    };
    for place in 0..journal.len() {
        tally.count(command_at(journal, place))?;
    }
    Ok(tally)
}

/// The accounts of the commands of a journal that has forgotten nothing.
pub(crate) fn accounts_of(alloc: Global, journal: &Journal) -> Result<BTreeSet<u32>, AllocError>
    requires { journal.now.memory.forgotten ≡ 0 }
    ensures { IfOk result (λ it. it.keys ≡ each_once (flat_map account_of (commands_in journal.now.items))) }
{
    Ok(tally_of(alloc, journal)?.accounts)
}

/// The command at a place of a journal.
fn command_at(journal: &Journal, place: usize) -> Command
    requires within { place < length journal.now.items }
    requires whole { journal.now.memory.forgotten ≡ 0 }
    ensures { slice_get (commands_in journal.now.items) place ≡ Some result }
{
    match journal.get(place) {
        Some(item) => item.entry.command,
        None => unreachable!(),
    }
}

/// The accounts of commands, and their first and last instant, or 0 for the last where there is none.
#[derive(Drop)]
struct Tally {
    accounts: BTreeSet<u32>,
    first: Option<u64>,
    last: u64,
}

impl Tally {
    /// Counts one command more.
    fn count(&mut self, command: Command) -> Result<(), AllocError>
        ensures accounts { OnOk result (self.new.accounts.keys ≡ fold (insert_key nat_cmp) self.old.accounts.keys (account_of command)) }
        ensures first { OnOk result (self.new.first ≡ fold sooner self.old.first (instant_of command)) }
        ensures last { OnOk result (self.new.last ≡ fold max self.old.last (instant_of command)) }
    {
        put_account(&mut self.accounts, command.asked())?;
        let instant = instant_of(command.asked());
        self.first = soonest(self.first, instant);
        self.last = latest(self.last, instant);
        Ok(())
    }
}

/// Puts the account of a command into a set.
fn put_account(accounts: &mut BTreeSet<u32>, asked: Asked) -> Result<(), AllocError>
    ensures { OnOk result (accounts.new.keys ≡ fold (insert_key nat_cmp) accounts.old.keys (account_of asked)) }
{
    match asked {
        Asked::Tap(tap) => put_number(accounts, tap.account),
        Asked::Fix(fix) => put_number(accounts, fix.account),
        Asked::Due { account, .. } | Asked::Show { account, .. } => put_number(accounts, account),
        Asked::Quotes { .. } => Ok(()),
    }
}

/// Puts a number into a set.
fn put_number(numbers: &mut BTreeSet<u32>, number: u32) -> Result<(), AllocError>
    ensures { OnOk result (numbers.new.keys ≡ insert_key nat_cmp numbers.old.keys number) }
{
    numbers.insert(number)?;
    Ok(())
}

/// The instant of a tap or of a Fill.
fn instant_of(asked: Asked) -> Option<u64>
    ensures { list_of result ≡ instant_of asked }
{
    match asked {
        Asked::Tap(tap) => Some(tap.stamp.utc()),
        Asked::Fix(fix) => instant_of_what(fix.what),
        _ => None,
    }
}

/// The instant of a Fill.
fn instant_of_what(what: What) -> Option<u64>
    ensures { list_of result ≡ instant_of_what what }
{
    match what {
        What::Fill(stamp, ..) => Some(stamp.utc()),
        _ => None,
    }
}

/// The sooner one of an instant and what was the first.
fn soonest(first: Option<u64>, instant: Option<u64>) -> Option<u64>
    ensures { result ≡ fold sooner first (list_of instant) }
{
    match instant {
        Some(utc) => sooner(first, utc),
        None => first,
    }
}

/// The later one of an instant and what was the last.
fn latest(last: u64, instant: Option<u64>) -> u64
    ensures { result ≡ fold max last (list_of instant) }
{
    match instant {
        Some(utc) => later(last, utc),
        None => last,
    }
}

/// The sooner one of two instants.
fn sooner(first: Option<u64>, utc: u64) -> Option<u64>
    ensures { result ≡ sooner first utc }
{
    match first {
        Some(first) => Some(first.min(utc)),
        None => Some(utc),
    }
}

/// The later one of two instants.
fn later(last: u64, utc: u64) -> u64
    ensures { result ≡ max last utc }
{
    last.max(utc)
}

/// A summary as a line, newline included.
fn summary_line(alloc: Global, summary: Summary) -> Result<String, AllocError>
    ensures { IfOk result (λ line. string_bytes line ≡ summary_line summary) }
{
    let mut line = String::new(alloc);
    put(&mut line, "OK lines ", summary.lines as u128)?;
    put(&mut line, " accounts ", summary.accounts as u128)?;
    put(&mut line, " from ", u128::from(summary.first))?;
    put(&mut line, " to ", u128::from(summary.last))?;
    if summary.rest > 0 {
        put(&mut line, " rest ", summary.rest)?;
    }
    line.push_str("\n")?;
    Ok(line)
}

/// Puts a text and a number at the end of a line.
fn put(line: &mut String, text: &str, number: u128) -> Result<(), AllocError>
    ensures { OnOk result (string_bytes line.new ≡ string_bytes line.old ++ (text.now ++ decimal number)) }
{
    write!(line, "{text}{number}")
}
