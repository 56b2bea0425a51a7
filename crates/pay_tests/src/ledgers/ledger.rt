//! The ledger over a database in memory: what is posted for accounts, what is refused and changes nothing, and what is
//! restored. By the sample fare file.

ghost use Rattle.std.specs.Prelude.{◌≡◌, ◌≤◌, false};

use crate::accounts::expect_price;
use crate::given::{
    MAY_BE_REFUSED, MAY_NOT_BE, MONDAY, WAS_REFUSED, expect_list, expect_same, sample, tap_at, tell,
};
use crate::ledgers::lines::expect_run;
use pay_account::Account;
use pay_ledger::{Ledger, LedgerFault, OpenFault};
use pay_money::Pence;
use pay_money::limits::OPERATORS;
use pay_rules::{Fares, Fix, Kind, PostFault, Posting, Priced, Quote, Sets, What};
use pay_tables::Editions;
use sqlite::{Alter, Connection, Error, MemStore, Row};
use std::alloc::Global;
use std::process::Abort;

/// A ledger in a database that is one, or is empty.
pub fn opened<R: Abort + AllocGlobal, S: Alter + Drop>(rt: &R, conn: Connection<S>) -> Ledger<S> {
    assert!(rt; conn.is_autocommit());
    Ledger::open(rt.alloc(), conn).ok().expect(rt, "a ledger")
}

/// An empty ledger in memory.
pub fn empty_ledger<R: Abort + AllocGlobal>(rt: &R) -> Ledger<MemStore> {
    let conn = Connection::open_in_memory(rt.alloc()).expect(rt, "a database");
    opened(rt, conn)
}

/// The rows of each of the five tables, a line each.
static TABLES: [&str; 5] = [
    "SELECT 'meta ' || name || ' ' || version FROM meta ORDER BY name",
    "SELECT 'posting ' || id || ' ' || account || ' ' || week || ' ' || through || ' ' || version || ' ' || due || ' ' || amount || ' ' || edition FROM postings2 ORDER BY id",
    "SELECT 'share ' || posting || ' ' || operator || ' ' || amount FROM shares2 ORDER BY posting, operator",
    "SELECT 'tap ' || account || ' ' || reader || ' ' || seq || ' ' || utc || ' ' || day || ' ' || second || ' ' || place || ' ' || kind FROM taps ORDER BY account, reader, seq",
    "SELECT 'fix ' || account || ' ' || staff || ' ' || seq || ' ' || what || ' ' || a || ' ' || b || ' ' || c || ' ' || d || ' ' || e FROM fixes ORDER BY account, staff, seq",
];

/// Adds the line of a row.
fn add_line(text: &mut String, row: &Row) -> Result<(), Error> {
    let line: String = row.get(0)?;
    text.push_str(&line)?;
    text.push('\n')?;
    Ok(())
}

/// Adds the lines of a table.
fn add_lines<S: Alter>(
    text: &mut String,
    conn: &mut Connection<S>,
    sql: &str,
) -> Result<(), Error> {
    let rows = conn.query_all(sql, &[])?;
    for row in &rows {
        add_line(text, row)?;
    }
    Ok(())
}

/// All rows of the five tables.
fn rows_of<S: Alter>(alloc: Global, conn: &mut Connection<S>) -> Result<String, Error> {
    let mut text = String::new(alloc);
    for sql in &TABLES {
        add_lines(&mut text, conn, sql)?;
    }
    Ok(text)
}

/// These are all the rows of a ledger, which is opened again.
pub fn expect_rows<R: Abort + AllocGlobal, S: Alter + Drop>(
    rt: &R,
    ledger: Ledger<S>,
    wanted: &str,
) -> Ledger<S> {
    let mut conn = ledger.into_connection();
    let rows = rows_of(rt.alloc(), &mut conn).expect(rt, "rows");
    expect_same(rt, rows.as_str(), wanted);
    opened(rt, conn)
}

/// A posting by the account, the version and the due of its quote and its amount, and what of that fell to operators 1 and
/// 4. To the others falls nothing here.
pub type Told = (u32, u32, u64, i64, i64, i64);

fn told<R: Abort>(rt: &R, posting: &Posting) -> Told {
    let mut others = posting.share_amounts;
    let (one, four) = (others[0], others[3]);
    others[0] = 0;
    others[3] = 0;
    expect_same(rt, others, [0; OPERATORS]);
    let quote = &posting.quote;
    expect_same(rt, (quote.week(), quote.through()), (MONDAY, MONDAY));
    (
        quote.account(),
        quote.version(),
        quote.due().pence(),
        posting.amount,
        one,
        four,
    )
}

fn told_all<R: Abort + AllocGlobal>(rt: &R, postings: &[Posting]) -> Vec<Told> {
    let mut list = Vec::new(rt.alloc());
    for posting in postings {
        list.push(told(rt, posting)).expect(rt, "memory");
    }
    list
}

/// Posts quotes and archives sets, and compares the postings that are given.
pub fn expect_posted<R: Abort + AllocGlobal, S: Alter + Drop>(
    rt: &R,
    ledger: &mut Ledger<S>,
    batch: (&[Quote], &[Sets]),
    wanted: Result<&[Told], LedgerFault>,
) {
    let given = match ledger.post(batch.0, batch.1) {
        Ok(postings) => Ok(told_all(rt, &postings)),
        Err(fault) => Err(fault),
    };
    expect_list(rt, given, wanted);
}

/// What an account owes through the Monday, and all that it has accepted.
pub fn owed<R: Abort>(rt: &R, account: &Account, editions: &Editions) -> (Quote, Sets)
    requires { 1 ≤ account.now.0 }
{
    let quote = account.quote(editions, MONDAY).expect(rt, "memory");
    (quote, account.sets().expect(rt, "memory"))
}

/// An account by its number, its version and what it owes through the Monday.
fn account_told<R: Abort>(rt: &R, account: &Account, editions: &Editions) -> (u32, u32, u64) {
    assert!(rt; 1 <= account.number());
    let (quote, _) = owed(rt, account, editions);
    (quote.account(), quote.version(), quote.due().pence())
}

pub const NO_MEMORY: LedgerFault = LedgerFault::Refused(PostFault::Memory);

/// So a refusal is the store's, or for memory, and it is told.
pub fn expect_by_store<R: Abort + AllocGlobal>(rt: &R, is_store: bool, is_memory: bool) {
    expect_same(rt, is_store || is_memory, true);
    tell(rt, WAS_REFUSED);
}

/// The accounts of a ledger, at the second time where memory is refused at the first.
fn restored<R: Abort + AllocGlobal, S: Alter + Drop>(
    rt: &R,
    ledger: &mut Ledger<S>,
    editions: &Editions,
) -> Vec<Account> {
    tell(rt, MAY_BE_REFUSED);
    let accounts = match ledger.restore(editions) {
        Ok(accounts) => accounts,
        Err(fault) => {
            expect_by_store(rt, fault == LedgerFault::Store, fault == NO_MEMORY);
            ledger.restore(editions).expect(rt, "accounts")
        }
    };
    tell(rt, MAY_NOT_BE);
    accounts
}

/// Restores the accounts of a ledger, and compares them in their order.
pub fn expect_restored<R: Abort + AllocGlobal, S: Alter + Drop>(
    rt: &R,
    ledger: &mut Ledger<S>,
    editions: &Editions,
    wanted: &[(u32, u32, u64)],
) {
    let accounts = restored(rt, ledger, editions);
    let mut list = Vec::new(rt.alloc());
    for account in &accounts {
        let it = account_told(rt, account, editions);
        list.push(it).expect(rt, "memory");
    }
    expect_same(rt, list.as_slice(), wanted);
}

/// Compares the postings of account 7 for the week of the Monday, and what they come to.
fn expect_week<R: Abort + AllocGlobal, S: Alter + Drop>(
    rt: &R,
    ledger: &mut Ledger<S>,
    wanted: &[Told],
    net: i64,
) {
    let postings = ledger.postings(7, MONDAY).expect(rt, "postings");
    let list = told_all(rt, postings.as_slice());
    expect_same(rt, list.as_slice(), wanted);
    expect_same(rt, ledger.net(7, MONDAY), Ok(net));
}

// A journey without its end costs the maximum, 860, and from station 10 to 12 it costs 340: 520 less. Both are operator 1's.
const CHARGED: Told = (7, 1, 860, 860, 860, 0);

const GIVEN_BACK: Told = (7, 2, 340, -520, -520, 0);

/// All rows after both.
const JOURNEY: &str = "meta farebox 2
posting 1 7 19730 19730 1 860 860 4
posting 2 7 19730 19730 2 340 -520 4
share 1 1 860
share 2 1 -520
tap 7 1 1 1704697200 19730 25200 10 0
tap 7 1 2 1704699000 19730 27000 12 1
";

/// A ledger with a journey of account 7, which was quoted at each of its taps.
fn journey<R: Abort + AllocGlobal>(rt: &R, editions: &Editions) -> Ledger<MemStore> {
    let mut ledger = empty_ledger(rt);
    let mut account: Account = Fares::new(rt.alloc(), 7);
    let entry = tap_at(rt, 1, 25_200, 10, Kind::In);
    expect_price(rt, &mut account, editions, entry, 860);
    let (quote, sets) = owed(rt, &account, editions);
    expect_posted(rt, &mut ledger, (&[quote], &[sets]), Ok(&[CHARGED]));
    let exit = tap_at(rt, 2, 27_000, 12, Kind::Out);
    expect_price(rt, &mut account, editions, exit, 340);
    let (quote, sets) = owed(rt, &account, editions);
    let batch = ([quote], [sets]);
    expect_posted(rt, &mut ledger, (&batch.0, &batch.1), Ok(&[GIVEN_BACK]));
    expect_posted(rt, &mut ledger, (&batch.0, &batch.1), Ok(&[GIVEN_BACK]));
    ledger
}

/// A quote of an account through the Monday, by the edition of a file's own keys, of which all is operator 1's.
fn quoted<R: Abort>(rt: &R, account: u32, version: u32, due: u64) -> Quote {
    let mut shares = [0; OPERATORS];
    shares[0] = due;
    let pence = Pence::new(due);
    Quote::rebuilt(account, MONDAY, MONDAY, version, pence, 4, shares).expect(rt, "a quote")
}

/// Refused, since version 2 was posted.
const STALE: PostFault = PostFault::StaleQuote {
    account: 7,
    version: 2,
    through: MONDAY,
};

/// This is refused, and the ledger is as it was after the journey.
fn expect_refused<R: Abort + AllocGlobal, S: Alter + Drop>(
    rt: &R,
    mut ledger: Ledger<S>,
    batch: (&[Quote], &[Sets]),
    fault: PostFault,
) -> Ledger<S> {
    expect_posted(rt, &mut ledger, batch, Err(LedgerFault::Refused(fault)));
    expect_rows(rt, ledger, JOURNEY)
}

/// All that account 7 has accepted where it came in at another station.
fn elsewhere<R: Abort + AllocGlobal>(rt: &R, editions: &Editions) -> Sets {
    let mut account: Account = Fares::new(rt.alloc(), 7);
    let entry = tap_at(rt, 1, 25_200, 11, Kind::In);
    expect_price(rt, &mut account, editions, entry, 860);
    let (_, sets) = owed(rt, &account, editions);
    sets
}

// An earlier version; the version that was posted, with another due; and another tap of the number of an archived one, beside
// a quote that could be posted.
#[test]
fn refuses_and_stays(rt: HostRuntime) {
    let editions = sample(&rt);
    let ledger = journey(&rt, &editions);
    let stale = [quoted(&rt, 7, 1, 860)];
    let ledger = expect_refused(&rt, ledger, (&stale, &[]), STALE);
    let other = [quoted(&rt, 7, 2, 341)];
    let ledger = expect_refused(&rt, ledger, (&other, &[]), PostFault::QuoteDiffers);
    let half = [quoted(&rt, 8, 1, 175), quoted(&rt, 7, 1, 860)];
    let ledger = expect_refused(&rt, ledger, (&half, &[]), STALE);
    let sets = elsewhere(&rt, &editions);
    let _ = expect_refused(
        &rt,
        ledger,
        (&half[..1], &[sets]),
        PostFault::ArchiveConflict,
    );
}

/// A forgotten touch out is filled in, money is given back, the Fill is withdrawn, and the tap taken out, and then one that
/// there is not.
const CORRECTIONS: &str = "TAP 1 1 7 1704697200 10 IN
FIX 3 1 7 FILL 1704699000 12 OUT
FIX 3 2 7 CREDIT 19730 100
FIX 3 3 7 DROP 3 1
FIX 3 4 7 VOID 1 1
FIX 3 5 7 VOID 9 9
CLOSE 19730
";

/// The replies. Nothing is left to be paid.
const CORRECTED_REPLIES: &str = "OK 19730 860 860
OK 19730 340 340
OK 19730 340 340
OK 19730 860 860
OK 19730 0 0
OK 0 0 0
PAY 7 19730 19730 6 0 0
DONE 19730 1
";

/// All rows after them: version 6, of one tap and five corrections.
const CORRECTED: &str = "meta farebox 2
posting 1 7 19730 19730 6 0 0 4
tap 7 1 1 1704697200 19730 25200 10 0
fix 7 3 1 1 1704699000 19730 27000 12 1
fix 7 3 2 2 19730 100 0 0 0
fix 7 3 3 3 3 1 0 0 0
fix 7 3 4 0 1 1 0 0 0
fix 7 3 5 0 9 9 0 0 0
";

#[test]
fn restores_corrections(rt: HostRuntime) {
    let mut ledger = empty_ledger(&rt);
    expect_run(&rt, &mut ledger, CORRECTIONS, 7, CORRECTED_REPLIES);
    let mut ledger = expect_rows(&rt, ledger, CORRECTED);
    expect_restored(&rt, &mut ledger, &sample(&rt), &[(7, 6, 0)]);
    expect_week(&rt, &mut ledger, &[(7, 6, 0, 0, 0, 0)], 0);
}

/// An account after a boarding, which costs 175.
fn boarded<R: Abort + AllocGlobal>(rt: &R, editions: &Editions, number: u32) -> Account
    ensures { result.0 ≡ number }
{
    let mut account: Account = Fares::new(rt.alloc(), number);
    let bus = tap_at(rt, 1, 25_200, 50, Kind::Bus);
    expect_price(rt, &mut account, editions, bus, 175);
    account
}

/// Sends a Void of the boarding, after which the day costs nothing.
fn void_boarding<R: Abort>(rt: &R, account: &mut Account, editions: &Editions)
    ensures { account.new.0 ≡ account.old.0 }
{
    let fix = Fix {
        account: account.number(),
        staff: 3,
        seq: 1,
        what: What::Void(1, 1),
    };
    let priced = Priced {
        again: false,
        day: MONDAY,
        day_price: Pence::new(0),
        week_price: Pence::new(0),
    };
    expect_same(rt, account.fix(editions, fix), Ok(priced));
}

/// What accounts 8 and 7 owe.
fn both_owed<R: Abort>(
    rt: &R,
    eight: &Account,
    seven: &Account,
    editions: &Editions,
) -> ([Quote; 2], [Sets; 2])
    requires eight { 1 ≤ eight.now.0 }
    requires seven { 1 ≤ seven.now.0 }
{
    let (quote, sets) = owed(rt, eight, editions);
    let (other_quote, other_sets) = owed(rt, seven, editions);
    ([quote, other_quote], [sets, other_sets])
}

// The fare of the route is operator 4's. Once the boarding of account 8 is voided, all of it is given back.
const BOARDED: [Told; 2] = [(8, 1, 175, 175, 0, 175), (7, 1, 175, 175, 0, 175)];

const VOIDED: [Told; 2] = [(8, 2, 0, -175, 0, -175), (7, 1, 175, 175, 0, 175)];

/// All rows after two boardings.
const BOARDINGS: &str = "meta farebox 2
posting 1 8 19730 19730 1 175 175 4
posting 2 7 19730 19730 1 175 175 4
share 1 4 175
share 2 4 175
tap 7 1 1 1704697200 19730 25200 50 2
tap 8 1 1 1704697200 19730 25200 50 2
";

/// And once that of account 8 was voided.
const VOIDED_ROWS: &str = "meta farebox 2
posting 1 8 19730 19730 1 175 175 4
posting 2 7 19730 19730 1 175 175 4
posting 3 8 19730 19730 2 0 -175 4
share 1 4 175
share 2 4 175
share 3 4 -175
tap 7 1 1 1704697200 19730 25200 50 2
tap 8 1 1 1704697200 19730 25200 50 2
fix 8 3 1 0 1 1 0 0 0
";

/// A ledger with both boardings, and what is to be posted once that of account 8 was voided.
fn boardings<R: Abort + AllocGlobal>(
    rt: &R,
    editions: &Editions,
) -> (Ledger<MemStore>, ([Quote; 2], [Sets; 2])) {
    let mut ledger = empty_ledger(rt);
    let (mut eight, seven) = (boarded(rt, editions, 8), boarded(rt, editions, 7));
    let first = both_owed(rt, &eight, &seven, editions);
    expect_posted(rt, &mut ledger, (&first.0, &first.1), Ok(&BOARDED));
    void_boarding(rt, &mut eight, editions);
    let second = both_owed(rt, &eight, &seven, editions);
    (expect_rows(rt, ledger, BOARDINGS), second)
}

/// Opens the ledger and posts a batch where memory may be refused: the ledger, opened again, and whether it was posted.
fn posted_or_not<R: Abort + AllocGlobal, S: Alter + Drop>(
    rt: &R,
    ledger: Ledger<S>,
    batch: (&[Quote], &[Sets]),
) -> (Ledger<S>, bool) {
    let conn = ledger.into_connection();
    tell(rt, MAY_BE_REFUSED);
    let (conn, is_posted) = match Ledger::open(rt.alloc(), conn) {
        Err((fault, conn)) => {
            expect_by_store(rt, fault == OpenFault::Store, fault == OpenFault::Memory);
            (conn, false)
        }
        Ok(mut ledger) => {
            let posted = ledger.post(batch.0, batch.1).err();
            if let Some(fault) = posted {
                expect_by_store(rt, fault == LedgerFault::Store, fault == NO_MEMORY);
            }
            (ledger.into_connection(), posted.is_none())
        }
    };
    tell(rt, MAY_NOT_BE);
    (opened(rt, conn), is_posted)
}

// What is due once account 8's boarding was voided is posted. Where that is refused all is as before, and it is posted then.
#[test]
fn posts_all_or_nothing_without_memory(rt: HostRuntime) {
    let (ledger, batch) = boardings(&rt, &sample(&rt));
    let (ledger, is_posted) = posted_or_not(&rt, ledger, (&batch.0, &batch.1));
    if !is_posted {
        let mut ledger = expect_rows(&rt, ledger, BOARDINGS);
        expect_posted(&rt, &mut ledger, (&batch.0, &batch.1), Ok(&VOIDED));
        let _ = expect_rows(&rt, ledger, VOIDED_ROWS);
    }
}
