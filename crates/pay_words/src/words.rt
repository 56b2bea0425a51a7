//! The words that the program is started with, and the job that they ask for.
ghost use Rattle.std.specs.Prelude.{◌≡◌, ℕ, ◌<◌, ◌≤◌, Bool, true, false, codes, drop, List};
ghost use Rattle.std.specs.Prelude.{IfOk, IfErr, IfSome, IsSomeAnd, MatchOption, None, Option, Some, is_some, option_copied, option_map};
ghost use Rattle.std.specs.List.{list_all};
ghost use Rattle.clap.specs.Walk.{texts};
ghost use Rattle.clap.specs.Words.{app_of, first_value, found_of, kind_of, one_text};
ghost use Rattle.clap.specs.declared.builder.command.Command.TheViews.{out-Command as fields_of};
ghost use Rattle.pay_words.specs.CommandLine.{GivesAudit, GivesCheck, GivesExplain, GivesFollow, GivesLog, GivesPage, GivesRebuild, GivesReplay, GivesRun, GivesServe, GivesStatement};
ghost use Rattle.pay_words.specs.CommandLine.{HasAudit, HasCheckTexts, HasExplainTexts, HasFaresAndLedger, HasFaresAndZone, HasFiles, HasFollowTexts, HasLogTexts, HasPageTexts, HasRun, HasServeTexts, HasStatementTexts};
ghost use Rattle.pay_words.specs.CommandLine.{IsFaultOfKind, IsHelpOrMemory, IsVersionOrMemory, flag_text};
ghost use Rattle.pay_words.specs.CommandLine.{audit_app, check_app, explain_app, farebox_app, follow_app, log_app, page_app, rebuild_app, replay_app, run_app, serve_app, statement_app};
ghost use Rattle.pay_words.specs.CommandLine.{flag_option, optional_number, required_number, required_option, required_text, required_word};
ghost use Rattle.pay_words.specs.CommandLine.{required_words, text_option, with_account_and_day, with_against, with_control, with_end, with_fares_and_zone, with_ledger, with_numbers};
ghost use Rattle.clap.specs.Words.{App, with_rule, with_subcommand};
ghost use Rattle.clap.specs.ValueTests.{is_unsigned_in};
ghost use Rattle.clap.specs.Walk.{rule_of};
ghost use Rattle.pay_words.specs.Asked.{IsFaultOf, Text, asked, job_asked, AreJobWords, IsJob, IsJobInRange};
ghost use Rattle.pay_words.specs.Asked.{RunIsTaken, CheckIsTaken, StatementIsTaken, ExplainIsTaken, PageIsTaken, ReplayIsTaken, ServeIsTaken, AuditIsTaken, RebuildIsTaken, FollowIsTaken, LogIsTaken};
ghost use Rattle.pay_dates.specs.Words.{day_of_text};
ghost use Rattle.pay_words.specs.Asked.{IsAnswer, IsJobOrMemory, allowed, audit_job, check_job, explain_job, follow_job, log_job, page_job, run_job, served_job, service_values, statement_job};
ghost use Rattle.pay_words.specs.OneWord.{is_account, is_port, is_replicas};
ghost use Rattle.pay_words.specs.Audit.{Audit};
ghost use Rattle.pay_words.specs.Check.{Check, CheckTexts, check_of_texts, has_after_day, has_against};
ghost use Rattle.pay_words.specs.Explain.{Explain, ExplainTexts, explain_of_texts};
ghost use Rattle.pay_words.specs.Follow.{AreFollowNumbers, Follow, FollowTexts, follow_of_texts, has_partition, may_follow};
ghost use Rattle.pay_words.specs.Greeting.{begins_or_ends_with_space, is_greeting, is_printable, is_word_of_staff, may_greet};
ghost use Rattle.pay_words.specs.Log.{AreLogNumbers, Log, LogTexts, action_of, checking, log_of_texts, making, may_log};
ghost use Rattle.pay_words.specs.Node.{node_port};
ghost use Rattle.pay_words.specs.Page.{ArePorts, Page, PageTexts, has_control, has_own_port, may_show, page_of_texts};
ghost use Rattle.pay_words.specs.Run.{Run, has_journal};
ghost use Rattle.pay_words.specs.Serve.{AreInRange, Serve, ServeTexts, closed_day, has_more, has_no_end, has_ports, leaves_room, numbers_of};
ghost use Rattle.pay_words.specs.Statement.{Statement, StatementTexts, has_lines, may_state, shows_postings, statement_of_texts};
ghost use Rattle.pay_words.specs.Asked.{check as check_asked, run as run_asked, without_dashes};
ghost use Rattle.pay_words.specs.Asked.{audit as audit_asked, explain as explain_asked, follow as follow_asked, log as log_asked, page as page_asked, rebuild as rebuild_asked};
ghost use Rattle.pay_words.specs.Asked.{replay as replay_asked, serve as serve_asked, statement as statement_asked, number_of};
ghost use Rattle.pay_words.specs.declared.words.WordsFault.TheVariants.{Memory};

use crate::help;
use crate::limits::{
    LAST_PARTITION, MOST_ACCOUNT, MOST_AHEAD, MOST_GREETING_BYTES, MOST_PARTITIONS, MOST_PORT,
    MOST_REPLICAS, MOST_SERVED_LANES, MOST_SESSIONS, MOST_SHARDS, MOST_STAYING_LANES,
};
use crate::node::node_port;
use clap::builder::ValueParser;
use clap::error::ErrorKind;
use clap::{Arg, ArgAction, ArgMatches, Command, Error};
use pay_dates::read_day;
use std::alloc::{AllocError, Global};
use thiserror::Error;

/// The version of the program.
const VERSION: &str = "0.1.0";

/// The job that the words ask for, with its values.
#[derive(Drop)]
pub enum Job<'a> {
    /// `run FARES ZONE` and its options: one session, from standard input to standard output.
    Run(RunWords<'a>),
    /// `check FARES` and its options: how many of each thing a fare file has, or whether it prices days as another
    /// does.
    Check(CheckWords<'a>),
    /// `statement FARES ZONE ACCOUNT DAY` and its options: the statement of an account's week, by the lines of
    /// a journal and of standard input, or the long one, by journals alone.
    Statement(StatementWords<'a>),
    /// `explain FARES ZONE ACCOUNT DAY --journal PATH` and its options: why an account's day was charged, or its week
    /// through that day.
    Explain(ExplainWords<'a>),
    /// `page FARES ZONE --journal PATH --port P` and its options: why accounts were charged, as web pages for customer
    /// service.
    Page(PageWords<'a>),
    /// `replay FARES ZONE FILE..`: whether journals can be taken again, and how many lines they have.
    Replay(ReplayWords<'a>),
    /// `serve FARES ZONE --port P --lanes L --shards N --sessions K --close DAY` and the options that may be
    /// left out: sessions of several lanes at once, and the close of a day when all of them have ended.
    Serve(ServeWords<'a>),
    /// `serve FARES ZONE --port P --lanes L --shards N --control C --journal FOLDER --ledger FILE` and the options
    /// that may be left out: a service that stays, where a port for staff closes days and ends it.
    Stay(StayWords<'a>),
    /// `audit FARES ZONE --journal PATH` and its option: whether a journal, what is kept beside it and a ledger
    /// belong together.
    Audit(AuditWords<'a>),
    /// `rebuild FARES LEDGER`: the lines of the taps and corrections that a ledger archives.
    Rebuild(RebuildWords<'a>),
    /// `follow FARES ZONE --log URL --partition P --of N --ledger FILE`: a replica, which answers the lines of a
    /// partition of a replicated log.
    Follow(FollowWords<'a>),
    /// `log make FARES ZONE --log URL --of N --replicas R`, `log check FARES ZONE --log URL --of N`: makes the streams of
    /// a replicated log, or says how they are.
    Log(LogWords<'a>),
}

/// The values of `run FARES ZONE [--journal FILE [--sync]] [--ledger FILE] [--early]`.
#[derive(Clone, Copy)]
pub struct RunWords<'a> {
    /// The path of the fare file.
    pub fares: &'a str,
    /// The text of the time zone, a POSIX rule.
    pub zone: &'a str,
    /// The path of the file of accepted lines, which are taken first, and to which each that is accepted is
    /// added before its reply.
    pub journal: Option<&'a str>,
    /// Whether each line is on the disk before its reply. Only where there is a journal.
    pub syncs: bool,
    /// The path of the SQLite file that days are closed into.
    pub ledger: Option<&'a str>,
    /// Whether a day is closed into that file also where it is not over yet.
    pub early: bool,
}

/// The values of `check FARES [--lint] [--against OLD [--after DAY]]`.
#[derive(Clone, Copy)]
pub struct CheckWords<'a> {
    /// The path of the fare file.
    pub fares: &'a str,
    /// Whether to say where a fault of the file lies, and to warn of what may be a mistake.
    pub lints: bool,
    /// The path of another fare file, by which days have to be priced alike.
    pub against: Option<&'a str>,
    /// The last service day that has to be priced alike, counted from 1970-01-01: 4 to 50,000. Only where there is
    /// another fare file.
    pub after: Option<u32>,
}

/// The values of `statement FARES ZONE ACCOUNT DAY [--journal PATH [--long [--ledger FILE]]]`.
#[derive(Clone, Copy)]
pub struct StatementWords<'a> {
    /// The path of the fare file.
    pub fares: &'a str,
    /// The text of the time zone, a POSIX rule.
    pub zone: &'a str,
    /// The account: 1 to 4,294,967,295.
    pub account: u32,
    /// A service day of the week that is asked for, counted from 1970-01-01: 4 to 50,000.
    pub day: u32,
    /// The path of the file of accepted lines, which are taken first; it is only read. In the long form, of a
    /// journal or of a folder of journals.
    pub journal: Option<&'a str>,
    /// The path of the SQLite file that days were closed into; it is only read. Only in the long form.
    pub ledger: Option<&'a str>,
    /// Whether it is the long form, which has sums and names, and all that the week comes to. Only where there is
    /// a journal.
    pub long: bool,
}

/// The values of `explain FARES ZONE ACCOUNT DAY --journal PATH [--ledger FILE] [--week]`.
#[derive(Clone, Copy)]
pub struct ExplainWords<'a> {
    /// The path of the fare file.
    pub fares: &'a str,
    /// The text of the time zone, a POSIX rule.
    pub zone: &'a str,
    /// The account: 1 to 4,294,967,295.
    pub account: u32,
    /// The service day, counted from 1970-01-01: 4 to 50,000.
    pub day: u32,
    /// The path of a journal, or of a folder of journals; it is only read.
    pub journal: &'a str,
    /// The path of the SQLite file that days were closed into; it is only read.
    pub ledger: Option<&'a str>,
    /// Whether the week through that day is asked for, in place of the day alone.
    pub week: bool,
}

/// The values of `page FARES ZONE --journal PATH --port P [--control C [--greeting TEXT] [--staff FILE]] [--ledger FILE]`.
#[derive(Clone, Copy)]
pub struct PageWords<'a> {
    /// The path of the fare file.
    pub fares: &'a str,
    /// The text of the time zone, a POSIX rule.
    pub zone: &'a str,
    /// The path of a journal, or of a folder of journals; it is only read.
    pub journal: &'a str,
    /// The port of 127.0.0.1 that answers browsers: 1 to 65,535.
    pub port: u16,
    /// The port of 127.0.0.1 for the staff of a service, where it is asked what it has counted, and corrections are sent:
    /// 1 to 65,535, another than that of the pages. Without it, nothing is asked of a service.
    pub control: Option<u16>,
    /// The line with which connections to that port have to begin, if they do.
    pub greeting: Option<&'a str>,
    /// The path of the file of the clerks who may correct. Without it, nobody does.
    pub staff: Option<&'a str>,
    /// The path of the SQLite file that days were closed into; it is only read. Without it, what was posted is not
    /// shown.
    pub ledger: Option<&'a str>,
}

/// The values of `replay FARES ZONE FILE..`.
#[derive(Drop)]
pub struct ReplayWords<'a> {
    /// The path of the fare file.
    pub fares: &'a str,
    /// The text of the time zone, a POSIX rule.
    pub zone: &'a str,
    /// The paths of the journals, in the order in which they were given: at least one.
    pub files: Vec<&'a str>,
}

/// The values of `serve FARES ZONE --port P --lanes L --shards N --sessions K --close DAY
/// [--journal FOLDER] [--ledger FILE] [--early]`.
#[derive(Clone, Copy)]
pub struct ServeWords<'a> {
    /// The path of the fare file.
    pub fares: &'a str,
    /// The text of the time zone, a POSIX rule.
    pub zone: &'a str,
    /// The port that the first lane listens on; each further lane has the next, up to 65,535.
    pub port: u16,
    /// How many lanes there are: 1 to 15.
    pub lanes: u8,
    /// How many shards the accounts are spread over: 1 to 16.
    pub shards: u8,
    /// How many connections each lane serves, one after another: 1 to 1,000.
    pub sessions: u32,
    /// The service day that is closed at the end, counted from 1970-01-01: 4 to 50,000.
    pub close: u32,
    /// The path of the folder of the shards' journals.
    pub journal: Option<&'a str>,
    /// The path of the SQLite file that the day is closed into.
    pub ledger: Option<&'a str>,
    /// Whether the day is closed into that file also where it is not over yet.
    pub early: bool,
}

/// The values of `serve FARES ZONE --port P --lanes L --shards N --control C --journal FOLDER --ledger FILE
/// [--ahead S] [--refused FILE] [--greeting TEXT] [--early]`.
#[derive(Clone, Copy)]
pub struct StayWords<'a> {
    /// The path of the fare file.
    pub fares: &'a str,
    /// The text of the time zone, a POSIX rule.
    pub zone: &'a str,
    /// The port that all lanes serve.
    pub port: u16,
    /// How many lanes there are: 1 to 14. One lane more is that of the staff.
    pub lanes: u8,
    /// How many shards the accounts are spread over: 1 to 16.
    pub shards: u8,
    /// The port of the staff, another than `port`.
    pub control: u16,
    /// How many seconds a tap may be ahead of this machine's clock. Without it, any.
    pub ahead: Option<u32>,
    /// The path of the file that refused lines are kept in.
    pub refused: Option<&'a str>,
    /// The line with which a connection has to begin: 1 to 128 printable ASCII characters, with no space at either end,
    /// and not `STOP`, not `STATS` and none that begins with `BACKUP ` or `OPEN `. Without it, any.
    pub greeting: Option<&'a str>,
    /// The path of the folder of the shards' journals.
    pub journal: &'a str,
    /// The path of the SQLite file that days are closed into.
    pub ledger: &'a str,
    /// Whether a day is closed into that file also where it is not over yet.
    pub early: bool,
}

/// The values of `serve`, of either form or of none.
#[derive(Clone, Copy)]
struct Service<'a> {
    fares: &'a str,
    zone: &'a str,
    port: u16,
    lanes: u8,
    shards: u8,
    sessions: Option<u32>,
    close: Option<&'a str>,
    control: Option<u16>,
    ahead: Option<u32>,
    refused: Option<&'a str>,
    greeting: Option<&'a str>,
    journal: Option<&'a str>,
    ledger: Option<&'a str>,
    early: bool,
}

/// The values of `audit FARES ZONE --journal PATH [--ledger FILE]`.
#[derive(Clone, Copy)]
pub struct AuditWords<'a> {
    /// The path of the fare file.
    pub fares: &'a str,
    /// The text of the time zone, a POSIX rule.
    pub zone: &'a str,
    /// The path of a journal, or of a folder of journals; it is only read.
    pub journal: &'a str,
    /// The path of the SQLite file that days were closed into.
    pub ledger: Option<&'a str>,
}

/// The values of `rebuild FARES LEDGER`.
#[derive(Clone, Copy)]
pub struct RebuildWords<'a> {
    /// The path of the fare file.
    pub fares: &'a str,
    /// The path of the SQLite file that days were closed into.
    pub ledger: &'a str,
}

/// The values of `follow FARES ZONE --log URL --partition P --of N --ledger FILE`.
#[derive(Clone, Copy)]
pub struct FollowWords<'a> {
    /// The path of the fare file.
    pub fares: &'a str,
    /// The text of the time zone, a POSIX rule.
    pub zone: &'a str,
    /// The port of 127.0.0.1 of a node of the log: 1 to 65,535.
    pub port: u16,
    /// The partition whose lines are answered: 0 to `of` - 1.
    pub partition: u8,
    /// How many partitions the log has: 1 to 16.
    pub of: u8,
    /// The path of the SQLite file that days are closed into.
    pub ledger: &'a str,
}

/// What is done with the streams of a replicated log.
#[derive(Clone, Copy)]
pub enum LogAction {
    /// `make`: they are made.
    Make {
        /// How many nodes have a copy of each: 1 to 5.
        replicas: u8,
    },
    /// `check`: it is said how they are.
    Check,
}

/// The values of `log make FARES ZONE --log URL --of N --replicas R` and of `log check FARES ZONE --log URL --of N`.
#[derive(Clone, Copy)]
pub struct LogWords<'a> {
    /// What is done.
    pub action: LogAction,
    /// The path of the fare file.
    pub fares: &'a str,
    /// The text of the time zone, a POSIX rule.
    pub zone: &'a str,
    /// The port of 127.0.0.1 of a node of the log: 1 to 65,535.
    pub port: u16,
    /// How many partitions the log has: 1 to 16.
    pub of: u8,
}

/// Why the words give no job.
#[derive(Debug, Drop, Error)]
pub enum WordsFault {
    /// The words ask for help, and this is its text.
    #[error("{0}")]
    Help(String),
    /// The words ask for the version, and this is the line that says it.
    #[error("{0}")]
    Version(String),
    /// The words name no program, or are not those that the program takes.
    #[error("usage")]
    Usage,
    /// Memory for reading the words was refused.
    #[error("90 Memory")]
    Memory,
}

impl From<AllocError> for WordsFault {
    ghost from_gives = { λ _ fault. fault ≡ Memory };

    fn from(_error: AllocError) -> WordsFault {
        WordsFault::Memory
    }
}

/// Reads the words of the process, of which the first is the program's own name.
///
/// A word that begins with a hyphen and goes on is an option: help, in the place of a program the
/// version, one of the options of its program, and no other. The value of an option is the next word, or
/// stands after an equals sign in the same; `--sync`, `--early`, `--lint`, `--week` and `--long` have none. `--sync` and
/// `--long` are taken with `--journal` alone, `--after` with `--against`, and `--ledger` of `statement` with `--long`. Each is given once, before, between or after the other
/// values. `--` says that each word after it is a value. Numbers are decimal digits, which may have a plus and zeros
/// before them; one outside its range is refused as `Usage`, and so are lanes with a port above 65,535. A day is given
/// by its number or by its date, as `2024-01-08`.
///
/// Of `page`, `--staff` and `--greeting` are taken with `--control` alone, whose port is another than that of the pages.
/// With `--control` a service stays. It then has no `--sessions` and no `--close`, at most 14 lanes, a
/// journal and a ledger, another port for its staff, and perhaps a greeting: 1 to 128 printable ASCII characters with
/// no space at either end, and no line by which staff ask something of it. Without `--control` it has both `--sessions`
/// and `--close`, and no `--ahead`, `--refused` or `--greeting`.
///
/// `--log` names a port of 127.0.0.1, as `nats://127.0.0.1:4222`. Of `follow`, whose options are all needed,
/// `--partition` is below `--of`. Of `log`, whose first word is `make` or `check`, `--replicas` is needed with `make`, and
/// not taken with `check`.
pub fn read_words<'a>(alloc: Global, words: &'a [&'a str]) -> Result<Job<'a>, WordsFault>
    ensures job { IfOk result (λ job. asked (texts words.entry.now) ≡ job_asked job) }
    ensures refused { IfErr result (IsFaultOf (asked (texts words.entry.now))) }

    ensures in_range { IfOk result IsJobInRange }

    // But for the program's own name and a `--`, the words are the job's: in order, but that options may stand
    // anywhere.
    ensures words { IfOk result (λ job.
        AreJobWords job (without_dashes (drop 1 (texts words.entry.now)))) }

    // Two words with no hyphen (45) before them, and options at most once each, in any order, are the values of
    // `run`, where what is synced is a journal.
    ensures run { RunIsTaken (texts words.entry.now) result }

    // One word with no hyphen before it, and options at most once each, in any order, are the values of `check`, where
    // a day is one, and comes with another fare file.
    ensures check { CheckIsTaken (texts words.entry.now) result }

    // Two words with no hyphen before them, an account, a day, and perhaps options that may stand together, anywhere, are
    // the values of `statement`.
    ensures statement { StatementIsTaken (texts words.entry.now) result }

    // Two words with no hyphen before them, an account, a day, a journal, and perhaps other options, in any order, are
    // the values of `explain`.
    ensures explain { ExplainIsTaken (texts words.entry.now) result }

    // Two words with no hyphen before them, a journal, a port, and perhaps a ledger and the port for the staff of a
    // service, with its greeting and a file of clerks, in any order, are the values of `page`.
    ensures page { PageIsTaken (texts words.entry.now) result }

    // Three words or more with no hyphen before them are the values of `replay`.
    ensures replay { ReplayIsTaken (texts words.entry.now) result }

    // Two words with no hyphen before them and options, in any order, with numbers in their ranges, are the values of
    // `serve`, where they are those of a service that ends, and each lane has a port, or of one that stays.
    ensures serve { ServeIsTaken (texts words.entry.now) result }

    // Two words with no hyphen before them, a journal, and perhaps a ledger, in any order, are the values of `audit`.
    ensures audit { AuditIsTaken (texts words.entry.now) result }

    // Two words with no hyphen before them are the values of `rebuild`.
    ensures rebuild { RebuildIsTaken (texts words.entry.now) result }

    // Two words with no hyphen before them, the URL of a node, a partition, how many there are, and a ledger, in any
    // order, are the values of `follow`, where it is one of the partitions.
    ensures follow { FollowIsTaken (texts words.entry.now) result }

    // An action, two words with no hyphen before them, the URL of a node, how many partitions there are, and a number
    // of replicas where the log is made, in any order, are the values of `log`.
    ensures log { LogIsTaken (texts words.entry.now) result }
{
    pay_dates::laws::named_days();
    let command = farebox_command(alloc)?;
    match command.try_get_matches_from(words) {
        Ok(matches) => job_of(alloc, &matches),
        Err(error) => Err(fault_of(alloc, &error)),
    }
}

fn farebox_command<'a>(alloc: Global) -> Result<Command<'a>, AllocError>
    ensures { IfOk result (λ command. app_of command ≡ farebox_app) }
{
    let top = Command::new(alloc, "farebox")
        .version(VERSION)
        .about(help::PROGRAM)
        .after_help(help::BELOW_PROGRAM)
        .subcommand_required(true);
    let one = with_program(Ok(top), run_command(alloc));
    let two = with_program(one, check_command(alloc));
    let three = with_program(two, statement_command(alloc));
    let four = with_program(three, explain_command(alloc));
    let five = with_program(four, page_command(alloc));
    let six = with_program(five, replay_command(alloc));
    let seven = with_program(six, serve_command(alloc));
    let eight = with_program(seven, audit_command(alloc));
    let nine = with_program(eight, rebuild_command(alloc));
    let ten = with_program(nine, follow_command(alloc));
    with_program(ten, log_command(alloc))
}

/// A command with a program more, if both could be made.
fn with_program<'a>(
    command: Result<Command<'a>, AllocError>,
    program: Result<Command<'a>, AllocError>,
) -> Result<Command<'a>, AllocError>
    requires local { IfOk program (λ p. (fields_of p).has_globals ≡ false) }
    ensures { (app sub : App) → IfOk command.entry (λ c. app_of c ≡ app) → IfOk program.entry (λ p. app_of p ≡ sub)
        → IfOk result (λ r. app_of r ≡ with_subcommand app sub.top) }
{
    command?.subcommand(program?)
}

fn run_command<'a>(alloc: Global) -> Result<Command<'a>, AllocError>
    ensures app { IfOk result (λ command. app_of command ≡ run_app) }
    ensures local { IfOk result (λ command. (fields_of command).has_globals ≡ false) }
{
    let command = Command::new(alloc, "run")
        .about(help::RUN)
        .after_help(help::BELOW_RUN);
    let kept = with_two(
        with_fares_and_zone(alloc, command)?,
        text_option(alloc, "journal", "FILE", help::JOURNAL),
        flag_option(alloc, "sync", help::SYNC),
    )?;
    with_ledger(alloc, kept)
}

/// A command with the options of what closes days into a file, after the words that it has.
fn with_ledger<'a>(alloc: Global, command: Command<'a>) -> Result<Command<'a>, AllocError>
    requires { (fields_of command).has_globals ≡ false }
    ensures app { IfOk result (λ r. app_of r ≡ with_ledger (app_of command.entry)) }
    ensures local { IfOk result (λ r. (fields_of r).has_globals ≡ false) }
{
    with_two(
        command,
        text_option(alloc, "ledger", "FILE", help::LEDGER),
        flag_option(alloc, "early", help::EARLY),
    )
}

/// A command with the words FARES and ZONE, after those that it has.
fn with_fares_and_zone<'a>(alloc: Global, command: Command<'a>) -> Result<Command<'a>, AllocError>
    requires { (fields_of command).has_globals ≡ false }
    ensures app { IfOk result (λ r. app_of r ≡ with_fares_and_zone (app_of command.entry)) }
    ensures local { IfOk result (λ r. (fields_of r).has_globals ≡ false) }
{
    with_two(
        command,
        text_word(alloc, "FARES", help::FARES),
        text_word(alloc, "ZONE", help::ZONE),
    )
}

/// A command with two arguments, after those that it has.
fn with_two<'a>(
    command: Command<'a>,
    first: Arg<'a>,
    second: Arg<'a>,
) -> Result<Command<'a>, AllocError>
    requires local { (fields_of command).has_globals ≡ false }
    requires first { first.global ≡ false }
    requires second { second.global ≡ false }
    ensures app { IfOk result (λ r. app_of r
        ≡ with_rule (with_rule (app_of command.entry) (rule_of first.entry)) (rule_of second.entry)) }
    ensures local { IfOk result (λ r. (fields_of r).has_globals ≡ false) }
{
    command.arg(first)?.arg(second)
}

fn check_command<'a>(alloc: Global) -> Result<Command<'a>, AllocError>
    ensures app { IfOk result (λ command. app_of command ≡ check_app) }
    ensures local { IfOk result (λ command. (fields_of command).has_globals ≡ false) }
{
    let command = Command::new(alloc, "check")
        .about(help::CHECK)
        .after_help(help::BELOW_CHECK);
    let linted = with_two(
        command,
        text_word(alloc, "FARES", help::FARES),
        flag_option(alloc, "lint", help::LINT),
    )?;
    with_against(alloc, linted)
}

/// A command with the options of `check` that compare two fare files, after the words that it has.
fn with_against<'a>(alloc: Global, command: Command<'a>) -> Result<Command<'a>, AllocError>
    requires { (fields_of command).has_globals ≡ false }
    ensures app { IfOk result (λ r. app_of r ≡ with_against (app_of command.entry)) }
    ensures local { IfOk result (λ r. (fields_of r).has_globals ≡ false) }
{
    with_two(
        command,
        text_option(alloc, "against", "OLD", help::AGAINST),
        text_option(alloc, "after", "DAY", help::AFTER),
    )
}

fn statement_command<'a>(alloc: Global) -> Result<Command<'a>, AllocError>
    ensures app { IfOk result (λ command. app_of command ≡ statement_app) }
    ensures local { IfOk result (λ command. (fields_of command).has_globals ≡ false) }
{
    let command = Command::new(alloc, "statement")
        .about(help::STATEMENT)
        .after_help(help::BELOW_STATEMENT);
    let kept = with_two(
        with_account_and_day(alloc, command, help::DAY)?,
        text_option(alloc, "journal", "PATH", help::JOURNAL_READ),
        text_option(alloc, "ledger", "FILE", help::LEDGER_STATED),
    )?;
    kept.arg(flag_option(alloc, "long", help::LONG))
}

/// A command with the words FARES, ZONE, ACCOUNT and DAY, after those that it has; help says what the day is.
fn with_account_and_day<'a>(
    alloc: Global,
    command: Command<'a>,
    day: &'a str,
) -> Result<Command<'a>, AllocError>
    requires { (fields_of command).has_globals ≡ false }
    ensures app { IfOk result (λ r. app_of r ≡ with_account_and_day (app_of command.entry)) }
    ensures local { IfOk result (λ r. (fields_of r).has_globals ≡ false) }
{
    with_two(
        with_fares_and_zone(alloc, command)?,
        number_word(alloc, "ACCOUNT", help::ACCOUNT, 1, MOST_ACCOUNT),
        text_word(alloc, "DAY", day),
    )
}

fn explain_command<'a>(alloc: Global) -> Result<Command<'a>, AllocError>
    ensures app { IfOk result (λ command. app_of command ≡ explain_app) }
    ensures local { IfOk result (λ command. (fields_of command).has_globals ≡ false) }
{
    let command = Command::new(alloc, "explain")
        .about(help::EXPLAIN)
        .after_help(help::BELOW_EXPLAIN);
    let kept = with_two(
        with_account_and_day(alloc, command, help::DAY_EXPLAINED)?,
        required_text(alloc, "journal", "PATH", help::JOURNAL_EXPLAINED),
        text_option(alloc, "ledger", "FILE", help::LEDGER_EXPLAINED),
    )?;
    kept.arg(flag_option(alloc, "week", help::WEEK))
}

fn page_command<'a>(alloc: Global) -> Result<Command<'a>, AllocError>
    ensures app { IfOk result (λ command. app_of command ≡ page_app) }
    ensures local { IfOk result (λ command. (fields_of command).has_globals ≡ false) }
{
    let command = Command::new(alloc, "page")
        .about(help::PAGE)
        .after_help(help::BELOW_PAGE);
    let shown = with_two(
        with_fares_and_zone(alloc, command)?,
        required_text(alloc, "journal", "PATH", help::JOURNAL_SHOWN),
        number_option(alloc, "port", "P", help::PORT_OF_PAGES, 1, MOST_PORT),
    )?;
    with_control(alloc, shown)?.arg(text_option(alloc, "ledger", "FILE", help::LEDGER_SHOWN))
}

/// A command with the options of `page` by which a service is asked and clerks may correct, after the words that it has.
fn with_control<'a>(alloc: Global, command: Command<'a>) -> Result<Command<'a>, AllocError>
    requires { (fields_of command).has_globals ≡ false }
    ensures app { IfOk result (λ r. app_of r ≡ with_control (app_of command.entry)) }
    ensures local { IfOk result (λ r. (fields_of r).has_globals ≡ false) }
{
    let asking = with_two(
        command,
        optional_number(alloc, "control", "C", help::CONTROL_OF_PAGES, 1, MOST_PORT),
        text_option(alloc, "greeting", "TEXT", help::GREETING_OF_PAGES),
    )?;
    asking.arg(text_option(alloc, "staff", "FILE", help::STAFF))
}

fn replay_command<'a>(alloc: Global) -> Result<Command<'a>, AllocError>
    ensures app { IfOk result (λ command. app_of command ≡ replay_app) }
    ensures local { IfOk result (λ command. (fields_of command).has_globals ≡ false) }
{
    let command = Command::new(alloc, "replay")
        .about(help::REPLAY)
        .after_help(help::BELOW_REPLAY);
    with_fares_and_zone(alloc, command)?.arg(text_words(alloc, "FILE", help::FILES))
}

fn serve_command<'a>(alloc: Global) -> Result<Command<'a>, AllocError>
    ensures app { IfOk result (λ command. app_of command ≡ serve_app) }
    ensures local { IfOk result (λ command. (fields_of command).has_globals ≡ false) }
{
    let command = Command::new(alloc, "serve")
        .about(help::SERVE)
        .after_help(help::BELOW_SERVE);
    let numbered = with_numbers(alloc, with_fares_and_zone(alloc, command)?)?;
    let kept = with_end(alloc, numbered)?.arg(text_option(
        alloc,
        "journal",
        "FOLDER",
        help::JOURNALS,
    ))?;
    with_ledger(alloc, kept)
}

fn audit_command<'a>(alloc: Global) -> Result<Command<'a>, AllocError>
    ensures app { IfOk result (λ command. app_of command ≡ audit_app) }
    ensures local { IfOk result (λ command. (fields_of command).has_globals ≡ false) }
{
    let command = Command::new(alloc, "audit")
        .about(help::AUDIT)
        .after_help(help::BELOW_AUDIT);
    with_two(
        with_fares_and_zone(alloc, command)?,
        required_text(alloc, "journal", "PATH", help::JOURNAL_AUDITED),
        text_option(alloc, "ledger", "FILE", help::LEDGER_READ),
    )
}

fn rebuild_command<'a>(alloc: Global) -> Result<Command<'a>, AllocError>
    ensures app { IfOk result (λ command. app_of command ≡ rebuild_app) }
    ensures local { IfOk result (λ command. (fields_of command).has_globals ≡ false) }
{
    let command = Command::new(alloc, "rebuild")
        .about(help::REBUILD)
        .after_help(help::BELOW_REBUILD);
    with_two(
        command,
        text_word(alloc, "FARES", help::FARES),
        text_word(alloc, "LEDGER", help::LEDGER_READ),
    )
}

fn follow_command<'a>(alloc: Global) -> Result<Command<'a>, AllocError>
    ensures app { IfOk result (λ command. app_of command ≡ follow_app) }
    ensures local { IfOk result (λ command. (fields_of command).has_globals ≡ false) }
{
    let command = Command::new(alloc, "follow")
        .about(help::FOLLOW)
        .after_help(help::BELOW_FOLLOW);
    let placed = with_two(
        with_fares_and_zone(alloc, command)?,
        required_text(alloc, "log", "URL", help::LOG_URL),
        number_option(alloc, "partition", "P", help::PARTITION, 0, LAST_PARTITION),
    )?;
    with_two(
        placed,
        partitions_option(alloc),
        required_text(alloc, "ledger", "FILE", help::LEDGER),
    )
}

/// The option `--of`, which has to be there.
fn partitions_option<'a>(alloc: Global) -> Arg<'a>
    ensures rule { rule_of result ≡ required_option (codes "of") 1 MOST_PARTITIONS }
    ensures local { result.global ≡ false }
{
    number_option(alloc, "of", "N", help::OF, 1, MOST_PARTITIONS)
}

fn log_command<'a>(alloc: Global) -> Result<Command<'a>, AllocError>
    ensures app { IfOk result (λ command. app_of command ≡ log_app) }
    ensures local { IfOk result (λ command. (fields_of command).has_globals ≡ false) }
{
    let command = Command::new(alloc, "log")
        .about(help::LOG)
        .after_help(help::BELOW_LOG);
    let named = with_two(
        command,
        text_word(alloc, "ACTION", help::ACTION),
        text_word(alloc, "FARES", help::FARES),
    )?;
    let placed = with_two(
        named,
        text_word(alloc, "ZONE", help::ZONE),
        required_text(alloc, "log", "URL", help::LOG_URL),
    )?;
    with_two(
        placed,
        partitions_option(alloc),
        optional_number(alloc, "replicas", "R", help::REPLICAS, 1, MOST_REPLICAS),
    )
}

/// A command with the options that both forms of `serve` need, after the words that it has.
fn with_numbers<'a>(alloc: Global, command: Command<'a>) -> Result<Command<'a>, AllocError>
    requires { (fields_of command).has_globals ≡ false }
    ensures app { IfOk result (λ r. app_of r ≡ with_numbers (app_of command.entry)) }
    ensures local { IfOk result (λ r. (fields_of r).has_globals ≡ false) }
{
    command
        .arg(number_option(alloc, "port", "P", help::PORT, 1, MOST_PORT))?
        .arg(number_option(alloc, "lanes", "L", help::LANES, 1, MOST_SERVED_LANES))?
        .arg(number_option(alloc, "shards", "N", help::SHARDS, 1, MOST_SHARDS))
}

/// A command with the options of one form of `serve` alone, after the words that it has.
fn with_end<'a>(alloc: Global, command: Command<'a>) -> Result<Command<'a>, AllocError>
    requires { (fields_of command).has_globals ≡ false }
    ensures app { IfOk result (λ r. app_of r ≡ with_end (app_of command.entry)) }
    ensures local { IfOk result (λ r. (fields_of r).has_globals ≡ false) }
{
    let ended = with_two(
        command,
        optional_number(alloc, "sessions", "K", help::SESSIONS, 1, MOST_SESSIONS),
        text_option(alloc, "close", "DAY", help::CLOSE),
    )?;
    let stays = with_two(
        ended,
        optional_number(alloc, "control", "C", help::CONTROL, 1, MOST_PORT),
        optional_number(alloc, "ahead", "S", help::AHEAD, 0, MOST_AHEAD),
    )?;
    with_two(
        stays,
        text_option(alloc, "refused", "FILE", help::REFUSED),
        text_option(alloc, "greeting", "TEXT", help::GREETING),
    )
}

/// A word that has to be there.
fn text_word<'a>(alloc: Global, name: &'a str, help: &'a str) -> Arg<'a>
    ensures rule { rule_of result ≡ required_word name.entry.now }
    ensures local { result.global ≡ false }
{
    Arg::new(alloc, name).required(true).help(help)
}

/// Words of which one at least has to be there.
fn text_words<'a>(alloc: Global, name: &'a str, help: &'a str) -> Arg<'a>
    ensures rule { rule_of result ≡ required_words name.entry.now }
    ensures local { result.global ≡ false }
{
    text_word(alloc, name, help).action(ArgAction::Append)
}

/// An option with a text, which may be there; help calls the text `value`.
fn text_option<'a>(alloc: Global, name: &'a str, value: &'a str, help: &'a str) -> Arg<'a>
    ensures rule { rule_of result ≡ text_option name.entry.now }
    ensures local { result.global ≡ false }
{
    Arg::new(alloc, name)
        .long(name)
        .value_name(value)
        .help(help)
}

/// An option with a text, which has to be there; help calls the text `value`.
fn required_text<'a>(alloc: Global, name: &'a str, value: &'a str, help: &'a str) -> Arg<'a>
    ensures rule { rule_of result ≡ required_text name.entry.now }
    ensures local { result.global ≡ false }
{
    text_word(alloc, name, help).long(name).value_name(value)
}

/// An option with a number in its range, which may be there; help calls the number `value`.
fn optional_number<'a>(
    alloc: Global,
    name: &'a str,
    value: &'a str,
    help: &'a str,
    least: u64,
    most: u64,
) -> Arg<'a>
    ensures rule { rule_of result ≡ optional_number name.entry.now least most }
    ensures local { result.global ≡ false }
{
    text_option(alloc, name, value, help).value_parser(ValueParser::unsigned(least, most))
}

/// An option without a value, which may be there.
fn flag_option<'a>(alloc: Global, name: &'a str, help: &'a str) -> Arg<'a>
    ensures rule { rule_of result ≡ flag_option name.entry.now }
    ensures local { result.global ≡ false }
{
    Arg::new(alloc, name)
        .long(name)
        .action(ArgAction::SetTrue)
        .help(help)
}

/// A number in its range, which has to be there.
fn number_word<'a>(alloc: Global, name: &'a str, help: &'a str, least: u64, most: u64) -> Arg<'a>
    ensures rule { rule_of result ≡ required_number name.entry.now least most }
    ensures local { result.global ≡ false }
{
    text_word(alloc, name, help).value_parser(ValueParser::unsigned(least, most))
}

/// An option with a number in its range, which has to be there; help calls the number `value`.
fn number_option<'a>(
    alloc: Global,
    name: &'a str,
    value: &'a str,
    help: &'a str,
    least: u64,
    most: u64,
) -> Arg<'a>
    ensures rule { rule_of result ≡ required_option name.entry.now least most }
    ensures local { result.global ≡ false }
{
    number_word(alloc, name, help, least, most)
        .long(name)
        .value_name(value)
}

fn job_of<'a>(alloc: Global, matches: &ArgMatches<'a>) -> Result<Job<'a>, WordsFault>
    ensures run { (r : Run) → GivesRun matches.now r → IsAnswer (allowed (run_asked r)) result }
    ensures check { (c : Check) → GivesCheck matches.now c → IsAnswer (allowed (check_asked c)) result }
    ensures statement { (s : Statement) → GivesStatement matches.now s → IsAnswer (allowed (statement_asked s)) result }
    ensures explain { (e : Explain) → GivesExplain matches.now e → IsAnswer (allowed (explain_asked e)) result }
    ensures page { (p : Page) → GivesPage matches.now p → IsAnswer (allowed (page_asked p)) result }
    ensures replay { (fares zone : Text) (files : List Text)
        → GivesReplay matches.now fares zone files → IsJobOrMemory (replay_asked fares zone files) result }
    ensures serve { (s : Serve) → GivesServe matches.now s → IsAnswer (allowed (serve_asked s)) result }
    ensures audit { (a : Audit) → GivesAudit matches.now a → IsJob (audit_asked a) result }
    ensures rebuild { (fares ledger : Text) → GivesRebuild matches.now fares ledger → IsJob (rebuild_asked fares ledger) result }
    ensures follow { (f : Follow) → GivesFollow matches.now f → IsAnswer (allowed (follow_asked f)) result }
    ensures log { (l : Log) → GivesLog matches.now l → IsAnswer (allowed (log_asked l)) result }
{
    match matches.subcommand() {
        Some(("run", run)) => run_job(run),
        Some(("check", check)) => check_job(check),
        Some(("statement", statement)) => statement_job(statement),
        Some(("explain", explain)) => explain_job(explain),
        Some(("page", page)) => page_job(page),
        Some(("replay", replay)) => replay_job(alloc, replay),
        Some(("serve", serve)) => serve_job(serve),
        Some(("audit", audit)) => audit_job(audit),
        Some(("rebuild", rebuild)) => rebuild_job(rebuild),
        Some(("follow", follow)) => follow_job(follow),
        Some(("log", log)) => log_job(log),
        _ => Err(WordsFault::Usage),
    }
}

fn run_job<'a>(run: &ArgMatches<'a>) -> Result<Job<'a>, WordsFault>
    ensures { (r : Run) → HasRun (found_of run.now) r → IsAnswer (allowed (run_asked r)) result }
{
    match run_words(run) {
        Some(words) => job_with_journal(words),
        None => Err(WordsFault::Usage),
    }
}

fn run_words<'a>(run: &ArgMatches<'a>) -> Option<RunWords<'a>>
    ensures { (r : Run) → HasRun (found_of run.now) r → IsSomeAnd result (λ words. run_job words ≡ r) }
{
    Some(RunWords {
        fares: run.get_str("FARES")?,
        zone: run.get_str("ZONE")?,
        journal: run.get_str("journal"),
        syncs: is_flagged(run, "sync"),
        ledger: run.get_str("ledger"),
        early: is_flagged(run, "early"),
    })
}

/// Whether the flag of this name was given.
fn is_flagged(matches: &ArgMatches<'_>, name: &str) -> bool
    ensures { (given : Bool) → one_text (found_of matches.now) name.now ≡ Some (flag_text given) → result ≡ given }
{
    matches.get_flag(name)
}

/// The job of `run`, where what is synced is a journal.
fn job_with_journal(words: RunWords<'_>) -> Result<Job<'_>, WordsFault>
    ensures { IsAnswer (allowed (run_asked (run_job words.entry))) result }
{
    if has_journal(&words) {
        Ok(Job::Run(words))
    } else {
        Err(WordsFault::Usage)
    }
}

/// Whether there is a journal, if one is to be synced.
fn has_journal(words: &RunWords<'_>) -> bool
    ensures { result ≡ has_journal (run_job words.now) }
{
    !words.syncs || words.journal.is_some()
}

fn check_job<'a>(check: &ArgMatches<'a>) -> Result<Job<'a>, WordsFault>
    ensures { (t : CheckTexts) → HasCheckTexts (found_of check.now) t
        → IsAnswer (allowed (check_asked (check_of_texts t))) result }
{
    match check_words(check) {
        Some(words) => job_with_against(words),
        None => Err(WordsFault::Usage),
    }
}

/// The values of `check`, where a day that is given is one.
fn check_words<'a>(check: &ArgMatches<'a>) -> Option<CheckWords<'a>>
    ensures { (t : CheckTexts) → HasCheckTexts (found_of check.now) t
        → MatchOption result (has_after_day (check_of_texts t) ≡ false) (λ words. check_job words ≡ check_of_texts t) }
{
    Some(CheckWords {
        fares: check.get_str("FARES")?,
        lints: is_flagged(check, "lint"),
        against: check.get_str("against"),
        after: match check.get_str("after") {
            Some(day) => Some(read_day(day)?),
            None => None,
        },
    })
}

/// The job of `check`, where a day comes with another fare file.
fn job_with_against(words: CheckWords<'_>) -> Result<Job<'_>, WordsFault>
    ensures { IsAnswer (allowed (check_asked (check_job words.entry))) result }
{
    if has_against(&words) {
        Ok(Job::Check(words))
    } else {
        Err(WordsFault::Usage)
    }
}

/// Whether there is another fare file, if days up to one are compared.
fn has_against(words: &CheckWords<'_>) -> bool
    ensures { result ≡ has_against (check_job words.now) }
{
    words.after.is_none() || words.against.is_some()
}

fn statement_job<'a>(statement: &ArgMatches<'a>) -> Result<Job<'a>, WordsFault>
    ensures { (t : StatementTexts) → HasStatementTexts (found_of statement.now) t → is_account t.account ≡ true
        → IsAnswer (allowed (statement_asked (statement_of_texts t))) result }
{
    match statement_words(statement) {
        Some(words) => stated_job(words),
        None => Err(WordsFault::Usage),
    }
}

/// The values of `statement`, where its day is one.
fn statement_words<'a>(statement: &ArgMatches<'a>) -> Option<StatementWords<'a>>
    ensures { (t : StatementTexts) → HasStatementTexts (found_of statement.now) t → is_account t.account ≡ true
        → MatchOption result (day_of_text t.day ≡ None) (λ words. statement_job words ≡ statement_of_texts t) }
{
    Some(StatementWords {
        fares: statement.get_str("FARES")?,
        zone: statement.get_str("ZONE")?,
        account: number_of(statement, "ACCOUNT")?,
        day: read_day(statement.get_str("DAY")?)?,
        journal: statement.get_str("journal"),
        ledger: statement.get_str("ledger"),
        long: is_flagged(statement, "long"),
    })
}

/// The job of `statement`, where its options may stand together.
fn stated_job(words: StatementWords<'_>) -> Result<Job<'_>, WordsFault>
    ensures { IsAnswer (allowed (statement_asked (statement_job words.entry))) result }
{
    if has_lines(&words) && shows_postings(&words) {
        Ok(Job::Statement(words))
    } else {
        Err(WordsFault::Usage)
    }
}

/// Whether there is a journal, if the statement is a long one.
fn has_lines(words: &StatementWords<'_>) -> bool
    ensures { result ≡ has_lines (statement_job words.now) }
{
    !words.long || words.journal.is_some()
}

/// Whether it is a long one, if there is a ledger.
fn shows_postings(words: &StatementWords<'_>) -> bool
    ensures { result ≡ shows_postings (statement_job words.now) }
{
    words.ledger.is_none() || words.long
}

fn explain_job<'a>(explain: &ArgMatches<'a>) -> Result<Job<'a>, WordsFault>
    ensures { (t : ExplainTexts) → HasExplainTexts (found_of explain.now) t → is_account t.account ≡ true
        → IsAnswer (allowed (explain_asked (explain_of_texts t))) result }
{
    match explain_words(explain) {
        Some(words) => Ok(Job::Explain(words)),
        None => Err(WordsFault::Usage),
    }
}

/// The values of `explain`, where its day is one.
fn explain_words<'a>(explain: &ArgMatches<'a>) -> Option<ExplainWords<'a>>
    ensures { (t : ExplainTexts) → HasExplainTexts (found_of explain.now) t → is_account t.account ≡ true
        → MatchOption result (day_of_text t.day ≡ None) (λ words. explain_job words ≡ explain_of_texts t) }
{
    Some(ExplainWords {
        fares: explain.get_str("FARES")?,
        zone: explain.get_str("ZONE")?,
        account: number_of(explain, "ACCOUNT")?,
        day: read_day(explain.get_str("DAY")?)?,
        journal: explain.get_str("journal")?,
        ledger: explain.get_str("ledger"),
        week: is_flagged(explain, "week"),
    })
}

fn page_job<'a>(page: &ArgMatches<'a>) -> Result<Job<'a>, WordsFault>
    ensures { (t : PageTexts) → HasPageTexts (found_of page.now) t → ArePorts t
        → IsAnswer (allowed (page_asked (page_of_texts t))) result }
{
    match page_words(page) {
        Some(words) => shown_job(words),
        None => Err(WordsFault::Usage),
    }
}

/// The values of `page`.
fn page_words<'a>(page: &ArgMatches<'a>) -> Option<PageWords<'a>>
    ensures { (t : PageTexts) → HasPageTexts (found_of page.now) t → ArePorts t
        → IsSomeAnd result (λ words. page_job words ≡ page_of_texts t) }
{
    Some(PageWords {
        fares: page.get_str("FARES")?,
        zone: page.get_str("ZONE")?,
        journal: page.get_str("journal")?,
        port: port_of(page, "port")?,
        control: port_of(page, "control"),
        greeting: page.get_str("greeting"),
        staff: page.get_str("staff"),
        ledger: page.get_str("ledger"),
    })
}

/// The job of `page`, where its options may stand together.
fn shown_job(words: PageWords<'_>) -> Result<Job<'_>, WordsFault>
    ensures { IsAnswer (allowed (page_asked (page_job words.entry))) result }
{
    if may_show(&words) {
        Ok(Job::Page(words))
    } else {
        Err(WordsFault::Usage)
    }
}

/// Whether the options of `page` may stand together.
fn may_show(words: &PageWords<'_>) -> bool
    ensures { result ≡ may_show (page_job words.now) }
{
    has_control(words) && has_own_port(words) && may_greet(words.greeting)
}

/// Whether a greeting and a file of clerks are given with a port for the staff of a service alone.
fn has_control(words: &PageWords<'_>) -> bool
    ensures { result ≡ has_control (page_job words.now) }
{
    words.control.is_some() || words.greeting.is_none() && words.staff.is_none()
}

/// Whether that port is another than that of the pages, if there is any.
fn has_own_port(words: &PageWords<'_>) -> bool
    ensures { result ≡ has_own_port (page_job words.now) }
{
    match words.control {
        Some(control) => control != words.port,
        None => true,
    }
}

fn replay_job<'a>(alloc: Global, replay: &ArgMatches<'a>) -> Result<Job<'a>, WordsFault>
    ensures { (fares zone : Text) (files : List Text) → HasFaresAndZone replay.now fares zone → HasFiles replay.now files
        → IsJobOrMemory (replay_asked fares zone files) result }
{
    match (
        replay.get_str("FARES"),
        replay.get_str("ZONE"),
        replay.get_strs("FILE"),
    ) {
        (Some(fares), Some(zone), Some(files)) => replay_of(alloc, fares, zone, files),
        _ => Err(WordsFault::Usage),
    }
}

/// The job of `replay`, where its words were found.
fn replay_of<'a>(
    alloc: Global,
    fares: &'a str,
    zone: &'a str,
    files: &[&'a str],
) -> Result<Job<'a>, WordsFault>
    ensures { IsJobOrMemory (replay_asked fares.entry.now zone.entry.now (texts files.now)) result }
{
    Ok(Job::Replay(ReplayWords {
        fares,
        zone,
        files: files.to_vec(alloc)?,
    }))
}

fn serve_job<'a>(serve: &ArgMatches<'a>) -> Result<Job<'a>, WordsFault>
    ensures { (t : ServeTexts) → HasServeTexts (found_of serve.now) t → AreInRange t
        → IsAnswer (allowed (serve_asked (numbers_of t))) result }
{
    match serve_words(serve) {
        Some(words) => service_job(words),
        None => Err(WordsFault::Usage),
    }
}

/// The job of `serve`, of the form that has a port for staff or of the other.
fn service_job(words: Service<'_>) -> Result<Job<'_>, WordsFault>
    ensures { IsAnswer (allowed (serve_asked (service_values words.entry))) result }
{
    match words.control {
        Some(control) => staying_job(words, control),
        None => ending_job(words),
    }
}

/// The job of a service that ends, where it has a number of connections and a day, and nothing that is for a service
/// that stays.
fn ending_job(words: Service<'_>) -> Result<Job<'_>, WordsFault>
    requires { words.control ≡ None }
    ensures { IsAnswer (allowed (serve_asked (service_values words.entry))) result }
{
    match (words.sessions, closed_day(&words)) {
        (Some(sessions), Some(close)) if !has_more(&words) => job_with_ports(ServeWords {
            fares: words.fares,
            zone: words.zone,
            port: words.port,
            lanes: words.lanes,
            shards: words.shards,
            sessions,
            close,
            journal: words.journal,
            ledger: words.ledger,
            early: words.early,
        }),
        _ => Err(WordsFault::Usage),
    }
}

/// The job of a service that stays, where it has journals and a ledger, no end, a lane left for its staff and another
/// port for them, and a greeting or none.
fn staying_job(words: Service<'_>, control: u16) -> Result<Job<'_>, WordsFault>
    requires { words.control ≡ Some control }
    ensures { IsAnswer (allowed (serve_asked (service_values words.entry))) result }
{
    match (words.journal, words.ledger) {
        (Some(journal), Some(ledger))
            if has_no_end(&words) && leaves_room(&words, control) && may_greet(words.greeting) => {
            Ok(Job::Stay(StayWords {
                fares: words.fares,
                zone: words.zone,
                port: words.port,
                lanes: words.lanes,
                shards: words.shards,
                control,
                ahead: words.ahead,
                refused: words.refused,
                greeting: words.greeting,
                journal,
                ledger,
                early: words.early,
            }))
        }
        _ => Err(WordsFault::Usage),
    }
}

/// The day that is closed at the end, where one is given.
fn closed_day(words: &Service<'_>) -> Option<u32>
    ensures { result ≡ closed_day (service_values words.now) }
{
    read_day(words.close?)
}

/// Whether there is something that a service that stays alone may have.
fn has_more(words: &Service<'_>) -> bool
    ensures { result ≡ has_more (service_values words.now) }
{
    words.ahead.is_some() || words.refused.is_some() || words.greeting.is_some()
}

/// Whether there is no number of connections, and no day that is closed at the end.
fn has_no_end(words: &Service<'_>) -> bool
    ensures { result ≡ has_no_end (service_values words.now) }
{
    words.sessions.is_none() && words.close.is_none()
}

/// Whether a lane is left for the staff, and the port is another than that of the lanes.
fn leaves_room(words: &Service<'_>, control: u16) -> bool
    ensures { result ≡ leaves_room control (service_values words.now) }
{
    control != words.port && u64::from(words.lanes) <= MOST_STAYING_LANES
}

/// Whether a greeting is one, where there is any.
fn may_greet(greeting: Option<&str>) -> bool
    ensures { result ≡ may_greet (option_copied greeting.entry) }
{
    match greeting {
        Some(text) => is_greeting(text.as_bytes()),
        None => true,
    }
}

/// Whether bytes are a greeting: a short line that can be typed, and no word of staff.
#[tactic(auto, unfolding(crate::specs::Greeting::is_greeting))]
fn is_greeting(bytes: &[u8]) -> bool
    ensures { result ≡ is_greeting bytes.now }
{
    !bytes.is_empty()
        && bytes.len() <= MOST_GREETING_BYTES
        && are_printable(bytes)
        && !begins_or_ends_with_space(bytes)
        && !is_word_of_staff(bytes)
}

/// Whether each byte is printable ASCII.
fn are_printable(bytes: &[u8]) -> bool
    ensures { result ≡ list_all is_printable bytes.now }
{
    bytes
        .iter()
        .all(|byte| byte.is_ascii_graphic() || *byte == b' ')
}

/// Whether the first or the last byte is a space.
fn begins_or_ends_with_space(bytes: &[u8]) -> bool
    ensures { result ≡ begins_or_ends_with_space bytes.now }
{
    bytes.starts_with(b" ") || bytes.ends_with(b" ")
}

/// Whether bytes are a line by which staff ask something of a service.
fn is_word_of_staff(bytes: &[u8]) -> bool
    ensures { result ≡ is_word_of_staff bytes.now }
{
    matches!(bytes, b"STOP" | b"STATS")
        || bytes.starts_with(b"BACKUP ")
        || bytes.starts_with(b"OPEN ")
}

/// The job of a service that ends, where there is a port for each lane.
fn job_with_ports(words: ServeWords<'_>) -> Result<Job<'_>, WordsFault>
    ensures { IsAnswer (allowed (serve_asked (served_job words.entry))) result }
{
    if has_ports(&words) {
        Ok(Job::Serve(words))
    } else {
        Err(WordsFault::Usage)
    }
}

/// Whether the port of the last lane is one.
fn has_ports(words: &ServeWords<'_>) -> bool
    ensures { result ≡ has_ports (served_job words.now) }
{
    (u64::from(words.port) + u64::from(words.lanes)).saturating_sub(1) <= MOST_PORT
}

fn serve_words<'a>(serve: &ArgMatches<'a>) -> Option<Service<'a>>
    ensures { (t : ServeTexts) → HasServeTexts (found_of serve.now) t → AreInRange t
        → IsSomeAnd result (λ words. service_values words ≡ numbers_of t) }
{
    Some(Service {
        fares: serve.get_str("FARES")?,
        zone: serve.get_str("ZONE")?,
        port: port_of(serve, "port")?,
        lanes: count_of(serve, "lanes")?,
        shards: count_of(serve, "shards")?,
        sessions: number_of(serve, "sessions"),
        close: serve.get_str("close"),
        control: port_of(serve, "control"),
        ahead: number_of(serve, "ahead"),
        refused: serve.get_str("refused"),
        greeting: serve.get_str("greeting"),
        journal: serve.get_str("journal"),
        ledger: serve.get_str("ledger"),
        early: is_flagged(serve, "early"),
    })
}

fn audit_job<'a>(audit: &ArgMatches<'a>) -> Result<Job<'a>, WordsFault>
    ensures { (a : Audit) → HasAudit (found_of audit.now) a → IsJob (audit_asked a) result }
{
    match audit_words(audit) {
        Some(words) => Ok(Job::Audit(words)),
        None => Err(WordsFault::Usage),
    }
}

fn audit_words<'a>(audit: &ArgMatches<'a>) -> Option<AuditWords<'a>>
    ensures { (a : Audit) → HasAudit (found_of audit.now) a → IsSomeAnd result (λ words. audit_job words ≡ a) }
{
    Some(AuditWords {
        fares: audit.get_str("FARES")?,
        zone: audit.get_str("ZONE")?,
        journal: audit.get_str("journal")?,
        ledger: audit.get_str("ledger"),
    })
}

fn rebuild_job<'a>(rebuild: &ArgMatches<'a>) -> Result<Job<'a>, WordsFault>
    ensures { (fares ledger : Text) → HasFaresAndLedger (found_of rebuild.now) fares ledger
        → IsJob (rebuild_asked fares ledger) result }
{
    match (rebuild.get_str("FARES"), rebuild.get_str("LEDGER")) {
        (Some(fares), Some(ledger)) => Ok(Job::Rebuild(RebuildWords { fares, ledger })),
        _ => Err(WordsFault::Usage),
    }
}

fn follow_job<'a>(follow: &ArgMatches<'a>) -> Result<Job<'a>, WordsFault>
    ensures { (t : FollowTexts) → HasFollowTexts (found_of follow.now) t → AreFollowNumbers t
        → IsAnswer (allowed (follow_asked (follow_of_texts t))) result }
{
    match follow_words(follow) {
        Some(words) => followed_job(words),
        None => Err(WordsFault::Usage),
    }
}

/// The values of `follow`, where its URL has a port.
fn follow_words<'a>(follow: &ArgMatches<'a>) -> Option<FollowWords<'a>>
    ensures { (t : FollowTexts) → HasFollowTexts (found_of follow.now) t → AreFollowNumbers t
        → MatchOption result (node_port t.log ≡ None) (λ words. follow_job words ≡ follow_of_texts t) }
{
    Some(FollowWords {
        fares: follow.get_str("FARES")?,
        zone: follow.get_str("ZONE")?,
        port: node_port(follow.get_str("log")?)?,
        partition: count_of(follow, "partition")?,
        of: count_of(follow, "of")?,
        ledger: follow.get_str("ledger")?,
    })
}

/// The job of `follow`, where there is such a partition.
fn followed_job(words: FollowWords<'_>) -> Result<Job<'_>, WordsFault>
    ensures { IsAnswer (allowed (follow_asked (follow_job words.entry))) result }
{
    if has_partition(&words) {
        Ok(Job::Follow(words))
    } else {
        Err(WordsFault::Usage)
    }
}

/// Whether the partition is one of so many.
fn has_partition(words: &FollowWords<'_>) -> bool
    ensures { result ≡ has_partition (follow_job words.now) }
{
    words.partition < words.of
}

fn log_job<'a>(log: &ArgMatches<'a>) -> Result<Job<'a>, WordsFault>
    ensures { (t : LogTexts) → HasLogTexts (found_of log.now) t → AreLogNumbers t
        → IsAnswer (allowed (log_asked (log_of_texts t))) result }
{
    match log_words(log) {
        Some(words) => Ok(Job::Log(words)),
        None => Err(WordsFault::Usage),
    }
}

/// The values of `log`, where its word names an action that goes with its option, and its URL has a port.
fn log_words<'a>(log: &ArgMatches<'a>) -> Option<LogWords<'a>>
    ensures { (t : LogTexts) → HasLogTexts (found_of log.now) t → AreLogNumbers t
        → MatchOption result (may_log (log_of_texts t) ≡ false) (λ words. log_job words ≡ log_of_texts t) }
{
    Some(LogWords {
        action: action_of(log.get_str("ACTION")?, replicas_of(log))?,
        fares: log.get_str("FARES")?,
        zone: log.get_str("ZONE")?,
        port: node_port(log.get_str("log")?)?,
        of: count_of(log, "of")?,
    })
}

/// The action of a word, with so many replicas.
fn action_of(word: &str, replicas: Option<u8>) -> Option<LogAction>
    ensures { result ≡ action_of word.now replicas }
{
    match word {
        "make" => making(replicas),
        "check" => checking(replicas),
        _ => None,
    }
}

/// What makes a log needs a number of replicas.
fn making(replicas: Option<u8>) -> Option<LogAction>
    ensures { result ≡ making replicas }
{
    match replicas {
        Some(replicas) => Some(LogAction::Make { replicas }),
        None => None,
    }
}

/// What says how a log is takes none.
fn checking(replicas: Option<u8>) -> Option<LogAction>
    ensures { result ≡ checking replicas }
{
    match replicas {
        Some(_) => None,
        None => Some(LogAction::Check),
    }
}

/// The number of replicas, if it was given.
fn replicas_of(log: &ArgMatches<'_>) -> Option<u8>
    ensures { (given : Option Text) → one_text (found_of log.now) (codes "replicas") ≡ given
        → IfSome given (λ word. is_replicas word ≡ true) → result ≡ option_map number_of given }
{
    count_of(log, "replicas")
}

/// The port of this name, of the numbers that the matches have.
fn port_of(matches: &ArgMatches<'_>, name: &str) -> Option<u16>
    ensures none { one_text (found_of matches.now) name.now ≡ None → result ≡ None }
    ensures value { (word : Text) → one_text (found_of matches.now) name.now ≡ Some word
        → is_port word ≡ true → result ≡ Some (number_of word) }
{
    matches.get_one(name)
}

/// The number of this name, of those that the matches have, where it is below 256.
fn count_of(matches: &ArgMatches<'_>, name: &str) -> Option<u8>
    ensures none { one_text (found_of matches.now) name.now ≡ None → result ≡ None }
    ensures value { (word : Text) (least most : ℕ) → one_text (found_of matches.now) name.now ≡ Some word
        → is_unsigned_in least most word ≡ true → most < 256
        → result ≡ Some (number_of word) }
{
    matches.get_one(name)
}

/// The number of this name, of those that the matches have.
fn number_of(matches: &ArgMatches<'_>, name: &str) -> Option<u32>
    ensures none { one_text (found_of matches.now) name.now ≡ None → result ≡ None }
    ensures value { (word : Text) (least most : ℕ) → one_text (found_of matches.now) name.now ≡ Some word
        → is_unsigned_in least most word ≡ true → most ≤ MOST_ACCOUNT
        → result ≡ Some (number_of word) }
{
    matches.get_one(name)
}

fn fault_of(alloc: Global, error: &Error) -> WordsFault
    ensures { IsFaultOfKind (kind_of error.now) result }
{
    match error.kind() {
        ErrorKind::DisplayHelp => help_fault(alloc, error),
        ErrorKind::DisplayVersion => version_fault(alloc),
        ErrorKind::OutOfMemory => WordsFault::Memory,
        _ => WordsFault::Usage,
    }
}

fn help_fault(alloc: Global, error: &Error) -> WordsFault
    ensures { IsHelpOrMemory result }
{
    match format!(in alloc; "{error}") {
        Ok(text) => WordsFault::Help(text),
        Err(_) => WordsFault::Memory,
    }
}

fn version_fault(alloc: Global) -> WordsFault
    ensures { IsVersionOrMemory result }
{
    match format!(in alloc; "farebox {VERSION}\n") {
        Ok(text) => WordsFault::Version(text),
        Err(_) => WordsFault::Memory,
    }
}
