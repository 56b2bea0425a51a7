//! The texts that help is made of, each line within 100 columns.

/// What the program is.
pub const PROGRAM: &str = "The back office that prices contactless pay as you go travel from taps";

/// What `run` does.
pub const RUN: &str = "Read taps, corrections and closes from standard input, and reply to each";

/// What `check` does.
pub const CHECK: &str = "\
Read a fare file, and print how many places, bands, interchanges, holidays and editions
it has, or its first fault; or compare it with another";

/// What `statement` does.
pub const STATEMENT: &str = "\
Read taps and corrections from standard input, and print the statement of an account's
week as CSV; or a long one, from journals, with all that the week comes to";

/// What `explain` does.
pub const EXPLAIN: &str = "\
Read journals, and say why an account's day or week was charged, in plain words";

/// What `page` does.
pub const PAGE: &str = "\
Show why accounts were charged, as web pages for customer service, and take corrections";

/// What `replay` does.
pub const REPLAY: &str = "\
Read journals, and print how many lines and accounts they have, with the first and last
instant, or the first bad line";

/// What `serve` does.
pub const SERVE: &str = "\
Read taps and corrections from the connections of several lanes. Close a day after so
many connections, or stay, and close days when staff say so";

/// What `audit` does.
pub const AUDIT: &str = "\
Compare a journal with what is kept beside it and with a ledger, and print each thing
that differs and each week that is not settled";

/// What `rebuild` does.
pub const REBUILD: &str = "\
Print the lines of the taps and corrections that a ledger archives, as a journal
has them";

/// What `follow` does.
pub const FOLLOW: &str = "\
Answer the lines of a partition of a replicated log, and publish each reply under its
place";

/// What `log` does.
pub const LOG: &str = "Make the streams of a replicated log, or say how they are";

/// What the word FARES is.
pub const FARES: &str = "The fare file, a TOML document";

/// What the word ZONE is.
pub const ZONE: &str = "The time zone, a POSIX rule text such as GMT0BST,M3.5.0/1,M10.5.0
(a name such as Europe/London is none)";

/// What the word ACTION is.
pub const ACTION: &str = "\
What is done with the streams of the log: make, to make them, or check, to
say how they are";

/// What the word ACCOUNT is.
pub const ACCOUNT: &str = "The account, a number from 1 to 4294967295";

/// What the word DAY of `statement` is.
pub const DAY: &str = "\
A service day of the week: its date, such as 2024-01-08, or its number from 4
to 50000, counted from 1970-01-01";

/// What the word DAY of `explain` is.
pub const DAY_EXPLAINED: &str = "\
The service day: its date, such as 2024-01-08, or its number from 4 to 50000,
counted from 1970-01-01";

/// What the words FILE.. are.
pub const FILES: &str = "The journals, files of lines that were accepted";

/// What the word LEDGER is, and the option `--ledger` of `audit`.
pub const LEDGER_READ: &str = "The SQLite file that days were closed into";

/// What the option `--journal` of `run` is.
pub const JOURNAL: &str = "\
A file of the lines that were accepted. They are taken first, and each line
that is accepted is added before its reply. It is made if it is missing";

/// What the option `--journal` of `statement` is.
pub const JOURNAL_READ: &str = "\
A file of the lines that were accepted. They are taken first; it is only
read. With --long, a journal that has the account, or a folder of
journals";

/// What the option `--journal` of `serve` is.
pub const JOURNALS: &str = "\
A folder of the lines that were accepted, a file for each shard. They are
taken first, and each line that is accepted is added before its reply. The
files are made if they are missing, the folder is not";

/// What the option `--journal` of `explain` is.
pub const JOURNAL_EXPLAINED: &str = "\
A journal that has the account, or a folder of journals; it is only read";

/// What the option `--journal` of `page` is.
pub const JOURNAL_SHOWN: &str = "\
A journal that has the accounts, or a folder of journals; it is only read";

/// What the option `--journal` of `audit` is.
pub const JOURNAL_AUDITED: &str = "A journal, or a folder of journals; it is only read";

/// What the option `--ledger` of `explain` is.
pub const LEDGER_EXPLAINED: &str = "The SQLite file that days were closed into; it is only read";

/// What the option `--ledger` of `statement` is.
pub const LEDGER_STATED: &str = "\
With --long: the SQLite file that days were closed into, for what was
posted; it is only read";

/// What the option `--long` is.
pub const LONG: &str = "\
Print the long statement, which names places, and has rows for caps,
Credits and what was posted. It needs --journal, and standard input is
not read";

/// What the option `--ledger` of `page` is.
pub const LEDGER_SHOWN: &str = "\
The SQLite file that days were closed into, or a copy of it, for what was
posted; it is only read";

/// What the option `--week` is.
pub const WEEK: &str = "Explain its week through that day, in place of the day alone";

/// What the option `--sync` is.
pub const SYNC: &str = "\
Each line is on the disk before its reply. Without it, before a close is
posted, and at the end";

/// What the option `--ledger` of `run`, of `serve` and of `follow` is.
pub const LEDGER: &str = "\
The SQLite file that days are closed into. It is made if it is missing";

/// What the option `--early` is.
pub const EARLY: &str = "\
Close a day that is not over yet. Without it, a close into a ledger in a
file is refused before its day is over by this machine's clock";

/// What the option `--lint` is.
pub const LINT: &str = "\
Say where a fault lies, and warn of what may be a mistake: keys that nothing
reads, a peak fare below its off-peak fare, a week cap below its day cap,
fares and caps of 0, no bands, no holiday after the last edition begins. A
warning is status 1";

/// What the option `--against` is.
pub const AGAINST: &str = "\
Compare with another fare file: OK if each day is priced as by it, else the
first day and key that are not";

/// What the option `--after` is.
pub const AFTER: &str = "\
With --against: OK if all days up to this one are priced alike. Take the
last day that has a tap: today, if a service runs. Its date, such as
2024-01-08, or its number from 4 to 50000, counted from 1970-01-01";

/// What the option `--port` of `page` is.
pub const PORT_OF_PAGES: &str = "The port of 127.0.0.1 that answers browsers, from 1 to 65535";

/// What the option `--control` of `page` is.
pub const CONTROL_OF_PAGES: &str = "\
Ask a service: its port for staff, from 1 to 65535, and not P. What it has
counted is shown at /metrics, and corrections are sent to it";

/// What the option `--greeting` of `page` is.
pub const GREETING_OF_PAGES: &str =
    "The greeting of that service, if it has one. It needs --control";

/// What the option `--staff` is.
pub const STAFF: &str = "The file of the clerks who may correct. It needs --control";

/// What the option `--port` of `serve` is.
pub const PORT: &str = "\
The port of the first lane, from 1 to 65535. Each further lane has the
next port, and none is above 65535. With --control, the port of all lanes";

/// What the option `--lanes` is.
pub const LANES: &str = "\
How many lanes there are, from 1 to 15; with --control, from 1 to 14";

/// What the option `--shards` is.
pub const SHARDS: &str = "How many shards the accounts are spread over, from 1 to 16";

/// What the option `--sessions` is.
pub const SESSIONS: &str = "\
For a service that ends: how many connections each lane serves, from 1 to
1000";

/// What the option `--close` is.
pub const CLOSE: &str = "\
For a service that ends: the service day that is closed at its end. Its
date, such as 2024-01-08, or its number from 4 to 50000, counted from
1970-01-01";

/// What the option `--control` is.
pub const CONTROL: &str = "\
For a service that stays: the port for its staff, from 1 to 65535, and not
P. It needs --journal and --ledger, and takes no --sessions and no --close";

/// What the option `--ahead` is.
pub const AHEAD: &str = "\
For a service that stays: refuse taps that are more than S seconds ahead
of this machine's clock, by 1. From 0 to 86400";

/// What the option `--refused` is.
pub const REFUSED: &str = "\
For a service that stays: a file to which lines that are refused by 1, 15,
20 to 23, 50 or 51 are added, so that they can be sent again";

/// What the option `--greeting` is.
pub const GREETING: &str = "\
For a service that stays: the line with which each connection has to
begin. 1 to 128 printable ASCII characters, no space at either end; not
STOP, STATS, BACKUP PATH or OPEN DAY";

/// What the option `--log` is.
pub const LOG_URL: &str = "\
A node of the log: nats://127.0.0.1:PORT, whose port is from 1 to 65535";

/// What the option `--partition` is.
pub const PARTITION: &str = "The partition whose lines are answered, from 0 to N - 1";

/// What the option `--of` is.
pub const OF: &str = "How many partitions the log has, from 1 to 16";

/// What the option `--replicas` is.
pub const REPLICAS: &str = "\
With make: how many nodes have a copy of each stream, from 1 to 5. It is
not taken with check";

/// What stands below the program's own help.
pub const BELOW_PROGRAM: &str = "\
Words of run (FARES ZONE), of check (FARES), of statement (FARES ZONE ACCOUNT DAY), of explain
(FARES ZONE ACCOUNT DAY --journal PATH), of page (FARES ZONE --journal PATH --port P), of replay
(FARES ZONE FILE..), of serve (FARES ZONE --port P --lanes L --shards N --sessions K --close DAY, or
FARES ZONE --port P --lanes L --shards N --control C --journal FOLDER --ledger FILE), of audit
(FARES ZONE --journal PATH), of rebuild (FARES LEDGER), of follow (FARES ZONE --log URL
--partition P --of N --ledger FILE) and of log (make FARES ZONE --log URL --of N --replicas R, or
check FARES ZONE --log URL --of N), with options in any order:
  FARES    the fare file, a TOML document, which may hold editions, fares that hold from a day on
  ZONE     the time zone, a POSIX rule text (a name such as Europe/London is none)
  ACCOUNT  the account, a number from 1 to 4294967295
  DAY      a service day: its date, such as 2024-01-08, or its number, counted from 1970-01-01
  P        the port of the first lane, each further lane has the next port; with C, of all lanes;
           of page, the port that answers browsers; of follow, a partition, from 0 to N - 1
  L        how many lanes there are, from 1 to 15; with C, from 1 to 14
  N        how many shards the accounts are spread over, from 1 to 16; of follow and of log,
           how many partitions the log has, from 1 to 16
  K        how many connections each lane serves, from 1 to 1000; then the service ends
  C        the port for staff, who close days and end the service; of page, the one that is asked
  FILE     a journal, which run or serve wrote
  PATH     a journal, or a folder of journals, which is only read
  LEDGER   the SQLite file that days were closed into
  URL      a node of a replicated log, nats://127.0.0.1:PORT
  R        how many nodes have a copy of each stream of the log, from 1 to 5

Further options: --journal FILE and --ledger FILE of run, and --sync with --journal; --lint and
--against OLD of check, where OLD is another fare file, and --after DAY with --against; --journal
FILE of statement, where it is only read, --long with --journal PATH, for the long statement, and
--ledger FILE with --long; --ledger FILE of explain, where it is only read, and --week, for the week
through DAY; --control C of page, to ask a service, --greeting TEXT, which that service has, --staff
FILE, the clerks who may correct, and --ledger FILE, where it is only read; --journal FOLDER and
--ledger FILE of serve; --ahead S of serve with --control, to refuse taps more than S seconds ahead
of this machine's clock, --refused FILE, to which refused lines are added, and --greeting TEXT, with
which connections begin; --early of run and of serve, to close a day that is not over yet; --ledger
FILE of audit.

Example: account 7 boards a bus in London on Monday 8 January 2024 at 07:00. The reply names the
day, counted from 1970-01-01, its price and that of its week, in pence.
  $ farebox run examples/bus.toml GMT0BST,M3.5.0/1,M10.5.0
  TAP 1 1 7 1704697200 50 BUS
  OK 19730 175 175

Statuses:
  0  all right
  1  a fault, which one line on standard error names
  2  the words were refused

The lines and replies, the fare file and the faults are described in docs/FORMATS.md.";

/// What stands below the help of `run`.
pub const BELOW_RUN: &str = "\
With --journal FILE the lines that were accepted before are taken first, and with --ledger FILE days
are closed into a file: those that are over by this machine's clock, and with --early any. With
--journal and without --ledger nothing is closed, and a CLOSE is refused by 34: what is posted would
not be there for the next session. --sync is taken with --journal alone. Without --ledger, --early
does nothing.

Example: account 7 boards a bus in London on Monday 8 January 2024 at 07:00. The reply names the
day, counted from 1970-01-01, its price and that of its week, in pence.
  $ farebox run examples/bus.toml GMT0BST,M3.5.0/1,M10.5.0
  TAP 1 1 7 1704697200 50 BUS
  OK 19730 175 175

Statuses:
  0  all right
  1  a fault, which one line on standard error names
  2  the words were refused

The lines and replies, the fare file and the faults are described in docs/FORMATS.md.";

/// What stands below the help of `check`.
pub const BELOW_CHECK: &str = "\
A fare file may hold editions, fares that hold from a day on. Where it has n of them the line ends
with ` editions n`. --after is taken with --against alone.

Example: a fare file of five stations and a bus route, with three bands that cap prices.
  $ farebox check examples/sample.toml
  OK places 6 bands 3 interchanges 1 holidays 1

Example: the same, and an edition with new fares from Tuesday 9 January 2024 on.
  $ farebox check examples/two.toml
  OK places 6 bands 3 interchanges 1 holidays 1 editions 1

Statuses:
  0  all right
  1  a fault, which one line on standard error names
  2  the words were refused

The fare file and the faults are described in docs/FORMATS.md.";

/// What stands below the help of `statement`.
pub const BELOW_STATEMENT: &str = "\
With --journal FILE the lines that were accepted before are taken first, and then those of standard
input. Nothing is added to the file.

Example: account 7 boards a bus in London on Monday 8 January 2024 at 07:00. No replies are
printed; at the end of input the journeys of its week are, a row for each.
  $ farebox statement examples/bus.toml GMT0BST,M3.5.0/1,M10.5.0 7 19730
  TAP 1 1 7 1704697200 50 BUS
  day,kind,from,to,start,fare,band
  19730,BUS,50,0,07:00:00,175,-

With --long too, PATH is also a FOLDER of `serve --journal FOLDER`, standard input is not read, and
the rows are those of the whole week: its journeys with the names of places, what caps take off, the
Credits, and with --ledger FILE what was posted. The column `amount` adds up to what is due, and the
column `posted` to what was charged.

Statuses:
  0  all right
  1  a fault, which one line on standard error names
  2  the words were refused

The lines, the fare file, the statement and the faults are described in docs/FORMATS.md.";

/// What stands below the help of `explain`.
pub const BELOW_EXPLAIN: &str = "\
PATH is the FILE of `run --journal FILE`, or the FOLDER of `serve --journal FOLDER`. Standard input
is not read.

Statuses:
  0  all right
  1  a fault, which one line on standard error names
  2  the words were refused

The journal, the fare file and the faults are described in docs/FORMATS.md.";

/// What stands below the help of `page`.
pub const BELOW_PAGE: &str = "\
PATH is the FILE of `run --journal FILE`, or the FOLDER of `serve --journal FOLDER`. The ports are
of 127.0.0.1 alone. Standard input is not read. With --control C the pages show at /metrics what
`serve --control C` has counted. With --staff FILE too, the clerks in FILE may correct, and their
corrections are sent to that port. If the service has a --greeting, the pages need the same. With
--ledger FILE the page of a week shows what was posted. FILE may be a copy of the ledger.

Statuses:
  0  all right
  1  a fault, which one line on standard error names
  2  the words were refused

The journal, the fare file and the faults are described in docs/FORMATS.md.";

/// What stands below the help of `replay`.
pub const BELOW_REPLAY: &str = "\
A journal is what `run --journal FILE` writes: the lines that were accepted, in their order. In the
folder of `serve --journal FOLDER` there is one for each shard.

Statuses:
  0  all right
  1  a fault, which one line on standard error names
  2  the words were refused

The lines, the journal and the faults are described in docs/FORMATS.md.";

/// What stands below the help of `serve`.
pub const BELOW_SERVE: &str = "\
A service has one of two forms. With --sessions K and --close DAY it ends: each lane serves K
connections, and then DAY is closed. With --control C it stays until its staff stop it. All ports
are of 127.0.0.1 alone. On a connection lines come in, and the reply to each goes out. Each lane has
a thread of its own, and so has each of the N shards that the accounts are spread over. With
--journal FOLDER the lines that were accepted before are taken first.

A service that ends: lane l, from 0 to L - 1, listens on port P + l, and serves its connections one
after another. A CLOSE is refused by 34. When all connections of all lanes have ended, DAY is
closed, the lines of that close are printed, and the program ends. With --ledger FILE the day is
closed into a file, if it is over by this machine's clock or --early is given. With --journal and
without --ledger it is not closed: its refusal by 34 is printed, and the status is 1. Without
--ledger, --early does nothing.

Example: two lanes, on ports 9000 and 9001, serve a connection each, and day 19730 is closed.
  $ farebox serve examples/bus.toml GMT0BST,M3.5.0/1,M10.5.0 --port 9000 --lanes 2 --shards 4 \\
      --sessions 1 --close 19730

A service that stays: all lanes listen on port P, and hold as many connections as come. CLOSE and
FIX are refused by 34 there, and taken at port C, as are STATS, which is answered by what the
service has counted, and STOP, which ends it. --journal FOLDER and --ledger FILE have to be given:
days are closed into that file, if they are over by this machine's clock or --early is given.

Example: two lanes serve port 9000, and staff close days at port 9100.
  $ farebox serve FARES ZONE --port 9000 --lanes 2 --shards 4 --control 9100 \\
      --journal taps --ledger fares.db

Statuses:
  0  all right
  1  a fault, which one line on standard error names
  2  the words were refused

The lines and replies, the fare file and the faults are described in docs/FORMATS.md.";

/// What stands below the help of `audit`.
pub const BELOW_AUDIT: &str = "\
PATH is the FILE of `run --journal FILE`, or the FOLDER of `serve --journal FOLDER`. Without
--ledger FILE it is compared with what is kept beside it alone.

Statuses:
  0  the files belong together
  1  they do not, or a fault, which one line on standard error names
  2  the words were refused

The journal, the ledger and the faults are described in docs/FORMATS.md.";

/// What stands below the help of `rebuild`.
pub const BELOW_REBUILD: &str = "\
LEDGER is the FILE of `run --ledger FILE` or of `serve --ledger FILE`. It archives the taps and the
corrections of the days that were closed into it.

Statuses:
  0  all right
  1  a fault, which one line on standard error names
  2  the words were refused

The lines, the journal, the ledger and the faults are described in docs/FORMATS.md.";

/// What stands below the help of `follow`.
pub const BELOW_FOLLOW: &str = "\
A replicated log has N partitions, from 0 to N - 1. A replica answers the lines of one of them: of
the partition P. URL is nats://127.0.0.1:PORT, the text of no other host. Standard input is not
read.

Statuses:
  0  all right
  1  a fault, which one line on standard error names
  2  the words were refused

The lines and replies, the fare file and the faults are described in docs/FORMATS.md.";

/// What stands below the help of `log`.
pub const BELOW_LOG: &str = "\
make makes the streams of a log of N partitions, with R copies of each, and check says how they are.
--replicas has to be given with make, and is not taken with check. URL is nats://127.0.0.1:PORT, the
text of no other host. Standard input is not read.

Statuses:
  0  all right
  1  a fault, which one line on standard error names
  2  the words were refused

The fare file and the faults are described in docs/FORMATS.md.";
