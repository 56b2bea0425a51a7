//! The journals in files, which are read on again and again, and the pages of what was read.
ghost use Rattle.std.specs.Prelude.{◌≡◌, Ok, IfOk};
ghost use Rattle.pay_explain_job.specs.Pages.{beside};
ghost use Rattle.std.specs.Arc.{arc_value};
ghost use Rattle.std.specs.String.{string_bytes};
ghost use Rattle.pay_page_job.specs.Corrected.{IsChoiceOf, IsPreviewPage};
ghost use Rattle.pay_page_job.specs.Counted.{IsCounted};
ghost use Rattle.pay_page_job.specs.Followed.{IsJsonOf, IsLookedUp, IsPageOf, IsShownJson, IsShownPage};
ghost use Rattle.pay_web.specs.Words.{IsAsked};

use crate::belonging::of_week;
use crate::clock::instant_by_text;
use crate::control::{AT_ONCE, StaffPort, UNTIL_LATE, ask};
use crate::desk::{Desk, PostedQuestion};
use crate::followed::Followed;
use crate::looking::LooksUp;
use crate::offers::Offers;
use crate::reading::{CHUNK, read_after};
use crate::shown::{done_by, preview_in};
use crate::waiting::Waiting;
use pay_account_lines::LineFault;
use pay_day::monday;
use pay_jobs::Fault;
use pay_log::{Level, Limiter, Log};
use pay_metrics::{DOWN, metrics_of};
use pay_page::Posted;
use pay_rules::Postings;
use pay_web::{Asked, Corrects, PageFault, Pages, Viewer};
use pay_wire::{SpelledCommand, SpelledFix, command_line};
use std::alloc::{AllocError, Global};
use std::fs::File;
use std::net::{Net, TcpStream};
use std::rt::{Clock, Files};
use std::sync::{Arc, Mutex, Wait};
use std::thread;
use std::time::Duration;

/// A journal in a file, and how many bytes of it were read.
#[derive(Drop)]
struct JournalFile {
    path: String,
    bytes: u64,
}

/// The journals, and how far they were read.
#[derive(Drop)]
struct Reading {
    files: Vec<JournalFile>,
    followed: Followed,
    /// Whether the last reading failed.
    is_unread: bool,
}

/// Why journals are not read on.
#[derive(Clone, Copy)]
enum Unread {
    /// The file of this place cannot be read, or has become another.
    File { place: usize },
    /// In that file a line is neither a tap nor a correction: that of this number after what was read before.
    Line { place: usize, line: u64 },
    /// Memory was refused.
    Memory,
}

/// What pages are made of: a fare file, a zone and journals, and the service that writes them, if it is asked.
#[derive(Drop)]
struct Sources {
    fares: String,
    zone: String,
    reading: Mutex<Reading>,
    service: Option<StaffPort>,
    waiting: Mutex<Waiting>,
    offers: Offers,
    desk: Desk,
}

/// The journals that pages are made of, for a thread.
#[derive(Drop)]
pub(crate) struct Journals<R> {
    rt: R,
    alloc: Global,
    faults: Limiter,
    secrets: Limiter,
    sources: Arc<Sources>,
    /// Its place at the desk where it is asked what was posted.
    place: usize,
}

impl Reading {
    /// So many files of which nothing was read.
    fn new(alloc: Global, paths: Vec<String>) -> Result<Reading, AllocError> {
        let followed = Followed::new(alloc, paths.len())?;
        let mut files: Vec<JournalFile> = Vec::new(alloc);
        for path in paths {
            files
                .push(JournalFile { path, bytes: 0 })
                .map_err(AllocError::from)?;
        }
        Ok(Reading {
            files,
            followed,
            is_unread: false,
        })
    }

    /// Reads all journals on, to their ends.
    fn read_on<R: Files<File = File> + AllocGlobal>(&mut self, rt: &R) -> Result<(), Unread> {
        for place in 0..self.files.len() {
            self.read_file_on(rt, place)?;
        }
        Ok(())
    }

    /// Reads one on.
    fn read_file_on<R: Files<File = File> + AllocGlobal>(
        &mut self,
        rt: &R,
        place: usize,
    ) -> Result<(), Unread> {
        for _ in 0..u64::MAX {
            if !self.read_chunk(rt, place)? {
                return Ok(());
            }
        }
        Ok(())
    }

    /// Reads a piece more of one. Whether there may be more.
    fn read_chunk<R: Files<File = File> + AllocGlobal>(
        &mut self,
        rt: &R,
        place: usize,
    ) -> Result<bool, Unread> {
        if place >= self.followed.count() {
            return Ok(false);
        }
        let Some(file) = self.files.get_mut(place) else {
            return Ok(false);
        };
        let Ok(text) = read_after(rt, file.path.as_str(), file.bytes) else {
            return Err(Unread::File { place });
        };
        let taken = match self.followed.read_on(place, text.as_slice()) {
            Ok(taken) => taken as u64,
            Err(LineFault::Line { line }) => return Err(Unread::Line { place, line }),
            Err(LineFault::Memory) => return Err(Unread::Memory),
        };
        file.bytes = file.bytes.saturating_add(taken);
        Ok(taken > 0 && text.len() as u64 == CHUNK)
    }

    /// Says why they are not read on.
    fn say<R: Log + Clock + Wait>(&self, rt: &R, faults: &Limiter, why: Unread) {
        match why {
            Unread::File { place } => {
                let path = self.path_at(place);
                faults.say(
                    rt,
                    Level::Error,
                    format_args!("farebox: cannot read {path}, or it is not the file that it was"),
                );
            }
            Unread::Line { place, line } => {
                let (path, bytes) = (self.path_at(place), self.bytes_at(place));
                faults.say(
                    rt,
                    Level::Error,
                    format_args!(
                        "farebox: {path}, line {line} after byte {bytes}: no tap and no correction"
                    ),
                );
            }
            Unread::Memory => faults.say(rt, Level::Error, Fault::from(AllocError)),
        }
    }

    fn path_at(&self, place: usize) -> &str {
        match self.files.get(place) {
            Some(file) => file.path.as_str(),
            None => "",
        }
    }

    fn bytes_at(&self, place: usize) -> u64 {
        match self.files.get(place) {
            Some(file) => file.bytes,
            None => 0,
        }
    }
}

impl<R: Files<File = File> + Clock + Wait + Log + AllocGlobal + Copy> Journals<R> {
    /// The journals in the files at these paths, for so many threads. Nothing is read yet.
    pub fn new(
        rt: R,
        fares: String,
        zone: String,
        paths: Vec<String>,
        service: Option<StaffPort>,
        offers: Offers,
        threads: usize,
    ) -> Result<Journals<R>, AllocError> {
        let alloc = rt.alloc();
        let (faults, secrets) = (Limiter::new(alloc)?, Limiter::new(alloc)?);
        let reading = Mutex::new(Reading::new(alloc, paths)?);
        let desk = Desk::new(alloc, threads)?;
        let sources = Sources {
            fares,
            zone,
            reading,
            service,
            waiting: Mutex::new(Waiting { count: 0 }),
            offers,
            desk,
        };
        let sources = Arc::new(alloc, sources).map_err(AllocError::from)?;
        Ok(Journals {
            rt,
            alloc,
            faults,
            secrets,
            sources,
            place: threads,
        })
    }

    /// The same for the thread of this number, from 0 on.
    pub fn again(&self, place: usize) -> Result<Journals<R>, AllocError> {
        Ok(Journals {
            rt: self.rt,
            alloc: self.alloc,
            faults: self.faults.again()?,
            secrets: self.secrets.again()?,
            sources: Arc::clone(&self.sources)?,
            place,
        })
    }

    /// Leaves the journals alone for a while, or until something is asked about postings.
    pub fn pause(&self, pause: Duration) {
        if self.sources.offers.has_ledger {
            self.sources.desk.wait(&self.rt, pause);
        } else {
            thread::sleep(&self.rt, pause);
        }
    }

    /// Answers what was asked about postings. What is not known is said.
    pub fn answer<L: LooksUp>(&self, ledger: &mut L) {
        for place in 0..self.sources.desk.count(&self.rt) {
            if let Some((ticket, question)) = self.sources.desk.question(&self.rt, place) {
                let answer = self.looked_up(ledger, question);
                self.sources.desk.tell(&self.rt, place, ticket, answer);
            }
        }
    }

    /// What was posted, if that can be told.
    fn looked_up<L: LooksUp>(&self, ledger: &mut L, question: PostedQuestion) -> Option<Postings> {
        match ledger.postings(question.account, question.week) {
            Ok(postings) => Some(postings),
            Err(Fault::Refused { number, name }) => {
                self.faults.say(
                    &self.rt,
                    Level::Error,
                    format_args!("farebox: cannot read ledger: {number} {name}"),
                );
                None
            }
            Err(fault) => {
                self.faults.say(&self.rt, Level::Error, fault);
                None
            }
        }
    }

    /// Reads all of them on. Why not, is said, and then there are no pages until they are.
    pub fn read_on(&self) -> bool {
        let mut reading = self.sources.reading.lock(&self.rt);
        let done = reading.read_on(&self.rt);
        reading.is_unread = done.is_err();
        match done {
            Ok(()) => true,
            Err(why) => {
                reading.say(&self.rt, &self.faults, why);
                false
            }
        }
    }
}

impl<R: Clock + Wait + Log + Copy> Journals<R> {
    /// Says why there is no page of an account. A line that is not accepted is told by its number among the account's own in its file.
    fn say(&self, account: u32, fault: Fault) {
        if let Fault::JournalLineOf { journal, line, why } = fault {
            let reading = self.sources.reading.lock(&self.rt);
            let path = reading.path_at(journal as usize);
            self.faults.say(
                &self.rt,
                Level::Error,
                format_args!("farebox: {path}, line {line} of account {account}: {why}"),
            );
        } else {
            self.faults.say(&self.rt, Level::Error, fault);
        }
    }

    /// A page, or that there is none: why is said.
    fn page_or_say(&self, account: u32, page: Result<String, Fault>) -> Result<String, PageFault>
        ensures { IfOk result (λ text. page ≡ Ok text) }
    {
        match page {
            Ok(page) => Ok(page),
            Err(fault) => {
                self.say(account, fault);
                Err(PageFault::Unavailable)
            }
        }
    }

    /// What was posted for the week that is asked for, where a ledger says it.
    fn posted(&self, asked: Asked) -> Posted
        requires { IsAsked asked }
        ensures { IsLookedUp (arc_value self.now.sources).offers asked result }
    {
        let sources = &*self.sources;
        if sources.offers.has_ledger && asked.week {
            let (account, week) = (asked.account, monday(asked.day));
            let question = PostedQuestion { account, week };
            of_week(
                account,
                week,
                sources.desk.ask(&self.rt, self.place, question),
            )
        } else {
            Posted::NoLedger
        }
    }

    /// The page of what is asked for, by what was read and what was posted.
    fn page_by(&self, asked: Asked, posted: &Posted) -> Result<String, Fault>
        requires { IsAsked asked }
        ensures { IfOk result (λ text. IsPageOf (string_bytes (arc_value self.now.sources).fares) (string_bytes (arc_value self.now.sources).zone)
            (beside (arc_value self.now.sources).offers.corrects posted.now) asked (string_bytes text)) }
    {
        let reading = self.sources.reading.lock(&self.rt);
        let Sources { fares, zone, .. } = &*self.sources;
        let corrects = self.sources.offers.corrects;
        reading
            .followed
            .page(fares.as_str(), zone.as_str(), asked, corrects, posted)
    }

    /// The page of what is asked for.
    fn page_now(&self, asked: Asked) -> Result<String, Fault>
        requires { IsAsked asked }
        ensures { IfOk result (λ text. IsShownPage (string_bytes (arc_value self.now.sources).fares) (string_bytes (arc_value self.now.sources).zone) (arc_value self.now.sources).offers asked (string_bytes text)) }
    {
        let posted = self.posted(asked);
        self.page_by(asked, &posted)
    }

    /// The same for programs, by what was read and what was posted.
    fn json_by(&self, asked: Asked, posted: &Posted) -> Result<String, Fault>
        requires { IsAsked asked }
        ensures { IfOk result (λ text. IsJsonOf (string_bytes (arc_value self.now.sources).fares) (string_bytes (arc_value self.now.sources).zone) posted.now asked (string_bytes text)) }
    {
        let reading = self.sources.reading.lock(&self.rt);
        let Sources { fares, zone, .. } = &*self.sources;
        reading
            .followed
            .json(fares.as_str(), zone.as_str(), asked, posted)
    }

    /// The same for programs.
    fn json_now(&self, asked: Asked) -> Result<String, Fault>
        requires { IsAsked asked }
        ensures { IfOk result (λ text. IsShownJson (string_bytes (arc_value self.now.sources).fares) (string_bytes (arc_value self.now.sources).zone) (arc_value self.now.sources).offers asked (string_bytes text)) }
    {
        let posted = self.posted(asked);
        self.json_by(asked, &posted)
    }

    /// The page of what can be corrected, by what was read.
    fn choice_now(&self, asked: Asked) -> Result<String, Fault>
        requires { IsAsked asked }
        ensures { IfOk result (λ text. IsChoiceOf (string_bytes (arc_value self.now.sources).fares) (string_bytes (arc_value self.now.sources).zone) asked (string_bytes text)) }
    {
        let reading = self.sources.reading.lock(&self.rt);
        let Sources { fares, zone, .. } = &*self.sources;
        reading
            .followed
            .choice(fares.as_str(), zone.as_str(), asked)
    }

    /// The page of what a correction would change, by what was read.
    fn preview_now(
        &self,
        asked: Asked,
        fix: &SpelledFix,
        viewer: Viewer<'_>,
    ) -> Result<String, Fault>
        requires { IsAsked asked }
        ensures { IfOk result (λ text. IsPreviewPage (string_bytes (arc_value self.now.sources).fares) (string_bytes (arc_value self.now.sources).zone) (asked, fix.now) viewer.entry (string_bytes text)) }
    {
        let reading = self.sources.reading.lock(&self.rt);
        let Sources { fares, zone, .. } = &*self.sources;
        preview_in(
            &reading.followed,
            fares.as_str(),
            zone.as_str(),
            asked,
            fix,
            &viewer,
        )
    }
}

impl<R: Net<Stream = TcpStream> + Clock + Wait + Log + Copy> Journals<R> {
    /// Sends a line to the service, and gives its reply. Why there is none, is said. Where too many wait for it, nothing is sent.
    fn reply_to(&self, service: &StaffPort, line: &[u8], seconds: u64) -> Option<String> {
        let may = self.sources.waiting.lock(&self.rt).begin();
        if !may {
            let port = service.port;
            self.faults.say(
                &self.rt,
                Level::Error,
                format_args!("farebox: too many wait for the service at 127.0.0.1:{port}"),
            );
            return None;
        }
        let came = ask(&self.rt, self.alloc, service, line, seconds);
        self.sources.waiting.lock(&self.rt).end();
        match came {
            Ok(reply) => Some(reply),
            Err(error) => {
                let port = service.port;
                self.faults.say(
                    &self.rt,
                    Level::Error,
                    format_args!("farebox: no reply from the service at 127.0.0.1:{port}: {error}"),
                );
                None
            }
        }
    }

    /// Says where a correction was no line for whoever listens there: a service that takes them knows it.
    fn say_if_unknown(&self, service: &StaffPort, reply: &str) {
        if reply.starts_with("NO 50 ") {
            let port = service.port;
            self.faults.say(
                &self.rt,
                Level::Error,
                format_args!(
                    "farebox: no correction is taken at 127.0.0.1:{port}: another greeting, or no service"
                ),
            );
        }
    }

    /// What the service has counted, or that it is down.
    fn counted_by(&self, service: &StaffPort) -> Result<String, AllocError>
        ensures { IfOk result (λ text. IsCounted (string_bytes text)) }
    {
        if let Some(reply) = self.reply_to(service, b"STATS\n", AT_ONCE) {
            if let Some(text) = metrics_of(self.alloc, reply.as_str())? {
                return Ok(text);
            }
            let port = service.port;
            self.faults.say(
                &self.rt,
                Level::Error,
                format_args!(
                    "farebox: no counts from 127.0.0.1:{port}: another greeting, or no service"
                ),
            );
        }
        String::from_str(self.alloc, DOWN)
    }
}

impl<R: Net<Stream = TcpStream> + Clock + Wait + Log + Copy> Pages for Journals<R> {
    ghost use Rattle.std.specs.Arc.{arc_value};
    ghost use Rattle.std.specs.String.{string_bytes};
    ghost use Rattle.pay_page_job.specs.Counted.{AreMetrics};
    ghost use Rattle.pay_page_job.specs.Followed.{IsShownJson, IsShownPage};

    ghost is_page = { λ it. IsShownPage (string_bytes (arc_value it.sources).fares) (string_bytes (arc_value it.sources).zone) (arc_value it.sources).offers };

    ghost is_json = { λ it. IsShownJson (string_bytes (arc_value it.sources).fares) (string_bytes (arc_value it.sources).zone) (arc_value it.sources).offers };

    ghost is_metrics = { λ it. AreMetrics (arc_value it.sources).service };

    fn page(&self, asked: Asked) -> Result<String, PageFault> {
        if !self.is_ready() {
            return Err(PageFault::Unavailable);
        }
        self.page_or_say(asked.account, self.page_now(asked))
    }

    fn json(&self, asked: Asked) -> Result<String, PageFault> {
        if !self.is_ready() {
            return Err(PageFault::Unavailable);
        }
        self.page_or_say(asked.account, self.json_now(asked))
    }

    fn metrics(&self) -> Result<Option<String>, AllocError> {
        match &self.sources.service {
            Some(service) => Ok(Some(self.counted_by(service)?)),
            None => Ok(None),
        }
    }

    fn is_ready(&self) -> bool {
        !self.sources.reading.lock(&self.rt).is_unread
    }
}

impl<R: Net<Stream = TcpStream> + Clock + Wait + Log + Copy> Corrects for Journals<R> {
    ghost use Rattle.std.specs.Prelude.{◌≡◌, IfSome};
    ghost use Rattle.std.specs.Arc.{arc_value};
    ghost use Rattle.std.specs.String.{string_bytes};
    ghost use Rattle.pay_page_job.specs.Corrected.{IsChoiceOf, IsDonePage, IsInstantIn, IsPreviewPage};

    ghost is_choice = { λ it. IsChoiceOf (string_bytes (arc_value it.sources).fares) (string_bytes (arc_value it.sources).zone) };

    ghost is_preview = { λ it. IsPreviewPage (string_bytes (arc_value it.sources).fares) (string_bytes (arc_value it.sources).zone) };

    ghost is_instant = { λ it day second utc. IfSome utc (IsInstantIn (string_bytes (arc_value it.sources).zone) day second) };

    // What is sent is told to the service alone.
    ghost puts = { λ before _ after. after ≡ before };

    ghost is_done = { λ _. IsDonePage };

    fn choice(&self, asked: Asked) -> Result<String, PageFault> {
        if !self.is_ready() {
            return Err(PageFault::Unavailable);
        }
        self.page_or_say(asked.account, self.choice_now(asked))
    }

    fn preview(
        &self,
        asked: Asked,
        fix: &SpelledFix,
        viewer: Viewer<'_>,
    ) -> Result<String, PageFault> {
        if !self.is_ready() {
            return Err(PageFault::Unavailable);
        }
        self.page_or_say(asked.account, self.preview_now(asked, fix, viewer))
    }

    /// Says so, without what was typed: a number that is no clerk's may be a secret in the wrong field.
    fn note_wrong_secret(&self, staff: Option<u16>) {
        match staff {
            Some(staff) => self.secrets.say(
                &self.rt,
                Level::Warning,
                format_args!("farebox: a wrong secret of staff {staff}"),
            ),
            None => self.secrets.say(
                &self.rt,
                Level::Warning,
                "farebox: a secret with the number of no clerk",
            ),
        }
    }

    /// The second of now: a clerk's corrections have different ones, as they are made one after another.
    fn next_seq(&self) -> u32 {
        match self.rt.since_1970() {
            Ok(time) => u32::try_from(time.as_secs()).unwrap_or(0),
            Err(_) => 0,
        }
    }

    fn instant(&self, day: u32, second: u32) -> Option<u64> {
        instant_by_text(self.sources.zone.as_str(), day, second)
    }

    fn put(&mut self, asked: Asked, fix: &SpelledFix) -> Result<String, PageFault> {
        let Some(service) = &self.sources.service else {
            return Err(PageFault::Unavailable);
        };
        let line = command_line(&SpelledCommand::Fix(*fix));
        match self.reply_to(service, line.as_slice(), UNTIL_LATE) {
            Some(reply) => {
                self.say_if_unknown(service, reply.as_str());
                Ok(done_by(self.alloc, asked, fix, reply.as_str())?)
            }
            None => Err(PageFault::Unavailable),
        }
    }
}
