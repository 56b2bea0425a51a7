//! What is known of closes into a ledger in a file.

use crate::last_close::{Close, LastClose};
use crate::noted::NotedPosting;
use pay_fare_file::NamedDay;
use pay_jobs::{Alter, Fault, LastPosting, Ledger, NotClosed, Watch, is_over, read_zone};
use pay_log::{Level, Log};
use std::alloc::AllocError;
use std::fs::File;
use std::rt::{Clock, Files};
use std::time::Instant;

/// Watches the closes into a ledger in a file: a day that is not over by the clock is not closed, unless that is asked for; what is refused
/// is reported to standard error, as is each close of a service that stays; and the last posting is noted beside the journal, if there is
/// one, when a session begins and after each close.
#[derive(Drop)]
pub struct CloseWatch<R> {
    /// Where files, standard error and the clock are.
    rt: R,
    /// The text of the zone by whose clock a day is over.
    zone: String,
    /// Whether a day may be closed before it is over.
    early: bool,
    /// Where the last posting is noted.
    noted: Option<NotedPosting>,
    /// The newest posting of the ledger, if it is to be noted.
    newest: Option<LastPosting>,
    /// The day that may be closed now.
    day: u32,
    /// What is told of each close of a service that stays.
    told: Option<LastClose>,
    /// Whether a close was refused, or a posting was not noted.
    pub has_failed: bool,
}

impl<R: AllocGlobal + Copy> CloseWatch<R> {
    /// What watches the closes of a session or a service in the zone of a text.
    pub fn begin(
        rt: R,
        zone: &str,
        early: bool,
        noted: Option<NotedPosting>,
        told: Option<LastClose>,
    ) -> Result<CloseWatch<R>, AllocError> {
        let mut text = String::new(rt.alloc());
        text.push_str(zone)?;
        Ok(CloseWatch {
            rt,
            zone: text,
            early,
            noted,
            newest: None,
            day: 0,
            told,
            has_failed: false,
        })
    }
}

impl<R: Files<File = File> + Clock + Log + AllocGlobal> CloseWatch<R> {
    /// Takes a ledger that has the posting that is noted, if one is. Its newest posting, which may be a later one, is noted once the session
    /// begins.
    pub fn take<S: Alter>(&mut self, ledger: &mut Ledger<S>) -> Result<(), Fault> {
        let Some(noted) = &self.noted else {
            return Ok(());
        };
        noted.is_in(ledger)?;
        self.newest = ledger.newest_posting()?;
        Ok(())
    }

    /// Whether a service day is over by the clock of the machine.
    fn is_over(&self, day: u32) -> bool {
        match (read_zone(self.zone.as_str()), self.rt.since_1970()) {
            (Ok(zone), Ok(now)) => is_over(&zone, day, now.as_secs()),
            _ => false,
        }
    }

    /// Notes a posting beside the journal, if there is one.
    fn note(&mut self, last: LastPosting) {
        if let Some(noted) = &mut self.noted {
            if noted.note(&self.rt, last).is_err() {
                let path = noted.path();
                let line = format_args!("farebox: cannot note the last posting in {path}");
                self.rt.say(Level::Warning, line);
                self.has_failed = true;
            }
        }
    }

    /// Tells of a close, after which this is the last posting that was made since the ledger was opened.
    fn tell(&mut self, last: Option<LastPosting>) {
        let Some(told) = &self.told else {
            return;
        };
        let day = self.day;
        let postings = match last {
            Some(last) => made_since(self.newest, last),
            None => 0,
        };
        let named = NamedDay(day);
        let line = format_args!("farebox: closed {named}: {postings} postings");
        self.rt.say(Level::Information, line);
        let at = Instant::now(&self.rt).ok();
        told.tell(Close { day, postings, at });
        self.newest = last.or(self.newest);
    }
}

/// How many postings a ledger has that are newer than one, up to another: each has the next number.
fn made_since(before: Option<LastPosting>, last: LastPosting) -> u64 {
    let before = match before {
        Some(before) => before.id.unwrap_or(0),
        None => 0,
    };
    let made = last.id.unwrap_or(0).saturating_sub(before);
    u64::try_from(made).unwrap_or(0)
}

impl<R: Files<File = File> + Clock + Log + AllocGlobal> Watch for CloseWatch<R> {
    fn begins(&mut self) {
        if let Some(newest) = self.newest {
            self.note(newest);
        }
    }

    fn may_close(&mut self, day: u32) -> bool {
        self.day = day;
        if self.early || self.is_over(day) {
            return true;
        }
        let named = NamedDay(day);
        let line = format_args!("farebox: close of {named} refused: it is not over (see --early)");
        self.rt.say(Level::Warning, line);
        self.has_failed = true;
        false
    }

    fn closed(&mut self, last: Option<LastPosting>) {
        if let Some(last) = last {
            self.note(last);
        }
        self.tell(last);
    }

    fn not_closed(&mut self, day: u32, why: &NotClosed) {
        let level = Level::Error;
        let named = NamedDay(day);
        match why.posted_later() {
            Some((account, through)) => {
                let later = NamedDay(through);
                self.rt.say(
                    level,
                    format_args!(
                        "farebox: close of {named} refused: {why}: account {account} was posted through {later}"
                    ),
                );
            }
            None => self.rt.say(
                level,
                format_args!("farebox: close of {named} refused: {why}"),
            ),
        }
        self.has_failed = true;
    }
}
