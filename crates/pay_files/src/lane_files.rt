//! What the lanes of a service do beside their lines, over files.

use crate::backup::back_up;
use crate::journal::{folder_of, open_or_make, place_of, settle_folder_of, settle_target};
use crate::kept::copy_of;
use crate::last_close::LastClose;
use crate::loads::Loads;
use crate::start::{Start, Took};
use crate::stats::{journal_bytes, memory_bytes, put};
use pay_log::{Level, Limiter, Log};
use pay_peers::{Aside, Ports};
use std::alloc::AllocError;
use std::fs::{File, Files};
use std::io::{ErrorKind, Read, Seek, SeekFrom, Write};
use std::sync::atomic::{AtomicBool, Ordering};
use std::sync::{Arc, Wait};
use std::time::Clock;
use std::{fs, io};

/// The file of refused lines, as one lane has it: each adds at its end, whatever others do at the same time.
#[derive(Drop)]
struct RefusedFile {
    file: File,
    path: String,
    // Whether standard error has that a line was not kept.
    told: Arc<AtomicBool>,
}

/// What a lane of a service does beside its lines: those that are refused are added to a file, if there is one; and the log is told of lost
/// connections, once a second at most over all lanes.
#[derive(Drop)]
pub struct LaneFiles<R> {
    rt: R,
    refused: Option<RefusedFile>,
    lost: Limiter,
}

/// Whether a file is empty, or begins as one of refused lines: by the number of a refusal, of which each begins with 1, 2 or 5. A ledger
/// does not, nor does its log.
fn begins_well(file: &mut File) -> io::Result<bool> {
    let mut first = [0];
    Ok(file.read(&mut first)? == 0 || matches!(first[0], b'1' | b'2' | b'5'))
}

/// Whether a file at a path lies in a folder, or would.
pub(crate) fn lies_in<R: Files + AllocGlobal>(
    rt: &R,
    path: &str,
    folder: &str,
) -> io::Result<bool> {
    let place = place_of(rt, path)?;
    let folder = fs::canonicalize(rt, folder)?;
    Ok(folder_of(place.as_str()) == folder.as_str())
}

/// Ends the last line of a file, of which a crash may have left a part.
fn end_line(file: &mut File) -> io::Result<()> {
    let mut last = [b'\n'];
    if file.seek(SeekFrom::End(0))? > 0 {
        file.seek(SeekFrom::End(-1))?;
        file.read(&mut last)?;
    }
    if last[0] != b'\n' {
        file.write_all(b"\n")?;
    }
    Ok(())
}

/// The file of refused lines at a path, which is made where there is none. No other service has it then. In the folder of the journals
/// nothing is made.
fn refused_at<R: Files<File = File> + AllocGlobal>(
    rt: &R,
    path: &str,
    journals: &str,
) -> io::Result<RefusedFile> {
    if lies_in(rt, path, journals)? {
        return Err(io::Error::from(ErrorKind::InvalidInput));
    }
    let mut file = open_or_make(rt, path)?;
    if !file.metadata()?.is_file() {
        return Err(io::Error::from(ErrorKind::InvalidInput));
    }
    file.try_lock().map_err(io::Error::from)?;
    if !begins_well(&mut file)? {
        return Err(io::Error::from(ErrorKind::InvalidData));
    }
    end_line(&mut file)?;
    settle_target(rt, path)?;
    settle_folder_of(rt, path)?;
    Ok(RefusedFile {
        file,
        path: copy_of(rt.alloc(), path)?,
        told: Arc::new(rt.alloc(), AtomicBool::new(false)).map_err(AllocError::from)?,
    })
}

impl RefusedFile {
    /// The same file for another lane.
    fn again<R: AllocGlobal>(&self, rt: &R) -> io::Result<RefusedFile> {
        Ok(RefusedFile {
            file: self.file.try_clone()?,
            path: copy_of(rt.alloc(), self.path.as_str())?,
            told: Arc::clone(&self.told)?,
        })
    }

    /// Adds lines at the end, by one write: other lanes may add theirs meanwhile. Whether all are there.
    fn add(&mut self, lines: &[u8]) -> bool {
        match self.file.write(lines) {
            Ok(count) => count == lines.len(),
            Err(_) => false,
        }
    }

    /// Says that a line was not kept, once for all lanes.
    fn report<R: Log>(&self, rt: &R) {
        if !self.told.swap(true, Ordering::SeqCst) {
            let path = self.path.as_str();
            let line = format_args!("farebox: cannot keep refused lines in {path}");
            rt.say(Level::Error, line);
        }
    }
}

impl<R: Files<File = File> + AllocGlobal + Copy> LaneFiles<R> {
    /// Those of the first lane, beside a folder of journals. Refused lines are kept in the file at a path, if one is given.
    pub fn open(rt: R, journals: &str, refused: Option<&str>) -> io::Result<LaneFiles<R>> {
        let refused = match refused {
            Some(path) => Some(refused_at(&rt, path, journals)?),
            None => None,
        };
        let lost = Limiter::new(rt.alloc())?;
        Ok(LaneFiles { rt, refused, lost })
    }
}

impl<R: Log + Clock + Wait + AllocGlobal + Copy> Aside for LaneFiles<R> {
    ghost use Rattle.std.specs.Prelude.{⊤};

    ghost Copies = { λ _ _ _ _. ⊤ };

    ghost Stops = { λ _ _. ⊤ };

    fn again(&self) -> io::Result<LaneFiles<R>> {
        let refused = match &self.refused {
            Some(refused) => Some(refused.again(&self.rt)?),
            None => None,
        };
        Ok(LaneFiles {
            rt: self.rt,
            refused,
            lost: self.lost.again()?,
        })
    }

    fn begin(&mut self, _: Ports) {}

    fn stop(&mut self) {}

    fn lose(&mut self, why: ErrorKind) {
        let line = format_args!("farebox: connection lost: {why}");
        self.lost.say(&self.rt, Level::Information, line);
    }

    fn put_stats(&self, _: &mut String) -> Result<(), AllocError> {
        Ok(())
    }

    fn keeps_refused(&self) -> bool {
        self.refused.is_some()
    }

    fn keep_refused(&mut self, lines: &[u8]) {
        if let Some(refused) = &mut self.refused {
            if !refused.add(lines) {
                refused.report(&self.rt);
            }
        }
    }

    fn back_up(&mut self, _: &[u8]) -> Option<u64> {
        None
    }
}

/// What the lane of staff does beside its lines: it copies the ledger too, and tells of the service. Lanes in threads of their own make no
/// files.
#[derive(Drop)]
pub struct StaffFiles<R> {
    lane: LaneFiles<R>,
    ledger: String,
    journals: String,
    start: Start,
    loads: Loads,
    closed: LastClose,
}

impl<R: Log + Clock + Wait + AllocGlobal + Copy> StaffFiles<R> {
    /// That of a service with this ledger and journals in this folder, its start, its loads and its closes, beside what another of its lanes
    /// does.
    pub fn beside(
        lane: &LaneFiles<R>,
        ledger: &str,
        journals: &str,
        start: Start,
        loads: &Loads,
        closed: &LastClose,
    ) -> io::Result<StaffFiles<R>> {
        let alloc = lane.rt.alloc();
        Ok(StaffFiles {
            lane: lane.again()?,
            ledger: copy_of(alloc, ledger)?,
            journals: copy_of(alloc, journals)?,
            start,
            loads: loads.again()?,
            closed: closed.again()?,
        })
    }

    /// Says what the start took, if the clock can tell.
    fn tell_start(&self) -> Option<()> {
        let rt = &self.lane.rt;
        let time = self.start.began?.elapsed(rt).ok()?;
        let took = Took::new(self.start.lines, time);
        rt.say(Level::Information, format_args!("farebox: {took}"));
        Some(())
    }

    /// Adds the last close of the service, if there was one.
    fn put_close(&self, line: &mut String) -> Result<(), AllocError> {
        let Some(close) = self.closed.get() else {
            return Ok(());
        };
        put(line, "close_day", Some(u64::from(close.day)))?;
        put(line, "close_postings", Some(close.postings))?;
        let time = match close.at {
            Some(at) => at.elapsed(&self.lane.rt).ok(),
            None => None,
        };
        put(line, "close_seconds", time.map(|time| time.as_secs()))
    }
}

/// Says why a ledger was not copied to a path.
fn report_backup<R: Log>(rt: &R, path: &str, why: &io::Error) {
    let line = format_args!("farebox: cannot back up to {path}: {why}");
    rt.say(Level::Error, line);
}

impl<R: Files<File = File> + Log + Clock + Wait + AllocGlobal + Copy> Aside for StaffFiles<R> {
    ghost use Rattle.std.specs.Prelude.{⊤};

    ghost Copies = { λ _ _ _ _. ⊤ };

    ghost Stops = { λ _ _. ⊤ };

    fn again(&self) -> io::Result<StaffFiles<R>> {
        StaffFiles::beside(
            &self.lane,
            self.ledger.as_str(),
            self.journals.as_str(),
            self.start,
            &self.loads,
            &self.closed,
        )
    }

    fn begin(&mut self, ports: Ports) {
        let _ = self.tell_start();
        let Ports { everybody, staff } = ports;
        let line = format_args!(
            "farebox: listening on 127.0.0.1:{everybody}, for staff on 127.0.0.1:{staff}"
        );
        self.lane.rt.say(Level::Information, line);
    }

    fn stop(&mut self) {
        let rt = &self.lane.rt;
        rt.say(Level::Information, "farebox: staff stop the service");
    }

    fn lose(&mut self, why: ErrorKind) {
        self.lane.lose(why);
    }

    fn put_stats(&self, line: &mut String) -> Result<(), AllocError> {
        let rt = &self.lane.rt;
        let journals = journal_bytes(rt, self.journals.as_str()).ok();
        put(line, "journal_bytes", journals)?;
        put(line, "memory_bytes", memory_bytes(rt))?;
        self.loads.put(line)?;
        self.put_close(line)
    }

    fn keeps_refused(&self) -> bool {
        self.lane.keeps_refused()
    }

    fn keep_refused(&mut self, lines: &[u8]) {
        self.lane.keep_refused(lines);
    }

    fn back_up(&mut self, path: &[u8]) -> Option<u64> {
        let path = str::from_utf8(path).ok()?;
        let rt = &self.lane.rt;
        match back_up(rt, self.ledger.as_str(), self.journals.as_str(), path) {
            Ok(copied) => Some(copied),
            Err(why) => {
                report_backup(rt, path, &why);
                None
            }
        }
    }
}
