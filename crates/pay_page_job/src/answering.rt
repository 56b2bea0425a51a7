//! The port, and the threads that answer browsers there.

use crate::control::StaffPort;
use crate::journals::Journals;
use crate::looking::LooksUp;
use crate::offers::Offers;
use crate::patient::{Patient, SILENCE};
use http_server::{Config, Connection, Service, serve};
use pay_clerks::Clerks;
use pay_jobs::{Fault, begin_service};
use pay_log::{Level, Log};
use pay_serve::listen_on;
use pay_web::{Site, Staff, StaffSite};
use std::alloc::{AllocError, Global};
use std::fs::File;
use std::hash::RandomState;
use std::net::{Net, TcpListener, TcpStream};
use std::random::RandomSource;
use std::rt::{Clock, Files};
use std::sync::{Arc, Wait};
use std::thread::Threads;
use std::time::Duration;
use std::{io, thread};

/// How many browsers are answered at a time.
const THREADS: usize = 16;

/// For how many milliseconds the journals are left alone, and nothing is tried where no connection can be taken.
const PAUSE: u64 = 50;

/// The most bytes of a head.
const MOST_HEAD: usize = 8 * 1024;

/// How many bytes are drawn for what only the forms of this program have.
const TOKEN_BYTES: usize = 16;

/// The most bytes of a body.
const MOST_BODY: usize = 4 * 1024;

/// The system gives no random bytes.
const NO_RANDOM: Fault = Fault::Refused {
    number: 36,
    name: "NoRandom",
};

/// What pages are made of, and where they are shown.
#[derive(Drop)]
pub struct Given {
    /// The text of the fare file.
    pub fares: String,
    /// The text of the time zone, a POSIX rule.
    pub zone: String,
    /// The paths of the journals.
    pub paths: Vec<String>,
    /// The port of 127.0.0.1.
    pub port: u16,
    /// The port for the staff of the service that the journals are of. Without it, nothing is asked of it.
    pub service: Option<StaffPort>,
    /// The clerks who may correct accounts. Without them, nobody does.
    pub clerks: Option<Clerks>,
}

/// The clerks, and what only the forms of this program have, for each thread.
#[derive(Drop)]
struct Shared {
    clerks: Arc<Clerks>,
    token: String,
}

impl Shared {
    /// With a token that is drawn now.
    fn new<R: RandomSource>(rt: &R, alloc: Global, clerks: Clerks) -> Result<Shared, Fault> {
        let mut drawn = [0; TOKEN_BYTES];
        if rt.fill_bytes(&mut drawn).is_err() {
            return Err(NO_RANDOM);
        }
        Ok(Shared {
            clerks: Arc::new(alloc, clerks).map_err(AllocError::from)?,
            token: hex::encode(alloc, drawn)?,
        })
    }

    /// For one thread.
    fn staff(&self, alloc: Global) -> Result<Staff, AllocError> {
        Ok(Staff {
            clerks: Arc::clone(&self.clerks)?,
            token: String::from_str(alloc, self.token.as_str())?,
        })
    }
}

/// Answers browsers until the program is ended. A fare file or a zone that is refused is a fault before anything else, and so are journals
/// that cannot be read then. What was posted is told by a ledger, if there is one.
pub fn serve_pages<R, L: LooksUp + Drop>(
    rt: R,
    given: Given,
    mut ledger: Option<L>,
) -> Result<(), Fault>
where
    R: Net<Listener = TcpListener, Stream = TcpStream>
        + Threads
        + Wait
        + Files<File = File>
        + Clock
        + RandomSource
        + Log
        + AllocGlobal
        + Copy
        + Send
        + 'static,
{
    let Given {
        fares,
        zone,
        paths,
        port,
        service,
        clerks,
    } = given;
    let _begun = begin_service(rt.alloc(), fares.as_str(), zone.as_str())?;
    let shared = match clerks {
        Some(clerks) => Some(Shared::new(&rt, rt.alloc(), clerks)?),
        None => None,
    };
    let offers = Offers {
        corrects: shared.is_some(),
        has_ledger: ledger.is_some(),
    };
    let journals = Journals::new(rt, fares, zone, paths, service, offers, THREADS)?;
    if !journals.read_on() {
        return Err(Fault::Journal);
    }
    let Ok(listener) = listen_on(&rt, port) else {
        return Err(Fault::CannotListen);
    };
    let Ok(keys) = RandomState::new(&rt) else {
        return Err(NO_RANDOM);
    };
    let mut has_any = false;
    for place in 0..THREADS {
        let Ok(listener) = listener.try_clone() else {
            return Err(Fault::CannotListen);
        };
        let (alloc, journals) = (rt.alloc(), journals.again(place)?);
        let is_begun = match &shared {
            Some(shared) => {
                let site = StaffSite::new(alloc, port, shared.staff(alloc)?, journals)?;
                answer_beside(&rt, listener, Browsers::new(rt, alloc, keys, site))
            }
            None => {
                let site = Site::new(alloc, port, journals)?;
                answer_beside(&rt, listener, Browsers::new(rt, alloc, keys, site))
            }
        };
        has_any = is_begun || has_any;
    }
    if !has_any {
        return Err(Fault::Refused {
            number: 35,
            name: "NoThread",
        });
    }
    rt.say(
        Level::Information,
        format_args!("farebox: pages at http://127.0.0.1:{port}/"),
    );
    for _ in rt.forever() {
        let _ = journals.read_on();
        if let Some(ledger) = &mut ledger {
            journals.answer(ledger);
        }
        journals.pause(Duration::from_millis(PAUSE));
    }
    Ok(())
}

/// What answers connections.
trait Answer: Drop {
    /// Answers the requests of one.
    fn answer(&mut self, stream: &TcpStream);

    /// Waits a little where none can be taken.
    fn pause(&self);
}

/// Answers connections in a thread of its own, if the system gives one.
fn answer_beside<R, A>(rt: &R, listener: TcpListener, browsers: A) -> bool
where
    R: Threads,
    A: Answer + Send + 'static,
{
    let answer = move || {
        answer_all(&listener, browsers);
        true
    };
    thread::spawn(rt, answer).is_ok()
}

/// Answers one connection after another.
fn answer_all<A: Answer>(listener: &TcpListener, mut browsers: A) {
    for stream in listener.incoming() {
        match stream {
            Ok(stream) => browsers.answer(&stream),
            Err(_) => browsers.pause(),
        }
    }
}

/// What answers browsers.
#[derive(Drop)]
struct Browsers<R, S> {
    rt: R,
    alloc: Global,
    keys: RandomState,
    site: S,
}

impl<R: Clock + Drop, S: Service + Drop> Browsers<R, S> {
    fn new(rt: R, alloc: Global, keys: RandomState, site: S) -> Browsers<R, S> {
        Browsers {
            rt,
            alloc,
            keys,
            site,
        }
    }

    /// Answers the requests of a connection.
    fn serve(&mut self, stream: &TcpStream) -> io::Result<()> {
        let silence = Some(Duration::from_secs(SILENCE));
        stream.set_read_timeout(silence)?;
        stream.set_write_timeout(silence)?;
        let mut config = Config::default();
        config.limits.max_head_len = MOST_HEAD;
        config.max_body_len = MOST_BODY;
        let mut connection = Connection::new(self.alloc, self.keys, config);
        let mut reader = Patient::new(&self.rt, stream);
        let mut writer = stream;
        serve(&mut connection, &mut self.site, &mut reader, &mut writer)
    }
}

impl<R: Clock + Wait + Copy, S: Service + Drop> Answer for Browsers<R, S> {
    fn answer(&mut self, stream: &TcpStream) {
        // Whatever ends a connection early is its peer's.
        let _ = self.serve(stream);
    }

    fn pause(&self) {
        thread::sleep(&self.rt, Duration::from_millis(PAUSE));
    }
}
