//! A port, with the connections that came there to one lane.
ghost use Rattle.std.specs.Prelude.{◌≡◌, [], OnSome};
ghost use Rattle.pay_serve.specs.Words.{HasShards};
ghost use Rattle.pay_session.specs.Words.{HasAnsweredAt};
ghost use Rattle.pay_peers.specs.Backups.{IsAsked};
ghost use Rattle.pay_peers.specs.OpenWeeks.{IsOpened};
ghost use Rattle.pay_peers.specs.declared.word.Word.{Word};
ghost use Rattle.pay_session.specs.declared.port.Role.TheVariants as roles;

use crate::aside::Aside;
use crate::fate::Fate;
use crate::limits::{LONGEST_WAIT, MOST_ACCEPTED, MOST_EVENTS, MOST_FAILURES, PIECE_BYTES};
use crate::peer::Peer;
use crate::peers::Peers;
use crate::ports::Ports;
use crate::refused::Refused;
use crate::sending::empty;
use crate::shared::{Shared, same};
use crate::tally::Seat;
use crate::word::Word;
use mio::net::{TcpListener, TcpStream};
use mio::{Events, Interest, Poll, Token};
use pay_office::{Lane, LaneDesk};
use pay_session::{Port, Role};
use pay_shard::Desk;
use pay_till::Till;
use std::alloc::Global;
use std::io::ErrorKind;
use std::net::Net;
use std::sync::atomic::Ordering;
use std::sync::{Arc, Wait};
use std::time::{Clock, Duration, Instant};
use std::{io, net};

/// The token of the listener. That of a connection is its place and one more.
const LISTENER: usize = 0;

/// A port, with the connections that came there to one lane.
#[derive(Drop)]
pub struct Serving<C, A> {
    alloc: Global,
    listener: TcpListener,
    poll: Poll,
    events: Events,
    peers: Peers,
    buffer: Vec<u8>,
    shared: Shared,
    clock: C,
    aside: A,
    // The instant of what is refused in this round, if such lines are kept.
    instant: Option<u64>,
    // When it began to serve, if the clock could tell.
    began: Option<Instant>,
    // How often in a row it failed to wait.
    failures: u32,
}

/// Has a poll report a connection under the token of its place.
fn register(poll: &Poll, stream: &mut TcpStream, place: usize) -> io::Result<()> {
    let token = Token(place.saturating_add(1));
    poll.registry()
        .register(stream, token, Interest::READABLE | Interest::WRITABLE)
}

impl<C: Clock + Copy, A: Aside> Serving<C, A> {
    /// A port at a listener. It ends once it is told to stop.
    pub fn new<R: Net>(
        rt: &R,
        alloc: Global,
        listener: net::TcpListener,
        shared: Shared,
        clock: C,
        aside: A,
    ) -> io::Result<Serving<C, A>> {
        listener.set_nonblocking(true)?;
        let mut listener = TcpListener::from_std(listener);
        let poll = Poll::new(rt)?;
        poll.registry()
            .register(&mut listener, Token(LISTENER), Interest::READABLE)?;
        Ok(Serving {
            alloc,
            listener,
            poll,
            events: Events::with_capacity(alloc, MOST_EVENTS)?,
            peers: Peers::new(alloc)?,
            buffer: Vec::from_elem(alloc, 0, PIECE_BYTES)?,
            shared,
            clock,
            aside,
            instant: None,
            began: None,
            failures: 0,
        })
    }
}

/// Keeps refused lines, which then are kept.
fn keep<A: Aside>(refused: &mut Refused, aside: &mut A)
    ensures { refused.new.lines.items ≡ [] }
{
    if !refused.lines.is_empty() {
        aside.keep_refused(refused.lines.as_slice());
        empty(&mut refused.lines);
    }
}

impl<C: Clock, A: Aside> Serving<C, A> {
    /// Says that lines are answered from now on, and at which ports.
    pub fn begin(&mut self, ports: Ports) {
        self.aside.begin(ports);
    }

    /// A desk over a lane, for which a reply is late soon, once the service is told to stop: its shard may keep nothing any more.
    pub fn desk<R: Wait + Copy>(&self, rt: R, alloc: Global, lane: Lane) -> LaneDesk<R>
        requires { HasShards lane }
        ensures { result ≡ record { began = lane; lane = lane; waiting = [] } }
    {
        let desk = LaneDesk::new(rt, alloc, lane);
        match Arc::clone(&self.shared.stop) {
            Ok(told) => desk.until(told),
            Err(_) => desk,
        }
    }

    /// For how many seconds it has served.
    fn seconds(&self) -> u64 {
        let Some(began) = self.began else {
            return 0;
        };
        match began.elapsed(&self.clock) {
            Ok(time) => time.as_secs(),
            Err(_) => 0,
        }
    }

    /// Tells the whole service to stop.
    fn stop(&self) {
        self.shared.stop.store(true, Ordering::SeqCst);
    }

    /// Holds a connection, if there is room.
    fn hold(&mut self, stream: TcpStream, role: Role) -> Option<()> {
        let seat = Seat::take(&self.shared.tally, role)?;
        // A reply is not held back for the next one.
        let _ = stream.set_nodelay(true);
        let mut stream = stream;
        register(&self.poll, &mut stream, self.peers.next_place()).ok()?;
        let greeting = same(&self.shared.greeting);
        self.peers
            .hold(Peer::new(self.alloc, stream, seat, greeting))
    }

    /// Holds the connections that wait, as far as they come, and drops those for which there is no room.
    fn accept(&mut self, role: Role) {
        for _ in 0..MOST_ACCEPTED {
            let Ok((stream, _)) = self.listener.accept() else {
                return;
            };
            match self.hold(stream, role) {
                Some(()) => self.shared.tally.count_held(),
                None => self.shared.tally.count_dropped(),
            }
        }
    }

    /// Does what staff ask of the service by the connection at a place. There is nothing where memory runs out.
    fn obey<D: Desk, T: Till>(
        &mut self,
        place: usize,
        word: Word,
        port: Port<'_>,
        desk: &mut D,
        till: &mut T,
    ) -> Option<()>
        requires { port.role ≡ roles.All }
        ensures asked { OnSome result (IsAsked A.Copies A.Stops word self.old.aside self.new.aside) }
        ensures opened { OnSome result (IsOpened D.parts T.Closes T.Opens word (desk.old, till.old) (desk.new, till.new)) }
        ensures served { HasAnsweredAt D.parts T.Closes (port.entry.zone.now, port.entry.role) (desk.old, till.old) (desk.new, till.new) }
        ensures same_till { T.origin till.new ≡ T.origin till.old }
    {
        pay_session::laws::piece_by_piece::<D, T>();
        pay_session::laws::close_is_answered::<D, T>();
        match (port.role, word) {
            (Role::Taps, _) => unreachable!(),
            (Role::All, Word::Stop) => {
                self.aside.stop();
                self.stop();
                self.peers.at(place)?.say_bye()
            }
            (Role::All, Word::Stats) => {
                let seconds = self.seconds();
                let tally = &self.shared.tally;
                let line = tally.line(self.alloc, seconds, &self.aside).ok()?;
                self.peers.at(place)?.say(line.as_bytes())
            }
            (Role::All, Word::Backup(path)) => {
                let peer = self.peers.at(place)?;
                peer.back_up(self.alloc, path.text(), &mut self.aside)
            }
            (Role::All, Word::Open(day)) => {
                let peer = self.peers.at(place)?;
                peer.count_open(self.alloc, day.number(), desk, till)
            }
        }
    }

    /// The connection at a place takes its turn, if it is there.
    fn turn<D: Desk, T: Till>(
        &mut self,
        place: usize,
        port: Port<'_>,
        desk: &mut D,
        till: &mut T,
    ) -> Fate
        ensures served { HasAnsweredAt D.parts T.Closes (port.entry.zone.now, port.entry.role) (desk.old, till.old) (desk.new, till.new) }
        ensures same_till { T.origin till.new ≡ T.origin till.old }
        ensures staff { (word : Word) → result ≡ Fate.Asks word → port.entry.role ≡ roles.All }
    {
        pay_session::laws::piece_by_piece::<D, T>();
        match self.peers.at(place) {
            Some(peer) => {
                peer.refused.instant = self.instant;
                let fate = peer.turn(&mut self.buffer, port, desk, till);
                keep(&mut peer.refused, &mut self.aside);
                fate
            }
            None => Fate::Waits,
        }
    }

    /// Lets the connection at a place go, which was lost.
    fn lose(&mut self, place: usize, why: ErrorKind) {
        self.aside.lose(why);
        self.peers.let_go(place);
    }

    /// The same, and what becomes of it: it has one more turn soon, it waits, or it is let go.
    fn serve<D: Desk, T: Till>(&mut self, place: usize, port: Port<'_>, desk: &mut D, till: &mut T)
        ensures served { HasAnsweredAt D.parts T.Closes (port.entry.zone.now, port.entry.role) (desk.old, till.old) (desk.new, till.new) }
        ensures same_till { T.origin till.new ≡ T.origin till.old }
    {
        pay_session::laws::piece_by_piece::<D, T>();
        match self.turn(place, port, desk, till) {
            Fate::Waits => {}
            Fate::GoesOn => self.peers.queue(place),
            Fate::Asks(word) => match self.obey(place, word, port, desk, till) {
                Some(()) => self.peers.queue(place),
                None => self.lose(place, ErrorKind::OutOfMemory),
            },
            Fate::Lost(why) => self.lose(place, why),
            Fate::Ends => self.peers.let_go(place),
        }
    }

    /// Those that have a turn to come have it, and no more than one.
    fn serve_queued<D: Desk, T: Till>(&mut self, port: Port<'_>, desk: &mut D, till: &mut T)
        ensures served { HasAnsweredAt D.parts T.Closes (port.entry.zone.now, port.entry.role) (desk.old, till.old) (desk.new, till.new) }
        ensures same_till { T.origin till.new ≡ T.origin till.old }
    {
        pay_session::laws::piece_by_piece::<D, T>();
        for _ in 0..self.peers.queued() {
            if let Some(place) = self.peers.next() {
                self.serve(place, port, desk, till);
            }
        }
    }

    /// Waits until there is something to do, but not for long where some may go on at once, and says whether it could. Where it fails time
    /// and again, the service ends. A signal is no failure.
    fn wait(&mut self) -> bool {
        let longest = if self.peers.queued() == 0 {
            LONGEST_WAIT
        } else {
            0
        };
        let longest = Some(Duration::from_millis(longest));
        if self.poll.poll(&mut self.events, longest).is_ok() {
            self.failures = 0;
            return true;
        }
        self.failures = self.failures.saturating_add(1);
        if self.failures >= MOST_FAILURES {
            self.stop();
        }
        false
    }

    /// What is ready has a turn to come, behind those that have one already.
    fn queue_ready(&mut self) {
        for event in self.events.iter() {
            if let Some(place) = event.token().0.checked_sub(1) {
                self.peers.queue(place);
            }
        }
    }

    /// The last instant that a tap may have now, if there is one. A clock that cannot be read refuses none.
    fn latest(&self) -> Option<u64> {
        let ahead = self.shared.ahead?;
        let now = self.clock.since_1970().ok()?;
        Some(now.as_secs().saturating_add(u64::from(ahead)))
    }

    /// The instant of what is refused now, if such lines are kept: 0 where the clock cannot be read.
    fn instant(&self) -> Option<u64> {
        if !self.aside.keeps_refused() {
            return None;
        }
        match self.clock.since_1970() {
            Ok(now) => Some(now.as_secs()),
            Err(_) => Some(0),
        }
    }

    /// Waits, and serves what is ready.
    fn round<D: Desk, T: Till>(&mut self, port: Port<'_>, desk: &mut D, till: &mut T)
        ensures served { HasAnsweredAt D.parts T.Closes (port.entry.zone.now, port.entry.role) (desk.old, till.old) (desk.new, till.new) }
        ensures same_till { T.origin till.new ≡ T.origin till.old }
    {
        pay_session::laws::piece_by_piece::<D, T>();
        if !self.wait() {
            return;
        }
        // Each time, since one that was not taken is not told of again.
        self.accept(port.role);
        self.queue_ready();
        let latest = self.latest();
        self.instant = self.instant();
        self.serve_queued(Port { latest, ..port }, desk, till);
    }

    /// Sends each peer what waits for it, as far as the system takes it, and says that no more comes.
    fn leave(&mut self) {
        for place in 0..self.peers.len() {
            if let Some(peer) = self.peers.at(place) {
                peer.leave(&mut self.buffer);
            }
        }
    }

    /// Serves whoever comes until it is told to stop.
    pub fn serve_all<R: Wait, D: Desk, T: Till>(
        &mut self,
        rt: &R,
        port: Port<'_>,
        desk: &mut D,
        till: &mut T,
    )
        ensures served { HasAnsweredAt D.parts T.Closes (port.entry.zone.now, port.entry.role) (desk.old, till.old) (desk.new, till.new) }
        ensures same_till { T.origin till.new ≡ T.origin till.old }
    {
        pay_session::laws::piece_by_piece::<D, T>();
        self.began = Instant::now(&self.clock).ok();
        for _ in rt.forever() {
            if self.shared.stop.load(Ordering::SeqCst) {
                break;
            }
            self.round(port, desk, till);
        }
        self.leave();
    }
}
