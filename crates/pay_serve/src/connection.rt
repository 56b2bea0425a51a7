//! The connections of a lane, one after another.
ghost use Rattle.std.specs.Prelude.{◌≡◌, length, IfOk};
ghost use Rattle.pay_session.specs.Words.{AreAskedIn};
ghost use Rattle.pay_lanes.specs.Words.{IsSameLane};
ghost use Rattle.pay_serve.specs.Lanes.{HasShards, HasAskedAt};
ghost use Rattle.pay_session.specs.declared.port.Role.TheVariants.{All};

use crate::limits::{LAST_BYTES, LAST_READS, LAST_WAIT};
use crate::place::Place;
use crate::sides::{ReadSide, Unsent, WriteSide};
use jiff::tz::TimeZone;
use pay_office::{Lane, LaneDesk};
use pay_session::{Role, session};
use pay_shard::Desk;
use pay_till::NoTill;
use pay_zone::Zone;
use std::alloc::{AllocError, Global};
use std::io::{BufReader, Read};
use std::net::{Shutdown, TcpListener, TcpStream};
use std::sync::Wait;
use std::time::Duration;

/// Answers the lines of a connection over a desk, until it ends or fails. There it closes no day.
#[tactic(auto, using(crate::proofs::LinesAsked::asked_none))]
fn answer_lines<D: Desk>(alloc: Global, stream: &TcpStream, zone: &Zone<'_>, desk: &mut D)
    ensures same_desk { (D.parts desk.new).standing ≡ (D.parts desk.old).standing }
    ensures asked { AreAskedIn zone.now (D.parts desk.old).taken (D.parts desk.new).taken }
{
    let Ok(unsent) = Unsent::new(alloc, stream) else {
        return;
    };
    let read_side = ReadSide {
        stream,
        unsent: &unsent,
    };
    let Ok(mut reader) = BufReader::new(alloc, read_side) else {
        return;
    };
    let mut writer = WriteSide { unsent: &unsent };
    let _ = session(&mut reader, &mut writer, zone, desk, &mut NoTill);
    let _ = unsent.send();
}

/// Takes what a peer still sends, as far as it comes soon: bytes that nobody has taken when a stream is dropped make the system
/// break the connection, and the peer may lose replies by it.
fn take_rest(mut stream: &TcpStream) {
    let longest = Duration::from_millis(LAST_WAIT);
    if stream.set_read_timeout(Some(longest)).is_err() {
        return;
    }
    let mut taken = [0u8; LAST_BYTES];
    for _ in 0..LAST_READS {
        match stream.read(&mut taken) {
            Ok(0) | Err(_) => return,
            Ok(_) => {}
        }
    }
}

/// Serves the next connection of a listener over a desk. One that is not to be had counts as served.
#[tactic(auto, using(crate::proofs::LinesAsked::asked_none))]
fn serve_connection<D: Desk>(alloc: Global, listener: &TcpListener, zone: &Zone<'_>, desk: &mut D)
    ensures same_desk { (D.parts desk.new).standing ≡ (D.parts desk.old).standing }
    ensures asked { AreAskedIn zone.now (D.parts desk.old).taken (D.parts desk.new).taken }
{
    let Ok((stream, _)) = listener.accept() else {
        return;
    };
    // A reply is not held back for the next one.
    let _ = stream.set_nodelay(true);
    answer_lines(alloc, &stream, zone, desk);
    if stream.shutdown(Shutdown::Write).is_ok() {
        take_rest(&stream);
    }
}

/// Serves so many connections of a listener, one after another, over a desk, which takes nothing but what a line could ask for.
pub fn serve_connections<D: Desk>(
    alloc: Global,
    listener: &TcpListener,
    sessions: u32,
    zone: &Zone<'_>,
    desk: &mut D,
)
    ensures same_desk { (D.parts desk.new).standing ≡ (D.parts desk.old).standing }
    ensures asked { AreAskedIn zone.now (D.parts desk.old).taken (D.parts desk.new).taken }
{
    for _ in 0..sessions {
        serve_connection(alloc, listener, zone, desk);
    }
}

/// Serves so many connections of a listener, one after another, over a lane, which sends nothing but what a line could ask for.
pub fn serve_lane<R: Wait + Copy>(
    rt: R,
    alloc: Global,
    listener: &TcpListener,
    sessions: u32,
    zone: &Zone<'_>,
    lane: Lane,
) -> Lane
    requires { HasShards lane }
    ensures same { IsSameLane lane result }
    ensures asked { HasAskedAt (zone.now, All) lane → HasAskedAt (zone.now, All) result }
{
    let mut desk = LaneDesk::new(rt, alloc, lane);
    serve_connections(alloc, listener, sessions, zone, &mut desk);
    desk.into_lane()
}

/// So many connections of a listener, one after another. There all may be asked for, but no day is closed.
#[derive(Drop)]
pub struct Connections {
    pub listener: TcpListener,
    pub sessions: u32,
}

impl Place for Connections {
    ghost use Rattle.pay_session.specs.declared.port.Role.TheVariants.{All};

    ghost asks = { All };

    fn role() -> Role {
        Role::All
    }

    fn serve<R: Wait + Copy>(self, rt: R, alloc: Global, zone: &TimeZone<'_>, lane: Lane) -> Lane {
        let zone = Zone::new(alloc, *zone);
        serve_lane(rt, alloc, &self.listener, self.sessions, &zone, lane)
    }
}

/// A place for each listener, in order, of so many connections. `Err` is want of memory.
pub fn places(
    alloc: Global,
    sessions: u32,
    listeners: Vec<TcpListener>,
) -> Result<Vec<Connections>, AllocError>
    ensures { IfOk result (λ places. length places.items ≡ length listeners.items) }
{
    let mut places = Vec::with_capacity(alloc, listeners.len())?;
    for listener in listeners {
        places.push_reserved(Connections { listener, sessions });
    }
    Ok(places)
}
