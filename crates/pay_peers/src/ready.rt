//! Places of a service that stays: one for readers and customers, and one for staff.

use crate::aside::Aside;
use crate::ports::Ports;
use crate::serving::Serving;
use crate::shared::Shared;
use jiff::tz::TimeZone;
use pay_office::Lane;
use pay_serve::{Place, StaffPlace};
use pay_session::{Port, Role};
use pay_till::{NoTill, Till};
use pay_zone::Zone;
use std::alloc::Global;
use std::net::Net;
use std::sync::Wait;
use std::time::Clock;
use std::{io, net};

/// A port for readers and customers, which may be that of other lanes too.
#[derive(Drop)]
pub struct Ready<C, A> {
    serving: Serving<C, A>,
}

/// A port for staff. Four lines are words of this port alone, and none of a session. `STOP` ends the service. `BACKUP /backup/a.db` has
/// the ledger copied to that path, and is answered by `OK 45056`, the bytes that were copied, or by `NO 53 NoBackup`. `OPEN 19735` is
/// answered by `OPEN 19735 2` where two accounts owe something else for the week of that day, through it, than what was posted for them, or
/// by the refusal of a close. `STATS` is answered
/// by one line, `STATS seconds=9 connections=2 connections_in_all=5 dropped=0 lines=7 accepted=3 again=1 taps=2 corrections=1`,
/// then ` refused_20=1` for each number of a refusal that occurred, by rising number, and then what an [`Aside`] knows of files. It says of
/// all lanes together:
///
/// - `seconds`: for how long this port has been served;
/// - `connections`, `connections_in_all`: how many are held now, and were ever held;
/// - `dropped`: how many were dropped as they came, for want of room or memory;
/// - `lines`: how many replies there were in sessions, which is one to each line, and to a rest that no newline ends;
/// - `accepted`, `again`, `refused_N`: how many of these begin with `OK`, with `AGAIN`, and with `NO N`. Only taps and corrections are
///   answered by the first two;
/// - `taps`, `corrections`: how many of the accepted lines were `TAP`, and how many `FIX`.
#[derive(Drop)]
pub struct Control<C, A> {
    serving: Serving<C, A>,
    ports: Ports,
}

impl<C: Net + Clock + Copy, A: Aside> Ready<C, A> {
    /// A port at a listener. It ends once it is told to stop. Its connections are counted beside those of the lanes with which it shares
    /// that, and no more are held than there is room for.
    pub fn new(
        rt: C,
        alloc: Global,
        listener: net::TcpListener,
        shared: Shared,
        aside: A,
    ) -> io::Result<Ready<C, A>> {
        let serving = Serving::new(&rt, alloc, listener, shared, rt, aside)?;
        Ok(Ready { serving })
    }
}

impl<C: Net + Clock + Copy, A: Aside> Control<C, A> {
    /// A port at a listener. It ends once somebody asks for the service to stop, or it is told to. Its connections are counted
    /// beside those of the other lanes.
    pub fn new(
        rt: C,
        alloc: Global,
        listener: net::TcpListener,
        ports: Ports,
        shared: Shared,
        aside: A,
    ) -> io::Result<Control<C, A>> {
        let serving = Serving::new(&rt, alloc, listener, shared, rt, aside)?;
        Ok(Control { serving, ports })
    }
}

impl<C: Clock + Drop, A: Aside> Place for Ready<C, A> {
    ghost use Rattle.pay_session.specs.declared.port.Role.TheVariants.{Taps};

    ghost asks = { Taps };

    fn role() -> Role {
        Role::Taps
    }

    fn serve<R: Wait + Copy>(self, rt: R, alloc: Global, zone: &TimeZone<'_>, lane: Lane) -> Lane {
        pay_serve::laws::lanes_ask();
        let zone = Zone::new(alloc, *zone);
        let port = Port {
            zone: &zone,
            role: Role::Taps,
            latest: None,
        };
        let mut serving = self.serving;
        let mut desk = serving.desk(rt, alloc, lane);
        serving.serve_all(&rt, port, &mut desk, &mut NoTill);
        desk.into_lane()
    }
}

impl<C: Clock + Drop, A: Aside> StaffPlace for Control<C, A> {
    fn serve<R: Wait + Copy, T: Till>(
        self,
        rt: R,
        alloc: Global,
        zone: &TimeZone<'_>,
        lane: Lane,
        till: &mut T,
    ) -> Lane {
        let Control { mut serving, ports } = self;
        let zone = Zone::new(alloc, *zone);
        serving.begin(ports);
        let mut desk = serving.desk(rt, alloc, lane);
        serving.serve_all(&rt, Port::open(&zone), &mut desk, till);
        desk.into_lane()
    }
}
