//! What serves a lane.
ghost use Rattle.std.specs.Prelude.{◌≡◌};
ghost use Rattle.pay_lanes.specs.Words.{IsSameLane};
ghost use Rattle.pay_office.specs.Words.{NoneIsHidden};
ghost use Rattle.pay_serve.specs.Lanes.{HasShards, HasAskedAt};
ghost use Rattle.pay_serve.specs.Stays.{HasAnsweredOver};
ghost use Rattle.pay_session.specs.declared.port.Role.{Role};

use jiff::tz::TimeZone;
use pay_office::Lane;
use pay_session::Role;
use pay_till::Till;
use std::alloc::Global;
use std::sync::Wait;

/// Where the lines of a lane come from.
pub trait Place: Drop {
    /// Who may ask there.
    ghost asks: { Role };

    /// Who may ask there.
    fn role() -> Role
        ensures { result ≡ asks };

    /// Serves whoever comes there over a lane, which sends nothing but what lines ask for in a zone, of whoever may ask there.
    fn serve<R: Wait + Copy>(self, rt: R, alloc: Global, zone: &TimeZone<'_>, lane: Lane) -> Lane
        requires { HasShards lane }
        ensures same { IsSameLane lane result }
        ensures asked { HasAskedAt (zone.now, asks) lane → HasAskedAt (zone.now, asks) result };
}

/// Where the lines of staff come from, whose days a till closes.
pub trait StaffPlace: Drop {
    /// Serves whoever comes there over a lane: all that it sends, and each close of the till, is what their lines ask for in a zone.
    fn serve<R: Wait + Copy, T: Till>(
        self,
        rt: R,
        alloc: Global,
        zone: &TimeZone<'_>,
        lane: Lane,
        till: &mut T,
    ) -> Lane
        requires { HasShards lane }
        ensures same { IsSameLane lane result }
        ensures none_hidden { NoneIsHidden result }
        ensures answered { HasAnsweredOver T.Closes zone.now (lane, till.old) (result, till.new) }
        ensures same_till { T.origin till.new ≡ T.origin till.old };
}
