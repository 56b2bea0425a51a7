//! Where a journey went, as it is printed.
ghost use Rattle.std.specs.Prelude.{◌≡◌};
ghost use Rattle.pay_explain.specs.Routes.{route_of};

use pay_names::Names;
use pay_rules::{Journey, Kind};
use std::fmt;

/// A place, printed as `Abbey (10)`, or as `10` where it has no name.
#[derive(Clone, Copy)]
pub struct NamedPlace<'a> {
    /// The names of places.
    pub names: &'a Names,
    /// The number of the place.
    pub number: u16,
}

impl<'a> fmt::Display for NamedPlace<'a> {
    ghost use Rattle.std.specs.Prelude.{Some};
    ghost use Rattle.pay_explain.specs.Routes.{place_text};

    ghost output = { λ place. Some (place_text place.names.now place.number) };

    fn fmt<W: fmt::Write>(&self, f: &mut fmt::Formatter<W>) -> fmt::Result {
        let number = self.number;
        match self.names.of(number) {
            Some(name) => write!(f, "{name} ({number})"),
            None => write!(f, "{number}"),
        }
    }
}

/// Where a journey went, by the numbers of its stations or its route.
#[derive(Clone, Copy)]
pub enum Route {
    /// A run of so many legs, from a station to another: `rail 10 to 12`, or `rail 14 to 11 by 2 legs`.
    Legs {
        /// The first station.
        from: u16,
        /// The last station.
        to: u16,
        /// How many legs it has.
        legs: usize,
    },
    /// A leg at one station: `rail in and out at 10`.
    Station(u16),
    /// A tap on the way in that stands alone: `rail in at 10`.
    In(u16),
    /// A tap on the way out that stands alone: `rail out at 12`.
    Out(u16),
    /// A boarding: `bus 50`.
    Bus(u16),
}

/// Where a journey went, printed with the names of places.
#[derive(Clone, Copy)]
pub struct NamedRoute<'a> {
    /// The names of places.
    pub names: &'a Names,
    /// Where the journey went.
    pub route: Route,
}

impl<'a> fmt::Display for NamedRoute<'a> {
    ghost use Rattle.std.specs.Prelude.{Some};
    ghost use Rattle.pay_explain.specs.Routes.{route_text};

    ghost output = { λ it. Some (route_text it.names.now it.route) };

    fn fmt<W: fmt::Write>(&self, f: &mut fmt::Formatter<W>) -> fmt::Result {
        let names = self.names;
        match self.route {
            Route::Legs { from, to, legs } => {
                let from = NamedPlace {
                    names,
                    number: from,
                };
                let to = NamedPlace { names, number: to };
                if legs == 1 {
                    write!(f, "rail {from} to {to}")
                } else {
                    write!(f, "rail {from} to {to} by {legs} legs")
                }
            }
            Route::Station(number) => {
                let station = NamedPlace { names, number };
                write!(f, "rail in and out at {station}")
            }
            Route::In(number) => {
                let station = NamedPlace { names, number };
                write!(f, "rail in at {station}")
            }
            Route::Out(number) => {
                let station = NamedPlace { names, number };
                write!(f, "rail out at {station}")
            }
            Route::Bus(number) => {
                let route = NamedPlace { names, number };
                write!(f, "bus {route}")
            }
        }
    }
}

/// Where a journey went.
pub fn route_of(journey: &Journey) -> Route
    ensures { result ≡ route_of journey.now }
{
    match journey {
        Journey::Run(run) => Route::Legs {
            from: run.first().entry.place,
            to: run.last().exit.place,
            legs: run.others().len() + 1,
        },
        Journey::Same(leg) => Route::Station(leg.entry.place),
        Journey::Lone(tap) if tap.kind == Kind::Out => Route::Out(tap.place),
        Journey::Lone(tap) => Route::In(tap.place),
        Journey::Bus { tap, .. } => Route::Bus(tap.place),
    }
}
