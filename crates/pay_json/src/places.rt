//! Where a journey went.
use crate::strings::Quoted;
use pay_explain::Route;
use pay_names::Names;
use std::fmt;

/// A place: `{"number":10,"name":"Abbey"}`, or `{"number":10}` where it has no name.
#[derive(Clone, Copy)]
pub(crate) struct Place<'a> {
    /// The names of places.
    pub names: &'a Names,
    /// The number of the place.
    pub number: u16,
}

/// Where a journey went: `{"kind":"Bus","route":{"number":50}}`.
#[derive(Clone, Copy)]
pub struct Went<'a> {
    /// The names of places.
    pub names: &'a Names,
    /// Where it went.
    pub route: Route,
}

impl<'a> fmt::Display for Place<'a> {
    ghost use Rattle.std.specs.Prelude.{Some};
    ghost use Rattle.serde_json.specs.Written.{compact_text};
    ghost use Rattle.pay_json.specs.Places.{place_value};

    ghost output = { λ it. Some (compact_text (place_value it.names.now it.number)) };

    #[tactic(auto, unfolding(crate::specs::Places::place_value, json::specs::Print::escape_byte))]
    fn fmt<W: fmt::Write>(&self, f: &mut fmt::Formatter<W>) -> fmt::Result {
        let number = self.number;
        match self.names.of(number) {
            Some(name) => {
                let name = Quoted(name);
                write!(f, "{{\"number\":{number},\"name\":{name}}}")
            }
            None => write!(f, "{{\"number\":{number}}}"),
        }
    }
}

impl<'a> fmt::Display for Went<'a> {
    ghost use Rattle.std.specs.Prelude.{Some};
    ghost use Rattle.serde_json.specs.Written.{compact_text};
    ghost use Rattle.pay_json.specs.Places.{went_value};

    ghost output = { λ it. Some (compact_text (went_value it.names.now it.route)) };

    #[tactic(auto, unfolding(crate::specs::Places::went_value, json::specs::Print::escape_byte))]
    fn fmt<W: fmt::Write>(&self, f: &mut fmt::Formatter<W>) -> fmt::Result {
        let names = self.names;
        match self.route {
            Route::Legs { from, to, legs } => {
                let from = Place {
                    names,
                    number: from,
                };
                let to = Place { names, number: to };
                write!(
                    f,
                    "{{\"kind\":\"Legs\",\"from\":{from},\"to\":{to},\"legs\":{legs}}}"
                )
            }
            Route::Station(number) => {
                let station = Place { names, number };
                write!(f, "{{\"kind\":\"Station\",\"station\":{station}}}")
            }
            Route::In(number) => {
                let station = Place { names, number };
                write!(f, "{{\"kind\":\"In\",\"station\":{station}}}")
            }
            Route::Out(number) => {
                let station = Place { names, number };
                write!(f, "{{\"kind\":\"Out\",\"station\":{station}}}")
            }
            Route::Bus(number) => {
                let route = Place { names, number };
                write!(f, "{{\"kind\":\"Bus\",\"route\":{route}}}")
            }
        }
    }
}
