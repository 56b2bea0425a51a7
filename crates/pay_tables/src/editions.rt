ghost use Rattle.std.specs.Prelude.{◌≡◌, ◌≤◌, length, option_map};
ghost use Rattle.pay_tables.specs.declared.limits.TheConstants.{MOST_EDITIONS};
ghost use Rattle.pay_tables.specs.FareEditions.{IsFareEditions, edition_on, first_day, on};

use crate::edition::Edition;
use crate::tables::Tables;
use pay_day::limits::FIRST_DAY;
use std::marker::Model;

/// What a fare file says: the tables of its own keys, and its editions, each of which holds from its day on.
#[derive(Drop)]
pub struct Editions {
    own: Tables,
    items: Vec<Edition>,
}

impl Model for Editions {
    ghost use Rattle.pay_tables.specs.FareEditions.{FareEditions, IsFareEditions};
    ghost use Rattle.pay_tables.specs.EditionCodes.{fare_editions_code};

    ghost Value = { FareEditions };

    ghost coded = { fare_editions_code };

    ghost view = { λ e. record { own = e.own; items = e.items.items } };

    ghost invariant = { λ e. IsFareEditions (record { own = e.own; items = e.items.items }) };
}

impl Editions {
    /// These tables, until the first edition begins. The items stand from the one that begins last on.
    pub fn new(own: Tables, items: Vec<Edition>) -> Editions
        requires { IsFareEditions (record { own = own; items = items.items }) }
        ensures { result ≡ record { own = own; items = items.items } }
    {
        Editions { own, items }
    }

    /// The tables of the file's own keys, which hold until its first edition begins. What they say of zones,
    /// holidays, places, interchanges and the Hopper time holds in each edition.
    pub fn own(&self) -> &Tables
        ensures { result.now ≡ self.now.own }
    {
        &self.own
    }

    /// The tables of a service day, counted from 1970-01-01: those of the edition that began last by then.
    pub fn on(&self, day: u32) -> &Tables
        ensures { result.now ≡ on self.now day }
    {
        match self.edition_on(day) {
            Some(edition) => &edition.tables,
            None => &self.own,
        }
    }

    /// The first day on which the tables of a service day hold. The file's own keys hold from day 4 on.
    pub fn first_day(&self, day: u32) -> u32
        ensures { result ≡ first_day self.now day }
    {
        match self.edition_on(day) {
            Some(edition) => edition.day,
            None => FIRST_DAY,
        }
    }

    /// How many editions there are beside the file's own keys.
    pub fn items(&self) -> usize
        ensures value { result ≡ length self.now.items }
        ensures few { result ≤ MOST_EDITIONS }
    {
        self.items.len()
    }

    /// Does nothing: what it tells is true of the editions of every fare file.
    pub(crate) fn of_one_file(&self)
        ensures { IsFareEditions self.now }
    {
        let _ = &self.items;
    }

    fn edition_on(&self, day: u32) -> Option<&Edition>
        ensures { option_map (λ edition. edition.now) result ≡ edition_on self.now day }
    {
        self.items.iter().find(|edition| edition.day <= day)
    }
}
