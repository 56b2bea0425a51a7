ghost use Rattle.std.specs.Prelude.{◌≡◌, OnErr, OnOk, slice_get};
ghost use Rattle.std.specs.FinMap as map;
ghost use Rattle.pay_tables.specs.Laid.{IsLaid};

use crate::place::Place;
use std::alloc::{AllocError, Global};
use std::collections::BTreeMap;
use std::marker::Model;

/// Places by their numbers. In a contract it is that finite map.
#[derive(Drop)]
pub struct Places {
    numbers: BTreeMap<u16, Place>,
    // What stands at each number from 0 on, as far as it is laid out.
    laid: Vec<Option<Place>>,
}

impl Model for Places {
    ghost use Rattle.std.specs.Ordering.{nat_cmp};
    ghost use Rattle.std.specs.Coded.{coded_ℕ};
    ghost use Rattle.std.specs.FinMap as map;
    ghost use Rattle.pay_tables.specs.declared.place.Place.{Place};
    ghost use Rattle.pay_tables.specs.Codes.{place_code};
    ghost use Rattle.pay_tables.specs.Laid.{IsLaid};

    ghost Value = { map.FinMap nat_cmp Place };

    ghost coded = { map.code coded_ℕ place_code };

    ghost view = { λ p. map.from_entries p.numbers.entries };

    ghost invariant = { λ p. IsLaid p.laid.items p.numbers.entries };
}

/// What stands at each number from 0 through the last one, as far as there is memory for it.
fn laid_out(alloc: Global, numbers: &BTreeMap<u16, Place>, last: u16) -> Vec<Option<Place>>
    ensures { IsLaid result.items numbers.now.entries }
{
    let mut laid = Vec::new(alloc);
    for number in 0..=last {
        if laid.push(numbers.get(&number).copied()).is_err() {
            return laid;
        }
    }
    laid
}

/// What stands at a number, if it is laid out.
fn laid_at(laid: &[Option<Place>], number: u16) -> Option<Option<Place>>
    ensures { result ≡ slice_get laid.now number }
{
    laid.get(usize::from(number)).copied()
}

impl Places {
    /// No place.
    pub fn new(alloc: Global) -> Places
        ensures { result ≡ map.empty }
    {
        Places {
            numbers: BTreeMap::new(alloc),
            laid: Vec::new(alloc),
        }
    }

    /// How many places there are.
    pub fn len(&self) -> usize
        ensures { result ≡ map.len self.now }
    {
        self.numbers.len()
    }

    /// What stands at a number.
    pub fn get(&self, number: u16) -> Option<Place>
        ensures { result ≡ map.get self.now number }
    {
        match laid_at(&self.laid, number) {
            Some(found) => found,
            None => self.numbers.get(&number).copied(),
        }
    }

    /// Whether a place stands at a number.
    pub fn contains(&self, number: u16) -> bool
        ensures { result ≡ map.contains_key self.now number }
    {
        self.numbers.contains_key(&number)
    }

    /// Puts a place at a number.
    pub fn put(&mut self, number: u16, place: Place) -> Result<(), AllocError>
        ensures ok { OnOk result (self.new ≡ map.insert self.old number place) }
        ensures err { OnErr result (self.new ≡ self.old) }
    {
        self.laid.clear();
        self.numbers.insert(number, place)?;
        Ok(())
    }

    /// Lays the places out by their numbers, so that each is found in one step. Where memory is refused, some take more.
    pub(crate) fn lay_out(&mut self, alloc: Global)
        ensures { self.new ≡ self.old }
    {
        if let Some((last, _)) = self.numbers.last_key_value() {
            self.laid = laid_out(alloc, &self.numbers, *last);
        }
    }
}
