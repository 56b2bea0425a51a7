//! Numbers of places or of operators, with their names.
ghost use Rattle.std.specs.Prelude.{◌≡◌, ◌==◌, option_map, find};

use std::alloc::{AllocError, Global};
use std::marker::Model;

/// A number with its name.
#[derive(Drop)]
struct NamedNumber {
    number: u16,
    name: String,
}

/// The names of places, or of operators. In a contract they are a list of numbers, each with its name.
#[derive(Drop)]
pub struct Names {
    named: Vec<NamedNumber>,
}

impl Model for Names {
    ghost use Rattle.std.specs.Prelude.{List, ℕ, map, string_bytes};
    ghost use Rattle.std.specs.Coded.{coded_ℕ, coded_list, coded×};

    ghost Value = { List (ℕ × List ℕ) };

    ghost coded = { coded_list (coded× coded_ℕ (coded_list coded_ℕ)) };

    ghost view = { λ names. map (λ one. (one.number, string_bytes one.name)) names.named.items };
}

impl Names {
    ghost use Rattle.std.specs.Prelude.{[], ◌∷◌, ◌++◌, OnOk, option_copied};
    ghost use Rattle.pay_names.specs.Names.{name_at};

    /// No number has a name.
    pub fn none(alloc: Global) -> Names
        ensures { result ≡ [] }
    {
        Names {
            named: Vec::new(alloc),
        }
    }

    /// Adds the name of a number after all others.
    pub fn add(&mut self, number: u16, name: &str) -> Result<(), AllocError>
        ensures { OnOk result (self.new ≡ self.old ++ (number, name.now) ∷ []) }
    {
        let alloc = *self.named.allocator();
        let name = String::from_str(alloc, name)?;
        self.named.push(NamedNumber { number, name })?;
        Ok(())
    }

    /// The name of a number, if it has one.
    pub fn of(&self, number: u16) -> Option<&str>
        ensures { option_copied result ≡ name_at number self.now }
    {
        match first_of(&self.named, number) {
            Some(one) => Some(one.name.as_str()),
            None => None,
        }
    }
}

/// The first of a number.
fn first_of(named: &[NamedNumber], number: u16) -> Option<&NamedNumber>
    ensures { option_map (λ one. one.now) result ≡ find (λ one. one.number == number) named.now }
{
    named.iter().find(|one| one.number == number)
}
