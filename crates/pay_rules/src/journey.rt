ghost use Rattle.std.specs.Prelude.{◌≡◌, ◌∷◌, ◌++◌, [], OnOk, OnErr};
ghost use Rattle.pay_rules.specs.LinkedLegs.{last_leg};
ghost use Rattle.pay_rules.specs.RailJourneys.{first_tap};

use crate::parts::Leg;
use crate::tap::Touch;
use std::alloc::{AllocError, Global};
use std::marker::Model;

/// Legs one after another, one at least. In a contract it is the first of them and
/// the others.
#[derive(Drop)]
pub struct Run {
    first: Leg,
    others: Vec<Leg>,
}

impl Model for Run {
    ghost use Rattle.pay_rules.specs.LinkedLegs.{LinkedLegs, legs_code};

    ghost Value = { LinkedLegs };

    ghost coded = { legs_code };

    ghost view = { λ r. record { first = r.first; others = r.others.items } };
}

impl Run {
    /// A run of one leg.
    pub fn new(alloc: Global, first: Leg) -> Run
        ensures { result ≡ record { first = first; others = [] } }
    {
        Run {
            first,
            others: Vec::new(alloc),
        }
    }

    /// One leg more, after the others. An `Err` changes nothing.
    pub fn push(&mut self, leg: Leg) -> Result<(), AllocError>
        ensures ok { OnOk result (self.new ≡ record { first = self.old.first; others = self.old.others ++ leg ∷ [] }) }
        ensures err { OnErr result (self.new ≡ self.old) }
    {
        self.others.push(leg)?;
        Ok(())
    }

    /// The first leg.
    pub fn first(&self) -> &Leg
        ensures { result.now ≡ self.now.first }
    {
        &self.first
    }

    /// The legs after the first.
    pub fn others(&self) -> &[Leg]
        ensures { result.now ≡ self.now.others }
    {
        &self.others
    }

    /// The last leg.
    #[tactic(auto, using(crate::proofs::LastLeg::last_is))]
    pub fn last(&self) -> &Leg
        ensures { result.now ≡ last_leg self.now }
    {
        self.others.last().unwrap_or(&self.first)
    }
}

/// What is charged as one.
#[derive(Drop)]
pub enum Journey {
    /// Legs between stations, each of which is linked with the next.
    Run(Run),
    /// A leg that ends at the station where it began.
    Same(Leg),
    /// A rail tap without its partner.
    Lone(Touch),
    /// A boarding of a bus or a tram.
    Bus {
        /// The tap.
        tap: Touch,
        /// Whether it pays, by the Hopper rule.
        pays: bool,
    },
}

impl Journey {
    /// Its first tap: the journey belongs to the service day of this tap.
    pub fn first_tap(&self) -> Touch
        ensures { result ≡ first_tap self.now }
    {
        match self {
            Journey::Run(run) => run.first().entry,
            Journey::Same(leg) => leg.entry,
            Journey::Lone(tap) => *tap,
            Journey::Bus { tap, .. } => *tap,
        }
    }
}
