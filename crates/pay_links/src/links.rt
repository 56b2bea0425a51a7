ghost use Rattle.std.specs.Prelude.{◌≡◌, ◌∷◌, ◌++◌, false, IfOk, OnOk, List};
ghost use Rattle.pay_rules.specs.declared.parts.RailPart.{RailPart};
ghost use Rattle.pay_rules.specs.RailJourneys.{is_same, is_linked, journeys, run_before, leg_before, AreJourneys};
ghost use Rattle.pay_links.specs.OpenRun.{open_before, closed, journeys_with};

use pay_rules::{Journey, Leg, RailPart, Run};
use pay_tables::Tables;
use std::alloc::{AllocError, Global};

/// Whether a leg ends at the station where it began.
fn is_same(leg: &Leg) -> bool
    ensures { result ≡ is_same leg.now }
{
    leg.entry.place == leg.exit.place
}

/// Whether a leg is linked with the next one.
pub(crate) fn is_linked(tables: &Tables, leg: &Leg, next: &Leg) -> bool
    ensures { result ≡ is_linked tables.now leg.now next.now }
{
    if is_same(leg) || is_same(next) {
        return false;
    }
    match tables.interchange(leg.exit.place, next.entry.place) {
        Some(seconds) => next.entry.stamp.utc() <= leg.exit.stamp.utc() + u64::from(seconds),
        None => false,
    }
}

/// Ends the run that may go on, if there is one.
fn close(done: &mut Vec<Journey>, current: Option<Run>) -> Result<(), AllocError>
    ensures { OnOk result (done.new.items ≡ done.old.items ++ closed current) }
{
    if let Some(run) = current {
        done.push(Journey::Run(run))?;
    }
    Ok(())
}

/// Adds a leg that ends at another station than it began at, and returns the run that may go on.
#[tactic(auto, using(crate::proofs::OpenRun::run_goes_on, crate::proofs::OpenRun::run_ends))]
fn add_leg(
    alloc: Global,
    tables: &Tables,
    done: &mut Vec<Journey>,
    current: Option<Run>,
    leg: Leg,
) -> Result<Run, AllocError>
    requires { is_same leg ≡ false }
    ensures { IfOk result (λ run. (later : List Journey) →
        done.new.items ++ run_before tables.now run later ≡ done.old.items ++ open_before tables.now current (leg_before tables.now leg later)) }
{
    let Some(mut run) = current else {
        return Ok(Run::new(alloc, leg));
    };
    if is_linked(tables, run.last(), &leg) {
        run.push(leg)?;
        return Ok(run);
    }
    done.push(Journey::Run(run))?;
    Ok(Run::new(alloc, leg))
}

/// Adds the next part, and returns the run that may go on.
fn add(
    alloc: Global,
    tables: &Tables,
    done: &mut Vec<Journey>,
    current: Option<Run>,
    part: RailPart,
) -> Result<Option<Run>, AllocError>
    ensures { IfOk result (λ run. (later : List RailPart) →
        journeys_with tables.now done.new.items run later ≡ journeys_with tables.now done.old.items current (part ∷ later)) }
{
    let journey = match part {
        RailPart::Leg(leg) if !is_same(&leg) => {
            return Ok(Some(add_leg(alloc, tables, done, current, leg)?));
        }
        RailPart::Leg(leg) => Journey::Same(leg),
        RailPart::Lone(tap) => Journey::Lone(tap),
    };
    close(done, current)?;
    done.push(journey)?;
    Ok(None)
}

/// The journeys by rail of an account's legs and lone taps, in order.
///
/// A leg is linked with the next one if from its exit to the other's entry an interchange is listed, in
/// either order of the stations, and at most the interchange's seconds pass; a leg that ends at the
/// station where it began is linked with none. A journey is as many legs as are linked, each with the
/// next; a lone tap, and any other leg, is one by itself. An `Err` is out of memory.
pub fn journeys(
    alloc: Global,
    tables: &Tables,
    parts: &[RailPart],
) -> Result<Vec<Journey>, AllocError>
    ensures described { IfOk result (λ list. AreJourneys tables.now parts.now list.items) }
    ensures computed { IfOk result (λ list. list.items ≡ journeys tables.now parts.now) }
{
    let mut done = Vec::new(alloc);
    let mut current = None;
    for part in parts {
        current = add(alloc, tables, &mut done, current, *part)?;
    }
    close(&mut done, current)?;
    Ok(done)
}
