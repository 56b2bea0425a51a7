//! What journals have is taken again before the first connection is served.
ghost use Rattle.std.specs.Prelude.{◌≡◌, map as each, vec_items};
ghost use Rattle.pay_lanes.specs.Words.{IsSameLane};
ghost use Rattle.pay_office.specs.Words.{NoneIsHidden};
ghost use Rattle.pay_serve.specs.Journals.{AreTakenAgain, AreTakenThrough, journal_fault};
ghost use Rattle.pay_serve.specs.Lanes.{HasShards};

use crate::fault::ServeFault;
use jiff::tz::TimeZone;
use pay_journal::{ReplayFault, replay};
use pay_office::{Lane, LaneDesk};
use pay_shard::Desk;
use pay_zone::Zone;
use std::alloc::Global;
use std::sync::Wait;

/// What is told of a line of the journal of this number that is not accepted.
fn journal_fault(journal: u64, fault: ReplayFault) -> ServeFault
    ensures { result ≡ journal_fault journal fault }
{
    match fault {
        ReplayFault::Line { line, why } => ServeFault::JournalLine { journal, line, why },
        ReplayFault::Memory => ServeFault::Memory,
    }
}

/// Hands the lines of journals to a desk, of one after the other, from number 0 on. Each has to be accepted, as a repeat is: the
/// first that is not ends it.
pub fn take_again<D: Desk>(
    texts: &[Vec<u8>],
    zone: &Zone<'_>,
    desk: &mut D,
) -> Result<(), ServeFault>
    ensures taken { AreTakenAgain zone.now D.parts 0 (each vec_items texts.now) (desk.old, desk.new) result }
    ensures same_desk { (D.parts desk.new).standing ≡ (D.parts desk.old).standing }
{
    for place in 0..texts.len() {
        match replay(texts[place].as_slice(), zone, desk) {
            Ok(_) => {}
            Err(fault) => return Err(journal_fault(place as u64, fault)),
        }
    }
    Ok(())
}

/// The same over a desk that begins with a lane. The lane is given back.
pub fn take_through<R: Wait + Copy>(
    rt: R,
    alloc: Global,
    texts: &[Vec<u8>],
    zone: &TimeZone<'_>,
    lane: Lane,
) -> (Result<(), ServeFault>, Lane)
    requires { HasShards lane }
    ensures taken { AreTakenThrough zone.now (each vec_items texts.now) lane result.1 result.0 }
    ensures same { IsSameLane lane result.1 }
    ensures none_hidden { NoneIsHidden result.1 }
{
    let mut desk = LaneDesk::new(rt, alloc, lane);
    let taken = take_again(texts, &Zone::new(alloc, *zone), &mut desk);
    (taken, desk.into_lane())
}
