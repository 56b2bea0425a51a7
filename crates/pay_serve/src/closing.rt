//! The close of a day over one lane, once all others have ended.
ghost use Rattle.std.specs.Prelude.{◌≡◌, ◌≤◌, ◌<◌, [], ◌∷◌, ◌++◌, length, map as each, vec_capacity, OnOk, OnErr, IfErr};
ghost use Rattle.pay_day.specs.declared.limits.TheConstants.{FIRST_DAY, LAST_DAY};
ghost use Rattle.pay_shard.specs.Words.{NothingIsLost};
ghost use Rattle.pay_wire.specs.Words.{IsFlushed, IsCaused, HasFault};
ghost use Rattle.pay_lanes.specs.Words.{IsSameLane, began_of};
ghost use Rattle.pay_serve.specs.Closes.{IsClosedOver, IsClosedThrough, IsTold, IsDayClosed, day_of};
ghost use Rattle.pay_serve.specs.Lanes.{HasShards, AreAllWith};
ghost use Rattle.pay_office.specs.Words.{NoneIsHidden, HaveLetPass};
ghost use Rattle.pay_serve.specs.Machines.{IsOverWith};

use crate::fault::ServeFault;
use pay_office::{Gate, Lane, LaneDesk, Office, shut};
use pay_rules::Fares;
use pay_shard::Desk;
use pay_till::Till;
use pay_wire::{Closed, KnownWriter, SpelledReply, WriteFault, send};
use std::alloc::Global;
use std::sync::Wait;
use std::thread::Threads;

/// Closes a service day, counted from 1970-01-01, over a desk, and writes what came of it. Whether it was closed; if not, its refusal
/// is written.
pub fn close_over<D: Desk, T: Till, W: KnownWriter>(
    desk: &mut D,
    till: &mut T,
    day: u32,
    writer: &mut W,
) -> Result<bool, WriteFault>
    requires { (FIRST_DAY ≤ day) × (day ≤ LAST_DAY) }
    ensures closed { IsClosedOver D.parts (λ of put given. T.Closes till.old day of put given till.new) day (desk.old, W.contents writer.old)
        (desk.new, W.contents writer.new) result }
    ensures flushed { OnOk result (IsFlushed W.MayAnswer writer.new) }
    ensures cause { IfErr result (λ fault. IsCaused W.MayAnswer fault writer.new) }
    ensures transcript { NothingIsLost (D.parts desk.old).transcript (D.parts desk.new).transcript }
    ensures same_desk { (D.parts desk.new).standing ≡ (D.parts desk.old).standing }
    ensures same_till { T.origin till.new ≡ T.origin till.old }
{
    match till.close(desk, day) {
        Ok(postings) => {
            send(writer, &SpelledReply::Closed(Closed { day, postings }))?;
            Ok(true)
        }
        Err(why) => {
            send(writer, &SpelledReply::No(why))?;
            Ok(false)
        }
    }
}

/// The same over a desk that begins with a lane. The lane is given back.
fn close_through<R: Wait + Copy, T: Till, W: KnownWriter>(
    rt: R,
    alloc: Global,
    lane: Lane,
    till: &mut T,
    day: u32,
    writer: &mut W,
) -> (Result<bool, WriteFault>, Lane)
    requires day { (FIRST_DAY ≤ day) × (day ≤ LAST_DAY) }
    requires shards { HasShards lane }
    ensures closed { IsClosedThrough (λ of put given. T.Closes till.old day of put given till.new) day (lane, W.contents writer.old)
        (result.1, W.contents writer.new) result.0 }
    ensures flushed { OnOk result.0 (IsFlushed W.MayAnswer writer.new) }
    ensures cause { IfErr result.0 (λ fault. IsCaused W.MayAnswer fault writer.new) }
    ensures same { IsSameLane lane result.1 }
    ensures none_hidden { NoneIsHidden result.1 }
    ensures same_till { T.origin till.new ≡ T.origin till.old }
{
    let mut desk = LaneDesk::new(rt, alloc, lane);
    let closed = close_over(&mut desk, till, day, writer);
    (closed, desk.into_lane())
}

/// Ends the threads of an office, all of whose lanes are back. The gates are given back.
pub(crate) fn end<F: Fares, G: Gate, R: Threads + Wait>(
    rt: &R,
    office: Office<F, G>,
    lanes: Vec<Lane>,
    last: Lane,
) -> Vec<G>
    requires room { length lanes.items < vec_capacity lanes }
    requires all { AreAllWith office lanes.items last }
    ensures over { IsOverWith G.Holds office (lanes.items ++ last ∷ []) result.items }
    ensures began { each G.began result.items ≡ began_of office }
{
    let mut lanes = lanes;
    lanes.push_reserved(last);
    match shut(rt, office, lanes) {
        Ok(ended) => ended.gates,
        Err(_) => unreachable!(),
    }
}

/// What is told of a close.
fn told(closed: Result<bool, WriteFault>) -> Result<bool, ServeFault>
    ensures { IsTold closed result }
{
    Ok(closed?)
}

/// Closes a service day, counted from 1970-01-01, over the last lane of an office, whose other lanes are back; writes what came of it;
/// and ends the threads of the office, whose gates are given back. Whether the day was closed; if not, its refusal is written. Over a
/// new office whose shards all gave their quotes it is the close of one machine that was asked what stands in their journals.
pub fn close_day<F: Fares, G: Gate, R: Threads + Wait + Copy, T: Till, W: KnownWriter>(
    rt: R,
    alloc: Global,
    office: Office<F, G>,
    lanes: Vec<Lane>,
    last: Lane,
    till: &mut T,
    day: u32,
    writer: &mut W,
) -> (Result<bool, ServeFault>, Vec<G>)
    requires day { (FIRST_DAY ≤ day) × (day ≤ LAST_DAY) }
    requires shards { HasShards last }
    requires room { length lanes.items < vec_capacity lanes }
    requires all { AreAllWith office lanes.items last }
    ensures closed { IsDayClosed (day_of (λ ls journals. HaveLetPass G.Holds office ls journals result.1.items) office lanes.items day)
        (λ of put given. T.Closes till.old day of put given till.new) (last, W.contents writer.old) (W.contents writer.new, result.0) }
    ensures began { each G.began result.1.items ≡ began_of office }
    ensures flushed { OnOk result.0 (IsFlushed W.MayAnswer writer.new) }
    ensures cause { OnErr result.0 (HasFault W.MayAnswer writer.new) }
    ensures same_till { T.origin till.new ≡ T.origin till.old }
{
    pay_lanes::laws::still_together();
    pay_lanes::laws::same_lanes();
    pay_lanes::laws::same_workers();
    pay_close::laws::any_shards();
    let (closed, last) = close_through(rt, alloc, last, till, day, writer);
    let gates = end(&rt, office, lanes, last);
    (told(closed), gates)
}
