//! Where the line of a client goes.
ghost use Rattle.std.specs.Prelude.{◌≡◌};
ghost use Rattle.pay_run.specs.Words.{account_named};
ghost use Rattle.pay_session.specs.Requests.{IsAsked};
ghost use Rattle.pay_front.specs.Routes.{is_over, named_in, route_by, route_of, route_to};

use crate::partition::partition_of;
use pay_session::{Asks, Port, Request, asks_at};
use pay_wire::{Refusal, SpelledCommand};
use pay_zone::Zone;

/// Where a line goes.
#[derive(Clone, Copy)]
pub enum Route {
    /// Nowhere: the session ends.
    Quits,
    /// Nowhere: it is refused at once.
    Refused(Refusal),
    /// To a partition of the log.
    To(u8),
    /// To all partitions: it closes this service day, counted from 1970-01-01.
    ToAll(u32),
}

/// Where what is asked for at a port goes, of a number of partitions, at an instant of the Unix clock, if that is known. What a port refuses
/// is refused here, and so is the close of a day that is not over, by 49: who answers what the log has asks no clock.
#[tactic(auto, unfolding(crate::specs::Routes::route_of))]
pub fn route_of(port: Port<'_>, of: u8, now: Option<u64>, request: Request) -> Route
    requires { IsAsked request }
    ensures { result ≡ route_of port.entry of now request }
{
    route_by(
        port.zone,
        of,
        now,
        named_in(request),
        asks_at(port, request),
    )
}

/// The account that a request is about.
fn named_in(request: Request) -> Option<u32>
    ensures { result ≡ named_in request }
{
    match request {
        Request::Command(command) => account_named(&command),
        Request::BadLine | Request::LongLine => None,
    }
}

fn account_named(command: &SpelledCommand) -> Option<u32>
    ensures { result ≡ account_named command.now }
{
    match command {
        SpelledCommand::Tap(line) => Some(line.account),
        SpelledCommand::Fix(line) => Some(line.account),
        SpelledCommand::Due { account, .. } | SpelledCommand::Show { account, .. } => {
            Some(*account)
        }
        SpelledCommand::Close { .. } | SpelledCommand::Quit => None,
    }
}

/// Where what a request about an account comes to goes.
fn route_by(zone: &Zone<'_>, of: u8, now: Option<u64>, named: Option<u32>, asks: Asks) -> Route
    ensures { result ≡ route_by zone.now of now named asks }
{
    match asks {
        Asks::Quit => Route::Quits,
        Asks::No(why) => Route::Refused(why),
        Asks::Close(day) if is_over(zone, day, now) => Route::ToAll(day),
        Asks::Close(_) => Route::Refused(Refusal::NotOver),
        Asks::Put(_) => route_to(of, named),
    }
}

/// Where what an account asks for goes. Of no partitions it goes to none.
fn route_to(of: u8, named: Option<u32>) -> Route
    ensures { result ≡ route_to of named }
{
    let Some(account) = named else {
        return Route::Refused(Refusal::NotHere);
    };
    match partition_of(account, of) {
        Some(partition) => Route::To(partition),
        None => Route::Refused(Refusal::NotHere),
    }
}

/// Whether a service day is over: a later one has begun.
fn is_over(zone: &Zone<'_>, day: u32, now: Option<u64>) -> bool
    ensures { result ≡ is_over zone.now day now }
{
    match now {
        Some(now) => match zone.stamp(now) {
            Ok(moment) => day < moment.day(),
            Err(_) => false,
        },
        None => false,
    }
}
