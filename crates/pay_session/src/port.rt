//! What may be asked for at a port.
ghost use Rattle.std.specs.Prelude.{◌≡◌};
ghost use Rattle.pay_session.specs.Asks.{IsAskable};
ghost use Rattle.pay_session.specs.Ports.{is_allowed, is_ahead, asks_at, IsOpen};
ghost use Rattle.pay_session.specs.Requests.{IsAsked};

use crate::asks::{Asks, asks_of};
use crate::request::Request;
use pay_wire::{Refusal, SpelledCommand};
use pay_zone::Zone;

/// Who may ask at a port.
#[derive(Clone, Copy, Debug, PartialEq, Eq)]
pub enum Role {
    /// Readers, and customers: taps and questions.
    Taps,
    /// Staff: corrections and closes too.
    All,
}

/// Where lines come in: the zone in which their instants are read, who may ask there, and the last instant that a tap may have,
/// in seconds of the Unix clock, if there is one.
#[derive(Clone, Copy)]
pub struct Port<'a> {
    pub zone: &'a Zone<'a>,
    pub role: Role,
    pub latest: Option<u64>,
}

impl<'a> Port<'a> {
    /// A port of a zone where all may be asked for.
    pub fn open(zone: &'a Zone<'a>) -> Port<'a>
        ensures { IsOpen zone.now result }
    {
        Port {
            zone,
            role: Role::All,
            latest: None,
        }
    }
}

/// Whether who may ask there may ask for this.
fn is_allowed(role: Role, command: &SpelledCommand) -> bool
    ensures { result ≡ is_allowed role command.now }
{
    match role {
        Role::All => true,
        Role::Taps => !matches!(
            command,
            SpelledCommand::Fix(_) | SpelledCommand::Close { .. }
        ),
    }
}

/// Whether a command is a tap of a later instant.
fn is_ahead(latest: Option<u64>, command: &SpelledCommand) -> bool
    ensures { result ≡ is_ahead latest command.now }
{
    match (latest, command) {
        (Some(latest), SpelledCommand::Tap(line)) => latest < line.utc,
        _ => false,
    }
}

/// What a request comes to at a port: 34 `NotHere` where its role may not ask for it, and 1 `OutOfTime` where it is a tap of a later
/// instant than the last; else what it comes to in the zone.
#[tactic(auto, unfolding(crate::specs::Ports::asks_at))]
pub fn asks_at(port: Port<'_>, request: Request) -> Asks
    requires { IsAsked request }
    ensures value { result ≡ asks_at port.entry request }
    ensures askable { IsAskable result }
{
    let Request::Command(command) = request else {
        return asks_of(port.zone, request);
    };
    if !is_allowed(port.role, &command) {
        Asks::No(Refusal::NotHere)
    } else if is_ahead(port.latest, &command) {
        Asks::No(Refusal::OutOfTime)
    } else {
        asks_of(port.zone, request)
    }
}
