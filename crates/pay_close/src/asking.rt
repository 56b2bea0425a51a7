//! All shards of a desk, asked for their quotes of a day before the first of them has answered.
ghost use Rattle.std.specs.Prelude.{◌≡◌, ◌≤◌, ◌<◌, [], false, IfErr, OnOk, None, Some, length};
ghost use Rattle.pay_day.specs.declared.limits.TheConstants.{FIRST_DAY, LAST_DAY};
ghost use Rattle.pay_shard.specs.declared.asked.Asked.TheVariants.{Quotes};
ghost use Rattle.pay_shard.specs.declared.limits.TheConstants.{MOST_SHARDS};
ghost use Rattle.pay_shard.specs.Words.{NothingIsLost};
ghost use Rattle.pay_till.specs.Words.{AreQuotes, MaySometimeRefuse};
ghost use Rattle.pay_close.specs.Batches.{brought, no_batch};
ghost use Rattle.pay_close.specs.Gathers.{ArePut, Keeps, first_fault, told_of, IsAskedAt, IsToldAt};

use crate::fault::NotClosed;
use crate::gathered::Gathered;
use crate::limits::MOST_PUT;
use arrayvec::ArrayVec;
use pay_shard::{Asked, Command, Desk, DeskFault, Reply, Ticket};
use std::alloc::{AllocError, Global};

/// The numbers of the tickets of what was put, from shard 0 on.
type Tickets = ArrayVec<u64, MOST_PUT>;

/// The command that asks a shard for its quotes of a day.
fn quotes_command(day: u32, shard: u8, of: u8) -> Command
    requires day { (FIRST_DAY ≤ day) × (day ≤ LAST_DAY) }
    requires shard { (shard < of) × (of ≤ MOST_SHARDS) }
    ensures { result ≡ Quotes day shard of }
{
    Command::new(Asked::Quotes { day, shard, of })
}

/// What is known of the answers so far.
#[derive(Drop)]
pub struct Answered {
    /// What they brought, one after another, if none was without quotes and there was memory.
    all: Gathered,
    /// The fault of the first that brought no quotes.
    fault: Option<DeskFault>,
    /// Whether memory was refused for what one brought.
    lacked_memory: bool,
}

impl Answered {
    /// Nothing.
    fn new(alloc: Global) -> Answered
        ensures all { result.all ≡ no_batch }
        ensures fault { result.fault ≡ None }
        ensures lacked { result.lacked_memory ≡ false }
    {
        Answered {
            all: Gathered::new(alloc),
            fault: None,
            lacked_memory: false,
        }
    }

    /// A fault, unless there was one.
    fn fail(&mut self, fault: DeskFault)
        ensures { self.new.fault ≡ Some (first_fault self.old.fault fault) }
    {
        if self.fault.is_none() {
            self.fault = Some(fault);
        }
    }

    /// What came of the next command. A desk that gives another reply than quotes ran out of memory for them.
    fn keep(&mut self, got: Result<Reply, DeskFault>)
        ensures { Keeps self.old got self.new }
    {
        match got {
            Ok(Reply::Quotes(batch)) => {
                let added = self.all.add(batch);
                self.lacked_memory |= added.is_err();
            }
            Ok(_) => self.fail(DeskFault::Memory),
            Err(fault) => self.fail(fault),
        }
    }

    /// What they brought, or the first cause why that is not all.
    fn told(self, refused: Option<DeskFault>) -> Result<Gathered, NotClosed>
        ensures { result ≡ told_of self refused }
    {
        let Answered {
            all,
            fault,
            lacked_memory,
        } = self;
        if let Some(fault) = refused.or(fault) {
            return Err(NotClosed::Desk(fault));
        }
        if lacked_memory {
            return Err(NotClosed::from(AllocError));
        }
        Ok(all)
    }
}

/// Asks the shards of a desk, from shard 0 on, until it refuses a command.
fn put_all<D: Desk>(desk: &mut D, day: u32, of: u8, tickets: &mut Tickets) -> Result<(), DeskFault>
    requires day { (FIRST_DAY ≤ day) × (day ≤ LAST_DAY) }
    requires of_desk { of ≡ (D.parts desk.old).standing.shards }
    requires few { of ≤ MOST_SHARDS }
    requires none { tickets.old.items ≡ [] }
    ensures put { ArePut day of tickets.new.items (D.parts desk.old).taken (D.parts desk.new).taken (D.parts desk.old).standing (D.parts desk.new).standing }
    ensures all { OnOk result (length tickets.new.items ≡ of) }
    ensures refused { IfErr result (λ fault. (length tickets.new.items < of) × MaySometimeRefuse D.parts (D.parts desk.old).standing fault) }
    ensures transcript { NothingIsLost (D.parts desk.old).transcript (D.parts desk.new).transcript }
{
    for shard in 0..of {
        let ticket = match desk.put(quotes_command(day, shard, of)) {
            Ok(ticket) => ticket,
            Err(fault) => return Err(fault),
        };
        tickets.push(ticket.number());
    }
    Ok(())
}

/// Asks the shards of a desk, from shard 0 on, and then gets what they bring, one after another. Once a command is refused no more is
/// put; whatever comes of one, the replies to all that were put are got.
pub(crate) fn ask_all<D: Desk>(alloc: Global, desk: &mut D, day: u32) -> Result<Gathered, NotClosed>
    requires { (FIRST_DAY ≤ day) × (day ≤ LAST_DAY) }
    ensures asked { IsAskedAt D.parts desk.old desk.new (AreQuotes day (D.parts desk.old).standing.shards 0)
        (IsToldAt D.parts desk.old (D.parts desk.old).standing.shards brought result) }
    ensures some { 1 ≤ (D.parts desk.old).standing.shards }
    ensures transcript { NothingIsLost (D.parts desk.old).transcript (D.parts desk.new).transcript }
    ensures same_desk { (D.parts desk.new).standing ≡ (D.parts desk.old).standing }
{
    let of = desk.shards();
    let mut tickets = Tickets::new();
    let refused = put_all(desk, day, of, &mut tickets).err();
    let mut answered = Answered::new(alloc);
    for place in 0..tickets.len() {
        answered.keep(desk.get(Ticket::of(tickets[place])));
    }
    answered.told(refused)
}
