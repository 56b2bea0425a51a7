ghost use Rattle.std.specs.Prelude.{◌≡◌, ◌==◌, ℕ, map as each, length, List, [], ◌∷◌, ◌++◌, Some, IsOk, IfOk, IfErr, OnErr, IsSome, IfSome};
ghost use Rattle.std.specs.Arc.{arc_value};
ghost use Rattle.std.specs.List.{IsDistinct, find, position};
ghost use Rattle.std.specs.Option.{option_map};
ghost use Rattle.std.specs.Ordering.{nat_cmp, eq_by_cmp};
ghost use Rattle.pay_rules.specs.InTurn.{IsIn};
ghost use Rattle.pay_rules.specs.State.{ArePriced};
ghost use Rattle.pay_shard.specs.Held.{state_of};
ghost use Rattle.pay_shard.specs.Desks.{with_waiting, without, IsForShards, IsAfterAll, IsNoneOf, IsReplyTo, NothingIsLost};
ghost use Rattle.pay_shard.specs.declared.desk.DeskFault.TheVariants.{Late};
ghost use Rattle.pay_shard.specs.LocalParts.{tickets_of, answers_without, transcript_of, desk_parts, AreInPlace, AreBelow, IsTaken};
ghost use Rattle.pay_shard.specs.ShardParts.{with_memory, IsKeptBy};
ghost use Rattle.pay_shard.specs.declared.reply.Answer.{Answer};

use crate::command::Command;
use crate::desk::{Desk, DeskFault};
use crate::item::Entry;
use crate::memory::{KeepsAll, KeepsBlock, Memory};
use crate::reply::{Answer, Reply};
use crate::shard::Shard;
use crate::ticket::Ticket;
use pay_rules::Fares;
use pay_tables::Editions;
use std::alloc::{AllocFailed, Global};
use std::marker::{Model, PhantomData};
use std::sync::Arc;

/// A desk over one shard, of number 0, which answers at once. A command's ticket is its place in the shard's journal, of which it has
/// all items in memory, or the last ones alone. In a contract it is the shard, and the tickets whose replies were not got.
#[derive(Drop)]
pub struct LocalDesk<F: Fares, M: Memory = KeepsAll> {
    shard: Shard<F>,
    // The answers that were not got.
    kept: Vec<Answer>,
    memory: PhantomData<M>,
}

impl<F: Fares, M: Memory> Model for LocalDesk<F, M> {
    ghost use Rattle.pay_shard.specs.LocalParts.{LocalParts, local_code, tickets_of, IsLocal};

    ghost Value = { LocalParts };

    ghost coded = { local_code };

    ghost view = { λ d. record { shard = d.shard; waiting = tickets_of d.kept.items } };

    ghost invariant = { λ d. IsLocal M.forgets d.shard d.kept.items };
}

/// Where the first answer to a ticket stands.
fn place_of(kept: &[Answer], ticket: u64) -> Option<usize>
    ensures { result ≡ position (λ a. a.ticket == ticket) kept.now }
{
    kept.iter().position(|answer| answer.ticket == ticket)
}

/// The first answer to a ticket.
fn answer_to(kept: &[Answer], ticket: u64) -> Option<&Answer>
    ensures { option_map (λ answer. answer.now) result ≡ find (λ a. a.ticket == ticket) kept.now }
{
    kept.iter().find(|answer| answer.ticket == ticket)
}

/// Takes the answer to a ticket out, and gives its reply.
fn take_out(kept: &mut Vec<Answer>, ticket: u64) -> Reply
    requires { IsIn (tickets_of kept.old.items) ticket }
    ensures reply { option_map (λ (a : Answer). a.reply) (find (λ (a : Answer). a.ticket == ticket) kept.old.items) ≡ Some result }
    ensures rest { kept.new.items ≡ answers_without ticket kept.old.items }
{
    match place_of(kept, ticket) {
        Some(place) => kept.remove(place).reply,
        None => unreachable!(),
    }
}

impl<F: Fares> LocalDesk<F, KeepsAll> {
    /// A desk over a shard with an empty journal, which begins with accounts of distinct numbers from 1, each priced by this
    /// fare file. `Memory` gives the accounts back; a desk of none takes no memory.
    pub fn new(
        alloc: Global,
        editions: Arc<Editions>,
        base: Vec<F>,
    ) -> Result<LocalDesk<F>, AllocFailed<Vec<F>>>
        requires distinct { IsDistinct (eq_by_cmp nat_cmp) (each F.account base.items) }
        requires priced { ArePriced F.account (F.IsPricedBy (arc_value editions)) base.items }
        ensures editions { IfOk result (λ desk. desk.shard.editions ≡ arc_value editions) }
        ensures base { IfOk result (λ desk. desk.shard.base ≡ state_of F.account F.accepted base.items) }
        ensures journal { IfOk result (λ desk. desk.shard.journal ≡ []) }
        ensures waiting { IfOk result (λ desk. desk.waiting ≡ []) }
        ensures given_back { IfErr result (λ failed. failed.value ≡ base) }
        ensures of_none { base.items ≡ [] → IsOk result }
    {
        let shard = Shard::new(alloc, 0, editions, base)?;
        Ok(LocalDesk {
            shard,
            kept: Vec::new(alloc),
            memory: PhantomData,
        })
    }

    /// The same desk, which forgets all of its journal, and then has no more than a block of it in memory.
    pub fn forgetting(self) -> LocalDesk<F, KeepsBlock>
        ensures { result ≡ record { shard = with_memory self.shard (record { forgotten = length self.shard.journal; room = 0 }); waiting = self.waiting } }
    {
        let LocalDesk {
            mut shard,
            kept,
            memory: _,
        } = self;
        shard.forget();
        LocalDesk {
            shard,
            kept,
            memory: PhantomData,
        }
    }
}

impl<F: Fares, M: Memory> LocalDesk<F, M> {
    /// Its shard. Each entry of the journal is of lane 0, and its ticket is its place. Those that wait are
    /// places of it.
    #[tactic(auto, using(crate::proofs::LocalDesks::all_places))]
    pub fn shard(&self) -> &Shard<F>
        ensures value { result.now ≡ self.now.shard }
        ensures number { result.now.number ≡ 0 }
        ensures kept { IsKeptBy M.forgets result.now }
        ensures in_place { AreInPlace 0 result.now.journal }
        ensures below { AreBelow (length result.now.journal) self.now.waiting }
    {
        &self.shard
    }

    /// The answer to a command whose reply was not got, by its ticket.
    #[tactic(auto, using(crate::proofs::LocalDesks::some_found))]
    pub fn waiting(&self, ticket: Ticket) -> Option<&Answer>
        ensures answer { IfSome result (λ answer. transcript_of self.now.shard ticket ≡ Some answer.now) }
        ensures some { IsIn self.now.waiting ticket → IsSome result }
    {
        answer_to(&self.kept, ticket.number())
    }
}

impl<F: Fares, M: Memory> Desk for LocalDesk<F, M> {
    ghost use Rattle.pay_tables.specs.Words.{FareEditions};
    ghost use Rattle.pay_rules.specs.State.{State};
    ghost use Rattle.pay_shard.specs.LocalParts.{desk_parts};

    ghost Origin = { FareEditions × State };

    ghost parts = { desk_parts };

    fn shards(&self) -> u8 {
        1
    }

    // The trait's clauses, and what comes of the journal.
    fn put(&mut self, command: Command) -> Result<Ticket, DeskFault>
        requires { IsForShards (desk_parts self.old).standing.shards command }
        ensures added { IfOk result (λ ticket. (desk_parts self.new).taken ≡ (desk_parts self.old).taken ++ (ticket, command) ∷ []) }
        ensures later { IfOk result (λ ticket. IsAfterAll ticket (desk_parts self.old).taken) }
        ensures fresh { IfOk result (λ ticket. IsNoneOf ticket (desk_parts self.old).standing.waiting) }
        ensures waits { IfOk result (λ ticket. (desk_parts self.new).standing
            ≡ with_waiting ((desk_parts self.old).standing.waiting ++ ticket ∷ []) (desk_parts self.old).standing) }
        ensures not_added { OnErr result ((desk_parts self.new).taken ≡ (desk_parts self.old).taken) }
        ensures none_waits { OnErr result ((desk_parts self.new).standing ≡ (desk_parts self.old).standing) }
        ensures refused { IfErr result (λ fault. (desk_parts self.old).MayRefuse fault) }
        ensures transcript { NothingIsLost (desk_parts self.old).transcript (desk_parts self.new).transcript }
        ensures item { IfOk result (λ ticket. IsTaken ticket command self.old.shard self.new.shard) }
        ensures same { OnErr result (self.new.shard ≡ with_memory self.old.shard self.new.shard.memory) }
    {
        self.kept.reserve(1)?;
        self.shard.make_room(M::forgets())?;
        let ticket = self.shard.journal().len() as u64;
        let entry = Entry {
            lane: 0,
            ticket,
            command,
        };
        self.kept.push_reserved(self.shard.apply(entry));
        Ok(Ticket::of(ticket))
    }

    // The trait's clauses, and that the shard stays.
    fn get(&mut self, ticket: Ticket) -> Result<Reply, DeskFault>
        requires { IsIn (desk_parts self.old).standing.waiting ticket }
        ensures reply { IfOk result (λ reply. IsReplyTo ticket (desk_parts self.new).taken (desk_parts self.new).transcript reply) }
        ensures late { IfErr result (λ fault. (fault ≡ Late) × (desk_parts self.old).MayBeLate) }
        ensures got { (desk_parts self.new).standing ≡ with_waiting (without ticket (desk_parts self.old).standing.waiting) (desk_parts self.old).standing }
        ensures none_added { (desk_parts self.new).taken ≡ (desk_parts self.old).taken }
        ensures transcript { NothingIsLost (desk_parts self.old).transcript (desk_parts self.new).transcript }
        ensures same { self.new.shard ≡ self.old.shard }
    {
        Ok(take_out(&mut self.kept, ticket.number()))
    }
}
