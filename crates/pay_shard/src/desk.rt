ghost use Rattle.std.specs.Prelude.{◌≡◌, ◌≤◌, [], ◌∷◌, ◌++◌, IfOk, IfErr, OnErr};
ghost use Rattle.pay_rules.specs.InTurn.{IsIn};
ghost use Rattle.pay_shard.specs.declared.desk.DeskFault.TheVariants.{Late};
ghost use Rattle.pay_shard.specs.declared.limits.TheConstants.{MOST_SHARDS};
ghost use Rattle.pay_shard.specs.Desks.{DeskParts, with_waiting, IsForShards, IsAfterAll, IsNoneOf, without, IsReplyTo, NothingIsLost};

use crate::command::Command;
use crate::reply::Reply;
use crate::ticket::Ticket;
use std::alloc::AllocError;
use thiserror::Error;

/// Why a desk takes no command, or gives no reply.
#[derive(Clone, Copy, Debug, PartialEq, Eq, Error)]
pub enum DeskFault {
    /// 30: the queue to the shard is full.
    #[error("30 Busy")]
    Busy,
    /// 31: as many commands wait for their replies as may.
    #[error("31 Window")]
    Window,
    /// 48: what was accepted could not be kept. Nothing is taken any more.
    #[error("48 NotKept")]
    NotKept,
    /// 52: the reply has not come. The command may have taken effect.
    #[error("52 Late")]
    Late,
    /// 90: no memory.
    #[error("90 Memory")]
    Memory,
}

impl From<AllocError> for DeskFault {
    ghost use Rattle.std.specs.Prelude.{◌≡◌};
    ghost use Rattle.pay_shard.specs.declared.desk.DeskFault.TheVariants.{Memory};

    ghost from_gives = { λ _ fault. fault ≡ Memory };

    fn from(_: AllocError) -> DeskFault {
        DeskFault::Memory
    }
}

/// Takes commands, and gives the reply to each by its ticket. It means the list of the commands that it took, and the answers
/// to them.
pub trait Desk: Drop {
    /// What a desk begins with and keeps.
    ghost Origin: { Type 0 };

    /// What a desk is at a moment: how it stands, what it took and answered, and what it may fail in.
    ghost parts: { Self → DeskParts Self.Origin };

    /// How many shards answer, from 1 to `MOST_SHARDS`.
    fn shards(&self) -> u8
        ensures number { result ≡ (parts self.now).standing.shards }
        ensures some { 1 ≤ result }
        ensures few { result ≤ MOST_SHARDS };

    /// Takes a command. Where it is refused, it was not taken, and has no effect.
    fn put(&mut self, command: Command) -> Result<Ticket, DeskFault>
        requires { IsForShards (parts self.old).standing.shards command }
        ensures added { IfOk result (λ ticket. (parts self.new).taken ≡ (parts self.old).taken ++ (ticket, command) ∷ []) }
        ensures later { IfOk result (λ ticket. IsAfterAll ticket (parts self.old).taken) }
        ensures fresh { IfOk result (λ ticket. IsNoneOf ticket (parts self.old).standing.waiting) }
        ensures waits { IfOk result (λ ticket. (parts self.new).standing ≡ with_waiting ((parts self.old).standing.waiting ++ ticket ∷ []) (parts self.old).standing) }
        ensures not_added { OnErr result ((parts self.new).taken ≡ (parts self.old).taken) }
        ensures none_waits { OnErr result ((parts self.new).standing ≡ (parts self.old).standing) }
        ensures refused { IfErr result (λ fault. (parts self.old).MayRefuse fault) }
        ensures transcript { NothingIsLost (parts self.old).transcript (parts self.new).transcript };

    /// Gives the reply to a command by its ticket, once: that of the ticket's answer, which is to that command. Its one fault is
    /// `Late`, and then the reply is not given any more.
    fn get(&mut self, ticket: Ticket) -> Result<Reply, DeskFault>
        requires { IsIn (parts self.old).standing.waiting ticket }
        ensures reply { IfOk result (λ reply. IsReplyTo ticket (parts self.new).taken (parts self.new).transcript reply) }
        ensures late { IfErr result (λ fault. (fault ≡ Late) × (parts self.old).MayBeLate) }
        ensures got { (parts self.new).standing ≡ with_waiting (without ticket (parts self.old).standing.waiting) (parts self.old).standing }
        ensures none_added { (parts self.new).taken ≡ (parts self.old).taken }
        ensures transcript { NothingIsLost (parts self.old).transcript (parts self.new).transcript };
}
