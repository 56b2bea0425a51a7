use crate::batch::Batch;
use crate::command::Command;
use crate::refusal::ShardRefusal;
use pay_rules::{BoxedQuote, FixFault, Priced, Shown, TapFault};

/// What is replied to a command.
#[derive(Drop)]
pub enum Reply {
    /// To a tap or a correction that is accepted, or a repeat of one.
    Priced(Priced),
    /// To a tap or a correction that is refused.
    No(ShardRefusal),
    /// What an account owes.
    Due(BoxedQuote),
    /// A service day of an account.
    Shown(Shown),
    /// What the accounts of a shard owe.
    Quotes(Batch),
    /// Memory for the command was refused, and nothing changed.
    Memory,
}

impl From<TapFault> for Reply {
    ghost use Rattle.std.specs.Prelude.{◌≡◌};
    ghost use Rattle.pay_shard.specs.Faults.{reply_to_tap_fault};

    ghost from_gives = { λ fault reply. reply ≡ reply_to_tap_fault fault };

    fn from(fault: TapFault) -> Reply {
        match fault {
            TapFault::UnknownPlace => Reply::No(ShardRefusal::UnknownPlace),
            TapFault::Conflict => Reply::No(ShardRefusal::Conflict),
            TapFault::AccountFull => Reply::No(ShardRefusal::AccountFull),
            TapFault::Memory => Reply::Memory,
        }
    }
}

impl From<FixFault> for Reply {
    ghost use Rattle.std.specs.Prelude.{◌≡◌};
    ghost use Rattle.pay_shard.specs.Faults.{reply_to_fix_fault};

    ghost from_gives = { λ fault reply. reply ≡ reply_to_fix_fault fault };

    fn from(fault: FixFault) -> Reply {
        match fault {
            FixFault::UnknownPlace => Reply::No(ShardRefusal::UnknownPlace),
            FixFault::FixConflict => Reply::No(ShardRefusal::FixConflict),
            FixFault::FixesFull => Reply::No(ShardRefusal::FixesFull),
            FixFault::Memory => Reply::Memory,
        }
    }
}

/// A reply, and what it is the reply to.
#[derive(Drop)]
pub struct Answer {
    /// The number of the shard that answered.
    pub shard: u8,
    /// The place of the command in that shard's journal, from 0.
    pub place: usize,
    /// The lane's ticket.
    pub ticket: u64,
    /// The command.
    pub command: Command,
    /// The reply.
    pub reply: Reply,
}
