//! When a line is kept.
ghost use Rattle.std.specs.Prelude.{◌≡◌, false, true, OnErr, OnOk};
ghost use Rattle.std.specs.Io.KnownBytes.{Appends};
ghost use Rattle.pay_wire.specs.Words.{AppendsFront};
ghost use Rattle.pay_shard.specs.Words.{is_new};
ghost use Rattle.pay_journal.specs.KeptAnswers.{is_quotes, kept_line_of};
ghost use Rattle.pay_journal.specs.Lines.{line_of};

use crate::keeper::{Keeper, NotKept};
use pay_shard::{Asked, Command, Reply};

/// Has a keeper do what has to be done before anybody can have the answer to a command: it keeps the line of a tap or a correction that
/// is newly accepted, and settles all that it has kept before quotes, by which a close posts.
pub fn keep_answer<K: Keeper>(
    keeper: &mut K,
    command: Command,
    reply: &Reply,
) -> Result<(), NotKept>
    ensures kept { OnOk result (Appends (K.holds keeper.old) (K.holds keeper.new) (kept_line_of command reply.now)) }
    ensures settled { OnOk result (is_quotes command ≡ true → K.IsSettled keeper.new) }
    ensures front { OnErr result (AppendsFront (K.holds keeper.old) (K.holds keeper.new) (line_of command)) }
    ensures failed { OnErr result (K.HasFailed keeper.new) }
    ensures none { is_new reply.now ≡ false → is_quotes command ≡ false → keeper.new ≡ keeper.old }
{
    match command.asked() {
        Asked::Quotes { .. } => keeper.settle(),
        Asked::Tap(_) | Asked::Fix(_) => keep_if_new(keeper, command, reply),
        Asked::Due { .. } | Asked::Show { .. } => Ok(()),
    }
}

/// Has a keeper keep the line of a command, if its reply says that something is newly accepted.
fn keep_if_new<K: Keeper>(keeper: &mut K, command: Command, reply: &Reply) -> Result<(), NotKept>
    ensures kept { OnOk result (Appends (K.holds keeper.old) (K.holds keeper.new) (kept_line_of command reply.now)) }
    ensures front { OnErr result (AppendsFront (K.holds keeper.old) (K.holds keeper.new) (line_of command)) }
    ensures failed { OnErr result (K.HasFailed keeper.new) }
    ensures none { is_new reply.now ≡ false → keeper.new ≡ keeper.old }
{
    if is_new(reply) {
        return keeper.keep(command);
    }
    Ok(())
}

/// Whether a reply says that something is newly accepted.
fn is_new(reply: &Reply) -> bool
    ensures { result ≡ is_new reply.now }
{
    match reply {
        Reply::Priced(priced) => !priced.again,
        _ => false,
    }
}
