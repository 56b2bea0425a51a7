//! The lines of a desk's commands.
ghost use Rattle.std.specs.Prelude.{◌≡◌, [], IfSome, IfNone};
ghost use Rattle.pay_journal.specs.Lines.{spelled_tap, spelled_what, spelled_fix, spelled_of, line_of};

use arrayvec::ArrayVec;
use pay_rules::{Fix, Tap, What};
use pay_shard::{Asked, Command};
use pay_wire::{
    SpelledCommand, SpelledCredit, SpelledFix, SpelledLine, SpelledTap, SpelledWhat, command_line,
};

/// The command of a line by which a tap or a correction is asked for: its numbers, and its instant without where that falls. What
/// only asks has none here.
pub fn spelled_of(command: Command) -> Option<SpelledCommand>
    ensures { result ≡ spelled_of command }
{
    match command.asked() {
        Asked::Tap(tap) => Some(SpelledCommand::Tap(spelled_tap(&tap))),
        Asked::Fix(fix) => Some(SpelledCommand::Fix(spelled_fix(&fix))),
        Asked::Due { .. } | Asked::Show { .. } | Asked::Quotes { .. } => None,
    }
}

/// The line of a tap or a correction, newline included. What only asks has none: its line is empty.
pub fn line_of(command: Command) -> SpelledLine
    ensures { result.items ≡ line_of command }
{
    match spelled_of(command) {
        Some(spelled) => command_line(&spelled),
        None => ArrayVec::new(),
    }
}

fn spelled_tap(tap: &Tap) -> SpelledTap
    ensures { result ≡ spelled_tap tap.now }
{
    SpelledTap {
        reader: tap.reader,
        seq: tap.seq,
        account: tap.account,
        utc: tap.stamp.utc(),
        place: tap.place,
        kind: tap.kind,
    }
}

fn spelled_fix(fix: &Fix) -> SpelledFix
    ensures { result ≡ spelled_fix fix.now }
{
    SpelledFix {
        staff: fix.staff,
        seq: fix.seq,
        account: fix.account,
        what: spelled_what(fix.what),
    }
}

fn spelled_what(what: What) -> SpelledWhat
    ensures { result ≡ spelled_what what }
{
    match what {
        What::Void(reader, seq) => SpelledWhat::Void(reader, seq),
        What::Fill(stamp, place, kind) => SpelledWhat::Fill {
            utc: stamp.utc(),
            place,
            kind,
        },
        What::Credit(credit) => SpelledWhat::Credit(SpelledCredit {
            day: credit.day(),
            pence: credit.pence().pence() as u32,
        }),
        What::Drop(staff, seq) => SpelledWhat::Drop(staff, seq),
    }
}
