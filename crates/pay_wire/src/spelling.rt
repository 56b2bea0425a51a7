//! Commands as they are spelled.
ghost use Rattle.std.specs.Prelude.{◌≡◌, ◌+◌, ◌++◌, ◌∷◌, ◌≤◌, [], length, codes, decimal};
ghost use Rattle.arrayvec.specs.ArrayVec.{array_vec_len};
ghost use Rattle.pay_wire.specs.Replies.{text_of_fields};
ghost use Rattle.pay_wire.specs.Spellings.{spelling_of_kind, spelling_of_tap, words_of_what, spelling_of_fix, spelling_of_account_day, spelling_of_close, spelling_of_command};

use crate::command::{SpelledCommand, SpelledFix, SpelledTap, SpelledWhat};
use crate::reply::{REPLY_BYTES, SpelledLine, begin, put, put_field};
use arrayvec::ArrayVec;
use pay_rules::Kind;

/// The line of a command, newline included: its one spelling, if its numbers are in their ranges.
pub fn command_line(command: &SpelledCommand) -> SpelledLine
    ensures { result.items ≡ spelling_of_command command.now ++ codes "\n" }
{
    let mut line = ArrayVec::new();
    spell(&mut line, command);
    put(&mut line, b"\n");
    line
}

/// Spells a command into an empty line, without a newline.
fn spell(line: &mut SpelledLine, command: &SpelledCommand)
    requires { line.old.items ≡ [] }
    ensures items { line.new.items ≡ spelling_of_command command.now }
    ensures len { array_vec_len line.new + 1 ≤ REPLY_BYTES }
{
    match command {
        SpelledCommand::Tap(tap) => spell_tap(line, tap),
        SpelledCommand::Fix(fix) => spell_fix(line, fix),
        SpelledCommand::Due { account, day } => spell_account_day(line, b"DUE", *account, *day),
        SpelledCommand::Show { account, day } => spell_account_day(line, b"SHOW", *account, *day),
        SpelledCommand::Close { day } => spell_close(line, *day),
        SpelledCommand::Quit => begin(line, b"QUIT"),
    }
}

#[tactic(auto, using(crate::proofs::Fields::six_fields))]
fn spell_tap(line: &mut SpelledLine, tap: &SpelledTap)
    requires { line.old.items ≡ [] }
    ensures items { line.new.items ≡ spelling_of_tap tap.now }
    ensures len { array_vec_len line.new + 1 ≤ REPLY_BYTES }
{
    begin(line, b"TAP");
    put_field(line, tap.reader);
    put_field(line, tap.seq);
    put_field(line, tap.account);
    put_field(line, tap.utc);
    put_field(line, tap.place);
    put_word(line, kind_word(tap.kind));
}

#[tactic(auto, using(crate::proofs::Fields::three_and_more))]
fn spell_fix(line: &mut SpelledLine, fix: &SpelledFix)
    requires { line.old.items ≡ [] }
    ensures items { line.new.items ≡ spelling_of_fix fix.now }
    ensures len { array_vec_len line.new + 1 ≤ REPLY_BYTES }
{
    begin(line, b"FIX");
    put_field(line, fix.staff);
    put_field(line, fix.seq);
    put_field(line, fix.account);
    put_what(line, &fix.what);
}

#[tactic(auto, using(crate::proofs::Fields::two_words))]
fn spell_account_day(line: &mut SpelledLine, name: &[u8], account: u32, day: u32)
    requires empty { line.old.items ≡ [] }
    requires short { length name.now ≤ 6 }
    ensures items { line.new.items ≡ spelling_of_account_day name.now account day }
    ensures len { array_vec_len line.new + 1 ≤ REPLY_BYTES }
{
    begin(line, name);
    put_field(line, account);
    put_field(line, day);
}

fn spell_close(line: &mut SpelledLine, day: u32)
    requires { line.old.items ≡ [] }
    ensures items { line.new.items ≡ spelling_of_close day }
    ensures len { array_vec_len line.new + 1 ≤ REPLY_BYTES }
{
    begin(line, b"CLOSE");
    put_field(line, day);
}

/// Puts what a correction does at the end of a line.
fn put_what(line: &mut SpelledLine, what: &SpelledWhat)
    requires { array_vec_len line.old + 66 ≤ REPLY_BYTES }
    ensures items { line.new.items ≡ line.old.items ++ text_of_fields (words_of_what what.now) }
    ensures len { array_vec_len line.new ≤ array_vec_len line.old + 66 }
{
    match what {
        SpelledWhat::Void(reader, seq) => put_named(line, b"VOID", u32::from(*reader), *seq),
        SpelledWhat::Fill { utc, place, kind } => put_fill(line, *utc, *place, *kind),
        SpelledWhat::Credit(credit) => put_named(line, b"CREDIT", credit.day, credit.pence),
        SpelledWhat::Drop(staff, seq) => put_named(line, b"DROP", u32::from(*staff), *seq),
    }
}

/// Puts a word and two numbers at the end of a line.
#[tactic(auto, using(crate::proofs::Fields::three_more))]
fn put_named(line: &mut SpelledLine, name: &[u8], first: u32, second: u32)
    requires short { length name.now ≤ 6 }
    requires room { array_vec_len line.old + 49 ≤ REPLY_BYTES }
    ensures items { line.new.items ≡ line.old.items ++ text_of_fields (name.now ∷ decimal first ∷ decimal second ∷ []) }
    ensures len { array_vec_len line.new ≤ array_vec_len line.old + 49 }
{
    put_word(line, name);
    put_field(line, first);
    put_field(line, second);
}

/// Puts the words of a Fill at the end of a line.
#[tactic(auto, using(crate::proofs::Fields::four_more))]
fn put_fill(line: &mut SpelledLine, utc: u64, place: u16, kind: Kind)
    requires { array_vec_len line.old + 51 ≤ REPLY_BYTES }
    ensures items { line.new.items ≡ line.old.items ++ text_of_fields (codes "FILL" ∷ decimal utc ∷ decimal place ∷ spelling_of_kind kind ∷ []) }
    ensures len { array_vec_len line.new ≤ array_vec_len line.old + 51 }
{
    put_word(line, b"FILL");
    put_field(line, utc);
    put_field(line, place);
    put_word(line, kind_word(kind));
}

/// Puts a space and a word at the end of a line.
fn put_word(line: &mut SpelledLine, word: &[u8])
    requires { array_vec_len line.old + 1 + length word.now ≤ REPLY_BYTES }
    ensures items { line.new.items ≡ line.old.items ++ 32 ∷ word.now }
    ensures len { array_vec_len line.new ≡ array_vec_len line.old + 1 + length word.now }
{
    put(line, b" ");
    put(line, word);
}

/// A kind's word.
fn kind_word(kind: Kind) -> &'static [u8]
    ensures word { result.now ≡ spelling_of_kind kind }
    ensures short { length result.now ≤ 3 }
{
    match kind {
        Kind::In => b"IN",
        Kind::Out => b"OUT",
        Kind::Bus => b"BUS",
    }
}
