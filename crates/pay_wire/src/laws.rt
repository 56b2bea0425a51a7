//! Laws of the spelling: how commands and numbers are read, and how replies are told apart. Each law is the
//! contract of a function that does nothing: a caller whose proof needs a law calls its function.
ghost use Rattle.std.specs.Prelude.{◌≡◌, ℕ, ◌≤◌, List, ◌++◌, map, Some, codes, decimal};
ghost use Rattle.std.specs.List.{AllByRecursion, flat_map};
ghost use Rattle.pay_wire.specs.declared.command.SpelledTap.{SpelledTap};
ghost use Rattle.pay_wire.specs.declared.command.SpelledFix.{SpelledFix};
ghost use Rattle.pay_wire.specs.declared.command.SpelledCommand.{SpelledCommand};
ghost use Rattle.pay_wire.specs.declared.reply.SpelledReply.{SpelledReply};
ghost use Rattle.pay_wire.specs.declared.limits.TheConstants.{MOST_NUMBER};
ghost use Rattle.pay_day.specs.Words.{IsDay};
ghost use Rattle.pay_wire.specs.Numbers.{number_of};
ghost use Rattle.pay_wire.specs.Commands.{command_of};
ghost use Rattle.pay_wire.specs.Spellings.{IsSpelledTap, spelling_of_tap, IsSpelledFix, spelling_of_fix, IsAccountDay, spelling_of_due, spelling_of_show, spelling_of_close, Spells, IsLine};
ghost use Rattle.pay_wire.specs.Replies.{spelling_of_reply, reply_as_read, IsReply};

/// A number of a line has one spelling, its decimal digits, which is read as that number.
pub fn one_numeral()
    ensures read { (n : ℕ) → n ≤ MOST_NUMBER → number_of (decimal n) ≡ Some n }
    ensures spelled { (word : List ℕ) (n : ℕ) → number_of word ≡ Some n
        → (word ≡ decimal n) × (n ≤ MOST_NUMBER) }
{}

/// What a line spells is what is read of it, and nothing else is read.
pub fn read_as_spelled()
    ensures read { (line : List ℕ) (command : SpelledCommand) → Spells line command
        → command_of line ≡ Some command }
    ensures spelled { (line : List ℕ) (command : SpelledCommand) → command_of line ≡ Some command
        → Spells line command }
{}

/// No line spells two commands, and each command has one spelling.
pub fn one_command()
    ensures command { (line : List ℕ) (a b : SpelledCommand) → Spells line a → Spells line b → a ≡ b }
    ensures line { (command : SpelledCommand) (a b : List ℕ) → Spells a command → Spells b command → a ≡ b }
    ensures tap { (a b : SpelledTap) → IsSpelledTap a → IsSpelledTap b
        → spelling_of_tap a ≡ spelling_of_tap b → a ≡ b }
    ensures fix { (a b : SpelledFix) → IsSpelledFix a → IsSpelledFix b
        → spelling_of_fix a ≡ spelling_of_fix b → a ≡ b }
    ensures due { (account day x y : ℕ) → IsAccountDay account day → IsAccountDay x y
        → spelling_of_due account day ≡ spelling_of_due x y → (account ≡ x) × (day ≡ y) }
    ensures show { (account day x y : ℕ) → IsAccountDay account day → IsAccountDay x y
        → spelling_of_show account day ≡ spelling_of_show x y → (account ≡ x) × (day ≡ y) }
    ensures close { (day x : ℕ) → IsDay day → IsDay x → spelling_of_close day ≡ spelling_of_close x → day ≡ x }
{}

/// A spelling is one line: at most [`MOST_LINE_BYTES`](crate::limits::MOST_LINE_BYTES) bytes, none of them a newline.
pub fn each_is_a_line()
    ensures tap { (tap : SpelledTap) → IsSpelledTap tap → IsLine (spelling_of_tap tap) }
    ensures fix { (fix : SpelledFix) → IsSpelledFix fix → IsLine (spelling_of_fix fix) }
    ensures due { (account day : ℕ) → IsAccountDay account day → IsLine (spelling_of_due account day) }
    ensures show { (account day : ℕ) → IsAccountDay account day → IsLine (spelling_of_show account day) }
    ensures close { (day : ℕ) → IsDay day → IsLine (spelling_of_close day) }
    ensures quit { IsLine (codes "QUIT") }
{}

/// Replies that follow one another are told apart, as far as their lines tell them, so a stream of replies is read in one way.
pub fn one_reply()
    ensures first { (a b : SpelledReply) (x y : List ℕ) → IsReply a → IsReply b
        → spelling_of_reply a ++ x ≡ spelling_of_reply b ++ y → (reply_as_read a ≡ reply_as_read b) × (x ≡ y) }
    ensures stream { (a b : List SpelledReply) → AllByRecursion IsReply a → AllByRecursion IsReply b
        → flat_map spelling_of_reply a ≡ flat_map spelling_of_reply b → map reply_as_read a ≡ map reply_as_read b }
{}
