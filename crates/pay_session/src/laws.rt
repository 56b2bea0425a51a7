//! Laws of the lines: what the definitions mean by which the input is cut. Each law is the contract of a function that does nothing: a
//! caller whose proof needs a law calls its function.
ghost use Rattle.std.specs.Prelude.{◌≡◌, ◌≢◌, ℕ, ◌<◌, ◌≤◌, true, false, List, [], ◌∷◌, ◌++◌, length, codes};
ghost use Rattle.std.specs.List.{AllByRecursion, flat_map};
ghost use Rattle.pay_wire.specs.declared.command.SpelledCommand.TheVariants.{Quit};
ghost use Rattle.pay_wire.specs.declared.limits.TheConstants.{MOST_LINE_BYTES};
ghost use Rattle.pay_session.specs.declared.request.Request.TheVariants as requests;
ghost use Rattle.pay_session.specs.AtPorts.{AnswersNobody, AnswersOn, AnswersClose};
ghost use Rattle.pay_session.specs.Pieces.{IsAfter};
ghost use Rattle.pay_session.specs.Requests.{InputLine, input_lines, rest_of, has_newline, request_of, line_requests, requests_of, quits, unread, HasOneCutting, IsReadByLine, SpellsNothing};

use pay_shard::Desk;
use pay_till::Till;

/// The lines and the rest are the input, cut at its newlines, and no other cutting is.
pub fn cut_at_newlines()
    ensures whole { (input : List ℕ)
        → flat_map (λ (l : InputLine). l.text ++ codes "\n") (input_lines input) ++ rest_of input ≡ input }
    ensures lines { (input : List ℕ)
        → AllByRecursion (λ (l : InputLine). has_newline l.text ≡ false) (input_lines input) }
    ensures rest { (input : List ℕ) → has_newline (rest_of input) ≡ false }
    ensures only { HasOneCutting }
{}

/// What is left unread is what stands after the first line that is `QUIT`, or nothing where no line is.
pub fn unread_after_quit()
    ensures after { (input : List ℕ) → quits input ≡ true
        → (before : List ℕ) × (input ≡ before ++ codes "QUIT\n" ++ unread input)
        × (quits before ≡ false) × (rest_of before ≡ []) }
    ensures none { (input : List ℕ) → quits input ≡ false → unread input ≡ [] }
{
    pay_wire::laws::read_as_spelled();
}

/// What stands after the first `QUIT` asks for nothing, whatever it is, and stays unread.
pub fn nothing_after_quit()
    ensures asked { (before x : List ℕ) → quits before ≡ false → rest_of before ≡ []
        → requests_of (before ++ codes "QUIT\n" ++ x) ≡ line_requests before ++ requests.Command Quit ∷ [] }
    ensures same { (before x y : List ℕ) → quits before ≡ false → rest_of before ≡ []
        → requests_of (before ++ codes "QUIT\n" ++ x) ≡ requests_of (before ++ codes "QUIT\n" ++ y) }
    ensures unread { (before x : List ℕ) → quits before ≡ false → rest_of before ≡ []
        → unread (before ++ codes "QUIT\n" ++ x) ≡ x }
{}

/// A line other than `QUIT` changes nothing of what the lines after it ask for, and neither does a bad or a long one.
pub fn session_goes_on()
    ensures line { (line more : List ℕ) → has_newline line ≡ false → line ≢ codes "QUIT"
        → requests_of (line ++ codes "\n" ++ more) ≡ request_of line ∷ requests_of more }
    ensures bad { (line more : List ℕ) → has_newline line ≡ false → length line ≤ MOST_LINE_BYTES → SpellsNothing line
        → requests_of (line ++ codes "\n" ++ more) ≡ requests.BadLine ∷ requests_of more }
    ensures long { (line more : List ℕ) → has_newline line ≡ false → MOST_LINE_BYTES < length line
        → requests_of (line ++ codes "\n" ++ more) ≡ requests.LongLine ∷ requests_of more }
{
    pay_wire::laws::read_as_spelled();
}

/// A text is read line by line: its first line, and then what stands after that. A text without a newline has no line, and is all
/// rest.
pub fn line_by_line()
    ensures { IsReadByLine }
{}

/// A conversation begins before all bytes. What is answered over a desk and a till for one piece after another is one answering, and so is
/// nothing.
pub fn piece_by_piece<D: Desk, T: Till>()
    ensures first { IsAfter [] [] }
    ensures none { AnswersNobody D.parts T.Closes }
    ensures after { AnswersOn D.parts T.Closes }
{}

/// Where a till closes a day over a desk, or puts that off, one request is answered: the `CLOSE` of that day, at a port of staff. So it is of
/// whatever else a till does that asks for no more.
pub fn close_is_answered<D: Desk, T: Till>()
    ensures { AnswersClose D.parts T.Closes }
{}
