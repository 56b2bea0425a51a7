//! Laws of journals: what is read of lines that were written, and what journals give back that are taken again, whole, cut or torn.
ghost use Rattle.pay_journal_laws.specs.CommandLines.{LinesAreReadBack, CutLinesAreRead, OneLineIsLost};
ghost use Rattle.pay_journal_laws.specs.GivenBack.{RepeatsAreOfNew, NewGivesBack, PartsAreTaken};
ghost use Rattle.pay_journal_laws.specs.Texts.{CutAskWithin, TornAskAlike, WholeIsHeld, KeptAsksMore, PartAsksAlike};

/// Commands that are written as lines are read back from them, and nothing is left over.
pub fn read_back()
    ensures { LinesAreReadBack }
{
    pay_wire::laws::read_as_spelled();
    pay_wire::laws::each_is_a_line();
    pay_session::laws::line_by_line();
}

/// Where the text of such lines is cut, those that are whole are read, and no other command. So it is the last line alone that is
/// lost where the cut is within that one.
pub fn cut()
    ensures anywhere { CutLinesAreRead }
    ensures last { OneLineIsLost }
{
    pay_wire::laws::read_as_spelled();
    pay_wire::laws::each_is_a_line();
    pay_session::laws::line_by_line();
}

/// What the shards of a service newly accepted gives their accounts back, whatever order its lines have, however often some of them
/// stand there, and however many shards there are then: so no lines are lost that matter, whichever file they stand in.
pub fn new_gives_back()
    ensures { NewGivesBack }
{
    pay_shard::laws::merge();
    pay_shard::laws::accepted_alone();
    pay_shard::laws::order_forgets_arrival();
}

/// What a run from no accounts answers by prices was newly accepted in it once: a repeat repeats that.
pub fn repeats_are_of_new()
    ensures { RepeatsAreOfNew }
{
    pay_shard::laws::accepted_alone();
}

/// Where texts give accounts back, the first of them are accepted by themselves: none of their lines needs what the others ask for.
pub fn parts_are_taken()
    ensures { PartsAreTaken }
{}

/// A part in front of texts that asks for nothing more changes nothing of what these ask for.
pub fn part_asks_alike()
    ensures { PartAsksAlike }
{}

/// Journals that were cut, wherever, ask for nothing that they did not ask for before.
pub fn cut_ask_within()
    ensures { CutAskWithin }
{
    pay_session::laws::line_by_line();
}

/// A line that was torn asks for nothing: what stands after the last newline of a journal makes no difference.
pub fn torn_ask_alike()
    ensures { TornAskAlike }
{
    pay_session::laws::line_by_line();
}

/// What [`whole_bytes`](pay_journal::whole_bytes) counts of a text are its whole lines: a [`LineKeeper`](pay_journal::LineKeeper) that begins by it holds these.
pub fn whole_is_held()
    ensures { WholeIsHeld }
{
    pay_session::laws::cut_at_newlines();
}

/// Once lines were kept after the whole lines of a text, what is held asks for what the text does, and then for what these lines do.
pub fn kept_asks_more()
    ensures { KeptAsksMore }
{
    pay_session::laws::cut_at_newlines();
    pay_session::laws::line_by_line();
}
