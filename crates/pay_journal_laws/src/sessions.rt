//! Laws of the journal of a session.
ghost use Rattle.pay_journal.specs.Words.{CanFail};
ghost use Rattle.pay_journal_laws.specs.KeptBytes.{LinesAskInRange, FrontsAskInRange, KeptBytesGiveBack, WholeBytesGiveBack, CutBytesGiveBack};
ghost use Rattle.pay_journal_laws.specs.KeptBytes.{EndedIsHeld, StoppedReadingIsHeld, StoppedWritingIsHeld};
ghost use Rattle.pay_run.specs.Words.{has_ledger_in, has_none};

use crate::texts::{cut, read_back};
use pay_journal::Keeper;
use sqlite::Alter;

/// The file of a session's journal, taken again line by line, is the machine that the session ended with: a journal that gives a machine
/// back, cut to its whole lines, and after them the lines that a keeper has of what was newly accepted, if no line stands there that
/// could not be kept. And a file that was cut after what it had before is the machine where the session was cut.
pub fn kept_bytes_give_back()
    // All that a session is asked is in its ranges, so that each request has one line,
    ensures lines { LinesAskInRange }

    // and so are the first of them, where a session ended before the others.
    ensures fronts { FrontsAskInRange }

    // What a keeper holds gives back the machine that there is then, if it has no more after it than a line that was cut.
    ensures kept { KeptBytesGiveBack }

    // So it does where the keeper did not fail, and then its bytes are whole lines.
    ensures whole { WholeBytesGiveBack }

    // Wherever it is cut after what it had before, the whole lines that are left give back where the run was cut.
    ensures cut { CutBytesGiveBack }
{
    pay_run::laws::journals();
    pay_run::laws::all_else_stays();
    pay_wire::laws::read_as_spelled();
    pay_session::laws::cut_at_newlines();
    read_back();
    cut();
}

/// A run leaves its machine in its journal: where its keeper began after the whole lines of this, and did not fail, what it holds is the
/// machine with which the run ended, by itself or not; over a ledger, or without one.
pub fn journal_is_the_machine<K: Keeper, S: Alter>()
    ensures ended { EndedIsHeld (has_ledger_in S.Store) (CanFail K.HasFailed) }
    ensures reading { StoppedReadingIsHeld (has_ledger_in S.Store) (CanFail K.HasFailed) }
    ensures writing { StoppedWritingIsHeld (has_ledger_in S.Store) (CanFail K.HasFailed) }
    ensures ended_alone { EndedIsHeld has_none (CanFail K.HasFailed) }
    ensures reading_alone { StoppedReadingIsHeld has_none (CanFail K.HasFailed) }
    ensures writing_alone { StoppedWritingIsHeld has_none (CanFail K.HasFailed) }
{
    kept_bytes_give_back();
}
