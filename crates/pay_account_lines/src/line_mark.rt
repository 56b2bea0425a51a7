//! What is kept of a line beside its text.
ghost use Rattle.std.specs.Prelude.{◌≡◌};
ghost use Rattle.pay_account_lines.specs.Marks.{mark_of};
ghost use Rattle.pay_account_lines.specs.OwnLines.{account_of};

use pay_session::{Request, request_of};
use pay_wire::SpelledCommand;

/// Whose a line is, and how many bytes it has with its newline.
#[derive(Clone, Copy)]
pub struct LineMark {
    pub account: u32,
    pub bytes: u8,
}

/// The mark of a line, which is given without its newline. A line that is neither a tap nor a correction has none.
pub fn mark_of(line: &[u8]) -> Option<LineMark>
    ensures { result ≡ mark_of line.now }
{
    let account = account_of(request_of(line))?;
    Some(LineMark {
        account,
        bytes: line.len() as u8 + 1,
    })
}

/// Whose tap or correction a request is.
fn account_of(request: Request) -> Option<u32>
    ensures { result ≡ account_of request }
{
    match request {
        Request::Command(SpelledCommand::Tap(tap)) => Some(tap.account),
        Request::Command(SpelledCommand::Fix(fix)) => Some(fix.account),
        _ => None,
    }
}
