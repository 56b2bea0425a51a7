ghost use Rattle.std.specs.Prelude.{◌≡◌, ◌<◌, ◌∷◌, [], length};
ghost use Rattle.pay_session.specs.Requests.{request_of, request_of_rest, is_quit, IsAsked};

use pay_wire::limits::MOST_LINE_BYTES;
use pay_wire::{SpelledCommand, read_command};

/// What a piece of the input asks for: a command, or nothing that is one.
#[derive(Clone, Copy)]
pub enum Request {
    /// A line that spells this command.
    Command(SpelledCommand),
    /// A line that spells none, or bytes that no newline ends.
    BadLine,
    /// More bytes than a line may have.
    LongLine,
}

/// What a line asks for, which is given without its newline.
#[tactic(auto, unfolding(crate::specs::Requests::request_of))]
pub fn request_of(line: &[u8]) -> Request
    ensures value { result ≡ request_of line.now }
    ensures in_range { IsAsked result }
{
    if line.len() > MOST_LINE_BYTES {
        return Request::LongLine;
    }
    match read_command(line) {
        Some(command) => Request::Command(command),
        None => Request::BadLine,
    }
}

/// What is asked for by bytes that no newline ends: nothing, since a number that is cut could be
/// another number.
pub fn request_of_rest(rest: &[u8]) -> Request
    requires { 0 < length rest.now }
    ensures value { request_of_rest rest.now ≡ result ∷ [] }
    ensures in_range { IsAsked result }
{
    if rest.len() > MOST_LINE_BYTES {
        Request::LongLine
    } else {
        Request::BadLine
    }
}

impl Request {
    /// Whether it asks to end the session.
    pub fn is_quit(self) -> bool
        ensures { result ≡ is_quit self }
    {
        matches!(self, Request::Command(SpelledCommand::Quit))
    }
}
