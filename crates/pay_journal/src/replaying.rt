//! Replaying a text of lines: the commands that an earlier session accepted are handed to a desk once more.
ghost use Rattle.std.specs.Prelude.{◌≡◌, ◌+◌, ◌<◌, ◌≤◌, ◌∷◌, ◌++◌, false, None, length, IfOk, IfErr};
ghost use Rattle.pay_shard.specs.Words.{NothingIsLost};
ghost use Rattle.pay_session.specs.Asks.{asks_of, IsOfAccount};
ghost use Rattle.pay_journal.specs.Replays.{IsReplayed, IsEnded, IsReplayStep, IsStepBy, IsFaultOf, is_barred, why_ended};
ghost use Rattle.pay_session.specs.Requests.{has_newline, request_of};

use crate::ahead::hand_on;
use pay_session::{Asks, asks_of, cut, reply_of, request_of};
use pay_shard::{Asked, Command, Desk};
use pay_wire::{Refusal, SpelledReply};
use pay_zone::Zone;
use thiserror::Error;

/// What a text of lines came to that were replayed.
#[derive(Clone, Copy, Debug, PartialEq, Eq)]
pub struct Replayed {
    /// The whole lines. What stands after the last newline is none.
    pub lines: u64,
    /// Their bytes, with their newlines.
    pub bytes: u64,
}

/// Why a replay ends before its text does.
#[derive(Clone, Copy, Debug, PartialEq, Eq, Error)]
pub enum ReplayFault {
    /// The line of this number, from 1, is not accepted.
    #[error("line {line}: {why}")]
    Line { line: u64, why: Refusal },
    /// 90: no memory.
    #[error("90 Memory")]
    Memory,
}

/// How far a replay came by some lines.
#[derive(Clone, Copy)]
pub(crate) struct Step<'a> {
    /// How many lines were answered by prices, one after the other.
    pub lines: u64,
    /// What stands after the lines that the desk took.
    pub left: &'a [u8],
    /// Why the replay ends at the line after those, if it does.
    pub ended: Option<Refusal>,
}

/// Hands the lines of a text to a desk, up to its last newline, some of them before the first has its reply. Each has to be a tap or a
/// correction that is answered by prices, as a repeat is: the first that is not ends the replay, and the desk has then taken those before
/// it, and perhaps that one and fewer than [`MOST_AHEAD`](crate::limits::MOST_AHEAD) after it. A question, a `CLOSE` and a `QUIT` are a
/// `BadLine` here, and no desk is asked.
pub fn replay<D: Desk>(text: &[u8], zone: &Zone<'_>, desk: &mut D) -> Result<Replayed, ReplayFault>
    ensures replayed { IfOk result (IsReplayed zone.now D.parts desk.old desk.new text.now) }
    ensures ended { IfErr result (IsEnded zone.now D.parts desk.old desk.new text.now) }
    ensures transcript { NothingIsLost (D.parts desk.old).transcript (D.parts desk.new).transcript }
    ensures same_desk { (D.parts desk.new).standing ≡ (D.parts desk.old).standing }
{
    pay_session::laws::line_by_line();
    let mut ahead = text;
    let mut lines = 0;
    while let Some((line, rest)) = cut(ahead) {
        let step = take_some(ahead, line, rest, zone, desk);
        lines += step.lines;
        if let Some(why) = step.ended {
            return Err(fault_at(lines + 1, why));
        }
        ahead = step.left;
    }
    Ok(Replayed {
        lines,
        bytes: (text.len() - ahead.len()) as u64,
    })
}

/// Hands the first lines of a text to a desk, as many as it takes at a time. Of a line that it does not take, the answer to that alone is
/// what counts.
fn take_some<'a, D: Desk>(
    text: &'a [u8],
    line: &[u8],
    rest: &'a [u8],
    zone: &Zone<'_>,
    desk: &mut D,
) -> Step<'a>
    requires parts { text.now ≡ line.now ++ 10 ∷ rest.now }
    requires line { has_newline line.now ≡ false }
    ensures step { IsStepBy zone.now D.parts desk.old desk.new text.now result.lines result.left.now result.ended }
    ensures fits { result.lines + length result.left.now ≤ length text.now }
    ensures some { result.ended ≡ None → 0 < result.lines }
    ensures transcript { NothingIsLost (D.parts desk.old).transcript (D.parts desk.new).transcript }
    ensures same_desk { (D.parts desk.new).standing ≡ (D.parts desk.old).standing }
{
    pay_session::laws::line_by_line();
    let handed = hand_on(text, zone, desk);
    if handed.lines > 0 || handed.ended.is_some() {
        return handed;
    }
    match replay_line(line, zone, desk) {
        Some(why) => Step {
            lines: 0,
            left: rest,
            ended: Some(why),
        },
        None => Step {
            lines: 1,
            left: rest,
            ended: None,
        },
    }
}

/// What is told of a replay that ended so at the line of this number.
fn fault_at(line: u64, why: Refusal) -> ReplayFault
    ensures { IsFaultOf line why result }
{
    if why == Refusal::Memory {
        ReplayFault::Memory
    } else {
        ReplayFault::Line { line, why }
    }
}

/// Hands the command of a line to a desk. The answer is why the replay ends there, if it does.
fn replay_line<D: Desk>(line: &[u8], zone: &Zone<'_>, desk: &mut D) -> Option<Refusal>
    ensures step { IsReplayStep D.parts desk.old desk.new (asks_of zone.now (request_of line.now)) result }
    ensures transcript { NothingIsLost (D.parts desk.old).transcript (D.parts desk.new).transcript }
    ensures same_desk { (D.parts desk.new).standing ≡ (D.parts desk.old).standing }
{
    match asks_of(zone, request_of(line)) {
        Asks::Put(command) => put_again(desk, command),
        Asks::No(why) => Some(why),
        Asks::Close(_) | Asks::Quit => Some(Refusal::BadLine),
    }
}

/// Hands a tap or a correction to a desk. The answer is why the replay ends there, if it does, as it does at a question.
fn put_again<D: Desk>(desk: &mut D, command: Command) -> Option<Refusal>
    requires { IsOfAccount command }
    ensures step { IsReplayStep D.parts desk.old desk.new (Asks.Put command) result }
    ensures transcript { NothingIsLost (D.parts desk.old).transcript (D.parts desk.new).transcript }
    ensures same_desk { (D.parts desk.new).standing ≡ (D.parts desk.old).standing }
{
    if is_question(&command) {
        return Some(Refusal::BadLine);
    }
    let reply = reply_of(desk, command);
    why_ended(&reply)
}

/// Whether a command is neither a tap nor a correction.
pub(crate) fn is_question(command: &Command) -> bool
    ensures { result ≡ is_barred (Asks.Put command.now) }
{
    !matches!(command.asked(), Asked::Tap(_) | Asked::Fix(_))
}

/// Why a reply ends a replay, if it does: each does but prices.
pub(crate) fn why_ended(reply: &SpelledReply) -> Option<Refusal>
    ensures { result ≡ why_ended reply.now }
{
    match reply {
        SpelledReply::Priced(_) => None,
        SpelledReply::No(why) => Some(*why),
        _ => Some(Refusal::DeskFault),
    }
}
