//! The lines of one peer, in pieces.
ghost use Rattle.std.specs.Prelude.{◌≡◌, ◌≤◌, false, [], length, IfOk, IfErr, OnOk, OnErr, IfSome, IfNone};
ghost use Rattle.pay_session.specs.AtPorts.{HasAnsweredAt};
ghost use Rattle.pay_session.specs.Pieces.{TakesPiece, TakesThroughQuit, StopsInPiece, EndsPieces, StopsAtEnd};
ghost use Rattle.pay_session.specs.Requests.{has_newline};
ghost use Rattle.pay_session.specs.SessionSteps.{at_hand};
ghost use Rattle.pay_session.specs.Stops.{IsWriteFailure};
ghost use Rattle.pay_wire.specs.Words.{IsCaused};

use crate::port::Port;
use crate::progress::Progress;
use crate::service::Service;
use crate::stop::Stop;
use pay_shard::Desk;
use pay_till::Till;
use pay_wire::{KnownWriter, WriteFault};
use std::marker::Model;

/// The lines of one peer, which are answered as their bytes come, in whatever pieces: what is written is what a session writes over all
/// bytes. Between two pieces it holds no more than a begun line, and the desk may answer others. In a contract it is what is kept of that
/// line.
#[derive(Drop)]
pub struct Conversation {
    progress: Progress,
}

impl Model for Conversation {
    ghost use Rattle.std.specs.Prelude.{◌≡◌, ℕ, List, false};
    ghost use Rattle.pay_session.specs.Requests.{has_newline};

    ghost Value = { List ℕ };

    ghost view = { λ c. c.progress.line };

    ghost invariant = { λ c. (has_newline c.progress.line ≡ false) × (c.progress.answered ≡ 0) };
}

/// What the writer failed by.
fn failure(stop: Stop) -> WriteFault
    requires { IsWriteFailure stop }
    ensures { stop ≡ Stop.Write result }
{
    match stop {
        Stop::Write(failure) => failure,
        Stop::Read(_) | Stop::NoMoreFills => unreachable!(),
    }
}

/// Takes a piece, and answers the lines that end in it.
fn take_by<W: KnownWriter, D: Desk, T: Till>(
    progress: &mut Progress,
    piece: &[u8],
    writer: &mut W,
    service: &mut Service<'_, D, T>,
) -> Result<Option<usize>, WriteFault>
    requires begun { has_newline progress.old.line ≡ false }
    requires none { progress.old.answered ≡ 0 }
    ensures begun { has_newline progress.new.line ≡ false }
    ensures none { progress.new.answered ≡ 0 }
    ensures desk_name { service.new.desk.ghost_name ≡ service.old.desk.ghost_name }
    ensures till_name { service.new.till.ghost_name ≡ service.old.till.ghost_name }
    ensures all { IfOk result (λ left. IfNone left (TakesPiece D.parts T.Closes service.old.port piece.now
        (at_hand service.old progress.old (W.contents writer.old)) (at_hand service.new progress.new (W.contents writer.new)))) }
    ensures quit { IfOk result (λ left. IfSome left (λ n. TakesThroughQuit D.parts T.Closes service.old.port (piece.now, n)
        (at_hand service.old progress.old (W.contents writer.old)) (at_hand service.new progress.new (W.contents writer.new)))) }
    ensures within { IfOk result (λ left. IfSome left (λ n. n ≤ length piece.now)) }
    ensures over { IfOk result (λ left. IfSome left (λ _. progress.new.line ≡ [])) }
    ensures lost { OnErr result (progress.new.line ≡ []) }
    ensures breaks { OnErr result (StopsInPiece D.parts T.Closes service.old.port piece.now
        (at_hand service.old progress.old (W.contents writer.old)) (at_hand service.new progress.new (W.contents writer.new))) }
    ensures cause { IfErr result (λ fault. IsCaused W.MayAnswer fault writer.new) }
    ensures answered { HasAnsweredAt D.parts T.Closes (service.old.port.zone.now, service.old.port.role)
        (service.old.desk.now, service.old.till.now) (service.new.desk.now, service.new.till.now) }
    ensures same_till { T.origin service.new.till.now ≡ T.origin service.old.till.now }
{
    match progress.take(service, piece, writer) {
        Ok(left) => {
            progress.count_anew();
            Ok(left)
        }
        Err(stop) => {
            *progress = Progress::new();
            Err(failure(stop))
        }
    }
}

/// Answers what no newline ended.
fn end_by<W: KnownWriter, D: Desk, T: Till>(
    progress: &mut Progress,
    writer: &mut W,
    service: &mut Service<'_, D, T>,
) -> Result<(), WriteFault>
    requires begun { has_newline progress.old.line ≡ false }
    requires none { progress.old.answered ≡ 0 }
    ensures anew { (progress.new.line ≡ []) × (progress.new.answered ≡ 0) }
    ensures desk_name { service.new.desk.ghost_name ≡ service.old.desk.ghost_name }
    ensures till_name { service.new.till.ghost_name ≡ service.old.till.ghost_name }
    ensures ends { OnOk result (EndsPieces D.parts T.Closes service.old.port
        (at_hand service.old progress.old (W.contents writer.old)) (at_hand service.new progress.new (W.contents writer.new))) }
    ensures breaks { OnErr result (StopsAtEnd D.parts T.Closes service.old.port
        (at_hand service.old progress.old (W.contents writer.old)) (at_hand service.new progress.new (W.contents writer.new))) }
    ensures cause { IfErr result (λ fault. IsCaused W.MayAnswer fault writer.new) }
    ensures answered { HasAnsweredAt D.parts T.Closes (service.old.port.zone.now, service.old.port.role)
        (service.old.desk.now, service.old.till.now) (service.new.desk.now, service.new.till.now) }
    ensures same_till { T.origin service.new.till.now ≡ T.origin service.old.till.now }
{
    match progress.end(service, writer) {
        Ok(()) => {
            *progress = Progress::new();
            Ok(())
        }
        Err(stop) => {
            *progress = Progress::new();
            Err(failure(stop))
        }
    }
}

impl Conversation {
    /// Before the first byte.
    pub fn new() -> Conversation
        ensures { result ≡ [] }
    {
        Conversation {
            progress: Progress::new(),
        }
    }

    /// Takes a piece of the bytes, and answers the lines that end in it at a port, by a desk and a till. Where one is `QUIT` the answer is
    /// how many bytes of the piece are left after it, and the conversation is over and begins anew; so it does where the writer fails.
    pub fn take<W: KnownWriter, D: Desk, T: Till>(
        &mut self,
        piece: &[u8],
        writer: &mut W,
        port: Port<'_>,
        desk: &mut D,
        till: &mut T,
    ) -> Result<Option<usize>, WriteFault>
        ensures all { IfOk result (λ left. IfNone left (TakesPiece D.parts T.Closes port.entry piece.now
            (desk.old, till.old, self.old, W.contents writer.old) (desk.new, till.new, self.new, W.contents writer.new))) }
        ensures quit { IfOk result (λ left. IfSome left (λ n. TakesThroughQuit D.parts T.Closes port.entry (piece.now, n)
            (desk.old, till.old, self.old, W.contents writer.old) (desk.new, till.new, self.new, W.contents writer.new))) }
        ensures within { IfOk result (λ left. IfSome left (λ n. n ≤ length piece.now)) }
        ensures over { IfOk result (λ left. IfSome left (λ _. self.new ≡ [])) }
        ensures lost { OnErr result (self.new ≡ []) }
        ensures breaks { OnErr result (StopsInPiece D.parts T.Closes port.entry piece.now
            (desk.old, till.old, self.old, W.contents writer.old) (desk.new, till.new, self.new, W.contents writer.new)) }
        ensures cause { IfErr result (λ fault. IsCaused W.MayAnswer fault writer.new) }
        ensures answered { HasAnsweredAt D.parts T.Closes (port.entry.zone.now, port.entry.role) (desk.old, till.old) (desk.new, till.new) }
        ensures same_till { T.origin till.new ≡ T.origin till.old }
    {
        take_by(
            &mut self.progress,
            piece,
            writer,
            &mut Service::new(port, desk, till),
        )
    }

    /// Answers what no newline ended, once the peer sends no more. The conversation is over, and begins anew.
    pub fn end<W: KnownWriter, D: Desk, T: Till>(
        &mut self,
        writer: &mut W,
        port: Port<'_>,
        desk: &mut D,
        till: &mut T,
    ) -> Result<(), WriteFault>
        ensures anew { self.new ≡ [] }
        ensures ends { OnOk result (EndsPieces D.parts T.Closes port.entry (desk.old, till.old, self.old, W.contents writer.old) (desk.new, till.new, self.new, W.contents writer.new)) }
        ensures breaks { OnErr result (StopsAtEnd D.parts T.Closes port.entry (desk.old, till.old, self.old, W.contents writer.old) (desk.new, till.new, self.new, W.contents writer.new)) }
        ensures cause { IfErr result (λ fault. IsCaused W.MayAnswer fault writer.new) }
        ensures answered { HasAnsweredAt D.parts T.Closes (port.entry.zone.now, port.entry.role) (desk.old, till.old) (desk.new, till.new) }
        ensures same_till { T.origin till.new ≡ T.origin till.old }
    {
        end_by(
            &mut self.progress,
            writer,
            &mut Service::new(port, desk, till),
        )
    }
}
