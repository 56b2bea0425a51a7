//! How far a session of lines is, and its steps from there.
ghost use Rattle.std.specs.Prelude.{◌≡◌, ◌≢◌, ◌+◌, ◌<◌, ◌≤◌, ◌^◌, ◌++◌, ◌∷◌, [], List, ℕ, length, false, true, IfOk, IfErr, OnOk, OnErr, IfNone, IfSome};
ghost use Rattle.pay_session.specs.Events.{lacks_memory};
ghost use Rattle.pay_session.specs.Requests.{has_newline, IsAsked};
ghost use Rattle.pay_session.specs.SessionSteps.{at, facing, Advances, Breaks, Replies, Falters, EndsLine, TakesToQuit, EndsRest, FaltersAtRest, Ran, Fills, FailsAs, Finishes, StopsAs};
ghost use Rattle.pay_session.specs.Calls.{IsFill, IsLastFill, ShowsNothing};
ghost use Rattle.pay_session.specs.Stops.{IsStop, IsStopOfFill, IsWriteStop};

use crate::begun_line::BegunLine;
use crate::cutting::cut;
use crate::known_reader::KnownReader;
use crate::limits::MOST_FILLS;
use crate::request::{Request, request_of_rest};
use crate::service::Answers;
use crate::sessions::Done;
use crate::stop::{Stop, unless_interrupted};
use pay_wire::{KnownWriter, Refusal, SpelledReply, send};

/// How far a session is.
#[derive(Drop)]
pub(crate) struct Progress {
    line: BegunLine,
    answered: u128,
    // Whether memory ran out for a request.
    lacked_memory: bool,
}

/// What one fill of a reader's buffer brought.
#[derive(Clone, Copy)]
enum Fill {
    /// Bytes, all of which were taken.
    More,
    /// The end of the input.
    End,
    /// A line that asked to quit.
    Quit,
}

impl Progress {
    /// Before the first line.
    pub fn new() -> Progress
        ensures line { result.line ≡ [] }
        ensures answered { result.answered ≡ 0 }
        ensures lacked { result.lacked_memory ≡ false }
    {
        Progress {
            line: BegunLine::new(),
            answered: 0,
            lacked_memory: false,
        }
    }

    /// How many replies were written and flushed.
    pub fn answered(&self) -> u128
        ensures { result ≡ self.now.answered }
    {
        self.answered
    }

    /// Counts the replies from none on again.
    pub fn count_anew(&mut self)
        ensures { self.new ≡ record { line = self.old.line; answered = 0; lacked_memory = false } }
    {
        self.answered = 0;
        self.lacked_memory = false;
    }

    /// The end of the session, by a `QUIT` or without one.
    pub fn done(&self, quit: bool) -> Done
        ensures { result ≡ record { answered = self.now.answered; quit = quit; lacked_memory = self.now.lacked_memory } }
    {
        Done {
            answered: self.answered,
            quit,
            lacked_memory: self.lacked_memory,
        }
    }

    /// Answers the lines of a reader up to a `QUIT` or to the end of the input, and says whether it was a `QUIT`.
    pub fn serve<A: Answers, R: KnownReader, W: KnownWriter>(
        &mut self,
        answers: &mut A,
        reader: &mut R,
        writer: &mut W,
    ) -> Result<bool, Stop>
        requires line { self.old.line ≡ [] }
        requires answered { self.old.answered ≡ 0 }
        requires lacked { self.old.lacked_memory ≡ false }
        ensures ends { IfOk result (Finishes A.Serves (at self.old answers.old (W.contents writer.old)) (R.remaining reader.old) (R.remaining reader.new)
            (at self.new answers.new (W.contents writer.new))) }
        ensures fails { IfErr result (StopsAs A.Serves (at self.old answers.old (W.contents writer.old)) (R.remaining reader.old) (R.remaining reader.new)
            (at self.new answers.new (W.contents writer.new))) }
        ensures ran { Ran A.Serves answers.old answers.new }
        ensures ended { IfOk result (λ quit. quit ≡ false → IsLastFill R.MayAnswer (ShowsNothing R.MayAnswer) reader.old reader.new) }
        ensures cause { IfErr result (λ stop. IsStop R.MayAnswer W.MayAnswer stop reader.old reader.new writer.new) }
    {
        for _ in 0..MOST_FILLS {
            match self.turn(answers, reader, writer)? {
                Fill::More => {}
                Fill::End => {
                    self.end(answers, writer)?;
                    return Ok(false);
                }
                Fill::Quit => return Ok(true),
            }
        }
        Err(Stop::NoMoreFills)
    }

    /// Takes what one fill of the reader's buffer shows.
    fn turn<A: Answers, R: KnownReader, W: KnownWriter>(
        &mut self,
        answers: &mut A,
        reader: &mut R,
        writer: &mut W,
    ) -> Result<Fill, Stop>
        requires begun { has_newline self.old.line ≡ false }
        requires count { self.old.answered + 2 ^ 64 < 2 ^ 128 }
        ensures line { OnOk result (has_newline self.new.line ≡ false) }
        ensures counted { OnOk result (self.new.answered ≤ self.old.answered + 2 ^ 64) }
        ensures brings { IfOk result (Fills A.Serves (at self.old answers.old (W.contents writer.old)) (R.remaining reader.old) (R.remaining reader.new)
            (at self.new answers.new (W.contents writer.new))) }
        ensures loses { IfErr result (FailsAs A.Serves (at self.old answers.old (W.contents writer.old)) (R.remaining reader.old) (R.remaining reader.new)
            (at self.new answers.new (W.contents writer.new))) }
        ensures ran { Ran A.Serves answers.old answers.new }
        ensures filled { IfOk result (λ fill. fill ≢ Fill.End → IsFill R.MayAnswer reader.old reader.new) }
        ensures ended { IfOk result (λ fill. fill ≡ Fill.End → ShowsNothing R.MayAnswer reader.old reader.new) }
        ensures cause { IfErr result (λ stop. IsStopOfFill R.MayAnswer W.MayAnswer stop reader.old reader.new writer.new) }
    {
        let shown = match reader.ask_to_fill() {
            Ok(shown) => shown,
            Err(error) => {
                unless_interrupted(&error)?;
                return Ok(Fill::More);
            }
        };
        if shown.is_empty() {
            return Ok(Fill::End);
        }
        let len = shown.len();
        match self.take(answers, shown, writer)? {
            None => {
                reader.ask_to_consume(len);
                Ok(Fill::More)
            }
            Some(left) => {
                reader.ask_to_consume(len - left);
                Ok(Fill::Quit)
            }
        }
    }

    /// Takes the bytes, and answers each line that ends in them. Where one asks to quit, the answer
    /// is how many bytes are left after it.
    pub fn take<A: Answers, W: KnownWriter>(
        &mut self,
        answers: &mut A,
        bytes: &[u8],
        writer: &mut W,
    ) -> Result<Option<usize>, Stop>
        requires begun { has_newline self.old.line ≡ false }
        requires count { self.old.answered + length bytes.now < 2 ^ 128 }
        ensures line { OnOk result (has_newline self.new.line ≡ false) }
        ensures all { IfOk result (λ left. IfNone left (Advances A.Serves (facing (at self.old answers.old (W.contents writer.old)) bytes.now)
            (at self.new answers.new (W.contents writer.new)))) }
        ensures quit { IfOk result (λ left. IfSome left (λ n. TakesToQuit A.Serves (at self.old answers.old (W.contents writer.old)) bytes.now n
            (at self.new answers.new (W.contents writer.new)))) }
        ensures within { IfOk result (λ left. IfSome left (λ n. n ≤ length bytes.now)) }
        ensures over { IfOk result (λ left. IfSome left (λ _. self.new.line ≡ [])) }
        ensures counted { OnOk result (self.new.answered ≤ self.old.answered + length bytes.now) }
        ensures breaks { OnErr result (Breaks A.Serves (facing (at self.old answers.old (W.contents writer.old)) bytes.now)
            (at self.new answers.new (W.contents writer.new))) }
        ensures ran { Ran A.Serves answers.old answers.new }
        ensures cause { IfErr result (λ stop. IsWriteStop W.MayAnswer stop writer.new) }
    {
        let mut ahead = bytes;
        while let Some((text, rest)) = cut(ahead) {
            if self.end_line(answers, text, writer)? {
                return Ok(Some(rest.len()));
            }
            ahead = rest;
        }
        self.line.extend(ahead);
        Ok(None)
    }

    /// Answers the line that ends with this text, and says whether it asked to quit.
    fn end_line<A: Answers, W: KnownWriter>(
        &mut self,
        answers: &mut A,
        text: &[u8],
        writer: &mut W,
    ) -> Result<bool, Stop>
        requires begun { has_newline self.old.line ≡ false }
        requires text { has_newline text.now ≡ false }
        requires count { self.old.answered + 1 < 2 ^ 128 }
        ensures line { OnOk result (self.new.line ≡ []) }
        ensures ends { IfOk result (λ quit. EndsLine A.Serves (at self.old answers.old (W.contents writer.old)) text.now (at self.new answers.new (W.contents writer.new)) quit) }
        ensures counted { OnOk result (self.new.answered ≡ self.old.answered + 1) }
        ensures breaks { OnErr result ((rest : List ℕ) → Breaks A.Serves (facing (at self.old answers.old (W.contents writer.old)) (text.now ++ 10 ∷ rest))
            (at self.new answers.new (W.contents writer.new))) }
        ensures ran { Ran A.Serves answers.old answers.new }
        ensures cause { IfErr result (λ stop. IsWriteStop W.MayAnswer stop writer.new) }
    {
        let request = self.line.finish(text);
        self.answer(answers, request, writer)?;
        Ok(request.is_quit())
    }

    /// Answers what no newline ended.
    pub fn end<A: Answers, W: KnownWriter>(
        &mut self,
        answers: &mut A,
        writer: &mut W,
    ) -> Result<(), Stop>
        requires count { self.old.answered + 1 < 2 ^ 128 }
        ensures ends { OnOk result (EndsRest A.Serves (at self.old answers.old (W.contents writer.old)) (at self.new answers.new (W.contents writer.new))) }
        ensures falters { OnErr result (FaltersAtRest A.Serves (at self.old answers.old (W.contents writer.old)) (at self.new answers.new (W.contents writer.new))) }
        ensures ran { Ran A.Serves answers.old answers.new }
        ensures cause { IfErr result (λ stop. IsWriteStop W.MayAnswer stop writer.new) }
    {
        let rest = self.line.as_slice();
        if rest.is_empty() {
            return Ok(());
        }
        let request = request_of_rest(rest);
        self.answer(answers, request, writer)
    }

    /// Answers one request.
    fn answer<A: Answers, W: KnownWriter>(
        &mut self,
        answers: &mut A,
        request: Request,
        writer: &mut W,
    ) -> Result<(), Stop>
        requires asked { IsAsked request }
        requires count { self.old.answered + 1 < 2 ^ 128 }
        ensures line { self.new.line ≡ self.old.line }
        ensures replies { OnOk result (Replies A.Serves request (at self.old answers.old (W.contents writer.old)) (at self.new answers.new (W.contents writer.new))) }
        ensures falters { OnErr result (Falters A.Serves request (at self.old answers.old (W.contents writer.old)) (at self.new answers.new (W.contents writer.new))) }
        ensures ran { Ran A.Serves answers.old answers.new }
        ensures cause { IfErr result (λ stop. IsWriteStop W.MayAnswer stop writer.new) }
    {
        let reply = answers.answer(request);
        match send(writer, &reply) {
            Ok(()) => {
                self.answered += 1;
                self.lacked_memory |= lacks_memory(&reply);
                Ok(())
            }
            Err(failure) => Err(Stop::Write(failure)),
        }
    }
}

/// Whether a request was refused because memory ran out.
fn lacks_memory(reply: &SpelledReply) -> bool
    ensures { result ≡ lacks_memory reply.now }
{
    matches!(reply, SpelledReply::No(Refusal::Memory))
}
