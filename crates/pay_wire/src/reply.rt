//! Replies as lines.
ghost use Rattle.std.specs.Prelude.{◌≡◌, ◌+◌, ◌++◌, ◌∷◌, [], ◌*◌, ◌≤◌, ◌<◌, length, map, decimal};
ghost use Rattle.arrayvec.specs.ArrayVec.{array_vec_len};
ghost use Rattle.pay_wire.specs.Replies.{line_of_words, text_of_fields, words_of_priced, words_of_shown, words_of_share, words_of_shares, words_of_quote, words_of_due, words_of_posting, words_of_closed, words_of_refusal, words_of_reply, words_of_journey, postings_of_reply, journeys_of_reply};

use crate::refusal::Refusal;
use arrayvec::ArrayVec;
use itoa::{Buffer, Integer};
use pay_money::limits::OPERATORS;
use pay_rules::{BoxedQuote, Line, Posting, Postings, Priced, Quote, Shown};

/// No line of a reply is longer, its newline among its bytes.
pub const REPLY_BYTES: usize = 514;

/// No number of 64 bits has a longer numeral, its sign among it.
const NUMBER_BYTES: usize = 20;

/// A space, the two digits of an operator, `=` and a number.
const SHARE_BYTES: usize = 24;

/// A line of a reply.
pub type SpelledLine = ArrayVec<u8, REPLY_BYTES>;

/// What a close posted.
#[derive(Drop)]
pub struct Closed {
    /// The service day, counted from 1970-01-01.
    pub day: u32,
    /// The postings, in the order of their lines.
    pub postings: Postings,
}

/// The reply to a line.
#[derive(Drop)]
pub enum SpelledReply {
    /// A tap was accepted.
    Priced(Priced),
    /// The journeys of a service day.
    Shown(Shown),
    /// What an account owes for a week through one of its days.
    Due(BoxedQuote),
    /// What a close posted.
    Closed(Closed),
    /// The line was refused.
    No(Refusal),
    /// The session ends.
    Bye,
}

impl SpelledReply {
    /// The postings that have lines of their own before the line that each reply has.
    pub(crate) fn postings(&self) -> &[Posting]
        ensures { result.now ≡ postings_of_reply self.now }
    {
        match self {
            SpelledReply::Closed(closed) => closed.postings.as_slice(),
            SpelledReply::Priced(_)
            | SpelledReply::Shown(_)
            | SpelledReply::Due(_)
            | SpelledReply::No(_)
            | SpelledReply::Bye => &[],
        }
    }

    /// The journeys that have lines of their own after the line that each reply has.
    pub(crate) fn journeys(&self) -> &[Line]
        ensures { result.now ≡ journeys_of_reply self.now }
    {
        match self {
            SpelledReply::Shown(shown) => shown.lines.as_slice(),
            SpelledReply::Priced(_)
            | SpelledReply::Due(_)
            | SpelledReply::Closed(_)
            | SpelledReply::No(_)
            | SpelledReply::Bye => &[],
        }
    }
}

/// Renders the line that each reply has into an empty one, newline included.
pub(crate) fn render_main_line(line: &mut SpelledLine, reply: &SpelledReply)
    requires { line.old.items ≡ [] }
    ensures { line.new.items ≡ line_of_words (words_of_reply reply.now) }
{
    match reply {
        SpelledReply::Priced(priced) => render_priced(line, priced),
        SpelledReply::Shown(shown) => render_shown(line, shown),
        SpelledReply::Due(quote) => render_due(line, quote.quote()),
        SpelledReply::Closed(closed) => render_closed(line, closed),
        SpelledReply::No(refusal) => render_refusal(line, *refusal),
        SpelledReply::Bye => begin(line, b"BYE\n"),
    }
}

/// Renders the line of a posting into an empty one, newline included.
#[tactic(auto, using(crate::proofs::Fields::posting_fields))]
pub(crate) fn render_posting(line: &mut SpelledLine, posting: &Posting)
    requires { line.old.items ≡ [] }
    ensures { line.new.items ≡ line_of_words (words_of_posting posting.now) }
{
    begin(line, b"PAY");
    put_quote(line, &posting.quote);
    put_field(line, posting.amount);
    put_shares(line, &posting.share_amounts);
    put(line, b"\n");
}

/// Renders the line of a journey into an empty one, newline included.
pub(crate) fn render_journey(line: &mut SpelledLine, journey: &Line)
    requires { line.old.items ≡ [] }
    ensures { line.new.items ≡ line_of_words (words_of_journey journey.now) }
{
    begin(line, b"JNY ");
    put(line, journey.kind.word());
    put_field(line, journey.from);
    put_field(line, journey.to);
    put_field(line, journey.utc);
    put_field(line, journey.fare.pence());
    put(line, b"\n");
}

fn render_shown(line: &mut SpelledLine, shown: &Shown)
    requires { line.old.items ≡ [] }
    ensures { line.new.items ≡ line_of_words (words_of_shown shown.now) }
{
    begin(line, b"SHOW");
    put_field(line, shown.account);
    put_field(line, shown.day);
    put_field(line, shown.lines.as_slice().len());
    put_field(line, shown.day_price.pence());
    put(line, b"\n");
}

fn render_priced(line: &mut SpelledLine, priced: &Priced)
    requires { line.old.items ≡ [] }
    ensures { line.new.items ≡ line_of_words (words_of_priced priced.now) }
{
    if priced.again {
        begin(line, b"AGAIN ");
    } else {
        begin(line, b"OK ");
    }
    put_number(line, priced.day);
    put(line, b" ");
    put_number(line, priced.day_price.pence());
    put(line, b" ");
    put_number(line, priced.week_price.pence());
    put(line, b"\n");
}

fn render_closed(line: &mut SpelledLine, closed: &Closed)
    requires { line.old.items ≡ [] }
    ensures { line.new.items ≡ line_of_words (words_of_closed closed.now) }
{
    begin(line, b"DONE ");
    put_number(line, closed.day);
    put(line, b" ");
    put_number(line, closed.postings.as_slice().len());
    put(line, b"\n");
}

#[tactic(auto, using(crate::proofs::Fields::due_fields))]
fn render_due(line: &mut SpelledLine, quote: &Quote)
    requires { line.old.items ≡ [] }
    ensures { line.new.items ≡ line_of_words (words_of_due quote.now) }
{
    begin(line, b"DUE");
    put_quote(line, quote);
    put_shares(line, quote.shares());
    put(line, b"\n");
}

fn render_refusal(line: &mut SpelledLine, refusal: Refusal)
    requires { line.old.items ≡ [] }
    ensures { line.new.items ≡ line_of_words (words_of_refusal refusal) }
{
    begin(line, b"NO ");
    put_number(line, refusal.number());
    put(line, b" ");
    put(line, refusal.name().as_bytes());
    put(line, b"\n");
}

/// Begins an empty line.
pub(crate) fn begin(line: &mut SpelledLine, text: &[u8])
    requires empty { line.old.items ≡ [] }
    requires room { length text.now ≤ REPLY_BYTES }
    ensures { line.new.items ≡ text.now }
{
    put(line, text);
}

/// Puts a quote at the end of a line: the account, the week, its last day, the version and what is due.
#[tactic(auto, using(crate::proofs::Fields::quote_fields))]
fn put_quote(line: &mut SpelledLine, quote: &Quote)
    requires { array_vec_len line.old + 5 * (1 + NUMBER_BYTES) ≤ REPLY_BYTES }
    ensures items { line.new.items ≡ line.old.items ++ text_of_fields (words_of_quote quote.now) }
    ensures len { array_vec_len line.new ≤ array_vec_len line.old + 5 * (1 + NUMBER_BYTES) }
{
    put_field(line, quote.account());
    put_field(line, quote.week());
    put_field(line, quote.through());
    put_field(line, quote.version());
    put_field(line, quote.due().pence());
}

/// Puts a number at the end of a line, in decimal.
fn put_number<I: Integer>(line: &mut SpelledLine, number: I)
    requires short { I.MAX_STR_LEN ≤ NUMBER_BYTES }
    requires room { array_vec_len line.old + NUMBER_BYTES ≤ REPLY_BYTES }
    ensures items { line.new.items ≡ line.old.items ++ I.text number }
    ensures len { array_vec_len line.new ≤ array_vec_len line.old + NUMBER_BYTES }
{
    let mut buffer = Buffer::new();
    put(line, buffer.format(number).as_bytes());
}

/// Puts a space and a number at the end of a line.
pub(crate) fn put_field<I: Integer>(line: &mut SpelledLine, number: I)
    requires short { I.MAX_STR_LEN ≤ NUMBER_BYTES }
    requires room { array_vec_len line.old + 1 + NUMBER_BYTES ≤ REPLY_BYTES }
    ensures items { line.new.items ≡ line.old.items ++ 32 ∷ I.text number }
    ensures len { array_vec_len line.new ≤ array_vec_len line.old + 1 + NUMBER_BYTES }
{
    put(line, b" ");
    put_number(line, number);
}

/// Puts the shares that are not 0 at the end of a line, in the order of their operators.
fn put_shares<I: Integer>(line: &mut SpelledLine, shares: &[I; OPERATORS])
    requires short { I.MAX_STR_LEN ≤ NUMBER_BYTES }
    requires room { array_vec_len line.old + OPERATORS * SHARE_BYTES ≤ REPLY_BYTES }
    ensures items { line.new.items ≡ line.old.items ++ text_of_fields (words_of_shares 1 (map I.text shares.now)) }
    ensures len { array_vec_len line.new ≤ array_vec_len line.old + OPERATORS * SHARE_BYTES }
{
    for (i, share) in shares.iter().enumerate() {
        put_share(line, i, *share);
    }
}

/// Puts a space, the operator of a place, `=` and its share at the end of a line, or nothing where the share is 0.
/// Places count from 0, and operators from 1.
#[tactic(auto, using(crate::proofs::ShareWords::operator_short))]
fn put_share<I: Integer>(line: &mut SpelledLine, place: usize, share: I)
    requires operator { place < OPERATORS }
    requires short { I.MAX_STR_LEN ≤ NUMBER_BYTES }
    requires room { array_vec_len line.old + SHARE_BYTES ≤ REPLY_BYTES }
    ensures items { line.new.items ≡ line.old.items ++ text_of_fields (words_of_share (place + 1) (I.text share)) }
    ensures len { array_vec_len line.new ≤ array_vec_len line.old + SHARE_BYTES }
{
    let mut buffer = Buffer::new();
    let numeral = buffer.format(share).as_bytes();
    if numeral == b"0".as_slice() {
        return;
    }
    put_field(line, place as u64 + 1);
    put(line, b"=");
    put(line, numeral);
}

/// Puts bytes at the end of a line.
pub(crate) fn put(line: &mut SpelledLine, text: &[u8])
    requires { array_vec_len line.old + length text.now ≤ REPLY_BYTES }
    ensures items { line.new.items ≡ line.old.items ++ text.now }
    ensures len { array_vec_len line.new ≡ array_vec_len line.old + length text.now }
{
    if line.try_extend_from_slice(text).is_err() {
        unreachable!();
    }
}
