//! What a line of a server says.
ghost use Rattle.std.specs.Prelude.{◌≡◌, ◌≤◌, option_copied, option_map, IfSome};
ghost use Rattle.std.specs.Option.{option_and_then};
ghost use Rattle.pay_nats.specs.Frames.{is_text};
ghost use Rattle.pay_nats.specs.Parts.{is_space, parted};
ghost use Rattle.pay_nats.specs.Reading.{headed_words, headers_of, if_subject, if_text, last_words, meaning_by_verb, meaning_of, meaning_of_word, meaning_of_words, message_words, reply_of, verb_of};
ghost use Rattle.pay_nats.specs.SeenParts.{seen_meaning, seen_words};

use crate::frame::Frame;
use crate::parts::parted;
use crate::sizes::Sizes;
use crate::subject::{if_text, is_subject};
use pay_numeral::number_of;

/// What a line says.
#[derive(Clone, Copy)]
pub(crate) enum Meaning<'a> {
    /// All of a frame.
    Whole(Frame<'a>),
    /// That so many bytes follow.
    Sized(Sizes<'a>),
}

/// The words of a message's line, the first apart.
#[derive(Clone, Copy)]
struct Words<'a> {
    subject: &'a [u8],
    sid: &'a [u8],
    reply: Option<&'a [u8]>,
    headers: Option<&'a [u8]>,
    total: &'a [u8],
}

/// What a line says, if it is a server's.
pub(crate) fn meaning_of(line: &[u8]) -> Option<Meaning<'_>>
    ensures { option_map seen_meaning result ≡ meaning_of line.now }
{
    match parted(line, b' ') {
        Some((verb, text)) => meaning_by_verb(verb_of(verb)?, text),
        None => meaning_of_word(line),
    }
}

/// What a line of one word says.
#[tactic(auto, unfolding(crate::specs::Reading::meaning_of_word))]
fn meaning_of_word(word: &[u8]) -> Option<Meaning<'static>>
    ensures { option_map seen_meaning result ≡ meaning_of_word word.now }
{
    match word {
        b"PING" => Some(Meaning::Whole(Frame::Ping)),
        b"PONG" => Some(Meaning::Whole(Frame::Pong)),
        b"+OK" => Some(Meaning::Whole(Frame::Done)),
        _ => None,
    }
}

/// The first word of a line of two words or more.
#[derive(Clone, Copy)]
enum Verb {
    Message,
    Headed,
    Info,
    Fault,
}

#[tactic(auto, unfolding(crate::specs::Reading::verb_of))]
fn verb_of(word: &[u8]) -> Option<Verb>
    ensures { result ≡ verb_of word.now }
{
    match word {
        b"MSG" => Some(Verb::Message),
        b"HMSG" => Some(Verb::Headed),
        b"INFO" => Some(Verb::Info),
        b"-ERR" => Some(Verb::Fault),
        _ => None,
    }
}

/// What a line says by its first word and what stands after it.
fn meaning_by_verb(verb: Verb, text: &[u8]) -> Option<Meaning<'_>>
    ensures { option_map seen_meaning result ≡ meaning_by_verb text.now verb }
{
    match verb {
        Verb::Message => meaning_of_words(message_words(text)?),
        Verb::Headed => meaning_of_words(headed_words(text)?),
        Verb::Info => Some(Meaning::Whole(Frame::Info(if_text(text)?))),
        Verb::Fault => Some(Meaning::Whole(Frame::Fault(if_text(text)?))),
    }
}

/// The words of a `MSG`.
#[tactic(auto, unfolding(crate::specs::Reading::message_words))]
fn message_words(text: &[u8]) -> Option<Words<'_>>
    ensures { option_map seen_words result ≡ message_words text.now }
{
    let (subject, rest) = parted(text, b' ')?;
    let (sid, rest) = parted(rest, b' ')?;
    let (reply, total) = last_words(rest);
    Some(Words {
        subject,
        sid,
        reply,
        headers: None,
        total,
    })
}

/// The words of a `MSG` after the number of the subscription.
fn last_words(text: &[u8]) -> (Option<&[u8]>, &[u8])
    ensures { (option_copied result.0, result.1.now) ≡ last_words text.now (parted is_space text.now) }
{
    match parted(text, b' ') {
        Some((reply, total)) => (Some(reply), total),
        None => (None, text),
    }
}

/// The words of an `HMSG`.
#[tactic(auto, unfolding(crate::specs::Reading::headed_words))]
fn headed_words(text: &[u8]) -> Option<Words<'_>>
    ensures { option_map seen_words result ≡ headed_words text.now }
{
    let (subject, rest) = parted(text, b' ')?;
    let (sid, rest) = parted(rest, b' ')?;
    let (word, rest) = parted(rest, b' ')?;
    Some(match parted(rest, b' ') {
        Some((headers, total)) => Words {
            subject,
            sid,
            reply: Some(word),
            headers: Some(headers),
            total,
        },
        None => Words {
            subject,
            sid,
            reply: None,
            headers: Some(word),
            total: rest,
        },
    })
}

/// What the words of a message's line say.
#[tactic(auto, unfolding(crate::specs::Reading::meaning_of_words))]
fn meaning_of_words(words: Words<'_>) -> Option<Meaning<'_>>
    ensures { option_map seen_meaning result ≡ meaning_of_words (seen_words words.entry) }
{
    let subject = if_subject(words.subject)?;
    let sid = number_of(words.sid)?;
    let reply = reply_of(words.reply)?;
    let total = number_of(words.total)?;
    let headers = headers_of(total, words.headers)?;
    Some(Meaning::Sized(Sizes {
        subject,
        sid,
        reply,
        headers,
        total,
    }))
}

/// Some bytes, if they are a subject.
fn if_subject(name: &[u8]) -> Option<&[u8]>
    ensures { option_copied result ≡ if_subject name.now }
{
    if is_subject(name) { Some(name) } else { None }
}

/// A subject for an answer, if there is none or it is a subject.
fn reply_of(reply: Option<&[u8]>) -> Option<Option<&[u8]>>
    ensures { option_map option_copied result ≡ reply_of (option_copied reply.entry) }
{
    match reply {
        Some(name) => Some(Some(if_subject(name)?)),
        None => Some(None),
    }
}

/// How many bytes the headers have, of so many in all.
fn headers_of(total: u64, word: Option<&[u8]>) -> Option<Option<u64>>
    ensures value { result ≡ headers_of total (option_copied word.entry) }
    ensures within { IfSome result (λ headers. IfSome headers (λ bytes. bytes ≤ total)) }
{
    match word {
        Some(word) => {
            let headers = number_of(word)?;
            if headers <= total {
                Some(Some(headers))
            } else {
                None
            }
        }
        None => Some(None),
    }
}
