//! Commands as lines.
ghost use Rattle.std.specs.Prelude.{◌≡◌, ◌≤◌, ◌<◌, ◌^◌, ◌∷◌, Some, IfSome, option_map};
ghost use Rattle.std.specs.List.{position_or_len};
ghost use Rattle.pay_wire.specs.Fields.{is_space, words, words_after, has_none, field};
ghost use Rattle.pay_wire.specs.Commands.{number_within, kind_of_word, tap_of, named_of, fill_of, credit_of, form_of_word, what_for, what_of, fix_of, account_day_of, day_of, keyword_of, command_for, command_of};
ghost use Rattle.pay_wire.specs.Spellings.{IsSpelled};

use crate::limits::{MOST_ACCOUNT, MOST_PLACE, MOST_READER, MOST_SEQ, MOST_STAFF, MOST_UTC};
use crate::number::read_number;
use pay_day::limits::{FIRST_DAY, LAST_DAY};
use pay_rules::Kind;
use pay_rules::limits::MOST_CREDIT;

/// A tap as a line spells it. Its `utc` may lie outside of the instants that are taken.
#[derive(Clone, Copy, Debug, PartialEq, Eq)]
pub struct SpelledTap {
    /// The reader that was tapped, from 1.
    pub reader: u16,
    /// The tap's number among those of the reader.
    pub seq: u32,
    /// The account that pays, from 1.
    pub account: u32,
    /// Seconds of the Unix clock.
    pub utc: u64,
    /// The station, or the route of a bus or a tram, from 1.
    pub place: u16,
    /// `IN`, `OUT` or `BUS`.
    pub kind: Kind,
}

/// A correction as a line spells it.
#[derive(Clone, Copy, Debug, PartialEq, Eq)]
pub struct SpelledFix {
    /// Who gave the correction, from 1.
    pub staff: u16,
    /// The correction's number among those of the staff.
    pub seq: u32,
    /// The account that is corrected, from 1.
    pub account: u32,
    /// What it does.
    pub what: SpelledWhat,
}

/// Money that is given back for a service day, as a line spells it.
#[derive(Clone, Copy, Debug, PartialEq, Eq)]
pub struct SpelledCredit {
    /// The service day, counted from 1970-01-01.
    pub day: u32,
    /// The pence.
    pub pence: u32,
}

/// What a correction does, as a line spells it.
#[derive(Clone, Copy, Debug, PartialEq, Eq)]
pub enum SpelledWhat {
    /// `VOID reader seq`: takes out the tap of a reader and seq.
    Void(u16, u32),
    /// `FILL utc place KIND`: adds a tap. Its `utc` may lie outside of the instants that are taken.
    Fill { utc: u64, place: u16, kind: Kind },
    /// `CREDIT day pence`: gives money back for a service day.
    Credit(SpelledCredit),
    /// `DROP staff seq`: withdraws the correction of a staff and seq.
    Drop(u16, u32),
}

/// What a line asks for.
#[derive(Clone, Copy, Debug, PartialEq, Eq)]
pub enum SpelledCommand {
    /// `TAP reader seq account utc place KIND`: a tap.
    Tap(SpelledTap),
    /// `FIX staff seq account`, and what it does: a correction.
    Fix(SpelledFix),
    /// `DUE account day`: what an account owes for the week of a service day, through that day.
    Due { account: u32, day: u32 },
    /// `SHOW account day`: the journeys of a service day.
    Show { account: u32, day: u32 },
    /// `CLOSE day`: the posting of what is due for the week of a service day, through that day.
    Close { day: u32 },
    /// `QUIT`: the end of the session.
    Quit,
}

/// The first word of a command.
#[derive(Clone, Copy)]
enum Keyword {
    Tap,
    Fix,
    Due,
    Show,
    Close,
    Quit,
}

/// The word that says what a correction does.
#[derive(Clone, Copy)]
enum Form {
    Void,
    Fill,
    Credit,
    Drop,
}

/// The command that a line spells, without its newline. `None` is a bad line: words stand with one
/// space between them and none at either end, numbers are as `read_number` takes them, and each is in
/// the range that the command names.
#[tactic(auto, using(crate::proofs::Spelled::in_range))]
pub fn read_command(line: &[u8]) -> Option<SpelledCommand>
    ensures value { result ≡ command_of line.now }
    ensures in_range { IfSome result IsSpelled }
{
    let (name, fields) = split_word(line);
    command_after(read_keyword(name)?, fields)
}

/// The command of a keyword and the fields after it.
fn command_after(keyword: Keyword, fields: &[u8]) -> Option<SpelledCommand>
    ensures { result ≡ command_for keyword (words_after fields.now) }
{
    match keyword {
        Keyword::Tap => Some(SpelledCommand::Tap(read_tap(fields)?)),
        Keyword::Fix => Some(SpelledCommand::Fix(read_fix(fields)?)),
        Keyword::Due => {
            let (account, day) = read_account_day(fields)?;
            Some(SpelledCommand::Due { account, day })
        }
        Keyword::Show => {
            let (account, day) = read_account_day(fields)?;
            Some(SpelledCommand::Show { account, day })
        }
        Keyword::Close => {
            let day = read_day(fields)?;
            Some(SpelledCommand::Close { day })
        }
        Keyword::Quit if is_end(fields) => Some(SpelledCommand::Quit),
        Keyword::Quit => None,
    }
}

fn read_keyword(name: &[u8]) -> Option<Keyword>
    ensures { result ≡ keyword_of name.now }
{
    match name {
        b"TAP" => Some(Keyword::Tap),
        b"FIX" => Some(Keyword::Fix),
        b"DUE" => Some(Keyword::Due),
        b"SHOW" => Some(Keyword::Show),
        b"CLOSE" => Some(Keyword::Close),
        b"QUIT" => Some(Keyword::Quit),
        _ => None,
    }
}

/// The fields of a tap, to the end of the line.
#[tactic(auto, unfolding(crate::specs::Commands::tap_of))]
fn read_tap(fields: &[u8]) -> Option<SpelledTap>
    ensures { result ≡ tap_of (words_after fields.now) }
{
    let (reader, rest) = number_field(fields, 1, MOST_READER)?;
    let (seq, rest) = number_field(rest, 0, MOST_SEQ)?;
    let (account, rest) = number_field(rest, 1, MOST_ACCOUNT)?;
    let (utc, rest) = number_field(rest, 0, MOST_UTC)?;
    let (place, rest) = number_field(rest, 1, MOST_PLACE)?;
    let (kind, rest) = kind_field(rest)?;
    if !is_end(rest) {
        return None;
    }
    Some(SpelledTap {
        reader: reader as u16,
        seq,
        account,
        utc: u64::from(utc),
        place: place as u16,
        kind,
    })
}

/// The fields of a `FIX`, to the end of the line.
#[tactic(auto, unfolding(crate::specs::Commands::fix_of))]
fn read_fix(fields: &[u8]) -> Option<SpelledFix>
    ensures { result ≡ fix_of (words_after fields.now) }
{
    let (staff, rest) = number_field(fields, 1, MOST_STAFF)?;
    let (seq, rest) = number_field(rest, 0, MOST_SEQ)?;
    let (account, rest) = number_field(rest, 1, MOST_ACCOUNT)?;
    let what = read_what(rest)?;
    Some(SpelledFix {
        staff: staff as u16,
        seq,
        account,
        what,
    })
}

/// What a correction does, to the end of the line.
fn read_what(fields: &[u8]) -> Option<SpelledWhat>
    ensures { result ≡ what_of (words_after fields.now) }
{
    let (form, rest) = form_field(fields)?;
    what_after(form, rest)
}

/// What the fields after the word of a form say, to the end of the line.
fn what_after(form: Form, fields: &[u8]) -> Option<SpelledWhat>
    ensures { result ≡ what_for form (words_after fields.now) }
{
    match form {
        Form::Void => {
            let (reader, seq) = read_named(fields, MOST_READER)?;
            Some(SpelledWhat::Void(reader, seq))
        }
        Form::Fill => read_fill(fields),
        Form::Credit => Some(SpelledWhat::Credit(read_credit(fields)?)),
        Form::Drop => {
            let (staff, seq) = read_named(fields, MOST_STAFF)?;
            Some(SpelledWhat::Drop(staff, seq))
        }
    }
}

/// The reader or the staff of a number, up to the greatest, and its seq, to the end of the line.
#[tactic(auto, unfolding(crate::specs::Commands::named_of))]
fn read_named(fields: &[u8], most: u32) -> Option<(u16, u32)>
    requires { most < 2 ^ 16 }
    ensures { result ≡ named_of most (words_after fields.now) }
{
    let (first, rest) = number_field(fields, 1, most)?;
    let (seq, rest) = number_field(rest, 0, MOST_SEQ)?;
    if is_end(rest) {
        Some((first as u16, seq))
    } else {
        None
    }
}

/// The fields of a `FILL`, to the end of the line.
#[tactic(auto, unfolding(crate::specs::Commands::fill_of))]
fn read_fill(fields: &[u8]) -> Option<SpelledWhat>
    ensures { result ≡ fill_of (words_after fields.now) }
{
    let (utc, rest) = number_field(fields, 0, MOST_UTC)?;
    let (place, rest) = number_field(rest, 1, MOST_PLACE)?;
    let (kind, rest) = kind_field(rest)?;
    if !is_end(rest) {
        return None;
    }
    Some(SpelledWhat::Fill {
        utc: u64::from(utc),
        place: place as u16,
        kind,
    })
}

/// The fields of a `CREDIT`, to the end of the line.
#[tactic(auto, unfolding(crate::specs::Commands::credit_of))]
fn read_credit(fields: &[u8]) -> Option<SpelledCredit>
    ensures { result ≡ credit_of (words_after fields.now) }
{
    let (day, rest) = number_field(fields, FIRST_DAY, LAST_DAY)?;
    let (pence, rest) = number_field(rest, 1, MOST_CREDIT)?;
    if is_end(rest) {
        Some(SpelledCredit { day, pence })
    } else {
        None
    }
}

/// The account and the service day of a `DUE` or a `SHOW`, to the end of the line.
#[tactic(auto, unfolding(crate::specs::Commands::account_day_of))]
fn read_account_day(fields: &[u8]) -> Option<(u32, u32)>
    ensures { result ≡ account_day_of (words_after fields.now) }
{
    let (account, rest) = number_field(fields, 1, MOST_ACCOUNT)?;
    let (day, rest) = number_field(rest, FIRST_DAY, LAST_DAY)?;
    if is_end(rest) {
        Some((account, day))
    } else {
        None
    }
}

/// The service day of a `CLOSE`, to the end of the line.
#[tactic(auto, unfolding(crate::specs::Commands::day_of))]
fn read_day(fields: &[u8]) -> Option<u32>
    ensures { result ≡ day_of (words_after fields.now) }
{
    let (day, rest) = number_field(fields, FIRST_DAY, LAST_DAY)?;
    if is_end(rest) { Some(day) } else { None }
}

/// The number in the next word, if it is in the range, and what follows.
fn number_field(fields: &[u8], low: u32, high: u32) -> Option<(u32, &[u8])>
    ensures field { option_map (λ x. (x.0, words_after x.1.now)) result
        ≡ field (number_within low high) (words_after fields.now) }
    ensures in_range { IfSome result (λ x. (low ≤ x.0) × (x.0 ≤ high)) }
{
    if fields.is_empty() {
        return None;
    }
    let (number, rest) = read_number(&fields[1..])?;
    if number < low || number > high {
        return None;
    }
    Some((number, rest))
}

/// The kind of a tap in the next word, and what follows.
fn kind_field(fields: &[u8]) -> Option<(Kind, &[u8])>
    ensures { option_map (λ x. (x.0, words_after x.1.now)) result ≡ field kind_of_word (words_after fields.now) }
{
    let (word, rest) = next_word(fields)?;
    Some((read_kind(word)?, rest))
}

fn read_kind(word: &[u8]) -> Option<Kind>
    ensures { result ≡ kind_of_word word.now }
{
    match word {
        b"IN" => Some(Kind::In),
        b"OUT" => Some(Kind::Out),
        b"BUS" => Some(Kind::Bus),
        _ => None,
    }
}

/// The form of a correction in the next word, and what follows.
fn form_field(fields: &[u8]) -> Option<(Form, &[u8])>
    ensures { option_map (λ x. (x.0, words_after x.1.now)) result ≡ field form_of_word (words_after fields.now) }
{
    let (word, rest) = next_word(fields)?;
    Some((read_form(word)?, rest))
}

fn read_form(word: &[u8]) -> Option<Form>
    ensures { result ≡ form_of_word word.now }
{
    match word {
        b"VOID" => Some(Form::Void),
        b"FILL" => Some(Form::Fill),
        b"DROP" => Some(Form::Drop),
        // A pattern of six bytes is more than the proof's search takes.
        _ if word == b"CREDIT".as_slice() => Some(Form::Credit),
        _ => None,
    }
}

/// The word after the space that stands first, and what follows it.
fn next_word(fields: &[u8]) -> Option<(&[u8], &[u8])>
    ensures { option_map (λ x. (x.0.now, words_after x.1.now)) result ≡ field Some (words_after fields.now) }
{
    if fields.is_empty() {
        return None;
    }
    Some(split_word(&fields[1..]))
}

/// No word follows.
fn is_end(fields: &[u8]) -> bool
    ensures { result ≡ has_none (words_after fields.now) }
{
    fields.is_empty()
}

/// The first word of a line, and the rest from the space after it on.
fn split_word(line: &[u8]) -> (&[u8], &[u8])
    ensures { words line.now ≡ result.0.now ∷ words_after result.1.now }
{
    line.split_at(word_end(line))
}

/// Where the first space stands, or the length.
fn word_end(line: &[u8]) -> usize
    ensures { result ≡ position_or_len is_space line.now }
{
    for (i, byte) in line.iter().enumerate() {
        if *byte == b' ' {
            return i;
        }
    }
    line.len()
}
