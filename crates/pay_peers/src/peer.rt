//! A connection that is held.
ghost use Rattle.std.specs.Prelude.{◌≡◌, ◌<◌, ◌≤◌, string_bytes, ◌++◌, ◌||◌, ℕ, Option, Result, Ok, IsTrue, true, false, [], length, drop, OnOk, IfOk, OnSome, IfSome};
ghost use Rattle.std.specs.Option.{is_some};
ghost use Rattle.pay_day.specs.declared.limits.TheConstants.{FIRST_DAY, LAST_DAY};
ghost use Rattle.pay_shard.specs.Words.{NothingIsLost};
ghost use Rattle.pay_wire.specs.declared.refusal.Refusal.{Refusal};
ghost use Rattle.pay_session.specs.Requests.{has_newline};
ghost use Rattle.pay_session.specs.declared.port.Role.{Role};
ghost use Rattle.pay_session.specs.Words.{HasAnsweredAt, TakesPiece};
ghost use Rattle.pay_session.specs.declared.port.Role.TheVariants as roles;
ghost use Rattle.pay_peers.specs.Backups.{backup_reply};
ghost use Rattle.pay_peers.specs.Fates.{word_in, Lasts};
ghost use Rattle.pay_peers.specs.Greetings.{Greets, RefusesAlone, is_greeted, refusal_of};
ghost use Rattle.pay_peers.specs.Heard.{HasHeard, IsTold};
ghost use Rattle.pay_peers.specs.Lines.{IsTaken, AnswersFront, MayGreet};
ghost use Rattle.pay_peers.specs.OpenWeeks.{IsOpenedAt, open_reply};
ghost use Rattle.pay_peers.specs.Refused.{NotesLine, noted};
ghost use Rattle.pay_peers.specs.Strangers.{is_http, is_no_command, is_strange};
ghost use Rattle.pay_peers.specs.declared.word.Word.{Word};

use crate::aside::Aside;
use crate::fate::{Fate, fate_of};
use crate::greeting::{Greeting, refusal_of};
use crate::limits::{LAST_READS, MOST_UNSENT, TURN_PIECES};
use crate::refused::Refused;
use crate::sending::{empty, send};
use crate::tally::Seat;
use crate::word::{Line, Word};
use mio::net::TcpStream;
use pay_session::{Conversation, Port, cut};
use pay_shard::Desk;
use pay_till::Till;
use pay_wire::{Refusal, SpelledReply, WriteFault};
use std::alloc::{AllocError, Global};
use std::io::{ErrorKind, Read};
use std::net::Shutdown;

/// A connection, what was begun on it, and what was written on it and has not left.
#[derive(Drop)]
pub struct Peer {
    stream: TcpStream,
    seat: Seat,
    conversation: Conversation,
    // The line with which it has to begin, as long as it has not, and if it has to.
    awaited: Option<Greeting>,
    // What was taken of a line that has not ended, as far as a line may go.
    begun: Line,
    /// Its lines that were refused, and are to be kept before their replies leave.
    pub refused: Refused,
    unsent: Vec<u8>,
    // How many bytes of these have left.
    sent: usize,
    // Whether a line was answered.
    known: bool,
    // What was read and not taken yet.
    pending: Vec<u8>,
    // Whether it has a turn to come.
    pub queued: bool,
    // Whether no more lines are taken, and whether the peer knows.
    over: bool,
    told: bool,
    // How many reads of what it still sends are left.
    last_reads: u32,
}

/// Whether a reply says that its line is no command: 50 `BadLine` or 51 `LongLine`.
#[tactic(auto, unfolding(crate::specs::Strangers::is_no_command))]
fn is_no_command(reply: &[u8]) -> bool
    ensures { result ≡ is_no_command reply.now }
{
    reply.starts_with(b"NO 50 ") || reply.starts_with(b"NO 51 ")
}

/// Whether a line begins as a request of HTTP does.
#[tactic(auto, unfolding(crate::specs::Strangers::is_http))]
fn is_http(line: &[u8]) -> bool
    ensures { result ≡ is_http line.now }
{
    line.starts_with(b"GET ")
        || line.starts_with(b"POST ")
        || line.starts_with(b"PUT ")
        || line.starts_with(b"HEAD ")
        || line.starts_with(b"OPTIONS ")
        || line.starts_with(b"DELETE ")
        || line.starts_with(b"PATCH ")
        || line.starts_with(b"CONNECT ")
        || line.starts_with(b"TRACE ")
}

/// Whether a line shows by its reply that its peer speaks another protocol, which may have had a line answered before it.
#[tactic(auto, unfolding(crate::specs::Strangers::is_strange))]
fn is_strange(known: bool, line: &[u8], reply: &[u8]) -> bool
    ensures { result ≡ is_strange known line.now reply.now }
{
    is_no_command(reply) && (!known || is_http(line))
}

/// What stands behind so many bytes.
fn behind(bytes: &[u8], count: usize) -> &[u8]
    ensures { result.now ≡ drop count bytes.now }
{
    match bytes.get(count..) {
        Some(behind) => behind,
        None => &[],
    }
}

/// What becomes of a connection by lines that were taken. Their replies are written to memory, so that alone can have failed.
fn fate_after(taken: Result<Option<Word>, WriteFault>) -> Fate
    ensures { Lasts result → taken ≡ Ok (word_in result) }
{
    match taken {
        Ok(None) => Fate::GoesOn,
        Ok(Some(word)) => Fate::Asks(word),
        Err(_) => Fate::Lost(ErrorKind::OutOfMemory),
    }
}

/// The reply to a backup, with its newline, by how many bytes were copied.
fn backup_reply(alloc: Global, copied: Option<u64>) -> Result<String, AllocError>
    ensures { IfOk result (λ reply. string_bytes reply ≡ backup_reply copied) }
{
    match copied {
        Some(bytes) => format!(in alloc; "OK {bytes}\n"),
        None => String::from_str(alloc, "NO 53 NoBackup\n"),
    }
}

/// The reply to how many accounts are open for a day, with its newline.
fn open_reply(alloc: Global, day: u32, count: u64) -> Result<String, AllocError>
    ensures { IfOk result (λ reply. string_bytes reply ≡ open_reply day (Ok count)) }
{
    format!(in alloc; "OPEN {day} {count}\n")
}

impl Peer {
    /// A connection on which nothing was read or written, and what it has to begin with, if it has to.
    pub fn new(alloc: Global, stream: TcpStream, seat: Seat, greeting: Option<Greeting>) -> Peer
        ensures awaited { result.awaited ≡ greeting }
        ensures begun { result.begun ≡ [] }
        ensures pending { result.pending.items ≡ [] }
    {
        Peer {
            stream,
            seat,
            conversation: Conversation::new(),
            awaited: greeting,
            begun: Line::new(),
            refused: Refused::new(alloc),
            unsent: Vec::new(alloc),
            sent: 0,
            known: false,
            pending: Vec::new(alloc),
            queued: false,
            over: false,
            told: false,
            last_reads: LAST_READS,
        }
    }

    /// Sends what has not left, as far as there is room. Where it goes on, all has left, or there may be room at once.
    fn send(&mut self) -> Fate
        ensures begun { self.new.begun ≡ self.old.begun }
        ensures pending { self.new.pending.items ≡ self.old.pending.items }
        ensures over { self.new.over ≡ self.old.over }
        ensures awaited { self.new.awaited ≡ self.old.awaited }
        ensures no_word { (word : Word) → result ≡ Fate.Asks word → ⊥ }
    {
        send(&mut &self.stream, &mut self.unsent, &mut self.sent)
    }

    /// Says a line to the peer that is no reply of the session.
    pub fn say(&mut self, line: &[u8]) -> Option<()>
        ensures { OnSome result (self.new.unsent.items ≡ self.old.unsent.items ++ line.now) }
    {
        self.unsent.extend_from_slice(line).ok()
    }

    /// Has the ledger copied to a path, and says what came of it.
    pub fn back_up<A: Aside>(&mut self, alloc: Global, path: &[u8], aside: &mut A) -> Option<()>
        ensures { (copied : Option ℕ) × A.Copies aside.old path.now copied aside.new
            × OnSome result (self.new.unsent.items ≡ self.old.unsent.items ++ backup_reply copied) }
    {
        let copied = aside.back_up(path);
        let reply = backup_reply(alloc, copied).ok()?;
        self.say(reply.as_bytes())
    }

    /// Says how many accounts are open for a day, or why that is not known.
    fn say_open(&mut self, alloc: Global, day: u32, answer: Result<u64, Refusal>) -> Option<()>
        ensures { OnSome result (IsTold self.old self.new (open_reply day answer)) }
    {
        match answer {
            Ok(count) => {
                let reply = open_reply(alloc, day, count).ok()?;
                self.say(reply.as_bytes())
            }
            Err(why) => pay_wire::send(&mut self.unsent, &SpelledReply::No(why)).ok(),
        }
    }

    /// Has a till count the accounts that are open for a day, and says what came of it.
    pub fn count_open<D: Desk, T: Till>(
        &mut self,
        alloc: Global,
        day: u32,
        desk: &mut D,
        till: &mut T,
    ) -> Option<()>
        requires { (FIRST_DAY ≤ day) × (day ≤ LAST_DAY) }
        ensures opened { (answer : Result ℕ Refusal) × IsOpenedAt D.parts T.Closes T.Opens (day, answer) (desk.old, till.old) (desk.new, till.new)
            × OnSome result (IsTold self.old self.new (open_reply day answer)) }
        ensures transcript { NothingIsLost (D.parts desk.old).transcript (D.parts desk.new).transcript }
        ensures same_desk { (D.parts desk.new).standing ≡ (D.parts desk.old).standing }
        ensures same_till { T.origin till.new ≡ T.origin till.old }
    {
        let answer = till.open(desk, day);
        self.say_open(alloc, day, answer)
    }

    /// Says that the service ends. No more lines are taken.
    pub fn say_bye(&mut self) -> Option<()> {
        self.over = true;
        self.say(b"BYE\n")
    }

    /// Counts the reply to the begun line that stands behind so many bytes, if one does, and notes the line if it is to be kept. Where
    /// that shows that the peer speaks another protocol, no more lines are taken.
    fn note_reply(&mut self, before: usize) -> Result<(), WriteFault>
        ensures begun { self.new.begun ≡ self.old.begun }
        ensures pending { self.new.pending.items ≡ self.old.pending.items }
        ensures conversation { self.new.conversation ≡ self.old.conversation }
        ensures unsent { self.new.unsent.items ≡ self.old.unsent.items }
        ensures over { self.new.over ≡ (self.old.over || is_strange self.old.known self.old.begun (drop before self.old.unsent.items)) }
        ensures awaited { self.new.awaited ≡ self.old.awaited }
        ensures instant { self.new.refused.instant ≡ self.old.refused.instant }
        ensures noted { OnOk result (self.new.refused.lines.items
            ≡ self.old.refused.lines.items ++ noted self.old.refused.instant (drop before self.old.unsent.items) self.old.begun) }
    {
        let line = self.begun.text();
        let reply = behind(&self.unsent, before);
        self.over |= is_strange(self.known, line, reply);
        self.known |= !reply.is_empty();
        self.seat.tally().count(line, reply);
        self.refused
            .note(reply, line)
            .map_err(|_| WriteFault::Failed(ErrorKind::OutOfMemory))
    }

    /// Refuses the begun line, which is not the one that is awaited. No more lines are taken.
    fn refuse(&mut self) -> Result<(), WriteFault>
        ensures awaited { self.new.awaited ≡ self.old.awaited }
        ensures pending { self.new.pending.items ≡ self.old.pending.items }
        ensures over { self.new.over ≡ true }
        ensures refused { OnOk result (self.new.unsent.items ≡ self.old.unsent.items ++ refusal_of self.old.begun) }
        ensures noted { OnOk result (self.new.refused.lines.items
            ≡ self.old.refused.lines.items ++ noted self.old.refused.instant (drop (length self.old.unsent.items) self.new.unsent.items) self.old.begun) }
    {
        self.over = true;
        let before = self.unsent.len();
        self.unsent
            .extend_from_slice(refusal_of(self.begun.text()))
            .map_err(|_| WriteFault::Failed(ErrorKind::OutOfMemory))?;
        self.note_reply(before)
    }

    /// Whether it has to begin with a line, and did not yet.
    fn awaits(&self) -> bool
        ensures value { result ≡ is_some self.now.awaited }
        ensures line { IfSome self.now.awaited MayGreet }
    {
        match &self.awaited {
            Some(greeting) => {
                greeting.text();
                true
            }
            None => false,
        }
    }

    /// Whether the begun line is the one that is awaited.
    fn is_awaited(&self) -> bool
        ensures { IsTrue result → self.now.awaited ≡ Some self.now.begun }
    {
        match &self.awaited {
            Some(greeting) => greeting.text() == self.begun.text(),
            None => false,
        }
    }

    /// Takes what a piece has of the line that is awaited, and says what stands behind that: all of it where none is.
    fn greet<'v>(&mut self, piece: &'v [u8]) -> Result<&'v [u8], WriteFault>
        ensures pending { self.new.pending.items ≡ self.old.pending.items }
        ensures over { self.new.over ≡ false → self.old.over ≡ false }
        ensures awaited { is_some self.new.awaited ≡ true → self.new.awaited ≡ self.old.awaited }
        ensures greeted { self.new.awaited ≡ None → is_greeted self.old.awaited (self.old.begun ++ piece.now) ≡ true }
        ensures taken { IfOk result (λ behind. self.new.over ≡ false → (role : Role) → IsTaken role self.old.begun piece.now None self.new.begun behind.now) }
        ensures greets { IfOk result (λ behind. self.new.over ≡ false → Greets (self.old.awaited, self.old.begun) piece.now (self.new.awaited, self.new.begun, behind.now)) }
        ensures all { IfOk result (λ behind. is_some self.new.awaited ≡ true → self.new.over ≡ false → behind.now ≡ []) }
        ensures alone { OnOk result (self.old.over ≡ false → RefusesAlone self.new.over self.old.unsent.items self.new.unsent.items) }
    {
        if !self.awaits() {
            return Ok(piece);
        }
        let Some((text, behind)) = cut(piece) else {
            self.begun.extend(piece);
            return Ok(&piece[piece.len()..]);
        };
        self.begun.extend(text);
        if !self.is_awaited() {
            self.refuse()?;
            return Ok(behind);
        }
        self.awaited = None;
        self.begun.clear();
        Ok(behind)
    }

    /// Has the conversation take a line, or a part of one, and answer it.
    fn answer<D: Desk, T: Till>(
        &mut self,
        part: &[u8],
        port: Port<'_>,
        desk: &mut D,
        till: &mut T,
    ) -> Result<(), WriteFault>
        ensures served { HasAnsweredAt D.parts T.Closes (port.entry.zone.now, port.entry.role) (desk.old, till.old) (desk.new, till.new) }
        ensures same_till { T.origin till.new ≡ T.origin till.old }
        ensures begun { self.new.begun ≡ self.old.begun }
        ensures pending { self.new.pending.items ≡ self.old.pending.items }
        ensures over { self.new.over ≡ false → self.old.over ≡ false }
        ensures awaited { self.new.awaited ≡ self.old.awaited }
        ensures answered { OnOk result (self.new.over ≡ false → TakesPiece D.parts T.Closes port.entry part.now
            (desk.old, till.old, self.old.conversation, Some self.old.unsent.items) (desk.new, till.new, self.new.conversation, Some self.new.unsent.items)) }
        ensures instant { self.new.refused.instant ≡ self.old.refused.instant }
        ensures noted { OnOk result (self.new.refused.lines.items ≡ self.old.refused.lines.items
            ++ noted self.old.refused.instant (drop (length self.old.unsent.items) self.new.unsent.items) self.old.begun) }
    {
        let before = self.unsent.len();
        let left = self
            .conversation
            .take(part, &mut self.unsent, port, desk, till)?;
        self.over |= left.is_some();
        self.note_reply(before)
    }

    /// Takes the first line of some bytes, and says whether it is a word of staff, and what stands behind it. Where no line ends in them it
    /// takes them all.
    fn take_line<'v, D: Desk, T: Till>(
        &mut self,
        bytes: &'v [u8],
        port: Port<'_>,
        desk: &mut D,
        till: &mut T,
    ) -> Result<(Option<Word>, &'v [u8]), WriteFault>
        ensures served { HasAnsweredAt D.parts T.Closes (port.entry.zone.now, port.entry.role) (desk.old, till.old) (desk.new, till.new) }
        ensures same_till { T.origin till.new ≡ T.origin till.old }
        ensures staff { IfOk result (λ taken. IfSome taken.0 (λ _. port.entry.role ≡ roles.All)) }
        ensures taken { IfOk result (λ taken. IsTaken port.entry.role self.old.begun bytes.now taken.0 self.new.begun taken.1.now) }
        ensures answered { IfOk result (λ taken. taken.0 ≡ None → self.new.over ≡ false → AnswersFront D.parts T.Closes port.entry bytes.now taken.1.now
            (desk.old, till.old, self.old.conversation, Some self.old.unsent.items) (desk.new, till.new, self.new.conversation, Some self.new.unsent.items)) }
        ensures over { self.new.over ≡ false → self.old.over ≡ false }
        ensures awaited { self.new.awaited ≡ self.old.awaited }
        ensures anew { IfOk result (λ taken. IfSome taken.0 (λ _. self.new.conversation ≡ [])) }
        ensures untouched { IfOk result (λ taken. IfSome taken.0 (λ _. (desk.new ≡ desk.old) × (till.new ≡ till.old) × (self.new.unsent.items ≡ self.old.unsent.items))) }
        ensures shorter { IfOk result (λ taken. 0 < length bytes.now → length taken.1.now < length bytes.now) }
        ensures pending { self.new.pending.items ≡ self.old.pending.items }
        ensures noted { IfOk result (λ taken. taken.0 ≡ None → has_newline bytes.now ≡ true → NotesLine self.old.refused.instant self.old.begun bytes.now taken.1.now
            (self.old.unsent.items, self.old.refused.lines.items) (self.new.unsent.items, self.new.refused.lines.items)) }
    {
        pay_session::laws::piece_by_piece::<D, T>();
        let Some((text, behind)) = cut(bytes) else {
            self.begun.extend(bytes);
            self.answer(bytes, port, desk, till)?;
            return Ok((None, &bytes[bytes.len()..]));
        };
        let word = self.begun.finish(text, port.role);
        if word.is_some() {
            self.known = true;
            // What it was given of this line is none of the session's.
            self.conversation = Conversation::new();
            self.begun.clear();
            return Ok((word, behind));
        }
        self.answer(&bytes[..bytes.len() - behind.len()], port, desk, till)?;
        self.begun.clear();
        Ok((None, behind))
    }

    /// Whether it takes a line of some bytes now: not where none are left, where no more lines are taken, or where the peer has to read
    /// first.
    fn takes(&self, bytes: &[u8]) -> bool
        ensures { IsTrue result → 0 < length bytes.now }
    {
        !bytes.is_empty() && !self.over && self.unsent.len() <= MOST_UNSENT
    }

    /// Keeps bytes that are not taken yet, unless no more lines are taken.
    fn keep(&mut self, bytes: &[u8]) -> Result<(), WriteFault>
        ensures begun { self.new.begun ≡ self.old.begun }
        ensures over { self.new.over ≡ self.old.over }
        ensures awaited { self.new.awaited ≡ self.old.awaited }
        ensures pending { OnOk result (self.old.over ≡ false → self.new.pending.items ≡ self.old.pending.items ++ bytes.now) }
    {
        if self.over {
            return Ok(());
        }
        self.pending
            .extend_from_slice(bytes)
            .map_err(|_| WriteFault::Failed(ErrorKind::OutOfMemory))
    }

    /// Takes the lines of a piece one after another, until one is a word of staff, or the peer has to read first. What is left is pending.
    fn take_lines<D: Desk, T: Till>(
        &mut self,
        piece: &[u8],
        port: Port<'_>,
        desk: &mut D,
        till: &mut T,
    ) -> Result<Option<Word>, WriteFault>
        requires { self.old.pending.items ≡ [] }
        ensures served { HasAnsweredAt D.parts T.Closes (port.entry.zone.now, port.entry.role) (desk.old, till.old) (desk.new, till.new) }
        ensures same_till { T.origin till.new ≡ T.origin till.old }
        ensures staff { IfOk result (λ word. IfSome word (λ _. port.entry.role ≡ roles.All)) }
        ensures over { self.new.over ≡ false → self.old.over ≡ false }
        ensures awaited { self.new.awaited ≡ self.old.awaited }
        ensures taken { IfOk result (λ word. self.new.over ≡ false → IsTaken port.entry.role self.old.begun piece.now word self.new.begun self.new.pending.items) }
    {
        pay_session::laws::piece_by_piece::<D, T>();
        let mut rest = piece;
        'lines: while self.takes(rest) {
            let (word, behind) = self.take_line(rest, port, desk, till)?;
            rest = behind;
            if word.is_some() {
                self.keep(rest)?;
                return Ok(word);
            }
        }
        self.keep(rest)?;
        Ok(None)
    }

    /// Takes a piece: what it has of the line that is awaited, if one is, and the lines behind that. Until that line has come, no other is
    /// answered.
    fn take_piece<D: Desk, T: Till>(
        &mut self,
        piece: &[u8],
        port: Port<'_>,
        desk: &mut D,
        till: &mut T,
    ) -> Result<Option<Word>, WriteFault>
        requires { self.old.pending.items ≡ [] }
        ensures served { HasAnsweredAt D.parts T.Closes (port.entry.zone.now, port.entry.role) (desk.old, till.old) (desk.new, till.new) }
        ensures same_till { T.origin till.new ≡ T.origin till.old }
        ensures staff { IfOk result (λ word. IfSome word (λ _. port.entry.role ≡ roles.All)) }
        ensures over { self.new.over ≡ false → self.old.over ≡ false }
        ensures taken { IfOk result (λ word. self.new.over ≡ false → IsTaken port.entry.role self.old.begun piece.now word self.new.begun self.new.pending.items) }
        ensures greets { IfOk result (λ _. self.new.over ≡ false → Greets (self.old.awaited, self.old.begun) piece.now (self.new.awaited, self.new.begun, self.new.pending.items)) }
        ensures quiet { is_some self.new.awaited ≡ true → (self.new.awaited ≡ self.old.awaited) × (desk.new ≡ desk.old) × (till.new ≡ till.old) × IfOk result (λ word. word ≡ None) }
        ensures greeted { self.new.awaited ≡ None → is_greeted self.old.awaited (self.old.begun ++ piece.now) ≡ true }
        ensures alone { is_some self.new.awaited ≡ true → OnOk result (self.old.over ≡ false → RefusesAlone self.new.over self.old.unsent.items self.new.unsent.items) }
    {
        pay_session::laws::piece_by_piece::<D, T>();
        let rest = self.greet(piece)?;
        if self.awaited.is_some() {
            return Ok(None);
        }
        self.take_lines(rest, port, desk, till)
    }

    /// Answers what no newline ended, once the peer sends no more.
    fn end<D: Desk, T: Till>(
        &mut self,
        port: Port<'_>,
        desk: &mut D,
        till: &mut T,
    ) -> Result<(), WriteFault>
        ensures served { HasAnsweredAt D.parts T.Closes (port.entry.zone.now, port.entry.role) (desk.old, till.old) (desk.new, till.new) }
        ensures same_till { T.origin till.new ≡ T.origin till.old }
        ensures over { self.new.over ≡ true }
        ensures awaited { self.new.awaited ≡ self.old.awaited }
        ensures quiet { is_some self.new.awaited ≡ true → (desk.new ≡ desk.old) × (till.new ≡ till.old) }
    {
        pay_session::laws::piece_by_piece::<D, T>();
        self.over = true;
        if self.awaited.is_some() {
            return Ok(());
        }
        let before = self.unsent.len();
        self.conversation.end(&mut self.unsent, port, desk, till)?;
        self.note_reply(before)
    }

    /// Takes what was read: some lines, or, where it is nothing, that no more comes.
    fn take_read<D: Desk, T: Till>(
        &mut self,
        piece: &[u8],
        port: Port<'_>,
        desk: &mut D,
        till: &mut T,
    ) -> Result<Option<Word>, WriteFault>
        requires { self.old.pending.items ≡ [] }
        ensures served { HasAnsweredAt D.parts T.Closes (port.entry.zone.now, port.entry.role) (desk.old, till.old) (desk.new, till.new) }
        ensures same_till { T.origin till.new ≡ T.origin till.old }
        ensures staff { IfOk result (λ word. IfSome word (λ _. port.entry.role ≡ roles.All)) }
        ensures over { self.new.over ≡ false → self.old.over ≡ false }
        ensures taken { IfOk result (λ word. self.new.over ≡ false → IsTaken port.entry.role self.old.begun piece.now word self.new.begun self.new.pending.items) }
        ensures greets { IfOk result (λ _. self.new.over ≡ false → Greets (self.old.awaited, self.old.begun) piece.now (self.new.awaited, self.new.begun, self.new.pending.items)) }
        ensures quiet { is_some self.new.awaited ≡ true → (self.new.awaited ≡ self.old.awaited) × (desk.new ≡ desk.old) × (till.new ≡ till.old) × IfOk result (λ word. word ≡ None) }
    {
        if !piece.is_empty() {
            return self.take_piece(piece, port, desk, till);
        }
        self.end(port, desk, till)?;
        Ok(None)
    }

    /// Reads a piece, and takes its lines.
    fn read<D: Desk, T: Till>(
        &mut self,
        buffer: &mut [u8],
        port: Port<'_>,
        desk: &mut D,
        till: &mut T,
    ) -> Fate
        requires { self.old.pending.items ≡ [] }
        ensures served { HasAnsweredAt D.parts T.Closes (port.entry.zone.now, port.entry.role) (desk.old, till.old) (desk.new, till.new) }
        ensures same_till { T.origin till.new ≡ T.origin till.old }
        ensures staff { (word : Word) → result ≡ Fate.Asks word → port.entry.role ≡ roles.All }
        ensures over { self.new.over ≡ false → self.old.over ≡ false }
        ensures heard { Lasts result → self.new.over ≡ false → HasHeard port.entry.role (word_in result) self.old self.new }
        ensures quiet { is_some self.new.awaited ≡ true → (self.new.awaited ≡ self.old.awaited) × (desk.new ≡ desk.old) × (till.new ≡ till.old) × (word_in result ≡ None) }
    {
        pay_session::laws::piece_by_piece::<D, T>();
        let count = match (&self.stream).read(buffer) {
            Ok(count) => count,
            Err(error) => return fate_of(&error),
        };
        fate_after(self.take_read(&buffer[..count], port, desk, till))
    }

    /// Takes the lines of what is pending, which came from a buffer of this size.
    fn take_pending<D: Desk, T: Till>(
        &mut self,
        buffer: &mut [u8],
        port: Port<'_>,
        desk: &mut D,
        till: &mut T,
    ) -> Fate
        ensures served { HasAnsweredAt D.parts T.Closes (port.entry.zone.now, port.entry.role) (desk.old, till.old) (desk.new, till.new) }
        ensures same_till { T.origin till.new ≡ T.origin till.old }
        ensures staff { (word : Word) → result ≡ Fate.Asks word → port.entry.role ≡ roles.All }
        ensures over { self.new.over ≡ false → self.old.over ≡ false }
        ensures taken { Lasts result → self.new.over ≡ false
            → IsTaken port.entry.role self.old.begun self.old.pending.items (word_in result) self.new.begun self.new.pending.items }
        ensures greets { Lasts result → self.new.over ≡ false
            → Greets (self.old.awaited, self.old.begun) self.old.pending.items (self.new.awaited, self.new.begun, self.new.pending.items) }
        ensures quiet { is_some self.new.awaited ≡ true → (self.new.awaited ≡ self.old.awaited) × (desk.new ≡ desk.old) × (till.new ≡ till.old) × (word_in result ≡ None) }
    {
        pay_session::laws::piece_by_piece::<D, T>();
        let count = self.pending.len();
        let Some(room) = buffer.get_mut(..count) else {
            return Fate::Ends;
        };
        room.copy_from_slice(&self.pending);
        empty(&mut self.pending);
        fate_after(self.take_piece(room, port, desk, till))
    }

    /// Says that no more comes, and takes what the peer still sends: bytes that nobody has taken when a stream is dropped make the system
    /// break the connection, and the peer may lose replies by it. However that ends, the connection was over before.
    fn part(&mut self, buffer: &mut [u8]) -> Fate
        ensures begun { self.new.begun ≡ self.old.begun }
        ensures pending { self.new.pending.items ≡ self.old.pending.items }
        ensures over { self.new.over ≡ self.old.over }
        ensures awaited { self.new.awaited ≡ self.old.awaited }
        ensures no_word { (word : Word) → result ≡ Fate.Asks word → ⊥ }
    {
        if !self.told {
            self.told = true;
            if self.stream.shutdown(Shutdown::Write).is_err() {
                return Fate::Ends;
            }
        }
        if self.last_reads == 0 {
            return Fate::Ends;
        }
        self.last_reads -= 1;
        match (&self.stream).read(buffer) {
            Ok(0) => Fate::Ends,
            Ok(_) => Fate::GoesOn,
            Err(error) => match fate_of(&error) {
                Fate::Lost(_) => Fate::Ends,
                fate => fate,
            },
        }
    }

    /// Sends what has not left, as far as there is room, and says that no more comes, as the service ends.
    pub fn leave(&mut self, buffer: &mut [u8]) {
        self.send();
        for _ in 0..TURN_PIECES {
            match self.part(buffer) {
                Fate::GoesOn => {}
                _ => return,
            }
        }
    }

    /// Sends what has not left, and then takes the lines that were read, or reads some. So no more is read of a peer that does not read.
    fn step<D: Desk, T: Till>(
        &mut self,
        buffer: &mut [u8],
        port: Port<'_>,
        desk: &mut D,
        till: &mut T,
    ) -> Fate
        ensures served { HasAnsweredAt D.parts T.Closes (port.entry.zone.now, port.entry.role) (desk.old, till.old) (desk.new, till.new) }
        ensures same_till { T.origin till.new ≡ T.origin till.old }
        ensures staff { (word : Word) → result ≡ Fate.Asks word → port.entry.role ≡ roles.All }
        ensures over { self.new.over ≡ false → self.old.over ≡ false }
        ensures heard { Lasts result → self.new.over ≡ false → HasHeard port.entry.role (word_in result) self.old self.new }
        ensures quiet { is_some self.new.awaited ≡ true → (self.new.awaited ≡ self.old.awaited) × (desk.new ≡ desk.old) × (till.new ≡ till.old) × (word_in result ≡ None) }
    {
        pay_session::laws::piece_by_piece::<D, T>();
        match self.send() {
            Fate::GoesOn => {}
            fate => return fate,
        }
        if !self.unsent.is_empty() {
            return Fate::GoesOn;
        }
        if self.over {
            return self.part(buffer);
        }
        if self.pending.is_empty() {
            self.read(buffer, port, desk, till)
        } else {
            self.take_pending(buffer, port, desk, till)
        }
    }

    /// Takes its turn: at most a few pieces. What staff ask of the service ends it, and so does a refused line that is to be kept.
    pub fn turn<D: Desk, T: Till>(
        &mut self,
        buffer: &mut [u8],
        port: Port<'_>,
        desk: &mut D,
        till: &mut T,
    ) -> Fate
        ensures served { HasAnsweredAt D.parts T.Closes (port.entry.zone.now, port.entry.role) (desk.old, till.old) (desk.new, till.new) }
        ensures same_till { T.origin till.new ≡ T.origin till.old }
        ensures staff { (word : Word) → result ≡ Fate.Asks word → port.entry.role ≡ roles.All }
        ensures over { self.new.over ≡ false → self.old.over ≡ false }
        ensures heard { Lasts result → self.new.over ≡ false → HasHeard port.entry.role (word_in result) self.old self.new }
        ensures quiet { is_some self.new.awaited ≡ true → (self.new.awaited ≡ self.old.awaited) × (desk.new ≡ desk.old) × (till.new ≡ till.old) × (word_in result ≡ None) }
    {
        pay_session::laws::piece_by_piece::<D, T>();
        for _ in 0..TURN_PIECES {
            match self.step(buffer, port, desk, till) {
                Fate::GoesOn if self.refused.lines.is_empty() => {}
                fate => return fate,
            }
        }
        Fate::GoesOn
    }
}
