//! The words of staff's port, which no session knows.
ghost use Rattle.std.specs.Prelude.{◌≡◌, ℕ, ◌≤◌, List, [], ◌∷◌, ◌++◌, length, take, drop, codes, IfSome, if◌then◌else◌};
ghost use Rattle.std.specs.Char.{is_ascii_graphic};
ghost use Rattle.std.specs.List.{list_all};
ghost use Rattle.std.specs.Str.{bytes_eq};
ghost use Rattle.pay_peers.specs.Lines.{backup_of, is_path, open_of, opens, word_at};
ghost use Rattle.pay_wire.specs.Words.{IsSpelled};

use crate::day::Day;
use pay_session::Role;
use pay_wire::limits::MOST_LINE_BYTES;
use pay_wire::{SpelledCommand, read_command};
use std::marker::Model;

/// What staff ask of the service itself, each by a line of its own.
#[derive(Drop)]
pub enum Word {
    /// `STOP`: that it ends.
    Stop,
    /// `STATS`: what it has done.
    Stats,
    /// `BACKUP PATH`: that the ledger is copied to this path.
    Backup(Line),
    /// `OPEN DAY`: how many accounts owe something else for the week of this service day, through it, than what was posted for them.
    Open(Day),
}

/// Whether each byte is printable ASCII, and none a space.
fn are_graphic(bytes: &[u8]) -> bool
    ensures { result ≡ list_all is_ascii_graphic bytes.now }
{
    bytes.iter().all(|byte| byte.is_ascii_graphic())
}

/// Whether bytes are a path from the root, of such bytes alone.
#[tactic(auto, unfolding(crate::specs::Lines::is_path))]
fn is_path(bytes: &[u8]) -> bool
    ensures { result ≡ is_path bytes.now }
{
    bytes.starts_with(b"/") && are_graphic(bytes)
}

/// The backup for which a line asks, of no more than 128 bytes.
fn backup_of(line: &[u8]) -> Option<Word>
    requires { length line.now ≤ 128 }
    ensures { result ≡ backup_of line.now }
{
    let path = line.strip_prefix(b"BACKUP ")?;
    if !is_path(path) {
        return None;
    }
    let mut kept = Line::new();
    kept.extend(path);
    Some(Word::Backup(kept))
}

/// The word that asks how many accounts are open for the day of a `CLOSE`.
fn opens(command: Option<SpelledCommand>) -> Option<Word>
    requires { IfSome command IsSpelled }
    ensures { result ≡ opens command }
{
    match command {
        Some(SpelledCommand::Close { day }) => Some(Word::Open(Day::new(day))),
        _ => None,
    }
}

/// The same for a day, which stands as in a `CLOSE`.
fn open_of(day: &[u8]) -> Option<Word>
    requires { length day.now ≤ 123 }
    ensures { result ≡ open_of day.now }
{
    let mut close = Line::new();
    close.extend(b"CLOSE ");
    close.extend(day);
    opens(read_command(close.text()))
}

/// The word with an argument that a line of no more than 128 bytes is.
fn word_with(line: &[u8]) -> Option<Word>
    requires { length line.now ≤ 128 }
    ensures { result ≡ (if bytes_eq (take 5 line.now) (codes "OPEN ") then open_of (drop 5 line.now) else backup_of line.now) }
{
    match line.strip_prefix(b"OPEN ") {
        Some(day) => open_of(day),
        None => backup_of(line),
    }
}

/// The word that a line is at a port. As in a session every byte counts, a carriage return too.
pub fn word_at(role: Role, line: &[u8]) -> Option<Word>
    ensures word { result ≡ word_at role line.now }
    ensures staff { IfSome result (λ _. role ≡ Role.All) }
{
    match role {
        Role::Taps => None,
        Role::All if line.len() > MOST_LINE_BYTES => None,
        Role::All => match line {
            b"STOP" => Some(Word::Stop),
            b"STATS" => Some(Word::Stats),
            _ => word_with(line),
        },
    }
}

/// How many bytes of a line are kept: one more than it may have, so that a longer one shows.
const KEPT_BYTES: usize = MOST_LINE_BYTES + 1;

/// A line, or a part of one, as much of it as is kept.
#[derive(Drop)]
pub struct Line {
    bytes: [u8; KEPT_BYTES],
    count: usize,
}

impl Model for Line {
    ghost use Rattle.std.specs.Prelude.{ℕ, ◌≤◌, List, take};

    ghost Value = { List ℕ };

    ghost view = { λ b. take b.count b.bytes };

    ghost invariant = { λ b. b.count ≤ 129 };
}

impl Line {
    /// An empty line.
    pub fn new() -> Line
        ensures { result ≡ [] }
    {
        Line {
            bytes: [0; KEPT_BYTES],
            count: 0,
        }
    }

    /// Adds a byte at the end, if it is kept.
    fn add(&mut self, byte: u8)
        ensures { self.new ≡ take 129 (self.old ++ byte ∷ []) }
    {
        if self.count < KEPT_BYTES {
            self.bytes[self.count] = byte;
            self.count += 1;
        }
    }

    /// Adds bytes at the end, as far as they are kept.
    pub fn extend(&mut self, more: &[u8])
        ensures { self.new ≡ take 129 (self.old ++ more.now) }
    {
        let _ = &self.count;
        for byte in &more[..KEPT_BYTES.min(more.len())] {
            self.add(*byte);
        }
    }

    /// The line so far, as much of it as is kept.
    pub fn text(&self) -> &[u8]
        ensures { result.now ≡ self.now }
    {
        &self.bytes[..self.count]
    }

    /// The word that the line is at a port, which ends with these bytes.
    pub fn finish(&mut self, text: &[u8], role: Role) -> Option<Word>
        ensures word { result ≡ word_at role (self.old ++ text.now) }
        ensures staff { IfSome result (λ _. role ≡ Role.All) }
        ensures line { self.new ≡ take 129 (self.old ++ text.now) }
    {
        self.extend(text);
        word_at(role, self.text())
    }

    /// A new line begins.
    pub fn clear(&mut self)
        ensures { self.new ≡ [] }
    {
        self.count = 0;
    }
}
