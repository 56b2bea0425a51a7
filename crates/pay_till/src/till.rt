//! What closes days.
ghost use Rattle.std.specs.Prelude.{◌≡◌, ◌≤◌, ℕ, List, [], Result, Err, IfErr, IsTrue};
ghost use Rattle.pay_rules.specs.declared.posting.Posting.{Posting};
ghost use Rattle.pay_day.specs.declared.limits.TheConstants.{FIRST_DAY, LAST_DAY};
ghost use Rattle.pay_shard.specs.Words.{NothingIsLost};
ghost use Rattle.pay_till.specs.Words.{Taken, IsClosedAt, is_of_close, put_off};
ghost use Rattle.pay_wire.specs.declared.refusal.Refusal.{Refusal};
ghost use Rattle.pay_wire.specs.declared.refusal.Refusal.TheVariants.{NotHere};

use pay_rules::Postings;
use pay_shard::Desk;
use pay_wire::Refusal;

/// Closes days: asks a desk for the quotes of all accounts, and posts them.
pub trait Till: Drop {
    /// What a till begins with and keeps.
    ghost Origin: { Type 0 };

    /// What this till began with.
    ghost origin: { Self → Self.Origin };

    /// What a close comes to: the till before it, the service day, how many shards answer, what was put, the answer, and the
    /// till after it.
    ghost Closes: { Self → ℕ → ℕ → List Taken → Result (List Posting) Refusal → Self → Type 0 };

    /// What an answer to `open` means: the till before it, the service day, how many shards answer, what was put, the answer, and the
    /// till after it.
    ghost Opens: { Self → ℕ → ℕ → List Taken → Result ℕ Refusal → Self → Type 0 };

    /// Closes a service day, counted from 1970-01-01, over a desk: nothing is put but Quotes of that day, one for each shard in
    /// order, as far as it comes, and each is got. It answers `DeskFault` only where the desk took one of them not, or some
    /// brought no quotes. Its refusal is the line's: `NotHere`, `NotOver`, `DeskFault`, `Memory`, or one of a ledger (42, 43, 45 to
    /// 47).
    fn close<D: Desk>(&mut self, desk: &mut D, day: u32) -> Result<Postings, Refusal>
        requires { (FIRST_DAY ≤ day) × (day ≤ LAST_DAY) }
        ensures closed { IsClosedAt D.parts desk.old desk.new day (λ of put answer. Closes self.old day of put answer self.new) result }
        ensures transcript { NothingIsLost (D.parts desk.old).transcript (D.parts desk.new).transcript }
        ensures same_desk { (D.parts desk.new).standing ≡ (D.parts desk.old).standing }
        ensures same_till { origin self.new ≡ origin self.old };

    /// How many of the accounts that are quoted through a service day, counted from 1970-01-01, owe something else than what was posted
    /// for them. The desk is asked as for a close of that day, which is then put off: nothing is posted. Its refusal is the line's, as
    /// that of a close is.
    fn open<D: Desk>(&mut self, desk: &mut D, day: u32) -> Result<u64, Refusal>
        requires { (FIRST_DAY ≤ day) × (day ≤ LAST_DAY) }
        ensures opened { IsClosedAt D.parts desk.old desk.new day
            (λ of put answer. Closes self.old day of put answer self.new × Opens self.old day of put result self.new) (put_off result) }
        ensures of_close { IfErr result (λ why. IsTrue (is_of_close why)) }
        ensures transcript { NothingIsLost (D.parts desk.old).transcript (D.parts desk.new).transcript }
        ensures same_desk { (D.parts desk.new).standing ≡ (D.parts desk.old).standing }
        ensures same_till { origin self.new ≡ origin self.old };
}

/// A till that closes nothing.
#[derive(Clone, Copy)]
pub struct NoTill;

impl Till for NoTill {
    ghost use Rattle.std.specs.Prelude.{◌≡◌, [], Err, ⊤};
    ghost use Rattle.pay_wire.specs.declared.refusal.Refusal.TheVariants.{NotHere};

    ghost Origin = { ⊤ };

    ghost origin = { λ t. tt };

    ghost Closes = { λ before day of put result after. (put ≡ []) × (result ≡ Err NotHere) × (after ≡ before) };

    ghost Opens = { λ before day of put result after. result ≡ Err NotHere };

    fn close<D: Desk>(&mut self, _: &mut D, _: u32) -> Result<Postings, Refusal> {
        Err(Refusal::NotHere)
    }

    fn open<D: Desk>(&mut self, _: &mut D, _: u32) -> Result<u64, Refusal> {
        Err(Refusal::NotHere)
    }
}
