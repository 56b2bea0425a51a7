//! The journeys of an account's week, by the lines of a reader.
ghost use Rattle.std.specs.Prelude.{◌≡◌, ℕ, IfOk, IfErr};
ghost use Rattle.std.specs.Arc.{arc_value};
ghost use Rattle.pay_day.specs.Words.{IsDay, monday};
ghost use Rattle.pay_rules.specs.Lines.{week_lines};
ghost use Rattle.pay_rules.specs.State.{accepted_of};
ghost use Rattle.pay_shard.specs.Words.{state_now};
ghost use Rattle.pay_run.specs.Week.{HasInputFault, WeekTold, WeekNotTold, week_fault, week_fault_of_replay};
ghost use Rattle.pay_run.specs.declared.week.WeekFault.TheVariants.{Broken, Memory};

use crate::past::replayed_desk;
use pay_day::monday;
use pay_journal::{KeptDesk, NoKeeper, ReplayFault};
use pay_rules::{Fares, Lines};
use pay_session::{KnownReader, SessionFault, session};
use pay_shard::Shard;
use pay_tables::Editions;
use pay_till::NoTill;
use pay_wire::Refusal;
use pay_zone::Zone;
use std::alloc::{AllocError, Global};
use std::io;
use std::sync::Arc;
use thiserror::Error;

/// Why the journeys of a week are not told.
#[derive(Clone, Copy, Debug, PartialEq, Eq, Error)]
pub enum WeekFault {
    /// The reader failed, or was filled too often, after so many replies.
    #[error("input fault")]
    Broken { answered: u128 },
    /// The line of this number of the journal, from 1, is not accepted.
    #[error("journal line {line}: {why}")]
    NotAccepted { line: u64, why: Refusal },
    /// 90: no memory for a line, or for the journeys.
    #[error("90 Memory")]
    Memory,
}

impl From<AllocError> for WeekFault {
    ghost from_gives = { λ _ fault. fault ≡ Memory };

    fn from(_: AllocError) -> WeekFault {
        WeekFault::Memory
    }
}

impl From<ReplayFault> for WeekFault {
    ghost from_gives = { λ of fault. fault ≡ week_fault_of_replay of };

    fn from(fault: ReplayFault) -> WeekFault {
        match fault {
            ReplayFault::Line { line, why } => WeekFault::NotAccepted { line, why },
            ReplayFault::Memory => WeekFault::Memory,
        }
    }
}

impl From<SessionFault> for WeekFault {
    ghost from_gives = { λ of fault. fault ≡ week_fault of };

    fn from(fault: SessionFault) -> WeekFault {
        match fault {
            SessionFault::Read { answered } => WeekFault::Broken { answered },
            // The replies go to a sink, which takes all.
            SessionFault::Write { .. } => WeekFault::Memory,
        }
    }
}

/// The journeys of a week of an account. The week is named by its Monday. An account that has accepted nothing has none.
fn lines_of<F: Fares>(
    alloc: Global,
    shard: &Shard<F>,
    account: u32,
    week: u32,
) -> Result<Lines, AllocError>
    requires is_day { IsDay week }
    requires is_monday { monday week ≡ week }
    ensures { IfOk result (λ it. it ≡ week_lines shard.now.editions (accepted_of (state_now shard.now) account) week) }
{
    match shard.account(account) {
        Some(held) => held.lines(shard.editions(), week),
        None => F::new(alloc, account).lines(shard.editions(), week),
    }
}

/// The journeys of the week that holds a service day, counted from 1970-01-01, of an account that has accepted what a journal has,
/// and then what the lines of a reader ask for. The replies to the lines are written nowhere; where one of them is
/// `NO 90 Memory`, no journeys are given, since some may be missing.
pub fn week_by_lines<F: Fares, R: KnownReader>(
    alloc: Global,
    reader: &mut R,
    zone: &Zone<'_>,
    editions: Arc<Editions>,
    past: &[u8],
    account: u32,
    day: u32,
) -> Result<Lines, WeekFault>
    requires { IsDay day }
    ensures week { IfOk result (λ lines. WeekTold zone.now (arc_value editions) past.now (R.remaining reader.old, R.remaining reader.new) (account, day) lines) }
    ensures fails { IfErr result (λ fault. WeekNotTold zone.now (arc_value editions) past.now (R.remaining reader.old, R.remaining reader.new) fault) }
    ensures cause { IfErr result (λ fault. (n : ℕ) → fault ≡ Broken n → HasInputFault R.MayAnswer reader.old reader.new) }
{
    let begun = replayed_desk::<F>(alloc, editions, zone, past)?;
    let mut desk = KeptDesk::begin(begun.0, NoKeeper);
    let ended = session(reader, &mut io::sink(), zone, &mut desk, &mut NoTill);
    pay_journal::laws::one_line();
    // What keeps nothing never fails.
    let _ = desk.is_stuck();
    let shard = desk.shard();
    let done = ended?;
    if done.lacked_memory {
        return Err(WeekFault::Memory);
    }
    let lines = lines_of(alloc, shard, account, monday(day))?;
    Ok(lines)
}
