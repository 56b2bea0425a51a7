//! What a ledger archives and no journal gives back, as it is told.
ghost use Rattle.std.specs.Prelude.{◌≡◌};
ghost use Rattle.pay_wire.specs.Spellings.{spelling_of_kind};
ghost use Rattle.pay_jobs.specs.Taken.{IsLackedTap, IsLackedFix};

use pay_fare_file::NamedDay;
use pay_rules::{Fix, Kind, Tap, What};
use thiserror::Error;

/// An archived tap or correction, as its line and where its instant falls.
#[derive(Clone, Copy, Debug, PartialEq, Eq, Error)]
pub enum Lacked {
    #[error("TAP {reader} {seq} {account} {utc} {place} {kind}, on {}, at second {second}", NamedDay(*.day))]
    Tap {
        reader: u16,
        seq: u32,
        account: u32,
        utc: u64,
        place: u16,
        kind: &'static str,
        day: u32,
        second: u32,
    },
    #[error("FIX {staff} {seq} {account} VOID {reader} {tap}")]
    Void {
        staff: u16,
        seq: u32,
        account: u32,
        reader: u16,
        tap: u32,
    },
    #[error("FIX {staff} {seq} {account} FILL {utc} {place} {kind}, on {}, at second {second}", NamedDay(*.day))]
    Fill {
        staff: u16,
        seq: u32,
        account: u32,
        utc: u64,
        place: u16,
        kind: &'static str,
        day: u32,
        second: u32,
    },
    #[error("FIX {staff} {seq} {account} CREDIT {day} {pence}, of {}", NamedDay(*.day))]
    Credit {
        staff: u16,
        seq: u32,
        account: u32,
        day: u32,
        pence: u64,
    },
    #[error("FIX {staff} {seq} {account} DROP {of} {fix}")]
    Drop {
        staff: u16,
        seq: u32,
        account: u32,
        of: u16,
        fix: u32,
    },
}

/// The word of a kind.
fn kind_word(kind: Kind) -> &'static str
    ensures { result.now ≡ spelling_of_kind kind }
{
    match kind {
        Kind::In => "IN",
        Kind::Out => "OUT",
        Kind::Bus => "BUS",
    }
}

/// A tap.
pub(crate) fn lacked_tap(tap: &Tap) -> Lacked
    ensures { IsLackedTap result tap.now }
{
    Lacked::Tap {
        reader: tap.reader,
        seq: tap.seq,
        account: tap.account,
        utc: tap.stamp.utc(),
        place: tap.place,
        kind: kind_word(tap.kind),
        day: tap.stamp.day(),
        second: tap.stamp.second(),
    }
}

/// A correction.
pub(crate) fn lacked_fix(fix: &Fix) -> Lacked
    ensures { IsLackedFix result fix.now }
{
    let (staff, seq, account) = (fix.staff, fix.seq, fix.account);
    match fix.what {
        What::Void(reader, tap) => Lacked::Void {
            staff,
            seq,
            account,
            reader,
            tap,
        },
        What::Fill(stamp, place, kind) => Lacked::Fill {
            staff,
            seq,
            account,
            utc: stamp.utc(),
            place,
            kind: kind_word(kind),
            day: stamp.day(),
            second: stamp.second(),
        },
        What::Credit(credit) => Lacked::Credit {
            staff,
            seq,
            account,
            day: credit.day(),
            pence: credit.pence().pence(),
        },
        What::Drop(of, other) => Lacked::Drop {
            staff,
            seq,
            account,
            of,
            fix: other,
        },
    }
}
