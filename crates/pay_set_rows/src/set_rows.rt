ghost use Rattle.std.specs.Prelude.{◌≡◌, ◌≤◌, pos, IfSome};
ghost use Rattle.pay_rules.specs.declared.fix.What.TheVariants.{Void, Drop as Withdraw};
ghost use Rattle.pay_set_rows.specs.Ranged.{ranged};
ghost use Rattle.pay_set_rows.specs.SetRows.{kind_number, tap_row, fix_row, kind_of, stamp_from, tap_from_row, fix_from_row, what_from, has_two_numbers, named_from, fill_from, credit_from};

use pay_day::Moment;
use pay_day::limits::{FIRST_DAY, FIRST_INSTANT, LAST_DAY, LAST_INSTANT, SECONDS_PER_DAY};
use pay_rows::{FixRow, TapRow};
use pay_rules::limits::MOST_CREDIT;
use pay_rules::{Credit, Fix, Kind, Tap, What};

/// The number of a kind.
fn kind_number(kind: Kind) -> i64
    ensures { result ≡ pos (kind_number kind) }
{
    match kind {
        Kind::In => 0,
        Kind::Out => 1,
        Kind::Bus => 2,
    }
}

/// A tap as a row.
pub fn tap_row(tap: &Tap) -> TapRow
    ensures { result ≡ tap_row tap.now }
{
    TapRow {
        reader: i64::from(tap.reader),
        seq: i64::from(tap.seq),
        utc: tap.stamp.utc() as i64,
        day: i64::from(tap.stamp.day()),
        second: i64::from(tap.stamp.second()),
        place: i64::from(tap.place),
        kind: kind_number(tap.kind),
    }
}

/// A correction as a row.
pub fn fix_row(fix: &Fix) -> FixRow
    ensures { result ≡ fix_row fix.now }
{
    let (what, a, b, c, d, e) = match fix.what {
        What::Void(reader, seq) => (0, i64::from(reader), i64::from(seq), 0, 0, 0),
        What::Fill(stamp, place, kind) => (
            1,
            stamp.utc() as i64,
            i64::from(stamp.day()),
            i64::from(stamp.second()),
            i64::from(place),
            kind_number(kind),
        ),
        What::Credit(credit) => (
            2,
            i64::from(credit.day()),
            credit.pence().pence() as i64,
            0,
            0,
            0,
        ),
        What::Drop(staff, seq) => (3, i64::from(staff), i64::from(seq), 0, 0, 0),
    };
    FixRow {
        staff: i64::from(fix.staff),
        seq: i64::from(fix.seq),
        what,
        a,
        b,
        c,
        d,
        e,
    }
}

/// A number that is not below one bound nor above another.
pub fn ranged(number: i64, least: u64, most: u64) -> Option<u64>
    ensures value { result ≡ ranged least most number }
    ensures in_range { IfSome result (λ n. (least ≤ n) × (n ≤ most)) }
{
    if number < 0 {
        return None;
    }
    let natural = number as u64;
    if least <= natural && natural <= most {
        Some(natural)
    } else {
        None
    }
}

/// The number of a reader, a staff or a place.
fn in_sixteen_bits(number: i64) -> Option<u16>
    ensures { result ≡ ranged 1 65535 number }
{
    Some(ranged(number, 1, u64::from(u16::MAX))? as u16)
}

/// A sequence number.
fn as_seq(number: i64) -> Option<u32>
    ensures { result ≡ ranged 0 4294967295 number }
{
    Some(ranged(number, 0, u64::from(u32::MAX))? as u32)
}

/// The kind of a number.
fn kind_of(number: i64) -> Option<Kind>
    ensures { result ≡ kind_of number }
{
    match number {
        0 => Some(Kind::In),
        1 => Some(Kind::Out),
        2 => Some(Kind::Bus),
        _ => None,
    }
}

/// An instant and where it falls, if each number is in its range.
fn stamp_from(utc: i64, day: i64, second: i64) -> Option<Moment>
    ensures { result ≡ stamp_from utc day second }
{
    let utc = ranged(utc, FIRST_INSTANT, LAST_INSTANT)?;
    let day = ranged(day, u64::from(FIRST_DAY), u64::from(LAST_DAY))?;
    let second = ranged(second, 0, u64::from(SECONDS_PER_DAY) - 1)?;
    Moment::from_parts(utc, day as u32, second as u32)
}

/// The tap of an account that a row tells, if each number is in its range.
pub fn tap_from_row(account: u32, row: &TapRow) -> Option<Tap>
    ensures { result ≡ tap_from_row account row.now }
{
    let reader = in_sixteen_bits(row.reader)?;
    let seq = as_seq(row.seq)?;
    let stamp = stamp_from(row.utc, row.day, row.second)?;
    let place = in_sixteen_bits(row.place)?;
    let kind = kind_of(row.kind)?;
    Some(Tap {
        account,
        reader,
        seq,
        place,
        kind,
        stamp,
    })
}

/// Whether the columns of a Fill alone are 0.
fn has_two_numbers(row: &FixRow) -> bool
    ensures { result ≡ has_two_numbers row.now }
{
    row.c == 0 && row.d == 0 && row.e == 0
}

/// A Void by its row.
fn void_from(row: &FixRow) -> Option<What>
    ensures { result ≡ named_from Void row.now }
{
    let reader = in_sixteen_bits(row.a)?;
    let seq = as_seq(row.b)?;
    has_two_numbers(row).then_some(What::Void(reader, seq))
}

/// A Drop by its row.
fn drop_from(row: &FixRow) -> Option<What>
    ensures { result ≡ named_from Withdraw row.now }
{
    let staff = in_sixteen_bits(row.a)?;
    let seq = as_seq(row.b)?;
    has_two_numbers(row).then_some(What::Drop(staff, seq))
}

/// A Fill by its row.
fn fill_from(row: &FixRow) -> Option<What>
    ensures { result ≡ fill_from row.now }
{
    let stamp = stamp_from(row.a, row.b, row.c)?;
    let place = in_sixteen_bits(row.d)?;
    let kind = kind_of(row.e)?;
    Some(What::Fill(stamp, place, kind))
}

/// A Credit by its row.
fn credit_from(row: &FixRow) -> Option<What>
    ensures { result ≡ credit_from row.now }
{
    let day = ranged(row.a, u64::from(FIRST_DAY), u64::from(LAST_DAY))?;
    let pence = ranged(row.b, 1, u64::from(MOST_CREDIT))?;
    if !has_two_numbers(row) {
        return None;
    }
    Some(What::Credit(Credit::from_parts(day as u32, pence as u32)?))
}

/// What a row does.
fn what_from(row: &FixRow) -> Option<What>
    ensures { result ≡ what_from row.now }
{
    match row.what {
        0 => void_from(row),
        1 => fill_from(row),
        2 => credit_from(row),
        3 => drop_from(row),
        _ => None,
    }
}

/// The correction of an account that a row tells, if each number is in its range, and 0 where its form has none.
pub fn fix_from_row(account: u32, row: &FixRow) -> Option<Fix>
    ensures { result ≡ fix_from_row account row.now }
{
    let staff = in_sixteen_bits(row.staff)?;
    let seq = as_seq(row.seq)?;
    let what = what_from(row)?;
    Some(Fix {
        account,
        staff,
        seq,
        what,
    })
}
