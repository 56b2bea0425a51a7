//! The fields of a row, as text.
ghost use Rattle.std.specs.Prelude.{◌≡◌, ◌+◌, ◌++◌, ◌≤◌, length, codes, decimal};
ghost use Rattle.arrayvec.specs.ArrayVec.{array_vec_len};
ghost use Rattle.pay_statement.specs.Statement.{leading_zero, two_digits, time_of_day, cover_name, band_at, band_name};

use arrayvec::ArrayVec;
use itoa::Buffer;
use pay_tables::{Cover, Tables};

/// No number of 64 bits has more digits.
const NUMBER_BYTES: usize = 20;

/// No field is longer: three numbers, a zero before each, and what stands between them.
const FIELD_BYTES: usize = 65;

/// The text of a field.
pub(crate) type Field = ArrayVec<u8, FIELD_BYTES>;

/// A number, in decimal.
pub(crate) fn number(value: u64) -> Field
    ensures text { result.items ≡ decimal value }
    ensures short { array_vec_len result ≤ NUMBER_BYTES }
{
    let mut field = ArrayVec::new();
    put_number(&mut field, value);
    field
}

/// The time at a second of the day, as `07:00:00`.
pub(crate) fn time_of_day(second: u32) -> Field
    ensures { result.items ≡ time_of_day second }
{
    let mut time = ArrayVec::new();
    put_two_digits(&mut time, second / 3_600);
    put(&mut time, b":");
    put_two_digits(&mut time, second / 60 % 60);
    put(&mut time, b":");
    put_two_digits(&mut time, second % 60);
    time
}

/// The name of the band at a place of these tables, `-` where there is none.
pub(crate) fn band_name(tables: &Tables, place: Option<u8>) -> Field
    ensures { result.items ≡ band_name (band_at tables.now place) }
{
    let Some(place) = place else {
        return started(b"-");
    };
    match tables.bands().get(usize::from(place)) {
        Some(band) => cover_name(band.cover),
        None => started(b"-"),
    }
}

/// The name of a band that covers this: `bus`, or its zones as `1-2`.
fn cover_name(cover: Cover) -> Field
    ensures { result.items ≡ cover_name cover }
{
    match cover {
        Cover::Buses => started(b"bus"),
        Cover::Zones(zones) => {
            let mut name = number(u64::from(zones.from));
            put(&mut name, b"-");
            put_number(&mut name, u64::from(zones.to));
            name
        }
    }
}

/// A field that begins so.
fn started(text: &[u8]) -> Field
    requires { length text.now ≤ FIELD_BYTES }
    ensures { result.items ≡ text.now }
{
    let mut field = ArrayVec::new();
    put(&mut field, text);
    field
}

/// Puts a number at the end of a field, in two digits at least.
fn put_two_digits(field: &mut Field, value: u32)
    requires { array_vec_len field.old + 1 + NUMBER_BYTES ≤ FIELD_BYTES }
    ensures items { field.new.items ≡ field.old.items ++ two_digits value }
    ensures len { array_vec_len field.new ≤ array_vec_len field.old + 1 + NUMBER_BYTES }
{
    put(field, leading_zero(value));
    put_number(field, u64::from(value));
}

/// The zero before a number of one digit.
fn leading_zero(value: u32) -> &'static [u8]
    ensures text { result.now ≡ leading_zero value }
    ensures short { length result.now ≤ 1 }
{
    if value < 10 { b"0" } else { b"" }
}

/// Puts a number at the end of a field, in decimal.
fn put_number(field: &mut Field, value: u64)
    requires { array_vec_len field.old + NUMBER_BYTES ≤ FIELD_BYTES }
    ensures items { field.new.items ≡ field.old.items ++ decimal value }
    ensures len { array_vec_len field.new ≤ array_vec_len field.old + NUMBER_BYTES }
{
    let mut buffer = Buffer::new();
    put(field, buffer.format(value).as_bytes());
}

/// Puts bytes at the end of a field.
fn put(field: &mut Field, text: &[u8])
    requires { array_vec_len field.old + length text.now ≤ FIELD_BYTES }
    ensures items { field.new.items ≡ field.old.items ++ text.now }
    ensures len { array_vec_len field.new ≡ array_vec_len field.old + length text.now }
{
    if field.try_extend_from_slice(text).is_err() {
        unreachable!();
    }
}
