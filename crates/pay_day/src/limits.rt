//! The instants and days that are taken, when a service day begins, and the days of a week.

/// The first instant that is taken, in seconds of the Unix clock: 1970-01-08 00:00:00 UTC.
pub const FIRST_INSTANT: u64 = 604_800;

/// The last one: 2099-12-31 23:59:59 UTC.
pub const LAST_INSTANT: u64 = 4_102_444_799;

/// The first service day, counted from 1970-01-01: a Monday.
pub const FIRST_DAY: u32 = 4;

/// The last one that a number of a day may name.
pub const LAST_DAY: u32 = 50_000;

/// How many seconds a day of the calendar has.
pub const SECONDS_PER_DAY: u32 = 86_400;

/// The local second at which a service day begins: 04:30:00.
pub const SERVICE_DAY_START: u32 = 16_200;

/// How many days a week has.
pub const DAYS_PER_WEEK: u32 = 7;

/// Saturday, where a week's days are counted from 0 on its Monday: those before it are weekdays.
pub const SATURDAY: u32 = 5;

/// How far from UTC a zone may be, in seconds: 25:59:59.
pub const MOST_OFFSET: u64 = 93_599;
