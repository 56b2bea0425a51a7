//! The limits of a fare file: how large its numbers may be, and how many items it may list.

/// How many fare zones there may be.
pub const MOST_ZONES: u32 = 9;

/// The most minutes that a leg may last.
pub const MOST_MINUTES: u32 = 1_440;

/// The largest fare, in pence: 1,000 pounds.
pub const MOST_FARE: u32 = 100_000;

/// The longest time after a paying bus tap in which further ones are free, in seconds.
pub const MOST_HOPPER_SECONDS: u32 = 7_200;

/// The longest leg that begins and ends at one station, in seconds.
pub const MOST_SAME_SECONDS: u32 = 7_200;

/// The longest time of an interchange, in seconds.
pub const MOST_INTERCHANGE_SECONDS: u32 = 7_200;

/// The greatest number of a place.
pub const MOST_PLACE: u32 = 65_535;

/// How many bands a fare file may list.
pub const MOST_BANDS: usize = 12;

/// How many public holidays a fare file may list.
pub const MOST_HOLIDAYS: usize = 64;

/// How many stations and routes a fare file may have together.
pub const MOST_PLACES: usize = 1_024;

/// How many interchanges a fare file may list.
pub const MOST_INTERCHANGES: usize = 256;

/// How many editions a fare file may list.
pub const MOST_EDITIONS: usize = 8;
