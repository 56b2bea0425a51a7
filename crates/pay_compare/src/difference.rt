use crate::key::Key;

/// Where two fare files differ first.
#[derive(Clone, Copy, Debug, PartialEq, Eq)]
pub struct Difference {
    /// The service day, counted from 1970-01-01. All days before it, from day 4 on, are priced alike.
    pub day: u32,
    /// A key that differs on that day.
    pub key: Key,
}
