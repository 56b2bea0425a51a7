use crate::credit::Credit;
use crate::tap::Kind;
use pay_day::Moment;

/// What a correction does.
#[derive(Clone, Copy, Debug, PartialEq, Eq)]
pub enum What {
    /// Takes out the tap of a reader and seq.
    Void(u16, u32),
    /// Adds a tap of an instant, a place and a kind.
    Fill(Moment, u16, Kind),
    /// Gives money back for a service day.
    Credit(Credit),
    /// Withdraws the correction of a staff and seq.
    Drop(u16, u32),
}

/// A correction of an account by its customer service. Its number is the pair of the staff who gave it and
/// of how many that had given before.
#[derive(Clone, Copy, Debug, PartialEq, Eq)]
pub struct Fix {
    /// The account that is corrected, from 1.
    pub account: u32,
    /// Who gave the correction, from 1.
    pub staff: u16,
    /// The sequence number of the staff.
    pub seq: u32,
    /// What it does.
    pub what: What,
}
