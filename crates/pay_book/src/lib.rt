//! An account that is kept, and not priced anew: a tap that comes late disturbs the journeys around it, and nothing else.
#![tactic(auto)]

mod boardings;
mod book;
mod by_marks;
mod day_sums;
mod days;
mod history;
mod journey_list;
pub mod laws;
mod marked_taps;
mod put_in;
mod rail;
mod stretch;

pub use book::Book;
pub use history::{Sent, book_of};
