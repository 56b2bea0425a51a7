//! The keys of a fare file: what stands at each, or why it is refused, and where. `pay_editions` reads the whole.
#![tactic(auto)]

mod bands;
mod fault;
mod holidays;
mod interchanges;
mod key;
mod keys;
mod minutes;
mod misread;
mod named_day;
mod places;
mod routes;
mod rules;
mod singles;
mod spot;
mod stations;

pub use bands::bands_told;
pub use fault::FareFileFault;
pub use holidays::holidays_told;
pub use interchanges::interchanges_told;
pub use key::Key;
pub use keys::{inner_table_told, integer, integer_at, integer_told, items_told, member};
pub use minutes::minutes_told;
pub use misread::Misread;
pub use named_day::NamedDay;
pub use places::places_told;
pub use rules::rules_at_told;
pub use singles::singles_told;
pub use spot::{FaultPlace, Spot};
