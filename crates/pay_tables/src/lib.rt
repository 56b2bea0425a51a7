//! What a fare file says: its zones, fares, rules, bands, holidays, places and interchanges, and its editions, by which
//! fares change on a day. And the span of zones of the stations that a journey touches.
#![tactic(auto)]

mod band;
mod counts;
mod edition;
mod editions;
mod interchange;
pub mod laws;
pub mod limits;
mod network;
mod parts;
mod place;
mod places;
mod rules;
mod single;
mod span_bounds;
mod tables;
mod zones;

pub use band::{Band, Cover};
pub use counts::Counts;
pub use edition::Edition;
pub use editions::Editions;
pub use interchange::Interchange;
pub use parts::{EditionParts, FareParts};
pub use place::Place;
pub use places::Places;
pub use rules::Rules;
pub use single::Single;
pub use span_bounds::{SpanBounds, span};
pub use tables::Tables;
pub use zones::Span;
