//! A list in blocks: one more is put in, or taken out, without moving more than a block's items.
#![tactic(auto)]

mod block;
mod blocks;
mod comes_after;
mod later;
pub mod limits;
mod many_blocks;

pub use blocks::Blocks;
pub use comes_after::{ComesAfter, place_among};
