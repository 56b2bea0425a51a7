//! Sets of what has a number of its own, as the taps and the corrections of an account have.
#![tactic(auto)]

mod fronted_list;
mod numbered_blocks;
mod numbered_set;

pub use numbered_blocks::NumberedBlocks;
pub use numbered_set::NumberedSet;
