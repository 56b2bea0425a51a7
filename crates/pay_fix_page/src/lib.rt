//! The pages on which a clerk corrects an account: what can be corrected, what a correction would change or why it would be refused, and
//! what came of it.
#![tactic(auto)]

mod asking_forms;
mod back_forms;
mod choosing;
mod fix_lines;
mod fix_rows;
mod previews;
mod sent;
mod tap_rows;

pub use choosing::choices_page;
pub use previews::{Owed, Preview, preview_page};
pub use sent::{Done, done_page, refusal_page};
