//! Runs of lines over one shard, and the machine that answers them. [`replayed_desk`] gives a desk that has what a journal has,
//! [`run_lines`] answers the lines of a reader over such a desk, has a keeper keep those that it newly accepts, and closes days into a
//! ledger, and [`run_lines_without_ledger`] closes none; [`answer_line`] answers one line by itself; [`week_by_lines`] gives what an
//! account has of a week after such lines. `laws` says what the machine means by which lines are answered, and what a journal gives back
//! of it.
#![tactic(auto)]

pub mod laws;
mod line;
mod lines;
mod past;
mod week;

pub use line::answer_line;
pub use lines::{Ran, new_desk, run_lines, run_lines_without_ledger};
pub use past::{replay_more, replayed_desk, replayed_lines};
pub use week::{WeekFault, week_by_lines};
