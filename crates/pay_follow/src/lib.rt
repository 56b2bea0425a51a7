//! A replica of a partition of a replicated log. [`follow`] answers the lines of a [`Partition`], one after another, by the machine of
//! `pay_run`, and publishes each reply under the place of its line: so it is a function of the lines alone. [`follow_on`] opens the
//! partition again where the connection to the log was lost, and goes on after the line that was read last.
#![tactic(auto)]

mod answered;
mod following;
pub mod laws;
mod partition;
mod resuming;
mod stop;

pub use answered::Answered;
pub use following::follow;
pub use partition::{Compares, Opens, Partition};
pub use resuming::follow_on;
pub use stop::{LogFault, Stop};
