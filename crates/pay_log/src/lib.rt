//! The program's log: lines for people on standard error, each with how much it matters. It knows nothing of what they say.
#![tactic(auto)]

mod level;
mod limit;
mod limiter;
mod log;

pub use level::Level;
pub use limit::Limit;
pub use limiter::Limiter;
pub use log::Log;
