//! The back office of pay as you go travel: reads taps as lines, and answers each with the price of its day and its week.
#![tactic(auto)]

mod explain;
mod follow;
mod page;
mod program;
mod serve;
mod statement;
mod stay;

use pay_log::{Level, Log};
use std::process::ExitCode;

fn main(rt: HostRuntime) -> ExitCode {
    match program::execute(rt) {
        Ok(status) => status,
        Err(fault) => {
            rt.say(Level::Error, fault);
            ExitCode::from(fault.status())
        }
    }
}
