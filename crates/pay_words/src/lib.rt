//! The words that the program is started with, and the job that they ask for.
#![tactic(auto)]

mod help;
pub mod limits;
mod node;
mod words;

pub use words::{
    AuditWords, CheckWords, ExplainWords, FollowWords, Job, LogAction, LogWords, PageWords,
    RebuildWords, ReplayWords, RunWords, ServeWords, StatementWords, StayWords, WordsFault,
    read_words,
};
