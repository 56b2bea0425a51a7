//! The jobs `run`, `check`, `statement`, `explain`, `replay`, `audit` and `rebuild` of the program, by their words: their fare files, journals and
//! ledgers are files, and lines come from standard input and go to standard output. And the files of journals, which the job `serve` uses too.
#![tactic(auto)]

mod audit;
mod backup;
mod calendar_date;
mod check;
mod close_watch;
mod errors;
mod input;
mod journal;
mod kept;
mod lane_files;
mod last_close;
mod ledgers;
mod loads;
mod noted;
mod reporting_keeper;
mod run;
mod start;
mod stats;
mod texts;

pub use audit::{audit_files, path_of, rebuild_lines, refuse_missing, texts_at};
pub use check::check_fares;
pub use close_watch::CloseWatch;
pub use errors::memory_or;
pub use input::{fares_text, print_warnings, report_line};
pub use journal::{
    JournalFiles, is_new_ledger, open_journals, path_in, ready_ledger, settle_journals,
};
pub use kept::{KeptFares, kept_in, noted_in};
pub use lane_files::{LaneFiles, StaffFiles};
pub use last_close::LastClose;
pub use ledgers::Ledgers;
pub use loads::Loads;
pub use noted::NotedPosting;
pub use pay_ledger_files::new_ledger;
pub use reporting_keeper::ReportingKeeper;
pub use run::run_session;
pub use start::Start;
pub use texts::{replay_journals, write_statement};
