//! The jobs of the program, by the texts of their files, below the reading of words and of files. A session has two steps, [`begin`] and
//! [`Begun::run`]; between them the caller opens the ledger, in memory or in a file. [`statement_texts`] and
//! [`replay_texts`] are other jobs. Of the job `serve` the first step, [`begin_service`], is here; the second one is
//! in `pay_serve_job`.
#![tactic(auto)]

mod audit;
mod begun;
mod fault;
mod kept;
mod lacked;
mod last;
mod ledger;
mod output;
mod rebuild;
mod replays;
mod run;
mod statement;

pub use audit::{Audit, Open, Unsettled, audit_journals, audit_ledger};
pub use begun::{Begun, FaresAndZone};
pub use fault::{Fault, FileFault};
pub use kept::compare_texts;
pub use lacked::Lacked;
pub use last::{posting_of_text, take_noted, text_of_posting};
pub use ledger::take_with;
pub use pay_book::Book;
pub use pay_close::{NoWatch, NotClosed, Watch};
pub use pay_journal::{Keeper, LineKeeper, NoKeeper, NotKept, whole_bytes};
pub use pay_kept::{has_ledger, kept_text};
pub use pay_ledger::{LastPosting, Ledger};
pub use pay_run::Ran;
pub use pay_shard::Command;
pub use rebuild::rebuilt;
pub use replays::{replay_texts, replayed_texts};
pub use run::{begin, begin_service, is_over, read_zone, told};
pub use sqlite::Alter;
pub use statement::statement_texts;
