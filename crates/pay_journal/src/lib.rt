//! Journals: files of lines, one for each tap and each correction that was newly accepted. [`line_of`] spells such a line, and
//! [`keep_answer`] says when one is kept, by whatever [`Keeper`]: by a [`LineKeeper`], which writes it to a file, or by [`NoKeeper`].
//! [`KeptDesk`] is a desk over a shard that has it kept before its reply can be got. [`replay`] hands the lines of a journal to a desk
//! once more. What journals give back, whole, cut or torn, is said in `pay_journal_laws`.
#![tactic(auto)]

mod ahead;
mod desk;
mod keeper;
mod keeping;
mod lasting;
pub mod laws;
pub mod limits;
mod line_keeper;
mod lines;
mod replaying;
mod whole;

pub use desk::KeptDesk;
pub use keeper::{Keeper, NoKeeper, NotKept};
pub use keeping::keep_answer;
pub use lasting::Lasting;
pub use line_keeper::LineKeeper;
pub use lines::{line_of, spelled_of};
pub use replaying::{ReplayFault, Replayed, replay};
pub use whole::whole_bytes;
