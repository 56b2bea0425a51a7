//! A database in memory that lives as long as its program: trees of pages, as in a file. And one in a file.
#![tactic(auto)]

mod database;
mod file;
pub mod laws;
pub mod limits;
mod scratch_file;

pub use database::new_database;
pub use file::open_database;
pub use scratch_file::ScratchFile;
