//! A law of databases in memory. Each law is the contract of a function that does nothing: a caller whose proof needs a law calls its
//! function.
ghost use Rattle.pay_disk.specs.Memory.{ReturnsAll};

use crate::scratch_file::ScratchFile;
use sqlite_disk::Disk;

/// A database in memory returns what was written: what is so of one whose disk is clean is so of each.
pub fn memory_returns()
    ensures { ReturnsAll ⟦<ScratchFile as Disk>⟧ }
{}
