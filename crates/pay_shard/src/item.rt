use crate::command::Command;

/// A command with the lane that sent it and that lane's ticket for it.
#[derive(Clone, Copy, Debug, PartialEq, Eq)]
pub struct Entry {
    /// The number of the lane.
    pub lane: u8,
    /// The lane's ticket.
    pub ticket: u64,
    /// The command.
    pub command: Command,
}

/// An entry in its place in the journal.
#[derive(Clone, Copy, Debug, PartialEq, Eq)]
pub struct Item {
    /// What was asked.
    pub entry: Entry,
    /// Whether memory for it was refused: then it changed nothing.
    pub refused_memory: bool,
}
