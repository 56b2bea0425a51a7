//! A law of the lines that are kept. A law is the contract of a function that does nothing: a caller whose proof needs it calls this.
ghost use Rattle.pay_journal.specs.Lines.{AskedByItsLine};

/// What a line has a desk accept is spelled by that line: a tap and a correction have the command that asked for them.
pub fn one_line()
    ensures { AskedByItsLine }
{}
