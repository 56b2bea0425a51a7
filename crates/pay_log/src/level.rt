//! How much a line matters, and how it says so.
ghost use Rattle.std.specs.Prelude.{◌≡◌};
ghost use Rattle.pay_log.specs.Levels.{number_of};

use std::fmt;

/// How much a line matters.
#[derive(Clone, Copy)]
pub enum Level {
    /// Something ended, was lost or was refused.
    Error,
    /// Somebody should look at it.
    Warning,
    /// It happens in the ordinary course.
    Information,
}

impl Level {
    /// Its number, as syslog and the system's journal have it.
    fn number(self) -> u8
        ensures { result ≡ number_of self }
    {
        match self {
            Level::Error => 3,
            Level::Warning => 4,
            Level::Information => 6,
        }
    }
}

/// What a line begins with. The system's journal reads its level there: `<3>` of an error, `<4>` of a warning, `<6>` of what happens in the
/// ordinary course. Elsewhere it is nothing.
#[derive(Clone, Copy)]
pub(crate) struct Prefix {
    /// How much the line matters.
    pub level: Level,
    /// Whether it goes to the system's journal.
    pub is_journal: bool,
}

impl fmt::Display for Prefix {
    ghost use Rattle.std.specs.Prelude.{Some};
    ghost use Rattle.pay_log.specs.Levels.{prefix_of};

    ghost output = { λ prefix. Some (prefix_of prefix.is_journal prefix.level) };

    fn fmt<W: fmt::Write>(&self, f: &mut fmt::Formatter<W>) -> fmt::Result {
        if !self.is_journal {
            return Ok(());
        }
        let number = self.level.number();
        write!(f, "<{number}>")
    }
}
