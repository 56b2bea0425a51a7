//! Laws of the days that texts name. Each law is the contract of a function that does nothing: a caller whose proof needs a
//! law calls its function.
ghost use Rattle.pay_dates.specs.Laws.{AreServiceDays, BeginWithNoHyphen};

/// A text that names a day names a service day, and begins with no hyphen, so that no command line takes it for an option.
pub fn named_days()
    ensures service { AreServiceDays }
    ensures hyphen { BeginWithNoHyphen }
{}
