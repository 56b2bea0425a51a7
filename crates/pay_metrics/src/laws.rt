//! What is true of every text of metrics.
ghost use Rattle.pay_metrics.specs.Laws.{LinesAreWhole};

/// The last line of each text ends with a newline, as a Prometheus server wants it.
pub fn lines_are_whole()
    ensures { LinesAreWhole }
{}
