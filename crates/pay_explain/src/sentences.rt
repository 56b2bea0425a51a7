//! Why a journey costs what it costs, as it is printed.
use crate::amounts::Clock;
use pay_dates::DatedDay;
use pay_day::Moment;
use pay_tables::Span;
use pay_why::{BoardingReason, LoneReason, PeakReason, RailReason};
use std::fmt;

/// When something was, for a service day: `at 08:40:00`, or `on day 19729, 2024-01-07, at 23:10:00`.
#[derive(Clone, Copy)]
pub struct When {
    /// The service day of which is spoken.
    pub day: u32,
    /// The moment.
    pub moment: Moment,
}

impl fmt::Display for When {
    ghost use Rattle.std.specs.Prelude.{Some};
    ghost use Rattle.pay_explain.specs.Sentences.{when_text};

    ghost output = { λ when. Some (when_text when.day when.moment) };

    fn fmt<W: fmt::Write>(&self, f: &mut fmt::Formatter<W>) -> fmt::Result {
        let clock = Clock(self.moment);
        let day = self.moment.day();
        if day == self.day {
            write!(f, "at {clock}")
        } else {
            let day = DatedDay::of(day);
            write!(f, "on {day}, at {clock}")
        }
    }
}

/// Fare zones: `zones 1 to 2`, or `zone 1`.
#[derive(Clone, Copy)]
pub struct Zones(pub Span);

impl fmt::Display for Zones {
    ghost use Rattle.std.specs.Prelude.{Some};
    ghost use Rattle.pay_explain.specs.Sentences.{zones_text};

    ghost output = { λ zones. Some (zones_text zones.0) };

    fn fmt<W: fmt::Write>(&self, f: &mut fmt::Formatter<W>) -> fmt::Result {
        let from = self.0.from;
        let to = self.0.to;
        if from == to {
            write!(f, "zone {from}")
        } else {
            write!(f, "zones {from} to {to}")
        }
    }
}

/// Whether a journey is peak or off-peak, and why: `peak (morning)`.
#[derive(Clone, Copy)]
pub struct Peakness(pub PeakReason);

impl fmt::Display for Peakness {
    ghost use Rattle.std.specs.Prelude.{Some};
    ghost use Rattle.pay_explain.specs.Sentences.{peak_text};

    ghost output = { λ peak. Some (peak_text peak.0) };

    fn fmt<W: fmt::Write>(&self, f: &mut fmt::Formatter<W>) -> fmt::Result {
        f.write_str(match self.0 {
            PeakReason::Weekend => "off-peak (weekend)",
            PeakReason::Holiday => "off-peak (public holiday)",
            PeakReason::Morning => "peak (morning)",
            PeakReason::Evening => "peak (evening)",
            PeakReason::IntoZoneOne => "off-peak (evening, into zone 1)",
            PeakReason::OutsidePeakHours => "off-peak",
        })
    }
}

/// Why a boarding pays or is free.
#[derive(Clone, Copy)]
pub struct BoardingWhy {
    /// The reason.
    pub reason: BoardingReason,
    /// The service day of the boarding.
    pub day: u32,
    /// The Hopper time in seconds.
    pub hopper: u32,
}

impl fmt::Display for BoardingWhy {
    ghost use Rattle.std.specs.Prelude.{Some};
    ghost use Rattle.pay_explain.specs.Sentences.{boarding_text};

    ghost output = { λ why. Some (boarding_text why.day why.hopper why.reason) };

    fn fmt<W: fmt::Write>(&self, f: &mut fmt::Formatter<W>) -> fmt::Result {
        let day = self.day;
        let hopper = self.hopper;
        match self.reason {
            BoardingReason::First => f.write_str("paid: the first boarding"),
            BoardingReason::PaysAfter(moment) => {
                let when = When { day, moment };
                write!(f, "paid: more than {hopper} s after the boarding {when}")
            }
            BoardingReason::FreeAfter(moment) => {
                let when = When { day, moment };
                write!(f, "free: within {hopper} s of the boarding {when}")
            }
        }
    }
}

/// Why a rail tap stands alone.
#[derive(Clone, Copy)]
pub struct LoneWhy {
    /// The reason.
    pub reason: LoneReason,
    /// The service day of the tap.
    pub day: u32,
}

impl fmt::Display for LoneWhy {
    ghost use Rattle.std.specs.Prelude.{Some};
    ghost use Rattle.pay_explain.specs.Sentences.{lone_text};

    ghost output = { λ why. Some (lone_text why.day why.reason) };

    fn fmt<W: fmt::Write>(&self, f: &mut fmt::Formatter<W>) -> fmt::Result {
        let day = self.day;
        match self.reason {
            LoneReason::NoExit => f.write_str("no tap out comes next"),
            LoneReason::LateExit { exit, allowed } => {
                let when = When { day, moment: exit };
                write!(f, "the tap out {when} is more than {allowed} s later")
            }
            LoneReason::NoEntry => f.write_str("no tap in comes right before"),
            LoneReason::EarlyEntry { entry, allowed } => {
                let when = When { day, moment: entry };
                write!(f, "the tap in {when} is more than {allowed} s earlier")
            }
        }
    }
}

/// Why a journey by rail costs what it costs.
#[derive(Clone, Copy)]
pub struct RailWhy {
    /// The reason.
    pub reason: RailReason,
    /// The service day of the journey.
    pub day: u32,
}

impl fmt::Display for RailWhy {
    ghost use Rattle.std.specs.Prelude.{Some};
    ghost use Rattle.pay_explain.specs.Sentences.{rail_text};

    ghost output = { λ why. Some (rail_text why.day why.reason) };

    fn fmt<W: fmt::Write>(&self, f: &mut fmt::Formatter<W>) -> fmt::Result {
        let day = self.day;
        match self.reason {
            RailReason::SingleFare { span, peak } => {
                let zones = Zones(span);
                let peak = Peakness(peak);
                write!(f, "{zones}, {peak}")
            }
            RailReason::FreeAtStation { seconds } => write!(f, "free: out after {seconds} s"),
            RailReason::SameStation {
                seconds,
                span,
                peak,
            } => {
                let zones = Zones(span);
                let peak = Peakness(peak);
                write!(f, "out after {seconds} s, {zones}, {peak}")
            }
            RailReason::MaximumFare(reason) => {
                let lone = LoneWhy { reason, day };
                write!(f, "maximum fare: {lone}")
            }
        }
    }
}
