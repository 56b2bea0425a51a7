use crate::lone::LoneReason;
use crate::peak::PeakReason;
use pay_tables::Span;

/// Why a journey by rail costs what it costs by itself.
#[derive(Clone, Copy, Debug, PartialEq, Eq)]
pub enum RailReason {
    /// Linked legs cost the single fare of the span of all their stations.
    SingleFare {
        /// The zones that the stations span.
        span: Span,
        /// Why it is peak or off-peak.
        peak: PeakReason,
    },
    /// A leg that ended at the station where it began is free: it took at most `same_free` seconds.
    FreeAtStation {
        /// How many seconds it took.
        seconds: u64,
    },
    /// A leg that ended at the station where it began took longer, and costs the single fare of the
    /// station's own span.
    SameStation {
        /// How many seconds it took.
        seconds: u64,
        /// The zones of the station.
        span: Span,
        /// Why it is peak or off-peak.
        peak: PeakReason,
    },
    /// A tap that stands alone costs the maximum fare.
    MaximumFare(LoneReason),
}
