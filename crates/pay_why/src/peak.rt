/// Why a journey by rail is peak or off-peak: by its first tap, and by the evening exception.
#[derive(Clone, Copy, Debug, PartialEq, Eq)]
pub enum PeakReason {
    /// Off-peak: the service day is a Saturday or a Sunday.
    Weekend,
    /// Off-peak: the service day is a listed public holiday, from Monday to Friday.
    Holiday,
    /// Peak: from 06:30:00 up to but not including 09:30:00.
    Morning,
    /// Peak: from 16:00:00 up to but not including 19:00:00.
    Evening,
    /// Off-peak: in the evening, but by the exception for a run from outside of zone 1 into it.
    IntoZoneOne,
    /// Off-peak: at another time of Monday to Friday.
    OutsidePeakHours,
}
