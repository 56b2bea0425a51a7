/// What an accepted correction does now.
#[derive(Clone, Copy, Debug, PartialEq, Eq)]
pub enum FixReason {
    /// It stands, and does what it says.
    Stands,
    /// It does nothing: the Drop of this staff and seq withdrew it.
    DroppedBy(u16, u32),
    /// It stands, and does nothing: a Void of a tap that is not accepted, or a Drop of a correction that is
    /// not, or of a Drop.
    NamesNothing,
}

/// Whether an accepted tap counts.
#[derive(Clone, Copy, Debug, PartialEq, Eq)]
pub enum TapReason {
    /// It is effective.
    Effective,
    /// It does not count: the Void of this staff and seq takes it out.
    VoidedBy(u16, u32),
}
