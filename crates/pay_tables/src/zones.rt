/// The fare zones that a journey spans, from the first to the last.
#[derive(Clone, Copy, Debug, PartialEq, Eq)]
pub struct Span {
    /// The first zone.
    pub from: u8,
    /// The last zone: `from` or above.
    pub to: u8,
}
