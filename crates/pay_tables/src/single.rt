use crate::zones::Span;
use pay_money::Pence;

/// The single fare of a span.
#[derive(Clone, Copy)]
pub struct Single {
    /// The zones that it is for.
    pub span: Span,
    /// The fare of a journey that is peak: 0 to 100,000 pence.
    pub peak: Pence,
    /// The fare of one that is off-peak: 0 to 100,000 pence.
    pub off: Pence,
}
