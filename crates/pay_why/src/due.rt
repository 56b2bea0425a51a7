use pay_money::Pence;

/// Why so much is due of a week through a day.
#[derive(Clone, Copy, Debug, PartialEq, Eq)]
pub struct DueReason {
    /// What the week costs through that day.
    pub price: Pence,
    /// What the standing Credits of the days from Monday through that day come to.
    pub credits: Pence,
    /// What is due: the price less the Credits, and nothing where these are more.
    pub due: Pence,
}
