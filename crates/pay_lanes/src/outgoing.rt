use pay_shard::Answer;

/// An answer on its way to a lane.
#[derive(Drop)]
pub struct Outgoing {
    /// The number of the lane.
    pub lane: u8,
    /// The answer.
    pub answer: Answer,
}
