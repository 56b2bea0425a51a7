use pay_numbered::NumberedBlocks;
use pay_rules::Tap;
use pay_rules::limits::MOST_TAPS;

/// Up to so many taps lie in the set itself, which spares an account of few taps a list in memory of its
/// own. Only the others lie in one.
const TAPS_IN_THE_SET: usize = 4;

/// The accepted taps of an account. In a contract it is the finite map from each tap's number to the
/// tap, of at most `MOST_TAPS` taps. A tap that is refused by `Conflict` is 20, and by `Full` 21.
pub type TapSet = NumberedBlocks<Tap, MOST_TAPS, TAPS_IN_THE_SET>;
