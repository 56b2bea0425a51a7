use pay_numbered::NumberedSet;
use pay_rules::Fix;
use pay_rules::limits::MOST_FIXES;

/// The accepted corrections of an account. In a contract it is the finite map from each correction's number to
/// the correction, of at most `MOST_FIXES` corrections. What is refused by `Conflict` is 22, and by `Full` 23.
pub type FixSet = NumberedSet<Fix, MOST_FIXES, 0>;
