//! Whose items are whose.
ghost use Rattle.std.specs.Prelude.{ℕ};

/// Says of each item which sender it is from. It is a type of the caller's, of which no value is made.
pub trait Senders<T> {
    /// The number of the sender that the item is from.
    ghost sender: { T → ℕ };
}
