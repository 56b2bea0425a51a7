//! How much of its journal a desk over one shard keeps in memory.
ghost use Rattle.std.specs.Prelude.{◌≡◌, Bool};

/// Says whether a desk over one shard forgets the items of its journal.
pub trait Memory: Copy + Drop {
    /// Whether it does.
    ghost forgets: { Bool };

    /// The same. Then it has no more than a block of them in memory.
    fn forgets() -> bool
        ensures { result ≡ forgets };
}

/// All items can be got.
#[derive(Clone, Copy, Drop)]
pub struct KeepsAll;

/// Items are forgotten, a block at a time.
#[derive(Clone, Copy, Drop)]
pub struct KeepsBlock;

impl Memory for KeepsAll {
    ghost use Rattle.std.specs.Prelude.{false};

    ghost forgets = { false };

    fn forgets() -> bool {
        false
    }
}

impl Memory for KeepsBlock {
    ghost use Rattle.std.specs.Prelude.{true};

    ghost forgets = { true };

    fn forgets() -> bool {
        true
    }
}
